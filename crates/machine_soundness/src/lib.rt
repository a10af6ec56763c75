//! That the machine keeps its states sound: laws of its definitions, each as the contract of a
//! function without a body of its own.
//!
//! Soundness is said with the kinds of greenlets: items, members of groups and main are never raw. The definitions
//! alone would let a raw body park, so the law of a move has the premise that a raw body waits for nothing.
#![tactic(auto)]

ghost use Rattle.machine_soundness.specs.Onward.{LandsOnward};
ghost use Rattle.machine_soundness.specs.Laws.{AnswersSoundly, DeliversSoundly, ExitsSoundly, GoesUnparked, MovesSoundly, ParksOnce, StartsSoundly};

/// Each step of a run leads from a sound state to a sound one: main's start, a move, a delivery,
/// LoopExit and an answer. A move is one that a scenario may have: a raw body neither waits nor enters
/// a timeout block.
pub fn steps_stay_sound()
    ensures started { StartsSoundly }
    ensures moved { MovesSoundly }
    ensures delivered { DeliversSoundly }
    ensures exited { ExitsSoundly }
    ensures answered { AnswersSoundly }
{}

/// In a sound state at most one Wake and one Late is of each greenlet, and none is of the greenlet under
/// way.
pub fn waits_are_single()
    ensures once { ParksOnce }
    ensures under_way { GoesUnparked }
{}

/// What lands at a greenlet whose host is live goes on in some greenlet, or the run is over, or the host
/// has ended: no landing stops for want of steps.
pub fn landings_go_onward()
    ensures { LandsOnward }
{}
