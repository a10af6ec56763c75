//! What whole turns and runs keep: laws of the machine's definitions, each as the contract of a function without
//! a body of its own.
#![tactic(auto)]

ghost use Rattle.machine_turns.specs.Logs.{AnswersKnowing, DeliversKnowing, ExitsKnowing, LegalAnswersMakeLegalLogs, MayAskItsQuestion, MovesKnowing, RunsAskLegally, RunsTakeTheirAnswers, ScriptsStop, StartsKnowing};
ghost use Rattle.machine_turns.specs.Turns.{TurnsDeliverAll};

/// Where the hub rests after the deliveries of a turn, no item has a number below the mark.
pub fn turns_deliver_all()
    ensures { TurnsDeliverAll }
{}

/// Each step of a run knows which jobs were posted and which of them have arrived: main's start, a move, a delivery,
/// LoopExit and a legal answer. What such a state asks may be asked.
pub fn steps_know_their_jobs()
    ensures started { StartsKnowing }
    ensures moved { MovesKnowing }
    ensures delivered { DeliversKnowing }
    ensures exited { ExitsKnowing }
    ensures answered { AnswersKnowing }
    ensures asked { MayAskItsQuestion }
{}

/// Each question of a run may be asked where the answers before it are legal, and so may the one at which the run finds
/// no answer: so the log of a run whose answers are legal is a legal log, and a world is asked nothing else.
pub fn runs_ask_legally()
    ensures asked { RunsAskLegally }
    ensures legal { LegalAnswersMakeLegalLogs }
{}

/// A run under the rule of a script finds an answer to each of its questions, so it stops for a cause, and the program
/// has the status and the line of that cause.
pub fn scripts_stop()
    ensures { ScriptsStop }
{}

/// The answers in the log of a run are the first of those that it was given.
pub fn runs_take_their_answers()
    ensures { RunsTakeTheirAnswers }
{}
