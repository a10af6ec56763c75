//! What is so wherever the hub comes to stand in a run: how many items stand at most, that each next move is one that
//! its text may have, that each offer of a channel has its Wake, and that no run comes far with what it counts: its
//! timeouts, jobs, what objects count, items that were made and ready numbers. Laws of the machine's definitions, each
//! as the contract of a function without a body of its own.
#![tactic(auto)]

ghost use Rattle.machine_reached.specs.Bounds.{ItemsBounded, LastBounded};
ghost use Rattle.machine_reached.specs.Laws.{AnswersAreNoMoves, CountsAreFew, DeliveriesAreNoMoves, DeliveriesHaveRoom, ExitsAreNoMoves, MovesAreCounted, MovesHaveRoom, NumbersAreFew, RestsHaveRoom, RunsLeaveRoom, RunsStandIn, TurnsAreSteps};
ghost use Rattle.machine_reached.specs.Meant.{TextsAreMeant};
ghost use Rattle.machine_reached.specs.Offers.{OffersStand};

/// In every state of a run the items are at most eleven for each greenlet, one for each link and one for each kill that
/// is not delivered, of which at most `MOST_KILLS` stand; so they are in the last one.
pub fn items_are_bounded()
    ensures always { ItemsBounded }
    ensures last { LastBounded }
{}

/// In every state of a run of a well-formed scenario the scenario is the one that the run began with, the next move is
/// one that a scenario may have, functions are there, each object is as it was declared, and what is asked of an object
/// is asked of one of the kind that it wants.
pub fn texts_are_meant()
    ensures { TextsAreMeant }
{}

/// In every state of a run of a well-formed scenario each offer of a channel has the place in order of making of a Wake
/// that stands on that channel, waits until the offer is taken and is not to be delivered yet; no two offers of a
/// channel have the same.
pub fn offers_stand()
    ensures { OffersStand }
{}

/// In every state of a run of a well-formed scenario the counts are few for the moves that were made, whatever is
/// answered.
pub fn counts_are_few()
    ensures { CountsAreFew }
{}

/// Where each turn is counted and takes one answer at most, the ready numbers are few for the moves and turns. Each
/// such state is one of a run.
pub fn numbers_are_few()
    ensures few { NumbersAreFew }
    ensures reached { TurnsAreSteps }
{}

/// A move is counted as one, and neither a delivery nor LoopExit nor an answer counts one; none of them counts a turn.
pub fn moves_are_counted()
    ensures moved { MovesAreCounted }
    ensures delivered { DeliveriesAreNoMoves }
    ensures exited { ExitsAreNoMoves }
    ensures answered { AnswersAreNoMoves }
{}

/// Within the budgets that a run may be given there is room for the small steps of each move, delivery and answer.
pub fn steps_have_room()
    ensures moved { MovesHaveRoom }
    ensures delivered { DeliveriesHaveRoom }
    ensures rested { RestsHaveRoom }
{}

/// The last state of a run is one in which the hub stands where each turn is counted and takes one answer at most,
/// after no more turns and moves than its budgets, so that each count is far below what its type holds.
pub fn runs_leave_room()
    ensures stand { RunsStandIn }
    ensures room { RunsLeaveRoom }
{}
