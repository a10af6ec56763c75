//! That the requests of a body have few arguments, as laws of the definitions.
ghost use Rattle.body_frames.specs.Laws.{BeginsFew, HeadHasFew, MovesFew, ResumesFew, StepsAskFew, UnwindsFew};

/// A body whose calls have few arguments begins so, and each step keeps that: a block that is left, a move,
/// and all that a body does up to its next request. The request itself has few arguments, and so has the
/// statement at the head of what is still to do.
pub fn steps_keep_few()
    ensures begun { BeginsFew }
    ensures left { UnwindsFew }
    ensures head { HeadHasFew }
    ensures moved { MovesFew }
    ensures resumed { ResumesFew }
    ensures asked { StepsAskFew }
{}
