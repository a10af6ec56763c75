//! That the lines of a run tell what was posted and answered: a law of the machine's definitions.
#![tactic(auto)]

ghost use Rattle.machine_told.specs.Laws.{AnswersAreTold, PostsAreTold};

/// The job lines of a run have its posted jobs, in order, and its turn lines the answers that it took.
pub fn posts_and_answers_are_told()
    ensures posts { PostsAreTold }
    ensures answers { AnswersAreTold }
{}
