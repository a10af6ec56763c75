//! Whether an answer is legal, by the outstanding jobs alone: what it costs grows neither with them nor with what was
//! answered before.
ghost use Rattle.std.specs.Prelude.{◌≡◌, ◌↔◌, IsTrue, List, nat_eq};
ghost use Rattle.std.specs.HashMap.{get};
ghost use Rattle.world_rules.specs.declared.question.DueJob.{DueJob};
ghost use Rattle.world.specs.Ruled.{IsLegalNow};
ghost use Rattle.world.specs.Outstanding.{Finds};

use crate::due::moment_of;
use crate::outstanding::OutstandingJobs;
use gv_values::Answer;
use world_rules::{LAST_MOMENT, Question};

/// Whether the answer to the question is legal at this moment, where these jobs are outstanding.
pub(crate) fn is_legal(
    outstanding: &OutstandingJobs,
    moment: u64,
    question: Question,
    answer: Answer,
) -> bool
    ensures { (jobs : List DueJob) → Finds (get nat_eq outstanding.now.by_number) jobs → IsTrue result ↔ IsLegalNow jobs moment question answer }
{
    let at = moment_of(answer);
    if at < moment || at > LAST_MOMENT {
        return false;
    }
    match (question, answer) {
        (
            _,
            Answer::Done {
                number,
                outcome,
                ..
            },
        ) => outstanding.has_end(number, outcome),
        (Question::Wait(Some(until)), Answer::Elapsed { at }) => until <= at,
        (Question::Poll, Answer::Nothing { .. }) => true,
        _ => false,
    }
}
