//! The rule of a script.
ghost use Rattle.std.specs.Prelude.{◌≡◌, List};
ghost use Rattle.world_rules.specs.declared.question.DueJob.{DueJob};
ghost use Rattle.world_rules.specs.Legal.{moment_of};
ghost use Rattle.world_rules.specs.Script.{due_at, first_due, done_by, scripted};
ghost use Rattle.world.specs.Upshots.{said};

use gv_values::Answer;
use world_rules::{DueJob, LAST_MOMENT, Question, eval};

/// The moment at which a job is done that is posted at a moment and takes so long.
pub(crate) fn due_at(moment: u64, takes: u64) -> u64
    ensures { result ≡ due_at moment takes }
{
    moment.saturating_add(takes).min(LAST_MOMENT)
}

/// The moment at which an answer was given.
pub(crate) fn moment_of(answer: Answer) -> u64
    ensures { result ≡ moment_of answer }
{
    match answer {
        Answer::Done { at, .. } | Answer::Elapsed { at } | Answer::Nothing { at } => at,
    }
}

/// What a script answers, before the job that it names is evaluated.
#[derive(Clone, Copy)]
pub(crate) enum Upshot {
    /// The end of this job, at this moment.
    Ends(DueJob, u64),
    /// That the moment asked for has come.
    Elapses(u64),
    /// That no job has ended.
    Nothing(u64),
}

fn done_by(limit: u64, moment: u64, first: Option<DueJob>, otherwise: Upshot) -> Upshot
    ensures { said result ≡ done_by limit moment first (said otherwise) }
{
    match first {
        Some(job) if job.due <= limit => Upshot::Ends(job, job.due.max(moment)),
        _ => otherwise,
    }
}

/// What a script answers whose moment grows by the tick at each Poll, where this outstanding job is done first.
pub(crate) fn decide(tick: u64, first: Option<DueJob>, moment: u64, question: Question) -> Upshot
    ensures { (jobs : List DueJob) → first ≡ first_due jobs → said result ≡ scripted tick jobs moment question }
{
    match question {
        Question::Poll => {
            let now = due_at(moment, tick);
            done_by(now, now, first, Upshot::Nothing(now))
        }
        Question::Wait(None) => done_by(LAST_MOMENT, moment, first, Upshot::Elapses(moment)),
        Question::Wait(Some(until)) => {
            done_by(until, moment, first, Upshot::Elapses(until.max(moment)))
        }
    }
}

/// The answer, for which the job is evaluated.
pub(crate) fn answer_of(upshot: Upshot) -> Answer
    ensures { result ≡ said upshot }
{
    match upshot {
        Upshot::Ends(job, at) => Answer::Done {
            number: job.number,
            outcome: eval(job.job),
            at,
        },
        Upshot::Elapses(at) => Answer::Elapsed { at },
        Upshot::Nothing(at) => Answer::Nothing { at },
    }
}
