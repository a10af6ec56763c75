//! Jobs in order of posting.
ghost use Rattle.std.specs.Prelude.{◌≡◌, Some, None};
ghost use Rattle.std.specs.Option.{option_copied};
ghost use Rattle.machine.specs.Questions.{any_outstanding, is_outstanding};
ghost use Rattle.machine.specs.Holds.{arrived, job_at, outcome_of_job};
ghost use Rattle.hub_objects.specs.Jobs.{job_came};

use gv_values::{Job, JobOutcome, Outcome, Value};
use machine::state::JobState;
use std::marker::Model;

/// A job that was posted, with what it came to as an outcome too.
#[derive(Drop)]
pub struct Posted {
    job: JobState,
    came: Option<Outcome>,
}

impl Model for Posted {
    ghost use Rattle.std.specs.Prelude.{◌≡◌};
    ghost use Rattle.machine.specs.declared.state.JobState.{JobState as Shown};
    ghost use Rattle.machine.specs.Holds.{arrived};

    ghost Value = { Shown };

    ghost view = { λ p. p.job };

    ghost invariant = { λ p. p.came ≡ arrived p.job.outcome };
}

impl Posted {
    /// A job for this native pool that has not arrived.
    pub fn new(job: Job, pool: u32) -> Posted
        ensures { result ≡ record { job = job; pool = pool; outcome = None } }
    {
        Posted {
            job: JobState {
                job,
                pool,
                outcome: None,
            },
            came: None,
        }
    }

    /// The native pool that it was posted to.
    pub fn pool(&self) -> u32
        ensures { result ≡ self.now.pool }
    {
        self.job.pool
    }

    /// Whether it has not arrived.
    fn is_outstanding(&self) -> bool
        ensures { result ≡ is_outstanding self.now }
    {
        self.job.outcome.is_none()
    }

    /// What it came to, if it has arrived.
    pub fn outcome(&self) -> Option<&Outcome>
        ensures { option_copied result ≡ arrived self.now.outcome }
    {
        self.came.as_ref()
    }

    /// It has come to this.
    fn arrive(&mut self, outcome: JobOutcome)
        ensures { self.new ≡ record self.old { outcome = Some outcome } }
    {
        self.job.outcome = Some(outcome);
        self.came = Some(outcome_of_job(outcome));
    }
}

/// What a job came to, as an outcome.
fn outcome_of_job(outcome: JobOutcome) -> Outcome
    ensures { result ≡ outcome_of_job outcome }
{
    match outcome {
        JobOutcome::Int(z) => Outcome::Value(Value::Int(z)),
        JobOutcome::Fault(kind) => Outcome::Fault(kind),
    }
}

/// Whether a job has not arrived. Looks at the last ones first: of many jobs the old ones have mostly arrived.
pub fn any_outstanding(jobs: &[Posted]) -> bool
    ensures { result ≡ any_outstanding jobs.now }
{
    let mut left = jobs.len();
    while left > 0 {
        left -= 1;
        if jobs[left].is_outstanding() {
            return true;
        }
    }
    false
}

/// The job of this number; they are counted from 1.
#[tactic(auto, using(crate::proofs::JobSets::numbered, crate::proofs::JobSets::none_zero))]
pub fn job_at(jobs: &[Posted], number: u32) -> Option<&Posted>
    ensures { option_copied result ≡ job_at number jobs.now }
{
    if number == 0 {
        return None;
    }
    jobs.get(number as usize - 1)
}

/// The job of this number has come to this, and answers its pool, if there is such a job.
#[tactic(auto, using(crate::proofs::JobSets::job_set, crate::proofs::JobSets::job_none, crate::proofs::JobSets::job_zero))]
pub fn arrive_at(jobs: &mut [Posted], number: u32, outcome: JobOutcome) -> Option<u32>
    ensures { job_came number outcome jobs.old result jobs.new }
{
    if number == 0 {
        return None;
    }
    if number as usize > jobs.len() {
        return None;
    }
    let job = &mut jobs[number as usize - 1];
    job.arrive(outcome);
    Some(job.pool())
}
