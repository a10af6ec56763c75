ghost use Rattle.std.specs.Prelude.{◌≡◌, ◌*◌, ◌<◌, ◌≤◌, ◌^◌, MatchOption};
ghost use Rattle.world_rules.specs.Evaluate.{next_collatz, collatz, eval, sum_to};
ghost use Rattle.world_rules.specs.declared.limits.TheConstants.{MOST_STEPS};

use crate::limits::{MOST_STEPS, MOST_SUMMED};
use gv_values::{FaultKind, Job, JobOutcome};

/// What a job comes to: the sum of 1 to n for n from 0 to `MOST_SUMMED`, else ValueError; the steps of the Collatz
/// sequence from n to 1, where n below 1 and more than `MOST_STEPS` steps are ValueError and a number of more than 64
/// bits signed is OverflowError, whichever comes first; the fault Error(n); n itself.
#[tactic(auto, unfolding(crate::specs::Evaluate::eval))]
pub fn eval(job: Job) -> JobOutcome
    ensures { result ≡ eval job }
{
    match job {
        Job::Sum(n) => sum(n),
        Job::Collatz(n) => {
            if n < 1 {
                return JobOutcome::Fault(FaultKind::ValueError);
            }
            steps_to_one(n as u64)
        }
        Job::Fail(n) => JobOutcome::Fault(FaultKind::Error(n)),
        Job::Echo(n) => JobOutcome::Int(n),
    }
}

fn sum(n: i64) -> JobOutcome
    ensures { result ≡ sum_to n }
{
    if n < 0 || n > MOST_SUMMED as i64 {
        return JobOutcome::Fault(FaultKind::ValueError);
    }
    let n = n as u64;
    JobOutcome::Int((n * (n + 1) / 2) as i64)
}

/// The number after m, where it has at most 64 bits signed.
fn next(m: u64) -> Option<u64>
    requires { m < 2 ^ 63 }
    ensures { MatchOption result (2 ^ 63 ≤ next_collatz m) (λ x. (x ≡ next_collatz m) × (x < 2 ^ 63)) }
{
    if m % 2 == 0 {
        return Some(m / 2);
    }
    if m > (i64::MAX as u64 - 1) / 3 {
        return None;
    }
    Some(3 * m + 1)
}

fn steps_to_one(n: u64) -> JobOutcome
    requires { n < 2 ^ 63 }
    ensures { result ≡ collatz MOST_STEPS 0 n }
{
    let mut m = n;
    for made in 0..MOST_STEPS {
        if m == 1 {
            return JobOutcome::Int(made as i64);
        }
        match next(m) {
            Some(following) => m = following,
            None => return JobOutcome::Fault(FaultKind::OverflowError),
        }
    }
    if m == 1 {
        JobOutcome::Int(MOST_STEPS as i64)
    } else {
        JobOutcome::Fault(FaultKind::ValueError)
    }
}
