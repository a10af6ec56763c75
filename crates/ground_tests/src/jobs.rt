//! What jobs come to.
#![tactic(auto)]

use gv_values::{FaultKind, Job, JobOutcome};
use world_rules::eval;

const VALUE_ERROR: JobOutcome = JobOutcome::Fault(FaultKind::ValueError);

const OVERFLOW: JobOutcome = JobOutcome::Fault(FaultKind::OverflowError);

/// Jobs, and what each comes to.
const OUTCOMES: &[(Job, JobOutcome)] = &[
    (Job::Sum(3), JobOutcome::Int(6)),
    (Job::Sum(0), JobOutcome::Int(0)),
    (Job::Sum(-1), VALUE_ERROR),
    (
        Job::Sum(1_000_000_000),
        JobOutcome::Int(500_000_000_500_000_000),
    ),
    (Job::Sum(1_000_000_001), VALUE_ERROR),
    (Job::Collatz(1), JobOutcome::Int(0)),
    (Job::Collatz(6), JobOutcome::Int(8)),
    (Job::Collatz(27), JobOutcome::Int(111)),
    (Job::Collatz(0), VALUE_ERROR),
    (Job::Collatz(i64::MAX), OVERFLOW),
    (Job::Fail(-3), JobOutcome::Fault(FaultKind::Error(-3))),
    (Job::Echo(-7), JobOutcome::Int(-7)),
];

#[test]
fn jobs_come_to_these_outcomes(rt: HostRuntime) {
    for (job, outcome) in OUTCOMES {
        assert!(rt; eval(*job) == *outcome, "{job:?}");
    }
}
