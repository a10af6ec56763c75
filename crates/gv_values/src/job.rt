ghost use Rattle.std.specs.Prelude.{◌≡◌};
ghost use Rattle.gv_values.specs.Job.{job_of};

use crate::fault::FaultKind;

/// What native threads compute of an integer.
#[derive(Clone, Copy, Debug, PartialEq, Eq)]
pub enum JobKind {
    /// The sum of 1 to it.
    Sum,
    /// The steps of its Collatz sequence.
    Collatz,
    /// The fault `Error` with this number.
    Fail,
    /// The integer itself.
    Echo,
}

/// What a native thread computes of its integer.
#[derive(Clone, Copy, Debug, PartialEq, Eq)]
pub enum Job {
    /// The sum of 1 to n.
    Sum(i64),
    /// The steps of the Collatz sequence from n to 1.
    Collatz(i64),
    /// The fault `Error` with this number.
    Fail(i64),
    /// The integer itself.
    Echo(i64),
}

/// The job of this kind and integer.
pub fn job_of(kind: JobKind, argument: i64) -> Job
    ensures { result ≡ job_of kind argument }
{
    match kind {
        JobKind::Sum => Job::Sum(argument),
        JobKind::Collatz => Job::Collatz(argument),
        JobKind::Fail => Job::Fail(argument),
        JobKind::Echo => Job::Echo(argument),
    }
}

/// How a job ended.
#[derive(Clone, Copy, Debug, PartialEq, Eq)]
pub enum JobOutcome {
    Int(i64),
    Fault(FaultKind),
}

/// What the world answers to a question of the hub, and its moment then, in milliseconds.
#[derive(Clone, Copy, Debug, PartialEq, Eq)]
pub enum Answer {
    /// The job of this number has ended.
    Done {
        number: u32,
        outcome: JobOutcome,
        at: u64,
    },
    /// The moment that was waited for has come.
    Elapsed {
        at: u64,
    },
    /// No job has ended.
    Nothing {
        at: u64,
    },
}
