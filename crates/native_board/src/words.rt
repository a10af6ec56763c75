//! How a cell's words are written and read.
ghost use Rattle.std.specs.Prelude.{◌≡◌, ◌<◌, ◌^◌, ◌/◌};
ghost use Rattle.native_board.specs.Words.{state_in, number_in, kind_in, signed_in, ended_of, value_of, job_outcome_of};
ghost use Rattle.gv_values.specs.JobParts.{kind_of, argument_of};
ghost use Rattle.native_board.specs.declared.views.CellState.TheVariants.{Done};

use crate::views::{CellState, Ended};
use gv_values::{FaultKind, Job, JobKind, JobOutcome};

/// The word of the signal: it is before those of the cells.
pub(crate) const SIGNAL: usize = 0;

/// A cell has so many words.
pub(crate) const CELL_WORDS: usize = 4;

/// Where the state stands behind the words of the cells before.
pub(crate) const STATE: usize = 1;

/// Where the order stands there: the number and the kind of a job.
pub(crate) const ORDER: usize = 2;

/// Where the job's integer stands there.
pub(crate) const ARGUMENT: usize = 3;

/// Where the outcome's integer stands there.
pub(crate) const VALUE: usize = 4;

/// The word of a signal that is low.
pub(crate) const LOW: u64 = 0;

/// The word of a signal that is raised.
pub(crate) const HIGH: u64 = 1;

/// The state of a cell in which nothing lies.
pub(crate) const FREE: u64 = 0;

/// The state of a cell in which a job lies that is not done.
pub(crate) const POSTED: u64 = 1;

/// The state of a cell whose worker is to end.
pub(crate) const STOP: u64 = 2;

/// The states of a cell whose job is done, by how it ended.
const DONE_INT: u64 = 3;

const DONE_VALUE_ERROR: u64 = 4;

const DONE_OVERFLOW_ERROR: u64 = 5;

const DONE_ERROR: u64 = 6;

/// There are so many kinds of jobs.
const KINDS: u64 = 4;

pub(crate) fn order_word(number: u32, kind: JobKind) -> u64
    ensures { (number_in result ≡ number) × (kind_in result ≡ kind) }
{
    let code = match kind {
        JobKind::Sum => 0,
        JobKind::Collatz => 1,
        JobKind::Fail => 2,
        JobKind::Echo => 3,
    };
    KINDS * u64::from(number) + code
}

pub(crate) fn number_in(order: u64) -> u32
    ensures { result ≡ number_in order }
{
    (order / KINDS % (1 << 32)) as u32
}

pub(crate) fn kind_in(order: u64) -> JobKind
    ensures { result ≡ kind_in order }
{
    match order % KINDS {
        0 => JobKind::Sum,
        1 => JobKind::Collatz,
        2 => JobKind::Fail,
        _ => JobKind::Echo,
    }
}

pub(crate) fn state_in(word: u64) -> CellState
    ensures { result ≡ state_in word }
{
    match word {
        FREE => CellState::Free,
        POSTED => CellState::Posted,
        STOP => CellState::Stop,
        DONE_INT => CellState::Done(Ended::Int),
        DONE_VALUE_ERROR => CellState::Done(Ended::ValueError),
        DONE_OVERFLOW_ERROR => CellState::Done(Ended::OverflowError),
        _ => CellState::Done(Ended::Error),
    }
}

pub(crate) fn signed_word(x: i64) -> u64
    ensures { signed_in result ≡ x }
{
    x.cast_unsigned()
}

pub(crate) fn signed_in(word: u64) -> i64
    ensures { result ≡ signed_in word }
{
    word.cast_signed()
}

pub(crate) fn kind_of(job: Job) -> JobKind
    ensures { result ≡ kind_of job }
{
    match job {
        Job::Sum(_) => JobKind::Sum,
        Job::Collatz(_) => JobKind::Collatz,
        Job::Fail(_) => JobKind::Fail,
        Job::Echo(_) => JobKind::Echo,
    }
}

pub(crate) fn argument_of(job: Job) -> i64
    ensures { result ≡ argument_of job }
{
    match job {
        Job::Sum(x) | Job::Collatz(x) | Job::Fail(x) | Job::Echo(x) => x,
    }
}

pub(crate) fn ended_of(outcome: JobOutcome) -> Ended
    ensures { result ≡ ended_of outcome }
{
    match outcome {
        JobOutcome::Int(_) => Ended::Int,
        JobOutcome::Fault(FaultKind::ValueError) => Ended::ValueError,
        JobOutcome::Fault(FaultKind::OverflowError) => Ended::OverflowError,
        JobOutcome::Fault(_) => Ended::Error,
    }
}

pub(crate) fn value_of(outcome: JobOutcome) -> i64
    ensures { result ≡ value_of outcome }
{
    match outcome {
        JobOutcome::Int(x) | JobOutcome::Fault(FaultKind::Error(x)) => x,
        JobOutcome::Fault(_) => 0,
    }
}

pub(crate) fn job_outcome_of(ended: Ended, value: i64) -> JobOutcome
    ensures { result ≡ job_outcome_of ended value }
{
    match ended {
        Ended::Int => JobOutcome::Int(value),
        Ended::ValueError => JobOutcome::Fault(FaultKind::ValueError),
        Ended::OverflowError => JobOutcome::Fault(FaultKind::OverflowError),
        Ended::Error => JobOutcome::Fault(FaultKind::Error(value)),
    }
}

pub(crate) fn done_word(ended: Ended) -> u64
    ensures { state_in result ≡ Done ended }
{
    match ended {
        Ended::Int => DONE_INT,
        Ended::ValueError => DONE_VALUE_ERROR,
        Ended::OverflowError => DONE_OVERFLOW_ERROR,
        Ended::Error => DONE_ERROR,
    }
}
