use gv_values::{Job, JobOutcome};

/// A job that is done.
#[derive(Clone, Copy, Debug, PartialEq, Eq)]
pub struct Finished {
    /// The number under which it was posted.
    pub number: u32,
    /// What it came to.
    pub outcome: JobOutcome,
}

/// What a worker found in its cell.
#[derive(Clone, Copy, Debug, PartialEq, Eq)]
pub enum Looked {
    /// A job, with its number.
    Posted { number: u32, job: Job },
    /// Nothing that is new to it.
    NotYet,
    /// That it is to end.
    Stop,
}
