use gv_values::{Answer, Job};

/// What the hub asks at the end of a turn. Moments are milliseconds.
#[derive(Clone, Copy, Debug, PartialEq, Eq)]
pub enum Question {
    /// Whether a job has ended; the answer comes at once.
    Poll,
    /// For the end of a job, at most until this moment, or for as long as it takes.
    Wait(Option<u64>),
}

/// A job that was posted.
#[derive(Clone, Copy, Debug, PartialEq, Eq)]
pub struct PostedJob {
    /// Its number: no two jobs of a run have the same.
    pub number: u32,
    /// What is computed.
    pub job: Job,
}

/// A job that a script has not answered yet.
#[derive(Clone, Copy, Debug, PartialEq, Eq)]
pub struct DueJob {
    /// Its number.
    pub number: u32,
    /// What is computed.
    pub job: Job,
    /// The moment at which it is done, in milliseconds.
    pub due: u64,
}

/// What was done with a world. It exists in proofs alone: no code makes one.
#[derive(Clone, Copy, Debug, PartialEq, Eq)]
pub enum LogEntry {
    /// A job was posted, which takes so many milliseconds of the world's own time.
    Post { number: u32, job: Job, takes: u64 },
    /// A question was asked, and answered so.
    Asked { question: Question, answer: Answer },
}
