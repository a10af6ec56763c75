//! What the hub and each worker know. No value of a view is made: a view exists in proofs alone, as what the token of
//! its seat stands for.
use gv_values::{Job, JobKind};

/// How a job ended, without its integer. These are all the ways in which a job ends.
#[derive(Clone, Copy)]
pub enum Ended {
    /// With an integer.
    Int,
    /// By a `ValueError`.
    ValueError,
    /// By an `OverflowError`.
    OverflowError,
    /// By an `Error`, which has a number.
    Error,
}

/// Whether a result may have come since the hub last swept.
#[derive(Clone, Copy)]
pub enum Signal {
    /// None came.
    Low,
    /// One may have come.
    High,
}

/// What a cell's first word says.
#[derive(Clone, Copy)]
pub enum CellState {
    /// Nothing lies in it.
    Free,
    /// A job lies in it that is not done.
    Posted,
    /// Its worker is to end.
    Stop,
    /// Its job is done.
    Done(Ended),
}

/// What the hub knows of a cell.
#[derive(Clone, Copy)]
pub enum HubCell {
    /// Nothing lies in it.
    Vacant,
    /// The order of a job of this number and kind was stored.
    Ordered(u32, JobKind),
    /// So was its argument.
    Filled(u32, Job),
    /// The job was posted.
    Sent(u32, Job),
    /// Its worker is done with the job, and the hub is taking the result.
    Taking(u32, Job),
    /// Its worker was told to end.
    Stopped,
}

/// What the hub knows of the board.
pub struct HubView {
    /// By cell. A clause reads an array as a list, of any length.
    pub cells: [HubCell; 0],
    /// How often a job was posted, by cell.
    pub posts: [u64; 0],
    /// The number of workers that were split off.
    pub made: u64,
    /// How often the signal was lowered.
    pub sweeps: u64,
    /// The states that were read since it was last lowered, by cell.
    pub seen: [CellState; 0],
}

/// How far a worker is.
pub enum WorkerStage {
    /// It has no job.
    Idle,
    /// It has read that a job lies in its cell.
    Asked,
    /// It has read the order.
    Numbered(u32, JobKind),
    /// It has read the argument too.
    Holds(u32, Job),
    /// It has stored the value of the outcome.
    Valued(u32, Job),
    /// It has stored that it is done, and has still to raise the signal.
    Owes,
    /// It has read that it is to end.
    Over,
}

/// What the worker of a cell knows.
pub struct WorkerView {
    /// The cell.
    pub cell: u64,
    /// How far it is.
    pub stage: WorkerStage,
    /// How often it looked into its cell.
    pub looks: u64,
    /// How often it found a job there and began with it.
    pub takes: u64,
    /// The state that it read last.
    pub last: CellState,
}

/// What the token of a seat stands for.
pub enum View {
    /// What the hub knows.
    Hub(HubView),
    /// What a worker knows.
    Worker(WorkerView),
}
