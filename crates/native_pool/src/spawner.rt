//! What starts the workers.
ghost use Rattle.std.specs.Prelude.{◌≡◌, ◌<◌, ◌≤◌, ◌^◌, ℕ, IfOk, IfErr, OnErr, IsErr};
ghost use Rattle.native_board.specs.Boards.{worker_view};
ghost use Rattle.gv_values.specs.Counts.{HasRisen};
ghost use Rattle.gv_values.specs.OneMore.{one_more};

use crate::task::{Gate, WorkerTask};
use gv_io::one_more;
use native_board::Bell;

/// Starts workers, and counts how often it refused and how often it joined.
pub trait Spawner<B: Bell + Drop, G: Gate + Drop> {
    /// A worker that was started.
    type Running: Drop;

    /// That a worker was not started.
    type Refused: Drop;

    /// How often a start was refused.
    ghost refusals: { Self → ℕ };

    /// How many workers were joined.
    ghost joins: { Self → ℕ };

    /// The cell of the task that was started.
    ghost running_cell: { Self.Running → ℕ };

    /// The cell of the task that was given up.
    ghost refused_cell: { Self.Refused → ℕ };

    /// Starts a worker. Where it refuses, its count of refusals rises and the task is given up.
    fn start(&mut self, task: WorkerTask<B, G>) -> Result<Self::Running, Self::Refused>
        ensures running { IfOk result (λ running. running_cell running ≡ (worker_view task.pass).cell) }
        ensures refused { IfErr result (λ refused. refused_cell refused ≡ (worker_view task.pass).cell) }
        ensures count { refusals self.old ≤ refusals self.new }
        ensures same_joins { joins self.new ≡ joins self.old }
        ensures cause { OnErr result (HasRisen (refusals self.old) (refusals self.new)) }
        ensures fits { OnErr result (refusals self.new < 2 ^ 64) };

    /// Waits for a worker to end, and counts it.
    fn join(&mut self, running: Self::Running)
        ensures count { refusals self.old ≤ refusals self.new }
        ensures joined { joins self.new ≡ one_more (joins self.old) };
}

/// That no thread could be made for the worker of a cell.
#[derive(Drop)]
pub struct NotStarted {
    /// The cell of the worker.
    pub cell: u32,
}

/// Refuses every start, so that the hub evaluates all jobs itself.
#[derive(Drop)]
pub struct NoThreads {
    refused: u64,
    joined: u64,
}

impl NoThreads {
    /// A spawner that has refused nothing yet.
    pub fn new() -> NoThreads {
        NoThreads {
            refused: 0,
            joined: 0,
        }
    }
}

impl<B: Bell + Drop, G: Gate + Drop> Spawner<B, G> for NoThreads {
    type Running = NotStarted;

    type Refused = NotStarted;

    ghost refusals = { λ s. s.refused };

    ghost joins = { λ s. s.joined };

    ghost running_cell = { λ running. running.cell };

    ghost refused_cell = { λ refused. refused.cell };

    fn start(&mut self, task: WorkerTask<B, G>) -> Result<NotStarted, NotStarted>
        ensures running { IsErr result }
        ensures refused { IfErr result (λ refused. refused.cell ≡ (worker_view task.pass).cell) }
        ensures count { self.old.refused ≤ self.new.refused }
        ensures same_joins { self.new.joined ≡ self.old.joined }
        ensures cause { OnErr result (HasRisen self.old.refused self.new.refused) }
        ensures fits { OnErr result (self.new.refused < 2 ^ 64) }
    {
        self.refused = self.refused.saturating_add(1);
        Err(NotStarted { cell: task.cell() })
    }

    fn join(&mut self, running: NotStarted) {
        self.joined = one_more(self.joined);
    }
}
