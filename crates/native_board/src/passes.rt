//! The tokens of the hub and of the workers, in which each carries what it knows of the board.
ghost use Rattle.std.specs.Prelude.{◌≡◌, ◌+◌, ◌*◌, ◌<◌, [], length};
ghost use Rattle.native_board.specs.Passes.{IsHub, IsWorker};

use crate::views::{HubCell, View};
use atomic_table::Seat;

/// The hub's token at a board. Between two calls each cell is free, or has a job whose result was not taken yet, or was
/// told to stop.
#[derive(Drop)]
pub struct HubPass {
    pub(crate) seat: Seat<(), View>,
    pub(crate) cells: Vec<HubCell>,
    ghost known: { IsHub seat cells.items },
}

impl HubPass {
    ghost use Rattle.std.specs.Prelude.{IsTrue, ◌↔◌, ◌≡◌, ◌≤◌, length};
    ghost use Rattle.gv_values.specs.declared.limits.TheConstants.{MOST_WORKERS};
    ghost use Rattle.native_board.specs.Passes.{KnowsFree};
    ghost use Rattle.native_board.specs.Boards.{hub_view};

    /// The number of cells of its board, at most `MOST_WORKERS`.
    pub fn cells(&self) -> u32
        ensures all { result ≡ length (hub_view self.now).cells }
        ensures few { result ≤ MOST_WORKERS }
    {
        self.cells.len() as u32
    }

    /// Whether the hub knows that nothing lies in the cell.
    pub fn is_free(&self, cell: u32) -> bool
        ensures { IsTrue result ↔ KnowsFree (hub_view self.now) cell }
    {
        let cell = cell as usize;
        cell < self.cells.len() && matches!(self.cells[cell], HubCell::Vacant)
    }
}

/// The token of the worker of one cell at a board.
#[derive(Drop)]
pub struct WorkerPass {
    pub(crate) seat: Seat<(), View>,
    pub(crate) cell: u32,
    ghost known: { IsWorker seat cell },
}

impl WorkerPass {
    ghost use Rattle.native_board.specs.Boards.{worker_view};

    /// Its cell.
    pub fn cell(&self) -> u32
        ensures { result ≡ (worker_view self.now).cell }
    {
        self.cell
    }
}
