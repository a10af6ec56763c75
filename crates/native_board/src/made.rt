//! A new board, with the tokens of the hub and of each worker.
ghost use Rattle.std.specs.Prelude.{◌+◌, ◌<◌, ◌≤◌, length};
ghost use Rattle.gv_values.specs.declared.limits.TheConstants.{MOST_WORKERS};
ghost use Rattle.native_board.specs.Made.{AreFresh};

use crate::board::Board;
use crate::passes::{HubPass, WorkerPass};
use crate::rule::NewWorker;
use crate::views::{HubCell, View};
use crate::words::CELL_WORDS;
use atomic_table::{Seat, Table};
use std::alloc::{AllocError, Global};
use std::collections::VecDeque;
use std::snapshot::Snapshot;

/// The passes of the workers that were not given out yet, by cell.
#[derive(Drop)]
pub struct WorkerPasses {
    next: u32,
    passes: VecDeque<WorkerPass>,
    // A seat at the board, which exists in proofs alone.
    at: Snapshot<Seat<(), View>>,
    ghost fresh: { AreFresh at.value.table_id passes.items next },
    ghost few: { next + length passes.items ≤ MOST_WORKERS },
}

/// A new board with the passes that were made with it.
#[derive(Drop)]
pub struct Made {
    /// The board, whose cells are all free.
    pub board: Board,
    /// The pass of its hub.
    pub hub: HubPass,
    /// The passes of its workers, one a cell.
    pub workers: WorkerPasses,
}

impl Board {
    ghost use Rattle.std.specs.Prelude.{◌≡◌, ℕ, ◌≤◌, IfOk};
    ghost use Rattle.native_board.specs.Rules.{begun};
    ghost use Rattle.native_board.specs.Passes.{KnowsFree};
    ghost use Rattle.native_board.specs.Boards.{board_id, hub_board, hub_view};
    ghost use Rattle.native_board.specs.Given.{passes_board, next_cell, passes_left};

    /// A board of 1 to `MOST_WORKERS` free cells, with the hub's pass and that of a worker for each cell.
    pub fn new(alloc: Global, cells: u32) -> Result<Made, AllocError>
        requires { (0 < cells) × (cells ≤ MOST_WORKERS) }
        ensures hub_board { IfOk result (λ m. hub_board m.hub ≡ board_id m.board) }
        ensures hub_view { IfOk result (λ m. hub_view m.hub ≡ begun cells cells) }
        ensures free { IfOk result (λ m. (i : ℕ) → i < cells → KnowsFree (hub_view m.hub) i) }
        ensures workers_board { IfOk result (λ m. passes_board m.workers ≡ board_id m.board) }
        ensures workers { IfOk result (λ m. (next_cell m.workers ≡ 0) × (passes_left m.workers ≡ cells)) }
    {
        let count = cells as usize;
        let words = vec![in alloc; 0u64; CELL_WORDS * count + 1]?;
        let (table, mut seat) = Table::of_words(alloc, &words, &cells)?;
        let mut passes = VecDeque::new(alloc);
        for cell in 0..cells {
            let worker = table.shared.split_seat::<NewWorker>(&mut seat);
            let pass = WorkerPass { seat: worker, cell };
            passes.push_back(pass)?;
        }
        let known = vec![in alloc; HubCell::Vacant; count]?;
        let at = Snapshot::of(&seat);
        let hub = HubPass { seat, cells: known };
        Ok(Made {
            board: Board { table },
            hub,
            workers: WorkerPasses {
                next: 0,
                passes,
                at,
            },
        })
    }
}

impl WorkerPasses {
    ghost use Rattle.std.specs.Prelude.{◌≡◌, ◌↔◌, IsNone, IfSome, option_to_list};
    ghost use Rattle.native_board.specs.Made.{IsFresh};
    ghost use Rattle.native_board.specs.Given.{passes_board, next_cell, passes_left};

    /// The pass of the next cell, from 0. None where all were given.
    pub fn next(&mut self) -> Option<WorkerPass>
        ensures pass { IfSome result (λ p. IsFresh (passes_board self.old) p (next_cell self.old)) }
        ensures none { IsNone result ↔ (passes_left self.old ≡ 0) }
        ensures next_cell { next_cell self.new ≡ next_cell self.old + length (option_to_list result) }
        ensures left { passes_left self.new + length (option_to_list result) ≡ passes_left self.old }
        ensures board { passes_board self.new ≡ passes_board self.old }
    {
        let pass = self.passes.pop_front()?;
        self.next += 1;
        Some(pass)
    }
}
