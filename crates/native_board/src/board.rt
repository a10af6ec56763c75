//! The board.
ghost use Rattle.std.specs.Prelude.{◌≡◌, ℕ, ◌+◌, ◌<◌, ◌≤◌, ◌++◌, length, vec_len, vec_capacity};
ghost use Rattle.gv_values.specs.declared.job.Job.{Job};
ghost use Rattle.world_rules.specs.Evaluate.{eval};
ghost use Rattle.native_board.specs.declared.views.HubCell.TheVariants.{Stopped};
ghost use Rattle.native_board.specs.declared.views.WorkerStage.TheVariants.{Idle, Holds};
ghost use Rattle.native_board.specs.Plays.{marked};
ghost use Rattle.native_board.specs.Passes.{KnowsFree, Looks, SweepsNext, Sweeps, finished};
ghost use Rattle.native_board.specs.Boards.{board_id, hub_board, worker_board, hub_view, worker_view, after_post};

use crate::found::{Finished, Looked};
use crate::passes::{HubPass, WorkerPass};
use crate::rule::BoardRule;
use crate::steps::{
    load_argument, load_next, load_order, load_state, load_value, store_argument, store_done,
    store_free, store_order, store_posted, store_stop, store_value, swap_high, swap_low,
};
use crate::views::{CellState, HubCell, View};
use crate::words::{CELL_WORDS, STATE, job_outcome_of, kind_of, state_in};
use atomic_table::Table;
use gv_values::{Job, JobOutcome};
use std::alloc::Global;
use std::sync::Wait;

/// Tells the hub that a result is there. Where threads share one, it is `Send` and `Sync`: any worker may ring it at
/// any time.
pub trait Bell {
    /// Rings once. Nothing is promised of who hears it.
    fn ring(&self);
}

/// The words that the hub and the workers share. No call on a board waits for another thread, except `doze`.
#[derive(Drop)]
pub struct Board {
    pub(crate) table: Table<(), View, u32, BoardRule, Global>,
}

impl Board {
    /// Posts a job into a cell that the pass knows free.
    pub fn post(&self, hub: &mut HubPass, cell: u32, number: u32, job: Job)
        requires board { hub_board hub.old ≡ board_id self.now }
        requires free { KnowsFree (hub_view hub.old) cell }
        ensures board { hub_board hub.new ≡ hub_board hub.old }
        ensures sent { hub_view hub.new ≡ after_post (hub_view hub.old) cell number job }
    {
        let top = &self.table.shared;
        let at = cell as usize;
        store_order(top, &mut hub.seat, at, number, kind_of(job));
        store_argument(top, &mut hub.seat, at, number, job);
        store_posted(top, &mut hub.seat, at, number, job);
        top.wake_one(CELL_WORDS * at + STATE);
        hub.cells[at] = HubCell::Sent(number, job);
    }

    /// Tells the worker of a cell that the pass knows free to end.
    pub fn stop(&self, hub: &mut HubPass, cell: u32)
        requires board { hub_board hub.old ≡ board_id self.now }
        requires free { KnowsFree (hub_view hub.old) cell }
        ensures board { hub_board hub.new ≡ hub_board hub.old }
        ensures stopped { hub_view hub.new ≡ marked (hub_view hub.old) cell Stopped }
    {
        let at = cell as usize;
        store_stop(&self.table.shared, &mut hub.seat, at);
        self.table.shared.wake_one(CELL_WORDS * at + STATE);
        hub.cells[at] = HubCell::Stopped;
    }

    /// Reads what lies in the worker's cell. A job that it answers is one that the worker holds from then on.
    pub fn look(&self, w: &mut WorkerPass) -> Looked
        requires board { worker_board w.old ≡ board_id self.now }
        requires idle { (worker_view w.old).stage ≡ Idle }
        ensures board { worker_board w.new ≡ worker_board w.old }
        ensures looked { Looks (worker_view w.old) (worker_view w.new) result }
    {
        let top = &self.table.shared;
        let at = w.cell as usize;
        match load_state(top, &mut w.seat, at) {
            CellState::Posted => {
                let (number, kind) = load_order(top, &mut w.seat, at);
                let job = load_argument(top, &mut w.seat, at, number, kind);
                Looked::Posted { number, job }
            }
            CellState::Stop => Looked::Stop,
            CellState::Free | CellState::Done(_) => Looked::NotYet,
        }
    }

    /// Sleeps while nothing lies in the worker's cell that it could answer. It may wait, and may return early.
    pub fn doze<R: Wait>(&self, rt: &R, w: &mut WorkerPass)
        requires board { worker_board w.old ≡ board_id self.now }
        ensures { w.new ≡ w.old }
    {
        let at = CELL_WORDS * w.cell as usize + STATE;
        let found = self.table.shared.peek(at);
        match state_in(found) {
            CellState::Posted | CellState::Stop => {}
            CellState::Free | CellState::Done(_) => self
                .table
                .shared
                .park(rt, at, (found % (1 << 32)) as u32),
        }
    }

    /// Leaves the outcome of the job that the worker holds in its cell, then raises the signal, and rings where that
    /// was low.
    pub fn report<B: Bell>(&self, w: &mut WorkerPass, outcome: JobOutcome, bell: &B)
        requires board { worker_board w.old ≡ board_id self.now }
        requires holds { (k : ℕ) × (j : Job) × ((worker_view w.old).stage ≡ Holds k j) × (outcome ≡ eval j) }
        ensures board { worker_board w.new ≡ worker_board w.old }
        ensures rests { worker_view w.new ≡ record (worker_view w.old) { stage = Idle } }
    {
        let top = &self.table.shared;
        let at = w.cell as usize;
        store_value(top, &mut w.seat, at, outcome);
        store_done(top, &mut w.seat, at, outcome);
        let was_low = swap_high(top, &mut w.seat, at);
        if was_low {
            bell.ring();
        }
    }

    /// Looks into the next cell, and takes what is done there.
    fn sweep_next(&self, hub: &mut HubPass, at: usize) -> Option<Finished>
        requires board { hub_board hub.old ≡ board_id self.now }
        requires next { (at ≡ length (hub_view hub.old).seen) × (at < (hub_view hub.old).made) }
        ensures board { hub_board hub.new ≡ hub_board hub.old }
        ensures swept { SweepsNext (hub_view hub.old) (hub_view hub.new) result }
    {
        let top = &self.table.shared;
        let CellState::Done(ended) = load_next(top, &mut hub.seat, at) else {
            return None;
        };
        let HubCell::Sent(number, job) = hub.cells[at] else {
            // A cell that is done has a job that the hub sent.
            unreachable!()
        };
        let value = load_value(top, &mut hub.seat, at, number, job);
        store_free(top, &mut hub.seat, at, number, job);
        hub.cells[at] = HubCell::Vacant;
        Some(Finished {
            number,
            outcome: job_outcome_of(ended, value),
        })
    }

    /// Lowers the signal, then reads each cell in order, and appends the result of each that is done, with its number.
    /// Those cells become free.
    pub fn sweep(&self, hub: &mut HubPass, out: &mut Vec<Finished>)
        requires board { hub_board hub.old ≡ board_id self.now }
        requires room { vec_len out.old + length (hub_view hub.old).cells ≤ vec_capacity out.old }
        ensures board { hub_board hub.new ≡ hub_board hub.old }
        ensures swept { Sweeps (hub_view hub.old) (hub_view hub.new) }
        ensures results { out.new.items ≡ out.old.items ++ finished (hub_view hub.old).cells (hub_view hub.new).seen }
        ensures capacity { vec_capacity out.new ≡ vec_capacity out.old }
    {
        swap_low(&self.table.shared, &mut hub.seat);
        for at in 0..hub.cells.len() {
            if let Some(finished) = self.sweep_next(hub, at) {
                out.push_reserved(finished);
            }
        }
    }
}
