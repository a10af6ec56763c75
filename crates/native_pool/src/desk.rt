//! The hub's side of a board: the jobs that wait, those in the cells of started workers, and the results that wait to
//! be handed on.
ghost use Rattle.std.specs.Prelude.{◌≡◌, ℕ, ◌<◌, ◌≤◌, ◌++◌, ◌∷◌, [], true, false, List, length, vec_len, vec_capacity, slice_index_or, IsNone, IfSome, OnOk, OnErr, IsTrue, ◌↔◌, IsFalse};
ghost use Rattle.std.specs.Arc.{arc_value};
ghost use Rattle.gv_values.specs.declared.job.Job.{Job};
ghost use Rattle.gv_values.specs.declared.limits.TheConstants.{MOST_WORKERS};
ghost use Rattle.world_rules.specs.Evaluate.{eval};
ghost use Rattle.world_rules.specs.Legal.{posted};
ghost use Rattle.native_board.specs.Boards.{board_id, hub_board, hub_view};
ghost use Rattle.native_board.specs.Rules.{hub_cell};
ghost use Rattle.native_board.specs.declared.views.HubCell.TheVariants.{Stopped};
ghost use Rattle.native_board.specs.Passes.{KnowsFree, is_sent, Sweeps, finished};
ghost use Rattle.native_pool.specs.Desks.{CanTake, has_workers, SameCells, Fills, Refills, Settles, Hands, HandsDue};

use gv_values::{Job, MOST_WORKERS};
use native_board::{Board, Finished, HubPass};
use std::alloc::{AllocError, Global};
use std::collections::VecDeque;
use std::sync::Arc;
use world::{PostedJob, eval};

/// The board with the hub's pass, and what the hub keeps beside it.
#[derive(Drop)]
pub struct Desk {
    board: Arc<Board, Global>,
    pass: HubPass,
    // Whether the worker of a cell was started.
    started: Vec<bool>,
    // The jobs that no cell has taken yet, the oldest first.
    waiting: VecDeque<PostedJob>,
    // The results of the last sweep that were not handed on yet, in the order in which they were read.
    held: Vec<Finished>,
    ghost same_board: { hub_board pass ≡ board_id (arc_value board) },
    ghost cells: { length (hub_view pass).cells ≤ MOST_WORKERS },
    ghost few: { vec_len started ≤ MOST_WORKERS },
    ghost room: { MOST_WORKERS ≤ vec_capacity held },
    ghost used: { (i : ℕ) → is_sent (hub_cell (hub_view pass) i) ≡ true → slice_index_or started.items i false ≡ true },
}

impl Desk {
    ghost use Rattle.native_pool.specs.Views.{desk_view};

    /// A desk at a new board, where these workers were started.
    pub(crate) fn new(
        alloc: Global,
        board: Arc<Board, Global>,
        pass: HubPass,
        started: Vec<bool>,
        held: Vec<Finished>,
    ) -> Desk
        requires board { hub_board pass ≡ board_id (arc_value board) }
        requires cells { length (hub_view pass).cells ≤ MOST_WORKERS }
        requires few { vec_len started ≤ MOST_WORKERS }
        requires room { MOST_WORKERS ≤ vec_capacity held }
        requires unused { (i : ℕ) → is_sent (hub_cell (hub_view pass) i) ≡ false }
        ensures { desk_view result ≡ record { board = hub_board pass; hub = hub_view pass; started = started.items; waiting = []; held = held.items } }
    {
        Desk {
            board,
            pass,
            started,
            waiting: VecDeque::new(alloc),
            held,
        }
    }

    /// Lets a job wait behind the others.
    pub(crate) fn add(&mut self, number: u32, job: Job) -> Result<(), AllocError>
        ensures added { OnOk result (desk_view self.new ≡ record (desk_view self.old) { waiting = (desk_view self.old).waiting ++ posted number job ∷ [] }) }
        ensures refused { OnErr result (desk_view self.new ≡ desk_view self.old) }
    {
        self.waiting.push_back(PostedJob { number, job })?;
        Ok(())
    }

    /// Whether the cell has a started worker and is free.
    fn can_take(&self, cell: u32) -> bool
        ensures { IsTrue result ↔ CanTake (desk_view self.now) cell }
    {
        let at = cell as usize;
        at < self.started.len() && self.started[at] && self.pass.is_free(cell)
    }

    /// Posts the oldest job that waits into the cell, where that is free and has a started worker.
    fn fill_cell(&mut self, cell: u32)
        requires made { (hub_view self.old.pass).made ≡ length (hub_view self.old.pass).cells }
        ensures fills { Fills (desk_view self.old) (desk_view self.new) }
        ensures used { CanTake (desk_view self.new) cell → (desk_view self.new).waiting ≡ [] }
    {
        if !self.can_take(cell) {
            return;
        }
        let Some(PostedJob { number, job }) = self.waiting.pop_front() else {
            return;
        };
        self.board.post(&mut self.pass, cell, number, job);
    }

    /// Hands jobs that wait out to the free cells of started workers.
    pub(crate) fn fill(&mut self)
        requires made { (hub_view self.old.pass).made ≡ length (hub_view self.old.pass).cells }
        ensures fills { Fills (desk_view self.old) (desk_view self.new) }
        ensures full { (i : ℕ) → CanTake (desk_view self.new) i → (desk_view self.new).waiting ≡ [] }
    {
        for cell in 0..MOST_WORKERS {
            self.fill_cell(cell);
        }
    }

    /// Sweeps the board, and holds the results.
    fn sweep(&mut self)
        requires { self.old.held.items ≡ [] }
        ensures same_board { hub_board self.new.pass ≡ hub_board self.old.pass }
        ensures held { self.new.held.items ≡ finished (hub_view self.old.pass).cells (hub_view self.new.pass).seen }
        ensures sweeps { Sweeps (hub_view self.old.pass) (hub_view self.new.pass) }
        ensures started { self.new.started.items ≡ self.old.started.items }
        ensures waiting { self.new.waiting.items ≡ self.old.waiting.items }
    {
        self.board.sweep(&mut self.pass, &mut self.held);
    }

    /// Hands on the first of the results that are held.
    fn take_first(&mut self) -> Finished
        requires { 0 < vec_len self.old.held }
        ensures first { result ∷ self.new.held.items ≡ self.old.held.items }
        ensures hub { hub_view self.new.pass ≡ hub_view self.old.pass }
        ensures started { self.new.started.items ≡ self.old.started.items }
        ensures waiting { self.new.waiting.items ≡ self.old.waiting.items }
    {
        self.held.remove(0)
    }

    /// Evaluates the oldest job that waits.
    fn evaluate_oldest(&mut self) -> Option<Finished>
        ensures some { IfSome result (λ f. (job : Job) × (self.old.waiting.items ≡ posted f.number job ∷ self.new.waiting.items) × (f.outcome ≡ eval job)) }
        ensures none { IsNone result → (self.old.waiting.items ≡ []) × (self.new.waiting.items ≡ []) }
        ensures hub { hub_view self.new.pass ≡ hub_view self.old.pass }
        ensures started { self.new.started.items ≡ self.old.started.items }
        ensures held { self.new.held.items ≡ self.old.held.items }
    {
        let PostedJob { number, job } = self.waiting.pop_front()?;
        Some(Finished {
            number,
            outcome: eval(job),
        })
    }

    /// Sweeps and fills the cells, where no result is held.
    fn refill(&mut self)
        requires made { (hub_view self.old.pass).made ≡ length (hub_view self.old.pass).cells }
        requires none_held { self.old.held.items ≡ [] }
        ensures refills { Refills (desk_view self.old) (desk_view self.new) }
    {
        self.sweep();
        self.fill();
    }

    /// The next result: the first of those held, after a sweep where none is; with no started worker, that of the
    /// oldest job.
    pub(crate) fn next(&mut self) -> Option<Finished>
        requires made { (hub_view self.old.pass).made ≡ length (hub_view self.old.pass).cells }
        ensures some { IfSome result (λ f. Hands (desk_view self.old) (desk_view self.new) f × SameCells (desk_view self.old) (desk_view self.new)) }
        ensures jobs { IfSome result (λ f. HandsDue (desk_view self.old) (desk_view self.new) f) }
        ensures none { IsNone result → Settles (desk_view self.old) (desk_view self.new) }
    {
        if !self.held.is_empty() {
            return Some(self.take_first());
        }
        self.refill();
        if !self.held.is_empty() {
            return Some(self.take_first());
        }
        if self.has_workers() {
            return None;
        }
        self.evaluate_oldest()
    }

    /// Whether a worker was started.
    fn has_workers(&self) -> bool
        ensures { result ≡ has_workers (desk_view self.now) }
    {
        self.started.iter().any(|started| *started)
    }

    /// Sweeps the board, and gives up the jobs that wait and all results.
    pub(crate) fn give_up(&mut self)
        ensures same_board { hub_board self.new.pass ≡ hub_board self.old.pass }
        ensures swept { (hub_view self.old.pass).sweeps < (hub_view self.new.pass).sweeps }
        ensures posts { (hub_view self.new.pass).posts ≡ (hub_view self.old.pass).posts }
        ensures started { self.new.started.items ≡ self.old.started.items }
    {
        self.waiting.clear();
        self.held.clear();
        self.sweep();
        self.held.clear();
    }

    /// Whether a job lies in a cell.
    pub(crate) fn is_busy(&self) -> bool
        ensures { IsFalse result → (i : ℕ) → i < vec_len self.now.started → KnowsFree (hub_view self.now.pass) i }
    {
        for cell in 0..MOST_WORKERS {
            if (cell as usize) < self.started.len() && !self.pass.is_free(cell) {
                return true;
            }
        }
        false
    }

    /// Tells the workers of the free cells to end, and answers what is known of the board then.
    pub(crate) fn stop(self) -> HubPass
        ensures same_board { hub_board result ≡ hub_board self.pass }
        ensures stopped { (i : ℕ) → i < MOST_WORKERS → KnowsFree (hub_view self.pass) i → hub_cell (hub_view result) i ≡ Stopped }
        ensures sweeps { (hub_view result).sweeps ≡ (hub_view self.pass).sweeps }
        ensures posts { (hub_view result).posts ≡ (hub_view self.pass).posts }
    {
        let Desk {
            board,
            mut pass,
            ..
        } = self;
        for cell in 0..MOST_WORKERS {
            if pass.is_free(cell) {
                board.stop(&mut pass, cell);
            }
        }
        pass
    }
}
