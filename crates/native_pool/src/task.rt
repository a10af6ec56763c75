//! A worker's loop, and what a thread is given to run it.
ghost use Rattle.std.specs.Prelude.{◌≡◌};
ghost use Rattle.std.specs.Arc.{arc_value};
ghost use Rattle.native_board.specs.Boards.{board_id, worker_board, worker_view};
ghost use Rattle.native_board.specs.declared.views.WorkerStage.TheVariants.{Idle, Over};

use native_board::{Bell, Board, Looked, WorkerPass};
use std::alloc::Global;
use std::sync::{Arc, Wait};
use world::eval;

/// Lets a job pass before it is evaluated. Where threads share one, it is `Send` and `Sync`. A worker calls it with the
/// number of the job that it has just taken.
pub trait Gate {
    /// Returns once the job may go on. It may wait.
    fn pass(&self, number: u32);
}

/// A gate that lets every job pass at once.
#[derive(Clone, Copy)]
pub struct OpenGate;

impl Gate for OpenGate {
    fn pass(&self, number: u32) {}
}

/// Takes the jobs of the pass's cell until it is told to stop. The pass that it answers has read so.
pub fn worker<R: Wait, B: Bell, G: Gate>(
    rt: &R,
    board: &Board,
    mut pass: WorkerPass,
    bell: &B,
    gate: &G,
) -> WorkerPass
    requires board { worker_board pass ≡ board_id board.now }
    requires idle { (worker_view pass).stage ≡ Idle }
    ensures { (worker_view result).stage ≡ Over }
{
    for _ in rt.forever() {
        match board.look(&mut pass) {
            Looked::Posted { number, job } => {
                gate.pass(number);
                board.report(&mut pass, eval(job), bell);
            }
            Looked::NotYet => board.doze(rt, &mut pass),
            Looked::Stop => return pass,
        }
    }
    // `forever` has no end: the loop is left by a return alone.
    unreachable!()
}

/// What one thread is given: the shared board, the pass of one worker, and the shared bell and gate.
#[derive(Drop)]
pub struct WorkerTask<B: Bell + Drop, G: Gate + Drop> {
    board: Arc<Board, Global>,
    /// The pass of the worker.
    pub pass: WorkerPass,
    bell: Arc<B, Global>,
    gate: Arc<G, Global>,
    ghost same_board: { worker_board pass ≡ board_id (arc_value board) },
    ghost idle: { (worker_view pass).stage ≡ Idle },
}

impl<B: Bell + Drop, G: Gate + Drop> WorkerTask<B, G> {
    /// The task of the worker of a pass that was made with this board, holds no job and hasn't ended.
    pub fn new(
        board: Arc<Board, Global>,
        pass: WorkerPass,
        bell: Arc<B, Global>,
        gate: Arc<G, Global>,
    ) -> WorkerTask<B, G>
        requires board { worker_board pass ≡ board_id (arc_value board) }
        requires idle { (worker_view pass).stage ≡ Idle }
        ensures { (worker_view result.pass).cell ≡ (worker_view pass).cell }
    {
        WorkerTask {
            board,
            pass,
            bell,
            gate,
        }
    }

    /// The cell of its pass.
    pub fn cell(&self) -> u32
        ensures { result ≡ (worker_view self.now.pass).cell }
    {
        self.pass.cell()
    }

    /// Runs the worker until it is told to stop. It may wait.
    pub fn run<R: Wait>(self, rt: &R) -> WorkerPass
        ensures { (worker_view result).stage ≡ Over }
    {
        let Self {
            board,
            pass,
            bell,
            gate,
        } = self;
        worker(rt, &board, pass, &*bell, &*gate)
    }
}
