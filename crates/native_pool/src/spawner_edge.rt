//! The edge to the system's threads.
//!
//! Trusted: that a thread runs its task, and that a join returns after its end. The clauses say only which worker was
//! started or refused, and how the counts go.
ghost use Rattle.std.specs.Prelude.{◌≡◌, ◌<◌, ◌≤◌, ◌^◌, IfOk, IfErr, OnErr};
ghost use Rattle.native_board.specs.Boards.{worker_view};
ghost use Rattle.gv_values.specs.Counts.{HasRisen};

use crate::spawner::{NotStarted, Spawner};
use crate::task::{Gate, OpenGate, WorkerTask};
use crate::wake_edge::WakerBell;
use gv_io::one_more;
use native_board::{Bell, WorkerPass};
use std::sync::Wait;
use std::thread;
use std::thread::{JoinHandle, Threads};

/// A worker's thread.
#[derive(Drop)]
pub struct Thread {
    cell: u32,
    handle: JoinHandle<WorkerPass>,
}

/// Starts a thread that runs the task. None where no thread could be made; the task is given up then.
pub fn spawn_worker<
    H: Threads + Wait + Copy + Send + Sync + 'static,
    B: Bell + Drop + Send + Sync + 'static,
    G: Gate + Drop + Send + Sync + 'static,
>(rt: &H, task: WorkerTask<B, G>) -> Option<JoinHandle<WorkerPass>> {
    let own = *rt;
    thread::spawn(rt, move || task.run(&own)).ok()
}

/// How a task of the shipped bell and gate is started on a thread, as by `spawn_worker`. The caller makes it, where its
/// handle may go to another thread.
pub type StartThread = Box<
    dyn Fn(WorkerTask<WakerBell, OpenGate>) -> Option<JoinHandle<WorkerPass>>,
>;

/// Runs each task on a thread of its own.
#[derive(Drop)]
pub struct ThreadSpawner<H> {
    rt: H,
    start: StartThread,
    refused: u64,
    joined: u64,
    ghost callable: { IsAlwaysCallable start },
}

impl<H: Threads> ThreadSpawner<H> {
    /// A spawner that has refused nothing yet.
    pub fn new(rt: H, start: StartThread) -> ThreadSpawner<H>
        requires { IsAlwaysCallable start }
    {
        ThreadSpawner {
            rt,
            start,
            refused: 0,
            joined: 0,
        }
    }
}

impl<H: Threads> Spawner<WakerBell, OpenGate> for ThreadSpawner<H> {
    type Running = Thread;

    type Refused = NotStarted;

    ghost refusals = { λ s. s.refused };

    ghost joins = { λ s. s.joined };

    ghost running_cell = { λ thread. thread.cell };

    ghost refused_cell = { λ refused. refused.cell };

    fn start(&mut self, task: WorkerTask<WakerBell, OpenGate>) -> Result<Thread, NotStarted>
        ensures running { IfOk result (λ thread. thread.cell ≡ (worker_view task.pass).cell) }
        ensures refused { IfErr result (λ refused. refused.cell ≡ (worker_view task.pass).cell) }
        ensures count { self.old.refused ≤ self.new.refused }
        ensures same_joins { self.new.joined ≡ self.old.joined }
        ensures cause { OnErr result (HasRisen self.old.refused self.new.refused) }
        ensures fits { OnErr result (self.new.refused < 2 ^ 64) }
    {
        let cell = task.cell();
        match (self.start)(task) {
            Some(handle) => Ok(Thread { cell, handle }),
            None => {
                self.refused = self.refused.saturating_add(1);
                Err(NotStarted { cell })
            }
        }
    }

    fn join(&mut self, running: Thread) {
        let Thread { cell: _, handle } = running;
        handle.join(&self.rt);
        self.joined = one_more(self.joined);
    }
}
