//! A gate that holds one job until the other is answered.
ghost use Rattle.std.specs.Prelude.{◌≡◌, ◌≤◌, ◌<◌, ◌^◌, IfOk, IfErr, OnErr};
ghost use Rattle.native_board.specs.Boards.{worker_view};
ghost use Rattle.gv_values.specs.Counts.{HasRisen};

use gv_io::one_more;
use gv_values::Answer;
use native_board::WorkerPass;
use native_pool::{Gate, Spawner, WakerBell, WorkerTask};
use std::alloc::{AllocError, Global};
use std::sync::Arc;
use std::sync::atomic::{AtomicU64, Ordering};
use std::thread;
use std::thread::{JoinHandle, Threads};
use world::{Question, World};

/// How often the gate looks whether the other job is answered.
const LOOKS: u32 = 10000000;

/// What gate, world and test see of each other.
#[derive(Drop)]
pub(crate) struct Signals {
    /// How many jobs came to the gate.
    pub(crate) came: AtomicU64,
    /// The number of the job that came first.
    pub(crate) held: AtomicU64,
    /// The number of the job that was answered last.
    pub(crate) answered: AtomicU64,
    /// How often a job was let go though the other was not answered.
    pub(crate) given_up: AtomicU64,
}

impl Signals {
    pub(crate) fn new() -> Signals {
        Signals {
            came: AtomicU64::new(0),
            held: AtomicU64::new(0),
            answered: AtomicU64::new(0),
            given_up: AtomicU64::new(0),
        }
    }

    /// Whether both jobs came to the gate, and none was let go though the other was not answered.
    pub(crate) fn is_one_held(&self) -> bool {
        self.came.load(Ordering::SeqCst) == 2 && self.given_up.load(Ordering::SeqCst) == 0
    }

    /// Whether a job was answered that is not this one.
    fn is_other_answered(&self, number: u64) -> bool {
        let answered = self.answered.load(Ordering::SeqCst);
        answered != 0 && answered != number
    }

    /// Looks until another job than this is answered.
    fn hold(&self, number: u64) {
        self.held.store(number, Ordering::SeqCst);
        for _ in 0..LOOKS {
            if self.is_other_answered(number) {
                return;
            }
            thread::yield_now();
        }
        self.given_up.fetch_add(1, Ordering::SeqCst);
    }
}

/// Holds the first job that comes to it until the other is answered.
#[derive(Drop)]
pub(crate) struct HoldingGate {
    pub(crate) signals: Arc<Signals, Global>,
}

impl Gate for HoldingGate {
    fn pass(&self, number: u32) {
        if self.signals.came.fetch_add(1, Ordering::SeqCst) == 0 {
            self.signals.hold(u64::from(number));
        }
    }
}

/// A world that signals which job was answered.
#[derive(Drop)]
pub(crate) struct Watched<W> {
    pub(crate) world: W,
    pub(crate) signals: Arc<Signals, Global>,
}

impl<W: World + Drop> World for Watched<W> {
    ghost meaning = { λ w. W.meaning w.world };

    ghost stands_for = { λ w. W.stands_for w.world };

    ghost log_is = { λ w log h. W.log_is w.world log h };

    ghost waits = { W.waits };

    fn begin(&mut self, workers: u32) -> Result<(), AllocError> {
        self.world.begin(workers)
    }

    fn post(&mut self, number: u32, job: gv_values::Job, takes: u64) -> Result<(), AllocError> {
        self.world.post(number, job, takes)
    }

    fn ask(&mut self, question: Question) -> Result<Answer, AllocError> {
        let answer = self.world.ask(question)?;
        if let Answer::Done { number, .. } = answer {
            self.signals
                .answered
                .store(u64::from(number), Ordering::SeqCst);
        }
        Ok(answer)
    }

    fn may_wait(&self) -> bool {
        self.world.may_wait()
    }

    fn finish(&mut self) {
        self.world.finish()
    }
}

#[derive(Drop)]
pub(crate) struct Started {
    cell: u32,
    handle: JoinHandle<WorkerPass>,
}

#[derive(Drop)]
pub(crate) struct NotStarted {
    cell: u32,
}

/// How a task is started on a thread.
pub(crate) type Start = Box<
    dyn Fn(WorkerTask<WakerBell, HoldingGate>) -> Option<JoinHandle<WorkerPass>>,
>;

/// Starts each worker on a thread of its own.
#[derive(Drop)]
pub(crate) struct EachStarts<H> {
    pub(crate) rt: H,
    pub(crate) start: Start,
    pub(crate) refused: u64,
    pub(crate) joined: u64,
    ghost callable: { IsAlwaysCallable start },
}

impl<H: Threads> Spawner<WakerBell, HoldingGate> for EachStarts<H> {
    type Running = Started;

    type Refused = NotStarted;

    ghost refusals = { λ s. s.refused };

    ghost joins = { λ s. s.joined };

    ghost running_cell = { λ started. started.cell };

    ghost refused_cell = { λ not_started. not_started.cell };

    fn start(&mut self, task: WorkerTask<WakerBell, HoldingGate>) -> Result<Started, NotStarted>
        ensures running { IfOk result (λ started. started.cell ≡ (worker_view task.pass).cell) }
        ensures refused { IfErr result (λ not_started. not_started.cell ≡ (worker_view task.pass).cell) }
        ensures count { self.old.refused ≤ self.new.refused }
        ensures same_joins { self.new.joined ≡ self.old.joined }
        ensures cause { OnErr result (HasRisen self.old.refused self.new.refused) }
        ensures fits { OnErr result (self.new.refused < 2 ^ 64) }
    {
        let cell = task.cell();
        if let Some(handle) = (self.start)(task) {
            return Ok(Started { cell, handle });
        }
        self.refused = self.refused.saturating_add(1);
        Err(NotStarted { cell })
    }

    fn join(&mut self, running: Started) {
        let Started { cell: _, handle } = running;
        handle.join(&self.rt);
        self.joined = one_more(self.joined);
    }
}
