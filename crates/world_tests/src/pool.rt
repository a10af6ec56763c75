ghost use Rattle.std.specs.Prelude.{◌≡◌, ◌<◌, ◌≤◌, ◌^◌, true, false, [], OnOk, IfOk, IfErr, OnErr};
ghost use Rattle.std.specs.Arc.{arc_value};
ghost use Rattle.native_board.specs.Boards.{board_id, hub_board, worker_board, worker_view};
ghost use Rattle.native_board.specs.declared.views.WorkerStage.TheVariants.{Idle};
ghost use Rattle.gv_values.specs.Counts.{HasRisen};
ghost use Rattle.gv_values.specs.declared.limits.TheConstants.{MOST_WORKERS};

use gv_io::one_more;
use gv_values::{Answer, Job, JobOutcome};
use native_board::{Bell, Board, Finished, HubPass, Made, WorkerPass};
use native_pool::{
    Clock, Ear, Gate, NoThreads, OpenGate, Parts, PollEar, Spawner, SteadyClock, ThreadSpawner,
    ThreadWorld, WakerBell, WorkerTask, spawn_worker,
};
use std::alloc::{AllocError, Global};
use std::io;
use std::process::Abort;
use std::sync::atomic::{AtomicU64, Ordering};
use std::sync::{Arc, Wait};
use std::test::Fail;
use std::thread::{JoinHandle, Threads};
use world::{Question, World};

/// The last result of a sweep.
fn swept(alloc: Global, board: &Board, hub: &mut HubPass) -> Result<Option<Finished>, AllocError>
    requires { hub_board hub.old ≡ board_id board.now }
    ensures { hub_board hub.new ≡ hub_board hub.old }
{
    let mut found = Vec::with_capacity(alloc, hub.cells() as usize)?;
    board.sweep(hub, &mut found);
    Ok(found.pop())
}

/// Sweeps and rests until there is a result.
fn first_result<R: Wait>(
    rt: &R,
    alloc: Global,
    board: &Board,
    hub: &mut HubPass,
    ear: &mut PollEar,
) -> Result<Finished, AllocError>
    requires { hub_board hub.old ≡ board_id board.now }
    ensures { hub_board hub.new ≡ hub_board hub.old }
{
    for _ in rt.forever() {
        if let Some(finished) = swept(alloc, board, hub)? {
            return Ok(finished);
        }
        ear.rest(Some(1000));
    }
    // `forever` has no end: the loop is left by a return alone.
    unreachable!()
}

/// A board of one cell, with the passes of its hub and of its worker.
#[derive(Drop)]
struct OneCell {
    board: Arc<Board, Global>,
    hub: HubPass,
    pass: WorkerPass,
}

/// A new board of one cell.
fn one_cell(alloc: Global) -> Result<OneCell, AllocError>
    ensures hub { IfOk result (λ it. hub_board it.hub ≡ board_id (arc_value it.board)) }
    ensures worker { IfOk result (λ it. worker_board it.pass ≡ board_id (arc_value it.board)) }
    ensures idle { IfOk result (λ it. (worker_view it.pass).stage ≡ Idle) }
{
    let Made {
        board,
        hub,
        mut workers,
    } = Board::new(alloc, 1)?;
    let Some(pass) = workers.next() else {
        // A board for one worker has one pass.
        unreachable!()
    };
    drop(workers);
    let board = Arc::new(alloc, board)?;
    Ok(OneCell { board, hub, pass })
}

/// The task of the worker of a pass that was made with this board, with this bell.
fn task_of<B: Bell + Drop>(
    alloc: Global,
    board: &Arc<Board, Global>,
    pass: WorkerPass,
    bell: B,
) -> Result<WorkerTask<B, OpenGate>, AllocError>
    requires board { worker_board pass ≡ board_id (arc_value board.now) }
    requires idle { (worker_view pass).stage ≡ Idle }
{
    let gate = Arc::new(alloc, OpenGate)?;
    let bell = Arc::new(alloc, bell)?;
    let board = Arc::try_clone(board)?;
    Ok(WorkerTask::new(board, pass, bell, gate))
}

/// Posts a job into the one cell, asserts what its worker leaves there, and tells the worker to end.
fn assert_done<H: Abort + Wait>(
    rt: &H,
    alloc: Global,
    board: &Board,
    hub: &mut HubPass,
    ear: &mut PollEar,
) -> Result<(), AllocError>
    requires { hub_board hub.old ≡ board_id board.now }
{
    if hub.is_free(0) {
        board.post(hub, 0, 1, Job::Sum(4));
    }
    let finished = first_result(rt, alloc, board, hub, ear)?;
    assert!(rt;
        finished
            == Finished {
                number: 1,
                outcome: JobOutcome::Int(10)
            }
    );
    assert!(rt; hub.is_free(0));
    if hub.is_free(0) {
        board.stop(hub, 0);
    }
    Ok(())
}

/// Asserts that a worker of a new board does a job, if it can be started, and rings its bell to this ear.
fn assert_heard<H: Abort + Wait, S: Spawner<WakerBell, OpenGate>>(
    rt: &H,
    alloc: Global,
    spawner: &mut S,
    ear: &mut PollEar,
    bell: WakerBell,
) -> Result<(), AllocError> {
    let OneCell {
        board,
        mut hub,
        pass,
    } = one_cell(alloc)?;
    let task = task_of(alloc, &board, pass, bell)?;
    let Ok(running) = spawner.start(task) else {
        return Ok(());
    };
    assert!(rt; assert_done(rt, alloc, &board, &mut hub, ear).is_ok());
    spawner.join(running);
    Ok(())
}

#[test]
fn a_thread_takes_a_job_and_its_bell_is_heard(rt: HostRuntime) -> Result<(), Fail> {
    let start = Box::new(
        rt.alloc(),
        move |task: WorkerTask<WakerBell, OpenGate>| spawn_worker(&rt, task),
    )?;
    let (mut ear, bell) = PollEar::new(&rt, rt.alloc())?;
    let mut spawner = ThreadSpawner::new(rt, start);
    assert!(rt; assert_heard(&rt, rt.alloc(), &mut spawner, &mut ear, bell).is_ok());
    Ok(())
}

/// Whether no thread is made for a worker with this bell where there are none.
fn is_refused<B: Bell + Drop>(alloc: Global, bell: B) -> Result<bool, AllocError> {
    let OneCell {
        board,
        hub: _,
        pass,
    } = one_cell(alloc)?;
    let task = task_of(alloc, &board, pass, bell)?;
    let mut spawner = NoThreads::new();
    Ok(spawner.start(task).is_err())
}

#[test]
fn no_threads_refuses(rt: HostRuntime) -> Result<(), Fail> {
    let (_, bell) = PollEar::new(&rt, rt.alloc())?;
    assert!(rt; is_refused(rt.alloc(), bell) == Ok(true));
    Ok(())
}

#[test]
fn the_clock_does_not_fall(rt: HostRuntime) -> Result<(), Fail> {
    let mut clock = SteadyClock::new(rt)?;
    let first = clock.now();
    assert!(rt; first <= clock.now());
    Ok(())
}

/// Posts the echo of each number below the count.
fn post_all<W: World>(world: &mut W, count: u32) -> Result<(), AllocError>
    requires runs { (W.meaning world.old).runs ≡ true }
    requires fresh { (W.meaning world.old).posts ≡ [] }
    ensures { (W.meaning world.new).runs ≡ true }
{
    for number in 0..count {
        world.post(number, Job::Echo(i64::from(number)), 0)?;
    }
    Ok(())
}

/// Asks so often, for a minute at most, and appends the answers in order.
fn ask_all<W: World>(world: &mut W, answers: &mut Vec<Answer>, count: u32) -> Result<(), AllocError>
    requires { (W.meaning world.old).runs ≡ true }
    ensures { (W.meaning world.new).runs ≡ true }
{
    for asked in 0..count {
        let _ = asked;
        let answer = world.ask(Question::Wait(Some(60_000)))?;
        answers.push(answer)?;
    }
    Ok(())
}

fn talk<W: World>(world: &mut W, answers: &mut Vec<Answer>, count: u32) -> Result<(), AllocError>
    requires runs { (W.meaning world.old).runs ≡ true }
    requires fresh { (W.meaning world.old).posts ≡ [] }
    ensures { (W.meaning world.new).runs ≡ true }
{
    post_all(world, count)?;
    ask_all(world, answers, count)
}

/// Appends the answers of a world, with so many workers, to the echoes of the numbers below the count.
fn answer_echoes<W: World>(
    world: &mut W,
    answers: &mut Vec<Answer>,
    workers: u32,
    count: u32,
) -> Result<(), AllocError>
    requires stopped { (W.meaning world.old).runs ≡ false }
    requires workers { (0 < workers) × (workers ≤ MOST_WORKERS) }
    ensures { OnOk result ((W.meaning world.new).runs ≡ false) }
{
    world.begin(workers)?;
    let talked = talk(world, answers, count);
    world.finish();
    talked
}

fn is_echo(answer: Answer, number: u32) -> bool {
    match answer {
        Answer::Done {
            number: done,
            outcome,
            ..
        } => done == number && outcome == JobOutcome::Int(i64::from(number)),
        Answer::Elapsed { .. } | Answer::Nothing { .. } => false,
    }
}

/// Whether these are the echoes of the numbers below the count, in order.
fn are_echoes(answers: &[Answer], count: u32) -> bool {
    let mut next = 0;
    for answer in answers {
        if !is_echo(*answer, next) {
            return false;
        }
        next = next.saturating_add(1);
    }
    next == count
}

fn number_of(answer: Answer) -> u32 {
    match answer {
        Answer::Done { number, .. } => number,
        Answer::Elapsed { .. } | Answer::Nothing { .. } => u32::MAX,
    }
}

/// Whether a world, with so many workers, answers each number below the count once, with its echo, in order.
fn answers_in_order<W: World>(
    world: &mut W,
    alloc: Global,
    workers: u32,
    count: u32,
) -> Result<bool, AllocError>
    requires stopped { (W.meaning world.old).runs ≡ false }
    requires workers { (0 < workers) × (workers ≤ MOST_WORKERS) }
{
    let mut answers = Vec::new(alloc);
    answer_echoes(world, &mut answers, workers, count)?;
    Ok(are_echoes(&answers, count))
}

/// An ear and the bell that it hears, over the system's poll, and the system's clock.
fn edges(rt: HostRuntime) -> io::Result<(PollEar, WakerBell, SteadyClock<HostRuntime>)> {
    let clock = SteadyClock::new(rt)?;
    let (ear, bell) = PollEar::new(&rt, rt.alloc())?;
    Ok((ear, bell, clock))
}

#[test]
fn without_threads_the_hub_answers_in_order(rt: HostRuntime) -> Result<(), Fail> {
    let (ear, bell, clock) = edges(rt)?;
    let spawner = NoThreads::new();
    let mut world = ThreadWorld::new(rt.alloc(), rt, ear, bell, clock, OpenGate, spawner)?;
    assert!(rt; answers_in_order(&mut world, rt.alloc(), 3, 40) == Ok(true));
    Ok(())
}

/// Whether a world, with so many workers, answers each number below the count once, with its echo.
fn answers_all<W: World>(
    world: &mut W,
    alloc: Global,
    workers: u32,
    count: u32,
) -> Result<bool, AllocError>
    requires stopped { (W.meaning world.old).runs ≡ false }
    requires workers { (0 < workers) × (workers ≤ MOST_WORKERS) }
    ensures { OnOk result ((W.meaning world.new).runs ≡ false) }
{
    let mut answers = Vec::new(alloc);
    answer_echoes(world, &mut answers, workers, count)?;
    answers.sort_by(|a, b| number_of(*a).cmp(&number_of(*b)))?;
    Ok(are_echoes(&answers, count))
}

/// Whether a world, with each of these numbers of workers in turn, answers each number below the count once, with its
/// echo.
fn answers_thrice<W: World>(world: &mut W, alloc: Global, count: u32) -> Result<bool, AllocError>
    requires { (W.meaning world.old).runs ≡ false }
{
    let one = answers_all(world, alloc, 1, count)?;
    let two = answers_all(world, alloc, 2, count)?;
    let sixteen = answers_all(world, alloc, 16, count)?;
    Ok(one && two && sixteen)
}

/// Whether a world of these parts does.
fn parts_answer<
    H: Wait + Drop,
    R: Ear + Drop,
    B: Bell + Drop,
    C: Clock + Drop,
    G: Gate + Drop,
    S: Spawner<B, G> + Drop,
>(alloc: Global, rt: H, parts: Parts<R, B, C, G, S>, count: u32) -> Result<bool, AllocError> {
    let mut world = ThreadWorld::of_parts(alloc, rt, parts)?;
    answers_thrice(&mut world, alloc, count)
}

#[test]
fn workers_answer_each_job_once_with_its_value(rt: HostRuntime) -> Result<(), Fail> {
    let start = Box::new(
        rt.alloc(),
        move |task: WorkerTask<WakerBell, OpenGate>| spawn_worker(&rt, task),
    )?;
    let (ear, bell, clock) = edges(rt)?;
    let parts = Parts {
        ear,
        bell,
        clock,
        gate: OpenGate,
        spawner: ThreadSpawner::new(rt, start),
    };
    assert!(rt; parts_answer(rt.alloc(), rt, parts, 1000) == Ok(true));
    Ok(())
}

/// A gate that counts the jobs that pass.
#[derive(Drop)]
struct Passed {
    count: Arc<AtomicU64, Global>,
}

impl Gate for Passed {
    fn pass(&self, number: u32) {
        let _ = number;
        self.count.fetch_add(1, Ordering::SeqCst);
    }
}

#[derive(Drop)]
struct Started {
    cell: u32,
    handle: JoinHandle<WorkerPass>,
}

#[derive(Drop)]
struct Skipped {
    cell: u32,
}

/// How a task is started on a thread.
type Start = Box<dyn Fn(WorkerTask<WakerBell, Passed>) -> Option<JoinHandle<WorkerPass>>>;

/// Starts every second worker on a thread of its own, and refuses the others.
#[derive(Drop)]
struct EverySecond<H> {
    rt: H,
    start: Start,
    skipped: bool,
    refused: u64,
    joined: u64,
    ghost callable: { IsAlwaysCallable start },
}

impl<H: Threads> Spawner<WakerBell, Passed> for EverySecond<H> {
    type Running = Started;

    type Refused = Skipped;

    ghost refusals = { λ s. s.refused };

    ghost joins = { λ s. s.joined };

    ghost running_cell = { λ started. started.cell };

    ghost refused_cell = { λ skipped. skipped.cell };

    fn start(&mut self, task: WorkerTask<WakerBell, Passed>) -> Result<Started, Skipped>
        ensures running { IfOk result (λ started. started.cell ≡ (worker_view task.pass).cell) }
        ensures refused { IfErr result (λ skipped. skipped.cell ≡ (worker_view task.pass).cell) }
        ensures count { self.old.refused ≤ self.new.refused }
        ensures same_joins { self.new.joined ≡ self.old.joined }
        ensures cause { OnErr result (HasRisen self.old.refused self.new.refused) }
        ensures fits { OnErr result (self.new.refused < 2 ^ 64) }
    {
        let cell = task.cell();
        self.skipped = !self.skipped;
        if !self.skipped {
            if let Some(handle) = (self.start)(task) {
                return Ok(Started { cell, handle });
            }
        }
        self.refused = self.refused.saturating_add(1);
        Err(Skipped { cell })
    }

    fn join(&mut self, running: Started) {
        let Started { cell: _, handle } = running;
        handle.join(&self.rt);
        self.joined = one_more(self.joined);
    }
}

#[test]
fn where_every_second_start_is_refused_the_others_do_the_jobs(rt: HostRuntime) -> Result<(), Fail> {
    let count = Arc::new(rt.alloc(), AtomicU64::new(0))?;
    let gate = Passed {
        count: Arc::try_clone(&count)?,
    };
    let start = Box::new(
        rt.alloc(),
        move |task: WorkerTask<WakerBell, Passed>| spawn_worker(&rt, task),
    )?;
    let (ear, bell, clock) = edges(rt)?;
    let spawner = EverySecond {
        rt,
        start,
        skipped: false,
        refused: 0,
        joined: 0,
    };
    let parts = Parts {
        ear,
        bell,
        clock,
        gate,
        spawner,
    };
    assert!(rt; parts_answer(rt.alloc(), rt, parts, 100) == Ok(true));
    assert!(rt; count.load(Ordering::SeqCst) == 200);
    Ok(())
}
