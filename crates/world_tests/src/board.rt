ghost use Rattle.std.specs.Prelude.{◌≡◌, IsTrue};
ghost use Rattle.native_board.specs.declared.views.WorkerStage.TheVariants.{Idle};
ghost use Rattle.native_board.specs.Boards.{board_id, hub_board, worker_board, worker_view};

use gv_values::{FaultKind, Job, JobOutcome};
use native_board::{Bell, Board, Finished, HubPass, Looked, Made, WorkerPass};
use std::alloc::{AllocError, Global};
use std::process::Abort;
use std::sync::Wait;
use std::sync::atomic::{AtomicU64, Ordering};
use std::test::Fail;
use std::thread;
use std::thread::Threads;
use world_rules::eval;

/// A bell that counts its rings.
#[derive(Drop)]
struct Rings {
    count: AtomicU64,
}

impl Rings {
    fn new() -> Rings {
        Rings {
            count: AtomicU64::new(0),
        }
    }

    fn count(&self) -> u64 {
        self.count.load(Ordering::SeqCst)
    }
}

impl Bell for Rings {
    fn ring(&self) {
        self.count.fetch_add(1, Ordering::SeqCst);
    }
}

/// Takes and reports one job, and says whether there was one.
fn work_once(board: &Board, pass: &mut WorkerPass, bell: &Rings) -> bool
    requires board { worker_board pass.old ≡ board_id board.now }
    requires idle { (worker_view pass.old).stage ≡ Idle }
    ensures board { worker_board pass.new ≡ worker_board pass.old }
    ensures idle { IsTrue result → (worker_view pass.new).stage ≡ Idle }
{
    match board.look(pass) {
        Looked::Posted { number: _, job } => {
            board.report(pass, eval(job), bell);
            true
        }
        Looked::NotYet | Looked::Stop => false,
    }
}

/// Appends what a sweep finds.
fn sweep_into(board: &Board, hub: &mut HubPass, all: &mut Vec<Finished>) -> Result<(), AllocError>
    requires { hub_board hub.old ≡ board_id board.now }
    ensures { hub_board hub.new ≡ hub_board hub.old }
{
    all.reserve(hub.cells() as usize)?;
    board.sweep(hub, all);
    Ok(())
}

/// Whether a sweep finds just these.
fn finds(alloc: Global, board: &Board, hub: &mut HubPass, expected: &[Finished]) -> bool
    requires { hub_board hub.old ≡ board_id board.now }
    ensures { hub_board hub.new ≡ hub_board hub.old }
{
    let mut found = Vec::new(alloc);
    let is_swept = sweep_into(board, hub, &mut found).is_ok();
    is_swept && found.as_slice() == expected
}

/// Posts a job into the cell, if it is free.
fn post_where_free(board: &Board, hub: &mut HubPass, cell: u32, number: u32, job: Job)
    requires { hub_board hub.old ≡ board_id board.now }
    ensures { hub_board hub.new ≡ hub_board hub.old }
{
    if hub.is_free(cell) {
        board.post(hub, cell, number, job);
    }
}

/// What the first two jobs come to.
const FIRST_TWO: &[Finished] = &[
    Finished {
        number: 1,
        outcome: JobOutcome::Int(6),
    },
    Finished {
        number: 2,
        outcome: JobOutcome::Fault(FaultKind::Error(-3)),
    },
];

/// Asserts how often the bell has rung after each report, and what the sweeps find.
fn assert_rings<A: Abort>(
    rt: &A,
    alloc: Global,
    board: &Board,
    hub: &mut HubPass,
    first: &mut WorkerPass,
    second: &mut WorkerPass,
)
    requires hub { hub_board hub.old ≡ board_id board.now }
    requires first { (worker_board first.old ≡ board_id board.now) × ((worker_view first.old).stage ≡ Idle) }
    requires second { (worker_board second.old ≡ board_id board.now) × ((worker_view second.old).stage ≡ Idle) }
{
    let bell = Rings::new();
    assert!(rt; hub.is_free(0) && !hub.is_free(2));
    post_where_free(board, hub, 0, 1, Job::Sum(3));
    post_where_free(board, hub, 1, 2, Job::Fail(-3));
    assert!(rt; !hub.is_free(0) && finds(alloc, board, hub, &[]));
    assert!(rt; work_once(board, first, &bell) && bell.count() == 1);
    assert!(rt; work_once(board, second, &bell) && bell.count() == 1);
    assert!(rt; finds(alloc, board, hub, FIRST_TWO));
    post_where_free(board, hub, 1, 3, Job::Echo(9));
    assert!(rt; work_once(board, second, &bell) && bell.count() == 2);
}

#[test]
fn rings_once_for_each_report_that_found_the_signal_low(rt: HostRuntime) -> Result<(), Fail> {
    let Made {
        board,
        mut hub,
        mut workers,
    } = Board::new(rt.alloc(), 2)?;
    let Some(mut first) = workers.next() else {
        // A board for two workers has two passes.
        unreachable!()
    };
    let Some(mut second) = workers.next() else {
        // This is the second of its two passes.
        unreachable!()
    };
    assert!(rt; workers.next().is_none());
    assert_rings(&rt, rt.alloc(), &board, &mut hub, &mut first, &mut second);
    Ok(())
}

/// How many jobs the threads are given.
const JOBS: u32 = 500;

fn work<R: Wait>(rt: &R, board: &Board, mut pass: WorkerPass, bell: &Rings)
    requires board { worker_board pass ≡ board_id board.now }
    requires idle { (worker_view pass).stage ≡ Idle }
{
    for _ in rt.forever() {
        match board.look(&mut pass) {
            Looked::Posted { number: _, job } => board.report(&mut pass, eval(job), bell),
            Looked::NotYet => board.doze(rt, &mut pass),
            Looked::Stop => return,
        }
    }
    // `forever` has no end: the loop is left by a return alone.
    unreachable!()
}

/// Posts the next job into the cell, if it is free and there is one.
fn post_next(board: &Board, hub: &mut HubPass, cell: u32, next: u32) -> u32
    requires { hub_board hub.old ≡ board_id board.now }
    ensures { hub_board hub.new ≡ hub_board hub.old }
{
    if next > JOBS || !hub.is_free(cell) {
        return next;
    }
    board.post(hub, cell, next, Job::Echo(i64::from(next)));
    next.saturating_add(1)
}

/// Posts jobs into two cells as they are free, and appends the results, until each has one.
fn lead_until_all<R: Wait>(
    rt: &R,
    board: &Board,
    hub: &mut HubPass,
    all: &mut Vec<Finished>,
) -> Result<(), AllocError>
    requires { hub_board hub.old ≡ board_id board.now }
    ensures { hub_board hub.new ≡ hub_board hub.old }
{
    let mut next = 1;
    for _ in rt.forever() {
        next = post_next(board, hub, 0, next);
        next = post_next(board, hub, 1, next);
        sweep_into(board, hub, all)?;
        if all.len() >= JOBS as usize {
            return Ok(());
        }
    }
    // `forever` has no end: the loop is left by a return alone.
    unreachable!()
}

/// Tells the worker of the cell to end, if it is free.
fn stop_where_free(board: &Board, hub: &mut HubPass, cell: u32)
    requires { hub_board hub.old ≡ board_id board.now }
    ensures { hub_board hub.new ≡ hub_board hub.old }
{
    if hub.is_free(cell) {
        board.stop(hub, cell);
    }
}

/// The results of all jobs, each posted into one of two cells, whose workers then are told to end.
fn lead<R: Wait>(
    rt: &R,
    alloc: Global,
    board: &Board,
    mut hub: HubPass,
) -> Result<Vec<Finished>, AllocError>
    requires { hub_board hub ≡ board_id board.now }
{
    let mut all = Vec::new(alloc);
    let led = lead_until_all(rt, board, &mut hub, &mut all);
    stop_where_free(board, &mut hub, 0);
    stop_where_free(board, &mut hub, 1);
    drop(hub);
    led?;
    Ok(all)
}

/// The passes of two workers.
#[derive(Drop)]
struct TwoPasses {
    first: WorkerPass,
    second: WorkerPass,
}

fn pair<R: Threads + Wait + Sync>(rt: &R, board: &Board, workers: TwoPasses, bell: &Rings)
    requires first { (worker_board workers.first ≡ board_id board.now) × ((worker_view workers.first).stage ≡ Idle) }
    requires second { (worker_board workers.second ≡ board_id board.now) × ((worker_view workers.second).stage ≡ Idle) }
{
    let TwoPasses { first, second } = workers;
    thread::join(
        rt,
        move ||
            requires { (worker_board first ≡ board_id board.now) × ((worker_view first).stage ≡ Idle) }
        { work(rt, board, first, bell) },
        move ||
            requires { (worker_board second ≡ board_id board.now) × ((worker_view second).stage ≡ Idle) }
        { work(rt, board, second, bell) },
    );
}

fn run<R: Threads + Wait + Sync>(
    rt: &R,
    alloc: Global,
    board: &Board,
    hub: HubPass,
    workers: TwoPasses,
    bell: &Rings,
) -> Result<Vec<Finished>, AllocError>
    requires hub { hub_board hub ≡ board_id board.now }
    requires first { (worker_board workers.first ≡ board_id board.now) × ((worker_view workers.first).stage ≡ Idle) }
    requires second { (worker_board workers.second ≡ board_id board.now) × ((worker_view workers.second).stage ≡ Idle) }
{
    let (found, _) = thread::join(
        rt,
        move ||
            requires { hub_board hub ≡ board_id board.now }
        { lead(rt, alloc, board, hub) },
        move ||
            requires { (worker_board workers.first ≡ board_id board.now) × ((worker_view workers.first).stage ≡ Idle) × (worker_board workers.second ≡ board_id board.now) × ((worker_view workers.second).stage ≡ Idle) }
        { pair(rt, board, workers, bell) },
    );
    found
}

fn both<R: Threads + Wait + Sync>(rt: &R, alloc: Global) -> Result<Vec<Finished>, AllocError> {
    let Made {
        board,
        hub,
        mut workers,
    } = Board::new(alloc, 2)?;
    let bell = Rings::new();
    let Some(first) = workers.next() else {
        // A board for two workers has two passes.
        unreachable!()
    };
    let Some(second) = workers.next() else {
        // This is the second of its two passes.
        unreachable!()
    };
    let workers = TwoPasses { first, second };
    run(rt, alloc, &board, hub, workers, &bell)
}

#[test]
fn two_threads_do_each_job_once(rt: HostRuntime) -> Result<(), Fail> {
    let mut found = both(&rt, rt.alloc())?;
    assert!(rt; found.sort_by(|a, b| a.number.cmp(&b.number)).is_ok());
    assert!(rt; found.len() == JOBS as usize);
    for (i, finished) in found.iter().enumerate() {
        let number = i as u32 + 1;
        assert!(rt;
            finished.number == number && finished.outcome == JobOutcome::Int(i64::from(number))
        );
    }
    drop(found);
    Ok(())
}
