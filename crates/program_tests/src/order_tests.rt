//! Jobs on threads, whose results are told in the order of a script.
use crate::calls::{Row, holds_in};
use crate::native_tests::Still;
use native_pool::{
    OpenGate, PollEar, Spawner, ThreadSpawner, ThreadWorld, WakerBell, WorkerTask, spawn_worker,
};
use std::alloc::{AllocError, Global};
use std::sync::Wait;
use std::test::Fail;

/// One who waits for a job is killed; the job is done in spite of that.
const KILLED_WAITER: &[u8] =
    b"native n 2\ndef slow\nj <- nspawn n sum 5 takes 30\nx <- get j\nprint x\nend\ndef quick\nj <- nspawn n fail 3 takes 10\nx <- get j\nprint x\nend\ndef main\na <- spawn slow\nb <- spawn quick\nsleep 5\nkill b\nk <- nspawn n echo 9\nx <- get k\nprint x\njoin a\nend\n";

const ITS_TRACE: &[u8] =
    b"start g0 main\npark g0 sleep until 5\nstart g1 slow\njob j1 g1 sum 5\npark g1 get j1\nstart g2 quick\njob j2 g2 fail 3\npark g2 get j2\nblock 5\nturn 1 elapsed 5\nwake g0\npark g0 kill g2\nturn 2 nothing 5\nthrow g2 GreenletExit\nend g2 value GreenletExit\nturn 3 nothing 5\nwake g0\npark g0 nspawn n\nblock jobs\nturn 4 done j2 10 fault Error(3)\nwake g0\njob j3 g0 echo 9\npark g0 get j3\nblock jobs\nturn 5 done j3 10 value 9\nwake g0\nprint g0 9\npark g0 join g1\nblock jobs\nturn 6 done j1 30 value 15\nwake g1\nprint g1 15\nend g1 value none\nturn 7 nothing 30\nwake g0\nend g0 value none\nstop value none turns 8 moves 13\n";

/// The call with the words of this line over that text, which gives that trace.
fn row_of(line: &str) -> Row<'_> {
    Row {
        name: "",
        words: line,
        input: KILLED_WAITER,
        piece: 4096,
        failing: &[],
        room: 2000,
        err_room: 100,
        status: 0,
        out: ITS_TRACE,
        err: b"",
    }
}

/// Whether the call with the words of this line writes that trace, over a world of these parts.
fn writes_its_trace<H: Wait + Drop, S: Spawner<WakerBell, OpenGate> + Drop>(
    alloc: Global,
    rt: H,
    ear: PollEar,
    bell: WakerBell,
    spawner: S,
    line: &str,
) -> Result<bool, AllocError> {
    let world = ThreadWorld::new(alloc, rt, ear, bell, Still, OpenGate, spawner)?;
    holds_in(alloc, &row_of(line), world)
}

#[test]
fn held_job_of_a_killed_waiter(rt: HostRuntime) -> Result<(), Fail> {
    let alloc = rt.alloc();
    for line in [
        "run --native 1 --order held",
        "run --native 2 --order held",
        "run --native 4 --order held",
    ] {
        let start = Box::new(
            alloc,
            move |task: WorkerTask<WakerBell, OpenGate>| spawn_worker(&rt, task),
        )?;
        let (ear, bell) = PollEar::new(&rt, alloc)?;
        let spawner = ThreadSpawner::new(rt, start);
        assert!(rt;
            writes_its_trace(alloc, rt, ear, bell, spawner, line)?,
            "{line}"
        );
    }
    Ok(())
}
