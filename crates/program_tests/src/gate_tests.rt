//! Two jobs, each on a thread of its own, of which the one that comes first is held until the other is answered.
ghost use Rattle.std.specs.Prelude.{◌≡◌, false};

use crate::calls::{Row, called, holds_in};
use crate::held_gate::{EachStarts, HoldingGate, Signals, Start, Watched};
use crate::native_tests::Still;
use gv_io::{MemorySink, MemorySource};
use native_board::Bell;
use native_pool::{
    Clock, Ear, Gate, Parts, PollEar, Spawner, ThreadWorld, WakerBell, WorkerTask, spawn_worker,
};
use std::alloc::{AllocError, Global};
use std::sync::atomic::Ordering;
use std::sync::{Arc, Wait};
use std::test::Fail;
use std::thread::Threads;
use world::{ListWorld, World};

const TWO_ECHOES: &[u8] =
    b"native n 2\ndef main\na <- nspawn n echo 1\nb <- nspawn n echo 2\nx <- get b\ny <- get a\nprint y\nend\n";

/// Where the first job was held.
const SECOND_ENDS_FIRST: &[u8] =
    b"start g0 main\njob j1 g0 echo 1\njob j2 g0 echo 2\npark g0 get j2\nblock jobs\nturn 1 done j2 0 value 2\nwake g0\npark g0 get j1\nblock jobs\nturn 2 done j1 0 value 1\nwake g0\nprint g0 1\nend g0 value none\nstop value none turns 3 moves 5\n";

/// Where the second job was held.
const FIRST_ENDS_FIRST: &[u8] =
    b"start g0 main\njob j1 g0 echo 1\njob j2 g0 echo 2\npark g0 get j2\nblock jobs\nturn 1 done j1 0 value 1\nblock jobs\nturn 2 done j2 0 value 2\nwake g0\nprint g0 1\nend g0 value none\nstop value none turns 3 moves 5\n";

/// Appends the text of the two jobs, and this trace behind it.
fn push_recorded(bytes: &mut Vec<u8>, trace: &[u8]) -> Result<(), AllocError> {
    bytes.extend_from_slice(TWO_ECHOES)?;
    bytes.extend_from_slice(b"====\n")?;
    bytes.extend_from_slice(trace)
}

/// Whether the call to verify that this trace is a run of the two jobs, over a world that has no answers, ends well and
/// writes this.
fn is_verified(alloc: Global, trace: &[u8], written: &[u8]) -> Result<bool, AllocError> {
    let mut bytes = Vec::new(alloc);
    push_recorded(&mut bytes, trace)?;
    let row = Row {
        name: "",
        words: "verify",
        input: bytes.as_slice(),
        piece: 4096,
        failing: &[],
        room: 2000,
        err_room: 100,
        status: 0,
        out: written,
        err: b"",
    };
    holds_in(alloc, &row, ListWorld::new(alloc, Vec::new(alloc)))
}

/// Whether this is the trace where the job of this number was held, and is verified.
fn is_trace_of(alloc: Global, held: u64, trace: &[u8]) -> Result<bool, AllocError> {
    let (whole, verified) = if held == 1 {
        (SECOND_ENDS_FIRST, b"verified lines 14\n".as_slice())
    } else {
        (FIRST_ENDS_FIRST, b"verified lines 12\n".as_slice())
    };
    if trace != whole {
        return Ok(false);
    }
    is_verified(alloc, trace, verified)
}

/// Calls over a world. Whether the call ends well.
fn ends_well<W: World>(
    alloc: Global,
    native: &mut W,
    out: &mut MemorySink,
) -> Result<bool, AllocError>
    requires { (W.meaning native.old).runs ≡ false }
{
    let bytes = Vec::from_slice(alloc, TWO_ECHOES)?;
    let mut err = MemorySink::new(alloc, 100)?;
    let mut input = MemorySource::new(bytes, 4096, Vec::new(alloc));
    let status = called(alloc, "run --native=2", &mut input, out, &mut err, native);
    Ok(status == Ok(0))
}

/// Calls over a world of these parts, whose answers are signalled. Whether the call ends well.
fn runs_over<
    H: Wait + Drop,
    R: Ear + Drop,
    B: Bell + Drop,
    C: Clock + Drop,
    G: Gate + Drop,
    S: Spawner<B, G> + Drop,
>(
    alloc: Global,
    rt: H,
    parts: Parts<R, B, C, G, S>,
    signals: Arc<Signals, Global>,
    out: &mut MemorySink,
) -> Result<bool, AllocError> {
    let world = ThreadWorld::of_parts(alloc, rt, parts)?;
    let mut native = Watched { world, signals };
    ends_well(alloc, &mut native, out)
}

/// Calls over a world of two threads that `start` makes, with a gate that signals. Whether the call ends well.
fn runs<H: Threads + Wait + Copy + Drop>(
    rt: HostRuntime,
    handle: H,
    start: Start,
    signals: &Arc<Signals, Global>,
    out: &mut MemorySink,
) -> Result<bool, AllocError>
    requires { IsAlwaysCallable start }
{
    let alloc = rt.alloc();
    let gate = HoldingGate {
        signals: Arc::try_clone(signals)?,
    };
    let seen = Arc::try_clone(signals)?;
    let Some((ear, bell)) = PollEar::new(&rt, alloc).ok() else {
        return Ok(false);
    };
    let parts = Parts {
        ear,
        bell,
        clock: Still,
        gate,
        spawner: EachStarts {
            rt: handle,
            start,
            refused: 0,
            joined: 0,
        },
    };
    runs_over(alloc, handle, parts, seen, out)
}

/// Whether the call on threads that `start` makes ends well, with one job held, and writes the trace of that.
fn holds_one<H: Threads + Wait + Copy + Drop>(
    rt: HostRuntime,
    handle: H,
    start: Start,
) -> Result<bool, AllocError>
    requires { IsAlwaysCallable start }
{
    let alloc = rt.alloc();
    let mut out = MemorySink::new(alloc, 2000)?;
    let signals = Arc::new(alloc, Signals::new())?;
    let is_run = runs(rt, handle, start, &signals, &mut out) == Ok(true);
    let is_held = is_run && signals.is_one_held();
    let held = signals.held.load(Ordering::SeqCst);
    Ok(is_held && is_trace_of(alloc, held, out.bytes()) == Ok(true))
}

#[test]
fn gate_two_workers(rt: HostRuntime) -> Result<(), Fail> {
    let start = Box::new(
        rt.alloc(),
        move |task: WorkerTask<WakerBell, HoldingGate>| spawn_worker(&rt, task),
    )?;
    assert!(rt; holds_one(rt, rt, start) == Ok(true));
    Ok(())
}
