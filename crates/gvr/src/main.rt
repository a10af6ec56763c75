//! The program: it makes the real streams, the world of native threads and the net of the system's sockets, and
//! `gv_top::gvr` does everything.
#![tactic(auto)]

mod fallback_edge;

ghost use Rattle.std.specs.Prelude.{◌≡◌, false};
ghost use Rattle.stream_dial.specs.Dials.{HasOpenedNone};
ghost use Rattle.stream_net.specs.Net.{IsFresh};

use crate::fallback_edge::{DeafEar, MuteBell, ProgramClock};
use gv_io::{StdSink, StdSource};
use gv_top::gvr;
use mio_net::{MioDial, MioNet, Upstream};
use native_board::Bell;
use native_pool::{
    Ear, NoThreads, OpenGate, PollEar, Spawner, StartThread, ThreadSpawner, ThreadWorld, WakerBell,
    WorkerTask, spawn_worker,
};
use std::alloc::{AllocError, Global};
use std::io::Write;
use std::os::fd::RawFd;
use std::process::ExitCode;
use std::sync::Wait;
use std::thread::Threads;
use std::{env, io};
use stream_dial::Dial;
use stream_net::Net;
use world::World;
use wsgi_core::ShippedApp;
use wsgi_relay::AppServer;

/// How many bytes of the trace are kept back before they are written out.
const TRACE_CAPACITY: usize = 65536;

/// How many bytes of the line on err are kept back.
const LINE_CAPACITY: usize = 256;

/// The status of want of memory.
const OUT_OF_MEMORY: u8 = 7;

/// The words after the program's name; a word that isn't UTF-8 makes a list that is no command.
fn words(rt: &HostRuntime) -> Result<Vec<String>, AllocError> {
    let mut words = Vec::new(rt.alloc());
    match env::args(rt) {
        Ok(all) => {
            for word in all.skip(1) {
                words.push(word)?;
            }
        }
        Err(error) => {
            if error.kind() == io::ErrorKind::OutOfMemory {
                return Err(AllocError);
            }
        }
    }
    Ok(words)
}

/// Does what the words name over the real streams and this world, net and dial; gives its status.
fn run_streams<H: Wait, W: World, N: Net, D: Dial>(
    rt: HostRuntime,
    handle: &H,
    words: &[String],
    native: &mut W,
    net: &mut N,
    behind: &mut AppServer<D>,
) -> Result<u8, AllocError>
    requires rests { (W.meaning native.old).runs ≡ false }
    requires fresh { IsFresh (N.meaning net.old) }
    requires undialled { HasOpenedNone (D.meaning behind.old.dial) }
{
    let mut input = StdSource::new(rt.reader());
    let mut err = StdSink::new(rt.alloc(), rt.stderr().lock(), LINE_CAPACITY)?;
    let mut out = StdSink::new(rt.alloc(), rt.stdout().lock(), TRACE_CAPACITY)?;
    Ok(gvr(
        handle,
        rt.alloc(),
        words,
        &mut input,
        &mut out,
        &mut err,
        native,
        net,
        behind,
        &ShippedApp,
    ))
}

/// Does what the program's words name over this world and the system's sockets; gives its status. The net is woken where
/// the descriptor may be read, and by what comes on a dialled stream.
fn run_words<H: Wait, W: World>(
    rt: HostRuntime,
    handle: &H,
    native: &mut W,
    bell: Option<RawFd>,
) -> Result<u8, AllocError>
    requires { (W.meaning native.old).runs ≡ false }
{
    let words = words(&rt)?;
    let Ok(mut net) = MioNet::new(rt, rt.alloc()) else {
        return Err(AllocError);
    };
    // Its port and patience are told by the words.
    let Ok(dial) = MioDial::new(rt, rt.alloc(), Upstream::Port(0)) else {
        return Err(AllocError);
    };
    net.watch(&[bell, dial.descriptor()]);
    let mut behind = AppServer { dial, patience: 0 };
    let status = run_streams(rt, handle, words.as_slice(), native, &mut net, &mut behind);
    net.let_go();
    status
}

/// Runs the command over native threads that are made of these parts, of whose bell the descriptor tells; gives its
/// status.
fn run_over<H: Wait + Copy, R: Ear + Drop, B: Bell + Drop, S: Spawner<B, OpenGate> + Drop>(
    rt: HostRuntime,
    handle: H,
    ear: R,
    bell: B,
    spawner: S,
    descriptor: Option<RawFd>,
) -> Result<u8, AllocError> {
    let clock = ProgramClock::new(rt);
    let mut native = ThreadWorld::new(rt.alloc(), handle, ear, bell, clock, OpenGate, spawner)?;
    run_words(rt, &handle, &mut native, descriptor)
}

/// Runs the command, and gives its status. Where the system has no poll by which a worker could wake the hub, the hub
/// evaluates all jobs itself.
fn run<H: Threads + Wait + Copy>(
    rt: HostRuntime,
    handle: H,
    start: StartThread,
) -> Result<u8, AllocError>
    requires { IsAlwaysCallable start }
{
    match PollEar::new(&rt, rt.alloc()) {
        Ok((ear, bell)) => {
            let descriptor = Some(ear.descriptor());
            let spawner = ThreadSpawner::new(handle, start);
            run_over(rt, handle, ear, bell, spawner, descriptor)
        }
        Err(error) => {
            if error.kind() == io::ErrorKind::OutOfMemory {
                return Err(AllocError);
            }
            run_over(rt, handle, DeafEar, MuteBell, NoThreads::new(), None)
        }
    }
}

/// Tells of want of memory, and gives its status.
fn without_memory(rt: &HostRuntime) -> ExitCode {
    // The status stays where the line can't be written.
    let _ = rt.stderr().lock().write_all(b"gvr: out of memory\n");
    ExitCode::from(OUT_OF_MEMORY)
}

fn main(rt: HostRuntime) -> ExitCode {
    let start = Box::new(
        rt.alloc(),
        move |task: WorkerTask<WakerBell, OpenGate>| spawn_worker(&rt, task),
    );
    match start {
        Ok(start) => match run(rt, rt, start) {
            Ok(status) => ExitCode::from(status),
            Err(_) => without_memory(&rt),
        },
        Err(_) => without_memory(&rt),
    }
}
