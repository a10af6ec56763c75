//! `serve --jobs` over loopback: many connections, each with a job of its own that native threads do, while one reads
//! nothing.
ghost use Rattle.std.specs.Prelude.{◌≡◌, false};
ghost use Rattle.stream_net.specs.Net.{IsFresh};

use crate::calls::words_of;
use gv_io::{MemorySink, MemorySource};
use gv_top::gvr;
use mio_net::MioNet;
use native_board::Bell;
use native_pool::{
    Clock, Ear, Gate, OpenGate, Parts, PollEar, Spawner, StartThread, SteadyClock, ThreadSpawner,
    ThreadWorld, WakerBell, WorkerTask, spawn_worker,
};
use std::alloc::{AllocError, Global};
use std::io::{Read, Write};
use std::net::{Ipv4Addr, SocketAddr, TcpStream};
use std::sync::Wait;
use std::test::Fail;
use std::thread::{JoinHandle, Threads};
use std::{io, thread};
use stream_dial::MemoryDial;
use stream_net::Net;
use world::World;
use wsgi_core::ShippedApp;
use wsgi_relay::AppServer;

/// How many clients ask and read.
const CLIENTS: u32 = 64;

/// How often a client that nobody hears tries again.
const TRIES: u32 = 10000000;

/// What a client of this number asks for: the first by far the longest.
fn request(alloc: Global, number: u32) -> Result<String, AllocError> {
    let kind = if number == 0 {
        "collatz/63728127"
    } else {
        "echo/"
    };
    if number == 0 {
        return format!(in alloc; "GET /job/{kind} HTTP/1.1\r\nConnection: close\r\n\r\n");
    }
    format!(in alloc; "GET /job/{kind}{number} HTTP/1.1\r\nConnection: close\r\n\r\n")
}

/// What comes last of its answer.
fn answer(alloc: Global, number: u32) -> Result<String, AllocError> {
    if number == 0 {
        return String::from_str(alloc, "\r\n\r\nvalue 949\n");
    }
    format!(in alloc; "\r\n\r\nvalue {number}\n")
}

/// Connects, once somebody listens at the port.
fn connect(rt: &HostRuntime, port: u16) -> io::Result<TcpStream> {
    let address = SocketAddr::from((Ipv4Addr::LOCALHOST, port));
    for _ in 0..TRIES {
        if let Ok(stream) = TcpStream::connect(rt, address) {
            return Ok(stream);
        }
        thread::yield_now();
    }
    TcpStream::connect(rt, address)
}

/// Whether a client that asks for a job is sent what this came to.
fn is_answered(rt: &HostRuntime, port: u16, number: u32) -> io::Result<bool> {
    let mut stream = connect(rt, port)?;
    let request = request(rt.alloc(), number)?;
    stream.write_all(request.as_bytes())?;
    let mut bytes = Vec::new(rt.alloc());
    stream.read_to_end(&mut bytes)?;
    let answer = answer(rt.alloc(), number)?;
    Ok(bytes.as_slice().ends_with(answer.as_bytes()))
}

/// Asks for a job, and reads nothing.
fn ask_alone(rt: &HostRuntime, port: u16) -> io::Result<TcpStream> {
    let mut stream = connect(rt, port)?;
    stream.write_all(b"GET /job/echo/7 HTTP/1.1\r\n\r\n")?;
    Ok(stream)
}

/// What a call left.
#[derive(Drop)]
struct Left {
    status: u8,
    out: MemorySink,
}

/// Calls with these words over this net and world.
fn call_over<H: Wait, N: Net, W: World>(
    alloc: Global,
    rt: &H,
    words: &[String],
    net: &mut N,
    native: &mut W,
) -> Result<Left, AllocError>
    requires fresh { IsFresh (N.meaning net.old) }
    requires rests { (W.meaning native.old).runs ≡ false }
{
    let mut err = MemorySink::new(alloc, 100)?;
    let mut out = MemorySink::new(alloc, 100)?;
    let mut input = MemorySource::new(Vec::new(alloc), 1, Vec::new(alloc));
    let dial = MemoryDial::new(alloc, Vec::new(alloc));
    let mut behind = AppServer { dial, patience: 0 };
    let status = gvr(
        rt,
        alloc,
        words,
        &mut input,
        &mut out,
        &mut err,
        native,
        net,
        &mut behind,
        &ShippedApp,
    );
    Ok(Left { status, out })
}

/// Calls with these words over this net and a world of these parts.
fn call_in_world<
    H: Wait + Copy + Drop,
    R: Ear + Drop,
    B: Bell + Drop,
    C: Clock + Drop,
    G: Gate + Drop,
    S: Spawner<B, G> + Drop,
    N: Net,
>(
    alloc: Global,
    rt: H,
    words: &[String],
    net: &mut N,
    parts: Parts<R, B, C, G, S>,
) -> Result<Left, AllocError>
    requires { IsFresh (N.meaning net.old) }
{
    let mut native = ThreadWorld::of_parts(alloc, rt, parts)?;
    call_over(alloc, &rt, words, net, &mut native)
}

/// Whether the call with these words over this net serves 65 connections, the jobs on threads that `start` makes.
fn serves_over<H: Threads + Wait + Copy + Drop, N: Net>(
    rt: HostRuntime,
    handle: H,
    words: &[String],
    net: &mut N,
    start: StartThread,
) -> io::Result<bool>
    requires callable { IsAlwaysCallable start }
    requires fresh { IsFresh (N.meaning net.old) }
{
    let alloc = rt.alloc();
    let clock = SteadyClock::new(rt)?;
    let (ear, bell) = PollEar::new(&rt, alloc)?;
    let parts = Parts {
        ear,
        bell,
        clock,
        gate: OpenGate,
        spawner: ThreadSpawner::new(handle, start),
    };
    let left = call_in_world(alloc, handle, words, net, parts)?;
    Ok(left.status == 0 && left.out.bytes().ends_with(b"served 65\n"))
}

/// Whether 65 connections are served at this port, the jobs on threads that `start` makes.
fn are_served<H: Threads + Wait + Copy + Drop>(
    rt: HostRuntime,
    handle: H,
    port: u16,
    start: StartThread,
) -> io::Result<bool>
    requires { IsAlwaysCallable start }
{
    let alloc = rt.alloc();
    let line = format!(in alloc; "serve --port {port} --conns 65 --idle 500 --jobs 4")?;
    let words = words_of(alloc, line.as_str())?;
    let mut net = MioNet::new(rt, alloc)?;
    serves_over(rt, handle, words.as_slice(), &mut net, start)
}

/// Starts the clients that ask and read, each in a thread of its own.
fn start_clients<H: Threads>(
    rt: HostRuntime,
    handle: &H,
    port: u16,
    clients: &mut Vec<JoinHandle<bool>>,
) -> io::Result<()> {
    for number in 0..CLIENTS {
        let client = thread::spawn(
            handle,
            move || is_answered(&rt, port, number).unwrap_or(false),
        )?;
        clients.push(client)?;
    }
    Ok(())
}

/// Whether each of these clients is sent what its own job came to.
fn are_answered<H: Threads>(handle: &H, clients: Vec<JoinHandle<bool>>) -> bool {
    for client in clients {
        if !client.join(handle) {
            return false;
        }
    }
    true
}

/// Whether the client that reads nothing has asked.
fn has_asked<H: Threads>(handle: &H, silent: JoinHandle<io::Result<TcpStream>>) -> bool {
    let stream = silent.join(handle);
    let has_asked = stream.is_ok();
    drop(stream);
    has_asked
}

/// Whether all clients are served, with one among them that asks and reads nothing.
fn serves_all<H: Threads + Wait + Copy + Drop>(
    rt: HostRuntime,
    handle: H,
    port: u16,
    start: StartThread,
) -> bool
    requires { IsAlwaysCallable start }
{
    let Ok(silent) = thread::spawn(&handle, move || ask_alone(&rt, port)) else {
        return false;
    };
    let mut clients = Vec::new(rt.alloc());
    if start_clients(rt, &handle, port, &mut clients).is_err() {
        return false;
    }
    let are_served = are_served(rt, handle, port, start).unwrap_or(false);
    are_served && are_answered(&handle, clients) && has_asked(&handle, silent)
}

/// A port at which nobody listens.
fn free_port(rt: HostRuntime) -> Result<u16, Fail> {
    let mut net = MioNet::new(rt, rt.alloc())?;
    match net.listen(0) {
        Ok(port) => Ok(port),
        Err(_) => Err("it doesn't listen".into()),
    }
}

#[test]
fn each_of_64_clients_is_sent_what_its_own_job_came_to(rt: HostRuntime) -> Result<(), Fail> {
    let port = free_port(rt)?;
    let start = Box::new(
        rt.alloc(),
        move |task: WorkerTask<WakerBell, OpenGate>| spawn_worker(&rt, task),
    )?;
    assert!(rt; serves_all(rt, rt, port, start));
    Ok(())
}
