//! The server over the sockets of the system, with a client in a thread of its own.
ghost use Rattle.std.specs.Prelude.{◌≤◌, IsSome};
ghost use Rattle.gv_values.specs.declared.limits.TheConstants.{MOST_CONNECTIONS};
ghost use Rattle.stream_net.specs.Net.{IsFresh};

use mio_net::MioNet;
use std::alloc::Global;
use std::io::{Read, Write};
use std::net::{Ipv4Addr, SocketAddr, TcpStream};
use std::sync::Wait;
use std::test::Fail;
use std::thread::{JoinHandle, Threads};
use std::{io, thread};
use stream_net::Net;
use stream_server::{Limits, ServeEnd, serve};
use wsgi_core::ShippedApp;

/// Whether the server of so many connections, one at a time, finishes.
fn is_finished<N: Net, H: Wait>(rt: &H, alloc: Global, net: &mut N, port: u16, conns: u32) -> bool
    requires listens { IsSome (N.meaning net.old).listens }
    requires fresh { IsFresh (N.meaning net.old) }
    requires some { 1 ≤ conns }
    requires few { conns ≤ MOST_CONNECTIONS }
{
    let limits = Limits {
        pool: 1,
        conns,
        idle: 60000,
    };
    serve(rt, alloc, net, &ShippedApp, port, limits) == ServeEnd::Finished
}

const ANSWERS: &[u8] =
    b"HTTP/1.1 200 OK\r\nContent-Type: text/plain\r\nContent-Length: 6\r\n\r\nhello\nHTTP/1.1 200 OK\r\nContent-Type: text/plain\r\nContent-Length: 6\r\nConnection: close\r\n\r\nhello\n";

/// Whether a client that asks twice is sent both answers, and nothing else.
fn is_answered(rt: &HostRuntime, port: u16) -> io::Result<bool> {
    let mut stream = TcpStream::connect(rt, SocketAddr::from((Ipv4Addr::LOCALHOST, port)))?;
    stream.write_all(b"GET / HTTP/1.1\r\n\r\nGET / HTTP/1.1\r\nConnection: close\r\n\r\n")?;
    let mut bytes = Vec::new(rt.alloc());
    stream.read_to_end(&mut bytes)?;
    Ok(bytes.as_slice() == ANSWERS)
}

/// Whether the net listens, and the server over it finishes and answers a client.
fn answers_a_client<N: Net, H: Threads + Wait>(rt: HostRuntime, handle: &H, net: &mut N) -> bool
    requires { IsFresh (N.meaning net.old) }
{
    let Ok(port) = net.listen(0) else {
        return false;
    };
    let Ok(client) = thread::spawn(handle, move || is_answered(&rt, port).unwrap_or(false)) else {
        return false;
    };
    let is_finished = is_finished(handle, rt.alloc(), net, port, 1);
    is_finished && client.join(handle)
}

#[test]
fn serves_a_client_over_loopback(rt: HostRuntime) -> Result<(), Fail> {
    let mut net = MioNet::new(rt, rt.alloc())?;
    assert!(rt; answers_a_client(rt, &rt, &mut net));
    Ok(())
}

/// How many clients send more than they should.
const GREEDY: u32 = 100;

/// How many bytes each sends: a request line that is refused at byte 8192, and 200 KiB more.
const GREEDY_BYTES: usize = 8192 + 204800;

const TOO_LONG: &[u8] =
    b"HTTP/1.1 414 Request URI Too Long\r\nConnection: close\r\nContent-Length: 0\r\n\r\n";

/// Whether a client that sends this line gets the whole answer and the end.
fn is_refused(rt: &HostRuntime, port: u16, line: &[u8]) -> io::Result<bool> {
    let mut stream = TcpStream::connect(rt, SocketAddr::from((Ipv4Addr::LOCALHOST, port)))?;
    let mut bytes = Vec::new(rt.alloc());
    let is_sent = stream.write_all(line).is_ok();
    let is_read = stream.read_to_end(&mut bytes).is_ok();
    Ok(is_sent && is_read && bytes.as_slice() == TOO_LONG)
}

/// How many clients, one after the other, get the whole answer and the end, though they send more than is read.
fn count_refused(rt: &HostRuntime, port: u16, line: &[u8]) -> io::Result<u32> {
    let mut whole = 0_u32;
    for _ in 0..GREEDY {
        if is_refused(rt, port, line)? {
            whole = whole.saturating_add(1);
        }
    }
    Ok(whole)
}

/// How many of the clients get the whole answer and the end.
fn send_more(rt: &HostRuntime, port: u16) -> io::Result<u32> {
    let line = vec![in rt.alloc(); b'a'; GREEDY_BYTES]?;
    count_refused(rt, port, &line)
}

/// The clients that send more than they should, in a thread of their own, where the net listens and its server
/// finishes.
fn served_clients<N: Net, H: Threads + Wait>(
    rt: HostRuntime,
    handle: &H,
    net: &mut N,
) -> Option<JoinHandle<u32>>
    requires { IsFresh (N.meaning net.old) }
{
    let Ok(port) = net.listen(0) else {
        return None;
    };
    let Ok(clients) = thread::spawn(handle, move || send_more(&rt, port).unwrap_or(0)) else {
        return None;
    };
    if is_finished(handle, rt.alloc(), net, port, GREEDY) {
        Some(clients)
    } else {
        None
    }
}

#[test]
fn a_client_that_sends_too_much_gets_its_whole_answer(rt: HostRuntime) -> Result<(), Fail> {
    let mut net = MioNet::new(rt, rt.alloc())?;
    let clients = served_clients(rt, &rt, &mut net);
    net.let_go();
    let Some(clients) = clients else {
        return Err("the server didn't finish".into());
    };
    assert!(rt; clients.join(&rt) == GREEDY);
    Ok(())
}
