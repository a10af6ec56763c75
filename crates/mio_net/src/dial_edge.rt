//! The edge to the system's streams that are opened towards an address.
//!
//! Trusted: that a stream gives and is given the bytes that a read and a write of it answer, that it was opened towards
//! the address, and what the poll tells.
ghost use Rattle.std.specs.Prelude.{◌≡◌, ◌+◌, ◌<◌, ◌≤◌, ℕ, length};
ghost use Rattle.std.specs.Io.{ReadsAtMost, WritesAtMost};

use crate::sockets_edge::{TRIES, end_of_read, end_of_write};
use mio::net::{TcpStream, UnixStream};
use mio::{Events, Interest, Poll, Token};
use std::alloc::Global;
use std::io;
use std::io::{IoSlice, Read};
use std::net::{Ipv4Addr, SocketAddr};
use std::os::unix::net as unix;
use std::time::Duration;
use stream_net::{ReadEnd, WriteEnd};

/// Towards what streams are opened.
#[derive(Drop)]
pub enum Upstream {
    /// A port of 127.0.0.1.
    Port(u16),
    /// A Unix socket.
    Socket(unix::SocketAddr),
}

/// A stream of either kind.
#[derive(Drop)]
pub enum Stream {
    /// Over TCP.
    Tcp(TcpStream),
    /// Over a Unix socket.
    Unix(UnixStream),
}

/// Begins to connect.
fn connect<R: std::net::Net>(rt: &R, upstream: &Upstream) -> io::Result<Stream> {
    match upstream {
        Upstream::Port(port) => {
            let stream = TcpStream::connect(rt, SocketAddr::from((Ipv4Addr::LOCALHOST, *port)))?;
            // A stream that can't be set so is used all the same.
            let _set = stream.set_nodelay(true);
            Ok(Stream::Tcp(stream))
        }
        Upstream::Socket(address) => Ok(Stream::Unix(UnixStream::connect_addr(rt, address)?)),
    }
}

/// Has a stream polled under the token.
fn register(poll: &Poll, stream: &mut Stream, token: Token) -> io::Result<()> {
    let both = Interest::READABLE | Interest::WRITABLE;
    match stream {
        Stream::Tcp(stream) => poll.registry().register(stream, token, both),
        Stream::Unix(stream) => poll.registry().register(stream, token, both),
    }
}

/// A stream that begins to connect and is polled under the number of its slot. None where the system refused it at once
/// or there is no poll.
pub fn open_stream<R: std::net::Net>(
    rt: &R,
    poll: &Option<Poll>,
    upstream: &Upstream,
    slot: usize,
) -> Option<Stream> {
    let Some(poll) = poll else {
        return None;
    };
    let mut stream = connect(rt, upstream).ok()?;
    register(poll, &mut stream, Token(slot)).ok()?;
    Some(stream)
}

/// Reads once.
fn read_once(stream: &Stream, buf: &mut [u8]) -> io::Result<usize>
    ensures { ReadsAtMost result buf.new }
{
    match stream {
        Stream::Tcp(stream) => {
            let mut stream = stream;
            stream.read(buf)
        }
        Stream::Unix(stream) => {
            let mut stream = stream;
            stream.read(buf)
        }
    }
}

/// Writes two pieces in one call of the system.
fn write_once(stream: &Stream, first: &[u8], second: &[u8]) -> io::Result<usize>
    ensures { (n : ℕ) → result ≡ Ok n → n ≤ length first.now + length second.now }
{
    let pieces = [IoSlice::new(first), IoSlice::new(second)];
    match stream {
        Stream::Tcp(stream) => stream.write_vectored(&pieces),
        Stream::Unix(stream) => stream.write_vectored(&pieces),
    }
}

/// Reads what came.
pub fn read_stream(stream: &Stream, buf: &mut [u8]) -> ReadEnd
    requires { 0 < length buf.old }
    ensures some { (n : ℕ) → result ≡ ReadEnd.Got n → 0 < n }
    ensures fits { (n : ℕ) → result ≡ ReadEnd.Got n → n ≤ length buf.new }
{
    for _ in 0..TRIES {
        if let Some(end) = end_of_read(read_once(stream, buf)) {
            return end;
        }
    }
    ReadEnd::Failed
}

/// Writes what is taken of two pieces.
pub fn write_stream(stream: &Stream, first: &[u8], second: &[u8]) -> WriteEnd
    requires { 0 < length first.now + length second.now }
    ensures some { (n : ℕ) → result ≡ WriteEnd.Took n → 0 < n }
    ensures fits { (n : ℕ) → result ≡ WriteEnd.Took n → n ≤ length first.now + length second.now }
{
    for _ in 0..TRIES {
        if let Some(end) = end_of_write(write_once(stream, first, second)) {
            return end;
        }
    }
    WriteEnd::Failed
}

/// Puts the slots that the poll tells of into the queue, which is empty and has room for them, so that the first is
/// taken first. Nothing is waited for.
pub fn poll_slots(poll: &mut Option<Poll>, events: &mut Events<Global>, queue: &mut Vec<usize>) {
    let Some(poll) = poll else {
        return;
    };
    // A poll that fails tells of nothing; the next one may.
    if poll.poll(events, Some(Duration::ZERO)).is_err() {
        return;
    }
    for event in events.iter() {
        if queue.push(event.token().0).is_err() {
            return;
        }
    }
    queue.reverse();
}
