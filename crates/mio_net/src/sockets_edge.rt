//! The edge to the system's sockets: what is asked of them.
//!
//! Trusted: that a stream gives and is given the bytes that the two calls on it note, who is accepted, and what a poll
//! tells.
ghost use Rattle.std.specs.Prelude.{◌≡◌, ◌≢◌, ◌<◌, ◌≤◌, ℕ, [], length, Some, Ok};
ghost use Rattle.stream_net.specs.Accounts.{read_after};
ghost use Rattle.stream_net.specs.Taken.{written_after};

use crate::tape::{Piece, Tape};
use gv_io::Failed;
use mio::net::{TcpListener, TcpStream};
use mio::{Events, Interest, Poll, Token};
use std::alloc::Global;
use std::io::{Error, ErrorKind, Read, Write};
use std::time::Duration;
use stream_net::{ReadEnd, Ready, WriteEnd};

/// How often a call that a signal interrupted is made again.
pub(crate) const TRIES: usize = 16;

/// The token of the listener.
pub const LISTENER: Token = Token(usize::MAX);

/// The token of what else is watched.
pub const WATCHED: Token = Token(usize::MAX - 1);

/// What an event told.
#[derive(Clone, Copy)]
pub struct Told {
    /// What it is to those that wait.
    pub ready: Ready,
    /// Whether the input of the connection ends, or it failed.
    pub ends: bool,
}

/// What an acceptance gave.
#[derive(Drop)]
pub enum Taken {
    /// A stream that is polled.
    Stream(TcpStream),
    /// Nobody waits.
    WouldBlock,
    /// Somebody waits, and the system has no room for another stream.
    Full,
    /// It failed.
    Failed,
}

/// A stream, until it is given up, with the bytes that it gave and those that were given to it.
#[derive(Drop)]
pub struct Wire {
    stream: Option<TcpStream>,
    came: Tape,
    went: Tape,
}

impl Wire {
    /// Of a stream that was just accepted.
    pub fn new(stream: TcpStream) -> Wire
        ensures { (result.came.bytes ≡ []) × (result.went.bytes ≡ []) }
    {
        Wire {
            stream: Some(stream),
            came: Tape::none(),
            went: Tape::none(),
        }
    }

    /// Gives the stream up.
    pub fn take(&mut self) -> Option<TcpStream>
        ensures { (self.new.came ≡ self.old.came) × (self.new.went ≡ self.old.went) }
    {
        self.stream.take()
    }
}

/// Reads what came, and notes it.
#[tactic(auto, unfolding(gv_io::specs::Streams::appended))]
pub fn read_stream(wire: &mut Wire, buf: &mut [u8]) -> ReadEnd
    requires { 0 < length buf.old }
    ensures came { Some wire.new.came.bytes ≡ read_after result buf.new (Some wire.old.came.bytes) }
    ensures went { wire.new.went ≡ wire.old.went }
    ensures some { (n : ℕ) → result ≡ ReadEnd.Got n → 0 < n }
    ensures fits { (n : ℕ) → result ≡ ReadEnd.Got n → n ≤ length buf.new }
{
    let end = read_system(&wire.stream, buf);
    if let ReadEnd::Got(count) = end {
        let bytes = &buf[..count];
        wire.came = wire.came.and(&Piece { bytes });
    }
    end
}

/// Writes what is taken, and notes it.
#[tactic(auto, unfolding(gv_io::specs::Streams::appended))]
pub fn write_stream(wire: &mut Wire, bytes: &[u8]) -> WriteEnd
    requires { 0 < length bytes.now }
    ensures went { Some wire.new.went.bytes ≡ written_after result bytes.now (Some wire.old.went.bytes) }
    ensures came { wire.new.came ≡ wire.old.came }
    ensures some { (n : ℕ) → result ≡ WriteEnd.Took n → 0 < n }
    ensures fits { (n : ℕ) → result ≡ WriteEnd.Took n → n ≤ length bytes.now }
{
    let end = write_system(&wire.stream, bytes);
    if let WriteEnd::Took(count) = end {
        let bytes = &bytes[..count];
        wire.went = wire.went.and(&Piece { bytes });
    }
    end
}

/// What a read of the system led to; none where it is to be made again.
pub(crate) fn end_of_read(read: Result<usize, Error>) -> Option<ReadEnd>
    ensures { (n : ℕ) → result ≡ Some (ReadEnd.Got n) → (0 < n) × (read ≡ Ok n) }
{
    match read {
        Ok(0) => Some(ReadEnd::End),
        Ok(count) => Some(ReadEnd::Got(count)),
        Err(error) => match error.kind() {
            ErrorKind::WouldBlock => Some(ReadEnd::WouldBlock),
            ErrorKind::Interrupted => None,
            _ => Some(ReadEnd::Failed),
        },
    }
}

/// What a write to the system led to; none where it is to be made again.
pub(crate) fn end_of_write(written: Result<usize, Error>) -> Option<WriteEnd>
    ensures { (n : ℕ) → result ≡ Some (WriteEnd.Took n) → (0 < n) × (written ≡ Ok n) }
{
    match written {
        Ok(0) => Some(WriteEnd::Failed),
        Ok(count) => Some(WriteEnd::Took(count)),
        Err(error) => match error.kind() {
            ErrorKind::WouldBlock => Some(WriteEnd::WouldBlock),
            ErrorKind::Interrupted => None,
            _ => Some(WriteEnd::Failed),
        },
    }
}

/// Reads what came.
fn read_system(stream: &Option<TcpStream>, buf: &mut [u8]) -> ReadEnd
    requires { 0 < length buf.old }
    ensures some { (n : ℕ) → result ≡ ReadEnd.Got n → 0 < n }
    ensures fits { (n : ℕ) → result ≡ ReadEnd.Got n → n ≤ length buf.new }
{
    let Some(stream) = stream else {
        return ReadEnd::Failed;
    };
    let mut stream = stream;
    for _ in 0..TRIES {
        if let Some(end) = end_of_read(stream.read(buf)) {
            return end;
        }
    }
    ReadEnd::Failed
}

/// Writes what is taken.
fn write_system(stream: &Option<TcpStream>, bytes: &[u8]) -> WriteEnd
    requires { 0 < length bytes.now }
    ensures some { (n : ℕ) → result ≡ WriteEnd.Took n → 0 < n }
    ensures fits { (n : ℕ) → result ≡ WriteEnd.Took n → n ≤ length bytes.now }
{
    let Some(stream) = stream else {
        return WriteEnd::Failed;
    };
    let mut stream = stream;
    for _ in 0..TRIES {
        if let Some(end) = end_of_write(stream.write(bytes)) {
            return end;
        }
    }
    WriteEnd::Failed
}

/// What an acceptance that the system refused leads to; nothing where the next is to be tried (accept(2), "Error
/// handling in accept").
fn refused(error: &Error) -> Option<Taken> {
    if error.kind() == ErrorKind::WouldBlock {
        return Some(Taken::WouldBlock);
    }
    match error.raw_os_error() {
        // EINTR, ECONNABORTED, EPROTO, EPERM, and the faults of a network that the waiting connection has.
        Some(4 | 103 | 71 | 1 | 64 | 92 | 95 | 100 | 101 | 112 | 113) => None,
        // EMFILE, ENFILE, ENOBUFS, ENOMEM.
        Some(24 | 23 | 105 | 12) => Some(Taken::Full),
        _ => Some(Taken::Failed),
    }
}

/// Has the stream polled under the token, and its bytes sent at once (`TCP_NODELAY`).
fn polled(poll: &Poll, stream: TcpStream, token: usize) -> Taken {
    let mut stream = stream;
    // A stream that can't be set so is served all the same.
    let _set = stream.set_nodelay(true);
    match poll.registry().register(
        &mut stream,
        Token(token),
        Interest::READABLE | Interest::WRITABLE,
    ) {
        Ok(()) => Taken::Stream(stream),
        Err(_) => Taken::Full,
    }
}

/// Accepts a connection, and has it polled under the token.
fn take_stream(poll: &Poll, listener: &TcpListener, token: usize) -> Taken {
    for _ in 0..TRIES {
        match listener.accept() {
            Ok((stream, _)) => return polled(poll, stream, token),
            Err(error) => match refused(&error) {
                Some(taken) => return taken,
                None => {}
            },
        }
    }
    Taken::Full
}

/// Accepts a connection where there is a poll and a listener.
pub fn next_stream(poll: &Option<Poll>, listener: &Option<TcpListener>, token: usize) -> Taken {
    let Some(poll) = poll else {
        return Taken::Failed;
    };
    let Some(listener) = listener else {
        return Taken::Failed;
    };
    take_stream(poll, listener, token)
}

/// What an event tells that has this token. What else is watched ends a wait, and tells of no connection.
fn told_by(token: usize, is_readable: bool, ends: bool) -> Told {
    if token == usize::MAX - 1 {
        return Told {
            ready: Ready::Elapsed,
            ends: false,
        };
    }
    let ready = match u32::try_from(token) {
        Ok(conn) => {
            if is_readable || ends {
                Ready::Readable(conn)
            } else {
                Ready::Writable(conn)
            }
        }
        Err(_) => Ready::Incoming,
    };
    Told { ready, ends }
}

/// Polls, and puts what was told into the queue, which is empty and has room for it, so that the first is taken first.
pub fn poll_into(
    poll: &mut Poll,
    events: &mut Events<Global>,
    queue: &mut Vec<Told>,
    timeout: Option<Duration>,
) -> Result<(), Failed> {
    if let Err(error) = poll.poll(events, timeout) {
        return match error.kind() {
            ErrorKind::Interrupted => Ok(()),
            _ => Err(Failed),
        };
    }
    for event in events.iter() {
        let ends = event.is_read_closed() || event.is_error();
        let told = told_by(event.token().0, event.is_readable(), ends);
        if queue.push(told).is_err() {
            return Err(Failed);
        }
    }
    queue.reverse();
    Ok(())
}
