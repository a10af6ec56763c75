//! Streams that are dialled: in memory, and over the sockets of the system with a server in a thread of its own.
ghost use Rattle.std.specs.Prelude.{◌≡◌, ◌+◌, ◌<◌, ◌≤◌, length, IfSome};
ghost use Rattle.stream_dial.specs.Dials.{IsOpen};

use http_messages::Sequence;
use mio_net::{MioDial, Upstream};
use std::alloc::{AllocError, Global};
use std::io::{Read, Write};
use std::net::{Ipv4Addr, SocketAddr, TcpListener};
use std::os::unix::net as unix;
use std::rt::Clock;
use std::test::Fail;
use std::thread::Threads;
use std::time::Duration;
use std::{fs, io, thread};
use stream_dial::{Dial, MemoryDial};
use stream_net::{Arrivals, ConnScript, Piece, ReadEnd, Rooms, WriteEnd};

/// How often a stream is waited for, a millisecond each time.
const WAITS: usize = 5000;

/// How many reads and writes are made in a row at most: more than there are bytes.
const CALLS: usize = 10000000;

/// What a stream came to.
#[derive(Clone, Copy, PartialEq, Eq)]
enum Gone {
    /// It takes or gives nothing more at present.
    Rests,
    /// All was written to it, or its input has ended.
    Ended,
    /// It failed.
    Failed,
}

/// Writes what the stream takes of what is left of two pieces.
fn send<D: Dial>(dial: &mut D, slot: usize, first: &[u8], second: &[u8], sent: &mut usize) -> Gone
    requires opened { IsOpen (D.meaning dial.old) slot }
    ensures { IsOpen (D.meaning dial.new) slot }
{
    for _ in 0..CALLS {
        let at = (*sent).min(first.len());
        let rest = &first[at..];
        let at = sent.saturating_sub(first.len()).min(second.len());
        let behind = &second[at..];
        if rest.is_empty() && behind.is_empty() {
            return Gone::Ended;
        }
        match dial.write(slot, rest, behind) {
            WriteEnd::Took(count) => *sent = sent.saturating_add(count),
            WriteEnd::WouldBlock => return Gone::Rests,
            WriteEnd::Failed | WriteEnd::Memory => return Gone::Failed,
        }
    }
    Gone::Rests
}

/// Appends what came.
fn receive<D: Dial>(dial: &mut D, slot: usize, got: &mut Vec<u8>) -> Result<Gone, AllocError>
    requires opened { IsOpen (D.meaning dial.old) slot }
    ensures { IsOpen (D.meaning dial.new) slot }
{
    let mut buffer = [0_u8; 4096];
    for _ in 0..CALLS {
        match dial.read(slot, &mut buffer) {
            ReadEnd::Got(count) => got.extend_from_slice(&buffer[..count])?,
            ReadEnd::End => return Ok(Gone::Ended),
            ReadEnd::WouldBlock => return Ok(Gone::Rests),
            ReadEnd::Failed => return Ok(Gone::Failed),
        }
    }
    Ok(Gone::Rests)
}

/// Writes both pieces to the stream and reads it until it ends, whenever it is told of. Whether it did and nothing failed.
#[tactic(auto, using(stream_dial::proofs::Dialling::open_kept))]
fn converse<D: Dial, C: Clock>(
    clock: &C,
    dial: &mut D,
    slot: usize,
    first: &[u8],
    second: &[u8],
    got: &mut Vec<u8>,
) -> Result<bool, AllocError>
    requires opened { IsOpen (D.meaning dial.old) slot }
    ensures { IsOpen (D.meaning dial.new) slot }
{
    let mut sent = 0;
    for _ in 0..WAITS {
        if dial.next() != Some(slot) {
            thread::sleep(clock, Duration::from_millis(1));
            continue;
        }
        if send(dial, slot, first, second, &mut sent) == Gone::Failed {
            return Ok(false);
        }
        match receive(dial, slot, got)? {
            Gone::Rests => {}
            Gone::Ended => return Ok(true),
            Gone::Failed => return Ok(false),
        }
    }
    Ok(false)
}

/// The slot of a stream that was opened, spoken on and closed, and what was read of it, if it ended and nothing failed.
#[tactic(auto, using(stream_dial::proofs::Dialling::open_new))]
fn ask<D: Dial, C: Clock>(
    clock: &C,
    alloc: Global,
    dial: &mut D,
    first: &[u8],
    second: &[u8],
) -> Result<(usize, Option<Vec<u8>>), AllocError> {
    let mut got = Vec::new(alloc);
    let slot = dial.dial()?;
    let is_whole = converse(clock, dial, slot, first, second, &mut got)?;
    dial.close(slot);
    Ok((slot, if is_whole { Some(got) } else { None }))
}

/// A script that takes so many bytes, write by write, and sends this at two moments, and then ends.
fn script(
    alloc: Global,
    room: &[u32],
    sends: &[u8],
    later: &[u8],
) -> Result<ConnScript, AllocError> {
    let now = Piece {
        at: 0,
        bytes: Sequence::from_vec(Vec::from_slice(alloc, sends)?),
    };
    let later = Piece {
        at: 2,
        bytes: Sequence::from_vec(Vec::from_slice(alloc, later)?),
    };
    let mut pieces = Vec::new(alloc);
    pieces.push(now)?;
    pieces.push(later)?;
    Ok(ConnScript {
        arrives: 0,
        pieces: Arrivals::new(pieces),
        ends: Some(3),
        room: Rooms::new(Vec::from_slice(alloc, room)?),
        fails: None,
    })
}

#[test]
fn streams_in_memory_go_by_their_scripts(rt: HostRuntime) -> Result<(), Fail> {
    let alloc = rt.alloc();
    let mut scripts = Vec::new(alloc);
    scripts.push(script(alloc, &[2, 0, 3], b"Status", b": 200")?)?;
    scripts.push(script(alloc, &[], b"", b"no")?)?;
    let mut dial = MemoryDial::new(alloc, scripts);
    let (slot, got) = ask(&rt, alloc, &mut dial, b"head", b"body")?;
    assert!(rt; got.as_deref() == Some(b"Status: 200".as_slice()));
    assert!(rt; dial.written(0) == Some(b"headbody".as_slice()) && dial.is_closed(0));
    // The slot is free again, and the next script is that of another stream.
    let (again, got) = ask(&rt, alloc, &mut dial, b"", b"x")?;
    assert!(rt; got.as_deref() == Some(b"no".as_slice()) && again == slot);
    assert!(rt; dial.written(1) == Some(b"x".as_slice()) && dial.count() == 2);
    // There is no further script: nobody is reached.
    let (_, got) = ask(&rt, alloc, &mut dial, b"head", b"")?;
    assert!(rt; got.is_none() && dial.count() == 3 && dial.is_closed(2));
    Ok(())
}

/// Reads so many bytes of a caller and answers them twice.
fn answer_twice<S: Read + Write>(alloc: Global, stream: &mut S, count: usize) -> io::Result<bool> {
    let mut bytes = vec![in alloc; 0_u8; count]?;
    stream.read_exact(&mut bytes)?;
    stream.write_all(&bytes)?;
    stream.write_all(&bytes)?;
    Ok(true)
}

/// Whether both pieces came back twice.
fn is_answered_twice<D: Dial, C: Clock>(
    clock: &C,
    alloc: Global,
    dial: &mut D,
    first: &[u8],
    second: &[u8],
) -> Result<bool, AllocError> {
    let mut whole = Vec::from_slice(alloc, first)?;
    whole.extend_from_slice(second)?;
    whole.extend_from_slice(first)?;
    whole.extend_from_slice(second)?;
    let (_, got) = ask(clock, alloc, dial, first, second)?;
    Ok(got.as_deref() == Some(whole.as_slice()))
}

/// How many bytes the large piece has: more than a socket takes at once.
const LARGE: usize = 4000000;

#[test]
fn a_stream_over_loopback_carries_both_pieces(rt: HostRuntime) -> Result<(), Fail> {
    let alloc = rt.alloc();
    let listener = TcpListener::bind(&rt, SocketAddr::from((Ipv4Addr::LOCALHOST, 0)))?;
    let port = listener.local_addr()?.port();
    let server = thread::spawn(&rt, move || {
        let Ok((mut stream, _)) = listener.accept() else {
            return false;
        };
        answer_twice(alloc, &mut stream, 4 + LARGE).unwrap_or(false)
    })?;
    let body = vec![in alloc; 7_u8; LARGE]?;
    let mut dial = MioDial::new(rt, alloc, Upstream::Port(port))?;
    assert!(rt; is_answered_twice(&rt, alloc, &mut dial, b"head", &body)?);
    assert!(rt; server.join(&rt));
    // The listener is gone by now: nobody is reached.
    let (_, got) = ask(&rt, alloc, &mut dial, b"head", b"")?;
    assert!(rt; got.is_none());
    Ok(())
}

/// The path of a socket that no other test has, which stands in the name of a port that is ours.
fn socket_path(rt: &HostRuntime) -> io::Result<String> {
    let listener = TcpListener::bind(rt, SocketAddr::from((Ipv4Addr::LOCALHOST, 0)))?;
    let port = listener.local_addr()?.port();
    Ok(format!(in rt.alloc(); "/tmp/gvr_dialling_{port}.sock")?)
}

#[test]
fn a_stream_to_a_unix_socket_carries_both_pieces(rt: HostRuntime) -> Result<(), Fail> {
    let alloc = rt.alloc();
    let path = socket_path(&rt)?;
    let listener = unix::UnixListener::bind(&rt, &path)?;
    let server = thread::spawn(&rt, move || {
        let Ok((mut stream, _)) = listener.accept() else {
            return false;
        };
        answer_twice(alloc, &mut stream, 8).unwrap_or(false)
    })?;
    let address = unix::SocketAddr::from_pathname(&path)?;
    let mut dial = MioDial::new(rt, alloc, Upstream::Socket(address))?;
    assert!(rt; is_answered_twice(&rt, alloc, &mut dial, b"head", b"body")?);
    assert!(rt; server.join(&rt));
    fs::remove_file(&rt, &path)?;
    // The path is gone: the system refuses the stream at once.
    let (_, got) = ask(&rt, alloc, &mut dial, b"head", b"")?;
    assert!(rt; got.is_none());
    Ok(())
}
