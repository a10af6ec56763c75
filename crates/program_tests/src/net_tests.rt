//! `serve` through the call, over a net of the tests' own.
ghost use Rattle.stream_net.specs.Net.{IsFresh};

use crate::nets::{Notes, Watched};
use crate::served::{Served, is_served, sending, three, two};
use std::alloc::{AllocError, Global};
use std::sync::Wait;
use stream_net::{MemoryNet, Net};

const HELLO: &[u8] =
    b"HTTP/1.1 200 OK\r\nContent-Type: text/plain\r\nContent-Length: 6\r\n\r\nhello\n";

const CHUNKS: &[u8] =
    b"HTTP/1.1 200 OK\r\nContent-Type: text/plain\r\nTransfer-Encoding: chunked\r\n\r\n3\r\none\r\n3\r\ntwo\r\n0\r\n\r\n";

const NOT_FOUND_AND_CLOSE: &[u8] =
    b"HTTP/1.1 404 Not Found\r\nContent-Type: text/plain\r\nContent-Length: 10\r\nConnection: close\r\n\r\nnot found\n";

/// One request, one more with the half of a third, and the rest of that.
const PIECES: [&[u8]; 3] = [
    b"GET / HTTP/1.1\r\n\r\n",
    b"GET /chunks HTTP/1.1\r\n\r\nGET /nowhere",
    b" HTTP/1.1\r\nConnection: close\r\n\r\n",
];

const TWO_SERVED: Served<'static> = Served {
    words: "serve --port 8080 --conns 2 --pool 2",
    room: 100,
    status: 0,
    out: b"listening 8080\nserved 2\n",
    err: b"",
};

/// The notes of this connection before it is served.
fn notes_of(conn: u32) -> Notes {
    let first = PIECES[0].len();
    let due = [
        (0, 0),
        (first, HELLO.len()),
        (first + PIECES[1].len(), HELLO.len() + CHUNKS.len()),
    ];
    Notes {
        conn,
        due,
        read: 0,
        written: 0,
        timely: 0,
        early: 0,
    }
}

/// Whether each read of a connection came when all was written that was due, and all was read and written.
fn is_timely(notes: &Notes) -> bool {
    notes.early == 0
        && notes.timely >= 3
        && notes.read == PIECES[0].len() + PIECES[1].len() + PIECES[2].len()
        && notes.written == HELLO.len() + CHUNKS.len() + NOT_FOUND_AND_CLOSE.len()
}

/// Serves two connections of the net. Whether the call leaves what it is to, and that holds of this connection.
fn is_timely_over<N: Net + Drop, H: Wait>(rt: &H, alloc: Global, net: N, conn: u32) -> bool
    requires { IsFresh (N.meaning net) }
{
    let mut net = Watched {
        net,
        notes: notes_of(conn),
        left: u32::MAX,
        fails: false,
        refused: false,
        faults: 0,
    };
    is_served(rt, alloc, &TWO_SERVED, &mut net) == Ok(true) && is_timely(&net.notes)
}

/// Whether that holds of this one of two connections.
fn is_read_in_time<H: Wait>(rt: &H, alloc: Global, conn: u32) -> Result<bool, AllocError> {
    let one = sending(alloc, &PIECES, &[3, 0, 40, 0, 0, 1]);
    let other = sending(alloc, &PIECES, &[0, 200, 5, 0]);
    let net = MemoryNet::new(alloc, 8080, two(alloc, one, other)?);
    Ok(is_timely_over(rt, alloc, net, conn))
}

#[test]
fn a_connection_is_read_only_when_all_that_is_due_was_written(rt: HostRuntime) {
    for conn in 0..2 {
        assert!(rt;
            is_read_in_time(&rt, rt.alloc(), conn) == Ok(true),
            "connection {conn}"
        );
    }
}

/// Serves connections of a net that accepts two and then breaks off. Whether the call leaves what it is to, and that
/// net.
fn broken_off<N: Net + Drop, H: Wait>(
    rt: &H,
    alloc: Global,
    net: N,
    fails: bool,
    served: &Served,
) -> (bool, N)
    requires { IsFresh (N.meaning net) }
{
    let mut net = Watched {
        net,
        notes: notes_of(0),
        left: 2,
        fails,
        refused: false,
        faults: 0,
    };
    let holds = is_served(rt, alloc, served, &mut net) == Ok(true);
    (holds, net.net)
}

/// Whether two connections are accepted, of which one was answered, and both are open.
fn are_open(net: &MemoryNet) -> bool {
    net.written(0) == Some(&b""[..])
        && net.written(1) == Some(HELLO)
        && net.written(2).is_none()
        && net.closed_at(0).is_none()
        && net.closed_at(1).is_none()
}

const HALF: &[u8] = b"GET / HT";

const WHOLE: &[u8] = b"GET / HTTP/1.1\r\n\r\n";

/// Whether what is open stays open where the server breaks off like that, with this status and line.
fn stays_open<H: Wait>(
    rt: &H,
    alloc: Global,
    fails: bool,
    status: u8,
    err: &[u8],
) -> Result<bool, AllocError> {
    let served = Served {
        words: "serve --port 8080 --conns 3",
        room: 100,
        status,
        out: b"listening 8080\n",
        err,
    };
    let net = MemoryNet::new(alloc, 8080, three(alloc, HALF, WHOLE, WHOLE)?);
    let (holds, net) = broken_off(rt, alloc, net, fails, &served);
    Ok(holds && are_open(&net))
}

#[test]
fn what_is_open_when_the_server_breaks_off_stays_open(rt: HostRuntime) {
    let alloc = rt.alloc();
    // The listener fails.
    assert!(rt; stays_open(&rt, alloc, true, 10, b"gvr: network fault\n") == Ok(true));
    // Memory is wanting.
    assert!(rt; stays_open(&rt, alloc, false, 7, b"gvr: out of memory\n") == Ok(true));
}
