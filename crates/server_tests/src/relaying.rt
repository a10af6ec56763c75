//! The server whose requests an application server answers, over connections and streams that go by scripts.
ghost use Rattle.std.specs.Prelude.{◌≡◌, ◌≤◌};
ghost use Rattle.gv_values.specs.declared.limits.TheConstants.{MOST_CONNECTIONS};
ghost use Rattle.stream_dial.specs.Dials.{HasOpenedNone};
ghost use Rattle.stream_net.specs.Net.{IsFresh};
ghost use Rattle.stream_server.specs.Ranges.{IsInRange};

use crate::scripted::{Conn, are_left, scripts_of};
use http_messages::Sequence;
use std::alloc::{AllocError, Global};
use std::sync::Wait;
use stream_dial::{Dial, MemoryDial};
use stream_net::{Arrivals, ConnScript, MemoryNet, Net, Piece, Rooms};
use stream_server::{Limits, Terms};
use wsgi_relay::{AppServer, RelayEnd, serve_relay};

/// A stream of an application server, and what is left of it.
#[derive(Clone, Copy)]
struct Side<'a> {
    /// What it sends, each at its moment.
    sends: &'a [(u64, &'a [u8])],
    /// How many bytes it takes, write by write.
    room: &'a [u32],
    /// The moment at which it ends.
    ends: Option<u64>,
    /// The call at which it fails.
    fails: Option<u64>,
    /// What is written to it.
    written: &'a [u8],
}

/// How long a reply may take, in milliseconds.
const PATIENCE: u64 = 50;

/// The script of a stream.
fn script_of(alloc: Global, side: &Side) -> Result<ConnScript, AllocError> {
    let mut pieces = Vec::new(alloc);
    for (at, bytes) in side.sends {
        let bytes = Sequence::from_vec(Vec::from_slice(alloc, bytes)?);
        pieces.push(Piece { at: *at, bytes })?;
    }
    Ok(ConnScript {
        arrives: 0,
        pieces: Arrivals::new(pieces),
        ends: side.ends,
        room: Rooms::new(Vec::from_slice(alloc, side.room)?),
        fails: side.fails,
    })
}

/// Appends the scripts of these streams.
fn push_scripts(
    scripts: &mut Vec<ConnScript>,
    alloc: Global,
    sides: &[Side],
) -> Result<(), AllocError> {
    for side in sides {
        scripts.push(script_of(alloc, side)?)?;
    }
    Ok(())
}

/// Whether just these streams were opened, each was sent that, and all are closed.
fn are_spoken(dial: &MemoryDial, sides: &[Side]) -> bool {
    let mut number = 0;
    for side in sides {
        if dial.written(number) != Some(side.written) || !dial.is_closed(number) {
            return false;
        }
        number += 1;
    }
    dial.count() == number
}

/// So many connections in all, a second each.
fn terms(port: u16, conns: u32) -> Terms
    requires some { 1 ≤ conns }
    requires few { conns ≤ MOST_CONNECTIONS }
    ensures { IsInRange result.limits }
{
    Terms {
        port,
        limits: Limits {
            pool: 100,
            conns,
            idle: 1000,
        },
    }
}

/// Whether the server over this net and this dial finishes.
fn is_finished<N: Net, D: Dial, H: Wait>(
    rt: &H,
    alloc: Global,
    net: &mut N,
    upstream: &mut AppServer<D>,
    conns: u32,
) -> bool
    requires fresh { IsFresh (N.meaning net.old) }
    requires opened_none { HasOpenedNone (D.meaning upstream.old.dial) }
    requires some { 1 ≤ conns }
    requires few { conns ≤ MOST_CONNECTIONS }
{
    let Ok(port) = net.listen(8080) else {
        return false;
    };
    serve_relay(rt, alloc, net, upstream, terms(port, conns)) == RelayEnd::Finished
}

/// Whether these connections are each sent what is its own, and these streams are all that were opened.
fn are_relayed<H: Wait>(rt: &H, alloc: Global, conns: &[Conn], sides: &[Side], count: u32) -> bool
    requires some { 1 ≤ count }
    requires few { count ≤ MOST_CONNECTIONS }
{
    let mut streams = Vec::new(alloc);
    if push_scripts(&mut streams, alloc, sides).is_err() {
        return false;
    }
    let Some(scripts) = scripts_of(alloc, conns) else {
        return false;
    };
    let mut net = MemoryNet::new(alloc, 8080, scripts);
    let mut upstream = AppServer {
        dial: MemoryDial::new(alloc, streams),
        patience: PATIENCE,
    };
    let is_finished = is_finished(rt, alloc, &mut net, &mut upstream, count);
    is_finished && are_left(&net, conns) && are_spoken(&upstream.dial, sides)
}

/// What hands `/a` on.
const ASKS_A: &[u8] =
    b"169:CONTENT_LENGTH\x000\x00SCGI\x001\x00REQUEST_METHOD\x00GET\x00SCRIPT_NAME\x00\x00PATH_INFO\x00/a\x00QUERY_STRING\x00\x00SERVER_NAME\x00localhost\x00SERVER_PORT\x008080\x00SERVER_PROTOCOL\x00HTTP/1.1\x00HTTP_CONNECTION\x00close\x00,";

/// What hands `/b` on.
const ASKS_B: &[u8] =
    b"169:CONTENT_LENGTH\x000\x00SCGI\x001\x00REQUEST_METHOD\x00GET\x00SCRIPT_NAME\x00\x00PATH_INFO\x00/b\x00QUERY_STRING\x00\x00SERVER_NAME\x00localhost\x00SERVER_PORT\x008080\x00SERVER_PROTOCOL\x00HTTP/1.1\x00HTTP_CONNECTION\x00close\x00,";

/// What hands `/a` with a body on.
const POSTS_A: &[u8] =
    b"170:CONTENT_LENGTH\x006\x00SCGI\x001\x00REQUEST_METHOD\x00POST\x00SCRIPT_NAME\x00\x00PATH_INFO\x00/a\x00QUERY_STRING\x00\x00SERVER_NAME\x00localhost\x00SERVER_PORT\x008080\x00SERVER_PROTOCOL\x00HTTP/1.1\x00HTTP_CONNECTION\x00close\x00,abcdef";

/// It asks for `/a`, and is answered.
const ONE: Conn = Conn {
    sends: b"GET /a HTTP/1.1\r\nConnection: close\r\n\r\n",
    room: &[],
    ends: None,
    fails: None,
    written: b"HTTP/1.1 200 OK\r\nContent-Type: text/plain\r\nContent-Length: 3\r\nConnection: close\r\n\r\none",
    closed_at: None,
};

/// It asks for `/b`, and is answered.
const TWO: Conn = Conn {
    sends: b"GET /b HTTP/1.1\r\nConnection: close\r\n\r\n",
    room: &[],
    ends: None,
    fails: None,
    written: b"HTTP/1.1 200 OK\r\nContent-Type: text/plain\r\nContent-Length: 3\r\nConnection: close\r\n\r\ntwo",
    closed_at: None,
};

/// What it asks for breaks off.
const BAD: Conn = Conn {
    sends: b"GET /a HTTP/1.1\r\nConnection: close\r\n\r\n",
    room: &[],
    ends: None,
    fails: None,
    written: b"HTTP/1.1 502 Bad Gateway\r\nContent-Type: text/plain\r\nContent-Length: 12\r\nConnection: close\r\n\r\nbad gateway\n",
    closed_at: None,
};

/// What it asks for doesn't come.
const LATE: Conn = Conn {
    sends: b"GET /a HTTP/1.1\r\nConnection: close\r\n\r\n",
    room: &[],
    ends: None,
    fails: None,
    written: b"HTTP/1.1 504 Gateway Timeout\r\nContent-Type: text/plain\r\nContent-Length: 16\r\nConnection: close\r\n\r\ngateway timeout\n",
    closed_at: None,
};

/// Its path has a NUL.
const NUL: Conn = Conn {
    sends: b"GET /a%00REMOTE_USER%00root HTTP/1.1\r\nConnection: close\r\n\r\n",
    room: &[],
    ends: None,
    fails: None,
    written: b"HTTP/1.1 400 Bad Request\r\nContent-Type: text/plain\r\nContent-Length: 12\r\nConnection: close\r\n\r\nbad request\n",
    closed_at: None,
};

/// It sends a body, and is answered.
const POST: Conn = Conn {
    sends: b"POST /a HTTP/1.1\r\nConnection: close\r\nContent-Length: 6\r\n\r\nabcdef",
    room: &[],
    ends: None,
    fails: None,
    written: b"HTTP/1.1 200 OK\r\nContent-Type: text/plain\r\nContent-Length: 3\r\nConnection: close\r\n\r\none",
    closed_at: None,
};

/// It answers `/a` at once.
const SAYS_ONE: Side = Side {
    sends: &[(
        0,
        b"Status: 200 OK\r\nContent-Type: text/plain\r\nContent-Length: 3\r\n\r\none",
    )],
    room: &[],
    ends: Some(0),
    fails: None,
    written: ASKS_A,
};

/// It answers `/b` at once.
const SAYS_TWO: Side = Side {
    sends: &[(
        0,
        b"Status: 200 OK\r\nContent-Type: text/plain\r\nContent-Length: 3\r\n\r\ntwo",
    )],
    room: &[],
    ends: Some(0),
    fails: None,
    written: ASKS_B,
};

/// It answers `/a` byte by byte, and takes few bytes at a time.
const SLOW: Side = Side {
    sends: &[
        (1, b"S"),
        (3, b"tatus: 200 OK\r\nContent-Type: "),
        (9, b"text/plain\r\nContent-Length: 3\r\n\r\none"),
    ],
    room: &[1, 0, 20, 0, 0, 7],
    ends: None,
    fails: None,
    written: ASKS_A,
};

#[test]
fn each_reply_finds_its_own_connection_in_either_order(rt: HostRuntime) {
    let both = &[ONE, TWO];
    assert!(rt; are_relayed(&rt, rt.alloc(), both, &[SAYS_ONE, SAYS_TWO], 2));
    assert!(rt; are_relayed(&rt, rt.alloc(), both, &[SLOW, SAYS_TWO], 2));
}

/// It ends within the head.
const IN_HEAD: Side = Side {
    sends: &[(0, b"Status: 200 OK\r\nContent-")],
    room: &[],
    ends: Some(1),
    fails: None,
    written: ASKS_A,
};

/// It ends short of the length that it states.
const IN_BODY: Side = Side {
    sends: &[(
        0,
        b"Status: 200 OK\r\nContent-Type: text/plain\r\nContent-Length: 10\r\n\r\none",
    )],
    room: &[],
    ends: Some(1),
    fails: None,
    written: ASKS_A,
};

/// It breaks off where no length is stated.
const BROKEN: Side = Side {
    sends: &[(0, b"Status: 200 OK\r\n\r\none")],
    room: &[],
    ends: None,
    fails: Some(2),
    written: ASKS_A,
};

/// It ends at once.
const NOTHING: Side = Side {
    sends: &[],
    room: &[],
    ends: Some(0),
    fails: None,
    written: ASKS_A,
};

/// It sends a line that is no field.
const NONSENSE: Side = Side {
    sends: &[(0, b"hello\r\n\r\n")],
    room: &[],
    ends: None,
    fails: None,
    written: ASKS_A,
};

/// It can't be reached.
const REFUSES: Side = Side {
    sends: &[],
    room: &[],
    ends: None,
    fails: Some(0),
    written: b"",
};

#[test]
fn what_is_no_whole_reply_is_a_bad_gateway(rt: HostRuntime) {
    for side in &[IN_HEAD, IN_BODY, NOTHING, NONSENSE] {
        assert!(rt; are_relayed(&rt, rt.alloc(), &[BAD], &[*side], 1));
    }
    // One that breaks off behind a part is no end.
    assert!(rt; are_relayed(&rt, rt.alloc(), &[BAD], &[BROKEN], 1));
}

/// It never answers.
const SILENT: Side = Side {
    sends: &[],
    room: &[],
    ends: None,
    fails: None,
    written: ASKS_A,
};

#[test]
fn a_reply_that_takes_too_long_is_a_gateway_timeout_and_holds_nobody_else(rt: HostRuntime) {
    assert!(rt; are_relayed(&rt, rt.alloc(), &[LATE, TWO], &[SILENT, SAYS_TWO], 2));
    // Nothing was sent to one that fails at the first write, and a reply may still come.
    assert!(rt; are_relayed(&rt, rt.alloc(), &[LATE], &[REFUSES], 1));
}

/// It sends more than it states.
const TOO_MUCH: Side = Side {
    sends: &[(
        0,
        b"Status: 200 OK\r\nContent-Type: text/plain\r\nContent-Length: 3\r\n\r\noneandmore",
    )],
    room: &[],
    ends: None,
    fails: None,
    written: ASKS_A,
};

/// It answers before it takes more than 100 bytes.
const EARLY: Side = Side {
    sends: &[(
        0,
        b"Status: 200 OK\r\nContent-Type: text/plain\r\nContent-Length: 3\r\n\r\none",
    )],
    room: &[100, 0, 0, 0],
    ends: None,
    fails: None,
    written: BEGINS_POST,
};

/// It answers behind the body.
const TAKES_ALL: Side = Side {
    sends: &[(
        2,
        b"Status: 200 OK\r\nContent-Type: text/plain\r\nContent-Length: 3\r\n\r\none",
    )],
    room: &[],
    ends: None,
    fails: None,
    written: POSTS_A,
};

/// The first 100 bytes of what hands `/a` with a body on.
const BEGINS_POST: &[u8] =
    b"170:CONTENT_LENGTH\x006\x00SCGI\x001\x00REQUEST_METHOD\x00POST\x00SCRIPT_NAME\x00\x00PATH_INFO\x00/a\x00QUERY_STRING\x00\x00SERVER_NAME\x00";

#[test]
fn what_comes_behind_the_stated_length_is_left_out(rt: HostRuntime) {
    assert!(rt; are_relayed(&rt, rt.alloc(), &[ONE], &[TOO_MUCH], 1));
}

#[test]
fn a_reply_counts_that_comes_before_the_body_was_taken(rt: HostRuntime) {
    assert!(rt; are_relayed(&rt, rt.alloc(), &[POST], &[EARLY], 1));
    assert!(rt; are_relayed(&rt, rt.alloc(), &[POST], &[TAKES_ALL], 1));
}

#[test]
fn a_path_with_a_nul_is_refused_and_nothing_is_opened(rt: HostRuntime) {
    assert!(rt; are_relayed(&rt, rt.alloc(), &[NUL], &[], 1));
}
