//! The server over connections that go by a script.
ghost use Rattle.std.specs.Prelude.{◌<◌, ◌^◌, length, IfSome};
ghost use Rattle.stream_net.specs.Net.{IsFresh};
ghost use Rattle.stream_server.specs.Ranges.{IsInRange};

use http_messages::Sequence;
use std::alloc::{AllocError, Global};
use std::sync::Wait;
use stream_net::{Arrivals, ConnScript, MemoryNet, Net, Piece, Rooms};
use stream_server::{Limits, ServeEnd, serve};
use wsgi_core::ShippedApp;

/// A connection that arrives at 0, and what a server leaves of it.
#[derive(Clone, Copy)]
pub(crate) struct Conn<'a> {
    /// What it sends at once.
    pub(crate) sends: &'a [u8],
    /// How many bytes it takes, write by write.
    pub(crate) room: &'a [u32],
    /// The moment at which it ends.
    pub(crate) ends: Option<u64>,
    /// The call at which it fails.
    pub(crate) fails: Option<u64>,
    /// What is written to it.
    pub(crate) written: &'a [u8],
    /// The moment at which it is closed, where that is compared.
    pub(crate) closed_at: Option<u64>,
}

/// The most connections of a test.
const MOST: usize = 100;

/// The script of a connection.
fn script_of(alloc: Global, conn: &Conn) -> Result<ConnScript, AllocError> {
    let bytes = Vec::from_slice(alloc, conn.sends)?;
    let room = Vec::from_slice(alloc, conn.room)?;
    let piece = Piece {
        at: 0,
        bytes: Sequence::from_vec(bytes),
    };
    Ok(ConnScript {
        arrives: 0,
        pieces: Arrivals::new(vec![in alloc; piece]?),
        ends: conn.ends,
        room: Rooms::new(room),
        fails: conn.fails,
    })
}

/// Appends the scripts of these connections.
fn push_scripts(
    scripts: &mut Vec<ConnScript>,
    alloc: Global,
    conns: &[Conn],
) -> Result<(), AllocError> {
    for conn in conns {
        scripts.push(script_of(alloc, conn)?)?;
    }
    Ok(())
}

/// The scripts of these connections, where they are no more than a test has.
pub(crate) fn scripts_of(alloc: Global, conns: &[Conn]) -> Option<Vec<ConnScript>>
    ensures { IfSome result (λ scripts. length scripts.items < 2 ^ 32) }
{
    let mut scripts = Vec::new(alloc);
    if push_scripts(&mut scripts, alloc, conns).is_err() || scripts.len() > MOST {
        return None;
    }
    Some(scripts)
}

/// Whether that is left of the connection of this number.
fn is_left(net: &MemoryNet, number: u32, conn: &Conn) -> bool {
    let is_closed_then = conn.closed_at.is_none() || net.closed_at(number) == conn.closed_at;
    is_closed_then && net.written(number) == Some(conn.written)
}

/// Whether that is left of each of these connections.
pub(crate) fn are_left(net: &MemoryNet, conns: &[Conn]) -> bool {
    let mut number = 0u32;
    for conn in conns {
        if !is_left(net, number, conn) {
            return false;
        }
        number = number.saturating_add(1);
    }
    true
}

/// Whether the net listens at the port that it is asked for, and the server over it ends so.
fn is_ended<N: Net, H: Wait>(
    rt: &H,
    alloc: Global,
    net: &mut N,
    port: u16,
    limits: Limits,
    end: ServeEnd,
) -> bool
    requires fresh { IsFresh (N.meaning net.old) }
    requires in_range { IsInRange limits }
{
    let Ok(taken) = net.listen(port) else {
        return false;
    };
    taken == port && serve(rt, alloc, net, &ShippedApp, taken, limits) == end
}

/// Whether a server of these connections ends so, and leaves of each what it is to leave.
fn are_served<H: Wait>(
    rt: &H,
    alloc: Global,
    conns: &[Conn],
    port: u16,
    limits: Limits,
    end: ServeEnd,
) -> bool
    requires { IsInRange limits }
{
    let Some(scripts) = scripts_of(alloc, conns) else {
        return false;
    };
    let mut net = MemoryNet::new(alloc, port, scripts);
    is_ended(rt, alloc, &mut net, port, limits, end) && are_left(&net, conns)
}

const HELLO_AND_CLOSE: &[u8] =
    b"HTTP/1.1 200 OK\r\nContent-Type: text/plain\r\nContent-Length: 6\r\nConnection: close\r\n\r\nhello\n";

const ASKS_AND_CLOSES: &[u8] = b"GET / HTTP/1.1\r\nConnection: close\r\n\r\n";

/// One that sends half a request and never ends.
const HALF: Conn = Conn {
    sends: b"GET / HT",
    room: &[],
    ends: None,
    fails: None,
    written: b"",
    closed_at: Some(1000),
};

/// One that sends a whole request. Whatever was read while something was pending would have been closed only at its
/// idle time.
const WHOLE: Conn = Conn {
    sends: ASKS_AND_CLOSES,
    room: &[],
    ends: None,
    fails: None,
    written: HELLO_AND_CLOSE,
    closed_at: Some(0),
};

const HALF_AND_WHOLE: &[Conn] = &[HALF, WHOLE];

#[test]
fn an_idle_connection_is_closed_at_its_time_and_keeps_no_other_waiting(rt: HostRuntime) {
    let limits = Limits {
        pool: 2,
        conns: 2,
        idle: 1000,
    };
    assert!(rt;
        are_served(
            &rt,
            rt.alloc(),
            HALF_AND_WHOLE,
            8080,
            limits,
            ServeEnd::Finished
        )
    );
}

/// One that sends a whole request, takes the answer in small parts, and has to wait for its place.
const SLOW: Conn = Conn {
    sends: ASKS_AND_CLOSES,
    room: &[1, 0, 5, 0, 0, 3],
    ends: None,
    fails: None,
    written: HELLO_AND_CLOSE,
    closed_at: Some(1000),
};

const HALF_AND_SLOW: &[Conn] = &[HALF, SLOW];

#[test]
fn with_one_place_the_second_is_served_once_the_first_is_closed(rt: HostRuntime) {
    let limits = Limits {
        pool: 1,
        conns: 2,
        idle: 1000,
    };
    assert!(rt;
        are_served(
            &rt,
            rt.alloc(),
            HALF_AND_SLOW,
            8080,
            limits,
            ServeEnd::Finished
        )
    );
}

/// Connections that take little at first and end at 5.
const FIVE_AND_LATE: &[Conn] = &[
    Conn {
        sends: b"POST /echo HTTP/1.1\r\nContent-Length: 3\r\nTransfer-Encoding: chunked\r\n\r\n",
        room: &[7, 0, 1],
        ends: Some(5),
        fails: None,
        written: b"HTTP/1.1 400 Bad Request\r\nConnection: close\r\nContent-Length: 0\r\n\r\n",
        closed_at: None,
    },
    Conn {
        sends: b"GET /chunks HTTP/1.0\r\n\r\n",
        room: &[7, 0, 1],
        ends: Some(5),
        fails: None,
        written: b"HTTP/1.0 200 OK\r\nContent-Type: text/plain\r\nConnection: close\r\n\r\nonetwo",
        closed_at: None,
    },
    Conn {
        sends: b"POST /echo HTTP/1.1\r\nContent-Length: 3\r\nExpect: 100-continue\r\n\r\nabc",
        room: &[7, 0, 1],
        ends: Some(5),
        fails: None,
        written: b"HTTP/1.1 100 Continue\r\n\r\nHTTP/1.1 200 OK\r\nContent-Type: application/octet-stream\r\nContent-Length: 3\r\n\r\nabc",
        closed_at: None,
    },
    Conn {
        sends: b"GET /raise HTTP/1.1\r\n\r\n",
        room: &[7, 0, 1],
        ends: Some(5),
        fails: None,
        written: b"HTTP/1.1 500 Internal Server Error\r\nContent-Type: text/plain\r\nConnection: close\r\nContent-Length: 21\r\n\r\nInternal Server Error",
        closed_at: None,
    },
    Conn {
        sends: b"GET /environ?x=1 HTTP/1.1\r\nHost: a\r\nX-A: 1\r\nX-A: 2\r\n\r\n",
        room: &[7, 0, 1],
        ends: Some(5),
        fails: None,
        written: b"HTTP/1.1 200 OK\r\nContent-Type: text/plain\r\nContent-Length: 154\r\n\r\nREQUEST_METHOD=GET\nSCRIPT_NAME=\nPATH_INFO=/environ\nQUERY_STRING=x=1\nSERVER_NAME=localhost\nSERVER_PORT=0\nSERVER_PROTOCOL=HTTP/1.1\nHTTP_HOST=a\nHTTP_X_A=1,2\n",
        closed_at: None,
    },
    Conn {
        sends: b"GET /late HTTP/1.1\r\n\r\nGET / HTTP/1.1\r\n\r\n",
        room: &[7, 0, 1],
        ends: Some(5),
        fails: None,
        written: b"HTTP/1.1 200 OK\r\nContent-Type: text/plain\r\nTransfer-Encoding: chunked\r\n\r\n4\r\npart\r\n",
        closed_at: None,
    },
];

#[test]
fn five_connections_are_each_answered_by_itself(rt: HostRuntime) {
    let limits = Limits {
        pool: 4,
        conns: 6,
        idle: 1000,
    };
    assert!(rt;
        are_served(
            &rt,
            rt.alloc(),
            FIVE_AND_LATE,
            0,
            limits,
            ServeEnd::Finished
        )
    );
}

/// One that sends a whole request and fails at its first call.
const FAILS_AT_ONCE: Conn = Conn {
    sends: ASKS_AND_CLOSES,
    room: &[],
    ends: None,
    fails: Some(0),
    written: b"",
    closed_at: Some(0),
};

/// One that sends a whole request and fails at its second call.
const FAILS_THEN: Conn = Conn {
    sends: ASKS_AND_CLOSES,
    room: &[],
    ends: None,
    fails: Some(1),
    written: b"",
    closed_at: Some(0),
};

/// One that is answered, and another that fails.
const FAILING: &[&[Conn]] = &[&[WHOLE, FAILS_AT_ONCE], &[WHOLE, FAILS_THEN]];

#[test]
fn a_connection_that_fails_is_nothing_to_the_other(rt: HostRuntime) {
    for conns in FAILING {
        let limits = Limits {
            pool: 2,
            conns: 2,
            idle: 1000,
        };
        assert!(rt; are_served(&rt, rt.alloc(), conns, 8080, limits, ServeEnd::Finished));
    }
}

#[test]
fn where_nobody_more_is_to_come_the_listener_is_at_fault(rt: HostRuntime) {
    let limits = Limits {
        pool: 2,
        conns: 3,
        idle: 1000,
    };
    assert!(rt;
        are_served(
            &rt,
            rt.alloc(),
            HALF_AND_WHOLE,
            8080,
            limits,
            ServeEnd::Listener
        )
    );
}

/// The port at which a net without connections listens that was made for this port.
fn port_of(alloc: Global, port: u16) -> Option<u16> {
    let mut net = MemoryNet::new(alloc, port, Vec::new(alloc));
    net.listen(0).ok()
}

#[test]
fn a_net_without_connections_does_not_listen_at_port_0(rt: HostRuntime) {
    assert!(rt; port_of(rt.alloc(), 0).is_none());
    assert!(rt; port_of(rt.alloc(), 1) == Some(1));
}
