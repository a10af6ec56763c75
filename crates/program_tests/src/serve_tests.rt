//! `serve` through the call, over nets in memory.
ghost use Rattle.std.specs.Prelude.{◌<◌, ◌^◌, length, IfOk};

use crate::served::{Served, is_passed, is_served, sending, three, two};
use std::alloc::{AllocError, Global};
use std::sync::Wait;
use stream_net::{ConnScript, MemoryNet};

const HELLO_AND_CLOSE: &[u8] =
    b"HTTP/1.1 200 OK\r\nContent-Type: text/plain\r\nContent-Length: 6\r\nConnection: close\r\n\r\nhello\n";

const LATE: &[u8] =
    b"HTTP/1.1 200 OK\r\nContent-Type: text/plain\r\nTransfer-Encoding: chunked\r\n\r\n4\r\npart\r\n";

/// Half a request.
const HALF: &[u8] = b"GET / HT";

/// A whole one.
const WHOLE: &[u8] = b"GET / HTTP/1.1\r\nConnection: close\r\n\r\n";

/// One whose answer faults when it has begun, and one more.
const FAULTS: &[u8] = b"GET /late HTTP/1.1\r\n\r\nGET / HTTP/1.1\r\n\r\n";

/// What those three are sent.
const SERVED: [&[u8]; 3] = [b"", HELLO_AND_CLOSE, LATE];

/// Calls of `serve` over those connections, how many of them are accepted, and when the second is closed.
const CALLS: &[(Served<'static>, u32, u64)] = &[
    (
        Served {
            words: "serve --port 8080 --conns 3 --pool 2 --idle 1000",
            room: 100,
            status: 0,
            out: b"listening 8080\nserved 3\n",
            err: b"",
        },
        3,
        0,
    ),
    (
        Served {
            words: "serve --port=8080 --conns 3 --pool 1 --idle 1000 --gateway http",
            room: 100,
            status: 0,
            out: b"listening 8080\nserved 3\n",
            err: b"",
        },
        3,
        1000,
    ),
    (
        Served {
            words: "serve --idle 1000 --port 8080 --conns 4",
            room: 100,
            status: 10,
            out: b"listening 8080\n",
            err: b"gvr: network fault\n",
        },
        3,
        0,
    ),
    (
        Served {
            words: "serve --port 8080 --conns 3 --idle 1000",
            room: 20,
            status: 5,
            out: b"listening 8080\nserve",
            err: b"gvr: write fault\n",
        },
        3,
        0,
    ),
    (
        Served {
            words: "serve --port 8080 --conns 3 --idle 1000",
            room: 3,
            status: 5,
            out: b"lis",
            err: b"gvr: write fault\n",
        },
        0,
        0,
    ),
];

/// Whether so many were accepted, and sent what is theirs, and the first was closed at its idle time, the second then.
fn are_served(net: &MemoryNet, accepted: u32, closed_at: u64) -> bool {
    for conn in 0..accepted {
        if net.written(conn) != SERVED.get(conn as usize).copied() {
            return false;
        }
    }
    let are_closed = accepted == 0
        || net.closed_at(0) == Some(1000) && net.closed_at(1) == Some(closed_at);
    net.written(accepted).is_none() && are_closed
}

/// Whether the call leaves what it is to leave, and the connections are served so.
fn holds<H: Wait>(
    rt: &H,
    alloc: Global,
    call: &(Served<'static>, u32, u64),
) -> Result<bool, AllocError> {
    let (served, accepted, closed_at) = *call;
    let mut net = MemoryNet::new(alloc, 8080, three(alloc, HALF, WHOLE, FAULTS)?);
    let holds = is_served(rt, alloc, &served, &mut net);
    Ok(holds == Ok(true) && are_served(&net, accepted, closed_at))
}

#[test]
fn each_connection_is_served_by_itself(rt: HostRuntime) {
    for call in CALLS {
        assert!(rt;
            holds(&rt, rt.alloc(), call) == Ok(true),
            "{}",
            call.0.words
        );
    }
}

const NOT_SERVED: Served<'static> = Served {
    words: "serve --port 0 --conns 1",
    room: 100,
    status: 10,
    out: b"",
    err: b"gvr: network fault\n",
};

/// Whether a call over a net that does not listen leaves out alone.
fn leaves_out_alone<H: Wait>(rt: &H, alloc: Global) -> Result<bool, AllocError> {
    let mut net = MemoryNet::new(alloc, 0, Vec::new(alloc));
    is_served(rt, alloc, &NOT_SERVED, &mut net)
}

#[test]
fn a_net_that_does_not_listen_leaves_out_alone(rt: HostRuntime) {
    assert!(rt; leaves_out_alone(&rt, rt.alloc()) == Ok(true));
}

/// Half a request that is never ended; and a whole one, which takes so many bytes write by write and fails at a call.
fn half_and_whole(
    alloc: Global,
    room: &[u32],
    fails: Option<u64>,
) -> Result<Vec<ConnScript>, AllocError>
    ensures { IfOk result (λ scripts. length scripts.items < 2 ^ 32) }
{
    let mut whole = sending(alloc, &[WHOLE], room)?;
    whole.fails = fails;
    two(alloc, sending(alloc, &[HALF], &[]), Ok(whole))
}

/// Whether both are accepted and closed, the first at its idle time, the second at once, and the second is sent this.
fn are_closed(net: &MemoryNet, sent: &[u8]) -> bool {
    net.written(0) == Some(&b""[..])
        && net.written(1) == Some(sent)
        && net.closed_at(0) == Some(1000)
        && net.closed_at(1) == Some(0)
}

/// Whether that holds of those two where they are served as the words say.
fn is_sent<H: Wait>(
    rt: &H,
    alloc: Global,
    words: &str,
    room: &[u32],
    fails: Option<u64>,
    sent: &[u8],
) -> Result<bool, AllocError> {
    let served = Served {
        words,
        room: 100,
        status: 0,
        out: b"listening 8080\nserved 2\n",
        err: b"",
    };
    let mut net = MemoryNet::new(alloc, 8080, half_and_whole(alloc, room, fails)?);
    let holds = is_served(rt, alloc, &served, &mut net);
    Ok(holds == Ok(true) && are_closed(&net, sent))
}

const TWO_CONNECTIONS: &str = "serve --port 8080 --conns 2 --pool 2 --idle 1000";

#[test]
fn an_idle_connection_and_a_quick_one(rt: HostRuntime) {
    let alloc = rt.alloc();
    assert!(rt; is_sent(&rt, alloc, TWO_CONNECTIONS, &[], None, HELLO_AND_CLOSE) == Ok(true));
    let words = "serve --port 8080 --conns 2 --pool 2 --idle 1000 --gateway http";
    assert!(rt; is_sent(&rt, alloc, words, &[], None, HELLO_AND_CLOSE) == Ok(true));
}

/// The rooms 0, 1, 0, 1 and so on of 400 writes.
fn no_room_and_room_for_one(alloc: Global) -> Result<Vec<u32>, AllocError> {
    let mut rooms = Vec::new(alloc);
    for _ in 0..200 {
        rooms.extend_from_slice(&[0, 1])?;
    }
    Ok(rooms)
}

/// Whether the second connection is sent this in writes of those rooms, of which a call fails.
fn is_sent_in_small_writes<H: Wait>(
    rt: &H,
    alloc: Global,
    fails: Option<u64>,
    sent: &[u8],
) -> Result<bool, AllocError> {
    let rooms = no_room_and_room_for_one(alloc)?;
    is_sent(rt, alloc, TWO_CONNECTIONS, &rooms, fails, sent)
}

/// The first of the small writes at whose failure the second connection is sent something else than the bytes before.
fn small_write_that_differs<H: Wait>(rt: &H, alloc: Global) -> Option<u64> {
    // Behind the read each byte takes two writes, of which the first finds no room.
    for taken in 0..HELLO_AND_CLOSE.len() {
        for write in 1..3 {
            let call = taken as u64 * 2 + write;
            let sent = &HELLO_AND_CLOSE[..taken];
            if is_sent_in_small_writes(rt, alloc, Some(call), sent) != Ok(true) {
                return Some(call);
            }
        }
    }
    None
}

#[test]
fn the_second_connection_fails_at_each_call(rt: HostRuntime) {
    let alloc = rt.alloc();
    // Its two calls are a read and a write.
    for call in 0..2 {
        assert!(rt;
            is_sent(&rt, alloc, TWO_CONNECTIONS, &[], Some(call), b"") == Ok(true),
            "{call}"
        );
    }
    assert!(rt; is_sent_in_small_writes(&rt, alloc, None, HELLO_AND_CLOSE) == Ok(true));
    let differs = small_write_that_differs(&rt, alloc);
    assert!(rt; differs.is_none(), "{differs:?}");
}

/// A reply of an application server.
const REPLY: &[u8] =
    b"Status: 404 Not Found\r\nContent-Type: text/plain\r\nContent-Length: 8\r\n\r\nnowhere\n";

/// What the client is sent of it.
const PASSED: &[u8] =
    b"HTTP/1.1 404 Not Found\r\nContent-Type: text/plain\r\nContent-Length: 8\r\nConnection: close\r\n\r\nnowhere\n";

/// What the client is sent where the application server says nothing within the patience.
const LATE_REPLY: &[u8] =
    b"HTTP/1.1 504 Gateway Timeout\r\nContent-Type: text/plain\r\nContent-Length: 16\r\nConnection: close\r\n\r\ngateway timeout\n";

/// A connection that sends a whole request.
fn one_whole(alloc: Global) -> Result<Vec<ConnScript>, AllocError>
    ensures { IfOk result (λ scripts. length scripts.items < 2 ^ 32) }
{
    let whole = sending(alloc, &[WHOLE], &[])?;
    Ok(vec![in alloc; whole]?)
}

/// Whether a whole request is answered so by a server behind which an application server takes these streams.
fn is_passed_so<H: Wait>(
    rt: &H,
    alloc: Global,
    streams: Vec<ConnScript>,
    sent: &[u8],
) -> Result<bool, AllocError> {
    let served = Served {
        words: "serve --port 8080 --conns 1 --pass 9000 --patience 1000",
        room: 100,
        status: 0,
        out: b"listening 8080\nserved 1\n",
        err: b"",
    };
    let mut net = MemoryNet::new(alloc, 8080, one_whole(alloc)?);
    let holds = is_passed(rt, alloc, &served, &mut net, streams);
    Ok(holds == Ok(true) && net.written(0) == Some(sent))
}

#[test]
fn an_application_server_answers(rt: HostRuntime) -> Result<(), AllocError> {
    let alloc = rt.alloc();
    let replies = vec![in alloc; sending(alloc, &[REPLY], &[])?]?;
    assert!(rt; is_passed_so(&rt, alloc, replies, PASSED) == Ok(true));
    let silent = vec![in alloc; sending(alloc, &[], &[])?]?;
    assert!(rt; is_passed_so(&rt, alloc, silent, LATE_REPLY) == Ok(true));
    Ok(())
}
