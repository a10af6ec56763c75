//! Sessions, and what they send.
ghost use Rattle.std.specs.Prelude.{IsSome, IsTrue};
ghost use Rattle.wsgi_core.specs.Steps.{asked_of};

use std::alloc::{AllocError, Global};
use wsgi_core::{Environ, Reply, Session, SessionPhase, ShippedApp};

const BAD_REQUEST: &[u8] =
    b"HTTP/1.1 400 Bad Request\r\nConnection: close\r\nContent-Length: 0\r\n\r\n";

const TOO_LARGE: &[u8] =
    b"HTTP/1.1 413 Request Entity Too Large\r\nConnection: close\r\nContent-Length: 0\r\n\r\n";

const TOO_LONG: &[u8] =
    b"HTTP/1.1 414 Request URI Too Long\r\nConnection: close\r\nContent-Length: 0\r\n\r\n";

pub(crate) const HELLO: &[u8] =
    b"HTTP/1.1 200 OK\r\nContent-Type: text/plain\r\nContent-Length: 6\r\n\r\nhello\n";

const NOT_FOUND: &[u8] =
    b"HTTP/1.1 404 Not Found\r\nContent-Type: text/plain\r\nContent-Length: 10\r\n\r\nnot found\n";

const ECHO: &[u8] =
    b"HTTP/1.1 200 OK\r\nContent-Type: application/octet-stream\r\nContent-Length: 3\r\n\r\nabc";

const FAULT: &[u8] =
    b"HTTP/1.1 500 Internal Server Error\r\nContent-Type: text/plain\r\nConnection: close\r\nContent-Length: 21\r\n\r\n";

/// Feeds a piece, and takes what is pending.
fn answer_piece(session: &mut Session, piece: &[u8], out: &mut Vec<u8>) -> Result<(), AllocError> {
    session.feed(piece, &ShippedApp)?;
    out.extend_from_slice(session.pending())?;
    let sent = session.pending().len();
    session.took(sent);
    Ok(())
}

/// Feeds the input in pieces of this size, and takes what is pending after each.
fn answer_pieces(
    session: &mut Session,
    input: &[u8],
    piece: usize,
    out: &mut Vec<u8>,
) -> Result<(), AllocError> {
    for part in input.chunks(piece.max(1)) {
        answer_piece(session, part, out)?;
    }
    session.end();
    Ok(())
}

/// Whether the shipped application's session sends this for the input, fed in pieces of this size.
fn is_said_in(alloc: Global, input: &[u8], piece: usize, wanted: &[u8]) -> bool {
    let mut session = Session::new(alloc, 0);
    let mut out = Vec::new(alloc);
    let is_fed = answer_pieces(&mut session, input, piece, &mut out).is_ok();
    drop(session);
    is_fed && out.as_slice() == wanted
}

/// Whether it sends this, fed in pieces of each of these sizes.
fn is_said(alloc: Global, input: &[u8], pieces: &[usize], wanted: &[u8]) -> bool {
    for piece in pieces {
        if !is_said_in(alloc, input, *piece, wanted) {
            return false;
        }
    }
    true
}

/// Appends these one after the other.
pub(crate) fn push_all(out: &mut Vec<u8>, parts: &[&[u8]]) -> Result<(), AllocError> {
    for part in parts {
        out.extend_from_slice(part)?;
    }
    Ok(())
}

/// Whether it sends these answers one after the other, in any pieces.
fn are_said(alloc: Global, input: &[u8], answers: &[&[u8]]) -> bool {
    let mut wanted = Vec::new(alloc);
    let is_whole = push_all(&mut wanted, answers).is_ok();
    is_whole && is_said(alloc, input, &[1, 19, 4096], &wanted)
}

/// Inputs, and the answers to each.
const ANSWERED: &[(&[u8], &[&[u8]])] = &[
    (
        b"GET / HTTP/1.1\r\nHost: a\r\n\r\nGET /chunks HTTP/1.1\r\nHost: a\r\n\r\nHEAD / HTTP/1.1\r\nHost: a\r\n\r\nGET",
        &[
            HELLO,
            b"HTTP/1.1 200 OK\r\nContent-Type: text/plain\r\nTransfer-Encoding: chunked\r\n\r\n3\r\none\r\n3\r\ntwo\r\n0\r\n\r\n",
            b"HTTP/1.1 200 OK\r\nContent-Type: text/plain\r\nContent-Length: 6\r\n\r\n",
        ],
    ),
    (
        b"GET /late HTTP/1.1\r\n\r\nGET / HTTP/1.1\r\n\r\n",
        &[
            b"HTTP/1.1 200 OK\r\nContent-Type: text/plain\r\nTransfer-Encoding: chunked\r\n\r\n4\r\npart\r\n",
        ],
    ),
    (
        b"POST /echo HTTP/1.1\r\nContent-Length: 3\r\nTransfer-Encoding: chunked\r\n\r\n",
        &[BAD_REQUEST],
    ),
    (
        b"GET /chunks HTTP/1.0\r\n\r\n",
        &[b"HTTP/1.0 200 OK\r\nContent-Type: text/plain\r\nConnection: close\r\n\r\nonetwo"],
    ),
    (
        b"POST /echo HTTP/1.1\r\nContent-Length: 3\r\nExpect: 100-continue\r\n\r\nabc",
        &[b"HTTP/1.1 100 Continue\r\n\r\n", ECHO],
    ),
    (
        b"GET /raise HTTP/1.1\r\n\r\n",
        &[FAULT, b"Internal Server Error"],
    ),
    (
        b"GET /environ?x=1 HTTP/1.1\r\nHost: a\r\nX-A: 1\r\nX-A: 2\r\n\r\n",
        &[
            b"HTTP/1.1 200 OK\r\nContent-Type: text/plain\r\nContent-Length: 154\r\n\r\n",
            b"REQUEST_METHOD=GET\nSCRIPT_NAME=\nPATH_INFO=/environ\nQUERY_STRING=x=1\nSERVER_NAME=localhost\nSERVER_PORT=0\nSERVER_PROTOCOL=HTTP/1.1\nHTTP_HOST=a\nHTTP_X_A=1,2\n",
        ],
    ),
    (
        b"GET /bad HTTP/1.1\r\n\r\n",
        &[FAULT, b"Internal Server Error"],
    ),
    (b"HEAD /raise HTTP/1.1\r\n\r\n", &[FAULT]),
    (
        b"POST /echo HTTP/1.1\r\nTransfer-Encoding: chunked\r\n\r\n3\r\nabc\r\n0\r\n\r\n",
        &[ECHO],
    ),
];

#[test]
fn answers_are_the_same_in_any_pieces(rt: HostRuntime) {
    for (input, answers) in ANSWERED {
        assert!(rt; are_said(rt.alloc(), input, answers));
    }
}

const CHUNKED: &[u8] = b"POST /echo HTTP/1.1\r\nTransfer-Encoding: chunked\r\n\r\n3";

const LAST_CHUNK: &[u8] =
    b"POST /echo HTTP/1.1\r\nTransfer-Encoding: chunked\r\n\r\n3\r\nabc\r\n0\r\n";
/// A front, a unit, how many of it, a back, and the answer.
type Limit = (
    &'static [u8],
    &'static [u8],
    usize,
    &'static [u8],
    &'static [u8],
);

const LIMITS: &[Limit] = &[
    (b"GET /", b"x", 8175, b" HTTP/1.1\r\n\r\n", NOT_FOUND),
    (b"GET /", b"x", 8176, b" HTTP/1.1\r\n\r\n", TOO_LONG),
    (b"GET / HTTP/1.1\r\nX: ", b"x", 32745, b"\r\n\r\n", HELLO),
    (
        b"GET / HTTP/1.1\r\nX: ",
        b"x",
        32746,
        b"\r\n\r\n",
        BAD_REQUEST,
    ),
    (b"GET / HTTP/1.1\r\n", b"A: b\r\n", 64, b"\r\n", HELLO),
    (b"GET / HTTP/1.1\r\n", b"A: b\r\n", 65, b"\r\n", BAD_REQUEST),
    (
        b"POST / HTTP/1.1\r\nContent-Length: 1048576",
        b"",
        0,
        b"\r\n\r\n",
        b"",
    ),
    (
        b"POST / HTTP/1.1\r\nContent-Length: 1048577",
        b"",
        0,
        b"\r\n\r\n",
        TOO_LARGE,
    ),
    (CHUNKED, b";", 1021, b"\r\nabc\r\n0\r\n\r\n", ECHO),
    (CHUNKED, b";", 1022, b"\r\nabc\r\n0\r\n\r\n", BAD_REQUEST),
    (CHUNKED, b"\r\nabc\r\n0\r\n", 1, b"", b""),
    (CHUNKED, b"\r\nabc\r\nx", 1, b"\r\n", BAD_REQUEST),
    // Trailers end within 8192 bytes.
    (LAST_CHUNK, b"x", 8188, b"\r\n\r\n", ECHO),
    (LAST_CHUNK, b"x", 8189, b"\r\n\r\n", BAD_REQUEST),
];

/// Appends the front, so many of the unit, and the back.
fn push_limit(input: &mut Vec<u8>, limit: &Limit) -> Result<(), AllocError> {
    let (front, unit, count, back, _) = *limit;
    input.extend_from_slice(front)?;
    for _ in 0..count {
        input.extend_from_slice(unit)?;
    }
    input.extend_from_slice(back)
}

/// Whether the session answers so where the input is the front, so many of the unit and the back.
fn limits_to(alloc: Global, limit: &Limit) -> bool {
    let mut input = Vec::new(alloc);
    let is_whole = push_limit(&mut input, limit).is_ok();
    is_whole && is_said(alloc, &input, &[1, 4096], limit.4)
}

#[test]
fn limits_hold_on_both_sides(rt: HostRuntime) {
    for limit in LIMITS {
        assert!(rt; limits_to(rt.alloc(), limit), "after {} of a unit", limit.2);
    }
}

/// Whether a request for `/a` without a body waits in the session, and nothing is pending.
fn asks_for_a(session: &Session) -> bool
    ensures { IsTrue result → IsSome (asked_of session.now) }
{
    let Some((environ, body)) = session.asked() else {
        return false;
    };
    Environ::get(environ, b"PATH_INFO") == Some(b"/a".as_slice())
        && body.is_empty()
        && session.pending().is_empty()
        && session.phase() == SessionPhase::Serving
}

/// Whether the session closes with the answer to a fault, and nothing waits.
fn closes_at_a_fault(session: &Session) -> bool {
    session.phase() == SessionPhase::Closing
        && session.asked().is_none()
        && session.pending().starts_with(b"HTTP/1.1 500 ")
}

/// Whether the request that comes waits in the session, and a reply that raised closes it.
fn waits_for_its_reply(session: &mut Session) -> Result<bool, AllocError> {
    session.take_in(b"GET /a HTTP/1.1\r\n\r\nGET")?;
    if !asks_for_a(session) {
        return Ok(false);
    }
    session.answer(Reply::Raised)?;
    Ok(closes_at_a_fault(session))
}

#[test]
fn a_request_waits_for_its_reply(rt: HostRuntime) {
    let mut session = Session::new(rt.alloc(), 0);
    assert!(rt; waits_for_its_reply(&mut session) == Ok(true));
    drop(session);
}
