//! Connections through the call, by either gateway.
use crate::calls::{Row, holds, is_answered, padded, push_padded};
use std::alloc::{AllocError, Global};

pub(crate) const HELLO: &[u8] =
    b"HTTP/1.1 200 OK\r\nContent-Type: text/plain\r\nContent-Length: 6\r\n\r\nhello\n";

/// What a connection sends, how many `x` it sends behind it, and what it is sent.
const CONNECTIONS: &[(&[u8], usize, &[u8])] = &[
    (
        b"GET / HTTP/1.1\r\nHost: a\r\n\r\nGET /chunks HTTP/1.1\r\nHost: a\r\n\r\nHEAD / HTTP/1.1\r\nHost: a\r\n\r\nGET /",
        8192,
        b"HTTP/1.1 200 OK\r\nContent-Type: text/plain\r\nContent-Length: 6\r\n\r\nhello\nHTTP/1.1 200 OK\r\nContent-Type: text/plain\r\nTransfer-Encoding: chunked\r\n\r\n3\r\none\r\n3\r\ntwo\r\n0\r\n\r\nHTTP/1.1 200 OK\r\nContent-Type: text/plain\r\nContent-Length: 6\r\n\r\nHTTP/1.1 414 Request URI Too Long\r\nConnection: close\r\nContent-Length: 0\r\n\r\n",
    ),
    (
        b"GET /late HTTP/1.1\r\n\r\nGET / HTTP/1.1\r\n\r\n",
        0,
        b"HTTP/1.1 200 OK\r\nContent-Type: text/plain\r\nTransfer-Encoding: chunked\r\n\r\n4\r\npart\r\n",
    ),
    (
        b"POST /echo HTTP/1.1\r\nContent-Length: 3\r\nTransfer-Encoding: chunked\r\n\r\n",
        0,
        b"HTTP/1.1 400 Bad Request\r\nConnection: close\r\nContent-Length: 0\r\n\r\n",
    ),
    (
        b"GET /chunks HTTP/1.0\r\n\r\n",
        0,
        b"HTTP/1.0 200 OK\r\nContent-Type: text/plain\r\nConnection: close\r\n\r\nonetwo",
    ),
    (
        b"POST /echo HTTP/1.1\r\nContent-Length: 3\r\nExpect: 100-continue\r\n\r\nabc",
        0,
        b"HTTP/1.1 100 Continue\r\n\r\nHTTP/1.1 200 OK\r\nContent-Type: application/octet-stream\r\nContent-Length: 3\r\n\r\nabc",
    ),
    (
        b"GET /raise HTTP/1.1\r\n\r\n",
        0,
        b"HTTP/1.1 500 Internal Server Error\r\nContent-Type: text/plain\r\nConnection: close\r\nContent-Length: 21\r\n\r\nInternal Server Error",
    ),
    (
        b"GET /environ?x=1 HTTP/1.1\r\nHost: a\r\nX-A: 1\r\nX-A: 2\r\n\r\n",
        0,
        b"HTTP/1.1 200 OK\r\nContent-Type: text/plain\r\nContent-Length: 154\r\n\r\nREQUEST_METHOD=GET\nSCRIPT_NAME=\nPATH_INFO=/environ\nQUERY_STRING=x=1\nSERVER_NAME=localhost\nSERVER_PORT=0\nSERVER_PROTOCOL=HTTP/1.1\nHTTP_HOST=a\nHTTP_X_A=1,2\n",
    ),
    (
        b"GET /bad HTTP/1.1\r\n\r\n",
        0,
        b"HTTP/1.1 500 Internal Server Error\r\nContent-Type: text/plain\r\nConnection: close\r\nContent-Length: 21\r\n\r\nInternal Server Error",
    ),
    (
        b"HEAD /raise HTTP/1.1\r\n\r\n",
        0,
        b"HTTP/1.1 500 Internal Server Error\r\nContent-Type: text/plain\r\nConnection: close\r\nContent-Length: 21\r\n\r\n",
    ),
    (
        b"POST /echo HTTP/1.1\r\nTransfer-Encoding: chunked\r\n\r\n3\r\nabc\r\n0\r\n\r\n",
        0,
        b"HTTP/1.1 200 OK\r\nContent-Type: application/octet-stream\r\nContent-Length: 3\r\n\r\nabc",
    ),
];

/// Whether a connection that sends this, and so many `x` behind it, is answered so in any pieces.
fn is_answer(alloc: Global, text: &[u8], count: usize, answer: &[u8]) -> Result<bool, AllocError> {
    let input = padded(alloc, text, b'x', count, b"")?;
    Ok(
        is_answered(alloc, "wsgi", &input, &[1, 19, 4096], answer)
            && is_answered(alloc, "wsgi --gateway http", &input, &[4096], answer),
    )
}

#[test]
fn connections_in_any_pieces(rt: HostRuntime) {
    for (text, count, answer) in CONNECTIONS {
        assert!(rt; is_answer(rt.alloc(), text, *count, answer) == Ok(true));
    }
}

/// Words, what a connection sends, and what it is sent.
const BY_EITHER_GATEWAY: &[(&str, &[u8], &[u8])] = &[
    (
        "wsgi --gateway scgi",
        b"55:CONTENT_LENGTH\00\0SCGI\01\0REQUEST_METHOD\0GET\0PATH_INFO\0/\0,",
        b"Status: 200 OK\r\nContent-Type: text/plain\r\nContent-Length: 6\r\n\r\nhello\n",
    ),
    (
        "wsgi --gateway=scgi",
        b"60:CONTENT_LENGTH\03\0SCGI\01\0REQUEST_METHOD\0POST\0PATH_INFO\0/echo\0,abc",
        b"Status: 200 OK\r\nContent-Type: application/octet-stream\r\nContent-Length: 3\r\n\r\nabc",
    ),
    (
        "wsgi --gateway scgi",
        b"07:",
        b"Status: 400 Bad Request\r\nContent-Length: 0\r\n\r\n",
    ),
    ("wsgi --gateway scgi", b"55:CONT", b""),
    (
        "wsgi --gateway http",
        b"GET / HTTP/1.1\r\nHost: a\r\n\r\n",
        HELLO,
    ),
];

#[test]
fn a_connection_by_either_gateway(rt: HostRuntime) {
    for (words, input, answer) in BY_EITHER_GATEWAY {
        assert!(rt;
            is_answered(rt.alloc(), words, input, &[1, 4096], answer),
            "{words}"
        );
    }
}

/// Appends this request fifteen times, and then this text with so many bytes behind it.
fn push_long(
    bytes: &mut Vec<u8>,
    request: &[u8],
    last: &[u8],
    count: usize,
) -> Result<(), AllocError> {
    for _ in 0..15 {
        bytes.extend_from_slice(request)?;
    }
    push_padded(bytes, last, b'x', count, b"")
}

/// Fifteen requests of 1048576 bytes each, and then this text with so many bytes behind it.
fn long_input(alloc: Global, last: &[u8], count: usize) -> Result<Vec<u8>, AllocError> {
    let request = padded(alloc, WHOLE, b'x', 1048532, b"")?;
    let mut bytes = Vec::new(alloc);
    push_long(&mut bytes, &request, last, count)?;
    Ok(bytes)
}

/// So many greetings.
fn greetings(alloc: Global, count: usize) -> Result<Vec<u8>, AllocError> {
    let mut bytes = Vec::new(alloc);
    for _ in 0..count {
        bytes.extend_from_slice(HELLO)?;
    }
    Ok(bytes)
}

/// The last request of a connection and how many bytes follow its head, the size of the pieces, the status, how many
/// greetings are sent, and the line on err.
type Long = (&'static [u8], usize, usize, u8, usize, &'static [u8]);

const WHOLE: &[u8] = b"POST / HTTP/1.1\r\nContent-Length: 1048532\r\n\r\n";

const LONGER: &[u8] = b"POST / HTTP/1.1\r\nContent-Length: 1048533\r\n\r\n";

const LIMIT: &[u8] = b"gvr: limit of the connection\n";

const LONG: &[Long] = &[
    (WHOLE, 1048532, 4096, 0, 16, b""),
    (WHOLE, 1048533, 4095, 8, 16, LIMIT),
    (LONGER, 1048532, 4096, 0, 15, b""),
    (LONGER, 1048533, 4095, 8, 15, LIMIT),
];

/// Whether a long connection leaves what it is to leave.
fn is_limited(alloc: Global, long: &Long) -> Result<bool, AllocError> {
    let (last, count, piece, status, hellos, err) = *long;
    let input = long_input(alloc, last, count)?;
    let out = greetings(alloc, hellos)?;
    let row = Row {
        name: "",
        words: "wsgi",
        input: &input,
        piece,
        failing: &[],
        room: 2000,
        err_room: 1000,
        status,
        out: &out,
        err,
    };
    holds(alloc, &row)
}

#[test]
fn limit_of_the_connection(rt: HostRuntime) {
    for long in LONG {
        assert!(rt; is_limited(rt.alloc(), long) == Ok(true), "{}", long.1);
    }
}
