//! SCGI connections, answered piece by piece.
use crate::connections::{Row, is_answered};
use scgi_core::ScgiSession;
use std::alloc::Global;
use std::process::Abort;
use wsgi_connection::ConnectionEnd;
use wsgi_core::{SessionPhase, ShippedApp, Talk};

const BAD_REQUEST: &[u8] = b"Status: 400 Bad Request\r\nContent-Length: 0\r\n\r\n";

const TOO_LARGE: &[u8] = b"Status: 413 Request Entity Too Large\r\nContent-Length: 0\r\n\r\n";

const HELLO: &[u8] =
    b"Status: 200 OK\r\nContent-Type: text/plain\r\nContent-Length: 6\r\n\r\nhello\n";

/// Asserts that each input is answered so up to the connection's end, in small pieces and in one.
fn assert_answered(rt: &impl Abort, alloc: Global, rows: &[(&[u8], &[u8])]) {
    for (input, written) in rows {
        let row = Row {
            input: *input,
            pieces: &[1, 19, 4096],
            failing: &[],
            room: 1000,
            end: ConnectionEnd::Closed,
            written: *written,
        };
        assert!(rt; is_answered::<ScgiSession>(alloc, 0, &row) == Ok(true));
    }
}

/// Requests, and the answer to each.
const ANSWERED: &[(&[u8], &[u8])] = &[
    (
        b"55:CONTENT_LENGTH\00\0SCGI\01\0REQUEST_METHOD\0GET\0PATH_INFO\0/\0,",
        HELLO,
    ),
    (
        b"60:CONTENT_LENGTH\03\0SCGI\01\0REQUEST_METHOD\0POST\0PATH_INFO\0/echo\0,abcd",
        b"Status: 200 OK\r\nContent-Type: application/octet-stream\r\nContent-Length: 3\r\n\r\nabc",
    ),
    (
        b"61:CONTENT_LENGTH\00\0SCGI\01\0REQUEST_METHOD\0GET\0PATH_INFO\0/chunks\0,",
        b"Status: 200 OK\r\nContent-Type: text/plain\r\n\r\nonetwo",
    ),
    (
        b"61:CONTENT_LENGTH\00\0SCGI\01\0REQUEST_METHOD\0HEAD\0PATH_INFO\0/raise\0,",
        b"Status: 500 Internal Server Error\r\nContent-Type: text/plain\r\nContent-Length: 21\r\n\r\n",
    ),
    (
        b"59:CONTENT_LENGTH\00\0SCGI\01\0REQUEST_METHOD\0GET\0PATH_INFO\0/late\0,",
        b"Status: 200 OK\r\nContent-Type: text/plain\r\n\r\npart",
    ),
    (
        b"65:CONTENT_LENGTH\00\0SCGI\01\0REQUEST_METHOD\0GET\0PATH_INFO\0/environ\0A\0\0,",
        b"Status: 200 OK\r\nContent-Type: text/plain\r\nContent-Length: 58\r\n\r\nCONTENT_LENGTH=0\nREQUEST_METHOD=GET\nPATH_INFO=/environ\nA=\n",
    ),
];

#[test]
fn requests_are_answered_in_any_pieces(rt: HostRuntime) {
    assert_answered(&rt, rt.alloc(), ANSWERED);
}

/// Inputs that are no request, and what is written for each.
const REFUSED: &[(&[u8], &[u8])] = &[
    (b"07:", BAD_REQUEST),
    (b"55:CONT", b""),
    (b":", BAD_REQUEST),
    (b"99999", b""),
    (b"32768:", b""),
    (b"32769:", BAD_REQUEST),
    (b"123456", BAD_REQUEST),
    (
        b"61:CONTENT_LENGTH\01048577\0SCGI\01\0REQUEST_METHOD\0GET\0PATH_INFO\0/\0,",
        TOO_LARGE,
    ),
    (
        b"62:CONTENT_LENGTH\00\0SCGI\01\0REQUEST_METHOD\0GET\0PATH_INFO\0/\0SCGI\01\0,",
        BAD_REQUEST,
    ),
    (
        b"55:CONTENT_LENGTH\00\0SCGI\01\0REQUEST_METHOD\0GET\0PATH_INFO\0/\0;",
        BAD_REQUEST,
    ),
    (
        b"55:SCGI\01\0CONTENT_LENGTH\00\0REQUEST_METHOD\0GET\0PATH_INFO\0/\0,",
        BAD_REQUEST,
    ),
    (
        b"55:CONTENT_LENGTH\00\0SCGI\02\0REQUEST_METHOD\0GET\0PATH_INFO\0/\0,",
        BAD_REQUEST,
    ),
    (b"24:CONTENT_LENGTH\00\0SCGI\01\0,", BAD_REQUEST),
];

#[test]
fn what_is_no_request_is_refused(rt: HostRuntime) {
    assert_answered(&rt, rt.alloc(), REFUSED);
}

/// Whether the session is in this phase once it was fed this, with nothing pending, or what is pending ends so.
fn says(
    session: &mut ScgiSession,
    piece: &[u8],
    phase: SessionPhase,
    ending: Option<&[u8]>,
) -> bool {
    let is_fed = session.feed(piece, &ShippedApp).is_ok();
    let is_pending = match ending {
        Some(ending) => session.pending().ends_with(ending),
        None => session.pending().is_empty(),
    };
    is_fed && is_pending && session.phase() == phase
}

/// Whether nothing is said where a request is whole but for its last byte, and what follows it is ignored.
fn answers_at_the_last_byte(session: &mut ScgiSession) -> bool {
    let request = b"60:CONTENT_LENGTH\03\0SCGI\01\0REQUEST_METHOD\0POST\0PATH_INFO\0/echo\0,ab";
    let answer = Some(b"\r\n\r\nabc".as_slice());
    says(session, request, SessionPhase::Serving, None)
        && says(session, b"c", SessionPhase::Closing, answer)
        && says(session, b"55:", SessionPhase::Closing, answer)
}

#[test]
fn it_answers_at_the_last_byte_of_the_body(rt: HostRuntime) {
    let mut session = ScgiSession::begin(rt.alloc(), 0);
    assert!(rt; answers_at_the_last_byte(&mut session));
    drop(session);
}
