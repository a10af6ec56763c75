//! Connections, answered piece by piece from a source to a sink.
use crate::sessions::HELLO;
use gv_io::{MemorySink, MemorySource};
use std::alloc::{AllocError, Global};
use wsgi_connection::{ConnectionEnd, answer_connection};
use wsgi_core::{Session, SessionPhase, ShippedApp, Talk};

/// Bytes of a connection, and what they lead to.
#[derive(Clone, Copy)]
pub(crate) struct Row<'a> {
    pub(crate) input: &'a [u8],
    /// How many bytes the input gives at a time, in one connection after the other.
    pub(crate) pieces: &'a [usize],
    /// Which of its reads fail.
    pub(crate) failing: &'a [u64],
    /// How many bytes the sink takes.
    pub(crate) room: usize,
    pub(crate) end: ConnectionEnd,
    /// What is written; at a fault of writing, what begins with it.
    pub(crate) written: &'a [u8],
}

/// The input of a row.
fn source_of(alloc: Global, row: &Row, piece: usize) -> Result<MemorySource, AllocError> {
    let failing = Vec::from_slice(alloc, row.failing)?;
    let bytes = Vec::from_slice(alloc, row.input)?;
    Ok(MemorySource::new(bytes, piece.max(1), failing))
}

/// Whether this is what the row says to be written.
fn is_written(row: &Row, written: &[u8]) -> bool {
    if row.end == ConnectionEnd::WriteFault {
        row.written.starts_with(written)
    } else {
        row.written == written
    }
}

/// Whether the connection ends as the row says, with that written.
fn is_answered_in<T: Talk + Drop>(
    alloc: Global,
    port: u16,
    row: &Row,
    piece: usize,
) -> Result<bool, AllocError> {
    let mut out = MemorySink::new(alloc, row.room)?;
    let mut input = source_of(alloc, row, piece)?;
    let end = answer_connection::<T, _, _, _>(alloc, port, &mut input, &mut out, &ShippedApp);
    Ok(end == row.end && is_written(row, out.bytes()))
}

/// Whether it does in pieces of each of the row's sizes.
pub(crate) fn is_answered<T: Talk + Drop>(
    alloc: Global,
    port: u16,
    row: &Row,
) -> Result<bool, AllocError> {
    for piece in row.pieces {
        if !is_answered_in::<T>(alloc, port, row, *piece)? {
            return Ok(false);
        }
    }
    Ok(true)
}

const TWO_REQUESTS: &[u8] =
    b"GET / HTTP/1.1\r\nHost: a\r\n\r\nHEAD / HTTP/1.1\r\nConnection: close\r\n\r\nGET / HTTP/1.1\r\n\r\n";

const THEIR_ANSWERS: &[u8] =
    b"HTTP/1.1 200 OK\r\nContent-Type: text/plain\r\nContent-Length: 6\r\n\r\nhello\nHTTP/1.1 200 OK\r\nContent-Type: text/plain\r\nContent-Length: 6\r\nConnection: close\r\n\r\n";

/// Connections of the two requests.
const ROWS: &[Row] = &[
    Row {
        input: TWO_REQUESTS,
        pieces: &[1, 19, 4096],
        failing: &[],
        room: 1000,
        end: ConnectionEnd::Closed,
        written: THEIR_ANSWERS,
    },
    Row {
        input: TWO_REQUESTS,
        pieces: &[27],
        failing: &[1],
        room: 1000,
        end: ConnectionEnd::ReadFault,
        written: HELLO,
    },
    Row {
        input: TWO_REQUESTS,
        pieces: &[4096],
        failing: &[],
        room: 100,
        end: ConnectionEnd::WriteFault,
        written: THEIR_ANSWERS,
    },
];

#[test]
fn a_connection_ends_where_it_says_so_or_at_a_fault(rt: HostRuntime) {
    for row in ROWS {
        assert!(rt; is_answered::<Session>(rt.alloc(), 80, row) == Ok(true));
    }
}

/// Feeds the bytes, tells of their end, and feeds them again.
fn feed_behind_the_end<T: Talk>(talk: &mut T, bytes: &[u8]) -> Result<(), AllocError> {
    talk.feed(bytes, &ShippedApp)?;
    talk.end();
    talk.feed(bytes, &ShippedApp)
}

/// Whether one side of a connection says this, and closes, once it was told of the end of the bytes and fed more.
fn is_said_at_the_end<T: Talk + Drop>(alloc: Global, bytes: &[u8], answer: &[u8]) -> bool {
    let mut talk = T::begin(alloc, 80);
    let is_fed = feed_behind_the_end(&mut talk, bytes).is_ok();
    is_fed && talk.pending() == answer && talk.phase() == SessionPhase::Closing
}

#[test]
fn nothing_is_said_behind_the_end(rt: HostRuntime) {
    let request = b"GET / HTTP/1.1\r\nHost: a\r\n\r\n";
    assert!(rt; is_said_at_the_end::<Session>(rt.alloc(), request, HELLO));
}
