//! The faults that a row is run with, one after another: out that fails at each byte, each read that fails, err without
//! room, an input that ends at each byte.
use crate::row::{Row, SMALL_PIECE, Said, Streams, Wanted};
use std::alloc::{AllocError, Global};

/// The status of a read that failed, and that of a write that did.
const READ_FAULT: u8 = 4;

const WRITE_FAULT: u8 = 5;

/// Whether out, where it has room for a beginning of what the row has there, has that beginning, with the status and the
/// line of a write that failed; for each beginning.
fn fails_at_each_byte(alloc: Global, row: &Row) -> Result<bool, AllocError> {
    let trace = row.trace();
    for room in 0..trace.len() {
        let streams = Streams {
            room,
            ..row.sound_streams()
        };
        let wanted = Wanted {
            status: Some(WRITE_FAULT),
            out: &trace[..room],
            said: b"gvr: write fault\n",
        };
        if !row.call(alloc, &streams)?.is(&wanted) {
            return Ok(false);
        }
    }
    Ok(true)
}

/// Streams whose input comes in small pieces, of which the read of this number fails.
fn failing_at(row: &Row, read: u64) -> Streams {
    Streams {
        has_small_pieces: true,
        failing: Some(read),
        ..row.sound_streams()
    }
}

/// Whether out has this beginning of what the row has there, with the status and the line of a read that failed.
fn is_read_fault(row: &Row, said: &Said, out: &[u8]) -> bool {
    let wanted = Wanted {
        status: Some(READ_FAULT),
        out,
        said: b"gvr: read fault\n",
    };
    row.trace().starts_with(out) && said.is(&wanted)
}

/// Whether a read that failed is told, and out is as it was. A connection has a beginning of what it is sent, and may be
/// closed before that read.
fn is_failed_read(row: &Row, said: &Said) -> bool {
    if row.is_connection() {
        return is_read_fault(row, said, said.out.bytes()) || said.is(&row.wanted());
    }
    is_read_fault(row, said, b"")
}

/// Whether each read that fails, with the one that finds the end, is told; and one that never comes changes nothing.
fn fails_at_each_read(alloc: Global, row: &Row) -> Result<bool, AllocError> {
    let reads = row.text().len().div_ceil(SMALL_PIECE) as u64;
    for read in 0..=reads {
        let said = row.call(alloc, &failing_at(row, read))?;
        if !is_failed_read(row, &said) {
            return Ok(false);
        }
    }
    let never = failing_at(row, reads.saturating_add(1));
    Ok(row.call(alloc, &never)?.is(&row.wanted()))
}

/// Whether a line for which err has no room turns the status to that of a write that failed, and out is as ever.
fn fails_at_its_line(alloc: Global, row: &Row) -> Result<bool, AllocError> {
    let streams = Streams {
        err_room: 0,
        ..row.sound_streams()
    };
    let ever = row.wanted();
    let wanted = Wanted {
        status: if ever.said.is_empty() {
            ever.status
        } else {
            Some(WRITE_FAULT)
        },
        said: b"",
        ..ever
    };
    Ok(row.call(alloc, &streams)?.is(&wanted))
}

/// Whether the row is as it should be with each fault.
pub(crate) fn holds_with_faults(alloc: Global, row: &Row) -> Result<bool, AllocError> {
    Ok(
        fails_at_each_byte(alloc, row)?
            && fails_at_each_read(alloc, row)?
            && fails_at_its_line(alloc, row)?,
    )
}

/// Whether out has a beginning of what the row has there, with the row's status and nothing on err, where the input ends
/// after each of its bytes.
pub(crate) fn holds_at_each_end(alloc: Global, row: &Row) -> Result<bool, AllocError> {
    for length in 0..row.text().len() {
        let streams = Streams {
            length,
            ..row.sound_streams()
        };
        let said = row.call(alloc, &streams)?;
        let begins = row.trace().starts_with(said.out.bytes());
        if !begins || said.status != row.wanted().status || !said.err.bytes().is_empty() {
            return Ok(false);
        }
    }
    Ok(true)
}
