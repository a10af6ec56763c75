//! The call over streams in memory, and what it leaves.
ghost use Rattle.std.specs.Prelude.{◌≡◌, false};

use gv_io::{MemorySink, MemorySource, Sink, Source};
use gv_top::offline;
use std::alloc::{AllocError, Global};
use world::{ScriptWorld, World};
use wsgi_core::ShippedApp;

/// In the place of a status where the words want a net.
pub(crate) const LEFT_TO_A_NET: u8 = 255;

pub(crate) const PRINTS_ONE: &[u8] = b"def main\nprint 1\nend\n";

/// The trace of that text.
pub(crate) const PRINTED_ONE: &[u8] =
    b"start g0 main\nprint g0 1\nend g0 value none\nstop value none turns 0 moves 1\n";

/// A call, and what it leaves.
#[derive(Clone, Copy)]
pub(crate) struct Row<'a> {
    /// What a test that finds another says of it.
    pub(crate) name: &'a str,
    /// The words, which blanks part.
    pub(crate) words: &'a str,
    pub(crate) input: &'a [u8],
    /// How many bytes the input gives at a time.
    pub(crate) piece: usize,
    /// Which of its reads fail.
    pub(crate) failing: &'a [u64],
    /// How many bytes out takes.
    pub(crate) room: usize,
    /// How many bytes err takes.
    pub(crate) err_room: usize,
    pub(crate) status: u8,
    pub(crate) out: &'a [u8],
    pub(crate) err: &'a [u8],
}

/// The words of a line, which blanks part.
pub(crate) fn words_of(alloc: Global, line: &str) -> Result<Vec<String>, AllocError> {
    let mut words = Vec::new(alloc);
    for word in line.split_whitespace() {
        words.push(String::from_str(alloc, word)?)?;
    }
    Ok(words)
}

/// Calls with the words of a line. The status.
pub(crate) fn called<S: Source, K: Sink, E: Sink, W: World>(
    alloc: Global,
    line: &str,
    input: &mut S,
    out: &mut K,
    err: &mut E,
    native: &mut W,
) -> Result<u8, AllocError>
    requires { (W.meaning native.old).runs ≡ false }
{
    let words = words_of(alloc, line)?;
    let status = offline(
        alloc,
        words.as_slice(),
        input,
        out,
        err,
        native,
        &ShippedApp,
    );
    Ok(status.unwrap_or(LEFT_TO_A_NET))
}

/// The input of a row.
pub(crate) fn source_of(alloc: Global, row: &Row) -> Result<MemorySource, AllocError> {
    let failing = Vec::from_slice(alloc, row.failing)?;
    let bytes = Vec::from_slice(alloc, row.input)?;
    Ok(MemorySource::new(bytes, row.piece.max(1), failing))
}

/// Whether the call of a row, over this err and this world, has the status of the row and leaves its out.
pub(crate) fn ends_over<E: Sink, W: World>(
    alloc: Global,
    row: &Row,
    err: &mut E,
    native: &mut W,
) -> Result<bool, AllocError>
    requires { (W.meaning native.old).runs ≡ false }
{
    let mut out = MemorySink::new(alloc, row.room)?;
    let mut input = source_of(alloc, row)?;
    let status = called(alloc, row.words, &mut input, &mut out, err, native);
    Ok(status == Ok(row.status) && out.bytes() == row.out)
}

/// Whether the call of a row, over this world, leaves what the row has.
fn holds_over<W: World>(alloc: Global, row: &Row, native: &mut W) -> Result<bool, AllocError>
    requires { (W.meaning native.old).runs ≡ false }
{
    let mut err = MemorySink::new(alloc, row.err_room)?;
    let ends = ends_over(alloc, row, &mut err, native);
    Ok(ends == Ok(true) && err.bytes() == row.err)
}

/// Whether the call of a row, over this world, leaves what the row has. The world is given up.
pub(crate) fn holds_in<W: World + Drop>(
    alloc: Global,
    row: &Row,
    world: W,
) -> Result<bool, AllocError>
    requires { (W.meaning world).runs ≡ false }
{
    let mut native = world;
    holds_over(alloc, row, &mut native)
}

/// Whether the call of a row leaves what the row has.
pub(crate) fn holds(alloc: Global, row: &Row) -> Result<bool, AllocError> {
    holds_in(alloc, row, ScriptWorld::new(alloc, 0))
}

/// Whether these words answer the input so, in pieces of each of these sizes, and end well.
pub(crate) fn is_answered(
    alloc: Global,
    words: &str,
    input: &[u8],
    pieces: &[usize],
    answer: &[u8],
) -> bool {
    for piece in pieces {
        let row = Row {
            name: "",
            words,
            input,
            piece: *piece,
            failing: &[],
            room: 1000,
            err_room: 1000,
            status: 0,
            out: answer,
            err: b"",
        };
        if holds(alloc, &row) != Ok(true) {
            return false;
        }
    }
    true
}

/// Appends the text with so many times `unit` behind it, and then `back`.
pub(crate) fn push_padded(
    bytes: &mut Vec<u8>,
    front: &[u8],
    unit: u8,
    count: usize,
    back: &[u8],
) -> Result<(), AllocError> {
    bytes.extend_from_slice(front)?;
    for _ in 0..count {
        bytes.push(unit)?;
    }
    bytes.extend_from_slice(back)
}

/// The text with so many times `unit` behind it, and then `back`.
pub(crate) fn padded(
    alloc: Global,
    front: &[u8],
    unit: u8,
    count: usize,
    back: &[u8],
) -> Result<Vec<u8>, AllocError> {
    let mut bytes = Vec::new(alloc);
    push_padded(&mut bytes, front, unit, count, back)?;
    Ok(bytes)
}
