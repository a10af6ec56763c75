//! Bodies.
ghost use Rattle.std.specs.Prelude.{◌≡◌, ◌<◌, ◌≤◌, ◌+◌, ◌∷◌, [], ℕ, length, take, drop, option_map, IfOk};
ghost use Rattle.std.specs.Str.{bytes_eq};
ghost use Rattle.httparse.specs.Grammar.{chunk_size};
ghost use Rattle.http_messages.specs.Body.{chunk_line};
ghost use Rattle.http_messages.specs.AwaitedBody.{awaited_by};
ghost use Rattle.http_messages.specs.Readings.{FindsBody, StepsBody};

use crate::found::{BodyFound, BodyStep};
use crate::limits::{MOST_BODY, MOST_CHUNK_LINE, MOST_TRAILERS};
use crate::queue::ByteQueue;
use crate::refusal::Refusal;
use crate::request::{AwaitedBody, Bytes, Framing};
use crate::sequence::Sequence;
use httparse::{Status, parse_chunk_size};
use std::alloc::{AllocError, Global};

/// The body before its first byte.
pub fn awaited_by(alloc: Global, framing: Framing) -> AwaitedBody
    ensures { result ≡ awaited_by framing }
{
    match framing {
        Framing::Sized(n) => AwaitedBody::Counted(n),
        Framing::Chunked => AwaitedBody::InChunks(Sequence::new(alloc)),
    }
}

/// The size that this line tells, if it is wholly a chunk line.
fn read_chunk_line(line: &[u8]) -> Option<u64>
    ensures { result ≡ option_map chunk_size (chunk_line line.now) }
{
    match parse_chunk_size(line) {
        Ok(Status::Complete(found)) => {
            if found.0 == line.len() {
                Some(found.1)
            } else {
                None
            }
        }
        Ok(Status::Partial) => None,
        Err(_) => None,
    }
}

/// Reads a body of `size` bytes.
fn read_counted(alloc: Global, size: usize, kept: &mut ByteQueue) -> Result<BodyFound, AllocError>
    ensures { IfOk result (λ found. FindsBody (AwaitedBody.Counted size) found kept.old kept.new) }
{
    if kept.len() < size {
        kept.reserve(size)?;
        return Ok(BodyFound::BodyWaits(AwaitedBody::Counted(size)));
    }
    Ok(BodyFound::BodyWhole(kept.take_front(alloc, size)?))
}

/// Reads the line of the next chunk, after the chunks that came.
fn read_size(body: Bytes, kept: &mut ByteQueue) -> BodyStep
    ensures { StepsBody (AwaitedBody.InChunks body) result kept.old kept.new }
{
    let Some(end) = kept.line_end(MOST_CHUNK_LINE) else {
        return if kept.len() < MOST_CHUNK_LINE {
            BodyStep::Stops(BodyFound::BodyWaits(AwaitedBody::InChunks(body)))
        } else {
            BodyStep::Stops(BodyFound::BodyRefused(Refusal::BadRequest))
        };
    };
    let Some(size) = read_chunk_line(&kept.items()[..end]) else {
        return BodyStep::Stops(BodyFound::BodyRefused(Refusal::BadRequest));
    };
    if size.saturating_add(body.len() as u64) > MOST_BODY as u64 {
        return BodyStep::Stops(BodyFound::BodyRefused(Refusal::TooLarge));
    }
    kept.skip(end);
    if size == 0 {
        BodyStep::GoesOn(AwaitedBody::InTrailers(body))
    } else {
        BodyStep::GoesOn(AwaitedBody::InChunk(body, size as usize))
    }
}

/// Whether a line end stands after the first `size` bytes.
fn is_ended(bytes: &[u8], size: usize) -> bool
    requires { size + 2 ≤ length bytes.now }
    ensures { result ≡ bytes_eq (take 2 (drop size bytes.now)) (13 ∷ 10 ∷ []) }
{
    bytes[size] == b'\r' && bytes[size + 1] == b'\n'
}

/// Reads a chunk of `size` bytes with its line end, after the chunks that came.
fn read_chunk(mut body: Bytes, size: usize, kept: &mut ByteQueue) -> Result<BodyStep, AllocError>
    ensures { IfOk result (λ step. StepsBody (AwaitedBody.InChunk body size) step kept.old kept.new) }
{
    if kept.len() < 2 || kept.len() - 2 < size {
        return Ok(BodyStep::Stops(BodyFound::BodyWaits(AwaitedBody::InChunk(body, size))));
    }
    let bytes = kept.items();
    if !is_ended(bytes, size) {
        return Ok(BodyStep::Stops(BodyFound::BodyRefused(Refusal::BadRequest)));
    }
    body.extend_from_slice(&bytes[..size])?;
    kept.skip(size + 2);
    Ok(BodyStep::GoesOn(AwaitedBody::InChunks(body)))
}

/// Drops the lines after the last chunk.
fn read_trailers(body: Bytes, kept: &mut ByteQueue) -> BodyFound
    ensures { FindsBody (AwaitedBody.InTrailers body) result kept.old kept.new }
{
    let Some(end) = kept.empty_line_end(MOST_TRAILERS) else {
        return if kept.len() < MOST_TRAILERS {
            BodyFound::BodyWaits(AwaitedBody::InTrailers(body))
        } else {
            BodyFound::BodyRefused(Refusal::BadRequest)
        };
    };
    kept.skip(end);
    BodyFound::BodyWhole(body)
}

/// Reads the next part of what is left of a body.
fn read_part(
    alloc: Global,
    awaited: AwaitedBody,
    kept: &mut ByteQueue,
) -> Result<BodyStep, AllocError>
    ensures { IfOk result (λ step. StepsBody awaited step kept.old kept.new) }
{
    match awaited {
        AwaitedBody::Counted(size) => Ok(BodyStep::Stops(read_counted(alloc, size, kept)?)),
        AwaitedBody::InChunks(body) => Ok(read_size(body, kept)),
        AwaitedBody::InChunk(body, size) => read_chunk(body, size, kept),
        AwaitedBody::InTrailers(body) => Ok(BodyStep::Stops(read_trailers(body, kept))),
    }
}

/// Reads what is left of a body, by its length (RFC 9112, section 6.2) or by chunks (section 7.1), and takes the bytes
/// that it read.
pub fn read_body(
    alloc: Global,
    awaited: AwaitedBody,
    kept: &mut ByteQueue,
) -> Result<BodyFound, AllocError>
    ensures { IfOk result (λ found. FindsBody awaited found kept.old kept.new) }
{
    let mut left = awaited;
    loop {
        match read_part(alloc, left, kept)? {
            BodyStep::Stops(found) => return Ok(found),
            BodyStep::GoesOn(next) => left = next,
        }
    }
}
