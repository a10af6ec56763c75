//! Bytes read to their end, and bytes written.
#![tactic(auto)]

ghost use Rattle.std.specs.Prelude.{◌≡◌, IfOk};

use gv_io::{
    Failed, MemorySink, MemorySource, ReadRefusal, Sink, Source, StdSink, StdSource, read_limited,
};
use std::alloc::{AllocError, Global};
use std::io;
use std::io::{Cursor, ErrorKind, Read};
use std::test::Fail;

fn source(alloc: Global, failing: &[u64]) -> Result<MemorySource, AllocError>
    ensures { IfOk result (λ s. s.piece ≡ 4) }
{
    let bytes = Vec::from_slice(alloc, b"def main")?;
    Ok(MemorySource::new(bytes, 4, failing.to_vec(alloc)?))
}

/// How many bytes may be read, and how many of the eight are.
const LIMITS: &[(usize, usize)] = &[(0, 1), (6, 7), (7, 8), (8, 8), (1048576, 8)];

/// Whether so many bytes are read under this limit.
fn reads(alloc: Global, limit: usize, count: usize) -> Result<bool, AllocError> {
    let whole: &[u8] = b"def main";
    let mut from = source(alloc, &[])?;
    let read = read_limited(alloc, &mut from, limit);
    drop(from);
    match read {
        Ok(bytes) => Ok(Some(bytes.as_slice()) == whole.get(..count)),
        Err(_) => Ok(false),
    }
}

#[test]
fn reads_to_the_end_or_one_past_the_limit(rt: HostRuntime) {
    for (limit, count) in LIMITS {
        assert!(rt;
            reads(rt.alloc(), *limit, *count) == Ok(true),
            "limit {limit}"
        );
    }
}

/// Whether the second read of the source fails, and gives what is left behind that.
fn fails_once(alloc: Global, from: &mut MemorySource) -> bool {
    let mut rest = [0; 8];
    read_limited(alloc, from, 100).err() == Some(ReadRefusal::Fault)
        && from.read(&mut rest) == Ok(4)
        && from.read(&mut rest) == Ok(0)
}

#[test]
fn a_listed_read_fails(rt: HostRuntime) -> Result<(), Fail> {
    let mut from = source(rt.alloc(), &[1])?;
    assert!(rt; fails_once(rt.alloc(), &mut from));
    Ok(())
}

/// Whether a sink with room for six bytes takes four, and fails at four more.
fn fails_past_its_room(to: &mut MemorySink) -> bool {
    to.write_all(b"abcd") == Ok(())
        && to.write_all(b"efgh") == Err(Failed)
        && to.write_all(b"") == Ok(())
        && to.flush() == Ok(())
}

#[test]
fn a_sink_fails_past_its_room(rt: HostRuntime) -> Result<(), Fail> {
    let mut to = MemorySink::new(rt.alloc(), 6)?;
    assert!(rt; fails_past_its_room(&mut to));
    assert!(rt; to.bytes() == b"abcdef".as_slice());
    Ok(())
}

/// Whether a source over this reader of std gives the text to its end.
fn passes_on<R: Read + Drop>(alloc: Global, reader: R, text: &[u8]) -> bool {
    let mut from = StdSource::new(reader);
    let read = read_limited(alloc, &mut from, 100);
    drop(from);
    match read {
        Ok(bytes) => bytes.as_slice() == text,
        Err(_) => false,
    }
}

/// A reader of a text, three bytes at a time, that is interrupted at each second call.
#[derive(Drop)]
struct Interrupted<'a> {
    left: &'a [u8],
    is_second: bool,
}

impl Read for Interrupted<'_> {
    fn read(&mut self, buf: &mut [u8]) -> io::Result<usize> {
        self.is_second = !self.is_second;
        if self.is_second {
            return Err(ErrorKind::Interrupted.into());
        }
        let count = self.left.len().min(buf.len()).min(3);
        let (piece, left) = self.left.split_at(count);
        buf[..count].copy_from_slice(piece);
        self.left = left;
        Ok(count)
    }
}

#[test]
fn an_interrupted_read_is_tried_again(rt: HostRuntime) {
    let text: &[u8] = b"start g0 main";
    let reader = Interrupted {
        left: text,
        is_second: false,
    };
    assert!(rt; passes_on(rt.alloc(), reader, text));
}

/// Whether a sink over std that keeps back four bytes passes five on, and fails for good at the sixth.
fn sink_passes_on(alloc: Global) -> Result<bool, AllocError> {
    let mut small = [0; 5];
    let mut to = StdSink::new(alloc, &mut small[..], 4)?;
    Ok(
        to.write_all(b"abc") == Ok(())
            && to.write_all(b"de") == Ok(())
            && to.flush() == Ok(())
            && to.write_all(b"f") == Ok(())
            && to.flush() == Err(Failed)
            && to.write_all(b"g") == Err(Failed),
    )
}

#[test]
fn std_ends_pass_bytes_on(rt: HostRuntime) {
    let text: &[u8] = b"start g0 main";
    assert!(rt; passes_on(rt.alloc(), Cursor::new(text), text));
    assert!(rt; sink_passes_on(rt.alloc()) == Ok(true));
}
