//! The edge to a writer of the standard library.
//!
//! Trusted: which bytes the writer gets, and when. The clauses say only how the count of faults goes, so a body that
//! dropped all bytes would meet them too.
ghost use Rattle.std.specs.Prelude.{◌≡◌, ◌≤◌, OnOk, OnErr};
ghost use Rattle.gv_values.specs.Counts.{HasRisen};

use crate::count::one_more;
use crate::sink::Sink;
use crate::source::Failed;
use std::alloc::{AllocError, Global};
use std::io::Write;

/// A sink over a writer of the standard library, behind a buffer that `flush` empties. It tells no bytes. Once it
/// has failed, every later call fails and writes nothing, so that what came out stays a prefix of what was written.
#[derive(Debug, Drop)]
pub struct StdSink<W> {
    writer: W,
    buffer: Vec<u8>,
    is_broken: bool,
    faults: u64,
}

impl<W: Write> StdSink<W> {
    /// A sink over this writer whose buffer holds at least so many bytes. It takes its memory here.
    pub fn new(alloc: Global, writer: W, capacity: usize) -> Result<StdSink<W>, AllocError>
    where
        W: Drop,
    {
        Ok(StdSink {
            buffer: Vec::with_capacity(alloc, capacity)?,
            writer,
            is_broken: false,
            faults: 0,
        })
    }

    /// Writes the bytes behind those of the buffer; whether that went well.
    fn put(&mut self, bytes: &[u8]) -> bool
        ensures { self.new.faults ≡ self.old.faults }
    {
        if self.is_broken {
            return false;
        }
        if bytes.len() <= self.buffer.capacity() - self.buffer.len() {
            return self.buffer.extend_from_slice(bytes).is_ok();
        }
        self.empty() && self.writer.write_all(bytes).is_ok()
    }

    /// Writes out the buffer; whether that went well.
    fn empty(&mut self) -> bool
        ensures { self.new.faults ≡ self.old.faults }
    {
        if self.is_broken || self.writer.write_all(self.buffer.as_slice()).is_err() {
            return false;
        }
        self.buffer.clear();
        true
    }

    fn counted(&mut self, went_well: bool) -> Result<(), Failed>
        ensures never_falls { self.old.faults ≤ self.new.faults }
        ensures failed { OnErr result (HasRisen self.old.faults self.new.faults) }
        ensures unfailed { OnOk result (self.new.faults ≡ self.old.faults) }
    {
        if went_well {
            return Ok(());
        }
        self.is_broken = true;
        self.faults = one_more(self.faults);
        Err(Failed)
    }
}

impl<W: Write> Sink for StdSink<W> {
    ghost use Rattle.std.specs.Prelude.{None};

    ghost written = { λ _. None };

    ghost handed = { λ _. None };

    ghost faults = { λ s. s.faults };

    #[tactic(auto, using(crate::proofs::StreamLaws::untold))]
    fn write_all(&mut self, bytes: &[u8]) -> Result<(), Failed> {
        let went_well = self.put(bytes);
        self.counted(went_well)
    }

    #[tactic(auto, using(crate::proofs::StreamLaws::untold))]
    fn flush(&mut self) -> Result<(), Failed> {
        let went_well = self.empty() && self.writer.flush().is_ok();
        self.counted(went_well)
    }
}
