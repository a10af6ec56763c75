//! Where a program of a page writes.

use gv_io::{Failed, MemorySink, Sink};
use std::alloc::{AllocError, Global};
use std::marker::Model;

/// A sink in memory, which takes so many bytes in all, and is full where a write failed.
#[derive(Debug, Drop)]
pub struct PageSink {
    sink: MemorySink,
    room: usize,
}

impl Model for PageSink {
    ghost use Rattle.gv_io.specs.Memory.{SinkState};
    ghost use Rattle.page_answer.specs.Page.{IsFullWhereFailed};
    ghost use Rattle.std.specs.Prelude.{◌≡◌};

    ghost Value = { SinkState };

    ghost view = { λ s. s.sink };

    ghost invariant = { λ s. (s.room ≡ s.sink.room) × IsFullWhereFailed s.sink };
}

impl PageSink {
    ghost use Rattle.std.specs.Prelude.{◌≡◌, [], ◌≤◌, length, IfOk};
    ghost use Rattle.page_answer.specs.Page.{IsFullWhereFailed};

    /// A sink that takes so many bytes. It takes its memory here.
    pub fn new(alloc: Global, room: usize) -> Result<PageSink, AllocError>
        ensures { IfOk result (λ sink. sink ≡ record { bytes = []; room = room; faults = 0 }) }
    {
        let sink = MemorySink::new(alloc, room)?;
        Ok(PageSink { sink, room })
    }

    /// How many bytes it takes.
    pub fn room(&self) -> usize
        ensures { result ≡ self.now.room }
    {
        self.room
    }

    /// The bytes that were written.
    pub fn bytes(&self) -> &[u8]
        ensures same { result.now ≡ self.now.bytes }
        ensures room { length self.now.bytes ≤ self.now.room }
        ensures full { IsFullWhereFailed self.now }
    {
        self.sink.bytes()
    }
}

impl Sink for PageSink {
    ghost use Rattle.std.specs.Prelude.{Some};

    ghost written = { λ s. Some s.bytes };

    ghost handed = { λ s. Some s.bytes };

    ghost faults = { λ s. s.faults };

    fn write_all(&mut self, bytes: &[u8]) -> Result<(), Failed> {
        self.sink.write_all(bytes)
    }

    fn flush(&mut self) -> Result<(), Failed> {
        self.sink.flush()
    }
}
