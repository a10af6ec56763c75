//! What a program of a page reads.

use gv_io::{Failed, MOST_PIECE, MemorySource, Source};
use std::alloc::Global;

/// A text in memory as a source, of which no read fails.
#[derive(Drop)]
pub(crate) struct PageSource {
    source: MemorySource,
    ghost unfailing: { source.failing ≡ [] },
}

ghost use Rattle.std.specs.Prelude.{◌≡◌, Some, []};

impl PageSource {
    /// A source of this text.
    pub(crate) fn new(alloc: Global, text: Vec<u8>) -> PageSource
        ensures { result.source.left ≡ text.items }
    {
        PageSource {
            source: MemorySource::new(text, MOST_PIECE, Vec::new(alloc)),
        }
    }
}

impl Source for PageSource {
    ghost remaining = { λ s. Some s.source.left };

    ghost faults = { λ _. 0 };

    fn read(&mut self, buf: &mut [u8]) -> Result<usize, Failed> {
        self.source.read(buf)
    }
}
