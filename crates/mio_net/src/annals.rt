//! What became of dialled streams. Only clauses read it: it takes no memory, and its calls do nothing.
ghost use Rattle.std.specs.Prelude.{◌≡◌, []};
ghost use Rattle.std.specs.Borrow.{ftrue};
ghost use Rattle.mio_net.specs.Annals.{DialNotes, noted};

use std::marker::Model;
use stream_net::{ReadEnd, WriteEnd};

/// What was noted, in order.
#[derive(Drop)]
pub(crate) struct Annals {
    ghost notes: { DialNotes },
}

impl Model for Annals {
    ghost also_owns = { λ _. ftrue };
}

/// What was done to the stream in a slot, and at which moment.
#[derive(Clone, Copy, Drop)]
pub(crate) enum Deed<'a> {
    /// It was opened.
    Opened {
        slot: usize,
        moment: u64,
    },
    /// It was read, with this end, into the front of this buffer.
    WasRead {
        slot: usize,
        end: ReadEnd,
        bytes: &'a [u8],
        moment: u64,
    },
    /// The front of two pieces, one behind the other, was written to it, with this end.
    WasWritten {
        slot: usize,
        end: WriteEnd,
        first: &'a [u8],
        second: &'a [u8],
        moment: u64,
    },
    /// It was closed.
    WasClosed {
        slot: usize,
        moment: u64,
    },
}

impl Annals {
    /// Nothing was done.
    pub(crate) fn none() -> Annals
        ensures { result.notes ≡ record { streams = []; opened = []; slots = [] } }
    {
        Annals {}
    }

    /// The same, and this.
    pub(crate) fn and(&self, _deed: &Deed) -> Annals
        ensures { result.notes ≡ noted _deed.now self.now.notes }
    {
        Annals {}
    }
}
