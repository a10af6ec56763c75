//! The bytes that went over a stream. Only clauses read it: it takes no memory, and its calls do nothing.
ghost use Rattle.std.specs.Prelude.{◌≡◌, ℕ, List, [], ◌++◌};
ghost use Rattle.std.specs.Borrow.{ftrue};

use std::marker::Model;

/// The bytes, in order.
#[derive(Drop)]
pub(crate) struct Tape {
    ghost bytes: { List ℕ },
}

impl Model for Tape {
    ghost also_owns = { λ _. ftrue };
}

/// Some bytes more.
#[derive(Clone, Copy, Drop)]
pub(crate) struct Piece<'a> {
    /// The bytes.
    pub(crate) bytes: &'a [u8],
}

impl Tape {
    /// No bytes.
    pub(crate) fn none() -> Tape
        ensures { result.bytes ≡ [] }
    {
        Tape {}
    }

    /// The same, and these.
    pub(crate) fn and(&self, _piece: &Piece) -> Tape
        ensures { result.bytes ≡ self.now.bytes ++ _piece.now.bytes.now }
    {
        Tape {}
    }
}
