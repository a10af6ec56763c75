//! A text that only clauses read. It takes no memory, and its calls do nothing.
ghost use Rattle.std.specs.Prelude.{◌≡◌, ℕ, List, [], ◌++◌};
ghost use Rattle.std.specs.Borrow.{ftrue};

use std::marker::Model;

/// The bytes that were told, one piece after another.
#[derive(Drop)]
pub(crate) struct Told {
    ghost text: { List ℕ },
}

impl Model for Told {
    ghost also_owns = { λ _. ftrue };
}

/// A piece of a text.
#[derive(Clone, Copy, Drop)]
pub(crate) struct Piece<'a> {
    pub(crate) bytes: &'a [u8],
}

impl Told {
    /// No bytes.
    pub(crate) fn nothing() -> Told
        ensures { result.text ≡ [] }
    {
        Told {}
    }

    /// These bytes, and then those of the piece.
    pub(crate) fn and(&self, _piece: &Piece) -> Told
        ensures { result.text ≡ self.now.text ++ _piece.now.bytes.now }
    {
        Told {}
    }
}
