//! A count that only clauses read. It takes no memory, and its calls do nothing.
ghost use Rattle.std.specs.Prelude.{◌≡◌, ◌+◌, ℕ};
ghost use Rattle.std.specs.Borrow.{ftrue};

use std::marker::Model;

/// How many requests of a connection were answered.
#[derive(Drop)]
pub(crate) struct Answered {
    ghost count: { ℕ },
}

impl Model for Answered {
    ghost also_owns = { λ _. ftrue };
}

impl Answered {
    /// None.
    pub(crate) fn none() -> Answered
        ensures { result.count ≡ 0 }
    {
        Answered {}
    }

    /// One more.
    pub(crate) fn and_one(&self) -> Answered
        ensures { result.count ≡ self.now.count + 1 }
    {
        Answered {}
    }
}
