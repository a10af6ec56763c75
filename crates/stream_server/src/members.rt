//! The numbers of the connections that a server has a place for.
ghost use Rattle.std.specs.Prelude.{◌≡◌, ℕ, ◌+◌, List, [], ◌∷◌, ◌++◌, length, OnErr, OnOk, Some, slice_get};
ghost use Rattle.std.specs.List.{Contains};
ghost use Rattle.item_places.specs.Items.{without_number};
ghost use Rattle.stream_server.specs.Members.{AreBelow, IsRising};

use std::alloc::{AllocError, Global};
use std::marker::Model;

/// The numbers of the connections that were admitted and not yet released, in order of admission.
///
/// Each is above those before it, so that one is found by a binary search.
#[derive(Drop)]
pub(crate) struct Members {
    numbers: Vec<u32>,
}

impl Model for Members {
    ghost use Rattle.std.specs.Prelude.{ℕ, List};

    ghost Value = { List ℕ };

    ghost view = { λ members. members.numbers.items };

    ghost use Rattle.stream_server.specs.Members.{IsRising};

    ghost invariant = { λ members. IsRising members.numbers.items };
}

/// Where the number stands, by a binary search.
fn place_of(numbers: &[u32], conn: u32) -> usize
    requires rising { IsRising numbers.now }
    requires there { Contains numbers.now conn }
    ensures { slice_get numbers.now result ≡ Some conn }
{
    match numbers.binary_search(&conn) {
        Ok(at) => at,
        // The requires say that the number is there, and the list in order.
        Err(_) => unreachable!(),
    }
}

/// A number more, behind all others. Without memory nothing is changed.
fn push_number(numbers: &mut Vec<u32>, conn: u32) -> Result<(), AllocError>
    ensures ok { OnOk result (numbers.new.items ≡ numbers.old.items ++ conn ∷ []) }
    ensures err { OnErr result (numbers.new.items ≡ numbers.old.items) }
{
    match numbers.push(conn) {
        Ok(()) => Ok(()),
        Err(_) => Err(AllocError),
    }
}

impl Members {
    /// Nobody is a member.
    pub(crate) fn new(alloc: Global) -> Self
        ensures { result ≡ [] }
    {
        Members {
            numbers: Vec::new(alloc),
        }
    }

    /// How many they are; O(1).
    pub(crate) fn len(&self) -> usize
        ensures { result ≡ length self.now }
    {
        self.numbers.len()
    }

    /// One more, behind all others; O(1). Without memory nothing is changed.
    pub(crate) fn admit(&mut self, conn: u32) -> Result<(), AllocError>
        requires { AreBelow conn self.old }
        ensures ok { OnOk result (self.new ≡ self.old ++ conn ∷ []) }
        ensures err { OnErr result (self.new ≡ self.old) }
    {
        push_number(&mut self.numbers, conn)?;
        Ok(())
    }

    /// A member leaves; O(log n) to find it, and one move of those behind it.
    pub(crate) fn release(&mut self, conn: u32)
        requires { Contains self.old conn }
        ensures is { self.new ≡ without_number conn self.old }
        ensures fewer { length self.new + 1 ≡ length self.old }
    {
        let at = place_of(&self.numbers, conn);
        self.numbers.remove(at);
    }
}
