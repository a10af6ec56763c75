//! The line of the items that have a ready number.
ghost use Rattle.std.specs.Prelude.{◌≡◌, ℕ, ◌+◌, ◌^◌, ◌<◌, ◌==◌, Option, Some, None, is_some, true, OnOk, if◌then◌else◌};
ghost use Rattle.slot_chains.specs.Chained.{first_of};
ghost use Rattle.item_places.specs.Items.{items_of};
ghost use Rattle.held_items.specs.declared.limits.TheConstants.{MOST_HELD};
ghost use Rattle.held_items.specs.Due.{IsDueLine, HasDueRoom};

use slot_chains::Chains;
use std::alloc::{AllocError, Global};

/// The slots of the items with a number, the least number first. The items have the numbers, which only grow.
#[derive(Drop)]
pub struct DueLine {
    /// One chain, whose key is 0.
    pub order: Chains,
    /// The next number.
    pub next: u64,
}

impl DueLine {
    /// No slot has a number.
    pub fn new(alloc: Global) -> Self
        ensures line { (m : ℕ → Option ℕ) → ((q : ℕ) → m q ≡ None) → IsDueLine result m }
        ensures next { result.next ≡ 0 }
    {
        DueLine {
            order: Chains::new(alloc),
            next: 0,
        }
    }

    /// Makes room for the slot. `AllocError`: memory is wanting.
    pub fn reserve(&mut self, slot: u32) -> Result<(), AllocError>
        requires { slot < MOST_HELD }
        ensures room { OnOk result (HasDueRoom self.new slot) }
        ensures kept { (q : ℕ) → HasDueRoom self.old q → HasDueRoom self.new q }
        ensures line { (m : ℕ → Option ℕ) → IsDueLine self.old m → IsDueLine self.new m }
        ensures next { self.new.next ≡ self.old.next }
    {
        self.order.reserve(slot as usize + 1, 1)?;
        Ok(())
    }

    /// Gives the slot the next number, so that it stands behind all others.
    pub fn ready(&mut self, slot: u32)
        requires room { HasDueRoom self.old slot }
        requires count { self.old.next < 2 ^ 63 }
        ensures line { (m n : ℕ → Option ℕ) → IsDueLine self.old m → m slot ≡ None → ((p : ℕ) → n p ≡ (if slot == p then Some self.old.next else m p)) → IsDueLine self.new n }
        ensures kept { (q : ℕ) → HasDueRoom self.old q → HasDueRoom self.new q }
        ensures next { self.new.next ≡ self.old.next + 1 }
    {
        self.order.push(0, slot);
        self.next += 1;
    }

    /// Takes the slot's number from it. The others keep theirs.
    pub fn unready(&mut self, slot: u32)
        requires { (m : ℕ → Option ℕ) × IsDueLine self.old m × (is_some (m slot) ≡ true) }
        ensures line { (m n : ℕ → Option ℕ) → IsDueLine self.old m → is_some (m slot) ≡ true → ((p : ℕ) → n p ≡ (if slot == p then None else m p)) → IsDueLine self.new n }
        ensures kept { (q : ℕ) → HasDueRoom self.old q → HasDueRoom self.new q }
        ensures next { self.new.next ≡ self.old.next }
    {
        self.order.remove(0, slot);
    }

    /// The slot of the least number.
    pub fn first(&self) -> Option<u32>
        ensures { (m : ℕ → Option ℕ) (is : IsDueLine self.now m) → result ≡ first_of (items_of is.line) None }
    {
        self.order.first(0)
    }
}
