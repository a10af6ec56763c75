//! The set.
ghost use Rattle.std.specs.Prelude.{◌≡◌, ℕ, ◌<◌, ◌≤◌, [], false, length, slice_index_or, vec_capacity, OnOk};
ghost use Rattle.item_places.specs.Items.{Differ};
ghost use Rattle.number_set.specs.Sets.{inserted, no_numbers};
ghost use Rattle.number_set.specs.SetParts.{AreMarked};

use std::alloc::{AllocError, Global};
use std::marker::Model;

/// Numbers, each at most once, in the order in which they came. What is in it is below its room.
#[derive(Drop)]
pub struct NumberSet {
    // By number: whether it is in the set.
    is_in: Vec<bool>,
    list: Vec<u32>,
}

impl Model for NumberSet {
    ghost use Rattle.std.specs.Prelude.{length};
    ghost use Rattle.number_set.specs.Sets.{SeenSet};
    ghost use Rattle.number_set.specs.SetParts.{IsSound};

    ghost Value = { SeenSet };

    ghost view = { λ s. record { list = s.list.items; room = length s.is_in.items } };

    ghost invariant = { IsSound };
}

/// Empties the list, and takes the mark of each of its numbers away.
fn unmark(is_in: &mut Vec<bool>, list: &mut Vec<u32>)
    requires { AreMarked is_in.old.items list.old.items }
    ensures marked { AreMarked is_in.new.items [] }
    ensures empty { list.new.items ≡ [] }
    ensures room { length is_in.new.items ≡ length is_in.old.items }
    ensures capacity { vec_capacity list.new ≡ vec_capacity list.old }
{
    while let Some(number) = list.pop() {
        is_in[number as usize] = false;
    }
}

impl NumberSet {
    /// No number, and room for none.
    pub fn new(alloc: Global) -> Self
        ensures { result ≡ no_numbers }
    {
        NumberSet {
            is_in: Vec::new(alloc),
            list: Vec::new(alloc),
        }
    }

    /// Makes room for the numbers below this one. `AllocError`: memory is wanting; what is in the set stays.
    pub fn reserve(&mut self, n: usize) -> Result<(), AllocError>
        ensures list { self.new.list ≡ self.old.list }
        ensures longer { self.old.room ≤ self.new.room }
        ensures room { OnOk result (n ≤ self.new.room) }
    {
        if self.is_in.len() < n {
            self.list.reserve(n - self.list.len())?;
            self.is_in.resize(n, false)?;
        }
        Ok(())
    }

    /// Puts a number in, where it is not in yet. Takes no memory.
    pub fn insert(&mut self, number: u32)
        requires { number < self.old.room }
        ensures { self.new ≡ record self.old { list = inserted number self.old.list } }
    {
        if !self.is_in[number as usize] {
            self.is_in[number as usize] = true;
            self.list.push_reserved(number);
        }
    }

    /// The numbers in the order in which they came.
    pub fn as_slice(&self) -> &[u32]
        ensures list { result.now ≡ self.now.list }
        ensures differ { Differ self.now.list }
    {
        &self.list
    }

    /// The numbers below this one have a place.
    pub fn room(&self) -> usize
        ensures { result ≡ self.now.room }
    {
        self.is_in.len()
    }

    /// Takes all numbers out, in the time of those that are in, whatever the room is.
    pub fn clear(&mut self)
        ensures { self.new ≡ record self.old { list = [] } }
    {
        unmark(&mut self.is_in, &mut self.list);
    }
}
