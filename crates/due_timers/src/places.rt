//! The places of items in the heap, in a table by item.
//!
//! Items are small numbers: the table takes four bytes for each number up to the greatest, and no search.
ghost use Rattle.std.specs.Prelude.{◌≡◌, ℕ, ◌<◌, ◌≤◌, [], length, slice_index_or, IsOk, OnOk, OnErr};
ghost use Rattle.due_timers.specs.Places.{Loses, Moves};

use crate::limits::MOST_TIMERS;
use std::alloc::{AllocError, Global};
use std::marker::Model;

/// The place of each item that has one.
#[derive(Drop)]
pub struct Places {
    // By item.
    table: Vec<u32>,
}

impl Model for Places {
    ghost use Rattle.std.specs.Prelude.{ℕ, List};

    ghost Value = { List ℕ };

    ghost view = { λ p. p.table.items };
}

impl Places {
    /// No item has a place.
    pub fn new(alloc: Global) -> Self
        ensures { result ≡ [] }
    {
        Places {
            table: Vec::new(alloc),
        }
    }

    /// Makes room for the items below this number.
    pub fn reserve(&mut self, reach: usize) -> Result<(), AllocError>
        ensures same { (q : ℕ) → slice_index_or self.new q MOST_TIMERS ≡ slice_index_or self.old q MOST_TIMERS }
        ensures longer { length self.old ≤ length self.new }
        ensures room { OnOk result (reach ≤ length self.new) }
        ensures had_room { reach ≤ length self.old → IsOk result }
        ensures err { OnErr result (self.new ≡ self.old) }
    {
        if self.table.len() < reach {
            self.table.resize(reach, MOST_TIMERS)?;
        }
        Ok(())
    }

    /// What the table says of an item.
    pub fn at(&self, item: u32) -> usize
        requires { item < length self.now }
        ensures { result ≡ slice_index_or self.now item MOST_TIMERS }
    {
        self.table[item as usize] as usize
    }

    /// Gives an item this place.
    pub fn set(&mut self, item: u32, place: usize)
        requires within { item < length self.old }
        requires place { place < MOST_TIMERS }
        ensures moves { Moves self.old self.new item place }
        ensures reach { length self.new ≡ length self.old }
    {
        self.table[item as usize] = place as u32;
    }

    /// Takes an item's place from it.
    pub fn remove(&mut self, item: u32)
        requires { item < length self.old }
        ensures loses { Loses self.old self.new item }
        ensures reach { length self.new ≡ length self.old }
    {
        self.table[item as usize] = MOST_TIMERS;
    }
}
