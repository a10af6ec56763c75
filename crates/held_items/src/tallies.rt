//! How many wait for each thing, and how many of them have a ready number.
ghost use Rattle.std.specs.Prelude.{◌≡◌, ℕ, ◌+◌, ◌<◌, ◌≤◌, ◌^◌, true, List, [], ◌∷◌, ◌++◌, Some, None, is_some, slice_set, length, OnOk};
ghost use Rattle.item_places.specs.Items.{Differ};
ghost use Rattle.hub_items.specs.declared.waits.WaitKind.{WaitKind};
ghost use Rattle.held_items.specs.Entries.{Entry, item_in, slots_of, with_ready, without_slot};
ghost use Rattle.held_items.specs.Lined.{new_item, one_if};
ghost use Rattle.held_items.specs.Tallied.{AreTallied, HasTally, numbered_in_line, tally_at, waiting_in_line};
ghost use Rattle.held_items.specs.Waits.{waits_key};

use crate::held::HeldItems;
use crate::waits::{in_line, waits_key};
use hub_items::WaitKind;
use machine::items::{Delivery, Item};
use machine::ready::ReadyNumber;
use std::alloc::{AllocError, Global};

/// How many wait for one thing.
#[derive(Clone, Copy, Drop)]
pub struct Tally {
    pub waiting: u64,
    /// Those of them that have a ready number.
    pub numbered: u64,
}

const NO_TALLY: Tally = Tally {
    waiting: 0,
    numbered: 0,
};

/// How many wait for each thing.
#[derive(Drop)]
pub struct Tallies {
    /// By the key of what is waited for.
    pub table: Vec<Tally>,
}

/// 1 for a number.
fn one_if(number: &ReadyNumber) -> u64
    ensures { result ≡ one_if number.now }
{
    match number.place() {
        None => 0,
        Some(_) => 1,
    }
}

/// Fills the table up to this length, where it is shorter. `AllocError`: memory is wanting.
fn lengthen(table: &mut Vec<Tally>, len: usize) -> Result<(), AllocError>
    ensures same { (k : ℕ) → tally_at table.new.items k ≡ tally_at table.old.items k }
    ensures room { OnOk result (len ≤ length table.new.items) }
{
    if table.len() < len {
        table.resize(len, NO_TALLY)?;
    }
    Ok(())
}

impl Tallies {
    /// No item.
    pub fn new(alloc: Global) -> Self
        ensures { AreTallied result [] }
    {
        Tallies {
            table: Vec::new(alloc),
        }
    }

    /// The tally of this key.
    fn at(&self, key: usize) -> Tally
        ensures { result ≡ tally_at self.now.table.items key }
    {
        match self.table.get(key) {
            None => NO_TALLY,
            Some(tally) => *tally,
        }
    }

    /// The key has this tally now.
    fn set(&mut self, key: usize, tally: Tally)
        requires { key < length self.old.table.items }
        ensures { self.new.table.items ≡ slice_set self.old.table.items key tally }
    {
        self.table[key] = tally;
    }

    /// Makes room for one more item. `AllocError`: memory is wanting.
    pub fn reserve(&mut self, delivery: &Delivery) -> Result<(), AllocError>
        requires { (k : ℕ) → (tally_at self.old.table.items k).waiting + 1 < 2 ^ 64 }
        ensures room { OnOk result (HasTally self.new (waits_key delivery.now)) }
        ensures kept { (es : List Entry) → AreTallied self.old es → AreTallied self.new es }
    {
        let Some(key) = waits_key(delivery) else {
            return Ok(());
        };
        lengthen(&mut self.table, key + 1)?;
        Ok(())
    }

    /// One more item, which has no number.
    pub fn enter(&mut self, delivery: &Delivery)
        requires { HasTally self.old (waits_key delivery.now) }
        ensures { (q since : ℕ) (es : List Entry) → AreTallied self.old es → AreTallied self.new (es ++ (q, new_item since delivery.now) ∷ []) }
    {
        if let Some(key) = waits_key(delivery) {
            let tally = self.at(key);
            self.set(
                key,
                Tally {
                    waiting: tally.waiting + 1,
                    numbered: tally.numbered,
                },
            );
        }
    }

    /// One item less.
    pub fn leave(&mut self, item: &Item)
        requires { (q : ℕ) × (es : List Entry) × (item_in q es ≡ Some item.now) × Differ (slots_of es) × AreTallied self.old es }
        ensures { (q : ℕ) (es : List Entry) → item_in q es ≡ Some item.now → Differ (slots_of es) → AreTallied self.old es → AreTallied self.new (without_slot q es) }
    {
        if let Some(key) = waits_key(&item.delivery) {
            let tally = self.at(key);
            self.set(
                key,
                Tally {
                    waiting: tally.waiting - 1,
                    numbered: tally.numbered - one_if(&item.ready),
                },
            );
        }
    }

    /// The item, which has no number, gets one.
    pub fn number(&mut self, item: &Item)
        requires { (q : ℕ) × (es : List Entry) × (item_in q es ≡ Some item.now) × (item.now.ready ≡ None) × Differ (slots_of es) × AreTallied self.old es }
        ensures { (q n : ℕ) (es : List Entry) → item_in q es ≡ Some item.now → item.now.ready ≡ None → Differ (slots_of es) → AreTallied self.old es → AreTallied self.new (with_ready q (Some n) es) }
    {
        if let Some(key) = waits_key(&item.delivery) {
            let tally = self.at(key);
            self.set(
                key,
                Tally {
                    waiting: tally.waiting,
                    numbered: tally.numbered + 1,
                },
            );
        }
    }

    /// The item, which has a number, loses it.
    pub fn unnumber(&mut self, item: &Item)
        requires { (q : ℕ) × (es : List Entry) × (item_in q es ≡ Some item.now) × (is_some item.now.ready ≡ true) × Differ (slots_of es) × AreTallied self.old es }
        ensures { (q : ℕ) (es : List Entry) → item_in q es ≡ Some item.now → is_some item.now.ready ≡ true → Differ (slots_of es) → AreTallied self.old es → AreTallied self.new (with_ready q None es) }
    {
        if let Some(key) = waits_key(&item.delivery) {
            let tally = self.at(key);
            self.set(
                key,
                Tally {
                    waiting: tally.waiting,
                    numbered: tally.numbered - 1,
                },
            );
        }
    }

    /// How many wait in the line of this kind at this object, and how many of them have a number.
    pub fn in_line(&self, o: u32, kind: WaitKind) -> Tally
        ensures waiting { (es : List Entry) → AreTallied self.now es → result.waiting ≡ waiting_in_line kind o es }
        ensures numbered { (es : List Entry) → AreTallied self.now es → result.numbered ≡ numbered_in_line kind o es }
    {
        self.at(in_line(o, kind))
    }
}

impl HeldItems {
    /// How many wait in the line of this kind at the object, and how many of them have a ready number.
    pub fn tally_in(&self, o: u32, kind: WaitKind) -> Tally
        ensures waiting { result.waiting ≡ waiting_in_line kind o self.now.entries }
        ensures numbered { result.numbered ≡ numbered_in_line kind o self.now.entries }
    {
        self.tallies.in_line(o, kind)
    }

    /// How many wait in the line of this kind at the object.
    pub fn waiting_in(&self, o: u32, kind: WaitKind) -> u64
        ensures { result ≡ waiting_in_line kind o self.now.entries }
    {
        self.tallies.in_line(o, kind).waiting
    }

    /// How many of those who wait in the line of this kind at the object have a ready number.
    pub fn numbered_in(&self, o: u32, kind: WaitKind) -> u64
        ensures { result ≡ numbered_in_line kind o self.now.entries }
    {
        self.tallies.in_line(o, kind).numbered
    }
}
