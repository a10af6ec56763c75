//! A map from items to places that takes memory in `reserve` alone.
//!
//! It is a table with open addressing. An item stands at its home or after it, with no empty slot between. A slot
//! that was left is `Dead` until another item takes it, and where empty slots run short the table is filled anew
//! into its twin.
ghost use Rattle.std.specs.Prelude.{◌≡◌, ◌≢◌, ◌⊎◌, ℕ, ◌+◌, ◌-◌, ◌*◌, ◌%◌, ◌^◌, ◌<◌, ◌≤◌, List, [], length, IfSome, IfNone, OnOk, OnErr, count_by, replicate, true, false, IsOk};
ghost use Rattle.item_places.specs.Table.{home as home_of, slot_at, HeldAt, Has, is_empty, is_held, IsTable, Gains, Loses, Moves, IsOnce, SameHeld};

use std::alloc::{AllocError, Global};
use std::marker::Model;
use std::mem;

/// A slot of the table.
#[derive(Clone, Copy, Drop)]
pub enum Slot {
    /// It was never used since the table was filled.
    Empty,
    /// What it held was taken out.
    Dead,
    /// An item with its place.
    Held { item: u32, place: usize },
}

/// Where the search for an item begins: neighbours are scattered, so that no long run of slots is in use.
fn home(item: u32, homes: usize) -> usize
    requires { 0 < homes }
    ensures { result ≡ home_of item homes }
{
    item as usize * 2654435761 % homes
}

/// Where the item stands, if it stands at or after `from`, before an empty slot.
fn find_slot(slots: &[Slot], from: usize, item: u32) -> Option<usize>
    ensures found { IfSome result (λ p. (p < length slots.now) × ((k : ℕ) × HeldAt slots.now p item k)) }
    ensures absent { IfNone result ((p k : ℕ) → HeldAt slots.now p item k → from ≤ p → (j : ℕ) × (from ≤ j) × (j < p) × (slot_at slots.now j ≡ Slot.Empty)) }
{
    for at in from..slots.len() {
        match slots[at] {
            Slot::Held { item: held, .. } if held == item => return Some(at),
            Slot::Empty => return None,
            _ => {}
        }
    }
    None
}

/// The first slot at or after `from` that holds no item.
fn free_slot(slots: &[Slot], from: usize) -> usize
    requires { (j : ℕ) × (from ≤ j) × (j < length slots.now) × (slot_at slots.now j ≡ Slot.Empty) }
    ensures within { result < length slots.now }
    ensures past { from ≤ result }
    ensures free { is_held (slot_at slots.now result) ≡ false }
    ensures before { (j : ℕ) → from ≤ j → j < result → is_held (slot_at slots.now j) ≡ true }
{
    for at in from..slots.len() {
        if !matches!(slots[at], Slot::Held { .. }) {
            return at;
        }
    }
    // The requires says that a slot from here on is empty.
    unreachable!()
}

/// Puts an item that isn't there yet, and gives the number of slots that are still empty.
fn put(slots: &mut [Slot], homes: usize, free: usize, item: u32, place: usize) -> usize
    requires table { IsTable slots.old homes free }
    requires room { homes < free }
    requires some_home { 0 < homes }
    requires absent { (p k : ℕ) → HeldAt slots.old p item k → ⊥ }
    ensures table { IsTable slots.new homes result }
    ensures gains { Gains slots.old slots.new item place }
    ensures count { count_by is_held slots.new ≡ count_by is_held slots.old + 1 }
    ensures left { free ≤ result + 1 }
{
    let at = free_slot(slots, home(item, homes));
    let left = match slots[at] {
        Slot::Empty => free - 1,
        _ => free,
    };
    slots[at] = Slot::Held { item, place };
    left
}

/// Fills an empty table with all that another holds, and gives the number of slots that are still empty.
fn refill(from: &[Slot], to: &mut [Slot], homes: usize) -> usize
    requires once { IsOnce from.now }
    requires empty { to.old ≡ replicate (length to.old) Slot.Empty }
    requires some_home { 0 < homes }
    requires room { homes + count_by is_held from.now < length to.old }
    ensures table { IsTable to.new homes result }
    ensures same { SameHeld from.now to.new }
    ensures count { count_by is_held to.new ≡ count_by is_held from.now }
    ensures left { length to.old ≤ result + count_by is_held from.now }
{
    let mut free = to.len();
    for at in 0..from.len() {
        if let Slot::Held { item, place } = from[at] {
            free = put(to, homes, free, item, place);
        }
    }
    free
}

/// Fills the table anew where no slot is empty that may be used up, and gives the number of empty slots.
fn make_room(slots: &mut Vec<Slot>, twin: &mut Vec<Slot>, homes: usize, free: usize) -> usize
    requires table { IsTable slots.old.items homes free }
    requires some_home { 0 < homes }
    requires room { homes + count_by is_held slots.old.items < length slots.old.items }
    requires twin { length twin.old.items ≡ length slots.old.items }
    ensures table { IsTable slots.new.items homes result }
    ensures same { SameHeld slots.old.items slots.new.items }
    ensures count { count_by is_held slots.new.items ≡ count_by is_held slots.old.items }
    ensures room { homes < result }
    ensures len { length slots.new.items ≡ length slots.old.items }
    ensures twin { length twin.new.items ≡ length twin.old.items }
{
    if homes < free {
        return free;
    }
    twin.fill(Slot::Empty);
    let free = refill(slots, twin, homes);
    mem::swap(slots, twin);
    free
}

/// How many items there may be.
const MOST_PLACES: usize = 1 << 32;

/// The place of each of some items.
#[derive(Drop)]
pub struct Places {
    alloc: Global,
    slots: Vec<Slot>,
    // As long as `slots`, which are filled anew into it.
    twin: Vec<Slot>,
    // An item's home is its number modulo this.
    homes: usize,
    // How many slots are empty.
    free: usize,
    len: usize,
    // So many items fit.
    limit: usize,
}

impl Model for Places {
    ghost use Rattle.std.specs.Prelude.{ℕ, ◌-◌};
    ghost use Rattle.item_places.specs.Seen.{SeenPlaces};

    ghost Value = { SeenPlaces };

    ghost use Rattle.item_places.specs.PlacesParts.{IsPlaces};

    ghost view = { λ p. record { slots = p.slots.items; spare = p.limit - p.len } };

    ghost invariant = { IsPlaces };
}

impl Places {
    /// No item.
    pub fn new(alloc: Global) -> Self
        ensures empty { (q k : ℕ) → Has result.slots q k → ⊥ }
        ensures spare { result.spare ≡ 0 }
    {
        Places {
            alloc,
            slots: Vec::new(alloc),
            twin: Vec::new(alloc),
            homes: 0,
            free: 0,
            len: 0,
            limit: 0,
        }
    }

    /// How many more items fit.
    pub fn spare(&self) -> usize
        ensures { result ≡ self.now.spare }
    {
        self.limit - self.len
    }

    /// The item's place, if it is there.
    pub fn find(&self, item: u32) -> Option<usize>
        ensures found { IfSome result (λ k. Has self.now.slots item k) }
        ensures absent { IfNone result ((k : ℕ) → Has self.now.slots item k → ⊥) }
        ensures once { IsOnce self.now.slots }
    {
        if self.homes == 0 {
            return None;
        }
        let at = find_slot(&self.slots, home(item, self.homes), item)?;
        match self.slots[at] {
            Slot::Held { place, .. } => Some(place),
            _ => None,
        }
    }

    /// Puts an item that isn't there yet.
    pub fn insert(&mut self, item: u32, place: usize)
        requires room { 0 < self.old.spare }
        requires absent { (k : ℕ) → Has self.old.slots item k → ⊥ }
        ensures gains { Gains self.old.slots self.new.slots item place }
        ensures spare { self.new.spare + 1 ≡ self.old.spare }
    {
        let free = make_room(&mut self.slots, &mut self.twin, self.homes, self.free);
        self.free = put(&mut self.slots, self.homes, free, item, place);
        self.len += 1;
    }

    /// Takes an item out that is there, and gives its place.
    pub fn remove(&mut self, item: u32) -> usize
        requires { (k : ℕ) × Has self.old.slots item k }
        ensures place { Has self.old.slots item result }
        ensures loses { Loses self.old.slots self.new.slots item }
        ensures spare { self.new.spare ≡ self.old.spare + 1 }
    {
        match find_slot(&self.slots, home(item, self.homes), item) {
            // The requires says that the item is there.
            None => unreachable!(),
            Some(at) => match self.slots[at] {
                Slot::Held { place, .. } => {
                    self.slots[at] = Slot::Dead;
                    self.len -= 1;
                    place
                }
                // The slot that was found holds the item.
                _ => unreachable!(),
            },
        }
    }

    /// Gives an item that is there another place.
    pub fn set(&mut self, item: u32, place: usize)
        requires { (k : ℕ) × Has self.old.slots item k }
        ensures moves { Moves self.old.slots self.new.slots item place }
        ensures spare { self.new.spare ≡ self.old.spare }
    {
        match find_slot(&self.slots, home(item, self.homes), item) {
            // The requires says that the item is there.
            None => unreachable!(),
            Some(at) => self.slots[at] = Slot::Held { item, place },
        }
    }

    /// Makes room for `n` more items.
    pub fn reserve(&mut self, n: usize) -> Result<(), AllocError>
        ensures room { OnOk result (n ≤ self.new.spare) }
        ensures same { SameHeld self.old.slots self.new.slots }
        ensures spare { self.old.spare ≤ self.new.spare }
        ensures had_room { n ≤ self.old.spare → IsOk result }
        ensures err { OnErr result (self.new ≡ self.old) }
    {
        if n <= self.limit - self.len {
            return Ok(());
        }
        if self.limit > MOST_PLACES || n > MOST_PLACES - self.limit {
            return Err(AllocError);
        }
        let limit = (self.len + n).max((2 * self.limit).min(MOST_PLACES));
        let homes = 2 * limit;
        // Half as many slots again as there may be items are used up before the table is filled anew.
        let size = homes + limit + limit / 2 + 1;
        let mut slots = Vec::new(self.alloc);
        slots.resize(size, Slot::Empty)?;
        let mut twin = Vec::new(self.alloc);
        twin.resize(size, Slot::Empty)?;
        self.free = refill(&self.slots, &mut slots, homes);
        self.slots = slots;
        self.twin = twin;
        self.homes = homes;
        self.limit = limit;
        Ok(())
    }
}
