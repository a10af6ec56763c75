//! The items themselves: one comes, one goes.
ghost use Rattle.std.specs.Prelude.{◌≡◌, ◌+◌, ◌<◌, ◌^◌, ℕ, List, [], ◌∷◌, ◌++◌, length, Option, Some, IsSome, is_some, IfOk, OnErr, OnOk};
ghost use Rattle.item_places.specs.Items.{Lacks, Differ};
ghost use Rattle.slot_chains.specs.Chained.{first_of};
ghost use Rattle.machine.specs.Deliveries.{without};
ghost use Rattle.hub_items.specs.Sound.{AscendTo};
ghost use Rattle.held_items.specs.declared.limits.TheConstants.{MOST_HELD};
ghost use Rattle.held_items.specs.Entries.{Entry, item_in, slots_of, without_slot, flat};
ghost use Rattle.held_items.specs.Indexed.{AreIndexed};
ghost use Rattle.held_items.specs.Lined.{AreLined};
ghost use Rattle.held_items.specs.Held.{HasPlace, no_items, added, taken};
ghost use Rattle.held_items.specs.Tallied.{AreTallied, HasTally};
ghost use Rattle.held_items.specs.Waits.{waits_key};

use crate::borders::Borders;
use crate::indexes::Indexes;
use crate::lines::Lines;
use crate::shelf::Shelf;
use crate::tallies::Tallies;
use crate::waits::waits_key;
use machine::items::{Delivery, Item};
use machine::ready::ReadyNumber;
use std::alloc::{AllocError, Global};
use std::marker::Model;

/// The items of the hub, each in a slot, in order of making.
#[derive(Drop)]
pub struct HeldItems {
    pub(crate) shelf: Shelf,
    pub(crate) indexes: Indexes,
    pub(crate) lines: Lines,
    pub(crate) tallies: Tallies,
    pub(crate) borders: Borders,
    pub(crate) next_since: u64,
}

impl Model for HeldItems {
    ghost use Rattle.held_items.specs.Entries.{SeenItems};
    ghost use Rattle.scenario_tree.specs.Trees.{trees};

    ghost Value = { SeenItems };

    ghost coded = { Prim.hlevel trees };

    ghost use Rattle.held_items.specs.HeldParts.{IsHeld};

    ghost view = { λ h. record { entries = h.shelf.entries; next_since = h.next_since; next = h.lines.due.next } };

    ghost invariant = { IsHeld };
}

/// Makes room for one more item everywhere, and gives its slot. `AllocError`: memory is wanting.
#[tactic(auto, using(crate::proofs::Indexing::few_kills))]
fn make_room(
    shelf: &mut Shelf,
    indexes: &mut Indexes,
    lines: &mut Lines,
    tallies: &mut Tallies,
    borders: &mut Borders,
    delivery: &Delivery,
) -> Result<u32, AllocError>
    requires few { length shelf.old.entries < MOST_HELD }
    requires indexed { AreIndexed indexes.old shelf.old.entries }
    requires lined { AreLined lines.old shelf.old.entries }
    requires tallied { AreTallied tallies.old shelf.old.entries }
    ensures kept { shelf.new.entries ≡ shelf.old.entries }
    ensures indexed { (es : List Entry) → AreIndexed indexes.old es → AreIndexed indexes.new es }
    ensures lined { (es : List Entry) → AreLined lines.old es → AreLined lines.new es }
    ensures tallied { (es : List Entry) → AreTallied tallies.old es → AreTallied tallies.new es }
    ensures next { lines.new.due.next ≡ lines.old.due.next }
    ensures room { IfOk result (λ slot. HasPlace shelf.new indexes.new lines.new slot delivery.now) }
    ensures tally { OnOk result (HasTally tallies.new (waits_key delivery.now)) }
{
    let slot = shelf.reserve()?;
    indexes.reserve(slot, delivery)?;
    // That no number has two timers is known of timers whose length is asked.
    let _timers = lines.timers.len();
    lines.reserve(slot)?;
    tallies.reserve(delivery)?;
    borders.make_place(waits_key(delivery))?;
    Ok(slot)
}

impl HeldItems {
    /// No item.
    pub fn new(alloc: Global) -> Self
        ensures { result ≡ no_items }
    {
        HeldItems {
            shelf: Shelf::new(alloc),
            indexes: Indexes::new(alloc),
            lines: Lines::new(alloc),
            tallies: Tallies::new(alloc),
            borders: Borders::new(alloc),
            next_since: 0,
        }
    }

    /// One more item, the newest, without a number. No later call takes memory for it.
    ///
    /// # Errors
    ///
    /// Memory is wanting; nothing has changed.
    pub fn add(&mut self, delivery: Delivery) -> Result<u32, AllocError>
        requires since { self.old.next_since + 1 < 2 ^ 64 }
        requires few { length self.old.entries < MOST_HELD }
        ensures added { IfOk result (λ slot. self.new ≡ added slot delivery self.old) }
        ensures absent { IfOk result (λ slot. Lacks slot (slots_of self.old.entries)) }
        ensures err { OnErr result (self.new ≡ self.old) }
    {
        let Ok(slot) = make_room(
            &mut self.shelf,
            &mut self.indexes,
            &mut self.lines,
            &mut self.tallies,
            &mut self.borders,
            &delivery,
        ) else {
            drop(delivery);
            return Err(AllocError);
        };
        self.indexes.enter(slot, &delivery);
        self.lines.enter(slot, self.next_since, &delivery);
        self.tallies.enter(&delivery);
        self.shelf.push(Item {
            since: self.next_since,
            delivery,
            ready: ReadyNumber::none(),
        });
        self.next_since += 1;
        Ok(slot)
    }

    /// Takes the item of a slot out.
    pub fn take(&mut self, slot: u32) -> Item
        requires { IsSome (item_in slot self.old.entries) }
        ensures item { item_in slot self.old.entries ≡ Some result }
        ensures taken { self.new ≡ taken slot self.old }
        ensures items { flat self.new.entries ≡ without result.since (flat self.old.entries) }
    {
        let before = self.indexes.previous_waiting(slot);
        let item = self.shelf.remove(slot);
        self.indexes.leave(slot, &item.delivery);
        self.lines.leave(slot, &item);
        self.tallies.leave(&item);
        self.borders.leave(waits_key(&item.delivery), slot, before);
        item
    }

    /// The item of a slot.
    pub fn get(&self, slot: u32) -> &Item
        requires { IsSome (item_in slot self.now.entries) }
        ensures { item_in slot self.now.entries ≡ Some result.now }
    {
        self.shelf.get(slot)
    }

    /// Whether the slot has an item.
    pub fn has(&self, slot: u32) -> bool
        ensures { result ≡ is_some (item_in slot self.now.entries) }
    {
        self.shelf.has(slot)
    }

    /// How many items there are. They stand in order of making, and no slot has two.
    pub fn len(&self) -> usize
        ensures len { result ≡ length self.now.entries }
        ensures differ { Differ (slots_of self.now.entries) }
        ensures ascends { AscendTo 0 self.now.next_since (flat self.now.entries) }
    {
        self.shelf.len()
    }

    /// The place in order of making that the next item is given.
    pub fn next_since(&self) -> u64
        ensures { result ≡ self.now.next_since }
    {
        self.next_since
    }

    /// The slot of the oldest item.
    pub fn oldest(&self) -> Option<u32>
        ensures { result ≡ first_of (slots_of self.now.entries) None }
    {
        self.shelf.first()
    }

    /// The slot of the item that was made after that of this slot.
    pub fn after(&self, slot: u32) -> Option<u32>
        ensures { (xs ys : List ℕ) → slots_of self.now.entries ≡ xs ++ slot ∷ ys → result ≡ first_of ys None }
    {
        self.shelf.after(slot)
    }
}
