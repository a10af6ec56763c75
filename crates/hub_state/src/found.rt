//! Who loses a number in a settling, and who gets one.
ghost use Rattle.std.specs.Prelude.{◌≡◌, [], ◌≤◌, length, OnOk};
ghost use Rattle.held_items.specs.Moments.{Gathers};
ghost use Rattle.hub_state.specs.Found.{HasPlace, emptied, none_found, noted};

use held_items::HeldItems;
use machine::items::Item;
use std::alloc::{AllocError, Global};
use std::marker::Model;

/// Those that lose their numbers, and those that get one.
#[derive(Drop)]
pub(crate) struct Found {
    /// Of each when it was made, and its slot.
    pub(crate) lost: Vec<(u64, u32)>,
    /// Of each when it was made, and its slot.
    pub(crate) gained: Vec<(u64, u32)>,
    /// Each list has room for so many.
    room: usize,
}

impl Model for Found {
    ghost use Rattle.hub_state.specs.Found.{SeenFound};
    ghost use Rattle.hub_state.specs.FoundParts.{HasRoom};

    ghost Value = { SeenFound };

    ghost view = { λ f. record { lost = f.lost.items; gained = f.gained.items; room = f.room } };

    ghost invariant = { HasRoom };
}

impl Found {
    /// Nobody, and room for none.
    pub(crate) fn new(alloc: Global) -> Self
        ensures { result ≡ none_found }
    {
        Found {
            lost: Vec::new(alloc),
            gained: Vec::new(alloc),
            room: 0,
        }
    }

    /// Makes room in each list for so many. `AllocError`: memory is wanting; the room that there was stays.
    pub(crate) fn reserve(&mut self, items: usize) -> Result<(), AllocError>
        ensures longer { self.old.room ≤ self.new.room }
        ensures room { OnOk result (items ≤ self.new.room) }
    {
        if self.room < items {
            self.lost.reserve(items)?;
            self.gained.reserve(items)?;
            self.room = items;
        }
        Ok(())
    }

    /// Forgets all of them, and keeps the room.
    pub(crate) fn clear(&mut self)
        ensures { self.new ≡ emptied self.old }
    {
        self.lost.clear();
        self.gained.clear();
    }

    /// Notes the item of the slot where it has a number and doesn't hold, or holds and has none.
    pub(crate) fn note(&mut self, slot: u32, item: &Item, holds: bool)
        requires { HasPlace self.old }
        ensures { self.new ≡ noted slot item.now holds self.old }
    {
        match item.ready.place() {
            Some(_) => {
                if !holds {
                    self.lost.push_reserved((item.since, slot));
                }
            }
            None => {
                if holds {
                    self.gained.push_reserved((item.since, slot));
                }
            }
        }
    }

    /// Puts those in whose moment has come and who have no number.
    pub(crate) fn gather_due(&mut self, held: &mut HeldItems, moment: u64)
        requires room { length held.old.entries ≤ self.old.room }
        requires none { self.old.gained ≡ [] }
        ensures same { held.new ≡ held.old }
        ensures lost { self.new.lost ≡ self.old.lost }
        ensures room { self.new.room ≡ self.old.room }
        ensures gathers { Gathers moment held.old.entries self.old.gained self.new.gained }
    {
        held.gather_due(moment, &mut self.gained);
    }
}
