//! A slot for an item.
ghost use Rattle.std.specs.Prelude.{◌≡◌, ◌<◌, None, Some, IsSome};
ghost use Rattle.std.specs.Option.{option_copied};
ghost use Rattle.machine.specs.declared.items.Item.{Item as AnyItem};
ghost use Rattle.held_items.specs.declared.limits.TheConstants.{NO_SINCE};

use crate::limits::NO_SINCE;
use machine::items::{Delivery, Item};
use machine::ready::ReadyNumber;
use std::marker::Model;

/// An item or none, in the room of an item. A contract sees it as an `Option`.
#[derive(Drop)]
pub struct ShelfSlot {
    // Where there is none, one that was made at a place that no item has.
    item: Item,
}

impl Model for ShelfSlot {
    ghost use Rattle.std.specs.Prelude.{Option, None, Some, nat_eq, if◌then◌else◌};
    ghost use Rattle.scenario_tree.specs.Trees.{trees};
    ghost use Rattle.machine.specs.declared.items.Item.{Item as AnyItem};
    ghost use Rattle.held_items.specs.declared.limits.TheConstants.{NO_SINCE};

    ghost Value = { Option AnyItem };

    ghost coded = { Prim.hlevel trees };

    ghost view = { λ s. if nat_eq s.item.since NO_SINCE then None else Some s.item };
}

impl ShelfSlot {
    /// No item.
    pub fn vacant() -> ShelfSlot
        ensures { result ≡ None }
    {
        ShelfSlot {
            item: Item {
                since: NO_SINCE,
                delivery: Delivery::Start(0, None),
                ready: ReadyNumber::none(),
            },
        }
    }

    /// This item.
    pub fn of(item: Item) -> ShelfSlot
        requires { item.since < NO_SINCE }
        ensures { result ≡ Some item }
    {
        ShelfSlot { item }
    }

    /// The item, if there is one.
    pub fn item(&self) -> Option<&Item>
        ensures { option_copied result ≡ self.now }
    {
        if self.item.since == NO_SINCE {
            return None;
        }
        Some(&self.item)
    }

    /// The item itself.
    pub fn into_item(self) -> Item
        requires { IsSome self }
        ensures { self ≡ Some result }
    {
        self.item
    }

    /// Gives the item this ready number, or none.
    pub fn set_ready(&mut self, ready: ReadyNumber)
        ensures { (i : AnyItem) → self.old ≡ Some i → self.new ≡ Some (record i { ready = ready }) }
    {
        self.item.ready = ready;
    }
}
