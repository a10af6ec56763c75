//! What is known of all items that are held.
ghost use Rattle.std.specs.Prelude.{◌<◌, ◌^◌, length};
ghost use Rattle.item_places.specs.Items.{Differ};
ghost use Rattle.hub_items.specs.Sound.{AscendTo};
ghost use Rattle.held_items.specs.Entries.{flat, slots_of};

use held_items::HeldItems;

/// They stand in order of making, each in a slot of its own, and a count of them fits. Does nothing: whoever calls this
/// knows it.
#[inline(always)]
pub(crate) fn items_stand_in_order(held: &HeldItems)
    ensures differ { Differ (slots_of held.now.entries) }
    ensures ascends { AscendTo 0 held.now.next_since (flat held.now.entries) }
    ensures few { length held.now.entries < 2 ^ 64 }
{
    let _count = held.len();
}
