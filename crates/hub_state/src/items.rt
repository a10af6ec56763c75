//! The few operations that touch items and waits: one is made, some go, one is taken to be delivered.
ghost use Rattle.std.specs.Prelude.{◌≡◌, ◌+◌, ◌<◌, ◌≤◌, ◌^◌, true, length, OnOk, OnErr, IfOk, IfSome};
ghost use Rattle.std.specs.Option.{option_copied};
ghost use Rattle.machine.specs.State.{say};
ghost use Rattle.machine.specs.Items.{add_item, drop_items, is_timeout_of};
ghost use Rattle.machine.specs.Request.{has_start, kills_standing};
ghost use Rattle.machine.specs.Deliveries.{waiting_of};
ghost use Rattle.machine.specs.Soundness.{claim_of, is_unclaimed};
ghost use Rattle.hub_items.specs.Gone.{gone_of};
ghost use Rattle.hub_items.specs.Short.{DeliversShort, IsShort};
ghost use Rattle.held_items.specs.declared.limits.TheConstants.{MOST_HELD};
ghost use Rattle.held_items.specs.Held.{added};
ghost use Rattle.hub_state.specs.Adding.{MayAdd};
ghost use Rattle.hub_state.specs.Touched.{IsRoomier};

use crate::found::Found;
use crate::hub::Hub;
use crate::order::items_stand_in_order;
use crate::touched::{Touched, object_left};
use held_items::HeldItems;
use hub_items::Gone;
use machine::items::{Delivery, Waiting};
use scenario_tree::Items;
use std::alloc::AllocError;
use trace_text::Line;

/// Makes a place for the item in this slot, and room for so many items in a settling. `AllocError`: memory is wanting;
/// what was touched and the room that there was stay.
fn make_places(
    touched: &mut Touched,
    found: &mut Found,
    slot: u32,
    items: usize,
) -> Result<(), AllocError>
    ensures same { IsRoomier touched.old touched.new }
    ensures longer { found.old.room ≤ found.new.room }
    ensures place { OnOk result (slot < touched.new.slots) }
    ensures room { OnOk result (items ≤ found.new.room) }
{
    touched.reserve_slot(slot)?;
    found.reserve(items)?;
    Ok(())
}

/// Adds an item, with a place for its slot and room for it in a settling. `AllocError`: memory is wanting; no item is
/// added.
fn add_with_place(
    held: &mut HeldItems,
    touched: &mut Touched,
    found: &mut Found,
    delivery: Delivery,
) -> Result<u32, AllocError>
    requires since { held.old.next_since + 1 < 2 ^ 64 }
    requires few { length held.old.entries < MOST_HELD }
    ensures added { IfOk result (λ slot. held.new ≡ added slot delivery held.old) }
    ensures place { IfOk result (λ slot. slot < touched.new.slots) }
    ensures room { OnOk result (length held.new.entries ≤ found.new.room) }
    ensures longer { found.old.room ≤ found.new.room }
    ensures same { IsRoomier touched.old touched.new }
    ensures err { OnErr result (held.new.entries ≡ held.old.entries) }
{
    let slot = held.add(delivery)?;
    if make_places(touched, found, slot, held.len()).is_err() {
        drop(held.take(slot));
        return Err(AllocError);
    }
    Ok(slot)
}

impl Hub {
    /// Writes a line of the step under way. `AllocError`: memory is wanting; the hub is given up.
    pub fn say(&mut self, line: Line) -> Result<(), AllocError>
        ensures { OnOk result (self.new ≡ say line self.old) }
    {
        self.base.lines.push(line)?;
        Ok(())
    }

    /// Makes one item more, the newest, which says what no other says. Looks at no other. `AllocError`: memory is
    /// wanting; the hub is given up.
    pub fn add_item(&mut self, delivery: Delivery) -> Result<(), AllocError>
        requires unclaimed { is_unclaimed (claim_of delivery) self.old.items ≡ true }
        requires short { DeliversShort delivery }
        requires may_add { MayAdd 1 self.old }
        ensures { OnOk result (self.new ≡ add_item delivery self.old) }
    {
        items_stand_in_order(&self.held);
        // One that doesn't hold changes nothing for the others that wait for the same: they need no look.
        let holds = self.would_hold(&delivery);
        let Ok(()) = self.touched.reserve_awaited(&delivery) else {
            drop(delivery);
            return Err(AllocError);
        };
        self.touched.touch_awaited(&delivery, holds);
        let slot = add_with_place(&mut self.held, &mut self.touched, &mut self.found, delivery)?;
        self.touched.touch_made(slot);
        Ok(())
    }

    /// Whether the greenlet has a start.
    pub fn has_start(&self, g: u32) -> bool
        ensures { result ≡ has_start g self.now }
    {
        self.held.has_start(g)
    }

    /// How many kills are not delivered yet.
    pub fn kills_standing(&self) -> u64
        ensures { result ≡ kills_standing self.now }
    {
        self.held.kills()
    }

    /// What the greenlet waits for.
    pub fn waiting_of(&self, g: u32) -> Option<&Waiting>
        ensures waiting { option_copied result ≡ waiting_of g self.now.items }
        ensures short { IfSome (option_copied result) IsShort }
    {
        self.held.waiting_of(g)
    }

    /// Removes the items that `gone` names. Looks at the greenlet's own items alone, or at the link.
    #[tactic(auto, using(crate::proofs::Walks::flat_kept))]
    pub fn drop_items(&mut self, gone: &Gone)
        ensures { self.new ≡ drop_items (gone_of gone.now) self.old }
    {
        items_stand_in_order(&self.held);
        self.touched.touch(object_left(&self.held, gone));
        self.held.drop_items(gone);
    }

    /// Removes the timeouts of the greenlet with these numbers.
    pub fn drop_timeouts(&mut self, g: u32, numbers: Items<u32>)
        ensures { self.new ≡ drop_items (is_timeout_of g numbers) self.old }
    {
        self.drop_items(&Gone::TimeoutsOf(g, numbers));
    }
}
