//! The moment is set. An item with a number waits for no later one.
ghost use Rattle.std.specs.Prelude.{◌≡◌, ◌+◌, ◌≤◌};
ghost use Rattle.world_rules.specs.declared.limits.TheConstants.{LAST_MOMENT};
ghost use Rattle.machine_settling.specs.Classes.{class_of, class_of_wait};
ghost use Rattle.hub_state.specs.Forgotten.{all_forgotten, is_after, is_early, reached};

use crate::hub::Hub;
use crate::moment::Moment;
use crate::order::items_stand_in_order;
use held_items::HeldItems;
use machine::items::{Delivery, Item, Waiting};

/// Whether the wait is for a moment after this one.
fn is_sleep_after(waiting: &Waiting, moment: u64) -> bool
    ensures { result ≡ is_after moment (class_of_wait waiting.now) }
{
    match waiting {
        Waiting::Sleep(until) => moment < *until,
        _ => false,
    }
}

/// Whether what the item delivers waits for a moment after this one.
fn is_after(delivery: &Delivery, moment: u64) -> bool
    ensures { result ≡ is_after moment (class_of delivery.now) }
{
    match delivery {
        Delivery::Start(_, None) => false,
        Delivery::Start(_, Some(deadline)) => moment < *deadline,
        Delivery::Wake(_, waiting) => is_sleep_after(waiting, moment),
        Delivery::Late(_, deadline, _) => moment < *deadline,
        Delivery::Timeout(_, _, deadline) => moment < *deadline,
        Delivery::Kill(_, _) => false,
        Delivery::Link(_, _, _, _) => false,
    }
}

/// Whether the item has a number, and waits for a moment after this one.
fn is_early(item: &Item, moment: u64) -> bool
    ensures { result ≡ is_early moment item.now }
{
    item.ready.is_some() && is_after(&item.delivery, moment)
}

/// Takes the number of each item that waits for a moment after this one. Looks at each item.
fn forget_early(held: &mut HeldItems, moment: u64)
    ensures entries { held.new.entries ≡ all_forgotten moment held.old.entries }
    ensures next { held.new.next ≡ held.old.next }
    ensures since { held.new.next_since ≡ held.old.next_since }
{
    items_stand_in_order(held);
    let mut at = held.oldest();
    while let Some(slot) = at {
        let early = is_early(held.get(slot), moment);
        at = held.after(slot);
        if early {
            held.unnumber(slot);
        }
    }
}

impl Hub {
    /// It is this moment. Looks at each item where it is an earlier one than before, which no legal world answers.
    pub(crate) fn reach(&mut self, moment: u64)
        requires { moment ≤ LAST_MOMENT }
        ensures { self.new ≡ reached moment self.old }
    {
        items_stand_in_order(&self.held);
        let reached = Moment { at: moment };
        if moment >= self.base.moment.at {
            self.base.moment = reached;
            return;
        }
        forget_early(&mut self.held, moment);
        self.base.moment = reached;
    }

    /// The moment so many milliseconds from now.
    pub fn deadline_after(&self, time: u32) -> u64
        ensures { result ≡ self.now.moment + time }
    {
        self.base.moment.after(time)
    }
}
