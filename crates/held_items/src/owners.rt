//! What is read of a greenlet's items, with no walk over the others.
ghost use Rattle.std.specs.Prelude.{◌≡◌, nat_lt, count_by};
ghost use Rattle.std.specs.Option.{option_copied};
ghost use Rattle.slot_chains.specs.Chained.{first_of};
ghost use Rattle.machine.specs.Items.{is_start_of};
ghost use Rattle.machine.specs.Request.{is_kill};
ghost use Rattle.machine.specs.Deliveries.{waiting_of, since_of_wake};
ghost use Rattle.held_items.specs.Entries.{flat, index};
ghost use Rattle.held_items.specs.Classes.{is_wake_of};

use crate::classes::{Class, place};
use crate::held::HeldItems;
use machine::items::{Delivery, Waiting};

impl HeldItems {
    /// The slot of the greenlet's start.
    fn start_of(&self, g: u32) -> Option<u32>
        ensures { result ≡ first_of (index (is_start_of g) self.now.entries) None }
    {
        self.indexes.first(place(Class::Start, g))
    }

    /// The slot of the greenlet's Wake.
    pub fn wake_of(&self, g: u32) -> Option<u32>
        ensures { result ≡ first_of (index (is_wake_of g) self.now.entries) None }
    {
        self.indexes.first(place(Class::Wake, g))
    }

    /// Whether the greenlet has a start.
    pub fn has_start(&self, g: u32) -> bool
        ensures { result ≡ nat_lt 0 (count_by (λ i. is_start_of g i.delivery) (flat self.now.entries)) }
    {
        self.start_of(g).is_some()
    }

    /// How many kills there are.
    pub fn kills(&self) -> u64
        ensures { result ≡ count_by (λ i. is_kill i.delivery) (flat self.now.entries) }
    {
        self.indexes.kills
    }

    /// What the greenlet waits for.
    pub fn waiting_of(&self, g: u32) -> Option<&Waiting>
        ensures { option_copied result ≡ waiting_of g (flat self.now.entries) }
    {
        let shelf = &self.shelf;
        match self.wake_of(g) {
            None => None,
            Some(slot) => match &shelf.get(slot).delivery {
                Delivery::Wake(_, waiting) => Some(waiting),
                _ => None,
            },
        }
    }

    /// The since of the Wake of the greenlet, if it has one.
    pub fn since_of_wake(&self, g: u32) -> Option<u64>
        ensures { result ≡ since_of_wake g (flat self.now.entries) }
    {
        let shelf = &self.shelf;
        match self.wake_of(g) {
            None => None,
            Some(slot) => Some(shelf.get(slot).since),
        }
    }
}
