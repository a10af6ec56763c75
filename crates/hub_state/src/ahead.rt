//! How many wait before somebody in a line.
ghost use Rattle.std.specs.Prelude.{◌≡◌, ℕ};
ghost use Rattle.machine.specs.Holds.{earlier};
ghost use Rattle.held_items.specs.Entries.{flat};
ghost use Rattle.hub_items.specs.Lines.{IsAhead};
ghost use Rattle.hub_items.specs.WaitKinds.{test_of};

use crate::order::items_stand_in_order;
use held_items::HeldItems;
use hub_items::{WaitKind, line_ahead};
use machine::items::Waiting;

/// How many wait so at this object since before this since. Looks at those who do.
pub(crate) fn earlier(held: &HeldItems, kind: WaitKind, object: u32, since: u64) -> u64
    ensures { result ≡ earlier (test_of kind object) since (flat held.now.entries) }
{
    let mut n = 0;
    items_stand_in_order(held);
    let mut at = held.first_in_line(object, kind);
    while let Some(slot) = at {
        if held.get(slot).since >= since {
            return n;
        }
        n += 1;
        at = held.next_waiting(slot);
    }
    n
}

/// How many wait since before this since in the line that the wait's condition looks at, at each of whom it looks; 0 where
/// it looks at none.
pub(crate) fn earlier_ahead(held: &HeldItems, waiting: &Waiting, since: u64) -> u64
    ensures { (objects : ℕ) → IsAhead result objects (λ test. earlier test since (flat held.now.entries)) waiting.now }
{
    match line_ahead(waiting) {
        Some((kind, object)) => earlier(held, kind, object, since),
        None => 0,
    }
}

/// How many wait so at this object: as many as before one who comes last.
pub(crate) fn earlier_than_last(held: &HeldItems, kind: WaitKind, object: u32) -> u64
    ensures { result ≡ earlier (test_of kind object) held.now.next_since (flat held.now.entries) }
{
    items_stand_in_order(held);
    held.waiting_in(object, kind)
}

/// How many wait in the line that the condition of this wait looks at; 0 where it looks at none.
pub(crate) fn ahead_of_last(held: &HeldItems, waiting: &Waiting) -> u64
    ensures { (objects : ℕ) → IsAhead result objects (λ test. earlier test held.now.next_since (flat held.now.entries)) waiting.now }
{
    match line_ahead(waiting) {
        Some((kind, object)) => earlier_than_last(held, kind, object),
        None => 0,
    }
}
