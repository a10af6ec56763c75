//! Whether anybody waits at an object.
ghost use Rattle.std.specs.Prelude.{◌≡◌, None, Some, if◌then◌else◌};
ghost use Rattle.std.specs.List.{list_any};
ghost use Rattle.held_items.specs.Entries.{flat};
ghost use Rattle.held_items.specs.Waits.{waits_at};
ghost use Rattle.hub_state.specs.Touched.{with_touched};
ghost use Rattle.hub_state.specs.Unawaited.{has_line, has_others, has_waiters};

use crate::touched::{Touched, object_if};
use held_items::HeldItems;
use hub_items::WaitKind;

/// Whether somebody waits in the line of this kind at the object.
fn has_line(held: &HeldItems, o: u32, kind: WaitKind) -> bool
    ensures { result ≡ has_line kind o (flat held.now.entries) }
{
    held.first_in_line(o, kind).is_some()
}

/// Whether somebody waits at the object in no line.
fn has_others(held: &HeldItems, o: u32) -> bool
    ensures { result ≡ has_others o (flat held.now.entries) }
{
    held.first_of_others(o).is_some()
}

/// Whether somebody waits at the object in one of its lines, or in none.
fn has_waiters(held: &HeldItems, o: u32) -> bool
    ensures { result ≡ has_waiters o (flat held.now.entries) }
{
    has_line(held, o, WaitKind::Acquire)
        || has_line(held, o, WaitKind::Lock)
        || has_line(held, o, WaitKind::Put)
        || has_line(held, o, WaitKind::Take)
        || has_line(held, o, WaitKind::Place)
        || has_line(held, o, WaitKind::Slot)
        || has_line(held, o, WaitKind::TakeOffer)
        || has_others(held, o)
}

/// Whether somebody waits at the object. Looks at nobody but the first of each line.
fn is_awaited(held: &HeldItems, o: u32) -> bool
    ensures { result ≡ list_any (λ i. waits_at o i.delivery) (flat held.now.entries) }
{
    has_waiters(held, o)
}

/// Touches the object, if somebody waits at it.
pub(crate) fn touch_awaited(touched: &mut Touched, held: &HeldItems, o: u32)
    ensures { touched.new ≡ with_touched (if list_any (λ i. waits_at o i.delivery) (flat held.now.entries) then Some o else None) touched.old }
{
    touched.touch(object_if(is_awaited(held, o), o));
}
