//! Whether an item waits in a line.
ghost use Rattle.std.specs.Prelude.{◌≡◌};
ghost use Rattle.hub_items.specs.WaitKinds.{test_of};
ghost use Rattle.held_items.specs.Waits.{waits_in_line};

use hub_items::WaitKind;
use machine::items::{Delivery, Waiting};

/// Whether the wait is one of this kind at the object.
fn is_of_kind(waiting: &Waiting, kind: WaitKind, o: u32) -> bool
    ensures { result ≡ test_of kind o waiting.now }
{
    match kind {
        WaitKind::Acquire => match waiting {
            Waiting::Acquire(p) => o == *p,
            _ => false,
        },
        WaitKind::Lock => match waiting {
            Waiting::Lock(p) => o == *p,
            _ => false,
        },
        WaitKind::Put => match waiting {
            Waiting::Put(p, _) => o == *p,
            _ => false,
        },
        WaitKind::Take => match waiting {
            Waiting::Take(p) => o == *p,
            _ => false,
        },
        WaitKind::Place => match waiting {
            Waiting::Place(p, _, _) => o == *p,
            Waiting::MapPlace(p, _, _, _) => o == *p,
            _ => false,
        },
        WaitKind::Slot => match waiting {
            Waiting::Slot(p, _, _) => o == *p,
            _ => false,
        },
        WaitKind::TakeOffer => match waiting {
            Waiting::TakeOffer(p) => o == *p,
            _ => false,
        },
    }
}

/// Whether the item that delivers this waits in the line of this kind at the object.
pub(crate) fn is_in_line(delivery: &Delivery, kind: WaitKind, o: u32) -> bool
    ensures { result ≡ waits_in_line kind o delivery.now }
{
    match delivery {
        Delivery::Wake(_, waiting) => is_of_kind(waiting, kind, o),
        _ => false,
    }
}
