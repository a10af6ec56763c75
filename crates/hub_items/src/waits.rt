//! The lines of those who wait at an object, in order of parking.
ghost use Rattle.std.specs.Prelude.{◌≡◌};
ghost use Rattle.hub_items.specs.Lines.{line_ahead, waiting_line};

use machine::items::Waiting;

/// A kind of wait whose waiters are served in order of parking.
#[derive(Clone, Copy, PartialEq)]
pub enum WaitKind {
    /// For a unit of a semaphore.
    Acquire,
    /// For a lock.
    Lock,
    /// For room in a queue.
    Put,
    /// For an item of a queue.
    Take,
    /// For a place in a pool.
    Place,
    /// For a slot of a native pool.
    Slot,
    /// For an offer of a channel.
    TakeOffer,
}

/// The line that the wait stands in: its kind and its object.
fn waiting_line(waiting: &Waiting) -> Option<(WaitKind, u32)>
    ensures { result ≡ waiting_line waiting.now }
{
    match waiting {
        Waiting::Acquire(o) => Some((WaitKind::Acquire, *o)),
        Waiting::Lock(o) => Some((WaitKind::Lock, *o)),
        Waiting::Put(o, _) => Some((WaitKind::Put, *o)),
        Waiting::Take(o) => Some((WaitKind::Take, *o)),
        Waiting::Place(o, _, _) => Some((WaitKind::Place, *o)),
        Waiting::MapPlace(o, _, _, _) => Some((WaitKind::Place, *o)),
        Waiting::Slot(o, _, _) => Some((WaitKind::Slot, *o)),
        Waiting::TakeOffer(o) => Some((WaitKind::TakeOffer, *o)),
        _ => None,
    }
}

/// The line that the wait's condition looks at: its own, and for one who peeks at a queue that of those who take.
pub fn line_ahead(waiting: &Waiting) -> Option<(WaitKind, u32)>
    ensures { result ≡ line_ahead waiting.now }
{
    match waiting {
        Waiting::Peek(o) => Some((WaitKind::Take, *o)),
        _ => waiting_line(waiting),
    }
}
