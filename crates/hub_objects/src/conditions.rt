//! The conditions of waits at one object, where so many wait there already.
ghost use Rattle.std.specs.Prelude.{◌≡◌};
ghost use Rattle.machine.specs.Holds.{has_unit, has_item, has_room, has_set_since, has_result, is_free, all_finished, has_place, is_deserted, has_slot, is_offer_of, is_taken, has_offer, is_flagged, is_owner};
ghost use Rattle.std.specs.List.{list_any};
ghost use Rattle.std.specs.Option.{option_copied};

use machine::state::{Object, Offer};

/// Whether fewer wait for a unit than there are.
#[tactic(auto, unfolding(machine::specs::Holds::has_unit))]
pub fn has_unit(object: Option<&Object>, before: u64) -> bool
    ensures { result ≡ has_unit before (option_copied object.entry) }
{
    match object {
        Some(Object::Semaphore(counter, _)) => before < *counter,
        _ => false,
    }
}

/// Whether the queue is shut, or fewer wait for room than there is.
#[tactic(auto, unfolding(machine::specs::Holds::has_room))]
pub fn has_room(object: Option<&Object>, before: u64) -> bool
    ensures { result ≡ has_room before (option_copied object.entry) }
{
    match object {
        Some(Object::Queue(_, None, _, _, _)) => true,
        Some(Object::Queue(_, Some(size), items, _, shut)) => *shut
            || before < size.saturating_sub(items.len() as u64),
        _ => false,
    }
}

/// Whether the queue is shut, or fewer wait for an item than there are.
#[tactic(auto, unfolding(machine::specs::Holds::has_item))]
pub fn has_item(object: Option<&Object>, before: u64) -> bool
    ensures { result ≡ has_item before (option_copied object.entry) }
{
    match object {
        Some(Object::Queue(_, _, items, _, shut)) => *shut || before < items.len() as u64,
        _ => false,
    }
}

/// Whether nobody has the lock, and nobody waits for it.
#[tactic(auto, unfolding(machine::specs::Holds::is_free))]
pub fn is_free(object: Option<&Object>, before: u64) -> bool
    ensures { result ≡ is_free before (option_copied object.entry) }
{
    match object {
        Some(Object::Lock(owner, _)) => owner.is_none() && before == 0,
        _ => false,
    }
}

/// Whether no task of the queue is unfinished.
#[tactic(auto, unfolding(machine::specs::Holds::all_finished))]
pub fn all_finished(object: Option<&Object>) -> bool
    ensures { result ≡ all_finished (option_copied object.entry) }
{
    match object {
        Some(Object::Queue(_, _, _, unfinished, _)) => *unfinished == 0,
        _ => false,
    }
}

/// Whether fewer wait for a place than are free. A group always has one.
#[tactic(auto, unfolding(machine::specs::Holds::has_place))]
pub fn has_place(object: Option<&Object>, before: u64) -> bool
    ensures { result ≡ has_place before (option_copied object.entry) }
{
    match object {
        Some(Object::Crew(None, _)) => true,
        Some(Object::Crew(Some(size), members)) => before
            < size.saturating_sub(members.len() as u64),
        _ => false,
    }
}

/// Whether the group or pool has no member.
#[tactic(auto, unfolding(machine::specs::Holds::is_deserted))]
pub fn is_deserted(object: Option<&Object>) -> bool
    ensures { result ≡ is_deserted (option_copied object.entry) }
{
    match object {
        Some(Object::Crew(_, members)) => members.len() == 0,
        _ => false,
    }
}

/// Whether fewer wait for a slot than are free.
#[tactic(auto, unfolding(machine::specs::Holds::has_slot))]
pub fn has_slot(object: Option<&Object>, before: u64) -> bool
    ensures { result ≡ has_slot before (option_copied object.entry) }
{
    match object {
        Some(Object::Native(slots, outstanding)) => before < slots.saturating_sub(*outstanding),
        _ => false,
    }
}

/// Whether the event was set more often than so.
#[tactic(auto, unfolding(machine::specs::Holds::has_set_since))]
pub fn has_set_since(object: Option<&Object>, sets: u64) -> bool
    ensures { result ≡ has_set_since sets (option_copied object.entry) }
{
    match object {
        Some(Object::Event(_, n)) => sets < *n,
        _ => false,
    }
}

/// Whether something was put into the result.
#[tactic(auto, unfolding(machine::specs::Holds::has_result))]
pub fn has_result(object: Option<&Object>) -> bool
    ensures { result ≡ has_result (option_copied object.entry) }
{
    match object {
        Some(Object::Result(outcome)) => outcome.is_some(),
        _ => false,
    }
}

/// Whether no offer of the channel is that of the wait with this since.
#[tactic(auto, unfolding(machine::specs::Holds::is_taken))]
pub fn is_taken(object: Option<&Object>, since: u64) -> bool
    ensures { result ≡ is_taken since (option_copied object.entry) }
{
    match object {
        Some(Object::Channel(offers)) => !has_offer_of(offers.as_slice(), since),
        _ => false,
    }
}

/// Whether one of the offers is that of the wait with this since.
pub(crate) fn has_offer_of(offers: &[Offer], since: u64) -> bool
    ensures { result ≡ list_any (is_offer_of since) offers.now }
{
    offers.iter().any(|offer| offer.since == since)
}

/// Whether fewer wait for an offer than there are.
#[tactic(auto, unfolding(machine::specs::Holds::has_offer))]
pub fn has_offer(object: Option<&Object>, before: u64) -> bool
    ensures { result ≡ has_offer before (option_copied object.entry) }
{
    match object {
        Some(Object::Channel(offers)) => before < offers.len() as u64,
        _ => false,
    }
}

/// Whether the event is set.
pub fn is_flagged(object: Option<&Object>) -> bool
    ensures { result ≡ is_flagged (option_copied object.entry) }
{
    match object {
        Some(Object::Event(flag, _)) => *flag,
        _ => false,
    }
}

/// Whether the greenlet owns the lock.
pub fn is_owner(object: Option<&Object>, g: u32) -> bool
    ensures { result ≡ is_owner g (option_copied object.entry) }
{
    match object {
        Some(Object::Lock(Some(h), _)) => g == *h,
        _ => false,
    }
}
