//! What is read of an object.
ghost use Rattle.std.specs.Prelude.{◌≡◌, ◌<◌, ◌==◌, length, Some};
ghost use Rattle.std.specs.List.{list_any};
ghost use Rattle.std.specs.Option.{option_copied};
ghost use Rattle.machine.specs.Moves.{is_set_object, size_of_object, unfinished_of_object};
ghost use Rattle.machine.specs.Objects.{name_at};
ghost use Rattle.machine_settling.specs.Steps.{has_member, has_offer_by};

use crate::conditions::has_offer_of;
use gv_values::Name;
use machine::state::Object;
use scenario_tree::Declaration;

/// The name of the object of this number.
#[tactic(auto, using(crate::proofs::Reading::named))]
pub fn name_at(objects: &[Declaration], o: u32) -> Name
    requires { o < length objects.now }
    ensures { result ≡ name_at o objects.now }
{
    objects[o as usize].name
}

/// The flag of an event, or whether something was put into a result.
pub fn is_set_object(object: Option<&Object>) -> bool
    ensures { result ≡ is_set_object (option_copied object.entry) }
{
    match object {
        Some(Object::Event(flag, _)) => *flag,
        Some(Object::Result(outcome)) => outcome.is_some(),
        _ => false,
    }
}

/// The counter, the number of items, or the number of members.
pub fn size_of_object(object: Option<&Object>) -> u64
    ensures { result ≡ size_of_object (option_copied object.entry) }
{
    match object {
        Some(Object::Semaphore(counter, _)) => *counter,
        Some(Object::Queue(_, _, items, _, _)) => items.len() as u64,
        Some(Object::Crew(_, members)) => members.len() as u64,
        _ => 0,
    }
}

/// The unfinished tasks of a queue.
pub fn unfinished_of_object(object: Option<&Object>) -> u64
    ensures { result ≡ unfinished_of_object (option_copied object.entry) }
{
    match object {
        Some(Object::Queue(_, _, _, unfinished, _)) => *unfinished,
        _ => 0,
    }
}

/// Whether a group or pool has the greenlet as a member.
pub fn has_member(object: &Object, g: u32) -> bool
    ensures { result ≡ has_member g (Some object.now) }
{
    match object {
        Object::Crew(_, members) => is_among(members.as_slice(), g),
        _ => false,
    }
}

/// Whether the greenlet is one of these.
fn is_among(members: &[u32], g: u32) -> bool
    ensures { result ≡ list_any (λ h. h == g) members.now }
{
    members.contains(&g)
}

/// Whether a channel has an offer of the Wake with this since.
pub fn has_offer_by(object: &Object, since: u64) -> bool
    ensures { result ≡ has_offer_by since (Some object.now) }
{
    match object {
        Object::Channel(offers) => has_offer_of(offers.as_slice(), since),
        _ => false,
    }
}
