//! The offers of a channel: one comes, the oldest is taken, and one goes with its wait.
ghost use Rattle.std.specs.Prelude.{◌≡◌, ◌<◌, length, map, filter, not, drop, remove, slice_get, slice_set, unwrap_or, Some, OnOk, OnErr};
ghost use Rattle.machine.specs.declared.state.Object.{Object as AnyObject};
ghost use Rattle.machine.specs.declared.state.Offer.{Offer as AnyOffer};
ghost use Rattle.machine.specs.Holds.{is_offer_of};
ghost use Rattle.machine.specs.Objects.{no_object, with_offer, with_offer_taken, without_offer, offer_of};
ghost use Rattle.hub_objects.specs.Counted.{AreCounted, IsCounted};

use gv_values::Value;
use machine::state::{Object, Offer};
use scenario_tree::Items;
use std::alloc::AllocError;

/// A channel has one offer more, the newest, that of the Wake with this since.
pub fn add_offer(object: &mut Object, value: Value, since: u64) -> Result<(), AllocError>
    ensures added { OnOk result (object.new ≡ with_offer value since object.old) }
    ensures err { OnErr result (object.new ≡ object.old) }
    ensures counted { IsCounted object.old → IsCounted object.new }
{
    if let Object::Channel(offers) = object {
        offers.push(Offer { value, since })?;
    }
    Ok(())
}

/// Takes the first offer, and gives its value; none where there is no offer.
#[tactic(auto, using(crate::proofs::Leaving::none_first, crate::proofs::Leaving::first_offer, crate::proofs::Leaving::no_offer))]
fn take_first(offers: &mut Items<Offer>) -> Value
    ensures value { result ≡ offer_of (AnyObject.Channel offers.old) }
    ensures rest { offers.new ≡ drop 1 offers.old }
{
    if offers.len() == 0 {
        return Value::Nothing;
    }
    let Offer { value, since: _ } = offers.remove(0);
    value
}

/// Takes the oldest offer of a channel, and gives its value.
fn take_offer(object: &mut Object) -> Value
    ensures value { result ≡ offer_of object.old }
    ensures taken { object.new ≡ with_offer_taken object.old }
    ensures counted { IsCounted object.old → IsCounted object.new }
{
    match object {
        Object::Channel(offers) => take_first(offers),
        _ => Value::Nothing,
    }
}

/// Takes the oldest offer of the object of this number.
pub fn take_offer_in(objects: &mut Vec<Object>, o: u32) -> Value
    requires { AreCounted objects.old.items }
    ensures value { result ≡ offer_of (unwrap_or (slice_get objects.old.items o) no_object) }
    ensures taken { objects.new.items ≡ slice_set objects.old.items o (with_offer_taken (unwrap_or (slice_get objects.old.items o) no_object)) }
    ensures counted { AreCounted objects.new.items }
{
    take_offer_at(objects, o)
}

/// Takes the oldest offer of the object of this number, if there is one.
#[tactic(auto, using(crate::proofs::ObjectSets::offer_taken_set, crate::proofs::ObjectSets::offer_there, crate::proofs::ObjectSets::offer_out, crate::proofs::ObjectSets::object_out))]
fn take_offer_at(objects: &mut [Object], o: u32) -> Value
    requires { AreCounted objects.old }
    ensures value { result ≡ offer_of (unwrap_or (slice_get objects.old o) no_object) }
    ensures taken { objects.new ≡ slice_set objects.old o (with_offer_taken (unwrap_or (slice_get objects.old o) no_object)) }
    ensures counted { AreCounted objects.new }
{
    if o as usize >= objects.len() {
        return Value::Nothing;
    }
    take_offer(&mut objects[o as usize])
}

/// No channel has an offer of the Wake with this since any more.
pub fn withdraw_each(objects: &mut Vec<Object>, since: u64)
    ensures { objects.new.items ≡ map (without_offer since) objects.old.items }
{
    withdraw_all(objects, since);
}

/// None of these has an offer of the Wake with this since any more.
fn withdraw_all(objects: &mut [Object], since: u64)
    ensures { objects.new ≡ map (without_offer since) objects.old }
{
    for i in 0..objects.len() {
        if let Object::Channel(offers) = &mut objects[i] {
            withdraw(offers, since);
        }
    }
}

/// Whether the offer at this place is that of the Wake with this since.
fn is_at(offers: &Items<Offer>, at: usize, since: u64) -> bool
    requires { at < length offers.now }
    ensures { (offer : AnyOffer) → slice_get offers.now at ≡ Some offer → result ≡ is_offer_of since offer }
{
    offers.as_slice()[at].since == since
}

/// The offer at this place goes.
fn drop_at(offers: &mut Items<Offer>, at: usize)
    requires { at < length offers.old }
    ensures { offers.new ≡ remove offers.old at }
{
    offers.remove(at);
}

/// The offer of the Wake with this since goes.
fn withdraw(offers: &mut Items<Offer>, since: u64)
    ensures { offers.new ≡ filter (λ offer. not (is_offer_of since offer)) offers.old }
{
    let mut i = 0;
    while i < offers.len() {
        if is_at(offers, i, since) {
            drop_at(offers, i);
        } else {
            i += 1;
        }
    }
}
