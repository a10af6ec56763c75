//! What a step adds to an object.
ghost use Rattle.std.specs.Prelude.{◌≡◌, slice_get, slice_set, unwrap_or, OnOk, OnErr, Some};
ghost use Rattle.machine.specs.Objects.{no_object, with_member};
ghost use Rattle.hub_objects.specs.Changes.{added, member_of};
ghost use Rattle.hub_objects.specs.Counted.{AdditionFits, AreCounted, IsCounted, MayCount};

use crate::offers::add_offer;
use gv_values::Value;
use machine::state::Object;
use std::alloc::AllocError;

/// What a step adds to an object, which takes memory. An object of another kind stays as it is.
#[derive(Drop)]
pub enum Addition {
    /// A channel has one offer more, that of the Wake with this since.
    Offer(Value, u64),
    /// A group or pool has one member more.
    Member(u32),
}

/// Whom the addition makes a member.
pub fn member_of(addition: &Addition) -> Option<u32>
    ensures { result ≡ member_of addition.now }
{
    match addition {
        Addition::Member(g) => Some(*g),
        _ => None,
    }
}

/// Adds this to the object of this number. `AllocError`: memory is wanting.
pub fn add_in(objects: &mut Vec<Object>, o: u32, addition: Addition) -> Result<(), AllocError>
    requires counted { AreCounted objects.old.items }
    requires fits { AdditionFits addition (slice_get objects.old.items o) }
    ensures added { OnOk result (objects.new.items ≡ slice_set objects.old.items o (added addition (unwrap_or (slice_get objects.old.items o) no_object))) }
    ensures err { OnErr result (objects.new.items ≡ objects.old.items) }
    ensures counted { AreCounted objects.new.items }
{
    add_at(objects, o, addition)
}

/// Adds this to the object of this number, if there is one.
#[tactic(auto, using(crate::proofs::ObjectSets::object_added, crate::proofs::ObjectSets::object_out))]
fn add_at(objects: &mut [Object], o: u32, addition: Addition) -> Result<(), AllocError>
    requires counted { AreCounted objects.old }
    requires fits { AdditionFits addition (slice_get objects.old o) }
    ensures added { OnOk result (objects.new ≡ slice_set objects.old o (added addition (unwrap_or (slice_get objects.old o) no_object))) }
    ensures err { OnErr result (objects.new ≡ objects.old) }
    ensures counted { AreCounted objects.new }
{
    if o as usize >= objects.len() {
        drop(addition);
        return Ok(());
    }
    add_one(&mut objects[o as usize], addition)
}

/// Adds this to the object.
fn add_one(object: &mut Object, addition: Addition) -> Result<(), AllocError>
    requires { AdditionFits addition (Some object.old) }
    ensures added { OnOk result (object.new ≡ added addition object.old) }
    ensures err { OnErr result (object.new ≡ object.old) }
    ensures counted { IsCounted object.old → IsCounted object.new }
{
    match addition {
        Addition::Offer(value, since) => add_offer(object, value, since),
        Addition::Member(g) => add_member(object, g),
    }
}

fn add_member(object: &mut Object, g: u32) -> Result<(), AllocError>
    requires { MayCount 1 (Some object.old) }
    ensures added { OnOk result (object.new ≡ with_member g object.old) }
    ensures err { OnErr result (object.new ≡ object.old) }
    ensures counted { IsCounted object.old → IsCounted object.new }
{
    if let Object::Crew(_, members) = object {
        members.push(g)?;
    }
    Ok(())
}
