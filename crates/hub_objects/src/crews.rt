//! Groups and pools: a greenlet leaves them at its end.
ghost use Rattle.std.specs.Prelude.{◌≡◌, ◌<◌, ◌≤◌, ◌==◌, Some, length, map, filter, not, slice_get, slice_index, slice_set, unwrap_or};
ghost use Rattle.machine.specs.Objects.{no_object, without_member};
ghost use Rattle.hub_objects.specs.Memberships.{IsMemberOnce, members_of, times};

use crate::memberships::Membership;
use machine::state::Object;
use scenario_tree::Items;

/// The greenlet, which may be a member there, is no member of any group or pool any more.
#[tactic(auto, using(crate::proofs::Belonging::leaves_none, crate::proofs::Belonging::leaves_one, crate::proofs::Belonging::once_at))]
pub fn leave_those(objects: &mut Vec<Object>, membership: Membership, g: u32)
    requires { IsMemberOnce g membership objects.old.items }
    ensures { objects.new.items ≡ map (without_member g) objects.old.items }
{
    match membership {
        Membership::Nowhere => {}
        Membership::At(o) => leave_one(objects, o, g),
        Membership::Anywhere => leave_each(objects, g),
    }
}

/// The greenlet is no member of any group or pool any more.
fn leave_each(objects: &mut Vec<Object>, g: u32)
    ensures { objects.new.items ≡ map (without_member g) objects.old.items }
{
    leave_all(objects, g);
}

/// The greenlet is no member of any of these any more.
fn leave_all(objects: &mut [Object], g: u32)
    ensures { objects.new ≡ map (without_member g) objects.old }
{
    for i in 0..objects.len() {
        leave_object(&mut objects[i], g);
    }
}

/// The greenlet, which is a member there once at most, is no member of the object of this number any more.
fn leave_one(objects: &mut Vec<Object>, o: u32, g: u32)
    requires { times g (members_of (slice_get objects.old.items o)) ≤ 1 }
    ensures { objects.new.items ≡ slice_set objects.old.items o (without_member g (unwrap_or (slice_get objects.old.items o) no_object)) }
{
    leave_at(objects, o, g);
}

/// The greenlet, which is a member there once at most, is no member of the object of this number, if there is one, any
/// more.
#[tactic(auto, using(crate::proofs::ObjectSets::left_set, crate::proofs::ObjectSets::object_out, crate::proofs::Belonging::once_there))]
fn leave_at(objects: &mut [Object], o: u32, g: u32)
    requires { times g (members_of (slice_get objects.old o)) ≤ 1 }
    ensures { objects.new ≡ slice_set objects.old o (without_member g (unwrap_or (slice_get objects.old o) no_object)) }
{
    if (o as usize) < objects.len() {
        leave_object_once(&mut objects[o as usize], g);
    }
}

/// The greenlet, which is a member once at most, is no member of the object any more.
fn leave_object_once(object: &mut Object, g: u32)
    requires { times g (members_of (Some object.old)) ≤ 1 }
    ensures { object.new ≡ without_member g object.old }
{
    if let Object::Crew(_, members) = object {
        leave_once(members, g);
    }
}

/// The greenlet is no member of the object any more.
fn leave_object(object: &mut Object, g: u32)
    ensures { object.new ≡ without_member g object.old }
{
    if let Object::Crew(_, members) = object {
        leave(members, g);
    }
}

/// Whether the member at this place is the greenlet.
fn is_at(members: &Items<u32>, at: usize, g: u32) -> bool
    requires { at < length members.now }
    ensures { result ≡ (slice_index members.now at == g) }
{
    members.as_slice()[at] == g
}

/// The greenlet is no member any more.
fn leave(members: &mut Items<u32>, g: u32)
    ensures { members.new ≡ filter (λ h. not (h == g)) members.old }
{
    let mut i = 0;
    while i < members.len() {
        if is_at(members, i, g) {
            members.remove(i);
        } else {
            i += 1;
        }
    }
}

/// The greenlet, which is a member once at most, is none any more. Looks at no member behind it.
fn leave_once(members: &mut Items<u32>, g: u32)
    requires { times g members.old ≤ 1 }
    ensures { members.new ≡ filter (λ h. not (h == g)) members.old }
{
    for i in 0..members.len() {
        if is_at(members, i, g) {
            members.remove(i);
            return;
        }
    }
}
