//! The objects in order of declaration, and what a step does to one of them.
ghost use Rattle.std.specs.Prelude.{◌≡◌, ◌<◌, ◌≤◌, ◌+◌, ◌-◌, length, map, slice_get, slice_set, unwrap_or, OnOk, OnErr, IfOk, Some};
ghost use Rattle.std.specs.Option.{option_copied};
ghost use Rattle.machine.specs.Objects.{item_of, offer_of, with_flag, no_object, with_item, with_unit_taken, with_owner, with_item_taken, with_shut, without_member, with_offer_taken, without_offer, with_slot_taken, with_slot_freed};
ghost use Rattle.machine.specs.Run.{object_of};
ghost use Rattle.machine.specs.declared.state.Object.{Object as Shown};
ghost use Rattle.hub_objects.specs.Changes.{added, changed, with_unit, with_owner_gone, with_task_done};
ghost use Rattle.hub_objects.specs.Counted.{AdditionFits, AreCounted, ChangeFits, IsCounted, MayCount};
ghost use Rattle.hub_objects.specs.declared.objects.Change.{Change as AnyChange};
ghost use Rattle.hub_objects.specs.Memberships.{IsMember};

use crate::additions::{Addition, add_in, member_of};
use crate::crews::leave_those;
use crate::memberships::{Membership, forget, join, membership_in};
use crate::offers::{take_offer_in, withdraw_each};
use crate::queues::take_item_in;
use gv_values::{Outcome, Value};
use machine::queued::Queued;
use machine::state::Object;
use scenario_tree::{Declaration, Items, Object as Kind};
use std::alloc::{AllocError, Global};
use std::collections::LinkedList;
use std::marker::Model;
use std::mem;

/// What a step does to an object that takes no memory. An object of another kind stays as it is.
#[derive(Drop)]
pub enum Change {
    /// An event is set once more, or cleared.
    Flag(bool),
    /// This is in the result, in place of what stood.
    Put(Outcome),
    /// A queue has one item and one unfinished task more.
    Item(Queued),
    /// A semaphore has one unit more.
    Unit,
    /// It has one unit less.
    UnitTaken,
    /// This greenlet owns the lock once more.
    Owner(u32),
    /// This greenlet owns the lock once less.
    OwnerGone(u32),
    /// A queue has one unfinished task less.
    TaskDone,
    /// A queue is shut, and whether its items go at once.
    Shut(bool),
    /// A slot of a native pool is taken.
    SlotTaken,
    /// A slot of a native pool is free again.
    SlotFreed,
}

/// The objects in order of declaration; an object's number is its place.
#[derive(Drop)]
pub struct Objects {
    all: Vec<Object>,
    /// By greenlet.
    memberships: Vec<Membership>,
}

impl Model for Objects {
    ghost use Rattle.std.specs.Prelude.{List};
    ghost use Rattle.machine.specs.declared.state.Object.{Object as Shown};
    ghost use Rattle.hub_objects.specs.Memberships.{AreKept};

    ghost Value = { List Shown };

    ghost view = { λ os. os.all.items };

    ghost invariant = { λ os. AreKept os.memberships.items os.all.items };
}

impl Objects {
    /// The objects as they are declared. `AllocError`: memory is wanting.
    pub fn declared(alloc: Global, declarations: &[Declaration]) -> Result<Objects, AllocError>
        requires counted { AreCounted (map (λ d. object_of d.object) declarations.now) }
        ensures { IfOk result (λ objects. objects ≡ map (λ d. object_of d.object) declarations.now) }
    {
        let all = objects_of(alloc, declarations)?;
        Ok(Objects {
            all,
            memberships: Vec::new(alloc),
        })
    }

    /// The object of this number.
    pub fn get(&self, o: u32) -> Option<&Object>
        ensures { option_copied result ≡ slice_get self.now o }
    {
        self.all.get(o as usize)
    }

    /// The objects, in order of declaration.
    pub fn as_slice(&self) -> &[Object]
        ensures same { result.now ≡ self.now }
        ensures counted { AreCounted self.now }
    {
        self.all.as_slice()
    }

    /// Does this to the object of this number.
    pub fn change(&mut self, o: u32, change: Change)
        requires { ChangeFits change (slice_get self.old o) }
        ensures { self.new ≡ slice_set self.old o (changed change (unwrap_or (slice_get self.old o) no_object)) }
    {
        change_in(&mut self.all, o, change);
    }

    /// Adds this to the object of this number. `AllocError`: memory is wanting; nothing has changed.
    pub fn add(&mut self, o: u32, addition: Addition) -> Result<(), AllocError>
        requires { AdditionFits addition (slice_get self.old o) }
        ensures added { OnOk result (self.new ≡ slice_set self.old o (added addition (unwrap_or (slice_get self.old o) no_object))) }
        ensures err { OnErr result (self.new ≡ self.old) }
    {
        let Ok(()) = join(&mut self.memberships, member_of(&addition), o) else {
            drop(addition);
            return Err(AllocError);
        };
        add_in(&mut self.all, o, addition)?;
        Ok(())
    }

    /// Takes the item of the queue that is next; none where there is no item.
    pub fn take_item(&mut self, o: u32) -> Value
        ensures item { result ≡ item_of (unwrap_or (slice_get self.old o) no_object) }
        ensures taken { self.new ≡ slice_set self.old o (with_item_taken (unwrap_or (slice_get self.old o) no_object)) }
    {
        take_item_in(&mut self.all, o)
    }

    /// Takes the oldest offer of the channel, and gives its value; none where there is no offer.
    pub fn take_offer(&mut self, o: u32) -> Value
        ensures value { result ≡ offer_of (unwrap_or (slice_get self.old o) no_object) }
        ensures taken { self.new ≡ slice_set self.old o (with_offer_taken (unwrap_or (slice_get self.old o) no_object)) }
    {
        take_offer_in(&mut self.all, o)
    }

    /// Where the greenlet may be a member. Looks at no object.
    #[tactic(auto, using(crate::proofs::Belonging::member_there))]
    pub fn membership(&self, g: u32) -> Membership
        ensures { IsMember g result self.now }
    {
        membership_in(&self.memberships, g)
    }

    /// The greenlet leaves its group or pool. Looks at the members of those alone where it may be one; if that is one
    /// alone, at none behind it.
    pub fn leave(&mut self, g: u32)
        ensures { self.new ≡ map (without_member g) self.old }
    {
        let membership = membership_in(&self.memberships, g);
        leave_those(&mut self.all, membership, g);
        forget(&mut self.memberships, g);
    }

    /// The offer of the Wake with this since goes, where there is one.
    pub fn withdraw(&mut self, since: u64)
        ensures { self.new ≡ map (without_offer since) self.old }
    {
        withdraw_each(&mut self.all, since);
    }
}

/// The object before the first move.
fn object_of(alloc: Global, kind: Kind) -> Object
    ensures { result ≡ object_of kind }
{
    match kind {
        Kind::Event => Object::Event(false, 0),
        Kind::Result => Object::Result(None),
        Kind::Semaphore(n) => Object::Semaphore(n, None),
        Kind::BoundedSemaphore(n) => Object::Semaphore(n, Some(n)),
        Kind::Lock => Object::Lock(None, 0),
        Kind::Queue(order, size) => Object::Queue(order, size, LinkedList::new(alloc), 0, false),
        Kind::Channel => Object::Channel(Items::new(alloc)),
        Kind::Group => Object::Crew(None, Items::new(alloc)),
        Kind::Pool(n) => Object::Crew(Some(n), Items::new(alloc)),
        Kind::Native(n) => Object::Native(n, 0),
    }
}

/// The objects before the first move, in the order of their declarations.
fn objects_of(alloc: Global, declarations: &[Declaration]) -> Result<Vec<Object>, AllocError>
    ensures { IfOk result (λ objects. objects.items ≡ map (λ d. object_of d.object) declarations.now) }
{
    let mut objects = Vec::new(alloc);
    for declaration in declarations {
        objects.push(object_of(alloc, declaration.object))?;
    }
    Ok(objects)
}

/// Does this to the object of this number.
fn change_in(objects: &mut Vec<Object>, o: u32, change: Change)
    requires counted { AreCounted objects.old.items }
    requires fits { ChangeFits change (slice_get objects.old.items o) }
    ensures changed { objects.new.items ≡ slice_set objects.old.items o (changed change (unwrap_or (slice_get objects.old.items o) no_object)) }
    ensures counted { AreCounted objects.new.items }
{
    change_at(objects, o, change);
}

/// Does this to the object of this number, if there is one.
#[tactic(auto, using(crate::proofs::ObjectSets::object_set, crate::proofs::ObjectSets::object_out))]
fn change_at(objects: &mut [Object], o: u32, change: Change)
    requires counted { AreCounted objects.old }
    requires fits { ChangeFits change (slice_get objects.old o) }
    ensures changed { objects.new ≡ slice_set objects.old o (changed change (unwrap_or (slice_get objects.old o) no_object)) }
    ensures counted { AreCounted objects.new }
{
    if o as usize >= objects.len() {
        drop(change);
        return;
    }
    change_one(&mut objects[o as usize], change);
}

/// Does this to the object.
fn change_one(object: &mut Object, change: Change)
    requires { ChangeFits change (Some object.old) }
    ensures changed { object.new ≡ changed change object.old }
    ensures counted { IsCounted object.old → IsCounted object.new }
{
    match change {
        Change::Flag(flag) => set_flag(object, flag),
        Change::Put(outcome) => put(object, outcome),
        Change::Item(item) => put_item(object, item),
        Change::Unit => add_unit(object),
        Change::UnitTaken => take_unit(object),
        Change::Owner(g) => own(object, g),
        Change::OwnerGone(g) => disown(object, g),
        Change::TaskDone => end_task(object),
        Change::Shut(immediate) => shut(object, immediate),
        Change::SlotTaken => take_slot(object),
        Change::SlotFreed => free_slot(object),
    }
}

fn set_flag(object: &mut Object, flag: bool)
    requires { ChangeFits (AnyChange.Flag flag) (Some object.old) }
    ensures changed { object.new ≡ with_flag flag object.old }
    ensures counted { IsCounted object.old → IsCounted object.new }
{
    if let Object::Event(is_set, sets) = object {
        if flag {
            *sets += 1;
        }
        *is_set = flag;
    }
}

fn put(object: &mut Object, outcome: Outcome)
    ensures changed { object.new ≡ Shown.Result (Some outcome) }
    ensures counted { IsCounted object.new }
{
    drop(mem::replace(object, Object::Result(Some(outcome))));
}

fn put_item(object: &mut Object, item: Queued)
    requires { MayCount 1 (Some object.old) }
    ensures changed { object.new ≡ with_item item object.old }
    ensures counted { IsCounted object.old → IsCounted object.new }
{
    if let Object::Queue(_, _, items, unfinished, _) = object {
        item.put_behind(items);
        *unfinished += 1;
    }
}

fn add_unit(object: &mut Object)
    requires { MayCount 1 (Some object.old) }
    ensures changed { object.new ≡ with_unit object.old }
    ensures counted { IsCounted object.old → IsCounted object.new }
{
    if let Object::Semaphore(counter, _) = object {
        *counter += 1;
    }
}

fn take_unit(object: &mut Object)
    ensures changed { object.new ≡ with_unit_taken object.old }
    ensures counted { IsCounted object.old → IsCounted object.new }
{
    if let Object::Semaphore(counter, _) = object {
        *counter = counter.saturating_sub(1);
    }
}

fn own(object: &mut Object, g: u32)
    requires { MayCount 1 (Some object.old) }
    ensures changed { object.new ≡ with_owner g object.old }
    ensures counted { IsCounted object.old → IsCounted object.new }
{
    if let Object::Lock(owner, depth) = object {
        *depth += 1;
        *owner = Some(g);
    }
}

fn disown(object: &mut Object, g: u32)
    ensures changed { object.new ≡ with_owner_gone g object.old }
    ensures counted { IsCounted object.old → IsCounted object.new }
{
    if let Object::Lock(owner, depth) = object {
        *depth = depth.saturating_sub(1);
        *owner = if *depth == 0 { None } else { Some(g) };
    }
}

fn end_task(object: &mut Object)
    ensures changed { object.new ≡ with_task_done object.old }
    ensures counted { IsCounted object.old → IsCounted object.new }
{
    if let Object::Queue(_, _, _, unfinished, _) = object {
        *unfinished = unfinished.saturating_sub(1);
    }
}

fn shut(object: &mut Object, immediate: bool)
    ensures changed { object.new ≡ with_shut immediate object.old }
    ensures counted { IsCounted object.old → IsCounted object.new }
{
    if let Object::Queue(_, _, items, unfinished, shut) = object {
        if immediate {
            *unfinished = unfinished.saturating_sub(items.len() as u64);
            items.clear();
        }
        *shut = true;
    }
}

fn take_slot(object: &mut Object)
    requires { MayCount 1 (Some object.old) }
    ensures changed { object.new ≡ with_slot_taken object.old }
    ensures counted { IsCounted object.old → IsCounted object.new }
{
    if let Object::Native(_, outstanding) = object {
        *outstanding += 1;
    }
}

fn free_slot(object: &mut Object)
    ensures changed { object.new ≡ with_slot_freed object.old }
    ensures counted { IsCounted object.old → IsCounted object.new }
{
    if let Object::Native(_, outstanding) = object {
        *outstanding = outstanding.saturating_sub(1);
    }
}
