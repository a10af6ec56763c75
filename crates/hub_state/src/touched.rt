//! What was touched since the last settling: it need look at nothing else.
ghost use Rattle.std.specs.Prelude.{◌≡◌, ◌<◌, ◌≤◌, ◌^◌, Some, None, IfSome, OnOk, if◌then◌else◌, length};
ghost use Rattle.std.specs.Option.{option_copied};
ghost use Rattle.item_places.specs.Items.{Differ};
ghost use Rattle.machine_settling.specs.Classes.{class_of, class_of_wait};
ghost use Rattle.machine_settling.specs.Steps.{has_member, has_offer_by};
ghost use Rattle.held_items.specs.Entries.{flat};
ghost use Rattle.hub_state.specs.Touched.{HasPlaces, HasTarget, HasTouched, IsRoomier, awaited, left_by, none_touched, untouched, waited_at, with_end, with_made, with_target, with_touched, with_waited};

use held_items::{HeldItems, Target, target_of};
use hub_items::Gone;
use hub_objects::{Membership, Objects, has_member, has_offer_by};
use machine::items::{Delivery, Waiting};
use machine::state::Object;
use number_set::NumberSet;
use std::alloc::{AllocError, Global};
use std::marker::Model;

/// What was touched since the last settling. Touching takes no memory: what has no place is passed over.
#[derive(Drop)]
pub(crate) struct Touched {
    /// A greenlet has ended or a job has arrived, or somebody began to wait for several ends that have come already.
    several: bool,
    /// The numbers of the greenlets and jobs that this is so of, and that somebody waits for alone.
    ends: NumberSet,
    /// The objects that something was done to, or where somebody came or went.
    objects: NumberSet,
    /// The slots of the items that were made.
    made: NumberSet,
}

impl Model for Touched {
    ghost use Rattle.hub_state.specs.Touched.{SeenTouched};

    ghost Value = { SeenTouched };

    ghost view = { λ t. record { several = t.several; ends = t.ends.list; objects = t.objects.list; made = t.made.list; targets = t.ends.room; rooms = t.objects.room; slots = t.made.room } };
}

impl Touched {
    /// Nothing, and no place.
    pub(crate) fn new(alloc: Global) -> Touched
        ensures { result ≡ none_touched }
    {
        Touched {
            several: false,
            ends: NumberSet::new(alloc),
            objects: NumberSet::new(alloc),
            made: NumberSet::new(alloc),
        }
    }

    /// Makes a place for each of so many objects. `AllocError`: memory is wanting; what was touched stays.
    pub(crate) fn reserve(&mut self, objects: usize) -> Result<(), AllocError>
        ensures same { IsRoomier self.old self.new }
        ensures room { OnOk result (objects ≤ self.new.rooms) }
    {
        self.objects.reserve(objects)
    }

    /// Makes a place for this object. `AllocError`: memory is wanting; what was touched stays.
    pub(crate) fn reserve_for(&mut self, object: Option<u32>) -> Result<(), AllocError>
        ensures same { IsRoomier self.old self.new }
        ensures room { OnOk result (IfSome object (λ o. o < self.new.rooms)) }
    {
        match object {
            Some(o) => self.reserve(o as usize + 1),
            None => Ok(()),
        }
    }

    /// Makes a place for this target. `AllocError`: memory is wanting; what was touched stays.
    fn reserve_target(&mut self, target: Option<Target>) -> Result<(), AllocError>
        ensures same { IsRoomier self.old self.new }
        ensures room { OnOk result (HasTarget self.new.targets target) }
    {
        match target {
            Some(Target::One(number)) => self.ends.reserve(number as usize + 1),
            Some(Target::Several) => Ok(()),
            None => Ok(()),
        }
    }

    /// Makes a place for what an item that delivers this waits for. `AllocError`: memory is wanting; what was touched
    /// stays.
    pub(crate) fn reserve_awaited(&mut self, delivery: &Delivery) -> Result<(), AllocError>
        ensures same { IsRoomier self.old self.new }
        ensures room { OnOk result (HasPlaces self.new (class_of delivery.now)) }
    {
        self.reserve_for(object_of(delivery))?;
        self.reserve_target(target_of(delivery))?;
        Ok(())
    }

    /// Makes a place for the item in this slot. `AllocError`: memory is wanting; what was touched stays.
    pub(crate) fn reserve_slot(&mut self, slot: u32) -> Result<(), AllocError>
        ensures same { IsRoomier self.old self.new }
        ensures room { OnOk result (slot < self.new.slots) }
    {
        self.made.reserve(slot as usize + 1)
    }

    /// Touches the object, if it has a place.
    pub(crate) fn touch(&mut self, object: Option<u32>)
        ensures { self.new ≡ with_touched object self.old }
    {
        if let Some(o) = object {
            if (o as usize) < self.objects.room() {
                self.objects.insert(o);
            }
        }
    }

    /// Touches those who wait for this target, if it has a place.
    fn touch_target(&mut self, target: Option<Target>)
        ensures { self.new ≡ with_target target self.old }
    {
        match target {
            Some(Target::One(number)) => {
                if (number as usize) < self.ends.room() {
                    self.ends.insert(number);
                }
            }
            Some(Target::Several) => self.several = true,
            None => {}
        }
    }

    /// Touches those who wait for the greenlet or job of this number, alone or among several, if it has ended.
    pub(crate) fn touch_end(&mut self, ended: bool, number: u32)
        ensures { self.new ≡ with_end ended number self.old }
    {
        if ended {
            self.touch_target(Some(Target::Several));
            self.touch_target(Some(Target::One(number)));
        }
    }

    /// Touches what an item that delivers this waits for, where it holds.
    pub(crate) fn touch_awaited(&mut self, delivery: &Delivery, holds: bool)
        ensures { self.new ≡ with_waited holds (class_of delivery.now) self.old }
    {
        if holds {
            self.touch_target(target_of(delivery));
            self.touch(object_of(delivery));
        }
    }

    /// The item in this slot was made, if the slot has a place.
    pub(crate) fn touch_made(&mut self, slot: u32)
        ensures { self.new ≡ with_made slot self.old }
    {
        if (slot as usize) < self.made.room() {
            self.made.insert(slot);
        }
    }

    /// Whether those who wait for several ends are touched.
    pub(crate) fn several(&self) -> bool
        ensures { result ≡ self.now.several }
    {
        self.several
    }

    /// The numbers of the greenlets and jobs that were touched for those who wait for one alone, each once.
    pub(crate) fn ends(&self) -> &[u32]
        ensures list { result.now ≡ self.now.ends }
        ensures differ { Differ self.now.ends }
    {
        self.ends.as_slice()
    }

    /// The objects that were touched, each once.
    pub(crate) fn objects(&self) -> &[u32]
        ensures list { result.now ≡ self.now.objects }
        ensures differ { Differ self.now.objects }
    {
        self.objects.as_slice()
    }

    /// The slots of the items that were made, each once.
    pub(crate) fn made(&self) -> &[u32]
        ensures list { result.now ≡ self.now.made }
        ensures differ { Differ self.now.made }
    {
        self.made.as_slice()
    }

    /// All was looked at. Takes time for what was touched alone; the places stay.
    pub(crate) fn clear(&mut self)
        ensures { self.new ≡ untouched self.old }
    {
        self.several = false;
        self.ends.clear();
        self.objects.clear();
        self.made.clear();
    }
}

/// The object at which the wait is.
fn object_of_wait(waiting: &Waiting) -> Option<u32>
    ensures { result ≡ awaited (class_of_wait waiting.now) }
{
    match waiting {
        Waiting::Event(o, _) => Some(*o),
        Waiting::ResultGet(o) => Some(*o),
        Waiting::ResultWait(o) => Some(*o),
        Waiting::Acquire(o) => Some(*o),
        Waiting::Lock(o) => Some(*o),
        Waiting::Put(o, _) => Some(*o),
        Waiting::Take(o) => Some(*o),
        Waiting::Peek(o) => Some(*o),
        Waiting::Tasks(o) => Some(*o),
        Waiting::Place(o, _, _) => Some(*o),
        Waiting::MapPlace(o, _, _, _) => Some(*o),
        Waiting::Members(o) => Some(*o),
        Waiting::Slot(o, _, _) => Some(*o),
        Waiting::Offered(o) => Some(*o),
        Waiting::TakeOffer(o) => Some(*o),
        _ => None,
    }
}

/// The object at which the wait is, if there is one.
fn object_waited(waiting: Option<&Waiting>) -> Option<u32>
    ensures { result ≡ waited_at (option_copied waiting.entry) }
{
    match waiting {
        Some(waiting) => object_of_wait(waiting),
        None => None,
    }
}

/// The object at which the Wake waits that `gone` names, if it names one.
pub(crate) fn object_left(held: &HeldItems, gone: &Gone) -> Option<u32>
    ensures { result ≡ left_by gone.now (flat held.now.entries) }
{
    match gone {
        Gone::WaitOf(g) => object_waited(held.waiting_of(*g)),
        Gone::AtEnd(g, _) => object_waited(held.waiting_of(*g)),
        Gone::TimeoutsOf(_, _) => None,
        Gone::LinkNumbered(_) => None,
    }
}

/// The object at which the item waits that delivers this.
pub(crate) fn object_of(delivery: &Delivery) -> Option<u32>
    ensures { result ≡ awaited (class_of delivery.now) }
{
    match delivery {
        Delivery::Start(_, None) => None,
        Delivery::Start(_, Some(_)) => None,
        Delivery::Wake(_, waiting) => object_of_wait(waiting),
        Delivery::Late(_, _, _) => None,
        Delivery::Timeout(_, _, _) => None,
        Delivery::Kill(_, _) => None,
        Delivery::Link(_, _, _, _) => None,
    }
}

/// The object of this number, if it passes.
pub(crate) fn object_if(passes: bool, o: u32) -> Option<u32>
    ensures { result ≡ (if passes then Some o else None) }
{
    if passes { Some(o) } else { None }
}

/// Touches each group and pool with this member. Looks at no object where the greenlet is a member of one at most.
#[tactic(auto, using(crate::proofs::Touching::touched_nowhere, crate::proofs::Touching::touched_there))]
pub(crate) fn touch_crews(touched: &mut Touched, objects: &Objects, g: u32)
    requires { length objects.now ≤ 2 ^ 32 }
    ensures { HasTouched (has_member g) objects.now (length objects.now) touched.old touched.new }
{
    match objects.membership(g) {
        Membership::Nowhere => {}
        Membership::At(o) => touched.touch(Some(o)),
        Membership::Anywhere => touch_each_crew(touched, objects.as_slice(), g),
    }
}

/// Touches each of these groups and pools with this member. Looks at each member of each.
fn touch_each_crew(touched: &mut Touched, objects: &[Object], g: u32)
    requires { length objects.now ≤ 2 ^ 32 }
    ensures { HasTouched (has_member g) objects.now (length objects.now) touched.old touched.new }
{
    for i in 0..objects.len() {
        touched.touch(object_if(has_member(&objects[i], g), i as u32));
    }
}

/// Touches each channel with an offer of the Wake with this since.
pub(crate) fn touch_offers(touched: &mut Touched, objects: &[Object], since: u64)
    requires { length objects.now ≤ 2 ^ 32 }
    ensures { HasTouched (has_offer_by since) objects.now (length objects.now) touched.old touched.new }
{
    for i in 0..objects.len() {
        touched.touch(object_if(has_offer_by(&objects[i], since), i as u32));
    }
}
