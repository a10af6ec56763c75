//! What the steps of the hub do to its objects, and what they read of them.
ghost use Rattle.std.specs.Prelude.{◌≡◌, ◌<◌, ◌+◌, ◌^◌, length, map, slice_get, OnOk, IfOk};
ghost use Rattle.std.specs.Option.{option_copied};
ghost use Rattle.machine.specs.Deliveries.{since_of_wake, without_offer_by};
ghost use Rattle.machine.specs.Holds.{earlier, is_take};
ghost use Rattle.machine.specs.Objects.{item_of, is_left, is_shut, name_of_object, object_at, offer_of, with_item_taken, with_object, with_offer_taken, without_member};
ghost use Rattle.machine.specs.Request.{finishes, releases};
ghost use Rattle.machine.specs.Waits.{posted};
ghost use Rattle.hub_objects.specs.Changes.{added, changed};
ghost use Rattle.hub_objects.specs.Counted.{AdditionFits, ChangeFits, MayCount};
ghost use Rattle.hub_objects.specs.Releases.{refused};

use crate::ahead::earlier;
use crate::hub::Hub;
use crate::order::items_stand_in_order;
use crate::touched::{touch_crews, touch_offers};
use crate::unawaited::touch_awaited;
use gv_values::{FaultKind, Job, Name, Value};
use hub_items::WaitKind;
use hub_objects::{
    Addition, Change, Posted, Release, has_task, is_left, is_shut, item_of, name_at, release_of,
};
use machine::state::{Object, Post};
use std::alloc::{AllocError, Global};
use trace_text::Line;

impl Hub {
    /// The object of this number.
    pub fn object(&self, o: u32) -> Option<&Object>
        ensures { option_copied result ≡ slice_get self.now.objects o }
    {
        self.base.objects.get(o)
    }

    /// The name of the object of this number.
    pub fn name_of_object(&self, o: u32) -> Name
        requires declared { o < length self.now.scenario.objects }
        ensures { result ≡ name_of_object o self.now }
    {
        name_at(self.base.code.objects(), o)
    }

    /// Changes the object of this number, in one step. Where nobody waits at it, no later settling looks at it.
    pub fn change(&mut self, o: u32, change: Change)
        requires { ChangeFits change (slice_get self.old.objects o) }
        ensures { self.new ≡ with_object o (changed change (object_at o self.old)) self.old }
    {
        items_stand_in_order(&self.held);
        touch_awaited(&mut self.touched, &self.held, o);
        self.base.objects.change(o, change);
    }

    /// Adds this to the object of this number, as `change` does. `AllocError`: memory is wanting; the hub is given up.
    pub fn add_to(&mut self, o: u32, addition: Addition) -> Result<(), AllocError>
        requires { AdditionFits addition (slice_get self.old.objects o) }
        ensures { OnOk result (self.new ≡ with_object o (added addition (object_at o self.old)) self.old) }
    {
        items_stand_in_order(&self.held);
        touch_awaited(&mut self.touched, &self.held, o);
        self.base.objects.add(o, addition)
    }

    /// Takes the item of the queue that is next; none where there is no item. Looks at each item of a priority queue.
    pub fn take_item(&mut self, o: u32) -> Value
        ensures item { result ≡ item_of (object_at o self.old) }
        ensures taken { self.new ≡ with_object o (with_item_taken (object_at o self.old)) self.old }
    {
        items_stand_in_order(&self.held);
        touch_awaited(&mut self.touched, &self.held, o);
        self.base.objects.take_item(o)
    }

    /// Takes the oldest offer of the channel, and gives its value; none where there is no offer. Moves the others up.
    pub fn take_offer(&mut self, o: u32) -> Value
        ensures value { result ≡ offer_of (object_at o self.old) }
        ensures taken { self.new ≡ with_object o (with_offer_taken (object_at o self.old)) self.old }
    {
        items_stand_in_order(&self.held);
        touch_awaited(&mut self.touched, &self.held, o);
        self.base.objects.take_offer(o)
    }

    /// The greenlet leaves its group or pool. Looks at the members of that one alone.
    pub fn leave_crews(&mut self, g: u32)
        ensures { self.new ≡ record self.old { objects = map (without_member g) self.old.objects } }
    {
        items_stand_in_order(&self.held);
        touch_crews(&mut self.touched, &self.base.objects, g);
        self.base.objects.leave(g);
    }

    /// What the greenlet offers on a channel goes, where it is still there. Looks at each offer.
    pub fn withdraw_offer(&mut self, g: u32)
        ensures { self.new ≡ without_offer_by (since_of_wake g self.old.items) self.old }
    {
        if let Some(since) = self.held.since_of_wake(g) {
            items_stand_in_order(&self.held);
            touch_offers(&mut self.touched, self.base.objects.as_slice(), since);
            self.base.objects.withdraw(since);
        }
    }

    /// A copy of the item of the queue that is next, which stays there. Looks at each item of a priority queue.
    /// `AllocError`: memory is wanting.
    pub fn item_of(&self, alloc: Global, o: u32) -> Result<Value, AllocError>
        ensures { IfOk result (λ value. value ≡ item_of (object_at o self.now)) }
    {
        match self.base.objects.get(o) {
            Some(object) => Ok(item_of(alloc, object)?),
            None => Ok(Value::Nothing),
        }
    }

    /// Whether the queue is shut.
    pub fn is_shut(&self, o: u32) -> bool
        ensures { result ≡ is_shut (object_at o self.now) }
    {
        is_shut(self.base.objects.get(o))
    }

    /// Whether the getters of the queue from before this since leave an item. Looks at each of them.
    pub fn has_item_left(&self, o: u32, since: u64) -> bool
        ensures { result ≡ is_left (earlier (is_take o) since self.now.items) (object_at o self.now) }
    {
        let before = earlier(&self.held, WaitKind::Take, o, since);
        is_left(self.base.objects.get(o), before)
    }

    /// The greenlet gives back a unit or a lock, or is refused by a fault.
    #[tactic(auto, using(hub_objects::proofs::Releasing::released))]
    pub fn release(&mut self, g: u32, o: u32) -> Option<FaultKind>
        requires { MayCount 1 (slice_get self.old.objects o) }
        ensures { releases g o (object_at o self.old) self.old ≡ refused result self.new }
    {
        match release_of(self.base.objects.get(o), g) {
            Release::Refused(kind) => Some(kind),
            Release::Nothing => None,
            Release::Unit => {
                self.change(o, Change::Unit);
                None
            }
            Release::Owner => {
                self.change(o, Change::OwnerGone(g));
                None
            }
        }
    }

    /// A task of the queue is done, or refused by a fault where none is unfinished.
    #[tactic(auto, using(hub_objects::proofs::Releasing::finished))]
    pub fn finish(&mut self, o: u32) -> Option<FaultKind>
        ensures { finishes o (object_at o self.old) self.old ≡ refused result self.new }
    {
        if has_task(self.base.objects.get(o)) {
            self.change(o, Change::TaskDone);
            None
        } else {
            Some(FaultKind::ValueError)
        }
    }

    /// Posts a job of the greenlet to a native pool, and gives its number. `AllocError`: memory is wanting; the hub is
    /// given up.
    pub fn post(&mut self, g: u32, o: u32, job: Job, takes: u64) -> Result<u32, AllocError>
        requires number { length self.old.jobs + 1 < 2 ^ 32 }
        requires slot { MayCount 1 (slice_get self.old.objects o) }
        ensures posted { OnOk result (self.new ≡ posted g o job takes self.old) }
        ensures number { IfOk result (λ n. n ≡ length self.old.jobs + 1) }
    {
        let number = self.base.jobs.len() as u32 + 1;
        self.base.jobs.reserve(1)?;
        self.base.posts.reserve(1)?;
        self.base.lines.reserve(1)?;
        items_stand_in_order(&self.held);
        self.touched.touch(Some(o));
        self.base.objects.change(o, Change::SlotTaken);
        self.base.jobs.push_reserved(Posted::new(job, o));
        self.base.posts.push_reserved(Post { number, job, takes });
        self.base.lines.push_reserved(Line::Job {
            number,
            greenlet: g,
            job,
        });
        Ok(number)
    }
}
