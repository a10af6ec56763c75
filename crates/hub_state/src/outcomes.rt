//! What has ended, and which item holds.
ghost use Rattle.std.specs.Prelude.{◌≡◌, length, is_some, slice_get};
ghost use Rattle.std.specs.Option.{option_copied};
ghost use Rattle.gv_values.specs.declared.value.Whom.{Whom as Target};
ghost use Rattle.machine.specs.Holds.{delivery_holds, holds, wait_holds, outcome_of, is_done, all_done, done_among, newcomer_completes, earlier, is_place, has_place};
ghost use Rattle.held_items.specs.Entries.{SeenItems, flat};
ghost use Rattle.hub_items.specs.Lines.{IsAhead};
ghost use Rattle.hub_state.specs.Over.{itemless, whole};
ghost use Rattle.hub_state.specs.Waiters.{IsBefore, holds_in_line};

use crate::ahead::{ahead_of_last, earlier_than_last};
use crate::base::Base;
use crate::hub::Hub;
use gv_values::{Outcome, Whom, link_fits};
use hub_items::WaitKind;
use hub_objects::{
    all_finished, has_item, has_offer, has_place, has_result, has_room, has_set_since, has_slot,
    has_unit, is_deserted, is_flagged, is_free, is_owner, is_taken, job_at,
};
use machine::items::{Delivery, Item, Waiting};
use machine::state::Object;

impl Base {
    /// The object of this number.
    pub(crate) fn object(&self, o: u32) -> Option<&Object>
        ensures { option_copied result ≡ slice_get self.now.objects o }
    {
        self.objects.get(o)
    }

    /// What the greenlet ended with, if it did.
    pub(crate) fn outcome_of_greenlet(&self, g: u32) -> Option<&Outcome>
        ensures { option_copied result ≡ outcome_of (itemless self.now) (Target.Greenlet g) }
    {
        match self.greenlets.get(g) {
            Some(greenlet) => greenlet.outcome(),
            None => None,
        }
    }

    /// What the job came to, if it has arrived.
    pub(crate) fn outcome_of_job(&self, j: u32) -> Option<&Outcome>
        ensures { option_copied result ≡ outcome_of (itemless self.now) (Target.Job j) }
    {
        match job_at(&self.jobs, j) {
            Some(job) => job.outcome(),
            None => None,
        }
    }

    /// Whether the greenlet or job has ended.
    fn has_ended(&self, whom: Whom) -> bool
        ensures { result ≡ is_some (outcome_of (itemless self.now) whom) }
    {
        match whom {
            Whom::Greenlet(g) => self.outcome_of_greenlet(g).is_some(),
            Whom::Job(j) => self.outcome_of_job(j).is_some(),
        }
    }

    /// Whether the greenlet has ended.
    pub(crate) fn is_done(&self, g: u32) -> bool
        ensures { result ≡ is_done (itemless self.now) g }
    {
        self.outcome_of_greenlet(g).is_some()
    }

    /// Whether all these greenlets have ended.
    pub(crate) fn all_done(&self, gs: &[u32]) -> bool
        ensures { result ≡ all_done (itemless self.now) gs.now }
    {
        for g in gs {
            if !self.is_done(*g) {
                return false;
            }
        }
        true
    }

    /// How many of these greenlets have ended.
    fn done_among(&self, gs: &[u32]) -> u64
        ensures { result ≡ done_among (itemless self.now) gs.now }
    {
        let mut n = 0;
        for g in gs {
            if self.is_done(*g) {
                n += 1;
            }
        }
        n
    }

    /// Whether the wait's condition holds, for a waiter with this since, where so many wait before it in the line that
    /// the condition looks at.
    fn wait_holds(&self, since: u64, waiting: &Waiting, before: u64) -> bool
        ensures { (held : SeenItems) → IsAhead before (length self.now.objects) (λ test. earlier test since (flat held.entries)) waiting.now
            → result ≡ wait_holds (whole self.now held) since waiting.now }
    {
        match waiting {
            Waiting::Sleep(until) => *until <= self.moment.at,
            Waiting::Join(g) => self.is_done(*g),
            Waiting::Get(whom) => self.has_ended(*whom),
            Waiting::Kill(gs) => self.all_done(gs.as_slice()),
            Waiting::JoinAll(gs, need) => *need as u64 <= self.done_among(gs.as_slice()),
            Waiting::Event(o, sets) => has_set_since(self.object(*o), *sets),
            Waiting::ResultGet(o) => has_result(self.object(*o)),
            Waiting::ResultWait(o) => has_result(self.object(*o)),
            Waiting::Acquire(o) => self.holds_in_line(WaitKind::Acquire, *o, before),
            Waiting::Lock(o) => self.holds_in_line(WaitKind::Lock, *o, before),
            Waiting::Put(o, _) => self.holds_in_line(WaitKind::Put, *o, before),
            Waiting::Take(o) => self.holds_in_line(WaitKind::Take, *o, before),
            Waiting::Peek(o) => self.holds_in_line(WaitKind::Take, *o, before),
            Waiting::Tasks(o) => all_finished(self.object(*o)),
            Waiting::Place(o, _, _) => self.holds_in_line(WaitKind::Place, *o, before),
            Waiting::MapPlace(o, _, _, _) => self.holds_in_line(WaitKind::Place, *o, before),
            Waiting::MapEnd(_, made) => self.all_done(made.as_slice()),
            Waiting::Members(o) => is_deserted(self.object(*o)),
            Waiting::Slot(o, _, _) => self.holds_in_line(WaitKind::Slot, *o, before),
            Waiting::Offered(o) => is_taken(self.object(*o), since),
            Waiting::TakeOffer(o) => self.holds_in_line(WaitKind::TakeOffer, *o, before),
        }
    }

    /// Whether who waits so at this object holds, with so many before it in its line.
    #[inline(always)]
    pub(crate) fn holds_in_line(&self, kind: WaitKind, o: u32, before: u64) -> bool
        ensures { result ≡ holds_in_line kind before (slice_get self.now.objects o) }
    {
        let object = self.object(o);
        match kind {
            WaitKind::Acquire => has_unit(object, before),
            WaitKind::Lock => is_free(object, before),
            WaitKind::Put => has_room(object, before),
            WaitKind::Take => has_item(object, before),
            WaitKind::Place => has_place(object, before),
            WaitKind::Slot => has_slot(object, before),
            WaitKind::TakeOffer => has_offer(object, before),
        }
    }

    /// Whether the condition of an item with this since holds that delivers this, where so many wait before it in the
    /// line that the condition looks at.
    fn delivery_holds(&self, since: u64, delivery: &Delivery, before: u64) -> bool
        ensures { (held : SeenItems) → IsBefore before (whole self.now held) since delivery.now → result ≡ delivery_holds (whole self.now held) since delivery.now }
    {
        match delivery {
            Delivery::Start(_, None) => true,
            Delivery::Start(_, Some(deadline)) => *deadline <= self.moment.at,
            Delivery::Wake(_, waiting) => self.wait_holds(since, waiting, before),
            Delivery::Late(_, deadline, _) => *deadline <= self.moment.at,
            Delivery::Timeout(_, _, deadline) => *deadline <= self.moment.at,
            Delivery::Kill(_, _) => true,
            Delivery::Link(_, g, kind, _) => match self.outcome_of_greenlet(*g) {
                Some(outcome) => link_fits(*kind, outcome),
                None => false,
            },
        }
    }

    /// Whether the item's condition holds, where so many wait before it in the line that the condition looks at.
    pub(crate) fn holds(&self, item: &Item, before: u64) -> bool
        ensures { (held : SeenItems) → IsBefore before (whole self.now held) item.now.since item.now.delivery → result ≡ holds (whole self.now held) item.now }
    {
        self.delivery_holds(item.since, &item.delivery, before)
    }
}

impl Hub {
    /// What the greenlet ended with, if it did.
    pub fn outcome_of_greenlet(&self, g: u32) -> Option<&Outcome>
        ensures { option_copied result ≡ outcome_of self.now (Target.Greenlet g) }
    {
        self.base.outcome_of_greenlet(g)
    }

    /// What the job came to, if it has arrived.
    pub fn outcome_of_job(&self, j: u32) -> Option<&Outcome>
        ensures { option_copied result ≡ outcome_of self.now (Target.Job j) }
    {
        self.base.outcome_of_job(j)
    }

    /// Whether the greenlet has ended.
    pub fn is_done(&self, g: u32) -> bool
        ensures { result ≡ is_done self.now g }
    {
        self.base.is_done(g)
    }

    /// Whether all these greenlets have ended.
    pub fn all_done(&self, gs: &[u32]) -> bool
        ensures { result ≡ all_done self.now gs.now }
    {
        self.base.all_done(gs)
    }

    /// Whether the wait's condition holds for the last of all waiters.
    fn holds_last(&self, waiting: &Waiting) -> bool
        ensures { result ≡ wait_holds self.now self.now.next_since waiting.now }
    {
        let before = ahead_of_last(&self.held, waiting);
        self.base
            .wait_holds(self.held.next_since(), waiting, before)
    }

    /// Whether a group or pool has a place that nobody waits for.
    pub fn has_place(&self, o: u32) -> bool
        ensures { result ≡ has_place (earlier (is_place o) self.now.next_since self.now.items) (slice_get self.now.objects o) }
    {
        let before = earlier_than_last(&self.held, WaitKind::Place, o);
        has_place(self.object(o), before)
    }

    /// Whether a greenlet that comes to the wait does not begin it, since its condition holds for the last of all
    /// waiters.
    pub fn newcomer_completes(&self, g: u32, waiting: &Waiting) -> bool
        ensures { result ≡ newcomer_completes self.now g waiting.now }
    {
        match waiting {
            Waiting::Sleep(_) => false,
            Waiting::Offered(_) => false,
            Waiting::Event(o, _) => is_flagged(self.object(*o)),
            Waiting::Lock(o) => is_owner(self.object(*o), g) || self.holds_last(waiting),
            _ => self.holds_last(waiting),
        }
    }

    /// Whether an item that delivers this would hold if it were made now.
    pub(crate) fn would_hold(&self, delivery: &Delivery) -> bool
        ensures { result ≡ delivery_holds self.now self.now.next_since delivery.now }
    {
        match delivery {
            Delivery::Wake(_, waiting) => self.holds_last(waiting),
            _ => self
                .base
                .delivery_holds(self.held.next_since(), delivery, 0),
        }
    }
}
