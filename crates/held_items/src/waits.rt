//! What an item waits for: ends or an object, there in a line or in none; and the items that wait for one thing, with no
//! walk over the others.
ghost use Rattle.std.specs.Prelude.{◌≡◌, ◌+◌, ◌<◌, ◌^◌, ℕ, List, ◌∷◌, ◌++◌, None, Some, IfSome, map};
ghost use Rattle.gv_values.specs.declared.value.Whom.{Whom as AnyWhom};
ghost use Rattle.slot_chains.specs.Chained.{first_of, last_of};
ghost use Rattle.machine_settling.specs.Classes.{class_of, class_of_wait};
ghost use Rattle.hub_items.specs.declared.waits.WaitKind.{WaitKind};
ghost use Rattle.hub_items.specs.Lines.{waiting_line};
ghost use Rattle.held_items.specs.Entries.{index};
ghost use Rattle.held_items.specs.declared.waits.Target.{Target as AnyTarget};
ghost use Rattle.held_items.specs.declared.waits.TheConstants.{COLUMNS};
ghost use Rattle.held_items.specs.Waits.{ends_key, line_column, number_of, object_place, target_of, target_of_class, target_place, wait_place, waits_for, waits_in_line, waits_in_none, waits_key};

use crate::held::HeldItems;
use gv_values::Whom;
use hub_items::WaitKind;
use machine::items::{Delivery, Waiting};

/// Whose end is waited for.
#[derive(Clone, Copy)]
pub enum Target {
    /// That of one greenlet or job alone, by its number.
    One(u32),
    /// Those of several greenlets, or of none.
    Several,
}

/// How many places each object has: one for each kind of line, and the last for those who wait in none.
const COLUMNS: usize = 8;

fn line_column(kind: WaitKind) -> usize
    ensures value { result ≡ line_column kind }
    ensures within { result < COLUMNS }
{
    match kind {
        WaitKind::Acquire => 0,
        WaitKind::Lock => 1,
        WaitKind::Put => 2,
        WaitKind::Take => 3,
        WaitKind::Place => 4,
        WaitKind::Slot => 5,
        WaitKind::TakeOffer => 6,
    }
}

/// The place of those who wait in the line of this kind at this object.
pub fn in_line(o: u32, kind: WaitKind) -> usize
    ensures value { result ≡ object_place o (line_column kind) }
    ensures within { result + 1 < 2 ^ 64 }
{
    o as usize * COLUMNS + line_column(kind)
}

/// The place of those who wait at this object in no line.
pub fn in_none(o: u32) -> usize
    ensures value { result ≡ object_place o 7 }
    ensures within { result + 1 < 2 ^ 64 }
{
    o as usize * COLUMNS + COLUMNS - 1
}

/// The place of those who wait so, where they wait for an object.
fn place_of_wait(waiting: &Waiting) -> Option<usize>
    ensures value { result ≡ wait_place (waiting_line waiting.now) (class_of_wait waiting.now) }
    ensures within { IfSome result (λ place. place + 1 < 2 ^ 64) }
{
    match waiting {
        Waiting::Event(o, _) => Some(in_none(*o)),
        Waiting::ResultGet(o) => Some(in_none(*o)),
        Waiting::ResultWait(o) => Some(in_none(*o)),
        Waiting::Acquire(o) => Some(in_line(*o, WaitKind::Acquire)),
        Waiting::Lock(o) => Some(in_line(*o, WaitKind::Lock)),
        Waiting::Put(o, _) => Some(in_line(*o, WaitKind::Put)),
        Waiting::Take(o) => Some(in_line(*o, WaitKind::Take)),
        Waiting::Peek(o) => Some(in_none(*o)),
        Waiting::Tasks(o) => Some(in_none(*o)),
        Waiting::Place(o, _, _) => Some(in_line(*o, WaitKind::Place)),
        Waiting::MapPlace(o, _, _, _) => Some(in_line(*o, WaitKind::Place)),
        Waiting::Members(o) => Some(in_none(*o)),
        Waiting::Slot(o, _, _) => Some(in_line(*o, WaitKind::Slot)),
        Waiting::Offered(o) => Some(in_none(*o)),
        Waiting::TakeOffer(o) => Some(in_line(*o, WaitKind::TakeOffer)),
        _ => None,
    }
}

/// The place of the item among those who wait for objects, where it is one of them.
pub fn waits_key(delivery: &Delivery) -> Option<usize>
    ensures value { result ≡ waits_key delivery.now }
    ensures within { IfSome result (λ place. place + 1 < 2 ^ 64) }
{
    match delivery {
        Delivery::Start(_, None) => None,
        Delivery::Start(_, Some(_)) => None,
        Delivery::Wake(_, waiting) => place_of_wait(waiting),
        Delivery::Late(_, _, _) => None,
        Delivery::Timeout(_, _, _) => None,
        Delivery::Kill(_, _) => None,
        Delivery::Link(_, _, _, _) => None,
    }
}

/// The number of the greenlet or job.
fn number_of(whom: Whom) -> u32
    ensures { result ≡ number_of whom }
{
    match whom {
        Whom::Greenlet(g) => g,
        Whom::Job(j) => j,
    }
}

/// The target of who waits for the ends of these greenlets.
fn target_among(greenlets: &[u32]) -> Target
    ensures { result ≡ target_of (map AnyWhom.Greenlet greenlets.now) }
{
    match greenlets {
        [g] => Target::One(*g),
        _ => Target::Several,
    }
}

/// Whose end the wait is for, where it is for ends.
fn target_of_wait(waiting: &Waiting) -> Option<Target>
    ensures { result ≡ target_of_class (class_of_wait waiting.now) }
{
    match waiting {
        Waiting::Join(g) => Some(Target::One(*g)),
        Waiting::Get(whom) => Some(Target::One(number_of(*whom))),
        Waiting::Kill(greenlets) => Some(target_among(greenlets.as_slice())),
        Waiting::JoinAll(greenlets, _) => Some(target_among(greenlets.as_slice())),
        Waiting::MapEnd(_, made) => Some(target_among(made.as_slice())),
        _ => None,
    }
}

/// Whose end the item waits for that delivers this, where it waits for ends.
pub fn target_of(delivery: &Delivery) -> Option<Target>
    ensures { result ≡ target_of_class (class_of delivery.now) }
{
    match delivery {
        Delivery::Start(_, None) => None,
        Delivery::Start(_, Some(_)) => None,
        Delivery::Wake(_, waiting) => target_of_wait(waiting),
        Delivery::Late(_, _, _) => None,
        Delivery::Timeout(_, _, _) => None,
        Delivery::Kill(_, _) => None,
        Delivery::Link(_, g, _, _) => Some(Target::One(*g)),
    }
}

/// The place of those who wait for this target.
pub fn target_place(target: Target) -> usize
    ensures value { result ≡ target_place target }
    ensures within { result + 1 < 2 ^ 64 }
{
    match target {
        Target::One(number) => number as usize + 1,
        Target::Several => 0,
    }
}

/// The place of the item among those who wait for ends, where it is one of them.
pub fn ends_key(delivery: &Delivery) -> Option<usize>
    ensures value { result ≡ ends_key delivery.now }
    ensures within { IfSome result (λ place. place + 1 < 2 ^ 64) }
{
    match target_of(delivery) {
        Some(target) => Some(target_place(target)),
        None => None,
    }
}

impl HeldItems {
    /// The slot of the oldest item that waits in the line of this kind at this object.
    pub fn first_in_line(&self, o: u32, kind: WaitKind) -> Option<u32>
        ensures { result ≡ first_of (index (waits_in_line kind o) self.now.entries) None }
    {
        self.indexes.in_line(o, kind)
    }

    /// The slot of the oldest item that waits at this object in no line.
    pub fn first_of_others(&self, o: u32) -> Option<u32>
        ensures { result ≡ first_of (index (waits_in_none o) self.now.entries) None }
    {
        self.indexes.in_none(o)
    }

    /// The slot of the item that was made after that of this slot, of those that wait in the same line, or at the same
    /// object in no line.
    pub fn next_waiting(&self, slot: u32) -> Option<u32>
        ensures in_line { (kind : WaitKind) (o : ℕ) (xs ys : List ℕ) → index (waits_in_line kind o) self.now.entries ≡ xs ++ slot ∷ ys → result ≡ first_of ys None }
        ensures in_none { (o : ℕ) (xs ys : List ℕ) → index (waits_in_none o) self.now.entries ≡ xs ++ slot ∷ ys → result ≡ first_of ys None }
    {
        self.indexes.next_waiting(slot)
    }

    /// The slot of the item that was made before that of this slot, of those that wait in the same line.
    pub fn previous_waiting(&self, slot: u32) -> Option<u32>
        ensures { (kind : WaitKind) (o : ℕ) (xs ys : List ℕ) → index (waits_in_line kind o) self.now.entries ≡ xs ++ slot ∷ ys → result ≡ last_of None xs }
    {
        self.indexes.previous_waiting(slot)
    }

    /// The slot of the last item with a ready number that waits in the line of this kind at this object, as far as is
    /// known: whoever takes it has to try it.
    pub fn last_numbered(&self, o: u32, kind: WaitKind) -> Option<u32> {
        self.borders.guess(in_line(o, kind))
    }

    /// The slot of the oldest item that waits for this target.
    pub fn first_for(&self, target: Target) -> Option<u32>
        ensures { result ≡ first_of (index (waits_for target) self.now.entries) None }
    {
        self.indexes.first_for(target)
    }

    /// The slot of the item that was made after that of this slot, of those that wait for the same target.
    pub fn next_for(&self, slot: u32) -> Option<u32>
        ensures { (target : AnyTarget) (xs ys : List ℕ) → index (waits_for target) self.now.entries ≡ xs ++ slot ∷ ys → result ≡ first_of ys None }
    {
        self.indexes.next_for(slot)
    }
}
