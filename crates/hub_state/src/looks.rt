//! What a settling looks at.
ghost use Rattle.std.specs.Prelude.{IsTrue, ◌≡◌, ◌≤◌, true, [], length, Some};
ghost use Rattle.std.specs.List.{All};
ghost use Rattle.item_places.specs.Items.{Differ};
ghost use Rattle.machine.specs.declared.items.Item.{Item as AnyItem};
ghost use Rattle.machine.specs.State.{State as Shown};
ghost use Rattle.machine_settling.specs.Classes.{is_at};
ghost use Rattle.machine_settling.specs.Fronts.{NumbersStandInFront};
ghost use Rattle.held_items.specs.Entries.{flat, item_in};
ghost use Rattle.held_items.specs.Waits.{is_for, waits_in_line, waits_in_none};
ghost use Rattle.hub_state.specs.Found.{AgreesAlong, HasPlace, IsLastNumbered, LooksAlong, LooksAt, MayLookAlong, MayLookAt, PassesBy, at_objects, for_one_of, for_several, is_always, is_moment, noted_always, touched_now, waits_for_nothing};
ghost use Rattle.hub_state.specs.Over.{whole};
ghost use Rattle.hub_state.specs.Touched.{IsPast, IsPending};
ghost use Rattle.hub_state.specs.Waiters.{IsBefore};

use crate::ahead::earlier_ahead;
use crate::base::Base;
use crate::found::Found;
use crate::in_lines::is_in_line;
use crate::order::items_stand_in_order;
use crate::touched::Touched;
use held_items::{HeldItems, Tally, Target};
use hub_items::WaitKind;
use machine::items::{Delivery, Item};

/// Whether such an item waits for nothing.
fn waits_for_nothing(delivery: &Delivery) -> bool
    ensures { result ≡ waits_for_nothing delivery.now }
{
    match delivery {
        Delivery::Start(_, None) => true,
        Delivery::Kill(_, _) => true,
        _ => false,
    }
}

/// Notes the item of the slot, where there is one that waits for nothing.
fn note_made(held: &HeldItems, slot: u32, found: &mut Found)
    requires { (i : AnyItem) → item_in slot held.now.entries ≡ Some i → waits_for_nothing i.delivery ≡ true → HasPlace found.old }
    ensures { found.new ≡ noted_always slot (item_in slot held.now.entries) found.old }
{
    if held.has(slot) {
        let item = held.get(slot);
        if waits_for_nothing(&item.delivery) {
            found.note(slot, item, true);
        }
    }
}

/// Looks at those that wait for nothing, which are among those that were made.
fn look_at_made(held: &HeldItems, made: &[u32], found: &mut Found)
    requires apart { Differ made.now }
    requires pending { IsPending made.now held.now.entries }
    requires may { (s : Shown) × MayLookAt is_always s held.now.entries found.old }
    ensures { (s : Shown) → LooksAt is_always s held.now.entries found.old found.new }
{
    for slot in made {
        note_made(held, *slot, found);
    }
}

/// Looks at those that wait for this target.
fn look_at_target(base: &Base, held: &HeldItems, target: Target, found: &mut Found)
    requires { MayLookAt (is_for target) (whole base.now held.now) held.now.entries found.old }
    ensures { LooksAt (is_for target) (whole base.now held.now) held.now.entries found.old found.new }
{
    let mut at = held.first_for(target);
    while let Some(slot) = at {
        let item = held.get(slot);
        found.note(slot, item, base.holds(item, 0));
        at = held.next_for(slot);
    }
}

/// Looks at those that wait for several ends, where they are touched.
fn look_at_several(base: &Base, held: &HeldItems, touched: bool, found: &mut Found)
    requires { MayLookAt (for_several touched) (whole base.now held.now) held.now.entries found.old }
    ensures { LooksAt (for_several touched) (whole base.now held.now) held.now.entries found.old found.new }
{
    if !touched {
        return;
    }
    look_at_target(base, held, Target::Several, found);
}

/// Looks at those that wait for one of these greenlets and jobs alone.
fn look_at_ends(base: &Base, held: &HeldItems, ends: &[u32], found: &mut Found)
    requires apart { Differ ends.now }
    requires may { MayLookAt (for_one_of ends.now) (whole base.now held.now) held.now.entries found.old }
    ensures { LooksAt (for_one_of ends.now) (whole base.now held.now) held.now.entries found.old found.new }
{
    for number in ends {
        look_at_target(base, held, Target::One(*number), found);
    }
}

/// Whether nothing changes in the line of this kind at the object: the last that has a number holds, and the first that has
/// none doesn't. Goes by how many there are of both, and looks at nobody.
#[inline(always)]
fn is_settled(base: &Base, held: &HeldItems, o: u32, kind: WaitKind) -> bool
    requires { NumbersStandInFront (whole base.now held.now) }
    ensures { IsTrue result → AgreesAlong (waits_in_line kind o) (whole base.now held.now) held.now.entries }
{
    let Tally { waiting, numbered } = held.tally_in(o, kind);
    if numbered != 0 && !base.holds_in_line(kind, o, numbered - 1) {
        return false;
    }
    numbered == waiting || !base.holds_in_line(kind, o, numbered)
}

/// Whether the item of the slot is the last of the line that has a number.
fn is_last_numbered(held: &HeldItems, o: u32, kind: WaitKind, slot: u32) -> bool
    ensures { IsTrue result → IsLastNumbered (waits_in_line kind o) held.now.entries slot }
{
    if !held.has(slot) {
        return false;
    }
    let item = held.get(slot);
    if item.ready.is_none() || !is_in_line(&item.delivery, kind, o) {
        return false;
    }
    match held.next_waiting(slot) {
        Some(next) => held.has(next) && held.get(next).ready.is_none(),
        None => true,
    }
}

/// Where a walk over the line may begin, and how many it passes by: behind the last that has a number and holds. Goes
/// there from this slot, the last that has a number, towards the front.
fn walk_back(base: &Base, held: &HeldItems, o: u32, kind: WaitKind, last: u32) -> (Option<u32>, u64)
    requires front { NumbersStandInFront (whole base.now held.now) }
    requires last { IsLastNumbered (waits_in_line kind o) held.now.entries last }
    ensures { PassesBy (waits_in_line kind o) (whole base.now held.now) held.now.entries result.0 result.1 }
{
    items_stand_in_order(held);
    let mut passed = held.numbered_in(o, kind);
    let mut at = Some(last);
    while let Some(slot) = at {
        if base.holds_in_line(kind, o, passed - 1) {
            return (held.next_waiting(slot), passed);
        }
        passed -= 1;
        at = held.previous_waiting(slot);
    }
    (held.first_in_line(o, kind), 0)
}

/// Where a walk over the line may begin, and how many it passes by, each of whom has a number and holds: all that do, if
/// it is known who has the last number; else none.
#[tactic(auto, using(crate::proofs::LineBegins::passes_none))]
fn begin_walk(base: &Base, held: &HeldItems, o: u32, kind: WaitKind) -> (Option<u32>, u64)
    requires { NumbersStandInFront (whole base.now held.now) }
    ensures { PassesBy (waits_in_line kind o) (whole base.now held.now) held.now.entries result.0 result.1 }
{
    let front = held.first_in_line(o, kind);
    let Some(slot) = held.last_numbered(o, kind) else {
        return (front, 0);
    };
    if is_last_numbered(held, o, kind, slot) {
        return walk_back(base, held, o, kind, slot);
    }
    (front, 0)
}

/// Looks at those that wait in the line of this kind at the object. Looks at none where nothing changes, as in a line in
/// which nobody waits: that is told at once, so that such a line costs no call.
#[inline(always)]
fn look_at_line(base: &Base, held: &HeldItems, o: u32, kind: WaitKind, found: &mut Found)
    requires front { NumbersStandInFront (whole base.now held.now) }
    requires may { MayLookAlong (waits_in_line kind o) (whole base.now held.now) held.now.entries found.old }
    ensures { LooksAlong (waits_in_line kind o) (whole base.now held.now) held.now.entries found.old found.new }
{
    if is_settled(base, held, o, kind) {
        return;
    }
    walk_line(base, held, o, kind, found);
}

/// Looks at those that wait in the line of this kind at the object, up to the first that has no number and doesn't hold,
/// since so it is of all behind it. Passes by those that have numbers and hold.
#[inline(never)]
fn walk_line(base: &Base, held: &HeldItems, o: u32, kind: WaitKind, found: &mut Found)
    requires front { NumbersStandInFront (whole base.now held.now) }
    requires may { MayLookAlong (waits_in_line kind o) (whole base.now held.now) held.now.entries found.old }
    ensures { LooksAlong (waits_in_line kind o) (whole base.now held.now) held.now.entries found.old found.new }
{
    items_stand_in_order(held);
    let (first, passed) = begin_walk(base, held, o, kind);
    let mut before = passed;
    let mut at = first;
    while let Some(slot) = at {
        let item = held.get(slot);
        let holds = base.holds(item, before);
        if !holds && item.ready.is_none() {
            return;
        }
        found.note(slot, item, holds);
        before += 1;
        at = held.next_waiting(slot);
    }
}

/// How many wait before the item in the line that its condition looks at; 0 where it looks at none.
fn before_item(held: &HeldItems, item: &Item) -> u64
    ensures { (s : Shown) → s.items ≡ flat held.now.entries → IsBefore result s item.now.since item.now.delivery }
{
    match &item.delivery {
        Delivery::Wake(_, waiting) => earlier_ahead(held, waiting, item.since),
        _ => 0,
    }
}

/// Looks at those that wait at the object in no line.
fn look_at_others(base: &Base, held: &HeldItems, o: u32, found: &mut Found)
    requires { MayLookAlong (waits_in_none o) (whole base.now held.now) held.now.entries found.old }
    ensures { LooksAlong (waits_in_none o) (whole base.now held.now) held.now.entries found.old found.new }
{
    let mut at = held.first_of_others(o);
    while let Some(slot) = at {
        let item = held.get(slot);
        found.note(slot, item, base.holds(item, before_item(held, item)));
        at = held.next_waiting(slot);
    }
}

/// Looks at those that wait at the object.
fn look_at_object(base: &Base, held: &HeldItems, o: u32, found: &mut Found)
    requires front { NumbersStandInFront (whole base.now held.now) }
    requires may { MayLookAt (is_at o) (whole base.now held.now) held.now.entries found.old }
    ensures { LooksAt (is_at o) (whole base.now held.now) held.now.entries found.old found.new }
{
    look_at_line(base, held, o, WaitKind::Acquire, found);
    look_at_line(base, held, o, WaitKind::Lock, found);
    look_at_line(base, held, o, WaitKind::Put, found);
    look_at_line(base, held, o, WaitKind::Take, found);
    look_at_line(base, held, o, WaitKind::Place, found);
    look_at_line(base, held, o, WaitKind::Slot, found);
    look_at_line(base, held, o, WaitKind::TakeOffer, found);
    look_at_others(base, held, o, found);
}

/// Looks at those that wait at these objects.
fn look_at_objects(base: &Base, held: &HeldItems, objects: &[u32], found: &mut Found)
    requires front { NumbersStandInFront (whole base.now held.now) }
    requires apart { Differ objects.now }
    requires may { MayLookAt (at_objects objects.now) (whole base.now held.now) held.now.entries found.old }
    ensures { LooksAt (at_objects objects.now) (whole base.now held.now) held.now.entries found.old found.new }
{
    for o in objects {
        look_at_object(base, held, *o, found);
    }
}

/// Looks at those whose moment has come, before any other.
pub(crate) fn look_at_due(held: &mut HeldItems, moment: u64, found: &mut Found)
    requires room { length held.old.entries ≤ found.old.room }
    requires none { found.old.gained ≡ [] }
    ensures same { held.new ≡ held.old }
    ensures looks { (s : Shown) → s.moment ≡ moment → All (IsPast moment) (flat held.old.entries) → LooksAt is_moment s held.old.entries found.old found.new }
{
    found.gather_due(held, moment);
}

/// Looks at all that was touched: what was made, ends and objects.
pub(crate) fn look_at_touched(base: &Base, held: &HeldItems, touched: &Touched, found: &mut Found)
    requires front { NumbersStandInFront (whole base.now held.now) }
    requires pending { IsPending touched.now.made held.now.entries }
    requires may { MayLookAt (touched_now touched.now) (whole base.now held.now) held.now.entries found.old }
    ensures { LooksAt (touched_now touched.now) (whole base.now held.now) held.now.entries found.old found.new }
{
    look_at_made(held, touched.made(), found);
    look_at_several(base, held, touched.several(), found);
    look_at_ends(base, held, touched.ends(), found);
    look_at_objects(base, held, touched.objects(), found);
}
