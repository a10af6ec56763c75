//! The items of a queue: which is next, and which goes.
ghost use Rattle.std.specs.Prelude.{◌≡◌, ◌<◌, ◌≤◌, ◌+◌, ◌-◌, ◌^◌, ◌++◌, length, take, drop, slice_get, slice_set, unwrap_or, IfOk};
ghost use Rattle.std.specs.Option.{option_copied};
ghost use Rattle.machine.specs.Objects.{next_place, next_value, no_object, with_item_taken, without_next, least_place, item_of, is_shut, is_left};
ghost use Rattle.hub_objects.specs.Counted.{AreCounted, IsCounted};
ghost use Rattle.hub_objects.specs.Least.{lesser};
ghost use Rattle.hub_objects.specs.Reads.{is_shut_at, is_left_at};

use gv_values::Value;
use machine::state::Object;
use scenario_tree::QueueKind;
use std::alloc::{AllocError, Global};
use std::collections::LinkedList;

/// The integer, if the value is one, and less than this.
fn lesser(value: &Value, least: i64) -> Option<i64>
    ensures { result ≡ lesser value.now least }
{
    match value {
        Value::Int(z) => { if *z < least { Some(*z) } else { None } }
        _ => None,
    }
}

/// The place of the least integer, where the first item is one. Walks over the items once.
#[tactic(auto, using(crate::proofs::Least::lesser_found, crate::proofs::Least::none_lesser))]
fn least_place(items: &LinkedList<Value>) -> usize
    ensures place { result ≡ least_place items.now }
    ensures within { result ≤ length items.now }
    ensures fits { length items.now < 2 ^ 63 }
{
    let mut rest = items.iter();
    let Some(Value::Int(first)) = rest.next() else {
        return 0;
    };
    let mut least = *first;
    let mut best = 0;
    let mut at = 1;
    while let Some(value) = rest.next() {
        if let Some(z) = lesser(value, least) {
            least = z;
            best = at;
        }
        at += 1;
    }
    best
}

/// Takes the item that has stood longest.
#[tactic(auto, using(crate::proofs::Taking::first_taken))]
fn take_first(items: &mut LinkedList<Value>) -> Option<Value>
    ensures item { result ≡ slice_get items.old 0 }
    ensures taken { items.new ≡ drop 1 items.old }
{
    items.pop_front()
}

/// Takes the item that came last.
#[tactic(auto, using(crate::proofs::Taking::last_taken))]
fn take_last(items: &mut LinkedList<Value>) -> Option<Value>
    ensures item { result ≡ slice_get items.old (length items.old - 1) }
    ensures taken { items.new ≡ take (length items.old - 1) items.old }
{
    items.pop_back()
}

/// Takes the first of the least integers; the first item, where that is none.
#[tactic(auto, using(crate::proofs::Taking::taken_at, crate::proofs::Taking::left_behind, crate::proofs::Taking::parts_fit))]
fn take_least(items: &mut LinkedList<Value>) -> Option<Value>
    ensures item { result ≡ slice_get items.old (least_place items.old) }
    ensures taken { items.new ≡ take (least_place items.old) items.old ++ drop (least_place items.old + 1) items.old }
{
    let place = least_place(items);
    let mut behind = items.split_off(place).unwrap();
    let least = take_first(&mut behind);
    items.append(&mut behind).unwrap();
    least
}

/// Takes the item that is next; none where there is no item.
#[tactic(auto, using(crate::proofs::Taking::without_last, crate::proofs::Taking::fewer))]
fn take_next(kind: QueueKind, items: &mut LinkedList<Value>) -> Value
    ensures item { result ≡ next_value kind items.old }
    ensures taken { items.new ≡ without_next kind items.old }
    ensures fewer { length items.new ≤ length items.old }
{
    let taken = match kind {
        QueueKind::Fifo | QueueKind::Join => take_first(items),
        QueueKind::Lifo => take_last(items),
        QueueKind::Priority => take_least(items),
    };
    taken.unwrap_or(Value::Nothing)
}

/// Takes the item of the queue that is next.
fn take_item(object: &mut Object) -> Value
    ensures item { result ≡ item_of object.old }
    ensures taken { object.new ≡ with_item_taken object.old }
    ensures counted { IsCounted object.old → IsCounted object.new }
{
    match object {
        Object::Queue(kind, _, items, _, _) => take_next(*kind, items),
        _ => Value::Nothing,
    }
}

/// Takes the item that is next of the object of this number.
pub fn take_item_in(objects: &mut Vec<Object>, o: u32) -> Value
    requires { AreCounted objects.old.items }
    ensures item { result ≡ item_of (unwrap_or (slice_get objects.old.items o) no_object) }
    ensures taken { objects.new.items ≡ slice_set objects.old.items o (with_item_taken (unwrap_or (slice_get objects.old.items o) no_object)) }
    ensures counted { AreCounted objects.new.items }
{
    take_item_at(objects, o)
}

/// Takes the item that is next of the object of this number, if there is one.
#[tactic(auto, using(crate::proofs::ObjectSets::item_taken_set, crate::proofs::ObjectSets::item_there, crate::proofs::ObjectSets::item_out, crate::proofs::ObjectSets::object_out))]
fn take_item_at(objects: &mut [Object], o: u32) -> Value
    requires { AreCounted objects.old }
    ensures item { result ≡ item_of (unwrap_or (slice_get objects.old o) no_object) }
    ensures taken { objects.new ≡ slice_set objects.old o (with_item_taken (unwrap_or (slice_get objects.old o) no_object)) }
    ensures counted { AreCounted objects.new }
{
    if o as usize >= objects.len() {
        return Value::Nothing;
    }
    take_item(&mut objects[o as usize])
}

/// The item at this place. Walks over those before it.
fn item_at(items: &LinkedList<Value>, place: usize) -> Option<&Value>
    ensures { option_copied result ≡ slice_get items.now place }
{
    items.iter().nth(place)
}

/// The item that is next.
#[tactic(auto, using(crate::proofs::Taking::read_at))]
fn next_item(kind: QueueKind, items: &LinkedList<Value>) -> Option<&Value>
    ensures { option_copied result ≡ slice_get items.now (next_place kind items.now) }
{
    match kind {
        QueueKind::Fifo | QueueKind::Join => items.front(),
        QueueKind::Lifo => items.back(),
        QueueKind::Priority => item_at(items, least_place(items)),
    }
}

/// The item of the queue that is next, again.
pub fn item_of(alloc: Global, object: &Object) -> Result<Value, AllocError>
    ensures { IfOk result (λ value. value ≡ item_of object.now) }
{
    match object {
        Object::Queue(kind, _, items, _, _) => match next_item(*kind, items) {
            Some(value) => value.copy(alloc),
            None => Ok(Value::Nothing),
        },
        _ => Ok(Value::Nothing),
    }
}

/// Whether the queue is shut.
pub fn is_shut(object: Option<&Object>) -> bool
    ensures { result ≡ is_shut_at (option_copied object.entry) }
{
    match object {
        Some(Object::Queue(_, _, _, _, shut)) => *shut,
        _ => false,
    }
}

/// Whether so many earlier getters leave an item of the queue.
pub fn is_left(object: Option<&Object>, before: u64) -> bool
    ensures { result ≡ is_left_at before (option_copied object.entry) }
{
    match object {
        Some(Object::Queue(_, _, items, _, _)) => before < items.len() as u64,
        _ => false,
    }
}
