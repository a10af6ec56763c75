use gv_values::{FaultKind, LinkKind, Outcome, Value, Whom};
use held_items::{HeldItems, MOST_HELD, Target, target_of};
use hub_items::{Gone, WaitKind};
use machine::items::{Delivery, Waiting};
use scenario_tree::Items;
use std::alloc::{AllocError, Global};

/// The sinces of the items, one digit for each, from the oldest on.
fn sinces(held: &HeldItems) -> u64 {
    let mut all = 0u64;
    let mut at = held.oldest();
    for _ in 0..15 {
        match at {
            None => return all,
            Some(slot) => {
                if held.has(slot) {
                    all = all.wrapping_mul(10).wrapping_add(held.get(slot).since);
                }
                at = held.after(slot);
            }
        }
    }
    all
}

/// Adds the item. `AllocError`: memory is wanting, or there are as many items as there may be.
fn put(held: &mut HeldItems, delivery: Delivery) -> Result<(), AllocError> {
    if held.next_since() == u64::MAX || held.len() >= MOST_HELD as usize {
        drop(delivery);
        return Err(AllocError);
    }
    held.add(delivery)?;
    Ok(())
}

/// Items of each kind for greenlet 2, and a start of greenlet 1.
fn fill(held: &mut HeldItems) -> Result<(), AllocError> {
    put(held, Delivery::Start(1, None))?;
    put(held, Delivery::Wake(2, Waiting::Sleep(50)))?;
    put(held, Delivery::Late(2, 40, 0))?;
    put(held, Delivery::Timeout(2, 1, 30))?;
    put(held, Delivery::Timeout(2, 2, 20))?;
    put(held, Delivery::Kill(2, FaultKind::GreenletExit))?;
    put(held, Delivery::Link(1, 2, LinkKind::Value, 0))?;
    put(held, Delivery::Link(2, 2, LinkKind::Fault, 0))?;
    put(held, Delivery::Link(3, 2, LinkKind::Any, 0))?;
    Ok(())
}

/// Takes the second timeout of greenlet 2 out.
fn leave_block(alloc: Global, held: &mut HeldItems) -> Result<(), AllocError> {
    let mut numbers = Items::new(alloc);
    numbers.push(2)?;
    let gone = Gone::TimeoutsOf(2, numbers);
    held.drop_items(&gone);
    drop(gone);
    Ok(())
}

/// Ends greenlet 2 with a value.
fn end(held: &mut HeldItems) {
    let gone = Gone::AtEnd(2, Outcome::Value(Value::Nothing));
    held.drop_items(&gone);
    drop(gone);
}

#[test]
fn items_come_and_go(rt: HostRuntime) {
    let mut held = HeldItems::new(rt.alloc());
    assert!(rt; fill(&mut held).is_ok());
    assert!(rt; sinces(&held) == 12345678 && held.len() == 9);
    assert!(rt; held.kills() == 1 && held.has_start(1) && !held.has_start(2));
    assert!(rt; held.since_of_wake(2) == Some(1) && held.least_deadline() == Some(20));
    assert!(rt; leave_block(rt.alloc(), &mut held).is_ok());
    assert!(rt; sinces(&held) == 1235678 && held.least_deadline() == Some(30));
    held.drop_items(&Gone::LinkNumbered(3));
    held.drop_items(&Gone::LinkNumbered(-1));
    assert!(rt; sinces(&held) == 123567);
    end(&mut held);
    assert!(rt; sinces(&held) == 6 && held.kills() == 0);
    drop(held);
}

/// Numbers every second item, from the first on, and takes the numbers of the others.
fn number_some(held: &mut HeldItems) {
    let mut at = held.oldest();
    for n in 0..15 {
        let Some(slot) = at else {
            return;
        };
        if held.has(slot) && held.mark() < 100 {
            match held.get(slot).ready.place() {
                None if n % 2 == 0 => held.number(slot),
                Some(_) if n % 2 == 1 => held.unnumber(slot),
                _ => {}
            }
        }
        at = held.after(slot);
    }
}

/// The since of the item with the least number below the mark, which goes.
fn next(held: &mut HeldItems, mark: u64) -> Option<u64> {
    match held.next_below(mark) {
        None => None,
        Some(slot) => {
            let item = held.take(slot);
            let since = item.since;
            drop(item);
            Some(since)
        }
    }
}

#[test]
fn numbers_come_and_go(rt: HostRuntime) {
    let mut held = HeldItems::new(rt.alloc());
    assert!(rt; fill(&mut held).is_ok());
    assert!(rt; !held.any_numbered() && held.next_below(9) == None);
    number_some(&mut held);
    assert!(rt; held.mark() == 5 && held.any_numbered() && held.least_deadline() == Some(30));
    assert!(rt; next(&mut held, 5) == Some(0) && next(&mut held, 5) == Some(2));
    assert!(rt; next(&mut held, 2) == None);
    number_some(&mut held);
    assert!(rt; held.mark() == 6 && held.least_deadline() == Some(30));
    assert!(rt; next(&mut held, 9) == Some(4) && next(&mut held, 9) == Some(6));
    drop(held);
}

/// Items that wait for objects 3 and 7, there in a line or in none, and three that wait for none.
fn fill_waits(held: &mut HeldItems) -> Result<(), AllocError> {
    put(held, Delivery::Wake(3, Waiting::Sleep(50)))?;
    put(held, Delivery::Wake(1, Waiting::Lock(7)))?;
    put(held, Delivery::Wake(2, Waiting::Join(9)))?;
    put(held, Delivery::Wake(4, Waiting::Peek(3)))?;
    put(held, Delivery::Wake(5, Waiting::Event(7, 0)))?;
    put(held, Delivery::Link(1, 2, LinkKind::Any, 0))?;
    put(held, Delivery::Wake(6, Waiting::Lock(7)))?;
    put(held, Delivery::Wake(7, Waiting::Take(3)))?;
    Ok(())
}

/// The sinces of the item in this slot and those that were made after it and wait for the same, one digit for each.
fn waiting_from(held: &HeldItems, first: Option<u32>) -> u64 {
    let mut all = 0u64;
    let mut at = first;
    for _ in 0..9 {
        match at {
            None => return all,
            Some(slot) => {
                if held.has(slot) {
                    all = all.wrapping_mul(10).wrapping_add(held.get(slot).since);
                }
                at = held.next_waiting(slot);
            }
        }
    }
    all
}

/// Ends the greenlet's wait.
fn leave_wait(held: &mut HeldItems, g: u32) {
    if let Some(slot) = held.wake_of(g) {
        if held.has(slot) {
            drop(held.take(slot));
        }
    }
}

#[test]
fn waits_are_found(rt: HostRuntime) {
    let mut held = HeldItems::new(rt.alloc());
    assert!(rt; fill_waits(&mut held).is_ok());
    assert!(rt; waiting_from(&held, held.first_in_line(7, WaitKind::Lock)) == 16);
    assert!(rt; waiting_from(&held, held.first_in_line(3, WaitKind::Take)) == 7);
    assert!(rt; waiting_from(&held, held.first_of_others(7)) == 4);
    assert!(rt; waiting_from(&held, held.first_of_others(3)) == 3);
    assert!(rt;
        held.first_in_line(7, WaitKind::Acquire) == None
            && held.first_in_line(8, WaitKind::Lock) == None
            && held.first_of_others(8) == None
    );
    leave_wait(&mut held, 5);
    leave_wait(&mut held, 1);
    assert!(rt; waiting_from(&held, held.first_in_line(7, WaitKind::Lock)) == 6);
    assert!(rt; held.first_of_others(7) == None);
    drop(held);
}

/// These greenlets. `AllocError`: memory is wanting.
fn greenlets(alloc: Global, numbers: &[u32]) -> Result<Items<u32>, AllocError> {
    let mut items = Items::new(alloc);
    for number in numbers {
        items.push(*number)?;
    }
    Ok(items)
}

/// Items that wait for the ends of one greenlet or job, of several, and of none, and one that waits for no end.
fn fill_ends(alloc: Global, held: &mut HeldItems) -> Result<(), AllocError> {
    put(held, Delivery::Wake(1, Waiting::Sleep(50)))?;
    put(held, Delivery::Wake(2, Waiting::Join(9)))?;
    put(held, Delivery::Wake(3, Waiting::Get(Whom::Job(5))))?;
    let both = greenlets(alloc, &[9, 5])?;
    put(held, Delivery::Wake(4, Waiting::JoinAll(both, 1)))?;
    put(held, Delivery::Link(1, 5, LinkKind::Any, 0))?;
    let one = greenlets(alloc, &[9])?;
    put(held, Delivery::Wake(6, Waiting::Kill(one)))?;
    let none = greenlets(alloc, &[])?;
    put(held, Delivery::Wake(7, Waiting::MapEnd(3, none)))?;
    Ok(())
}

/// The sinces of those that wait for this target, from the oldest on, one digit for each; those that say that they wait
/// for another are passed by.
fn waiting_for(held: &HeldItems, target: Target) -> u64 {
    let mut all = 0u64;
    let mut at = held.first_for(target);
    for _ in 0..9 {
        match at {
            None => return all,
            Some(slot) => {
                if held.has(slot) && is_for(held, slot, target) {
                    all = all.wrapping_mul(10).wrapping_add(held.get(slot).since);
                }
                at = held.next_for(slot);
            }
        }
    }
    all
}

/// Whether the item of the slot says that it waits for this target.
fn is_for(held: &HeldItems, slot: u32, target: Target) -> bool {
    if !held.has(slot) {
        return false;
    }
    match (target_of(&held.get(slot).delivery), target) {
        (Some(Target::Several), Target::Several) => true,
        (Some(Target::One(m)), Target::One(n)) => m == n,
        _ => false,
    }
}

#[test]
fn waits_for_ends_are_found(rt: HostRuntime) {
    let mut held = HeldItems::new(rt.alloc());
    assert!(rt; fill_ends(rt.alloc(), &mut held).is_ok());
    assert!(rt; waiting_for(&held, Target::One(9)) == 15);
    assert!(rt; waiting_for(&held, Target::One(5)) == 24);
    assert!(rt; waiting_for(&held, Target::Several) == 36);
    assert!(rt; held.first_for(Target::One(0)) == None && held.first_for(Target::One(10)) == None);
    leave_wait(&mut held, 2);
    leave_wait(&mut held, 4);
    held.drop_items(&Gone::LinkNumbered(1));
    assert!(rt; waiting_for(&held, Target::One(9)) == 5);
    assert!(rt; waiting_for(&held, Target::One(5)) == 2);
    assert!(rt; waiting_for(&held, Target::Several) == 6);
    drop(held);
}

/// How many items without a number are due by the moment, and the sum of their sinces; none where memory is wanting.
#[tactic(auto, using(held_items::proofs::Seeing::few_items))]
fn due(alloc: Global, held: &mut HeldItems, moment: u64) -> Option<(usize, u64)> {
    let mut gathered: Vec<(u64, u32)> = Vec::new(alloc);
    if gathered.reserve(held.len()).is_err() {
        return None;
    }
    held.gather_due(moment, &mut gathered);
    let mut sum = 0u64;
    for (since, _slot) in &gathered {
        sum = sum.wrapping_add(*since);
    }
    let count = gathered.len();
    Some((count, sum))
}

#[test]
fn moments_come(rt: HostRuntime) {
    let mut held = HeldItems::new(rt.alloc());
    assert!(rt; fill(&mut held).is_ok());
    assert!(rt; due(rt.alloc(), &mut held, 19) == Some((0, 0)));
    assert!(rt; due(rt.alloc(), &mut held, 40) == Some((3, 9)));
    assert!(rt; due(rt.alloc(), &mut held, 50) == Some((4, 10)));
    number_some(&mut held);
    assert!(rt; due(rt.alloc(), &mut held, 50) == Some((2, 4)));
    assert!(rt; held.least_deadline() == Some(30));
    drop(held);
}

/// Whether so many wait to take from queue 3, and so many of them have a number.
fn take_line(held: &HeldItems, waiting: u64, numbered: u64) -> bool {
    held.waiting_in(3, WaitKind::Take) == waiting && held.numbered_in(3, WaitKind::Take) == numbered
}

/// Two greenlets that wait to take from queue 3, one that waits to take from another, and one that peeks.
fn wait(held: &mut HeldItems) -> Result<(), AllocError> {
    put(held, Delivery::Wake(1, Waiting::Take(3)))?;
    put(held, Delivery::Wake(2, Waiting::Take(4)))?;
    put(held, Delivery::Wake(3, Waiting::Peek(3)))?;
    put(held, Delivery::Wake(4, Waiting::Take(3)))?;
    Ok(())
}

#[test]
fn lines_are_counted(rt: HostRuntime) {
    let mut held = HeldItems::new(rt.alloc());
    assert!(rt; take_line(&held, 0, 0));
    assert!(rt; wait(&mut held).is_ok());
    assert!(rt; take_line(&held, 2, 0));
    number_some(&mut held);
    assert!(rt; take_line(&held, 2, 1));
    assert!(rt; next(&mut held, 9) == Some(0));
    assert!(rt; take_line(&held, 1, 0));
    held.drop_items(&Gone::WaitOf(4));
    assert!(rt; take_line(&held, 0, 0) && held.waiting_in(4, WaitKind::Take) == 1);
    drop(held);
}
