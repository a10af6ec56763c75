//! A heap of items with deadlines, whose places are kept.
ghost use Rattle.std.specs.Prelude.{◌≡◌, ◌≢◌, ℕ, ◌+◌, ◌-◌, ◌*◌, ◌<◌, ◌≤◌, List, [], ◌∷◌, length, IsTrue, ◌↔◌, vec_capacity, IfSome, IfNone, OnOk, OnErr, IsOk, None};
ghost use Rattle.std.specs.List.{SwappedAt, Contains, All};
ghost use Rattle.std.specs.List.Sorted.{IsPermutation};
ghost use Rattle.item_places.specs.Items.{Differ};
ghost use Rattle.due_timers.specs.Heap.{timer, timer_at, rank_at, IsNear, IsDown, IsOrdered, IsTied};
ghost use Rattle.due_timers.specs.SeenTimers.{items_in, deadlines_in, TakesTimer, IsNotAfter};
ghost use Rattle.due_timers.specs.declared.limits.TheConstants.{MOST_TIMERS};

use crate::places::Places;
use std::alloc::{AllocError, Global};
use std::marker::Model;

/// An item that waits for a moment.
#[derive(Clone, Copy, Drop)]
pub struct Timer {
    /// The item's number.
    pub item: u32,
    /// When the item was made, in order of making: of two with one deadline the older goes first.
    pub since: u64,
    /// The moment at which it is due.
    pub deadline: u64,
}

/// Whether the timer at `a` comes before that at `b`.
#[tactic(auto, unfolding(crate::specs::Heap::rank))]
fn is_before(heap: &[Timer], a: usize, b: usize) -> bool
    requires a_within { a < length heap.now }
    requires b_within { b < length heap.now }
    ensures { IsTrue result ↔ (rank_at heap.now a < rank_at heap.now b) }
{
    let x = heap[a];
    let y = heap[b];
    if x.deadline == y.deadline {
        x.since < y.since
    } else {
        x.deadline < y.deadline
    }
}

/// Two timers change places.
fn exchange(heap: &mut [Timer], places: &mut Places, a: usize, b: usize)
    requires a_within { a < length heap.old }
    requires b_within { b < length heap.old }
    requires differ { a ≢ b }
    requires tied { IsTied heap.old places.old }
    ensures swapped { SwappedAt heap.old heap.new a b }
    ensures same { IsPermutation heap.old heap.new }
    ensures tied { IsTied heap.new places.new }
    ensures reach { length places.new ≡ length places.old }
{
    heap.swap(a, b);
    places.set(heap[a].item, a);
    places.set(heap[b].item, b);
}

/// The lesser of two children, of which the left is `left`.
fn lesser_child(heap: &[Timer], left: usize) -> usize
    requires { left < length heap.now }
    ensures child { (left ≤ result) × (result ≤ left + 1) × (result < length heap.now) }
    ensures least { (k : ℕ) → left ≤ k → k ≤ left + 1 → k < length heap.now → rank_at heap.now result ≤ rank_at heap.now k }
{
    if left < heap.len() - 1 && is_before(heap, left + 1, left) {
        left + 1
    } else {
        left
    }
}

/// Moves the timer at `start` up as long as it comes before its parent.
pub fn sift_up(heap: &mut [Timer], places: &mut Places, start: usize)
    requires within { start < length heap.old }
    requires near { IsNear (rank_at heap.old) (length heap.old) start }
    requires tied { IsTied heap.old places.old }
    ensures down { IsDown (rank_at heap.new) (length heap.new) start }
    ensures tied { IsTied heap.new places.new }
    ensures same { IsPermutation heap.old heap.new }
    ensures reach { length places.new ≡ length places.old }
{
    let mut at = start;
    while at > 0 {
        let parent = (at - 1) / 2;
        if !is_before(heap, at, parent) {
            return;
        }
        exchange(heap, places, at, parent);
        at = parent;
    }
}

/// Moves the timer at `start` down as long as a child comes before it.
pub fn sift_down(heap: &mut [Timer], places: &mut Places, start: usize)
    requires within { start < length heap.old }
    requires down { IsDown (rank_at heap.old) (length heap.old) start }
    requires tied { IsTied heap.old places.old }
    ensures ordered { IsOrdered (rank_at heap.new) (length heap.new) }
    ensures tied { IsTied heap.new places.new }
    ensures same { IsPermutation heap.old heap.new }
    ensures reach { length places.new ≡ length places.old }
{
    let mut at = start;
    while at < heap.len() / 2 {
        let child = lesser_child(heap, 2 * at + 1);
        if !is_before(heap, child, at) {
            return;
        }
        exchange(heap, places, at, child);
        at = child;
    }
}

/// Takes the timer at `at` out, and mends the heap.
pub fn take_at(heap: &mut Vec<Timer>, places: &mut Places, at: usize) -> Timer
    requires within { at < length heap.old.items }
    requires ordered { IsOrdered (rank_at heap.old.items) (length heap.old.items) }
    requires tied { IsTied heap.old.items places.old }
    ensures ordered { IsOrdered (rank_at heap.new.items) (length heap.new.items) }
    ensures tied { IsTied heap.new.items places.new }
    ensures same { IsPermutation heap.old.items (result ∷ heap.new.items) }
    ensures timer { result ≡ timer_at heap.old.items at }
    ensures reach { length places.new ≡ length places.old }
    ensures len { length heap.new.items + 1 ≡ length heap.old.items }
    ensures capacity { vec_capacity heap.new ≡ vec_capacity heap.old }
{
    let timer = heap.swap_remove(at);
    places.remove(timer.item);
    if at < heap.len() {
        places.set(heap[at].item, at);
        sift_up(heap, places, at);
        sift_down(heap, places, at);
    }
    timer
}

/// Items with deadlines, of which the least is found at once.
#[derive(Drop)]
pub struct Timers {
    heap: Vec<Timer>,
    // The place of each item in the heap.
    places: Places,
    // So many items fit.
    limit: usize,
}

impl Model for Timers {
    ghost use Rattle.std.specs.Prelude.{◌-◌, length};
    ghost use Rattle.due_timers.specs.SeenTimers.{SeenTimers};

    ghost Value = { SeenTimers };

    ghost use Rattle.due_timers.specs.TimerParts.{IsSound};

    ghost view = { λ t. record { timers = t.heap.items; spare = t.limit - length t.heap.items; reach = length t.places } };

    ghost invariant = { IsSound };
}

impl Timers {
    /// No item has a deadline.
    pub fn new(alloc: Global) -> Self
        ensures none { result.timers ≡ [] }
        ensures spare { result.spare ≡ 0 }
        ensures reach { result.reach ≡ 0 }
    {
        Timers {
            heap: Vec::new(alloc),
            places: Places::new(alloc),
            limit: 0,
        }
    }

    /// Makes room for `n` more items, all below `reach`, so that as many calls of `add` take no memory. `AllocError`:
    /// memory is wanting.
    pub fn reserve(&mut self, n: usize, reach: usize) -> Result<(), AllocError>
        requires { length self.old.timers + n ≤ MOST_TIMERS }
        ensures room { OnOk result (n ≤ self.new.spare) }
        ensures within { OnOk result (reach ≤ self.new.reach) }
        ensures kept { self.new.timers ≡ self.old.timers }
        ensures spare { self.old.spare ≤ self.new.spare }
        ensures reach { self.old.reach ≤ self.new.reach }
        ensures had_room { n ≤ self.old.spare → reach ≤ self.old.reach → IsOk result }
        ensures err { OnErr result (self.new ≡ self.old) }
    {
        let len = self.heap.len();
        self.heap.reserve(n)?;
        self.places.reserve(reach)?;
        // That it fits `usize` is known of a room that is asked.
        let _room = self.heap.capacity();
        self.limit = self.limit.max(len + n);
        Ok(())
    }

    /// How many items have a deadline. No item has two.
    pub fn len(&self) -> usize
        ensures len { result ≡ length self.now.timers }
        ensures differ { Differ (items_in self.now.timers) }
    {
        self.heap.len()
    }

    /// How many more items fit without memory.
    pub fn spare(&self) -> usize
        ensures { result ≡ self.now.spare }
    {
        self.limit - self.heap.len()
    }

    /// Gives an item a deadline.
    pub fn add(&mut self, item: u32, since: u64, deadline: u64)
        requires room { 0 < self.old.spare }
        requires within { item < self.old.reach }
        requires absent { Contains (items_in self.old.timers) item → ⊥ }
        ensures added { IsPermutation (timer item since deadline ∷ self.old.timers) self.new.timers }
        ensures spare { self.new.spare + 1 ≡ self.old.spare }
        ensures reach { self.new.reach ≡ self.old.reach }
    {
        let at = self.heap.len();
        self.heap.push_reserved(Timer {
            item,
            since,
            deadline,
        });
        self.places.set(item, at);
        sift_up(&mut self.heap, &mut self.places, at);
    }

    /// Takes an item out, whatever its deadline.
    pub fn cancel(&mut self, item: u32)
        requires { Contains (items_in self.old.timers) item }
        ensures taken { TakesTimer self.old.timers item self.new.timers (λ _. Unit {0}) }
        ensures spare { self.new.spare ≡ self.old.spare + 1 }
        ensures reach { self.new.reach ≡ self.old.reach }
    {
        let at = self.places.at(item);
        take_at(&mut self.heap, &mut self.places, at);
    }

    /// The least deadline.
    pub fn least(&self) -> Option<u64>
        ensures none { (result ≡ None) ↔ (self.now.timers ≡ []) }
        ensures some { IfSome result (Contains (deadlines_in self.now.timers)) }
        ensures least { IfSome result (λ deadline. All (λ t. deadline ≤ t.deadline) self.now.timers) }
    {
        if self.heap.len() == 0 {
            return None;
        }
        let first = self.heap[0];
        Some(first.deadline)
    }

    /// Takes off, of the items that are due by `now`, the one of the least deadline and, of these, the least `since`.
    pub fn take_due(&mut self, now: u64) -> Option<u32>
        ensures none { (result ≡ None) ↔ All (λ t. now < t.deadline) self.old.timers }
        ensures kept { IfNone result (self.new ≡ self.old) }
        ensures taken { IfSome result (λ item. TakesTimer self.old.timers item self.new.timers
            (λ t. (t.deadline ≤ now) × All (IsNotAfter t) self.old.timers)) }
        ensures spare { IfSome result (λ _. self.new.spare ≡ self.old.spare + 1) }
        ensures reach { self.new.reach ≡ self.old.reach }
    {
        match self.least() {
            Some(deadline) if deadline <= now => {
                let timer = take_at(&mut self.heap, &mut self.places, 0);
                Some(timer.item)
            }
            _ => None,
        }
    }
}
