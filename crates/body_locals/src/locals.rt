//! The locals of a body, by the numbers of their names.
ghost use Rattle.std.specs.Prelude.{◌≡◌, ◌<◌, [], ◌∷◌, ◌++◌, None, Some, true, length, unwrap_or, IsTrue, IfSome, OnOk, OnErr, IfOk};
ghost use Rattle.std.specs.Option.{option_copied};
ghost use Rattle.gv_values.specs.declared.value.Value.TheVariants as value;
ghost use Rattle.body_locals.specs.Locals.{AreOnce, IsPlaceOf, StandsAt, bind, value_of};

use body_names::LocalSlot;
use gv_values::Value;
use std::alloc::{AllocError, Global};
use std::marker::Model;

/// A local that has a value, by the number of its name.
#[derive(Drop)]
pub struct Bound {
    pub number: u32,
    pub value: Value,
}

/// The locals of a body in the order in which they were first bound. A local mostly stands at the place of its slot.
#[derive(Drop)]
pub struct Locals {
    all: Vec<Bound>,
    /// Whether it is known that no two have the same number.
    is_once: bool,
}

impl Model for Locals {
    ghost use Rattle.std.specs.Prelude.{◌≡◌, List, true};
    ghost use Rattle.scenario_tree.specs.Trees.{trees};
    ghost use Rattle.body_locals.specs.declared.locals.Bound.{Bound as Numbered};
    ghost use Rattle.body_locals.specs.Locals.{AreOnce};

    ghost Value = { List Numbered };

    ghost coded = { Prim.hlevel trees };

    ghost view = { λ l. l.all.items };

    ghost invariant = { λ l. l.is_once ≡ true → AreOnce l.all.items };
}

impl Locals {
    /// No local, with room for so many. `AllocError`: memory is wanting.
    pub fn with_capacity(alloc: Global, capacity: usize) -> Result<Locals, AllocError>
        ensures { IfOk result (λ locals. locals ≡ []) }
    {
        let all = Vec::with_capacity(alloc, capacity)?;
        Ok(Locals { all, is_once: true })
    }

    /// The value of the local, where it has one.
    #[inline(always)]
    pub fn get(&self, slot: LocalSlot) -> Option<&Value>
        ensures { unwrap_or (option_copied result) value.Nothing ≡ value_of slot.number self.now }
    {
        get_in(self.all.as_slice(), self.is_once, slot)
    }

    /// The value of the local, where it stands at the place of its slot. A caller that goes on at once with it is shorter
    /// than one that goes on with what `get` found either way.
    #[inline(always)]
    pub fn there(&self, slot: LocalSlot) -> Option<&Value>
        ensures { IfSome (option_copied result) (λ v. v ≡ value_of slot.number self.now) }
    {
        value_there(self.all.as_slice(), self.is_once, slot)
    }

    /// One local more, after the others. `AllocError`: memory is wanting.
    #[tactic(auto, using(crate::proofs::Places::once_pushed))]
    pub fn push(&mut self, number: u32, value: Value) -> Result<(), AllocError>
        ensures { OnOk result (self.new ≡ self.old ++ record { number = number; value = value } ∷ []) }
    {
        self.is_once = stays_once(self.all.as_slice(), self.is_once, number);
        self.all.push(Bound { number, value })?;
        Ok(())
    }

    /// The local takes the value. `AllocError`: memory is wanting.
    #[inline(always)]
    #[tactic(auto, using(crate::proofs::Places::once_bound))]
    pub fn bind(&mut self, slot: LocalSlot, value: Value) -> Result<(), AllocError>
        ensures { OnOk result (self.new ≡ bind slot.number value self.old) }
    {
        bind_in(&mut self.all, self.is_once, slot, value)?;
        Ok(())
    }
}

/// The value of the local, where it has one: at the place of its slot, where it stands there.
#[inline(always)]
fn get_in(all: &[Bound], is_once: bool, slot: LocalSlot) -> Option<&Value>
    requires { is_once ≡ true → AreOnce all.now }
    ensures { unwrap_or (option_copied result) value.Nothing ≡ value_of slot.number all.now }
{
    if let Some(value) = value_there(all, is_once, slot) {
        return Some(value);
    }
    search(all, slot.number)
}

/// The value of the local, where it stands at the place of its slot.
#[inline(always)]
fn value_there(all: &[Bound], is_once: bool, slot: LocalSlot) -> Option<&Value>
    requires { is_once ≡ true → AreOnce all.now }
    ensures { IfSome (option_copied result) (λ v. v ≡ value_of slot.number all.now) }
{
    if is_once {
        if let Some(bound) = all.get(slot.place) {
            if bound.number == slot.number {
                return Some(&bound.value);
            }
        }
    }
    None
}

/// The local takes the value. Where it has one already, that alone is written.
#[inline(always)]
fn bind_in(
    all: &mut Vec<Bound>,
    is_once: bool,
    slot: LocalSlot,
    value: Value,
) -> Result<(), AllocError>
    requires { is_once ≡ true → AreOnce all.old.items }
    ensures ok { OnOk result (all.new.items ≡ bind slot.number value all.old.items) }
    ensures err { OnErr result (all.new.items ≡ all.old.items) }
{
    if is_there(all.as_slice(), is_once, slot) {
        all[slot.place].value = value;
        return Ok(());
    }
    Ok(bind_searched(all, slot.number, value)?)
}

/// The same, wherever the local stands. It stays a call, so that the way above is short.
#[inline(never)]
fn bind_searched(all: &mut Vec<Bound>, number: u32, value: Value) -> Result<(), AllocError>
    ensures ok { OnOk result (all.new.items ≡ bind number value all.old.items) }
    ensures err { OnErr result (all.new.items ≡ all.old.items) }
{
    match place_of(all.as_slice(), number) {
        Some(at) => all[at].value = value,
        None => all.push(Bound { number, value })?,
    }
    Ok(())
}

/// Whether the local stands at the place of its slot.
#[inline(always)]
#[tactic(auto, using(crate::proofs::Places::stands_place))]
fn is_there(all: &[Bound], is_once: bool, slot: LocalSlot) -> bool
    requires { is_once ≡ true → AreOnce all.now }
    ensures place { IsTrue result → IsPlaceOf slot.number all.now (Some slot.place) }
    ensures within { IsTrue result → slot.place < length all.now }
{
    if is_once {
        return stands_at(all, slot.place, slot.number);
    }
    false
}

/// Whether a local of this number stands at this place.
#[inline(always)]
fn stands_at(all: &[Bound], place: usize, number: u32) -> bool
    ensures stands { IsTrue result → StandsAt place number all.now }
    ensures within { IsTrue result → place < length all.now }
{
    match all.get(place) {
        Some(bound) => bound.number == number,
        None => false,
    }
}

/// The value of the local of this number, where it has one.
#[inline(never)]
fn search(all: &[Bound], number: u32) -> Option<&Value>
    ensures { unwrap_or (option_copied result) value.Nothing ≡ value_of number all.now }
{
    for bound in all {
        if bound.number == number {
            return Some(&bound.value);
        }
    }
    None
}

/// Whether no two have the same number, with one more of this number.
fn stays_once(all: &[Bound], is_once: bool, number: u32) -> bool
    ensures known { IsTrue result → is_once ≡ true }
    ensures absent { IsTrue result → IsPlaceOf number all.now None }
{
    if is_once {
        return place_of(all, number).is_none();
    }
    false
}

/// The place of the local of this number, wherever it stands.
#[inline(never)]
fn place_of(all: &[Bound], number: u32) -> Option<usize>
    ensures place { IsPlaceOf number all.now result }
    ensures within { IfSome result (λ at. at < length all.now) }
{
    for i in 0..all.len() {
        if all[i].number == number {
            return Some(i);
        }
    }
    None
}
