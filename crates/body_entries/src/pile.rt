//! A list that is read and grown at its front, at a cost that does not depend on its length.
ghost use Rattle.std.specs.Prelude.{◌≡◌, ◌<◌, ◌-◌, false, [], ◌∷◌, ◌++◌, IfOk, IsTrue, OnOk, MatchOption, drop, length, slice_set};
ghost use Rattle.std.specs.Option.{option_copied};
ghost use Rattle.body_entries.specs.declared.entry.Entry.{Entry as Listed};

use crate::entry::Entry;
use std::alloc::{AllocError, Global};
use std::marker::Model;

/// The entries, of which the last one stands at the front. It is seen as the list of them, from the front.
#[derive(Drop)]
pub struct Pile<T> {
    items: Vec<T>,
}

impl<T> Model for Pile<T> {
    ghost use Rattle.std.specs.Prelude.{List, reverse};
    ghost use Rattle.std.specs.Coded.{coded_list};

    ghost Value = { List T };

    ghost coded = { coded_list T.code };

    ghost view = { λ p. reverse p.items.items };
}

impl<T: Drop> Pile<T> {
    /// No entry, with room for so many. `AllocError`: memory is wanting.
    pub fn with_capacity(alloc: Global, capacity: usize) -> Result<Pile<T>, AllocError>
        ensures { IfOk result (λ pile. pile ≡ []) }
    {
        let items = Vec::with_capacity(alloc, capacity)?;
        Ok(Pile { items })
    }

    /// What its memory is taken from.
    pub fn allocator(&self) -> Global {
        *self.items.allocator()
    }

    /// The first entry.
    #[inline(always)]
    #[tactic(auto, using(crate::proofs::Piles::first_there, crate::proofs::Piles::none_there))]
    pub fn first(&self) -> Option<&T>
        ensures { MatchOption (option_copied result) (self.now ≡ []) (λ first. self.now ≡ first ∷ drop 1 self.now) }
    {
        self.items.as_slice().last()
    }

    /// Takes the first entry off.
    #[tactic(auto, using(crate::proofs::Piles::first_off, crate::proofs::Piles::none_off))]
    pub fn pop(&mut self) -> Option<T>
        ensures { MatchOption result ((self.old ≡ []) × (self.new ≡ [])) (λ first. self.old ≡ first ∷ self.new) }
    {
        pop_last(&mut self.items)
    }

    /// Lets the first entry go.
    #[inline(always)]
    #[tactic(auto, using(crate::proofs::Piles::rest_left, crate::proofs::Piles::none_left))]
    pub fn drop_first(&mut self)
        ensures { self.new ≡ drop 1 self.old }
    {
        match pop_last(&mut self.items) {
            Some(_) => {}
            None => {}
        }
    }

    /// Puts the entry before the others. At an entry whose kind is known it is a few stores.
    #[inline(always)]
    #[tactic(auto, using(crate::proofs::Piles::put_first))]
    pub fn push(&mut self, first: T) -> Result<(), AllocError>
        ensures { OnOk result (self.new ≡ first ∷ self.old) }
    {
        push_last(&mut self.items, first)?;
        Ok(())
    }
}

impl Pile<Entry> {
    /// The rest of a block that is first is the rest of this block from this place on: the entry is changed where it
    /// stands. Where another entry is first, nothing is done.
    #[inline(always)]
    #[tactic(auto, using(crate::proofs::Piles::last_set))]
    pub fn set_rest(&mut self, block: usize, at: usize) -> bool
        ensures set { IsTrue result → self.new ≡ Listed.Rest block at ∷ drop 1 self.old }
        ensures not { result ≡ false → self.new ≡ self.old }
    {
        set_last(&mut self.items, block, at)
    }
}

#[inline(always)]
fn set_last(items: &mut Vec<Entry>, block: usize, at: usize) -> bool
    ensures some { IsTrue result → 0 < length items.old.items }
    ensures set { IsTrue result → items.new.items ≡ slice_set items.old.items (length items.old.items - 1) (Listed.Rest block at) }
    ensures not { result ≡ false → items.new.items ≡ items.old.items }
{
    let count = items.len();
    if count == 0 {
        return false;
    }
    set_entry(&mut items[count - 1], block, at)
}

#[inline(always)]
fn set_entry(entry: &mut Entry, block: usize, at: usize) -> bool
    ensures set { IsTrue result → entry.new ≡ Listed.Rest block at }
    ensures not { result ≡ false → entry.new ≡ entry.old }
{
    match entry {
        Entry::Rest {
            block: own,
            at: place,
        } => {
            *own = block;
            *place = at;
            true
        }
        _ => false,
    }
}

#[inline(always)]
fn pop_last<T>(items: &mut Vec<T>) -> Option<T>
    ensures { MatchOption result ((items.old.items ≡ []) × (items.new.items ≡ [])) (λ last. items.old.items ≡ items.new.items ++ last ∷ []) }
{
    items.pop()
}

/// Room is made first, so that where there is some the item is stored and nothing else is done.
#[inline(always)]
fn push_last<T: Drop>(items: &mut Vec<T>, item: T) -> Result<(), AllocError>
    ensures { OnOk result (items.new.items ≡ items.old.items ++ item ∷ []) }
{
    items.reserve(1)?;
    items.push_reserved(item);
    Ok(())
}
