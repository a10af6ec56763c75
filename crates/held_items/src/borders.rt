//! Who has the last ready number of those who wait in a line, as far as is known.
ghost use Rattle.std.specs.Prelude.{◌+◌, ◌<◌, ◌^◌, IfSome};

use std::alloc::{AllocError, Global};

/// By the key of what is waited for, the slot of the last item with a ready number. It is a guess that whoever takes it
/// has to try, since another item may be in the slot: only time rests on it.
#[derive(Drop)]
pub struct Borders {
    slots: Vec<Option<u32>>,
}

impl Borders {
    /// None is known.
    pub fn new(alloc: Global) -> Self {
        Borders {
            slots: Vec::new(alloc),
        }
    }

    /// Makes a place for the key, if there is one. `AllocError`: memory is wanting.
    pub fn make_place(&mut self, key: Option<usize>) -> Result<(), AllocError>
        requires { IfSome key (λ k. k + 1 < 2 ^ 64) }
    {
        if let Some(key) = key {
            if self.slots.len() <= key {
                self.slots.resize(key + 1, None)?;
            }
        }
        Ok(())
    }

    /// The slot of the last item with a number, as far as is known.
    pub fn guess(&self, key: usize) -> Option<u32> {
        match self.slots.get(key) {
            Some(slot) => *slot,
            None => None,
        }
    }

    /// The last item with a number is in this slot.
    fn set(&mut self, key: usize, slot: Option<u32>) {
        if key < self.slots.len() {
            self.slots[key] = slot;
        }
    }

    /// The item in this slot, if there is one, is the last with a number.
    pub fn move_to(&mut self, key: Option<usize>, slot: Option<u32>) {
        if let Some(key) = key {
            if slot.is_some() {
                self.set(key, slot);
            }
        }
    }

    /// The item in this slot goes, behind that in the slot before.
    pub fn leave(&mut self, key: Option<usize>, slot: u32, before: Option<u32>) {
        if let Some(key) = key {
            if let Some(last) = self.guess(key) {
                if last == slot {
                    self.set(key, before);
                }
            }
        }
    }
}
