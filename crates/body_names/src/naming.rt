//! The names of a scenario.
ghost use Rattle.std.specs.Prelude.{◌≡◌, ◌++◌, List, IfOk};
ghost use Rattle.gv_values.specs.declared.name.Name.{Name as Word};
ghost use Rattle.body_names.specs.Naming.{Grows, IsKept, name_of};

use crate::expression::LocalSlot;
use gv_values::Name;
use name_table::Names;
use scenario_tree::Items;
use std::alloc::{AllocError, Global};

/// Names with their numbers: each name has its place in the order in which the names were met.
#[derive(Drop)]
pub struct Naming {
    pub names: Items<Name>,
    pub numbers: Names<u32>,
    /// The numbers of the names that the function under way binds, in the order of its text. No clause rests on them.
    pub bound: Items<u32>,
}

impl Naming {
    /// No name yet.
    pub fn new(alloc: Global) -> Naming
        ensures { IsKept result.numbers result.names }
    {
        Naming {
            names: Items::new(alloc),
            numbers: Names::new(alloc),
            bound: Items::new(alloc),
        }
    }

    /// The number of the name, which is given the next one where it has none. `AllocError`: memory is wanting, and no
    /// clause says what the table then has.
    pub fn number(&mut self, alloc: Global, name: &Name) -> Result<u32, AllocError>
        requires kept { IsKept self.old.numbers self.old.names }
        ensures kept { IfOk result (λ _. IsKept self.new.numbers self.new.names) }
        ensures grows { IfOk result (λ _. Grows self.old.names self.new.names) }
        ensures same { IfOk result (λ n. (more : List Word) → name_of (self.new.names ++ more) n ≡ name.now) }
    {
        match self.numbers.find(name.bytes()) {
            Some(number) => Ok(number),
            None => {
                let Ok(number) = u32::try_from(self.names.len()) else {
                    return Err(AllocError);
                };
                self.numbers.give(alloc, name.bytes(), number)?;
                self.names.push(*name)?;
                Ok(number)
            }
        }
    }

    /// The slot of a local of the function under way: its number, and the place where it mostly stands.
    pub fn slot(&mut self, alloc: Global, name: &Name) -> Result<LocalSlot, AllocError>
        requires kept { IsKept self.old.numbers self.old.names }
        ensures kept { IfOk result (λ _. IsKept self.new.numbers self.new.names) }
        ensures grows { IfOk result (λ _. Grows self.old.names self.new.names) }
        ensures same { IfOk result (λ slot. (more : List Word) → name_of (self.new.names ++ more) slot.number ≡ name.now) }
    {
        let number = self.number(alloc, name)?;
        let place = place_among(self.bound.as_slice(), number);
        Ok(LocalSlot { number, place })
    }

    /// The function under way binds the name.
    pub fn note(&mut self, alloc: Global, name: &Name) -> Result<(), AllocError>
        requires kept { IsKept self.old.numbers self.old.names }
        ensures kept { IfOk result (λ _. IsKept self.new.numbers self.new.names) }
        ensures grows { IfOk result (λ _. Grows self.old.names self.new.names) }
    {
        let number = self.number(alloc, name)?;
        if place_among(self.bound.as_slice(), number) == self.bound.len() {
            self.bound.push(number)?;
        }
        Ok(())
    }
}

/// The place of the number, and past the end where it is not among them.
fn place_among(numbers: &[u32], number: u32) -> usize {
    for i in 0..numbers.len() {
        if numbers[i] == number {
            return i;
        }
    }
    numbers.len()
}
