//! Names in a table.
ghost use Rattle.std.specs.Prelude.{◌≡◌, [], ◌∷◌, ◌++◌, List, OnOk, IfOk, ℕ};
ghost use Rattle.std.specs.Option.{is_none};
ghost use Rattle.name_table.specs.Tables.{found, Holds};

use std::alloc::{AllocError, Global};
use std::collections::BTreeMap;

/// A value for each name: the first that it was given. Names are the bytes of names, in the order of bytes. Of n names
/// a call compares O(log n) with the one that it is for.
#[derive(Drop)]
pub struct Names<V> {
    entries: BTreeMap<Vec<u8>, V>,
}

impl<V: Copy> Names<V> {
    /// No name has a value yet.
    pub fn new(alloc: Global) -> Names<V>
        ensures { Holds result [] }
    {
        Names {
            entries: BTreeMap::new(alloc),
        }
    }

    /// The value of the name, and none exactly where it was given none. Nothing is allocated.
    pub fn find(&self, name: &[u8]) -> Option<V>
        ensures { result ≡ found self.now name.now }
    {
        self.entries.get(name).copied()
    }

    /// Gives the name this value, where it has none yet; whether it had none. `AllocError`: memory is wanting, and no
    /// clause says what the table then has.
    pub fn give(&mut self, alloc: Global, name: &[u8], value: V) -> Result<bool, AllocError>
        ensures was_new { IfOk result (λ was_new. was_new ≡ is_none (found self.old name.now)) }
        ensures holds { (ds : List (List ℕ × V)) → Holds self.old ds → OnOk result (Holds self.new (ds ++ (name.now, value) ∷ [])) }
    {
        if self.entries.contains_key(name) {
            return Ok(false);
        }
        let key = Vec::from_slice(alloc, name)?;
        self.entries.insert(key, value)?;
        Ok(true)
    }
}
