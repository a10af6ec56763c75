use crate::limits::MOST_ELEMENTS;
use crate::scalar::Scalar;
use std::alloc::{AllocError, Global};
use std::marker::Model;
use thiserror::Error;

/// Why a scalar was not appended. The list is as before.
#[derive(Clone, Copy, Debug, PartialEq, Eq, Error)]
pub enum PushRefusal {
    /// The list has `MOST_ELEMENTS` scalars.
    #[error("the list is full")]
    Full,
    #[error("out of memory")]
    Memory,
}

/// A flat list of at most `MOST_ELEMENTS` scalars.
#[derive(Debug, Drop)]
pub struct List {
    scalars: Vec<Scalar>,
}

impl Model for List {
    ghost use Rattle.std.specs.Prelude.{◌≤◌, length};
    ghost use Rattle.std.specs.Prelude.{List};
    ghost use Rattle.gv_values.specs.declared.limits.TheConstants.{MOST_ELEMENTS};
    ghost use Rattle.gv_values.specs.declared.scalar.Scalar.{Scalar};

    ghost Value = { List Scalar };

    ghost view = { λ l. l.scalars.items };

    ghost invariant = { λ l. length l.scalars.items ≤ MOST_ELEMENTS };
}

impl List {
    ghost use Rattle.std.specs.Prelude.{◌≡◌, [], ◌∷◌, ◌++◌, ◌≤◌, ◌↔◌, length, OnOk, OnErr, IfOk, IsErrOf, slice_get};
    ghost use Rattle.gv_values.specs.declared.limits.TheConstants.{MOST_ELEMENTS};

    /// The empty list; it takes no memory.
    pub fn new(alloc: Global) -> List
        ensures { result ≡ [] }
    {
        List {
            scalars: Vec::new(alloc),
        }
    }

    /// The scalars, from the first on.
    pub fn scalars(&self) -> &[Scalar]
        ensures same { result.now ≡ self.now }
        ensures limit { length self.now ≤ MOST_ELEMENTS }
    {
        self.scalars.as_slice()
    }

    /// Appends a scalar, unless the list is full.
    pub fn push(&mut self, scalar: Scalar) -> Result<(), PushRefusal>
        ensures ok { OnOk result (self.new ≡ self.old ++ scalar ∷ []) }
        ensures full { IsErrOf result PushRefusal.Full ↔ (length self.old ≡ MOST_ELEMENTS) }
        ensures err { OnErr result (self.new ≡ self.old) }
    {
        if self.scalars.len() == MOST_ELEMENTS {
            return Err(PushRefusal::Full);
        }
        self.scalars.push(scalar).map_err(|_| PushRefusal::Memory)
    }

    /// The scalar at a place, counted from 0; none exactly past the end.
    pub fn get(&self, place: usize) -> Option<Scalar>
        ensures { result ≡ slice_get self.now place }
    {
        self.scalars.get(place).copied()
    }

    /// A copy of the list. `AllocError`: memory is wanting.
    pub fn copy(&self, alloc: Global) -> Result<List, AllocError>
        ensures { IfOk result (λ list. list ≡ self.now) }
    {
        Ok(List {
            scalars: self.scalars.as_slice().to_vec(alloc)?,
        })
    }
}
