//! The links of chains.
ghost use Rattle.std.specs.Prelude.{◌≡◌, ◌<◌, Some};
ghost use Rattle.slot_chains.specs.declared.limits.TheConstants.{MOST_CHAINED};

use crate::limits::MOST_CHAINED;
use std::marker::Model;

/// A slot or none, in 32 bits. A contract sees it as an `Option`.
#[derive(Clone, Copy, Drop)]
pub struct Link {
    bits: u32,
}

impl Model for Link {
    ghost use Rattle.std.specs.Prelude.{ℕ, Option};
    ghost use Rattle.slot_chains.specs.Links.{slot_in, bits_for, bits_again};

    ghost Value = { Option ℕ };

    ghost view = { λ l. slot_in l.bits };

    ghost inverse = { λ s. record { bits = bits_for s } };

    ghost inverse_ok = { λ l h i. record { bits = bits_again l.bits i } };
}

pub(crate) const NO_LINK: Link = Link { bits: MOST_CHAINED };

impl Link {
    /// A link to this slot.
    #[inline(always)]
    pub(crate) fn to(slot: u32) -> Link
        requires { slot < MOST_CHAINED }
        ensures { result ≡ Some slot }
    {
        Link { bits: slot }
    }

    /// The slot, if there is one.
    #[inline(always)]
    pub(crate) fn slot(self) -> Option<u32>
        ensures { result ≡ self }
    {
        if self.bits == MOST_CHAINED {
            return None;
        }
        Some(self.bits)
    }
}
