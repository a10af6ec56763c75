ghost use Rattle.std.specs.Prelude.{◌≡◌, ◌<◌, ◌^◌, None, Some, is_some, not};

use std::marker::Model;

/// A place in order of delivery, if there is one. It takes no more room than the number itself.
#[derive(Drop)]
pub struct ReadyNumber {
    /// The place and one; 0 if there is none.
    after: u64,
}

impl Model for ReadyNumber {
    ghost use Rattle.std.specs.Prelude.{ℕ, ◌-◌, if◌then◌else◌, Option, None, Some, nat_eq};
    ghost use Rattle.std.specs.Coded.{coded_option, coded_ℕ};

    ghost Value = { Option ℕ };

    ghost coded = { coded_option coded_ℕ };

    ghost view = { λ r. if nat_eq r.after 0 then None else Some (r.after - 1) };
}

impl ReadyNumber {
    /// No place.
    pub fn none() -> ReadyNumber
        ensures { result ≡ None }
    {
        ReadyNumber { after: 0 }
    }

    /// This place.
    pub fn at(place: u64) -> ReadyNumber
        requires { place < 2 ^ 63 }
        ensures { result ≡ Some place }
    {
        ReadyNumber { after: place + 1 }
    }

    /// The place, if there is one.
    pub fn place(&self) -> Option<u64>
        ensures { result ≡ self.now }
    {
        if self.after == 0 {
            return None;
        }
        Some(self.after - 1)
    }

    /// Whether there is one.
    pub fn is_some(&self) -> bool
        ensures { result ≡ is_some self.now }
    {
        self.after != 0
    }

    /// Whether there is none.
    pub fn is_none(&self) -> bool
        ensures { is_some self.now ≡ not result }
    {
        self.after == 0
    }
}
