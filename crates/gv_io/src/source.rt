ghost use Rattle.std.specs.Prelude.{◌≡◌, ℕ, ◌<◌, ◌≤◌, List, Option, [], length, take, IfOk, OnOk, OnErr, IfSome, Ok};
ghost use Rattle.gv_io.specs.Streams.{prepended};
ghost use Rattle.gv_values.specs.Counts.{HasRisen};

use thiserror::Error;

/// A read or a write that failed. The count of faults of its object has risen then, and only then.
#[derive(Clone, Copy, Debug, PartialEq, Eq, Error)]
#[error("a read or a write failed")]
pub struct Failed;

/// Where bytes come from.
pub trait Source {
    // The bytes that are left, where they are told.
    ghost remaining: { Self → Option (List ℕ) };

    // How many reads have failed. It stands still at the last value of 64 bits.
    ghost faults: { Self → ℕ };

    /// Reads some of the bytes that are left to the front of `buf`, and answers how many. None is the end.
    /// A read that fails takes nothing.
    fn read(&mut self, buf: &mut [u8]) -> Result<usize, Failed>
        requires room { 0 < length buf.old }
        ensures count { IfOk result (λ n. n ≤ length buf.new) }
        ensures next { IfOk result (λ n. remaining self.old ≡ prepended (take n buf.new) (remaining self.new)) }
        ensures end { result ≡ Ok 0 → IfSome (remaining self.old) (λ left. left ≡ []) }
        ensures same { OnErr result (remaining self.new ≡ remaining self.old) }
        ensures never_falls { faults self.old ≤ faults self.new }
        ensures failed { OnErr result (HasRisen (faults self.old) (faults self.new)) }
        ensures unfailed { OnOk result (faults self.new ≡ faults self.old) };
}
