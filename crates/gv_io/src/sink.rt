ghost use Rattle.std.specs.Prelude.{◌≡◌, ℕ, ◌≤◌, List, Option, OnOk, OnErr};
ghost use Rattle.gv_io.specs.Streams.{appended, AppendsPrefix, Extends};
ghost use Rattle.gv_values.specs.Counts.{HasRisen};

use crate::source::Failed;

/// Where bytes go.
pub trait Sink {
    // The bytes that were written, where they are told.
    ghost written: { Self → Option (List ℕ) };

    // Those that were handed on to whoever reads them, where they are told.
    ghost handed: { Self → Option (List ℕ) };

    // How many calls have failed. It stands still at the last value of 64 bits.
    ghost faults: { Self → ℕ };

    /// Appends all the bytes. Where it fails, it appends a prefix of them. It may keep them back.
    fn write_all(&mut self, bytes: &[u8]) -> Result<(), Failed>
        ensures ok { OnOk result (written self.new ≡ appended (written self.old) bytes.now) }
        ensures err { OnErr result (AppendsPrefix (written self.old) (written self.new) bytes.now) }
        ensures never_taken_back { Extends (handed self.old) (handed self.new) }
        ensures never_falls { faults self.old ≤ faults self.new }
        ensures failed { OnErr result (HasRisen (faults self.old) (faults self.new)) }
        ensures unfailed { OnOk result (faults self.new ≡ faults self.old) };

    /// Hands on all that is kept back. Nothing is appended.
    fn flush(&mut self) -> Result<(), Failed>
        ensures same { written self.new ≡ written self.old }
        ensures handed { OnOk result (handed self.new ≡ written self.new) }
        ensures never_taken_back { Extends (handed self.old) (handed self.new) }
        ensures never_falls { faults self.old ≤ faults self.new }
        ensures failed { OnErr result (HasRisen (faults self.old) (faults self.new)) }
        ensures unfailed { OnOk result (faults self.new ≡ faults self.old) };
}
