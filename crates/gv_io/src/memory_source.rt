use crate::count::one_more;
use crate::source::{Failed, Source};
use std::marker::Model;

/// A source over bytes in memory. Exactly the listed reads fail, counted from 0.
#[derive(Debug, Drop)]
pub struct MemorySource {
    bytes: Vec<u8>,
    place: usize,
    piece: usize,
    failing: Vec<u64>,
    calls: u64,
    faults: u64,
}

impl Model for MemorySource {
    ghost use Rattle.std.specs.Prelude.{◌<◌, ◌≤◌, length, drop};
    ghost use Rattle.gv_io.specs.Memory.{SourceState};

    ghost Value = { SourceState };

    ghost view = { λ s. record {
      left = drop s.place s.bytes.items;
      piece = s.piece;
      failing = s.failing.items;
      calls = s.calls;
      faults = s.faults;
    } };

    ghost invariant = { λ s. (s.place ≤ length s.bytes.items) × (0 < s.piece) };
}

impl MemorySource {
    ghost use Rattle.std.specs.Prelude.{◌≡◌, ◌<◌};

    /// A source of these bytes, which gives at most `piece` of them a read.
    pub fn new(bytes: Vec<u8>, piece: usize, failing: Vec<u64>) -> MemorySource
        requires { 0 < piece }
        ensures { result ≡ record { left = bytes.items; piece = piece; failing = failing.items; calls = 0; faults = 0 } }
    {
        MemorySource {
            bytes,
            place: 0,
            piece,
            failing,
            calls: 0,
            faults: 0,
        }
    }
}

impl Source for MemorySource {
    ghost use Rattle.std.specs.Prelude.{◌≡◌, ◌<◌, ◌≤◌, Some, Ok, [], length, take, is_err, if◌then◌else◌, IfOk, IfSome, OnOk, OnErr};
    ghost use Rattle.gv_io.specs.Streams.{prepended};
    ghost use Rattle.gv_values.specs.Counts.{HasRisen};
    ghost use Rattle.gv_io.specs.Memory.{SourceState, fails_next, given, after_read, after_fault};

    ghost remaining = { λ s. Some s.left };

    ghost faults = { λ s. s.faults };

    #[tactic(auto, unfolding(crate::specs::Streams::prepended))]
    fn read(&mut self, buf: &mut [u8]) -> Result<usize, Failed>
        requires room { 0 < length buf.old }
        ensures count { IfOk result (λ n. n ≤ length buf.new) }
        ensures next { IfOk result (λ n. Some self.old.left ≡ prepended (take n buf.new) (Some self.new.left)) }
        ensures end { result ≡ Ok 0 → IfSome (Some self.old.left) (λ left. left ≡ []) }
        ensures same { OnErr result (Some self.new.left ≡ Some self.old.left) }
        ensures never_falls { self.old.faults ≤ self.new.faults }
        ensures failed { OnErr result (HasRisen self.old.faults self.new.faults) }
        ensures unfailed { OnOk result (self.new.faults ≡ self.old.faults) }
        ensures fails { is_err result ≡ fails_next self.old }
        ensures fault { OnErr result (self.new ≡ after_fault self.old) }
        ensures read { IfOk result (λ n. self.new ≡ after_read self.old n) }
        ensures gives { IfOk result (λ n. n ≡ given self.old (length buf.old)) }
    {
        let call = self.calls;
        self.calls = one_more(call);
        if self.failing.contains(&call) {
            self.faults = one_more(self.faults);
            return Err(Failed);
        }
        let left = &self.bytes[self.place..];
        let count = self.piece.min(buf.len()).min(left.len());
        buf[..count].copy_from_slice(&left[..count]);
        self.place += count;
        Ok(count)
    }
}
