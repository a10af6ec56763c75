use crate::count::one_more;
use crate::sink::Sink;
use crate::source::Failed;
use std::alloc::{AllocError, Global};
use std::marker::Model;

/// A sink that keeps what is written in memory, and takes so many bytes in all. Exactly the writes that go past
/// them fail; these add as many bytes as there is room for. Nothing is kept back: what is written is handed on.
#[derive(Debug, Drop)]
pub struct MemorySink {
    bytes: Vec<u8>,
    room: usize,
    faults: u64,
}

impl Model for MemorySink {
    ghost use Rattle.std.specs.Prelude.{◌≤◌, length, vec_capacity};
    ghost use Rattle.gv_io.specs.Memory.{SinkState};

    ghost Value = { SinkState };

    ghost view = { λ s. record { bytes = s.bytes.items; room = s.room; faults = s.faults } };

    ghost invariant = { λ s. (length s.bytes.items ≤ s.room) × (s.room ≤ vec_capacity s.bytes) };
}

impl MemorySink {
    ghost use Rattle.std.specs.Prelude.{◌≡◌, [], ◌≤◌, length, IfOk};

    /// A sink that takes so many bytes. It takes its memory here.
    pub fn new(alloc: Global, room: usize) -> Result<MemorySink, AllocError>
        ensures { IfOk result (λ sink. sink ≡ record { bytes = []; room = room; faults = 0 }) }
    {
        Ok(MemorySink {
            bytes: Vec::with_capacity(alloc, room)?,
            room,
            faults: 0,
        })
    }

    /// The bytes that were written.
    pub fn bytes(&self) -> &[u8]
        ensures same { result.now ≡ self.now.bytes }
        ensures room { length self.now.bytes ≤ self.now.room }
    {
        self.bytes.as_slice()
    }
}

impl Sink for MemorySink {
    ghost use Rattle.std.specs.Prelude.{◌≡◌, ◌≤◌, Some, true, is_ok, is_err, OnOk, OnErr};
    ghost use Rattle.gv_io.specs.Streams.{appended, AppendsPrefix, Extends};
    ghost use Rattle.gv_values.specs.Counts.{HasRisen};
    ghost use Rattle.gv_io.specs.Memory.{SinkState, is_past_room, after_write};

    ghost written = { λ s. Some s.bytes };

    ghost handed = { λ s. Some s.bytes };

    ghost faults = { λ s. s.faults };

    #[tactic(auto, using(crate::proofs::StreamLaws::tells))]
    fn write_all(&mut self, bytes: &[u8]) -> Result<(), Failed>
        ensures ok { OnOk result (Some self.new.bytes ≡ appended (Some self.old.bytes) bytes.now) }
        ensures err { OnErr result (AppendsPrefix (Some self.old.bytes) (Some self.new.bytes) bytes.now) }
        ensures never_taken_back { Extends (Some self.old.bytes) (Some self.new.bytes) }
        ensures never_falls { self.old.faults ≤ self.new.faults }
        ensures failed { OnErr result (HasRisen self.old.faults self.new.faults) }
        ensures unfailed { OnOk result (self.new.faults ≡ self.old.faults) }
        ensures fails { is_err result ≡ is_past_room self.old bytes.now }
        ensures after { self.new ≡ after_write self.old bytes.now }
    {
        let free = self.room - self.bytes.len();
        if bytes.len() <= free {
            self.bytes.extend_from_slice(bytes).unwrap();
            return Ok(());
        }
        self.bytes.extend_from_slice(&bytes[..free]).unwrap();
        self.faults = one_more(self.faults);
        Err(Failed)
    }

    /// Nothing is kept back, so this never fails.
    #[tactic(auto, using(crate::proofs::StreamLaws::tells))]
    fn flush(&mut self) -> Result<(), Failed>
        ensures same { Some self.new.bytes ≡ Some self.old.bytes }
        ensures handed { OnOk result (Some self.new.bytes ≡ Some self.new.bytes) }
        ensures never_taken_back { Extends (Some self.old.bytes) (Some self.new.bytes) }
        ensures never_falls { self.old.faults ≤ self.new.faults }
        ensures failed { OnErr result (HasRisen self.old.faults self.new.faults) }
        ensures unfailed { OnOk result (self.new.faults ≡ self.old.faults) }
        ensures ok { is_ok result ≡ true }
        ensures unchanged { self.new ≡ self.old }
    {
        Ok(())
    }
}
