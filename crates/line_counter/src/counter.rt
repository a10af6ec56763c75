//! The sink that counts.
ghost use Rattle.std.specs.Prelude.{◌≡◌};
ghost use Rattle.line_counter.specs.Lines.{lines_of};

use crate::told::{Piece, Told};
use gv_io::{Failed, Sink};
use std::marker::Model;

/// A sink that counts the lines of what is written, by their line feeds, and keeps none of it. It takes a text of up to
/// 2^64 - 1 lines: a write past them fails, and adds nothing.
#[derive(Drop)]
pub struct LineCounter {
    told: Told,
    lines: u64,
    faults: u64,
}

impl Model for LineCounter {
    ghost use Rattle.std.specs.Prelude.{◌≡◌};
    ghost use Rattle.line_counter.specs.Lines.{CounterState, lines_of};

    ghost Value = { CounterState };

    ghost view = { λ s. record { text = s.told.text; faults = s.faults } };

    ghost invariant = { λ s. s.lines ≡ lines_of s.told.text };
}

impl LineCounter {
    ghost use Rattle.std.specs.Prelude.{◌≡◌, []};
    ghost use Rattle.line_counter.specs.Lines.{lines_of};

    /// A counter to which nothing was written.
    pub fn new() -> LineCounter
        ensures { result ≡ record { text = []; faults = 0 } }
    {
        LineCounter {
            told: Told::nothing(),
            lines: 0,
            faults: 0,
        }
    }

    /// How many lines were written.
    pub fn lines(&self) -> u64
        ensures { result ≡ lines_of self.now.text }
    {
        self.lines
    }
}

impl Sink for LineCounter {
    ghost use Rattle.std.specs.Prelude.{◌≡◌, ◌≤◌, Some, is_err, is_ok, true, OnOk, OnErr};
    ghost use Rattle.gv_io.specs.Streams.{appended, AppendsPrefix, Extends};
    ghost use Rattle.gv_values.specs.Counts.{HasRisen};
    ghost use Rattle.line_counter.specs.Lines.{is_past_count};

    ghost written = { λ s. Some s.text };

    ghost handed = { λ s. Some s.text };

    ghost faults = { λ s. s.faults };

    #[tactic(auto, using(gv_io::proofs::StreamLaws::tells, gv_io::proofs::StreamLaws::writes))]
    fn write_all(&mut self, bytes: &[u8]) -> Result<(), Failed>
        ensures ok { OnOk result (Some self.new.text ≡ appended (Some self.old.text) bytes.now) }
        ensures err { OnErr result (AppendsPrefix (Some self.old.text) (Some self.new.text) bytes.now) }
        ensures never_taken_back { Extends (Some self.old.text) (Some self.new.text) }
        ensures never_falls { self.old.faults ≤ self.new.faults }
        ensures failed { OnErr result (HasRisen self.old.faults self.new.faults) }
        ensures unfailed { OnOk result (self.new.faults ≡ self.old.faults) }
        ensures fails { is_err result ≡ is_past_count self.old bytes.now }
        ensures kept { OnErr result (self.new.text ≡ self.old.text) }
    {
        match self.lines.checked_add(lines_in(bytes)) {
            Some(lines) => {
                self.lines = lines;
                self.told = self.told.and(&Piece { bytes });
                Ok(())
            }
            None => {
                self.faults = self.faults.saturating_add(1);
                Err(Failed)
            }
        }
    }

    /// Nothing is kept back, so this never fails.
    #[tactic(auto, using(gv_io::proofs::StreamLaws::tells))]
    fn flush(&mut self) -> Result<(), Failed>
        ensures same { Some self.new.text ≡ Some self.old.text }
        ensures handed { OnOk result (Some self.new.text ≡ Some self.new.text) }
        ensures never_taken_back { Extends (Some self.old.text) (Some self.new.text) }
        ensures never_falls { self.old.faults ≤ self.new.faults }
        ensures failed { OnErr result (HasRisen self.old.faults self.new.faults) }
        ensures unfailed { OnOk result (self.new.faults ≡ self.old.faults) }
        ensures ok { is_ok result ≡ true }
        ensures unchanged { self.new ≡ self.old }
    {
        Ok(())
    }
}

/// How many line feeds the bytes have.
fn lines_in(bytes: &[u8]) -> u64
    ensures { result ≡ lines_of bytes.now }
{
    bytes.iter().filter(|byte| **byte == b'\n').count() as u64
}
