//! A sink that compares.
ghost use Rattle.trace_laws.specs.Comparing.{IsCommon};

use gv_io::{Failed, Sink};
use std::marker::Model;

/// A sink that takes exactly what comes next in a trace. The first write that does not come next fails, and so does
/// each write after it.
#[derive(Drop)]
pub struct CompareSink<'a> {
    trace: &'a [u8],
    // How many bytes of the trace were written.
    matched: usize,
    // The first byte that was written and does not come next.
    other: Option<u8>,
    faults: u64,
}

impl<'a> Model for CompareSink<'a> {
    ghost use Rattle.trace_laws.specs.Comparing.{Comparing, Compares};

    ghost Value = { Comparing };

    ghost view = { λ s. record { trace = s.trace.now; matched = s.matched; other = s.other; faults = s.faults } };

    ghost invariant = { λ s. Compares (record { trace = s.trace.now; matched = s.matched; other = s.other; faults = s.faults }) };
}

impl<'a> CompareSink<'a> {
    ghost use Rattle.std.specs.Prelude.{◌≡◌, None};
    ghost use Rattle.trace_laws.specs.Comparing.{Compares};

    /// A sink to which nothing was written.
    pub fn new(trace: &'a [u8]) -> CompareSink<'a>
        ensures { result ≡ record { trace = trace.now; matched = 0; other = None; faults = 0 } }
    {
        CompareSink {
            trace,
            matched: 0,
            other: None,
            faults: 0,
        }
    }

    /// How many bytes of the trace were written.
    pub fn matched(&self) -> usize
        ensures count { result ≡ self.now.matched }
        ensures compares { Compares self.now }
    {
        self.matched
    }
}

impl<'a> Sink for CompareSink<'a> {
    ghost use Rattle.std.specs.Prelude.{◌≡◌, ◌≤◌, Some, is_ok, true, OnOk, OnErr};
    ghost use Rattle.gv_io.specs.Streams.{appended, AppendsPrefix, Extends};
    ghost use Rattle.gv_values.specs.Counts.{HasRisen};
    ghost use Rattle.trace_laws.specs.Comparing.{IsNext, told_text};

    ghost written = { λ s. Some (told_text s) };

    ghost handed = { λ s. Some (told_text s) };

    ghost faults = { λ s. s.faults };

    #[tactic(auto, using(gv_io::proofs::StreamLaws::tells))]
    fn write_all(&mut self, bytes: &[u8]) -> Result<(), Failed>
        ensures ok { OnOk result (Some (told_text self.new) ≡ appended (Some (told_text self.old)) bytes.now) }
        ensures err { OnErr result (AppendsPrefix (Some (told_text self.old)) (Some (told_text self.new)) bytes.now) }
        ensures never_taken_back { Extends (Some (told_text self.old)) (Some (told_text self.new)) }
        ensures never_falls { self.old.faults ≤ self.new.faults }
        ensures failed { OnErr result (HasRisen self.old.faults self.new.faults) }
        ensures unfailed { OnOk result (self.new.faults ≡ self.old.faults) }
        ensures next { OnOk result (IsNext self.old bytes.now) }
        ensures not_next { OnErr result (¬ IsNext self.old bytes.now) }
        ensures trace { self.new.trace ≡ self.old.trace }
    {
        if self.other.is_some() {
            self.faults = self.faults.saturating_add(1);
            return Err(Failed);
        }
        let same = common_len(&self.trace[self.matched..], bytes);
        self.matched += same;
        if same == bytes.len() {
            return Ok(());
        }
        self.other = Some(bytes[same]);
        self.faults = self.faults.saturating_add(1);
        Err(Failed)
    }

    /// Nothing is kept back, so this never fails.
    #[tactic(auto, using(gv_io::proofs::StreamLaws::tells))]
    fn flush(&mut self) -> Result<(), Failed>
        ensures same { Some (told_text self.new) ≡ Some (told_text self.old) }
        ensures handed { OnOk result (Some (told_text self.new) ≡ Some (told_text self.new)) }
        ensures never_taken_back { Extends (Some (told_text self.old)) (Some (told_text self.new)) }
        ensures never_falls { self.old.faults ≤ self.new.faults }
        ensures failed { OnErr result (HasRisen self.old.faults self.new.faults) }
        ensures unfailed { OnOk result (self.new.faults ≡ self.old.faults) }
        ensures ok { is_ok result ≡ true }
        ensures unchanged { self.new ≡ self.old }
    {
        Ok(())
    }
}

/// How many bytes begin both.
fn common_len(trace: &[u8], bytes: &[u8]) -> usize
    ensures { IsCommon trace.now bytes.now result }
{
    let mut same = 0;
    while same < bytes.len() {
        if same == trace.len() {
            return same;
        }
        if trace[same] != bytes[same] {
            return same;
        }
        same += 1;
    }
    same
}
