//! Checks of a trace: whether it is the run of a scenario, or whether it meets the laws.
ghost use Rattle.std.specs.Prelude.{◌≡◌, ◌≢◌, ℕ, List, Some, drop, take};
ghost use Rattle.command_words.specs.Ranges.{IsCheckInRange};
ghost use Rattle.gv_top.specs.Answers.{Answer};
ghost use Rattle.run_command.specs.Faults.{Counts};
ghost use Rattle.gv_top.specs.Top.{Decided, FitsAnswer, HandsOn};
ghost use Rattle.gv_top.specs.Status.{verdict_status};
ghost use Rattle.gv_top.specs.Inner.{IsExplained};
ghost use Rattle.gv_top.specs.Verifying.{IsCheckAnswer, verified};
ghost use Rattle.trace_check.specs.Inputs.{most_checked_read};

use crate::status::{Conclusion, Failure, Verdict, verdict_of_check};
use crate::top::send;
use command_words::TraceCheck;
use gv_io::{ReadRefusal, Sink, Source, read_limited};
use serve_command::push_number_line;
use std::alloc::Global;
use trace_check::{MOST_CHECKED, verify};

/// Reads the input and checks this of it. Where it comes out well, the number of its lines is written to out.
pub fn answer_check<S: Source, K: Sink>(
    alloc: Global,
    check: TraceCheck,
    input: &mut S,
    out: &mut K,
) -> Verdict
    requires { IsCheckInRange check }
    ensures answer { (left : List ℕ) (a : Answer) → S.remaining input.old ≡ Some left → IsCheckAnswer check (take most_checked_read left) a →
        Decided result a (K.written out.old) (K.written out.new) }
    ensures checked { (left : List ℕ) → S.remaining input.old ≡ Some left → verdict_status result ≢ 4 → verdict_status result ≢ 5 → verdict_status result ≢ 7 →
        (a : Answer) × IsCheckAnswer check (take most_checked_read left) a × FitsAnswer result a (K.written out.old) (K.written out.new) }
    ensures unprinted { verdict_status result ≢ 0 → verdict_status result ≢ 5 → K.written out.new ≡ K.written out.old }
    ensures command { verdict_status result ≢ 2 }
    ensures no_net { verdict_status result ≢ 10 }
    ensures explained { IsExplained result }
    ensures hands { HandsOn (verdict_status result) (K.written out.old) (K.handed out.old) (K.written out.new) (K.handed out.new) }
    ensures reads { Counts (verdict_status result ≡ 4) (S.faults input.old) (S.faults input.new) }
    ensures writes { Counts (verdict_status result ≡ 5) (K.faults out.old) (K.faults out.new) }
    ensures read_whole { (left : List ℕ) → S.remaining input.old ≡ Some left →
        verdict_status result ≢ 4 → verdict_status result ≢ 7 → S.remaining input.new ≡ Some (drop most_checked_read left) }
{
    match read_limited(alloc, input, MOST_CHECKED) {
        Err(ReadRefusal::Fault) => Verdict::Broke(Failure::Read),
        Err(ReadRefusal::Memory) => Verdict::Broke(Failure::Memory),
        Ok(bytes) => check_bytes(alloc, check, bytes.as_slice(), out),
    }
}

/// Checks this of the bytes, and writes the number of lines to out where it comes out well.
fn check_bytes<K: Sink>(alloc: Global, check: TraceCheck, bytes: &[u8], out: &mut K) -> Verdict
    requires { IsCheckInRange check }
    ensures answer { (a : Answer) → IsCheckAnswer check bytes.now a → Decided result a (K.written out.old) (K.written out.new) }
    ensures checked { verdict_status result ≢ 5 → verdict_status result ≢ 7 → (a : Answer) × IsCheckAnswer check bytes.now a × FitsAnswer result a (K.written out.old) (K.written out.new) }
    ensures unprinted { verdict_status result ≢ 0 → verdict_status result ≢ 5 → K.written out.new ≡ K.written out.old }
    ensures command { verdict_status result ≢ 2 }
    ensures read { verdict_status result ≢ 4 }
    ensures no_net { verdict_status result ≢ 10 }
    ensures explained { IsExplained result }
    ensures hands { HandsOn (verdict_status result) (K.written out.old) (K.handed out.old) (K.written out.new) (K.handed out.new) }
    ensures writes { Counts (verdict_status result ≡ 5) (K.faults out.old) (K.faults out.new) }
{
    match verify(alloc, check, bytes) {
        Ok(lines) => write_verified(alloc, lines, out),
        Err(refusal) => verdict_of_check(refusal),
    }
}

/// Writes to out that a trace of so many lines was checked.
#[tactic(auto, using(gv_io::proofs::StreamLaws::writes))]
fn write_verified<K: Sink>(alloc: Global, lines: u64, out: &mut K) -> Verdict
    ensures answer { Decided result (verified lines) (K.written out.old) (K.written out.new) }
    ensures whole { verdict_status result ≢ 5 → verdict_status result ≢ 7 → FitsAnswer result (verified lines) (K.written out.old) (K.written out.new) }
    ensures unprinted { verdict_status result ≢ 0 → verdict_status result ≢ 5 → K.written out.new ≡ K.written out.old }
    ensures command { verdict_status result ≢ 2 }
    ensures read { verdict_status result ≢ 4 }
    ensures no_net { verdict_status result ≢ 10 }
    ensures explained { IsExplained result }
    ensures hands { HandsOn (verdict_status result) (K.written out.old) (K.handed out.old) (K.written out.new) (K.handed out.new) }
    ensures writes { Counts (verdict_status result ≡ 5) (K.faults out.old) (K.faults out.new) }
{
    let mut text = Vec::new(alloc);
    let Ok(()) = push_number_line(b"verified lines", lines, &mut text) else {
        return Verdict::Broke(Failure::Memory);
    };
    match send(out, text.as_slice()) {
        Ok(()) => Verdict::Did(Conclusion::Finished),
        Err(_) => Verdict::Broke(Failure::Write),
    }
}
