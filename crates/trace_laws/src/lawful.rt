//! Whether a trace is the text of lines that meet the laws.
ghost use Rattle.std.specs.Prelude.{◌≡◌, ℕ, List, Result};
ghost use Rattle.trace_text.specs.declared.line.Line.{Line as AnyLine};
ghost use Rattle.trace_laws.specs.Kept.{StandsFor};
ghost use Rattle.trace_laws.specs.Answers.{IsJudgedLawful, IsSameLawful};
ghost use Rattle.trace_laws.specs.Counting.{fault_of, lawless_trace, IsCountedFirst};
ghost use Rattle.trace_laws.specs.declared.lawful.LawlessTrace.{LawlessTrace as AnyRefusal};

use crate::laws::{LawRefusal, Laws};
use crate::reading::{after, line_end};
use std::alloc::Global;
use thiserror::Error;
use trace_reader::{LineFault, read_line};

/// Why a trace is not the text of lines that meet the laws.
#[derive(Clone, Copy, Debug, PartialEq, Eq, Error)]
pub enum LawlessTrace {
    /// This line, counted from 1, is the first that is none.
    #[error("line {line} is no line of a trace")]
    NotALine { line: u64 },
    /// With this line, counted from 1, the law of this number is the first that the lines break.
    #[error("line {line} breaks law {law}")]
    Broken { line: u64, law: u8 },
    /// Memory ran out; whether the lines meet the laws is open.
    #[error("out of memory")]
    Memory,
}

/// Why the first line of a text was not counted.
#[derive(Clone, Copy)]
enum Uncounted {
    /// The text begins with no line.
    NotALine,
    /// With it the lines break this law.
    Broken(u8),
    /// Memory ran out.
    Memory,
}

/// How many lines the trace has, where it is the text of lines that meet the laws. Else the first line that is none, or
/// with which they break a law.
pub fn check_laws(alloc: Global, trace: &[u8]) -> Result<u64, LawlessTrace>
    ensures judged { IsJudgedLawful trace.now result }
    ensures only { (right : Result ℕ AnyRefusal) → IsJudgedLawful trace.now right → IsSameLawful right result }
{
    let mut laws = Laws::new(alloc);
    let mut rest = trace;
    let mut count: u64 = 0;
    while !rest.is_empty() {
        match count_first(alloc, &mut laws, rest) {
            Ok(next) => {
                rest = after(rest, next);
                count += 1;
            }
            Err(fault) => return Err(lawless_trace(fault, count + 1)),
        }
    }
    Ok(count)
}

/// Counts the line that the text begins with. Where the next one stands.
fn count_first(alloc: Global, laws: &mut Laws, text: &[u8]) -> Result<usize, Uncounted>
    ensures { (lines : List AnyLine) → StandsFor laws.old lines → IsCountedFirst text.now lines laws.new result }
{
    let Some(end) = line_end(text) else {
        return Err(Uncounted::NotALine);
    };
    match read_line(alloc, &text[..end]) {
        Ok(line) => {
            let counted = laws.step(&line);
            drop(line);
            match counted {
                Ok(()) => Ok(end + 1),
                Err(refusal) => Err(fault_of(refusal)),
            }
        }
        Err(LineFault::NotALine) => Err(Uncounted::NotALine),
        Err(LineFault::Memory) => Err(Uncounted::Memory),
    }
}

/// The fault that the refusal is.
fn fault_of(refusal: LawRefusal) -> Uncounted
    ensures { result ≡ fault_of refusal }
{
    match refusal {
        LawRefusal::Broken(law) => Uncounted::Broken(law),
        LawRefusal::Memory => Uncounted::Memory,
    }
}

/// What is answered where this line was not counted.
fn lawless_trace(fault: Uncounted, line: u64) -> LawlessTrace
    ensures { result ≡ lawless_trace fault line }
{
    match fault {
        Uncounted::NotALine => LawlessTrace::NotALine { line },
        Uncounted::Broken(law) => LawlessTrace::Broken { line, law },
        Uncounted::Memory => LawlessTrace::Memory,
    }
}
