//! Whether an input is verified: that its trace is the run of its scenario, or that its lines meet the laws.
ghost use Rattle.std.specs.Prelude.{◌≡◌, ◌+◌, ◌≤◌, drop, length, IfErr, Ok as Fine, Err as Refuses};
ghost use Rattle.command_words.specs.Ranges.{IsCheckInRange};
ghost use Rattle.machine.specs.Budgets.{AreBudgets};
ghost use Rattle.scenario_reading.specs.Judged.{judged_text};
ghost use Rattle.trace_laws.specs.Parts.{parted};
ghost use Rattle.trace_check.specs.Said.{IsReasoned, IsSaid, IsSaidOf, IsSaidOfParts, IsSaidOfScenario, IsSaidOfTrace, IsSame, Verification, said_of_laws, said_of_run, said_of_text};

use crate::check::check_run;
use crate::inputs::{MOST_CHECKED, end_line, line_at};
use command_words::TraceCheck;
use hub_engine::Budgets;
use scenario_check::Checked;
use scenario_grammar::Place;
use scenario_lang::ParseRefusal;
use scenario_reading::read_scenario;
use std::alloc::Global;
use thiserror::Error;
use trace_laws::{Cause, LawlessTrace, TraceRefusal, check_laws, mark_place};

/// The bytes of a line of four equals signs, with its line feed.
const MARK_BYTES: usize = 5;

/// Why an input was not verified. Lines are counted from 1.
#[derive(Clone, Copy, Debug, PartialEq, Eq, Error)]
pub enum Unverified {
    /// It is longer than it may be; the line of the first byte too many.
    #[error("the input is too long at line {line}")]
    Overlong { line: u64 },
    /// It has no line of four equals signs; its last line.
    #[error("the input ends at line {line} without a line of four equals signs")]
    Unmarked { line: u64 },
    /// What stands before that line spells no well-formed scenario; where it is refused.
    #[error("the scenario is refused at line {}", .0.line)]
    Refused(Place),
    /// From this line of the trace on it is not the run, or it is no line of a trace.
    #[error("line {line} of the trace is wrong")]
    Wrong { line: u64, cause: Cause },
    /// With this line of the trace the law of this number is the first that the lines break.
    #[error("line {line} of the trace breaks law {law}")]
    Lawless { line: u64, law: u8 },
    /// Memory ran out; whether the input is verified is open.
    #[error("out of memory")]
    Memory,
}

/// How many lines the trace has, where this check of the input comes out well.
///
/// `Run`: the input is a scenario, a line of four equals signs and a trace, and the trace is the run of the scenario
/// within the turns and moves, under the answers that its turn lines name, each of them legal. `Laws`: the whole input is
/// a trace, whose lines meet the laws. An input of which more than `MOST_CHECKED` bytes are here is too long.
pub fn verify(alloc: Global, check: TraceCheck, bytes: &[u8]) -> Result<u64, Unverified>
    requires { IsCheckInRange check }
    ensures said { IsSaid (IsSaidOf check bytes.now) result }
    ensures only { (right : Verification) → IsSaidOf check bytes.now right → IsSame right result }
    ensures reason { IfErr result IsReasoned }
{
    if bytes.len() > MOST_CHECKED {
        return Err(Unverified::Overlong {
            line: line_at(bytes, MOST_CHECKED),
        });
    }
    match check {
        TraceCheck::Run { turns, moves } => verify_parts(alloc, Budgets { turns, moves }, bytes),
        TraceCheck::Laws => verify_lines(alloc, bytes),
    }
}

/// Whether the lines meet the laws.
fn verify_lines(alloc: Global, trace: &[u8]) -> Result<u64, Unverified>
    ensures said { IsSaidOfTrace trace.now result }
    ensures only { (right : Verification) → IsSaidOfTrace trace.now right → IsSame right result }
    ensures reason { IfErr result IsReasoned }
{
    match check_laws(alloc, trace) {
        Ok(lines) => Ok(lines),
        Err(refusal) => Err(said_of_laws(refusal)),
    }
}

/// Whether the trace behind the first line of four equals signs is the run of the scenario before it.
fn verify_parts(alloc: Global, budgets: Budgets, bytes: &[u8]) -> Result<u64, Unverified>
    requires { AreBudgets budgets.turns budgets.moves }
    ensures said { IsSaid (IsSaidOfParts (parted bytes.now) bytes.now budgets.turns budgets.moves) result }
    ensures only { (right : Verification) → IsSaidOfParts (parted bytes.now) bytes.now budgets.turns budgets.moves right → IsSame right result }
    ensures reason { IfErr result IsReasoned }
{
    match mark_place(bytes) {
        None => Err(Unverified::Unmarked {
            line: end_line(bytes),
        }),
        Some(place) => verify_text(alloc, budgets, &bytes[..place], behind_mark(bytes, place)),
    }
}

/// What stands behind the line of four equals signs at this place.
fn behind_mark(bytes: &[u8], place: usize) -> &[u8]
    requires { place + 4 ≤ length bytes.now }
    ensures { result.now ≡ drop 5 (drop place bytes.now) }
{
    if bytes.len() - place < MARK_BYTES {
        return &bytes[bytes.len()..];
    }
    &bytes[place + MARK_BYTES..]
}

/// Whether the trace is the run of the scenario that the text spells.
fn verify_text(
    alloc: Global,
    budgets: Budgets,
    text: &[u8],
    trace: &[u8],
) -> Result<u64, Unverified>
    requires { AreBudgets budgets.turns budgets.moves }
    ensures said { IsSaid (IsSaidOfScenario (judged_text text.now) budgets.turns budgets.moves trace.now) result }
    ensures only { (right : Verification) → IsSaidOfScenario (judged_text text.now) budgets.turns budgets.moves trace.now right → IsSame right result }
    ensures reason { IfErr result IsReasoned }
{
    match read_scenario(alloc, text) {
        Ok(checked) => verify_trace(alloc, budgets, checked, trace),
        Err(refusal) => Err(said_of_text(refusal)),
    }
}

/// Whether the trace is the run of the scenario.
fn verify_trace(
    alloc: Global,
    budgets: Budgets,
    checked: Checked,
    trace: &[u8],
) -> Result<u64, Unverified>
    requires { AreBudgets budgets.turns budgets.moves }
    ensures said { IsSaidOfScenario (Fine checked) budgets.turns budgets.moves trace.now result }
    ensures only { (right : Verification) → IsSaidOfScenario (Fine checked) budgets.turns budgets.moves trace.now right → IsSame right result }
    ensures reason { IfErr result IsReasoned }
{
    match check_run(alloc, checked, budgets, trace) {
        Ok(lines) => Ok(lines),
        Err(refusal) => Err(said_of_run(refusal)),
    }
}

/// Why an input is not verified whose text spells no well-formed scenario.
fn said_of_text(refusal: ParseRefusal) -> Unverified
    ensures { result ≡ said_of_text refusal }
{
    match refusal {
        ParseRefusal::Refused(place) => Unverified::Refused(place),
        ParseRefusal::Memory => Unverified::Memory,
    }
}

/// Why an input is not verified whose trace is not the run.
fn said_of_run(refusal: TraceRefusal) -> Unverified
    ensures is { Refuses result ≡ said_of_run (Refuses refusal) }
    ensures reason { IsReasoned result }
{
    match refusal {
        TraceRefusal::Wrong { line, cause } => Unverified::Wrong { line, cause },
        TraceRefusal::Memory => Unverified::Memory,
    }
}

/// Why an input is not verified whose lines do not meet the laws.
fn said_of_laws(refusal: LawlessTrace) -> Unverified
    ensures is { Refuses result ≡ said_of_laws (Refuses refusal) }
    ensures reason { IsReasoned result }
{
    match refusal {
        LawlessTrace::NotALine { line } => Unverified::Wrong {
            line,
            cause: Cause::NotALine,
        },
        LawlessTrace::Broken { line, law } => Unverified::Lawless { line, law },
        LawlessTrace::Memory => Unverified::Memory,
    }
}
