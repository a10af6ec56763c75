//! That a line is one that its type has. The calls do nothing but take it apart: what is handed on by value is known to
//! fit its type.
#![tactic(auto)]

ghost use Rattle.std.specs.Prelude.{◌<◌, ◌^◌};
ghost use Rattle.trace_reader.specs.Ranges.{IntFits, FaultFits, ScalarFits, ScalarsFit, ValueFits, OutcomeFits, NameFits, AwaitedFits, UntilFits, LinkCallFits, JobFits, BlockedFits, AnswerFits, CauseFits, LineFits};

use gv_values::{Answer, FaultKind, Job, Name, Outcome, Scalar, Value};
use trace_text::{Awaited, Blocked, Line, LinkCall, StopCause};

/// A line is one that there is: its numbers fit their types, its names are names, its lists have at most
/// `MOST_ELEMENTS` scalars. Each kind of line has one call, which is cheaper to prove than a call for each field.
pub fn line_fits(line: &Line)
    ensures { LineFits line.now }
{
    match line {
        Line::Start { greenlet, function } => start_fits(*greenlet, *function),
        Line::Print { greenlet, value } => print_fits(*greenlet, value),
        Line::Park {
            greenlet,
            awaited,
            until,
        } => park_fits(*greenlet, *awaited, *until),
        Line::Resume { greenlet, by: _ } => u32_fits(*greenlet),
        Line::Throw { greenlet, fault } => throw_fits(*greenlet, *fault),
        Line::Into { greenlet, input } => with_outcome_fits(*greenlet, input),
        Line::End { greenlet, outcome } => with_outcome_fits(*greenlet, outcome),
        Line::Link {
            number,
            greenlet,
            call,
        } => link_fits(*number, *greenlet, *call),
        Line::Job {
            number,
            greenlet,
            job,
        } => job_fits(*number, *greenlet, *job),
        Line::Block(blocked) => blocked_fits(*blocked),
        Line::Turn { number, answer } => turn_fits(*number, *answer),
        Line::Stop {
            cause,
            turns,
            moves,
        } => stop_fits(cause, *turns, *moves),
    }
}

fn start_fits(greenlet: u32, function: Name)
    ensures { (greenlet < 2 ^ 32) × NameFits function }
{}

fn print_fits(greenlet: u32, value: &Value)
    ensures { (greenlet < 2 ^ 32) × ValueFits value.now }
{
    value_fits(value)
}

fn park_fits(greenlet: u32, awaited: Awaited, until: Option<u64>)
    ensures { (greenlet < 2 ^ 32) × AwaitedFits awaited × UntilFits until }
{}

fn throw_fits(greenlet: u32, fault: FaultKind)
    ensures { (greenlet < 2 ^ 32) × FaultFits fault }
{}

/// The greenlet and the outcome of a line `into` or `end`.
fn with_outcome_fits(greenlet: u32, outcome: &Outcome)
    ensures { (greenlet < 2 ^ 32) × OutcomeFits outcome.now }
{
    outcome_fits(outcome)
}

fn link_fits(number: u32, greenlet: u32, call: LinkCall)
    ensures { (number < 2 ^ 32) × (greenlet < 2 ^ 32) × LinkCallFits call }
{}

fn job_fits(number: u32, greenlet: u32, job: Job)
    ensures { (number < 2 ^ 32) × (greenlet < 2 ^ 32) × JobFits job }
{}

fn turn_fits(number: u64, answer: Answer)
    ensures { (number < 2 ^ 64) × AnswerFits answer }
{}

fn stop_fits(cause: &StopCause, turns: u64, moves: u64)
    ensures { CauseFits cause.now × (turns < 2 ^ 64) × (moves < 2 ^ 64) }
{
    cause_fits(cause)
}

fn u32_fits(number: u32)
    ensures { number < 2 ^ 32 }
{}

fn i64_fits(integer: i64)
    ensures { IntFits integer }
{}

fn fault_fits(fault: FaultKind)
    ensures { FaultFits fault }
{}

fn scalar_fits(scalar: Scalar)
    ensures { ScalarFits scalar }
{}

fn scalars_fit(scalars: &[Scalar])
    ensures { ScalarsFit scalars.now }
{
    match scalars {
        [] => {}
        [first, rest @ ..] => {
            scalar_fits(*first);
            scalars_fit(rest);
        }
    }
}

fn value_fits(value: &Value)
    ensures { ValueFits value.now }
{
    match value {
        Value::Int(integer) => i64_fits(*integer),
        Value::Fault(fault) => fault_fits(*fault),
        Value::Greenlet(number) => u32_fits(*number),
        Value::Job(number) => u32_fits(*number),
        Value::List(list) => scalars_fit(list.scalars()),
        Value::Nothing => {}
        Value::Bool(_) => {}
    }
}

fn outcome_fits(outcome: &Outcome)
    ensures { OutcomeFits outcome.now }
{
    match outcome {
        Outcome::Value(value) => value_fits(value),
        Outcome::Fault(fault) => fault_fits(*fault),
    }
}

fn blocked_fits(blocked: Blocked)
    ensures { BlockedFits blocked }
{}

fn cause_fits(cause: &StopCause)
    ensures { CauseFits cause.now }
{
    match cause {
        StopCause::Value(value) => value_fits(value),
        StopCause::Fault(fault) => fault_fits(*fault),
        StopCause::NoTurns => {}
        StopCause::NoMoves => {}
        StopCause::NoGreenlets => {}
        StopCause::NoLinks => {}
        StopCause::NoKills => {}
    }
}
