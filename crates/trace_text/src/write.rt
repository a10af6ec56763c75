//! Lines written as text.
#![tactic(auto, using(gv_values::proofs::Fronts::fronts))]

ghost use Rattle.std.specs.Prelude.{◌≡◌, ◌++◌, take, length, codes, OnOk, OnErr};
ghost use Rattle.gv_values.specs.Fronts.{BeginsWith};
ghost use Rattle.gv_values.specs.Texts.{decimal, int_text, greenlet_text, outcome_text, whom_text};
ghost use Rattle.trace_text.specs.Line.{line_text, awaited_text, until_text, link_call_text, job_call_text, job_outcome_text, answer_text, cause_text, resumed_text};

use crate::line::{Awaited, Blocked, Line, LinkCall, Resumed, StopCause};
use gv_values::{
    Answer, Job, JobOutcome, Name, Outcome, Whom, decimal_text, fault_text, int_text, outcome_text,
    value_text, whom_text,
};
use std::alloc::AllocError;

/// Appends the line's text, without LF. Where there is no memory for it, nothing is appended.
pub fn write_line(l: &Line, out: &mut Vec<u8>) -> Result<(), AllocError>
    ensures ok { OnOk result (out.new.items ≡ out.old.items ++ line_text l.now) }
    ensures err { OnErr result (out.new.items ≡ out.old.items) }
{
    let before = out.len();
    let written = push_line(l, out);
    if written.is_err() {
        out.truncate(before);
    }
    written
}

fn push_line(line: &Line, out: &mut Vec<u8>) -> Result<(), AllocError>
    ensures ok { OnOk result (out.new.items ≡ out.old.items ++ line_text line.now) }
    ensures err { OnErr result (BeginsWith out.new.items out.old.items) }
{
    match line {
        Line::Start { greenlet, function } => {
            push_head(b"start ", *greenlet, out)?;
            out.extend_from_slice(function.bytes())
        }
        Line::Print { greenlet, value } => {
            push_head(b"print ", *greenlet, out)?;
            value_text(value, out)
        }
        Line::Park {
            greenlet,
            awaited,
            until,
        } => push_park(*greenlet, awaited, *until, out),
        Line::Resume { greenlet, by } => push_resume(*greenlet, *by, out),
        Line::Throw { greenlet, fault } => {
            push_head(b"throw ", *greenlet, out)?;
            fault_text(*fault, out)
        }
        Line::Into { greenlet, input } => push_with_outcome(b"into ", *greenlet, input, out),
        Line::End { greenlet, outcome } => push_with_outcome(b"end ", *greenlet, outcome, out),
        Line::Link {
            number,
            greenlet,
            call,
        } => push_link(*number, *greenlet, call, out),
        Line::Job {
            number,
            greenlet,
            job,
        } => push_job(*number, *greenlet, *job, out),
        Line::Block(blocked) => push_block(*blocked, out),
        Line::Turn { number, answer } => push_turn(*number, *answer, out),
        Line::Stop {
            cause,
            turns,
            moves,
        } => push_stop(cause, *turns, *moves, out),
    }
}

/// A word, the greenlet, and a blank.
fn push_head(word: &[u8], greenlet: u32, out: &mut Vec<u8>) -> Result<(), AllocError>
    ensures ok { OnOk result (out.new.items ≡ out.old.items ++ (word.now ++ greenlet_text greenlet ++ codes " ")) }
    ensures err { OnErr result (BeginsWith out.new.items out.old.items) }
{
    out.extend_from_slice(word)?;
    whom_text(Whom::Greenlet(greenlet), out)?;
    out.extend_from_slice(b" ")
}

/// A word, the greenlet, and an outcome.
fn push_with_outcome(
    word: &[u8],
    greenlet: u32,
    outcome: &Outcome,
    out: &mut Vec<u8>,
) -> Result<(), AllocError>
    ensures ok { OnOk result (out.new.items ≡ out.old.items ++ (word.now ++ greenlet_text greenlet ++ codes " " ++ outcome_text outcome.now)) }
    ensures err { OnErr result (BeginsWith out.new.items out.old.items) }
{
    push_head(word, greenlet, out)?;
    outcome_text(outcome, out)
}

fn push_park(
    greenlet: u32,
    awaited: &Awaited,
    until: Option<u64>,
    out: &mut Vec<u8>,
) -> Result<(), AllocError>
    ensures ok { OnOk result (out.new.items ≡ out.old.items ++ line_text (Line.Park greenlet awaited.now until)) }
    ensures err { OnErr result (BeginsWith out.new.items out.old.items) }
{
    push_head(b"park ", greenlet, out)?;
    push_awaited(awaited, out)?;
    push_until(until, out)
}

fn push_awaited(awaited: &Awaited, out: &mut Vec<u8>) -> Result<(), AllocError>
    ensures ok { OnOk result (out.new.items ≡ out.old.items ++ awaited_text awaited.now) }
    ensures err { OnErr result (BeginsWith out.new.items out.old.items) }
{
    match awaited {
        Awaited::Sleep => out.extend_from_slice(b"sleep"),
        Awaited::Join(whom) => push_with_whom(b"join ", *whom, out),
        Awaited::Get(whom) => push_with_whom(b"get ", *whom, out),
        Awaited::Kill(whom) => push_with_whom(b"kill ", *whom, out),
        Awaited::JoinAll => out.extend_from_slice(b"joinall"),
        Awaited::KillAll => out.extend_from_slice(b"killall"),
        Awaited::Wait(name) => push_with_name(b"wait ", name, out),
        Awaited::ResultGet(name) => push_with_name(b"rget ", name, out),
        Awaited::ResultWait(name) => push_with_name(b"rwait ", name, out),
        Awaited::Acquire(name) => push_with_name(b"acquire ", name, out),
        Awaited::QueuePut(name) => push_with_name(b"qput ", name, out),
        Awaited::QueueGet(name) => push_with_name(b"qget ", name, out),
        Awaited::QueuePeek(name) => push_with_name(b"qpeek ", name, out),
        Awaited::QueueJoin(name) => push_with_name(b"qjoin ", name, out),
        Awaited::GroupSpawn(name) => push_with_name(b"gspawn ", name, out),
        Awaited::GroupJoin(name) => push_with_name(b"gjoin ", name, out),
        Awaited::GroupKill(name) => push_with_name(b"gkill ", name, out),
        Awaited::Map(name) => push_with_name(b"map ", name, out),
        Awaited::NativeSpawn(name) => push_with_name(b"nspawn ", name, out),
        Awaited::ChannelPut(name) => push_with_name(b"cput ", name, out),
        Awaited::ChannelGet(name) => push_with_name(b"cget ", name, out),
    }
}

fn push_with_whom(word: &[u8], whom: Whom, out: &mut Vec<u8>) -> Result<(), AllocError>
    ensures ok { OnOk result (out.new.items ≡ out.old.items ++ (word.now ++ whom_text whom)) }
    ensures err { OnErr result (BeginsWith out.new.items out.old.items) }
{
    out.extend_from_slice(word)?;
    whom_text(whom, out)
}

fn push_with_name(word: &[u8], name: &Name, out: &mut Vec<u8>) -> Result<(), AllocError>
    ensures ok { OnOk result (out.new.items ≡ out.old.items ++ (word.now ++ name.now)) }
    ensures err { OnErr result (BeginsWith out.new.items out.old.items) }
{
    out.extend_from_slice(word)?;
    out.extend_from_slice(name.bytes())
}

fn push_until(until: Option<u64>, out: &mut Vec<u8>) -> Result<(), AllocError>
    ensures ok { OnOk result (out.new.items ≡ out.old.items ++ until_text until) }
    ensures err { OnErr result (BeginsWith out.new.items out.old.items) }
{
    match until {
        None => Ok(()),
        Some(moment) => {
            out.extend_from_slice(b" until ")?;
            decimal_text(moment, out)
        }
    }
}

fn push_resume(greenlet: u32, by: Resumed, out: &mut Vec<u8>) -> Result<(), AllocError>
    ensures ok { OnOk result (out.new.items ≡ out.old.items ++ line_text (Line.Resume greenlet by)) }
    ensures err { OnErr result (BeginsWith out.new.items out.old.items) }
{
    out.extend_from_slice(resumed_word(by))?;
    whom_text(Whom::Greenlet(greenlet), out)
}

fn resumed_word(by: Resumed) -> &'static [u8]
    ensures { result.now ≡ resumed_text by ++ codes " " }
{
    match by {
        Resumed::Wake => b"wake ",
        Resumed::Late => b"late ",
    }
}

fn push_link(
    number: u32,
    greenlet: u32,
    call: &LinkCall,
    out: &mut Vec<u8>,
) -> Result<(), AllocError>
    ensures ok { OnOk result (out.new.items ≡ out.old.items ++ line_text (Line.Link number greenlet call.now)) }
    ensures err { OnErr result (BeginsWith out.new.items out.old.items) }
{
    push_with_number(b"link ", u64::from(number), out)?;
    push_head(b" ", greenlet, out)?;
    push_link_call(call, out)
}

fn push_link_call(call: &LinkCall, out: &mut Vec<u8>) -> Result<(), AllocError>
    ensures ok { OnOk result (out.new.items ≡ out.old.items ++ link_call_text call.now) }
    ensures err { OnErr result (BeginsWith out.new.items out.old.items) }
{
    match call {
        LinkCall::Greenlet(greenlet) => whom_text(Whom::Greenlet(*greenlet), out),
        LinkCall::Mark(number) => {
            out.extend_from_slice(b"mark ")?;
            decimal_text(u64::from(*number), out)
        }
        LinkCall::Set(name) => push_with_name(b"set ", name, out),
    }
}

fn push_job(number: u32, greenlet: u32, job: Job, out: &mut Vec<u8>) -> Result<(), AllocError>
    ensures ok { OnOk result (out.new.items ≡ out.old.items ++ line_text (Line.Job number greenlet job)) }
    ensures err { OnErr result (BeginsWith out.new.items out.old.items) }
{
    push_with_whom(b"job ", Whom::Job(number), out)?;
    push_head(b" ", greenlet, out)?;
    push_job_call(job, out)
}

fn push_job_call(job: Job, out: &mut Vec<u8>) -> Result<(), AllocError>
    ensures ok { OnOk result (out.new.items ≡ out.old.items ++ job_call_text job) }
    ensures err { OnErr result (BeginsWith out.new.items out.old.items) }
{
    match job {
        Job::Sum(integer) => push_with_integer(b"sum ", integer, out),
        Job::Collatz(integer) => push_with_integer(b"collatz ", integer, out),
        Job::Fail(integer) => push_with_integer(b"fail ", integer, out),
        Job::Echo(integer) => push_with_integer(b"echo ", integer, out),
    }
}

fn push_with_integer(word: &[u8], integer: i64, out: &mut Vec<u8>) -> Result<(), AllocError>
    ensures ok { OnOk result (out.new.items ≡ out.old.items ++ (word.now ++ int_text integer)) }
    ensures err { OnErr result (BeginsWith out.new.items out.old.items) }
{
    out.extend_from_slice(word)?;
    int_text(integer, out)
}

fn push_block(blocked: Blocked, out: &mut Vec<u8>) -> Result<(), AllocError>
    ensures ok { OnOk result (out.new.items ≡ out.old.items ++ line_text (Line.Block blocked)) }
    ensures err { OnErr result (BeginsWith out.new.items out.old.items) }
{
    match blocked {
        Blocked::Until(moment) => push_with_number(b"block ", moment, out),
        Blocked::Jobs => out.extend_from_slice(b"block jobs"),
        Blocked::Nothing => out.extend_from_slice(b"block none"),
    }
}

fn push_turn(number: u64, answer: Answer, out: &mut Vec<u8>) -> Result<(), AllocError>
    ensures ok { OnOk result (out.new.items ≡ out.old.items ++ line_text (Line.Turn number answer)) }
    ensures err { OnErr result (BeginsWith out.new.items out.old.items) }
{
    push_with_number(b"turn ", number, out)?;
    out.extend_from_slice(b" ")?;
    push_answer(answer, out)
}

fn push_answer(answer: Answer, out: &mut Vec<u8>) -> Result<(), AllocError>
    ensures ok { OnOk result (out.new.items ≡ out.old.items ++ answer_text answer) }
    ensures err { OnErr result (BeginsWith out.new.items out.old.items) }
{
    match answer {
        Answer::Nothing { at } => push_with_number(b"nothing ", at, out),
        Answer::Elapsed { at } => push_with_number(b"elapsed ", at, out),
        Answer::Done {
            number,
            outcome,
            at,
        } => {
            out.extend_from_slice(b"done ")?;
            whom_text(Whom::Job(number), out)?;
            push_with_number(b" ", at, out)?;
            out.extend_from_slice(b" ")?;
            push_job_outcome(outcome, out)
        }
    }
}

fn push_job_outcome(outcome: JobOutcome, out: &mut Vec<u8>) -> Result<(), AllocError>
    ensures ok { OnOk result (out.new.items ≡ out.old.items ++ job_outcome_text outcome) }
    ensures err { OnErr result (BeginsWith out.new.items out.old.items) }
{
    match outcome {
        JobOutcome::Int(integer) => push_with_integer(b"value ", integer, out),
        JobOutcome::Fault(fault) => {
            out.extend_from_slice(b"fault ")?;
            fault_text(fault, out)
        }
    }
}

fn push_with_number(word: &[u8], number: u64, out: &mut Vec<u8>) -> Result<(), AllocError>
    ensures ok { OnOk result (out.new.items ≡ out.old.items ++ (word.now ++ decimal number)) }
    ensures err { OnErr result (BeginsWith out.new.items out.old.items) }
{
    out.extend_from_slice(word)?;
    decimal_text(number, out)
}

fn push_stop(cause: &StopCause, turns: u64, moves: u64, out: &mut Vec<u8>) -> Result<(), AllocError>
    ensures ok { OnOk result (out.new.items ≡ out.old.items ++ line_text (Line.Stop cause.now turns moves)) }
    ensures err { OnErr result (BeginsWith out.new.items out.old.items) }
{
    out.extend_from_slice(b"stop ")?;
    push_cause(cause, out)?;
    push_with_number(b" turns ", turns, out)?;
    push_with_number(b" moves ", moves, out)
}

fn push_cause(cause: &StopCause, out: &mut Vec<u8>) -> Result<(), AllocError>
    ensures ok { OnOk result (out.new.items ≡ out.old.items ++ cause_text cause.now) }
    ensures err { OnErr result (BeginsWith out.new.items out.old.items) }
{
    match cause {
        StopCause::Value(value) => {
            out.extend_from_slice(b"value ")?;
            value_text(value, out)
        }
        StopCause::Fault(fault) => {
            out.extend_from_slice(b"fault ")?;
            fault_text(*fault, out)
        }
        StopCause::NoTurns => out.extend_from_slice(b"no-turns"),
        StopCause::NoMoves => out.extend_from_slice(b"no-moves"),
        StopCause::NoGreenlets => out.extend_from_slice(b"no-greenlets"),
        StopCause::NoLinks => out.extend_from_slice(b"no-links"),
        StopCause::NoKills => out.extend_from_slice(b"no-kills"),
    }
}
