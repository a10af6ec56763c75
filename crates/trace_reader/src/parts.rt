//! The parts of lines: what is awaited, called, blocked on, answered, and why a run stops.
#![tactic(auto)]

ghost use Rattle.std.specs.Prelude.{◌≡◌, IfOk};
ghost use Rattle.trace_reader.specs.Ranges.{AwaitedFits, UntilFits, LinkCallFits, JobFits, BlockedFits, JobOutcomeFits, AnswerFits, CauseFits};
ghost use Rattle.trace_reader.specs.Reads.{Reads};
ghost use Rattle.trace_reader.specs.LineFronts.{channel_front, grouped_front, queued_front, named_front, joined_front, awaited_front, until_front, link_call_front, job_call_front, blocked_front, job_outcome_front, done_front, answer_front, limit_front, cause_front};

use crate::cursor::Cursor;
use crate::fault::LineFault;
use crate::values::{read_fault, read_value, read_whom};
use gv_values::{Answer, Job, JobOutcome};
use std::alloc::Global;
use trace_text::{Awaited, Blocked, LinkCall, StopCause};

/// A wait, and what it waits on.
#[tactic(auto, unfolding(crate::specs::Fronts::and_then, crate::specs::Fronts::or_else, crate::specs::LineFronts::awaited_front))]
pub(crate) fn read_awaited(cursor: &mut Cursor<'_>) -> Result<Awaited, LineFault>
    ensures reads { Reads (awaited_front cursor.old) result cursor.new }
    ensures fits { IfOk result AwaitedFits }
{
    if cursor.takes(b"sleep") {
        Ok(Awaited::Sleep)
    } else if cursor.takes(b"join ") {
        Ok(Awaited::Join(read_whom(cursor)?))
    } else if cursor.takes(b"get ") {
        Ok(Awaited::Get(read_whom(cursor)?))
    } else if cursor.takes(b"kill ") {
        Ok(Awaited::Kill(read_whom(cursor)?))
    } else {
        read_joined(cursor)
    }
}

/// A wait on several greenlets, or on what has a name.
#[tactic(auto, unfolding(crate::specs::Fronts::or_else, crate::specs::LineFronts::joined_front))]
fn read_joined(cursor: &mut Cursor<'_>) -> Result<Awaited, LineFault>
    ensures reads { Reads (joined_front cursor.old) result cursor.new }
    ensures fits { IfOk result AwaitedFits }
{
    if cursor.takes(b"joinall") {
        Ok(Awaited::JoinAll)
    } else if cursor.takes(b"killall") {
        Ok(Awaited::KillAll)
    } else {
        read_named(cursor)
    }
}

/// A wait on an event, a result or a lock, or on a queue, a group, a pool or a channel.
#[tactic(auto, unfolding(crate::specs::Fronts::and_then, crate::specs::Fronts::or_else, crate::specs::LineFronts::named_front))]
fn read_named(cursor: &mut Cursor<'_>) -> Result<Awaited, LineFault>
    ensures reads { Reads (named_front cursor.old) result cursor.new }
    ensures fits { IfOk result AwaitedFits }
{
    if cursor.takes(b"wait ") {
        Ok(Awaited::Wait(cursor.name()?))
    } else if cursor.takes(b"rget ") {
        Ok(Awaited::ResultGet(cursor.name()?))
    } else if cursor.takes(b"rwait ") {
        Ok(Awaited::ResultWait(cursor.name()?))
    } else if cursor.takes(b"acquire ") {
        Ok(Awaited::Acquire(cursor.name()?))
    } else {
        read_queued(cursor)
    }
}

/// A wait on a queue, a group, a pool or a channel.
#[tactic(auto, unfolding(crate::specs::Fronts::and_then, crate::specs::Fronts::or_else, crate::specs::LineFronts::queued_front))]
fn read_queued(cursor: &mut Cursor<'_>) -> Result<Awaited, LineFault>
    ensures reads { Reads (queued_front cursor.old) result cursor.new }
    ensures fits { IfOk result AwaitedFits }
{
    if cursor.takes(b"qput ") {
        Ok(Awaited::QueuePut(cursor.name()?))
    } else if cursor.takes(b"qget ") {
        Ok(Awaited::QueueGet(cursor.name()?))
    } else if cursor.takes(b"qpeek ") {
        Ok(Awaited::QueuePeek(cursor.name()?))
    } else if cursor.takes(b"qjoin ") {
        Ok(Awaited::QueueJoin(cursor.name()?))
    } else {
        read_grouped(cursor)
    }
}

/// A wait on a group, a pool or a channel.
#[tactic(auto, unfolding(crate::specs::Fronts::and_then, crate::specs::Fronts::or_else, crate::specs::LineFronts::grouped_front))]
fn read_grouped(cursor: &mut Cursor<'_>) -> Result<Awaited, LineFault>
    ensures reads { Reads (grouped_front cursor.old) result cursor.new }
    ensures fits { IfOk result AwaitedFits }
{
    if cursor.takes(b"gspawn ") {
        Ok(Awaited::GroupSpawn(cursor.name()?))
    } else if cursor.takes(b"gjoin ") {
        Ok(Awaited::GroupJoin(cursor.name()?))
    } else if cursor.takes(b"gkill ") {
        Ok(Awaited::GroupKill(cursor.name()?))
    } else if cursor.takes(b"map ") {
        Ok(Awaited::Map(cursor.name()?))
    } else if cursor.takes(b"nspawn ") {
        Ok(Awaited::NativeSpawn(cursor.name()?))
    } else {
        read_channel(cursor)
    }
}

/// A wait on a channel.
#[tactic(auto, unfolding(crate::specs::Fronts::and_then, crate::specs::Fronts::after, crate::specs::Fronts::or_else, crate::specs::LineFronts::channel_front))]
fn read_channel(cursor: &mut Cursor<'_>) -> Result<Awaited, LineFault>
    ensures reads { Reads (channel_front cursor.old) result cursor.new }
    ensures fits { IfOk result AwaitedFits }
{
    if cursor.takes(b"cput ") {
        Ok(Awaited::ChannelPut(cursor.name()?))
    } else {
        cursor.pass(b"cget ")?;
        Ok(Awaited::ChannelGet(cursor.name()?))
    }
}

#[tactic(auto, unfolding(crate::specs::Fronts::and_then, crate::specs::Fronts::or_else, crate::specs::LineFronts::until_front))]
pub(crate) fn read_until(cursor: &mut Cursor<'_>) -> Result<Option<u64>, LineFault>
    ensures reads { Reads (until_front cursor.old) result cursor.new }
    ensures fits { IfOk result UntilFits }
{
    if cursor.takes(b" until ") {
        Ok(Some(cursor.number()?))
    } else {
        Ok(None)
    }
}

#[tactic(auto, unfolding(crate::specs::Fronts::and_then, crate::specs::Fronts::or_else, crate::specs::LineFronts::link_call_front))]
pub(crate) fn read_link_call(cursor: &mut Cursor<'_>) -> Result<LinkCall, LineFault>
    ensures reads { Reads (link_call_front cursor.old) result cursor.new }
    ensures fits { IfOk result LinkCallFits }
{
    if cursor.takes(b"mark ") {
        Ok(LinkCall::Mark(cursor.small()?))
    } else if cursor.takes(b"set ") {
        Ok(LinkCall::Set(cursor.name()?))
    } else {
        Ok(LinkCall::Greenlet(cursor.greenlet()?))
    }
}

#[tactic(auto, unfolding(crate::specs::Fronts::and_then, crate::specs::Fronts::after, crate::specs::Fronts::or_else, crate::specs::LineFronts::job_call_front))]
pub(crate) fn read_job_call(cursor: &mut Cursor<'_>) -> Result<Job, LineFault>
    ensures reads { Reads (job_call_front cursor.old) result cursor.new }
    ensures fits { IfOk result JobFits }
{
    if cursor.takes(b"sum ") {
        Ok(Job::Sum(cursor.int()?))
    } else if cursor.takes(b"collatz ") {
        Ok(Job::Collatz(cursor.int()?))
    } else if cursor.takes(b"fail ") {
        Ok(Job::Fail(cursor.int()?))
    } else {
        cursor.pass(b"echo ")?;
        Ok(Job::Echo(cursor.int()?))
    }
}

#[tactic(auto, unfolding(crate::specs::Fronts::and_then, crate::specs::Fronts::after, crate::specs::Fronts::or_else, crate::specs::LineFronts::blocked_front))]
pub(crate) fn read_blocked(cursor: &mut Cursor<'_>) -> Result<Blocked, LineFault>
    ensures reads { Reads (blocked_front cursor.old) result cursor.new }
    ensures fits { IfOk result BlockedFits }
{
    if cursor.is_at_numeral() {
        Ok(Blocked::Until(cursor.number()?))
    } else if cursor.takes(b"jobs") {
        Ok(Blocked::Jobs)
    } else {
        cursor.pass(b"none")?;
        Ok(Blocked::Nothing)
    }
}

#[tactic(auto, unfolding(crate::specs::Fronts::and_then, crate::specs::Fronts::after, crate::specs::Fronts::or_else, crate::specs::LineFronts::answer_front))]
pub(crate) fn read_answer(cursor: &mut Cursor<'_>) -> Result<Answer, LineFault>
    ensures reads { Reads (answer_front cursor.old) result cursor.new }
    ensures fits { IfOk result AnswerFits }
{
    if cursor.takes(b"nothing ") {
        Ok(Answer::Nothing {
            at: cursor.number()?,
        })
    } else if cursor.takes(b"elapsed ") {
        Ok(Answer::Elapsed {
            at: cursor.number()?,
        })
    } else {
        cursor.pass(b"done ")?;
        read_done(cursor)
    }
}

#[tactic(auto, unfolding(crate::specs::Fronts::and_then, crate::specs::Fronts::after, crate::specs::LineFronts::done_front))]
fn read_done(cursor: &mut Cursor<'_>) -> Result<Answer, LineFault>
    ensures reads { Reads (done_front cursor.old) result cursor.new }
    ensures fits { IfOk result AnswerFits }
{
    let number = cursor.job()?;
    cursor.pass(b" ")?;
    let at = cursor.number()?;
    cursor.pass(b" ")?;
    let outcome = read_job_outcome(cursor)?;
    Ok(Answer::Done {
        number,
        outcome,
        at,
    })
}

#[tactic(auto, unfolding(crate::specs::Fronts::and_then, crate::specs::Fronts::after, crate::specs::Fronts::or_else, crate::specs::LineFronts::job_outcome_front))]
fn read_job_outcome(cursor: &mut Cursor<'_>) -> Result<JobOutcome, LineFault>
    ensures reads { Reads (job_outcome_front cursor.old) result cursor.new }
    ensures fits { IfOk result JobOutcomeFits }
{
    if cursor.takes(b"value ") {
        Ok(JobOutcome::Int(cursor.int()?))
    } else {
        cursor.pass(b"fault ")?;
        Ok(JobOutcome::Fault(read_fault(cursor)?))
    }
}

#[tactic(auto, unfolding(crate::specs::Fronts::and_then, crate::specs::Fronts::or_else, crate::specs::LineFronts::cause_front))]
pub(crate) fn read_cause(alloc: Global, cursor: &mut Cursor<'_>) -> Result<StopCause, LineFault>
    ensures reads { Reads (cause_front cursor.old) result cursor.new }
    ensures fits { IfOk result CauseFits }
{
    if cursor.takes(b"value ") {
        Ok(StopCause::Value(read_value(alloc, cursor)?))
    } else if cursor.takes(b"fault ") {
        Ok(StopCause::Fault(read_fault(cursor)?))
    } else {
        read_limit(cursor)
    }
}

/// What there is no more of.
#[tactic(auto, unfolding(crate::specs::Fronts::after, crate::specs::Fronts::or_else, crate::specs::LineFronts::limit_front))]
fn read_limit(cursor: &mut Cursor<'_>) -> Result<StopCause, LineFault>
    ensures reads { Reads (limit_front cursor.old) result cursor.new }
    ensures fits { IfOk result CauseFits }
{
    if cursor.takes(b"no-turns") {
        Ok(StopCause::NoTurns)
    } else if cursor.takes(b"no-moves") {
        Ok(StopCause::NoMoves)
    } else if cursor.takes(b"no-greenlets") {
        Ok(StopCause::NoGreenlets)
    } else if cursor.takes(b"no-links") {
        Ok(StopCause::NoLinks)
    } else {
        cursor.pass(b"no-kills")?;
        Ok(StopCause::NoKills)
    }
}
