//! The lines, each by its first word.
#![tactic(auto)]

ghost use Rattle.std.specs.Prelude.{◌≡◌, IfOk};
ghost use Rattle.trace_reader.specs.Ranges.{LineFits};
ghost use Rattle.trace_reader.specs.Reads.{Reads};
ghost use Rattle.trace_reader.specs.LineFronts.{of_greenlet, start_front, print_front, park_front, throw_front, into_front, end_front, link_front, job_line_front, turn_front, stop_front, resumed_line_front, greenlet_line_front, line_front};

use crate::cursor::Cursor;
use crate::fault::LineFault;
use crate::parts::{
    read_answer, read_awaited, read_blocked, read_cause, read_job_call, read_link_call, read_until,
};
use crate::values::{read_fault, read_outcome, read_value};
use std::alloc::Global;
use trace_text::{Line, Resumed};

#[tactic(auto, unfolding(crate::specs::Fronts::and_then, crate::specs::Fronts::or_else, crate::specs::LineFronts::line_front))]
pub(crate) fn read_front(alloc: Global, cursor: &mut Cursor<'_>) -> Result<Line, LineFault>
    ensures reads { Reads (line_front cursor.old) result cursor.new }
    ensures fits { IfOk result LineFits }
{
    if cursor.takes(b"link ") {
        read_link(cursor)
    } else if cursor.takes(b"job ") {
        read_job(cursor)
    } else if cursor.takes(b"block ") {
        Ok(Line::Block(read_blocked(cursor)?))
    } else if cursor.takes(b"turn ") {
        read_turn(cursor)
    } else if cursor.takes(b"stop ") {
        read_stop(alloc, cursor)
    } else {
        read_of_greenlet(alloc, cursor)
    }
}

/// The lines whose second word is a greenlet.
#[tactic(auto, unfolding(crate::specs::Fronts::and_then, crate::specs::Fronts::or_else, crate::specs::LineFronts::greenlet_line_front))]
fn read_of_greenlet(alloc: Global, cursor: &mut Cursor<'_>) -> Result<Line, LineFault>
    ensures reads { Reads (greenlet_line_front cursor.old) result cursor.new }
    ensures fits { IfOk result LineFits }
{
    if cursor.takes(b"start ") {
        read_start(cursor)
    } else if cursor.takes(b"print ") {
        read_print(alloc, cursor)
    } else if cursor.takes(b"park ") {
        read_park(cursor)
    } else if cursor.takes(b"wake ") {
        Ok(Line::Resume {
            greenlet: cursor.greenlet()?,
            by: Resumed::Wake,
        })
    } else {
        read_resumed(alloc, cursor)
    }
}

/// A greenlet that goes on or ends.
#[tactic(auto, unfolding(crate::specs::Fronts::and_then, crate::specs::Fronts::after, crate::specs::Fronts::or_else, crate::specs::LineFronts::resumed_line_front))]
fn read_resumed(alloc: Global, cursor: &mut Cursor<'_>) -> Result<Line, LineFault>
    ensures reads { Reads (resumed_line_front cursor.old) result cursor.new }
    ensures fits { IfOk result LineFits }
{
    if cursor.takes(b"late ") {
        Ok(Line::Resume {
            greenlet: cursor.greenlet()?,
            by: Resumed::Late,
        })
    } else if cursor.takes(b"throw ") {
        read_throw(cursor)
    } else if cursor.takes(b"into ") {
        read_into(alloc, cursor)
    } else {
        cursor.pass(b"end ")?;
        read_end(alloc, cursor)
    }
}

#[tactic(auto, unfolding(crate::specs::Fronts::and_then, crate::specs::Fronts::after, crate::specs::LineFronts::start_front))]
fn read_start(cursor: &mut Cursor<'_>) -> Result<Line, LineFault>
    ensures reads { Reads (of_greenlet start_front cursor.old) result cursor.new }
    ensures fits { IfOk result LineFits }
{
    let greenlet = cursor.greenlet()?;
    cursor.pass(b" ")?;
    let function = cursor.name()?;
    Ok(Line::Start { greenlet, function })
}

#[tactic(auto, unfolding(crate::specs::Fronts::and_then, crate::specs::Fronts::after, crate::specs::LineFronts::print_front))]
fn read_print(alloc: Global, cursor: &mut Cursor<'_>) -> Result<Line, LineFault>
    ensures reads { Reads (of_greenlet print_front cursor.old) result cursor.new }
    ensures fits { IfOk result LineFits }
{
    let greenlet = cursor.greenlet()?;
    cursor.pass(b" ")?;
    let value = read_value(alloc, cursor)?;
    Ok(Line::Print { greenlet, value })
}

#[tactic(auto, unfolding(crate::specs::Fronts::and_then, crate::specs::Fronts::after, crate::specs::LineFronts::park_front))]
fn read_park(cursor: &mut Cursor<'_>) -> Result<Line, LineFault>
    ensures reads { Reads (of_greenlet park_front cursor.old) result cursor.new }
    ensures fits { IfOk result LineFits }
{
    let greenlet = cursor.greenlet()?;
    cursor.pass(b" ")?;
    let awaited = read_awaited(cursor)?;
    let until = read_until(cursor)?;
    Ok(Line::Park {
        greenlet,
        awaited,
        until,
    })
}

#[tactic(auto, unfolding(crate::specs::Fronts::and_then, crate::specs::Fronts::after, crate::specs::LineFronts::throw_front))]
fn read_throw(cursor: &mut Cursor<'_>) -> Result<Line, LineFault>
    ensures reads { Reads (of_greenlet throw_front cursor.old) result cursor.new }
    ensures fits { IfOk result LineFits }
{
    let greenlet = cursor.greenlet()?;
    cursor.pass(b" ")?;
    let fault = read_fault(cursor)?;
    Ok(Line::Throw { greenlet, fault })
}

#[tactic(auto, unfolding(crate::specs::Fronts::and_then, crate::specs::Fronts::after, crate::specs::LineFronts::into_front))]
fn read_into(alloc: Global, cursor: &mut Cursor<'_>) -> Result<Line, LineFault>
    ensures reads { Reads (of_greenlet into_front cursor.old) result cursor.new }
    ensures fits { IfOk result LineFits }
{
    let greenlet = cursor.greenlet()?;
    cursor.pass(b" ")?;
    let input = read_outcome(alloc, cursor)?;
    Ok(Line::Into { greenlet, input })
}

#[tactic(auto, unfolding(crate::specs::Fronts::and_then, crate::specs::Fronts::after, crate::specs::LineFronts::end_front))]
fn read_end(alloc: Global, cursor: &mut Cursor<'_>) -> Result<Line, LineFault>
    ensures reads { Reads (of_greenlet end_front cursor.old) result cursor.new }
    ensures fits { IfOk result LineFits }
{
    let greenlet = cursor.greenlet()?;
    cursor.pass(b" ")?;
    let outcome = read_outcome(alloc, cursor)?;
    Ok(Line::End { greenlet, outcome })
}

#[tactic(auto, unfolding(crate::specs::Fronts::and_then, crate::specs::Fronts::after, crate::specs::LineFronts::link_front))]
fn read_link(cursor: &mut Cursor<'_>) -> Result<Line, LineFault>
    ensures reads { Reads (link_front cursor.old) result cursor.new }
    ensures fits { IfOk result LineFits }
{
    let number = cursor.small()?;
    cursor.pass(b" ")?;
    let greenlet = cursor.greenlet()?;
    cursor.pass(b" ")?;
    let call = read_link_call(cursor)?;
    Ok(Line::Link {
        number,
        greenlet,
        call,
    })
}

#[tactic(auto, unfolding(crate::specs::Fronts::and_then, crate::specs::Fronts::after, crate::specs::LineFronts::job_line_front))]
fn read_job(cursor: &mut Cursor<'_>) -> Result<Line, LineFault>
    ensures reads { Reads (job_line_front cursor.old) result cursor.new }
    ensures fits { IfOk result LineFits }
{
    let number = cursor.job()?;
    cursor.pass(b" ")?;
    let greenlet = cursor.greenlet()?;
    cursor.pass(b" ")?;
    let job = read_job_call(cursor)?;
    Ok(Line::Job {
        number,
        greenlet,
        job,
    })
}

#[tactic(auto, unfolding(crate::specs::Fronts::and_then, crate::specs::Fronts::after, crate::specs::LineFronts::turn_front))]
fn read_turn(cursor: &mut Cursor<'_>) -> Result<Line, LineFault>
    ensures reads { Reads (turn_front cursor.old) result cursor.new }
    ensures fits { IfOk result LineFits }
{
    let number = cursor.number()?;
    cursor.pass(b" ")?;
    let answer = read_answer(cursor)?;
    Ok(Line::Turn { number, answer })
}

#[tactic(auto, unfolding(crate::specs::Fronts::and_then, crate::specs::Fronts::after, crate::specs::LineFronts::stop_front))]
fn read_stop(alloc: Global, cursor: &mut Cursor<'_>) -> Result<Line, LineFault>
    ensures reads { Reads (stop_front cursor.old) result cursor.new }
    ensures fits { IfOk result LineFits }
{
    let cause = read_cause(alloc, cursor)?;
    cursor.pass(b" turns ")?;
    let turns = cursor.number()?;
    cursor.pass(b" moves ")?;
    let moves = cursor.number()?;
    Ok(Line::Stop {
        cause,
        turns,
        moves,
    })
}
