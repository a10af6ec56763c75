//! Faults, values and outcomes.
#![tactic(auto)]

ghost use Rattle.std.specs.Prelude.{◌≡◌, ◌≤◌, length, IfOk};
ghost use Rattle.gv_values.specs.declared.limits.TheConstants.{MOST_ELEMENTS};
ghost use Rattle.trace_reader.specs.Ranges.{FaultFits, ScalarFits, ScalarsFit, ValueFits, OutcomeFits, WhomFits};
ghost use Rattle.trace_reader.specs.Reads.{Reads};
ghost use Rattle.trace_reader.specs.LineFronts.{whom_front};
ghost use Rattle.trace_reader.specs.ValueFronts.{error_front, call_fault_front, timeout_front, fault_front, word_front, scalar_front, list_front, value_front, outcome_front};

use crate::cursor::Cursor;
use crate::fault::LineFault;
use gv_values::{FaultKind, List, MOST_ELEMENTS, Outcome, Scalar, Value, Whom};
use std::alloc::Global;

#[tactic(auto, unfolding(crate::specs::Fronts::or_else, crate::specs::ValueFronts::fault_front))]
pub(crate) fn read_fault(cursor: &mut Cursor<'_>) -> Result<FaultKind, LineFault>
    ensures reads { Reads (fault_front cursor.old) result cursor.new }
    ensures fits { IfOk result FaultFits }
{
    if cursor.takes(b"GreenletExit") {
        Ok(FaultKind::GreenletExit)
    } else if cursor.takes(b"Timeout(") {
        read_timeout(cursor)
    } else if cursor.takes(b"LoopExit") {
        Ok(FaultKind::LoopExit)
    } else {
        read_call_fault(cursor)
    }
}

/// The number of a timeout, and its bracket.
#[tactic(auto, unfolding(crate::specs::Fronts::and_then, crate::specs::Fronts::after, crate::specs::ValueFronts::timeout_front, crate::specs::ValueFronts::closed))]
fn read_timeout(cursor: &mut Cursor<'_>) -> Result<FaultKind, LineFault>
    ensures reads { Reads (timeout_front cursor.old) result cursor.new }
    ensures fits { IfOk result FaultFits }
{
    let number = cursor.small()?;
    cursor.pass(b")")?;
    Ok(FaultKind::Timeout(number))
}

/// A fault of queues or of switches, or one named an error.
#[tactic(auto, unfolding(crate::specs::Fronts::or_else, crate::specs::ValueFronts::call_fault_front))]
fn read_call_fault(cursor: &mut Cursor<'_>) -> Result<FaultKind, LineFault>
    ensures reads { Reads (call_fault_front cursor.old) result cursor.new }
    ensures fits { IfOk result FaultFits }
{
    if cursor.takes(b"Empty") {
        Ok(FaultKind::Empty)
    } else if cursor.takes(b"Full") {
        Ok(FaultKind::Full)
    } else if cursor.takes(b"ShutDown") {
        Ok(FaultKind::ShutDown)
    } else if cursor.takes(b"InvalidSwitch") {
        Ok(FaultKind::InvalidSwitch)
    } else {
        read_error(cursor)
    }
}

/// The faults whose names end with `Error`.
#[tactic(auto, unfolding(crate::specs::Fronts::and_then, crate::specs::Fronts::after, crate::specs::Fronts::or_else, crate::specs::ValueFronts::error_front, crate::specs::ValueFronts::closed))]
fn read_error(cursor: &mut Cursor<'_>) -> Result<FaultKind, LineFault>
    ensures reads { Reads (error_front cursor.old) result cursor.new }
    ensures fits { IfOk result FaultFits }
{
    if cursor.takes(b"ValueError") {
        Ok(FaultKind::ValueError)
    } else if cursor.takes(b"RuntimeError") {
        Ok(FaultKind::RuntimeError)
    } else if cursor.takes(b"TypeError") {
        Ok(FaultKind::TypeError)
    } else if cursor.takes(b"OverflowError") {
        Ok(FaultKind::OverflowError)
    } else if cursor.takes(b"ZeroDivisionError") {
        Ok(FaultKind::ZeroDivisionError)
    } else if cursor.takes(b"Error(") {
        let number = cursor.int()?;
        cursor.pass(b")")?;
        Ok(FaultKind::Error(number))
    } else {
        Err(LineFault::NotALine)
    }
}

#[tactic(auto, unfolding(crate::specs::Fronts::and_then, crate::specs::ValueFronts::scalar_front))]
fn read_scalar(cursor: &mut Cursor<'_>) -> Result<Scalar, LineFault>
    ensures reads { Reads (scalar_front cursor.old) result cursor.new }
    ensures fits { IfOk result ScalarFits }
{
    if cursor.is_at_numeral() {
        Ok(Scalar::Int(cursor.int()?))
    } else {
        read_word(cursor)
    }
}

/// A scalar that is no integer.
#[tactic(auto, unfolding(crate::specs::Fronts::and_then, crate::specs::Fronts::or_else, crate::specs::ValueFronts::word_front))]
fn read_word(cursor: &mut Cursor<'_>) -> Result<Scalar, LineFault>
    ensures reads { Reads (word_front cursor.old) result cursor.new }
    ensures fits { IfOk result ScalarFits }
{
    if cursor.takes(b"none") {
        Ok(Scalar::Nothing)
    } else if cursor.takes(b"true") {
        Ok(Scalar::Bool(true))
    } else if cursor.takes(b"false") {
        Ok(Scalar::Bool(false))
    } else if cursor.takes(b"g") {
        Ok(Scalar::Greenlet(cursor.small()?))
    } else if cursor.takes(b"j") {
        Ok(Scalar::Job(cursor.small()?))
    } else {
        Ok(Scalar::Fault(read_fault(cursor)?))
    }
}

/// The scalars of a list, up to its bracket.
#[tactic(auto, using(crate::proofs::Lists::no_scalar, crate::proofs::Lists::closed_here, crate::proofs::Lists::broken_here, crate::proofs::Lists::more_here, crate::proofs::Lists::none_left, crate::proofs::Lists::fits_behind), unfolding(crate::specs::Fronts::or_else, crate::specs::ValueFronts::list_front))]
fn read_list(alloc: Global, cursor: &mut Cursor<'_>) -> Result<List, LineFault>
    ensures reads { Reads (list_front cursor.old) result cursor.new }
    ensures fits { IfOk result (λ list. (length list ≤ MOST_ELEMENTS) × ScalarsFit list) }
{
    let mut list = List::new(alloc);
    if cursor.takes(b"]") {
        return Ok(list);
    }
    for _ in 0..MOST_ELEMENTS {
        let scalar = read_scalar(cursor)?;
        let Ok(()) = list.push(scalar) else {
            // The list has fewer than `MOST_ELEMENTS` scalars, so it was memory.
            return Err(LineFault::Memory);
        };
        if cursor.takes(b"]") {
            return Ok(list);
        }
        cursor.pass(b", ")?;
    }
    Err(LineFault::NotALine)
}

#[tactic(auto, unfolding(crate::specs::Fronts::and_then, crate::specs::Fronts::or_else, crate::specs::ValueFronts::value_front))]
pub(crate) fn read_value(alloc: Global, cursor: &mut Cursor<'_>) -> Result<Value, LineFault>
    ensures reads { Reads (value_front cursor.old) result cursor.new }
    ensures fits { IfOk result ValueFits }
{
    if cursor.takes(b"[") {
        Ok(Value::List(read_list(alloc, cursor)?))
    } else {
        Ok(Value::from(read_scalar(cursor)?))
    }
}

#[tactic(auto, unfolding(crate::specs::Fronts::and_then, crate::specs::Fronts::after, crate::specs::Fronts::or_else, crate::specs::ValueFronts::outcome_front))]
pub(crate) fn read_outcome(alloc: Global, cursor: &mut Cursor<'_>) -> Result<Outcome, LineFault>
    ensures reads { Reads (outcome_front cursor.old) result cursor.new }
    ensures fits { IfOk result OutcomeFits }
{
    if cursor.takes(b"value ") {
        Ok(Outcome::Value(read_value(alloc, cursor)?))
    } else {
        cursor.pass(b"fault ")?;
        Ok(Outcome::Fault(read_fault(cursor)?))
    }
}

#[tactic(auto, unfolding(crate::specs::Fronts::and_then, crate::specs::Fronts::after, crate::specs::Fronts::or_else, crate::specs::LineFronts::whom_front))]
pub(crate) fn read_whom(cursor: &mut Cursor<'_>) -> Result<Whom, LineFault>
    ensures reads { Reads (whom_front cursor.old) result cursor.new }
    ensures fits { IfOk result WhomFits }
{
    if cursor.takes(b"g") {
        Ok(Whom::Greenlet(cursor.small()?))
    } else {
        cursor.pass(b"j")?;
        Ok(Whom::Job(cursor.small()?))
    }
}
