//! The operators of expressions, on values.
ghost use Rattle.std.specs.Prelude.{◌≡◌, ◌<◌, length, IfOk, Ok as Fine};
ghost use Rattle.gv_values.specs.declared.value.Outcome.{Outcome as Outcomes};
ghost use Rattle.std.specs.Option.{option_copied};
ghost use Rattle.scenario_tree.specs.declared.tree.Binary.{Binary as Operator};
ghost use Rattle.machine.specs.Expressions.{unary, binary, query, of_whom, listed, with_value};
ghost use Rattle.body_values.specs.Operators.{told};
ghost use Rattle.gv_values.specs.declared.limits.TheConstants.{MOST_ELEMENTS};

use crate::look::Look;
use gv_values::{
    Arith, FaultKind, List, MOST_ELEMENTS, Outcome, PushRefusal, Value, Whom, arithmetic,
};
use scenario_tree::{Binary, Query, Unary};
use std::alloc::{AllocError, Global};

/// The operator is applied where the operand has a value.
pub fn of_one<L: Look>(
    alloc: Global,
    look: &L,
    operator: Unary,
    operand: Outcome,
) -> Result<Outcome, AllocError>
    ensures { IfOk result (λ o. o ≡ with_value operand (unary operator (L.answers look.now))) }
{
    match operand {
        Outcome::Value(value) => Ok(unary(alloc, look, operator, &value)?),
        Outcome::Fault(kind) => Ok(Outcome::Fault(kind)),
    }
}

/// The outcome of an operator of one operand.
pub fn unary<L: Look>(
    alloc: Global,
    look: &L,
    operator: Unary,
    value: &Value,
) -> Result<Outcome, AllocError>
    ensures { IfOk result (λ o. o ≡ unary operator (L.answers look.now) value.now) }
{
    match operator {
        Unary::Not => Ok(match value {
            Value::Bool(b) => Outcome::Value(Value::Bool(!*b)),
            _ => Outcome::Fault(FaultKind::TypeError),
        }),
        Unary::Length => Ok(match value {
            Value::List(list) => Outcome::Value(Value::Int(list.scalars().len() as i64)),
            _ => Outcome::Fault(FaultKind::TypeError),
        }),
        Unary::Ready => Ok(of_whom(alloc, look, Unary::Ready, value)?),
        Unary::Successful => Ok(of_whom(alloc, look, Unary::Successful, value)?),
        Unary::Value => Ok(of_whom(alloc, look, Unary::Value, value)?),
        Unary::Exception => Ok(of_whom(alloc, look, Unary::Exception, value)?),
    }
}

/// What is told of the end of the greenlet or job that the value names.
fn of_whom<L: Look>(
    alloc: Global,
    look: &L,
    operator: Unary,
    value: &Value,
) -> Result<Outcome, AllocError>
    ensures { IfOk result (λ o. o ≡ of_whom (L.answers look.now) (told operator) value.now) }
{
    match value {
        Value::Greenlet(g) => Ok(Outcome::Value(told(
            alloc,
            operator,
            look.outcome(Whom::Greenlet(*g)),
        )?)),
        Value::Job(j) => Ok(Outcome::Value(told(alloc, operator, look.outcome(Whom::Job(*j)))?)),
        _ => Ok(Outcome::Fault(FaultKind::TypeError)),
    }
}

fn told(alloc: Global, operator: Unary, outcome: Option<&Outcome>) -> Result<Value, AllocError>
    ensures { IfOk result (λ v. v ≡ told operator (option_copied outcome.entry)) }
{
    match operator {
        Unary::Ready => Ok(Value::Bool(outcome.is_some())),
        Unary::Successful => match outcome {
            Some(Outcome::Value(_)) => Ok(Value::Bool(true)),
            _ => Ok(Value::Bool(false)),
        },
        Unary::Value => match outcome {
            Some(Outcome::Value(value)) => Ok(value.copy(alloc)?),
            _ => Ok(Value::Nothing),
        },
        Unary::Exception => match outcome {
            Some(Outcome::Fault(kind)) => Ok(Value::Fault(*kind)),
            _ => Ok(Value::Nothing),
        },
        Unary::Not | Unary::Length => Ok(Value::Nothing),
    }
}

/// The outcome of an operator of two operands that are both evaluated.
pub fn binary(alloc: Global, operator: Binary, a: &Value, b: &Value) -> Result<Outcome, AllocError>
    ensures { IfOk result (λ o. o ≡ binary operator a.now b.now) }
{
    match operator {
        Binary::Arithmetic(operation) => Ok(arith(operation, a, b)),
        Binary::Equal => Ok(Outcome::Value(Value::Bool(a.equals(b)))),
        Binary::NotEqual => Ok(Outcome::Value(Value::Bool(!a.equals(b)))),
        Binary::Less => Ok(less(a, b)),
        Binary::AtMost => Ok(at_most(a, b)),
        Binary::Push => Ok(push(alloc, a, b)?),
        Binary::At => Ok(element(a, b)),
    }
}

fn arith(operation: Arith, a: &Value, b: &Value) -> Outcome
    ensures { result ≡ binary (Operator.Arithmetic operation) a.now b.now }
{
    match a {
        Value::Int(x) => match b {
            Value::Int(y) => match arithmetic::arith(operation, *x, *y) {
                Ok(z) => Outcome::Value(Value::Int(z)),
                Err(kind) => Outcome::Fault(kind),
            },
            _ => Outcome::Fault(FaultKind::TypeError),
        },
        _ => Outcome::Fault(FaultKind::TypeError),
    }
}

fn less(a: &Value, b: &Value) -> Outcome
    ensures { result ≡ binary Operator.Less a.now b.now }
{
    match a {
        Value::Int(x) => match b {
            Value::Int(y) => Outcome::Value(Value::Bool(*x < *y)),
            _ => Outcome::Fault(FaultKind::TypeError),
        },
        _ => Outcome::Fault(FaultKind::TypeError),
    }
}

fn at_most(a: &Value, b: &Value) -> Outcome
    ensures { result ≡ binary Operator.AtMost a.now b.now }
{
    match a {
        Value::Int(x) => match b {
            Value::Int(y) => Outcome::Value(Value::Bool(*x <= *y)),
            _ => Outcome::Fault(FaultKind::TypeError),
        },
        _ => Outcome::Fault(FaultKind::TypeError),
    }
}

/// A list with one scalar more than this one, which stays as it is.
fn push(alloc: Global, a: &Value, b: &Value) -> Result<Outcome, AllocError>
    ensures { IfOk result (λ o. o ≡ binary Operator.Push a.now b.now) }
{
    match a {
        Value::List(list) => match b.scalar() {
            None => Ok(Outcome::Fault(FaultKind::TypeError)),
            Some(scalar) => {
                let mut longer = list.copy(alloc)?;
                match longer.push(scalar) {
                    Ok(()) => Ok(Outcome::Value(Value::List(longer))),
                    Err(PushRefusal::Full) => Ok(Outcome::Fault(FaultKind::ValueError)),
                    Err(PushRefusal::Memory) => Err(AllocError),
                }
            }
        },
        _ => Ok(Outcome::Fault(FaultKind::TypeError)),
    }
}

/// The element at a place counted from 0.
fn element(a: &Value, b: &Value) -> Outcome
    ensures { result ≡ binary Operator.At a.now b.now }
{
    match a {
        Value::List(list) => match b {
            Value::Int(place) => {
                if *place < 0 {
                    return Outcome::Fault(FaultKind::ValueError);
                }
                match list.get(*place as usize) {
                    Some(scalar) => Outcome::Value(Value::from(scalar)),
                    None => Outcome::Fault(FaultKind::ValueError),
                }
            }
            _ => Outcome::Fault(FaultKind::TypeError),
        },
        _ => Outcome::Fault(FaultKind::TypeError),
    }
}

/// What is asked of the object of this number.
pub fn query<L: Look>(look: &L, question: Query, object: u32) -> Value
    ensures { result ≡ query question (L.answers look.now) object }
{
    match question {
        Query::IsSet => Value::Bool(look.is_set(object)),
        Query::Counter => Value::Int(look.size(object) as i64),
        Query::QueueSize => Value::Int(look.size(object) as i64),
        Query::Unfinished => Value::Int(look.unfinished(object) as i64),
        Query::Members => Value::Int(look.size(object) as i64),
    }
}

/// The list of these values: none of them may be a list, and there may be no more than a list holds.
pub fn listed(alloc: Global, values: &[Value]) -> Result<Outcome, AllocError>
    ensures { IfOk result (λ o. o ≡ listed (Fine values.now)) }
{
    if values.len() > MOST_ELEMENTS {
        return Ok(Outcome::Fault(refusal_of_many(values)));
    }
    let mut list = List::new(alloc);
    for value in values {
        let Some(scalar) = value.scalar() else {
            return Ok(Outcome::Fault(FaultKind::TypeError));
        };
        match list.push(scalar) {
            Ok(()) => {}
            Err(PushRefusal::Memory) => return Err(AllocError),
            // There are at most `MOST_ELEMENTS` values.
            Err(PushRefusal::Full) => unreachable!(),
        }
    }
    Ok(Outcome::Value(Value::List(list)))
}

/// Why more values than a list holds are no list: a list among them comes before their number.
#[tactic(auto, using(crate::proofs::Operands::listed_mixed, crate::proofs::Operands::stays_some))]
fn refusal_of_many(values: &[Value]) -> FaultKind
    requires { MOST_ELEMENTS < length values.now }
    ensures { Outcomes.Fault result ≡ listed (Fine values.now) }
{
    for value in values {
        if value.scalar().is_none() {
            return FaultKind::TypeError;
        }
    }
    FaultKind::ValueError
}
