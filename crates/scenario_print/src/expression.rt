//! Expressions behind other words.
#![tactic(auto, using(crate::proofs::Words::through))]

ghost use Rattle.std.specs.Prelude.{◌≡◌, if◌then◌else◌};
ghost use Rattle.scenario_grammar.specs.Expressions.{binary_keyword, expression, fault_tokens, query_keyword, unary_keyword};
ghost use Rattle.scenario_print.specs.Written.{Wrote, WroteExpression, WroteExpressions};

use crate::word::{push_fixed, push_integer, push_name, push_number};
use gv_values::{Arith, FaultKind};
use scenario_grammar::Keyword;
use scenario_tree::{Binary, Expression, Items, Query, Unary};
use std::alloc::AllocError;

fn truth_word(value: bool) -> Keyword
    ensures { result ≡ (if value then Keyword.True else Keyword.False) }
{
    if value { Keyword::True } else { Keyword::False }
}

fn binary_word(operator: Binary) -> Keyword
    ensures { result ≡ binary_keyword operator }
{
    match operator {
        Binary::Arithmetic(Arith::Add) => Keyword::Plus,
        Binary::Arithmetic(Arith::Sub) => Keyword::Minus,
        Binary::Arithmetic(Arith::Mul) => Keyword::Times,
        Binary::Arithmetic(Arith::Div) => Keyword::Slash,
        Binary::Arithmetic(Arith::Rem) => Keyword::Percent,
        Binary::Equal => Keyword::Equal,
        Binary::NotEqual => Keyword::NotEqual,
        Binary::Less => Keyword::Less,
        Binary::AtMost => Keyword::AtMost,
        Binary::Push => Keyword::Push,
        Binary::At => Keyword::At,
    }
}

fn unary_word(operator: Unary) -> Keyword
    ensures { result ≡ unary_keyword operator }
{
    match operator {
        Unary::Not => Keyword::Not,
        Unary::Length => Keyword::Length,
        Unary::Ready => Keyword::Ready,
        Unary::Successful => Keyword::Successful,
        Unary::Value => Keyword::Value,
        Unary::Exception => Keyword::ExceptionOf,
    }
}

fn query_word(asked: Query) -> Keyword
    ensures { result ≡ query_keyword asked }
{
    match asked {
        Query::IsSet => Keyword::IsSet,
        Query::Counter => Keyword::Counter,
        Query::QueueSize => Keyword::QueueSize,
        Query::Unfinished => Keyword::Unfinished,
        Query::Members => Keyword::Members,
    }
}

/// A fault that a scenario can name; the others have no words.
fn push_fault(kind: FaultKind, out: &mut Vec<u8>) -> Result<(), AllocError>
    ensures { Wrote out.old.items out.new.items result (fault_tokens kind) }
{
    match kind {
        FaultKind::GreenletExit => push_fixed(Keyword::GreenletExit, out),
        FaultKind::Empty => push_fixed(Keyword::Empty, out),
        FaultKind::Full => push_fixed(Keyword::Full, out),
        FaultKind::ValueError => push_fixed(Keyword::ValueError, out),
        FaultKind::RuntimeError => push_fixed(Keyword::RuntimeError, out),
        FaultKind::TypeError => push_fixed(Keyword::TypeError, out),
        FaultKind::OverflowError => push_fixed(Keyword::OverflowError, out),
        FaultKind::ZeroDivisionError => push_fixed(Keyword::ZeroDivisionError, out),
        FaultKind::Error(number) => {
            push_fixed(Keyword::Error, out)?;
            push_integer(number, out)
        }
        FaultKind::Timeout(_)
        | FaultKind::LoopExit
        | FaultKind::ShutDown
        | FaultKind::InvalidSwitch => Ok(()),
    }
}

/// An expression that is no operand of another.
pub(crate) fn push_expression(e: &Expression, out: &mut Vec<u8>) -> Result<(), AllocError>
    ensures { Wrote out.old.items out.new.items result (expression e.now) }
{
    push_operand(e, out)
}

#[cycle(expression)]
fn push_operand(e: &Expression, out: &mut Vec<u8>) -> Result<(), AllocError>
    ensures { WroteExpression out.old.items out.new.items result e.now }
{
    match e {
        Expression::Nothing => push_fixed(Keyword::Nothing, out),
        Expression::Bool(value) => push_fixed(truth_word(*value), out),
        Expression::Int(integer) => push_integer(*integer, out),
        Expression::Local(name) => push_name(name, out),
        Expression::Current => push_fixed(Keyword::Current, out),
        Expression::Fault(kind) => push_fault(*kind, out),
        Expression::Unary(operator, a) => {
            push_fixed(unary_word(*operator), out)?;
            push_operand(a.get(), out)
        }
        Expression::Binary(operator, a, b) => {
            push_fixed(binary_word(*operator), out)?;
            push_operand(a.get(), out)?;
            push_operand(b.get(), out)
        }
        Expression::And(a, b) => {
            push_fixed(Keyword::And, out)?;
            push_operand(a.get(), out)?;
            push_operand(b.get(), out)
        }
        Expression::Or(a, b) => {
            push_fixed(Keyword::Or, out)?;
            push_operand(a.get(), out)?;
            push_operand(b.get(), out)
        }
        Expression::List(items) => {
            push_fixed(Keyword::List, out)?;
            push_number(items.len() as u64, out)?;
            push_operands(items.as_slice(), out)
        }
        Expression::Query(asked, name) => {
            push_fixed(query_word(*asked), out)?;
            push_name(name, out)
        }
    }
}

#[cycle(expression)]
fn push_operands(items: &[Expression], out: &mut Vec<u8>) -> Result<(), AllocError>
    ensures { WroteExpressions out.old.items out.new.items result items.now }
{
    for item in items {
        push_operand(item, out)?;
    }
    Ok(())
}

/// Such expressions, one after another.
pub(crate) fn push_expressions(
    items: &Items<Expression>,
    out: &mut Vec<u8>,
) -> Result<(), AllocError>
    ensures { WroteExpressions out.old.items out.new.items result items.now }
{
    push_operands(items.as_slice(), out)
}
