//! Reading expressions.
ghost use Rattle.std.specs.Prelude.{◌≡◌, IfOk, length, ◌++◌, ◌<◌, ◌^◌};
ghost use Rattle.scenario_grammar.specs.Reading.{nested_at, headed_at, list_at, count_at, expression_at};
ghost use Rattle.scenario_lines.specs.Reads.{Reads};
ghost use Rattle.scenario_lines.specs.Joints.{joined, of_two_at};

use crate::cursor::Cursor;
use crate::head::expression_head;
use crate::parts::{both, push_part};
use crate::refusal::LineRefusal;
use gv_values::{FaultKind, MOST_ELEMENTS};
use scenario_grammar::{Head, MOST_NESTED, TextReason, Token};
use scenario_tree::{Binary, Boxed, Expression, Items, Unary};
use std::alloc::{AllocError, Global};

/// An expression that is no operand of another: of at most `MOST_NESTED` levels.
pub fn read_expression(alloc: Global, cursor: &mut Cursor<'_>) -> Result<Expression, LineRefusal>
    ensures { Reads (expression_at cursor.old) result cursor.new }
{
    nested(alloc, cursor, MOST_NESTED)
}

fn unary(alloc: Global, op: Unary, a: Expression) -> Result<Expression, AllocError>
    ensures { IfOk result (λ e. e ≡ Expression.Unary op a) }
{
    Ok(Expression::Unary(op, Boxed::new(alloc, a)?))
}

/// What makes one expression of two.
#[derive(Clone, Copy)]
enum Joint {
    Binary(Binary),
    And,
    Or,
}

fn joined(
    alloc: Global,
    joint: Joint,
    a: Expression,
    b: Expression,
) -> Result<Expression, AllocError>
    ensures { IfOk result (λ e. e ≡ joined joint a b) }
{
    let a = Boxed::new(alloc, a)?;
    let b = Boxed::new(alloc, b)?;
    Ok(match joint {
        Joint::Binary(op) => Expression::Binary(op, a, b),
        Joint::And => Expression::And(a, b),
        Joint::Or => Expression::Or(a, b),
    })
}

#[cycle(expression)]
#[tactic(auto, unfolding(scenario_grammar::specs::Reading::nested_at))]
fn nested(alloc: Global, cursor: &mut Cursor<'_>, depth: u32) -> Result<Expression, LineRefusal>
    ensures { Reads (nested_at depth cursor.old) result cursor.new }
{
    match cursor.next() {
        None => Err(LineRefusal::Reason(TextReason::TooShort)),
        Some(token) => {
            if depth == 0 {
                return Err(LineRefusal::Reason(TextReason::NestedTooDeep));
            }
            match token {
                Token::Fixed(word) => headed(alloc, cursor, depth - 1, expression_head(*word)),
                Token::Name(name) => Ok(Expression::Local(*name)),
                Token::Number(number) => Ok(Expression::Int(*number)),
                Token::Oversized => Err(LineRefusal::Reason(TextReason::OutOfRange)),
                Token::Misspelled => Err(LineRefusal::Reason(TextReason::MisspelledNumber)),
                Token::Unknown => Err(LineRefusal::Reason(TextReason::UnknownWord)),
            }
        }
    }
}

/// The rest of an expression that begins so. Its operands have this depth.
#[cycle(expression)]
fn headed(
    alloc: Global,
    cursor: &mut Cursor<'_>,
    depth: u32,
    head: Head,
) -> Result<Expression, LineRefusal>
    ensures { Reads (headed_at (nested_at depth) head cursor.old) result cursor.new }
{
    match head {
        Head::Nothing => Ok(Expression::Nothing),
        Head::Bool(value) => Ok(Expression::Bool(value)),
        Head::Current => Ok(Expression::Current),
        Head::Fault(kind) => Ok(Expression::Fault(kind)),
        Head::NumberedFault => Ok(Expression::Fault(FaultKind::Error(cursor.integer()?))),
        Head::Unary(op) => {
            let operand = nested(alloc, cursor, depth)?;
            Ok(unary(alloc, op, operand)?)
        }
        Head::Binary(op) => of_two(alloc, cursor, depth, Joint::Binary(op)),
        Head::And => of_two(alloc, cursor, depth, Joint::And),
        Head::Or => of_two(alloc, cursor, depth, Joint::Or),
        Head::List => list(alloc, cursor, depth),
        Head::Query(asked) => Ok(Expression::Query(asked, cursor.name()?)),
        Head::Other => Err(LineRefusal::Reason(TextReason::UnknownWord)),
    }
}

/// An expression of two operands of this depth.
#[cycle(expression)]
fn of_two(
    alloc: Global,
    cursor: &mut Cursor<'_>,
    depth: u32,
    joint: Joint,
) -> Result<Expression, LineRefusal>
    ensures { Reads (of_two_at (nested_at depth) joint cursor.old) result cursor.new }
{
    let first = nested(alloc, cursor, depth)?;
    let (first, second) = both(first, nested(alloc, cursor, depth))?;
    Ok(joined(alloc, joint, first, second)?)
}

#[cycle(expression)]
fn list(alloc: Global, cursor: &mut Cursor<'_>, depth: u32) -> Result<Expression, LineRefusal>
    ensures { Reads (list_at (nested_at depth) cursor.old) result cursor.new }
{
    let count = cursor.number(0, MOST_ELEMENTS as u64)?;
    let items = counted(alloc, cursor, depth, count)?;
    Ok(Expression::List(items))
}

#[cycle(expression)]
#[tactic(auto, using(crate::proofs::Counted::count_refused))]
fn counted(
    alloc: Global,
    cursor: &mut Cursor<'_>,
    depth: u32,
    count: u64,
) -> Result<Items<Expression>, LineRefusal>
    ensures { Reads (count_at (nested_at depth) count cursor.old) result cursor.new }
{
    let mut items = Items::new(alloc);
    for _ in 0..count {
        push_part(&mut items, nested(alloc, cursor, depth))?;
    }
    Ok(items)
}
