//! The evaluation.
ghost use Rattle.std.specs.Prelude.{◌≡◌, IfOk, IfSome};
ghost use Rattle.gv_values.specs.declared.value.Outcome.{Outcome as Outcomes};
ghost use Rattle.gv_values.specs.declared.value.Value.TheVariants as value;
ghost use Rattle.gv_values.specs.Arithmetic.{arith_of};
ghost use Rattle.machine.specs.Expressions.{Look as Answers, and_then, binary, of_result, or_else, unary, with_value};
ghost use Rattle.body_locals.specs.Locals.{value_of};
ghost use Rattle.body_primitives.specs.Primitives.{Agrees, IsBound, Means, MeansAs};

use body_locals::Locals;
use body_names::{FlatExpression, LocalSlot};
use gv_values::{Arith, Value, arithmetic};
use scenario_tree::{Binary, Boxed, Unary};
use std::alloc::AllocError;

/// What an expression of integers and truth values gives.
#[derive(Clone, Copy, Debug, PartialEq, Eq)]
pub enum Primitive {
    Int(i64),
    Bool(bool),
    /// A fault, another value, or one that is not told here.
    Other,
}

/// The local takes the value of the expression, where that is an integer or a truth value of such operands; else the
/// locals stay as they are. `AllocError`: memory is wanting.
pub fn bind_primitive(
    slot: LocalSlot,
    expression: &FlatExpression,
    locals: &mut Locals,
) -> Result<bool, AllocError>
    ensures { IfOk result (λ bound. IsBound bound slot.number expression.now locals.old locals.new) }
{
    if let Some(n) = plain_integer(locals, expression) {
        locals.bind(slot, Value::Int(n))?;
        return Ok(true);
    }
    Ok(bind_evaluated(slot, expression, locals)?)
}

/// The truth value of the expression, where it is one of integers and truth values.
#[inline(always)]
pub fn primitive_truth(locals: &Locals, expression: &FlatExpression) -> Option<bool>
    ensures { IfSome result (λ b. Means expression.now locals.now (value.Bool b)) }
{
    match plain_truth(locals, expression) {
        Some(b) => Some(b),
        None => evaluated_truth(locals, expression),
    }
}

/// What the expression gives, where that is an integer or a truth value of such operands.
#[inline(always)]
pub fn primitive_of(locals: &Locals, expression: &FlatExpression) -> Primitive
    ensures { MeansAs result expression.now locals.now }
{
    match plain_integer(locals, expression) {
        Some(n) => Primitive::Int(n),
        None => evaluate(locals, expression),
    }
}

/// Binds what the expression gives, whatever its form.
#[inline(never)]
fn bind_evaluated(
    slot: LocalSlot,
    expression: &FlatExpression,
    locals: &mut Locals,
) -> Result<bool, AllocError>
    ensures { IfOk result (λ bound. IsBound bound slot.number expression.now locals.old locals.new) }
{
    match evaluate(locals, expression) {
        Primitive::Int(n) => {
            locals.bind(slot, Value::Int(n))?;
            Ok(true)
        }
        Primitive::Bool(b) => {
            locals.bind(slot, Value::Bool(b))?;
            Ok(true)
        }
        Primitive::Other => Ok(false),
    }
}

/// The truth value that the expression gives, whatever its form.
#[inline(never)]
fn evaluated_truth(locals: &Locals, expression: &FlatExpression) -> Option<bool>
    ensures { IfSome result (λ b. Means expression.now locals.now (value.Bool b)) }
{
    match evaluate(locals, expression) {
        Primitive::Bool(b) => Some(b),
        Primitive::Int(_) => None,
        Primitive::Other => None,
    }
}

/// The truth value of a comparison of two plain integers.
#[inline(always)]
fn plain_truth(locals: &Locals, expression: &FlatExpression) -> Option<bool>
    ensures { IfSome result (λ b. Means expression.now locals.now (value.Bool b)) }
{
    match expression {
        FlatExpression::Binary(operator, a, b) => {
            let Some((x, y)) = two_plain(locals, a, b) else {
                return None;
            };
            compare(*operator, x, y)
        }
        _ => None,
    }
}

/// A plain integer, or what an operation on two plain integers gives.
#[inline(always)]
fn plain_integer(locals: &Locals, expression: &FlatExpression) -> Option<i64>
    ensures { IfSome result (λ n. Means expression.now locals.now (value.Int n)) }
{
    match expression {
        FlatExpression::Binary(operator, a, b) => {
            let Some((x, y)) = two_plain(locals, a, b) else {
                return None;
            };
            compute(*operator, x, y)
        }
        _ => plain(locals, expression),
    }
}

/// The operands, where both are plain integers.
#[inline(always)]
fn two_plain(
    locals: &Locals,
    a: &Boxed<FlatExpression>,
    b: &Boxed<FlatExpression>,
) -> Option<(i64, i64)>
    ensures { IfSome result (λ n. Means a.now locals.now (value.Int n.0) × Means b.now locals.now (value.Int n.1)) }
{
    let x = plain(locals, a.get())?;
    let y = plain(locals, b.get())?;
    Some((x, y))
}

/// The integer that is written there, or that the local has. Two tests of the form cost less than a match of all.
#[inline(always)]
fn plain(locals: &Locals, expression: &FlatExpression) -> Option<i64>
    ensures { IfSome result (λ n. Means expression.now locals.now (value.Int n)) }
{
    if let FlatExpression::Int(n) = expression {
        return Some(*n);
    }
    let FlatExpression::Local(slot) = expression else {
        return None;
    };
    if let Some(value) = locals.there(*slot) {
        return integer_of(value);
    }
    integer_searched(locals, *slot)
}

/// The integer that the local has, wherever it stands. It stays a call, so that its callers are short.
#[inline(never)]
fn integer_searched(locals: &Locals, slot: LocalSlot) -> Option<i64>
    ensures { IfSome result (λ n. value.Int n ≡ value_of slot.number locals.now) }
{
    match locals.get(slot) {
        Some(value) => integer_of(value),
        None => None,
    }
}

/// The integer, where it is one.
#[inline(always)]
fn integer_of(found: &Value) -> Option<i64>
    ensures { IfSome result (λ n. value.Int n ≡ found.now) }
{
    match found {
        Value::Int(n) => Some(*n),
        _ => None,
    }
}

fn compare(operator: Binary, x: i64, y: i64) -> Option<bool>
    ensures { IfSome result (λ b. Outcomes.Value (value.Bool b) ≡ binary operator (value.Int x) (value.Int y)) }
{
    match operator {
        Binary::Equal => Some(x == y),
        Binary::NotEqual => Some(x != y),
        Binary::Less => Some(x < y),
        Binary::AtMost => Some(x <= y),
        _ => None,
    }
}

fn compute(operator: Binary, x: i64, y: i64) -> Option<i64>
    ensures { IfSome result (λ z. Outcomes.Value (value.Int z) ≡ binary operator (value.Int x) (value.Int y)) }
{
    match operator {
        Binary::Arithmetic(operation) => match operation {
            Arith::Add => x.checked_add(y),
            Arith::Sub => x.checked_sub(y),
            _ => compute_rarer(operation, x, y),
        },
        _ => None,
    }
}

/// The other operations. It stays a call, so that its caller makes no room for their result.
#[inline(never)]
fn compute_rarer(operation: Arith, x: i64, y: i64) -> Option<i64>
    ensures { IfSome result (λ z. Outcomes.Value (value.Int z) ≡ of_result (arith_of operation x y)) }
{
    arithmetic::arith(operation, x, y).ok()
}

/// The value of the expression. It has no effect, so that both operands of `and` and `or` may be evaluated.
#[tactic(auto, using(crate::proofs::Primitives::bool_meant))]
fn evaluate(locals: &Locals, expression: &FlatExpression) -> Primitive
    ensures { MeansAs result expression.now locals.now }
{
    match expression {
        FlatExpression::Bool(b) => Primitive::Bool(*b),
        FlatExpression::Int(n) => Primitive::Int(*n),
        FlatExpression::Local(slot) => of_local(*slot, locals),
        FlatExpression::Unary(operator, e) => of_one(*operator, evaluate(locals, e.get())),
        FlatExpression::Binary(operator, a, b) => {
            let first = evaluate(locals, a.get());
            let second = evaluate(locals, b.get());
            of_two(*operator, first, second)
        }
        FlatExpression::And(a, b) => {
            let first = evaluate(locals, a.get());
            let second = evaluate(locals, b.get());
            of_both(first, second)
        }
        FlatExpression::Or(a, b) => {
            let first = evaluate(locals, a.get());
            let second = evaluate(locals, b.get());
            of_either(first, second)
        }
        FlatExpression::Nothing => Primitive::Other,
        FlatExpression::Current => Primitive::Other,
        FlatExpression::Fault(_) => Primitive::Other,
        FlatExpression::List(_) => Primitive::Other,
        FlatExpression::Query(_, _) => Primitive::Other,
    }
}

fn of_local(slot: LocalSlot, locals: &Locals) -> Primitive
    ensures { Agrees result (Outcomes.Value (value_of slot.number locals.now)) }
{
    match locals.get(slot) {
        Some(value) => of_value(value),
        None => Primitive::Other,
    }
}

fn of_value(value: &Value) -> Primitive
    ensures { Agrees result (Outcomes.Value value.now) }
{
    match value {
        Value::Int(n) => Primitive::Int(*n),
        Value::Bool(b) => Primitive::Bool(*b),
        _ => Primitive::Other,
    }
}

#[tactic(auto, using(crate::proofs::Primitives::negated))]
fn of_one(operator: Unary, operand: Primitive) -> Primitive
    ensures { (look : Answers) (o : Outcomes) → Agrees operand o → Agrees result (with_value o (unary operator look)) }
{
    match operator {
        Unary::Not => match operand {
            Primitive::Bool(b) => Primitive::Bool(!b),
            Primitive::Int(_) => Primitive::Other,
            Primitive::Other => Primitive::Other,
        },
        _ => Primitive::Other,
    }
}

#[tactic(auto, using(crate::proofs::Primitives::of_ints))]
fn of_two(operator: Binary, first: Primitive, second: Primitive) -> Primitive
    ensures { (o p : Outcomes) → Agrees first o → Agrees second p → Agrees result (with_value o (λ x. with_value p (binary operator x))) }
{
    let Primitive::Int(x) = first else {
        return Primitive::Other;
    };
    let Primitive::Int(y) = second else {
        return Primitive::Other;
    };
    of_integers(operator, x, y)
}

fn of_integers(operator: Binary, x: i64, y: i64) -> Primitive
    ensures { Agrees result (binary operator (value.Int x) (value.Int y)) }
{
    match operator {
        Binary::Arithmetic(operation) => computed(operation, x, y),
        Binary::Equal => Primitive::Bool(x == y),
        Binary::NotEqual => Primitive::Bool(x != y),
        Binary::Less => Primitive::Bool(x < y),
        Binary::AtMost => Primitive::Bool(x <= y),
        Binary::Push => Primitive::Other,
        Binary::At => Primitive::Other,
    }
}

fn computed(operation: Arith, x: i64, y: i64) -> Primitive
    ensures { Agrees result (of_result (arith_of operation x y)) }
{
    match arithmetic::arith(operation, x, y) {
        Ok(z) => Primitive::Int(z),
        Err(_) => Primitive::Other,
    }
}

#[tactic(auto, using(crate::proofs::Primitives::both))]
fn of_both(first: Primitive, second: Primitive) -> Primitive
    ensures { (o p : Outcomes) → Agrees first o → Agrees second p → Agrees result (with_value o (λ x. and_then x p)) }
{
    let Primitive::Bool(a) = first else {
        return Primitive::Other;
    };
    let Primitive::Bool(b) = second else {
        return Primitive::Other;
    };
    Primitive::Bool(if a { b } else { false })
}

#[tactic(auto, using(crate::proofs::Primitives::either))]
fn of_either(first: Primitive, second: Primitive) -> Primitive
    ensures { (o p : Outcomes) → Agrees first o → Agrees second p → Agrees result (with_value o (λ x. or_else x p)) }
{
    let Primitive::Bool(a) = first else {
        return Primitive::Other;
    };
    let Primitive::Bool(b) = second else {
        return Primitive::Other;
    };
    Primitive::Bool(if a { true } else { b })
}
