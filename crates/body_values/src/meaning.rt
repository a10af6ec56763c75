//! What an expression means.
ghost use Rattle.std.specs.Prelude.{◌≡◌, map, IfOk};
ghost use Rattle.machine.specs.Bodies.{around};
ghost use Rattle.machine.specs.Expressions.{meaning, with_value, binary, and_then, or_else, listed};
ghost use Rattle.machine.specs.BodyMoves.{values};
ghost use Rattle.body_names.specs.Expressions.{expression_of};
ghost use Rattle.body_locals.specs.Locals.{locals_of};
ghost use Rattle.body_values.specs.Operators.{as_truth};

use crate::code::Code;
use crate::locals::{Scope, find_operand, value_of_local};
use crate::look::Look;
use crate::operators;
use body_names::FlatExpression;
use gv_values::{FaultKind, Outcome, Value};
use scenario_tree::{Binary, Boxed, Items};
use std::alloc::{AllocError, Global};

/// An operator with its first operand, which has this value.
#[derive(Clone, Copy, Drop)]
struct Applied<'a> {
    operator: Binary,
    first: &'a Value,
}

impl Code {
    /// The value of the expression, or its first fault. Operands are evaluated from left to right.
    #[cycle(meaning)]
    pub fn meaning<L: Look>(
        &self,
        alloc: Global,
        look: &L,
        scope: Scope<'_>,
        expression: &FlatExpression,
    ) -> Result<Outcome, AllocError>
        ensures { IfOk result (λ o. o ≡ meaning (expression_of scope.entry.blocks.now.names expression.now) (around self.now (L.answers look.now) (locals_of scope.entry.blocks.now.names scope.entry.locals.now))) }
    {
        match expression {
            FlatExpression::Nothing => Ok(Outcome::Value(Value::Nothing)),
            FlatExpression::Bool(b) => Ok(Outcome::Value(Value::Bool(*b))),
            FlatExpression::Int(n) => Ok(Outcome::Value(Value::Int(*n))),
            FlatExpression::Local(slot) => Ok(Outcome::Value(value_of_local(alloc, scope, *slot)?)),
            FlatExpression::Current => Ok(Outcome::Value(Value::Greenlet(look.current()))),
            FlatExpression::Fault(kind) => Ok(Outcome::Value(Value::Fault(*kind))),
            FlatExpression::Unary(unary, e) => {
                let e = e.get();
                if let Some(operand) = find_operand(e, scope) {
                    return Ok(operators::unary(alloc, look, *unary, operand)?);
                }
                let operand = self.meaning(alloc, look, scope, e)?;
                Ok(operators::of_one(alloc, look, *unary, operand)?)
            }
            FlatExpression::Binary(binary, a, b) => {
                let a = a.get();
                if let Some(first) = find_operand(a, scope) {
                    return Ok(self.of_two(
                        alloc,
                        look,
                        scope,
                        Applied {
                            operator: *binary,
                            first,
                        },
                        b,
                    )?);
                }
                match self.meaning(alloc, look, scope, a)? {
                    Outcome::Value(first) => {
                        Ok(self.of_two(
                            alloc,
                            look,
                            scope,
                            Applied {
                                operator: *binary,
                                first: &first,
                            },
                            b,
                        )?)
                    }
                    Outcome::Fault(kind) => Ok(Outcome::Fault(kind)),
                }
            }
            FlatExpression::And(a, b) => {
                let first = self.meaning(alloc, look, scope, a.get())?;
                Ok(self.of_both(alloc, look, scope, first, b)?)
            }
            FlatExpression::Or(a, b) => {
                let first = self.meaning(alloc, look, scope, a.get())?;
                Ok(self.of_either(alloc, look, scope, first, b)?)
            }
            FlatExpression::List(items) => Ok(self.of_list(alloc, look, scope, items)?),
            FlatExpression::Query(query, name) => Ok(Outcome::Value(operators::query(
                look,
                *query,
                self.object_numbered(scope.blocks, *name),
            ))),
        }
    }

    /// The second operand is evaluated after the first, which has this value.
    #[cycle(meaning)]
    fn of_two<L: Look>(
        &self,
        alloc: Global,
        look: &L,
        scope: Scope<'_>,
        applied: Applied<'_>,
        second: &Boxed<FlatExpression>,
    ) -> Result<Outcome, AllocError>
        ensures { IfOk result (λ o.
            o ≡ with_value (meaning (expression_of scope.entry.blocks.now.names second.now) (around self.now (L.answers look.now) (locals_of scope.entry.blocks.now.names scope.entry.locals.now))) (binary applied.entry.operator applied.entry.first.now)) }
    {
        let second = second.get();
        if let Some(second) = find_operand(second, scope) {
            return Ok(operators::binary(alloc, applied.operator, applied.first, second)?);
        }
        match self.meaning(alloc, look, scope, second)? {
            Outcome::Value(second) => {
                Ok(operators::binary(alloc, applied.operator, applied.first, &second)?)
            }
            Outcome::Fault(kind) => Ok(Outcome::Fault(kind)),
        }
    }

    /// The second operand is not evaluated where the first is false.
    #[cycle(meaning)]
    fn of_both<L: Look>(
        &self,
        alloc: Global,
        look: &L,
        scope: Scope<'_>,
        first: Outcome,
        second: &Boxed<FlatExpression>,
    ) -> Result<Outcome, AllocError>
        ensures { IfOk result (λ o.
            o ≡ with_value first (λ x.
            and_then x (meaning (expression_of scope.entry.blocks.now.names second.now) (around self.now (L.answers look.now) (locals_of scope.entry.blocks.now.names scope.entry.locals.now))))) }
    {
        match first {
            Outcome::Value(Value::Bool(false)) => Ok(Outcome::Value(Value::Bool(false))),
            Outcome::Value(Value::Bool(true)) => {
                Ok(truth(self.meaning(alloc, look, scope, second.get())?))
            }
            Outcome::Value(_) => Ok(Outcome::Fault(FaultKind::TypeError)),
            Outcome::Fault(kind) => Ok(Outcome::Fault(kind)),
        }
    }

    /// The second operand is not evaluated where the first is true.
    #[cycle(meaning)]
    fn of_either<L: Look>(
        &self,
        alloc: Global,
        look: &L,
        scope: Scope<'_>,
        first: Outcome,
        second: &Boxed<FlatExpression>,
    ) -> Result<Outcome, AllocError>
        ensures { IfOk result (λ o.
            o ≡ with_value first (λ x.
            or_else x (meaning (expression_of scope.entry.blocks.now.names second.now) (around self.now (L.answers look.now) (locals_of scope.entry.blocks.now.names scope.entry.locals.now))))) }
    {
        match first {
            Outcome::Value(Value::Bool(true)) => Ok(Outcome::Value(Value::Bool(true))),
            Outcome::Value(Value::Bool(false)) => {
                Ok(truth(self.meaning(alloc, look, scope, second.get())?))
            }
            Outcome::Value(_) => Ok(Outcome::Fault(FaultKind::TypeError)),
            Outcome::Fault(kind) => Ok(Outcome::Fault(kind)),
        }
    }

    #[cycle(meaning)]
    fn of_list<L: Look>(
        &self,
        alloc: Global,
        look: &L,
        scope: Scope<'_>,
        items: &Items<FlatExpression>,
    ) -> Result<Outcome, AllocError>
        ensures { IfOk result (λ o. o ≡ listed (values (map (expression_of scope.entry.blocks.now.names) items.now) (around self.now (L.answers look.now) (locals_of scope.entry.blocks.now.names scope.entry.locals.now)))) }
    {
        match self.values(alloc, look, scope, items.as_slice())? {
            Ok(values) => Ok(operators::listed(alloc, values.as_slice())?),
            Err(kind) => Ok(Outcome::Fault(kind)),
        }
    }

    /// The values of all, or the first fault.
    #[cycle(meaning)]
    pub fn values<L: Look>(
        &self,
        alloc: Global,
        look: &L,
        scope: Scope<'_>,
        expressions: &[FlatExpression],
    ) -> Result<Result<Items<Value>, FaultKind>, AllocError>
        ensures { IfOk result (λ vs. vs ≡ values (map (expression_of scope.entry.blocks.now.names) expressions.now) (around self.now (L.answers look.now) (locals_of scope.entry.blocks.now.names scope.entry.locals.now))) }
    {
        let mut values = Items::from_vec(Vec::with_capacity(alloc, expressions.len())?);
        for expression in expressions {
            match self.meaning(alloc, look, scope, expression)? {
                Outcome::Value(value) => values.push(value)?,
                Outcome::Fault(kind) => return Ok(Err(kind)),
            }
        }
        Ok(Ok(values))
    }
}

/// The second operand of `and` and `or`.
fn truth(outcome: Outcome) -> Outcome
    ensures { result ≡ as_truth outcome }
{
    match outcome {
        Outcome::Value(Value::Bool(b)) => Outcome::Value(Value::Bool(b)),
        Outcome::Value(_) => Outcome::Fault(FaultKind::TypeError),
        Outcome::Fault(kind) => Outcome::Fault(kind),
    }
}
