//! Expressions.
ghost use Rattle.std.specs.Prelude.{◌≡◌, ◌++◌, List, map, IfOk};
ghost use Rattle.gv_values.specs.declared.name.Name.{Name as Word};
ghost use Rattle.body_names.specs.Expressions.{expression_of};
ghost use Rattle.body_names.specs.Naming.{Grows, IsKept};

use crate::naming::Naming;
use gv_values::FaultKind;
use scenario_tree::{Binary, Boxed, Expression, Items, Query, Unary};
use std::alloc::{AllocError, Global};

/// A local: the number of its name, and the place where it mostly stands among the locals of its body.
#[derive(Clone, Copy, Debug, PartialEq, Eq)]
pub struct LocalSlot {
    pub number: u32,
    pub place: usize,
}

/// An expression with numbers in place of names.
#[derive(Drop)]
pub enum FlatExpression {
    Nothing,
    Bool(bool),
    Int(i64),
    Local(LocalSlot),
    /// `self`, the current greenlet.
    Current,
    Fault(FaultKind),
    Unary(Unary, Boxed<FlatExpression>),
    Binary(Binary, Boxed<FlatExpression>, Boxed<FlatExpression>),
    And(Boxed<FlatExpression>, Boxed<FlatExpression>),
    Or(Boxed<FlatExpression>, Boxed<FlatExpression>),
    List(Items<FlatExpression>),
    Query(Query, u32),
}

/// The expression with numbers, for which its names are given them. `AllocError`: memory is wanting.
#[cycle(flat)]
pub fn flat_expression(
    alloc: Global,
    naming: &mut Naming,
    expression: &Expression,
) -> Result<FlatExpression, AllocError>
    requires kept { IsKept naming.old.numbers naming.old.names }
    ensures kept { IfOk result (λ _. IsKept naming.new.numbers naming.new.names) }
    ensures grows { IfOk result (λ _. Grows naming.old.names naming.new.names) }
    ensures same { IfOk result (λ e. (more : List Word) → expression_of (naming.new.names ++ more) e ≡ expression.now) }
{
    match expression {
        Expression::Nothing => Ok(FlatExpression::Nothing),
        Expression::Bool(b) => Ok(FlatExpression::Bool(*b)),
        Expression::Int(n) => Ok(FlatExpression::Int(*n)),
        Expression::Local(name) => Ok(FlatExpression::Local(naming.slot(alloc, name)?)),
        Expression::Current => Ok(FlatExpression::Current),
        Expression::Fault(kind) => Ok(FlatExpression::Fault(*kind)),
        Expression::Unary(unary, e) => Ok(FlatExpression::Unary(
            *unary,
            flat_boxed(alloc, naming, e)?,
        )),
        Expression::Binary(binary, a, b) => {
            let a = flat_boxed(alloc, naming, a)?;
            Ok(FlatExpression::Binary(*binary, a, flat_boxed(alloc, naming, b)?))
        }
        Expression::And(a, b) => {
            let a = flat_boxed(alloc, naming, a)?;
            Ok(FlatExpression::And(a, flat_boxed(alloc, naming, b)?))
        }
        Expression::Or(a, b) => {
            let a = flat_boxed(alloc, naming, a)?;
            Ok(FlatExpression::Or(a, flat_boxed(alloc, naming, b)?))
        }
        Expression::List(items) => Ok(FlatExpression::List(flat_items(alloc, naming, items)?)),
        Expression::Query(query, name) => Ok(FlatExpression::Query(
            *query,
            naming.number(alloc, name)?,
        )),
    }
}

#[cycle(flat)]
fn flat_boxed(
    alloc: Global,
    naming: &mut Naming,
    e: &Boxed<Expression>,
) -> Result<Boxed<FlatExpression>, AllocError>
    requires kept { IsKept naming.old.numbers naming.old.names }
    ensures kept { IfOk result (λ _. IsKept naming.new.numbers naming.new.names) }
    ensures grows { IfOk result (λ _. Grows naming.old.names naming.new.names) }
    ensures same { IfOk result (λ f. (more : List Word) → expression_of (naming.new.names ++ more) f ≡ e.now) }
{
    Ok(Boxed::new(alloc, flat_expression(alloc, naming, e.get())?)?)
}

#[cycle(flat)]
pub fn flat_items(
    alloc: Global,
    naming: &mut Naming,
    items: &Items<Expression>,
) -> Result<Items<FlatExpression>, AllocError>
    requires kept { IsKept naming.old.numbers naming.old.names }
    ensures kept { IfOk result (λ _. IsKept naming.new.numbers naming.new.names) }
    ensures grows { IfOk result (λ _. Grows naming.old.names naming.new.names) }
    ensures same { IfOk result (λ fs. (more : List Word) → map (expression_of (naming.new.names ++ more)) fs ≡ items.now) }
{
    let mut flat = Items::new(alloc);
    for item in items.as_slice() {
        flat.push(flat_expression(alloc, naming, item)?)?;
    }
    Ok(flat)
}
