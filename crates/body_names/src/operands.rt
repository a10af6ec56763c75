//! The operands of a statement of one line, one after the other. A statement is then one call that may fail.
ghost use Rattle.std.specs.Prelude.{◌≡◌, ◌++◌, List, map, IfOk, option_map};
ghost use Rattle.gv_values.specs.declared.name.Name.{Name as Word};
ghost use Rattle.body_names.specs.Expressions.{expression_of};
ghost use Rattle.body_names.specs.Naming.{Grows, IsKept, name_of};

use crate::expression::{FlatExpression, flat_expression, flat_items};
use crate::naming::Naming;
use gv_values::Name;
use scenario_tree::{Expression, Items};
use std::alloc::{AllocError, Global};

/// An operand that may be missing.
pub fn flat_optional(
    alloc: Global,
    naming: &mut Naming,
    operand: &Option<Expression>,
) -> Result<Option<FlatExpression>, AllocError>
    requires kept { IsKept naming.old.numbers naming.old.names }
    ensures kept { IfOk result (λ _. IsKept naming.new.numbers naming.new.names) }
    ensures grows { IfOk result (λ _. Grows naming.old.names naming.new.names) }
    ensures same { IfOk result (λ e. (more : List Word) → option_map (expression_of (naming.new.names ++ more)) e ≡ operand.now) }
{
    match operand {
        None => Ok(None),
        Some(e) => Ok(Some(flat_expression(alloc, naming, e)?)),
    }
}

/// A name and an expression.
pub fn name_expression(
    alloc: Global,
    naming: &mut Naming,
    a: &Name,
    b: &Expression,
) -> Result<(u32, FlatExpression), AllocError>
    requires kept { IsKept naming.old.numbers naming.old.names }
    ensures kept { IfOk result (λ _. IsKept naming.new.numbers naming.new.names) }
    ensures grows { IfOk result (λ _. Grows naming.old.names naming.new.names) }
    ensures first { IfOk result (λ both. (more : List Word) → name_of (naming.new.names ++ more) both.0 ≡ a.now) }
    ensures second { IfOk result (λ both. (more : List Word) → expression_of (naming.new.names ++ more) both.1 ≡ b.now) }
{
    let a = got!(naming.number(alloc, a));
    Ok((a, got!(flat_expression(alloc, naming, b))))
}

/// A name and a list.
pub fn name_items(
    alloc: Global,
    naming: &mut Naming,
    a: &Name,
    b: &Items<Expression>,
) -> Result<(u32, Items<FlatExpression>), AllocError>
    requires kept { IsKept naming.old.numbers naming.old.names }
    ensures kept { IfOk result (λ _. IsKept naming.new.numbers naming.new.names) }
    ensures grows { IfOk result (λ _. Grows naming.old.names naming.new.names) }
    ensures first { IfOk result (λ both. (more : List Word) → name_of (naming.new.names ++ more) both.0 ≡ a.now) }
    ensures second { IfOk result (λ both. (more : List Word) → map (expression_of (naming.new.names ++ more)) both.1 ≡ b.now) }
{
    let a = got!(naming.number(alloc, a));
    Ok((a, got!(flat_items(alloc, naming, b))))
}

/// A name and an operand that may be missing.
pub fn name_optional(
    alloc: Global,
    naming: &mut Naming,
    a: &Name,
    b: &Option<Expression>,
) -> Result<(u32, Option<FlatExpression>), AllocError>
    requires kept { IsKept naming.old.numbers naming.old.names }
    ensures kept { IfOk result (λ _. IsKept naming.new.numbers naming.new.names) }
    ensures grows { IfOk result (λ _. Grows naming.old.names naming.new.names) }
    ensures first { IfOk result (λ both. (more : List Word) → name_of (naming.new.names ++ more) both.0 ≡ a.now) }
    ensures second { IfOk result (λ both. (more : List Word) → option_map (expression_of (naming.new.names ++ more)) both.1 ≡ b.now) }
{
    let a = got!(naming.number(alloc, a));
    Ok((a, got!(flat_optional(alloc, naming, b))))
}

/// An expression and a name.
pub fn expression_name(
    alloc: Global,
    naming: &mut Naming,
    a: &Expression,
    b: &Name,
) -> Result<(FlatExpression, u32), AllocError>
    requires kept { IsKept naming.old.numbers naming.old.names }
    ensures kept { IfOk result (λ _. IsKept naming.new.numbers naming.new.names) }
    ensures grows { IfOk result (λ _. Grows naming.old.names naming.new.names) }
    ensures first { IfOk result (λ both. (more : List Word) → expression_of (naming.new.names ++ more) both.0 ≡ a.now) }
    ensures second { IfOk result (λ both. (more : List Word) → name_of (naming.new.names ++ more) both.1 ≡ b.now) }
{
    let a = got!(flat_expression(alloc, naming, a));
    Ok((a, got!(naming.number(alloc, b))))
}

/// Two expressions.
pub fn expression_expression(
    alloc: Global,
    naming: &mut Naming,
    a: &Expression,
    b: &Expression,
) -> Result<(FlatExpression, FlatExpression), AllocError>
    requires kept { IsKept naming.old.numbers naming.old.names }
    ensures kept { IfOk result (λ _. IsKept naming.new.numbers naming.new.names) }
    ensures grows { IfOk result (λ _. Grows naming.old.names naming.new.names) }
    ensures first { IfOk result (λ both. (more : List Word) → expression_of (naming.new.names ++ more) both.0 ≡ a.now) }
    ensures second { IfOk result (λ both. (more : List Word) → expression_of (naming.new.names ++ more) both.1 ≡ b.now) }
{
    let a = got!(flat_expression(alloc, naming, a));
    Ok((a, got!(flat_expression(alloc, naming, b))))
}

/// An expression and an operand that may be missing.
pub fn expression_optional(
    alloc: Global,
    naming: &mut Naming,
    a: &Expression,
    b: &Option<Expression>,
) -> Result<(FlatExpression, Option<FlatExpression>), AllocError>
    requires kept { IsKept naming.old.numbers naming.old.names }
    ensures kept { IfOk result (λ _. IsKept naming.new.numbers naming.new.names) }
    ensures grows { IfOk result (λ _. Grows naming.old.names naming.new.names) }
    ensures first { IfOk result (λ both. (more : List Word) → expression_of (naming.new.names ++ more) both.0 ≡ a.now) }
    ensures second { IfOk result (λ both. (more : List Word) → option_map (expression_of (naming.new.names ++ more)) both.1 ≡ b.now) }
{
    let a = got!(flat_expression(alloc, naming, a));
    Ok((a, got!(flat_optional(alloc, naming, b))))
}
