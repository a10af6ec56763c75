//! The locals of a body, among the names of its code.
ghost use Rattle.std.specs.Prelude.{◌≡◌, unwrap_or, IfOk, IfSome};
ghost use Rattle.std.specs.Option.{option_copied};
ghost use Rattle.gv_values.specs.declared.value.Outcome.{Outcome as Outcomes};
ghost use Rattle.gv_values.specs.declared.value.Value.TheVariants as value;
ghost use Rattle.scenario_tree.specs.declared.tree.Scenario.{Scenario};
ghost use Rattle.machine.specs.Bodies.{around};
ghost use Rattle.machine.specs.Expressions.{Look as Answers, meaning, value_of_local};
ghost use Rattle.body_names.specs.Expressions.{expression_of};
ghost use Rattle.body_locals.specs.Locals.{locals_of};
ghost use Rattle.body_names.specs.Naming.{name_of};
ghost use Rattle.body_values.specs.Parameters.{given};

use crate::front::pop_first;
use body_blocks::Blocks;
use body_locals::Locals;
use body_names::{FlatExpression, LocalSlot};
use gv_values::Value;
use scenario_tree::Items;
use std::alloc::{AllocError, Global};

/// The locals of a body, with the blocks of its code, which have the names.
#[derive(Clone, Copy, Drop)]
pub struct Scope<'a> {
    pub blocks: &'a Blocks,
    pub locals: &'a Locals,
}

/// The value of the local, where it has one.
#[inline(always)]
pub fn find_local<'a>(scope: Scope<'a>, slot: LocalSlot) -> Option<&'a Value>
    ensures { unwrap_or (option_copied result) value.Nothing
        ≡ value_of_local (name_of scope.entry.blocks.now.names slot.number) (locals_of scope.entry.blocks.now.names scope.entry.locals.now) }
{
    scope.blocks.tell_names();
    scope.locals.get(slot)
}

/// The value of the local, and none where it has none yet.
pub fn value_of_local(alloc: Global, scope: Scope<'_>, slot: LocalSlot) -> Result<Value, AllocError>
    ensures { IfOk result (λ value.
        value ≡ value_of_local (name_of scope.entry.blocks.now.names slot.number) (locals_of scope.entry.blocks.now.names scope.entry.locals.now)) }
{
    match find_local(scope, slot) {
        Some(value) => Ok(value.copy(alloc)?),
        None => Ok(Value::Nothing),
    }
}

/// The value of the expression, where it is a local that has one: it is read where it stands.
pub fn find_operand<'a>(expression: &FlatExpression, scope: Scope<'a>) -> Option<&'a Value>
    ensures { IfSome (option_copied result) (λ v. (s : Scenario) (look : Answers) →
        Outcomes.Value v ≡ meaning (expression_of scope.entry.blocks.now.names expression.now) (around s look (locals_of scope.entry.blocks.now.names scope.entry.locals.now))) }
{
    match expression {
        FlatExpression::Local(slot) => find_local(scope, *slot),
        _ => None,
    }
}

/// The parameters, by the numbers of their names, with their arguments. They take no more memory than they need: many a
/// body has no other local.
pub fn given(alloc: Global, numbers: &[u32], arguments: Items<Value>) -> Result<Locals, AllocError>
    ensures { IfOk result (λ locals. locals ≡ given numbers.now arguments) }
{
    let mut locals = Locals::with_capacity(alloc, numbers.len())?;
    let mut left = arguments;
    for number in numbers {
        match pop_first(&mut left) {
            Some(value) => locals.push(*number, value)?,
            None => return Ok(locals),
        }
    }
    Ok(locals)
}
