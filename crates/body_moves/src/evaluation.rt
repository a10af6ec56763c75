//! The operands of a statement.
ghost use Rattle.std.specs.Prelude.{◌≡◌, ◌≤◌, IfOk, length, map, option_map};
ghost use Rattle.scenario_tree.specs.declared.limits.TheConstants.{MOST_PARAMETERS};
ghost use Rattle.machine.specs.Bodies.{around};
ghost use Rattle.machine.specs.BodyMoves.{meaning_if, values};
ghost use Rattle.machine.specs.Expressions.{function_number, meaning, object_number};
ghost use Rattle.body_names.specs.Expressions.{expression_of};
ghost use Rattle.body_locals.specs.Locals.{locals_of};
ghost use Rattle.body_names.specs.Naming.{name_of};
ghost use Rattle.body_moves.specs.Operands.{outcome_if};

use body_blocks::Blocks;
use body_locals::Locals;
use body_names::FlatExpression;
use body_values::{Code, Look, Scope};
use gv_values::{FaultKind, Outcome, Value};
use machine::arguments::Arguments;
use scenario_tree::Items;
use std::alloc::{AllocError, Global};

/// What the operands of a statement are evaluated over: the objects and functions of its code, the blocks in which it
/// stands, what may be asked of its hub, and the locals of its body.
#[derive(Drop)]
pub struct Evaluation<'a, L> {
    pub alloc: Global,
    pub code: &'a Code,
    pub blocks: &'a Blocks,
    pub look: &'a L,
    pub locals: &'a Locals,
}

impl<'a, L: Look> Evaluation<'a, L> {
    /// The value of the expression, or its first fault. `AllocError`: memory is wanting.
    pub fn meaning(&self, expression: &FlatExpression) -> Result<Outcome, AllocError>
        ensures { IfOk result (λ o. o ≡ meaning (expression_of self.now.blocks.now.names expression.now) (around self.now.code.now (L.answers self.now.look.now) (locals_of self.now.blocks.now.names self.now.locals.now))) }
    {
        let scope = Scope {
            blocks: self.blocks,
            locals: self.locals,
        };
        Ok(self.code.meaning(self.alloc, self.look, scope, expression)?)
    }

    /// The value of an operand that may be missing, or its first fault. `AllocError`: memory is wanting.
    pub fn optional(
        &self,
        operand: &Option<FlatExpression>,
    ) -> Result<Result<Option<Value>, FaultKind>, AllocError>
        ensures { IfOk result (λ given. meaning_if (option_map (expression_of self.now.blocks.now.names) operand.now) (around self.now.code.now (L.answers self.now.look.now) (locals_of self.now.blocks.now.names self.now.locals.now)) ≡ outcome_if given) }
    {
        match operand {
            None => Ok(Ok(None)),
            Some(operand) => match self.meaning(operand)? {
                Outcome::Value(value) => Ok(Ok(Some(value))),
                Outcome::Fault(kind) => Ok(Err(kind)),
            },
        }
    }

    /// The values of the arguments, or the first fault. `AllocError`: memory is wanting.
    pub fn arguments(
        &self,
        arguments: &Items<FlatExpression>,
    ) -> Result<Result<Arguments, FaultKind>, AllocError>
        requires { length (map (expression_of self.now.blocks.now.names) arguments.now) ≤ MOST_PARAMETERS }
        ensures { IfOk result (λ given. given ≡ values (map (expression_of self.now.blocks.now.names) arguments.now) (around self.now.code.now (L.answers self.now.look.now) (locals_of self.now.blocks.now.names self.now.locals.now))) }
    {
        let scope = Scope {
            blocks: self.blocks,
            locals: self.locals,
        };
        match self
            .code
            .values(self.alloc, self.look, scope, arguments.as_slice())?
        {
            Ok(values) => Ok(Ok(Arguments::new(values))),
            Err(kind) => Ok(Err(kind)),
        }
    }

    /// The number of the object of this name, and past the last where there is none.
    pub fn object(&self, name: u32) -> u32
        ensures { result ≡ object_number (name_of self.now.blocks.now.names name) self.now.code.now.objects }
    {
        self.code.object_numbered(self.blocks, name)
    }

    /// The number of the function of this name, and past the last where there is none.
    pub fn function(&self, name: u32) -> u32
        ensures { result ≡ function_number (name_of self.now.blocks.now.names name) self.now.code.now.functions }
    {
        self.code.function_numbered(self.blocks, name)
    }
}
