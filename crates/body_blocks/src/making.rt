//! Names and blocks while they are made.
ghost use Rattle.std.specs.Prelude.{◌≡◌, length, map, IfOk};
ghost use Rattle.body_names.specs.Expressions.{expression_of};
ghost use Rattle.body_names.specs.Naming.{name_of};
ghost use Rattle.body_names.specs.Statements.{command_of, giving_of};
ghost use Rattle.body_blocks.specs.Making.{IsMaking, made};
ghost use Rattle.body_blocks.specs.Trees.{Coded, Grows, Stands, joined, name_if, statement_of, with_block};

use crate::blocks::Blocks;
use crate::statement::FlatStatement;
use body_names::{
    FlatCommand, FlatExpression, FlatGiving, LocalSlot, Naming, enter_function, flat_command,
    flat_expression, flat_giving,
};
use gv_values::Name;
use scenario_tree::{Command, Expression, Function, Giving, Items};
use std::alloc::{AllocError, Global};

/// The names and the blocks that are made so far. No clause says what a call that failed leaves of them.
#[derive(Drop)]
pub struct Making {
    pub naming: Naming,
    pub blocks: Items<Items<FlatStatement>>,
}

impl Making {
    /// No name and no block yet.
    pub fn new(alloc: Global) -> Making
        ensures { IsMaking result }
    {
        Making {
            naming: Naming::new(alloc),
            blocks: Items::new(alloc),
        }
    }

    /// The function is under way from now on. `AllocError`: memory is wanting.
    pub fn enter(&mut self, alloc: Global, function: &Function) -> Result<(), AllocError>
        requires { IsMaking self.old }
        ensures kept { IfOk result (λ _. IsMaking self.new) }
        ensures grows { IfOk result (λ _. Grows (made self.old) (made self.new)) }
    {
        enter_function(alloc, &mut self.naming, function)?;
        Ok(())
    }

    /// The number of the name. `AllocError`: memory is wanting.
    pub fn number(&mut self, alloc: Global, name: &Name) -> Result<u32, AllocError>
        requires { IsMaking self.old }
        ensures kept { IfOk result (λ _. IsMaking self.new) }
        ensures grows { IfOk result (λ _. Grows (made self.old) (made self.new)) }
        ensures same { IfOk result (λ n. (more : Coded) → name_of (joined (made self.new) more).names n ≡ name.now) }
    {
        let number = self.naming.number(alloc, name)?;
        Ok(number)
    }

    /// The local that may be missing, of the function under way. `AllocError`: memory is wanting.
    pub(crate) fn slot(
        &mut self,
        alloc: Global,
        name: &Option<Name>,
    ) -> Result<Option<LocalSlot>, AllocError>
        requires { IsMaking self.old }
        ensures kept { IfOk result (λ _. IsMaking self.new) }
        ensures grows { IfOk result (λ _. Grows (made self.old) (made self.new)) }
        ensures same { IfOk result (λ slot. (more : Coded) → name_if (joined (made self.new) more) slot ≡ name.now) }
    {
        match name {
            None => Ok(None),
            Some(name) => {
                let slot = self.naming.slot(alloc, name)?;
                Ok(Some(slot))
            }
        }
    }

    /// The expression with numbers in place of names. `AllocError`: memory is wanting.
    pub(crate) fn expression(
        &mut self,
        alloc: Global,
        expression: &Expression,
    ) -> Result<FlatExpression, AllocError>
        requires { IsMaking self.old }
        ensures kept { IfOk result (λ _. IsMaking self.new) }
        ensures grows { IfOk result (λ _. Grows (made self.old) (made self.new)) }
        ensures same { IfOk result (λ e. (more : Coded) → expression_of (joined (made self.new) more).names e ≡ expression.now) }
    {
        let flat = flat_expression(alloc, &mut self.naming, expression)?;
        Ok(flat)
    }

    /// The statement with numbers in place of names. `AllocError`: memory is wanting.
    pub(crate) fn command(
        &mut self,
        alloc: Global,
        command: Command,
    ) -> Result<FlatCommand, AllocError>
        requires { IsMaking self.old }
        ensures kept { IfOk result (λ _. IsMaking self.new) }
        ensures grows { IfOk result (λ _. Grows (made self.old) (made self.new)) }
        ensures same { IfOk result (λ c. (more : Coded) → command_of (joined (made self.new) more).names c ≡ command) }
    {
        let flat = flat_command(alloc, &mut self.naming, &command);
        drop(command);
        flat
    }

    /// The statement with numbers in place of names. `AllocError`: memory is wanting.
    pub(crate) fn giving(&mut self, alloc: Global, giving: Giving) -> Result<FlatGiving, AllocError>
        requires { IsMaking self.old }
        ensures kept { IfOk result (λ _. IsMaking self.new) }
        ensures grows { IfOk result (λ _. Grows (made self.old) (made self.new)) }
        ensures same { IfOk result (λ g. (more : Coded) → giving_of (joined (made self.new) more).names g ≡ giving) }
    {
        let flat = flat_giving(alloc, &mut self.naming, &giving);
        drop(giving);
        flat
    }

    /// One block more, after those inside it; its number. `AllocError`: memory is wanting.
    pub(crate) fn push(&mut self, block: Items<FlatStatement>) -> Result<usize, AllocError>
        requires making { IsMaking self.old }
        requires stands { Stands (made self.old) block (map (statement_of (made self.old)) block) }
        ensures kept { IfOk result (λ _. IsMaking self.new) }
        ensures grows { IfOk result (λ _. made self.new ≡ with_block (made self.old) block) }
        ensures number { IfOk result (λ n. n ≡ length (made self.old).blocks) }
    {
        let number = self.blocks.len();
        self.blocks.push(block)?;
        Ok(number)
    }

    /// The names and blocks, of which no more are made.
    pub fn finish(self) -> Blocks
        requires { IsMaking self }
        ensures { result ≡ made self }
    {
        let Making { naming, blocks } = self;
        Blocks::of(naming, blocks)
    }
}
