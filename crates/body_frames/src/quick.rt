//! Requests that are answered at once, and whose answer nobody takes. They are small, and the body that makes one stays
//! where it is.
ghost use Rattle.std.specs.Prelude.{◌≡◌, None, List, IfOk, IfSome};
ghost use Rattle.machine.specs.declared.state.Todo.{Todo};
ghost use Rattle.machine.specs.Bodies.{around};
ghost use Rattle.machine.specs.BodyMoves.{Did, action_move};
ghost use Rattle.machine.specs.Expressions.{Look as Answers};
ghost use Rattle.body_locals.specs.Locals.{locals_of};
ghost use Rattle.body_names.specs.Naming.{IsNaming};
ghost use Rattle.body_entries.specs.Entries.{form_of};
ghost use Rattle.body_frames.specs.Quick.{Prints, request_of};
ghost use Rattle.body_frames.specs.Runs.{HasAsked};

use crate::primitive_moves::advance;
use crate::stack::Stack;
use body_blocks::{Blocks, FlatAction};
use body_entries::Entry;
use body_locals::Locals;
use body_names::{FlatCommand, FlatExpression};
use body_primitives::{Primitive, primitive_of};
use body_values::Code;
use machine::deed::Deed;
use std::alloc::AllocError;

/// A request that is answered at once, whatever the hub is, and has nothing to do with greenlets.
#[derive(Clone, Copy)]
pub enum Quick {
    PrintInteger(i64),
    PrintTruth(bool),
    /// This is done at the object of this number.
    At(u32, Deed),
}

/// Makes the move that is first to do, where it asks what is answered at once. Else nothing is done.
#[inline(always)]
pub fn ask_quickly(
    code: &Code,
    blocks: &Blocks,
    stack: &mut Stack,
) -> Result<Option<Quick>, AllocError>
    requires { IsNaming blocks.now.names }
    ensures left { stack.new.left ≡ stack.old.left }
    ensures asked { (look : Answers) → IfOk result (λ asked. HasAsked asked blocks.now (around code.now look) stack.old stack.new) }
{
    match stack.todo.first() {
        Some(Entry::Rest { block, at }) => {
            let block = *block;
            let at = *at;
            match blocks.ahead(block, at) {
                Some(statement) => {
                    match quick_of(code, blocks, &stack.locals, &statement.action) {
                        Some(quick) => {
                            advance(&mut stack.todo, block, at + 1)?;
                            Ok(Some(quick))
                        }
                        None => Ok(None),
                    }
                }
                None => Ok(None),
            }
        }
        _ => Ok(None),
    }
}

/// What the statement asks, where that is answered at once.
#[inline(always)]
fn quick_of(code: &Code, blocks: &Blocks, locals: &Locals, action: &FlatAction) -> Option<Quick>
    requires { IsNaming blocks.now.names }
    ensures { IfSome result (λ quick. (look : Answers) (todo : List Todo) →
        action_move (form_of blocks.now action.now) (around code.now look (locals_of blocks.now.names locals.now)) todo ≡ Did.Asks (request_of quick) None todo) }
{
    let FlatAction::Command(command) = action else {
        return None;
    };
    match command {
        FlatCommand::Print(e) => print_of(locals, e),
        FlatCommand::Set(name) => {
            Some(Quick::At(code.object_numbered(blocks, *name), Deed::Set))
        }
        FlatCommand::Clear(name) => {
            Some(Quick::At(code.object_numbered(blocks, *name), Deed::Clear))
        }
        FlatCommand::Release(name) => {
            Some(Quick::At(code.object_numbered(blocks, *name), Deed::Release))
        }
        FlatCommand::QueueDone(name) => {
            Some(Quick::At(code.object_numbered(blocks, *name), Deed::QueueDone))
        }
        _ => None,
    }
}

/// What a `print` of the expression asks, where that is an integer or a truth value of such operands.
#[inline(always)]
fn print_of(locals: &Locals, expression: &FlatExpression) -> Option<Quick>
    ensures { IfSome result (λ quick. Prints quick expression.now locals.now) }
{
    match primitive_of(locals, expression) {
        Primitive::Int(n) => Some(Quick::PrintInteger(n)),
        Primitive::Bool(b) => Some(Quick::PrintTruth(b)),
        Primitive::Other => None,
    }
}
