//! Moves that compute integers and truth values alone. They copy nothing, and the entries that stay are not touched.
ghost use Rattle.std.specs.Prelude.{◌≡◌, ◌∷◌, drop, IfOk, OnOk};
ghost use Rattle.body_blocks.specs.declared.statement.FlatAction.{FlatAction as Flat};
ghost use Rattle.body_entries.specs.declared.entry.Entry.{Entry as Listed};
ghost use Rattle.body_entries.specs.Entries.{form_of};
ghost use Rattle.body_frames.specs.PrimitiveMoves.{HasActed, HasMade, IsPassed};

use crate::stack::Stack;
use crate::unwind::begins;
use body_blocks::{Blocks, FlatAction};
use body_entries::{Entry, Pile};
use body_names::FlatCommand;
use body_primitives::{bind_primitive, primitive_truth};
use std::alloc::AllocError;

/// Makes the move that is first to do, where it is a `let`, an `if` or a later test of a while, of integers and truth
/// values. The body then goes on at what is first to do. Else nothing is done.
#[tactic(auto, using(crate::proofs::PrimitiveMoves::while_in, crate::proofs::PrimitiveMoves::while_out))]
pub fn make_primitive_move(blocks: &Blocks, stack: &mut Stack) -> Result<bool, AllocError>
    ensures left { stack.new.left ≡ stack.old.left }
    ensures made { IfOk result (λ made. HasMade made blocks.now stack.old stack.new) }
{
    match stack.todo.first() {
        Some(Entry::Rest { block, at }) => {
            let block = *block;
            let at = *at;
            Ok(make_statement(blocks, stack, block, at)?)
        }
        Some(Entry::Again(test, body)) => {
            let body = *body;
            match primitive_truth(&stack.locals, test) {
                Some(true) => {
                    stack.todo.push(Entry::Rest { block: body, at: 0 })?;
                    Ok(true)
                }
                Some(false) => {
                    stack.todo.drop_first();
                    Ok(true)
                }
                None => Ok(false),
            }
        }
        _ => Ok(false),
    }
}

/// Makes the move of the statement at this place.
#[tactic(auto, using(crate::proofs::PrimitiveMoves::statement_made))]
fn make_statement(
    blocks: &Blocks,
    stack: &mut Stack,
    block: usize,
    at: usize,
) -> Result<bool, AllocError>
    requires { stack.old.todo ≡ Listed.Rest block at ∷ drop 1 stack.old.todo }
    ensures left { stack.new.left ≡ stack.old.left }
    ensures made { IfOk result (λ made. HasMade made blocks.now stack.old stack.new) }
{
    match blocks.ahead(block, at) {
        Some(statement) => Ok(act(blocks, stack, &statement.action, block, at + 1)?),
        None => Ok(false),
    }
}

/// Makes the move of a statement, which the next place of its block follows.
#[tactic(auto, using(crate::proofs::PrimitiveMoves::if_so, crate::proofs::PrimitiveMoves::if_else, crate::proofs::PrimitiveMoves::if_not))]
fn act(
    blocks: &Blocks,
    stack: &mut Stack,
    action: &FlatAction,
    block: usize,
    next: usize,
) -> Result<bool, AllocError>
    ensures left { stack.new.left ≡ stack.old.left }
    ensures made { IfOk result (λ made. HasActed made blocks.now (form_of blocks.now action.now) (Listed.Rest block next ∷ drop 1 stack.old.todo) stack.old stack.new) }
{
    // Two tests of the form cost less than a match of all.
    if let FlatAction::Command(command) = action {
        return Ok(bind_value(blocks, stack, command, block, next)?);
    }
    let FlatAction::If(test, yes, no) = action else {
        return Ok(false);
    };
    match primitive_truth(&stack.locals, test) {
        Some(true) => {
            advance(&mut stack.todo, block, next)?;
            put_rest(&mut stack.todo, *yes, 0)?;
            Ok(true)
        }
        Some(false) => match *no {
            Some(no) => {
                advance(&mut stack.todo, block, next)?;
                put_rest(&mut stack.todo, no, 0)?;
                Ok(true)
            }
            None => {
                pass(blocks, &mut stack.todo, block, next)?;
                Ok(true)
            }
        },
        None => Ok(false),
    }
}

/// Makes the move of a `let`.
#[tactic(auto, using(crate::proofs::PrimitiveMoves::let_bound))]
fn bind_value(
    blocks: &Blocks,
    stack: &mut Stack,
    command: &FlatCommand,
    block: usize,
    next: usize,
) -> Result<bool, AllocError>
    ensures left { stack.new.left ≡ stack.old.left }
    ensures made { IfOk result (λ made. HasActed made blocks.now (form_of blocks.now (Flat.Command command.now)) (Listed.Rest block next ∷ drop 1 stack.old.todo) stack.old stack.new) }
{
    match command {
        FlatCommand::Let(slot, e) => {
            if bind_primitive(*slot, e, &mut stack.locals)? {
                pass(blocks, &mut stack.todo, block, next)?;
                return Ok(true);
            }
            Ok(false)
        }
        _ => Ok(false),
    }
}

/// The first entry gives way to the rest of the block from this place on. A rest does where it stands.
#[inline(always)]
pub fn advance(todo: &mut Pile<Entry>, block: usize, next: usize) -> Result<(), AllocError>
    ensures { OnOk result (todo.new ≡ Listed.Rest block next ∷ drop 1 todo.old) }
{
    if todo.set_rest(block, next) {
        return Ok(());
    }
    replace_first(todo, block, next)?;
    Ok(())
}

/// The same, whatever the entry is.
#[inline(never)]
fn replace_first(todo: &mut Pile<Entry>, block: usize, next: usize) -> Result<(), AllocError>
    ensures { OnOk result (todo.new ≡ Listed.Rest block next ∷ drop 1 todo.old) }
{
    todo.drop_first();
    put_rest(todo, block, next)?;
    Ok(())
}

/// The same, but for a rest without statements, which is left at once.
#[inline(always)]
#[tactic(auto, using(crate::proofs::PrimitiveMoves::passed_on, crate::proofs::PrimitiveMoves::passed_out))]
fn pass(
    blocks: &Blocks,
    todo: &mut Pile<Entry>,
    block: usize,
    next: usize,
) -> Result<(), AllocError>
    ensures { IfOk result (λ _. IsPassed blocks.now (Listed.Rest block next ∷ drop 1 todo.old) todo.new) }
{
    if begins(blocks, block, next) {
        advance(todo, block, next)?;
        return Ok(());
    }
    todo.drop_first();
    Ok(())
}

/// Puts the rest of the block from this place on before the others. It stays a call, so that its callers hold no entry.
#[inline(never)]
fn put_rest(todo: &mut Pile<Entry>, block: usize, at: usize) -> Result<(), AllocError>
    ensures { OnOk result (todo.new ≡ Listed.Rest block at ∷ todo.old) }
{
    todo.push(Entry::Rest { block, at })?;
    Ok(())
}
