//! One move of a body.
ghost use Rattle.std.specs.Prelude.{◌≡◌, [], ℕ, false, IfOk};
ghost use Rattle.machine.specs.Bodies.{around, after_move, Stepped as Went};
ghost use Rattle.machine.specs.BodyMoves.{action_move, while_move};
ghost use Rattle.machine.specs.Unwinding.{Unwound as Place};
ghost use Rattle.body_names.specs.Expressions.{expression_of};
ghost use Rattle.body_locals.specs.Locals.{locals_of};
ghost use Rattle.body_blocks.specs.Trees.{block_at};
ghost use Rattle.body_blocks.specs.Few.{HasFewParts};
ghost use Rattle.body_moves.specs.Chosen.{branch_move, came_of};
ghost use Rattle.body_frames.specs.declared.stack.Stack.{Stack as Stacks};
ghost use Rattle.body_entries.specs.Entries.{form_of, optional_block, todo_of};
ghost use Rattle.body_entries.specs.Few.{HasFewToDo};
ghost use Rattle.body_frames.specs.PrimitiveMoves.{HasMade};
ghost use Rattle.body_frames.specs.Runs.{HasCome, HasMoved};
ghost use Rattle.body_frames.specs.Standings.{body_after, made_of};
ghost use Rattle.body_frames.specs.Steady.{IsSteady};

use crate::primitive_moves::{advance, make_primitive_move};
use crate::stack::{Made, Stack, go_inwards, leave};
use crate::unwind::bind_if;
use body_blocks::{Blocks, FlatAction};
use body_entries::Entry;
use body_moves::{Chosen, Evaluation, choose_command, choose_giving};
use body_names::FlatExpression;
use body_values::{Code, Look, Scope};
use gv_values::{FaultKind, Outcome, Value};
use machine::state::Leaving;
use std::alloc::{AllocError, Global};
use std::rc::Rc;

/// What moves are made over: the names and the blocks of the body's code, and what may be asked of its hub.
#[derive(Drop)]
pub struct Context<'a, L> {
    pub alloc: Global,
    pub code: &'a Code,
    pub blocks: &'a Blocks,
    pub look: &'a L,
}

/// Makes the move at the head of what is still to do.
pub fn make_move<L: Look>(context: &Context<'_, L>, stack: &mut Stack) -> Result<Made, AllocError>
    requires told { stack.old.left ≡ [] }
    requires few { HasFewToDo (todo_of context.now.blocks.now stack.old.todo) }
    ensures { IfOk result (λ made. HasCome context.now.blocks.now (around context.now.code.now (L.answers context.now.look.now)) stack.old made stack.new) }
{
    let is_made = make_primitive_move(context.blocks, stack)?;
    Ok(finish_move(context, stack, is_made)?)
}

/// What comes of the move at the head, which was made already as one of integers and truth values, or is made here. Its
/// results are large, so that it stays a call.
#[inline(never)]
pub fn finish_move<L: Look>(
    context: &Context<'_, L>,
    stack: &mut Stack,
    is_made: bool,
) -> Result<Made, AllocError>
    requires told { is_made ≡ false → stack.old.left ≡ [] }
    requires few { is_made ≡ false → HasFewToDo (todo_of context.now.blocks.now stack.old.todo) }
    ensures { (old : Stacks) → HasMade is_made context.now.blocks.now old stack.old → HasFewToDo (todo_of context.now.blocks.now old.todo) → old.left ≡ [] →
        IfOk result (λ made. HasCome context.now.blocks.now (around context.now.code.now (L.answers context.now.look.now)) old made stack.new) }
{
    context.blocks.tell_names();
    if is_made {
        return Ok(Made::Further(go_inwards(context.blocks, stack)?));
    }
    Ok(make_any_move(context, stack)?)
}

/// Makes the move at the head, whatever it is. Where no move stands there, the body goes on inwards, as the definition
/// says.
pub fn make_any_move<L: Look>(
    context: &Context<'_, L>,
    stack: &mut Stack,
) -> Result<Made, AllocError>
    requires told { stack.old.left ≡ [] }
    requires few { HasFewToDo (todo_of context.now.blocks.now stack.old.todo) }
    ensures steady { IfOk result (λ made. IsSteady (body_after context.now.blocks.now made stack.new)) }
    ensures made { IfOk result (λ made. HasMoved context.now.blocks.now (around context.now.code.now (L.answers context.now.look.now)) stack.old made stack.new) }
{
    match stack.todo.first() {
        Some(Entry::Rest { block, at }) => {
            let block = *block;
            let at = *at;
            match context.blocks.ahead(block, at) {
                Some(statement) => {
                    advance(&mut stack.todo, block, at + 1)?;
                    Ok(act(context, stack, &statement.action)?)
                }
                None => Ok(Made::Further(go_inwards(context.blocks, stack)?)),
            }
        }
        Some(Entry::Again(test, body)) => {
            let test = test.clone()?;
            let body = *body;
            stack.todo.drop_first();
            Ok(test_while(context, stack, test, body)?)
        }
        _ => Ok(Made::Further(go_inwards(context.blocks, stack)?)),
    }
}

/// Makes the move of a statement that is passed already.
fn act<L: Look>(
    context: &Context<'_, L>,
    stack: &mut Stack,
    action: &FlatAction,
) -> Result<Made, AllocError>
    requires told { stack.old.left ≡ [] }
    requires few { HasFewParts (form_of context.now.blocks.now action.now) }
    ensures steady { IfOk result (λ made. IsSteady (body_after context.now.blocks.now made stack.new)) }
    ensures made { IfOk result (λ made. (moves : ℕ) (go : Place → Went) →
        after_move moves (locals_of context.now.blocks.now.names stack.old.locals) go (action_move (form_of context.now.blocks.now action.now) (around context.now.code.now (L.answers context.now.look.now) (locals_of context.now.blocks.now.names stack.old.locals)) (todo_of context.now.blocks.now stack.old.todo))
        ≡ made_of context.now.blocks.now moves go made stack.new) }
{
    match action {
        FlatAction::Command(command) => {
            let chosen = choose_command(
                &Evaluation {
                    alloc: context.alloc,
                    code: context.code,
                    blocks: context.blocks,
                    look: context.look,
                    locals: &stack.locals,
                },
                command,
            )?;
            Ok(do_chosen(context.blocks, stack, chosen)?)
        }
        FlatAction::Giving(name, giving) => {
            let chosen = choose_giving(
                &Evaluation {
                    alloc: context.alloc,
                    code: context.code,
                    blocks: context.blocks,
                    look: context.look,
                    locals: &stack.locals,
                },
                *name,
                giving,
            )?;
            Ok(do_chosen(context.blocks, stack, chosen)?)
        }
        FlatAction::If(test, yes, no) => { Ok(branch(context, stack, test, *yes, *no)?) }
        FlatAction::While(test, body) => {
            let test = test.clone()?;
            Ok(test_while(context, stack, test, *body)?)
        }
        FlatAction::Try(body, handlers) => {
            let handlers = handlers.clone()?;
            stack.todo.push(Entry::Guard(handlers))?;
            stack.todo.push(Entry::Rest {
                block: *body,
                at: 0,
            })?;
            Ok(Made::Further(go_inwards(context.blocks, stack)?))
        }
        FlatAction::Timeout(time, silent, body) => Ok(Made::Enters(*time, *silent, *body)),
    }
}

/// Does what was chosen.
fn do_chosen(blocks: &Blocks, stack: &mut Stack, chosen: Chosen) -> Result<Made, AllocError>
    requires told { stack.old.left ≡ [] }
    ensures steady { IfOk result (λ made. IsSteady (body_after blocks.now made stack.new)) }
    ensures done { IfOk result (λ made. (moves : ℕ) (go : Place → Went) →
        came_of blocks.now.names moves stack.old.locals go (todo_of blocks.now stack.old.todo) chosen ≡ made_of blocks.now moves go made stack.new) }
{
    match chosen {
        Chosen::Asks(request, gives) => Ok(Made::Asks(request, gives)),
        Chosen::Goes(how) => Ok(Made::Further(leave(blocks, stack, how)?)),
        Chosen::Binds(slot, value) => {
            bind_if(blocks, &mut stack.locals, Some(slot), value)?;
            Ok(Made::Further(go_inwards(blocks, stack)?))
        }
    }
}

/// Makes the move of an `if`.
#[tactic(auto, using(crate::proofs::Leavings::rest_raises))]
fn branch<L: Look>(
    context: &Context<'_, L>,
    stack: &mut Stack,
    test: &FlatExpression,
    yes: usize,
    no: Option<usize>,
) -> Result<Made, AllocError>
    requires told { stack.old.left ≡ [] }
    ensures steady { IfOk result (λ made. IsSteady (body_after context.now.blocks.now made stack.new)) }
    ensures made { IfOk result (λ made. (moves : ℕ) (go : Place → Went) →
        after_move moves (locals_of context.now.blocks.now.names stack.old.locals) go (branch_move (expression_of context.now.blocks.now.names test.now) (block_at yes context.now.blocks.now) (optional_block context.now.blocks.now no) (around context.now.code.now (L.answers context.now.look.now) (locals_of context.now.blocks.now.names stack.old.locals)) (todo_of context.now.blocks.now stack.old.todo))
        ≡ made_of context.now.blocks.now moves go made stack.new) }
{
    let scope = Scope {
        blocks: context.blocks,
        locals: &stack.locals,
    };
    match context
        .code
        .meaning(context.alloc, context.look, scope, test)?
    {
        Outcome::Value(Value::Bool(true)) => {
            stack.todo.push(Entry::Rest { block: yes, at: 0 })?;
            Ok(Made::Further(go_inwards(context.blocks, stack)?))
        }
        Outcome::Value(Value::Bool(false)) => match no {
            Some(no) => {
                stack.todo.push(Entry::Rest { block: no, at: 0 })?;
                Ok(Made::Further(go_inwards(context.blocks, stack)?))
            }
            None => Ok(Made::Further(go_inwards(context.blocks, stack)?)),
        },
        Outcome::Value(_) => Ok(Made::Further(leave(
            context.blocks,
            stack,
            Leaving::Raising(FaultKind::TypeError),
        )?)),
        Outcome::Fault(kind) => Ok(Made::Further(leave(
            context.blocks,
            stack,
            Leaving::Raising(kind),
        )?)),
    }
}

/// Evaluates the condition of a while once.
fn test_while<L: Look>(
    context: &Context<'_, L>,
    stack: &mut Stack,
    test: Rc<FlatExpression>,
    body: usize,
) -> Result<Made, AllocError>
    requires told { stack.old.left ≡ [] }
    ensures steady { IfOk result (λ made. IsSteady (body_after context.now.blocks.now made stack.new)) }
    ensures made { IfOk result (λ made. (moves : ℕ) (go : Place → Went) →
        after_move moves (locals_of context.now.blocks.now.names stack.old.locals) go (while_move (expression_of context.now.blocks.now.names test.value) (block_at body context.now.blocks.now) (around context.now.code.now (L.answers context.now.look.now) (locals_of context.now.blocks.now.names stack.old.locals)) (todo_of context.now.blocks.now stack.old.todo))
        ≡ made_of context.now.blocks.now moves go made stack.new) }
{
    let scope = Scope {
        blocks: context.blocks,
        locals: &stack.locals,
    };
    match context
        .code
        .meaning(context.alloc, context.look, scope, &test)?
    {
        Outcome::Value(Value::Bool(true)) => {
            stack.todo.push(Entry::Again(test, body))?;
            stack.todo.push(Entry::Rest { block: body, at: 0 })?;
            Ok(Made::Further(go_inwards(context.blocks, stack)?))
        }
        Outcome::Value(Value::Bool(false)) => {
            Ok(Made::Further(go_inwards(context.blocks, stack)?))
        }
        Outcome::Value(_) => Ok(Made::Further(leave(
            context.blocks,
            stack,
            Leaving::Raising(FaultKind::TypeError),
        )?)),
        Outcome::Fault(kind) => Ok(Made::Further(leave(
            context.blocks,
            stack,
            Leaving::Raising(kind),
        )?)),
    }
}
