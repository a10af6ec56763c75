//! What a body has still to do, and how it goes on by itself.
ghost use Rattle.std.specs.Prelude.{◌≡◌, ◌∷◌, [], List, OnOk, IfOk, IsTrue};
ghost use Rattle.machine.specs.declared.state.Todo.{Todo as Undone};
ghost use Rattle.machine.specs.declared.state.Leaving.TheVariants as leaving;
ghost use Rattle.machine.specs.Bodies.{Body, begins};
ghost use Rattle.machine.specs.Landing.{given};
ghost use Rattle.machine.specs.Ends.{leaving_of, outcome_of_leaving};
ghost use Rattle.machine.specs.Unwinding.{unwind};
ghost use Rattle.body_locals.specs.Locals.{locals_of};
ghost use Rattle.body_blocks.specs.Trees.{block_at, name_if};
ghost use Rattle.body_blocks.specs.Few.{HasFew};
ghost use Rattle.body_values.specs.Functions.{IsFunction, function_at};
ghost use Rattle.body_entries.specs.Entries.{todo_of};
ghost use Rattle.body_entries.specs.Few.{HasFewToDo};
ghost use Rattle.body_frames.specs.Few.{HasFewUnwound};
ghost use Rattle.body_frames.specs.PrimitiveMoves.{RunsAt};
ghost use Rattle.body_frames.specs.Standings.{goes_from};
ghost use Rattle.body_frames.specs.Steady.{HasMove};

use crate::unwind::{Unwound, begins, bind_if, unwind};
use body_blocks::Blocks;
use body_entries::{Entry, Pile};
use body_locals::Locals;
use body_names::LocalSlot;
use body_values::{Code, Start};
use gv_values::{Outcome, Value};
use machine::request::Request;
use machine::state::Leaving;
use scenario_tree::Items;
use std::alloc::{AllocError, Global};
use std::rc::Rc;

/// The locals, what is still to do, and the timeout blocks that were left and not told yet, innermost first.
#[derive(Drop)]
pub struct Stack {
    pub locals: Locals,
    pub todo: Pile<Entry>,
    pub left: Items<u32>,
}

/// What came of a move.
#[derive(Drop)]
pub enum Made {
    /// The body asks its hub, and the local takes the answer.
    Asks(Request, Option<LocalSlot>),
    /// The body enters a timeout block: its time if it has one, whether it is silent, and its body.
    Enters(Option<u32>, bool, usize),
    /// The body goes on by itself.
    Further(Unwound),
}

/// A body at its first move or its end, with the blocks of its code.
#[derive(Drop)]
pub struct Begun {
    pub blocks: Rc<Blocks>,
    pub stack: Stack,
    pub at: Unwound,
}

/// A body of the function of this number with these arguments.
pub fn begin_function(
    alloc: Global,
    code: &Code,
    function: u32,
    arguments: Items<Value>,
) -> Result<Begun, AllocError>
    requires declared { IsFunction code.now function }
    ensures begun { IfOk result (λ b. Body.Ready (goes_from b.blocks.value b.at b.stack) ≡ begins (function_at function code.now) arguments) }
    ensures moves { IfOk result (λ b. HasMove (goes_from b.blocks.value b.at b.stack)) }
    ensures few { IfOk result (λ b. HasFewUnwound (goes_from b.blocks.value b.at b.stack)) }
{
    let Start {
        blocks,
        body,
        locals,
    } = code.start(alloc, function, arguments)?;
    let (stack, at) = begin_block(alloc, &blocks, body, locals)?;
    Ok(Begun { blocks, stack, at })
}

/// A body of these statements with these locals. It has no more room than it needs: many a body never enters a block.
fn begin_block(
    alloc: Global,
    blocks: &Blocks,
    body: usize,
    locals: Locals,
) -> Result<(Stack, Unwound), AllocError>
    requires { HasFew (block_at body blocks.now) }
    ensures begun { IfOk result (λ b.
        unwind (Undone.Statements (block_at body blocks.now) ∷ []) [] leaving.Normally (locals_of blocks.now.names locals) ≡ goes_from blocks.now b.1 b.0) }
    ensures moves { IfOk result (λ b. HasMove (goes_from blocks.now b.1 b.0)) }
    ensures few { IfOk result (λ b. HasFewUnwound (goes_from blocks.now b.1 b.0)) }
{
    let mut todo = Pile::with_capacity(alloc, 1)?;
    todo.push(Entry::Rest { block: body, at: 0 })?;
    let left = Items::new(alloc);
    let mut stack = Stack { locals, todo, left };
    let at = go_inwards(blocks, &mut stack)?;
    Ok((stack, at))
}

/// The body goes on with the answer to its request, which the local takes.
pub fn go_on_with(
    blocks: &Blocks,
    stack: &mut Stack,
    gives: Option<LocalSlot>,
    answer: Outcome,
) -> Result<Unwound, AllocError>
    requires told { stack.old.left ≡ [] }
    requires few { HasFewToDo (todo_of blocks.now stack.old.todo) }
    ensures moves { IfOk result (λ at. HasMove (goes_from blocks.now at stack.new)) }
    ensures few { IfOk result (λ at. HasFewUnwound (goes_from blocks.now at stack.new)) }
    ensures goes { IfOk result (λ at.
        unwind (todo_of blocks.now stack.old.todo) [] (leaving_of answer) (given (record { locals = locals_of blocks.now.names stack.old.locals; todo = todo_of blocks.now stack.old.todo; gives = name_if blocks.now gives }) answer)
        ≡ goes_from blocks.now at stack.new) }
{
    match take_answer(blocks, gives, answer, &mut stack.locals)? {
        Leaving::Normally => Ok(go_inwards(blocks, stack)?),
        how => Ok(leave(blocks, stack, how)?),
    }
}

/// The body goes on inside the timeout block that it enters, which has this number.
pub fn go_inside(
    blocks: &Blocks,
    stack: &mut Stack,
    silent: bool,
    body: usize,
    number: u32,
) -> Result<Unwound, AllocError>
    requires told { stack.old.left ≡ [] }
    requires few { HasFewToDo (todo_of blocks.now stack.old.todo) }
    requires inside { HasFew (block_at body blocks.now) }
    ensures moves { IfOk result (λ at. HasMove (goes_from blocks.now at stack.new)) }
    ensures few { IfOk result (λ at. HasFewUnwound (goes_from blocks.now at stack.new)) }
    ensures goes { IfOk result (λ at.
        unwind (Undone.Statements (block_at body blocks.now) ∷ Undone.Within number silent ∷ todo_of blocks.now stack.old.todo) [] leaving.Normally (locals_of blocks.now.names stack.old.locals)
        ≡ goes_from blocks.now at stack.new) }
{
    stack.todo.push(Entry::Within(number, silent))?;
    stack.todo.push(Entry::Rest { block: body, at: 0 })?;
    Ok(go_inwards(blocks, stack)?)
}

/// Goes on at what is first to do: it may be a move already.
#[tactic(auto, using(crate::proofs::AtMoves::moves_as, crate::proofs::Keeping::few_as))]
pub fn go_inwards(blocks: &Blocks, stack: &mut Stack) -> Result<Unwound, AllocError>
    ensures moves { IfOk result (λ at. HasMove (goes_from blocks.now at stack.new)) }
    ensures left { IfOk result (λ at.
        unwind (todo_of blocks.now stack.old.todo) stack.old.left leaving.Normally (locals_of blocks.now.names stack.old.locals) ≡ goes_from blocks.now at stack.new) }
    ensures few { HasFewToDo (todo_of blocks.now stack.old.todo) → IfOk result (λ at. HasFewUnwound (goes_from blocks.now at stack.new)) }
{
    if is_at_move(blocks, &stack.todo) {
        return Ok(Unwound::Runs);
    }
    Ok(leave(blocks, stack, Leaving::Normally)?)
}

/// Whether a move is first to do.
#[inline(always)]
#[tactic(auto, using(crate::proofs::PrimitiveMoves::rest_is_move, crate::proofs::PrimitiveMoves::again_is_move))]
pub fn is_at_move(blocks: &Blocks, todo: &Pile<Entry>) -> bool
    ensures { IsTrue result → RunsAt (todo_of blocks.now todo.now) }
{
    match todo.first() {
        Some(Entry::Rest { block, at }) => begins(blocks, *block, *at),
        Some(Entry::Again(_, _)) => true,
        _ => false,
    }
}

/// Leaves the stack in this way, as far as the next statement.
#[tactic(auto, using(crate::proofs::AtMoves::moves_as, crate::proofs::Keeping::few_as))]
pub fn leave(blocks: &Blocks, stack: &mut Stack, how: Leaving) -> Result<Unwound, AllocError>
    ensures moves { IfOk result (λ at. HasMove (goes_from blocks.now at stack.new)) }
    ensures left { IfOk result (λ at.
        unwind (todo_of blocks.now stack.old.todo) stack.old.left how (locals_of blocks.now.names stack.old.locals) ≡ goes_from blocks.now at stack.new) }
    ensures few { HasFewToDo (todo_of blocks.now stack.old.todo) → IfOk result (λ at. HasFewUnwound (goes_from blocks.now at stack.new)) }
{
    Ok(unwind(
        blocks,
        &mut stack.todo,
        &mut stack.left,
        how,
        &mut stack.locals,
    )?)
}

/// The outcome of a body that is left in this way.
pub fn outcome_of_leaving(how: Leaving) -> Outcome
    ensures { result ≡ outcome_of_leaving how }
{
    match how {
        Leaving::Normally => Outcome::Value(Value::Nothing),
        Leaving::Raising(kind) => Outcome::Fault(kind),
        Leaving::Returning(value) => Outcome::Value(value),
    }
}

/// Binds the answer to the local that takes it, and tells how the body goes on by it.
fn take_answer(
    blocks: &Blocks,
    gives: Option<LocalSlot>,
    answer: Outcome,
    locals: &mut Locals,
) -> Result<Leaving, AllocError>
    ensures how { IfOk result (λ how. how ≡ leaving_of answer) }
    ensures locals { (todo : List Undone) →
        OnOk result (locals_of blocks.now.names locals.new ≡ given (record { locals = locals_of blocks.now.names locals.old; todo = todo; gives = name_if blocks.now gives }) answer) }
{
    match answer {
        Outcome::Fault(kind) => Ok(Leaving::Raising(kind)),
        Outcome::Value(value) => {
            bind_if(blocks, locals, gives, value)?;
            Ok(Leaving::Normally)
        }
    }
}
