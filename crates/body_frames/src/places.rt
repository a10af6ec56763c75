//! Bodies between the steps of their hub, each by where it stands.
ghost use Rattle.std.specs.Prelude.{◌≡◌, ◌∷◌, [], IfOk};
ghost use Rattle.machine.specs.declared.state.Leaving.{Leaving};
ghost use Rattle.machine.specs.declared.state.Todo.{Todo};
ghost use Rattle.machine.specs.Landing.{given};
ghost use Rattle.machine.specs.Ends.{leaving_of};
ghost use Rattle.machine.specs.Greenlets.{named};
ghost use Rattle.machine.specs.Unwinding.{unwind};
ghost use Rattle.body_values.specs.Functions.{IsFunction, function_at};
ghost use Rattle.body_frames.specs.Few.{HasFewUnwound};
ghost use Rattle.body_frames.specs.Places.{place_of};
ghost use Rattle.body_frames.specs.Standings.{goes_from, reached_of};
ghost use Rattle.body_frames.specs.Steady.{HasMove};

use crate::stack::{Begun, Stack, begin_function, go_on_with, outcome_of_leaving};
use crate::unwind::Unwound;
use body_blocks::Blocks;
use body_entries::{Entry, Parked, ParkedParts, Pile};
use body_locals::Locals;
use body_values::Code;
use gv_values::{Outcome, Value};
use scenario_tree::Items;
use std::alloc::{AllocError, Global};
use std::marker::Model;
use std::rc::Rc;

/// A body at its next move.
#[derive(Drop)]
pub struct Moving {
    pub(crate) blocks: Rc<Blocks>,
    pub(crate) locals: Locals,
    pub(crate) todo: Pile<Entry>,
}

impl Model for Moving {
    ghost use Rattle.std.specs.Prelude.{None};
    ghost use Rattle.machine.specs.declared.state.Frame.{Frame as Body};
    ghost use Rattle.scenario_tree.specs.Trees.{trees};
    ghost use Rattle.body_frames.specs.AtMove.{IsAtMove};
    ghost use Rattle.body_entries.specs.Entries.{frame_at, todo_of};
    ghost use Rattle.body_entries.specs.Few.{HasFewToDo};

    ghost Value = { Body };

    ghost coded = { Prim.hlevel trees };

    ghost view = { λ m. frame_at m.blocks.value m.locals m.todo None };

    ghost invariant = { λ m. IsAtMove (todo_of m.blocks.value m.todo) × HasFewToDo (todo_of m.blocks.value m.todo) };
}

/// Where a body comes to by itself. First the numbers of the timeout blocks that it left, innermost first.
#[derive(Drop)]
pub enum Reached {
    /// It is at its next move.
    Move(Items<u32>, Moving),
    /// It has ended so.
    End(Items<u32>, Outcome),
}

/// Begins a body of this function with these arguments. `AllocError`: memory is wanting.
pub fn begin_body(
    alloc: Global,
    code: &Code,
    function: u32,
    arguments: Items<Value>,
) -> Result<Reached, AllocError>
    requires declared { IsFunction code.now function }
    ensures { IfOk result (λ reached. reached_of reached
        ≡ place_of (unwind (Todo.Statements (function_at function code.now).body ∷ []) [] Leaving.Normally (named (function_at function code.now).parameters arguments))) }
{
    let Begun { blocks, stack, at } = begin_function(alloc, code, function, arguments)?;
    Ok(reach(blocks, stack, at))
}

/// Answers the request of the body, with a value or a fault. `AllocError`: memory is wanting.
#[inline(always)]
pub fn answer_body(alloc: Global, body: Parked, answer: Outcome) -> Result<Reached, AllocError>
    ensures { IfOk result (λ reached. reached_of reached ≡ place_of (unwind body.todo [] (leaving_of answer) (given body answer))) }
{
    let ParkedParts {
        blocks,
        locals,
        todo,
        gives,
    } = body.into_parts();
    let mut stack = Stack {
        locals,
        todo,
        left: Items::new(alloc),
    };
    let at = go_on_with(&blocks, &mut stack, gives, answer)?;
    Ok(reach(blocks, stack, at))
}

/// Where the body comes to.
#[inline(always)]
fn reach(blocks: Rc<Blocks>, stack: Stack, at: Unwound) -> Reached
    requires moves { HasMove (goes_from blocks.value at stack) }
    requires few { HasFewUnwound (goes_from blocks.value at stack) }
    ensures { reached_of result ≡ place_of (goes_from blocks.value at stack) }
{
    let Stack { locals, todo, left } = stack;
    match at {
        Unwound::Runs => Reached::Move(
            left,
            Moving {
                blocks,
                locals,
                todo,
            },
        ),
        Unwound::Out(how) => Reached::End(left, outcome_of_leaving(how)),
    }
}
