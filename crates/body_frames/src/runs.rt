//! Moves of a body one after another, made where it stands.
ghost use Rattle.std.specs.Prelude.{◌≡◌, ◌+◌, ◌≤◌, [], IfOk};
ghost use Rattle.machine.specs.Bodies.{around};
ghost use Rattle.machine.specs.Expressions.{Look as Answers};
ghost use Rattle.body_frames.specs.declared.runs.Halt.TheVariants as halt;
ghost use Rattle.body_entries.specs.Entries.{todo_of};
ghost use Rattle.body_entries.specs.Few.{HasFewToDo};
ghost use Rattle.body_frames.specs.PrimitiveMoves.{RunsAt};
ghost use Rattle.body_frames.specs.Runs.{HasRun, halt_of, more_of};
ghost use Rattle.body_frames.specs.Standings.{frame_of};

use crate::primitive_moves::make_primitive_move;
use crate::quick::{Quick, ask_quickly};
use crate::stack::{Stack, is_at_move};
use body_blocks::Blocks;
use body_values::Code;
use std::alloc::AllocError;

/// What stops the moves that a body makes where it stands.
#[derive(Clone, Copy)]
pub enum Halt {
    /// So many were made as may be, or the next move is another.
    Ahead,
    /// One more asked what is answered at once.
    Asks(Quick),
    /// One more was made, after which the body leaves a block.
    Leaves,
}

/// How many moves a body made, before the one more if there is one, and what stopped it.
#[derive(Clone, Copy)]
pub struct Ran {
    pub moves: u64,
    pub halt: Halt,
}

/// Makes moves of integers and truth values, and one that asks what is answered at once, until one is another, the body
/// leaves a block, or so many are made.
pub fn run_moves(
    code: &Code,
    blocks: &Blocks,
    stack: &mut Stack,
    most: u64,
) -> Result<Ran, AllocError>
    requires told { stack.old.left ≡ [] }
    requires runs { RunsAt (todo_of blocks.now stack.old.todo) }
    requires few { HasFewToDo (todo_of blocks.now stack.old.todo) }
    ensures left { stack.new.left ≡ stack.old.left }
    ensures runs { IfOk result (λ ran. ran.halt ≡ halt.Ahead → RunsAt (todo_of blocks.now stack.new.todo)) }
    ensures few { IfOk result (λ ran. HasFewToDo (todo_of blocks.now stack.new.todo)) }
    ensures counted { IfOk result (λ ran. ran.moves + more_of ran.halt ≤ most) }
    ensures ran { (look : Answers) → IfOk result (λ ran. HasRun (around code.now look) ran.moves ran.halt (frame_of blocks.now stack.old) (frame_of blocks.now stack.new)) }
{
    blocks.tell_names();
    let mut moves = 0;
    'moves: while moves < most {
        if !make_primitive_move(blocks, stack)? {
            return Ok(Ran {
                moves,
                halt: halt_of(ask_quickly(code, blocks, stack)?),
            });
        }
        if !is_at_move(blocks, &stack.todo) {
            return Ok(Ran {
                moves,
                halt: Halt::Leaves,
            });
        }
        moves += 1;
    }
    Ok(Ran {
        moves,
        halt: Halt::Ahead,
    })
}

/// What stops the body that asked this, or made no move.
#[inline(always)]
fn halt_of(asked: Option<Quick>) -> Halt
    ensures { result ≡ halt_of asked }
{
    match asked {
        Some(quick) => Halt::Asks(quick),
        None => Halt::Ahead,
    }
}
