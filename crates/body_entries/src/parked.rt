//! A body that waits.
ghost use Rattle.std.specs.Prelude.{◌≡◌};
ghost use Rattle.body_entries.specs.Entries.{frame_at, todo_of};
ghost use Rattle.body_entries.specs.Few.{HasFewToDo};

use crate::entry::Entry;
use crate::pile::Pile;
use body_blocks::Blocks;
use body_locals::Locals;
use body_names::LocalSlot;
use std::marker::Model;
use std::rc::Rc;

/// A body that waits for the answer to its request.
#[derive(Drop)]
pub struct Parked {
    blocks: Rc<Blocks>,
    locals: Locals,
    todo: Pile<Entry>,
    gives: Option<LocalSlot>,
}

impl Model for Parked {
    ghost use Rattle.machine.specs.declared.state.Frame.{Frame as Body};
    ghost use Rattle.scenario_tree.specs.Trees.{trees};
    ghost use Rattle.body_entries.specs.Entries.{frame_at, todo_of};
    ghost use Rattle.body_entries.specs.Few.{HasFewToDo};

    ghost Value = { Body };

    ghost coded = { Prim.hlevel trees };

    ghost view = { λ p. frame_at p.blocks.value p.locals p.todo p.gives };

    ghost invariant = { λ p. HasFewToDo (todo_of p.blocks.value p.todo) };
}

/// What a body that waits is made of: the blocks of its code, its locals, what it has still to do, and the local that
/// takes the answer.
#[derive(Drop)]
pub struct ParkedParts {
    pub blocks: Rc<Blocks>,
    pub locals: Locals,
    pub todo: Pile<Entry>,
    pub gives: Option<LocalSlot>,
}

impl Parked {
    /// The body that is made of these.
    #[inline(always)]
    pub fn of(parts: ParkedParts) -> Parked
        requires { HasFewToDo (todo_of parts.blocks.value parts.todo) }
        ensures { result ≡ frame_at parts.blocks.value parts.locals parts.todo parts.gives }
    {
        let ParkedParts {
            blocks,
            locals,
            todo,
            gives,
        } = parts;
        Parked {
            blocks,
            locals,
            todo,
            gives,
        }
    }

    /// What it is made of.
    #[inline(always)]
    pub fn into_parts(self) -> ParkedParts
        ensures same { self ≡ frame_at result.blocks.value result.locals result.todo result.gives }
        ensures few { HasFewToDo (todo_of result.blocks.value result.todo) }
    {
        let Parked {
            blocks,
            locals,
            todo,
            gives,
        } = self;
        ParkedParts {
            blocks,
            locals,
            todo,
            gives,
        }
    }
}
