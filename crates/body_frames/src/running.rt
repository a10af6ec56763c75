//! A body that makes its moves where it stands: it is handed on only when it has to wait.
ghost use Rattle.std.specs.Prelude.{◌≡◌, ◌+◌, ◌≤◌, [], None, IfOk, IsTrue};
ghost use Rattle.machine.specs.declared.state.Leaving.{Leaving};
ghost use Rattle.machine.specs.declared.state.Frame.{Frame as Body};
ghost use Rattle.machine.specs.Bodies.{around};
ghost use Rattle.machine.specs.Ends.{leaving_of};
ghost use Rattle.machine.specs.Expressions.{Look as Answers};
ghost use Rattle.machine.specs.Landing.{given};
ghost use Rattle.machine.specs.Unwinding.{unwind};
ghost use Rattle.body_frames.specs.declared.runs.Halt.TheVariants as halt;
ghost use Rattle.body_frames.specs.Destinations.{Arrives, HasMovedOn, IsMoving};
ghost use Rattle.body_entries.specs.Few.{HasFewToDo};
ghost use Rattle.body_frames.specs.Few.{HasFewUnwound};
ghost use Rattle.body_frames.specs.Places.{place_of};
ghost use Rattle.body_frames.specs.PrimitiveMoves.{RunsAt};
ghost use Rattle.body_frames.specs.Runs.{HasRun, came_of_move, more_of};
ghost use Rattle.body_frames.specs.Steady.{HasMove};
ghost use Rattle.body_frames.specs.Unwinding.{unwound_of};

use crate::moves::{Context, make_any_move};
use crate::places::Moving;
use crate::runs::{Ran, run_moves};
use crate::stack::{
    Made, Stack, go_inside, go_inwards, go_on_with, is_at_move, outcome_of_leaving,
};
use crate::unwind::Unwound;
use body_blocks::Blocks;
use body_entries::{Parked, ParkedParts};
use body_names::LocalSlot;
use body_values::{Code, Look};
use gv_values::Outcome;
use machine::request::Request;
use scenario_tree::Items;
use std::alloc::{AllocError, Global};
use std::marker::Model;
use std::mem;
use std::rc::Rc;

/// A body that is at its next move, or was until it asked something: then it waits for the answer. Where memory was
/// wanting, it is let go.
#[derive(Drop)]
pub struct Running {
    blocks: Rc<Blocks>,
    stack: Stack,
    gives: Option<LocalSlot>,
}

impl Model for Running {
    ghost use Rattle.std.specs.Prelude.{◌≡◌, []};
    ghost use Rattle.machine.specs.declared.state.Frame.{Frame as Body};
    ghost use Rattle.scenario_tree.specs.Trees.{trees};
    ghost use Rattle.body_entries.specs.Entries.{frame_at};

    ghost Value = { Body };

    ghost coded = { Prim.hlevel trees };

    ghost view = { λ r. frame_at r.blocks.value r.stack.locals r.stack.todo r.gives };

    ghost invariant = { λ r. r.stack.left ≡ [] };
}

/// Where a body comes to by itself, which stays where it is. First the numbers of the timeout blocks that it left,
/// innermost first.
#[derive(Drop)]
pub enum Destination {
    /// It is at its next move.
    Move(Items<u32>),
    /// It has ended so.
    End(Items<u32>, Outcome),
}

/// What comes of one move of a body that stays where it is.
#[derive(Drop)]
pub enum Moved {
    /// The body goes on by itself.
    Comes(Destination),
    /// It asks its hub, and waits for the answer.
    Asks(Request),
    /// It enters a timeout block, with its time in milliseconds if it has one, and goes on inside.
    Enters(Option<u32>, Destination),
}

impl Running {
    /// This body.
    pub fn of(alloc: Global, body: Moving) -> Running
        ensures same { result ≡ body }
        ensures moving { IsMoving result }
    {
        let Moving {
            blocks,
            locals,
            todo,
        } = body;
        Running {
            blocks,
            stack: Stack {
                locals,
                todo,
                left: Items::new(alloc),
            },
            gives: None,
        }
    }

    /// Whether its next move is first to do.
    pub fn is_at_move(&self) -> bool
        ensures { IsTrue result → RunsAt self.now.todo }
    {
        is_at_move(&self.blocks, &self.stack.todo)
    }

    /// It, at its next move.
    pub fn into_moving(self) -> Moving
        requires { IsMoving self }
        ensures { result ≡ self }
    {
        let Running { blocks, stack, .. } = self;
        let Stack { locals, todo, .. } = stack;
        Moving {
            blocks,
            locals,
            todo,
        }
    }

    /// It, where it waits for the answer to what it asked.
    pub fn into_parked(self) -> Parked
        requires { HasFewToDo self.todo }
        ensures { result ≡ self }
    {
        let Running {
            blocks,
            stack,
            gives,
        } = self;
        let Stack { locals, todo, .. } = stack;
        Parked::of(ParkedParts {
            blocks,
            locals,
            todo,
            gives,
        })
    }

    /// Makes moves of integers and truth values, and one that asks what is answered at once, until one is another, the
    /// body leaves a block, or so many are made. `AllocError`: memory is wanting.
    pub fn run(&mut self, code: &Code, most: u64) -> Result<Ran, AllocError>
        requires { IsMoving self.old }
        ensures runs { IfOk result (λ ran. ran.halt ≡ halt.Ahead → RunsAt self.new.todo) }
        ensures unheard { self.new.gives ≡ None }
        ensures few { IfOk result (λ ran. HasFewToDo self.new.todo) }
        ensures counted { IfOk result (λ ran. ran.moves + more_of ran.halt ≤ most) }
        ensures ran { (look : Answers) → IfOk result (λ ran. HasRun (around code.now look) ran.moves ran.halt self.old self.new) }
    {
        run_moves(code, &self.blocks, &mut self.stack, most)
    }

    /// Goes on from here by itself. `AllocError`: memory is wanting.
    pub fn go_on(&mut self, alloc: Global) -> Result<Destination, AllocError>
        requires { HasFewToDo self.old.todo }
        ensures { IfOk result (λ to. Arrives (place_of (unwind self.old.todo [] Leaving.Normally self.old.locals)) to self.new) }
    {
        self.gives = None;
        let at = go_inwards(&self.blocks, &mut self.stack);
        let left = take_left(alloc, &mut self.stack.left);
        Ok(destination_of(left, at?))
    }

    /// Takes the answer to what it asked, with a value or a fault, and goes on by itself. `AllocError`: memory is wanting.
    pub fn answer(&mut self, alloc: Global, answer: Outcome) -> Result<Destination, AllocError>
        requires { HasFewToDo self.old.todo }
        ensures { IfOk result (λ to. Arrives (place_of (unwind self.old.todo [] (leaving_of answer) (given self.old answer))) to self.new) }
    {
        let gives = self.gives;
        self.gives = None;
        let at = go_on_with(&self.blocks, &mut self.stack, gives, answer);
        let left = take_left(alloc, &mut self.stack.left);
        Ok(destination_of(left, at?))
    }

    /// Makes the next move, whatever it is, where this may be asked of its hub. A timeout block that it enters has this
    /// number. `AllocError`: memory is wanting.
    pub fn step<L: Look>(
        &mut self,
        alloc: Global,
        code: &Code,
        look: &L,
        timeout: u32,
    ) -> Result<Moved, AllocError>
        requires { HasFewToDo self.old.todo }
        ensures { IfOk result (λ moved. HasMovedOn timeout (came_of_move (around code.now (L.answers look.now)) self.old) moved self.new) }
    {
        let made = make_any_move(
            &Context {
                alloc,
                code,
                blocks: &self.blocks,
                look,
            },
            &mut self.stack,
        );
        let left = take_left(alloc, &mut self.stack.left);
        self.gives = None;
        match made? {
            Made::Asks(request, gives) => {
                self.gives = gives;
                Ok(Moved::Asks(request))
            }
            Made::Enters(time, silent, body) => {
                let at = go_inside(&self.blocks, &mut self.stack, silent, body, timeout);
                let left = take_left(alloc, &mut self.stack.left);
                Ok(Moved::Enters(time, destination_of(left, at?)))
            }
            Made::Further(at) => Ok(Moved::Comes(destination_of(left, at))),
        }
    }
}

/// The timeout blocks that were left, which are told now.
fn take_left(alloc: Global, left: &mut Items<u32>) -> Items<u32>
    ensures taken { result ≡ left.old }
    ensures none { left.new ≡ [] }
{
    mem::replace(left, Items::new(alloc))
}

/// Where a body comes to that left these timeout blocks.
fn destination_of(left: Items<u32>, at: Unwound) -> Destination
    ensures { (b : Body) → b.gives ≡ None → HasMove (unwound_of at left b.locals b.todo) → HasFewUnwound (unwound_of at left b.locals b.todo) →
        Arrives (place_of (unwound_of at left b.locals b.todo)) result b }
{
    match at {
        Unwound::Runs => Destination::Move(left),
        Unwound::Out(how) => Destination::End(left, outcome_of_leaving(how)),
    }
}
