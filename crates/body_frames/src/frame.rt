//! A body that is under way, from one of its requests to the next.
ghost use Rattle.std.specs.Prelude.{◌≡◌, ℕ, List, pos, IfOk};
ghost use Rattle.machine.specs.declared.state.Local.{Local as Named};
ghost use Rattle.machine.specs.Expressions.{Around};
ghost use Rattle.machine.specs.Bodies.{around, resume, begins, goes};
ghost use Rattle.body_values.specs.Functions.{IsFunction, function_at};
ghost use Rattle.body_frames.specs.Answers.{Answers, IsAnswer, IsNumber};
ghost use Rattle.body_frames.specs.declared.step.Input.{Input as Given};
ghost use Rattle.body_frames.specs.Few.{HasFewBody, HasFewUnwound};
ghost use Rattle.body_frames.specs.Standings.{body_of, goes_from, stepped};
ghost use Rattle.body_frames.specs.Steady.{HasMove, IsSteady};
ghost use Rattle.body_frames.specs.Steps.{answer_of, step_of};

use crate::moves::{Context, make_move};
use crate::stack::{Begun, Made, Stack, begin_function, go_inside, go_on_with, outcome_of_leaving};
use crate::step::{Input, Step};
use crate::unwind::Unwound;
use body_blocks::Blocks;
use body_names::LocalSlot;
use body_values::front::pop_first;
use body_values::{Code, Look};
use gv_values::{Outcome, Value};
use scenario_tree::Items;
use std::alloc::{AllocError, Global};
use std::marker::Model;
use std::mem;
use std::rc::Rc;

/// How a body stands between two steps.
#[derive(Drop)]
pub enum Standing {
    /// It goes on by itself, to its next move or out of its block.
    Ready(Unwound),
    /// It waits for the answer to its request, which the local takes.
    Waits(Option<LocalSlot>),
    /// It waits for the number of the timeout block that it enters: whether that is silent, and its body.
    Enters(bool, usize),
    /// It has ended.
    Gone,
}

/// A body that is under way: what it does next, between two of its requests. It shares the blocks of its code.
#[derive(Drop)]
pub struct Frame {
    blocks: Rc<Blocks>,
    stack: Stack,
    standing: Standing,
}

impl Model for Frame {
    ghost use Rattle.machine.specs.Bodies.{Body};
    ghost use Rattle.scenario_tree.specs.Trees.{trees};
    ghost use Rattle.body_frames.specs.Few.{HasFewBody};
    ghost use Rattle.body_frames.specs.Steady.{IsSteady};
    ghost use Rattle.body_frames.specs.Standings.{body_of};

    ghost Value = { Body };

    ghost coded = { Prim.hlevel trees };

    ghost view = { λ f. body_of f.blocks.value f.standing f.stack };

    ghost invariant = { λ f. IsSteady (body_of f.blocks.value f.standing f.stack) × HasFewBody (body_of f.blocks.value f.standing f.stack) };
}

impl Frame {
    /// A body of this function with these arguments, which has not begun. `AllocError`: memory is wanting.
    pub fn new(
        alloc: Global,
        code: &Code,
        function: u32,
        arguments: Items<Value>,
    ) -> Result<Frame, AllocError>
        requires declared { IsFunction code.now function }
        ensures { IfOk result (λ frame. frame ≡ begins (function_at function code.now) arguments) }
    {
        let Begun { blocks, stack, at } = begin_function(alloc, code, function, arguments)?;
        Ok(Frame {
            blocks,
            stack,
            standing: Standing::Ready(at),
        })
    }

    /// The body goes on with this input, to its next request, to its end, or to a move that has none left.
    ///
    /// `moves` is what is left, and falls by one with each move. `AllocError`: memory is wanting, and the
    /// frame is not resumed again.
    pub fn resume<L: Look>(
        &mut self,
        alloc: Global,
        code: &Code,
        input: Input,
        look: &L,
        moves: &mut u64,
    ) -> Result<Step, AllocError>
        requires answer { IsAnswer self.old input }
        ensures next { IfOk result (λ step.
            stepped step self.new moves.new ≡ resume moves.old (around code.now (L.answers look.now)) self.old (answer_of input)) }
        ensures answers { IfOk result (λ step. (input : Given) → Answers (step_of step) input → IsAnswer self.new input) }
    {
        Ok(self.resume_body(alloc, code, input, look, moves)?)
    }

    /// Resumes the body. The caller shows that its step can be answered, as a law of what a step does.
    fn resume_body<L: Look>(
        &mut self,
        alloc: Global,
        code: &Code,
        input: Input,
        look: &L,
        moves: &mut u64,
    ) -> Result<Step, AllocError>
        requires answer { IsAnswer self.old input }
        ensures { IfOk result (λ step.
            stepped step self.new moves.new ≡ resume moves.old (around code.now (L.answers look.now)) self.old (answer_of input)) }
    {
        let standing = mem::replace(&mut self.standing, Standing::Gone);
        let (step, standing) = resume_from(
            &Context {
                alloc,
                code,
                blocks: &self.blocks,
                look,
            },
            &mut self.stack,
            standing,
            input,
            moves,
        )?;
        self.standing = standing;
        Ok(step)
    }
}

/// The body goes on with this input, from where it stands.
fn resume_from<L: Look>(
    context: &Context<'_, L>,
    stack: &mut Stack,
    standing: Standing,
    input: Input,
    moves: &mut u64,
) -> Result<(Step, Standing), AllocError>
    requires answer { IsAnswer (body_of context.now.blocks.now standing stack.old) input }
    requires steady { IsSteady (body_of context.now.blocks.now standing stack.old) }
    requires few { HasFewBody (body_of context.now.blocks.now standing stack.old) }
    ensures steady { IfOk result (λ came. IsSteady (body_of context.now.blocks.now came.1 stack.new)) }
    ensures few { IfOk result (λ came. HasFewBody (body_of context.now.blocks.now came.1 stack.new)) }
    ensures next { IfOk result (λ came.
        stepped came.0 (body_of context.now.blocks.now came.1 stack.new) moves.new
        ≡ resume moves.old (around context.now.code.now (L.answers context.now.look.now)) (body_of context.now.blocks.now standing stack.old) (answer_of input)) }
{
    let at = take_input(context.alloc, context.blocks, stack, standing, input)?;
    Ok(go_on(context, stack, at, moves)?)
}

fn outcome_of_input(input: Input) -> Outcome
    ensures { result ≡ answer_of input }
{
    match input {
        Input::Begin => Outcome::Value(Value::Nothing),
        Input::Value(value) => Outcome::Value(value),
        Input::Fault(kind) => Outcome::Fault(kind),
    }
}

/// The input comes to the body, which then goes on by itself.
fn take_input(
    alloc: Global,
    blocks: &Blocks,
    stack: &mut Stack,
    standing: Standing,
    input: Input,
) -> Result<Unwound, AllocError>
    requires answer { IsAnswer (body_of blocks.now standing stack.old) input }
    requires steady { IsSteady (body_of blocks.now standing stack.old) }
    requires few { HasFewBody (body_of blocks.now standing stack.old) }
    ensures steady { IfOk result (λ at. HasMove (goes_from blocks.now at stack.new)) }
    ensures few { IfOk result (λ at. HasFewUnwound (goes_from blocks.now at stack.new)) }
    ensures resumed { IfOk result (λ at. (moves : ℕ) (around : List Named → Around) →
        resume moves around (body_of blocks.now standing stack.old) (answer_of input)
        ≡ goes moves around (goes_from blocks.now at stack.new)) }
{
    match standing {
        Standing::Ready(at) => Ok(at),
        Standing::Waits(gives) => {
            stack.left = Items::new(alloc);
            Ok(go_on_with(blocks, stack, gives, outcome_of_input(input))?)
        }
        Standing::Enters(silent, body) => match input {
            Input::Value(Value::Int(number)) => {
                stack.left = Items::new(alloc);
                Ok(go_inside(blocks, stack, silent, body, number_of(number))?)
            }
            // A timeout block is answered with its number.
            _ => unreachable!(),
        },
        // A body that has ended is not resumed.
        Standing::Gone => unreachable!(),
    }
}

/// The body goes on to its next request or its end. The timeout blocks that were left come first.
fn go_on<L: Look>(
    context: &Context<'_, L>,
    stack: &mut Stack,
    at: Unwound,
    moves: &mut u64,
) -> Result<(Step, Standing), AllocError>
    requires steady { HasMove (goes_from context.now.blocks.now at stack.old) }
    requires few { HasFewUnwound (goes_from context.now.blocks.now at stack.old) }
    ensures steady { IfOk result (λ came. IsSteady (body_of context.now.blocks.now came.1 stack.new)) }
    ensures few { IfOk result (λ came. HasFewBody (body_of context.now.blocks.now came.1 stack.new)) }
    ensures gone { IfOk result (λ came.
        goes moves.old (around context.now.code.now (L.answers context.now.look.now)) (goes_from context.now.blocks.now at stack.old)
        ≡ stepped came.0 (body_of context.now.blocks.now came.1 stack.new) moves.new) }
{
    let mut at = at;
    'moves: loop {
        if let Some(number) = pop_first(&mut stack.left) {
            return Ok((Step::LeaveTimeout(number), Standing::Ready(at)));
        }
        if let Unwound::Out(how) = at {
            return Ok((Step::Ended(outcome_of_leaving(how)), Standing::Gone));
        }
        if *moves == 0 {
            return Ok((Step::MovesOut, Standing::Ready(Unwound::Runs)));
        }
        *moves -= 1;
        match make_move(context, stack)? {
            Made::Asks(request, gives) => {
                return Ok((Step::Request(request), Standing::Waits(gives)));
            }
            Made::Enters(time, silent, body) => {
                return Ok((
                    Step::EnterTimeout(time, silent),
                    Standing::Enters(silent, body),
                ));
            }
            Made::Further(next) => at = next,
        }
    }
}

/// The number of a timeout block.
fn number_of(number: i64) -> u32
    requires { IsNumber number }
    ensures { pos result ≡ number }
{
    number as u32
}
