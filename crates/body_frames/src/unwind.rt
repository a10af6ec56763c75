//! How a block is left.
ghost use Rattle.std.specs.Prelude.{◌≡◌, ◌∷◌, [], ℕ, List, map, option_map, unwrap_or, IfOk, OnOk};
ghost use Rattle.std.specs.Option.{option_copied};
ghost use Rattle.machine.specs.declared.state.Local.{Local as Named};
ghost use Rattle.machine.specs.declared.state.Leaving.TheVariants as leaving;
ghost use Rattle.machine.specs.declared.state.Todo.TheVariants as undone;
ghost use Rattle.machine.specs.Unwinding.{unwind, catching, past_timeout, bind_if, finally_first};
ghost use Rattle.body_locals.specs.Locals.{locals_of};
ghost use Rattle.body_blocks.specs.Trees.{except_of, name_if};
ghost use Rattle.body_entries.specs.Entries.{begins, entry_of, optional_block, rest, todo_of};
ghost use Rattle.body_frames.specs.Unwinding.{unwound_of, caught_of, stepped_of, KeepsIfFurther};

use body_blocks::{Blocks, FlatExcept, Handlers};
use body_entries::{Entry, Pile};
use body_locals::Locals;
use body_names::LocalSlot;
use gv_values::{FaultKind, Value};
use machine::state::Leaving;
use scenario_tree::{Boxed, Items};
use std::alloc::AllocError;

/// Whether the body goes on, or how it is left.
#[derive(Drop)]
pub enum Unwound {
    Runs,
    Out(Leaving),
}

/// What came of one entry of what is still to do.
#[derive(Drop)]
pub enum Stepped {
    Runs,
    Further(Leaving),
}

fn past_timeout(n: u32, silent: bool, how: Leaving) -> Leaving
    ensures { result ≡ past_timeout n silent how }
{
    match how {
        Leaving::Raising(FaultKind::Timeout(m)) => {
            if silent && m == n {
                Leaving::Normally
            } else {
                Leaving::Raising(FaultKind::Timeout(m))
            }
        }
        how => how,
    }
}

/// The local, if there is one, takes the value.
#[tactic(auto, using(body_locals::proofs::Places::bind_by_name))]
pub fn bind_if(
    blocks: &Blocks,
    locals: &mut Locals,
    local: Option<LocalSlot>,
    value: Value,
) -> Result<(), AllocError>
    ensures { OnOk result (locals_of blocks.now.names locals.new ≡ bind_if (name_if blocks.now local) value (locals_of blocks.now.names locals.old)) }
{
    blocks.tell_names();
    if let Some(slot) = local {
        locals.bind(slot, value)?;
    }
    Ok(())
}

/// The first except that catches the fault.
fn catching<'a>(f: FaultKind, excepts: &'a [FlatExcept]) -> Option<&'a FlatExcept>
    ensures { (t : _) → option_map (caught_of t) (option_copied result) ≡ catching f (map (except_of t) excepts.now) }
{
    for except in excepts {
        if except.class.catches(f) {
            return Some(except);
        }
    }
    None
}

/// The finally runs first, where it has statements.
#[tactic(auto, using(crate::proofs::Leavings::finally_runs, crate::proofs::Leavings::finally_ends))]
fn finally_first(
    blocks: &Blocks,
    todo: &mut Pile<Entry>,
    finally: Option<usize>,
    how: Leaving,
) -> Result<Stepped, AllocError>
    ensures keeps { IfOk result (λ s. KeepsIfFurther s todo.old todo.new) }
    ensures meaning { IfOk result (λ s. (left : List ℕ) (locals : List Named) →
        finally_first (unwrap_or (optional_block blocks.now finally) []) left how locals (todo_of blocks.now todo.old) (unwind (todo_of blocks.now todo.old) left how locals)
        ≡ stepped_of s left locals (todo_of blocks.now todo.new)) }
{
    match finally {
        Some(finally) => {
            if begins(blocks, finally, 0) {
                let how = Boxed::new(todo.allocator(), how)?;
                todo.push(Entry::Afterwards(how))?;
                todo.push(Entry::Rest {
                    block: finally,
                    at: 0,
                })?;
                return Ok(Stepped::Runs);
            }
            Ok(Stepped::Further(how))
        }
        None => Ok(Stepped::Further(how)),
    }
}

/// A fault comes to a try.
#[tactic(auto, using(crate::proofs::Leavings::block_runs, crate::proofs::Leavings::block_ends))]
fn guard(
    blocks: &Blocks,
    todo: &mut Pile<Entry>,
    f: FaultKind,
    locals: &mut Locals,
    handlers: &Handlers,
) -> Result<Stepped, AllocError>
    ensures keeps { IfOk result (λ s. KeepsIfFurther s todo.old todo.new) }
    ensures meaning { IfOk result (λ s. (left : List ℕ) →
        unwind (undone.Guard (map (except_of blocks.now) handlers.now.excepts) (unwrap_or (optional_block blocks.now handlers.now.finally) []) ∷ todo_of blocks.now todo.old) left (leaving.Raising f) (locals_of blocks.now.names locals.old)
        ≡ stepped_of s left (locals_of blocks.now.names locals.new) (todo_of blocks.now todo.new)) }
{
    let finally = handlers.finally;
    match catching(f, handlers.excepts.as_slice()) {
        None => Ok(finally_first(blocks, todo, finally, Leaving::Raising(f))?),
        Some(except) => {
            bind_if(blocks, locals, except.name, Value::Fault(f))?;
            if begins(blocks, except.body, 0) {
                todo.push(Entry::Final(finally))?;
                todo.push(Entry::Rest {
                    block: except.body,
                    at: 0,
                })?;
                return Ok(Stepped::Runs);
            }
            Ok(finally_first(blocks, todo, finally, Leaving::Normally)?)
        }
    }
}

/// One entry is left in this way.
fn step(
    blocks: &Blocks,
    todo: &mut Pile<Entry>,
    left: &mut Items<u32>,
    how: Leaving,
    locals: &mut Locals,
    entry: Entry,
) -> Result<Stepped, AllocError>
    ensures keeps { IfOk result (λ s. KeepsIfFurther s todo.old todo.new) }
    ensures meaning { IfOk result (λ s.
        unwind (entry_of blocks.now entry ∷ todo_of blocks.now todo.old) left.old how (locals_of blocks.now.names locals.old) ≡ stepped_of s left.new (locals_of blocks.now.names locals.new) (todo_of blocks.now todo.new)) }
{
    match entry {
        Entry::Rest { block, at } => Ok(leave_rest(blocks, todo, how, block, at)?),
        Entry::Again(test, body) => match how {
            Leaving::Normally => {
                todo.push(Entry::Again(test, body))?;
                Ok(Stepped::Runs)
            }
            how => Ok(Stepped::Further(how)),
        },
        Entry::Guard(handlers) => match how {
            Leaving::Raising(f) => Ok(guard(blocks, todo, f, locals, &handlers)?),
            how => Ok(finally_first(blocks, todo, handlers.finally, how)?),
        },
        Entry::Final(finally) => match how {
            Leaving::Raising(f) => Ok(finally_first(blocks, todo, finally, Leaving::Raising(f))?),
            how => Ok(finally_first(blocks, todo, finally, how)?),
        },
        Entry::Within(n, silent) => {
            left.push(n)?;
            Ok(Stepped::Further(past_timeout(n, silent, how)))
        }
        Entry::Afterwards(before) => match how {
            Leaving::Normally => Ok(Stepped::Further(before.into_inner())),
            how => Ok(Stepped::Further(how)),
        },
    }
}

/// Whether a statement stands there.
#[inline(always)]
#[tactic(auto, using(crate::proofs::Readings::begins_there, crate::proofs::Readings::begins_not))]
pub fn begins(blocks: &Blocks, block: usize, at: usize) -> bool
    ensures { result ≡ begins (rest blocks.now block at) }
{
    match blocks.ahead(block, at) {
        Some(_) => true,
        None => false,
    }
}

/// The rest of a block is left.
#[tactic(auto, using(crate::proofs::Leavings::rest_runs, crate::proofs::Leavings::rest_ends, crate::proofs::Leavings::rest_raises, crate::proofs::Leavings::rest_returns))]
fn leave_rest(
    blocks: &Blocks,
    todo: &mut Pile<Entry>,
    how: Leaving,
    block: usize,
    at: usize,
) -> Result<Stepped, AllocError>
    ensures keeps { IfOk result (λ s. KeepsIfFurther s todo.old todo.new) }
    ensures meaning { IfOk result (λ s. (left : List ℕ) (locals : List Named) →
        unwind (undone.Statements (rest blocks.now block at) ∷ todo_of blocks.now todo.old) left how locals ≡ stepped_of s left locals (todo_of blocks.now todo.new)) }
{
    match how {
        Leaving::Normally => {
            if begins(blocks, block, at) {
                todo.push(Entry::Rest { block, at })?;
                return Ok(Stepped::Runs);
            }
            Ok(Stepped::Further(Leaving::Normally))
        }
        Leaving::Raising(f) => Ok(Stepped::Further(Leaving::Raising(f))),
        Leaving::Returning(value) => Ok(Stepped::Further(Leaving::Returning(value))),
    }
}

/// Goes outwards to the next statement, or out of the body. A timeout block that is left gives its number.
pub fn unwind(
    blocks: &Blocks,
    todo: &mut Pile<Entry>,
    left: &mut Items<u32>,
    how: Leaving,
    locals: &mut Locals,
) -> Result<Unwound, AllocError>
    ensures { IfOk result (λ u.
        unwind (todo_of blocks.now todo.old) left.old how (locals_of blocks.now.names locals.old) ≡ unwound_of u left.new (locals_of blocks.now.names locals.new) (todo_of blocks.now todo.new)) }
{
    let mut how = how;
    loop {
        match todo.pop() {
            None => return Ok(Unwound::Out(how)),
            Some(entry) => match step(blocks, todo, left, how, locals, entry)? {
                Stepped::Runs => return Ok(Unwound::Runs),
                Stepped::Further(next) => how = next,
            },
        }
    }
}
