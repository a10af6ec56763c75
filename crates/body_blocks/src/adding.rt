//! Blocks of a tree.
ghost use Rattle.std.specs.Prelude.{◌≡◌, map, option_map, IfOk, Ok};
ghost use Rattle.scenario_tree.specs.declared.tree.Action.TheVariants as action;
ghost use Rattle.body_blocks.specs.Making.{IsMaking, IsPushed, made};
ghost use Rattle.body_blocks.specs.Trees.{Coded, Grows, action_of, block_at, except_of, joined, statement_of};

use crate::making::Making;
use crate::statement::{FlatAction, FlatExcept, FlatStatement, Handlers};
use crate::turning::turned;
use gv_values::Name;
use scenario_tree::{Action, Command, Except, Expression, Giving, Items, Statement};
use std::alloc::{AllocError, Global};
use std::rc::Rc;

/// The statements of the block, with those of the blocks inside it, are put to the code: the last one first, which the
/// block gives up at no cost.
#[cycle(block)]
pub fn add_block(
    alloc: Global,
    making: &mut Making,
    block: Items<Statement>,
) -> Result<usize, AllocError>
    requires { IsMaking making.old }
    ensures kept { IfOk result (λ _. IsMaking making.new) }
    ensures grows { IfOk result (λ _. Grows (made making.old) (made making.new)) }
    ensures same { IfOk result (λ n. (more : Coded) → block_at n (joined (made making.new) more) ≡ block) }
{
    let mut left = block;
    let mut statements = Vec::with_capacity(alloc, left.len())?;
    while let Some(statement) = left.pop() {
        push_made(&mut statements, add_statement(alloc, making, statement))?;
    }
    Ok(making.push(turned(statements))?)
}

#[cycle(block)]
fn add_statement(
    alloc: Global,
    making: &mut Making,
    statement: Statement,
) -> Result<FlatStatement, AllocError>
    requires { IsMaking making.old }
    ensures kept { IfOk result (λ _. IsMaking making.new) }
    ensures grows { IfOk result (λ _. Grows (made making.old) (made making.new)) }
    ensures same { IfOk result (λ s. (more : Coded) → statement_of (joined (made making.new) more) s ≡ statement) }
{
    let Statement { line, action } = statement;
    match add_action(alloc, making, action) {
        Ok(action) => Ok(FlatStatement { line, action }),
        Err(e) => Err(e),
    }
}

#[cycle(block)]
fn add_action(alloc: Global, making: &mut Making, action: Action) -> Result<FlatAction, AllocError>
    requires { IsMaking making.old }
    ensures kept { IfOk result (λ _. IsMaking making.new) }
    ensures grows { IfOk result (λ _. Grows (made making.old) (made making.new)) }
    ensures same { IfOk result (λ a. (more : Coded) → action_of (joined (made making.new) more) a ≡ action) }
{
    match action {
        Action::Command(command) => add_command(alloc, making, command),
        Action::Giving(name, giving) => add_giving(alloc, making, name, giving),
        Action::If(test, yes, no) => match no {
            None => add_if(alloc, making, yes, test, None),
            Some(no) => {
                let no = add_block(alloc, making, no)?;
                add_if(alloc, making, yes, test, Some(no))
            }
        },
        Action::While(test, body) => add_while(alloc, making, body, test),
        Action::Try(body, excepts, finally) => {
            let body = add_block(alloc, making, body)?;
            match finally {
                None => add_try(alloc, making, excepts, body, None),
                Some(finally) => {
                    let finally = add_block(alloc, making, finally)?;
                    add_try(alloc, making, excepts, body, Some(finally))
                }
            }
        }
        Action::Timeout(time, silent, body) => Ok(FlatAction::Timeout(
            time,
            silent,
            add_block(alloc, making, body)?,
        )),
    }
}

fn add_command(
    alloc: Global,
    making: &mut Making,
    command: Command,
) -> Result<FlatAction, AllocError>
    requires { IsMaking making.old }
    ensures kept { IfOk result (λ _. IsMaking making.new) }
    ensures grows { IfOk result (λ _. Grows (made making.old) (made making.new)) }
    ensures same { IfOk result (λ a. (more : Coded) → action_of (joined (made making.new) more) a ≡ action.Command command) }
{
    match making.command(alloc, command) {
        Ok(command) => Ok(FlatAction::Command(command)),
        Err(e) => Err(e),
    }
}

/// The block behind the `else` is there.
#[cycle(block)]
fn add_if(
    alloc: Global,
    making: &mut Making,
    yes: Items<Statement>,
    test: Expression,
    no: Option<usize>,
) -> Result<FlatAction, AllocError>
    requires { IsMaking making.old }
    ensures kept { IfOk result (λ _. IsMaking making.new) }
    ensures grows { IfOk result (λ _. Grows (made making.old) (made making.new)) }
    ensures same { IfOk result (λ a. (more : Coded) → action_of (joined (made making.new) more) a ≡ action.If test yes (option_map (λ n. block_at n (joined (made making.new) more)) no)) }
{
    let yes = add_block(alloc, making, yes)?;
    let test = making.expression(alloc, &test)?;
    Ok(FlatAction::If(test, yes, no))
}

#[cycle(block)]
fn add_while(
    alloc: Global,
    making: &mut Making,
    body: Items<Statement>,
    test: Expression,
) -> Result<FlatAction, AllocError>
    requires { IsMaking making.old }
    ensures kept { IfOk result (λ _. IsMaking making.new) }
    ensures grows { IfOk result (λ _. Grows (made making.old) (made making.new)) }
    ensures same { IfOk result (λ a. (more : Coded) → action_of (joined (made making.new) more) a ≡ action.While test body) }
{
    let body = add_block(alloc, making, body)?;
    let test = shared(alloc, making.expression(alloc, &test))?;
    Ok(FlatAction::While(test, body))
}

/// The body and the finally are there.
#[cycle(block)]
fn add_try(
    alloc: Global,
    making: &mut Making,
    excepts: Items<Except>,
    body: usize,
    finally: Option<usize>,
) -> Result<FlatAction, AllocError>
    requires { IsMaking making.old }
    ensures kept { IfOk result (λ _. IsMaking making.new) }
    ensures grows { IfOk result (λ _. Grows (made making.old) (made making.new)) }
    ensures same { IfOk result (λ a. (more : Coded) → action_of (joined (made making.new) more) a ≡ action.Try (block_at body (joined (made making.new) more)) excepts (option_map (λ n. block_at n (joined (made making.new) more)) finally)) }
{
    let handlers = shared(alloc, add_handlers(alloc, making, excepts, finally))?;
    Ok(FlatAction::Try(body, handlers))
}

/// The finally is there.
#[cycle(block)]
fn add_handlers(
    alloc: Global,
    making: &mut Making,
    excepts: Items<Except>,
    finally: Option<usize>,
) -> Result<Handlers, AllocError>
    requires { IsMaking making.old }
    ensures kept { IfOk result (λ _. IsMaking making.new) }
    ensures grows { IfOk result (λ _. Grows (made making.old) (made making.new)) }
    ensures excepts { IfOk result (λ h. (more : Coded) → map (except_of (joined (made making.new) more)) h.excepts ≡ excepts) }
    ensures finally { IfOk result (λ h. h.finally ≡ finally) }
{
    let excepts = add_excepts(alloc, making, excepts)?;
    Ok(Handlers { excepts, finally })
}

/// What was made is put behind the others. A caller holds nothing that it would have to drop where memory is wanting.
fn push_made<T: Drop>(others: &mut Vec<T>, made: Result<T, AllocError>) -> Result<(), AllocError>
    ensures { IfOk result (λ _. IsPushed made others.old.items others.new.items) }
{
    let one = made?;
    others.push(one)?;
    Ok(())
}

/// What was made is shared.
fn shared<T: Drop>(alloc: Global, made: Result<T, AllocError>) -> Result<Rc<T>, AllocError>
    ensures { IfOk result (λ rc. made ≡ Ok rc.value) }
{
    Ok(Rc::new(alloc, made?)?)
}

/// A statement that gives a value is dropped by a call, at each exit.
fn add_giving(
    alloc: Global,
    making: &mut Making,
    name: Option<Name>,
    giving: Giving,
) -> Result<FlatAction, AllocError>
    requires { IsMaking making.old }
    ensures kept { IfOk result (λ _. IsMaking making.new) }
    ensures grows { IfOk result (λ _. Grows (made making.old) (made making.new)) }
    ensures same { IfOk result (λ a. (more : Coded) → action_of (joined (made making.new) more) a ≡ action.Giving name giving) }
{
    let Ok(slot) = making.slot(alloc, &name) else {
        drop(giving);
        return Err(AllocError);
    };
    Ok(FlatAction::Giving(slot, making.giving(alloc, giving)?))
}

#[cycle(block)]
fn add_excepts(
    alloc: Global,
    making: &mut Making,
    excepts: Items<Except>,
) -> Result<Items<FlatExcept>, AllocError>
    requires { IsMaking making.old }
    ensures kept { IfOk result (λ _. IsMaking making.new) }
    ensures grows { IfOk result (λ _. Grows (made making.old) (made making.new)) }
    ensures same { IfOk result (λ es. (more : Coded) → map (except_of (joined (made making.new) more)) es ≡ excepts) }
{
    let mut left = excepts;
    let mut flat = Vec::with_capacity(alloc, left.len())?;
    while let Some(except) = left.pop() {
        push_made(&mut flat, add_except(alloc, making, except))?;
    }
    Ok(turned(flat))
}

#[cycle(block)]
fn add_except(alloc: Global, making: &mut Making, except: Except) -> Result<FlatExcept, AllocError>
    requires { IsMaking making.old }
    ensures kept { IfOk result (λ _. IsMaking making.new) }
    ensures grows { IfOk result (λ _. Grows (made making.old) (made making.new)) }
    ensures same { IfOk result (λ e. (more : Coded) → except_of (joined (made making.new) more) e ≡ except) }
{
    let Except {
        line,
        class,
        name,
        body,
    } = except;
    let name = making.slot(alloc, &name)?;
    let body = add_block(alloc, making, body)?;
    Ok(FlatExcept {
        line,
        class,
        name,
        body,
    })
}
