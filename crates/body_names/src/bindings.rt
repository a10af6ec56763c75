//! The names that a function binds, in the order of its text: so its locals mostly come to stand.
ghost use Rattle.std.specs.Prelude.{IfOk};
ghost use Rattle.body_names.specs.Naming.{Grows, IsKept};

use crate::naming::Naming;
use scenario_tree::{Action, Command, Except, Function, Items, Statement};
use std::alloc::{AllocError, Global};

/// The function is under way from now on. `AllocError`: memory is wanting.
pub fn enter_function(
    alloc: Global,
    naming: &mut Naming,
    function: &Function,
) -> Result<(), AllocError>
    requires kept { IsKept naming.old.numbers naming.old.names }
    ensures kept { IfOk result (λ _. IsKept naming.new.numbers naming.new.names) }
    ensures grows { IfOk result (λ _. Grows naming.old.names naming.new.names) }
{
    naming.bound = Items::new(alloc);
    for parameter in function.parameters.as_slice() {
        naming.note(alloc, parameter)?;
    }
    note_block(alloc, naming, &function.body)
}

#[cycle(note)]
fn note_block(
    alloc: Global,
    naming: &mut Naming,
    block: &Items<Statement>,
) -> Result<(), AllocError>
    requires kept { IsKept naming.old.numbers naming.old.names }
    ensures kept { IfOk result (λ _. IsKept naming.new.numbers naming.new.names) }
    ensures grows { IfOk result (λ _. Grows naming.old.names naming.new.names) }
{
    for statement in block.as_slice() {
        note_action(alloc, naming, &statement.action)?;
    }
    Ok(())
}

#[cycle(note)]
fn note_action(alloc: Global, naming: &mut Naming, action: &Action) -> Result<(), AllocError>
    requires kept { IsKept naming.old.numbers naming.old.names }
    ensures kept { IfOk result (λ _. IsKept naming.new.numbers naming.new.names) }
    ensures grows { IfOk result (λ _. Grows naming.old.names naming.new.names) }
{
    match action {
        Action::Command(command) => note_command(alloc, naming, command),
        Action::Giving(target, _) => match target {
            Some(name) => naming.note(alloc, name),
            None => Ok(()),
        },
        Action::If(_, yes, no) => {
            note_block(alloc, naming, yes)?;
            match no {
                Some(no) => note_block(alloc, naming, no),
                None => Ok(()),
            }
        }
        Action::While(_, body) => note_block(alloc, naming, body),
        Action::Try(body, excepts, finally) => {
            note_block(alloc, naming, body)?;
            note_excepts(alloc, naming, excepts)?;
            match finally {
                Some(finally) => note_block(alloc, naming, finally),
                None => Ok(()),
            }
        }
        Action::Timeout(_, _, body) => note_block(alloc, naming, body),
    }
}

#[cycle(note)]
fn note_excepts(
    alloc: Global,
    naming: &mut Naming,
    excepts: &Items<Except>,
) -> Result<(), AllocError>
    requires kept { IsKept naming.old.numbers naming.old.names }
    ensures kept { IfOk result (λ _. IsKept naming.new.numbers naming.new.names) }
    ensures grows { IfOk result (λ _. Grows naming.old.names naming.new.names) }
{
    for except in excepts.as_slice() {
        note_except(alloc, naming, except)?;
    }
    Ok(())
}

#[cycle(note)]
fn note_except(alloc: Global, naming: &mut Naming, except: &Except) -> Result<(), AllocError>
    requires kept { IsKept naming.old.numbers naming.old.names }
    ensures kept { IfOk result (λ _. IsKept naming.new.numbers naming.new.names) }
    ensures grows { IfOk result (λ _. Grows naming.old.names naming.new.names) }
{
    if let Some(name) = &except.name {
        naming.note(alloc, name)?;
    }
    note_block(alloc, naming, &except.body)
}

fn note_command(alloc: Global, naming: &mut Naming, command: &Command) -> Result<(), AllocError>
    requires kept { IsKept naming.old.numbers naming.old.names }
    ensures kept { IfOk result (λ _. IsKept naming.new.numbers naming.new.names) }
    ensures grows { IfOk result (λ _. Grows naming.old.names naming.new.names) }
{
    match command {
        Command::Let(name, _) => naming.note(alloc, name),
        _ => Ok(()),
    }
}
