//! Statements that give no value.
ghost use Rattle.std.specs.Prelude.{◌≡◌, ◌++◌, List, IfOk};
ghost use Rattle.gv_values.specs.declared.name.Name.{Name as Word};
ghost use Rattle.body_names.specs.Naming.{Grows, IsKept};
ghost use Rattle.body_names.specs.Statements.{ChangesGreenlet, ChangesObject, command_of};

use crate::expression::{FlatExpression, LocalSlot, flat_expression};
use crate::naming::Naming;
use crate::operands::{expression_expression, expression_optional, name_expression, name_optional};
use scenario_tree::{Command, Wait};
use std::alloc::{AllocError, Global};

/// A statement of one line that gives no value, with numbers in place of names.
#[derive(Drop)]
pub enum FlatCommand {
    Print(FlatExpression),
    Let(LocalSlot, FlatExpression),
    Return(FlatExpression),
    Raise(FlatExpression),
    Start(FlatExpression),
    Sleep(u32),
    Join(FlatExpression, Option<u32>),
    /// The fault stands after `with`.
    Kill(FlatExpression, Option<FlatExpression>, Wait),
    KillAll(FlatExpression, Option<FlatExpression>, Wait),
    Unlink(FlatExpression),
    Set(u32),
    Clear(u32),
    ResultSet(u32, FlatExpression),
    ResultFail(u32, FlatExpression),
    Release(u32),
    QueuePut(u32, FlatExpression, Wait),
    QueueDone(u32),
    GroupJoin(u32, Option<u32>),
    /// The fault, and whether `now` stands there.
    GroupKill(u32, Option<FlatExpression>, bool),
    SetParent(FlatExpression, FlatExpression),
    ChannelPut(u32, FlatExpression),
    /// Whether `immediate` stands there.
    QueueShut(u32, bool),
}

/// The statement with numbers. `AllocError`: memory is wanting. Its forms stand in three functions, which are proved in
/// less time than one.
pub fn flat_command(
    alloc: Global,
    naming: &mut Naming,
    command: &Command,
) -> Result<FlatCommand, AllocError>
    requires kept { IsKept naming.old.numbers naming.old.names }
    ensures kept { IfOk result (λ _. IsKept naming.new.numbers naming.new.names) }
    ensures grows { IfOk result (λ _. Grows naming.old.names naming.new.names) }
    ensures same { IfOk result (λ c. (more : List Word) → command_of (naming.new.names ++ more) c ≡ command.now) }
{
    match command {
        Command::Print(a) => Ok(FlatCommand::Print(got!(flat_expression(alloc, naming, a)))),
        Command::Let(a, b) => {
            let a = got!(naming.slot(alloc, a));
            Ok(FlatCommand::Let(a, got!(flat_expression(alloc, naming, b))))
        }
        Command::Return(a) => Ok(FlatCommand::Return(got!(flat_expression(alloc, naming, a)))),
        Command::Raise(a) => Ok(FlatCommand::Raise(got!(flat_expression(alloc, naming, a)))),
        Command::Sleep(a) => Ok(FlatCommand::Sleep(*a)),
        Command::ResultSet(a, b) => {
            let (a, b) = got!(name_expression(alloc, naming, a, b));
            Ok(FlatCommand::ResultSet(a, b))
        }
        Command::ResultFail(a, b) => {
            let (a, b) = got!(name_expression(alloc, naming, a, b));
            Ok(FlatCommand::ResultFail(a, b))
        }
        Command::QueuePut(a, b, c) => {
            let (a, b) = got!(name_expression(alloc, naming, a, b));
            Ok(FlatCommand::QueuePut(a, b, *c))
        }
        Command::ChannelPut(a, b) => {
            let (a, b) = got!(name_expression(alloc, naming, a, b));
            Ok(FlatCommand::ChannelPut(a, b))
        }
        Command::Start(..)
        | Command::Join(..)
        | Command::Kill(..)
        | Command::KillAll(..)
        | Command::Unlink(..)
        | Command::SetParent(..) => flat_greenlet_command(alloc, naming, command),
        Command::Set(..)
        | Command::Clear(..)
        | Command::Release(..)
        | Command::QueueDone(..)
        | Command::QueueShut(..)
        | Command::GroupJoin(..)
        | Command::GroupKill(..) => flat_object_command(alloc, naming, command),
    }
}

/// The statement does something to greenlets.
fn flat_greenlet_command(
    alloc: Global,
    naming: &mut Naming,
    command: &Command,
) -> Result<FlatCommand, AllocError>
    requires kept { IsKept naming.old.numbers naming.old.names }
    requires greenlet { ChangesGreenlet command.now }
    ensures kept { IfOk result (λ _. IsKept naming.new.numbers naming.new.names) }
    ensures grows { IfOk result (λ _. Grows naming.old.names naming.new.names) }
    ensures same { IfOk result (λ c. (more : List Word) → command_of (naming.new.names ++ more) c ≡ command.now) }
{
    match command {
        Command::Start(a) => Ok(FlatCommand::Start(got!(flat_expression(alloc, naming, a)))),
        Command::Join(a, b) => Ok(FlatCommand::Join(got!(flat_expression(alloc, naming, a)), *b)),
        Command::Kill(a, b, c) => {
            let (a, b) = got!(expression_optional(alloc, naming, a, b));
            Ok(FlatCommand::Kill(a, b, *c))
        }
        Command::KillAll(a, b, c) => {
            let (a, b) = got!(expression_optional(alloc, naming, a, b));
            Ok(FlatCommand::KillAll(a, b, *c))
        }
        Command::Unlink(a) => Ok(FlatCommand::Unlink(got!(flat_expression(alloc, naming, a)))),
        Command::SetParent(a, b) => {
            let (a, b) = got!(expression_expression(alloc, naming, a, b));
            Ok(FlatCommand::SetParent(a, b))
        }
        // `flat_command` hands on only what does something to greenlets.
        _ => unreachable!(),
    }
}

/// The statement does something to an object, and gives it no value.
fn flat_object_command(
    alloc: Global,
    naming: &mut Naming,
    command: &Command,
) -> Result<FlatCommand, AllocError>
    requires kept { IsKept naming.old.numbers naming.old.names }
    requires object { ChangesObject command.now }
    ensures kept { IfOk result (λ _. IsKept naming.new.numbers naming.new.names) }
    ensures grows { IfOk result (λ _. Grows naming.old.names naming.new.names) }
    ensures same { IfOk result (λ c. (more : List Word) → command_of (naming.new.names ++ more) c ≡ command.now) }
{
    match command {
        Command::Set(a) => Ok(FlatCommand::Set(got!(naming.number(alloc, a)))),
        Command::Clear(a) => Ok(FlatCommand::Clear(got!(naming.number(alloc, a)))),
        Command::Release(a) => Ok(FlatCommand::Release(got!(naming.number(alloc, a)))),
        Command::QueueDone(a) => Ok(FlatCommand::QueueDone(got!(naming.number(alloc, a)))),
        Command::QueueShut(a, b) => Ok(FlatCommand::QueueShut(got!(naming.number(alloc, a)), *b)),
        Command::GroupJoin(a, b) => Ok(FlatCommand::GroupJoin(got!(naming.number(alloc, a)), *b)),
        Command::GroupKill(a, b, c) => {
            let (a, b) = got!(name_optional(alloc, naming, a, b));
            Ok(FlatCommand::GroupKill(a, b, *c))
        }
        // `flat_command` hands on only what does something to an object.
        _ => unreachable!(),
    }
}
