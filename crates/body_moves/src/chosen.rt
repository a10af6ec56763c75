//! What a statement of one line does.
ghost use Rattle.std.specs.Prelude.{◌≡◌, IfOk};
ghost use Rattle.body_moves.specs.declared.chosen.Chosen.TheVariants as choice;
ghost use Rattle.machine.specs.declared.state.Leaving.TheVariants as leaving;
ghost use Rattle.machine.specs.Bodies.{around};
ghost use Rattle.machine.specs.BodyMoves.{command_move, raised, timed, at_once, link_kind};
ghost use Rattle.body_names.specs.declared.command.FlatCommand.{FlatCommand as Word};
ghost use Rattle.body_names.specs.declared.giving.FlatGiving.{FlatGiving as Grant};
ghost use Rattle.body_locals.specs.Locals.{locals_of};
ghost use Rattle.body_names.specs.Statements.{command_of, giving_of};
ghost use Rattle.body_blocks.specs.Few.{HasFewArguments};
ghost use Rattle.body_moves.specs.Chosen.{AsksObject, ChangesGreenlet, ChangesObject, DoesAs, Makes, giving_move, name_if};

use crate::evaluation::Evaluation;
use body_names::{FlatCommand, FlatExpression, FlatGiving, LocalSlot};
use body_values::Look;
use gv_values::{FaultKind, LinkKind, Outcome, Value};
use machine::request::Request;
use machine::state::Leaving;
use scenario_tree::{LinkEnd, Timed, Wait};
use std::alloc::AllocError;

/// What a move does.
#[derive(Drop)]
pub enum Chosen {
    /// It asks the hub, and the local takes the answer.
    Asks(Request, Option<LocalSlot>),
    /// It goes on in the body.
    Goes(Leaving),
    /// The local takes the value.
    Binds(LocalSlot, Value),
}

/// The wait of a statement that may have a time of `within`.
fn timed(within: Timed) -> Wait
    ensures { result ≡ timed within }
{
    match within {
        None => Wait::Block,
        Some(time) => Wait::Within(time),
    }
}

/// The wait of a statement at which `now` may stand.
fn at_once(now: bool) -> Wait
    ensures { result ≡ at_once now }
{
    if now { Wait::Now } else { Wait::Block }
}

/// The kind of a link whose function is called.
fn link_kind(end: LinkEnd) -> LinkKind
    ensures { result ≡ link_kind end }
{
    match end {
        LinkEnd::Any => LinkKind::Any,
        LinkEnd::Value => LinkKind::Value,
        LinkEnd::Fault => LinkKind::Fault,
    }
}

/// `raise`: the operand is a fault.
fn raised(value: Value) -> Leaving
    ensures { result ≡ raised value }
{
    match value {
        Value::Fault(kind) => Leaving::Raising(kind),
        _ => Leaving::Raising(FaultKind::TypeError),
    }
}

/// The value of an operand; where it has none, its fault is raised.
macro_rules! value_of {
    ($outcome:expr) => {
        match $outcome {
            Outcome::Value(value) => value,
            Outcome::Fault(kind) => return Ok(raise(kind)),
        }
    };
}

/// What the operands gave; where one has no value, its fault is raised.
macro_rules! values_of {
    ($values:expr) => {
        match $values {
            Ok(values) => values,
            Err(kind) => return Ok(raise(kind)),
        }
    };
}

/// What a statement does that gives no value. Each form has one arm, as it has one row in the definition; they stand in
/// three functions, which are proved in less time than one.
pub fn choose_command<L: Look>(
    evaluation: &Evaluation<'_, L>,
    command: &FlatCommand,
) -> Result<Chosen, AllocError>
    ensures { IfOk result (λ chosen. DoesAs evaluation.now.blocks.now.names chosen evaluation.now.locals.now (command_move (command_of evaluation.now.blocks.now.names command.now) (around evaluation.now.code.now (L.answers evaluation.now.look.now) (locals_of evaluation.now.blocks.now.names evaluation.now.locals.now)))) }
{
    match command {
        FlatCommand::Let(name, e) => Ok(Chosen::Binds(*name, value_of!(evaluation.meaning(e)?))),
        FlatCommand::Return(e) => Ok(Chosen::Goes(Leaving::Returning(value_of!(evaluation.meaning(
            e
        )?)))),
        FlatCommand::Raise(e) => Ok(Chosen::Goes(raised(value_of!(evaluation.meaning(e)?)))),
        FlatCommand::Print(e) => Ok(Chosen::Asks(
            Request::Print(value_of!(evaluation.meaning(e)?)),
            None,
        )),
        FlatCommand::Sleep(time) => Ok(Chosen::Asks(Request::Sleep(*time), None)),
        FlatCommand::ResultSet(name, e) => Ok(Chosen::Asks(
            Request::ResultSet(evaluation.object(*name), value_of!(evaluation.meaning(e)?)),
            None,
        )),
        FlatCommand::ResultFail(name, e) => Ok(Chosen::Asks(
            Request::ResultFail(evaluation.object(*name), value_of!(evaluation.meaning(e)?)),
            None,
        )),
        FlatCommand::QueuePut(name, e, wait) => Ok(Chosen::Asks(
            Request::QueuePut(
                evaluation.object(*name),
                value_of!(evaluation.meaning(e)?),
                *wait,
            ),
            None,
        )),
        FlatCommand::ChannelPut(name, e) => Ok(Chosen::Asks(
            Request::ChannelPut(evaluation.object(*name), value_of!(evaluation.meaning(e)?)),
            None,
        )),
        FlatCommand::Start(..)
        | FlatCommand::Join(..)
        | FlatCommand::Kill(..)
        | FlatCommand::KillAll(..)
        | FlatCommand::Unlink(..)
        | FlatCommand::SetParent(..) => choose_for_greenlets(evaluation, command),
        FlatCommand::Set(..)
        | FlatCommand::Clear(..)
        | FlatCommand::Release(..)
        | FlatCommand::QueueDone(..)
        | FlatCommand::QueueShut(..)
        | FlatCommand::GroupJoin(..)
        | FlatCommand::GroupKill(..) => choose_for_object(evaluation, command),
    }
}

/// What a statement does to greenlets.
fn choose_for_greenlets<L: Look>(
    evaluation: &Evaluation<'_, L>,
    command: &FlatCommand,
) -> Result<Chosen, AllocError>
    requires greenlet { ChangesGreenlet command.now }
    ensures { IfOk result (λ chosen. DoesAs evaluation.now.blocks.now.names chosen evaluation.now.locals.now (command_move (command_of evaluation.now.blocks.now.names command.now) (around evaluation.now.code.now (L.answers evaluation.now.look.now) (locals_of evaluation.now.blocks.now.names evaluation.now.locals.now)))) }
{
    match command {
        FlatCommand::Start(e) => Ok(Chosen::Asks(
            Request::Start(value_of!(evaluation.meaning(e)?)),
            None,
        )),
        FlatCommand::Join(e, within) => Ok(Chosen::Asks(
            Request::Join(value_of!(evaluation.meaning(e)?), timed(*within)),
            None,
        )),
        FlatCommand::Kill(e, fault, wait) => Ok(kill(evaluation, e, fault, *wait)?),
        FlatCommand::KillAll(e, fault, wait) => Ok(kill_all(evaluation, e, fault, *wait)?),
        FlatCommand::Unlink(e) => Ok(Chosen::Asks(
            Request::Unlink(value_of!(evaluation.meaning(e)?)),
            None,
        )),
        FlatCommand::SetParent(child, parent) => Ok(set_parent(evaluation, child, parent)?),
        // `choose_command` hands on only what does something to greenlets.
        _ => unreachable!(),
    }
}

/// What a statement does to an object to which it gives no value.
fn choose_for_object<L: Look>(
    evaluation: &Evaluation<'_, L>,
    command: &FlatCommand,
) -> Result<Chosen, AllocError>
    requires object { ChangesObject command.now }
    ensures { IfOk result (λ chosen. DoesAs evaluation.now.blocks.now.names chosen evaluation.now.locals.now (command_move (command_of evaluation.now.blocks.now.names command.now) (around evaluation.now.code.now (L.answers evaluation.now.look.now) (locals_of evaluation.now.blocks.now.names evaluation.now.locals.now)))) }
{
    match command {
        FlatCommand::Set(name) => Ok(Chosen::Asks(Request::Set(evaluation.object(*name)), None)),
        FlatCommand::Clear(name) => Ok(Chosen::Asks(
            Request::Clear(evaluation.object(*name)),
            None,
        )),
        FlatCommand::Release(name) => Ok(Chosen::Asks(
            Request::Release(evaluation.object(*name)),
            None,
        )),
        FlatCommand::QueueDone(name) => Ok(Chosen::Asks(
            Request::QueueDone(evaluation.object(*name)),
            None,
        )),
        FlatCommand::QueueShut(name, immediate) => Ok(Chosen::Asks(
            Request::QueueShut(evaluation.object(*name), *immediate),
            None,
        )),
        FlatCommand::GroupJoin(name, within) => Ok(Chosen::Asks(
            Request::GroupJoin(evaluation.object(*name), timed(*within)),
            None,
        )),
        FlatCommand::GroupKill(name, fault, now) => Ok(group_kill(evaluation, *name, fault, *now)?),
        // `choose_command` hands on only what does something to an object.
        _ => unreachable!(),
    }
}

/// A kill: the greenlet, and the fault that may stand after `with`.
fn kill<L: Look>(
    evaluation: &Evaluation<'_, L>,
    greenlet: &FlatExpression,
    fault: &Option<FlatExpression>,
    wait: Wait,
) -> Result<Chosen, AllocError>
    ensures { IfOk result (λ chosen. DoesAs evaluation.now.blocks.now.names chosen evaluation.now.locals.now (command_move (command_of evaluation.now.blocks.now.names (Word.Kill greenlet.now fault.now wait)) (around evaluation.now.code.now (L.answers evaluation.now.look.now) (locals_of evaluation.now.blocks.now.names evaluation.now.locals.now)))) }
{
    let greenlet = value_of!(evaluation.meaning(greenlet)?);
    let fault = values_of!(evaluation.optional(fault)?);
    Ok(Chosen::Asks(Request::Kill(greenlet, fault, wait), None))
}

/// A killall: the list of greenlets, and the fault that may stand after `with`.
fn kill_all<L: Look>(
    evaluation: &Evaluation<'_, L>,
    greenlets: &FlatExpression,
    fault: &Option<FlatExpression>,
    wait: Wait,
) -> Result<Chosen, AllocError>
    ensures { IfOk result (λ chosen. DoesAs evaluation.now.blocks.now.names chosen evaluation.now.locals.now (command_move (command_of evaluation.now.blocks.now.names (Word.KillAll greenlets.now fault.now wait)) (around evaluation.now.code.now (L.answers evaluation.now.look.now) (locals_of evaluation.now.blocks.now.names evaluation.now.locals.now)))) }
{
    let greenlets = value_of!(evaluation.meaning(greenlets)?);
    let fault = values_of!(evaluation.optional(fault)?);
    Ok(Chosen::Asks(Request::KillAll(greenlets, fault, wait), None))
}

/// The kill of a group, with the fault that may stand after `with`.
fn group_kill<L: Look>(
    evaluation: &Evaluation<'_, L>,
    group: u32,
    fault: &Option<FlatExpression>,
    now: bool,
) -> Result<Chosen, AllocError>
    ensures { IfOk result (λ chosen. DoesAs evaluation.now.blocks.now.names chosen evaluation.now.locals.now (command_move (command_of evaluation.now.blocks.now.names (Word.GroupKill group fault.now now)) (around evaluation.now.code.now (L.answers evaluation.now.look.now) (locals_of evaluation.now.blocks.now.names evaluation.now.locals.now)))) }
{
    let fault = values_of!(evaluation.optional(fault)?);
    Ok(Chosen::Asks(
        Request::GroupKill(evaluation.object(group), fault, at_once(now)),
        None,
    ))
}

/// A setparent: the greenlet, and the one that becomes its parent.
fn set_parent<L: Look>(
    evaluation: &Evaluation<'_, L>,
    child: &FlatExpression,
    parent: &FlatExpression,
) -> Result<Chosen, AllocError>
    ensures { IfOk result (λ chosen. DoesAs evaluation.now.blocks.now.names chosen evaluation.now.locals.now (command_move (command_of evaluation.now.blocks.now.names (Word.SetParent child.now parent.now)) (around evaluation.now.code.now (L.answers evaluation.now.look.now) (locals_of evaluation.now.blocks.now.names evaluation.now.locals.now)))) }
{
    let child = value_of!(evaluation.meaning(child)?);
    let parent = value_of!(evaluation.meaning(parent)?);
    Ok(Chosen::Asks(Request::SetParent(child, parent), None))
}

/// What a statement does that gives a value, which the local takes. Its forms stand in three functions as those of
/// `choose_command`.
pub fn choose_giving<L: Look>(
    evaluation: &Evaluation<'_, L>,
    name: Option<LocalSlot>,
    giving: &FlatGiving,
) -> Result<Chosen, AllocError>
    requires { HasFewArguments (giving_of evaluation.now.blocks.now.names giving.now) }
    ensures { IfOk result (λ chosen. DoesAs evaluation.now.blocks.now.names chosen evaluation.now.locals.now (giving_move (name_if evaluation.now.blocks.now.names name) (giving_of evaluation.now.blocks.now.names giving.now) (around evaluation.now.code.now (L.answers evaluation.now.look.now) (locals_of evaluation.now.blocks.now.names evaluation.now.locals.now)))) }
{
    match giving {
        FlatGiving::Get(e, wait) => Ok(Chosen::Asks(
            Request::Get(value_of!(evaluation.meaning(e)?), *wait),
            name,
        )),
        FlatGiving::JoinAll(e, count, within) => Ok(Chosen::Asks(
            Request::JoinAll(value_of!(evaluation.meaning(e)?), *count, timed(*within)),
            name,
        )),
        FlatGiving::Link(kind, e, function) => Ok(Chosen::Asks(
            Request::Link(
                value_of!(evaluation.meaning(e)?),
                link_kind(*kind),
                evaluation.function(*function),
            ),
            name,
        )),
        FlatGiving::LinkMark(e, mark) => Ok(Chosen::Asks(
            Request::Link(value_of!(evaluation.meaning(e)?), LinkKind::Mark(*mark), 0),
            name,
        )),
        FlatGiving::LinkSet(e, event) => Ok(Chosen::Asks(
            Request::Link(
                value_of!(evaluation.meaning(e)?),
                LinkKind::Set(evaluation.object(*event)),
                0,
            ),
            name,
        )),
        FlatGiving::Switch(e, value) => Ok(switch(evaluation, name, e, value)?),
        FlatGiving::Throw(e, fault) => Ok(throw(evaluation, name, e, fault)?),
        FlatGiving::Spawn(..)
        | FlatGiving::SpawnLater(..)
        | FlatGiving::New(..)
        | FlatGiving::GroupSpawn(..)
        | FlatGiving::Map(..)
        | FlatGiving::NativeSpawn(..)
        | FlatGiving::Raw(..) => choose_making(evaluation, name, giving),
        FlatGiving::WaitEvent(..)
        | FlatGiving::ResultGet(..)
        | FlatGiving::ResultWait(..)
        | FlatGiving::Acquire(..)
        | FlatGiving::QueueGet(..)
        | FlatGiving::QueuePeek(..)
        | FlatGiving::QueueJoin(..)
        | FlatGiving::ChannelGet(..) => choose_asking(evaluation, name, giving),
    }
}

/// What a statement does that makes greenlets or a job.
fn choose_making<L: Look>(
    evaluation: &Evaluation<'_, L>,
    name: Option<LocalSlot>,
    giving: &FlatGiving,
) -> Result<Chosen, AllocError>
    requires few { HasFewArguments (giving_of evaluation.now.blocks.now.names giving.now) }
    requires makes { Makes giving.now }
    ensures { IfOk result (λ chosen. DoesAs evaluation.now.blocks.now.names chosen evaluation.now.locals.now (giving_move (name_if evaluation.now.blocks.now.names name) (giving_of evaluation.now.blocks.now.names giving.now) (around evaluation.now.code.now (L.answers evaluation.now.look.now) (locals_of evaluation.now.blocks.now.names evaluation.now.locals.now)))) }
{
    match giving {
        FlatGiving::Spawn(function, arguments) => Ok(Chosen::Asks(
            Request::Spawn(
                evaluation.function(*function),
                values_of!(evaluation.arguments(arguments)?),
            ),
            name,
        )),
        FlatGiving::SpawnLater(time, function, arguments) => Ok(Chosen::Asks(
            Request::SpawnLater(
                *time,
                evaluation.function(*function),
                values_of!(evaluation.arguments(arguments)?),
            ),
            name,
        )),
        FlatGiving::New(function, arguments) => Ok(Chosen::Asks(
            Request::New(
                evaluation.function(*function),
                values_of!(evaluation.arguments(arguments)?),
            ),
            name,
        )),
        FlatGiving::GroupSpawn(group, function, arguments) => Ok(Chosen::Asks(
            Request::GroupSpawn(
                evaluation.object(*group),
                evaluation.function(*function),
                values_of!(evaluation.arguments(arguments)?),
            ),
            name,
        )),
        FlatGiving::Map(group, function, e) => Ok(Chosen::Asks(
            Request::Map(
                evaluation.object(*group),
                evaluation.function(*function),
                value_of!(evaluation.meaning(e)?),
            ),
            name,
        )),
        FlatGiving::NativeSpawn(pool, job, e, takes) => Ok(Chosen::Asks(
            Request::NativeSpawn(
                evaluation.object(*pool),
                *job,
                value_of!(evaluation.meaning(e)?),
                takes.unwrap_or(0),
            ),
            name,
        )),
        FlatGiving::Raw(function, e) => Ok(raw(evaluation, name, *function, e)?),
        // `choose_giving` hands on only what makes greenlets or a job.
        _ => unreachable!(),
    }
}

/// What a statement does that asks an object for what it gives.
fn choose_asking<L: Look>(
    evaluation: &Evaluation<'_, L>,
    name: Option<LocalSlot>,
    giving: &FlatGiving,
) -> Result<Chosen, AllocError>
    requires object { AsksObject giving.now }
    ensures { IfOk result (λ chosen. DoesAs evaluation.now.blocks.now.names chosen evaluation.now.locals.now (giving_move (name_if evaluation.now.blocks.now.names name) (giving_of evaluation.now.blocks.now.names giving.now) (around evaluation.now.code.now (L.answers evaluation.now.look.now) (locals_of evaluation.now.blocks.now.names evaluation.now.locals.now)))) }
{
    match giving {
        FlatGiving::WaitEvent(object, within) => Ok(Chosen::Asks(
            Request::WaitEvent(evaluation.object(*object), timed(*within)),
            name,
        )),
        FlatGiving::ResultGet(object, wait) => Ok(Chosen::Asks(
            Request::ResultGet(evaluation.object(*object), *wait),
            name,
        )),
        FlatGiving::ResultWait(object, within) => Ok(Chosen::Asks(
            Request::ResultWait(evaluation.object(*object), timed(*within)),
            name,
        )),
        FlatGiving::Acquire(object, wait) => Ok(Chosen::Asks(
            Request::Acquire(evaluation.object(*object), *wait),
            name,
        )),
        FlatGiving::QueueGet(object, wait) => Ok(Chosen::Asks(
            Request::QueueGet(evaluation.object(*object), *wait),
            name,
        )),
        FlatGiving::QueuePeek(object, wait) => Ok(Chosen::Asks(
            Request::QueuePeek(evaluation.object(*object), *wait),
            name,
        )),
        FlatGiving::QueueJoin(object, within) => Ok(Chosen::Asks(
            Request::QueueJoin(evaluation.object(*object), timed(*within)),
            name,
        )),
        FlatGiving::ChannelGet(channel) => Ok(Chosen::Asks(
            Request::ChannelGet(evaluation.object(*channel)),
            name,
        )),
        // `choose_giving` hands on only what asks an object.
        _ => unreachable!(),
    }
}

/// A raw: its function, and the parent that may stand after `under`.
fn raw<L: Look>(
    evaluation: &Evaluation<'_, L>,
    name: Option<LocalSlot>,
    function: u32,
    parent: &Option<FlatExpression>,
) -> Result<Chosen, AllocError>
    ensures { IfOk result (λ chosen. DoesAs evaluation.now.blocks.now.names chosen evaluation.now.locals.now (giving_move (name_if evaluation.now.blocks.now.names name) (giving_of evaluation.now.blocks.now.names (Grant.Raw function parent.now)) (around evaluation.now.code.now (L.answers evaluation.now.look.now) (locals_of evaluation.now.blocks.now.names evaluation.now.locals.now)))) }
{
    let parent = values_of!(evaluation.optional(parent)?);
    Ok(Chosen::Asks(Request::Raw(evaluation.function(function), parent), name))
}

/// A switch: the greenlet, and the value that it takes.
fn switch<L: Look>(
    evaluation: &Evaluation<'_, L>,
    name: Option<LocalSlot>,
    greenlet: &FlatExpression,
    value: &FlatExpression,
) -> Result<Chosen, AllocError>
    ensures { IfOk result (λ chosen. DoesAs evaluation.now.blocks.now.names chosen evaluation.now.locals.now (giving_move (name_if evaluation.now.blocks.now.names name) (giving_of evaluation.now.blocks.now.names (Grant.Switch greenlet.now value.now)) (around evaluation.now.code.now (L.answers evaluation.now.look.now) (locals_of evaluation.now.blocks.now.names evaluation.now.locals.now)))) }
{
    let greenlet = value_of!(evaluation.meaning(greenlet)?);
    let value = value_of!(evaluation.meaning(value)?);
    Ok(Chosen::Asks(Request::Switch(greenlet, value), name))
}

/// A throw: the greenlet, and the fault that may stand after `with`.
fn throw<L: Look>(
    evaluation: &Evaluation<'_, L>,
    name: Option<LocalSlot>,
    greenlet: &FlatExpression,
    fault: &Option<FlatExpression>,
) -> Result<Chosen, AllocError>
    ensures { IfOk result (λ chosen. DoesAs evaluation.now.blocks.now.names chosen evaluation.now.locals.now (giving_move (name_if evaluation.now.blocks.now.names name) (giving_of evaluation.now.blocks.now.names (Grant.Throw greenlet.now fault.now)) (around evaluation.now.code.now (L.answers evaluation.now.look.now) (locals_of evaluation.now.blocks.now.names evaluation.now.locals.now)))) }
{
    let greenlet = value_of!(evaluation.meaning(greenlet)?);
    let fault = values_of!(evaluation.optional(fault)?);
    Ok(Chosen::Asks(Request::Throw(greenlet, fault), name))
}

/// The fault is raised at the statement.
fn raise(kind: FaultKind) -> Chosen
    ensures { result ≡ choice.Goes (leaving.Raising kind) }
{
    Chosen::Goes(Leaving::Raising(kind))
}
