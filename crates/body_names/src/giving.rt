//! Statements that give a value.
ghost use Rattle.std.specs.Prelude.{◌≡◌, ◌++◌, List, IfOk};
ghost use Rattle.gv_values.specs.declared.name.Name.{Name as Word};
ghost use Rattle.body_names.specs.Naming.{Grows, IsKept};
ghost use Rattle.body_names.specs.Statements.{AsksObject, Makes, giving_of};

use crate::expression::{FlatExpression, flat_expression};
use crate::naming::Naming;
use crate::operands::{
    expression_expression, expression_name, expression_optional, name_expression, name_items,
    name_optional,
};
use gv_values::JobKind;
use scenario_tree::{Giving, Items, LinkEnd, Wait};
use std::alloc::{AllocError, Global};

/// A statement of one line that gives a value, with numbers in place of names.
#[derive(Drop)]
pub enum FlatGiving {
    Spawn(u32, Items<FlatExpression>),
    SpawnLater(u32, u32, Items<FlatExpression>),
    New(u32, Items<FlatExpression>),
    Get(FlatExpression, Wait),
    /// The number stands after `count`.
    JoinAll(FlatExpression, Option<u64>, Option<u32>),
    Link(LinkEnd, FlatExpression, u32),
    LinkMark(FlatExpression, u32),
    LinkSet(FlatExpression, u32),
    WaitEvent(u32, Option<u32>),
    ResultGet(u32, Wait),
    ResultWait(u32, Option<u32>),
    Acquire(u32, Wait),
    QueueGet(u32, Wait),
    QueuePeek(u32, Wait),
    QueueJoin(u32, Option<u32>),
    GroupSpawn(u32, u32, Items<FlatExpression>),
    Map(u32, u32, FlatExpression),
    /// The time stands after `takes`.
    NativeSpawn(u32, JobKind, FlatExpression, Option<u64>),
    /// The greenlet stands after `under`.
    Raw(u32, Option<FlatExpression>),
    Switch(FlatExpression, FlatExpression),
    /// The fault stands after `with`.
    Throw(FlatExpression, Option<FlatExpression>),
    ChannelGet(u32),
}

/// The statement with numbers. `AllocError`: memory is wanting. Its forms stand in three functions, which are proved in
/// less time than one.
pub fn flat_giving(
    alloc: Global,
    naming: &mut Naming,
    giving: &Giving,
) -> Result<FlatGiving, AllocError>
    requires kept { IsKept naming.old.numbers naming.old.names }
    ensures kept { IfOk result (λ _. IsKept naming.new.numbers naming.new.names) }
    ensures grows { IfOk result (λ _. Grows naming.old.names naming.new.names) }
    ensures same { IfOk result (λ g. (more : List Word) → giving_of (naming.new.names ++ more) g ≡ giving.now) }
{
    match giving {
        Giving::Get(a, b) => Ok(FlatGiving::Get(got!(flat_expression(alloc, naming, a)), *b)),
        Giving::JoinAll(a, b, c) => Ok(FlatGiving::JoinAll(
            got!(flat_expression(alloc, naming, a)),
            *b,
            *c,
        )),
        Giving::Link(a, b, c) => {
            let (b, c) = got!(expression_name(alloc, naming, b, c));
            Ok(FlatGiving::Link(*a, b, c))
        }
        Giving::LinkMark(a, b) => Ok(FlatGiving::LinkMark(
            got!(flat_expression(alloc, naming, a)),
            *b,
        )),
        Giving::LinkSet(a, b) => {
            let (a, b) = got!(expression_name(alloc, naming, a, b));
            Ok(FlatGiving::LinkSet(a, b))
        }
        Giving::Switch(a, b) => {
            let (a, b) = got!(expression_expression(alloc, naming, a, b));
            Ok(FlatGiving::Switch(a, b))
        }
        Giving::Throw(a, b) => {
            let (a, b) = got!(expression_optional(alloc, naming, a, b));
            Ok(FlatGiving::Throw(a, b))
        }
        Giving::Spawn(..)
        | Giving::SpawnLater(..)
        | Giving::New(..)
        | Giving::GroupSpawn(..)
        | Giving::Map(..)
        | Giving::NativeSpawn(..)
        | Giving::Raw(..) => flat_making(alloc, naming, giving),
        Giving::WaitEvent(..)
        | Giving::ResultGet(..)
        | Giving::ResultWait(..)
        | Giving::Acquire(..)
        | Giving::QueueGet(..)
        | Giving::QueuePeek(..)
        | Giving::QueueJoin(..)
        | Giving::ChannelGet(..) => flat_object_giving(alloc, naming, giving),
    }
}

/// The statement makes greenlets or a job.
fn flat_making(
    alloc: Global,
    naming: &mut Naming,
    giving: &Giving,
) -> Result<FlatGiving, AllocError>
    requires kept { IsKept naming.old.numbers naming.old.names }
    requires makes { Makes giving.now }
    ensures kept { IfOk result (λ _. IsKept naming.new.numbers naming.new.names) }
    ensures grows { IfOk result (λ _. Grows naming.old.names naming.new.names) }
    ensures same { IfOk result (λ g. (more : List Word) → giving_of (naming.new.names ++ more) g ≡ giving.now) }
{
    match giving {
        Giving::Spawn(a, b) => {
            let (a, b) = got!(name_items(alloc, naming, a, b));
            Ok(FlatGiving::Spawn(a, b))
        }
        Giving::SpawnLater(a, b, c) => {
            let (b, c) = got!(name_items(alloc, naming, b, c));
            Ok(FlatGiving::SpawnLater(*a, b, c))
        }
        Giving::New(a, b) => {
            let (a, b) = got!(name_items(alloc, naming, a, b));
            Ok(FlatGiving::New(a, b))
        }
        Giving::GroupSpawn(a, b, c) => {
            let a = got!(naming.number(alloc, a));
            let (b, c) = got!(name_items(alloc, naming, b, c));
            Ok(FlatGiving::GroupSpawn(a, b, c))
        }
        Giving::Map(a, b, c) => {
            let a = got!(naming.number(alloc, a));
            let (b, c) = got!(name_expression(alloc, naming, b, c));
            Ok(FlatGiving::Map(a, b, c))
        }
        Giving::NativeSpawn(a, b, c, d) => {
            let (a, c) = got!(name_expression(alloc, naming, a, c));
            Ok(FlatGiving::NativeSpawn(a, *b, c, *d))
        }
        Giving::Raw(a, b) => {
            let (a, b) = got!(name_optional(alloc, naming, a, b));
            Ok(FlatGiving::Raw(a, b))
        }
        // `flat_giving` hands on only what makes greenlets or a job.
        _ => unreachable!(),
    }
}

/// The statement asks an object for what it gives.
fn flat_object_giving(
    alloc: Global,
    naming: &mut Naming,
    giving: &Giving,
) -> Result<FlatGiving, AllocError>
    requires kept { IsKept naming.old.numbers naming.old.names }
    requires object { AsksObject giving.now }
    ensures kept { IfOk result (λ _. IsKept naming.new.numbers naming.new.names) }
    ensures grows { IfOk result (λ _. Grows naming.old.names naming.new.names) }
    ensures same { IfOk result (λ g. (more : List Word) → giving_of (naming.new.names ++ more) g ≡ giving.now) }
{
    match giving {
        Giving::WaitEvent(a, b) => Ok(FlatGiving::WaitEvent(got!(naming.number(alloc, a)), *b)),
        Giving::ResultGet(a, b) => Ok(FlatGiving::ResultGet(got!(naming.number(alloc, a)), *b)),
        Giving::ResultWait(a, b) => Ok(FlatGiving::ResultWait(got!(naming.number(alloc, a)), *b)),
        Giving::Acquire(a, b) => Ok(FlatGiving::Acquire(got!(naming.number(alloc, a)), *b)),
        Giving::QueueGet(a, b) => Ok(FlatGiving::QueueGet(got!(naming.number(alloc, a)), *b)),
        Giving::QueuePeek(a, b) => Ok(FlatGiving::QueuePeek(got!(naming.number(alloc, a)), *b)),
        Giving::QueueJoin(a, b) => Ok(FlatGiving::QueueJoin(got!(naming.number(alloc, a)), *b)),
        Giving::ChannelGet(a) => Ok(FlatGiving::ChannelGet(got!(naming.number(alloc, a)))),
        // `flat_giving` hands on only what asks an object.
        _ => unreachable!(),
    }
}
