//! Statements that give a value.
#![tactic(auto, using(crate::proofs::Words::through))]

ghost use Rattle.std.specs.Prelude.{◌≡◌, ◌++◌, codes};
ghost use Rattle.scenario_grammar.specs.Expressions.{expression};
ghost use Rattle.scenario_grammar.specs.Phrase.{giving_tokens, job_keyword, link_keyword, target_tokens};
ghost use Rattle.scenario_grammar.specs.Token.{◌⊕◌, each, name, perhaps};
ghost use Rattle.scenario_print.specs.Written.{Appended, Started, WroteLine};

use crate::expression::{push_expression, push_expressions};
use crate::part::{push_count, push_marked, push_takes, push_timed, push_wait};
use crate::start::{
    start_expression, start_expressions, start_name, start_name_expression, start_name_timed,
    start_name_wait, start_number,
};
use crate::word::{push_fixed, push_name, push_number};
use gv_values::{JobKind, Name};
use scenario_grammar::Keyword;
use scenario_tree::{Expression, Giving, Items, LinkEnd};
use std::alloc::AllocError;

fn link_word(kind: LinkEnd) -> Keyword
    ensures { result ≡ link_keyword kind }
{
    match kind {
        LinkEnd::Any => Keyword::Link,
        LinkEnd::Value => Keyword::LinkValue,
        LinkEnd::Fault => Keyword::LinkFault,
    }
}

fn job_word(kind: JobKind) -> Keyword
    ensures { result ≡ job_keyword kind }
{
    match kind {
        JobKind::Sum => Keyword::Sum,
        JobKind::Collatz => Keyword::Collatz,
        JobKind::Fail => Keyword::Fail,
        JobKind::Echo => Keyword::Echo,
    }
}

/// A call of a function with its arguments.
fn start_call(
    word: Keyword,
    function: &Name,
    arguments: &Items<Expression>,
    out: &mut Vec<u8>,
) -> Result<(), AllocError>
    ensures { Started out.old.items out.new.items result word (name function.now ⊕ each expression arguments.now) }
{
    start_name(word, function, out)?;
    push_expressions(arguments, out)
}

/// The words of a statement that gives a value. It has one arm a form, as the grammar has one row, and so is longer than
/// a screen: forms in groups would be a second table, of which is in which.
pub(crate) fn push_giving(giving: &Giving, out: &mut Vec<u8>) -> Result<(), AllocError>
    ensures { WroteLine out.old.items out.new.items result (giving_tokens giving.now) }
{
    match giving {
        Giving::Spawn(f, arguments) => start_call(Keyword::Spawn, f, arguments, out),
        Giving::SpawnLater(ms, f, arguments) => {
            start_number(Keyword::SpawnLater, *ms, out)?;
            push_name(f, out)?;
            push_expressions(arguments, out)
        }
        Giving::New(f, arguments) => start_call(Keyword::New, f, arguments, out),
        Giving::Get(e, wait) => {
            start_expression(Keyword::Get, e, out)?;
            push_wait(*wait, out)
        }
        Giving::JoinAll(e, count, time) => {
            start_expression(Keyword::JoinAll, e, out)?;
            push_count(*count, out)?;
            push_timed(*time, out)
        }
        Giving::Link(kind, e, f) => {
            start_expression(link_word(*kind), e, out)?;
            push_name(f, out)
        }
        Giving::LinkMark(e, mark) => {
            start_expression(Keyword::RawLink, e, out)?;
            push_fixed(Keyword::Mark, out)?;
            push_number(u64::from(*mark), out)
        }
        Giving::LinkSet(e, n) => {
            start_expression(Keyword::RawLink, e, out)?;
            push_fixed(Keyword::Set, out)?;
            push_name(n, out)
        }
        Giving::WaitEvent(n, time) => start_name_timed(Keyword::Wait, n, *time, out),
        Giving::ResultGet(n, wait) => start_name_wait(Keyword::ResultGet, n, *wait, out),
        Giving::ResultWait(n, time) => start_name_timed(Keyword::ResultWait, n, *time, out),
        Giving::Acquire(n, wait) => start_name_wait(Keyword::Acquire, n, *wait, out),
        Giving::QueueGet(n, wait) => start_name_wait(Keyword::QueueGet, n, *wait, out),
        Giving::QueuePeek(n, wait) => start_name_wait(Keyword::QueuePeek, n, *wait, out),
        Giving::QueueJoin(n, time) => start_name_timed(Keyword::QueueJoin, n, *time, out),
        Giving::GroupSpawn(group, f, arguments) => {
            start_name(Keyword::GroupSpawn, group, out)?;
            push_name(f, out)?;
            push_expressions(arguments, out)
        }
        Giving::Map(group, f, e) => {
            start_name(Keyword::Map, group, out)?;
            push_name(f, out)?;
            push_expression(e, out)
        }
        Giving::NativeSpawn(pool, kind, e, time) => {
            start_name(Keyword::NativeSpawn, pool, out)?;
            push_fixed(job_word(*kind), out)?;
            push_expression(e, out)?;
            push_takes(*time, out)
        }
        Giving::Raw(f, parent) => {
            start_name(Keyword::Raw, f, out)?;
            push_marked(Keyword::Under, parent, out)
        }
        Giving::Switch(e, value) => start_expressions(Keyword::Switch, e, value, out),
        Giving::Throw(e, fault) => {
            start_expression(Keyword::Throw, e, out)?;
            push_marked(Keyword::With, fault, out)
        }
        Giving::ChannelGet(n) => start_name(Keyword::ChannelGet, n, out),
    }
}

/// The name that takes the value, and `<-`.
fn push_target(n: &Name, out: &mut Vec<u8>) -> Result<(), AllocError>
    ensures { Appended out.old.items out.new.items result (n.now ++ codes " <- ") }
{
    out.extend_from_slice(n.bytes())?;
    out.extend_from_slice(b" <- ")
}

/// The words of a statement that gives a value, behind the name that takes it where there is one.
pub(crate) fn push_given(
    target: &Option<Name>,
    giving: &Giving,
    out: &mut Vec<u8>,
) -> Result<(), AllocError>
    ensures { WroteLine out.old.items out.new.items result (perhaps target_tokens target.now ⊕ giving_tokens giving.now) }
{
    match target {
        None => push_giving(giving, out),
        Some(n) => {
            push_target(n, out)?;
            push_giving(giving, out)
        }
    }
}
