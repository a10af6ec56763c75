//! Declarations, and the lines that open a block.
#![tactic(auto, using(crate::proofs::Words::through))]

ghost use Rattle.std.specs.Prelude.{◌≡◌, if◌then◌else◌};
ghost use Rattle.scenario_grammar.specs.Phrase.{class_keyword, head_tokens, object_tokens, queue_keyword, size_tokens, timeout_tokens};
ghost use Rattle.scenario_grammar.specs.Token.{◌⊕◌, ◌▹◌, each, fixed, name, perhaps};
ghost use Rattle.scenario_print.specs.Written.{after_tokens, Started, Wrote, WroteLine};

use crate::part::push_flag;
use crate::start::{start_name, start_number};
use crate::word::{push_first, push_fixed, push_name, push_number};
use gv_values::{Class, Name};
use scenario_grammar::Keyword;
use scenario_tree::{Object, QueueKind};
use std::alloc::AllocError;

fn queue_word(kind: QueueKind) -> Keyword
    ensures { result ≡ queue_keyword kind }
{
    match kind {
        QueueKind::Fifo => Keyword::Fifo,
        QueueKind::Lifo => Keyword::Lifo,
        QueueKind::Priority => Keyword::Priority,
        QueueKind::Join => Keyword::Join,
    }
}

fn class_word(class: Class) -> Keyword
    ensures { result ≡ class_keyword class }
{
    match class {
        Class::Any => Keyword::Any,
        Class::Exception => Keyword::AnException,
        Class::GreenletExit => Keyword::GreenletExit,
        Class::Timeout => Keyword::ATimeout,
        Class::LoopExit => Keyword::LoopExit,
        Class::Empty => Keyword::Empty,
        Class::Full => Keyword::Full,
        Class::ShutDown => Keyword::ShutDown,
        Class::ValueError => Keyword::ValueError,
        Class::RuntimeError => Keyword::RuntimeError,
        Class::TypeError => Keyword::TypeError,
        Class::OverflowError => Keyword::OverflowError,
        Class::ZeroDivisionError => Keyword::ZeroDivisionError,
        Class::InvalidSwitch => Keyword::InvalidSwitch,
        Class::Error => Keyword::Error,
    }
}

/// The size of a queue, or `none`.
fn push_size(size: Option<u64>, out: &mut Vec<u8>) -> Result<(), AllocError>
    ensures { Wrote out.old.items out.new.items result (size_tokens size) }
{
    match size {
        None => push_fixed(Keyword::Nothing, out),
        Some(number) => push_number(number, out),
    }
}

/// The line of a declaration.
pub(crate) fn push_object(object: Object, n: &Name, out: &mut Vec<u8>) -> Result<(), AllocError>
    ensures { WroteLine out.old.items out.new.items result (object_tokens object n.now) }
{
    match object {
        Object::Event => start_name(Keyword::Event, n, out),
        Object::Result => start_name(Keyword::Result, n, out),
        Object::Semaphore(number) => {
            start_name(Keyword::Sem, n, out)?;
            push_number(number, out)
        }
        Object::BoundedSemaphore(number) => {
            start_name(Keyword::BoundedSem, n, out)?;
            push_number(number, out)
        }
        Object::Lock => start_name(Keyword::Lock, n, out),
        Object::Queue(kind, size) => {
            start_name(Keyword::Queue, n, out)?;
            push_fixed(queue_word(kind), out)?;
            push_size(size, out)
        }
        Object::Group => start_name(Keyword::Group, n, out),
        Object::Pool(number) => {
            start_name(Keyword::Pool, n, out)?;
            push_number(number, out)
        }
        Object::Native(number) => {
            start_name(Keyword::Native, n, out)?;
            push_number(number, out)
        }
        Object::Channel => start_name(Keyword::Channel, n, out),
    }
}

fn push_names(names: &[Name], out: &mut Vec<u8>) -> Result<(), AllocError>
    ensures { Wrote out.old.items out.new.items result (each name names.now) }
{
    for n in names {
        push_name(n, out)?;
    }
    Ok(())
}

fn head_word(is_raw: bool) -> Keyword
    ensures { result ≡ (if is_raw then Keyword.RawFunction else Keyword.Function) }
{
    if is_raw {
        Keyword::RawFunction
    } else {
        Keyword::Function
    }
}

/// The line that begins a function.
pub(crate) fn push_head(
    is_raw: bool,
    n: &Name,
    parameters: &[Name],
    out: &mut Vec<u8>,
) -> Result<(), AllocError>
    ensures { WroteLine out.old.items out.new.items result (head_tokens is_raw n.now parameters.now) }
{
    start_name(head_word(is_raw), n, out)?;
    push_names(parameters, out)
}

/// The line of an except.
pub(crate) fn push_except(
    class: Class,
    n: &Option<Name>,
    out: &mut Vec<u8>,
) -> Result<(), AllocError>
    ensures { WroteLine out.old.items out.new.items result (Keyword.Except ▹ fixed (class_keyword class) ⊕ perhaps name n.now) }
{
    push_first(Keyword::Except, out)?;
    push_fixed(class_word(class), out)?;
    match n {
        None => Ok(()),
        Some(n) => push_name(n, out),
    }
}

fn start_timeout(after: Option<u32>, out: &mut Vec<u8>) -> Result<(), AllocError>
    ensures { Started out.old.items out.new.items result Keyword.Timeout (after_tokens after) }
{
    match after {
        None => {
            push_first(Keyword::Timeout, out)?;
            push_fixed(Keyword::Nothing, out)
        }
        Some(ms) => start_number(Keyword::Timeout, ms, out),
    }
}

/// The line of a timeout block.
pub(crate) fn push_timeout(
    after: Option<u32>,
    is_silent: bool,
    out: &mut Vec<u8>,
) -> Result<(), AllocError>
    ensures { WroteLine out.old.items out.new.items result (timeout_tokens after is_silent) }
{
    start_timeout(after, out)?;
    push_flag(Keyword::Silent, is_silent, out)
}
