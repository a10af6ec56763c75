//! Reading the rest of a statement that gives a value.
ghost use Rattle.std.specs.Prelude.{◌-◌, length};
ghost use Rattle.scenario_grammar.specs.declared.limits.TheConstants.{MOST_MARK};
ghost use Rattle.scenario_grammar.specs.Reading.{with_at, under_at, job_kind_of, word_at, all_at, expression_at, count_of_at, number_at, takes_at, giving_by};
ghost use Rattle.scenario_lines.specs.Givings.{ReadsRawTarget, awaited_at, called_at, link_at, taken_at};
ghost use Rattle.scenario_lines.specs.Reads.{Reads};

use crate::cursor::Cursor;
use crate::expression::read_expression;
use crate::parts::{both, push_part};
use crate::refusal::LineRefusal;
use gv_values::{JobKind, MOST_ELEMENTS, Name};
use scenario_grammar::{Keyword, MOST_MARK, MOST_MS, TextReason, Token};
use scenario_tree::{Expression, Giving, Items, LinkEnd};
use std::alloc::Global;

/// What a raw link calls.
#[derive(Clone, Copy)]
enum RawTarget {
    Mark(u32),
    Event(Name),
}

/// What a function is called for.
#[derive(Clone, Copy)]
enum Call {
    Spawn,
    New,
}

/// What is taken from an object, which may be waited for.
#[derive(Clone, Copy)]
enum Taking {
    Result,
    Unit,
    Item,
    /// An item that stays in its queue.
    Peek,
}

/// What is waited for at an object.
#[derive(Clone, Copy)]
enum Awaiting {
    Event,
    Result,
    Queue,
}

/// `with` and an expression, where that stands there.
#[tactic(auto, using(crate::proofs::Unsaid::no_fault))]
pub(crate) fn with_fault(
    alloc: Global,
    cursor: &mut Cursor<'_>,
) -> Result<Option<Expression>, LineRefusal>
    ensures { Reads (with_at cursor.old) result cursor.new }
{
    if cursor.takes(Keyword::With) {
        Ok(Some(read_expression(alloc, cursor)?))
    } else {
        Ok(None)
    }
}

/// `under` and an expression, where that stands there.
#[tactic(auto, using(crate::proofs::Unsaid::no_parent))]
fn under(alloc: Global, cursor: &mut Cursor<'_>) -> Result<Option<Expression>, LineRefusal>
    ensures { Reads (under_at cursor.old) result cursor.new }
{
    if cursor.takes(Keyword::Under) {
        Ok(Some(read_expression(alloc, cursor)?))
    } else {
        Ok(None)
    }
}

/// `count` and a number, where that stands there.
#[tactic(auto, using(crate::proofs::Unsaid::no_count))]
fn count(cursor: &mut Cursor<'_>) -> Result<Option<u64>, LineRefusal>
    ensures { Reads (count_of_at cursor.old) result cursor.new }
{
    if cursor.takes(Keyword::Count) {
        Ok(Some(cursor.number(0, MOST_ELEMENTS as u64)?))
    } else {
        Ok(None)
    }
}

/// `takes` and a time in milliseconds, where that stands there.
#[tactic(auto, using(crate::proofs::Unsaid::no_cost))]
fn takes(cursor: &mut Cursor<'_>) -> Result<Option<u64>, LineRefusal>
    ensures { Reads (takes_at cursor.old) result cursor.new }
{
    if cursor.takes(Keyword::Takes) {
        Ok(Some(cursor.number(0, MOST_MS)?))
    } else {
        Ok(None)
    }
}

fn job(cursor: &mut Cursor<'_>) -> Result<JobKind, LineRefusal>
    ensures { Reads (word_at job_kind_of cursor.old) result cursor.new }
{
    match cursor.next() {
        None => Err(LineRefusal::Reason(TextReason::TooShort)),
        Some(Token::Fixed(Keyword::Sum)) => Ok(JobKind::Sum),
        Some(Token::Fixed(Keyword::Collatz)) => Ok(JobKind::Collatz),
        Some(Token::Fixed(Keyword::Fail)) => Ok(JobKind::Fail),
        Some(Token::Fixed(Keyword::Echo)) => Ok(JobKind::Echo),
        Some(_) => Err(LineRefusal::Reason(TextReason::UnknownWord)),
    }
}

/// Expressions up to the line's end.
fn arguments(alloc: Global, cursor: &mut Cursor<'_>) -> Result<Items<Expression>, LineRefusal>
    ensures { Reads (all_at expression_at cursor.old) result cursor.new }
{
    let mut arguments = Items::new(alloc);
    for _ in 0..cursor.rest.len() {
        if cursor.is_empty() {
            return Ok(arguments);
        }
        push_part(&mut arguments, read_expression(alloc, cursor))?;
    }
    Ok(arguments)
}

/// The number of a mark.
fn mark(cursor: &mut Cursor<'_>) -> Result<u32, LineRefusal>
    ensures { Reads (number_at 0 MOST_MARK cursor.old) result cursor.new }
{
    Ok(cursor.bounded(0, MOST_MARK)? as u32)
}

/// The rest of a statement that gives a value, by its word.
pub fn read_giving(
    alloc: Global,
    cursor: &mut Cursor<'_>,
    word: Keyword,
) -> Result<Giving, LineRefusal>
    ensures { Reads (giving_by word cursor.old) result cursor.new }
{
    match word {
        Keyword::Spawn => read_call(alloc, cursor, Call::Spawn),
        Keyword::SpawnLater => read_spawn_later(alloc, cursor),
        Keyword::New => read_call(alloc, cursor, Call::New),
        Keyword::Get => read_get(alloc, cursor),
        Keyword::JoinAll => read_join_all(alloc, cursor),
        Keyword::Link => read_link(alloc, cursor, LinkEnd::Any),
        Keyword::LinkValue => read_link(alloc, cursor, LinkEnd::Value),
        Keyword::LinkFault => read_link(alloc, cursor, LinkEnd::Fault),
        Keyword::RawLink => read_raw_link(alloc, cursor),
        Keyword::Wait => read_awaiting(cursor, Awaiting::Event),
        Keyword::ResultGet => read_taking(cursor, Taking::Result),
        Keyword::ResultWait => read_awaiting(cursor, Awaiting::Result),
        Keyword::Acquire => read_taking(cursor, Taking::Unit),
        Keyword::QueueGet => read_taking(cursor, Taking::Item),
        Keyword::QueuePeek => read_taking(cursor, Taking::Peek),
        Keyword::QueueJoin => read_awaiting(cursor, Awaiting::Queue),
        Keyword::GroupSpawn => read_group_spawn(alloc, cursor),
        Keyword::Map => read_map(alloc, cursor),
        Keyword::NativeSpawn => read_native_spawn(alloc, cursor),
        Keyword::Raw => read_raw(alloc, cursor),
        Keyword::Switch => read_switch(alloc, cursor),
        Keyword::Throw => read_throw(alloc, cursor),
        Keyword::ChannelGet => read_channel_get(cursor),
        _ => Err(LineRefusal::Reason(TextReason::UnknownWord)),
    }
}

/// The rest of a get.
fn read_get(alloc: Global, cursor: &mut Cursor<'_>) -> Result<Giving, LineRefusal>
    ensures { Reads (giving_by Keyword.Get cursor.old) result cursor.new }
{
    let (greenlet, wait) = both(read_expression(alloc, cursor)?, cursor.wait())?;
    Ok(Giving::Get(greenlet, wait))
}

/// The rest of a joinall.
fn read_join_all(alloc: Global, cursor: &mut Cursor<'_>) -> Result<Giving, LineRefusal>
    ensures { Reads (giving_by Keyword.JoinAll cursor.old) result cursor.new }
{
    let (greenlets, count) = both(read_expression(alloc, cursor)?, count(cursor))?;
    let (greenlets, time) = both(greenlets, cursor.timed())?;
    Ok(Giving::JoinAll(greenlets, count, time))
}

/// The rest of a switch.
fn read_switch(alloc: Global, cursor: &mut Cursor<'_>) -> Result<Giving, LineRefusal>
    ensures { Reads (giving_by Keyword.Switch cursor.old) result cursor.new }
{
    let (greenlet, value) = both(
        read_expression(alloc, cursor)?,
        read_expression(alloc, cursor),
    )?;
    Ok(Giving::Switch(greenlet, value))
}

/// The rest of a throw.
fn read_throw(alloc: Global, cursor: &mut Cursor<'_>) -> Result<Giving, LineRefusal>
    ensures { Reads (giving_by Keyword.Throw cursor.old) result cursor.new }
{
    let (greenlet, fault) = both(read_expression(alloc, cursor)?, with_fault(alloc, cursor))?;
    Ok(Giving::Throw(greenlet, fault))
}

/// The greenlet of a link to this end, and the function that it calls.
fn read_link(alloc: Global, cursor: &mut Cursor<'_>, end: LinkEnd) -> Result<Giving, LineRefusal>
    ensures { Reads (link_at end cursor.old) result cursor.new }
{
    let (greenlet, function) = both(read_expression(alloc, cursor)?, cursor.name())?;
    Ok(Giving::Link(end, greenlet, function))
}

/// The rest of a rawlink.
fn read_raw_link(alloc: Global, cursor: &mut Cursor<'_>) -> Result<Giving, LineRefusal>
    ensures { Reads (giving_by Keyword.RawLink cursor.old) result cursor.new }
{
    let (greenlet, target) = both(read_expression(alloc, cursor)?, raw_target(cursor))?;
    Ok(match target {
        RawTarget::Mark(number) => Giving::LinkMark(greenlet, number),
        RawTarget::Event(name) => Giving::LinkSet(greenlet, name),
    })
}

/// What a raw link calls: `mark` and a number, or `set` and a name.
fn raw_target(cursor: &mut Cursor<'_>) -> Result<RawTarget, LineRefusal>
    ensures { ReadsRawTarget cursor.old result cursor.new }
{
    match cursor.next() {
        None => Err(LineRefusal::Reason(TextReason::TooShort)),
        Some(Token::Fixed(Keyword::Mark)) => Ok(RawTarget::Mark(mark(cursor)?)),
        Some(Token::Fixed(Keyword::Set)) => Ok(RawTarget::Event(cursor.name()?)),
        Some(_) => Err(LineRefusal::Reason(TextReason::UnknownWord)),
    }
}

/// The object that something is taken from, and how long it is waited for.
fn read_taking(cursor: &mut Cursor<'_>, taking: Taking) -> Result<Giving, LineRefusal>
    ensures { Reads (taken_at taking cursor.old) result cursor.new }
{
    let object = cursor.name()?;
    let wait = cursor.wait()?;
    Ok(match taking {
        Taking::Result => Giving::ResultGet(object, wait),
        Taking::Unit => Giving::Acquire(object, wait),
        Taking::Item => Giving::QueueGet(object, wait),
        Taking::Peek => Giving::QueuePeek(object, wait),
    })
}

/// The object that is waited for, and for how long.
fn read_awaiting(cursor: &mut Cursor<'_>, awaiting: Awaiting) -> Result<Giving, LineRefusal>
    ensures { Reads (awaited_at awaiting cursor.old) result cursor.new }
{
    let object = cursor.name()?;
    let time = cursor.timed()?;
    Ok(match awaiting {
        Awaiting::Event => Giving::WaitEvent(object, time),
        Awaiting::Result => Giving::ResultWait(object, time),
        Awaiting::Queue => Giving::QueueJoin(object, time),
    })
}

/// The rest of a channel's get.
fn read_channel_get(cursor: &mut Cursor<'_>) -> Result<Giving, LineRefusal>
    ensures { Reads (giving_by Keyword.ChannelGet cursor.old) result cursor.new }
{
    Ok(Giving::ChannelGet(cursor.name()?))
}

/// The function that is called, and its arguments.
fn read_call(alloc: Global, cursor: &mut Cursor<'_>, call: Call) -> Result<Giving, LineRefusal>
    ensures { Reads (called_at call cursor.old) result cursor.new }
{
    let function = cursor.name()?;
    let arguments = arguments(alloc, cursor)?;
    Ok(match call {
        Call::Spawn => Giving::Spawn(function, arguments),
        Call::New => Giving::New(function, arguments),
    })
}

/// The rest of a spawnlater.
fn read_spawn_later(alloc: Global, cursor: &mut Cursor<'_>) -> Result<Giving, LineRefusal>
    ensures { Reads (giving_by Keyword.SpawnLater cursor.old) result cursor.new }
{
    Ok(Giving::SpawnLater(cursor.time()?, cursor.name()?, arguments(alloc, cursor)?))
}

/// The rest of a group's spawn.
fn read_group_spawn(alloc: Global, cursor: &mut Cursor<'_>) -> Result<Giving, LineRefusal>
    ensures { Reads (giving_by Keyword.GroupSpawn cursor.old) result cursor.new }
{
    Ok(Giving::GroupSpawn(cursor.name()?, cursor.name()?, arguments(alloc, cursor)?))
}

/// The rest of a map.
fn read_map(alloc: Global, cursor: &mut Cursor<'_>) -> Result<Giving, LineRefusal>
    ensures { Reads (giving_by Keyword.Map cursor.old) result cursor.new }
{
    Ok(Giving::Map(
        cursor.name()?,
        cursor.name()?,
        read_expression(alloc, cursor)?,
    ))
}

/// The rest of a statement that posts a job.
fn read_native_spawn(alloc: Global, cursor: &mut Cursor<'_>) -> Result<Giving, LineRefusal>
    ensures { Reads (giving_by Keyword.NativeSpawn cursor.old) result cursor.new }
{
    let pool = cursor.name()?;
    let kind = job(cursor)?;
    let (input, cost) = both(read_expression(alloc, cursor)?, takes(cursor))?;
    Ok(Giving::NativeSpawn(pool, kind, input, cost))
}

/// The rest of a raw.
fn read_raw(alloc: Global, cursor: &mut Cursor<'_>) -> Result<Giving, LineRefusal>
    ensures { Reads (giving_by Keyword.Raw cursor.old) result cursor.new }
{
    Ok(Giving::Raw(cursor.name()?, under(alloc, cursor)?))
}
