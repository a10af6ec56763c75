//! Reading what a line says.
ghost use Rattle.std.specs.Prelude.{◌≡◌, Ok, Some, if◌then◌else◌};
ghost use Rattle.scenario_grammar.specs.declared.limits.TheConstants.{MOST_MS};
ghost use Rattle.scenario_grammar.specs.Reading.{number_at, after_at, all_at, binding_at, class_at, fault_class_of, given_at, giving_at, immediate_at, name_at, now_at, phrase_by, phrase_of, queue_of, silent_at, size_at, unmarked_at, word_at, is_given};
ghost use Rattle.scenario_lines.specs.Parts.{Makes};
ghost use Rattle.scenario_lines.specs.Phrases.{killed_at, said_at};
ghost use Rattle.scenario_lines.specs.Reads.{IsBoxed, Reads, ReadsWhole};
ghost use Rattle.scenario_lines.specs.Kinds.{kind_by};
ghost use Rattle.scenario_lines.specs.Taken.{some_number_at};

use crate::cursor::Cursor;
use crate::expression::read_expression;
use crate::giving::{read_giving, with_fault};
use crate::kind::{LineKind, line_kind};
use crate::parts::{both, push_part};
use crate::refusal::LineRefusal;
use gv_values::{Class, Name};
use scenario_grammar::{
    Keyword, MOST_POOL_PLACES, MOST_QUEUE_PLACES, MOST_SLOTS, MOST_UNITS, Phrase, TextReason, Token,
};
use scenario_tree::{Boxed, Command, Giving, Items, Object, QueueKind};
use std::alloc::Global;

/// What a line says of its one expression.
#[derive(Clone, Copy)]
enum Said {
    If,
    While,
    Print,
    Return,
    Raise,
    Start,
    Unlink,
}

/// Whom a line kills: one greenlet, or all of a list.
#[derive(Clone, Copy)]
enum Killed {
    One,
    All,
}

/// What the line of these tokens says.
///
/// # Errors
///
/// `Reason` where it says nothing, for the first word that shows it; `Memory` where memory ran out.
pub fn read_phrase(alloc: Global, tokens: &[Token]) -> Result<Boxed<Phrase>, LineRefusal>
    ensures { ReadsWhole (phrase_of tokens.now) result }
{
    let mut cursor = Cursor::new(tokens);
    match boxed(alloc, read_line(alloc, &mut cursor, is_given_line(tokens))) {
        Err(refusal) => Err(refusal),
        Ok(phrase) => {
            if cursor.is_empty() {
                Ok(phrase)
            } else {
                Err(LineRefusal::Reason(TextReason::TooLong))
            }
        }
    }
}

/// What was read, in a box of its own.
fn boxed<T: Drop>(alloc: Global, read: Result<T, LineRefusal>) -> Result<Boxed<T>, LineRefusal>
    ensures { IsBoxed read result }
{
    match read {
        Ok(value) => Ok(Boxed::new(alloc, value)?),
        Err(refusal) => Err(refusal),
    }
}

/// Whether the second word is `<-`.
#[tactic(auto, using(crate::proofs::Arrow::is_arrow_second))]
pub fn is_given_line(tokens: &[Token]) -> bool
    ensures { result ≡ is_given tokens.now }
{
    let mut cursor = Cursor::new(tokens);
    match cursor.next() {
        None => false,
        Some(_) => cursor.takes(Keyword::Arrow),
    }
}

fn read_line(
    alloc: Global,
    cursor: &mut Cursor<'_>,
    is_given_to_name: bool,
) -> Result<Phrase, LineRefusal>
    ensures { Reads (if is_given_to_name then given_at cursor.old else unmarked_at cursor.old) result cursor.new }
{
    if is_given_to_name {
        read_given(alloc, cursor)
    } else {
        read_unmarked(alloc, cursor)
    }
}

/// A line whose second word is `<-`.
fn read_given(alloc: Global, cursor: &mut Cursor<'_>) -> Result<Phrase, LineRefusal>
    ensures { Reads (given_at cursor.old) result cursor.new }
{
    let name = cursor.name()?;
    if cursor.next().is_none() {
        return Err(LineRefusal::Reason(TextReason::TooShort));
    }
    match cursor.next() {
        None => Err(LineRefusal::Reason(TextReason::TooShort)),
        Some(Token::Fixed(word)) => given_to(Some(name), read_giving(alloc, cursor, *word)),
        Some(_) => Err(LineRefusal::Reason(TextReason::UnknownWord)),
    }
}

/// The line whose value this name takes, where it has one.
fn given_to(name: Option<Name>, giving: Result<Giving, LineRefusal>) -> Result<Phrase, LineRefusal>
    ensures { Makes (Phrase.Giving name) giving result }
{
    match giving {
        Ok(giving) => Ok(Phrase::Giving(name, giving)),
        Err(refusal) => Err(refusal),
    }
}

fn read_unmarked(alloc: Global, cursor: &mut Cursor<'_>) -> Result<Phrase, LineRefusal>
    ensures { Reads (unmarked_at cursor.old) result cursor.new }
{
    match cursor.next() {
        None => Err(LineRefusal::Reason(TextReason::TooShort)),
        Some(Token::Fixed(word)) => read_by_word(alloc, cursor, *word),
        Some(_) => Err(LineRefusal::Reason(TextReason::UnknownWord)),
    }
}

fn queue_kind(cursor: &mut Cursor<'_>) -> Result<QueueKind, LineRefusal>
    ensures { Reads (word_at queue_of cursor.old) result cursor.new }
{
    match cursor.next() {
        None => Err(LineRefusal::Reason(TextReason::TooShort)),
        Some(Token::Fixed(Keyword::Fifo)) => Ok(QueueKind::Fifo),
        Some(Token::Fixed(Keyword::Lifo)) => Ok(QueueKind::Lifo),
        Some(Token::Fixed(Keyword::Priority)) => Ok(QueueKind::Priority),
        Some(Token::Fixed(Keyword::Join)) => Ok(QueueKind::Join),
        Some(_) => Err(LineRefusal::Reason(TextReason::UnknownWord)),
    }
}

/// The size of a queue, or `none`.
#[tactic(auto, using(crate::proofs::Unsaid::size_other))]
fn size(cursor: &mut Cursor<'_>) -> Result<Option<u64>, LineRefusal>
    ensures { Reads (size_at cursor.old) result cursor.new }
{
    if cursor.takes(Keyword::Nothing) {
        return Ok(None);
    }
    some_number(cursor, 1, MOST_QUEUE_PLACES)
}

/// A number of this range.
fn some_number(
    cursor: &mut Cursor<'_>,
    least: u64,
    greatest: u64,
) -> Result<Option<u64>, LineRefusal>
    ensures { Reads (some_number_at least greatest cursor.old) result cursor.new }
{
    Ok(Some(cursor.number(least, greatest)?))
}

fn class(cursor: &mut Cursor<'_>) -> Result<Class, LineRefusal>
    ensures { Reads (class_at cursor.old) result cursor.new }
{
    match cursor.next() {
        None => Err(LineRefusal::Reason(TextReason::TooShort)),
        Some(Token::Fixed(word)) => class_by(*word).ok_or(LineRefusal::Reason(
            TextReason::UnknownWord,
        )),
        Some(_) => Err(LineRefusal::Reason(TextReason::UnknownWord)),
    }
}

fn class_by(word: Keyword) -> Option<Class>
    ensures { result ≡ fault_class_of word }
{
    match word {
        Keyword::Any => Some(Class::Any),
        Keyword::AnException => Some(Class::Exception),
        Keyword::GreenletExit => Some(Class::GreenletExit),
        Keyword::ATimeout => Some(Class::Timeout),
        Keyword::LoopExit => Some(Class::LoopExit),
        Keyword::Empty => Some(Class::Empty),
        Keyword::Full => Some(Class::Full),
        Keyword::ShutDown => Some(Class::ShutDown),
        Keyword::ValueError => Some(Class::ValueError),
        Keyword::RuntimeError => Some(Class::RuntimeError),
        Keyword::TypeError => Some(Class::TypeError),
        Keyword::OverflowError => Some(Class::OverflowError),
        Keyword::ZeroDivisionError => Some(Class::ZeroDivisionError),
        Keyword::InvalidSwitch => Some(Class::InvalidSwitch),
        Keyword::Error => Some(Class::Error),
        _ => None,
    }
}

/// The name of an except, if the line goes on.
fn binding(cursor: &mut Cursor<'_>) -> Result<Option<Name>, LineRefusal>
    ensures { Reads (binding_at cursor.old) result cursor.new }
{
    match cursor.rest {
        [] => Ok(None),
        _ => Ok(Some(cursor.name()?)),
    }
}

/// The time of a timeout block, or `none`.
#[tactic(auto, using(crate::proofs::Unsaid::after_other))]
fn after(cursor: &mut Cursor<'_>) -> Result<Option<u32>, LineRefusal>
    ensures { Reads (after_at cursor.old) result cursor.new }
{
    if cursor.takes(Keyword::Nothing) {
        return Ok(None);
    }
    some_time(cursor)
}

/// A time.
fn some_time(cursor: &mut Cursor<'_>) -> Result<Option<u32>, LineRefusal>
    ensures { Reads (some_number_at 0 MOST_MS cursor.old) result cursor.new }
{
    Ok(Some(cursor.time()?))
}

/// Whether `silent` stands there.
#[tactic(auto, using(crate::proofs::Unsaid::is_silent))]
fn silent(cursor: &mut Cursor<'_>) -> bool
    ensures { silent_at cursor.old ≡ Ok (result, cursor.new) }
{
    cursor.takes(Keyword::Silent)
}

/// Whether `now` stands there.
#[tactic(auto, using(crate::proofs::Unsaid::is_now))]
fn now(cursor: &mut Cursor<'_>) -> bool
    ensures { now_at cursor.old ≡ Ok (result, cursor.new) }
{
    cursor.takes(Keyword::Now)
}

/// Whether `immediate` stands there.
#[tactic(auto, using(crate::proofs::Unsaid::is_immediate))]
fn immediate(cursor: &mut Cursor<'_>) -> bool
    ensures { immediate_at cursor.old ≡ Ok (result, cursor.new) }
{
    cursor.takes(Keyword::Immediate)
}

/// Names up to the line's end.
fn parameters(alloc: Global, cursor: &mut Cursor<'_>) -> Result<Items<Name>, LineRefusal>
    ensures { Reads (all_at name_at cursor.old) result cursor.new }
{
    let mut parameters = Items::new(alloc);
    for _ in 0..cursor.rest.len() {
        if cursor.is_empty() {
            return Ok(parameters);
        }
        push_part(&mut parameters, cursor.name())?;
    }
    Ok(parameters)
}

/// `profile` names one of the profiles that have such a line.
fn read_profile(cursor: &mut Cursor<'_>) -> Result<Phrase, LineRefusal>
    ensures { Reads (phrase_by Keyword.Profile cursor.old) result cursor.new }
{
    let profile = cursor.bounded(2, 3)?;
    Ok(Phrase::Profile(profile as u8))
}

/// The name of a function, and its parameters.
fn read_function(alloc: Global, cursor: &mut Cursor<'_>) -> Result<Phrase, LineRefusal>
    ensures { Reads (phrase_by Keyword.Function cursor.old) result cursor.new }
{
    Ok(Phrase::Function(false, cursor.name()?, parameters(alloc, cursor)?))
}

/// `rawdef` has exactly one parameter.
fn raw_function(alloc: Global, cursor: &mut Cursor<'_>) -> Result<Phrase, LineRefusal>
    ensures { Reads (phrase_by Keyword.RawFunction cursor.old) result cursor.new }
{
    let name = cursor.name()?;
    let parameter = cursor.name()?;
    let mut parameters = Items::new(alloc);
    parameters.push(parameter)?;
    Ok(Phrase::Function(true, name, parameters))
}

/// The rest of a line, by its first word.
fn read_by_word(
    alloc: Global,
    cursor: &mut Cursor<'_>,
    word: Keyword,
) -> Result<Phrase, LineRefusal>
    ensures { Reads (phrase_by word cursor.old) result cursor.new }
{
    match line_kind(word) {
        LineKind::Declaration => read_declaration(cursor, word),
        LineKind::Block => read_block(alloc, cursor, word),
        LineKind::Command => read_command(alloc, cursor, word),
        LineKind::ObjectCommand => read_object_command(alloc, cursor, word),
        LineKind::Other => given_to(None, read_giving(alloc, cursor, word)),
    }
}

/// The rest of a declaration.
fn read_declaration(cursor: &mut Cursor<'_>, word: Keyword) -> Result<Phrase, LineRefusal>
    requires { kind_by word ≡ LineKind.Declaration }
    ensures { Reads (phrase_by word cursor.old) result cursor.new }
{
    let name = cursor.name()?;
    match word {
        Keyword::Event => Ok(Phrase::Declaration(name, Object::Event)),
        Keyword::Result => Ok(Phrase::Declaration(name, Object::Result)),
        Keyword::Sem => Ok(Phrase::Declaration(
            name,
            Object::Semaphore(cursor.number(0, MOST_UNITS)?),
        )),
        Keyword::BoundedSem => Ok(Phrase::Declaration(
            name,
            Object::BoundedSemaphore(cursor.number(0, MOST_UNITS)?),
        )),
        Keyword::Lock => Ok(Phrase::Declaration(name, Object::Lock)),
        Keyword::Queue => Ok(Phrase::Declaration(
            name,
            Object::Queue(queue_kind(cursor)?, size(cursor)?),
        )),
        Keyword::Group => Ok(Phrase::Declaration(name, Object::Group)),
        Keyword::Pool => Ok(Phrase::Declaration(
            name,
            Object::Pool(cursor.number(1, MOST_POOL_PLACES)?),
        )),
        Keyword::Native => Ok(Phrase::Declaration(
            name,
            Object::Native(cursor.number(1, MOST_SLOTS)?),
        )),
        Keyword::Channel => Ok(Phrase::Declaration(name, Object::Channel)),
        _ => Err(LineRefusal::Reason(TextReason::UnknownWord)),
    }
}

/// The rest of a line that names the profile, or opens, parts or ends a block.
fn read_block(alloc: Global, cursor: &mut Cursor<'_>, word: Keyword) -> Result<Phrase, LineRefusal>
    requires { kind_by word ≡ LineKind.Block }
    ensures { Reads (phrase_by word cursor.old) result cursor.new }
{
    match word {
        Keyword::Profile => read_profile(cursor),
        Keyword::Function => read_function(alloc, cursor),
        Keyword::RawFunction => raw_function(alloc, cursor),
        Keyword::If => read_said(alloc, cursor, Said::If),
        Keyword::Else => Ok(Phrase::Else),
        Keyword::While => read_said(alloc, cursor, Said::While),
        Keyword::Try => Ok(Phrase::Try),
        Keyword::Except => Ok(Phrase::Except(class(cursor)?, binding(cursor)?)),
        Keyword::Finally => Ok(Phrase::Finally),
        Keyword::Timeout => Ok(Phrase::Timeout(after(cursor)?, silent(cursor))),
        Keyword::End => Ok(Phrase::End),
        _ => Err(LineRefusal::Reason(TextReason::UnknownWord)),
    }
}

/// The rest of a statement that gives no value and begins with no object.
fn read_command(
    alloc: Global,
    cursor: &mut Cursor<'_>,
    word: Keyword,
) -> Result<Phrase, LineRefusal>
    requires { kind_by word ≡ LineKind.Command }
    ensures { Reads (phrase_by word cursor.old) result cursor.new }
{
    match word {
        Keyword::Print => read_said(alloc, cursor, Said::Print),
        Keyword::Let => read_let(alloc, cursor),
        Keyword::Return => read_said(alloc, cursor, Said::Return),
        Keyword::Raise => read_said(alloc, cursor, Said::Raise),
        Keyword::Start => read_said(alloc, cursor, Said::Start),
        Keyword::Sleep => Ok(Phrase::Command(Command::Sleep(cursor.time()?))),
        Keyword::Join => read_join(alloc, cursor),
        Keyword::Kill => read_kill(alloc, cursor, Killed::One),
        Keyword::KillAll => read_kill(alloc, cursor, Killed::All),
        Keyword::Unlink => read_said(alloc, cursor, Said::Unlink),
        Keyword::SetParent => read_set_parent(alloc, cursor),
        _ => Err(LineRefusal::Reason(TextReason::UnknownWord)),
    }
}

/// The rest of a line that says this of an expression, and no more.
fn read_said(alloc: Global, cursor: &mut Cursor<'_>, said: Said) -> Result<Phrase, LineRefusal>
    ensures { Reads (said_at said cursor.old) result cursor.new }
{
    let e = read_expression(alloc, cursor)?;
    Ok(match said {
        Said::If => Phrase::If(e),
        Said::While => Phrase::While(e),
        Said::Print => Phrase::Command(Command::Print(e)),
        Said::Return => Phrase::Command(Command::Return(e)),
        Said::Raise => Phrase::Command(Command::Raise(e)),
        Said::Start => Phrase::Command(Command::Start(e)),
        Said::Unlink => Phrase::Command(Command::Unlink(e)),
    })
}

/// The rest of a let.
fn read_let(alloc: Global, cursor: &mut Cursor<'_>) -> Result<Phrase, LineRefusal>
    ensures { Reads (phrase_by Keyword.Let cursor.old) result cursor.new }
{
    Ok(Phrase::Command(Command::Let(cursor.name()?, read_expression(alloc, cursor)?)))
}

/// The rest of a join.
fn read_join(alloc: Global, cursor: &mut Cursor<'_>) -> Result<Phrase, LineRefusal>
    ensures { Reads (phrase_by Keyword.Join cursor.old) result cursor.new }
{
    let (greenlet, time) = both(read_expression(alloc, cursor)?, cursor.timed())?;
    Ok(Phrase::Command(Command::Join(greenlet, time)))
}

/// The rest of a kill of one greenlet, or of a list of them.
fn read_kill(alloc: Global, cursor: &mut Cursor<'_>, killed: Killed) -> Result<Phrase, LineRefusal>
    ensures { Reads (killed_at killed cursor.old) result cursor.new }
{
    let faulted = both(read_expression(alloc, cursor)?, with_fault(alloc, cursor))?;
    let ((victims, fault), wait) = both(faulted, cursor.wait())?;
    Ok(Phrase::Command(match killed {
        Killed::One => Command::Kill(victims, fault, wait),
        Killed::All => Command::KillAll(victims, fault, wait),
    }))
}

/// The rest of a setparent.
fn read_set_parent(alloc: Global, cursor: &mut Cursor<'_>) -> Result<Phrase, LineRefusal>
    ensures { Reads (phrase_by Keyword.SetParent cursor.old) result cursor.new }
{
    let (greenlet, parent) = both(
        read_expression(alloc, cursor)?,
        read_expression(alloc, cursor),
    )?;
    Ok(Phrase::Command(Command::SetParent(greenlet, parent)))
}

/// The rest of a statement of an object that gives no value.
fn read_object_command(
    alloc: Global,
    cursor: &mut Cursor<'_>,
    word: Keyword,
) -> Result<Phrase, LineRefusal>
    requires { kind_by word ≡ LineKind.ObjectCommand }
    ensures { Reads (phrase_by word cursor.old) result cursor.new }
{
    let object = cursor.name()?;
    match word {
        Keyword::Set => Ok(Phrase::Command(Command::Set(object))),
        Keyword::Clear => Ok(Phrase::Command(Command::Clear(object))),
        Keyword::ResultSet => Ok(Phrase::Command(Command::ResultSet(
            object,
            read_expression(alloc, cursor)?,
        ))),
        Keyword::ResultFail => Ok(Phrase::Command(Command::ResultFail(
            object,
            read_expression(alloc, cursor)?,
        ))),
        Keyword::Release => Ok(Phrase::Command(Command::Release(object))),
        Keyword::QueuePut => {
            let (item, wait) = both(read_expression(alloc, cursor)?, cursor.wait())?;
            Ok(Phrase::Command(Command::QueuePut(object, item, wait)))
        }
        Keyword::QueueDone => Ok(Phrase::Command(Command::QueueDone(object))),
        Keyword::QueueShut => Ok(Phrase::Command(Command::QueueShut(object, immediate(cursor)))),
        Keyword::ChannelPut => Ok(Phrase::Command(Command::ChannelPut(
            object,
            read_expression(alloc, cursor)?,
        ))),
        Keyword::GroupJoin => Ok(Phrase::Command(Command::GroupJoin(object, cursor.timed()?))),
        Keyword::GroupKill => Ok(Phrase::Command(Command::GroupKill(
            object,
            with_fault(alloc, cursor)?,
            now(cursor),
        ))),
        _ => Err(LineRefusal::Reason(TextReason::UnknownWord)),
    }
}
