//! Reading a text.
ghost use Rattle.std.specs.Prelude.{◌≡◌, ◌+◌, ◌-◌, ◌≤◌, ◌<◌, ◌^◌, IfSome, None, OnOk, count_by, length, max, position};
ghost use Rattle.scenario_grammar.specs.Layout.{is_end, most_of, says_long};
ghost use Rattle.scenario_grammar.specs.declared.limits.TheConstants.{MOST_LONG_TEXT, MOST_TEXT};
ghost use Rattle.scenario_grammar.specs.Parsed.{nothing_yet, read_words, reading};
ghost use Rattle.scenario_grammar.specs.Place.{line_at, too_large};
ghost use Rattle.scenario_grammar.specs.Reason.{text_number};
ghost use Rattle.scenario_lang.specs.Builders.{building};
ghost use Rattle.scenario_lang.specs.Lines.{IsRefused, IsSpelt, Parses, Takes, after_line, carries, ended_at, line_text, outcome, placed, state_of};

use crate::builder::Builder;
use crate::role::line_role;
use crate::scenario::Scenario;
use scenario_grammar::{
    MOST_LONG_TEXT, MOST_TEXT, Place, TextReason, Token, read_texts_are_spelt,
    texts_without_a_place_are_spelt,
};
use scenario_lines::{
    Front, LineRefusal, cut_at, first_line, line_tokens, read_phrase, skip_blanks,
};
use scenario_print::spelt_trees_have_text;
use scenario_tree::Scenario as Tree;
use std::alloc::{AllocError, Global};

/// Why a text gives no scenario.
#[derive(Clone, Copy, PartialEq, Eq)]
pub enum ParseRefusal {
    /// No scenario has this text; the first place that shows it.
    Refused(Place),
    /// Memory ran out.
    Memory,
}

impl From<AllocError> for ParseRefusal {
    ghost use Rattle.std.specs.Prelude.{◌≡◌};
    ghost use Rattle.scenario_lang.specs.declared.text.ParseRefusal.TheVariants.{Memory};

    ghost from_gives = { λ _ e. e ≡ Memory };

    fn from(_: AllocError) -> ParseRefusal {
        ParseRefusal::Memory
    }
}

/// The tokens of a line, and what they make of the tree.
fn take_words(
    alloc: Global,
    builder: &mut Builder,
    line: u32,
    tokens: &[Token],
) -> Result<(), LineRefusal>
    ensures { Takes (read_words (building builder.old) line tokens.now) result builder.new }
{
    if let Some(reason) = builder.misplaced(line_role(tokens)) {
        return Err(LineRefusal::Reason(reason));
    }
    let phrase = read_phrase(alloc, tokens)?;
    builder.step(alloc, line, phrase.into_inner())?;
    Ok(())
}

/// A line of this number with this text.
fn take_line(
    alloc: Global,
    builder: &mut Builder,
    line: u32,
    text: &[u8],
) -> Result<(), LineRefusal>
    ensures { Takes (line_text (building builder.old) line text.now) result builder.new }
{
    let words = skip_blanks(text);
    if !carries_words(words) {
        return Ok(());
    }
    match line_tokens(alloc, builder.profile, words)? {
        None => Err(LineRefusal::Reason(TextReason::BlankOutOfPlace)),
        Some(tokens) => take_words(alloc, builder, line, tokens.as_slice()),
    }
}

/// Whether what stands past a line's leading blanks is to be read.
fn carries_words(text: &[u8]) -> bool
    ensures { result ≡ carries text.now }
{
    match text {
        [] => false,
        [first, ..] => *first != b'#',
    }
}

/// A text that is read line by line.
#[derive(Drop)]
struct Reader {
    builder: Builder,
    /// The number of the next line.
    line: u32,
    /// The first line that was refused.
    fault: Option<Place>,
}

impl Reader {
    fn new(alloc: Global) -> Reader
        ensures line { result.line ≡ 1 }
        ensures state { state_of result ≡ Ok nothing_yet }
    {
        Reader {
            builder: Builder::new(alloc),
            line: 1,
            fault: None,
        }
    }

    /// Takes the next line.
    fn take(&mut self, alloc: Global, text: &[u8]) -> Result<(), AllocError>
        requires { self.old.line < 2 ^ 32 - 1 }
        ensures line { OnOk result (self.new.line ≡ self.old.line + 1) }
        ensures state { OnOk result (state_of self.new ≡ after_line self.old.line (state_of self.old) text.now) }
    {
        if self.fault.is_none() {
            self.judge(alloc, text)?;
        }
        self.line += 1;
        Ok(())
    }

    /// Takes the next line, where none was refused before.
    fn judge(&mut self, alloc: Global, text: &[u8]) -> Result<(), AllocError>
        requires { self.old.fault ≡ None }
        ensures line { self.new.line ≡ self.old.line }
        ensures state { OnOk result (state_of self.new ≡ placed self.old.line (line_text (building self.old.builder) self.old.line text.now)) }
    {
        match take_line(alloc, &mut self.builder, self.line, text) {
            Ok(()) => Ok(()),
            Err(LineRefusal::Memory) => Err(AllocError),
            Err(LineRefusal::Reason(reason)) => {
                self.fault = Some(Place {
                    line: self.line,
                    reason: reason.number(),
                });
                Ok(())
            }
        }
    }

    /// The end of the text.
    fn finish(self) -> Result<Tree, ParseRefusal>
        requires { 1 ≤ self.line }
        ensures { Parses (ended_at (max 1 (self.line - 1)) (state_of self)) result }
    {
        let Reader {
            builder,
            line,
            fault,
        } = self;
        match fault {
            Some(place) => Err(ParseRefusal::Refused(place)),
            None => match builder.finish((line - 1).max(1)) {
                Ok(scenario) => Ok(scenario),
                Err(place) => Err(ParseRefusal::Refused(place)),
            },
        }
    }
}

fn read_text(alloc: Global, bytes: &[u8]) -> Result<Tree, ParseRefusal>
    requires { length bytes.now ≤ MOST_LONG_TEXT }
    ensures { Parses (outcome 1 (Ok nothing_yet) bytes.now) result }
{
    let mut reader = Reader::new(alloc);
    let mut rest = bytes;
    while !rest.is_empty() {
        match first_line(rest) {
            Front::Line(at) => {
                let (text, more) = cut_at(rest, at);
                reader.take(alloc, text)?;
                rest = more;
            }
            Front::NotPrintable => return Err(refused(reader.line, TextReason::NotPrintable)),
            Front::NotEnded => return Err(refused(reader.line, TextReason::NotEnded)),
        }
    }
    reader.finish()
}

fn refused(line: u32, reason: TextReason) -> ParseRefusal
    ensures { result ≡ ParseRefusal.Refused (record { line = line; reason = text_number reason }) }
{
    ParseRefusal::Refused(Place {
        line,
        reason: reason.number(),
    })
}

/// The scenario that has this text.
///
/// # Errors
///
/// `Refused` exactly where no scenario has it, with the first line that shows it and the reason;
/// `Memory` where memory ran out.
pub fn parse(alloc: Global, bytes: &[u8]) -> Result<Scenario, ParseRefusal>
    ensures read { Parses (reading bytes.now) result }
    ensures spelt { IsSpelt bytes.now result }
    ensures refused { IsRefused bytes.now result }
{
    spelt_trees_have_text();
    match parse_tree(alloc, bytes) {
        Ok(tree) => Ok(Scenario::new(tree)),
        Err(refusal) => Err(refusal),
    }
}

/// The tree that the bytes spell.
fn parse_tree(alloc: Global, bytes: &[u8]) -> Result<Tree, ParseRefusal>
    ensures read { Parses (reading bytes.now) result }
    ensures spelt { IsSpelt bytes.now result }
    ensures refused { IsRefused bytes.now result }
{
    read_texts_are_spelt();
    texts_without_a_place_are_spelt();
    read_bytes(alloc, bytes)
}

fn read_bytes(alloc: Global, bytes: &[u8]) -> Result<Tree, ParseRefusal>
    ensures { Parses (reading bytes.now) result }
{
    if bytes.len() <= MOST_TEXT {
        return read_text(alloc, bytes);
    }
    let long = says_long(&bytes[..MOST_TEXT]);
    let most = most_of(long);
    if bytes.len() > most {
        return Err(refused(line_behind(bytes, most), too_large(long)));
    }
    read_text(alloc, bytes)
}

/// The most bytes of a text that may be long, or may not.
fn most_of(long: bool) -> usize
    ensures value { result ≡ most_of long }
    ensures bound { result ≤ MOST_LONG_TEXT }
{
    if long { MOST_LONG_TEXT } else { MOST_TEXT }
}

/// Why a text is refused that has more.
fn too_large(long: bool) -> TextReason
    ensures { result ≡ too_large long }
{
    if long {
        TextReason::LongTooLarge
    } else {
        TextReason::TooLarge
    }
}

/// Whether a text that begins so may be long: the first line that carries something is
/// `profile 3`.
fn says_long(bytes: &[u8]) -> bool
    ensures { result ≡ says_long bytes.now }
{
    let mut rest = bytes;
    while let Some(at) = first_end(rest) {
        let (line, more) = cut_at(rest, at);
        let words = skip_blanks(line);
        if carries_words(words) {
            return words == b"profile 3".as_slice();
        }
        rest = more;
    }
    false
}

fn first_end(text: &[u8]) -> Option<usize>
    ensures value { result ≡ position is_end text.now }
    ensures within { IfSome result (λ at. at < length text.now) }
{
    text.iter().position(|b| *b == b'\n')
}

/// The line of the byte that stands behind so many.
fn line_behind(bytes: &[u8], count: usize) -> u32
    requires within { count < length bytes.now }
    requires small { count < 2 ^ 31 }
    ensures { result ≡ line_at count bytes.now }
{
    count_ends(&bytes[..count]) + 1
}

fn count_ends(bytes: &[u8]) -> u32
    requires { length bytes.now < 2 ^ 31 }
    ensures count { result ≡ count_by is_end bytes.now }
    ensures bound { result < 2 ^ 31 }
{
    bytes.iter().filter(|b| **b == b'\n').count() as u32
}
