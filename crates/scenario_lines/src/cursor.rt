ghost use Rattle.std.specs.Prelude.{◌≡◌, ◌≤◌, [], IfOk, IsTrue, ◌↔◌};
ghost use Rattle.std.specs.Option.{option_copied};
ghost use Rattle.scenario_grammar.specs.Reading.{name_at, number_at, integer_at, in_range_of, ms_at, timed_at, wait_at};
ghost use Rattle.scenario_lines.specs.Reads.{Reads, NextToken};
ghost use Rattle.scenario_lines.specs.Taken.{Takes};

use crate::refusal::LineRefusal;
use gv_values::Name;
use scenario_grammar::{Keyword, MOST_MS, TextReason, Token};
use scenario_tree::{Timed, Wait};
use std::marker::Model;

/// The tokens of a line that are still to be read.
#[derive(Drop)]
pub struct Cursor<'a> {
    pub(crate) rest: &'a [Token],
}

impl<'a> Model for Cursor<'a> {
    ghost use Rattle.std.specs.Prelude.{List};
    ghost use Rattle.scenario_grammar.specs.declared.token.Token.{Token};

    ghost Value = { List Token };

    ghost view = { λ l. l.rest.now };
}

impl<'a> Cursor<'a> {
    /// Before the first of these tokens.
    pub fn new(rest: &'a [Token]) -> Cursor<'a>
        ensures { result ≡ rest.now }
    {
        Cursor { rest }
    }

    /// Whether no token is left.
    pub fn is_empty(&self) -> bool
        ensures { IsTrue result ↔ (self.now ≡ []) }
    {
        self.rest.is_empty()
    }

    /// Takes the next token, none at the line's end.
    pub fn next(&mut self) -> Option<&'a Token>
        ensures { NextToken self.old (option_copied result) self.new }
    {
        match self.rest {
            [] => None,
            [token, rest @ ..] => {
                self.rest = rest;
                Some(token)
            }
        }
    }

    /// Takes a name. Where another word stands there, that word is taken and refused.
    #[tactic(auto, unfolding(scenario_grammar::specs::Reading::name_at))]
    pub fn name(&mut self) -> Result<Name, LineRefusal>
        ensures { Reads (name_at self.old) result self.new }
    {
        match self.next() {
            None => Err(LineRefusal::Reason(TextReason::TooShort)),
            Some(Token::Name(name)) => Ok(*name),
            Some(_) => Err(LineRefusal::Reason(TextReason::NotAName)),
        }
    }

    /// Whether this fixed word stands next; where it does, it is taken.
    pub fn takes(&mut self, word: Keyword) -> bool
        ensures { Takes word self.old result self.new }
    {
        let mut ahead = Cursor::new(self.rest);
        match ahead.next() {
            Some(Token::Fixed(first)) if *first == word => {
                *self = ahead;
                true
            }
            _ => false,
        }
    }

    /// Takes `within` and its time in milliseconds, where that stands there.
    #[tactic(auto, using(crate::proofs::Unsaid::no_time))]
    pub fn timed(&mut self) -> Result<Timed, LineRefusal>
        ensures { Reads (timed_at self.old) result self.new }
    {
        if self.takes(Keyword::Within) {
            Ok(Some(self.time()?))
        } else {
            Ok(None)
        }
    }

    /// Takes `within` and its time in milliseconds, or `now`, where one of them stands there.
    #[tactic(auto, using(crate::proofs::Unsaid::no_wait))]
    pub fn wait(&mut self) -> Result<Wait, LineRefusal>
        ensures { Reads (wait_at self.old) result self.new }
    {
        if self.takes(Keyword::Within) {
            Ok(Wait::Within(self.time()?))
        } else if self.takes(Keyword::Now) {
            Ok(Wait::Now)
        } else {
            Ok(Wait::Block)
        }
    }

    /// Takes an integer of 64 bits. Where another word stands there, that word is taken and refused.
    #[tactic(auto, unfolding(scenario_grammar::specs::Reading::integer_at))]
    pub fn integer(&mut self) -> Result<i64, LineRefusal>
        ensures { Reads (integer_at self.old) result self.new }
    {
        match self.next() {
            None => Err(LineRefusal::Reason(TextReason::TooShort)),
            Some(Token::Number(number)) => Ok(*number),
            Some(Token::Oversized) => Err(LineRefusal::Reason(TextReason::OutOfRange)),
            Some(_) => Err(LineRefusal::Reason(TextReason::MisspelledNumber)),
        }
    }

    /// Takes a number of this range. Where another word stands there, that word is taken and
    /// refused.
    pub fn number(&mut self, least: u64, greatest: u64) -> Result<u64, LineRefusal>
        ensures { Reads (number_at least greatest self.old) result self.new }
    {
        self.bounded(least, greatest)
    }

    /// Takes such a number, of which the caller knows then that it is at most the greatest.
    #[tactic(auto, unfolding(scenario_grammar::specs::Reading::number_at))]
    pub fn bounded(&mut self, least: u64, greatest: u64) -> Result<u64, LineRefusal>
        ensures read { Reads (number_at least greatest self.old) result self.new }
        ensures range { IfOk result (λ n. n ≤ greatest) }
    {
        match self.next() {
            None => Err(LineRefusal::Reason(TextReason::TooShort)),
            Some(Token::Number(number)) => in_range(*number, least, greatest),
            Some(Token::Oversized) => Err(LineRefusal::Reason(TextReason::OutOfRange)),
            Some(_) => Err(LineRefusal::Reason(TextReason::MisspelledNumber)),
        }
    }

    /// Takes a time in milliseconds.
    pub fn time(&mut self) -> Result<u32, LineRefusal>
        ensures { Reads (ms_at self.old) result self.new }
    {
        Ok(self.bounded(0, MOST_MS)? as u32)
    }
}

fn in_range(number: i64, least: u64, greatest: u64) -> Result<u64, LineRefusal>
    ensures read { Reads (in_range_of least greatest number []) result [] }
    ensures range { IfOk result (λ n. n ≤ greatest) }
{
    if number < 0 {
        return Err(LineRefusal::Reason(TextReason::OutOfRange));
    }
    let number = number as u64;
    if least <= number && number <= greatest {
        Ok(number)
    } else {
        Err(LineRefusal::Reason(TextReason::OutOfRange))
    }
}
