//! What every line is made of: fixed words, numbers and names.
#![tactic(auto, unfolding(crate::specs::Fronts::and_then, crate::specs::Fronts::after, crate::specs::Fronts::or_else))]

ghost use Rattle.std.specs.Prelude.{◌≡◌, ◌≤◌, ◌==◌, ◌+◌, ◌*◌, ◌-◌, ◌^◌, nat_lt, if◌then◌else◌, [], length, Some, None, IfOk};
ghost use Rattle.trace_reader.specs.Fronts.{strip, number_front, small_front, greenlet_front, job_front, int_front, below_zero, not_below_zero, word_length, name_front};
ghost use Rattle.std.specs.List.{position};
ghost use Rattle.gv_values.specs.Texts.{Text};
ghost use Rattle.trace_reader.specs.Ranges.{IntFits, NameFits};
ghost use Rattle.trace_reader.specs.Reads.{Reads, Takes, Passes};
ghost use Rattle.trace_reader.specs.ValueFronts.{starts_numeral};

use crate::fault::LineFault;
use gv_values::Name;
use std::marker::Model;

/// The bytes of a line that are still to be read.
#[derive(Drop)]
pub(crate) struct Cursor<'a> {
    rest: &'a [u8],
}

impl<'a> Model for Cursor<'a> {
    ghost use Rattle.gv_values.specs.Texts.{Text};

    ghost Value = { Text };

    ghost view = { λ c. c.rest.now };
}

impl<'a> Cursor<'a> {
    pub(crate) fn new(rest: &'a [u8]) -> Cursor<'a>
        ensures { result ≡ rest.now }
    {
        Cursor { rest }
    }

    /// Takes the word if it comes next.
    #[tactic(auto, unfolding(crate::specs::Fronts::strip))]
    pub(crate) fn takes(&mut self, word: &[u8]) -> bool
        ensures { Takes word.now self.old result self.new }
    {
        match self.rest.strip_prefix(word) {
            Some(rest) => {
                self.rest = rest;
                true
            }
            None => false,
        }
    }

    /// Takes the word, which has to come next.
    pub(crate) fn pass(&mut self, word: &[u8]) -> Result<(), LineFault>
        ensures { Passes word.now self.old result self.new }
    {
        if self.takes(word) {
            Ok(())
        } else {
            Err(LineFault::NotALine)
        }
    }

    /// Whether a digit or a minus comes next.
    #[tactic(auto, unfolding(crate::specs::ValueFronts::starts_numeral))]
    pub(crate) fn is_at_numeral(&self) -> bool
        ensures { result ≡ starts_numeral self.now }
    {
        match self.rest {
            [] => false,
            [b, ..] => b.is_ascii_digit() || *b == b'-',
        }
    }

    /// Takes the digits that come next, as a number of 64 bits.
    #[tactic(auto, unfolding(crate::specs::Fronts::number_on))]
    pub(crate) fn number(&mut self) -> Result<u64, LineFault>
        ensures { Reads (number_front self.old) result self.new }
    {
        let mut number = 0;
        while let [digit @ b'0'..=b'9', rest @ ..] = self.rest {
            number = with_digit(number, *digit)?;
            self.rest = rest;
        }
        Ok(number)
    }

    #[tactic(auto, unfolding(crate::specs::Fronts::and_then, crate::specs::Fronts::small_front))]
    pub(crate) fn small(&mut self) -> Result<u32, LineFault>
        ensures { Reads (small_front self.old) result self.new }
    {
        let number = self.number()?;
        u32::try_from(number).map_err(|_| LineFault::NotALine)
    }

    #[tactic(auto, unfolding(crate::specs::Fronts::after, crate::specs::Fronts::greenlet_front))]
    pub(crate) fn greenlet(&mut self) -> Result<u32, LineFault>
        ensures { Reads (greenlet_front self.old) result self.new }
    {
        self.pass(b"g")?;
        self.small()
    }

    #[tactic(auto, unfolding(crate::specs::Fronts::after, crate::specs::Fronts::job_front))]
    pub(crate) fn job(&mut self) -> Result<u32, LineFault>
        ensures { Reads (job_front self.old) result self.new }
    {
        self.pass(b"j")?;
        self.small()
    }

    #[tactic(auto, unfolding(crate::specs::Fronts::and_then, crate::specs::Fronts::or_else, crate::specs::Fronts::int_front))]
    pub(crate) fn int(&mut self) -> Result<i64, LineFault>
        ensures reads { Reads (int_front self.old) result self.new }
        ensures fits { IfOk result IntFits }
    {
        if self.takes(b"-") {
            let magnitude = self.number()?;
            below_zero(magnitude)
        } else {
            let magnitude = self.number()?;
            not_below_zero(magnitude)
        }
    }

    #[tactic(auto, unfolding(crate::specs::Fronts::name_front))]
    pub(crate) fn name(&mut self) -> Result<Name, LineFault>
        ensures reads { Reads (name_front self.old) result self.new }
        ensures fits { IfOk result NameFits }
    {
        let (word, rest) = self.rest.split_at(word_length(self.rest));
        match Name::new(word) {
            Some(name) => {
                self.rest = rest;
                Ok(name)
            }
            None => Err(LineFault::NotALine),
        }
    }
}

/// The number with one more digit; not past 64 bits.
fn with_digit(so_far: u64, digit: u8) -> Result<u64, LineFault>
    ensures { Reads (if nat_lt (so_far * 10 + (digit - 48)) (2 ^ 64) then Some (so_far * 10 + (digit - 48), []) else None) result [] }
{
    let digit = u64::from(digit.saturating_sub(b'0'));
    match so_far
        .checked_mul(10)
        .and_then(|tens| tens.checked_add(digit))
    {
        Some(number) => Ok(number),
        None => Err(LineFault::NotALine),
    }
}

#[tactic(auto, unfolding(crate::specs::Fronts::below_zero))]
fn below_zero(magnitude: u64) -> Result<i64, LineFault>
    ensures reads { (rest : Text) → Reads (below_zero magnitude rest) result rest }
    ensures fits { IfOk result IntFits }
{
    if magnitude == 0 {
        return Err(LineFault::NotALine);
    }
    match 0_i64.checked_sub_unsigned(magnitude) {
        Some(number) => Ok(number),
        None => Err(LineFault::NotALine),
    }
}

#[tactic(auto, unfolding(crate::specs::Fronts::not_below_zero))]
fn not_below_zero(magnitude: u64) -> Result<i64, LineFault>
    ensures reads { (rest : Text) → Reads (not_below_zero magnitude rest) result rest }
    ensures fits { IfOk result IntFits }
{
    if magnitude < 1 << 63 {
        Ok(magnitude as i64)
    } else {
        Err(LineFault::NotALine)
    }
}

/// How many bytes stand before the first blank.
#[tactic(auto, using(crate::proofs::Words::word_within, crate::proofs::Words::word_to_blank, crate::proofs::Words::word_to_end))]
fn word_length(text: &[u8]) -> usize
    ensures same { result ≡ word_length text.now }
    ensures within { result ≤ length text.now }
{
    match first_blank(text) {
        Some(place) => place,
        None => text.len(),
    }
}

fn first_blank(text: &[u8]) -> Option<usize>
    ensures { result ≡ position (λ b. b == 32) text.now }
{
    text.iter().position(|b| *b == b' ')
}
