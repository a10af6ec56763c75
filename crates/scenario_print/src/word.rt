//! The words of a line.
#![tactic(auto, using(crate::proofs::Words::leaves))]

ghost use Rattle.std.specs.Prelude.{◌≡◌, [], ◌∷◌, ◌++◌, Some};
ghost use Rattle.scenario_grammar.specs.Token.{fixed, integer, name};
ghost use Rattle.scenario_print.specs.Written.{Appended, Started, Wrote, WroteNumber};

use gv_values::Name;
use itoa::Buffer;
use scenario_grammar::Keyword;
use scenario_keywords::keyword_text;
use std::alloc::AllocError;

/// A fixed word that begins a line.
pub(crate) fn push_first(word: Keyword, out: &mut Vec<u8>) -> Result<(), AllocError>
    ensures { Started out.old.items out.new.items result word (Some []) }
{
    out.extend_from_slice(keyword_text(word))
}

/// A blank, and a word.
fn push_word(word: &[u8], out: &mut Vec<u8>) -> Result<(), AllocError>
    ensures { Appended out.old.items out.new.items result (32 ∷ word.now) }
{
    out.push(b' ')?;
    out.extend_from_slice(word)
}

/// A fixed word that begins no line.
pub(crate) fn push_fixed(word: Keyword, out: &mut Vec<u8>) -> Result<(), AllocError>
    ensures { Wrote out.old.items out.new.items result (fixed word) }
{
    push_word(keyword_text(word), out)
}

/// A name.
pub(crate) fn push_name(n: &Name, out: &mut Vec<u8>) -> Result<(), AllocError>
    ensures { Wrote out.old.items out.new.items result (name n.now) }
{
    push_word(n.bytes(), out)
}

/// A number, which is to be from least to greatest.
pub(crate) fn push_number(n: u64, out: &mut Vec<u8>) -> Result<(), AllocError>
    ensures { WroteNumber out.old.items out.new.items result n }
{
    push_word(Buffer::new().format(n).as_bytes(), out)
}

/// An integer.
pub(crate) fn push_integer(n: i64, out: &mut Vec<u8>) -> Result<(), AllocError>
    ensures { Wrote out.old.items out.new.items result (integer n) }
{
    push_word(Buffer::new().format(n).as_bytes(), out)
}
