//! Lines of a text, and the words of a line.
ghost use Rattle.std.specs.Prelude.{◌≡◌, ◌+◌, ◌<◌, IfOk, IfSome, drop, length, not, position, take};
ghost use Rattle.scenario_grammar.specs.Layout.{is_blank, drop_blanks};
ghost use Rattle.scenario_lines.specs.Fronts.{is_printable, front_of, spaced_tokens};

use crate::token::read_token;
use scenario_grammar::Token;
use scenario_tree::Items;
use std::alloc::{AllocError, Global};

/// What stands at the front of a text.
#[derive(Clone, Copy)]
pub enum Front {
    /// A line of so many bytes, and then its LF.
    Line(usize),
    /// Before any LF stands a byte that is not printable ASCII.
    NotPrintable,
    /// No LF ends what stands there.
    NotEnded,
}

/// Looks for the first line's end.
pub fn first_line(text: &[u8]) -> Front
    ensures { result ≡ front_of text.now }
{
    match first_unprintable(text) {
        None => Front::NotEnded,
        Some(at) => {
            if text[at] == b'\n' {
                Front::Line(at)
            } else {
                Front::NotPrintable
            }
        }
    }
}

fn first_unprintable(text: &[u8]) -> Option<usize>
    ensures { result ≡ position (λ b. not (is_printable b)) text.now }
{
    text.iter().position(|b| !is_printable_byte(*b))
}

fn is_printable_byte(b: u8) -> bool
    ensures { result ≡ is_printable b }
{
    b >= b' ' && b <= b'~'
}

/// What stands past the leading blanks.
pub fn skip_blanks(text: &[u8]) -> &[u8]
    ensures { result.now ≡ drop_blanks text.now }
{
    let mut rest = text;
    while let [b' ', more @ ..] = rest {
        rest = more;
    }
    rest
}

/// What the words of a line are in a text of this profile, none where a blank is out of place.
pub fn line_tokens(
    alloc: Global,
    profile: u8,
    text: &[u8],
) -> Result<Option<Items<Token>>, AllocError>
    ensures { IfOk result (λ found. found ≡ spaced_tokens profile text.now) }
{
    let mut tokens = Items::new(alloc);
    let mut rest = text;
    while let Some(at) = first_blank(rest) {
        if at == 0 {
            return Ok(None);
        }
        let (word, more) = cut_at(rest, at);
        tokens.push(read_token(profile, word))?;
        rest = more;
    }
    if rest.is_empty() {
        return Ok(None);
    }
    tokens.push(read_token(profile, rest))?;
    Ok(Some(tokens))
}

/// What stands before the byte at a place, and what stands behind it.
pub fn cut_at(text: &[u8], at: usize) -> (&[u8], &[u8])
    requires { at < length text.now }
    ensures front { result.0.now ≡ take at text.now }
    ensures rest { result.1.now ≡ drop (at + 1) text.now }
{
    (&text[..at], &text[at + 1..])
}

fn first_blank(text: &[u8]) -> Option<usize>
    ensures value { result ≡ position is_blank text.now }
    ensures within { IfSome result (λ at. at < length text.now) }
{
    text.iter().position(|b| *b == b' ')
}
