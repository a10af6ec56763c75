//! What the first words make of a line.
ghost use Rattle.std.specs.Prelude.{◌≡◌, if◌then◌else◌};
ghost use Rattle.scenario_grammar.specs.Place.{role_of, outside};
ghost use Rattle.scenario_grammar.specs.Reading.{gives};
ghost use Rattle.scenario_keywords.specs.Roles.{grammar_role};
ghost use Rattle.scenario_lang.specs.Roles.{as_role, role_unmarked};

use scenario_grammar::{Keyword, TextReason, Token};
use scenario_keywords::{WordRole, gives_value, word_role};
use scenario_lines::is_given_line;

/// What the first words make of a line.
#[derive(Clone, Copy)]
pub(crate) enum Role {
    /// What its first word begins.
    Begins(WordRole),
    /// A name is to take what the line gives; the reason is what the line has outside a function.
    Gives(TextReason),
}

/// What these words make of their line.
pub(crate) fn line_role(tokens: &[Token]) -> Role
    ensures { as_role result ≡ role_of tokens.now }
{
    if is_given_line(tokens) {
        Role::Gives(reason_outside(tokens))
    } else {
        Role::Begins(unmarked_role(tokens))
    }
}

/// The role of a line whose second word is not `<-`.
fn unmarked_role(tokens: &[Token]) -> WordRole
    ensures { grammar_role result ≡ role_unmarked tokens.now }
{
    match tokens {
        [Token::Fixed(word), ..] => word_role(*word),
        _ => WordRole::Nothing,
    }
}

/// Why a line whose second word is `<-` is refused outside a function.
fn reason_outside(tokens: &[Token]) -> TextReason
    ensures { result ≡ outside tokens.now }
{
    match tokens {
        [Token::Name(_), _] => TextReason::TooShort,
        [Token::Name(_), _, Token::Fixed(word), ..] => reason_of_third(*word),
        [Token::Name(_), _, _, ..] => TextReason::UnknownWord,
        _ => TextReason::NotAName,
    }
}

/// Why such a line is refused whose first word is a name and whose third is this fixed word.
fn reason_of_third(word: Keyword) -> TextReason
    ensures { result ≡ (if gives word then TextReason.LineOutOfPlace else TextReason.UnknownWord) }
{
    if gives_value(word) {
        TextReason::LineOutOfPlace
    } else {
        TextReason::UnknownWord
    }
}
