//! What each fixed word begins.
ghost use Rattle.std.specs.Prelude.{◌≡◌};
ghost use Rattle.scenario_grammar.specs.Keyword.{profile_of};
ghost use Rattle.scenario_grammar.specs.Place.{role_by};
ghost use Rattle.scenario_grammar.specs.Reading.{gives};
ghost use Rattle.scenario_keywords.specs.Roles.{gives_value, grammar_role, role_of_word};

use crate::keyword::fixed_words;
use scenario_grammar::Keyword;

/// What a fixed word begins as the first word of a line, or as the first behind `<-`.
#[derive(Clone, Copy, PartialEq, Eq)]
pub enum WordRole {
    /// The line that names the profile of the text.
    Profiles,
    /// A declaration of an object.
    Declares,
    /// A function.
    Defines,
    /// A block inside a function.
    Opens,
    /// The other part of an `if`.
    Parts,
    /// A part of a `try` that catches.
    Catches,
    /// The last part of a `try`.
    Finishes,
    /// The end of a block.
    Ends,
    /// A statement that gives no value and names no object first.
    Commands,
    /// A statement that gives no value and names its object first.
    CommandsObject,
    /// A statement that gives a value, which a name before `<-` may take.
    Gives,
    /// No line.
    Nothing,
}

/// What a word begins.
macro_rules! role_of {
    ($word:ident; $($first:literal { $($name:ident => $text:literal, $role:ident $(, $profile:literal)?;)* })*) => {
        match $word {
            $($(Keyword::$name => WordRole::$role,)*)*
        }
    };
}

/// The profile that brought a word.
macro_rules! profile_of {
    ($word:ident; $($first:literal { $($name:ident => $text:literal, $role:ident $(, $profile:literal)?;)* })*) => {
        match $word {
            $($($(Keyword::$name => $profile,)?)*)*
            _ => 1,
        }
    };
}

/// What the word begins, by the table of the fixed words.
pub fn word_role(word: Keyword) -> WordRole
    ensures role { result ≡ role_of_word word }
    ensures line { grammar_role result ≡ role_by word }
    ensures value { gives_value result ≡ gives word }
{
    table_role(word)
}

/// The role that the table has for the word.
#[inline(always)]
fn table_role(word: Keyword) -> WordRole
    ensures { result ≡ role_of_word word }
{
    fixed_words!(role_of word)
}

/// The profile that brought the word. An earlier one does not have it.
pub fn word_profile(word: Keyword) -> u8
    ensures { result ≡ profile_of word }
{
    fixed_words!(profile_of word)
}

/// Whether the word begins a statement that gives a value.
pub fn gives_value(word: Keyword) -> bool
    ensures { result ≡ gives word }
{
    matches!(word_role(word), WordRole::Gives)
}
