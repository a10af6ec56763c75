use crate::keyword::Keyword;
use gv_values::Name;

/// What a word is by itself.
#[derive(Clone, Copy)]
pub enum Token {
    Fixed(Keyword),
    /// A word of a name's form that is no fixed word.
    Name(Name),
    /// An integer in its one spelling.
    Number(i64),
    /// An integer in its one spelling, past 64 bits.
    Oversized,
    /// It begins as a number does, and is none.
    Misspelled,
    Unknown,
}
