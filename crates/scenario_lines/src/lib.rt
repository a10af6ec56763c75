//! The words of a scenario's lines: from bytes to what a line says.
#![tactic(auto)]

mod cursor;
mod expression;
mod giving;
mod head;
mod kind;
mod layout;
mod parts;
mod phrase;
mod refusal;
mod token;

pub use layout::{Front, cut_at, first_line, line_tokens, skip_blanks};
pub use phrase::{is_given_line, read_phrase};
pub use refusal::LineRefusal;
