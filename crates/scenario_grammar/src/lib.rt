//! The grammar of the scenario language: what is a text of which tree, where any other text is
//! refused, and the laws of both.
#![tactic(auto)]

mod building;
mod head;
mod keyword;
mod laws;
mod limits;
mod phrase;
mod place;
mod reason;
mod token;

pub use building::{OpenBlock, Opening};
pub use head::Head;
pub use keyword::Keyword;
pub use laws::{
    printed_forms_are_spelt, read_texts_are_spelt, spelt_texts_are_read,
    spelt_trees_are_of_profile_3, spelt_trees_have_a_profile, texts_have_one_tree,
    texts_without_a_place_are_spelt,
};
pub use limits::{
    MOST_LEVELS, MOST_LONG_TEXT, MOST_MARK, MOST_MS, MOST_NESTED, MOST_POOL_PLACES,
    MOST_QUEUE_PLACES, MOST_SLOTS, MOST_TEXT, MOST_UNITS,
};
pub use phrase::Phrase;
pub use place::Place;
pub use reason::{RuleReason, TextReason, reason_text};
pub use token::Token;
