//! The fixed words of scenarios: how they are spelled, and what each begins.
#![tactic(auto)]

mod keyword;
mod role;

pub use keyword::{find_keyword, keyword_text};
pub use role::{WordRole, gives_value, word_profile, word_role};
