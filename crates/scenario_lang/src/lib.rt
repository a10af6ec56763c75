//! Texts of scenarios: reading and printing them.
//!
//! `HasText` asks no length, so a scenario whose texts are all too long is printed too.
#![tactic(auto)]

mod builder;
mod kind;
mod role;
mod scenario;
mod text;

pub use builder::is_main;
pub use scenario::{Scenario, print};
pub use scenario_grammar::{MOST_LONG_TEXT, MOST_TEXT, reason_text};
pub use scenario_print::spelt_trees_have_text;
pub use text::{ParseRefusal, parse};
