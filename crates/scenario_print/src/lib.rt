//! The printed form of scenarios.
#![tactic(auto)]

mod block;
mod command;
mod expression;
mod giving;
mod head;
mod part;
mod scenario;
mod start;
mod tree_line;
mod word;

pub use scenario::{print, spelt_trees_have_text};
