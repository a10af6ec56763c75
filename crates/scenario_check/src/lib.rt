//! Well-formed scenarios: the names of a tree, looked up in a table, and the first line that
//! breaks a rule.
#![tactic(auto)]

mod blocks;
mod checked;
mod commands;
mod different;
mod expressions;
mod givings;
mod judge;
mod lists;
mod parts;
mod places;
mod words;

pub use checked::{Checked, check};
