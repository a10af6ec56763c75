//! A table of the places of items, each item known by its number, and what is said of lists of such numbers.
//!
//! The table is the crate's own: std's `HashMap` promises no room back at a removal.
#![tactic(auto)]

pub mod places;
