//! Chains of slots: many lists over one table, linked by slot. Each chain is known by its key, a slot stands in one
//! chain at most, and it is put in and taken out in constant time.
#![tactic(auto)]

mod chains;
mod limits;
mod links;

pub use chains::{Chains, Ends, Neighbours};
pub use links::Link;
