//! The state of the hub: its greenlets, its objects and jobs, its items, and the operations that its steps are made of.
//! Each operation's contract is one equation on the state of the machine, or says what is read of it.
//!
//! An operation finds items by their greenlets, their numbers and their deadlines, and says where it looks at each.
#![tactic(auto)]

mod ahead;
mod base;
mod begin;
mod counts;
mod due;
mod effects;
mod found;
mod greenlets;
mod hub;
mod in_lines;
mod items;
mod looks;
mod moment;
mod moments;
mod numbers;
mod order;
mod outcomes;
mod phases;
mod questions;
mod raws;
mod rest;
mod seen;
mod touched;
mod unawaited;

pub use greenlets::Stage;
pub use hub::Hub;
pub use seen::Seen;
