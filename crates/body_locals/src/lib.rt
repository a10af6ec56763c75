//! The locals of a body, by the numbers of their names.
#![tactic(auto)]

mod locals;

pub use locals::{Bound, Locals};
