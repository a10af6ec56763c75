//! Tables of names: a value for each name, which is found by the bytes of the name.
#![tactic(auto)]

mod names;

pub use names::Names;
