//! A sink that counts the lines of what is written, and keeps none of it.
#![tactic(auto)]

mod counter;
mod told;

pub use counter::LineCounter;
