//! The run of a scenario in its world, which is begun before and finished after; and the scenario that a storm runs.
#![tactic(auto)]

mod running;
mod storming;

pub use running::{is_broken_off, run_scenario};
pub use storming::{storm_text, storms_are_spelt};
