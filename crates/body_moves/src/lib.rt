//! Moves: what a statement of one line does, and what it asks of its hub.
#![tactic(auto)]

mod chosen;
mod evaluation;

pub use chosen::{Chosen, choose_command, choose_giving};
pub use evaluation::Evaluation;
