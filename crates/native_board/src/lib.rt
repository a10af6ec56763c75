//! A board that one hub and up to sixteen workers share without a lock: the hub posts jobs into cells, the worker of a
//! cell takes them and leaves their outcomes there, and the hub sweeps these up. A signal says whether a result may
//! have come since the last sweep.
//!
//! `specs/Rules.antt` has the rule of the board, which holds between any two steps of any threads, and
//! `specs/Plays.antt` the steps.
//!
//! It has no lock: over one, each call would take the handle and might wait, and what the contracts say of the order
//! of loads would have to be carried by hand.
#![tactic(auto)]

mod board;
mod found;
mod law;
mod made;
mod passes;
mod rule;
mod steps;
mod views;
mod words;

pub use board::{Bell, Board};
pub use found::{Finished, Looked};
pub use law::{each_job_is_taken_at_most_once, no_result_is_lost};
pub use made::{Made, WorkerPasses};
pub use passes::{HubPass, WorkerPass};
