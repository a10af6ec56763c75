//! What the hub does at a request: the effect of each statement that asks it, how a greenlet waits, and what the
//! end of its wait gives. Each contract is an equation with the definition of the machine of the same meaning.
#![tactic(auto)]

mod awaited;
mod completions;
mod crew_requests;
mod ends;
mod far;
mod gathering;
mod greenlet_requests;
mod kills;
mod late;
mod links;
mod making;
mod members;
mod object_requests;
mod operands;
mod parking;
mod performed;
mod performs;
mod queue_requests;
mod quick;
mod raw_requests;
mod waits;

pub use completions::complete_wait;
pub use ends::{end_greenlet, say_end};
pub use far::{Far, how_far};
pub use late::late_outcome;
pub use performed::Performed;
pub use performs::perform;
pub use quick::{do_at, say_print};
