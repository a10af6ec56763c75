//! The items of the hub, each in a slot: found by slot, by greenlet, by what they wait for, by ready number and by
//! deadline, with no walk over all of them.
#![tactic(auto)]

mod borders;
mod classes;
mod drops;
mod due;
mod held;
mod indexes;
mod limits;
mod lines;
mod moments;
mod next;
mod numbers;
mod owners;
mod shelf;
mod slot;
mod tallies;
mod waits;

pub use held::HeldItems;
pub use limits::MOST_HELD;
pub use tallies::Tally;
pub use waits::{Target, target_of};
