//! Bodies of greenlets: where one stands, its moves, and raising.
//!
//! A move copies no syntax: what a body has still to do names places in the blocks of its code (`body_entries`). It
//! knows no hub: what an expression may ask comes through `Look`, and what a statement wants done is a `Request`. A
//! `Frame` runs from one request to the next within a budget of moves. A hub that settles after each move hands a body
//! one move at a time, or a run of moves where nothing is to settle between them: it stays where it is (`Running`)
//! until it has to wait or has ended, and for a longer time the type says where it stands (`Moving`, and `Parked` of
//! `body_entries`).
//!
//! A frame shares the blocks of its code with the names under which they stand, and is seen by these names; what it is
//! run over may be any code. An input that comes where it is not looked at may be any.
#![tactic(auto)]

mod frame;
mod laws;
mod moves;
mod places;
mod primitive_moves;
mod quick;
mod running;
mod runs;
mod stack;
mod step;
mod unwind;

pub use frame::Frame;
pub use laws::steps_keep_few;
pub use places::{Moving, Reached, answer_body, begin_body};
pub use quick::Quick;
pub use running::{Destination, Moved, Running};
pub use runs::{Halt, Ran};
pub use step::{Input, Step};
