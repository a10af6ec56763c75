//! The blocks of some code by their numbers. No block stands inside another: a statement names those inside it. They are
//! made of a tree that is given up, so that no block of it is copied; names have become numbers.
#![tactic(auto)]

mod adding;
mod blocks;
mod making;
mod statement;
mod turning;

pub use adding::add_block;
pub use blocks::Blocks;
pub use making::Making;
pub use statement::{FlatAction, FlatExcept, FlatStatement, Handlers};
pub use turning::turned;
