//! Streams that are opened towards one address: the trait `Dial`, and such streams in memory, which go by scripts.
#![tactic(auto)]

mod dial;
mod memory_dial;

pub use dial::Dial;
pub use memory_dial::MemoryDial;
