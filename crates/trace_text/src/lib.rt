//! The lines of the trace of a run, and their texts.
#![tactic(auto)]

mod line;
mod write;

pub use line::{Awaited, Blocked, Line, LinkCall, Resumed, StopCause};
pub use write::write_line;
