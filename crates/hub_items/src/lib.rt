//! What is said of the hub's items one by one: which of them go, in which line a wait stands, and which line it looks at.
#![tactic(auto)]

mod gone;
mod waits;

pub use gone::Gone;
pub use waits::{WaitKind, line_ahead};
