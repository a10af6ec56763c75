//! What a trace says with no engine at hand: its lines, and the answers that they name; whether they meet the laws; and
//! when it is a run, or where and why it departs from one.
#![tactic(auto)]

mod compare;
mod lawful;
mod laws;
mod parts;
mod reading;
mod refusal;

pub use compare::CompareSink;
pub use lawful::{LawlessTrace, check_laws};
pub use laws::{LawRefusal, Laws};
pub use parts::mark_place;
pub use reading::{FirstLine, first_line, named_answers};
pub use refusal::{Cause, TraceRefusal};
