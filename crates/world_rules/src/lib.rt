//! What is asked of a world and what it may answer: the jobs of native threads, the questions at the end of a turn,
//! the legal answers to them, and the rule of a script.
//!
//! The definitions stand in `specs/`: `Evaluate` says what a job comes to, `Legal` which answers are legal, and `Script`
//! what a script answers.
#![tactic(auto)]

mod evaluate;
mod limits;
mod question;

pub use evaluate::eval;
pub use limits::{LAST_MOMENT, MOST_STEPS, MOST_SUMMED};
pub use question::{DueJob, LogEntry, PostedJob, Question};
