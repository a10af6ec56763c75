//! The world outside of the hub, to which jobs are posted and questions are asked, and two worlds that answer by a
//! rule.
//!
//! `World` speaks of one record, `meaning`, so that "unchanged" is one equation. The script world and the list world
//! keep the outstanding jobs in a table by number and a set of due moments: an answer is judged in constant time, and
//! no question walks over all jobs. Nothing bounds how long a job takes, and `post` has no condition on it.
#![tactic(auto)]

mod due;
mod held;
mod legal;
mod list;
mod outside;
mod outstanding;
mod script;

pub use held::Held;
pub use list::ListWorld;
pub use outside::World;
pub use script::ScriptWorld;
pub use world_rules::{DueJob, LogEntry, PostedJob, Question, eval};
