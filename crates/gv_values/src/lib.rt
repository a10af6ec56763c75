//! Values and faults of greenlets, names, jobs, and their arithmetic and texts.
#![tactic(auto)]

mod arith;
pub mod arithmetic;
pub mod digits;
mod ends;
mod fault;
mod job;
mod limits;
mod link;
mod list;
mod name;
mod scalar;
mod texts;
mod value;

pub use arith::Arith;
pub use ends::{kept_outcome, link_fits};
pub use fault::{Class, FaultKind};
pub use job::{Answer, Job, JobKind, JobOutcome, job_of};
pub use limits::{
    MOST_CONNECTIONS, MOST_ELEMENTS, MOST_IDLE, MOST_MOVES, MOST_NAME_BYTES, MOST_OPEN_CONNECTIONS,
    MOST_TURNS, MOST_WORKERS,
};
pub use link::LinkKind;
pub use list::{List, PushRefusal};
pub use name::Name;
pub use scalar::Scalar;
pub use texts::{decimal_text, fault_text, int_text, outcome_text, value_text, whom_text};
pub use value::{Outcome, Value, Whom};
