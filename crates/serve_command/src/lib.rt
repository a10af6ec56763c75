//! The command `serve` over any net and any sink.
#![tactic(auto)]

mod jobs;
mod lines;
mod relay;
mod serving;
mod telling;

pub use jobs::serve_jobs_command;
pub use lines::push_number_line;
pub use relay::{RelayTerms, serve_relay_command};
pub use serving::{Served, serve_command};
