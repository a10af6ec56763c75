//! A server whose application has jobs done by a world: each connection is its own session, in whichever order the
//! results come.
#![tactic(auto)]

mod job_app;
mod job_talk;
mod jobs;
mod owners;
mod serving;

pub use job_app::{job_asked, job_on_path, job_reply};
pub use job_talk::{HeldFor, JobTalk};
pub use jobs::Jobs;
pub use serving::{JobsEnd, serve_jobs};
