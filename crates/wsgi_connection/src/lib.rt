//! One connection: the bytes that a source gives go into a session, and what the session says goes out.
#![tactic(auto)]

mod connection;

pub use connection::{ConnectionEnd, answer_connection};
