//! A server over any net: each connection is its own session, whatever the others do.
#![tactic(auto)]

mod answering;
mod client;
mod exchange;
mod limits;
mod members;
mod rounds;
mod service;
mod table;

pub use answering::{serve, serve_with};
pub use client::{Client, NEVER};
pub use limits::{Limits, ServeEnd, Terms};
pub use rounds::{ServiceEnd, serve_on};
pub use service::{HoldRefusal, Polled, Replied, Service};
pub use table::ClientTable;
