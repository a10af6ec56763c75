//! A server whose requests an application server answers: each connection is its own session, in whichever order the
//! replies come.
#![tactic(auto)]

mod accounts;
mod exchange;
mod relay_talk;
mod relays;
mod serving;

pub use exchange::Exchange;
pub use relay_talk::RelayTalk;
pub use relays::{AppServer, Relays};
pub use serving::{RelayEnd, serve_relay};
