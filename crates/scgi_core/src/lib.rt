//! The SCGI gateway: the one request of a connection, read from the front of its bytes, and its answer. The protocol is
//! SCGI (N. Schemenauer, "SCGI: A Simple Common Gateway Interface alternative", 2008), the answer that of CGI (RFC
//! 3875, section 6).
#![tactic(auto)]

mod answer;
mod block;
mod head;
mod laws;
mod length;
mod limits;
mod request;
mod session;

pub use laws::pairs_are_those_written;
pub use request::ScgiRequest;
pub use session::{ScgiSession, ScgiStage};
