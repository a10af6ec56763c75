//! The grammar of a connection's requests: heads, their judgement, environs and bodies, read from the
//! front of the bytes that came.
#![tactic(auto)]

mod body;
mod environ;
mod fields;
mod found;
mod head;
mod judge;
mod laws;
mod limits;
mod queue;
mod refusal;
mod request;
mod scan;
mod sequence;

pub use body::{awaited_by, read_body};
pub use environ::{Environ, KeyClass};
pub use found::{BodyFound, BodyStep, Found, Sight};
pub use head::read_request;
pub use judge::parse_length;
pub use laws::{chunk_lines_are_of_the_grammar, heads_are_of_the_grammar};
pub use limits::MOST_BODY;
pub use queue::ByteQueue;
pub use refusal::Refusal;
pub use request::{AwaitedBody, Bytes, Framing, Headers, HttpRequest};
pub use scan::{LinePlace, eq_any_case};
pub use sequence::Sequence;
