//! Where bytes come from and go to: the traits `Source` and `Sink`, ends in memory that fail where they are told to,
//! and ends over a reader or a writer of the standard library.
//!
//! A read that fails takes nothing. Whoever writes a stream of their own has to count each call that fails, and no
//! other. What was handed on is a meaning of its own beside what was written: a sink in memory keeps nothing back, and
//! the ends over std tell neither.
#![tactic(auto)]

mod count;
mod limited;
mod limits;
mod memory_sink;
mod memory_source;
mod sink;
mod source;
mod std_sink_edge;
mod std_source_edge;

pub use count::one_more;
pub use limited::{ReadRefusal, read_limited};
pub use limits::MOST_PIECE;
pub use memory_sink::MemorySink;
pub use memory_source::MemorySource;
pub use sink::Sink;
pub use source::{Failed, Source};
pub use std_sink_edge::StdSink;
pub use std_source_edge::StdSource;
