//! Requests without their bodies.
use crate::environ::Environ;
use crate::sequence::Sequence;

/// Bytes that contracts see as their list.
pub type Bytes = Sequence<u8>;

/// Names and their values, in order.
pub type Headers = Sequence<(Bytes, Bytes)>;

/// How the bytes of a body are counted (RFC 9112, section 6.3).
#[derive(Clone, Copy, Debug, Drop)]
pub enum Framing {
    /// By Content-Length, in bytes (RFC 9112, section 6.2).
    Sized(usize),
    /// By chunks (RFC 9112, section 7.1).
    Chunked,
}

/// What a head asks for.
#[derive(Drop)]
pub struct HttpRequest {
    /// What an application is handed.
    pub environ: Environ,
    /// Whether the method is HEAD, whose answer has no body (RFC 9110, section 9.3.2).
    pub is_head: bool,
    /// The minor version of HTTP/1 (RFC 9112, section 2.3).
    pub minor: u8,
    /// Whether the client wants the connection to stay (RFC 9112, section 9.3).
    pub persists: bool,
    /// Whether the client waits for `100 Continue` before it sends the body (RFC 9110, section 10.1.1).
    pub continues: bool,
    /// How the body is counted.
    pub framing: Framing,
}

/// What is left of a body.
#[derive(Drop)]
pub enum AwaitedBody {
    /// So many bytes.
    Counted(usize),
    /// Chunks after those that came.
    InChunks(Bytes),
    /// A chunk of so many bytes, its line end and what follows, after the chunks that came.
    InChunk(Bytes, usize),
    /// The lines after the last chunk (RFC 9112, section 7.1.2); the body is whole.
    InTrailers(Bytes),
}
