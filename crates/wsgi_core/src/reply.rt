//! What applications are, and what they answer.
ghost use Rattle.std.specs.Prelude.{◌≡◌, ℕ, List, IfOk};
ghost use Rattle.wsgi_core.specs.declared.reply.Reply.{Reply};

use http_messages::{Bytes, Environ, Headers, Sequence};
use std::alloc::{AllocError, Global};

/// The pieces of a body, in order.
pub type Pieces = Sequence<Bytes>;

/// A response that an application started (PEP 3333, "The start_response() Callable").
#[derive(Drop)]
pub struct Response {
    /// The code and the reason, as `200 OK`.
    pub status: Bytes,
    /// The headers in order.
    pub headers: Headers,
    /// The pieces of the body in order.
    pub pieces: Pieces,
    /// Whether the application raised behind the last piece.
    pub raised: bool,
}

/// An application's answer to a request.
#[derive(Drop)]
pub enum Reply {
    /// It raised before it started a response.
    Raised,
    /// It started this response.
    Started(Response),
}

/// An application: a function of the environ and the body (PEP 3333, "The Application/Framework Side").
pub trait Application {
    /// The reply to each environ and body, by the number of the request on its connection, from 0.
    ghost answer_of: { Self → ℕ → List (List ℕ × List ℕ) → List ℕ → Reply };

    /// Answers a request. It isn't told the number, so the reply is that to the request under each.
    fn call(&self, alloc: Global, environ: &Environ, body: &[u8]) -> Result<Reply, AllocError>
        ensures { IfOk result (λ reply. (number : ℕ) → reply ≡ answer_of self.now number environ.now body.now) };
}
