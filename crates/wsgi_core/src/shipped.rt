//! The application that comes with the server.
ghost use Rattle.std.specs.Prelude.{◌≡◌, ◌++◌, [], ◌∷◌, IfOk, OnOk, codes, decimal};
ghost use Rattle.wsgi_core.specs.Shipped.{bad_reply, chunks_reply, content_type, environ_text, late_reply, pair_text, path_of, reply_at, route_of, shipped, whole_reply};

use crate::reply::{Application, Pieces, Reply, Response};
use http_messages::{Bytes, Environ, Headers, Sequence};
use std::alloc::{AllocError, Global};

/// What the paths ask for.
#[derive(Clone, Copy, Debug, PartialEq, Eq)]
pub enum Route {
    /// `/`: a greeting.
    Root,
    /// `/echo`: the body of the request.
    Echo,
    /// `/chunks`: pieces without a length.
    Chunks,
    /// `/environ`: the pairs of the environ.
    Pairs,
    /// `/raise`: a fault before the reply.
    Raise,
    /// `/late`: a fault behind the first piece.
    Late,
    /// `/bad`: a reply that can't be sent.
    Bad,
    /// Every other path.
    Unknown,
}

/// An application that answers by the path alone.
#[derive(Clone, Copy, Debug)]
pub struct ShippedApp;

impl Application for ShippedApp {
    ghost answer_of = { λ _. shipped };

    #[tactic(auto, unfolding(crate::specs::Shipped::shipped))]
    fn call(&self, alloc: Global, environ: &Environ, body: &[u8]) -> Result<Reply, AllocError> {
        reply_at(alloc, route_of(path_of(environ)), environ, body)
    }
}

/// The path of a request; empty where there is none.
pub fn path_of(environ: &Environ) -> &[u8]
    ensures { result.now ≡ path_of environ.now }
{
    match environ.get(b"PATH_INFO") {
        Some(path) => path,
        None => b"",
    }
}

/// What the path asks for.
fn route_of(path: &[u8]) -> Route
    ensures { result ≡ route_of path.now }
{
    if path == b"/".as_slice() {
        Route::Root
    } else if path == b"/echo".as_slice() {
        Route::Echo
    } else if path == b"/chunks".as_slice() {
        Route::Chunks
    } else if path == b"/environ".as_slice() {
        Route::Pairs
    } else if path == b"/raise".as_slice() {
        Route::Raise
    } else if path == b"/late".as_slice() {
        Route::Late
    } else if path == b"/bad".as_slice() {
        Route::Bad
    } else {
        Route::Unknown
    }
}

/// A copy of the bytes.
fn copied(alloc: Global, bytes: &[u8]) -> Result<Bytes, AllocError>
    ensures { IfOk result (λ copy. copy ≡ bytes.now) }
{
    Ok(Sequence::from_vec(Vec::from_slice(alloc, bytes)?))
}

/// Appends a header.
fn push_header(
    alloc: Global,
    headers: &mut Headers,
    name: &[u8],
    value: &[u8],
) -> Result<(), AllocError>
    ensures { OnOk result (headers.new ≡ headers.old ++ (name.now, value.now) ∷ []) }
{
    let name = copied(alloc, name)?;
    let value = copied(alloc, value)?;
    headers.push((name, value))?;
    Ok(())
}

/// The header of the type alone.
fn typed(alloc: Global, kind: &[u8]) -> Result<Headers, AllocError>
    ensures { IfOk result (λ headers. headers ≡ content_type kind.now ∷ []) }
{
    let mut headers = Sequence::new(alloc);
    push_header(alloc, &mut headers, b"Content-Type", kind)?;
    Ok(headers)
}

/// The pieces of a body that is one.
fn one_piece(alloc: Global, body: &[u8]) -> Result<Pieces, AllocError>
    ensures { IfOk result (λ pieces. pieces ≡ body.now ∷ []) }
{
    let piece = copied(alloc, body)?;
    let mut pieces = Sequence::new(alloc);
    pieces.push(piece)?;
    Ok(pieces)
}

/// Appends the header of the length.
fn push_length(alloc: Global, headers: &mut Headers, length: usize) -> Result<(), AllocError>
    ensures { OnOk result (headers.new ≡ headers.old ++ (codes "Content-Length", decimal length) ∷ []) }
{
    let digits = format!(in alloc; "{length}")?;
    push_header(alloc, headers, b"Content-Length", digits.as_bytes())
}

/// The headers of the type and of the length.
fn sized(alloc: Global, kind: &[u8], length: usize) -> Result<Headers, AllocError>
    ensures { IfOk result (λ headers. headers ≡ content_type kind.now ∷ (codes "Content-Length", decimal length) ∷ []) }
{
    let mut headers = typed(alloc, kind)?;
    push_length(alloc, &mut headers, length)?;
    Ok(headers)
}

/// The reply of these parts.
fn started(
    alloc: Global,
    status: &[u8],
    headers: Headers,
    pieces: Pieces,
    raised: bool,
) -> Result<Reply, AllocError>
    ensures { IfOk result (λ reply. reply
        ≡ Reply.Started (record { status = status.now; headers = headers; pieces = pieces; raised = raised })) }
{
    let status = copied(alloc, status)?;
    Ok(Reply::Started(Response {
        status,
        headers,
        pieces,
        raised,
    }))
}

/// A reply of one piece, with its type and its length.
pub fn whole_reply(
    alloc: Global,
    status: &[u8],
    kind: &[u8],
    body: &[u8],
) -> Result<Reply, AllocError>
    ensures { IfOk result (λ reply. reply ≡ whole_reply status.now kind.now body.now) }
{
    let headers = sized(alloc, kind, body.len())?;
    let pieces = one_piece(alloc, body)?;
    Ok(started(alloc, status, headers, pieces, false)?)
}

/// A line for each pair.
fn environ_text(alloc: Global, environ: &Environ) -> Result<Vec<u8>, AllocError>
    ensures { IfOk result (λ text. text.items ≡ environ_text environ.now) }
{
    let mut text = Vec::new(alloc);
    for pair in environ.pairs() {
        text.extend_from_slice(pair.0.items())?;
        text.extend_from_slice(b"=")?;
        text.extend_from_slice(pair.1.items())?;
        text.extend_from_slice(b"\n")?;
    }
    Ok(text)
}

/// Three pieces, of which one is empty.
fn three_pieces(alloc: Global) -> Result<Pieces, AllocError>
    ensures { IfOk result (λ pieces. pieces ≡ codes "one" ∷ [] ∷ codes "two" ∷ []) }
{
    let mut pieces = one_piece(alloc, b"one")?;
    pieces.push(Sequence::new(alloc))?;
    pieces.push(copied(alloc, b"two")?)?;
    Ok(pieces)
}

/// The reply of three pieces.
fn chunks_reply(alloc: Global) -> Result<Reply, AllocError>
    ensures { IfOk result (λ reply. reply ≡ chunks_reply) }
{
    let headers = typed(alloc, b"text/plain")?;
    let pieces = three_pieces(alloc)?;
    Ok(started(alloc, b"200 OK", headers, pieces, false)?)
}

/// The reply that the application breaks off.
fn late_reply(alloc: Global) -> Result<Reply, AllocError>
    ensures { IfOk result (λ reply. reply ≡ late_reply) }
{
    let headers = typed(alloc, b"text/plain")?;
    let pieces = one_piece(alloc, b"part")?;
    Ok(started(alloc, b"200 OK", headers, pieces, true)?)
}

/// The reply with a header that is not the application's to send.
fn bad_reply(alloc: Global) -> Result<Reply, AllocError>
    ensures { IfOk result (λ reply. reply ≡ bad_reply) }
{
    let mut headers = typed(alloc, b"text/plain")?;
    push_header(alloc, &mut headers, b"Connection", b"close")?;
    let pieces = Sequence::new(alloc);
    Ok(started(alloc, b"200 OK", headers, pieces, false)?)
}

/// The reply that a route asks for.
#[tactic(auto, unfolding(crate::specs::Shipped::reply_at))]
fn reply_at(
    alloc: Global,
    route: Route,
    environ: &Environ,
    body: &[u8],
) -> Result<Reply, AllocError>
    ensures { IfOk result (λ reply. reply ≡ reply_at route environ.now body.now) }
{
    match route {
        Route::Root => whole_reply(alloc, b"200 OK", b"text/plain", b"hello\n"),
        Route::Echo => whole_reply(alloc, b"200 OK", b"application/octet-stream", body),
        Route::Chunks => chunks_reply(alloc),
        Route::Pairs => {
            let text = environ_text(alloc, environ)?;
            whole_reply(alloc, b"200 OK", b"text/plain", &text)
        }
        Route::Raise => Ok(Reply::Raised),
        Route::Late => late_reply(alloc),
        Route::Bad => bad_reply(alloc),
        Route::Unknown => whole_reply(alloc, b"404 Not Found", b"text/plain", b"not found\n"),
    }
}
