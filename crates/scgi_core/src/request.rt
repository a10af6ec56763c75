//! What a head asks for, and what the bytes at the front decide.
use http_messages::{Bytes, Environ, Refusal};

/// What a head asks for (SCGI, section 3).
#[derive(Drop)]
pub struct ScgiRequest {
    /// What an application is handed: the pairs of the head in order, without SCGI.
    pub environ: Environ,
    /// Whether the method is HEAD, whose answer has no body (RFC 3875, section 4.3.3).
    pub is_head: bool,
    /// The number of bytes of the body, which CONTENT_LENGTH tells.
    pub length: usize,
}

/// Where a session stands.
#[derive(Drop)]
pub enum ScgiStage {
    /// Before the end of the head.
    AtHead,
    /// Within the body of a request.
    InBody(ScgiRequest),
}

/// The length of a head, read from the front.
#[derive(Clone, Copy)]
pub enum LengthFound {
    /// More bytes have to come.
    LengthWaits,
    /// It can't come any more.
    LengthRefused,
    /// This length, and the number of bytes that it and its `:` take.
    LengthWhole(usize, usize),
}

/// A reading of a request with its body.
#[derive(Drop)]
pub enum CallFound {
    /// More bytes have to come; the reading goes on from this stage.
    CallWaits(ScgiStage),
    /// It can't come any more.
    CallRefused(Refusal),
    /// It was there, and its bytes are taken.
    CallWhole(ScgiRequest, Bytes),
}
