//! Answers as bytes.
#![tactic(auto, using(gv_values::proofs::Fronts::fronts))]

ghost use Rattle.std.specs.Prelude.{◌≡◌, ◌<◌, ◌-◌, ◌++◌, IsTrue, OnOk, OnErr, IfOk, codes, decimal, false, length as list_length, take};
ghost use Rattle.std.specs.Fmt.{digits};
ghost use Rattle.std.specs.List.{concat, flat_map, list_all};
ghost use Rattle.gv_values.specs.Fronts.{BeginsWith};
ghost use Rattle.wsgi_core.specs.Answer.{answer, begins_with_code, body_bytes, chunk, coding_line, connection_line, ending, ending_by, falls_short, has_code, has_body_place, has_visible_ends, head_bytes, header_line, is_empty, is_faulty, is_header, is_hop_by_hop, is_reason, is_reason_byte, is_status, is_visible, is_wrong, length_of, line, says_close, sent_by, server_error, stated, status_line};
ghost use Rattle.wsgi_core.specs.Stating.{stated_after};

use crate::reply::{Pieces, Reply, Response};
use gv_values::digits::are_digits;
use http_messages::{ByteQueue, Bytes, Headers, HttpRequest, eq_any_case, parse_length};
use httparse::{is_header_value, is_token};
use std::alloc::{AllocError, Global};

/// What the headers state as the body's length (RFC 9110, section 8.6).
#[derive(Clone, Copy, Debug, PartialEq, Eq)]
pub enum Stated {
    /// Nothing.
    Nothing,
    /// So many bytes.
    Length(u64),
    /// Something that can't be sent.
    Wrong,
}

/// How the end of a body is told (RFC 9112, section 6.3; PEP 3333, "Handling the Content-Length Header").
#[derive(Clone, Copy, Debug, PartialEq, Eq)]
pub enum Ending {
    /// By a length, in bytes.
    Counted(u64),
    /// By the last chunk.
    InChunks,
    /// By the connection's end.
    AtClose,
    /// The status has no body.
    NoBody,
}

/// Whether the byte is a visible one of ASCII.
fn is_visible(byte: u8) -> bool
    ensures { result ≡ is_visible byte }
{
    32 < byte && byte < 127
}

/// Whether the byte may stand in a reason.
fn is_reason_byte(byte: u8) -> bool
    ensures { result ≡ is_reason_byte byte }
{
    is_visible(byte) || byte == b' '
}

/// Whether there are bytes, and the first and the last are visible.
fn has_visible_ends(bytes: &[u8]) -> bool
    ensures { result ≡ has_visible_ends bytes.now }
{
    !bytes.is_empty() && is_visible(bytes[0]) && is_visible(bytes[bytes.len() - 1])
}

/// Whether each byte may stand in a reason.
fn are_reason_bytes(bytes: &[u8]) -> bool
    ensures { result ≡ list_all is_reason_byte bytes.now }
{
    bytes.iter().all(|byte| is_reason_byte(*byte))
}

/// Whether the bytes are a reason.
fn is_reason(bytes: &[u8]) -> bool
    ensures { result ≡ is_reason bytes.now }
{
    has_visible_ends(bytes) && are_reason_bytes(bytes)
}

/// Whether the bytes begin with a code, 200 to 999, and go on.
fn begins_with_code(status: &[u8]) -> bool
    ensures test { result ≡ begins_with_code status.now }
    ensures within { IsTrue result → 4 < list_length status.now }
{
    status.len() > 4 && are_digits(&status[..3]) && status[0] >= b'2'
}

/// Whether the bytes are a status.
fn is_status(status: &[u8]) -> bool
    ensures { result ≡ is_status status.now }
{
    if !begins_with_code(status) {
        return false;
    }
    status[3] == b' ' && is_reason(&status[4..])
}

/// Whether the status has this code.
fn has_code(code: &[u8; 3], status: &[u8]) -> bool
    ensures { result ≡ has_code code.now status.now }
{
    status.len() >= 3 && &status[..3] == code.as_slice()
}

/// Whether the status has a body.
fn has_body_place(status: &[u8]) -> bool
    ensures { result ≡ has_body_place status.now }
{
    !(has_code(b"204", status) || has_code(b"304", status))
}

/// Whether the name belongs to the connection and not to the reply.
fn is_hop_by_hop(name: &[u8]) -> bool
    ensures { result ≡ is_hop_by_hop name.now }
{
    eq_any_case(name, b"Connection")
        || eq_any_case(name, b"Keep-Alive")
        || eq_any_case(name, b"Proxy-Authenticate")
        || eq_any_case(name, b"Proxy-Authorization")
        || eq_any_case(name, b"TE")
        || eq_any_case(name, b"Trailer")
        || eq_any_case(name, b"Transfer-Encoding")
        || eq_any_case(name, b"Upgrade")
}

/// Whether an application may send the header.
fn is_header(name: &[u8], value: &[u8]) -> bool
    ensures { result ≡ is_header (name.now, value.now) }
{
    is_token(name) && is_header_value(value) && !is_hop_by_hop(name)
}

/// Whether an application may send the headers.
fn are_headers(headers: &Headers) -> bool
    ensures { result ≡ list_all is_header headers.now }
{
    for header in headers.items() {
        if !is_header(header.0.items(), header.1.items()) {
            return false;
        }
    }
    true
}

/// What one value of Content-Length states.
fn length_of(value: &[u8]) -> Stated
    ensures { result ≡ length_of value.now }
{
    match parse_length(value) {
        Some(length) => Stated::Length(length),
        None => Stated::Wrong,
    }
}

/// What is stated after one more header.
fn stated_after(stated: Stated, header: &(Bytes, Bytes)) -> Stated
    ensures { result ≡ stated_after stated header.now }
{
    if !eq_any_case(header.0.items(), b"Content-Length") {
        return stated;
    }
    match stated {
        Stated::Nothing => length_of(header.1.items()),
        Stated::Length(_) => Stated::Wrong,
        Stated::Wrong => Stated::Wrong,
    }
}

/// What the headers state as the length.
fn stated_length(headers: &Headers) -> Stated
    ensures { result ≡ stated headers.now }
{
    let mut stated = Stated::Nothing;
    for header in headers.items() {
        let next = stated_after(stated, header);
        stated = next;
    }
    stated
}

/// Whether what is stated can't stand beside a status that has no body, or at all.
fn is_wrong(no_content: bool, stated: Stated) -> bool
    ensures { result ≡ is_wrong no_content stated }
{
    match stated {
        Stated::Nothing => false,
        Stated::Length(_) => no_content,
        Stated::Wrong => true,
    }
}

/// Whether every piece is empty.
fn are_empty(pieces: &Pieces) -> bool
    ensures { result ≡ list_all is_empty pieces.now }
{
    for piece in pieces.items() {
        if !piece.is_empty() {
            return false;
        }
    }
    true
}

/// Whether the reply can't be sent: it raised before a byte of its body, its status or a header is not of the grammar
/// (RFC 9112, sections 4 and 5), or it states a length that it can't have (RFC 9110, section 8.6).
pub fn is_faulty(reply: &Reply) -> bool
    ensures { result ≡ is_faulty reply.now }
{
    match reply {
        Reply::Raised => true,
        Reply::Started(response) => {
            !is_status(response.status.items())
                || !are_headers(&response.headers)
                || is_wrong(
                    has_code(b"204", response.status.items()),
                    stated_length(&response.headers),
                )
                || (response.raised && are_empty(&response.pieces))
        }
    }
}

/// How the end of a reply's body is told (RFC 9112, section 6.3).
pub fn ending_of(minor: u8, status: &[u8], headers: &Headers) -> Ending
    ensures { result ≡ ending_by (has_body_place status.now) minor (stated headers.now) }
{
    if !has_body_place(status) {
        return Ending::NoBody;
    }
    match stated_length(headers) {
        Stated::Length(length) => Ending::Counted(length),
        _ if minor == 1 => Ending::InChunks,
        _ => Ending::AtClose,
    }
}

/// Whether the answer says that the connection closes.
fn says_close(request: &HttpRequest, ending: Ending) -> bool
    ensures { result ≡ says_close request.now ending }
{
    !request.persists || ending == Ending::AtClose
}

/// Appends the line on the connection.
fn push_connection(
    out: &mut ByteQueue,
    request: &HttpRequest,
    ending: Ending,
) -> Result<(), AllocError>
    ensures sent { OnOk result (out.new ≡ out.old ++ connection_line request.now ending) }
    ensures err { OnErr result (BeginsWith out.new out.old) }
{
    if says_close(request, ending) {
        return out.append(b"Connection: close\r\n");
    }
    if request.minor == 0 {
        return out.append(b"Connection: keep-alive\r\n");
    }
    Ok(())
}

/// Appends a header as a line (RFC 9112, section 5), with the name as the application spelt it.
fn push_header(out: &mut ByteQueue, header: &(Bytes, Bytes)) -> Result<(), AllocError>
    ensures sent { OnOk result (out.new ≡ out.old ++ header_line header.now) }
    ensures err { OnErr result (BeginsWith out.new out.old) }
{
    out.append(header.0.items())?;
    out.append(b": ")?;
    out.append(header.1.items())?;
    out.append(b"\r\n")
}

/// Appends the headers as lines.
pub fn push_headers(out: &mut ByteQueue, headers: &Headers) -> Result<(), AllocError>
    ensures sent { OnOk result (out.new ≡ out.old ++ flat_map header_line headers.now) }
    ensures err { OnErr result (BeginsWith out.new out.old) }
{
    for header in headers.items() {
        push_header(out, header)?;
    }
    Ok(())
}

/// Appends the line that tells that chunks follow, where they do.
fn push_coding(out: &mut ByteQueue, ending: Ending) -> Result<(), AllocError>
    ensures sent { OnOk result (out.new ≡ out.old ++ coding_line ending) }
    ensures err { OnErr result (BeginsWith out.new out.old) }
{
    if ending == Ending::InChunks {
        return out.append(b"Transfer-Encoding: chunked\r\n");
    }
    Ok(())
}

/// Appends the version, with a space behind it.
fn push_version(alloc: Global, out: &mut ByteQueue, minor: u8) -> Result<(), AllocError>
    ensures sent { OnOk result (out.new ≡ out.old ++ (codes "HTTP/1." ++ decimal minor ++ codes " ")) }
    ensures err { OnErr result (BeginsWith out.new out.old) }
{
    let version = format!(in alloc; "HTTP/1.{minor} ")?;
    out.append(version.as_bytes())
}

/// Appends the line of the version and the status.
fn push_status(
    alloc: Global,
    out: &mut ByteQueue,
    minor: u8,
    status: &[u8],
) -> Result<(), AllocError>
    ensures sent { OnOk result (out.new ≡ out.old ++ status_line minor status.now) }
    ensures err { OnErr result (BeginsWith out.new out.old) }
{
    push_version(alloc, out, minor)?;
    out.append(status)?;
    out.append(b"\r\n")
}

/// Appends the head of an answer.
fn push_head(
    alloc: Global,
    out: &mut ByteQueue,
    request: &HttpRequest,
    ending: Ending,
    response: &Response,
) -> Result<(), AllocError>
    ensures sent { OnOk result (out.new ≡ out.old ++ head_bytes request.now ending response.now) }
    ensures err { OnErr result (BeginsWith out.new out.old) }
{
    push_status(alloc, out, request.minor, response.status.items())?;
    push_headers(out, &response.headers)?;
    push_coding(out, ending)?;
    push_connection(out, request, ending)?;
    out.append(b"\r\n")
}

/// Appends a line.
fn push_line(out: &mut ByteQueue, text: &[u8]) -> Result<(), AllocError>
    ensures sent { OnOk result (out.new ≡ out.old ++ line text.now) }
    ensures err { OnErr result (BeginsWith out.new out.old) }
{
    out.append(text)?;
    out.append(b"\r\n")
}

/// Appends the line of a chunk's size.
fn push_size(alloc: Global, out: &mut ByteQueue, size: usize) -> Result<(), AllocError>
    ensures sent { OnOk result (out.new ≡ out.old ++ line (digits 16 false size)) }
    ensures err { OnErr result (BeginsWith out.new out.old) }
{
    let digits = format!(in alloc; "{size:x}")?;
    push_line(out, digits.as_bytes())
}

/// Appends a piece of a chunked body.
fn push_chunk(alloc: Global, out: &mut ByteQueue, piece: &[u8]) -> Result<(), AllocError>
    ensures sent { OnOk result (out.new ≡ out.old ++ chunk piece.now) }
    ensures err { OnErr result (BeginsWith out.new out.old) }
{
    if piece.is_empty() {
        return Ok(());
    }
    push_size(alloc, out, piece.len())?;
    push_line(out, piece)
}

/// Appends the pieces of a chunked body, and the last chunk unless the application raised.
fn push_chunks(
    alloc: Global,
    out: &mut ByteQueue,
    pieces: &Pieces,
    raised: bool,
) -> Result<(), AllocError>
    ensures sent { OnOk result (out.new ≡ out.old ++ body_bytes Ending.InChunks pieces.now raised) }
    ensures err { OnErr result (BeginsWith out.new out.old) }
{
    for piece in pieces.items() {
        push_chunk(alloc, out, piece.items())?;
    }
    if raised {
        return Ok(());
    }
    out.append(b"0\r\n\r\n")
}

/// Appends the first `length` bytes of the pieces; answers how many of them are missing.
fn push_counted(out: &mut ByteQueue, length: u64, pieces: &Pieces) -> Result<u64, AllocError>
    ensures sent { OnOk result (out.new ≡ out.old ++ take length (concat pieces.now)) }
    ensures missing { IfOk result (λ missing. missing ≡ length - list_length (concat pieces.now)) }
    ensures err { OnErr result (BeginsWith out.new out.old) }
{
    let mut left = length;
    for piece in pieces.items() {
        let bytes = piece.items();
        let len = left.min(bytes.len() as u64);
        out.append(&bytes[..len as usize])?;
        left -= len;
    }
    Ok(left)
}

/// Appends the pieces.
fn push_pieces(out: &mut ByteQueue, pieces: &Pieces) -> Result<(), AllocError>
    ensures sent { OnOk result (out.new ≡ out.old ++ concat pieces.now) }
    ensures err { OnErr result (BeginsWith out.new out.old) }
{
    for piece in pieces.items() {
        out.append(piece.items())?;
    }
    Ok(())
}

/// Appends a body, plain or by chunks (RFC 9112, section 7.1); answers whether the pieces fall short of the stated
/// length.
pub fn push_body(
    alloc: Global,
    out: &mut ByteQueue,
    ending: Ending,
    pieces: &Pieces,
    raised: bool,
) -> Result<bool, AllocError>
    ensures sent { OnOk result (out.new ≡ out.old ++ body_bytes ending pieces.now raised) }
    ensures short { IfOk result (λ short. short ≡ falls_short ending pieces.now) }
    ensures err { OnErr result (BeginsWith out.new out.old) }
{
    match ending {
        Ending::NoBody => Ok(false),
        Ending::Counted(length) => {
            let missing = push_counted(out, length, pieces)?;
            Ok(missing > 0)
        }
        Ending::InChunks => {
            push_chunks(alloc, out, pieces, raised)?;
            Ok(false)
        }
        Ending::AtClose => {
            push_pieces(out, pieces)?;
            Ok(false)
        }
    }
}

/// Appends the answer that replaces a faulty reply.
fn push_server_error(out: &mut ByteQueue, request: &HttpRequest) -> Result<(), AllocError>
    ensures sent { OnOk result (out.new ≡ out.old ++ (server_error request.now).bytes) }
    ensures err { OnErr result (BeginsWith out.new out.old) }
{
    out.append(
        b"HTTP/1.1 500 Internal Server Error\r\nContent-Type: text/plain\r\nConnection: close\r\nContent-Length: 21\r\n\r\n",
    )?;
    if request.is_head {
        return Ok(());
    }
    out.append(b"Internal Server Error")
}

/// Appends a response that can be sent; answers whether the session closes after it.
fn push_started(
    alloc: Global,
    out: &mut ByteQueue,
    request: &HttpRequest,
    response: &Response,
) -> Result<bool, AllocError>
    ensures sent { OnOk result (out.new ≡ out.old ++ (sent_by request.now (ending request.now response.now) response.now).bytes) }
    ensures closes { IfOk result (λ closes. closes ≡ (sent_by request.now (ending request.now response.now) response.now).closes) }
    ensures err { OnErr result (BeginsWith out.new out.old) }
{
    let ending = ending_of(request.minor, response.status.items(), &response.headers);
    push_head(alloc, out, request, ending, response)?;
    let closes = says_close(request, ending) || response.raised;
    if request.is_head {
        return Ok(closes);
    }
    let short = push_body(alloc, out, ending, &response.pieces, response.raised)?;
    Ok(closes || short)
}

/// Appends the answer to a request, or without memory a part of it; answers whether the session closes after it.
fn push_reply(
    alloc: Global,
    out: &mut ByteQueue,
    request: &HttpRequest,
    reply: &Reply,
) -> Result<bool, AllocError>
    ensures sent { OnOk result (out.new ≡ out.old ++ (answer request.now reply.now).bytes) }
    ensures closes { IfOk result (λ closes. closes ≡ (answer request.now reply.now).closes) }
    ensures err { OnErr result (BeginsWith out.new out.old) }
{
    if is_faulty(reply) {
        push_server_error(out, request)?;
        return Ok(true);
    }
    match reply {
        Reply::Raised => {
            push_server_error(out, request)?;
            Ok(true)
        }
        Reply::Started(response) => push_started(alloc, out, request, response),
    }
}

/// Appends the answer to a request; answers whether the session closes after it (RFC 9112, sections 9.3 and 9.6). After
/// an `Err` nothing has changed.
pub fn push_answer(
    alloc: Global,
    out: &mut ByteQueue,
    request: &HttpRequest,
    reply: &Reply,
) -> Result<bool, AllocError>
    ensures sent { OnOk result (out.new ≡ out.old ++ (answer request.now reply.now).bytes) }
    ensures closes { IfOk result (λ closes. closes ≡ (answer request.now reply.now).closes) }
    ensures err { OnErr result (out.new ≡ out.old) }
{
    let len = out.len();
    let pushed = push_reply(alloc, out, request, reply);
    all_or_nothing(pushed, out, len)
}

/// After a failure, takes off what was appended behind the first `len` bytes.
pub fn all_or_nothing<T>(
    pushed: Result<T, AllocError>,
    out: &mut ByteQueue,
    len: usize,
) -> Result<T, AllocError>
    ensures same { result ≡ pushed }
    ensures ok { OnOk pushed (out.new ≡ out.old) }
    ensures err { OnErr pushed (out.new ≡ take len out.old) }
{
    if pushed.is_err() {
        out.truncate(len);
    }
    pushed
}
