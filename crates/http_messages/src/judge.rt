//! What a head asks for.
ghost use Rattle.std.specs.Prelude.{◌≡◌, ◌≤◌, ◌==◌, ◌&&◌, IfOk, None, Some, codes, length, reverse, if◌then◌else◌};
ghost use Rattle.std.specs.List.{list_any};
ghost use Rattle.std.specs.Str.{bytes_eq, str_eq_ignore_ascii_case};
ghost use Rattle.std.specs.Str.Parse.{digits_value};
ghost use Rattle.httparse.specs.Grammar.{is_ows, skip_ows, trim_ows};
ghost use Rattle.http_messages.specs.Cuts.{empty_line};
ghost use Rattle.http_messages.specs.Head.{request_head};
ghost use Rattle.http_messages.specs.Requests.{announces_body, coded_by, does_persist, expects, framing_by, framing_of, has_member, is_allowed_target, is_length, judged, on_framing, request_of, sized_by};

use crate::environ::environ_of;
use crate::fields::{Fields, Head, values};
use crate::head::read_head;
use crate::limits::{MOST_BODY, MOST_FIELDS, MOST_LENGTH_DIGITS};
use crate::refusal::Refusal;
use crate::request::{Bytes, Framing, HttpRequest};
use crate::scan::{eq_any_case, find_byte};
use crate::sequence::Sequence;
use httparse::spans::EMPTY_HEADER_SPAN;
use std::alloc::{AllocError, Global};

/// The number that 1 to 19 digits write (RFC 9110, section 8.6); `None` exactly where the bytes are none.
pub fn parse_length(digits: &[u8]) -> Option<u64>
    ensures { result ≡ (if is_length digits.now then Some (digits_value 10 digits.now) else None) }
{
    if digits.is_empty() || digits.len() > MOST_LENGTH_DIGITS {
        return None;
    }
    let mut value: u64 = 0;
    for digit in digits {
        if !digit.is_ascii_digit() {
            return None;
        }
        value = value * 10 + u64::from(*digit - b'0');
    }
    Some(value)
}

/// How a Content-Length frames the body.
fn sized_by(digits: &[u8]) -> Result<Framing, Refusal>
    ensures { result ≡ sized_by digits.now }
{
    match parse_length(digits) {
        None => Err(Refusal::BadRequest),
        Some(length) if length <= MOST_BODY as u64 => Ok(Framing::Sized(length as usize)),
        Some(_) => Err(Refusal::TooLarge),
    }
}

/// How a Transfer-Encoding frames the body.
fn coded_by(minor: u8, coding: &[u8]) -> Result<Framing, Refusal>
    ensures { result ≡ coded_by minor coding.now }
{
    if minor == 1 && coding.eq_ignore_ascii_case(b"chunked") {
        Ok(Framing::Chunked)
    } else {
        Err(Refusal::BadRequest)
    }
}

/// How the values of Content-Length and Transfer-Encoding frame the body.
fn framing_by(
    minor: u8,
    lengths: &Sequence<Bytes>,
    codings: &Sequence<Bytes>,
) -> Result<Framing, Refusal>
    ensures { result ≡ framing_by minor lengths.now codings.now }
{
    match (lengths.items(), codings.items()) {
        ([], []) => Ok(Framing::Sized(0)),
        ([digits], []) => sized_by(digits.items()),
        ([], [coding]) => coded_by(minor, coding.items()),
        _ => Err(Refusal::BadRequest),
    }
}

/// Whether the byte is a blank.
fn is_ows(byte: u8) -> bool
    ensures { result ≡ is_ows byte }
{
    byte == b' ' || byte == b'\t'
}

/// The bytes from the first that is no blank.
fn skip_ows(bytes: &[u8]) -> &[u8]
    ensures { result.now ≡ skip_ows bytes.now }
{
    for at in 0..bytes.len() {
        if !is_ows(bytes[at]) {
            return &bytes[at..];
        }
    }
    b""
}

/// The bytes up to the last that is no blank.
fn skip_ows_back(bytes: &[u8]) -> &[u8]
    ensures { result.now ≡ reverse (skip_ows (reverse bytes.now)) }
{
    let mut end = bytes.len();
    while end > 0 && is_ows(bytes[end - 1]) {
        end -= 1;
    }
    &bytes[..end]
}

/// The bytes without the blanks at both ends.
fn trim_ows(bytes: &[u8]) -> &[u8]
    ensures { result.now ≡ trim_ows bytes.now }
{
    skip_ows_back(skip_ows(bytes))
}

/// Whether the list that this value is has the option, in any case.
fn has_member(option: &[u8], value: &[u8]) -> bool
    ensures { result ≡ has_member option.now value.now }
{
    let mut rest = value;
    loop {
        let end = find_byte(rest, b',');
        if eq_any_case(trim_ows(&rest[..end]), option) {
            return true;
        }
        if end == rest.len() {
            return false;
        }
        rest = &rest[end + 1..];
    }
}

/// Whether a list among the values has the option, in any case.
fn has_option(option: &[u8], values: &Sequence<Bytes>) -> bool
    ensures { result ≡ list_any (has_member option.now) values.now }
{
    values
        .items()
        .iter()
        .any(|value| has_member(option, value.items()))
}

/// Whether a head may have this target.
fn is_allowed_target(target: &[u8]) -> bool
    ensures { result ≡ is_allowed_target target.now }
{
    target == b"*".as_slice() || target.starts_with(b"/") || target.starts_with(b"http://")
}

/// Whether a body of at least one byte, or of chunks, is announced.
fn announces_body(framing: Framing) -> bool
    ensures { result ≡ announces_body framing }
{
    match framing {
        Framing::Sized(length) => length > 0,
        Framing::Chunked => true,
    }
}

/// Whether the client wants the connection to stay (RFC 9112, section 9.3): in HTTP/1.1 unless a Connection field has
/// `close`, in HTTP/1.0 where one has `keep-alive`.
fn does_persist(alloc: Global, head: &Head<'_>) -> Result<bool, AllocError>
    ensures { IfOk result (λ persists. persists ≡ does_persist head.now.minor head.now.fields) }
{
    let options = values(alloc, &head.fields, b"Connection")?;
    if head.minor == 1 {
        Ok(!has_option(b"close", &options))
    } else {
        Ok(has_option(b"keep-alive", &options))
    }
}

/// Whether an Expect field is `100-continue` (RFC 9110, section 10.1.1).
fn expects(alloc: Global, fields: &Fields<'_>) -> Result<bool, AllocError>
    ensures { IfOk result (λ expected. expected ≡ expects fields.now) }
{
    let expectations = values(alloc, fields, b"Expect")?;
    Ok(is_expected(&expectations))
}

/// Whether a value is `100-continue`, in any case.
fn is_expected(expectations: &Sequence<Bytes>) -> bool
    ensures { result ≡ list_any (λ value. str_eq_ignore_ascii_case value (codes "100-continue")) expectations.now }
{
    expectations
        .items()
        .iter()
        .any(|value| eq_any_case(value.items(), b"100-continue"))
}

/// Whether `100 Continue` is sent before the body is read.
fn does_continue(framing: Framing, minor: u8, expected: bool) -> bool
    ensures { result ≡ (minor == 1 && announces_body framing && expected) }
{
    minor == 1 && announces_body(framing) && expected
}

/// Whether the method is HEAD.
fn is_head(method: &[u8]) -> bool
    ensures { result ≡ bytes_eq method.now (codes "HEAD") }
{
    method == b"HEAD".as_slice()
}

/// How the fields frame the body (RFC 9112, section 6.3).
fn framing_of(alloc: Global, head: &Head<'_>) -> Result<Result<Framing, Refusal>, AllocError>
    ensures { IfOk result (λ framing. framing ≡ framing_of head.now.minor head.now.fields) }
{
    let lengths = values(alloc, &head.fields, b"Content-Length")?;
    let codings = values(alloc, &head.fields, b"Transfer-Encoding")?;
    Ok(framing_by(head.minor, &lengths, &codings))
}

/// The request of the head, whose target is allowed.
fn framed_request(
    alloc: Global,
    head: &Head<'_>,
) -> Result<Result<HttpRequest, Refusal>, AllocError>
    ensures { IfOk result (λ judged. judged ≡ on_framing head.now.port head.now.method.now head.now.target.now head.now.minor head.now.fields (framing_of head.now.minor head.now.fields)) }
{
    let framing = framing_of(alloc, head)?;
    match framing {
        Err(reason) => Ok(Err(reason)),
        Ok(framing) => {
            let persists = does_persist(alloc, head)?;
            let expected = expects(alloc, &head.fields)?;
            let environ = environ_of(alloc, head)?;
            Ok(Ok(HttpRequest {
                environ,
                is_head: is_head(head.method),
                minor: head.minor,
                persists,
                continues: does_continue(framing, head.minor, expected),
                framing,
            }))
        }
    }
}

/// The request that the head asks for, or the reason to refuse it.
fn request_of(alloc: Global, head: &Head<'_>) -> Result<Result<HttpRequest, Refusal>, AllocError>
    ensures { IfOk result (λ judged. judged ≡ request_of head.now.port head.now.method.now head.now.target.now head.now.minor head.now.fields) }
{
    if is_allowed_target(head.target) {
        framed_request(alloc, head)
    } else {
        Ok(Err(Refusal::BadRequest))
    }
}

/// The request of the head that these bytes are (RFC 9112, section 3), or why it is refused.
pub fn request_of_head(
    alloc: Global,
    port: u16,
    head: &[u8],
) -> Result<Result<HttpRequest, Refusal>, AllocError>
    requires { empty_line head.now ≡ 0 }
    ensures { IfOk result (λ found. found ≡ judged port (request_head head.now)) }
{
    let mut headers = [EMPTY_HEADER_SPAN; MOST_FIELDS];
    match read_head(head, &mut headers) {
        None => Ok(Err(Refusal::BadRequest)),
        Some(spans) => {
            let fields = Fields::new(head, &headers[..spans.headers]);
            let head = Head {
                port,
                method: spans.method.of(head),
                target: spans.path.of(head),
                minor: spans.version,
                fields,
            };
            request_of(alloc, &head)
        }
    }
}
