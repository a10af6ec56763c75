//! Answers as bytes (RFC 3875, section 6.2.1).
#![tactic(auto, using(gv_values::proofs::Fronts::fronts))]

ghost use Rattle.std.specs.Prelude.{◌≡◌, ◌++◌, OnErr, OnOk};
ghost use Rattle.gv_values.specs.Fronts.{BeginsWith};
ghost use Rattle.scgi_core.specs.Answer.{cgi_answer, cgi_refusal, cgi_server_error, started};

use http_messages::{ByteQueue, Refusal};
use std::alloc::{AllocError, Global};
use wsgi_core::{Reply, Response, all_or_nothing, ending_of, is_faulty, push_body, push_headers};

/// The fixed answer of a refusal.
pub fn refusal_text(reason: Refusal) -> &'static [u8]
    ensures { result.now ≡ cgi_refusal reason }
{
    match reason {
        Refusal::BadRequest => b"Status: 400 Bad Request\r\nContent-Length: 0\r\n\r\n",
        Refusal::TooLarge => b"Status: 413 Request Entity Too Large\r\nContent-Length: 0\r\n\r\n",
        Refusal::TooLong => b"Status: 414 Request URI Too Long\r\nContent-Length: 0\r\n\r\n",
    }
}

/// Appends the answer that replaces a faulty reply.
fn push_server_error(out: &mut ByteQueue, is_head: bool) -> Result<(), AllocError>
    ensures sent { OnOk result (out.new ≡ out.old ++ cgi_server_error is_head) }
    ensures err { OnErr result (BeginsWith out.new out.old) }
{
    out.append(
        b"Status: 500 Internal Server Error\r\nContent-Type: text/plain\r\nContent-Length: 21\r\n\r\n",
    )?;
    if is_head {
        return Ok(());
    }
    out.append(b"Internal Server Error")
}

/// Appends a response that can be sent: its status (RFC 3875, section 6.3.3), its headers, an empty line,
/// and its body, which HEAD has none of.
fn push_started(
    alloc: Global,
    out: &mut ByteQueue,
    is_head: bool,
    response: &Response,
) -> Result<(), AllocError>
    ensures sent { OnOk result (out.new ≡ out.old ++ started is_head response.now) }
    ensures err { OnErr result (BeginsWith out.new out.old) }
{
    out.append(b"Status: ")?;
    out.append(response.status.items())?;
    out.append(b"\r\n")?;
    push_headers(out, &response.headers)?;
    out.append(b"\r\n")?;
    if is_head {
        return Ok(());
    }
    let ending = ending_of(0, response.status.items(), &response.headers);
    push_body(alloc, out, ending, &response.pieces, response.raised)?;
    Ok(())
}

/// Appends the answer to a request, or without memory a part of it.
fn push_reply(
    alloc: Global,
    out: &mut ByteQueue,
    is_head: bool,
    reply: &Reply,
) -> Result<(), AllocError>
    ensures sent { OnOk result (out.new ≡ out.old ++ cgi_answer is_head reply.now) }
    ensures err { OnErr result (BeginsWith out.new out.old) }
{
    if is_faulty(reply) {
        return push_server_error(out, is_head);
    }
    match reply {
        Reply::Raised => push_server_error(out, is_head),
        Reply::Started(response) => push_started(alloc, out, is_head, response),
    }
}

/// Appends the answer to a request (RFC 3875, section 6). After an `Err` nothing has changed.
pub fn push_answer(
    alloc: Global,
    out: &mut ByteQueue,
    is_head: bool,
    reply: &Reply,
) -> Result<(), AllocError>
    ensures sent { OnOk result (out.new ≡ out.old ++ cgi_answer is_head reply.now) }
    ensures err { OnErr result (out.new ≡ out.old) }
{
    let len = out.len();
    let pushed = push_reply(alloc, out, is_head, reply);
    all_or_nothing(pushed, out, len)
}
