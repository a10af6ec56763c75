//! Heads: where they end, and what they are.
ghost use Rattle.std.specs.Prelude.{◌≡◌, ◌<◌, ◌≤◌, ℕ, List, length, drop, Some, IfOk, IfSome, IfNone};
ghost use Rattle.httparse.specs.Grammar.{RequestHead};
ghost use Rattle.httparse.specs.Spans.{IsRequestAt, IsRequestWithin};
ghost use Rattle.http_messages.specs.declared.limits.TheConstants.{MOST_FIELDS};
ghost use Rattle.http_messages.specs.Cuts.{drop_empty_lines, empty_line};
ghost use Rattle.http_messages.specs.Head.{request_head};
ghost use Rattle.http_messages.specs.Readings.{Finds, Sees};
ghost use Rattle.http_messages.specs.Requests.{head_at, request_at};

use crate::found::{Found, Sight};
use crate::judge::request_of_head;
use crate::limits::{MOST_FIRST_LINE, MOST_HEAD};
use crate::queue::ByteQueue;
use crate::refusal::Refusal;
use crate::request::HttpRequest;
use crate::scan::empty_line;
use httparse::Status;
use httparse::spans::{HeaderSpan, RequestSpans, parse_request};
use std::alloc::{AllocError, Global};

/// The length of the empty lines at the front.
fn empty_lines_len(bytes: &[u8]) -> usize
    ensures within { result ≤ length bytes.now }
    ensures rest { drop result bytes.now ≡ drop_empty_lines bytes.now }
    ensures line { empty_line (drop result bytes.now) ≡ 0 }
{
    let mut at = 0;
    loop {
        let len = empty_line(&bytes[at..]);
        if len == 0 {
            return at;
        }
        at += len;
    }
}

/// Where the head at the front ends.
fn head_end(kept: &mut ByteQueue) -> Sight
    ensures sees { Sees result kept.old (head_at kept.old) }
    ensures same { kept.new ≡ kept.old }
{
    let Some(_) = kept.line_end(MOST_FIRST_LINE) else {
        return if kept.len() > MOST_FIRST_LINE {
            Sight::Excluded(Refusal::TooLong)
        } else {
            Sight::Unseen
        };
    };
    match kept.empty_line_end(MOST_HEAD) {
        Some(end) => Sight::Ends(end),
        None if kept.len() >= MOST_HEAD => Sight::Excluded(Refusal::BadRequest),
        None => Sight::Unseen,
    }
}

/// The parts of the head that these bytes are, if it is a head of the grammar with at most `MOST_FIELDS` fields.
pub fn read_head(head: &[u8], headers: &mut [HeaderSpan]) -> Option<RequestSpans>
    requires room { length headers.old ≡ MOST_FIELDS }
    requires begun { empty_line head.now ≡ 0 }
    ensures found { IfSome result (λ spans. (h : RequestHead) × (request_head head.now ≡ Some h)
        × (length h.fields ≤ MOST_FIELDS) × IsRequestAt head.now headers.new spans h) }
    ensures within { IfSome result (λ spans. IsRequestWithin head.now headers.new spans) }
    ensures none { IfNone result ((h : RequestHead) → request_head head.now ≡ Some h → MOST_FIELDS < length h.fields) }
{
    match parse_request(head, headers) {
        Ok(Status::Complete(spans)) => {
            if spans.len == head.len() {
                Some(spans)
            } else {
                None
            }
        }
        Ok(Status::Partial) => None,
        Err(_) => None,
    }
}

/// Reads the request at the front up to its body, and takes its bytes. Empty lines before it are taken
/// in any case (RFC 9112, section 2.2).
pub fn read_request(
    alloc: Global,
    port: u16,
    kept: &mut ByteQueue,
) -> Result<Found<HttpRequest>, AllocError>
    ensures { IfOk result (λ found. Finds (request_at port) found kept.old kept.new) }
{
    let blank = empty_lines_len(kept.items());
    kept.skip(blank);
    match head_end(kept) {
        Sight::Unseen => Ok(Found::Waits),
        Sight::Excluded(reason) => Ok(Found::Refused(reason)),
        Sight::Ends(end) => match request_of_head(alloc, port, &kept.items()[..end])? {
            Ok(request) => {
                kept.skip(end);
                Ok(Found::Whole(request))
            }
            Err(reason) => Ok(Found::Refused(reason)),
        },
    }
}
