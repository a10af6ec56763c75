//! Requests, read from their bytes.
use crate::sessions::push_all;
use http_messages::{
    AwaitedBody, BodyFound, ByteQueue, Environ, Found, Framing, HttpRequest, Refusal, awaited_by,
    eq_any_case, parse_length, read_body, read_request,
};
use std::alloc::{AllocError, Global};

const FRONT: &[u8] = b"\r\n\nPOST /a%20b?c=d HTTP/1.1\r\nhost: x\r\ncontent-type: text/plain\r\n";

const BACK: &[u8] =
    b"Content-Length: 3\r\nHost: y\r\nX_Y: left out\r\nExpect: 100-Continue\r\n\r\nabcdef";

/// The environ of that head.
const ENVIRON: &[u8] =
    b"REQUEST_METHOD=POST\nSCRIPT_NAME=\nPATH_INFO=/a b\nQUERY_STRING=c=d\nSERVER_NAME=localhost\nSERVER_PORT=80\nSERVER_PROTOCOL=HTTP/1.1\nCONTENT_TYPE=text/plain\nCONTENT_LENGTH=3\nHTTP_HOST=x,y\nHTTP_EXPECT=100-Continue\n";

/// Appends the pairs of an environ in order, each on a line.
fn push_lines(lines: &mut Vec<u8>, environ: &Environ) -> Result<(), AllocError> {
    for (key, value) in environ.pairs() {
        push_all(lines, &[key.items(), b"=", value.items(), b"\n"])?;
    }
    Ok(())
}

/// Whether the environ has those pairs in that order.
fn has_lines(alloc: Global, environ: &Environ) -> bool {
    let mut lines = Vec::new(alloc);
    push_lines(&mut lines, environ).is_ok() && lines.as_slice() == ENVIRON
}

/// Whether the environ finds a pair by its name, and none of a field that was left out.
fn finds_names(environ: &Environ) -> bool {
    environ.get(b"QUERY_STRING") == Some(b"c=d".as_slice()) && environ.get(b"HTTP_X_Y").is_none()
}

/// Whether this is that request.
fn is_read(alloc: Global, request: &HttpRequest) -> bool {
    has_lines(alloc, &request.environ)
        && finds_names(&request.environ)
        && (
            request.continues,
            request.persists,
            request.is_head,
            request.minor,
        ) == (true, true, false, 1)
}

/// How the body of the request is framed that was found, where it is that one.
fn framing_of(alloc: Global, found: &Found<HttpRequest>) -> Option<Framing> {
    match found {
        Found::Whole(request) if is_read(alloc, request) => Some(request.framing),
        _ => None,
    }
}

/// Whether the body was found, and is this.
fn is_whole(found: &BodyFound, wanted: &[u8]) -> bool {
    match found {
        BodyFound::BodyWhole(body) => body.items() == wanted,
        BodyFound::BodyWaits(_) | BodyFound::BodyRefused(_) => false,
    }
}

/// Whether the body at the front of the bytes is this once these have come, with that behind it.
fn is_body(
    alloc: Global,
    awaited: AwaitedBody,
    kept: &mut ByteQueue,
    bytes: &[u8],
    (wanted, behind): (&[u8], &[u8]),
) -> Result<bool, AllocError> {
    let has_come = kept.append(bytes).is_ok();
    let found = read_body(alloc, awaited, kept)?;
    let is_whole = is_whole(&found, wanted);
    drop(found);
    Ok(has_come && is_whole && kept.items() == behind)
}

/// Whether the request waits for more.
fn waits(alloc: Global, kept: &mut ByteQueue) -> Result<bool, AllocError> {
    let found = read_request(alloc, 80, kept)?;
    let waits = matches!(&found, Found::Waits);
    drop(found);
    Ok(waits)
}

/// Whether a request that comes in two pieces is read with its body, and what follows is left.
fn is_read_in_two_pieces(alloc: Global, kept: &mut ByteQueue) -> Result<bool, AllocError> {
    kept.append(FRONT)?;
    if !waits(alloc, kept)? {
        return Ok(false);
    }
    kept.append(BACK)?;
    let found = read_request(alloc, 80, kept)?;
    let framing = framing_of(alloc, &found);
    drop(found);
    match framing {
        Some(framing) => is_body(
            alloc,
            awaited_by(alloc, framing),
            kept,
            b"",
            (b"abc", b"def"),
        ),
        None => Ok(false),
    }
}

#[test]
fn reads_a_head_and_leaves_what_follows(rt: HostRuntime) {
    let mut kept = ByteQueue::new(rt.alloc());
    assert!(rt; is_read_in_two_pieces(rt.alloc(), &mut kept) == Ok(true));
    drop(kept);
}

const FIRST_CHUNKS: &[u8] = b"3;x=y\r\nabc\r\n2\r\nd";

const LAST_CHUNKS: &[u8] = b"e\r\n0\r\nTrailer: no\r\n\r\nnext";

/// What is read of chunks once these bytes have come.
fn chunks_with(alloc: Global, kept: &mut ByteQueue, bytes: &[u8]) -> Result<BodyFound, AllocError> {
    kept.append(bytes)?;
    read_body(alloc, awaited_by(alloc, Framing::Chunked), kept)
}

/// Whether chunks that come in two pieces are read, and what follows is left.
fn are_read_in_two_pieces(alloc: Global, kept: &mut ByteQueue) -> Result<bool, AllocError> {
    match chunks_with(alloc, kept, FIRST_CHUNKS)? {
        BodyFound::BodyWaits(left) => is_body(alloc, left, kept, LAST_CHUNKS, (b"abcde", b"next")),
        BodyFound::BodyWhole(_) | BodyFound::BodyRefused(_) => Ok(false),
    }
}

/// Whether what comes in the place of those bytes is no chunk.
fn are_refused(alloc: Global, kept: &mut ByteQueue, bytes: &[u8]) -> Result<bool, AllocError> {
    kept.skip(kept.len());
    let found = chunks_with(alloc, kept, bytes)?;
    let are_refused = matches!(&found, BodyFound::BodyRefused(Refusal::BadRequest));
    drop(found);
    Ok(are_refused)
}

#[test]
fn reads_chunks_in_two_pieces(rt: HostRuntime) {
    let mut kept = ByteQueue::new(rt.alloc());
    assert!(rt; are_read_in_two_pieces(rt.alloc(), &mut kept) == Ok(true));
    assert!(rt; are_refused(rt.alloc(), &mut kept, b"g\r\n") == Ok(true));
    drop(kept);
}

/// Whether no empty line ends in the bytes, after any of these.
fn has_no_empty_line(kept: &mut ByteQueue, bytes: &[u8]) -> Result<bool, AllocError> {
    for byte in bytes {
        kept.append(&[*byte])?;
        if kept.empty_line_end(100) != None {
            return Ok(false);
        }
    }
    Ok(true)
}

/// Whether lines end where they do in bytes that come one by one.
fn lines_end(kept: &mut ByteQueue) -> Result<bool, AllocError> {
    let is_open = has_no_empty_line(kept, b"ab\r\ncd\r\n\r")?;
    let ends = (kept.line_end(100), kept.line_end(3));
    kept.append(b"\n")?;
    let empty_line_ends = (kept.empty_line_end(9), kept.empty_line_end(10));
    Ok(
        is_open
            && ends == (Some(4), None)
            && empty_line_ends == (None, Some(10))
            && kept.len() == 10,
    )
}

#[test]
fn lines_end_where_they_do_in_any_pieces(rt: HostRuntime) {
    let mut kept = ByteQueue::new(rt.alloc());
    assert!(rt; lines_end(&mut kept) == Ok(true));
    drop(kept);
}

/// Texts, and the length that each says.
const LENGTHS: &[(&[u8], Option<u64>)] = &[
    (b"", None),
    (b"0", Some(0)),
    (b"007", Some(7)),
    (b"+2", None),
    (b"2, 2", None),
    (b"1048577", Some(1048577)),
    (b"9999999999999999999", Some(9999999999999999999)),
    (b"00000000000000000001", None),
];

#[test]
fn lengths_are_1_to_19_digits(rt: HostRuntime) {
    for (digits, wanted) in LENGTHS {
        assert!(rt; parse_length(digits) == *wanted, "{wanted:?}");
    }
    assert!(rt; eq_any_case(b"Content-Length", b"content-LENGTH"));
    assert!(rt; !eq_any_case(b"Content_Length", b"content-length"));
}
