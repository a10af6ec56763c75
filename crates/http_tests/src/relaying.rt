//! Messages that hand a request to an application server, its answers, and the SCGI gateway at the other end.
use http_messages::{Bytes, Environ, Headers, Sequence};
use relay_core::{Far, ReplyReader, can_be_handed, scgi_message};
use scgi_core::ScgiSession;
use std::alloc::{AllocError, Global};
use wsgi_core::{Reply, ShippedApp, Talk};

/// A copy of the bytes.
fn bytes_of(alloc: Global, text: &[u8]) -> Result<Bytes, AllocError> {
    Ok(Sequence::from_vec(text.to_vec(alloc)?))
}

/// The environ of these pairs.
fn environ_of(
    alloc: Global,
    pairs: &[(&'static [u8], &'static [u8])],
) -> Result<Environ, AllocError> {
    let mut all: Headers = Sequence::new(alloc);
    for pair in pairs {
        all.push((bytes_of(alloc, pair.0)?, bytes_of(alloc, pair.1)?))?;
    }
    Ok(Environ::from_pairs(all))
}

/// A request whose length and SCGI are not the message's.
const POST: &[(&[u8], &[u8])] = &[
    (b"REQUEST_METHOD", b"POST"),
    (b"PATH_INFO", b"/echo"),
    (b"CONTENT_LENGTH", b"003"),
    (b"SCGI", b"9"),
    (b"HTTP_X", b""),
];

/// The message that hands it on with the body `abc`.
const POSTED: &[u8] =
    b"68:CONTENT_LENGTH\x003\x00SCGI\x001\x00REQUEST_METHOD\x00POST\x00PATH_INFO\x00/echo\x00HTTP_X\x00\x00,abc";

/// Whether that is the message that is made.
fn is_posted(alloc: Global) -> Result<bool, AllocError> {
    let environ = environ_of(alloc, POST)?;
    let message = scgi_message(alloc, &environ, b"abc")?;
    Ok(can_be_handed(&environ) && message.items() == POSTED)
}

#[test]
fn a_message(rt: HostRuntime) {
    assert!(rt; is_posted(rt.alloc()) == Ok(true));
}

/// A request whose path would be told as a pair of its own.
const SMUGGLED: &[(&[u8], &[u8])] = &[
    (b"REQUEST_METHOD", b"GET"),
    (b"PATH_INFO", b"/a\x00REMOTE_USER\x00root"),
];

/// Whether it can be handed on.
fn is_smuggled(alloc: Global) -> Result<bool, AllocError> {
    let environ = environ_of(alloc, SMUGGLED)?;
    Ok(can_be_handed(&environ))
}

#[test]
fn a_path_with_nul_is_not_handed(rt: HostRuntime) {
    assert!(rt; is_smuggled(rt.alloc()) == Ok(false));
}

/// What a server that sends this in pieces of this size and then stops so comes to: its status.
fn status(
    alloc: Global,
    sent: &[u8],
    size: usize,
    far: Far,
    is_head: bool,
) -> Result<Option<Bytes>, AllocError> {
    let mut reader = ReplyReader::new(alloc, is_head);
    for piece in sent.chunks(size.max(1)) {
        if !reader.is_decided() {
            reader.feed(piece)?;
        }
    }
    match reader.reply(far)? {
        Some(Reply::Started(response)) => Ok(Some(response.status)),
        Some(Reply::Raised) => Ok(None),
        None => Ok(None),
    }
}

/// Whether it comes to a reply of this status, in pieces of whatever size; to none for no status.
fn comes_to(alloc: Global, sent: &[u8], far: Far, is_head: bool, wanted: &[u8]) -> bool {
    for size in [1, 7, 4096] {
        match status(alloc, sent, size, far, is_head) {
            Ok(Some(found)) => {
                if found.items() != wanted {
                    return false;
                }
            }
            Ok(None) => {
                if !wanted.is_empty() {
                    return false;
                }
            }
            Err(_) => return false,
        }
    }
    true
}

/// What a server sends to a request, of HEAD or not, how far it has come then, and the status of its reply.
struct Answered {
    sent: &'static [u8],
    far: Far,
    is_head: bool,
    wanted: &'static [u8],
}

const BAD: &[u8] = b"502 Bad Gateway";

const OK: &[u8] = b"200 OK";

/// What servers send, and what it comes to.
const ANSWERS: &[Answered] = &[
    Answered {
        sent: b"Status: 200 OK\r\nContent-Length: 2\r\n\r\nab",
        far: Far::GoesOn,
        is_head: false,
        wanted: OK,
    },
    Answered {
        sent: b"Status: 200 OK\r\nContent-Length: 2\r\n\r\nabc",
        far: Far::GoesOn,
        is_head: false,
        wanted: OK,
    },
    Answered {
        sent: b"Status: 200 OK\r\nContent-Length: 2\r\n\r\na",
        far: Far::GoesOn,
        is_head: false,
        wanted: b"",
    },
    Answered {
        sent: b"Status: 200 OK\r\nContent-Length: 2\r\n\r\na",
        far: Far::Ended,
        is_head: false,
        wanted: BAD,
    },
    Answered {
        sent: b"Status: 200 OK\r\nContent-Length: 2\r\n\r\na",
        far: Far::Late,
        is_head: false,
        wanted: b"504 Gateway Timeout",
    },
    Answered {
        sent: b"Status: 200 OK\r\nContent-Length: 2\r\n\r\n",
        far: Far::GoesOn,
        is_head: true,
        wanted: OK,
    },
    Answered {
        sent: b"Status: 304 Not Modified\nETag: \"x\"\nContent-Length: 2\n\n",
        far: Far::GoesOn,
        is_head: false,
        wanted: b"304 Not Modified",
    },
    Answered {
        sent: b"Content-Type: text/plain\n\nab",
        far: Far::Ended,
        is_head: false,
        wanted: OK,
    },
    Answered {
        sent: b"Content-Type: text/plain\n\nab",
        far: Far::GoesOn,
        is_head: false,
        wanted: b"",
    },
    Answered {
        sent: b"Content-Type: text/plain\n\nab",
        far: Far::Broken,
        is_head: false,
        wanted: BAD,
    },
    Answered {
        sent: b"Location: /there\r\n\r\n",
        far: Far::Ended,
        is_head: false,
        wanted: b"302 Found",
    },
    Answered {
        sent: b"sTATUS:404 Gone away\r\n\r\n",
        far: Far::Ended,
        is_head: false,
        wanted: b"404 Gone away",
    },
    Answered {
        sent: b"",
        far: Far::Broken,
        is_head: false,
        wanted: BAD,
    },
    Answered {
        sent: b"",
        far: Far::Ended,
        is_head: false,
        wanted: BAD,
    },
    Answered {
        sent: b"\r\n",
        far: Far::GoesOn,
        is_head: false,
        wanted: BAD,
    },
    Answered {
        sent: b"Status: 200 OK",
        far: Far::Ended,
        is_head: false,
        wanted: BAD,
    },
    Answered {
        sent: b"HTTP/1.1 200 OK\r\nX: y\r\n\r\n",
        far: Far::GoesOn,
        is_head: false,
        wanted: BAD,
    },
    Answered {
        sent: b"Status: 200\r\n\r\n",
        far: Far::GoesOn,
        is_head: false,
        wanted: BAD,
    },
    Answered {
        sent: b"Status: 200 OK\r\nStatus: 200 OK\r\n\r\n",
        far: Far::GoesOn,
        is_head: false,
        wanted: BAD,
    },
    Answered {
        sent: b"Status: 200 OK\r\nX Y: z\r\n\r\n",
        far: Far::GoesOn,
        is_head: false,
        wanted: BAD,
    },
    Answered {
        sent: b"Status: 200 OK\r\nConnection: close\r\n\r\n",
        far: Far::GoesOn,
        is_head: false,
        wanted: BAD,
    },
    Answered {
        sent: b"Status: 200 OK\r\nContent-Length: 1048577\r\n\r\n",
        far: Far::GoesOn,
        is_head: false,
        wanted: BAD,
    },
    Answered {
        sent: b"Status: 200 OK\r\nContent-Length: 1\r\nContent-Length: 1\r\n\r\na",
        far: Far::GoesOn,
        is_head: false,
        wanted: BAD,
    },
];

/// Whether each comes to its reply.
fn are_all_met(alloc: Global) -> bool {
    for row in ANSWERS {
        if !comes_to(alloc, row.sent, row.far, row.is_head, row.wanted) {
            return false;
        }
    }
    true
}

#[test]
fn what_answers_come_to(rt: HostRuntime) {
    assert!(rt; are_all_met(rt.alloc()));
}

/// The body that the shipped application is read to answer, through the SCGI gateway.
fn body_by_gateway(
    alloc: Global,
    path: &'static [u8],
    body: &[u8],
) -> Result<Option<Bytes>, AllocError> {
    let environ = environ_of(alloc, &[(b"REQUEST_METHOD", b"POST"), (b"PATH_INFO", path)])?;
    let message = scgi_message(alloc, &environ, body)?;
    let mut session = ScgiSession::begin(alloc, 0);
    session.feed(message.items(), &ShippedApp)?;
    let mut reader = ReplyReader::new(alloc, false);
    reader.feed(session.pending())?;
    match reader.reply(Far::Ended)? {
        Some(Reply::Started(response)) => {
            let mut whole = Sequence::new(alloc);
            for piece in response.pieces.items() {
                whole.extend_from_slice(piece.items())?;
            }
            Ok(Some(whole))
        }
        _ => Ok(None),
    }
}

/// Whether the shipped application is read to answer so.
fn is_answered(alloc: Global, path: &'static [u8], body: &[u8], wanted: &[u8]) -> bool {
    match body_by_gateway(alloc, path, body) {
        Ok(Some(found)) => found.items() == wanted,
        _ => false,
    }
}

#[test]
fn the_gateway_at_the_other_end(rt: HostRuntime) {
    assert!(rt; is_answered(rt.alloc(), b"/", b"", b"hello\n"));
    assert!(rt;
        is_answered(
            rt.alloc(),
            b"/echo",
            b"a body\x00 with NUL",
            b"a body\x00 with NUL"
        )
    );
    assert!(rt; is_answered(rt.alloc(), b"/chunks", b"", b"onetwo"));
    assert!(rt; is_answered(rt.alloc(), b"/raise", b"", b"Internal Server Error"));
    assert!(rt;
        is_answered(
            rt.alloc(),
            b"/environ",
            b"ab",
            b"CONTENT_LENGTH=2\nREQUEST_METHOD=POST\nPATH_INFO=/environ\n"
        )
    );
}
