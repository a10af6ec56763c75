//! `serve --jobs` through the call, over connections and answers that go by a script.
use crate::served::{Served, is_served_by, sending, two};
use gv_values::{Answer, FaultKind, JobOutcome};
use std::alloc::{AllocError, Global};
use std::sync::Wait;
use stream_net::MemoryNet;

const SUM: &[u8] = b"GET /job/sum/5 HTTP/1.1\r\nConnection: close\r\n\r\n";

const FAIL: &[u8] = b"GET /job/fail/3 HTTP/1.1\r\nConnection: close\r\n\r\n";

const UNKNOWN: &[u8] = b"GET /job/sum/x HTTP/1.1\r\nConnection: close\r\n\r\n";

const FIFTEEN: &[u8] =
    b"HTTP/1.1 200 OK\r\nContent-Type: text/plain\r\nContent-Length: 9\r\nConnection: close\r\n\r\nvalue 15\n";

const ERROR: &[u8] =
    b"HTTP/1.1 200 OK\r\nContent-Type: text/plain\r\nContent-Length: 15\r\nConnection: close\r\n\r\nfault Error(3)\n";

const NOT_FOUND: &[u8] =
    b"HTTP/1.1 404 Not Found\r\nContent-Type: text/plain\r\nContent-Length: 10\r\nConnection: close\r\n\r\nnot found\n";

/// What is left of a call that serves two connections.
const TWO_SERVED: Served<'static> = Served {
    words: "serve --port 8080 --conns 2 --idle 1000 --jobs 1",
    room: 100,
    status: 0,
    out: b"listening 8080\nserved 2\n",
    err: b"",
};

/// The job of the second connection ends first.
const SECOND_FIRST: &[Answer] = &[
    Answer::Done {
        number: 2,
        outcome: JobOutcome::Fault(FaultKind::Error(3)),
        at: 1,
    },
    Answer::Done {
        number: 1,
        outcome: JobOutcome::Int(15),
        at: 2,
    },
];

/// The job of the first connection ends first.
const FIRST_FIRST: &[Answer] = &[
    Answer::Done {
        number: 1,
        outcome: JobOutcome::Int(15),
        at: 1,
    },
    Answer::Done {
        number: 2,
        outcome: JobOutcome::Fault(FaultKind::Error(3)),
        at: 2,
    },
];

/// Two connections ask for a job each; the answers come so. Whether each is sent what its own job came to.
fn each_is_sent_its_own<H: Wait>(
    rt: &H,
    alloc: Global,
    answers: &[Answer],
) -> Result<bool, AllocError> {
    let sum = sending(alloc, &[SUM], &[]);
    let fail = sending(alloc, &[FAIL], &[]);
    let mut net = MemoryNet::new(alloc, 8080, two(alloc, sum, fail)?);
    let served = is_served_by(rt, alloc, &TWO_SERVED, &mut net, answers);
    Ok(served == Ok(true) && net.written(0) == Some(FIFTEEN) && net.written(1) == Some(ERROR))
}

#[test]
fn native_answers(rt: HostRuntime) {
    assert!(rt; each_is_sent_its_own(&rt, rt.alloc(), SECOND_FIRST) == Ok(true));
    assert!(rt; each_is_sent_its_own(&rt, rt.alloc(), FIRST_FIRST) == Ok(true));
}

/// What is left of a call that serves one connection.
const ONE_SERVED: Served<'static> = Served {
    words: "serve --port 8080 --conns 1 --idle 1000 --jobs 1",
    room: 100,
    status: 0,
    out: b"listening 8080\nserved 1\n",
    err: b"",
};

/// Whether a connection that asks for no job that there is, is told so.
fn is_not_found<H: Wait>(rt: &H, alloc: Global) -> Result<bool, AllocError> {
    let unknown = sending(alloc, &[UNKNOWN], &[])?;
    let mut net = MemoryNet::new(alloc, 8080, vec![in alloc; unknown]?);
    let served = is_served_by(rt, alloc, &ONE_SERVED, &mut net, &[]);
    Ok(served == Ok(true) && net.written(0) == Some(NOT_FOUND))
}

#[test]
fn native_not_found(rt: HostRuntime) {
    assert!(rt; is_not_found(&rt, rt.alloc()) == Ok(true));
}
