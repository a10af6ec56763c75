//! The server whose requests for jobs a world answers, over connections and answers that go by a script.
ghost use Rattle.std.specs.Prelude.{◌≡◌, ◌≤◌, false};
ghost use Rattle.gv_values.specs.declared.limits.TheConstants.{MOST_CONNECTIONS};
ghost use Rattle.stream_net.specs.Net.{IsFresh};
ghost use Rattle.stream_server.specs.Ranges.{IsInRange};

use crate::scripted::{Conn, are_left, scripts_of};
use gv_values::{Answer, FaultKind, JobOutcome};
use std::alloc::{AllocError, Global};
use std::sync::Wait;
use stream_net::{MemoryNet, Net};
use stream_server::Limits;
use world::{ListWorld, World};
use wsgi_native::{JobsEnd, serve_jobs};

const SUM: Conn = Conn {
    sends: b"GET /job/sum/5 HTTP/1.1\r\nConnection: close\r\n\r\n",
    room: &[],
    ends: None,
    fails: None,
    written: b"HTTP/1.1 200 OK\r\nContent-Type: text/plain\r\nContent-Length: 9\r\nConnection: close\r\n\r\nvalue 15\n",
    closed_at: None,
};

const FAIL: Conn = Conn {
    sends: b"GET /job/fail/3 HTTP/1.1\r\nConnection: close\r\n\r\n",
    room: &[],
    ends: None,
    fails: None,
    written: b"HTTP/1.1 200 OK\r\nContent-Type: text/plain\r\nContent-Length: 15\r\nConnection: close\r\n\r\nfault Error(3)\n",
    closed_at: None,
};

const UNKNOWN: Conn = Conn {
    sends: b"GET /job/sum/x HTTP/1.1\r\nConnection: close\r\n\r\n",
    room: &[],
    ends: None,
    fails: None,
    written: b"HTTP/1.1 404 Not Found\r\nContent-Type: text/plain\r\nContent-Length: 10\r\nConnection: close\r\n\r\nnot found\n",
    closed_at: None,
};

/// At most 100 connections at a time, so many in all, a second each.
fn limits(conns: u32) -> Limits
    requires some { 1 ≤ conns }
    requires few { conns ≤ MOST_CONNECTIONS }
    ensures { IsInRange result }
{
    Limits {
        pool: 100,
        conns,
        idle: 1000,
    }
}

/// Whether the server over this net and this world, of one worker, finishes.
fn is_finished<N: Net, W: World, H: Wait>(
    rt: &H,
    alloc: Global,
    net: &mut N,
    world: &mut W,
    limits: Limits,
) -> Result<bool, AllocError>
    requires fresh { IsFresh (N.meaning net.old) }
    requires rests { (W.meaning world.old).runs ≡ false }
    requires in_range { IsInRange limits }
{
    let Ok(port) = net.listen(8080) else {
        return Ok(false);
    };
    world.begin(1)?;
    Ok(serve_jobs(rt, alloc, net, world, port, limits) == JobsEnd::Finished)
}

/// Whether these connections are each sent what is its own, where the world answers so.
fn are_answered<H: Wait>(
    rt: &H,
    alloc: Global,
    conns: &[Conn],
    answers: &[Answer],
    limits: Limits,
) -> bool
    requires { IsInRange limits }
{
    let Ok(answers) = Vec::from_slice(alloc, answers) else {
        return false;
    };
    let Some(scripts) = scripts_of(alloc, conns) else {
        return false;
    };
    let mut world = ListWorld::new(alloc, answers);
    let mut net = MemoryNet::new(alloc, 8080, scripts);
    let is_finished = is_finished(rt, alloc, &mut net, &mut world, limits) == Ok(true);
    is_finished && are_left(&net, conns)
}

const FIFTEEN: JobOutcome = JobOutcome::Int(15);

const ERROR: JobOutcome = JobOutcome::Fault(FaultKind::Error(3));

const TWO_JOBS: &[Conn] = &[SUM, FAIL];

/// What they come to, the second first.
const SECOND_FIRST: &[Answer] = &[
    Answer::Done {
        number: 2,
        outcome: ERROR,
        at: 1,
    },
    Answer::Done {
        number: 1,
        outcome: FIFTEEN,
        at: 2,
    },
];

/// What they come to in order.
const IN_ORDER: &[Answer] = &[
    Answer::Done {
        number: 1,
        outcome: FIFTEEN,
        at: 1,
    },
    Answer::Done {
        number: 2,
        outcome: ERROR,
        at: 2,
    },
];

#[test]
fn each_result_finds_its_own_connection_in_either_order(rt: HostRuntime) {
    assert!(rt; are_answered(&rt, rt.alloc(), TWO_JOBS, SECOND_FIRST, limits(2)));
    assert!(rt; are_answered(&rt, rt.alloc(), TWO_JOBS, IN_ORDER, limits(2)));
}

const NO_JOB: &[Conn] = &[UNKNOWN];

#[test]
fn a_path_that_names_no_job_is_answered_at_once(rt: HostRuntime) {
    assert!(rt; are_answered(&rt, rt.alloc(), NO_JOB, &[], limits(1)));
}
