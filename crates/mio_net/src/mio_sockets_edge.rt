//! The edge to the system's listener, poll and clock: the net over them.
//!
//! Trusted: what is ready, who is accepted, and that a moment is the time that has passed. The clauses say what each
//! call keeps and counts of the connections, and which bytes came and went.
ghost use Rattle.std.specs.Prelude.{◌≡◌, ◌<◌, ◌≤◌, ◌^◌, length, map, false, IfOk};
ghost use Rattle.mio_net.specs.Endpoints.{endpoint_meaning};
ghost use Rattle.stream_net.specs.Net.{live_count};

use crate::endpoint::{
    Endpoint, close_endpoint, hold_endpoint, name_endpoint, read_endpoint, write_endpoint,
};
use crate::linger_edge::Lingering;
use crate::sockets_edge::{LISTENER, Taken, Told, WATCHED, Wire, next_stream, poll_into};
use gv_io::{Failed, one_more};
use mio::net::TcpListener;
use mio::unix::SourceFd;
use mio::{Events, Interest, Poll};
use std::alloc::Global;
use std::io;
use std::net::{Ipv4Addr, SocketAddr};
use std::os::fd::RawFd;
use std::rt::Clock;
use std::time::{Duration, Instant};
use stream_net::{Accepted, Account, Net, Ports, ReadEnd, Ready, WriteEnd};

/// How many events one poll takes.
pub(crate) const EVENTS: usize = 256;

/// The most connections that are accepted, so that each has a number.
const MOST_NUMBERED: usize = 4294967295;

/// How often the last closed connections are waited for.
const LAST_WAITS: usize = 65536;

/// The listener and the connections of the system, on 127.0.0.1.
///
/// Its moment is the milliseconds since it was made, as the clock gave them at the last wait, acceptance, read or
/// write. It keeps the account of each connection that was ever accepted, since its clauses speak of the closed ones
/// too, and the streams of those that are open. Where the system has no room for another stream (`EMFILE`), nobody is
/// accepted until something else has happened.
///
/// A closed connection lingers, so that its peer gets what it was sent: the writing side is ended, and what still comes
/// is read and dropped until the peer ends too, for at most a second or 1 MiB. At most 256 linger; the first is let go
/// for one more, and where there is no room for another stream.
#[derive(Drop)]
pub struct MioNet<R> {
    rt: R,
    start: Option<Instant>,
    poll: Option<Poll>,
    events: Events<Global>,
    // What was told and wasn't yet named, the last first.
    queue: Vec<Told>,
    listener: Option<TcpListener>,
    // Whether somebody may wait: the listener was told of since nobody was found.
    arrived: bool,
    // Whether descriptors are watched beside them.
    woken: bool,
    endpoints: Vec<Endpoint>,
    lingering: Lingering,
    live: usize,
    most: usize,
    moment: u64,
    listens: Option<Ports>,
    faults: u64,
    blocked: bool,
    ghost live_is: { live ≡ live_count (map endpoint_meaning endpoints.items) },
    ghost few: { length endpoints.items < 2 ^ 32 },
}

/// Begins to listen at the port, or at any for 0, and answers the port.
fn listen_at<R: std::net::Net>(rt: &R, poll: &Poll, port: u16) -> io::Result<(TcpListener, u16)> {
    let mut listener = TcpListener::bind(rt, SocketAddr::from((Ipv4Addr::LOCALHOST, port)))?;
    let port = listener.local_addr()?.port();
    poll.registry()
        .register(&mut listener, LISTENER, Interest::READABLE)?;
    Ok((listener, port))
}

/// Whether the listener was told of.
fn is_incoming(ready: Ready) -> bool {
    matches!(ready, Ready::Incoming)
}

/// The earlier of two moments, where there are any.
fn earlier(a: Option<u64>, b: Option<u64>) -> Option<u64> {
    match (a, b) {
        (Some(a), Some(b)) => Some(a.min(b)),
        (Some(a), None) => Some(a),
        (None, b) => b,
    }
}

/// The next that was told and isn't a connection that lingers.
fn next_told(queue: &mut Vec<Told>, lingering: &mut Lingering) -> Option<Told> {
    for _ in 0..EVENTS {
        let told = queue.pop()?;
        if !lingering.takes(told.ready) {
            return Some(told);
        }
    }
    None
}

/// Accepts a connection. Where the system has no room for its stream, one that lingers is let go first.
fn accept_stream(
    poll: &Option<Poll>,
    listener: &Option<TcpListener>,
    lingering: &mut Lingering,
    number: usize,
) -> Taken {
    match next_stream(poll, listener, number) {
        Taken::Full if lingering.let_first_go() => next_stream(poll, listener, number),
        taken => taken,
    }
}

/// Whether the poll takes all of these descriptors.
fn watches_all(poll: &Option<Poll>, descriptors: &[Option<RawFd>]) -> bool {
    for descriptor in descriptors {
        if !watches(poll, *descriptor) {
            return false;
        }
    }
    true
}

/// Whether the poll takes the descriptor, where there are both.
fn watches(poll: &Option<Poll>, descriptor: Option<RawFd>) -> bool {
    let Some(poll) = poll else {
        return false;
    };
    let Some(descriptor) = descriptor else {
        return false;
    };
    poll.registry()
        .register(&mut SourceFd(&descriptor), WATCHED, Interest::READABLE)
        .is_ok()
}

/// The milliseconds since the start, or as many as before where the clock gives fewer or none.
pub(crate) fn reading<R: Clock>(rt: &R, start: &Option<Instant>, before: u64) -> u64
    ensures { before ≤ result }
{
    let Some(start) = start else {
        return before;
    };
    match start.elapsed(rt) {
        Ok(passed) => before.max(
            passed
                .as_secs()
                .saturating_mul(1000)
                .saturating_add(u64::from(passed.subsec_millis())),
        ),
        Err(_) => before,
    }
}

impl<R: std::net::Net + Clock + Drop> MioNet<R> {
    ghost use Rattle.mio_net.specs.Endpoints.{meaning_by};
    ghost use Rattle.stream_net.specs.Net.{IsFresh};

    /// A net that doesn't listen yet. Without a poll and a clock of the system it never will.
    pub fn new(rt: R, alloc: Global) -> io::Result<MioNet<R>>
        ensures { IfOk result (λ net. IsFresh (meaning_by net.endpoints.items net.most net.moment net.listens net.faults net.blocked)) }
    {
        let start = Instant::now(&rt).ok();
        let poll = Poll::new(&rt).ok();
        let events = Events::with_capacity(alloc, EVENTS)?;
        let queue = Vec::with_capacity(alloc, EVENTS)?;
        Ok(MioNet {
            rt,
            start,
            poll,
            events,
            queue,
            listener: None,
            arrived: false,
            woken: false,
            endpoints: Vec::new(alloc),
            lingering: Lingering::new(alloc)?,
            live: 0,
            most: 0,
            moment: 0,
            listens: None,
            faults: 0,
            blocked: false,
        })
    }

    /// Has a wait end also where one of these descriptors may be read, if all are there and the system's poll takes them.
    /// They stay open until the net is let go.
    pub fn watch(&mut self, descriptors: &[Option<RawFd>])
        ensures { IsFresh (meaning_by self.old.endpoints.items self.old.most self.old.moment self.old.listens self.old.faults self.old.blocked)
            → IsFresh (meaning_by self.new.endpoints.items self.new.most self.new.moment self.new.listens self.new.faults self.new.blocked) }
    {
        self.woken = watches_all(&self.poll, descriptors);
    }

    /// Waits until no closed connection lingers, at most a second. All that are open are let go at once.
    pub fn let_go(self) {
        let MioNet {
            rt,
            start,
            mut poll,
            mut events,
            mut queue,
            mut lingering,
            mut moment,
            ..
        } = self;
        for _ in 0..LAST_WAITS {
            // What those that linger were sent is dropped; nobody asks for anything else any more.
            next_told(&mut queue, &mut lingering);
            moment = reading(&rt, &start, moment);
            lingering.let_go(moment);
            let Some(until) = lingering.earliest() else {
                return;
            };
            let Some(poll) = &mut poll else {
                return;
            };
            let timeout = Some(Duration::from_millis(until.saturating_sub(moment)));
            if queue.is_empty() && poll_into(poll, &mut events, &mut queue, timeout).is_err() {
                return;
            }
        }
    }
}

impl<R: std::net::Net + Clock + Drop> Net for MioNet<R> {
    ghost use Rattle.mio_net.specs.Endpoints.{meaning_by, readiness_of_none};

    ghost meaning = { λ n. meaning_by n.endpoints.items n.most n.moment n.listens n.faults n.blocked };

    ghost readiness = { λ _. readiness_of_none };

    fn listen(&mut self, port: u16) -> Result<u16, Failed> {
        if self.start.is_some() {
            if let Some(poll) = &self.poll {
                if let Ok((listener, taken)) = listen_at(&self.rt, poll, port) {
                    self.listener = Some(listener);
                    self.arrived = true;
                    self.listens = Some(Ports { asked: port, taken });
                    self.blocked = false;
                    return Ok(taken);
                }
            }
        }
        self.faults = one_more(self.faults);
        Err(Failed)
    }

    fn next(&mut self, until: Option<u64>) -> Result<Ready, Failed> {
        self.blocked = false;
        if self.queue.is_empty() {
            self.moment = reading(&self.rt, &self.start, self.moment);
            let timeout = match earlier(until, self.lingering.earliest()) {
                Some(limit) => Some(Duration::from_millis(limit.saturating_sub(self.moment))),
                None => None,
            };
            let polled = match &mut self.poll {
                Some(poll) => poll_into(poll, &mut self.events, &mut self.queue, timeout),
                None => Err(Failed),
            };
            self.moment = reading(&self.rt, &self.start, self.moment);
            self.lingering.let_go(self.moment);
            if polled.is_err() {
                self.faults = one_more(self.faults);
                return Err(Failed);
            }
        }
        match next_told(&mut self.queue, &mut self.lingering) {
            Some(told) => {
                if let Ready::Elapsed = told.ready {
                    return Ok(Ready::Incoming);
                }
                self.arrived = self.arrived | is_incoming(told.ready);
                name_endpoint(&mut self.endpoints, told);
                Ok(told.ready)
            }
            None => match until {
                Some(limit) if limit <= self.moment => Ok(Ready::Elapsed),
                _ => Ok(Ready::Incoming),
            },
        }
    }

    fn accept(&mut self) -> Accepted {
        self.blocked = false;
        if self.endpoints.len() >= MOST_NUMBERED {
            return Accepted::Memory;
        }
        if !self.arrived {
            self.blocked = true;
            return Accepted::WouldBlock;
        }
        if self.endpoints.reserve(1).is_err() {
            return Accepted::Memory;
        }
        let number = self.endpoints.len();
        match accept_stream(&self.poll, &self.listener, &mut self.lingering, number) {
            Taken::Stream(stream) => {
                self.moment = reading(&self.rt, &self.start, self.moment);
                self.endpoints.push_reserved(Endpoint {
                    account: Account::new(self.moment),
                    wire: Wire::new(stream),
                    is_drained: false,
                    ends: false,
                });
                self.live += 1;
                self.most = self.most.max(self.live);
                Accepted::New(number as u32)
            }
            Taken::WouldBlock => {
                self.arrived = false;
                self.blocked = true;
                Accepted::WouldBlock
            }
            Taken::Full => {
                self.blocked = true;
                Accepted::WouldBlock
            }
            Taken::Failed => {
                self.faults = one_more(self.faults);
                Accepted::Failed
            }
        }
    }

    fn read(&mut self, conn: u32, buf: &mut [u8]) -> ReadEnd {
        self.moment = reading(&self.rt, &self.start, self.moment);
        read_endpoint(&mut self.endpoints[conn as usize], self.moment, buf)
    }

    fn write(&mut self, conn: u32, bytes: &[u8]) -> WriteEnd {
        self.moment = reading(&self.rt, &self.start, self.moment);
        write_endpoint(&mut self.endpoints[conn as usize], self.moment, bytes)
    }

    fn close(&mut self, conn: u32) {
        let stream = close_endpoint(&mut self.endpoints[conn as usize], self.moment);
        self.live -= 1;
        self.lingering.add(conn, stream, self.moment);
    }

    fn hold(&mut self, conn: u32, held: bool) {
        hold_endpoint(&mut self.endpoints[conn as usize], held);
    }

    fn is_woken(&self) -> bool {
        self.woken
    }

    fn now(&self) -> u64 {
        self.moment
    }
}
