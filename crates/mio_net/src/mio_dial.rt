//! Dialled streams of the system.
ghost use Rattle.std.specs.Prelude.{◌≡◌, ◌+◌, ◌<◌, ◌≤◌, ℕ, length, IfOk};
ghost use Rattle.mio_net.specs.Dialled.{AreKept};

use crate::annals::{Annals, Deed};
use crate::dial_edge::{Stream, Upstream, open_stream, poll_slots, read_stream, write_stream};
use crate::mio_sockets_edge::{EVENTS, reading};
use mio::{Events, Poll};
use slab::Slab;
use std::alloc::{AllocError, Global};
use std::io;
use std::os::fd::{AsRawFd, RawFd};
use std::rt::Clock;
use std::time::Instant;
use stream_dial::Dial;
use stream_net::{ReadEnd, WriteEnd};

/// Streams of the system towards one address, which are polled apart from all else. Without a poll of the system none is
/// reached.
///
/// The moment is the milliseconds since it was made, as the clock gave them at the last opening, read or write, or when
/// the system was last asked for news. A stream that the system refuses at once, as where there is no room for one more
/// (`EMFILE`), is open and fails.
#[derive(Drop)]
pub struct MioDial<R> {
    rt: R,
    upstream: Upstream,
    start: Option<Instant>,
    poll: Option<Poll>,
    events: Events<Global>,
    // The slots that were told and weren't yet named, the last first.
    queue: Vec<usize>,
    // By slot; none where the system refused it.
    streams: Slab<Option<Stream>>,
    annals: Annals,
    moment: u64,
    ghost kept: { AreKept annals.notes streams },
}

/// Reads what came to the stream in a slot.
fn read_slot(streams: &Slab<Option<Stream>>, slot: usize, buf: &mut [u8]) -> ReadEnd
    requires { 0 < length buf.old }
    ensures some { (n : ℕ) → result ≡ ReadEnd.Got n → 0 < n }
    ensures fits { (n : ℕ) → result ≡ ReadEnd.Got n → n ≤ length buf.new }
{
    match streams.get(slot) {
        Some(Some(stream)) => read_stream(stream, buf),
        _ => ReadEnd::Failed,
    }
}

/// Writes what the stream in a slot takes of two pieces.
fn write_slot(streams: &Slab<Option<Stream>>, slot: usize, first: &[u8], second: &[u8]) -> WriteEnd
    requires { 0 < length first.now + length second.now }
    ensures some { (n : ℕ) → result ≡ WriteEnd.Took n → 0 < n }
    ensures fits { (n : ℕ) → result ≡ WriteEnd.Took n → n ≤ length first.now + length second.now }
{
    match streams.get(slot) {
        Some(Some(stream)) => write_stream(stream, first, second),
        _ => WriteEnd::Failed,
    }
}

impl<R: std::net::Net + Clock + Drop> MioDial<R> {
    ghost use Rattle.mio_net.specs.Dialled.{meaning_in, port_of};
    ghost use Rattle.stream_dial.specs.Dials.{HasOpenedNone};

    /// Streams towards this, none of them opened yet.
    pub fn new(rt: R, alloc: Global, upstream: Upstream) -> io::Result<MioDial<R>>
        ensures { IfOk result (λ dial. HasOpenedNone (meaning_in dial.annals.notes (port_of dial.upstream) dial.moment)) }
    {
        let start = Instant::now(&rt).ok();
        let poll = Poll::new(&rt).ok();
        let events = Events::with_capacity(alloc, EVENTS)?;
        let queue = Vec::with_capacity(alloc, EVENTS)?;
        Ok(MioDial {
            rt,
            upstream,
            start,
            poll,
            events,
            queue,
            streams: Slab::new(alloc),
            annals: Annals::none(),
            moment: 0,
        })
    }

    /// What may be read once `next` may name a slot, where there is a poll.
    pub fn descriptor(&self) -> Option<RawFd> {
        match &self.poll {
            Some(poll) => Some(poll.as_raw_fd()),
            None => None,
        }
    }
}

impl<R: std::net::Net + Clock + Drop> Dial for MioDial<R> {
    ghost use Rattle.mio_net.specs.Dialled.{meaning_in, port_of};

    ghost meaning = { λ d. meaning_in d.annals.notes (port_of d.upstream) d.moment };

    fn aim(&mut self, port: u16) {
        self.upstream = Upstream::Port(port);
    }

    fn dial(&mut self) -> Result<usize, AllocError> {
        self.streams.reserve(1)?;
        self.queue.reserve(1)?;
        let slot = self.streams.vacant_key();
        let stream = open_stream(&self.rt, &self.poll, &self.upstream, slot);
        if stream.is_none() {
            self.queue.push_reserved(slot);
        }
        let slot = self.streams.insert_reserved(stream);
        self.moment = reading(&self.rt, &self.start, self.moment);
        let moment = self.moment;
        self.annals = self.annals.and(&Deed::Opened { slot, moment });
        Ok(slot)
    }

    fn next(&mut self) -> Option<usize> {
        if self.queue.is_empty() {
            self.moment = reading(&self.rt, &self.start, self.moment);
            poll_slots(&mut self.poll, &mut self.events, &mut self.queue);
        }
        self.queue.pop()
    }

    fn read(&mut self, slot: usize, buf: &mut [u8]) -> ReadEnd {
        self.moment = reading(&self.rt, &self.start, self.moment);
        let end = read_slot(&self.streams, slot, buf);
        self.annals = self.annals.and(&Deed::WasRead {
            slot,
            end,
            bytes: buf,
            moment: self.moment,
        });
        end
    }

    fn write(&mut self, slot: usize, first: &[u8], second: &[u8]) -> WriteEnd {
        self.moment = reading(&self.rt, &self.start, self.moment);
        let end = write_slot(&self.streams, slot, first, second);
        self.annals = self.annals.and(&Deed::WasWritten {
            slot,
            end,
            first,
            second,
            moment: self.moment,
        });
        end
    }

    fn close(&mut self, slot: usize) {
        self.streams.try_remove(slot);
        self.annals = self.annals.and(&Deed::WasClosed {
            slot,
            moment: self.moment,
        });
    }

    fn now(&self) -> u64 {
        self.moment
    }
}
