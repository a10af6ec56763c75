//! Dialled streams in memory, which go by scripts.
ghost use Rattle.std.specs.Prelude.{◌≡◌, ◌≢◌, ℕ, ◌+◌, ◌<◌, ◌≤◌, ◌++◌, false, true, length, map, take, slice_get, Some, None, IfOk, IfSome, IfNone, OnErr};
ghost use Rattle.stream_dial.specs.Slots.{AreWithin};
ghost use Rattle.stream_net.specs.MemoryEndpoints.{scripted_meaning};
ghost use Rattle.stream_net.specs.Net.{connection_at};

use crate::dial::Dial;
use std::alloc::{AllocError, Global};
use stream_net::memory_endpoint::{
    MemoryEndpoint, close_endpoint, read_endpoint, told_of, write_endpoint,
};
use stream_net::{Arrivals, ConnScript, ReadEnd, Rooms, WriteEnd};

/// Streams in memory, each of which goes by the next of the scripts; where none is left, by one whose first read or
/// write fails.
///
/// When a script arrives says nothing; its other moments are those of the dial, which begin at 0 and go up by one in each
/// `next` that names none. A stream takes the lowest slot that is free. It is told of once after its opening, and the one
/// in the lowest slot is named first.
#[derive(Drop)]
pub struct MemoryDial {
    alloc: Global,
    // Of the streams that are opened later, the next first.
    scripts: Vec<ConnScript>,
    endpoints: Vec<MemoryEndpoint>,
    opened: Vec<u64>,
    // The number of the stream that was opened last in each slot.
    slots: Vec<usize>,
    towards: Option<u16>,
    moment: u64,
    ghost within: { AreWithin slots.items (length endpoints.items) },
}

/// The script of a stream that can't be reached.
fn refused(alloc: Global) -> ConnScript {
    ConnScript {
        arrives: 0,
        pieces: Arrivals::new(Vec::new(alloc)),
        ends: None,
        room: Rooms::new(Vec::new(alloc)),
        fails: Some(0),
    }
}

/// The first of the scripts, which is taken out.
fn next_script(alloc: Global, scripts: &mut Vec<ConnScript>) -> ConnScript {
    if scripts.is_empty() {
        return refused(alloc);
    }
    scripts.remove(0)
}

/// The first slot whose stream is closed.
fn free_slot(slots: &[usize], endpoints: &[MemoryEndpoint]) -> Option<usize>
    requires { AreWithin slots.now (length endpoints.now) }
    ensures within { IfSome result (λ slot. slot < length slots.now) }
    ensures closed { IfSome result (λ slot. (number : ℕ) → slice_get slots.now slot ≡ Some number → (connection_at (map scripted_meaning endpoints.now) number).closed ≡ true) }
{
    for slot in 0..slots.len() {
        if endpoints[slots[slot]].account.closed {
            return Some(slot);
        }
    }
    None
}

/// Puts the stream of this number into the free slot, or into a new one where there is none.
fn take_slot(
    slots: &mut Vec<usize>,
    free: Option<usize>,
    number: usize,
) -> Result<usize, AllocError>
    requires { IfSome free (λ slot. slot < length slots.old.items) }
    ensures here { IfOk result (λ slot. slice_get slots.new.items slot ≡ Some number) }
    ensures others { IfOk result (λ slot. (other : ℕ) → other ≢ slot → slice_get slots.new.items other ≡ slice_get slots.old.items other) }
    ensures free { IfSome free (λ slot. IfOk result (λ taken. taken ≡ slot)) }
    ensures new { IfNone free (IfOk result (λ slot. slot ≡ length slots.old.items)) }
    ensures kept { OnErr result (slots.new.items ≡ slots.old.items) }
{
    match free {
        Some(slot) => {
            slots[slot] = number;
            Ok(slot)
        }
        None => {
            let slot = slots.len();
            slots.push(number)?;
            Ok(slot)
        }
    }
}

/// The first slot of whose stream there is something to tell.
fn first_told(slots: &[usize], endpoints: &[MemoryEndpoint], moment: u64) -> Option<usize>
    requires { AreWithin slots.now (length endpoints.now) }
    ensures { IfSome result (λ slot. slot < length slots.now) }
{
    for slot in 0..slots.len() {
        if told_of(&endpoints[slots[slot]], 0, moment).is_some() {
            return Some(slot);
        }
    }
    None
}

/// Notes that all was told by this moment.
fn note_told(endpoint: &mut MemoryEndpoint, moment: u64)
    ensures { endpoint.new ≡ record endpoint.old { told = Some moment; waits = false } }
{
    endpoint.told = Some(moment);
    endpoint.waits = false;
}

/// The first of two pieces that isn't empty.
fn front<'a>(first: &'a [u8], second: &'a [u8]) -> &'a [u8]
    requires { 0 < length first.now + length second.now }
    ensures some { 0 < length result.now }
    ensures fits { length result.now ≤ length first.now + length second.now }
    ensures front { (n : ℕ) → n ≤ length result.now → take n result.now ≡ take n (first.now ++ second.now) }
{
    if first.is_empty() {
        return second;
    }
    first
}

impl MemoryDial {
    ghost use Rattle.stream_dial.specs.Dials.{HasOpenedNone};
    ghost use Rattle.stream_dial.specs.MemoryDials.{meaning_by};

    /// Streams that go by these scripts, none of them opened yet.
    pub fn new(alloc: Global, scripts: Vec<ConnScript>) -> MemoryDial
        ensures none { HasOpenedNone (meaning_by result.endpoints.items result.opened.items result.slots.items result.towards result.moment) }
        ensures moment { result.moment ≡ 0 }
        ensures scripts { result.scripts ≡ scripts }
    {
        MemoryDial {
            alloc,
            scripts,
            endpoints: Vec::new(alloc),
            opened: Vec::new(alloc),
            slots: Vec::new(alloc),
            towards: None,
            moment: 0,
        }
    }

    /// How many streams were opened.
    pub fn count(&self) -> usize
        ensures { result ≡ length self.now.endpoints.items }
    {
        self.endpoints.len()
    }

    /// What was written to the stream of this number, if it was opened.
    pub fn written(&self, number: usize) -> Option<&[u8]>
        ensures written { IfSome result (λ bytes. (connection_at (map scripted_meaning self.now.endpoints.items) number).written ≡ Some bytes.now) }
        ensures none { IfNone result (length self.now.endpoints.items ≤ number) }
    {
        match self.endpoints.get(number) {
            Some(endpoint) => Some(endpoint.written.as_slice()),
            None => None,
        }
    }

    /// Whether the stream of this number was opened and is closed.
    pub fn is_closed(&self, number: usize) -> bool
        ensures { number < length self.now.endpoints.items → result ≡ (connection_at (map scripted_meaning self.now.endpoints.items) number).closed }
    {
        match self.endpoints.get(number) {
            Some(endpoint) => endpoint.account.closed,
            None => false,
        }
    }
}

impl Dial for MemoryDial {
    ghost use Rattle.stream_dial.specs.Dials.{ClosesIn, IsOpen, Opens, ReadsIn, StaysDialled, WritesIn};
    ghost use Rattle.stream_dial.specs.MemoryDials.{meaning_by};

    ghost meaning = { λ m. meaning_by m.endpoints.items m.opened.items m.slots.items m.towards m.moment };

    fn aim(&mut self, port: u16) {
        self.towards = Some(port);
    }

    fn dial(&mut self) -> Result<usize, AllocError> {
        self.endpoints.reserve(1)?;
        self.opened.reserve(1)?;
        let free = free_slot(&self.slots, &self.endpoints);
        let slot = take_slot(&mut self.slots, free, self.endpoints.len())?;
        let script = next_script(self.alloc, &mut self.scripts);
        let mut endpoint = MemoryEndpoint::new(self.alloc, script, self.moment);
        endpoint.waits = true;
        self.endpoints.push_reserved(endpoint);
        self.opened.push_reserved(self.moment);
        Ok(slot)
    }

    fn next(&mut self) -> Option<usize> {
        match first_told(&self.slots, &self.endpoints, self.moment) {
            Some(slot) => {
                note_told(&mut self.endpoints[self.slots[slot]], self.moment);
                Some(slot)
            }
            None => {
                self.moment = self.moment.saturating_add(1);
                None
            }
        }
    }

    fn read(&mut self, slot: usize, buf: &mut [u8]) -> ReadEnd {
        read_endpoint(&mut self.endpoints[self.slots[slot]], self.moment, buf)
    }

    fn write(&mut self, slot: usize, first: &[u8], second: &[u8]) -> WriteEnd {
        let piece = front(first, second);
        write_endpoint(&mut self.endpoints[self.slots[slot]], self.moment, piece)
    }

    fn close(&mut self, slot: usize) {
        close_endpoint(&mut self.endpoints[self.slots[slot]], self.moment);
    }

    fn now(&self) -> u64 {
        self.moment
    }
}
