//! Bytes in the order in which they came.
ghost use Rattle.std.specs.Prelude.{◌≡◌, ◌<◌, ◌≤◌, ◌-◌, [], ◌++◌, length, take, drop, true, IfOk, IfSome, OnOk, OnErr};
ghost use Rattle.http_messages.specs.Cuts.{line_end, empty_line_end};

use crate::request::Bytes;
use crate::scan::{LinePlace, scan_empty_line, scan_line};
use crate::sequence::Sequence;
use std::alloc::{AllocError, Global};
use std::marker::Model;
use std::mem;

/// From how many bytes on bytes that are all are handed on where they stand; above it room is given back where few
/// are left.
const LARGE: usize = 65536;

/// The room that is made beside bytes of a told number, so that the head of an answer fits before them.
const BESIDE: usize = 1024;

/// Bytes that are appended at the end and taken off the front, which contracts see as their list. A
/// search for a line's end goes on where the last one stopped, and a byte is moved at most once for
/// each byte before it that was taken, so neither costs more where the bytes come in small pieces.
#[derive(Drop)]
pub struct ByteQueue {
    bytes: Vec<u8>,
    start: usize,
    line: usize,
    empty: usize,
    place: LinePlace,
}

impl Model for ByteQueue {
    ghost use Rattle.std.specs.Prelude.{ℕ, List, drop};
    ghost use Rattle.http_messages.specs.Scans.{IsScanned};

    ghost Value = { List ℕ };

    ghost view = { λ s. drop s.start s.bytes.items };

    ghost invariant = { λ s. IsScanned s.bytes.items s.start s.line s.empty s.place };
}

/// Takes bytes off the front. There are no fewer of them than of those behind, so that these are copied as a whole.
fn drop_front(bytes: &mut Vec<u8>, n: usize)
    requires within { n ≤ length bytes.old.items }
    requires half { length bytes.old.items - n ≤ n }
    ensures { bytes.new.items ≡ drop n bytes.old.items }
{
    let left = bytes.len() - n;
    let (front, back) = bytes.as_mut_slice().split_at_mut(n);
    front[..left].copy_from_slice(back);
    bytes.truncate(left);
}

impl ByteQueue {
    /// No bytes.
    pub fn new(alloc: Global) -> ByteQueue
        ensures { result ≡ [] }
    {
        ByteQueue {
            bytes: Vec::new(alloc),
            start: 0,
            line: 0,
            empty: 0,
            place: LinePlace::Start,
        }
    }

    /// The bytes in order.
    pub fn items(&self) -> &[u8]
        ensures { result.now ≡ self.now }
    {
        &self.bytes[self.start..]
    }

    /// The number of bytes.
    pub fn len(&self) -> usize
        ensures { result ≡ length self.now }
    {
        self.bytes.len() - self.start
    }

    /// Appends a piece. After an `Err` nothing has changed.
    pub fn append(&mut self, piece: &[u8]) -> Result<(), AllocError>
        ensures ok { OnOk result (self.new ≡ self.old ++ piece.now) }
        ensures err { OnErr result (self.new ≡ self.old) }
    {
        if self.bytes.capacity() - self.bytes.len() < piece.len() {
            self.close_up();
        }
        self.bytes.extend_from_slice(piece)?;
        Ok(())
    }

    /// Moves the bytes to the front, where no fewer were taken off there.
    fn close_up(&mut self)
        ensures { self.new ≡ self.old }
    {
        if self.start >= self.bytes.len() - self.start {
            drop_front(&mut self.bytes, self.start);
            self.start = 0;
        }
    }

    /// Takes bytes off the end, so that so many are left, where there are more.
    pub fn truncate(&mut self, len: usize)
        ensures { self.new ≡ take len self.old }
    {
        if len < self.len() {
            self.bytes.truncate(self.start + len);
            self.line = 0;
            self.empty = 0;
            self.place = LinePlace::Start;
        }
    }

    /// Makes room for so many bytes in all, which are then appended without a move, and for the head of an answer.
    pub fn reserve(&mut self, len: usize) -> Result<(), AllocError>
        ensures { self.new ≡ self.old }
    {
        if self.bytes.capacity() - self.start < len {
            self.bytes.drain(..self.start);
            self.start = 0;
            self.bytes.reserve_exact(len.saturating_add(BESIDE).saturating_sub(self.bytes.len()))?;
        }
        Ok(())
    }

    /// Where bytes are here, gives back the room that many took before these few, and that of a queue beside it.
    pub fn give_back_with(&mut self, gone: &mut ByteQueue)
        ensures own { self.new ≡ self.old }
        ensures gone { gone.new ≡ gone.old }
    {
        if self.len() > 0 {
            self.give_back_room();
            gone.give_back_room();
        }
    }

    /// Gives room back that many bytes took, where few are left.
    fn give_back_room(&mut self)
        ensures { self.new ≡ self.old }
    {
        if self.bytes.capacity() > LARGE && self.bytes.len() < LARGE {
            self.bytes.shrink_to(LARGE);
        }
    }

    /// Takes over the room of bytes that nobody needs any more, where it is larger and no byte is here.
    pub fn take_room(&mut self, bytes: Bytes)
        ensures { self.new ≡ self.old }
    {
        let mut room = bytes.into_vec();
        if self.len() == 0 && self.bytes.capacity() < room.capacity() {
            room.clear();
            self.begin_with(room);
        }
    }

    /// Before so many bytes come, takes over the room of a queue whose bytes are all gone. Where they are few, both give
    /// back the room that many took.
    pub fn take_room_of(&mut self, alloc: Global, gone: &mut ByteQueue, len: usize)
        ensures own { self.new ≡ self.old }
        ensures gone { gone.new ≡ gone.old }
    {
        if len < LARGE {
            self.give_back_room();
            gone.give_back_room();
        } else if gone.len() == 0 && self.bytes.capacity() < gone.bytes.capacity() {
            self.move_to(gone.take_all(alloc));
        }
    }

    /// Moves the bytes to this room.
    fn move_to(&mut self, mut room: Vec<u8>)
        ensures { self.new ≡ self.old }
    {
        room.clear();
        if room.extend_from_slice(self.items()).is_ok() {
            self.begin_with(room);
        }
    }

    /// Has these bytes in the place of its own.
    fn begin_with(&mut self, bytes: Vec<u8>)
        ensures { self.new ≡ bytes.items }
    {
        self.bytes = bytes;
        self.start = 0;
        self.line = 0;
        self.empty = 0;
        self.place = LinePlace::Start;
    }

    /// Takes so many bytes off the front. Where they are many and all, they are handed on where they stand. After an
    /// `Err` nothing has changed.
    pub fn take_front(&mut self, alloc: Global, n: usize) -> Result<Bytes, AllocError>
        requires { n ≤ length self.old }
        ensures front { IfOk result (λ front. front ≡ take n self.old) }
        ensures rest { OnOk result (self.new ≡ drop n self.old) }
        ensures err { OnErr result (self.new ≡ self.old) }
    {
        if n >= LARGE && n == self.bytes.len() {
            return Ok(Sequence::from_vec(self.take_all(alloc)));
        }
        let front = Sequence::copy_of(alloc, &self.items()[..n])?;
        self.skip(n);
        Ok(front)
    }

    /// Takes all bytes.
    fn take_all(&mut self, alloc: Global) -> Vec<u8>
        ensures all { result.items ≡ self.old }
        ensures none { self.new ≡ [] }
    {
        if self.start > 0 {
            self.bytes.drain(..self.start);
        }
        self.start = 0;
        self.line = 0;
        self.empty = 0;
        self.place = LinePlace::Start;
        mem::replace(&mut self.bytes, Vec::new(alloc))
    }

    /// Takes bytes off the front.
    pub fn skip(&mut self, n: usize)
        requires { n ≤ length self.old }
        ensures { self.new ≡ drop n self.old }
    {
        if n > 0 {
            self.start += n;
            self.line = 0;
            self.empty = 0;
            self.place = LinePlace::Start;
            if self.start == self.bytes.len() {
                self.bytes.clear();
                self.start = 0;
            }
        }
    }

    /// Where the first line ends, if it does within the first `most` bytes.
    pub fn line_end(&mut self, most: usize) -> Option<usize>
        ensures end { result ≡ line_end (take most self.old) }
        ensures within { IfSome result (λ n. (0 < n) × (n ≤ length self.old)) }
        ensures same { self.new ≡ self.old }
    {
        let limit = most.min(self.bytes.len() - self.start);
        let bytes = &self.bytes[self.start..self.start + limit];
        let end = scan_line(bytes, self.line.min(limit));
        self.line = match end {
            Some(n) => n - 1,
            None => limit,
        };
        end
    }

    /// Where the first empty line ends, if it does within the first `most` bytes.
    pub fn empty_line_end(&mut self, most: usize) -> Option<usize>
        ensures end { result ≡ empty_line_end true (take most self.old) }
        ensures within { IfSome result (λ n. (0 < n) × (n ≤ length self.old)) }
        ensures same { self.new ≡ self.old }
    {
        let limit = most.min(self.bytes.len() - self.start);
        if self.empty > limit {
            self.empty = 0;
            self.place = LinePlace::Start;
        }
        let bytes = &self.bytes[self.start..self.start + limit];
        let scanned = scan_empty_line(bytes, self.empty, self.place);
        self.empty = scanned.scanned;
        self.place = scanned.place;
        scanned.end
    }
}
