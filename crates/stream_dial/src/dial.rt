//! What dialled streams are to those that use them.
ghost use Rattle.std.specs.Prelude.{◌≡◌, ◌+◌, ◌<◌, ◌≤◌, ◌++◌, ℕ, length, Some, IfOk, OnErr};
ghost use Rattle.stream_dial.specs.Dials.{ClosesIn, DialMeaning, IsOpen, Opens, ReadsIn, StaysDialled, WritesIn};

use std::alloc::AllocError;
use stream_net::{ReadEnd, WriteEnd};

/// Streams that are opened towards one address, each in a slot.
///
/// The slot of a stream that was closed may be that of a later one. Clauses number the streams from 0 in the order of
/// their opening and speak of the closed ones too, but nothing is kept of these. A call on one stream changes of it what
/// its clause says, and of the others nothing. The moment may rise in any call that can change them.
pub trait Dial {
    /// What they mean to those that use them.
    ghost meaning: { Self → DialMeaning };

    /// Has the streams that are opened from now on be opened towards this port of 127.0.0.1.
    fn aim(&mut self, port: u16)
        ensures { meaning self.new ≡ record (meaning self.old) { towards = Some port } };

    /// Opens a stream, and answers its slot. It need not be reached yet: a stream that can't be fails when it is read or
    /// written. Without memory none is opened.
    fn dial(&mut self) -> Result<usize, AllocError>
        ensures opens { IfOk result (λ slot. Opens (meaning self.old) (meaning self.new) slot) }
        ensures kept { OnErr result (StaysDialled (meaning self.old) (meaning self.new)) };

    /// A slot whose stream may be read or written again, or has failed. Nothing is waited for: none is named where there
    /// is no news. It may name a slot whose stream is closed or has no news.
    fn next(&mut self) -> Option<usize>
        ensures { StaysDialled (meaning self.old) (meaning self.new) };

    /// Reads the next bytes of the stream in a slot into the front of the buffer.
    fn read(&mut self, slot: usize, buf: &mut [u8]) -> ReadEnd
        requires opened { IsOpen (meaning self.old) slot }
        requires room { 0 < length buf.old }
        ensures reads { ReadsIn (meaning self.old) (meaning self.new) slot result buf.new }
        ensures some { (n : ℕ) → result ≡ ReadEnd.Got n → 0 < n }
        ensures fits { (n : ℕ) → result ≡ ReadEnd.Got n → n ≤ length buf.new };

    /// Writes the front of two pieces, one behind the other, to the stream in a slot. One of them may be empty.
    fn write(&mut self, slot: usize, first: &[u8], second: &[u8]) -> WriteEnd
        requires opened { IsOpen (meaning self.old) slot }
        requires some { 0 < length first.now + length second.now }
        ensures writes { WritesIn (meaning self.old) (meaning self.new) slot result (first.now ++ second.now) }
        ensures some { (n : ℕ) → result ≡ WriteEnd.Took n → 0 < n }
        ensures fits { (n : ℕ) → result ≡ WriteEnd.Took n → n ≤ length first.now + length second.now };

    /// Closes the stream in a slot.
    fn close(&mut self, slot: usize)
        requires { IsOpen (meaning self.old) slot }
        ensures { ClosesIn (meaning self.old) (meaning self.new) slot };

    /// The moment.
    fn now(&self) -> u64
        ensures { result ≡ (meaning self.now).moment };
}
