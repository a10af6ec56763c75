//! What a net is to a server.
ghost use Rattle.std.specs.Prelude.{◌≡◌, ◌≢◌, ℕ, ◌<◌, ◌≤◌, false, length, IfOk, IsSome, OnOk, OnErr};
ghost use Rattle.gv_values.specs.Counts.{HasRisen};
ghost use Rattle.stream_net.specs.Net.{Changes, IsLive, IsNotReady, NetMeaning, Readiness, closed_at, connection_at, held_as, listens_at};
ghost use Rattle.stream_net.specs.Reads.{Reads};
ghost use Rattle.stream_net.specs.Writes.{Writes};
ghost use Rattle.stream_net.specs.Accepts.{Accepts};
ghost use Rattle.stream_net.specs.Waits.{MayWait, Waits};

use gv_io::Failed;

/// What a wait was ended by.
#[derive(Clone, Copy, Debug, PartialEq, Eq)]
pub enum Ready {
    /// A connection may be accepted.
    Incoming,
    /// Bytes or the end came to the connection of this number.
    Readable(u32),
    /// The connection of this number takes bytes again.
    Writable(u32),
    /// The moment asked for has come.
    Elapsed,
}

/// What an acceptance led to.
#[derive(Clone, Copy, Debug, PartialEq, Eq)]
pub enum Accepted {
    /// A connection of this number, the number of connections accepted before.
    New(u32),
    /// Nobody waits to be accepted.
    WouldBlock,
    /// The listener failed, and its count of faults has risen.
    Failed,
    /// Memory is wanting, and nobody was accepted.
    Memory,
}

/// What a read led to.
#[derive(Clone, Copy, Debug, PartialEq, Eq)]
pub enum ReadEnd {
    /// So many bytes came, at least one.
    Got(usize),
    /// The input has ended.
    End,
    /// Nothing is there yet.
    WouldBlock,
    /// The read failed, and the connection's count of faults has risen.
    Failed,
}

/// What a write led to.
#[derive(Clone, Copy, Debug, PartialEq, Eq)]
pub enum WriteEnd {
    /// So many bytes were taken, at least one.
    Took(usize),
    /// No byte can be taken yet.
    WouldBlock,
    /// The write failed, and the connection's count of faults has risen.
    Failed,
    /// Memory is wanting, and nothing was taken.
    Memory,
}

/// How a connection rests: its last read or write answered `WouldBlock`, and since then no wait has named it and no
/// release of it came.
#[derive(Clone, Copy, Debug, PartialEq, Eq)]
pub enum Quiet {
    /// It doesn't.
    Awake,
    /// The last was a read.
    ByRead,
    /// The last was a write.
    ByWrite,
}

/// Where a net listens.
#[derive(Clone, Copy, Debug, PartialEq, Eq)]
pub struct Ports {
    /// The port that it was asked for; 0 asks for any.
    pub asked: u16,
    /// The port that it took.
    pub taken: u16,
}

/// A listener and its connections, numbered from 0 in the order of their acceptance.
///
/// A call on a connection changes of that connection what its clause says, and of the others nothing. The moment
/// may rise in any call that can change the net.
pub trait Net {
    /// What the net means to those that use it.
    ghost meaning: { Self → NetMeaning };

    /// What is ready, where it is told.
    ghost readiness: { Self → Readiness };

    /// Begins to listen, at this port or at any for 0, and answers the port.
    fn listen(&mut self, port: u16) -> Result<u16, Failed>
        ensures listens { IfOk result (λ taken. (meaning self.new).listens ≡ listens_at port taken) }
        ensures asks_again { OnOk result ((meaning self.new).blocked ≡ false) }
        ensures kept { OnErr result ((meaning self.new).listens ≡ (meaning self.old).listens) }
        ensures failed { OnErr result (HasRisen (meaning self.old).faults (meaning self.new).faults) }
        ensures unfailed { OnOk result ((meaning self.new).faults ≡ (meaning self.old).faults) }
        ensures never_falls { (meaning self.old).faults ≤ (meaning self.new).faults }
        ensures same { (meaning self.new).connections ≡ (meaning self.old).connections }
        ensures most { (meaning self.new).most ≡ (meaning self.old).most };

    /// Waits until something is ready or a moment has come. Readiness is told once for each arrival. It may name
    /// a connection that is closed or was never accepted.
    fn next(&mut self, until: Option<u64>) -> Result<Ready, Failed>
        requires { MayWait (meaning self.old) until }
        ensures waits { Waits (meaning self.old) (meaning self.new) until result }
        ensures unfailed { OnOk result ((meaning self.new).faults ≡ (meaning self.old).faults) };

    /// Accepts a connection.
    fn accept(&mut self) -> Accepted
        requires { IsSome (meaning self.old).listens }
        ensures accepts { Accepts (meaning self.old) (meaning self.new) result }
        ensures unfailed { result ≢ Accepted.Failed → (meaning self.new).faults ≡ (meaning self.old).faults }
        ensures not_ready { result ≡ Accepted.WouldBlock → IsNotReady (readiness self.old).incoming };

    /// Reads the next bytes of a connection into the front of the buffer.
    fn read(&mut self, conn: u32, buf: &mut [u8]) -> ReadEnd
        requires live { IsLive (meaning self.old) conn }
        requires room { 0 < length buf.old }
        ensures reads { Reads (meaning self.old) (meaning self.new) conn result buf.new }
        ensures some { (n : ℕ) → result ≡ ReadEnd.Got n → 0 < n }
        ensures fits { (n : ℕ) → result ≡ ReadEnd.Got n → n ≤ length buf.new }
        ensures not_ready { result ≡ ReadEnd.WouldBlock → IsNotReady ((readiness self.old).readable conn) };

    /// Writes the front of the bytes to a connection.
    fn write(&mut self, conn: u32, bytes: &[u8]) -> WriteEnd
        requires live { IsLive (meaning self.old) conn }
        requires some { 0 < length bytes.now }
        ensures writes { Writes (meaning self.old) (meaning self.new) conn result bytes.now }
        ensures some { (n : ℕ) → result ≡ WriteEnd.Took n → 0 < n }
        ensures fits { (n : ℕ) → result ≡ WriteEnd.Took n → n ≤ length bytes.now }
        ensures not_ready { result ≡ WriteEnd.WouldBlock → IsNotReady ((readiness self.old).writable conn) };

    /// Closes a connection that isn't held.
    fn close(&mut self, conn: u32)
        requires live { IsLive (meaning self.old) conn }
        requires free { (connection_at (meaning self.old).connections conn).held ≡ false }
        ensures { Changes (meaning self.old) (meaning self.new) conn (closed_at (meaning self.new).moment) };

    /// Holds a connection, or releases it. A wait needs no rest of a connection that is held.
    fn hold(&mut self, conn: u32, held: bool)
        requires { IsLive (meaning self.old) conn }
        ensures { Changes (meaning self.old) (meaning self.new) conn (held_as held) };

    /// Whether a wait also ends where something else is heard of that the caller waits for. No clause says that it does.
    fn is_woken(&self) -> bool;

    /// The moment.
    fn now(&self) -> u64
        ensures { result ≡ (meaning self.now).moment };
}
