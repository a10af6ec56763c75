//! A connection of the system.
ghost use Rattle.std.specs.Prelude.{◌≡◌, ◌≢◌, ◌<◌, ◌≤◌, map, ℕ, List, length, Some};
ghost use Rattle.gv_values.specs.Counts.{HasRisen};
ghost use Rattle.mio_net.specs.Endpoints.{endpoint_meaning};
ghost use Rattle.stream_net.specs.Accounts.{read_after};
ghost use Rattle.stream_net.specs.Net.{closed_at, held_as};
ghost use Rattle.stream_net.specs.Reads.{after_read};
ghost use Rattle.stream_net.specs.Waits.{named, woken, woken_if};
ghost use Rattle.stream_net.specs.Writes.{after_write};

use crate::sockets_edge::{Told, Wire, read_stream, write_stream};
use mio::net::TcpStream;
use stream_net::{Account, ReadEnd, Ready, WriteEnd};

/// A connection, whose stream is given up when it is closed.
#[derive(Drop)]
pub struct Endpoint {
    /// What is kept of it.
    pub account: Account,
    /// Its stream.
    pub wire: Wire,
    /// Whether the last read took all that was there, and no wait has named the connection since.
    pub is_drained: bool,
    /// Whether a wait told of the end of its input, or of a fault.
    pub ends: bool,
}

/// Whether a read brought less than it had room for.
fn is_short(end: ReadEnd, room: usize) -> bool {
    match end {
        ReadEnd::Got(count) => count < room,
        ReadEnd::WouldBlock => true,
        ReadEnd::End | ReadEnd::Failed => false,
    }
}

/// Reads what came, unless all of it was read.
fn read_unless(is_drained: bool, wire: &mut Wire, buf: &mut [u8]) -> ReadEnd
    requires { 0 < length buf.old }
    ensures came { Some wire.new.came.bytes ≡ read_after result buf.new (Some wire.old.came.bytes) }
    ensures went { wire.new.went ≡ wire.old.went }
    ensures some { (n : ℕ) → result ≡ ReadEnd.Got n → 0 < n }
    ensures fits { (n : ℕ) → result ≡ ReadEnd.Got n → n ≤ length buf.new }
{
    if is_drained {
        return ReadEnd::WouldBlock;
    }
    read_stream(wire, buf)
}

/// Reads what came. A read that brings less than it has room for has taken all that was there (epoll(7)), and what comes
/// later is told of by a wait: the system isn't asked before. An end that was told of is told of once, so it is asked for.
#[tactic(auto, unfolding(gv_io::specs::Streams::appended))]
pub fn read_endpoint(endpoint: &mut Endpoint, moment: u64, buf: &mut [u8]) -> ReadEnd
    requires { 0 < length buf.old }
    ensures after { endpoint_meaning endpoint.new ≡ after_read result buf.new moment endpoint.new.account.faults (endpoint_meaning endpoint.old) }
    ensures never_falls { endpoint.old.account.faults ≤ endpoint.new.account.faults }
    ensures failed { result ≡ ReadEnd.Failed → HasRisen endpoint.old.account.faults endpoint.new.account.faults }
    ensures unfailed { result ≢ ReadEnd.Failed → endpoint.new.account.faults ≡ endpoint.old.account.faults }
    ensures some { (n : ℕ) → result ≡ ReadEnd.Got n → 0 < n }
    ensures fits { (n : ℕ) → result ≡ ReadEnd.Got n → n ≤ length buf.new }
{
    let end = read_unless(endpoint.is_drained, &mut endpoint.wire, buf);
    endpoint.is_drained = !endpoint.ends && is_short(end, buf.len());
    endpoint.account.note_read(end, moment);
    end
}

/// Writes what is taken.
#[tactic(auto, unfolding(gv_io::specs::Streams::appended))]
pub fn write_endpoint(endpoint: &mut Endpoint, moment: u64, bytes: &[u8]) -> WriteEnd
    requires { 0 < length bytes.now }
    ensures after { endpoint_meaning endpoint.new ≡ after_write result bytes.now moment endpoint.new.account.faults (endpoint_meaning endpoint.old) }
    ensures never_falls { endpoint.old.account.faults ≤ endpoint.new.account.faults }
    ensures failed { result ≡ WriteEnd.Failed → HasRisen endpoint.old.account.faults endpoint.new.account.faults }
    ensures unfailed { result ≢ WriteEnd.Failed → endpoint.new.account.faults ≡ endpoint.old.account.faults }
    ensures some { (n : ℕ) → result ≡ WriteEnd.Took n → 0 < n }
    ensures fits { (n : ℕ) → result ≡ WriteEnd.Took n → n ≤ length bytes.now }
{
    let end = write_stream(&mut endpoint.wire, bytes);
    endpoint.account.note_write(end, moment);
    end
}

/// Gives the stream up, and notes the moment.
pub fn close_endpoint(endpoint: &mut Endpoint, moment: u64) -> Option<TcpStream>
    ensures { endpoint_meaning endpoint.new ≡ closed_at moment (endpoint_meaning endpoint.old) }
{
    endpoint.account.note_close(moment);
    endpoint.wire.take()
}

/// Holds it, or releases it.
pub fn hold_endpoint(endpoint: &mut Endpoint, held: bool)
    ensures { endpoint_meaning endpoint.new ≡ held_as held (endpoint_meaning endpoint.old) }
{
    endpoint.account.note_hold(held);
}

/// Notes that a wait named it, and whether its input ends.
fn note_named(endpoint: &mut Endpoint, ends: bool)
    ensures { endpoint_meaning endpoint.new ≡ woken_if endpoint.old.account.closed (endpoint_meaning endpoint.old) }
{
    endpoint.account.note_named();
    endpoint.is_drained = false;
    endpoint.ends |= ends;
}

/// Notes that a wait named the connection, if there is one of the number.
fn name_at(endpoints: &mut [Endpoint], conn: u32, ends: bool)
    ensures { map endpoint_meaning endpoints.new ≡ woken conn (map endpoint_meaning endpoints.old) }
{
    if (conn as usize) < endpoints.len() {
        note_named(&mut endpoints[conn as usize], ends);
    }
}

/// Notes what a wait told.
pub fn name_endpoint(endpoints: &mut [Endpoint], told: Told)
    ensures { map endpoint_meaning endpoints.new ≡ named told.ready (map endpoint_meaning endpoints.old) }
{
    match told.ready {
        Ready::Incoming => {}
        Ready::Elapsed => {}
        Ready::Readable(conn) => name_at(endpoints, conn, told.ends),
        Ready::Writable(conn) => name_at(endpoints, conn, told.ends),
    }
}
