//! A server whose requests an application server answers.
ghost use Rattle.std.specs.Prelude.{◌≡◌, ◌≢◌, ◌≤◌, length, IsSome};
ghost use Rattle.std.specs.List.{All};
ghost use Rattle.gv_values.specs.Counts.{HasRisen};
ghost use Rattle.stream_net.specs.Net.{IsAtRest, IsFresh};
ghost use Rattle.stream_dial.specs.Dials.{HasOpenedNone};
ghost use Rattle.stream_server.specs.Serving.{AllBut, IsAllServed};
ghost use Rattle.stream_server.specs.Ranges.{IsInRange};
ghost use Rattle.wsgi_relay.specs.Relaying.{HasRelayed};

use crate::relay_talk::RelayTalk;
use crate::relays::{AppServer, Relays};
use std::alloc::Global;
use std::sync::Wait;
use stream_dial::Dial;
use stream_net::Net;
use stream_server::{Limits, ServiceEnd, Terms, serve_on};

/// How a server with an application server behind it ended.
#[derive(Clone, Copy, Debug, PartialEq, Eq)]
pub enum RelayEnd {
    /// So many connections as it was to serve were accepted and closed.
    Finished,
    /// The listener failed.
    Listener,
    /// Memory ran out. The live connections stay open.
    Memory,
}

/// The same end of a server with an application server behind it.
fn end_of(end: ServiceEnd) -> RelayEnd
    requires { end ≢ ServiceEnd.Spent }
    ensures finished { result ≡ RelayEnd.Finished → end ≡ ServiceEnd.Finished }
    ensures listener { result ≡ RelayEnd.Listener → end ≡ ServiceEnd.Listener }
    ensures other { result ≢ RelayEnd.Listener → end ≢ ServiceEnd.Listener }
{
    match end {
        ServiceEnd::Finished => RelayEnd::Finished,
        ServiceEnd::Listener => RelayEnd::Listener,
        ServiceEnd::Memory => RelayEnd::Memory,
        // Streams never run out.
        ServiceEnd::Spent => unreachable!(),
    }
}

/// Serves connections, each with an HTTP session of its own (RFC 9112), as `stream_server::serve` does, but that an
/// application server answers the requests: each is handed to it by a message over a stream of its own (SCGI), and its
/// connection is held until the reply has come whole (CGI, RFC 3875). The others go on meanwhile. A request with a NUL in
/// its environ is answered 400 at once.
///
/// What is no reply, one that breaks off, and a server that can't be reached are answered 502, and a reply that isn't
/// there within the patience 504. No request is handed on twice. The connections go on after these answers as after
/// others.
///
/// After `Listener` and `Memory` the connections and the streams that are open stay open.
pub fn serve_relay<N: Net, D: Dial, H: Wait>(
    rt: &H,
    alloc: Global,
    net: &mut N,
    upstream: &mut AppServer<D>,
    terms: Terms,
) -> RelayEnd
    requires listens { IsSome (N.meaning net.old).listens }
    requires fresh { IsFresh (N.meaning net.old) }
    requires in_range { IsInRange terms.limits }
    requires opened_none { HasOpenedNone (D.meaning upstream.old.dial) }
    // Each connection by itself, in whichever order the application server answers. Each request that was answered has a
    // stream of its own, which was opened for it, and what was read there is its answer.
    ensures relayed { HasRelayed terms.port terms.limits.idle upstream.new.patience (N.meaning net.new).connections (D.meaning upstream.new.dial) }
    ensures patience { upstream.new.patience ≡ upstream.old.patience }
    // All streams are opened towards the same.
    ensures towards { (D.meaning upstream.new.dial).towards ≡ (D.meaning upstream.old.dial).towards }
    ensures most { (N.meaning net.new).most ≤ terms.limits.pool }
    // At any end so many were accepted at most.
    ensures within { length (N.meaning net.new).connections ≤ terms.limits.conns }
    ensures finished { result ≡ RelayEnd.Finished → IsAllServed (N.meaning net.new) terms.limits.conns }
    // At any end all open connections but one wait, by a read or by a write, or are held for a reply; where the listener
    // failed, all do.
    ensures rest_but { AllBut IsAtRest (N.meaning net.new).connections }
    ensures resting { result ≡ RelayEnd.Listener → All IsAtRest (N.meaning net.new).connections }
    ensures listener { result ≡ RelayEnd.Listener → HasRisen (N.meaning net.old).faults (N.meaning net.new).faults }
    ensures unfailed { result ≢ RelayEnd.Listener → (N.meaning net.new).faults ≡ (N.meaning net.old).faults }
    ensures listens { (N.meaning net.new).listens ≡ (N.meaning net.old).listens }
    ensures never_falls { (N.meaning net.old).faults ≤ (N.meaning net.new).faults }
{
    let mut relays = Relays::new(alloc);
    let end = serve_on::<RelayTalk, AppServer<D>, Relays, N, H>(
        rt,
        alloc,
        net,
        &mut relays,
        upstream,
        terms,
    );
    end_of(end)
}
