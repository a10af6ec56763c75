//! The same, where an application server answers the requests.
ghost use Rattle.std.specs.Prelude.{◌≡◌, ◌≢◌, ◌≤◌};
ghost use Rattle.gv_values.specs.Counts.{HasRisen};
ghost use Rattle.stream_dial.specs.Dials.{HasOpenedNone};
ghost use Rattle.stream_net.specs.Net.{IsFresh};
ghost use Rattle.stream_server.specs.Ranges.{IsInRange};
ghost use Rattle.serve_command.specs.Serving.{IsToldFirst};
ghost use Rattle.serve_command.specs.Relay.{ServesRelayAt};

use crate::serving::Served;
use crate::telling::{open_port, tell_end};
use gv_io::Sink;
use std::alloc::Global;
use std::sync::Wait;
use stream_dial::Dial;
use stream_net::Net;
use stream_server::Terms;
use wsgi_relay::{AppServer, RelayEnd, serve_relay};

/// On which terms a server passes its requests on.
#[derive(Clone, Copy, Debug, PartialEq, Eq)]
pub struct RelayTerms {
    /// On which it serves.
    pub terms: Terms,
    /// The port of 127.0.0.1 at which the application server is reached.
    pub pass: u16,
    /// How many milliseconds a reply is waited for.
    pub patience: u64,
}

/// The end of a server with an application server behind it.
fn served_end(end: RelayEnd) -> Served
    ensures finished { result ≡ Served.Finished → end ≡ RelayEnd.Finished }
    ensures listener { result ≡ Served.Listener → end ≡ RelayEnd.Listener }
    ensures other { result ≢ Served.Listener → end ≢ RelayEnd.Listener }
    ensures no_line { result ≢ Served.WriteFault }
    ensures no_jobs { result ≢ Served.NoJobs }
{
    match end {
        RelayEnd::Finished => Served::Finished,
        RelayEnd::Listener => Served::Listener,
        RelayEnd::Memory => Served::Memory,
    }
}

/// Does as `serve_command` does over HTTP, but that the application server at the port of the terms answers the requests,
/// as `wsgi_relay::serve_relay` says.
///
/// After every end but `Finished` the connections and the streams that are open stay open.
pub fn serve_relay_command<K: Sink, N: Net, D: Dial, H: Wait>(
    rt: &H,
    alloc: Global,
    relay: RelayTerms,
    out: &mut K,
    net: &mut N,
    behind: &mut AppServer<D>,
) -> Served
    requires fresh { IsFresh (N.meaning net.old) }
    requires in_range { IsInRange relay.terms.limits }
    requires opened_none { HasOpenedNone (D.meaning behind.old.dial) }
    ensures serves { ServesRelayAt result relay.pass relay.patience relay.terms.port relay.terms.limits (N.meaning net.new) (D.meaning behind.new.dial) (K.written out.old) (K.written out.new) }
    ensures told { IsToldFirst relay.terms.port (N.meaning net.new) (K.written out.old) (K.handed out.new) }
    ensures handed { K.handed out.old ≡ K.written out.old → result ≢ Served.WriteFault → result ≢ Served.Memory → K.handed out.new ≡ K.written out.new }
    ensures listener { result ≡ Served.Listener → HasRisen (N.meaning net.old).faults (N.meaning net.new).faults }
    ensures write_fault { result ≡ Served.WriteFault → HasRisen (K.faults out.old) (K.faults out.new) }
    ensures net_unfailed { result ≢ Served.Listener → (N.meaning net.new).faults ≡ (N.meaning net.old).faults }
    ensures out_unfailed { result ≢ Served.WriteFault → K.faults out.new ≡ K.faults out.old }
    ensures net_never_falls { (N.meaning net.old).faults ≤ (N.meaning net.new).faults }
    ensures out_never_falls { K.faults out.old ≤ K.faults out.new }
{
    let terms = relay.terms;
    behind.patience = relay.patience;
    behind.dial.aim(relay.pass);
    let port = match open_port(alloc, terms.port, out, net) {
        Ok(port) => port,
        Err(end) => return end,
    };
    let taken = Terms {
        port,
        limits: terms.limits,
    };
    let end = served_end(serve_relay(rt, alloc, net, behind, taken));
    tell_end(alloc, end, terms.limits.conns, out)
}
