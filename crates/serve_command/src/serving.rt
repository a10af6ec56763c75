//! Listens, tells the port, serves, and tells how many connections were served.
ghost use Rattle.std.specs.Prelude.{◌≡◌, ◌≢◌, ◌≤◌, ℕ};
ghost use Rattle.gv_values.specs.Counts.{HasRisen};
ghost use Rattle.stream_net.specs.Net.{IsFresh};
ghost use Rattle.stream_server.specs.Ranges.{IsInRange};
ghost use Rattle.serve_command.specs.Serving.{IsToldFirst, ServesAt};

use crate::telling::{open_port, tell_end};
use gv_io::Sink;
use std::alloc::Global;
use std::sync::Wait;
use stream_net::Net;
use stream_server::{ServeEnd, Terms, serve_with};
use wsgi_core::{Application, Talk};

/// How the command ended.
#[derive(Clone, Copy, Debug, PartialEq, Eq)]
pub enum Served {
    /// As many connections as were asked for were accepted and closed, and both lines are out.
    Finished,
    /// The net failed: it didn't listen, or its listener failed.
    Listener,
    /// One more job is asked for than have numbers.
    NoJobs,
    /// A line could not be written.
    WriteFault,
    /// Memory ran out.
    Memory,
}

/// The end of a server that gives each reply at once.
fn served_end(end: ServeEnd) -> Served
    ensures finished { result ≡ Served.Finished → end ≡ ServeEnd.Finished }
    ensures listener { result ≡ Served.Listener → end ≡ ServeEnd.Listener }
    ensures other { result ≢ Served.Listener → end ≢ ServeEnd.Listener }
    ensures no_line { result ≢ Served.WriteFault }
    ensures no_jobs { result ≢ Served.NoJobs }
{
    match end {
        ServeEnd::Finished => Served::Finished,
        ServeEnd::Listener => Served::Listener,
        ServeEnd::Memory => Served::Memory,
    }
}

/// Listens at the port of the terms, or at any for 0, writes `listening P` with the port that it listens at, serves that
/// many connections with the application, and writes `served N`.
///
/// The first line is handed on before a connection is accepted, so that whoever reads it may connect; where it can't
/// be written, none is accepted. Each connection has a talk of its own, of a server at that port (PEP 3333; RFC 9112
/// for `Session`). After every end but `Finished` the connections that are open stay open.
pub fn serve_command<T: Talk + Drop, K: Sink, N: Net, A: Application, H: Wait>(
    rt: &H,
    alloc: Global,
    terms: Terms,
    out: &mut K,
    net: &mut N,
    app: &A,
) -> Served
    requires fresh { IsFresh (N.meaning net.old) }
    requires in_range { IsInRange terms.limits }
    ensures serves { ServesAt result terms.port T.answers (A.answer_of app.now) terms.limits (N.meaning net.new) (K.written out.old) (K.written out.new) }
    ensures told { IsToldFirst terms.port (N.meaning net.new) (K.written out.old) (K.handed out.new) }
    ensures handed { K.handed out.old ≡ K.written out.old → result ≢ Served.WriteFault → result ≢ Served.Memory → K.handed out.new ≡ K.written out.new }
    ensures listener { result ≡ Served.Listener → HasRisen (N.meaning net.old).faults (N.meaning net.new).faults }
    ensures write_fault { result ≡ Served.WriteFault → HasRisen (K.faults out.old) (K.faults out.new) }
    ensures net_unfailed { result ≢ Served.Listener → (N.meaning net.new).faults ≡ (N.meaning net.old).faults }
    ensures out_unfailed { result ≢ Served.WriteFault → K.faults out.new ≡ K.faults out.old }
    ensures net_never_falls { (N.meaning net.old).faults ≤ (N.meaning net.new).faults }
    ensures out_never_falls { K.faults out.old ≤ K.faults out.new }
{
    let limits = terms.limits;
    let port = match open_port(alloc, terms.port, out, net) {
        Ok(port) => port,
        Err(end) => return end,
    };
    let end = served_end(serve_with::<T, N, A, H>(rt, alloc, net, app, port, limits));
    tell_end(alloc, end, limits.conns, out)
}
