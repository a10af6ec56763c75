//! A server whose application gives each reply at once.
ghost use Rattle.std.specs.Prelude.{◌≡◌, ◌≢◌, ◌≤◌, ℕ, true, false, length, None, IsSome};
ghost use Rattle.std.specs.List.{All};
ghost use Rattle.gv_values.specs.Counts.{HasRisen};
ghost use Rattle.stream_net.specs.Net.{IsFresh};
ghost use Rattle.stream_server.specs.Serving.{AllBut, BeginsSo, Cause, EachTold, IsAllServed, IsClosedWell, Rests, WaitsToRead};
ghost use Rattle.stream_server.specs.Ranges.{IsInRange};
ghost use Rattle.wsgi_core.specs.Talk.{said_by};
ghost use Rattle.wsgi_core.specs.Session.{session};

use crate::client::Client;
use crate::limits::{Limits, ServeEnd, Terms};
use crate::rounds::{ServiceEnd, serve_on};
use crate::service::{HoldRefusal, Polled, Replied, Service};
use crate::table::ClientTable;
use std::alloc::{AllocError, Global};
use std::sync::Wait;
use stream_net::Net;
use wsgi_core::{Application, Session, SessionPhase, Talk};

/// An application that gives each reply at once.
#[derive(Drop)]
struct Answering<'a, A> {
    alloc: Global,
    app: &'a A,
}

impl<'a, T: Talk + Drop, A: Application> Service<T, ()> for Answering<'a, A> {
    ghost use Rattle.stream_server.specs.Answering.{answering};

    ghost protocol = { answering T.answers T.is_at T.due };

    ghost rank = { λ talk. 0 };

    ghost fits = { λ service world apps. (conn : ℕ) → apps conn ≡ A.answer_of service.app.now };

    ghost one = { λ service world conn. A.answer_of service.app.now };

    ghost tied = { λ service world table accepted. Unit {0} };

    ghost tied_but = { λ service world table accepted conn low. Unit {0} };

    ghost sound = { λ service world. Unit {0} };

    ghost wants = { λ talk. Unit {0} };

    ghost spent = { λ service world. ⊥ };

    ghost lasting = { λ world. (0, None) };

    fn begin(&self, port: u16) -> T {
        T::begin(self.alloc, port)
    }

    fn pending<'b>(&self, talk: &'b T) -> &'b [u8] {
        talk.pending()
    }

    fn took(&self, talk: &mut T, count: usize) {
        talk.took(count)
    }

    fn end(&self, talk: &mut T) {
        talk.end()
    }

    fn phase(&self, talk: &T) -> SessionPhase {
        talk.phase()
    }

    fn feed(&self, talk: &mut T, piece: &[u8]) -> Result<(), AllocError> {
        match talk.feed(piece, self.app) {
            Ok(()) => Ok(()),
            Err(refusal) => Err(refusal),
        }
    }

    fn reply(&self, talk: &mut T) -> Replied {
        Replied::NoRequest
    }

    /// No request waits, so this is never called.
    fn hold(&mut self, world: &mut (), client: &mut Client<T>) -> Result<(), HoldRefusal> {
        Err(HoldRefusal::Memory)
    }

    fn poll(&mut self, world: &mut (), table: &mut ClientTable<T>, deadline: u64) -> Polled<T> {
        Polled::Nobody
    }

    fn is_held(&self, talk: &T) -> bool {
        false
    }

    fn is_idle(&self) -> bool {
        true
    }

    /// No reply is waited for, so this is never called.
    fn until(&self, now: u64, is_woken: bool) -> u64 {
        now
    }

    ghost use Rattle.stream_server.specs.Answering.{answering_lawful};

    ghost lawful = { answering_lawful T.answers T.is_at T.due T.says };

    ghost fits_one = { λ service world conn i. A.answer_of service.app.now };

    ghost tied_new = { λ service world table now accepted tied same. tt };

    ghost tied_again = { λ service world table now accepted conn low tied beside rises. tt };

    ghost tied_out = { λ service world table now accepted conn client tied listed free beside. tt };
}

/// The end of a server whose service never runs out.
fn end_of(end: ServiceEnd) -> ServeEnd
    requires { end ≢ ServiceEnd.Spent }
    ensures finished { result ≡ ServeEnd.Finished → end ≡ ServiceEnd.Finished }
    ensures listener { result ≡ ServeEnd.Listener → end ≡ ServiceEnd.Listener }
    ensures other { result ≢ ServeEnd.Listener → end ≢ ServiceEnd.Listener }
{
    match end {
        ServiceEnd::Finished => ServeEnd::Finished,
        ServiceEnd::Listener => ServeEnd::Listener,
        // The requires says that it did not end so.
        ServiceEnd::Spent => unreachable!(),
        ServiceEnd::Memory => ServeEnd::Memory,
    }
}

/// Serves connections, each with a talk of its own, until so many as the limits say were accepted and closed.
///
/// A connection is accepted only where a place is free (gevent API reference, `gevent.baseserver.BaseServer`: a server
/// with a pool as `spawn` accepts no more while the pool is full). It is written to until nothing is pending, and only
/// then read; it is left alone only after a read or write that would block. It is closed where its talk closes or its
/// input ended and all was written, where a read or write of it failed, and where no byte went over it for the idle
/// time (RFC 9112, section 9.5). What the others do is nothing to it.
///
/// After `Listener` and `Memory` the connections that are open stay open. Nothing is promised of a net that never
/// answers, of the order in which connections are served, or of one that always has more to read: it is read as long
/// as it gives bytes.
pub fn serve_with<T: Talk + Drop, N: Net, A: Application, H: Wait>(
    rt: &H,
    alloc: Global,
    net: &mut N,
    app: &A,
    port: u16,
    limits: Limits,
) -> ServeEnd
    requires listens { IsSome (N.meaning net.old).listens }
    requires fresh { IsFresh (N.meaning net.old) }
    requires in_range { IsInRange limits }
    // Each connection by itself: what was written begins what its own talk says to what was read from it.
    ensures own { EachTold (N.meaning net.new).connections (λ c bytes out. BeginsSo (said_by T.answers (A.answer_of app.now) port bytes c.ended).bytes out) }
    // It is all of it where the connection was closed without a fault of its own and no write of it is waited for.
    ensures whole { EachTold (N.meaning net.new).connections (λ c bytes out. IsClosedWell c → out ≡ (said_by T.answers (A.answer_of app.now) port bytes c.ended).bytes) }
    // An open connection was left to wait for bytes only after all that was due had been written.
    ensures answered { EachTold (N.meaning net.new).connections (λ c bytes out. WaitsToRead c → out ≡ (said_by T.answers (A.answer_of app.now) port bytes c.ended).bytes) }
    ensures most { (N.meaning net.new).most ≤ limits.pool }
    ensures cause { EachTold (N.meaning net.new).connections (λ c bytes out. c.closed ≡ true → Cause (said_by T.answers (A.answer_of app.now) port bytes c.ended) out limits.idle c) }
    // At any end so many were accepted at most.
    ensures within { length (N.meaning net.new).connections ≤ limits.conns }
    ensures finished { result ≡ ServeEnd.Finished → IsAllServed (N.meaning net.new) limits.conns }
    // At any end all open connections but one wait, by a read or by a write; where the listener failed, all do.
    ensures rest_but { AllBut Rests (N.meaning net.new).connections }
    ensures resting { result ≡ ServeEnd.Listener → All Rests (N.meaning net.new).connections }
    ensures listener { result ≡ ServeEnd.Listener → HasRisen (N.meaning net.old).faults (N.meaning net.new).faults }
    ensures unfailed { result ≢ ServeEnd.Listener → (N.meaning net.new).faults ≡ (N.meaning net.old).faults }
    ensures listens { (N.meaning net.new).listens ≡ (N.meaning net.old).listens }
    ensures never_falls { (N.meaning net.old).faults ≤ (N.meaning net.new).faults }
{
    let mut service = Answering { alloc, app };
    let terms = Terms { port, limits };
    let end = serve_on::<T, (), Answering<A>, N, H>(rt, alloc, net, &mut service, &mut (), terms);
    end_of(end)
}

/// Serves connections, each with an HTTP session of its own (RFC 9112), as `serve_with` does.
pub fn serve<N: Net, A: Application, H: Wait>(
    rt: &H,
    alloc: Global,
    net: &mut N,
    app: &A,
    port: u16,
    limits: Limits,
) -> ServeEnd
    requires listens { IsSome (N.meaning net.old).listens }
    requires fresh { IsFresh (N.meaning net.old) }
    requires in_range { IsInRange limits }
    // Each connection by itself: what was written begins what the session of what was read from it sends.
    ensures own { EachTold (N.meaning net.new).connections (λ c bytes out. BeginsSo (session (A.answer_of app.now) port bytes c.ended).bytes out) }
    // It is all of it where the connection was closed without a fault of its own and no write of it is waited for.
    ensures whole { EachTold (N.meaning net.new).connections (λ c bytes out. IsClosedWell c → out ≡ (session (A.answer_of app.now) port bytes c.ended).bytes) }
    // An open connection was left to wait for bytes only after all that was due had been written.
    ensures answered { EachTold (N.meaning net.new).connections (λ c bytes out. WaitsToRead c → out ≡ (session (A.answer_of app.now) port bytes c.ended).bytes) }
    ensures most { (N.meaning net.new).most ≤ limits.pool }
    ensures cause { EachTold (N.meaning net.new).connections (λ c bytes out. c.closed ≡ true → Cause (session (A.answer_of app.now) port bytes c.ended) out limits.idle c) }
    // At any end so many were accepted at most.
    ensures within { length (N.meaning net.new).connections ≤ limits.conns }
    ensures finished { result ≡ ServeEnd.Finished → IsAllServed (N.meaning net.new) limits.conns }
    // At any end all open connections but one wait, by a read or by a write; where the listener failed, all do.
    ensures rest_but { AllBut Rests (N.meaning net.new).connections }
    ensures resting { result ≡ ServeEnd.Listener → All Rests (N.meaning net.new).connections }
    ensures listener { result ≡ ServeEnd.Listener → HasRisen (N.meaning net.old).faults (N.meaning net.new).faults }
    ensures unfailed { result ≢ ServeEnd.Listener → (N.meaning net.new).faults ≡ (N.meaning net.old).faults }
    ensures listens { (N.meaning net.new).listens ≡ (N.meaning net.old).listens }
    ensures never_falls { (N.meaning net.old).faults ≤ (N.meaning net.new).faults }
{
    serve_with::<Session, N, A, H>(rt, alloc, net, app, port, limits)
}
