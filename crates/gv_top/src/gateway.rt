//! What the program says through the gateway that its words name.
ghost use Rattle.std.specs.Prelude.{◌≡◌, ◌≢◌, ℕ, List, Some};
ghost use Rattle.stream_net.specs.Net.{IsFresh};
ghost use Rattle.stream_server.specs.Ranges.{IsInRange};
ghost use Rattle.serve_command.specs.Serving.{IsToldFirst, ServesAt};
ghost use Rattle.wsgi_connection.specs.Connection.{Exchanged, HandedAhead, whole_session};
ghost use Rattle.wsgi_connection.specs.Wholes.{IsWhole};
ghost use Rattle.gv_top.specs.Answers.{no_port};
ghost use Rattle.gv_top.specs.Gateway.{answers_by};
ghost use Rattle.run_command.specs.Faults.{Counts};

use command_words::GatewayKind;
use gv_io::{Sink, Source};
use scgi_core::ScgiSession;
use serve_command::{Served, serve_command};
use std::alloc::Global;
use std::sync::Wait;
use stream_net::Net;
use stream_server::Terms;
use wsgi_connection::{ConnectionEnd, answer_connection};
use wsgi_core::{Application, Session};

/// The port of a session whose bytes come from the input.
const NO_PORT: u16 = 0;

/// Answers the connection whose bytes the input gives, as `answer_connection` does.
pub fn answer_through<S: Source, K: Sink, A: Application>(
    alloc: Global,
    gateway: GatewayKind,
    input: &mut S,
    out: &mut K,
    app: &A,
) -> ConnectionEnd
    ensures exchanged { Exchanged result (answers_by gateway) (A.answer_of app.now) no_port (S.remaining input.old) (S.remaining input.new) (K.written out.old) (K.written out.new) }
    ensures whole { (left : List ℕ) → S.remaining input.old ≡ Some left →
        IsWhole result (whole_session (answers_by gateway) (A.answer_of app.now) no_port left) (K.written out.old) (K.written out.new) }
    ensures handed { K.handed out.old ≡ K.written out.old → result ≢ ConnectionEnd.WriteFault → result ≢ ConnectionEnd.Memory → K.handed out.new ≡ K.written out.new }
    ensures handed_ahead { K.handed out.old ≡ K.written out.old →
        HandedAhead (answers_by gateway) (A.answer_of app.now) no_port (S.remaining input.old) (S.remaining input.new) (K.written out.old) (K.handed out.new) }
    ensures reads { Counts (result ≡ ConnectionEnd.ReadFault) (S.faults input.old) (S.faults input.new) }
    ensures writes { Counts (result ≡ ConnectionEnd.WriteFault) (K.faults out.old) (K.faults out.new) }
{
    match gateway {
        GatewayKind::Http => answer_connection::<Session, S, K, A>(alloc, NO_PORT, input, out, app),
        GatewayKind::Scgi => {
            answer_connection::<ScgiSession, S, K, A>(alloc, NO_PORT, input, out, app)
        }
    }
}

/// A server whose connections an application answers.
#[derive(Clone, Copy)]
pub struct GatewayServer {
    /// The gateway through which it answers.
    pub gateway: GatewayKind,
    /// The port at which it listens, or 0 for any, and how much it does.
    pub terms: Terms,
}

/// Serves connections of the net, as `serve_command` does.
pub fn serve_through<K: Sink, N: Net, A: Application, H: Wait>(
    rt: &H,
    alloc: Global,
    server: GatewayServer,
    out: &mut K,
    net: &mut N,
    app: &A,
) -> Served
    requires fresh { IsFresh (N.meaning net.old) }
    requires in_range { IsInRange server.terms.limits }
    ensures serves { ServesAt result server.terms.port (answers_by server.gateway) (A.answer_of app.now) server.terms.limits (N.meaning net.new) (K.written out.old) (K.written out.new) }
    ensures told { IsToldFirst server.terms.port (N.meaning net.new) (K.written out.old) (K.handed out.new) }
    ensures handed { K.handed out.old ≡ K.written out.old → result ≢ Served.WriteFault → result ≢ Served.Memory → K.handed out.new ≡ K.written out.new }
    ensures listens { Counts (result ≡ Served.Listener) (N.meaning net.old).faults (N.meaning net.new).faults }
    ensures writes { Counts (result ≡ Served.WriteFault) (K.faults out.old) (K.faults out.new) }
{
    let terms = server.terms;
    match server.gateway {
        GatewayKind::Http => serve_command::<Session, K, N, A, H>(rt, alloc, terms, out, net, app),
        GatewayKind::Scgi => {
            serve_command::<ScgiSession, K, N, A, H>(rt, alloc, terms, out, net, app)
        }
    }
}
