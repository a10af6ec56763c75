//! The call that the program makes, over a net too.
ghost use Rattle.std.specs.Prelude.{◌≡◌, ◌≢◌, ◌≤◌, ◌<◌, ℕ, false, List, Some, None, map, string_bytes, take, IsSome};
ghost use Rattle.gv_values.specs.Counts.{HasRisen};
ghost use Rattle.gv_values.specs.declared.limits.TheConstants.{MOST_WORKERS};
ghost use Rattle.command_words.specs.declared.command.ServeOptions.{ServeOptions as AnyServer};
ghost use Rattle.wsgi_connection.specs.Connection.{HandedAhead};
ghost use Rattle.stream_dial.specs.Dials.{HasOpenedNone};
ghost use Rattle.stream_net.specs.Net.{IsFresh};
ghost use Rattle.stream_server.specs.Ranges.{IsInRange};
ghost use Rattle.command_words.specs.Ranges.{AreAnswersInRange};
ghost use Rattle.serve_command.specs.Serving.{IsToldFirst};
ghost use Rattle.gv_top.specs.Checks.{AnswersCheck};
ghost use Rattle.gv_top.specs.Commands.{AnswersCommand, IsBorneOut, IsLeftAlone};
ghost use Rattle.command_words.specs.declared.command.GatewayKind.{GatewayKind as AnyGateway};
ghost use Rattle.command_words.specs.declared.command.RunOptions.{RunOptions as AnyOptions};
ghost use Rattle.command_words.specs.declared.command.TextCommand.{TextCommand};
ghost use Rattle.scenario_grammar.specs.Spells.{Spells};
ghost use Rattle.scenario_rules.specs.Rules.{IsWellFormed};
ghost use Rattle.scenario_tree.specs.declared.tree.Scenario.{Scenario as AnyScenario};
ghost use Rattle.gv_top.specs.Answers.{most_read, no_port};
ghost use Rattle.gv_top.specs.Gateway.{answers_by};
ghost use Rattle.run_command.specs.Running.{BeganSo};
ghost use Rattle.gv_top.specs.declared.words.OfflineCommand.{OfflineCommand};
ghost use Rattle.gv_top.specs.Serving.{Serves, ServesNatively, ServesWith, limits_of};
ghost use Rattle.run_command.specs.Faults.{Counts};
ghost use Rattle.gv_top.specs.Top.{HandsOn, seen};
ghost use Rattle.gv_top.specs.Words.{are_native, offline_command_of, is_native, is_native_server, is_passing_server, passes_on, reads_input, serve_of};

use crate::gateway::{GatewayServer, serve_through};
use crate::status::verdict_of_server;
use crate::top::{offline, tell};
use crate::words::server_options;
use command_words::{ServeAnswers, ServeOptions, command_of, commands_are_in_range};
use gv_io::{Sink, Source};
use serve_command::{RelayTerms, Served, serve_jobs_command, serve_relay_command};
use std::alloc::Global;
use std::sync::Wait;
use stream_dial::Dial;
use stream_net::Net;
use stream_server::{Limits, Terms};
use world::World;
use wsgi_core::Application;
use wsgi_relay::AppServer;

/// How much a server of these options does.
fn limits_of(options: ServeOptions) -> Limits
    ensures { result ≡ limits_of options }
{
    Limits {
        pool: options.pool,
        conns: options.conns,
        idle: options.idle,
    }
}

/// A server whose requests ask for jobs.
#[derive(Clone, Copy)]
struct JobServer {
    /// How many native workers do them.
    workers: u32,
    /// The port at which it listens, or 0 for any, and how much it does.
    terms: Terms,
}

/// Serves with native workers for the jobs that requests ask for. They are begun before it, and finished after it.
fn serve_natively<K: Sink, N: Net, W: World, H: Wait>(
    rt: &H,
    alloc: Global,
    server: JobServer,
    out: &mut K,
    net: &mut N,
    native: &mut W,
) -> Served
    requires rests { (W.meaning native.old).runs ≡ false }
    requires fresh { IsFresh (N.meaning net.old) }
    requires in_range { IsInRange server.terms.limits }
    requires some { 0 < server.workers }
    requires few { server.workers ≤ MOST_WORKERS }
    ensures serves { ServesNatively server.workers result server.terms.port server.terms.limits (N.meaning net.new) (W.meaning native.old) (W.meaning native.new) (W.stands_for native.new) (K.written out.old) (K.written out.new) }
    ensures told { IsToldFirst server.terms.port (N.meaning net.new) (K.written out.old) (K.handed out.new) }
    ensures handed { K.handed out.old ≡ K.written out.old → result ≢ Served.WriteFault → result ≢ Served.Memory → K.handed out.new ≡ K.written out.new }
    ensures rests { (W.meaning native.new).runs ≡ false }
    ensures listens { Counts (result ≡ Served.Listener) (N.meaning net.old).faults (N.meaning net.new).faults }
    ensures writes { Counts (result ≡ Served.WriteFault) (K.faults out.old) (K.faults out.new) }
{
    let Ok(()) = native.begin(server.workers) else {
        return Served::Memory;
    };
    let end = serve_jobs_command(rt, alloc, server.terms, out, net, native);
    native.finish();
    end
}

/// What a server is given.
#[derive(Drop)]
struct Host<'a, H, A> {
    /// The leave to wait without end.
    rt: &'a H,
    /// Memory.
    alloc: Global,
    /// The application.
    app: &'a A,
}

/// Serves as the options say.
fn serve_as<K: Sink, N: Net, W: World, D: Dial, A: Application, H: Wait>(
    host: &Host<H, A>,
    options: ServeOptions,
    out: &mut K,
    net: &mut N,
    native: &mut W,
    behind: &mut AppServer<D>,
) -> Served
    requires rests { (W.meaning native.old).runs ≡ false }
    requires fresh { IsFresh (N.meaning net.old) }
    requires undialled { HasOpenedNone (D.meaning behind.old.dial) }
    requires in_range { IsInRange (limits_of options) }
    requires answers_in_range { AreAnswersInRange options.answers }
    ensures serves { ServesWith options.answers result options.port (A.answer_of host.now.app.now) (limits_of options) (N.meaning net.new) (D.meaning behind.new.dial) (W.meaning native.old) (W.meaning native.new) (W.stands_for native.new) (K.written out.old) (K.written out.new) }
    ensures told { IsToldFirst options.port (N.meaning net.new) (K.written out.old) (K.handed out.new) }
    ensures handed { K.handed out.old ≡ K.written out.old → result ≢ Served.WriteFault → result ≢ Served.Memory → K.handed out.new ≡ K.written out.new }
    ensures untouched { are_native options.answers ≡ false → native.new ≡ native.old }
    ensures undialled { passes_on options.answers ≡ false → behind.new ≡ behind.old }
    ensures rests { (W.meaning native.new).runs ≡ false }
    ensures listens { Counts (result ≡ Served.Listener) (N.meaning net.old).faults (N.meaning net.new).faults }
    ensures writes { Counts (result ≡ Served.WriteFault) (K.faults out.old) (K.faults out.new) }
{
    let limits = limits_of(options);
    let terms = Terms {
        port: options.port,
        limits,
    };
    match options.answers {
        ServeAnswers::Application(gateway) => {
            let server = GatewayServer { gateway, terms };
            serve_through(host.rt, host.alloc, server, out, net, host.app)
        }
        ServeAnswers::Jobs(workers) => {
            let server = JobServer { workers, terms };
            serve_natively(host.rt, host.alloc, server, out, net, native)
        }
        ServeAnswers::Passing(options) => {
            let relay = RelayTerms {
                terms,
                pass: options.port,
                patience: options.patience,
            };
            serve_relay_command(host.rt, host.alloc, relay, out, net, behind)
        }
    }
}

/// Serves as the words say, which name `serve`.
fn serve<K: Sink, N: Net, W: World, D: Dial, A: Application, H: Wait>(
    host: &Host<H, A>,
    words: &[String],
    out: &mut K,
    net: &mut N,
    native: &mut W,
    behind: &mut AppServer<D>,
) -> Served
    requires rests { (W.meaning native.old).runs ≡ false }
    requires fresh { IsFresh (N.meaning net.old) }
    requires undialled { HasOpenedNone (D.meaning behind.old.dial) }
    requires named { IsSome (serve_of (map string_bytes words.now)) }
    ensures serves { (options : AnyServer) → serve_of (map string_bytes words.now) ≡ Some options →
        ServesWith options.answers result options.port (A.answer_of host.now.app.now) (limits_of options) (N.meaning net.new) (D.meaning behind.new.dial) (W.meaning native.old) (W.meaning native.new) (W.stands_for native.new) (K.written out.old) (K.written out.new) }
    ensures untouched { is_native_server (serve_of (map string_bytes words.now)) ≡ false → native.new ≡ native.old }
    ensures undialled { is_passing_server (serve_of (map string_bytes words.now)) ≡ false → behind.new ≡ behind.old }
    ensures rests { (W.meaning native.new).runs ≡ false }
    ensures told { (options : AnyServer) → serve_of (map string_bytes words.now) ≡ Some options →
        IsToldFirst options.port (N.meaning net.new) (K.written out.old) (K.handed out.new) }
    ensures handed { K.handed out.old ≡ K.written out.old → result ≢ Served.WriteFault → result ≢ Served.Memory → K.handed out.new ≡ K.written out.new }
    ensures listens { Counts (result ≡ Served.Listener) (N.meaning net.old).faults (N.meaning net.new).faults }
    ensures writes { Counts (result ≡ Served.WriteFault) (K.faults out.old) (K.faults out.new) }
{
    commands_are_in_range();
    let Ok(command) = command_of(host.alloc, words) else {
        return Served::Memory;
    };
    match server_options(command) {
        Some(options) => serve_as(host, options, out, net, native, behind),
        // `offline` leaves only words that name a server.
        None => unreachable!(),
    }
}

/// Does what the words name, and answers its status: each command but `serve` as `offline` does.
///
/// `serve` listens at 127.0.0.1, writes `listening PORT` to out before it accepts the first connection, answers as many
/// connections as the words say, each as a session of its own with the application (PEP 3333), of HTTP (RFC 9112) or,
/// with `--gateway scgi`, of SCGI (N. Schemenauer, 2008), and writes `served COUNT`. It may wait without end. With
/// `--jobs` the application is left aside: the world `native` is begun with so many workers before it and finished after
/// it, and a request for `/job/KIND/INTEGER` is answered what its job comes to, while the other connections go on. With
/// `--pass` it is left aside too: each request is passed to the application server at that port of 127.0.0.1, over a
/// stream of its own (SCGI), and answered what comes back there; 502 where that is no reply, and 504 where it isn't there
/// within the patience.
///
/// The statuses are those of `offline`, and besides:
///
/// - 0: `serve` came to its end: as many connections as the words say were accepted and closed.
/// - 8: with `--jobs`, one more job was asked for than have numbers.
/// - 10: the net could not listen, or its listener failed.
///
/// After 7, 8 and 10 the connections and dialled streams that are open stay open.
pub fn gvr<S: Source, K: Sink, E: Sink, W: World, N: Net, D: Dial, A: Application, H: Wait>(
    rt: &H,
    alloc: Global,
    words: &[String],
    input: &mut S,
    out: &mut K,
    err: &mut E,
    native: &mut W,
    net: &mut N,
    behind: &mut AppServer<D>,
    app: &A,
) -> u8
    requires rests { (W.meaning native.old).runs ≡ false }
    requires fresh { IsFresh (N.meaning net.old) }
    requires undialled { HasOpenedNone (D.meaning behind.old.dial) }
    ensures answers { serve_of (map string_bytes words.now) ≡ None →
        AnswersCommand result (A.answer_of app.now) (offline_command_of (map string_bytes words.now)) (W.meaning native.new) (W.stands_for native.new)
        (seen S.remaining S.faults input.old input.new) (seen K.written K.faults out.old out.new) (seen E.written E.faults err.old err.new) }
    ensures checks { serve_of (map string_bytes words.now) ≡ None →
        AnswersCheck result (offline_command_of (map string_bytes words.now))
        (seen S.remaining S.faults input.old input.new) (seen K.written K.faults out.old out.new) (seen E.written E.faults err.old err.new) }
    ensures borne_out { IsBorneOut result (seen S.remaining S.faults input.old input.new) (seen K.written K.faults out.old out.new) (seen E.written E.faults err.old err.new) }
    // Native workers were asked, with held order too, only after what the run says before was written, and handed on where
    // they may be long in answering; with every status they were posted the run's jobs alone. Or no run was begun.
    ensures began { (options : AnyOptions) (s : AnyScenario) (left : List ℕ) → offline_command_of (map string_bytes words.now) ≡ Some (OfflineCommand.Text (TextCommand.Run options)) →
        S.remaining input.old ≡ Some left → Spells s (take most_read left) → IsWellFormed s →
        BeganSo W.waits options s (W.meaning native.old) (W.meaning native.new) (K.written out.old) (K.written out.new) (K.handed out.new) (K.faults out.old) (K.faults out.new) }
    // All that was written is handed on, where all was before, but with the statuses 5 and 7; the line of status 7 too.
    ensures handed { HandsOn result (K.written out.old) (K.handed out.old) (K.written out.new) (K.handed out.new) }
    ensures err_handed { result ≢ 5 → E.handed err.old ≡ E.written err.old → E.handed err.new ≡ E.written err.new }
    // A peer that waits is answered: what is due for all bytes of a connection but those of the last read was handed on.
    ensures handed_ahead { (gateway : AnyGateway) → offline_command_of (map string_bytes words.now) ≡ Some (OfflineCommand.Wsgi gateway) → K.handed out.old ≡ K.written out.old →
        HandedAhead (answers_by gateway) (A.answer_of app.now) no_port (S.remaining input.old) (S.remaining input.new) (K.written out.old) (K.handed out.new) }
    // Native workers are used by a run and by a server that the words ask them for, and by nothing else.
    ensures untouched { is_native (offline_command_of (map string_bytes words.now)) ≡ false → is_native_server (serve_of (map string_bytes words.now)) ≡ false → native.new ≡ native.old }
    ensures left_alone { is_native_server (serve_of (map string_bytes words.now)) ≡ false → IsLeftAlone result (S.remaining input.old) native.old native.new }
    ensures native_rests { (W.meaning native.new).runs ≡ false }
    // A storm reads no input; neither does `serve`, nor do words that are no command.
    ensures untouched_input { reads_input (offline_command_of (map string_bytes words.now)) ≡ false → input.new ≡ input.old }
    ensures usage_only { result ≡ 2 → (offline_command_of (map string_bytes words.now) ≡ None) × (serve_of (map string_bytes words.now) ≡ None) }
    // `serve` serves: the net was asked for the port of the words, out has its lines, each connection was a session of
    // its own with the application at the port of the first line, and each closed one was closed for a cause; so it is
    // where native workers answer the requests for jobs, in whichever order, and where an application server answers
    // each over a stream of its own. It reads no input.
    ensures served { (options : AnyServer) → serve_of (map string_bytes words.now) ≡ Some options →
        Serves result (A.answer_of app.now) options (N.meaning net.new) (D.meaning behind.new.dial) (W.meaning native.old) (W.meaning native.new) (W.stands_for native.new) (K.written out.old) (K.written out.new) (E.written err.old) (E.written err.new) }
    ensures told { (options : AnyServer) → serve_of (map string_bytes words.now) ≡ Some options →
        IsToldFirst options.port (N.meaning net.new) (K.written out.old) (K.handed out.new) }
    ensures network_fault { result ≡ 10 → IsSome (serve_of (map string_bytes words.now)) × HasRisen (N.meaning net.old).faults (N.meaning net.new).faults }
    ensures net_unfailed { result ≢ 5 → result ≢ 10 → (N.meaning net.new).faults ≡ (N.meaning net.old).faults }
    // Streams are dialled by a server that passes its requests on, and by nothing else.
    ensures behind_alone { is_passing_server (serve_of (map string_bytes words.now)) ≡ false → behind.new ≡ behind.old }
    ensures net_alone { serve_of (map string_bytes words.now) ≡ None → net.new ≡ net.old }
    ensures net_never_falls { (N.meaning net.old).faults ≤ (N.meaning net.new).faults }
    ensures input_never_falls { S.faults input.old ≤ S.faults input.new }
    ensures out_never_falls { K.faults out.old ≤ K.faults out.new }
    ensures err_never_falls { E.faults err.old ≤ E.faults err.new }
{
    match offline(alloc, words, input, out, err, native, app) {
        Some(status) => status,
        None => {
            let host = Host { rt, alloc, app };
            let end = serve(&host, words, out, net, native, behind);
            tell(alloc, verdict_of_server(end), err)
        }
    }
}
