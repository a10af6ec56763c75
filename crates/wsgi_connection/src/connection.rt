//! A connection, answered piece by piece.
ghost use Rattle.std.specs.Prelude.{◌≡◌, ◌≢◌, ◌⊎◌, ◌≤◌, ◌++◌, ℕ, List, Option, Some, IfErr, OnErr, OnOk, false};
ghost use Rattle.gv_values.specs.Counts.{HasRisen};
ghost use Rattle.gv_io.specs.Streams.{appended, AppendsPrefix, Extends};
ghost use Rattle.wsgi_core.specs.Applications.{App};
ghost use Rattle.wsgi_connection.specs.declared.connection.TheConstants.{MOST_CONNECTION};
ghost use Rattle.wsgi_connection.specs.Connection.{Exchanged, HandedAhead, whole_session};
ghost use Rattle.wsgi_connection.specs.Wholes.{IsWhole};
ghost use Rattle.wsgi_connection.specs.Pieces.{Breaks, Counts, Goes, IsAtRest, Leaves, said};

use gv_io::{Failed, MOST_PIECE, Sink, Source};
use std::alloc::Global;
use wsgi_core::{Application, SessionPhase, Talk};

/// The most bytes of a connection that are looked at.
pub const MOST_CONNECTION: usize = 16777216;

/// How a connection ended.
#[derive(Clone, Copy, Debug, PartialEq, Eq)]
pub enum ConnectionEnd {
    /// The session closed or the input ended, and all that the session says is out.
    Closed,
    /// The session went on after the most bytes that are looked at, and one more came.
    TooLong,
    /// A read failed. What the session says to the bytes before it is out.
    ReadFault,
    /// A write or a flush failed. A prefix of what the session says is out.
    WriteFault,
    /// Memory ran out. A prefix of what the session says is out.
    Memory,
}

/// What a piece led to.
#[derive(Clone, Copy)]
pub enum Turn {
    /// So many bytes came and were answered, and the session goes on.
    Answered(usize),
    /// The connection ended.
    Ended(ConnectionEnd),
}

/// Writes out what is pending, and takes it from the session.
#[tactic(auto, using(gv_io::proofs::StreamLaws::writes, gv_io::proofs::StreamLaws::hands))]
fn send<T: Talk, K: Sink>(session: &mut T, out: &mut K) -> Result<(), Failed>
    ensures sent { OnOk result (K.written out.new ≡ appended (K.written out.old) (T.due session.old)) }
    ensures prefix { AppendsPrefix (K.written out.old) (K.written out.new) (T.due session.old) }
    ensures taken { OnOk result ((app : App) (port : ℕ) (fed taken : List ℕ) → T.is_at app port fed false taken session.old
        → T.is_at app port fed false (taken ++ T.due session.old) session.new) }
    ensures handed { OnOk result (K.handed out.new ≡ K.written out.new) }
    ensures never_taken_back { Extends (K.handed out.old) (K.handed out.new) }
    ensures never_falls { K.faults out.old ≤ K.faults out.new }
    ensures failed { OnErr result (HasRisen (K.faults out.old) (K.faults out.new)) }
    ensures unfailed { OnOk result (K.faults out.new ≡ K.faults out.old) }
{
    out.write_all(session.pending())?;
    out.flush()?;
    let sent = session.pending().len();
    session.took(sent);
    Ok(())
}

/// Feeds the piece to the session, and sends what it says, also where memory ran out for the rest of it; a fault of
/// the sink is told before that.
fn answer_piece<T: Talk, K: Sink, A: Application>(
    session: &mut T,
    piece: &[u8],
    out: &mut K,
    app: &A,
) -> Result<(), ConnectionEnd>
    ensures at_rest { OnOk result ((port : ℕ) (fed : List ℕ) → IsAtRest T.answers T.is_at (A.answer_of app.now) port fed session.old
        → IsAtRest T.answers T.is_at (A.answer_of app.now) port (fed ++ piece.now) session.new) }
    ensures sent { OnOk result ((port : ℕ) (fed : List ℕ) (out0 : Option (List ℕ)) → IsAtRest T.answers T.is_at (A.answer_of app.now) port fed session.old
        → K.written out.old ≡ appended out0 (said T.answers (A.answer_of app.now) port fed)
        → K.written out.new ≡ appended out0 (said T.answers (A.answer_of app.now) port (fed ++ piece.now))) }
    ensures broke { IfErr result (λ end. Breaks end T.answers T.is_at (A.answer_of app.now) piece.now session.old (K.written out.old) (K.written out.new)) }
    ensures written { Extends (K.written out.old) (K.written out.new) }
    ensures handed { OnOk result (K.handed out.new ≡ K.written out.new) }
    ensures never_taken_back { Extends (K.handed out.old) (K.handed out.new) }
    ensures never_falls { K.faults out.old ≤ K.faults out.new }
    ensures failed { IfErr result (λ end. end ≡ ConnectionEnd.WriteFault → HasRisen (K.faults out.old) (K.faults out.new)) }
    ensures unfailed { OnOk result (K.faults out.new ≡ K.faults out.old) }
    ensures unfailed_end { IfErr result (λ end. end ≢ ConnectionEnd.WriteFault → K.faults out.new ≡ K.faults out.old) }
{
    let fed = session.feed(piece, app);
    let sent = send(session, out);
    if sent.is_err() {
        return Err(ConnectionEnd::WriteFault);
    }
    if fed.is_err() {
        return Err(ConnectionEnd::Memory);
    }
    Ok(())
}

/// Tells the session that the input ended. It says nothing to that, and what went out is flushed.
fn end_input<T: Talk, K: Sink>(session: &mut T, out: &mut K) -> ConnectionEnd
    ensures ended { (result ≡ ConnectionEnd.Closed) ⊎ (result ≡ ConnectionEnd.WriteFault) }
    ensures nothing { (app : App) (port : ℕ) (fed : List ℕ) → IsAtRest T.answers T.is_at app port fed session.old → K.written out.new ≡ K.written out.old }
    ensures handed { result ≡ ConnectionEnd.Closed → K.handed out.new ≡ K.written out.new }
    ensures never_taken_back { Extends (K.handed out.old) (K.handed out.new) }
    ensures never_falls { K.faults out.old ≤ K.faults out.new }
    ensures failed { result ≡ ConnectionEnd.WriteFault → HasRisen (K.faults out.old) (K.faults out.new) }
    ensures unfailed { result ≢ ConnectionEnd.WriteFault → K.faults out.new ≡ K.faults out.old }
{
    session.end();
    match send(session, out) {
        Ok(()) => ConnectionEnd::Closed,
        Err(_) => ConnectionEnd::WriteFault,
    }
}

/// Reads the next piece behind so many bytes, and answers it.
fn exchange<T: Talk, S: Source, K: Sink, A: Application>(
    session: &mut T,
    count: usize,
    input: &mut S,
    out: &mut K,
    app: &A,
) -> Turn
    requires { count ≤ MOST_CONNECTION }
    ensures leaves { (port : ℕ) (in0 out0 : Option (List ℕ))
        → Goes T.answers T.is_at (A.answer_of app.now) port count in0 (S.remaining input.old) out0 (K.written out.old) session.old
        → Leaves result T.answers T.is_at (A.answer_of app.now) port count in0 (S.remaining input.new) out0 (K.written out.new) session.new }
    ensures handed { K.handed out.old ≡ K.written out.old → result ≢ Turn.Ended ConnectionEnd.WriteFault → result ≢ Turn.Ended ConnectionEnd.Memory → K.handed out.new ≡ K.written out.new }
    ensures handed_ahead { (port : ℕ) (in0 out0 : Option (List ℕ))
        → Goes T.answers T.is_at (A.answer_of app.now) port count in0 (S.remaining input.old) out0 (K.written out.old) session.old
        → K.handed out.old ≡ K.written out.old
        → HandedAhead T.answers (A.answer_of app.now) port in0 (S.remaining input.new) out0 (K.handed out.new) }
    ensures counts { Counts result count }
    ensures input_never_falls { S.faults input.old ≤ S.faults input.new }
    ensures out_never_falls { K.faults out.old ≤ K.faults out.new }
    ensures read_fault { result ≡ Turn.Ended ConnectionEnd.ReadFault → HasRisen (S.faults input.old) (S.faults input.new) }
    ensures write_fault { result ≡ Turn.Ended ConnectionEnd.WriteFault → HasRisen (K.faults out.old) (K.faults out.new) }
    ensures unfailed_reads { result ≢ Turn.Ended ConnectionEnd.ReadFault → S.faults input.new ≡ S.faults input.old }
    ensures unfailed_writes { result ≢ Turn.Ended ConnectionEnd.WriteFault → K.faults out.new ≡ K.faults out.old }
{
    let mut buffer = [0; MOST_PIECE];
    let most = (MOST_CONNECTION - count).min(MOST_PIECE - 1) + 1;
    let Ok(came) = input.read(&mut buffer[..most]) else {
        return Turn::Ended(ConnectionEnd::ReadFault);
    };
    if came == 0 {
        return Turn::Ended(end_input(session, out));
    }
    let looked_at = came.min(MOST_CONNECTION - count);
    match answer_piece(session, &buffer[..looked_at], out, app) {
        Err(end) => Turn::Ended(end),
        Ok(()) => match session.phase() {
            SessionPhase::Serving => Turn::Answered(came),
            SessionPhase::Closing => Turn::Ended(ConnectionEnd::Closed),
        },
    }
}

/// Answers the connection whose bytes the input gives, with the answers to out, until its session closes
/// or the input ends. What is pending is written and flushed after each piece, so that a peer that waits
/// is answered.
pub fn answer_connection<T: Talk + Drop, S: Source, K: Sink, A: Application>(
    alloc: Global,
    port: u16,
    input: &mut S,
    out: &mut K,
    app: &A,
) -> ConnectionEnd
    // By the bytes that were read: out has what the session of the application sends for them.
    ensures exchanged { Exchanged result T.answers (A.answer_of app.now) port (S.remaining input.old) (S.remaining input.new) (K.written out.old) (K.written out.new) }
    // By all the bytes that were left, however the source cuts them.
    ensures whole { (left : List ℕ) → S.remaining input.old ≡ Some left →
        IsWhole result (whole_session T.answers (A.answer_of app.now) port left) (K.written out.old) (K.written out.new) }
    // All that was written is handed on where all was before, also where a read failed.
    ensures handed { K.handed out.old ≡ K.written out.old → result ≢ ConnectionEnd.WriteFault → result ≢ ConnectionEnd.Memory → K.handed out.new ≡ K.written out.new }
    // What is due for all that was read was handed on before the last read.
    ensures handed_ahead { K.handed out.old ≡ K.written out.old → HandedAhead T.answers (A.answer_of app.now) port (S.remaining input.old) (S.remaining input.new) (K.written out.old) (K.handed out.new) }
    ensures read_fault { result ≡ ConnectionEnd.ReadFault → HasRisen (S.faults input.old) (S.faults input.new) }
    ensures write_fault { result ≡ ConnectionEnd.WriteFault → HasRisen (K.faults out.old) (K.faults out.new) }
    ensures unfailed_reads { result ≢ ConnectionEnd.ReadFault → S.faults input.new ≡ S.faults input.old }
    ensures unfailed_writes { result ≢ ConnectionEnd.WriteFault → K.faults out.new ≡ K.faults out.old }
    ensures input_never_falls { S.faults input.old ≤ S.faults input.new }
    ensures out_never_falls { K.faults out.old ≤ K.faults out.new }
{
    T::never_takes_back();
    T::is_silent_at_first();
    let mut session = T::begin(alloc, port);
    let mut count = 0;
    while count <= MOST_CONNECTION {
        match exchange(&mut session, count, input, out, app) {
            Turn::Answered(came) => count += came,
            Turn::Ended(end) => return end,
        }
    }
    ConnectionEnd::TooLong
}
