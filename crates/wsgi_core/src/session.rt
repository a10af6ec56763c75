//! A session, fed in any pieces.
ghost use Rattle.std.specs.Prelude.{◌≡◌, ◌<◌, ◌≤◌, ◌+◌, ◌++◌, [], ℕ, List, Bool, None, length, true, false, IfOk, IsSome, OnErr, OnOk, drop, take};
ghost use Rattle.wsgi_core.specs.Answer.{if_continues, refusal};
ghost use Rattle.wsgi_core.specs.Applications.{App};
ghost use Rattle.wsgi_core.specs.Session.{answers, session};
ghost use Rattle.wsgi_core.specs.Stages.{is_at_head};
ghost use Rattle.wsgi_core.specs.Standings.{IsAllSaid, IsBegun, IsBegunSaid, IsCutBy, IsCutSaid, IsFed, IsTaken, IsTakenCut, IsToldTheEnd, StaysCut, StaysEnded};
ghost use Rattle.wsgi_core.specs.Steps.{IsAsked, IsAt, IsReplyTo, StandsAt, Stopped, answered_of, asked_of, pending_of, phase_by, progress_of};
ghost use Rattle.wsgi_core.specs.Progress.{GoesOn, IsDue, IsSettled, Stands};

use crate::answer::push_answer;
use crate::answered::Answered;
use crate::reply::{Application, Reply};
use http_messages::{
    AwaitedBody, BodyFound, ByteQueue, Bytes, Environ, Found, Framing, HttpRequest, Refusal,
    awaited_by, read_body, read_request,
};
use std::alloc::{AllocError, Global};
use std::mem;

/// Whether a session goes on.
#[derive(Clone, Copy, Debug, PartialEq, Eq)]
pub enum SessionPhase {
    /// More bytes may be answered.
    Serving,
    /// What is pending is the last that is sent.
    Closing,
}

/// Where a session stands.
#[derive(Drop)]
pub enum SessionStage {
    /// Before a head.
    AtHead,
    /// Within the body of a request.
    InBody(HttpRequest, AwaitedBody),
    /// At a request that waits for its reply.
    Asked(HttpRequest, Bytes),
}

/// The session of one connection (RFC 9112, section 9). The room of a large body goes on to its answer, and then to the
/// next large body; the first bytes that belong to none give it back.
#[derive(Drop)]
pub struct Session {
    alloc: Global,
    port: u16,
    answered: Answered,
    stage: SessionStage,
    kept: ByteQueue,
    pending: ByteQueue,
    closing: bool,
    ended: bool,
}

/// The fixed answer of a refusal.
fn refusal_text(reason: Refusal) -> &'static [u8]
    ensures { result.now ≡ (refusal reason).bytes }
{
    match reason {
        Refusal::BadRequest => {
            b"HTTP/1.1 400 Bad Request\r\nConnection: close\r\nContent-Length: 0\r\n\r\n"
        }
        Refusal::TooLarge => {
            b"HTTP/1.1 413 Request Entity Too Large\r\nConnection: close\r\nContent-Length: 0\r\n\r\n"
        }
        Refusal::TooLong => {
            b"HTTP/1.1 414 Request URI Too Long\r\nConnection: close\r\nContent-Length: 0\r\n\r\n"
        }
    }
}

/// Appends the answer that a client waits for before it sends a body, where it does.
fn push_continue(pending: &mut ByteQueue, request: &HttpRequest) -> Result<(), AllocError>
    ensures sent { OnOk result (pending.new ≡ pending.old ++ (if_continues request.now).bytes) }
    ensures err { OnErr result (pending.new ≡ pending.old) }
{
    if request.continues {
        return pending.append(b"HTTP/1.1 100 Continue\r\n\r\n");
    }
    Ok(())
}

/// How many bytes a body will have, where its head says it; else 0.
fn stated_len(framing: Framing) -> usize {
    match framing {
        Framing::Sized(len) => len,
        Framing::Chunked => 0,
    }
}

impl Session {
    /// A session to which nothing was fed.
    pub fn new(alloc: Global, port: u16) -> Session
        ensures { IsBegun IsAt port result }
    {
        Session {
            alloc,
            port,
            answered: Answered::none(),
            stage: SessionStage::AtHead,
            kept: ByteQueue::new(alloc),
            pending: ByteQueue::new(alloc),
            closing: false,
            ended: false,
        }
    }

    /// Reads the next request up to its body, if it is there, or the refusal of it; answers whether its
    /// body is to be read.
    fn read_head(&mut self) -> Result<bool, AllocError>
        requires is_open { self.old.closing ≡ false }
        requires at_head { self.old.stage ≡ SessionStage.AtHead }
        ensures goes_on { OnOk result ((app : App) → GoesOn app (progress_of self.old) (progress_of self.new)) }
        ensures settled { IfOk result (λ more. more ≡ false → (app : App) → IsSettled app (progress_of self.new)) }
        ensures is_open_still { IfOk result (λ more. more ≡ true → self.new.closing ≡ false) }
        ensures begun { IfOk result (λ more. more ≡ true → is_at_head self.new.stage ≡ false) }
        ensures shorter { IfOk result (λ more. more ≡ true → length self.new.kept < length self.old.kept) }
        ensures quiet { IfOk result (λ more. more ≡ false → asked_of self.new ≡ None) }
        ensures same_port { self.new.port ≡ self.old.port }
        ensures same_count { answered_of self.new ≡ answered_of self.old }
        ensures same_end { self.new.ended ≡ self.old.ended }
        ensures err { OnErr result (self.new.pending ≡ self.old.pending) }
    {
        match read_request(self.alloc, self.port, &mut self.kept)? {
            Found::Waits => {
                self.kept.give_back_with(&mut self.pending);
                Ok(false)
            }
            Found::Refused(reason) => {
                self.pending.append(refusal_text(reason))?;
                self.closing = true;
                Ok(false)
            }
            Found::Whole(request) => {
                self.kept
                    .take_room_of(self.alloc, &mut self.pending, stated_len(request.framing));
                push_continue(&mut self.pending, &request)?;
                let awaited = awaited_by(self.alloc, request.framing);
                self.stage = SessionStage::InBody(request, awaited);
                Ok(true)
            }
        }
    }

    /// Reads the body of the request, if it is there, or the refusal of it. A request that waits for its
    /// reply goes on waiting.
    fn read_body(&mut self) -> Result<(), AllocError>
        requires is_open { self.old.closing ≡ false }
        requires begun { is_at_head self.old.stage ≡ false }
        ensures goes_on { OnOk result ((app : App) → GoesOn app (progress_of self.old) (progress_of self.new)) }
        ensures settled { OnOk result (asked_of self.new ≡ None → (app : App) → IsSettled app (progress_of self.new)) }
        ensures shorter { OnOk result (IsSome (asked_of self.new) → length self.new.kept ≤ length self.old.kept) }
        ensures same_port { self.new.port ≡ self.old.port }
        ensures same_count { answered_of self.new ≡ answered_of self.old }
        ensures same_end { self.new.ended ≡ self.old.ended }
        ensures err { OnErr result (self.new.pending ≡ self.old.pending) }
    {
        match mem::replace(&mut self.stage, SessionStage::AtHead) {
            SessionStage::AtHead => Ok(()),
            SessionStage::Asked(request, body) => {
                self.stage = SessionStage::Asked(request, body);
                Ok(())
            }
            SessionStage::InBody(request, awaited) => match read_body(
                self.alloc,
                awaited,
                &mut self.kept,
            )? {
                BodyFound::BodyWaits(left) => {
                    self.stage = SessionStage::InBody(request, left);
                    Ok(())
                }
                BodyFound::BodyRefused(reason) => {
                    self.pending.append(refusal_text(reason))?;
                    self.closing = true;
                    Ok(())
                }
                BodyFound::BodyWhole(body) => {
                    self.stage = SessionStage::Asked(request, body);
                    Ok(())
                }
            },
        }
    }

    /// Whether a head is to be read next.
    fn is_at_head(&self) -> bool
        ensures { result ≡ is_at_head self.now.stage }
    {
        match &self.stage {
            SessionStage::AtHead => true,
            SessionStage::InBody(..) => false,
            SessionStage::Asked(..) => false,
        }
    }

    /// Goes on to the next whole request or to the end of the bytes that came.
    fn go_on(&mut self) -> Result<(), AllocError>
        requires { self.old.closing ≡ false }
        ensures goes_on { OnOk result ((app : App) → GoesOn app (progress_of self.old) (progress_of self.new)) }
        ensures settled { OnOk result (asked_of self.new ≡ None → (app : App) → IsSettled app (progress_of self.new)) }
        ensures shorter { OnOk result (IsSome (asked_of self.new) → is_at_head self.old.stage ≡ true → length self.new.kept < length self.old.kept) }
        ensures same_port { self.new.port ≡ self.old.port }
        ensures same_count { answered_of self.new ≡ answered_of self.old }
        ensures same_end { self.new.ended ≡ self.old.ended }
        ensures due { OnErr result ((app : App) → IsDue app (progress_of self.old) self.new.pending) }
    {
        if !self.is_at_head() {
            return self.read_body();
        }
        if !self.read_head()? {
            return Ok(());
        }
        self.read_body()
    }

    /// Appends the piece and goes on.
    fn take_open(&mut self, piece: &[u8]) -> Result<(), AllocError>
        requires { self.old.closing ≡ false }
        ensures stands { OnOk result ((app : App) (fed taken : List ℕ) → Stands app fed taken (progress_of self.old)
            → Stands app (fed ++ piece.now) taken (progress_of self.new)) }
        ensures settled { OnOk result (asked_of self.new ≡ None → (app : App) → IsSettled app (progress_of self.new)) }
        ensures same_port { self.new.port ≡ self.old.port }
        ensures same_count { answered_of self.new ≡ answered_of self.old }
        ensures same_end { self.new.ended ≡ self.old.ended }
        ensures due { OnErr result ((app : App) (fed taken : List ℕ) → Stands app fed taken (progress_of self.old)
            → (tail : List ℕ) × ((answers app self.old.port (fed ++ piece.now)).bytes ≡ taken ++ self.new.pending ++ tail)) }
    {
        self.kept.append(piece)?;
        self.go_on()
    }

    /// Takes the next piece of the input and goes on to the next whole request; bytes behind it are kept.
    /// A session that is closing or ended, or that ran out of memory, ignores the piece and stays as it was. After
    /// an `Err` it is closing, and what is pending and what was taken begin what it sends.
    pub fn take_in(&mut self, piece: &[u8]) -> Result<(), AllocError>
        ensures stands_at { OnOk result ((app : App) → IsFed StandsAt StandsAt app piece.now self.old self.new) }
        ensures stopped { OnErr result ((app : App) → IsCutBy StandsAt Stopped app piece.now self.old self.new) }
        ensures counted { answered_of self.new ≡ answered_of self.old }
        ensures ended { StaysEnded StandsAt self.old self.new }
        ensures ended_quiet { StaysEnded IsAt self.old self.new }
        ensures ignored { StaysCut Stopped self.old self.new }
    {
        if self.ended {
            return Ok(());
        }
        if self.closing {
            return Ok(());
        }
        let taken_in = self.take_open(piece);
        if taken_in.is_err() {
            self.closing = true;
        }
        taken_in
    }

    /// The request that waits for its reply, with its body; `None` exactly where none waits.
    pub fn asked(&self) -> Option<(&Environ, &[u8])>
        ensures { IsAsked result (asked_of self.now) }
    {
        if self.closing {
            return None;
        }
        match &self.stage {
            SessionStage::AtHead => None,
            SessionStage::InBody(..) => None,
            SessionStage::Asked(request, body) => Some((&request.environ, body.items())),
        }
    }

    /// Appends the answer to the request that waits.
    fn answer_asked(&mut self, reply: Reply) -> Result<(), AllocError>
        requires { IsSome (asked_of self.old) }
        ensures goes_on { OnOk result ((app : App) → IsReplyTo app (answered_of self.old) (asked_of self.old) reply
            → GoesOn app (progress_of self.old) (progress_of self.new)) }
        ensures at_head { OnOk result (self.new.stage ≡ SessionStage.AtHead) }
        ensures same_kept { self.new.kept ≡ self.old.kept }
        ensures same_port { self.new.port ≡ self.old.port }
        ensures counted { OnOk result (answered_of self.new ≡ answered_of self.old + 1) }
        ensures same_end { self.new.ended ≡ self.old.ended }
        ensures err { OnErr result (self.new.pending ≡ self.old.pending) }
    {
        match mem::replace(&mut self.stage, SessionStage::AtHead) {
            // The requires says that a request waits, so that the stage is `Asked`.
            SessionStage::AtHead => unreachable!(),
            SessionStage::InBody(..) => unreachable!(),
            SessionStage::Asked(request, body) => {
                self.pending.take_room(body);
                let closes = push_answer(self.alloc, &mut self.pending, &request, &reply)?;
                self.closing = closes;
                self.answered = self.answered.and_one();
                Ok(())
            }
        }
    }

    /// Appends the answer to the request that waits, and goes on.
    fn answer_on(&mut self, reply: Reply) -> Result<(), AllocError>
        requires { IsSome (asked_of self.old) }
        ensures goes_on { OnOk result ((app : App) → IsReplyTo app (answered_of self.old) (asked_of self.old) reply
            → GoesOn app (progress_of self.old) (progress_of self.new)) }
        ensures settled { OnOk result (asked_of self.new ≡ None → (app : App) → IsSettled app (progress_of self.new)) }
        ensures shorter { OnOk result (IsSome (asked_of self.new) → length self.new.kept < length self.old.kept) }
        ensures same_port { self.new.port ≡ self.old.port }
        ensures counted { OnOk result (answered_of self.new ≡ answered_of self.old + 1) }
        ensures same_end { self.new.ended ≡ self.old.ended }
        ensures due { OnErr result ((app : App) → IsReplyTo app (answered_of self.old) (asked_of self.old) reply → IsDue app (progress_of self.old) self.new.pending) }
    {
        self.answer_asked(reply)?;
        if self.closing {
            return Ok(());
        }
        self.go_on()
    }

    /// Gives the reply to the request that waits, and goes on to the next whole request in the bytes that
    /// were kept. After an `Err` the session is closing, as after `take_in`.
    pub fn answer(&mut self, reply: Reply) -> Result<(), AllocError>
        requires { IsSome (asked_of self.old) }
        ensures stands_at { OnOk result ((app : App) (port : ℕ) (fed : List ℕ) (ended : Bool) (taken : List ℕ)
            → IsReplyTo app (answered_of self.old) (asked_of self.old) reply → StandsAt app port fed ended taken self.old
            → StandsAt app port fed ended taken self.new) }
        ensures counted { OnOk result (answered_of self.new ≡ answered_of self.old + 1) }
        ensures stopped { OnErr result ((app : App) (port : ℕ) (fed : List ℕ) (ended : Bool) (taken : List ℕ)
            → IsReplyTo app (answered_of self.old) (asked_of self.old) reply → StandsAt app port fed ended taken self.old
            → Stopped app port fed taken self.new) }
    {
        let answered = self.answer_on(reply);
        if answered.is_err() {
            self.closing = true;
        }
        answered
    }

    /// Answers the requests that are whole, one after the other.
    fn answer_all<A: Application>(&mut self, app: &A) -> Result<(), AllocError>
        requires { asked_of self.old ≡ None → IsSettled (A.answer_of app.now) (progress_of self.old) }
        ensures goes_on { OnOk result (GoesOn (A.answer_of app.now) (progress_of self.old) (progress_of self.new)) }
        ensures settled { OnOk result (IsSettled (A.answer_of app.now) (progress_of self.new)) }
        ensures quiet { OnOk result (asked_of self.new ≡ None) }
        ensures same_port { self.new.port ≡ self.old.port }
        ensures same_end { self.new.ended ≡ self.old.ended }
        ensures due { OnErr result (IsDue (A.answer_of app.now) (progress_of self.old) self.new.pending) }
    {
        'requests: loop {
            let reply = match self.asked() {
                None => return Ok(()),
                Some((environ, body)) => app.call(self.alloc, environ, body)?,
            };
            self.answer_on(reply)?;
        }
    }

    /// Appends the piece, and answers all that is whole.
    fn feed_open<A: Application>(&mut self, piece: &[u8], app: &A) -> Result<(), AllocError>
        requires { self.old.closing ≡ false }
        ensures stands { OnOk result ((fed taken : List ℕ) → Stands (A.answer_of app.now) fed taken (progress_of self.old)
            → Stands (A.answer_of app.now) (fed ++ piece.now) taken (progress_of self.new)) }
        ensures settled { OnOk result (IsSettled (A.answer_of app.now) (progress_of self.new)) }
        ensures quiet { OnOk result (asked_of self.new ≡ None) }
        ensures same_port { self.new.port ≡ self.old.port }
        ensures same_end { self.new.ended ≡ self.old.ended }
        ensures due { OnErr result ((fed taken : List ℕ) → Stands (A.answer_of app.now) fed taken (progress_of self.old)
            → (tail : List ℕ) × ((answers (A.answer_of app.now) self.old.port (fed ++ piece.now)).bytes ≡ taken ++ self.new.pending ++ tail)) }
    {
        self.take_open(piece)?;
        self.answer_all(app)
    }

    /// Takes the next piece of the input, and answers all that is whole. Whatever was fed and taken before,
    /// what is pending now and what was taken are what the session sends for all that was fed. A session
    /// that is closing or ended, or that ran out of memory, ignores the piece and stays as it was. After an `Err` it
    /// is closing, and they begin what it sends.
    pub fn feed<A: Application>(&mut self, piece: &[u8], app: &A) -> Result<(), AllocError>
        ensures is_at { OnOk result (IsFed StandsAt IsAt (A.answer_of app.now) piece.now self.old self.new) }
        ensures stopped { OnErr result (IsCutBy StandsAt Stopped (A.answer_of app.now) piece.now self.old self.new) }
        ensures ended { StaysEnded StandsAt self.old self.new }
        ensures ended_quiet { StaysEnded IsAt self.old self.new }
        ensures ignored { StaysCut Stopped self.old self.new }
    {
        if self.ended {
            return Ok(());
        }
        if self.closing {
            return Ok(());
        }
        let fed = self.feed_open(piece, app);
        if fed.is_err() {
            self.closing = true;
        }
        fed
    }

    /// Tells that the input has ended: nothing more is answered than what came before. A session that ran out of
    /// memory stays as it was.
    pub fn end(&mut self)
        ensures stands_at { IsToldTheEnd StandsAt self.old self.new }
        ensures is_at { IsToldTheEnd IsAt self.old self.new }
        ensures stopped { StaysCut Stopped self.old self.new }
        ensures counted { answered_of self.new ≡ answered_of self.old }
        ensures pending { pending_of self.new ≡ pending_of self.old }
    {
        self.ended = true;
    }

    /// The bytes to be sent: with those taken, what the session sends for all that was fed. While a request waits
    /// for its reply, and after want of memory, they begin it.
    pub fn pending(&self) -> &[u8]
        ensures pending { result.now ≡ pending_of self.now }
        ensures said { IsAllSaid answers IsAt result.now self.now }
        ensures begun { IsBegunSaid answers StandsAt result.now self.now }
        ensures stopped { IsCutSaid answers Stopped result.now self.now }
    {
        self.pending.items()
    }

    /// Removes bytes from the front of those pending: they were sent.
    pub fn took(&mut self, n: usize)
        requires { n ≤ length (pending_of self.old) }
        ensures stands_at { IsTaken StandsAt (take n (pending_of self.old)) self.old self.new }
        ensures is_at { IsTaken IsAt (take n (pending_of self.old)) self.old self.new }
        ensures stopped { IsTakenCut Stopped (take n (pending_of self.old)) self.old self.new }
        ensures counted { answered_of self.new ≡ answered_of self.old }
        ensures rest { pending_of self.new ≡ drop n (pending_of self.old) }
    {
        self.pending.skip(n);
    }

    /// Whether the session goes on. While a request waits for its reply it does.
    pub fn phase(&self) -> SessionPhase
        ensures said { (app : App) (port : ℕ) (fed : List ℕ) (ended : Bool) (taken : List ℕ) → IsAt app port fed ended taken self.now
            → result ≡ phase_by (session app port fed ended).closes }
        ensures waits { IsSome (asked_of self.now) → result ≡ SessionPhase.Serving }
        ensures stopped { (app : App) (port : ℕ) (fed taken : List ℕ) → Stopped app port fed taken self.now
            → result ≡ SessionPhase.Closing }
    {
        if self.closing {
            return SessionPhase::Closing;
        }
        if self.ended && self.asked().is_none() {
            return SessionPhase::Closing;
        }
        SessionPhase::Serving
    }
}
