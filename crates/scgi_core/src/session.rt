//! A session, fed in any pieces.
ghost use Rattle.std.specs.Prelude.{◌≡◌, ◌++◌, ℕ, List, false, OnErr, OnOk};
ghost use Rattle.scgi_core.specs.Session.{scgi_answers};
ghost use Rattle.scgi_core.specs.Steps.{IsAt, Stands, Stopped, pending_of, said_bytes, stopped_bytes};

use crate::answer::{push_answer, refusal_text};
use crate::head::read_call;
use crate::request::CallFound;
pub use crate::request::ScgiStage;
use http_messages::ByteQueue;
use std::alloc::{AllocError, Global};
use std::mem;
use wsgi_core::{Application, SessionPhase, Talk};

/// The session of one connection: one request and its answer (SCGI, N. Schemenauer, section 2). What it says it says
/// under RFC 3875, section 6.
#[derive(Drop)]
pub struct ScgiSession {
    alloc: Global,
    stage: ScgiStage,
    kept: ByteQueue,
    pending: ByteQueue,
    closing: bool,
    ended: bool,
}

impl ScgiSession {
    /// Appends the piece, and answers the request if it is whole.
    fn feed_open<A: Application>(&mut self, piece: &[u8], app: &A) -> Result<(), AllocError>
        requires { self.old.closing ≡ false }
        ensures stands { OnOk result ((port : ℕ) (fed taken : List ℕ)
            → Stands (A.answer_of app.now) port fed false self.old.stage self.old.kept (taken ++ self.old.pending)
            → Stands (A.answer_of app.now) port (fed ++ piece.now) self.new.closing self.new.stage self.new.kept (taken ++ self.new.pending)) }
        ensures same_end { self.new.ended ≡ self.old.ended }
        ensures err { OnErr result (self.new.pending ≡ self.old.pending) }
    {
        self.kept.append(piece)?;
        let stage = mem::replace(&mut self.stage, ScgiStage::AtHead);
        match read_call(self.alloc, stage, &mut self.kept)? {
            CallFound::CallWaits(left) => {
                self.stage = left;
                Ok(())
            }
            CallFound::CallRefused(reason) => {
                self.pending.append(refusal_text(reason))?;
                self.closing = true;
                Ok(())
            }
            CallFound::CallWhole(request, body) => {
                let reply = app.call(self.alloc, &request.environ, body.items())?;
                push_answer(self.alloc, &mut self.pending, request.is_head, &reply)?;
                self.closing = true;
                Ok(())
            }
        }
    }
}

/// The session as one side of a connection. It goes on until it has given its answer.
impl Talk for ScgiSession {
    ghost answers = { scgi_answers };

    ghost is_at = { IsAt };

    ghost is_cut = { Stopped };

    ghost due = { pending_of };

    /// What it says doesn't depend on the port.
    fn begin(alloc: Global, _port: u16) -> ScgiSession {
        ScgiSession {
            alloc,
            stage: ScgiStage::AtHead,
            kept: ByteQueue::new(alloc),
            pending: ByteQueue::new(alloc),
            closing: false,
            ended: false,
        }
    }

    fn feed<A: Application>(&mut self, piece: &[u8], app: &A) -> Result<(), AllocError> {
        if self.ended {
            return Ok(());
        }
        if self.closing {
            return Ok(());
        }
        let fed = self.feed_open(piece, app);
        if fed.is_err() {
            self.closing = true;
        }
        fed
    }

    fn end(&mut self) {
        self.ended = true;
    }

    fn pending(&self) -> &[u8] {
        self.pending.items()
    }

    fn took(&mut self, n: usize) {
        self.pending.skip(n);
    }

    fn phase(&self) -> SessionPhase {
        if self.closing || self.ended {
            return SessionPhase::Closing;
        }
        SessionPhase::Serving
    }

    ghost says = { said_bytes };

    ghost begins = { stopped_bytes };

    fn never_takes_back() {}

    fn is_silent_at_first() {}
}
