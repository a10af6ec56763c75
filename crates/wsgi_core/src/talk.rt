//! What a connection talks to: something that is fed its bytes and says what is sent for them.
ghost use Rattle.std.specs.Prelude.{◌≡◌, ◌≤◌, ◌++◌, ℕ, List, [], Bool, length, take, drop, OnOk, OnErr};
ghost use Rattle.wsgi_core.specs.Answer.{nothing_sent};
ghost use Rattle.wsgi_core.specs.Applications.{App};
ghost use Rattle.wsgi_core.specs.Talk.{Gateway, said_by};
ghost use Rattle.wsgi_core.specs.Session.{answers};
ghost use Rattle.wsgi_core.specs.Standings.{IsBefore, IsBegun, IsCutBy, IsFed, IsTaken, IsTakenCut, IsToldTheEnd, StaysCut, StaysEnded};
ghost use Rattle.wsgi_core.specs.Steps.{IsAt, Stopped, pending_of, phase_by, said_bytes, stopped_bytes};

use crate::reply::Application;
use crate::session::{Session, SessionPhase};
use std::alloc::{AllocError, Global};

/// One side of a connection: the server's. It is fed the bytes that the other side sends, in any pieces, and what is
/// pending is what it says to them. What it says is a function of all the bytes, however they were cut.
pub trait Talk {
    /// What is sent for the bytes of a connection, and whether it closes by that, whether or not they ended.
    ghost answers: { Gateway };

    /// It was begun at the port, fed these bytes, told of their end or not, and these were taken from it.
    ghost is_at: { App → ℕ → List ℕ → Bool → List ℕ → Self → Type 0 };

    /// It was begun at the port, fed these bytes, and ran out of memory; these were taken from it.
    ghost is_cut: { App → ℕ → List ℕ → List ℕ → Self → Type 0 };

    /// The bytes that are pending.
    ghost due: { Self → List ℕ };

    /// One to which nothing was fed, of a server at this port.
    fn begin(alloc: Global, port: u16) -> Self
        ensures { IsBegun is_at port result };

    /// Takes the next piece, and answers all that is whole. One that was told of the end, or that ran out of memory,
    /// ignores the piece and stays so. After an `Err` memory ran out: it is closing, and what is pending begins what
    /// was to be said.
    fn feed<A: Application>(&mut self, piece: &[u8], app: &A) -> Result<(), AllocError>
        ensures fed { OnOk result (IsFed is_at is_at (A.answer_of app.now) piece.now self.old self.new) }
        ensures cut { OnErr result (IsCutBy is_at is_cut (A.answer_of app.now) piece.now self.old self.new) }
        ensures ended { StaysEnded is_at self.old self.new }
        ensures ignored { StaysCut is_cut self.old self.new };

    /// Tells that the input has ended. One that ran out of memory stays as it was.
    fn end(&mut self)
        ensures at { IsToldTheEnd is_at self.old self.new }
        ensures cut { StaysCut is_cut self.old self.new }
        ensures due { due self.new ≡ due self.old };

    /// The bytes to be sent.
    fn pending(&self) -> &[u8]
        ensures { result.now ≡ due self.now };

    /// Removes so many bytes from the front of those pending: they were sent.
    fn took(&mut self, n: usize)
        requires { n ≤ length (due self.old) }
        ensures at { IsTaken is_at (take n (due self.old)) self.old self.new }
        ensures cut { IsTakenCut is_cut (take n (due self.old)) self.old self.new }
        ensures rest { due self.new ≡ drop n (due self.old) };

    /// Whether it goes on: `Closing` where it closes by what it said, where its input ended, and after want of memory.
    fn phase(&self) -> SessionPhase
        ensures at { (app : App) (port : ℕ) (fed : List ℕ) (ended : Bool) (taken : List ℕ) → is_at app port fed ended taken self.now
            → result ≡ phase_by (said_by answers app port fed ended).closes }
        ensures cut { (app : App) (port : ℕ) (fed taken : List ℕ) → is_cut app port fed taken self.now
            → result ≡ SessionPhase.Closing };

    /// What was taken and what is pending are what is sent.
    ghost says: { (app : App) (port : ℕ) (fed : List ℕ) (ended : Bool) (taken : List ℕ) (t : Self) → is_at app port fed ended taken t
        → taken ++ due t ≡ (answers app port fed).bytes };

    /// Without memory, they begin it.
    ghost begins: { (app : App) (port : ℕ) (fed taken : List ℕ) (t : Self) → is_cut app port fed taken t
        → (tail : List ℕ) × ((answers app port fed).bytes ≡ taken ++ due t ++ tail) };

    /// What was sent for the first bytes stays sent, and one that closed says no more. The call does nothing.
    fn never_takes_back()
        ensures { (app : App) (port : ℕ) (bytes more : List ℕ) → IsBefore (answers app port bytes) (answers app port (bytes ++ more)) };

    /// Nothing is sent for no bytes. The call does nothing.
    fn is_silent_at_first()
        ensures { (app : App) (port : ℕ) → answers app port [] ≡ nothing_sent };
}

/// The HTTP session (RFC 9112) as one side of a connection.
impl Talk for Session {
    ghost answers = { answers };

    ghost is_at = { IsAt };

    ghost is_cut = { Stopped };

    ghost due = { pending_of };

    fn begin(alloc: Global, port: u16) -> Session {
        Session::new(alloc, port)
    }

    fn feed<A: Application>(&mut self, piece: &[u8], app: &A) -> Result<(), AllocError> {
        self.feed(piece, app)
    }

    fn end(&mut self) {
        self.end()
    }

    fn pending(&self) -> &[u8] {
        self.pending()
    }

    fn took(&mut self, n: usize) {
        self.took(n)
    }

    fn phase(&self) -> SessionPhase {
        self.phase()
    }

    ghost says = { said_bytes };

    ghost begins = { stopped_bytes };

    fn never_takes_back() {}

    fn is_silent_at_first() {}
}
