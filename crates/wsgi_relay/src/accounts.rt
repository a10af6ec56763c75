//! For which requests streams were opened, and what these were given. Only clauses read it: it takes no memory, and its
//! calls do nothing.
ghost use Rattle.std.specs.Prelude.{◌≡◌, ◌++◌, ℕ, List, [], ◌∷◌};
ghost use Rattle.std.specs.Borrow.{ftrue};
ghost use Rattle.wsgi_core.specs.Steps.{answered_of};
ghost use Rattle.wsgi_relay.specs.Accounts.{asked_on, given_on};
ghost use Rattle.wsgi_relay.specs.Relaying.{Asked, Given};

use std::marker::Model;
use wsgi_core::{Reply, Session};

/// The requests for which a stream was opened, in order.
#[derive(Drop)]
pub(crate) struct Askers {
    ghost list: { List Asked },
}

impl Model for Askers {
    ghost also_owns = { λ _. ftrue };
}

/// The request that waits at a session.
#[derive(Clone, Copy, Drop)]
pub(crate) struct AskedOn<'a> {
    /// The connection.
    pub(crate) conn: u32,
    /// Its session.
    pub(crate) session: &'a Session,
}

impl Askers {
    /// No requests.
    pub(crate) fn none() -> Askers
        ensures { result.list ≡ [] }
    {
        Askers {}
    }

    /// The same, and this request.
    pub(crate) fn and(&self, _asked: &AskedOn) -> Askers
        ensures { result.list ≡ self.now.list ++ asked_on _asked.now.conn _asked.now.session.now ∷ [] }
    {
        Askers {}
    }
}

/// What requests were given, the last one first, each behind its connection and its number.
#[derive(Drop)]
pub(crate) struct Replies {
    ghost list: { List ((ℕ × ℕ) × Given) },
}

impl Model for Replies {
    ghost also_owns = { λ _. ftrue };
}

/// What the request that waits at a session is given.
#[derive(Clone, Copy, Drop)]
pub(crate) struct GivenOn<'a> {
    /// The connection.
    pub(crate) conn: u32,
    /// Its session.
    pub(crate) session: &'a Session,
    /// The reply.
    pub(crate) reply: &'a Reply,
}

impl Replies {
    /// No replies.
    pub(crate) fn none() -> Replies
        ensures { result.list ≡ [] }
    {
        Replies {}
    }

    /// The same, and this reply.
    pub(crate) fn and(&self, _given: &GivenOn) -> Replies
        ensures { result.list ≡ ((_given.now.conn, answered_of _given.now.session.now), given_on _given.now.session.now _given.now.reply.now) ∷ self.now.list }
    {
        Replies {}
    }
}
