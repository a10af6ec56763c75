//! For whom jobs were posted. Only clauses read it: it takes no memory, and its calls do nothing.
ghost use Rattle.std.specs.Prelude.{◌≡◌, ℕ, List, [], ◌∷◌};
ghost use Rattle.std.specs.Borrow.{ftrue};
ghost use Rattle.wsgi_core.specs.Steps.{answered_of};

use std::marker::Model;
use wsgi_core::Session;

/// The owners of jobs, the last one first, each behind the number of its job.
#[derive(Drop)]
pub(crate) struct Owners {
    ghost list: { List (ℕ × (ℕ × ℕ)) },
}

impl Model for Owners {
    ghost also_owns = { λ _. ftrue };
}

/// A job, and the request that asks for it.
#[derive(Clone, Copy, Drop)]
pub(crate) struct OwnedJob<'a> {
    /// The number of the job.
    pub(crate) number: u32,
    /// The connection.
    pub(crate) conn: u32,
    /// The session of that, at the request.
    pub(crate) session: &'a Session,
}

impl Owners {
    /// No jobs.
    pub(crate) fn none() -> Owners
        ensures { result.list ≡ [] }
    {
        Owners {}
    }

    /// The same, and this job.
    pub(crate) fn and(&self, _owned: &OwnedJob) -> Owners
        ensures { result.list ≡ (_owned.now.number, (_owned.now.conn, answered_of _owned.now.session.now)) ∷ self.now.list }
    {
        Owners {}
    }
}
