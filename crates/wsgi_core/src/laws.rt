//! Laws of sessions: each function only says that its clause holds.
ghost use Rattle.std.specs.Prelude.{◌≡◌, ◌++◌, ℕ, List, Bool, false};
ghost use Rattle.wsgi_core.specs.declared.session.Session.{Session};
ghost use Rattle.wsgi_core.specs.Applications.{App};
ghost use Rattle.wsgi_core.specs.Laws.{Becomes, Call, NeverTakesBack, fed_by, taken_by};
ghost use Rattle.wsgi_core.specs.Session.{session};
ghost use Rattle.wsgi_core.specs.Standings.{IsBegun};
ghost use Rattle.wsgi_core.specs.Steps.{IsAt, pending_of};

/// The law of a session: a new one is fed any pieces, and any bytes are taken from it in between. Then what was taken
/// and what is pending are what `session` says of the pieces joined, however they were cut.
pub fn sessions_join_their_pieces()
    ensures { (app : App) (port : ℕ) (calls : List Call) (new now : Session) → IsBegun IsAt port new → Becomes app calls new now →
        taken_by calls ++ pending_of now ≡ (session app port (fed_by calls) false).bytes }
{}

/// What a session sent, it never takes back.
pub fn sessions_never_take_back()
    ensures { (app : App) (port : ℕ) (bytes more : List ℕ) (ended : Bool) → NeverTakesBack app port bytes more ended }
{}
