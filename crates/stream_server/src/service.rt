//! What a server says on its connections, and what a request may wait for there.
ghost use Rattle.std.specs.Prelude.{◌≡◌, ℕ, ◌+◌, ◌<◌, ◌≤◌, false, length, take, Err, OnErr, OnOk, Option, Some, None};
ghost use Rattle.wsgi_core.specs.Applications.{App};
ghost use Rattle.wsgi_core.specs.Standings.{IsBegun, IsFed, IsTaken, IsToldTheEnd};
ghost use Rattle.stream_server.specs.Protocols.{Apps, IsLawful, Protocol, side_of};
ghost use Rattle.stream_server.specs.Services.{AreBeside, BeginsAgain, Closes, HasRankFrom, IsCutAt, IsGiven, IsGivenCut, IsHeldFrom, Polls, TiesAfter, TiesFrom};
ghost use Rattle.stream_server.specs.Tables.{IsListed, Relists, SeenTable};
ghost use Rattle.stream_server.specs.declared.client.Client.{Client};

use crate::client::Client;
use crate::table::ClientTable;
use std::alloc::AllocError;
use wsgi_core::SessionPhase;

/// What became of a request that waits for its reply.
#[derive(Clone, Copy, Debug, PartialEq, Eq)]
pub enum Replied {
    /// None waits.
    NoRequest,
    /// It was given its reply.
    Given,
    /// Its reply has to be waited for.
    Asks,
    /// Memory ran out.
    Memory,
}

/// Why a connection isn't held for its reply.
#[derive(Clone, Copy, Debug, PartialEq, Eq)]
pub enum HoldRefusal {
    /// The service has no more of what the request asks for.
    Spent,
    /// Memory ran out.
    Memory,
}

/// What a poll led to.
#[derive(Drop)]
pub enum Polled<T> {
    /// No reply has come.
    Nobody,
    /// The reply for which this client was held has come, and was given to it. It isn't listed any more.
    Released(Client<T>),
    /// Memory ran out.
    Memory,
}

/// What a server does with the bytes of its connections: it has a talk `T` with each. A request may wait for a reply
/// that `W` gives: until then its connection is held, and the others go on.
///
/// Each connection is answered as by an application of its own. A talk isn't told on which connection it is, so what is
/// said of a talk alone holds of the application of every connection.
pub trait Service<T, W> {
    /// What is said, and where a talk stands.
    ghost protocol: { Protocol T };

    /// How far a talk has come, which never falls. By it a service knows that a request comes after those for which it
    /// asked `W`.
    ghost rank: { T → ℕ };

    /// The applications as which it answers its connections, with this `W` behind it.
    ghost fits: { Self → W → Apps → Type 0 };

    /// Some that fit.
    ghost one: { Self → W → Apps };

    /// What ties it to the clients that are listed, where so many were accepted.
    ghost tied: { Self → W → SeenTable T → ℕ → Type 0 };

    /// The same, and of the client of this number it keeps nothing but the least rank with which it may be listed again.
    ghost tied_but: { Self → W → SeenTable T → ℕ → ℕ → ℕ → Type 0 };

    /// What holds of it and of `W` at any time.
    ghost sound: { Self → W → Type 0 };

    /// A request asks for something else than an application gives at once.
    ghost wants: { T → Type 0 };

    /// There is no more of that.
    ghost spent: { Self → W → Type 0 };

    /// What of `W` stays as it is: a number, as of its workers or of its patience, and the port to which it leads, if any.
    ghost lasting: { W → ℕ × Option ℕ };

    /// A talk with a new connection to a server at this port.
    fn begin(&self, port: u16) -> T
        ensures begun { IsBegun protocol.at port result }
        ensures free { protocol.holds result ≡ false };

    /// The bytes to be sent.
    fn pending<'a>(&self, talk: &'a T) -> &'a [u8]
        ensures { result.now ≡ protocol.due talk.now };

    /// So many of the bytes were sent.
    fn took(&self, talk: &mut T, count: usize)
        requires { count ≤ length (protocol.due talk.old) }
        ensures taken { IsTaken protocol.at (take count (protocol.due talk.old)) talk.old talk.new }
        ensures rises { rank talk.old ≤ rank talk.new }
        ensures holds { protocol.holds talk.new ≡ protocol.holds talk.old };

    /// The input has ended.
    fn end(&self, talk: &mut T)
        ensures told { IsToldTheEnd protocol.at talk.old talk.new }
        ensures rises { rank talk.old ≤ rank talk.new }
        ensures holds { protocol.holds talk.new ≡ protocol.holds talk.old };

    /// Whether the talk goes on, where no request waits.
    fn phase(&self, talk: &T) -> SessionPhase
        requires { protocol.asks talk.now ≡ false }
        ensures { result ≡ SessionPhase.Closing → Closes protocol talk.now };

    /// Takes the next piece of the input. After an `Err` memory ran out, and what is pending begins what was to be said.
    fn feed(&self, talk: &mut T, piece: &[u8]) -> Result<(), AllocError>
        ensures fed { OnOk result ((w : W) (apps : Apps) (conn : ℕ) → fits self.now w apps → IsFed protocol.at protocol.at (apps conn) piece.now talk.old talk.new) }
        ensures cut { OnErr result ((w : W) (apps : Apps) (conn : ℕ) → fits self.now w apps → IsCutAt protocol (apps conn) piece.now talk.old talk.new) }
        ensures rises { OnOk result (rank talk.old ≤ rank talk.new) }
        ensures holds { protocol.holds talk.new ≡ protocol.holds talk.old };

    /// Gives the reply to the request that waits, if one does and its reply needn't be waited for.
    fn reply(&self, talk: &mut T) -> Replied
        ensures no_request { result ≡ Replied.NoRequest → (talk.new ≡ talk.old) × (protocol.asks talk.new ≡ false) }
        ensures asks { result ≡ Replied.Asks → (talk.new ≡ talk.old) × wants talk.new }
        ensures given { result ≡ Replied.Given → (w : W) (apps : Apps) (conn : ℕ) → fits self.now w apps → IsGiven protocol (apps conn) talk.old talk.new }
        ensures cut { result ≡ Replied.Memory → (w : W) (apps : Apps) (conn : ℕ) → fits self.now w apps → IsGivenCut protocol (apps conn) talk.old talk.new }
        ensures rises { result ≡ Replied.Given → rank talk.old ≤ rank talk.new }
        ensures holds { protocol.holds talk.new ≡ protocol.holds talk.old };

    /// Asks `W` for the reply to the request of this client, which is held until it comes: its deadline never comes, and
    /// its talk keeps the one that it had. After an `Err` the client isn't held.
    fn hold(&mut self, world: &mut W, client: &mut Client<T>) -> Result<(), HoldRefusal>
        requires wants { wants client.old.talk }
        requires tied { (table : SeenTable T) × (accepted : ℕ) × TiesFrom (tied_but self.old world.old) (rank client.old.talk) table accepted client.old.conn }
        ensures held { OnOk result (IsHeldFrom protocol client.old client.new) }
        ensures tied { OnOk result ((table now : SeenTable T) (accepted : ℕ) → TiesFrom (tied_but self.old world.old) (rank client.old.talk) table accepted client.old.conn
            → client.old.conn < accepted → Relists table now client.new.conn (Some client.new) → tied self.new world.new now accepted) }
        ensures fits { (apps : Apps) → fits self.new world.new apps → fits self.old world.old apps }
        ensures spent { result ≡ Err HoldRefusal.Spent → spent self.new world.new }
        ensures sound { sound self.new world.new }
        ensures lasting { lasting world.new ≡ lasting world.old };

    /// Asks `W` whether a reply has come, gives it to the client that is held for it, and takes that out of the table. Its
    /// deadline is this one, but not before the one that it had.
    fn poll(&mut self, world: &mut W, table: &mut ClientTable<T>, deadline: u64) -> Polled<T>
        requires { (accepted : ℕ) × tied self.old world.old table.old accepted }
        ensures polled { Polls result protocol (fits self.new world.new) table.old table.new }
        ensures again { BeginsAgain result deadline }
        ensures tied { (accepted : ℕ) → tied self.old world.old table.old accepted
            → TiesAfter result (tied self.new world.new table.new accepted) (λ client. tied_but self.new world.new table.new accepted client.conn (rank client.talk)) }
        ensures fits { (apps : Apps) → fits self.new world.new apps → fits self.old world.old apps }
        ensures sound { sound self.new world.new }
        ensures lasting { lasting world.new ≡ lasting world.old };

    /// Whether the connection of this talk is held.
    fn is_held(&self, talk: &T) -> bool
        ensures { result ≡ protocol.holds talk.now };

    /// Whether no reply is waited for.
    fn is_idle(&self) -> bool;

    /// Until when the net may be waited for at this moment, where a reply is waited for: until that moment at most,
    /// whether the net is woken by what `W` gives or not.
    fn until(&self, now: u64, is_woken: bool) -> u64;

    /// What is said is lawful.
    ghost lawful: { (app : App) (port : ℕ) → IsLawful (side_of protocol app port) };

    /// It answers each connection as an application.
    ghost fits_one: { (service : Self) (world : W) → fits service world (one service world) };

    /// It stays tied where one more was accepted,
    ghost tied_new: { (service : Self) (world : W) (table now : SeenTable T) (accepted : ℕ) → tied service world table accepted
        → ((k : ℕ) (slot : Option (Client T)) → IsListed now k slot → IsListed table k slot) → tied_but service world now (accepted + 1) accepted 0 };

    /// where a client that isn't listed was listed or closed,
    ghost tied_again: { (service : Self) (world : W) (table now : SeenTable T) (accepted conn low : ℕ) → tied_but service world table accepted conn low
        → AreBeside table now conn → HasRankFrom rank low now conn → tied service world now accepted };

    /// and where a client that isn't held was taken out.
    ghost tied_out: { (service : Self) (world : W) (table now : SeenTable T) (accepted conn : ℕ) (client : Client T) → tied service world table accepted
        → IsListed table conn (Some client) → protocol.holds client.talk ≡ false → AreBeside table now conn → tied_but service world now accepted conn (rank client.talk) };
}
