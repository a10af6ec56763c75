//! The requests that are handed to an application server, and the connections that wait for its replies.
ghost use Rattle.std.specs.Prelude.{◌≡◌, ◌≢◌, ℕ, ◌-◌, ◌^◌, ◌<◌, ◌≤◌, ◌++◌, true, [], ◌∷◌, length, Ok, Some, None, IfOk, IfSome, IsSome, OnOk, codes};
ghost use Rattle.std.specs.List.{list_all};
ghost use Rattle.http_messages.specs.Environ.{pair_value};
ghost use Rattle.scgi_core.specs.Block.{is_value};
ghost use Rattle.scgi_core.specs.Laws.{is_plain};
ghost use Rattle.stream_net.specs.Net.{connection_at};
ghost use Rattle.stream_server.specs.Protocols.{Apps};
ghost use Rattle.stream_server.specs.Services.{BeginsAgain, Polls, TiesAfter};
ghost use Rattle.stream_server.specs.Tables.{IsListed};
ghost use Rattle.wsgi_relay.specs.Accounts.{AllAgree, IsAskedMore, asked_on, asker_in, given_in};
ghost use Rattle.wsgi_relay.specs.Asking.{CanBeHanded, HasAsked, WantsRelay};
ghost use Rattle.wsgi_relay.specs.Exchanging.{GoesOnIn, HasShown, IsSameExchange, IsSent, OfSlot};
ghost use Rattle.wsgi_relay.specs.Giving.{Gives};
ghost use Rattle.wsgi_relay.specs.Laws.{relay_app};
ghost use Rattle.wsgi_relay.specs.Talks.{rank_of, relay_protocol};
ghost use Rattle.wsgi_relay.specs.Tied.{HandsOn, HaveAsked, HaveAskedBut, HaveAskedOnce, IsKept, IsMadeFor, IsOver, IsTied, IsTiedBut, IsUnderWay, OpensFor, Puts, exchange_in};
ghost use Rattle.wsgi_relay.specs.Turns.{turn_of};

use crate::accounts::{AskedOn, Askers, GivenOn, Replies};
use crate::exchange::{Exchange, advance, close_exchange, send};
use crate::relay_talk::{RelayTalk, Request, asked_for, freed};
use http_messages::Environ;
use relay_core::{Far, refused_request};
use std::alloc::{AllocError, Global};
use std::collections::VecDeque;
use std::mem;
use stream_dial::Dial;
use stream_server::{Client, ClientTable, HoldRefusal, NEVER, Polled, Replied, Service};
use wsgi_core::{Reply, Session, SessionPhase};

/// How long a net is waited for at most that is woken by the streams, in milliseconds.
const REST: u64 = 1000;

/// How many streams are gone on with in one poll.
const MOST_TURNS: u32 = 256;

/// How many bytes one read of a stream brings at most.
const MOST_READ: usize = 16384;

/// An application server.
#[derive(Drop)]
pub struct AppServer<D> {
    /// The streams towards it.
    pub dial: D,
    /// How long a reply may take, in milliseconds.
    pub patience: u64,
}

/// When the time of an exchange is over.
#[derive(Clone, Copy, Drop)]
struct Due {
    // The moment.
    until: u64,
    // The slot of its stream.
    slot: usize,
}

/// What a turn of a poll led to.
#[derive(Clone, Copy)]
enum Turn {
    /// There is no news of any stream.
    Rests,
    /// There may be more.
    GoesOn,
    /// The exchange in this slot is over, with so much of the reply.
    Over(usize, Far),
    /// Memory ran out.
    Memory,
}

/// The requests that were handed on, each with its stream.
#[derive(Drop)]
pub struct Relays {
    alloc: Global,
    // By the slots of their streams.
    exchanges: Vec<Option<Exchange>>,
    // How many these are.
    live: usize,
    // When the time of each is over, in the order of their opening, with some that are over already.
    due: VecDeque<Due>,
    // For which request each stream was opened.
    askers: Askers,
    // What the requests were given.
    replies: Replies,
    // Whether there may be news of a stream that were not asked for yet.
    stirred: bool,
}

/// Whether an exchange is in that slot whose time is over at that moment.
fn is_due(exchanges: &[Option<Exchange>], due: Due) -> bool
    ensures { result ≡ true → (x : Exchange) × (exchange_in exchanges.now due.slot ≡ Some x) × (x.until ≡ due.until) }
{
    match exchanges.get(due.slot) {
        None => false,
        Some(place) => match place {
            None => false,
            Some(exchange) => exchange.until == due.until,
        },
    }
}

/// Takes the exchange out of a slot, if one is there.
fn take(exchanges: &mut Vec<Option<Exchange>>, slot: usize) -> Option<Exchange>
    ensures took { result ≡ exchange_in exchanges.old.items slot }
    ensures puts { Puts exchanges.old.items exchanges.new.items slot None }
    ensures within { IsSome result → slot < length exchanges.new.items }
{
    if slot >= exchanges.len() {
        return None;
    }
    mem::replace(&mut exchanges[slot], None)
}

/// Puts an exchange into a slot that there is.
fn put(exchanges: &mut Vec<Option<Exchange>>, slot: usize, exchange: Exchange)
    requires { slot < length exchanges.old.items }
    ensures { Puts exchanges.old.items exchanges.new.items slot (Some exchange) }
{
    exchanges[slot] = Some(exchange);
}

/// Makes slots up to this one, which are empty.
fn grow(exchanges: &mut Vec<Option<Exchange>>, slot: usize) -> Result<(), AllocError>
    ensures within { OnOk result (slot < length exchanges.new.items) }
    ensures same { (other : ℕ) → exchange_in exchanges.new.items other ≡ exchange_in exchanges.old.items other }
{
    while exchanges.len() <= slot {
        exchanges.push(None)?;
    }
    Ok(())
}

/// Whether the request is one of HEAD.
fn asks_for_head(environ: &Environ) -> bool
    ensures { result ≡ is_value (codes "HEAD") (pair_value (codes "REQUEST_METHOD") environ.now) }
{
    match environ.get(b"REQUEST_METHOD") {
        None => false,
        Some(method) => method == b"HEAD".as_slice(),
    }
}

/// What it led to that the exchange in this slot has come so far.
fn turn_of(slot: usize, far: Result<Option<Far>, AllocError>) -> Turn
    ensures { result ≡ turn_of slot far }
{
    match far {
        Err(_) => Turn::Memory,
        Ok(far) => match far {
            None => Turn::GoesOn,
            Some(far) => Turn::Over(slot, far),
        },
    }
}

/// Gives a client the reply that it waits for.
fn give(client: Client<RelayTalk>, reply: Reply, deadline: u64) -> Polled<RelayTalk>
    requires { HasAsked client.talk }
    ensures gives { Gives result reply client }
    ensures again { BeginsAgain result deadline }
{
    let mut client = client;
    if client.talk.session.answer(reply).is_err() {
        return Polled::Memory;
    }
    Polled::Released(freed(client, deadline))
}

impl Relays {
    /// No requests.
    pub fn new(alloc: Global) -> Relays
        ensures none { result.exchanges.items ≡ [] }
        ensures none_asked { result.askers.list ≡ [] }
        ensures none_given { result.replies.list ≡ [] }
    {
        Relays {
            alloc,
            exchanges: Vec::new(alloc),
            live: 0,
            due: VecDeque::new(alloc),
            askers: Askers::none(),
            replies: Replies::none(),
            stirred: false,
        }
    }

    /// Lets exchanges that are over already go from the front of those that are due, and answers the slot of the first,
    /// if its time is over.
    fn late_slot(&mut self, now: u64) -> Option<usize>
        ensures exchanges { self.new.exchanges.items ≡ self.old.exchanges.items }
        ensures askers { self.new.askers.list ≡ self.old.askers.list }
        ensures replies { self.new.replies.list ≡ self.old.replies.list }
        ensures late { IfSome result (λ slot. (x : Exchange) × (exchange_in self.new.exchanges.items slot ≡ Some x) × (x.until < 2 ^ 64 - 1) × (x.until ≤ now)) }
    {
        for _ in 0..self.due.len() {
            let Some(due) = self.due.front() else {
                return None;
            };
            let due = *due;
            if is_due(&self.exchanges, due) {
                if due.until < NEVER && due.until <= now {
                    return Some(due.slot);
                }
                return None;
            }
            let _ = self.due.pop_front();
        }
        None
    }

    /// Opens a stream for a request, and sends what goes at once. After an `Err` memory ran out.
    fn open_stream<D: Dial>(
        &mut self,
        upstream: &mut AppServer<D>,
        asked: &AskedOn,
        exchange: &mut Exchange,
        body: &[u8],
    ) -> Result<usize, AllocError>
        requires plain { list_all is_plain (asked_on asked.now.conn asked.now.session.now).environ ≡ true }
        requires body { body.now ≡ (asked_on asked.now.conn asked.now.session.now).body }
        requires begun { IsMadeFor (asked_on asked.now.conn asked.now.session.now) exchange.old }
        requires kept { IsKept upstream.old.patience (D.meaning upstream.old.dial) self.old.askers.list (given_in self.old.replies.list) }
        ensures kept { IsKept upstream.new.patience (D.meaning upstream.new.dial) self.new.askers.list (given_in self.new.replies.list) }
        ensures askers { IsAskedMore self.old.askers.list self.new.askers.list (asked_on asked.now.conn asked.now.session.now) }
        ensures adds { OnOk result (self.new.askers.list ≡ self.old.askers.list ++ asked_on asked.now.conn asked.now.session.now ∷ []) }
        ensures opens { IfOk result (λ slot. OpensFor (D.meaning upstream.old.dial) (D.meaning upstream.new.dial) upstream.old.patience (asked_on asked.now.conn asked.now.session.now) slot exchange.new) }
        ensures replies { self.new.replies.list ≡ self.old.replies.list }
        ensures patience { upstream.new.patience ≡ upstream.old.patience }
        ensures towards { (D.meaning upstream.new.dial).towards ≡ (D.meaning upstream.old.dial).towards }
        ensures exchanges { self.new.exchanges.items ≡ self.old.exchanges.items }
    {
        let slot = upstream.dial.dial()?;
        self.askers = self.askers.and(asked);
        exchange.until = upstream.dial.now().saturating_add(upstream.patience);
        send(&mut upstream.dial, slot, exchange, body)?;
        Ok(slot)
    }

    /// Hands the request of a session on. After an `Err` memory ran out.
    fn hand_on<D: Dial>(
        &mut self,
        upstream: &mut AppServer<D>,
        conn: u32,
        session: &Session,
    ) -> Result<(), AllocError>
        requires wants { CanBeHanded session.now }
        requires kept { IsKept upstream.old.patience (D.meaning upstream.old.dial) self.old.askers.list (given_in self.old.replies.list) }
        ensures kept { IsKept upstream.new.patience (D.meaning upstream.new.dial) self.new.askers.list (given_in self.new.replies.list) }
        ensures askers { IsAskedMore self.old.askers.list self.new.askers.list (asked_on conn session.now) }
        ensures adds { OnOk result (self.new.askers.list ≡ self.old.askers.list ++ asked_on conn session.now ∷ []) }
        ensures hands_on { OnOk result (HandsOn (D.meaning upstream.old.dial) (D.meaning upstream.new.dial) upstream.old.patience (asked_on conn session.now) self.old.exchanges.items self.new.exchanges.items) }
        ensures replies { self.new.replies.list ≡ self.old.replies.list }
        ensures patience { upstream.new.patience ≡ upstream.old.patience }
        ensures towards { (D.meaning upstream.new.dial).towards ≡ (D.meaning upstream.old.dial).towards }
    {
        let Some((environ, body)) = session.asked() else {
            // The requires says that a request waits.
            unreachable!()
        };
        let is_head = asks_for_head(environ);
        let Ok(exchange) = Exchange::new(self.alloc, conn, environ, body.len(), is_head, NEVER)
        else {
            return Err(AllocError);
        };
        let mut exchange = exchange;
        let asked = AskedOn { conn, session };
        let slot = self.open_stream(upstream, &asked, &mut exchange, body)?;
        let due = Due {
            until: exchange.until,
            slot,
        };
        self.due.push_back(due)?;
        grow(&mut self.exchanges, slot)?;
        put(&mut self.exchanges, slot, exchange);
        self.live = self.live.saturating_add(1);
        self.stirred = true;
        Ok(())
    }

    /// Goes on with an exchange that was taken out of its slot, and answers how far it has come where it is over. After an
    /// `Err` memory ran out.
    fn go_on<D: Dial>(
        &self,
        upstream: &mut AppServer<D>,
        table: &ClientTable<RelayTalk>,
        slot: usize,
        exchange: &mut Exchange,
    ) -> Result<Option<Far>, AllocError>
        requires { IsUnderWay (D.meaning upstream.old.dial) upstream.old.patience self.now.askers.list (IsListed table.now) slot exchange.old }
        ensures only { GoesOnIn (D.meaning upstream.old.dial) (D.meaning upstream.new.dial) slot }
        ensures same { IsSameExchange exchange.old exchange.new }
        ensures sent { (number : ℕ) → (D.meaning upstream.new.dial).slots slot ≡ Some number → IsSent (connection_at (D.meaning upstream.new.dial).streams number) exchange.new (asker_in self.now.askers.list number).body }
        ensures way { OnOk result (IsUnderWay (D.meaning upstream.new.dial) upstream.old.patience self.now.askers.list (IsListed table.now) slot exchange.new) }
        ensures patience { upstream.new.patience ≡ upstream.old.patience }
        ensures come { (far : Far) → result ≡ Ok (Some far) → OfSlot (D.meaning upstream.new.dial) slot (λ s. HasShown far s exchange.new) }
    {
        let Some(client) = table.get(exchange.conn) else {
            // A connection that waits for a reply is listed.
            unreachable!()
        };
        let Some((_, body)) = client.talk.session.asked() else {
            // Its request waits.
            unreachable!()
        };
        let mut buffer = [0; MOST_READ];
        advance(&mut upstream.dial, slot, exchange, body, &mut buffer)
    }

    /// Goes on with a stream of which there is news.
    fn turn<D: Dial>(&mut self, upstream: &mut AppServer<D>, table: &ClientTable<RelayTalk>) -> Turn
        requires tied { IsTied (D.meaning upstream.old.dial) upstream.old.patience self.old.askers.list self.old.exchanges.items (IsListed table.now) }
        requires kept { IsKept upstream.old.patience (D.meaning upstream.old.dial) self.old.askers.list (given_in self.old.replies.list) }
        ensures kept { IsKept upstream.new.patience (D.meaning upstream.new.dial) self.new.askers.list (given_in self.new.replies.list) }
        ensures tied { result ≢ Turn.Memory → IsTied (D.meaning upstream.new.dial) upstream.new.patience self.new.askers.list self.new.exchanges.items (IsListed table.now) }
        ensures over { (slot : ℕ) (far : Far) → result ≡ Turn.Over slot far → IsOver (D.meaning upstream.new.dial) self.new.exchanges.items slot far }
        ensures askers { self.new.askers.list ≡ self.old.askers.list }
        ensures replies { self.new.replies.list ≡ self.old.replies.list }
        ensures patience { upstream.new.patience ≡ upstream.old.patience }
        ensures towards { (D.meaning upstream.new.dial).towards ≡ (D.meaning upstream.old.dial).towards }
    {
        if let Some(slot) = self.late_slot(upstream.dial.now()) {
            return Turn::Over(slot, Far::Late);
        }
        let Some(slot) = upstream.dial.next() else {
            self.stirred = false;
            return Turn::Rests;
        };
        let Some(exchange) = take(&mut self.exchanges, slot) else {
            return Turn::GoesOn;
        };
        let mut exchange = exchange;
        let far = self.go_on(upstream, table, slot, &mut exchange);
        put(&mut self.exchanges, slot, exchange);
        turn_of(slot, far)
    }

    /// Ends the exchange in a slot, and gives the reply to the client that waits for it.
    fn release<D: Dial>(
        &mut self,
        upstream: &mut AppServer<D>,
        table: &mut ClientTable<RelayTalk>,
        slot: usize,
        far: Far,
        deadline: u64,
    ) -> Polled<RelayTalk>
        requires tied { IsTied (D.meaning upstream.old.dial) upstream.old.patience self.old.askers.list self.old.exchanges.items (IsListed table.old) }
        requires kept { IsKept upstream.old.patience (D.meaning upstream.old.dial) self.old.askers.list (given_in self.old.replies.list) }
        requires once { HaveAskedOnce self.old.askers.list }
        requires over { IsOver (D.meaning upstream.old.dial) self.old.exchanges.items slot far }
        ensures polled { Polls result relay_protocol (AllAgree (given_in self.new.replies.list)) table.old table.new }
        ensures again { BeginsAgain result deadline }
        ensures kept { IsKept upstream.new.patience (D.meaning upstream.new.dial) self.new.askers.list (given_in self.new.replies.list) }
        ensures tied { (accepted : ℕ) → HaveAsked self.old.askers.list (IsListed table.old) accepted
            → TiesAfter result ⊥ (λ client. IsTiedBut (D.meaning upstream.new.dial) upstream.new.patience self.new.askers.list self.new.exchanges.items (IsListed table.new) client.conn
            × HaveAskedBut self.new.askers.list (IsListed table.new) accepted client.conn (rank_of client.talk)) }
        ensures fits { (apps : Apps) → AllAgree (given_in self.new.replies.list) apps → AllAgree (given_in self.old.replies.list) apps }
        ensures patience { upstream.new.patience ≡ upstream.old.patience }
        ensures towards { (D.meaning upstream.new.dial).towards ≡ (D.meaning upstream.old.dial).towards }
        ensures askers { self.new.askers.list ≡ self.old.askers.list }
    {
        let Some(exchange) = take(&mut self.exchanges, slot) else {
            // The requires says that one is there.
            unreachable!()
        };
        self.live = self.live.saturating_sub(1);
        let conn = exchange.conn;
        let Ok(reply) = close_exchange(&mut upstream.dial, slot, exchange, far) else {
            return Polled::Memory;
        };
        let Some(client) = table.remove(conn) else {
            // A connection that waits for a reply is listed.
            unreachable!()
        };
        self.replies = self.replies.and(&GivenOn {
            conn,
            session: &client.talk.session,
            reply: &reply,
        });
        give(client, reply, deadline)
    }
}

impl<D: Dial> Service<RelayTalk, AppServer<D>> for Relays {
    ghost protocol = { relay_protocol };

    ghost rank = { rank_of };

    ghost fits = { λ relays upstream apps. AllAgree (given_in relays.replies.list) apps };

    ghost one = { λ relays upstream conn. relay_app (given_in relays.replies.list) conn };

    ghost tied = { λ relays upstream table accepted. IsTied (D.meaning upstream.dial) upstream.patience relays.askers.list relays.exchanges.items (IsListed table) × IsKept upstream.patience (D.meaning upstream.dial) relays.askers.list (given_in relays.replies.list) × HaveAsked relays.askers.list (IsListed table) accepted };

    ghost tied_but = { λ relays upstream table accepted conn low. IsTiedBut (D.meaning upstream.dial) upstream.patience relays.askers.list relays.exchanges.items (IsListed table) conn × IsKept upstream.patience (D.meaning upstream.dial) relays.askers.list (given_in relays.replies.list) × HaveAskedBut relays.askers.list (IsListed table) accepted conn low };

    ghost sound = { λ relays upstream. IsKept upstream.patience (D.meaning upstream.dial) relays.askers.list (given_in relays.replies.list) × HaveAskedOnce relays.askers.list };

    ghost wants = { WantsRelay };

    ghost spent = { λ relays upstream. ⊥ };

    ghost lasting = { λ upstream. (upstream.patience, (D.meaning upstream.dial).towards) };

    fn begin(&self, port: u16) -> RelayTalk {
        RelayTalk {
            session: Session::new(self.alloc, port),
            held: None,
        }
    }

    fn pending<'a>(&self, talk: &'a RelayTalk) -> &'a [u8] {
        talk.session.pending()
    }

    fn took(&self, talk: &mut RelayTalk, count: usize) {
        talk.session.took(count)
    }

    fn end(&self, talk: &mut RelayTalk) {
        talk.session.end()
    }

    fn phase(&self, talk: &RelayTalk) -> SessionPhase {
        talk.session.phase()
    }

    fn feed(&self, talk: &mut RelayTalk, piece: &[u8]) -> Result<(), AllocError> {
        match talk.session.take_in(piece) {
            Ok(()) => Ok(()),
            Err(refusal) => Err(refusal),
        }
    }

    /// Answers at once what can't be handed on.
    fn reply(&self, talk: &mut RelayTalk) -> Replied {
        match asked_for(&talk.session) {
            Request::Nothing => Replied::NoRequest,
            Request::Handed => Replied::Asks,
            Request::Refused => {
                let Ok(reply) = refused_request(self.alloc) else {
                    return Replied::Memory;
                };
                match talk.session.answer(reply) {
                    Ok(()) => Replied::Given,
                    Err(_) => Replied::Memory,
                }
            }
        }
    }

    /// Hands the request of the client on, over a stream of its own.
    fn hold(
        &mut self,
        world: &mut AppServer<D>,
        client: &mut Client<RelayTalk>,
    ) -> Result<(), HoldRefusal> {
        if self
            .hand_on(world, client.conn, &client.talk.session)
            .is_err()
        {
            return Err(HoldRefusal::Memory);
        }
        client.talk.held = Some(client.deadline);
        client.deadline = NEVER;
        Ok(())
    }

    /// Goes on with the streams of which there is news until the exchange of one is over.
    fn poll(
        &mut self,
        world: &mut AppServer<D>,
        table: &mut ClientTable<RelayTalk>,
        deadline: u64,
    ) -> Polled<RelayTalk> {
        self.stirred = true;
        for _ in 0..MOST_TURNS {
            match self.turn(world, table) {
                Turn::Rests => return Polled::Nobody,
                Turn::GoesOn => {}
                Turn::Over(slot, far) => {
                    return self.release(world, table, slot, far, deadline);
                }
                Turn::Memory => return Polled::Memory,
            }
        }
        Polled::Nobody
    }

    fn is_held(&self, talk: &RelayTalk) -> bool {
        talk.held.is_some()
    }

    fn is_idle(&self) -> bool {
        self.live == 0
    }

    /// Until the first exchange is due; for a millisecond at most where the net is not woken by the streams; and not at
    /// all where there may be more at once.
    fn until(&self, now: u64, is_woken: bool) -> u64 {
        if self.stirred {
            return now;
        }
        let rest = if is_woken { REST } else { 1 };
        let rested = now.saturating_add(rest);
        match self.due.front() {
            None => rested,
            Some(due) => due.until.min(rested),
        }
    }

    ghost use Rattle.wsgi_relay.specs.Laws as laws;

    ghost lawful = { laws.relay_lawful };

    ghost fits_one = { λ relays upstream conn. laws.relay_agrees (given_in relays.replies.list) conn };

    ghost tied_new = { λ relays upstream table now accepted tied same. (laws.tied_new (D.meaning upstream.dial) upstream.patience relays.askers.list (given_in relays.replies.list) relays.exchanges.items (IsListed table) (IsListed now) accepted tied.0 tied.1 tied.2 same, tied.1, laws.asked_new relays.askers.list (IsListed table) (IsListed now) accepted tied.2 same) };

    ghost tied_again = { λ relays upstream table now accepted conn low tied beside from. (laws.tied_again (D.meaning upstream.dial) upstream.patience relays.askers.list relays.exchanges.items (IsListed table) (IsListed now) conn tied.0 beside, tied.1, laws.asked_again relays.askers.list (IsListed table) (IsListed now) accepted conn low tied.2 beside from) };

    ghost tied_out = { λ relays upstream table now accepted conn client tied listed free beside. (laws.tied_out (D.meaning upstream.dial) upstream.patience relays.askers.list relays.exchanges.items (IsListed table) (IsListed now) conn client tied.0 listed free beside, tied.1, laws.asked_out relays.askers.list (IsListed table) (IsListed now) accepted conn client tied.2 listed free beside) };
}
