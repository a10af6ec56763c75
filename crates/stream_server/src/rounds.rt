//! The server's loop.
ghost use Rattle.std.specs.Prelude.{◌≡◌, ◌≢◌, ℕ, ◌+◌, ◌<◌, ◌≤◌, Some, None, Ok, Err, true, false, [], Option, length, min, IsSome, OnOk, OnErr, IfOk, IfSome};
ghost use Rattle.std.specs.List.{All};
ghost use Rattle.gv_values.specs.Counts.{HasRisen};
ghost use Rattle.stream_net.specs.Net.{IsFresh, IsLive};
ghost use Rattle.stream_server.specs.Protocols.{Apps};
ghost use Rattle.stream_server.specs.Running.{AsksInVain, IsRunning, IsRunningBut, IsUnderWay, LeftBy, StaysSound, WasRunning};
ghost use Rattle.stream_server.specs.Keeping.{Fares, HasAccepted, IsStill, Keeps};
ghost use Rattle.stream_server.specs.Serving.{IsAllServed};
ghost use Rattle.stream_server.specs.Ranges.{IsInRange};
ghost use Rattle.stream_server.specs.Services.{BeginsAgain, Polls, TiesAfter, TiesFrom};
ghost use Rattle.stream_server.specs.Tables.{EachDeadline, IsListed, SeenTable, client_count};
ghost use Rattle.stream_server.specs.declared.client.TheConstants.{NEVER};
ghost use Rattle.stream_server.specs.declared.client.Client.{Client};

use crate::client::{Client, NEVER};
use crate::exchange::{Step, proceed};
use crate::limits::Terms;
use crate::service::{HoldRefusal, Polled, Service};
use crate::table::ClientTable;
use std::alloc::Global;
use std::sync::Wait;
use stream_net::{Accepted, Net, Ready};

/// How a server with a service ended.
#[derive(Clone, Copy, Debug, PartialEq, Eq)]
pub enum ServiceEnd {
    /// So many connections as it was to serve were accepted and closed.
    Finished,
    /// The listener failed.
    Listener,
    /// A request asks for what the service has no more of. The live connections stay open.
    Spent,
    /// Memory ran out. The live connections stay open.
    Memory,
}

/// Why the server can't go on.
#[derive(Clone, Copy)]
enum RoundFault {
    /// The listener failed.
    Listener,
    /// The service has no more of what a request asks for.
    Spent,
    /// Memory ran out.
    Memory,
}

/// What a turn led to.
#[derive(Clone, Copy)]
enum Round {
    /// So many connections were accepted so far.
    GoesOn(u32),
    /// So many as were to be served were accepted and closed.
    Finished,
}

/// A server under way: by what it waits, and on which terms it serves.
#[derive(Drop)]
struct Serving<'a, H> {
    rt: &'a H,
    terms: Terms,
}

/// Asks for the reply to the request of a client that isn't listed, and holds its connection until the reply comes.
fn hold_client<T: Drop, W, V: Service<T, W>, N: Net, H>(
    serving: &Serving<H>,
    net: &mut N,
    service: &mut V,
    world: &mut W,
    table: &mut ClientTable<T>,
    client: Client<T>,
) -> Result<(), RoundFault>
    requires live { IsLive (N.meaning net.old) client.conn }
    requires going { IsUnderWay V.protocol (V.fits service.old world.old) serving.now.terms (N.meaning net.old) client }
    requires wants { V.wants client.talk }
    requires none { V.protocol.due client.talk ≡ [] }
    requires free { V.protocol.holds client.talk ≡ false }
    requires but { IsRunningBut V.protocol (V.fits service.old world.old) (TiesFrom (V.tied_but service.old world.old) (V.rank client.talk)) serving.now.terms (N.meaning net.old) table.old client.conn }
    ensures running { OnOk result (IsRunning V.protocol (V.fits service.new world.new) (V.tied service.new world.new) serving.now.terms (N.meaning net.new) table.new) }
    ensures left { OnErr result (LeftBy V.protocol (V.fits service.new world.new) serving.now.terms (N.meaning net.new)) }
    ensures service { StaysSound V.sound V.fits V.lasting service.old world.old service.new world.new }
    ensures in_vain { result ≡ Err RoundFault.Spent → AsksInVain V.protocol (V.fits service.new world.new) V.wants (V.spent service.new world.new) serving.now.terms (N.meaning net.new) }
    ensures keeps { Keeps (N.meaning net.old) (N.meaning net.new) }
    ensures no_listener { result ≢ Err RoundFault.Listener }
{
    let conn = client.conn;
    let mut client = client;
    match service.hold(world, &mut client) {
        Ok(()) => {
            net.hold(conn, true);
            table.insert(client);
            Ok(())
        }
        Err(HoldRefusal::Spent) => Err(RoundFault::Spent),
        Err(HoldRefusal::Memory) => Err(RoundFault::Memory),
    }
}

/// Goes on with a client that isn't listed: lists it where its connection rests or is held, and closes the connection
/// where that is to be closed.
fn serve_client<T: Drop, W, V: Service<T, W>, N: Net, H: Wait>(
    serving: &Serving<H>,
    net: &mut N,
    service: &mut V,
    world: &mut W,
    table: &mut ClientTable<T>,
    client: Client<T>,
) -> Result<(), RoundFault>
    requires live { IsLive (N.meaning net.old) client.conn }
    requires going { IsUnderWay V.protocol (V.fits service.old world.old) serving.now.terms (N.meaning net.old) client }
    requires free { V.protocol.holds client.talk ≡ false }
    requires but { IsRunningBut V.protocol (V.fits service.old world.old) (TiesFrom (V.tied_but service.old world.old) (V.rank client.talk)) serving.now.terms (N.meaning net.old) table.old client.conn }
    requires sound { V.sound service.old world.old }
    ensures running { OnOk result (IsRunning V.protocol (V.fits service.new world.new) (V.tied service.new world.new) serving.now.terms (N.meaning net.new) table.new) }
    ensures left { OnErr result (LeftBy V.protocol (V.fits service.new world.new) serving.now.terms (N.meaning net.new)) }
    ensures service { StaysSound V.sound V.fits V.lasting service.old world.old service.new world.new }
    ensures in_vain { result ≡ Err RoundFault.Spent → AsksInVain V.protocol (V.fits service.new world.new) V.wants (V.spent service.new world.new) serving.now.terms (N.meaning net.new) }
    ensures keeps { Keeps (N.meaning net.old) (N.meaning net.new) }
    ensures no_listener { result ≢ Err RoundFault.Listener }
{
    let conn = client.conn;
    let mut client = client;
    match proceed::<T, W, V, N, H>(
        serving.rt,
        net,
        service,
        &mut client,
        serving.terms.limits.idle,
    ) {
        Step::Waits => {
            table.insert(client);
            Ok(())
        }
        Step::Asks => hold_client::<T, W, V, N, H>(serving, net, service, world, table, client),
        Step::Over => {
            net.close(conn);
            table.release(conn);
            Ok(())
        }
        Step::Memory => Err(RoundFault::Memory),
        // `proceed` ensures that it never ends so.
        Step::Goes => unreachable!(),
    }
}

/// Accepts a connection, if one is there, and goes on with it; answers whether one was there.
fn accept_client<T: Drop, W, V: Service<T, W>, N: Net, H: Wait>(
    serving: &Serving<H>,
    net: &mut N,
    service: &mut V,
    world: &mut W,
    table: &mut ClientTable<T>,
) -> Result<bool, RoundFault>
    requires running { IsRunning V.protocol (V.fits service.old world.old) (V.tied service.old world.old) serving.now.terms (N.meaning net.old) table.old }
    requires place { length table.old.members < table.old.limit }
    requires more { length (N.meaning net.old).connections < serving.now.terms.limits.conns }
    requires sound { V.sound service.old world.old }
    ensures running { OnOk result (IsRunning V.protocol (V.fits service.new world.new) (V.tied service.new world.new) serving.now.terms (N.meaning net.new) table.new) }
    ensures left { OnErr result (LeftBy V.protocol (V.fits service.new world.new) serving.now.terms (N.meaning net.new)) }
    ensures service { StaysSound V.sound V.fits V.lasting service.old world.old service.new world.new }
    ensures in_vain { result ≡ Err RoundFault.Spent → AsksInVain V.protocol (V.fits service.new world.new) V.wants (V.spent service.new world.new) serving.now.terms (N.meaning net.new) }
    ensures came { IfOk result (λ came. came ≡ true → length (N.meaning net.new).connections ≡ length (N.meaning net.old).connections + 1) }
    ensures none { IfOk result (λ came. came ≡ false → length (N.meaning net.new).connections ≡ length (N.meaning net.old).connections) }
    ensures blocked { IfOk result (λ came. came ≡ false → (N.meaning net.new).blocked ≡ true) }
    ensures fares { Fares (result ≡ Err RoundFault.Listener) (IsStill V.protocol.holds) (N.meaning net.old) (N.meaning net.new) }
{
    match net.accept() {
        Accepted::New(conn) => {
            let deadline = net.now().saturating_add(serving.terms.limits.idle);
            let talk = service.begin(serving.terms.port);
            let client = Client {
                conn,
                talk,
                ended: false,
                deadline,
            };
            let Ok(()) = table.admit(conn) else {
                return Err(RoundFault::Memory);
            };
            match serve_client::<T, W, V, N, H>(serving, net, service, world, table, client) {
                Ok(()) => Ok(true),
                Err(fault) => Err(fault),
            }
        }
        Accepted::WouldBlock => Ok(false),
        Accepted::Failed => Err(RoundFault::Listener),
        Accepted::Memory => Err(RoundFault::Memory),
    }
}

/// Accepts connections until no place is free, nobody is there or all were accepted, and answers how many were
/// accepted so far.
fn accept_clients<T: Drop, W, V: Service<T, W>, N: Net, H: Wait>(
    serving: &Serving<H>,
    net: &mut N,
    service: &mut V,
    world: &mut W,
    table: &mut ClientTable<T>,
    accepted: u32,
) -> Result<u32, RoundFault>
    requires running { IsRunning V.protocol (V.fits service.old world.old) (V.tied service.old world.old) serving.now.terms (N.meaning net.old) table.old }
    requires accepted { accepted ≡ length (N.meaning net.old).connections }
    requires sound { V.sound service.old world.old }
    ensures running { OnOk result (IsRunning V.protocol (V.fits service.new world.new) (V.tied service.new world.new) serving.now.terms (N.meaning net.new) table.new) }
    ensures left { OnErr result (LeftBy V.protocol (V.fits service.new world.new) serving.now.terms (N.meaning net.new)) }
    ensures service { StaysSound V.sound V.fits V.lasting service.old world.old service.new world.new }
    ensures in_vain { result ≡ Err RoundFault.Spent → AsksInVain V.protocol (V.fits service.new world.new) V.wants (V.spent service.new world.new) serving.now.terms (N.meaning net.new) }
    ensures accepted { IfOk result (λ accepted. HasAccepted accepted serving.now.terms.limits.conns (length table.new.members) table.new.limit (N.meaning net.new)) }
    ensures fares { Fares (result ≡ Err RoundFault.Listener) (IsStill V.protocol.holds) (N.meaning net.old) (N.meaning net.new) }
{
    let conns = serving.terms.limits.conns;
    let mut count = accepted;
    while count < conns {
        if !table.has_place() {
            return Ok(count);
        }
        if !accept_client::<T, W, V, N, H>(serving, net, service, world, table)? {
            return Ok(count);
        }
        count += 1;
    }
    Ok(count)
}

/// Asks whether a reply has come. The idle time of the client that was held for it begins again.
fn poll_reply<T: Drop, W, V: Service<T, W>, N: Net>(
    net: &N,
    service: &mut V,
    world: &mut W,
    table: &mut ClientTable<T>,
    idle: u64,
) -> Polled<T>
    requires { (accepted : ℕ) × V.tied service.old world.old table.old accepted }
    ensures polled { Polls result V.protocol (V.fits service.new world.new) table.old table.new }
    ensures tied { (accepted : ℕ) → V.tied service.old world.old table.old accepted
        → TiesAfter result (V.tied service.new world.new table.new accepted) (λ client. V.tied_but service.new world.new table.new accepted client.conn (V.rank client.talk)) }
    ensures fits { (apps : Apps) → V.fits service.new world.new apps → V.fits service.old world.old apps }
    ensures sound { V.sound service.new world.new }
    ensures lasting { V.lasting world.new ≡ V.lasting world.old }
    ensures again { BeginsAgain result (min ((N.meaning net.now).moment + idle) NEVER) }
{
    let deadline = net.now().saturating_add(idle);
    service.poll(world, table, deadline)
}

/// Asks whether a reply has come, where one is waited for, and goes on with the connection that was held for it.
fn poll_service<T: Drop, W, V: Service<T, W>, N: Net, H: Wait>(
    serving: &Serving<H>,
    net: &mut N,
    service: &mut V,
    world: &mut W,
    table: &mut ClientTable<T>,
) -> Result<(), RoundFault>
    requires running { IsRunning V.protocol (V.fits service.old world.old) (V.tied service.old world.old) serving.now.terms (N.meaning net.old) table.old }
    requires sound { V.sound service.old world.old }
    ensures running { OnOk result (IsRunning V.protocol (V.fits service.new world.new) (V.tied service.new world.new) serving.now.terms (N.meaning net.new) table.new) }
    ensures left { OnErr result (LeftBy V.protocol (V.fits service.new world.new) serving.now.terms (N.meaning net.new)) }
    ensures service { StaysSound V.sound V.fits V.lasting service.old world.old service.new world.new }
    ensures in_vain { result ≡ Err RoundFault.Spent → AsksInVain V.protocol (V.fits service.new world.new) V.wants (V.spent service.new world.new) serving.now.terms (N.meaning net.new) }
    ensures keeps { Keeps (N.meaning net.old) (N.meaning net.new) }
    ensures no_listener { result ≢ Err RoundFault.Listener }
{
    if service.is_idle() {
        return Ok(());
    }
    let idle = serving.terms.limits.idle;
    match poll_reply::<T, W, V, N>(net, service, world, table, idle) {
        Polled::Nobody => Ok(()),
        Polled::Released(client) => {
            net.hold(client.conn, false);
            serve_client::<T, W, V, N, H>(serving, net, service, world, table, client)
        }
        Polled::Memory => Err(RoundFault::Memory),
    }
}

/// Whether a client of this number is listed and held.
fn is_client_held<T: Drop, W, V: Service<T, W>>(
    service: &V,
    table: &ClientTable<T>,
    conn: u32,
) -> bool
    ensures listed { result ≡ true → (client : Client T) × IsListed table.now conn (Some client) }
    ensures holds { (client : Client T) → IsListed table.now conn (Some client) → result ≡ V.protocol.holds client.talk }
{
    match table.get(conn) {
        None => false,
        Some(client) => service.is_held(&client.talk),
    }
}

/// Goes on with the connection that a wait named, if it has a client and isn't held.
fn wake_client<T: Drop, W, V: Service<T, W>, N: Net, H: Wait>(
    serving: &Serving<H>,
    net: &mut N,
    service: &mut V,
    world: &mut W,
    table: &mut ClientTable<T>,
    conn: u32,
) -> Result<(), RoundFault>
    requires woken { WasRunning V.protocol (V.fits service.old world.old) (V.tied service.old world.old) serving.now.terms (N.meaning net.old) table.old conn }
    requires sound { V.sound service.old world.old }
    ensures running { OnOk result (IsRunning V.protocol (V.fits service.new world.new) (V.tied service.new world.new) serving.now.terms (N.meaning net.new) table.new) }
    ensures left { OnErr result (LeftBy V.protocol (V.fits service.new world.new) serving.now.terms (N.meaning net.new)) }
    ensures service { StaysSound V.sound V.fits V.lasting service.old world.old service.new world.new }
    ensures in_vain { result ≡ Err RoundFault.Spent → AsksInVain V.protocol (V.fits service.new world.new) V.wants (V.spent service.new world.new) serving.now.terms (N.meaning net.new) }
    ensures keeps { Keeps (N.meaning net.old) (N.meaning net.new) }
    ensures no_listener { result ≢ Err RoundFault.Listener }
{
    if is_client_held::<T, W, V>(service, table, conn) {
        return Ok(());
    }
    match table.remove(conn) {
        None => Ok(()),
        Some(client) => serve_client::<T, W, V, N, H>(serving, net, service, world, table, client),
    }
}

/// Until when a wait lasts: until the next connection has been idle for too long, or until the service says where a
/// reply is waited for.
fn until<T: Drop, W, V: Service<T, W>, N: Net>(
    net: &N,
    service: &V,
    table: &ClientTable<T>,
) -> Option<u64>
    ensures ends { 0 < client_count table.now → IsSome result }
    ensures soon { IfSome result (λ at. EachDeadline (λ deadline. at ≤ deadline) table.now) }
{
    // Where a reply is waited for, a client is listed.
    let Some(least) = table.least() else {
        return None;
    };
    if service.is_idle() {
        return Some(least);
    }
    Some(service.until(net.now(), net.is_woken()).min(least))
}

/// Waits until something happens, and goes on with the connection that was named.
fn wait_next<T: Drop, W, V: Service<T, W>, N: Net, H: Wait>(
    serving: &Serving<H>,
    net: &mut N,
    service: &mut V,
    world: &mut W,
    table: &mut ClientTable<T>,
) -> Result<(), RoundFault>
    requires running { IsRunning V.protocol (V.fits service.old world.old) (V.tied service.old world.old) serving.now.terms (N.meaning net.old) table.old }
    requires asked { client_count table.old ≡ 0 → (N.meaning net.old).blocked ≡ true }
    requires sound { V.sound service.old world.old }
    ensures running { OnOk result (IsRunning V.protocol (V.fits service.new world.new) (V.tied service.new world.new) serving.now.terms (N.meaning net.new) table.new) }
    ensures left { OnErr result (LeftBy V.protocol (V.fits service.new world.new) serving.now.terms (N.meaning net.new)) }
    ensures service { StaysSound V.sound V.fits V.lasting service.old world.old service.new world.new }
    ensures in_vain { result ≡ Err RoundFault.Spent → AsksInVain V.protocol (V.fits service.new world.new) V.wants (V.spent service.new world.new) serving.now.terms (N.meaning net.new) }
    ensures accepted { length (N.meaning net.new).connections ≡ length (N.meaning net.old).connections }
    ensures fares { Fares (result ≡ Err RoundFault.Listener) (IsStill V.protocol.holds) (N.meaning net.old) (N.meaning net.new) }
{
    let until = until::<T, W, V, N>(net, service, table);
    let Ok(ready) = net.next(until) else {
        return Err(RoundFault::Listener);
    };
    match ready {
        Ready::Incoming => Ok(()),
        Ready::Elapsed => Ok(()),
        Ready::Readable(conn) => {
            wake_client::<T, W, V, N, H>(serving, net, service, world, table, conn)
        }
        Ready::Writable(conn) => {
            wake_client::<T, W, V, N, H>(serving, net, service, world, table, conn)
        }
    }
}

/// Closes the connections that were idle for too long.
fn close_idle<T: Drop, W, V: Service<T, W>, N: Net, H>(
    serving: &Serving<H>,
    net: &mut N,
    service: &V,
    world: &W,
    table: &mut ClientTable<T>,
)
    requires { IsRunning V.protocol (V.fits service.now world.now) (V.tied service.now world.now) serving.now.terms (N.meaning net.old) table.old }
    ensures running { IsRunning V.protocol (V.fits service.now world.now) (V.tied service.now world.now) serving.now.terms (N.meaning net.new) table.new }
    ensures keeps { Keeps (N.meaning net.old) (N.meaning net.new) }
    // Nobody whose time is over is left.
    ensures closed { EachDeadline (λ deadline. deadline < NEVER → (N.meaning net.old).moment < deadline) table.new }
{
    // Whose deadline is `NEVER` is not due even at the greatest moment.
    let now = net.now().min(NEVER - 1);
    while let Some(client) = table.remove_due(now) {
        net.close(client.conn);
        table.release(client.conn);
    }
}

/// Accepts, asks after a reply where one is waited for, waits, goes on with what was named, and closes what was idle.
fn turn<T: Drop, W, V: Service<T, W>, N: Net, H: Wait>(
    serving: &Serving<H>,
    net: &mut N,
    service: &mut V,
    world: &mut W,
    table: &mut ClientTable<T>,
    accepted: u32,
) -> Result<Round, RoundFault>
    requires running { IsRunning V.protocol (V.fits service.old world.old) (V.tied service.old world.old) serving.now.terms (N.meaning net.old) table.old }
    requires accepted { accepted ≡ length (N.meaning net.old).connections }
    requires some_place { 1 ≤ serving.now.terms.limits.pool }
    requires sound { V.sound service.old world.old }
    ensures running { OnOk result (IsRunning V.protocol (V.fits service.new world.new) (V.tied service.new world.new) serving.now.terms (N.meaning net.new) table.new) }
    ensures left { LeftBy V.protocol (V.fits service.new world.new) serving.now.terms (N.meaning net.new) }
    ensures service { StaysSound V.sound V.fits V.lasting service.old world.old service.new world.new }
    ensures in_vain { result ≡ Err RoundFault.Spent → AsksInVain V.protocol (V.fits service.new world.new) V.wants (V.spent service.new world.new) serving.now.terms (N.meaning net.new) }
    ensures accepted { (count : ℕ) → result ≡ Ok (Round.GoesOn count) → count ≡ length (N.meaning net.new).connections }
    ensures fares { Fares (result ≡ Err RoundFault.Listener) (IsStill V.protocol.holds) (N.meaning net.old) (N.meaning net.new) }
    ensures finished { result ≡ Ok Round.Finished → IsAllServed (N.meaning net.new) serving.now.terms.limits.conns }
{
    let limits = serving.terms.limits;
    poll_service::<T, W, V, N, H>(serving, net, service, world, table)?;
    let accepted = accept_clients::<T, W, V, N, H>(serving, net, service, world, table, accepted)?;
    if accepted == limits.conns {
        if table.is_empty() {
            return Ok(Round::Finished);
        }
    }
    wait_next::<T, W, V, N, H>(serving, net, service, world, table)?;
    close_idle::<T, W, V, N, H>(serving, net, service, world, table);
    Ok(Round::GoesOn(accepted))
}

/// Serves connections, each with a talk of its own, until so many as the limits say were accepted and closed.
///
/// A connection is accepted only where a place is free (gevent API reference, `gevent.baseserver.BaseServer`: a server
/// with a pool as `spawn` accepts no more while the pool is full). It is written to until nothing is pending, and only
/// then read; it is left alone only after a read or write that would block, or while it is held for a reply. It is
/// closed where its talk closes or its input ended and all was written, where a read or write of it failed, and where
/// no byte went over it for the idle time (RFC 9112, section 9.5), unless it is held. What the others do is nothing to
/// it.
///
/// While a reply is waited for, the service is polled and the net waited for by turns, until the service says each
/// time. After every end but `Finished` the connections that are open stay open. Nothing is promised of a net that never
/// answers, of the order in which connections are served, or of one that always has more to read: it is read as long as
/// it gives bytes.
pub fn serve_on<T: Drop, W, V: Service<T, W>, N: Net, H: Wait>(
    rt: &H,
    alloc: Global,
    net: &mut N,
    service: &mut V,
    world: &mut W,
    terms: Terms,
) -> ServiceEnd
    requires listens { IsSome (N.meaning net.old).listens }
    requires fresh { IsFresh (N.meaning net.old) }
    requires in_range { IsInRange terms.limits }
    requires tied { (table : SeenTable T) → V.tied service.old world.old table 0 }
    requires sound { V.sound service.old world.old }
    // Each connection by itself: what holds of it, for each application as which the service answers it.
    ensures left { LeftBy V.protocol (V.fits service.new world.new) terms (N.meaning net.new) }
    ensures finished { result ≡ ServiceEnd.Finished → IsAllServed (N.meaning net.new) terms.limits.conns }
    // Where the listener failed, all open connections wait, by a read or by a write, or are held.
    ensures resting { result ≡ ServiceEnd.Listener → All (IsStill V.protocol.holds) (N.meaning net.new).connections }
    ensures listener { result ≡ ServiceEnd.Listener → HasRisen (N.meaning net.old).faults (N.meaning net.new).faults }
    ensures unfailed { result ≢ ServiceEnd.Listener → (N.meaning net.new).faults ≡ (N.meaning net.old).faults }
    ensures listens { (N.meaning net.new).listens ≡ (N.meaning net.old).listens }
    ensures never_falls { (N.meaning net.old).faults ≤ (N.meaning net.new).faults }
    ensures sound { V.sound service.new world.new }
    ensures knows { (apps : Apps) → V.fits service.new world.new apps → V.fits service.old world.old apps }
    ensures lasting { V.lasting world.new ≡ V.lasting world.old }
    ensures in_vain { result ≡ ServiceEnd.Spent → AsksInVain V.protocol (V.fits service.new world.new) V.wants (V.spent service.new world.new) terms (N.meaning net.new) }
{
    let Ok(mut table) = ClientTable::new(alloc, terms.limits.pool) else {
        return ServiceEnd::Memory;
    };
    let serving = Serving { rt, terms };
    let mut accepted = 0;
    for _ in rt.forever() {
        match turn::<T, W, V, N, H>(&serving, net, service, world, &mut table, accepted) {
            Ok(Round::GoesOn(count)) => accepted = count,
            Ok(Round::Finished) => return ServiceEnd::Finished,
            Err(RoundFault::Listener) => return ServiceEnd::Listener,
            Err(RoundFault::Spent) => return ServiceEnd::Spent,
            Err(RoundFault::Memory) => return ServiceEnd::Memory,
        }
    }
    // `forever` has no end: the loop is left by a return alone.
    unreachable!()
}
