//! What goes over one connection.
ghost use Rattle.std.specs.Prelude.{◌≡◌, ◌≢◌, ◌<◌, ◌≤◌, false, [], length};
ghost use Rattle.stream_net.specs.Net.{IsLive, connection_at};
ghost use Rattle.stream_server.specs.Steps.{OnlyAt, StepLeaves};

use crate::client::Client;
use crate::limits::MOST_READ;
use crate::service::{Replied, Service};
use std::sync::Wait;
use stream_net::{Net, ReadEnd, WriteEnd};
use wsgi_core::SessionPhase;

/// What a step led to.
#[derive(Clone, Copy)]
pub enum Step {
    /// More can be done at once.
    Goes,
    /// The connection rests.
    Waits,
    /// Its request waits for a reply, and all that was due is written.
    Asks,
    /// The connection is to be closed.
    Over,
    /// Memory ran out.
    Memory,
}

/// Writes some of what is to be sent.
fn send<T: Drop, W, V: Service<T, W>, N: Net>(
    net: &mut N,
    service: &V,
    client: &mut Client<T>,
    idle: u64,
) -> Step
    requires live { IsLive (N.meaning net.old) client.old.conn }
    requires some { 0 < length (V.protocol.due client.old.talk) }
    ensures only { OnlyAt (N.meaning net.old) (N.meaning net.new) client.old.conn }
    ensures same { client.new.conn ≡ client.old.conn }
    ensures holds { V.protocol.holds client.new.talk ≡ V.protocol.holds client.old.talk }
    ensures rises { result ≢ Step.Memory → V.rank client.old.talk ≤ V.rank client.new.talk }
    ensures leaves { StepLeaves V.protocol V.fits service.now result idle (connection_at (N.meaning net.old).connections client.old.conn) client.old (connection_at (N.meaning net.new).connections client.old.conn) client.new }
    ensures asks_not { result ≡ Step.Asks → ⊥ }
{
    match net.write(client.conn, service.pending(&client.talk)) {
        WriteEnd::Took(count) => {
            service.took(&mut client.talk, count);
            client.deadline = net.now().saturating_add(idle);
            Step::Goes
        }
        WriteEnd::WouldBlock => Step::Waits,
        WriteEnd::Failed => Step::Over,
        WriteEnd::Memory => Step::Memory,
    }
}

/// Reads some of what came, and feeds it.
fn receive<T: Drop, W, V: Service<T, W>, N: Net>(
    net: &mut N,
    service: &V,
    client: &mut Client<T>,
    idle: u64,
) -> Step
    requires live { IsLive (N.meaning net.old) client.old.conn }
    requires none { V.protocol.due client.old.talk ≡ [] }
    requires quiet { V.protocol.asks client.old.talk ≡ false }
    requires goes_on { client.old.ended ≡ false }
    ensures only { OnlyAt (N.meaning net.old) (N.meaning net.new) client.old.conn }
    ensures same { client.new.conn ≡ client.old.conn }
    ensures holds { V.protocol.holds client.new.talk ≡ V.protocol.holds client.old.talk }
    ensures rises { result ≢ Step.Memory → V.rank client.old.talk ≤ V.rank client.new.talk }
    ensures leaves { StepLeaves V.protocol V.fits service.now result idle (connection_at (N.meaning net.old).connections client.old.conn) client.old (connection_at (N.meaning net.new).connections client.old.conn) client.new }
    ensures asks_not { result ≡ Step.Asks → ⊥ }
{
    let mut buffer = [0; MOST_READ];
    match net.read(client.conn, &mut buffer) {
        ReadEnd::Got(count) => {
            client.deadline = net.now().saturating_add(idle);
            match service.feed(&mut client.talk, &buffer[..count]) {
                Ok(()) => Step::Goes,
                Err(_) => Step::Memory,
            }
        }
        ReadEnd::End => {
            service.end(&mut client.talk);
            client.ended = true;
            Step::Goes
        }
        ReadEnd::WouldBlock => Step::Waits,
        ReadEnd::Failed => Step::Over,
    }
}

/// Closes the connection at the end of its talk, and else reads.
fn listen_on<T: Drop, W, V: Service<T, W>, N: Net>(
    net: &mut N,
    service: &V,
    client: &mut Client<T>,
    idle: u64,
) -> Step
    requires live { IsLive (N.meaning net.old) client.old.conn }
    requires none { V.protocol.due client.old.talk ≡ [] }
    requires quiet { V.protocol.asks client.old.talk ≡ false }
    ensures only { OnlyAt (N.meaning net.old) (N.meaning net.new) client.old.conn }
    ensures same { client.new.conn ≡ client.old.conn }
    ensures holds { V.protocol.holds client.new.talk ≡ V.protocol.holds client.old.talk }
    ensures rises { result ≢ Step.Memory → V.rank client.old.talk ≤ V.rank client.new.talk }
    ensures leaves { StepLeaves V.protocol V.fits service.now result idle (connection_at (N.meaning net.old).connections client.old.conn) client.old (connection_at (N.meaning net.new).connections client.old.conn) client.new }
    ensures asks_not { result ≡ Step.Asks → ⊥ }
{
    if client.ended {
        return Step::Over;
    }
    match service.phase(&client.talk) {
        SessionPhase::Closing => Step::Over,
        SessionPhase::Serving => receive::<T, W, V, N>(net, service, client, idle),
    }
}

/// Writes where something is to be sent, replies where a request waits, and else reads.
fn advance<T: Drop, W, V: Service<T, W>, N: Net>(
    net: &mut N,
    service: &V,
    client: &mut Client<T>,
    idle: u64,
) -> Step
    requires live { IsLive (N.meaning net.old) client.old.conn }
    ensures only { OnlyAt (N.meaning net.old) (N.meaning net.new) client.old.conn }
    ensures same { client.new.conn ≡ client.old.conn }
    ensures holds { V.protocol.holds client.new.talk ≡ V.protocol.holds client.old.talk }
    ensures rises { result ≢ Step.Memory → V.rank client.old.talk ≤ V.rank client.new.talk }
    ensures leaves { StepLeaves V.protocol V.fits service.now result idle (connection_at (N.meaning net.old).connections client.old.conn) client.old (connection_at (N.meaning net.new).connections client.old.conn) client.new }
    ensures wants { result ≡ Step.Asks → V.wants client.new.talk }
    ensures none { result ≡ Step.Asks → V.protocol.due client.new.talk ≡ [] }
{
    if !service.pending(&client.talk).is_empty() {
        return send::<T, W, V, N>(net, service, client, idle);
    }
    match service.reply(&mut client.talk) {
        Replied::NoRequest => listen_on::<T, W, V, N>(net, service, client, idle),
        Replied::Given => Step::Goes,
        Replied::Asks => Step::Asks,
        Replied::Memory => Step::Memory,
    }
}

/// Goes on with a connection until it rests, asks for a reply that has to be waited for, or is to be closed.
pub fn proceed<T: Drop, W, V: Service<T, W>, N: Net, H: Wait>(
    rt: &H,
    net: &mut N,
    service: &V,
    client: &mut Client<T>,
    idle: u64,
) -> Step
    requires live { IsLive (N.meaning net.old) client.old.conn }
    ensures only { OnlyAt (N.meaning net.old) (N.meaning net.new) client.old.conn }
    ensures same { client.new.conn ≡ client.old.conn }
    ensures holds { V.protocol.holds client.new.talk ≡ V.protocol.holds client.old.talk }
    ensures rises { result ≢ Step.Memory → V.rank client.old.talk ≤ V.rank client.new.talk }
    ensures rests { result ≡ Step.Goes → ⊥ }
    ensures leaves { StepLeaves V.protocol V.fits service.now result idle (connection_at (N.meaning net.old).connections client.old.conn) client.old (connection_at (N.meaning net.new).connections client.old.conn) client.new }
    ensures wants { result ≡ Step.Asks → V.wants client.new.talk }
    ensures none { result ≡ Step.Asks → V.protocol.due client.new.talk ≡ [] }
{
    for _ in rt.forever() {
        match advance::<T, W, V, N>(net, service, client, idle) {
            Step::Goes => {}
            end => return end,
        }
    }
    // `forever` has no end: the loop is left by a return alone.
    unreachable!()
}
