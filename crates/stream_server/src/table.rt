//! The clients of a server, by their numbers and by their deadlines, and the members, who have a place each.
ghost use Rattle.std.specs.Prelude.{◌≡◌, ◌↔◌, ℕ, ◌+◌, ◌<◌, ◌≤◌, ◌==◌, ◌++◌, [], ◌∷◌, length, IfOk, IfNone, IfSome, IsSome, IsTrue, OnErr, OnOk, Option, Some, None};
ghost use Rattle.std.specs.List.{Contains};
ghost use Rattle.std.specs.Option.{option_copied};
ghost use Rattle.item_places.specs.Items.{Differ, without_number};
ghost use Rattle.due_timers.specs.SeenTimers.{items_in};
ghost use Rattle.stream_server.specs.Members.{AreBelow};

use crate::client::Client;
use crate::members::Members;
use due_timers::Timers;
use item_places::places::Places;
use slab::Slab;
use std::alloc::{AllocError, Global};
use std::marker::Model;

/// Clients in a slab, each found by the number of its connection, and the numbers of all that were admitted.
///
/// A client is taken out while its connection is gone on with: a `&mut` to it could change its number and its deadline,
/// by which it is found here. Its number is a member all the time, until it is released.
#[derive(Drop)]
pub struct ClientTable<T> {
    clients: Slab<Client<T>>,
    // The key of each client.
    places: Places,
    // The deadline of each client, by its key.
    timers: Timers,
    // The numbers of the live connections.
    members: Members,
    // So many fit.
    limit: u32,
}

/// No key has two timers. The call does nothing.
fn timers_differ(timers: &Timers)
    ensures { Differ (items_in timers.now.timers) }
{
    timers.len();
}

impl<T> Model for ClientTable<T> {
    ghost use Rattle.stream_server.specs.Tables.{SeenTable};

    ghost Value = { SeenTable T };

    ghost view = { λ h. record { places = h.places.slots; clients = h.clients; members = h.members; limit = h.limit } };

    ghost use Rattle.stream_server.specs.TableParts.{IsSound};

    ghost invariant = { IsSound };
}

impl<T: Drop> ClientTable<T> {
    ghost use Rattle.stream_server.specs.Tables.{EachDeadline, IsAbsent, IsListed, Relists, client_count, with_members};
    ghost use Rattle.stream_server.specs.declared.client.Client.{Client};

    /// Nobody is listed or admitted, and so many fit.
    pub fn new(alloc: Global, limit: u32) -> Result<Self, AllocError>
        ensures nobody { IfOk result (λ table. (k : ℕ) → IsListed table k None) }
        ensures count { IfOk result (λ table. client_count table ≡ 0) }
        ensures members { IfOk result (λ table. table.members ≡ []) }
        ensures limit { IfOk result (λ table. table.limit ≡ limit) }
    {
        let mut clients = Slab::new(alloc);
        clients.reserve(limit as usize)?;
        // Each key is below this, and a timer's has 32 bits.
        let reach = clients.capacity();
        if reach > u32::MAX as usize {
            return Err(AllocError);
        }
        let mut places = Places::new(alloc);
        places.reserve(limit as usize)?;
        let mut timers = Timers::new(alloc);
        timers.reserve(limit as usize, reach)?;
        Ok(ClientTable {
            clients,
            places,
            timers,
            members: Members::new(alloc),
            limit,
        })
    }

    /// Whether one more may be admitted.
    pub fn has_place(&self) -> bool
        ensures { IsTrue result ↔ (length self.now.members < self.now.limit) }
    {
        self.members.len() < self.limit as usize
    }

    /// Admits a connection. Its number is above all that were admitted. Without memory nothing is changed.
    pub fn admit(&mut self, conn: u32) -> Result<(), AllocError>
        requires place { length self.old.members < self.old.limit }
        requires rising { AreBelow conn self.old.members }
        ensures ok { OnOk result (self.new ≡ with_members (self.old.members ++ conn ∷ []) self.old) }
        ensures err { OnErr result (self.new ≡ self.old) }
    {
        self.members.admit(conn)
    }

    /// Lets a connection go, so that its place is free.
    pub fn release(&mut self, conn: u32)
        requires { Contains self.old.members conn }
        ensures released { self.new ≡ with_members (without_number conn self.old.members) self.old }
        ensures fewer { length self.new.members + 1 ≡ length self.old.members }
    {
        self.members.release(conn);
    }

    /// Whether nobody is listed.
    pub fn is_empty(&self) -> bool
        ensures { result ≡ (client_count self.now == 0) }
    {
        self.clients.is_empty()
    }

    /// The least deadline of those that are listed.
    pub fn least(&self) -> Option<u64>
        ensures some { 0 < client_count self.now → IsSome result }
        ensures least { IfSome result (λ deadline. EachDeadline (λ other. deadline ≤ other) self.now) }
    {
        self.timers.least()
    }

    /// The client of this number, if one is listed.
    pub fn get(&self, conn: u32) -> Option<&Client<T>>
        ensures here { IsListed self.now conn (option_copied result) }
        ensures only { (slot : Option (Client T)) → IsListed self.now conn slot → slot ≡ option_copied result }
    {
        let Some(key) = self.places.find(conn) else {
            return None;
        };
        self.clients.get(key)
    }

    /// Lists a client.
    pub fn insert(&mut self, client: Client<T>)
        requires place { client_count self.old < self.old.limit }
        requires absent { IsAbsent self.old client.conn }
        ensures relists { Relists self.old self.new client.conn (Some client) }
        ensures count { client_count self.new ≡ client_count self.old + 1 }
    {
        let conn = client.conn;
        let deadline = client.deadline;
        let key = self.clients.insert_reserved(client);
        self.timers.add(key as u32, 0, deadline);
        self.places.insert(conn, key);
    }

    /// Takes the client of this number out, if one is listed.
    pub fn remove(&mut self, conn: u32) -> Option<Client<T>>
        ensures was { IsListed self.old conn result }
        ensures number { IfSome result (λ client. client.conn ≡ conn) }
        ensures relists { IfSome result (λ _. Relists self.old self.new conn None) }
        ensures count { IfSome result (λ _. client_count self.new + 1 ≡ client_count self.old) }
        ensures same { IfNone result (self.new ≡ self.old) }
    {
        let Some(key) = self.places.find(conn) else {
            return None;
        };
        timers_differ(&self.timers);
        self.timers.cancel(key as u32);
        self.places.remove(conn);
        Some(self.clients.remove(key))
    }

    /// Takes a client out whose deadline has come, the least deadline first.
    pub fn remove_due(&mut self, now: u64) -> Option<Client<T>>
        ensures was { IfSome result (λ client. IsListed self.old client.conn (Some client)) }
        ensures due { IfSome result (λ client. client.deadline ≤ now) }
        ensures relists { IfSome result (λ client. Relists self.old self.new client.conn None) }
        ensures count { IfSome result (λ _. client_count self.new + 1 ≡ client_count self.old) }
        ensures same { IfNone result (self.new ≡ self.old) }
        ensures none { IfNone result (EachDeadline (λ deadline. now < deadline) self.old) }
    {
        timers_differ(&self.timers);
        let Some(key) = self.timers.take_due(now) else {
            return None;
        };
        let client = self.clients.remove(key as usize);
        self.places.remove(client.conn);
        Some(client)
    }
}
