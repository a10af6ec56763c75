//! What a net in memory goes by.
ghost use Rattle.std.specs.Prelude.{◌≡◌};

use http_messages::Bytes;
use std::marker::Model;

/// What arrives at a moment.
#[derive(Drop)]
pub struct Piece {
    /// The moment.
    pub at: u64,
    /// The bytes, in order.
    pub bytes: Bytes,
}

/// What arrives, in order.
#[derive(Drop)]
pub struct Arrivals {
    items: Vec<Piece>,
}

impl Model for Arrivals {
    ghost use Rattle.std.specs.Prelude.{List};
    ghost use Rattle.stream_net.specs.declared.script.Piece.{Piece};

    ghost Value = { List Piece };

    ghost view = { λ a. a.items.items };
}

impl Arrivals {
    /// These pieces.
    pub fn new(items: Vec<Piece>) -> Arrivals
        ensures { result ≡ items.items }
    {
        Arrivals { items }
    }

    /// The pieces in order.
    pub fn items(&self) -> &[Piece]
        ensures { result.now ≡ self.now }
    {
        self.items.as_slice()
    }
}

/// How many bytes are taken, write by write; 0 stands for a write that would block.
#[derive(Drop)]
pub struct Rooms {
    items: Vec<u32>,
}

impl Model for Rooms {
    ghost use Rattle.std.specs.Prelude.{ℕ, List};

    ghost Value = { List ℕ };

    ghost view = { λ a. a.items.items };
}

impl Rooms {
    /// These rooms.
    pub fn new(items: Vec<u32>) -> Rooms
        ensures { result ≡ items.items }
    {
        Rooms { items }
    }

    /// The rooms in order.
    pub fn items(&self) -> &[u32]
        ensures { result.now ≡ self.now }
    {
        self.items.as_slice()
    }
}

/// The script of a connection.
#[derive(Drop)]
pub struct ConnScript {
    /// The moment at which it may be accepted.
    pub arrives: u64,
    /// What it sends.
    pub pieces: Arrivals,
    /// The moment at which its input ends, if it does.
    pub ends: Option<u64>,
    /// How much it takes. After the list a write takes its whole piece.
    pub room: Rooms,
    /// The number, from 0, of the read or write that fails, if one does.
    pub fails: Option<u64>,
}
