//! What the bytes at the front decide.
use crate::refusal::Refusal;
use crate::request::{AwaitedBody, Bytes};

/// What a search for an end saw.
#[derive(Clone, Copy, Debug, PartialEq, Eq)]
pub enum Sight {
    /// More bytes have to come.
    Unseen,
    /// The end can't come any more.
    Excluded(Refusal),
    /// What was sought is this long.
    Ends(usize),
}

/// A reading of the bytes at the front.
#[derive(Drop)]
pub enum Found<T> {
    /// More bytes have to come.
    Waits,
    /// It can't come any more.
    Refused(Refusal),
    /// It was there, and its bytes are taken.
    Whole(T),
}

/// A reading of a body at the front.
#[derive(Drop)]
pub enum BodyFound {
    /// More bytes have to come; this is left of the body.
    BodyWaits(AwaitedBody),
    /// It can't come any more.
    BodyRefused(Refusal),
    /// It was there, and its bytes are taken.
    BodyWhole(Bytes),
}

/// What reading one part of a body came to.
#[derive(Drop)]
pub enum BodyStep {
    /// The reading stops with this answer.
    Stops(BodyFound),
    /// The part was there; this is left.
    GoesOn(AwaitedBody),
}
