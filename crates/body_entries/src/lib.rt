//! What a body of a greenlet has still to do, a pile of entries that name blocks of its code and places in them; and a
//! body that waits.
//!
//! What an entry keeps of a statement besides its place (the test of a while, the excepts of a try) is shared with the
//! code: an entry that named the place of its statement could name one of another kind.
#![tactic(auto)]

mod entry;
mod parked;
mod pile;

pub use entry::Entry;
pub use parked::{Parked, ParkedParts};
pub use pile::Pile;
