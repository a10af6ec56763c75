//! The limit of a read.

/// The most bytes that are read at a time.
pub const MOST_PIECE: usize = 4096;
