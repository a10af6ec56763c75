//! The limits of a head.

/// The most bytes of its names and values.
pub const MOST_BLOCK: usize = 32768;

/// The most digits of their length.
pub const MOST_BLOCK_DIGITS: usize = 5;

/// The most pairs.
pub const MOST_PAIRS: usize = 64;
