//! The limits of a function.

/// The most local names of a function, its parameters counted.
pub const MOST_LOCAL_NAMES: usize = 64;

/// The most timeout blocks inside each other.
pub const MOST_TIMEOUTS: u32 = 8;
