//! The limits of a text and of its lines.

/// The most bytes of a text of profile 1 or 2.
pub const MOST_TEXT: usize = 1048576;

/// The most bytes of a text of profile 3.
pub const MOST_LONG_TEXT: usize = 16777216;

/// The most levels of blocks inside each other, a function's body being the first.
pub const MOST_LEVELS: usize = 32;

/// The most levels of an expression, its own being the first.
pub const MOST_NESTED: u32 = 32;

/// The longest time that a statement names, in milliseconds.
pub const MOST_MS: u64 = 1000000000;

/// The greatest number of a mark.
pub const MOST_MARK: u64 = 1000000;

/// The most units of a semaphore.
pub const MOST_UNITS: u64 = 1000000;

/// The most places of a queue.
pub const MOST_QUEUE_PLACES: u64 = 1000000;

/// The most places of a pool.
pub const MOST_POOL_PLACES: u64 = 10000;

/// The most slots of a native pool.
pub const MOST_SLOTS: u64 = 64;
