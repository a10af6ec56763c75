//! Limits that more than one layer knows.

/// The most bytes of a name.
pub const MOST_NAME_BYTES: usize = 24;

/// The most elements of a list.
pub const MOST_ELEMENTS: usize = 64;

/// The most turns that a run may be given.
pub const MOST_TURNS: u64 = 10000000;

/// The most moves that a run may be given.
pub const MOST_MOVES: u64 = 100000000;

/// The most native workers.
pub const MOST_WORKERS: u32 = 16;

/// The most connections that a server accepts.
pub const MOST_CONNECTIONS: u64 = 1000000;

/// The most connections of a server at a time.
pub const MOST_OPEN_CONNECTIONS: u64 = 1024;

/// The longest time for which a server leaves a quiet connection open, in milliseconds.
pub const MOST_IDLE: u64 = 3600000;
