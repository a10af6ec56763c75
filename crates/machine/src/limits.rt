//! The limits of a run.

/// The most greenlets of a run.
pub const MOST_GREENLETS: usize = 20000;

/// The most links of a run.
pub const MOST_LINKS: u32 = 100000;

/// The most kills that stand at once.
pub const MOST_KILLS: u64 = 1000000;
