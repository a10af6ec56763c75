//! Limits.

/// The most timers. Each stands at a place below this number, by which the table says that an item has none.
pub const MOST_TIMERS: u32 = 4_294_967_295;
