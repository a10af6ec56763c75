//! Limits.

/// The most items at once. Each is in a slot below this number.
pub const MOST_HELD: u32 = 4_294_967_295;

/// The place in order of making that no item has: a vacant slot is known by it.
pub const NO_SINCE: u64 = 18_446_744_073_709_551_615;
