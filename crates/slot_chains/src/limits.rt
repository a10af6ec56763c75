//! Limits.

/// The most slots. Each is below this number, by which a link says that there is none.
pub const MOST_CHAINED: u32 = 4_294_967_295;
