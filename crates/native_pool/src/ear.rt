//! What the hub listens with.

/// Hears a bell. It tells nothing, and may return early.
pub trait Ear {
    /// Rests until a bell may have rung, at most so many milliseconds where a number is given.
    fn rest(&mut self, at_most: Option<u64>);
}
