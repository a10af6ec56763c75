//! The server's side of a connection.

/// The deadline that never comes: the greatest moment.
pub const NEVER: u64 = u64::MAX;

/// A connection with the talk that its bytes go through.
#[derive(Drop)]
pub struct Client<T> {
    /// The connection's number.
    pub conn: u32,
    /// What is said to it.
    pub talk: T,
    /// Whether its input has ended.
    pub ended: bool,
    /// The moment, in milliseconds, at which it has been idle for too long. `NEVER` doesn't come.
    pub deadline: u64,
}
