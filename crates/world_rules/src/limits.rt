//! The limits of jobs and moments.

/// The greatest n of which a sum is made.
pub const MOST_SUMMED: u64 = 1000000000;

/// The most steps of a Collatz sequence that are made.
pub const MOST_STEPS: u64 = 10000;

/// The last moment, 2^62 - 1, in milliseconds.
pub const LAST_MOMENT: u64 = 4611686018427387903;
