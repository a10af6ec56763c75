//! Limits of trees that more than one layer knows.

/// The most objects of a scenario of profile 1 or 2.
pub const MOST_OBJECTS: usize = 256;

/// The most functions of a scenario of profile 1 or 2.
pub const MOST_FUNCTIONS: usize = 256;

/// The most objects, and the most functions, of a scenario of profile 3.
pub const MOST_DECLARED: usize = 20000;

/// The most parameters of a function, and the most arguments of a call.
pub const MOST_PARAMETERS: usize = 16;
