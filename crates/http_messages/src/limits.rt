//! The limits of a request.

/// The most bytes of a head's first line, with its end.
pub const MOST_FIRST_LINE: usize = 8191;

/// The most bytes of a head.
pub const MOST_HEAD: usize = 32768;

/// The most fields of a head.
pub const MOST_FIELDS: usize = 64;

/// The most digits of a length.
pub const MOST_LENGTH_DIGITS: usize = 19;

/// The most bytes of a body.
pub const MOST_BODY: usize = 1048576;

/// The most hexadecimal digits of a chunk's size.
pub const MOST_SIZE_DIGITS: usize = 16;

/// The most bytes of a chunk line, with its end.
pub const MOST_CHUNK_LINE: usize = 1024;

/// The most bytes of the lines after the last chunk (RFC 9112, section 7.1.2).
pub const MOST_TRAILERS: usize = 8192;
