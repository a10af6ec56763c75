//! The length at the front of a head, as netstrings have it (D. J. Bernstein, "Netstrings", 1997).
ghost use Rattle.std.specs.Prelude.{◌≡◌};
ghost use Rattle.scgi_core.specs.Length.{goes_on_length, length_at};
ghost use Rattle.scgi_core.specs.Readings.{SeesLength};

use crate::limits::{MOST_BLOCK, MOST_BLOCK_DIGITS};
use crate::request::LengthFound;

/// Whether the byte goes on a length of which so many digits were read.
fn goes_on_length(seen: usize, byte: u8) -> bool
    ensures { result ≡ goes_on_length seen byte }
{
    byte.is_ascii_digit() && seen < MOST_BLOCK_DIGITS && (seen > 0 || byte != b'0')
}

/// The length at the front: 1 to `MOST_BLOCK_DIGITS` digits without a leading zero, and `:`; at most `MOST_BLOCK`.
pub fn read_length(bytes: &[u8]) -> LengthFound
    ensures { SeesLength result bytes.now (length_at bytes.now) }
{
    let mut length: usize = 0;
    for at in 0..bytes.len() {
        if bytes[at] == b':' && at > 0 {
            if length > MOST_BLOCK {
                return LengthFound::LengthRefused;
            }
            return LengthFound::LengthWhole(length, at + 1);
        }
        if !goes_on_length(at, bytes[at]) {
            return LengthFound::LengthRefused;
        }
        length = length * 10 + (bytes[at] - b'0') as usize;
    }
    LengthFound::LengthWaits
}
