//! The edge to a reader of the standard library.
//!
//! Trusted: which bytes come, and when they end. The clauses say only how the count of faults goes, so a body that
//! answered the end at once would meet them too.
ghost use Rattle.std.specs.Prelude.{◌≤◌, IfSome, length};

use crate::count::one_more;
use crate::source::{Failed, Source};
use std::io::{ErrorKind, Read};

/// Reads, and reads again for as long as a signal interrupts it (POSIX, `read`, EINTR). None where the read failed.
fn read_again<R: Read>(reader: &mut R, buf: &mut [u8]) -> Option<usize>
    ensures { IfSome result (λ count. count ≤ length buf.new) }
{
    for _ in 0..u64::MAX {
        match reader.read(buf) {
            Ok(count) => return Some(count),
            Err(error) => {
                if error.kind() != ErrorKind::Interrupted {
                    return None;
                }
            }
        }
    }
    None
}

/// A source over a reader of the standard library. It tells no bytes. A read that a signal interrupts is tried again.
#[derive(Debug, Drop)]
pub struct StdSource<R> {
    reader: R,
    faults: u64,
}

impl<R: Read> StdSource<R> {
    /// A source over this reader, with no fault yet.
    pub fn new(reader: R) -> StdSource<R> {
        StdSource { reader, faults: 0 }
    }
}

impl<R: Read> Source for StdSource<R> {
    ghost use Rattle.std.specs.Prelude.{None};

    ghost remaining = { λ _. None };

    ghost faults = { λ s. s.faults };

    #[tactic(auto, using(crate::proofs::StreamLaws::untold))]
    fn read(&mut self, buf: &mut [u8]) -> Result<usize, Failed> {
        match read_again(&mut self.reader, buf) {
            Some(count) => Ok(count),
            None => {
                self.faults = one_more(self.faults);
                Err(Failed)
            }
        }
    }
}
