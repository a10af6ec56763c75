//! The edge to the system's clock.
//!
//! Trusted: that a reading is the time that has passed. The clauses say only that readings never fall.

use crate::clock::Clock;
use std::io;
use std::time::Instant;

/// The system's steady clock, from when it was made. A reading that fails, or falls, gives the last one again.
#[derive(Drop)]
pub struct SteadyClock<T> {
    rt: T,
    start: Instant,
    last: u64,
}

impl<T: std::rt::Clock + Drop> SteadyClock<T> {
    /// A clock that begins at 0.
    pub fn new(rt: T) -> io::Result<SteadyClock<T>> {
        let start = Instant::now(&rt)?;
        Ok(SteadyClock { rt, start, last: 0 })
    }
}

impl<T: std::rt::Clock + Drop> Clock for SteadyClock<T> {
    ghost reading = { λ clock. clock.last };

    fn now(&mut self) -> u64 {
        if let Ok(passed) = self.start.elapsed(&self.rt) {
            self.last = self.last.max(
                passed
                    .as_secs()
                    .saturating_mul(1000)
                    .saturating_add(u64::from(passed.subsec_millis())),
            );
        }
        self.last
    }
}
