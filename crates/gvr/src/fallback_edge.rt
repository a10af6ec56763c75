//! The edge to a system that refuses a poll or a clock: what stands in for these.
//!
//! Trusted: that nothing more is needed. No clause says what an ear or a bell does.

use native_board::Bell;
use native_pool::{Clock, Ear, SteadyClock};

/// An ear that hears nothing and returns at once.
#[derive(Clone, Copy)]
pub struct DeafEar;

impl Ear for DeafEar {
    fn rest(&mut self, at_most: Option<u64>) {}
}

/// A bell that does nothing.
#[derive(Clone, Copy)]
pub struct MuteBell;

impl Bell for MuteBell {
    fn ring(&self) {}
}

/// The system's steady clock; where there is none, it stands still at 0.
#[derive(Drop)]
pub struct ProgramClock {
    steady: Option<SteadyClock<HostRuntime>>,
    last: u64,
}

impl ProgramClock {
    /// A clock that begins at 0.
    pub fn new(rt: HostRuntime) -> ProgramClock {
        ProgramClock {
            steady: SteadyClock::new(rt).ok(),
            last: 0,
        }
    }
}

impl Clock for ProgramClock {
    ghost reading = { λ clock. clock.last };

    fn now(&mut self) -> u64 {
        if let Some(steady) = &mut self.steady {
            self.last = self.last.max(steady.now());
        }
        self.last
    }
}
