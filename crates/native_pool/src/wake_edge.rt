//! The edge to the system's poll: the ear and the bell over `mio`.
//!
//! Trusted: that a ring ends a rest. No clause says so.

use crate::ear::Ear;
use mio::{Events, Poll, Token, Waker};
use native_board::Bell;
use std::alloc::Global;
use std::io;
use std::net::Net;
use std::os::fd::{AsRawFd, RawFd};
use std::time::Duration;

/// A bell that wakes the `PollEar` that it was made with.
#[derive(Drop)]
pub struct WakerBell {
    waker: Waker,
}

impl Bell for WakerBell {
    fn ring(&self) {
        // A ring that fails goes unheard: no clause says that a bell is heard.
        let _ = self.waker.wake();
    }
}

/// An ear that waits for its bell by `mio`'s poll.
#[derive(Drop)]
pub struct PollEar {
    poll: Poll,
    events: Events<Global>,
}

impl PollEar {
    /// An ear, and the bell that it hears.
    pub fn new(net: &impl Net, alloc: Global) -> io::Result<(PollEar, WakerBell)> {
        let poll = Poll::new(net)?;
        let waker = Waker::new(poll.registry(), Token(0))?;
        let events = Events::with_capacity(alloc, 1)?;
        Ok((PollEar { poll, events }, WakerBell { waker }))
    }

    /// What may be read once the bell has rung, until the ear rests again.
    pub fn descriptor(&self) -> RawFd {
        self.poll.as_raw_fd()
    }
}

impl Ear for PollEar {
    fn rest(&mut self, at_most: Option<u64>) {
        let timeout = match at_most {
            Some(milliseconds) => Some(Duration::from_millis(milliseconds)),
            None => None,
        };
        // A poll that fails is a rest that ended early, which every caller expects.
        let _ = self.poll.poll(&mut self.events, timeout);
    }
}
