//! What a net keeps of a connection, but for its bytes.
ghost use Rattle.std.specs.Prelude.{◌≡◌, ◌≢◌, ℕ, ◌≤◌, List, Option, IfSome, []};
ghost use Rattle.gv_values.specs.Counts.{HasRisen};
ghost use Rattle.stream_net.specs.Accounts.{account_meaning, read_after};
ghost use Rattle.stream_net.specs.Net.{IsNew, closed_at, held_as};
ghost use Rattle.stream_net.specs.Reads.{after_read};
ghost use Rattle.stream_net.specs.Taken.{written_after};
ghost use Rattle.stream_net.specs.Waits.{woken_if};
ghost use Rattle.stream_net.specs.Writes.{after_write};

use crate::net::{Quiet, ReadEnd, WriteEnd};
use gv_io::one_more;

/// What is kept of a connection.
#[derive(Clone, Copy, Debug, PartialEq, Eq)]
pub struct Account {
    /// Whether its input ended.
    pub ended: bool,
    /// Whether it is closed.
    pub closed: bool,
    /// The moment at which it was closed.
    pub closed_at: u64,
    /// How many reads and writes failed.
    pub faults: u64,
    /// The moment of its acceptance or of its last byte.
    pub last: u64,
    /// How it rests.
    pub quiet: Quiet,
    /// Whether it is held.
    pub held: bool,
}

impl Account {
    /// That of a connection that is accepted at this moment.
    pub fn new(moment: u64) -> Account
        ensures { (read written : Option (List ℕ)) → IfSome read (λ bytes. bytes ≡ []) → IfSome written (λ bytes. bytes ≡ []) → IsNew (account_meaning result read written) moment }
    {
        Account {
            ended: false,
            closed: false,
            closed_at: 0,
            faults: 0,
            last: moment,
            quiet: Quiet::Awake,
            held: false,
        }
    }

    /// Notes what a read led to, at this moment: bytes make it the last one, the end is kept, a fault is counted, and
    /// only `WouldBlock` leaves the connection quiet.
    pub fn note_read(&mut self, end: ReadEnd, moment: u64)
        ensures after { (read written : Option (List ℕ)) (bytes : List ℕ) → account_meaning self.new (read_after end bytes read) written
            ≡ after_read end bytes moment self.new.faults (account_meaning self.old read written) }
        ensures never_falls { self.old.faults ≤ self.new.faults }
        ensures failed { end ≡ ReadEnd.Failed → HasRisen self.old.faults self.new.faults }
        ensures unfailed { end ≢ ReadEnd.Failed → self.new.faults ≡ self.old.faults }
    {
        match end {
            ReadEnd::Got(_) => {
                self.last = moment;
                self.quiet = Quiet::Awake;
            }
            ReadEnd::End => {
                self.ended = true;
                self.quiet = Quiet::Awake;
            }
            ReadEnd::WouldBlock => self.quiet = Quiet::ByRead,
            ReadEnd::Failed => {
                self.faults = one_more(self.faults);
                self.quiet = Quiet::Awake;
            }
        }
    }

    /// Notes what a write led to, at this moment: bytes make it the last one, a fault is counted, and only `WouldBlock`
    /// leaves the connection quiet.
    pub fn note_write(&mut self, end: WriteEnd, moment: u64)
        ensures after { (read written : Option (List ℕ)) (bytes : List ℕ) → account_meaning self.new read (written_after end bytes written)
            ≡ after_write end bytes moment self.new.faults (account_meaning self.old read written) }
        ensures never_falls { self.old.faults ≤ self.new.faults }
        ensures failed { end ≡ WriteEnd.Failed → HasRisen self.old.faults self.new.faults }
        ensures unfailed { end ≢ WriteEnd.Failed → self.new.faults ≡ self.old.faults }
    {
        match end {
            WriteEnd::Took(_) => {
                self.last = moment;
                self.quiet = Quiet::Awake;
            }
            WriteEnd::WouldBlock => self.quiet = Quiet::ByWrite,
            WriteEnd::Failed => {
                self.faults = one_more(self.faults);
                self.quiet = Quiet::Awake;
            }
            WriteEnd::Memory => self.quiet = Quiet::Awake,
        }
    }

    /// Notes that it is closed.
    pub fn note_close(&mut self, moment: u64)
        ensures { (read written : Option (List ℕ)) → account_meaning self.new read written ≡ closed_at moment (account_meaning self.old read written) }
    {
        self.closed = true;
        self.closed_at = moment;
    }

    /// Notes that it is held, or released.
    pub fn note_hold(&mut self, held: bool)
        ensures { (read written : Option (List ℕ)) → account_meaning self.new read written ≡ held_as held (account_meaning self.old read written) }
    {
        self.held = held;
        if !held {
            self.quiet = Quiet::Awake;
        }
    }

    /// Notes that a wait named it.
    pub fn note_named(&mut self)
        ensures { (read written : Option (List ℕ)) → account_meaning self.new read written ≡ woken_if self.old.closed (account_meaning self.old read written) }
    {
        if !self.closed {
            self.quiet = Quiet::Awake;
        }
    }
}
