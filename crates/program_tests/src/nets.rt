//! A net of the tests' own, around another.
ghost use Rattle.std.specs.Prelude.{◌≡◌, not, ◌&&◌};

use gv_io::{Failed, one_more};
use stream_net::{Accepted, Net, ReadEnd, Ready, WriteEnd};

/// What is noted of one connection.
#[derive(Clone, Copy)]
pub(crate) struct Notes {
    /// Its number.
    pub(crate) conn: u32,
    /// How many bytes may have been read and written when it is read: so many are due to what was read.
    pub(crate) due: [(usize, usize); 3],
    /// How many bytes were read.
    pub(crate) read: usize,
    /// How many bytes were written.
    pub(crate) written: usize,
    /// How many reads came when all was written that was due.
    pub(crate) timely: u32,
    /// How many reads came when something was due, or more was written than was due.
    pub(crate) early: u32,
}

impl Notes {
    /// Notes a read of this connection that is to come.
    fn before_read(&mut self, conn: u32) {
        if conn != self.conn {
            return;
        }
        for (read, written) in self.due {
            if self.read == read && self.written == written {
                self.timely = self.timely.saturating_add(1);
                return;
            }
        }
        self.early = self.early.saturating_add(1);
    }

    fn after_read(&mut self, conn: u32, end: ReadEnd) {
        if conn != self.conn {
            return;
        }
        if let ReadEnd::Got(count) = end {
            self.read = self.read.saturating_add(count);
        }
    }

    fn after_write(&mut self, conn: u32, end: WriteEnd) {
        if conn != self.conn {
            return;
        }
        if let WriteEnd::Took(count) = end {
            self.written = self.written.saturating_add(count);
        }
    }
}

/// A net that notes when a connection is read. It accepts so many connections, and none after them: then its listener
/// fails, or memory is wanting.
#[derive(Drop)]
pub(crate) struct Watched<N> {
    pub(crate) net: N,
    pub(crate) notes: Notes,
    /// How many acceptances are left.
    pub(crate) left: u32,
    /// Whether its listener fails.
    pub(crate) fails: bool,
    /// Whether the last acceptance was refused.
    pub(crate) refused: bool,
    /// How often its listener failed.
    pub(crate) faults: u64,
}

impl<N: Net + Drop> Net for Watched<N> {
    ghost meaning = { λ n. record (N.meaning n.net) { faults = n.faults; blocked = not n.refused && (N.meaning n.net).blocked } };

    ghost readiness = { λ n. N.readiness n.net };

    fn listen(&mut self, port: u16) -> Result<u16, Failed> {
        self.refused = false;
        match self.net.listen(port) {
            Ok(port) => Ok(port),
            Err(_) => {
                self.faults = one_more(self.faults);
                Err(Failed)
            }
        }
    }

    fn next(&mut self, until: Option<u64>) -> Result<Ready, Failed> {
        self.refused = false;
        match self.net.next(until) {
            Ok(ready) => Ok(ready),
            Err(_) => {
                self.faults = one_more(self.faults);
                Err(Failed)
            }
        }
    }

    fn accept(&mut self) -> Accepted {
        if self.left > 0 {
            self.left -= 1;
            self.refused = false;
            return match self.net.accept() {
                Accepted::New(conn) => Accepted::New(conn),
                Accepted::WouldBlock => Accepted::WouldBlock,
                Accepted::Memory => Accepted::Memory,
                Accepted::Failed => {
                    self.faults = one_more(self.faults);
                    Accepted::Failed
                }
            };
        }
        self.refused = true;
        if self.fails {
            self.faults = one_more(self.faults);
            return Accepted::Failed;
        }
        Accepted::Memory
    }

    fn read(&mut self, conn: u32, buf: &mut [u8]) -> ReadEnd {
        self.notes.before_read(conn);
        let end = self.net.read(conn, buf);
        self.notes.after_read(conn, end);
        end
    }

    fn write(&mut self, conn: u32, bytes: &[u8]) -> WriteEnd {
        let end = self.net.write(conn, bytes);
        self.notes.after_write(conn, end);
        end
    }

    fn close(&mut self, conn: u32) {
        self.net.close(conn)
    }

    fn hold(&mut self, conn: u32, held: bool) {
        self.net.hold(conn, held)
    }

    fn is_woken(&self) -> bool {
        self.net.is_woken()
    }

    fn now(&self) -> u64 {
        self.net.now()
    }
}
