//! The edge to the streams of connections that were closed and whose peers may still send.
//!
//! Trusted as a whole: no clause says what is read and dropped here, nor when a stream is let go.
//!
//! Where bytes that nobody read lie in a socket as it is let go, or come later, the system resets the connection, and
//! the peer may lose what it was sent last. So the writing side is ended first, and what still comes is read and
//! dropped for a while (RFC 9112, section 9.6).

use mio::net::TcpStream;
use std::alloc::{AllocError, Global};
use std::io::{ErrorKind, Read};
use std::net::Shutdown;
use stream_net::Ready;

/// How long a connection lingers at most, in milliseconds.
const LONGEST: u64 = 1000;

/// How many bytes of a connection are dropped at most.
const MOST_DROPPED: usize = 1 << 20;

/// How many connections linger at most; one more lets the first go.
const MOST_LINGERING: usize = 256;

/// How many bytes are read at a time.
const PIECE: usize = 16384;

/// How often a connection is read in a row.
const READS: usize = 1024;

/// A connection that was closed and isn't let go.
#[derive(Drop)]
struct Lingerer {
    conn: u32,
    stream: TcpStream,
    /// How many of its bytes may still be dropped.
    left: usize,
    /// The moment at which it is let go.
    until: u64,
}

/// The connections that linger.
#[derive(Drop)]
pub struct Lingering {
    // In the order in which they were closed.
    lingerers: Vec<Lingerer>,
    piece: Vec<u8>,
}

/// Reads what came, and drops it. Whether more may come that is to be dropped.
fn drain(stream: &TcpStream, left: &mut usize, piece: &mut [u8]) -> bool {
    let mut stream = stream;
    for _ in 0..READS {
        match stream.read(piece) {
            Ok(count) => {
                *left = left.saturating_sub(count);
                if count == 0 || *left == 0 {
                    return false;
                }
            }
            Err(error) => match error.kind() {
                ErrorKind::WouldBlock => return true,
                ErrorKind::Interrupted => {}
                _ => return false,
            },
        }
    }
    false
}

impl Lingering {
    /// None yet.
    pub fn new(alloc: Global) -> Result<Lingering, AllocError> {
        Ok(Lingering {
            lingerers: Vec::with_capacity(alloc, MOST_LINGERING)?,
            piece: vec![in alloc; 0u8; PIECE]?,
        })
    }

    /// Ends the writing side of a connection that is closed at this moment, and keeps it where its peer has not ended
    /// the other side.
    pub fn add(&mut self, conn: u32, stream: Option<TcpStream>, moment: u64) {
        let Some(stream) = stream else {
            return;
        };
        if stream.shutdown(Shutdown::Write).is_err() {
            return;
        }
        let mut left = MOST_DROPPED;
        if !drain(&stream, &mut left, &mut self.piece) {
            return;
        }
        if self.lingerers.len() >= MOST_LINGERING {
            self.let_first_go();
        }
        // Room was made for as many as linger.
        let _ = self.lingerers.push(Lingerer {
            conn,
            stream,
            left,
            until: moment.saturating_add(LONGEST),
        });
    }

    /// Drops what came to the connection of the number, if it lingers. Whether it did.
    fn drain_one(&mut self, conn: u32) -> bool {
        for at in 0..self.lingerers.len() {
            if self.lingerers[at].conn == conn {
                let lingerer = &mut self.lingerers[at];
                if !drain(&lingerer.stream, &mut lingerer.left, &mut self.piece) {
                    self.lingerers.remove(at);
                }
                return true;
            }
        }
        false
    }

    /// Whether what a wait named is a connection that lingers. What came to it is dropped.
    pub fn takes(&mut self, ready: Ready) -> bool {
        match ready {
            Ready::Readable(conn) | Ready::Writable(conn) => self.drain_one(conn),
            Ready::Incoming | Ready::Elapsed => false,
        }
    }

    /// The moment at which the first is let go, if any lingers.
    pub fn earliest(&self) -> Option<u64> {
        let first = self.lingerers.first()?;
        Some(first.until)
    }

    /// Lets the first go. Whether there was one.
    pub fn let_first_go(&mut self) -> bool {
        if self.lingerers.is_empty() {
            return false;
        }
        self.lingerers.remove(0);
        true
    }

    /// Lets those go whose time has come at this moment.
    pub fn let_go(&mut self, moment: u64) {
        for _ in 0..MOST_LINGERING {
            match self.earliest() {
                Some(until) if until <= moment => {
                    self.let_first_go();
                }
                _ => return,
            }
        }
    }
}
