//! Streams that fail, and a peer that waits for its answers.
ghost use Rattle.std.specs.Prelude.{◌≡◌, None};

use crate::calls::{PRINTED_ONE, PRINTS_ONE, Row, called, ends_over, holds};
use crate::connection_tests::HELLO;
use gv_io::{Failed, MemorySink, Sink, Source, StdSink};
use std::alloc::{AllocError, Global};
use std::cell::Cell;
use world::ScriptWorld;

const ENDS_BY_A_FAULT: &[u8] = b"def main\nraise Error 7\nend\n";

const TWO_REQUESTS: &[u8] = b"GET / HTTP/1.1\r\n\r\nGET / HTTP/1.1\r\n\r\n";

/// Calls over streams that fail at a read, or past their room.
const FAULTS: &[Row<'static>] = &[
    Row {
        name: "a read that fails under run",
        words: "run",
        input: PRINTS_ONE,
        piece: 4,
        failing: &[1],
        room: 1000,
        err_room: 1000,
        status: 4,
        out: b"",
        err: b"gvr: read fault\n",
    },
    Row {
        name: "a read that fails under fmt",
        words: "fmt",
        input: PRINTS_ONE,
        piece: 21,
        failing: &[1],
        room: 1000,
        err_room: 1000,
        status: 4,
        out: b"",
        err: b"gvr: read fault\n",
    },
    Row {
        name: "a read that fails under wsgi",
        words: "wsgi",
        input: TWO_REQUESTS,
        piece: 20,
        failing: &[1],
        room: 1000,
        err_room: 1000,
        status: 4,
        out: HELLO,
        err: b"gvr: read fault\n",
    },
    Row {
        name: "a storm reads no input",
        words: "storm --size 3",
        input: b"no scenario",
        piece: 4096,
        failing: &[0],
        room: 1000,
        err_room: 1000,
        status: 0,
        out: b"storm 3\ngreenlets 4\nturns 5\nmoves 21\nmoment 0\nlines 24\n",
        err: b"",
    },
    Row {
        name: "a last line that is not ended",
        words: "run",
        input: b"def main\nend",
        piece: 4096,
        failing: &[],
        room: 1000,
        err_room: 1000,
        status: 3,
        out: b"",
        err: b"gvr: line 2: reason 3: last line not ended\n",
    },
    Row {
        name: "out with room for 29",
        words: "run",
        input: PRINTS_ONE,
        piece: 4096,
        failing: &[],
        room: 29,
        err_room: 1000,
        status: 5,
        out: b"start g0 main\nprint g0 1\nend ",
        err: b"gvr: write fault\n",
    },
    Row {
        name: "out with room for 9 under wsgi",
        words: "wsgi",
        input: TWO_REQUESTS,
        piece: 20,
        failing: &[],
        room: 9,
        err_room: 1000,
        status: 5,
        out: b"HTTP/1.1 ",
        err: b"gvr: write fault\n",
    },
    Row {
        name: "a storm whose summary finds no room",
        words: "storm --size 3",
        input: b"",
        piece: 4096,
        failing: &[],
        room: 12,
        err_room: 1000,
        status: 5,
        out: b"storm 3\ngree",
        err: b"gvr: write fault\n",
    },
    Row {
        name: "err that fails past its room",
        words: "run",
        input: ENDS_BY_A_FAULT,
        piece: 4096,
        failing: &[],
        room: 1000,
        err_room: 9,
        status: 5,
        out: b"start g0 main\nend g0 fault Error(7)\nstop fault Error(7) turns 0 moves 1\n",
        err: b"gvr: main",
    },
    Row {
        name: "err with no room",
        words: "run",
        input: b"def main\nprint / -7 2\nprint % -7 2\nlet x + 9223372036854775807 1\nend\n",
        piece: 4096,
        failing: &[],
        room: 1000,
        err_room: 0,
        status: 5,
        out: b"start g0 main\nprint g0 -4\nprint g0 1\nend g0 fault OverflowError\nstop fault OverflowError turns 0 moves 3\n",
        err: b"",
    },
    Row {
        name: "out and err with room for 9",
        words: "run",
        input: ENDS_BY_A_FAULT,
        piece: 4096,
        failing: &[],
        room: 9,
        err_room: 9,
        status: 5,
        out: b"start g0 ",
        err: b"gvr: writ",
    },
    Row {
        name: "out with room for 9, err with none",
        words: "run",
        input: PRINTS_ONE,
        piece: 4096,
        failing: &[],
        room: 9,
        err_room: 0,
        status: 5,
        out: b"start g0 ",
        err: b"",
    },
];

#[test]
fn streams_that_fail(rt: HostRuntime) {
    for row in FAULTS {
        assert!(rt; holds(rt.alloc(), row) == Ok(true), "{}", row.name);
    }
}

/// Words, an input, the status and what is written to out, where err always fails.
type WithoutErr = (&'static str, &'static [u8], u8, &'static [u8]);

const WITHOUT_ERR: &[WithoutErr] = &[
    ("run", PRINTS_ONE, 0, PRINTED_ONE),
    ("fmt", PRINTS_ONE, 0, b"def main\n  print 1\nend\n"),
    ("wsgi", b"", 0, b""),
    (
        "run",
        b"def main\njoin self\nend\n",
        5,
        b"start g0 main\npark g0 join g0\nblock none\nthrow g0 LoopExit\nend g0 fault LoopExit\nstop fault LoopExit turns 1 moves 1\n",
    ),
    ("fmt", b"", 5, b""),
    ("walk", b"", 5, b""),
];

/// Whether this err fails, and the call over it, with an input in one piece, leaves this.
fn ends_over_failing<E: Sink>(alloc: Global, call: &WithoutErr, err: &mut E) -> bool {
    let (words, input, status, out) = *call;
    let row = Row {
        name: "",
        words,
        input,
        piece: 4096,
        failing: &[],
        room: 1000,
        err_room: 0,
        status,
        out,
        err: b"",
    };
    // A sink over the system fails for good once it has failed.
    let failed = err.write_all(b"x") == Err(Failed);
    let ends = ends_over(alloc, &row, err, &mut ScriptWorld::new(alloc, 0));
    failed && ends == Ok(true)
}

/// Whether the call leaves this where err always fails.
fn ends_without_err(alloc: Global, row: &WithoutErr) -> Result<bool, AllocError> {
    let mut nowhere = [0; 0];
    let mut err = StdSink::new(alloc, &mut nowhere[..], 0)?;
    Ok(ends_over_failing(alloc, row, &mut err))
}

#[test]
fn err_that_always_fails(rt: HostRuntime) {
    for row in WITHOUT_ERR {
        assert!(rt; ends_without_err(rt.alloc(), row) == Ok(true), "{}", row.0);
    }
}

const REQUEST: &[u8] = b"GET / HTTP/1.1\r\n\r\n";

/// A peer that sends one request after another, two in all, and notes before each read and before the end how many
/// bytes had reached it by then.
#[derive(Clone, Copy)]
struct Peer<'a> {
    reached: &'a Cell<usize>,
    reads: usize,
    noted: [usize; 3],
}

impl Source for Peer<'_> {
    ghost remaining = { λ _. None };

    ghost faults = { λ _. 0 };

    #[tactic(auto, using(gv_io::proofs::StreamLaws::untold))]
    fn read(&mut self, buf: &mut [u8]) -> Result<usize, Failed> {
        let turn = self.reads.min(2);
        self.noted[turn] = self.reached.get();
        self.reads = turn + 1;
        if turn == 2 {
            return Ok(0);
        }
        let count = REQUEST.len().min(buf.len());
        buf[..count].copy_from_slice(&REQUEST[..count]);
        Ok(count)
    }
}

/// The way to that peer: what is written reaches it once it is flushed.
#[derive(Clone, Copy)]
pub(crate) struct Way<'a> {
    pub(crate) reached: &'a Cell<usize>,
    pub(crate) held: usize,
}

impl Sink for Way<'_> {
    ghost written = { λ _. None };

    ghost handed = { λ _. None };

    ghost faults = { λ _. 0 };

    #[tactic(auto, using(gv_io::proofs::StreamLaws::untold))]
    fn write_all(&mut self, bytes: &[u8]) -> Result<(), Failed> {
        self.held = self.held.saturating_add(bytes.len());
        Ok(())
    }

    #[tactic(auto, using(gv_io::proofs::StreamLaws::untold))]
    fn flush(&mut self) -> Result<(), Failed> {
        self.reached
            .set(self.reached.get().saturating_add(self.held));
        self.held = 0;
        Ok(())
    }
}

/// Answers the connection of the peer. The status.
fn answered(alloc: Global, peer: &mut Peer, way: &mut Way) -> Result<u8, AllocError> {
    let mut err = MemorySink::new(alloc, 1000)?;
    called(
        alloc,
        "wsgi",
        peer,
        way,
        &mut err,
        &mut ScriptWorld::new(alloc, 0),
    )
}

/// Whether the peer is answered with status 0, and each of its requests before its next read.
fn is_answered_in_time(alloc: Global) -> bool {
    let greeting = HELLO.len();
    let reached = Cell::new(0);
    let mut peer = Peer {
        reached: &reached,
        reads: 0,
        noted: [0; 3],
    };
    let mut way = Way {
        reached: &reached,
        held: 0,
    };
    let status = answered(alloc, &mut peer, &mut way);
    status == Ok(0) && peer.noted == [0, greeting, greeting + greeting]
}

#[test]
fn each_piece_is_answered_before_the_next_is_read(rt: HostRuntime) {
    assert!(rt; is_answered_in_time(rt.alloc()));
}
