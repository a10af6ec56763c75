//! Runs with native workers that the tests make: threads that never start, and answers from a list.
ghost use Rattle.std.specs.Prelude.{◌≡◌, false};

use crate::calls::{Row, called, holds_in};
use crate::fault_tests::Way;
use gv_io::{MemorySink, MemorySource};
use gv_values::{Answer, JobOutcome};
use native_board::Bell;
use native_pool::{Clock, Ear, NoThreads, OpenGate, ThreadWorld};
use std::alloc::{AllocError, Global};
use std::cell::Cell;
use std::sync::Wait;
use world::{ListWorld, World};

const TWO_JOBS: &[u8] =
    b"native n 2\ndef main\na <- nspawn n sum 3\nb <- nspawn n echo 4\nx <- get a\nprint x\nend\n";

/// What that text gives where both jobs are done at moment 0 and the first of them is told first.
const TWO_JOBS_DONE: &[u8] =
    b"start g0 main\njob j1 g0 sum 3\njob j2 g0 echo 4\npark g0 get j1\nblock jobs\nturn 1 done j1 0 value 6\nwake g0\nprint g0 6\nend g0 value none\nstop value none turns 2 moves 4\n";

/// The call with these words over that text, which gives this.
fn done_at_once(words: &str) -> Row<'_> {
    Row {
        name: "",
        words,
        input: TWO_JOBS,
        piece: 4096,
        failing: &[],
        room: 10000,
        err_room: 1000,
        status: 0,
        out: TWO_JOBS_DONE,
        err: b"",
    }
}

/// An ear that hears nothing.
#[derive(Clone, Copy)]
struct Deaf;

impl Ear for Deaf {
    fn rest(&mut self, at_most: Option<u64>) {
        let _ = at_most;
    }
}

/// A bell that does nothing.
#[derive(Clone, Copy)]
struct Mute;

impl Bell for Mute {
    fn ring(&self) {}
}

/// A clock that stands still.
#[derive(Clone, Copy)]
pub(crate) struct Still;

impl Clock for Still {
    ghost reading = { λ _. 0 };

    fn now(&mut self) -> u64 {
        0
    }
}

/// Whether the call of a row leaves what the row has, over a world whose threads never start.
fn holds_without_threads<H: Wait + Drop>(
    alloc: Global,
    rt: H,
    row: &Row,
) -> Result<bool, AllocError> {
    let world = ThreadWorld::new(alloc, rt, Deaf, Mute, Still, OpenGate, NoThreads::new())?;
    holds_in(alloc, row, world)
}

#[test]
fn no_threads(rt: HostRuntime) {
    let row = done_at_once("run --native 2");
    assert!(rt; holds_without_threads(rt.alloc(), rt, &row) == Ok(true));
}

/// The end of the second of the two jobs, and that of the first.
const SECOND_JOB_FIRST: &[Answer] = &[
    Answer::Done {
        number: 2,
        outcome: JobOutcome::Int(4),
        at: 7,
    },
    Answer::Done {
        number: 1,
        outcome: JobOutcome::Int(6),
        at: 9,
    },
];

/// Whether the call of a row leaves what the row has, over a world that gives these answers.
fn holds_by_answers(alloc: Global, row: &Row, answers: &[Answer]) -> Result<bool, AllocError> {
    let answers = Vec::from_slice(alloc, answers)?;
    holds_in(alloc, row, ListWorld::new(alloc, answers))
}

#[test]
fn held_listed_answers(rt: HostRuntime) {
    let row = done_at_once("run --native 1 --order held");
    assert!(rt; holds_by_answers(rt.alloc(), &row, SECOND_JOB_FIRST) == Ok(true));
}

/// An ear that notes how many bytes had reached the reader when the program began to wait, and at which the time that
/// it waits for has come at once.
#[derive(Clone, Copy)]
struct Noting<'a> {
    reached: &'a Cell<usize>,
    noted: &'a Cell<usize>,
    moment: &'a Cell<u64>,
}

impl Ear for Noting<'_> {
    fn rest(&mut self, at_most: Option<u64>) {
        self.noted.set(self.reached.get());
        let moment = self.moment.get();
        self.moment.set(moment.saturating_add(at_most.unwrap_or(1)));
    }
}

/// The clock that this ear moves.
#[derive(Clone, Copy)]
struct Moved<'a> {
    moment: &'a Cell<u64>,
    last: u64,
}

impl Clock for Moved<'_> {
    ghost reading = { λ clock. clock.last };

    fn now(&mut self) -> u64 {
        self.last = self.last.max(self.moment.get());
        self.last
    }
}

/// Runs a text that sleeps, with native workers. The status.
fn sleeps<W: World>(alloc: Global, way: &mut Way, native: &mut W) -> Result<u8, AllocError>
    requires { (W.meaning native.old).runs ≡ false }
{
    let text = Vec::from_slice(alloc, b"def main\nprint 1\nsleep 5\nprint 2\nend\n")?;
    let mut input = MemorySource::new(text, 4096, Vec::new(alloc));
    let mut err = MemorySink::new(alloc, 1000)?;
    called(alloc, "run --native 1", &mut input, way, &mut err, native)
}

/// Runs that text over this ear and a clock that the ear moves. The status.
fn sleeps_over<H: Wait + Drop>(alloc: Global, rt: H, ear: Noting) -> Result<u8, AllocError> {
    let clock = Moved {
        moment: ear.moment,
        last: 0,
    };
    let mut way = Way {
        reached: ear.reached,
        held: 0,
    };
    let mut native = ThreadWorld::new(alloc, rt, ear, Mute, clock, OpenGate, NoThreads::new())?;
    sleeps(alloc, &mut way, &mut native)
}

#[test]
fn lines_are_handed_on_before_the_program_waits(rt: HostRuntime) {
    let reached = Cell::new(0);
    let noted = Cell::new(0);
    let moment = Cell::new(0);
    let ear = Noting {
        reached: &reached,
        noted: &noted,
        moment: &moment,
    };
    assert!(rt; sleeps_over(rt.alloc(), rt, ear) == Ok(0));
    let before = "start g0 main\nprint g0 1\npark g0 sleep until 5\nblock 5\n";
    assert!(rt; noted.get() == before.len());
}
