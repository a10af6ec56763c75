//! Lines of a trace that are read, and texts that are none.
#![tactic(auto)]

use gv_values::{Answer, FaultKind, JobOutcome, Outcome, Scalar, Value, Whom};
use std::alloc::{AllocError, Global};
use trace_reader::{LineFault, read_line};
use trace_text::{Awaited, Line, write_line};

/// Whether the text is read as a line that is written as the same text.
fn reads_back(alloc: Global, text: &[u8]) -> bool {
    let Ok(line) = read_line(alloc, text) else {
        return false;
    };
    let mut out = Vec::new(alloc);
    let is_whole = write_line(&line, &mut out).is_ok();
    drop(line);
    is_whole && out.as_slice() == text
}

/// Whether the text is no line.
fn is_refused(alloc: Global, text: &[u8]) -> bool {
    read_line(alloc, text).err() == Some(LineFault::NotALine)
}

/// Whole traces.
const TRACES: &[&[u8]] = &[
    b"start g0 main\nprint g0 1\nend g0 value none\nstop value none turns 0 moves 1",
    b"start g0 main\npark g0 sleep until 5\nstart g1 slow\njob j1 g1 sum 5\npark g1 get j1\nstart g2 quick\njob j2 g2 fail 3\npark g2 get j2\nblock 5\nturn 1 elapsed 5\nwake g0\npark g0 kill g2\nturn 2 nothing 5\nthrow g2 GreenletExit\nend g2 value GreenletExit\nturn 3 nothing 5\nwake g0\npark g0 nspawn n\nblock jobs\nturn 4 done j2 10 fault Error(3)\nwake g0\njob j3 g0 echo 9\npark g0 get j3\nblock jobs\nturn 5 done j3 10 value 9\nwake g0\nprint g0 9\npark g0 join g1\nblock jobs\nturn 6 done j1 30 value 15\nwake g1\nprint g1 15\nend g1 value none\nturn 7 nothing 30\nwake g0\nend g0 value none\nstop value none turns 8 moves 13",
];

/// Whether each line of the trace reads back.
fn lines_read_back(alloc: Global, trace: &[u8]) -> bool {
    for text in trace.split(|b| *b == b'\n') {
        if !reads_back(alloc, text) {
            return false;
        }
    }
    true
}

#[test]
fn reads_the_lines_of_runs(rt: HostRuntime) {
    for trace in TRACES {
        assert!(rt; lines_read_back(rt.alloc(), trace));
    }
}

/// Lines of every kind.
const KINDS: &[&str] = &[
    "print g4294967295 [true, false, none, -1, g1, j2, Timeout(3), Error(-4)]",
    "print g0 []",
    "print g0 -9223372036854775808",
    "print g0 9223372036854775807",
    "print g0 Timeout(4294967295)",
    "print g0 j7",
    "park g1 get g2",
    "park g1 joinall until 18446744073709551615",
    "park g1 killall",
    "park g1 wait e",
    "park g1 rget r",
    "park g1 rwait r until 0",
    "park g1 acquire s",
    "park g1 qput q",
    "park g1 qget q",
    "park g1 qpeek q",
    "park g1 qjoin q",
    "park g1 gspawn p",
    "park g1 gjoin p",
    "park g1 gkill p",
    "park g1 map abcdefghijklmnopqrstuv_9 until 3",
    "park g1 cput c",
    "park g1 cget c",
    "late g3",
    "throw g3 Timeout(1)",
    "throw g3 LoopExit",
    "into g3 value [g4]",
    "into g3 fault InvalidSwitch",
    "end g3 fault Empty",
    "end g3 fault Full",
    "end g3 fault ShutDown",
    "end g3 fault ValueError",
    "end g3 fault RuntimeError",
    "end g3 fault TypeError",
    "end g3 fault OverflowError",
    "end g3 fault ZeroDivisionError",
    "link 1 g1 g2",
    "link 3 g1 mark 8",
    "link 4 g2 set e",
    "job j2 g2 collatz 27",
    "block none",
    "turn 18446744073709551615 nothing 0",
    "stop fault Error(1) turns 1 moves 5",
    "stop no-turns turns 1 moves 2",
    "stop no-moves turns 1 moves 2",
    "stop no-greenlets turns 0 moves 40000",
    "stop no-links turns 1 moves 2",
    "stop no-kills turns 1 moves 2",
];

#[test]
fn reads_lines_of_every_kind(rt: HostRuntime) {
    for text in KINDS {
        assert!(rt; reads_back(rt.alloc(), text.as_bytes()), "{text}");
    }
}

/// Whether the wait for a job with a time limit is read.
fn reads_a_park(alloc: Global) -> bool {
    let Ok(line) = read_line(alloc, b"park g1 join j2 until 40") else {
        return false;
    };
    let is_read = matches!(
        &line,
        Line::Park {
            greenlet: 1,
            awaited: Awaited::Join(Whom::Job(2)),
            until: Some(40)
        }
    );
    drop(line);
    is_read
}

/// Whether the turn that brings the outcome of a job is read.
fn reads_a_turn(alloc: Global) -> bool {
    let Ok(line) = read_line(alloc, b"turn 4 done j2 10 fault Error(3)") else {
        return false;
    };
    let is_read = matches!(
        &line,
        Line::Turn {
            number: 4,
            answer: Answer::Done {
                number: 2,
                outcome: JobOutcome::Fault(FaultKind::Error(3)),
                at: 10
            }
        }
    );
    drop(line);
    is_read
}

/// Whether the line is the end with a list of two.
fn is_that_end(line: &Line) -> bool {
    match line {
        Line::End {
            greenlet: 5,
            outcome: Outcome::Value(Value::List(list)),
        } => {
            (list.get(0), list.get(1), list.get(2))
                == (Some(Scalar::Int(7)), Some(Scalar::Nothing), None)
        }
        _ => false,
    }
}

/// Whether the end with a list of two is read.
fn reads_an_end(alloc: Global) -> bool {
    let Ok(line) = read_line(alloc, b"end g5 value [7, none]") else {
        return false;
    };
    let is_read = is_that_end(&line);
    drop(line);
    is_read
}

#[test]
fn reads_what_the_line_says(rt: HostRuntime) {
    assert!(rt; reads_a_park(rt.alloc()));
    assert!(rt; reads_a_turn(rt.alloc()));
    assert!(rt; reads_an_end(rt.alloc()));
}

/// Texts that are no line.
const NO_LINES: &[&str] = &[
    "",
    "start",
    "start g0",
    "start g0 ",
    "start g0 main ",
    " start g0 main",
    "start  g0 main",
    "start g0  main",
    "start g0 main\n",
    "start g00 main",
    "start g4294967296 main",
    "start 0 main",
    "start g0 Main",
    "start g0 abcdefghijklmnopqrstuvwxy",
    "print g0 01",
    "print g0 -0",
    "print g0 +1",
    "print g0 9223372036854775808",
    "print g0 -9223372036854775809",
    "print g0 [1,2]",
    "print g0 [1, ]",
    "print g0 [[]]",
    "print g0 Timeout(4294967296)",
    "park g0 sleep until",
    "park g0 sleep until 18446744073709551616",
    "park g0 cput",
    "park g0 cget ",
    "park g0 cpeek c",
    "block 05",
    "turn 1 done j1 5 value none",
    "turn 1 nothing",
    "stop no-turns turns 1",
    "stop value none turns 1 moves 2 ",
];

#[test]
fn refuses_what_is_no_line(rt: HostRuntime) {
    for text in NO_LINES {
        assert!(rt; is_refused(rt.alloc(), text.as_bytes()), "{text}");
    }
}

/// Appends a `print` line of a list of so many zeros.
fn push_zeros(text: &mut Vec<u8>, count: usize) -> Result<(), AllocError> {
    text.extend_from_slice(b"print g0 [0")?;
    for _ in 1..count {
        text.extend_from_slice(b", 0")?;
    }
    text.push(b']')?;
    Ok(())
}

/// Whether the line of a list of so many zeros reads back.
fn zeros_read_back(alloc: Global, count: usize) -> bool {
    let mut text = Vec::new(alloc);
    push_zeros(&mut text, count).is_ok() && reads_back(alloc, &text)
}

/// Whether a list of so many zeros is no line.
fn zeros_are_refused(alloc: Global, count: usize) -> bool {
    let mut text = Vec::new(alloc);
    push_zeros(&mut text, count).is_ok() && is_refused(alloc, &text)
}

#[test]
fn a_list_has_at_most_64_scalars(rt: HostRuntime) {
    assert!(rt; zeros_read_back(rt.alloc(), 64));
    assert!(rt; zeros_are_refused(rt.alloc(), 65));
}
