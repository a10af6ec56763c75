//! The lines of a trace as they are written.
#![tactic(auto)]

use gv_values::{Answer, FaultKind, Job, JobOutcome, Name, Outcome, Value, Whom};
use std::alloc::Global;
use std::test::Fail;
use trace_text::{Awaited, Blocked, Line, LinkCall, Resumed, StopCause, write_line};

fn name(bytes: &[u8]) -> Result<Name, Fail> {
    match Name::new(bytes) {
        Some(name) => Ok(name),
        None => Err(Fail::from("not a name")),
    }
}

/// Whether the line is written so, behind what stands there.
fn is_written(alloc: Global, line: Line, wanted: &str) -> bool {
    let mut out = Vec::new(alloc);
    let is_whole = out.push(b'>').is_ok() && write_line(&line, &mut out).is_ok();
    drop(line);
    is_whole && out.strip_prefix(b">") == Some(wanted.as_bytes())
}

#[test]
fn writes_the_lines_of_a_greenlet(rt: HostRuntime) -> Result<(), Fail> {
    let main = name(b"main")?;
    assert!(rt;
        is_written(
            rt.alloc(),
            Line::Start {
                greenlet: 0,
                function: main,
            },
            "start g0 main"
        )
    );
    assert!(rt;
        is_written(
            rt.alloc(),
            Line::Print {
                greenlet: 0,
                value: Value::Int(-4),
            },
            "print g0 -4"
        )
    );
    assert!(rt;
        is_written(
            rt.alloc(),
            Line::Park {
                greenlet: 1,
                awaited: Awaited::Sleep,
                until: Some(10),
            },
            "park g1 sleep until 10"
        )
    );
    assert!(rt;
        is_written(
            rt.alloc(),
            Line::Park {
                greenlet: 0,
                awaited: Awaited::Join(Whom::Greenlet(1)),
                until: None,
            },
            "park g0 join g1"
        )
    );
    assert!(rt;
        is_written(
            rt.alloc(),
            Line::Resume {
                greenlet: 1,
                by: Resumed::Wake,
            },
            "wake g1"
        )
    );
    assert!(rt;
        is_written(
            rt.alloc(),
            Line::Resume {
                greenlet: 0,
                by: Resumed::Late,
            },
            "late g0"
        )
    );
    Ok(())
}

#[test]
fn writes_what_comes_to_a_greenlet(rt: HostRuntime) {
    assert!(rt;
        is_written(
            rt.alloc(),
            Line::Throw {
                greenlet: 0,
                fault: FaultKind::Timeout(1),
            },
            "throw g0 Timeout(1)"
        )
    );
    assert!(rt;
        is_written(
            rt.alloc(),
            Line::Into {
                greenlet: 1,
                input: Outcome::Fault(FaultKind::Error(5)),
            },
            "into g1 fault Error(5)"
        )
    );
    assert!(rt;
        is_written(
            rt.alloc(),
            Line::End {
                greenlet: 1,
                outcome: Outcome::Value(Value::Nothing),
            },
            "end g1 value none"
        )
    );
}

#[test]
fn writes_the_lines_of_the_hub(rt: HostRuntime) -> Result<(), Fail> {
    let event = name(b"e")?;
    assert!(rt;
        is_written(
            rt.alloc(),
            Line::Link {
                number: 1,
                greenlet: 1,
                call: LinkCall::Greenlet(2),
            },
            "link 1 g1 g2"
        )
    );
    assert!(rt;
        is_written(
            rt.alloc(),
            Line::Link {
                number: 3,
                greenlet: 1,
                call: LinkCall::Mark(8),
            },
            "link 3 g1 mark 8"
        )
    );
    assert!(rt;
        is_written(
            rt.alloc(),
            Line::Link {
                number: 4,
                greenlet: 2,
                call: LinkCall::Set(event),
            },
            "link 4 g2 set e"
        )
    );
    assert!(rt;
        is_written(
            rt.alloc(),
            Line::Job {
                number: 2,
                greenlet: 2,
                job: Job::Fail(3),
            },
            "job j2 g2 fail 3"
        )
    );
    assert!(rt; is_written(rt.alloc(), Line::Block(Blocked::Until(5)), "block 5"));
    assert!(rt; is_written(rt.alloc(), Line::Block(Blocked::Jobs), "block jobs"));
    assert!(rt; is_written(rt.alloc(), Line::Block(Blocked::Nothing), "block none"));
    Ok(())
}

#[test]
fn writes_turns_and_stops(rt: HostRuntime) {
    assert!(rt;
        is_written(
            rt.alloc(),
            Line::Turn {
                number: 1,
                answer: Answer::Elapsed { at: 5 },
            },
            "turn 1 elapsed 5"
        )
    );
    assert!(rt;
        is_written(
            rt.alloc(),
            Line::Turn {
                number: 2,
                answer: Answer::Nothing { at: 5 },
            },
            "turn 2 nothing 5"
        )
    );
    assert!(rt;
        is_written(
            rt.alloc(),
            Line::Turn {
                number: 4,
                answer: Answer::Done {
                    number: 2,
                    outcome: JobOutcome::Fault(FaultKind::Error(3)),
                    at: 10,
                },
            },
            "turn 4 done j2 10 fault Error(3)"
        )
    );
    assert!(rt;
        is_written(
            rt.alloc(),
            Line::Stop {
                cause: StopCause::Fault(FaultKind::LoopExit),
                turns: 1,
                moves: 5,
            },
            "stop fault LoopExit turns 1 moves 5"
        )
    );
    assert!(rt;
        is_written(
            rt.alloc(),
            Line::Stop {
                cause: StopCause::NoGreenlets,
                turns: 0,
                moves: 40000,
            },
            "stop no-greenlets turns 0 moves 40000"
        )
    );
}
