//! Frames over the code of a text: expressions, blocks, and moves that run out.
ghost use Rattle.std.specs.Prelude.{◌<◌, length, IfOk};

use body_frames::{Frame, Input, Step};
use body_values::{Code, Look};
use gv_values::{FaultKind, Outcome, Whom, outcome_text};
use hub_engine::compile;
use scenario_check::check;
use scenario_lang::parse;
use scenario_tree::Items;
use std::alloc::{AllocError, Global};
use std::test::Fail;

/// A hub that answers the same of every greenlet and object.
#[derive(Drop)]
struct StillHub {
    ended: Option<Outcome>,
    set: bool,
    size: u32,
}

impl Look for StillHub {
    ghost answers = { λ h. record {
      current = 7;
      outcome = λ w. h.ended;
      is_set = λ o. h.set;
      size = λ o. h.size;
      unfinished = λ o. 3;
    } };

    fn current(&self) -> u32 {
        7
    }

    fn outcome(&self, _whom: Whom) -> Option<&Outcome> {
        self.ended.as_ref()
    }

    fn is_set(&self, _object: u32) -> bool {
        self.set
    }

    fn size(&self, _object: u32) -> u64 {
        self.size as u64
    }

    fn unfinished(&self, _object: u32) -> u64 {
        3
    }
}

fn hub() -> StillHub {
    StillHub {
        ended: Some(Outcome::Fault(FaultKind::Error(5))),
        set: true,
        size: 4,
    }
}

/// The code of a text.
fn code_of(alloc: Global, text: &str) -> Result<Code, Fail>
    ensures { IfOk result (λ code. 0 < length code.functions) }
{
    let Ok(scenario) = parse(alloc, text.as_bytes()) else {
        return Err(Fail::from("no text of a scenario"));
    };
    if scenario.tree().functions.len() == 0 {
        return Err(Fail::from("no function"));
    }
    let Ok(checked) = check(alloc, scenario) else {
        return Err(Fail::from("no well-formed scenario"));
    };
    Ok(compile(alloc, checked)?)
}

/// The first step of a body of the first function, and how many of these moves are left after it.
fn first_step(
    alloc: Global,
    code: &Code,
    hub: &StillHub,
    moves: u64,
) -> Result<(Step, u64), AllocError>
    requires { 0 < length code.now.functions }
{
    let mut frame = Frame::new(alloc, code, 0, Items::new(alloc))?;
    let mut left = moves;
    let step = frame.resume(alloc, code, Input::Begin, hub, &mut left)?;
    Ok((step, left))
}

/// Writes the step in words.
fn push_words(step: &Step, out: &mut Vec<u8>) -> Result<(), AllocError> {
    match step {
        Step::Ended(outcome) => outcome_text(outcome, out),
        Step::MovesOut => out.extend_from_slice(b"moves out"),
        Step::Request(_) => out.extend_from_slice(b"request"),
        Step::EnterTimeout(_, _) => out.extend_from_slice(b"enter timeout"),
        Step::LeaveTimeout(_) => out.extend_from_slice(b"leave timeout"),
    }
}

/// Whether these are the words of the step.
fn is_said(alloc: Global, step: &Step, words: &str) -> Result<bool, AllocError> {
    let mut out = Vec::new(alloc);
    push_words(step, &mut out)?;
    Ok(out.as_slice() == words.as_bytes())
}

/// Whether a body that has so many moves comes to this by its first step, by so many of them.
fn comes_to(alloc: Global, text: &str, moves: u64, words: &str, used: u64) -> Result<bool, Fail> {
    let code = code_of(alloc, text)?;
    let (step, left) = first_step(alloc, &code, &hub(), moves)?;
    let said = is_said(alloc, &step, words);
    drop(step);
    Ok(said? && left.checked_add(used) == Some(moves))
}

/// Bodies of one move, and the end of each.
const EXPRESSIONS: &[(&str, &str)] = &[
    ("def main\nreturn / -7 2\nend\n", "value -4"),
    ("def main\nreturn % -7 2\nend\n", "value 1"),
    ("def main\nreturn - 2 5\nend\n", "value -3"),
    ("def main\nreturn self\nend\n", "value g7"),
    ("def main\nreturn exception self\nend\n", "value Error(5)"),
    ("def main\nreturn successful self\nend\n", "value false"),
    ("sem s 1\ndef main\nreturn counter s\nend\n", "value 4"),
    ("def main\nreturn and false / 1 0\nend\n", "value false"),
    (
        "def main\nreturn and true / 1 0\nend\n",
        "fault ZeroDivisionError",
    ),
    ("def main\nreturn or true 1\nend\n", "value true"),
    ("def main\nreturn or false 1\nend\n", "fault TypeError"),
];

#[test]
fn expressions(rt: HostRuntime) -> Result<(), Fail> {
    for (text, expected) in EXPRESSIONS {
        assert!(rt; comes_to(rt.alloc(), text, 10, expected, 1)?, "{text}");
    }
    Ok(())
}

/// Bodies, the end of each, and by how many moves it comes there.
const BLOCKS: &[(&str, &str, u64)] = &[
    // A fault or a return in a finally replaces what was under way.
    (
        "def main\ntry\nreturn 1\nfinally\nraise ValueError\nend\nend\n",
        "fault ValueError",
        3,
    ),
    (
        "def main\ntry\nraise ValueError\nfinally\nreturn 2\nend\nend\n",
        "value 2",
        3,
    ),
    // Else the finally runs, and the return goes on.
    (
        "def main\ntry\nreturn 1\nfinally\nlet x 2\nend\nreturn 3\nend\n",
        "value 1",
        3,
    ),
    // The first except that catches.
    (
        "def main\ntry\nraise ValueError\nexcept TypeError\nreturn 1\nexcept ValueError e\nreturn e\nend\nend\n",
        "value ValueError",
        3,
    ),
    (
        "def main\ntry\nraise GreenletExit\nexcept Exception\nreturn 1\nexcept any\nreturn 2\nend\nend\n",
        "value 2",
        3,
    ),
    // Each evaluation of a condition is a move.
    (
        "def main\nlet i 0\nwhile < i 3\nlet i + i 1\nend\nreturn i\nend\n",
        "value 3",
        9,
    ),
    ("def main\nwhile 1\nend\nend\n", "fault TypeError", 1),
    ("def main\nend\n", "value none", 0),
];

#[test]
fn blocks_and_their_moves(rt: HostRuntime) -> Result<(), Fail> {
    for (text, expected, moves) in BLOCKS {
        assert!(rt; comes_to(rt.alloc(), text, 10, expected, *moves)?, "{text}");
    }
    Ok(())
}

/// How many moves there are, and what the body comes to by all of them.
const FEW_MOVES: &[(u64, &str)] = &[(0, "moves out"), (1, "moves out"), (2, "value 1")];

#[test]
fn no_move_begins_where_none_is_left(rt: HostRuntime) -> Result<(), Fail> {
    let text = "def main\nlet x 1\nreturn x\nend\n";
    for (moves, expected) in FEW_MOVES {
        assert!(rt;
            comes_to(rt.alloc(), text, *moves, expected, *moves)?,
            "{moves} moves"
        );
    }
    Ok(())
}
