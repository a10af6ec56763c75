//! Texts that are read, refused and printed again.
#![tactic(auto)]

use scenario_grammar::Place;
use scenario_lang::{ParseRefusal, parse, print, reason_text};
use std::alloc::{AllocError, Global};
use std::process::Abort;

/// A text, and the line and the reason of its refusal; zeros where it is taken.
pub(crate) type Row = (&'static str, (u32, u8));

/// The line and the reason of a refusal; zeros where there is none.
pub(crate) fn place_of<T: Drop>(read: Result<T, ParseRefusal>) -> (u32, u8) {
    match read {
        Ok(_) => (0, 0),
        Err(ParseRefusal::Refused(Place { line, reason })) => (line, reason),
        Err(ParseRefusal::Memory) => (0, 255),
    }
}

/// Asserts that the text of each row, put between these two, has its place.
pub(crate) fn assert_places(
    rt: &impl Abort,
    alloc: Global,
    front: &'static str,
    rows: &[Row],
    back: &'static str,
) {
    for (text, expected) in rows {
        let place = place_of_parts(alloc, &(front, *text, 1, back, "", ""));
        assert!(rt; place == *expected, "{text}");
    }
}

/// Lines, and the place of the body of each.
const SPELLINGS: &[Row] = &[
    ("print  1", (2, 4)),
    ("print 1 ", (2, 4)),
    ("foo 1", (2, 5)),
    ("print", (2, 6)),
    ("print 1 2", (2, 7)),
    ("print 007", (2, 8)),
    ("sleep 1000000001", (2, 9)),
    ("let Q 1", (2, 10)),
    ("end", (3, 11)),
    ("print 1", (0, 0)),
];

#[test]
fn refused_spellings(rt: HostRuntime) {
    assert_places(&rt, rt.alloc(), "def main\n", SPELLINGS, "\nend\n");
}

/// Texts, and the place of each.
const WHOLE_TEXTS: &[Row] = &[
    ("", (1, 14)),
    ("# x\ndef main\n     print 1\n\nend\n", (0, 0)),
    ("def main\nend", (2, 3)),
    ("def main\n\tprint 1\nend\n", (2, 2)),
    ("def main\nprint 1\n", (2, 12)),
    ("def w\nend\n", (2, 14)),
    ("print 1\n", (1, 13)),
    ("Q <- spawn w\n", (1, 10)),
    ("x <- foo\n", (1, 5)),
    ("x <-\n", (1, 6)),
    ("x <- spawn w\n", (1, 13)),
    ("def main\nend\nevent e\n", (3, 13)),
    ("end\n", (1, 11)),
    ("def main\ntry\nend\nend\n", (3, 11)),
    ("def main\ntry\nfinally\nend\nend\n", (0, 0)),
    ("print 1\ndef main\nend\n", (1, 13)),
    ("def main\ndef f\nend\n", (2, 13)),
];

#[test]
fn whole_texts(rt: HostRuntime) {
    assert_places(&rt, rt.alloc(), "", WHOLE_TEXTS, "");
}

/// A head, a part and how often it is repeated, a middle, a tail that is repeated as often, and a rest.
type Parts = (
    &'static str,
    &'static str,
    u32,
    &'static str,
    &'static str,
    &'static str,
);

/// Appends the part so often.
fn push_repeated(text: &mut String, part: &str, count: u32) -> Result<(), AllocError> {
    for _ in 0..count {
        text.push_str(part)?;
    }
    Ok(())
}

/// Appends the text of these parts.
fn push_parts(text: &mut String, parts: &Parts) -> Result<(), AllocError> {
    let (head, part, count, middle, tail, rest) = *parts;
    text.push_str(head)?;
    push_repeated(text, part, count)?;
    text.push_str(middle)?;
    push_repeated(text, tail, count)?;
    text.push_str(rest)
}

/// The place of the text of these parts.
fn place_of_parts(alloc: Global, parts: &Parts) -> (u32, u8) {
    let mut text = String::new(alloc);
    match push_parts(&mut text, parts) {
        Ok(()) => place_of(parse(alloc, text.as_bytes())),
        Err(_) => (0, 255),
    }
}

/// Texts at both sides of each border, and the place of each.
const BORDERS: &[(Parts, (u32, u8))] = &[
    (
        ("def main\nprint 1\nend\n#", "x", 1048553, "\n", "", ""),
        (0, 0),
    ),
    (
        ("def main\nprint 1\nend\n#", "x", 1048554, "\n", "", ""),
        (4, 1),
    ),
    (
        ("profile 2\ndef main\nend\n#", "x", 1048576, "\n", "", ""),
        (4, 1),
    ),
    (
        (
            "profile 3\ndef main\nprint 1\nend\n#",
            "x",
            16777183,
            "\n",
            "",
            "",
        ),
        (0, 0),
    ),
    (
        (
            "profile 3\ndef main\nprint 1\nend\n#",
            "x",
            16777184,
            "\n",
            "",
            "",
        ),
        (5, 26),
    ),
    // The line of the profile is ended by the byte 1048576, or by the one behind it.
    (
        ("#", "x", 1048564, "\nprofile 3\ndef main\nend\n", "", ""),
        (0, 0),
    ),
    (
        ("#", "x", 1048565, "\nprofile 3\ndef main\nend\n", "", ""),
        (2, 1),
    ),
    (
        ("profile  3\ndef main\nend\n#", "x", 1048576, "\n", "", ""),
        (4, 1),
    ),
    (
        ("def main\n", "if true\n", 31, "print 1\n", "end\n", "end\n"),
        (0, 0),
    ),
    (
        ("def main\n", "if true\n", 32, "print 1\n", "end\n", "end\n"),
        (33, 21),
    ),
    (
        ("def main\nprint ", "not ", 31, "true\nend\n", "", ""),
        (0, 0),
    ),
    (
        ("def main\nprint ", "not ", 32, "true\nend\n", "", ""),
        (2, 21),
    ),
    (
        ("def main\nprint list 64", " 1", 64, "\nend\n", "", ""),
        (0, 0),
    ),
    (
        ("def main\nprint list 65", " 1", 65, "\nend\n", "", ""),
        (2, 9),
    ),
    (("def main\nlet ", "a", 24, " 1\nend\n", "", ""), (0, 0)),
    (("def main\nlet ", "a", 25, " 1\nend\n", "", ""), (2, 10)),
    (
        (
            "def main\nprint 9223372036854775807\nend\n",
            "",
            0,
            "",
            "",
            "",
        ),
        (0, 0),
    ),
    (
        (
            "def main\nprint 9223372036854775808\nend\n",
            "",
            0,
            "",
            "",
            "",
        ),
        (2, 9),
    ),
    (
        (
            "def main\nprint -9223372036854775808\nend\n",
            "",
            0,
            "",
            "",
            "",
        ),
        (0, 0),
    ),
    (
        (
            "def main\nprint -9223372036854775809\nend\n",
            "",
            0,
            "",
            "",
            "",
        ),
        (2, 9),
    ),
];

#[test]
fn borders(rt: HostRuntime) {
    for (parts, expected) in BORDERS {
        assert!(rt;
            place_of_parts(rt.alloc(), parts) == *expected,
            "{} of a part",
            parts.2
        );
    }
}

/// Appends the printed form of what the text is read as; nothing of a text that is refused.
fn print_text(alloc: Global, text: &str, out: &mut Vec<u8>) -> Result<(), AllocError> {
    match parse(alloc, text.as_bytes()) {
        Ok(scenario) => {
            let printed = print(&scenario, out);
            drop(scenario);
            printed
        }
        Err(_) => Ok(()),
    }
}

/// Whether this is printed of the text.
fn is_printed(alloc: Global, text: &str, expected: &str) -> bool {
    let mut out = Vec::new(alloc);
    let is_begun = out.push(b'>').is_ok();
    let is_printed = print_text(alloc, text, &mut out).is_ok();
    is_begun && is_printed && out.strip_prefix(b">") == Some(expected.as_bytes())
}

/// Asserts that each text has its printed form.
pub(crate) fn assert_printed(rt: &impl Abort, alloc: Global, rows: &[(&str, &str)]) {
    for (text, expected) in rows {
        assert!(rt; is_printed(alloc, text, expected), "{text}");
    }
}

/// Texts, and the printed form of each.
const PRINTED: &[(&str, &str)] = &[
    (
        "# x\ndef main\n     print 1\n\nend\n",
        "def main\n  print 1\nend\n",
    ),
    (
        "event e\nqueue q join none\nrawdef r v\nend\ndef f p\nif < -5 at list 2 1 p 0\nx <- get self within 5\nelse\nkill x with Error 7 now\nend\ntry\nsleep 0\nexcept Timeout t\nfinally\ntimeout none silent\nspawn f not true\nend\nend\nend\ndef main\nend\n",
        "event e\nqueue q join none\nrawdef r v\nend\ndef f p\n  if < -5 at list 2 1 p 0\n    x <- get self within 5\n  else\n    kill x with Error 7 now\n  end\n  try\n    sleep 0\n  except Timeout t\n  finally\n    timeout none silent\n      spawn f not true\n    end\n  end\nend\ndef main\nend\n",
    ),
    ("x", ""),
];

#[test]
fn printed_forms(rt: HostRuntime) {
    assert_printed(&rt, rt.alloc(), PRINTED);
}

/// Reasons, and the text of each.
const REASONS: &[(u8, &str)] = &[
    (1, "text longer than 1048576 bytes"),
    (9, "number out of range"),
    (22, "too many declarations"),
    (26, "text longer than 16777216 bytes"),
];

#[test]
fn reasons_have_texts(rt: HostRuntime) {
    for (reason, text) in REASONS {
        assert!(rt; reason_text(*reason) == *text, "{reason}");
    }
}
