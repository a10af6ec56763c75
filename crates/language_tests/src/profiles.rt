//! Texts of all profiles.
#![tactic(auto)]

use crate::texts::{Row, assert_places, assert_printed};

/// First lines, and the place of the text that each begins.
const FIRST_LINES: &[Row] = &[
    ("profile 2", (0, 0)),
    ("# a comment\n\n  profile 2", (0, 0)),
    ("profile", (1, 6)),
    ("profile 1", (1, 9)),
    ("profile 3", (0, 0)),
    ("# a comment\n\n  profile 3", (0, 0)),
    ("profile 4", (1, 9)),
    ("profile -2", (1, 9)),
    ("profile 9999999999999999999999", (1, 9)),
    ("profile -0", (1, 8)),
    ("profile 02", (1, 8)),
    ("profile 2x", (1, 8)),
    ("profile x", (1, 8)),
    ("profile 3 4", (1, 7)),
    ("profile 4 5", (1, 9)),
    ("profile 2 3", (1, 7)),
    ("profile <- x", (1, 10)),
    ("profile  2", (1, 4)),
];

#[test]
fn first_lines_that_name_a_profile(rt: HostRuntime) {
    assert_places(&rt, rt.alloc(), "", FIRST_LINES, "\ndef main\nend\n");
}

/// Texts with a profile behind their first line, and the place of each.
const LATER_LINES: &[Row] = &[
    ("event e\nprofile 2\ndef main\nend\n", (2, 13)),
    ("profile 2\nprofile 2\ndef main\nend\n", (2, 13)),
    ("profile 2\nprofile 3\ndef main\nend\n", (2, 13)),
    ("def main\nprofile 2\nend\n", (2, 13)),
    ("def main\nend\nprofile 2\n", (3, 13)),
    ("def main\nprofile  2\nend\n", (2, 4)),
    ("def main\nprofile <- x\nend\n", (2, 10)),
    ("event e\nprofile <- x\ndef main\nend\n", (2, 10)),
    ("profile 2\n", (1, 14)),
];

#[test]
fn later_lines_that_name_a_profile(rt: HostRuntime) {
    assert_places(&rt, rt.alloc(), "", LATER_LINES, "");
}

/// Texts of profiles 1 and 2 with words of the later one where they are refused, and the place of each.
const WORDS: &[Row] = &[
    ("channel c\ndef main\nend\n", (1, 5)),
    ("def main\nchannel c\nend\n", (2, 5)),
    ("cput c 1\ndef main\nend\n", (1, 5)),
    ("def main\nx <- cget c\nend\n", (2, 5)),
    ("queue q fifo 1\ndef main\nqshut q\nend\n", (3, 5)),
    ("def main\nlet channel 1\nend\n", (2, 10)),
    ("profile 2\ndef main\nchannel c\nend\n", (3, 13)),
    ("profile 2\ncput c 1\ndef main\nend\n", (2, 13)),
    ("profile 2\nx <- cget c\ndef main\nend\n", (2, 13)),
    ("profile 2\ndef main\nlet channel 1\nend\n", (3, 10)),
    ("profile 2\ndef main\ncput c\nend\n", (3, 6)),
    ("profile 2\ndef main\nx <- cget c now\nend\n", (3, 7)),
    ("profile 2\ndef main\nqshut q now\nend\n", (3, 7)),
    ("profile 2\nchannel c 1\ndef main\nend\n", (2, 7)),
];

#[test]
fn words_of_the_second_profile(rt: HostRuntime) {
    assert_places(&rt, rt.alloc(), "", WORDS, "");
}

/// A text of profile 3 has each statement of profile 2, and no other yet.
const THIRD: &[Row] = &[
    (
        "channel c\nqueue q join 2\ndef main\ncput c 1\nx <- cget c\nqshut q immediate\nend\n",
        (0, 0),
    ),
    (
        "def cancel gadd\nprint gadd\nend\ndef main\ngdrop <- spawn cancel 5\nend\n",
        (0, 0),
    ),
    ("def main\nsleep 1000000000\nend\n", (0, 0)),
    ("def main\nsleep 1000000001\nend\n", (3, 9)),
    ("def main\nsleep 9223372036854775808\nend\n", (3, 9)),
    ("def main\nlet channel 1\nend\n", (3, 10)),
    ("def main\nset Q\nend\n", (3, 10)),
    ("let n 0\ndef main\nend\n", (2, 13)),
    ("def main\ncancel 1\nend\n", (3, 5)),
];

#[test]
fn texts_of_the_third_profile(rt: HostRuntime) {
    assert_places(&rt, rt.alloc(), "profile 3\n", THIRD, "");
}

/// A text, and its printed form.
const LATER: &[(&str, &str)] = &[
    (
        "# both\n profile 2\nchannel c\nqueue q join 2\ndef main\ncput c 1\nx <- cget c\nqshut q\nqshut q immediate\nend\n",
        "profile 2\nchannel c\nqueue q join 2\ndef main\n  cput c 1\n  x <- cget c\n  qshut q\n  qshut q immediate\nend\n",
    ),
    (
        "# a\n  profile 3\nchannel c\ndef main\ncput c 1\nend\n",
        "profile 3\nchannel c\ndef main\n  cput c 1\nend\n",
    ),
];

#[test]
fn the_printed_form_names_a_later_profile(rt: HostRuntime) {
    assert_printed(&rt, rt.alloc(), LATER);
}
