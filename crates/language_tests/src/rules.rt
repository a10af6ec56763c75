//! Scenarios that keep the rules, and scenarios that break one.
#![tactic(auto)]

use crate::texts::{Row, place_of};
use scenario_check::{Checked, check};
use scenario_lang::{ParseRefusal, parse};
use std::alloc::Global;

/// The scenario of a text that keeps the rules.
fn checked(alloc: Global, text: &str) -> Result<Checked, ParseRefusal> {
    check(alloc, parse(alloc, text.as_bytes())?)
}

/// Texts, and the place of each.
const ROWS: &[Row] = &[
    ("event e\ndef main\nset e\nend\n", (0, 0)),
    ("event e\ndef main\nset f\nend\n", (3, 15)),
    ("def main\nprint x\nend\n", (2, 15)),
    ("event e\nevent e\ndef main\nend\n", (2, 16)),
    ("group e\ndef main\nset e\nend\n", (3, 17)),
    ("def w n\nend\ndef main\nspawn w\nend\n", (4, 18)),
    ("rawdef r v\nsleep 0\nend\ndef main\nend\n", (2, 19)),
    (
        "profile 2\nchannel c\nqueue q join 2\ndef main\ncput c 1\nx <- cget c\nqshut q immediate\nend\n",
        (0, 0),
    ),
    (
        "profile 2\nqueue q join 2\ndef main\ncput q 1\nend\n",
        (4, 17),
    ),
    (
        "profile 2\nqueue q join 2\ndef main\nx <- cget q\nend\n",
        (4, 17),
    ),
    ("profile 2\nchannel c\ndef main\nqshut c\nend\n", (4, 17)),
    ("profile 3\nqueue q fifo 1\ndef main\nset q\nend\n", (4, 17)),
    (
        "profile 3\nqueue q fifo 1\ndef main\nprint counter q\nend\n",
        (4, 17),
    ),
    ("profile 3\ndef w\nend\ndef main\nprint w\nend\n", (5, 17)),
    ("profile 3\ndef w\nend\ndef main\nset w\nend\n", (5, 17)),
    ("profile 3\ndef main\nset x\nend\n", (3, 15)),
    ("profile 3\nevent e\ndef main\nlet e 1\nend\n", (4, 17)),
    ("profile 2\ndef main\ncput c 1\nend\n", (3, 15)),
    (
        "profile 2\nchannel c\nrawdef r v\ncput c 1\nend\ndef main\nend\n",
        (4, 19),
    ),
];

#[test]
fn taken_and_refused(rt: HostRuntime) {
    for (text, expected) in ROWS {
        assert!(rt; place_of(checked(rt.alloc(), text)) == *expected, "{text}");
    }
}
