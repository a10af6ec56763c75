//! Texts at the limits, through the call.
use crate::calls::{PRINTED_ONE, Row, holds, padded};
use gv_values::decimal_text;
use std::alloc::{AllocError, Global};

const SPAWNS_WITHOUT_END: Row<'static> = Row {
    name: "a spawn without end",
    words: "run",
    input: b"def w\nend\ndef main\nwhile true\nspawn w\nend\nend\n",
    piece: 4096,
    failing: &[],
    room: 1000,
    err_room: 1000,
    status: 8,
    out: b"start g0 main\nstop no-greenlets turns 0 moves 40000\n",
    err: b"gvr: limit of greenlets\n",
};

#[test]
fn greenlet_limit(rt: HostRuntime) {
    assert!(rt; holds(rt.alloc(), &SPAWNS_WITHOUT_END) == Ok(true));
}

/// What a run leaves.
#[derive(Clone, Copy)]
struct Left {
    status: u8,
    out: &'static [u8],
    err: &'static [u8],
}

/// What a run of the text of one print leaves.
const ONE_PRINT: Left = Left {
    status: 0,
    out: PRINTED_ONE,
    err: b"",
};

/// What the refusal of a text leaves.
fn refusal(err: &'static [u8]) -> Left {
    Left {
        status: 3,
        out: b"",
        err,
    }
}

/// Whether a run of the text leaves this.
fn leaves(alloc: Global, text: &[u8], left: Left) -> Result<bool, AllocError> {
    let row = Row {
        name: "",
        words: "run",
        input: text,
        piece: 4096,
        failing: &[],
        room: 1000,
        err_room: 1000,
        status: left.status,
        out: left.out,
        err: left.err,
    };
    holds(alloc, &row)
}

/// Whether this text with so many bytes more in its last line leaves that.
fn remark_leaves(alloc: Global, text: &[u8], bytes: usize, left: Left) -> Result<bool, AllocError> {
    let text = padded(alloc, text, b'x', bytes, b"\n")?;
    leaves(alloc, &text, left)
}

#[test]
fn text_limit(rt: HostRuntime) {
    let text = b"def main\nprint 1\nend\n#";
    let longest = remark_leaves(rt.alloc(), text, 1048553, ONE_PRINT);
    assert!(rt; longest == Ok(true));
    let line = b"gvr: line 4: reason 1: text longer than 1048576 bytes\n";
    let longer = remark_leaves(rt.alloc(), text, 1048554, refusal(line));
    assert!(rt; longer == Ok(true));
}

#[test]
fn long_text_limit(rt: HostRuntime) {
    let text = b"profile 3\ndef main\nprint 1\nend\n#";
    let longest = remark_leaves(rt.alloc(), text, 16777183, ONE_PRINT);
    assert!(rt; longest == Ok(true));
    let line = b"gvr: line 5: reason 26: text longer than 16777216 bytes\n";
    let longer = remark_leaves(rt.alloc(), text, 16777184, refusal(line));
    assert!(rt; longer == Ok(true));
}

/// Appends lines so often, each time with another number between them.
fn push_numbered(
    text: &mut Vec<u8>,
    count: u64,
    front: &[u8],
    back: &[u8],
) -> Result<(), AllocError> {
    for number in 0..count {
        text.extend_from_slice(front)?;
        decimal_text(number, text)?;
        text.extend_from_slice(back)?;
    }
    Ok(())
}

/// Whether a text of the profile with so many objects and functions, main counted, leaves this.
fn declared_leaves(
    alloc: Global,
    profile: &[u8],
    objects: u64,
    functions: u64,
    left: Left,
) -> Result<bool, AllocError> {
    let mut text = Vec::new(alloc);
    text.extend_from_slice(profile)?;
    push_numbered(&mut text, objects, b"event e", b"\n")?;
    push_numbered(&mut text, functions.saturating_sub(1), b"def f", b"\nend\n")?;
    text.extend_from_slice(b"def main\nprint 1\nend\n")?;
    leaves(alloc, &text, left)
}

#[test]
fn limit_of_declarations(rt: HostRuntime) {
    let most = declared_leaves(rt.alloc(), b"profile 2\n", 256, 256, ONE_PRINT);
    assert!(rt; most == Ok(true));
    let objects = b"gvr: line 258: reason 22: too many declarations\n";
    let more = declared_leaves(rt.alloc(), b"profile 2\n", 257, 1, refusal(objects));
    assert!(rt; more == Ok(true));
    let functions = b"gvr: line 514: reason 22: too many declarations\n";
    let more = declared_leaves(rt.alloc(), b"profile 2\n", 0, 257, refusal(functions));
    assert!(rt; more == Ok(true));
}

#[test]
fn limit_of_declarations_in_profile_3(rt: HostRuntime) {
    let most = declared_leaves(rt.alloc(), b"profile 3\n", 20000, 20000, ONE_PRINT);
    assert!(rt; most == Ok(true));
    let objects = b"gvr: line 20002: reason 22: too many declarations\n";
    let more = declared_leaves(rt.alloc(), b"profile 3\n", 20001, 1, refusal(objects));
    assert!(rt; more == Ok(true));
    let functions = b"gvr: line 40002: reason 22: too many declarations\n";
    let more = declared_leaves(rt.alloc(), b"profile 3\n", 0, 20001, refusal(functions));
    assert!(rt; more == Ok(true));
}
