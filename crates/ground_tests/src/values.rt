//! Arithmetic, classes, names, lists, and the texts of values.
#![tactic(auto)]

use gv_values::arithmetic::arith;
use gv_values::digits::{are_digits, is_plain_number, same_bytes};
use gv_values::{
    Arith, Class, FaultKind, List, Name, Outcome, PushRefusal, Scalar, Value, Whom, decimal_text,
    fault_text, int_text, outcome_text, value_text, whom_text,
};
use std::alloc::{AllocError, Global};

/// Operations, and what each comes to.
const SUMS: &[(Arith, i64, i64, Result<i64, FaultKind>)] = &[
    (Arith::Div, -7, 2, Ok(-4)),
    (Arith::Rem, -7, 2, Ok(1)),
    (Arith::Div, 7, -2, Ok(-4)),
    (Arith::Rem, 7, -2, Ok(-1)),
    (Arith::Add, i64::MAX, 1, Err(FaultKind::OverflowError)),
    (Arith::Sub, 3, 5, Ok(-2)),
    (Arith::Mul, 3, -5, Ok(-15)),
    (Arith::Div, i64::MIN, -1, Err(FaultKind::OverflowError)),
    (Arith::Rem, i64::MIN, -1, Ok(0)),
    (Arith::Div, 1, 0, Err(FaultKind::ZeroDivisionError)),
];

#[test]
fn floors_and_overflows(rt: HostRuntime) {
    for (op, a, b, wanted) in SUMS {
        assert!(rt; arith(*op, *a, *b) == *wanted, "{op:?} {a} {b}");
    }
}

/// Classes, and whether each catches a fault.
const CAUGHT: &[(Class, FaultKind, bool)] = &[
    (Class::Any, FaultKind::GreenletExit, true),
    (Class::Exception, FaultKind::Error(3), true),
    (Class::Exception, FaultKind::Timeout(1), false),
    (Class::Exception, FaultKind::GreenletExit, false),
    (Class::Timeout, FaultKind::Timeout(7), true),
    (Class::Error, FaultKind::Timeout(7), false),
];

#[test]
fn exception_passes_timeouts_and_kills(rt: HostRuntime) {
    for (class, fault, catches) in CAUGHT {
        assert!(rt; class.catches(*fault) == *catches, "{class:?} {fault:?}");
    }
}

/// Texts, and whether each is a name.
const NAMES: &[(&str, bool)] = &[
    ("a", true),
    ("w_2", true),
    ("abcdefghijklmnopqrstuvwx", true),
    ("", false),
    ("2w", false),
    ("_w", false),
    ("wW", false),
    ("abcdefghijklmnopqrstuvwxy", false),
];

/// Whether the text is a name that has it as its bytes.
fn is_name(text: &str) -> bool {
    match Name::new(text.as_bytes()) {
        Some(name) => name.bytes() == text.as_bytes(),
        None => false,
    }
}

#[test]
fn names_have_one_form(rt: HostRuntime) {
    for (text, is) in NAMES {
        assert!(rt; is_name(text) == *is, "{text}");
    }
}

/// A list of so many integers from 0 on.
fn counted(alloc: Global, count: i64) -> Result<List, PushRefusal> {
    let mut list = List::new(alloc);
    for i in 0..count {
        list.push(Scalar::Int(i))?;
    }
    Ok(list)
}

/// Whether the list takes no scalar more, and 63 is its last.
fn is_full(list: &mut List) -> bool {
    list.push(Scalar::Nothing) == Err(PushRefusal::Full)
        && (list.get(63), list.get(64)) == (Some(Scalar::Int(63)), None)
}

/// Whether the value equals its copy, which is no scalar.
fn is_copied(alloc: Global, value: &Value) -> Result<bool, AllocError> {
    let again = value.copy(alloc)?;
    Ok(value.equals(&again) && again.scalar() == None)
}

/// Whether a list of 64 scalars is full, and equals its copy.
fn ends_at_64(alloc: Global) -> Result<bool, PushRefusal> {
    let mut list = counted(alloc, 64)?;
    let is_full = is_full(&mut list);
    let value = Value::List(list);
    let is_copied = is_copied(alloc, &value) == Ok(true);
    drop(value);
    Ok(is_full && is_copied)
}

/// Whether the values of the two scalars differ.
fn differ(a: Scalar, b: Scalar) -> bool {
    let a = Value::from(a);
    let b = Value::from(b);
    let differ = !a.equals(&b);
    drop(a);
    drop(b);
    differ
}

#[test]
fn lists_end_at_64(rt: HostRuntime) {
    assert!(rt; ends_at_64(rt.alloc()) == Ok(true));
    assert!(rt; differ(Scalar::Int(1), Scalar::Bool(true)));
}

fn list_of(alloc: Global, scalars: &[Scalar]) -> Result<Value, PushRefusal> {
    let mut list = List::new(alloc);
    for scalar in scalars {
        list.push(*scalar)?;
    }
    Ok(Value::List(list))
}

/// Whether the value is shown so.
fn is_shown(alloc: Global, value: Value, wanted: &str) -> bool {
    let mut out = Vec::new(alloc);
    let is_whole = value_text(&value, &mut out).is_ok();
    drop(value);
    is_whole && out.as_slice() == wanted.as_bytes()
}

/// Values, and how they are shown.
const SHOWN: &[(Scalar, &str)] = &[
    (Scalar::Nothing, "none"),
    (Scalar::Bool(false), "false"),
    (Scalar::Int(i64::MIN), "-9223372036854775808"),
    (Scalar::Job(4294967295), "j4294967295"),
];

/// Lists, and how they are shown.
const SHOWN_LISTS: &[(&[Scalar], &str)] = &[
    (&[], "[]"),
    (
        &[
            Scalar::Int(6),
            Scalar::Fault(FaultKind::Error(-3)),
            Scalar::Greenlet(0),
            Scalar::Bool(true),
        ],
        "[6, Error(-3), g0, true]",
    ),
];

/// Whether the list of these scalars is shown so.
fn is_list_shown(alloc: Global, scalars: &[Scalar], wanted: &str) -> bool {
    match list_of(alloc, scalars) {
        Ok(list) => is_shown(alloc, list, wanted),
        Err(_) => false,
    }
}

#[test]
fn shows_values(rt: HostRuntime) {
    for (scalar, text) in SHOWN {
        assert!(rt; is_shown(rt.alloc(), Value::from(*scalar), text), "{text}");
    }
    for (scalars, text) in SHOWN_LISTS {
        assert!(rt; is_list_shown(rt.alloc(), scalars, text), "{text}");
    }
}

/// Writes the copy of an outcome.
fn push_copy(alloc: Global, outcome: Outcome, out: &mut Vec<u8>) -> Result<(), AllocError> {
    let copied = outcome.copy(alloc);
    drop(outcome);
    let copy = copied?;
    let pushed = outcome_text(&copy, out);
    drop(copy);
    pushed
}

/// Writes a fault, the copies of two outcomes, a job and two numbers, which blanks part.
fn push_ends(alloc: Global, out: &mut Vec<u8>) -> Result<(), AllocError> {
    fault_text(FaultKind::Timeout(1), out)?;
    out.push(b' ')?;
    push_copy(
        alloc,
        Outcome::Value(Value::Fault(FaultKind::GreenletExit)),
        out,
    )?;
    out.push(b' ')?;
    push_copy(alloc, Outcome::Fault(FaultKind::LoopExit), out)?;
    out.push(b' ')?;
    whom_text(Whom::Job(3), out)?;
    out.push(b' ')?;
    decimal_text(0, out)?;
    out.push(b' ')?;
    int_text(-10, out)
}

#[test]
fn shows_ends_and_faults(rt: HostRuntime) {
    let mut out = Vec::new(rt.alloc());
    assert!(rt; push_ends(rt.alloc(), &mut out).is_ok());
    let wanted: &[u8] = b"Timeout(1) value GreenletExit fault LoopExit j3 0 -10";
    assert!(rt; out.as_slice() == wanted);
}

/// Texts, and whether each is a number in its one spelling.
const NUMBERS: &[(&str, bool)] = &[
    ("0", true),
    ("7", true),
    ("10", true),
    ("18446744073709551616", true),
    ("", false),
    ("00", false),
    ("07", false),
    ("-1", false),
    ("+1", false),
    ("1a", false),
];

#[test]
fn numbers_have_one_spelling(rt: HostRuntime) {
    for (text, is) in NUMBERS {
        assert!(rt; is_plain_number(text.as_bytes()) == *is, "{text}");
    }
    assert!(rt; are_digits(b"007") && !are_digits(b"0x7"));
    assert!(rt; same_bytes(b"main", b"main") && !same_bytes(b"main", b"mai"));
}
