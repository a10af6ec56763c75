//! The texts of numbers, faults and values. Each call appends to the bytes that it is lent; where no memory is found,
//! these are as before.
ghost use Rattle.std.specs.Prelude.{◌≡◌, ◌++◌, take, length, OnOk, OnErr};
ghost use Rattle.gv_values.specs.Fronts.{BeginsWith};
ghost use Rattle.gv_values.specs.Texts.{decimal, int_text, fault_text, scalar_text, scalars_text, value_text, outcome_text, whom_text};

use crate::fault::FaultKind;
use crate::scalar::Scalar;
use crate::value::{Outcome, Value, Whom};
use itoa::Buffer;
use std::alloc::AllocError;

/// Appends the number in decimal digits.
pub fn decimal_text(number: u64, out: &mut Vec<u8>) -> Result<(), AllocError>
    ensures ok { OnOk result (out.new.items ≡ out.old.items ++ decimal number) }
    ensures err { OnErr result (out.new.items ≡ out.old.items) }
{
    out.extend_from_slice(Buffer::new().format(number).as_bytes())
}

/// Appends the integer in decimal digits, with `-` before one below 0.
pub fn int_text(integer: i64, out: &mut Vec<u8>) -> Result<(), AllocError>
    ensures ok { OnOk result (out.new.items ≡ out.old.items ++ int_text integer) }
    ensures err { OnErr result (out.new.items ≡ out.old.items) }
{
    out.extend_from_slice(Buffer::new().format(integer).as_bytes())
}

/// Appends the fault's name, with its number where it has one.
#[tactic(auto, using(crate::proofs::Fronts::fronts))]
pub fn fault_text(kind: FaultKind, out: &mut Vec<u8>) -> Result<(), AllocError>
    ensures ok { OnOk result (out.new.items ≡ out.old.items ++ fault_text kind) }
    ensures err { OnErr result (out.new.items ≡ out.old.items) }
{
    let start = out.len();
    let pushed = push_fault(kind, out);
    all_or_nothing(pushed, out, start)
}

/// Appends the value as a `print` line shows it.
#[tactic(auto, using(crate::proofs::Fronts::fronts))]
pub fn value_text(value: &Value, out: &mut Vec<u8>) -> Result<(), AllocError>
    ensures ok { OnOk result (out.new.items ≡ out.old.items ++ value_text value.now) }
    ensures err { OnErr result (out.new.items ≡ out.old.items) }
{
    let start = out.len();
    let pushed = push_value(value, out);
    all_or_nothing(pushed, out, start)
}

/// Appends how a greenlet ended, as an `end` line shows it.
#[tactic(auto, using(crate::proofs::Fronts::fronts))]
pub fn outcome_text(outcome: &Outcome, out: &mut Vec<u8>) -> Result<(), AllocError>
    ensures ok { OnOk result (out.new.items ≡ out.old.items ++ outcome_text outcome.now) }
    ensures err { OnErr result (out.new.items ≡ out.old.items) }
{
    let start = out.len();
    let pushed = push_outcome(outcome, out);
    all_or_nothing(pushed, out, start)
}

/// Appends a greenlet's or a job's handle.
#[tactic(auto, using(crate::proofs::Fronts::fronts))]
pub fn whom_text(whom: Whom, out: &mut Vec<u8>) -> Result<(), AllocError>
    ensures ok { OnOk result (out.new.items ≡ out.old.items ++ whom_text whom) }
    ensures err { OnErr result (out.new.items ≡ out.old.items) }
{
    let start = out.len();
    let pushed = push_whom(whom, out);
    all_or_nothing(pushed, out, start)
}

/// After a failure, takes off what was appended since `start`.
fn all_or_nothing(
    pushed: Result<(), AllocError>,
    out: &mut Vec<u8>,
    start: usize,
) -> Result<(), AllocError>
    ensures same { result ≡ pushed }
    ensures ok { OnOk pushed (out.new.items ≡ out.old.items) }
    ensures err { OnErr pushed (out.new.items ≡ take start out.old.items) }
{
    if pushed.is_err() {
        out.truncate(start);
    }
    pushed
}

#[tactic(auto, using(crate::proofs::Fronts::fronts))]
fn push_fault(kind: FaultKind, out: &mut Vec<u8>) -> Result<(), AllocError>
    ensures ok { OnOk result (out.new.items ≡ out.old.items ++ fault_text kind) }
    ensures err { OnErr result (BeginsWith out.new.items out.old.items) }
{
    match kind {
        FaultKind::GreenletExit => out.extend_from_slice(b"GreenletExit"),
        FaultKind::Timeout(number) => {
            out.extend_from_slice(b"Timeout(")?;
            decimal_text(u64::from(number), out)?;
            out.extend_from_slice(b")")
        }
        FaultKind::LoopExit => out.extend_from_slice(b"LoopExit"),
        FaultKind::Empty => out.extend_from_slice(b"Empty"),
        FaultKind::Full => out.extend_from_slice(b"Full"),
        FaultKind::ShutDown => out.extend_from_slice(b"ShutDown"),
        FaultKind::ValueError => out.extend_from_slice(b"ValueError"),
        FaultKind::RuntimeError => out.extend_from_slice(b"RuntimeError"),
        FaultKind::TypeError => out.extend_from_slice(b"TypeError"),
        FaultKind::OverflowError => out.extend_from_slice(b"OverflowError"),
        FaultKind::ZeroDivisionError => out.extend_from_slice(b"ZeroDivisionError"),
        FaultKind::InvalidSwitch => out.extend_from_slice(b"InvalidSwitch"),
        FaultKind::Error(number) => {
            out.extend_from_slice(b"Error(")?;
            int_text(number, out)?;
            out.extend_from_slice(b")")
        }
    }
}

fn push_truth(truth: bool, out: &mut Vec<u8>) -> Result<(), AllocError>
    ensures ok { OnOk result (out.new.items ≡ out.old.items ++ scalar_text (Scalar.Bool truth)) }
    ensures err { OnErr result (out.new.items ≡ out.old.items) }
{
    if truth {
        out.extend_from_slice(b"true")
    } else {
        out.extend_from_slice(b"false")
    }
}

#[tactic(auto, using(crate::proofs::Fronts::fronts))]
fn push_whom(whom: Whom, out: &mut Vec<u8>) -> Result<(), AllocError>
    ensures ok { OnOk result (out.new.items ≡ out.old.items ++ whom_text whom) }
    ensures err { OnErr result (BeginsWith out.new.items out.old.items) }
{
    let (letter, number) = match whom {
        Whom::Greenlet(number) => (b'g', number),
        Whom::Job(number) => (b'j', number),
    };
    out.push(letter)?;
    decimal_text(u64::from(number), out)
}

#[tactic(auto, using(crate::proofs::Fronts::fronts))]
fn push_scalar(scalar: Scalar, out: &mut Vec<u8>) -> Result<(), AllocError>
    ensures ok { OnOk result (out.new.items ≡ out.old.items ++ scalar_text scalar) }
    ensures err { OnErr result (BeginsWith out.new.items out.old.items) }
{
    match scalar {
        Scalar::Nothing => out.extend_from_slice(b"none"),
        Scalar::Bool(truth) => push_truth(truth, out),
        Scalar::Int(integer) => int_text(integer, out),
        Scalar::Fault(kind) => push_fault(kind, out),
        Scalar::Greenlet(number) => push_whom(Whom::Greenlet(number), out),
        Scalar::Job(number) => push_whom(Whom::Job(number), out),
    }
}

#[tactic(auto, using(crate::proofs::Fronts::fronts))]
fn push_scalars(scalars: &[Scalar], out: &mut Vec<u8>) -> Result<(), AllocError>
    ensures ok { OnOk result (out.new.items ≡ out.old.items ++ scalars_text scalars.now) }
    ensures err { OnErr result (BeginsWith out.new.items out.old.items) }
{
    match scalars {
        [] => Ok(()),
        [only] => push_scalar(*only, out),
        [first, rest @ ..] => {
            push_scalar(*first, out)?;
            out.extend_from_slice(b", ")?;
            push_scalars(rest, out)
        }
    }
}

#[tactic(auto, using(crate::proofs::Fronts::fronts))]
fn push_value(value: &Value, out: &mut Vec<u8>) -> Result<(), AllocError>
    ensures ok { OnOk result (out.new.items ≡ out.old.items ++ value_text value.now) }
    ensures err { OnErr result (BeginsWith out.new.items out.old.items) }
{
    match value {
        Value::Nothing => out.extend_from_slice(b"none"),
        Value::Bool(truth) => push_truth(*truth, out),
        Value::Int(integer) => int_text(*integer, out),
        Value::Fault(kind) => push_fault(*kind, out),
        Value::Greenlet(number) => push_whom(Whom::Greenlet(*number), out),
        Value::Job(number) => push_whom(Whom::Job(*number), out),
        Value::List(list) => {
            out.extend_from_slice(b"[")?;
            push_scalars(list.scalars(), out)?;
            out.extend_from_slice(b"]")
        }
    }
}

#[tactic(auto, using(crate::proofs::Fronts::fronts))]
fn push_outcome(outcome: &Outcome, out: &mut Vec<u8>) -> Result<(), AllocError>
    ensures ok { OnOk result (out.new.items ≡ out.old.items ++ outcome_text outcome.now) }
    ensures err { OnErr result (BeginsWith out.new.items out.old.items) }
{
    match outcome {
        Outcome::Value(value) => {
            out.extend_from_slice(b"value ")?;
            push_value(value, out)
        }
        Outcome::Fault(kind) => {
            out.extend_from_slice(b"fault ")?;
            push_fault(*kind, out)
        }
    }
}
