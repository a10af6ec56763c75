//! The kinds of operands. An operand goes where its kind is read, so that no exit of a request has to drop it.
ghost use Rattle.std.specs.Prelude.{◌≡◌, ◌≤◌, Some, IfOk, IfSome, length};
ghost use Rattle.machine.specs.Request.{plain_greenlet, plain_greenlets, plain_greenlet_list, fault_operand, whom_operand, any_greenlet, raw_greenlet, int_operand};
ghost use Rattle.hub_requests.specs.Operands.{plain_scalar};
ghost use Rattle.gv_values.specs.declared.limits.TheConstants.{MOST_ELEMENTS};

use gv_values::{FaultKind, Scalar, Value, Whom};
use hub_state::Hub;
use scenario_tree::Items;
use std::alloc::{AllocError, Global};

/// The greenlet of the handle, if it is one and not raw.
pub fn plain_greenlet(hub: &Hub, value: Value) -> Option<u32>
    ensures { result ≡ plain_greenlet hub.now value }
{
    match value {
        Value::Greenlet(g) => { if hub.is_raw(g) { None } else { Some(g) } }
        _ => None,
    }
}

/// The greenlet of the handle, if it is one and raw.
pub fn raw_greenlet(hub: &Hub, value: Value) -> Option<u32>
    ensures { result ≡ raw_greenlet hub.now value }
{
    match value {
        Value::Greenlet(g) => { if hub.is_raw(g) { Some(g) } else { None } }
        _ => None,
    }
}

/// The greenlet of the handle, if it is one.
pub fn any_greenlet(value: Value) -> Option<u32>
    ensures { result ≡ any_greenlet value }
{
    match value {
        Value::Greenlet(g) => Some(g),
        _ => None,
    }
}

/// The job, or the greenlet that is not raw.
pub fn whom_operand(hub: &Hub, value: Value) -> Option<Whom>
    ensures { result ≡ whom_operand hub.now value }
{
    match value {
        Value::Job(j) => Some(Whom::Job(j)),
        Value::Greenlet(g) => {
            if hub.is_raw(g) {
                None
            } else {
                Some(Whom::Greenlet(g))
            }
        }
        _ => None,
    }
}

/// The greenlet of the handle, if it is one and not raw.
fn plain_scalar(hub: &Hub, scalar: Scalar) -> Option<u32>
    ensures { result ≡ plain_scalar hub.now scalar }
{
    match scalar {
        Scalar::Greenlet(g) => { if hub.is_raw(g) { None } else { Some(g) } }
        _ => None,
    }
}

/// The greenlets of the list, if each is one that is not raw.
#[tactic(auto, using(crate::proofs::Listed::listed_more, crate::proofs::Listed::not_listed))]
fn plain_greenlets(
    alloc: Global,
    hub: &Hub,
    scalars: &[Scalar],
) -> Result<Option<Items<u32>>, AllocError>
    ensures greenlets { IfOk result (λ greenlets. greenlets ≡ plain_greenlets hub.now scalars.now) }
    ensures few { IfOk result (λ greenlets. IfSome greenlets (λ gs. length gs ≤ length scalars.now)) }
{
    let mut greenlets = Items::new(alloc);
    for scalar in scalars {
        match plain_scalar(hub, *scalar) {
            Some(g) => greenlets.push(g)?,
            None => return Ok(None),
        }
    }
    Ok(Some(greenlets))
}

/// The greenlets of the operand, if it is a list of such that are not raw.
pub fn plain_greenlet_list(
    alloc: Global,
    hub: &Hub,
    value: Value,
) -> Result<Option<Items<u32>>, AllocError>
    ensures greenlets { IfOk result (λ greenlets. greenlets ≡ plain_greenlet_list hub.now value) }
    ensures few { IfOk result (λ greenlets. IfSome greenlets (λ gs. length gs ≤ MOST_ELEMENTS)) }
{
    match value {
        Value::List(list) => Ok(plain_greenlets(alloc, hub, list.scalars())?),
        _ => Ok(None),
    }
}

/// The fault that stands after `with`, and GreenletExit without one.
pub fn fault_operand(value: Option<Value>) -> Option<FaultKind>
    ensures { result ≡ fault_operand value }
{
    match value {
        None => Some(FaultKind::GreenletExit),
        Some(Value::Fault(kind)) => Some(kind),
        Some(_) => None,
    }
}

/// The fault, if the operand is one.
pub fn fault_of(value: Value) -> Option<FaultKind>
    ensures { result ≡ fault_operand (Some value) }
{
    match value {
        Value::Fault(kind) => Some(kind),
        _ => None,
    }
}

/// The integer, if the operand is one.
pub fn int_operand(value: Value) -> Option<i64>
    ensures { result ≡ int_operand value }
{
    match value {
        Value::Int(z) => Some(z),
        _ => None,
    }
}
