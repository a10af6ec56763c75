//! Requests on raw greenlets.
ghost use Rattle.std.specs.Prelude.{◌≡◌, ◌==◌, IfOk};
ghost use Rattle.machine.specs.Hosts.{host_of};
ghost use Rattle.machine.specs.Request.{performs};
ghost use Rattle.machine.specs.declared.request.Request.{Request as Asked};
ghost use Rattle.hub_requests.specs.Performing.{performed_of};

use crate::making::make_greenlet;
use crate::operands::{any_greenlet, fault_operand, raw_greenlet};
use crate::performed::{Performed, done, raises};
use gv_values::{FaultKind, Outcome, Value};
use hub_state::Hub;
use scenario_tree::Items;
use std::alloc::{AllocError, Global};

/// Whether the two have one host.
fn share_host(hub: &Hub, g: u32, other: u32) -> bool
    ensures { result ≡ (host_of hub.now g == host_of hub.now other) }
{
    hub.host_of(g) == hub.host_of(other)
}

/// Makes a raw greenlet of the function, under the greenlet that is given, or else under the one that asks. The answer
/// is its handle; where the value is no greenlet it is a TypeError, and at one of another host an InvalidSwitch.
#[tactic(auto, unfolding(machine::specs::Request::performs))]
pub fn make_raw(
    alloc: Global,
    hub: &mut Hub,
    g: u32,
    function: u32,
    under: Option<Value>,
) -> Result<Performed, AllocError>
    ensures { IfOk result (λ p. performs (Asked.Raw function under) g hub.old ≡ performed_of p hub.new) }
{
    let Some(value) = under else {
        return Ok(make_greenlet(hub, true, g, function, Items::new(alloc))?);
    };
    let Some(parent) = any_greenlet(value) else {
        return Ok(raises(FaultKind::TypeError));
    };
    if !share_host(hub, g, parent) {
        return Ok(raises(FaultKind::InvalidSwitch));
    }
    Ok(make_greenlet(hub, true, parent, function, Items::new(alloc))?)
}

/// Switches to a greenlet with a value.
#[tactic(auto, unfolding(machine::specs::Request::performs))]
pub fn switch_to(hub: &mut Hub, g: u32, value: Value, input: Value) -> Result<Performed, AllocError>
    ensures { IfOk result (λ p. performs (Asked.Switch value input) g hub.old ≡ performed_of p hub.new) }
{
    let Some(target) = any_greenlet(value) else {
        return Ok(raises(FaultKind::TypeError));
    };
    if !share_host(hub, g, target) {
        return Ok(raises(FaultKind::InvalidSwitch));
    }
    Ok(Performed::Lands(target, Outcome::Value(input)))
}

/// Switches to a greenlet with a fault.
#[tactic(auto, unfolding(machine::specs::Request::performs))]
pub fn throw_to(
    hub: &mut Hub,
    g: u32,
    value: Value,
    fault: Option<Value>,
) -> Result<Performed, AllocError>
    ensures { IfOk result (λ p. performs (Asked.Throw value fault) g hub.old ≡ performed_of p hub.new) }
{
    let fault = fault_operand(fault);
    let Some(target) = any_greenlet(value) else {
        return Ok(raises(FaultKind::TypeError));
    };
    let Some(kind) = fault else {
        return Ok(raises(FaultKind::TypeError));
    };
    if !share_host(hub, g, target) {
        return Ok(raises(FaultKind::InvalidSwitch));
    }
    Ok(Performed::Lands(target, Outcome::Fault(kind)))
}

/// Gives a raw greenlet another parent.
#[tactic(auto, unfolding(machine::specs::Request::performs))]
pub fn set_parent(
    hub: &mut Hub,
    g: u32,
    value: Value,
    other: Value,
) -> Result<Performed, AllocError>
    ensures { IfOk result (λ p. performs (Asked.SetParent value other) g hub.old ≡ performed_of p hub.new) }
{
    let other = any_greenlet(other);
    let Some(child) = raw_greenlet(hub, value) else {
        return Ok(raises(FaultKind::TypeError));
    };
    let Some(parent) = other else {
        return Ok(raises(FaultKind::TypeError));
    };
    if !share_host(hub, g, child) {
        return Ok(raises(FaultKind::InvalidSwitch));
    }
    if !share_host(hub, g, parent) {
        return Ok(raises(FaultKind::InvalidSwitch));
    }
    if hub.is_above(child, parent) {
        return Ok(raises(FaultKind::ValueError));
    }
    hub.set_parent(child, parent);
    Ok(done())
}
