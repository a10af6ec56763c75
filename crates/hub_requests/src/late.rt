//! What a wait gives where its time is over, and the numbers of Timeouts.
ghost use Rattle.std.specs.Prelude.{◌≡◌, ◌+◌, ◌<◌, ◌≤◌, ◌^◌, ◌++◌, ◌∷◌, [], length, OnOk, IfOk};
ghost use Rattle.hub_items.specs.Short.{IsShort};
ghost use Rattle.machine.specs.Waits.{done_ones, draws, drawn, late_outcome};
ghost use Rattle.gv_values.specs.declared.limits.TheConstants.{MOST_ELEMENTS};

use gv_values::{FaultKind, List, Outcome, PushRefusal, Scalar, Value};
use hub_state::Hub;
use machine::items::Waiting;
use std::alloc::{AllocError, Global};

/// Whether the wait draws the number of the Timeout that it raises.
pub fn draws(waiting: &Waiting) -> bool
    ensures { result ≡ draws waiting.now }
{
    match waiting {
        Waiting::Get(_) => true,
        Waiting::ResultGet(_) => true,
        _ => false,
    }
}

/// Draws a number, where the wait draws one.
pub fn draw(hub: &mut Hub, waiting: &Waiting) -> u32
    requires { hub.old.timeouts + 1 < 2 ^ 32 }
    ensures drawn { hub.new ≡ drawn waiting.now hub.old }
    ensures number { result ≡ hub.new.timeouts }
{
    if draws(waiting) {
        hub.count_timeout()
    } else {
        hub.timeouts()
    }
}

/// Appends a scalar to the list, which has room for it.
pub fn push_scalar(list: &mut List, scalar: Scalar) -> Result<(), AllocError>
    requires room { length list.old < MOST_ELEMENTS }
    ensures { OnOk result (list.new ≡ list.old ++ scalar ∷ []) }
{
    match list.push(scalar) {
        Ok(()) => Ok(()),
        // The requires says that there is room.
        Err(PushRefusal::Full) => unreachable!(),
        Err(PushRefusal::Memory) => Err(AllocError),
    }
}

/// Those of the greenlets that are Done, in order.
pub fn done_ones(alloc: Global, hub: &Hub, greenlets: &[u32]) -> Result<Outcome, AllocError>
    requires short { length greenlets.now ≤ MOST_ELEMENTS }
    ensures { IfOk result (λ outcome. outcome ≡ done_ones hub.now greenlets.now) }
{
    let mut done = List::new(alloc);
    for g in greenlets {
        if hub.is_done(*g) {
            push_scalar(&mut done, Scalar::Greenlet(*g))?;
        }
    }
    Ok(Outcome::Value(Value::List(done)))
}

/// What the wait gives where its time is over; `n` is the number of its Timeout. `AllocError`: memory is wanting.
pub fn late_outcome(
    alloc: Global,
    hub: &Hub,
    waiting: &Waiting,
    n: u32,
) -> Result<Outcome, AllocError>
    requires short { IsShort waiting.now }
    ensures { IfOk result (λ outcome. outcome ≡ late_outcome waiting.now n hub.now) }
{
    match waiting {
        Waiting::Get(_) => Ok(Outcome::Fault(FaultKind::Timeout(n))),
        Waiting::ResultGet(_) => Ok(Outcome::Fault(FaultKind::Timeout(n))),
        Waiting::JoinAll(greenlets, _) => Ok(done_ones(alloc, hub, greenlets.as_slice())?),
        Waiting::Event(_, _) => Ok(Outcome::Value(Value::Bool(false))),
        Waiting::Acquire(_) => Ok(Outcome::Value(Value::Bool(false))),
        Waiting::Lock(_) => Ok(Outcome::Value(Value::Bool(false))),
        Waiting::Tasks(_) => Ok(Outcome::Value(Value::Bool(false))),
        Waiting::Put(_, _) => Ok(Outcome::Fault(FaultKind::Full)),
        Waiting::Take(_) => Ok(Outcome::Fault(FaultKind::Empty)),
        Waiting::Peek(_) => Ok(Outcome::Fault(FaultKind::Empty)),
        _ => Ok(Outcome::Value(Value::Nothing)),
    }
}
