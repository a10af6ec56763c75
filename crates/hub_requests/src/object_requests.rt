//! Requests on events, results, semaphores and locks.
ghost use Rattle.std.specs.Prelude.{◌≡◌, unwrap_or, IfOk};
ghost use Rattle.std.specs.Option.{option_copied};
ghost use Rattle.machine.specs.Objects.{no_object, sets_of};
ghost use Rattle.machine.specs.Request.{acquires, performs};
ghost use Rattle.machine.specs.State.{State as AnyState};
ghost use Rattle.machine.specs.declared.request.Request.{Request as Asked};
ghost use Rattle.hub_objects.specs.Releases.{refused};
ghost use Rattle.machine_rooms.specs.Rooms.{HasRoom, room_of_move};
ghost use Rattle.hub_requests.specs.Making.{MayMake};
ghost use Rattle.hub_requests.specs.Naming.{IsObject};
ghost use Rattle.hub_requests.specs.Performing.{performed_of};

use crate::operands::fault_of;
use crate::performed::{Performed, done, raises};
use crate::waits::come_to_wait;
use gv_values::{FaultKind, Outcome, Value};
use hub_objects::Change;
use hub_state::Hub;
use machine::items::Waiting;
use machine::state::Object;
use scenario_tree::Wait;
use std::alloc::{AllocError, Global};

/// Sets the event's flag, and counts the set for those who wait for one. The answer is none.
#[tactic(auto, unfolding(machine::specs::Request::performs))]
pub fn set_event(hub: &mut Hub, g: u32, o: u32) -> Performed
    requires { HasRoom room_of_move hub.old }
    ensures { performs (Asked.Set o) g hub.old ≡ performed_of result hub.new }
{
    hub.change(o, Change::Flag(true));
    done()
}

/// Clears the event's flag. The answer is none.
#[tactic(auto, unfolding(machine::specs::Request::performs))]
pub fn clear_event(hub: &mut Hub, g: u32, o: u32) -> Performed
    ensures { performs (Asked.Clear o) g hub.old ≡ performed_of result hub.new }
{
    hub.change(o, Change::Flag(false));
    done()
}

/// How many times the event was set.
fn sets_of(object: Option<&Object>) -> u64
    ensures { result ≡ sets_of (unwrap_or (option_copied object.entry) no_object) }
{
    match object {
        Some(Object::Event(_, sets)) => *sets,
        _ => 0,
    }
}

/// Waits for a set of the event.
#[tactic(auto, unfolding(machine::specs::Request::performs))]
pub fn wait_for_event(
    alloc: Global,
    hub: &mut Hub,
    g: u32,
    o: u32,
    how: Wait,
) -> Result<Performed, AllocError>
    requires may_make { MayMake g hub.old }
    requires named { IsObject hub.old.scenario o }
    requires room { HasRoom room_of_move hub.old }
    ensures { IfOk result (λ p. performs (Asked.WaitEvent o how) g hub.old ≡ performed_of p hub.new) }
{
    let sets = sets_of(hub.object(o));
    Ok(come_to_wait(alloc, hub, g, Waiting::Event(o, sets), how)?)
}

/// Puts a value into the result.
#[tactic(auto, unfolding(machine::specs::Request::performs))]
pub fn set_result(hub: &mut Hub, g: u32, o: u32, value: Value) -> Performed
    ensures { performs (Asked.ResultSet o value) g hub.old ≡ performed_of result hub.new }
{
    hub.change(o, Change::Put(Outcome::Value(value)));
    done()
}

/// Puts a fault into the result.
#[tactic(auto, unfolding(machine::specs::Request::performs))]
pub fn fail_result(hub: &mut Hub, g: u32, o: u32, value: Value) -> Performed
    ensures { performs (Asked.ResultFail o value) g hub.old ≡ performed_of result hub.new }
{
    match fault_of(value) {
        None => raises(FaultKind::TypeError),
        Some(kind) => {
            hub.change(o, Change::Put(Outcome::Fault(kind)));
            done()
        }
    }
}

/// Waits for what is put into the result.
#[tactic(auto, unfolding(machine::specs::Request::performs))]
pub fn get_result(
    alloc: Global,
    hub: &mut Hub,
    g: u32,
    o: u32,
    how: Wait,
) -> Result<Performed, AllocError>
    requires may_make { MayMake g hub.old }
    requires named { IsObject hub.old.scenario o }
    requires room { HasRoom room_of_move hub.old }
    ensures { IfOk result (λ p. performs (Asked.ResultGet o how) g hub.old ≡ performed_of p hub.new) }
{
    Ok(come_to_wait(alloc, hub, g, Waiting::ResultGet(o), how)?)
}

/// Waits until something is put into the result.
#[tactic(auto, unfolding(machine::specs::Request::performs))]
pub fn wait_for_result(
    alloc: Global,
    hub: &mut Hub,
    g: u32,
    o: u32,
    how: Wait,
) -> Result<Performed, AllocError>
    requires may_make { MayMake g hub.old }
    requires named { IsObject hub.old.scenario o }
    requires room { HasRoom room_of_move hub.old }
    ensures { IfOk result (λ p. performs (Asked.ResultWait o how) g hub.old ≡ performed_of p hub.new) }
{
    Ok(come_to_wait(alloc, hub, g, Waiting::ResultWait(o), how)?)
}

/// The object is the lock, and else a semaphore.
fn waiting_for(object: Option<&Object>, o: u32) -> Waiting
    ensures { result ≡ acquires o (unwrap_or (option_copied object.entry) no_object) }
{
    match object {
        Some(Object::Lock(_, _)) => Waiting::Lock(o),
        _ => Waiting::Acquire(o),
    }
}

/// Waits for a unit of a semaphore, or for a lock.
#[tactic(auto, using(crate::proofs::Named::acquired_there, crate::proofs::Named::acquired_short, crate::proofs::Named::acquired_said), unfolding(machine::specs::Request::performs))]
pub fn acquire(
    alloc: Global,
    hub: &mut Hub,
    g: u32,
    o: u32,
    how: Wait,
) -> Result<Performed, AllocError>
    requires may_make { MayMake g hub.old }
    requires named { IsObject hub.old.scenario o }
    requires room { HasRoom room_of_move hub.old }
    ensures { IfOk result (λ p. performs (Asked.Acquire o how) g hub.old ≡ performed_of p hub.new) }
{
    let waiting = waiting_for(hub.object(o), o);
    Ok(come_to_wait(alloc, hub, g, waiting, how)?)
}

/// The answer to what was done, or refused by a fault.
pub fn refused(fault: Option<FaultKind>) -> Performed
    ensures { (s : AnyState) → performed_of result s ≡ refused fault s }
{
    match fault {
        None => done(),
        Some(kind) => raises(kind),
    }
}

/// Gives a unit or a lock back.
#[tactic(auto, unfolding(machine::specs::Request::performs))]
pub fn release(hub: &mut Hub, g: u32, o: u32) -> Performed
    requires { HasRoom room_of_move hub.old }
    ensures { performs (Asked.Release o) g hub.old ≡ performed_of result hub.new }
{
    refused(hub.release(g, o))
}
