//! Requests on greenlets: prints, new greenlets, waits for ends, kills, links.
ghost use Rattle.std.specs.Prelude.{◌≡◌, ◌≤◌, min, unwrap_or, IfOk};
ghost use Rattle.machine.specs.Request.{performs};
ghost use Rattle.machine.specs.declared.request.Request.{Request as Asked};
ghost use Rattle.machine_rooms.specs.Rooms.{HasRoom, room_of_move};
ghost use Rattle.hub_requests.specs.Making.{MayMake};
ghost use Rattle.hub_requests.specs.Performing.{performed_of};
ghost use Rattle.gv_values.specs.declared.limits.TheConstants.{MOST_ELEMENTS};

use crate::kills::{Killing, kill_greenlets};
use crate::links::{drop_link, link_to};
use crate::making::{make_greenlet, spawn_greenlet, start_greenlet};
use crate::operands::{
    fault_operand, int_operand, plain_greenlet, plain_greenlet_list, whom_operand,
};
use crate::performed::{Performed, done, raises};
use crate::quick::say_print;
use crate::waits::come_to_wait;
use gv_values::{FaultKind, LinkKind, Value, Whom};
use hub_state::Hub;
use machine::arguments::Arguments;
use machine::items::Waiting;
use scenario_tree::{Items, Wait};
use std::alloc::{AllocError, Global};
use trace_text::Awaited;

/// Says what is printed.
#[tactic(auto, unfolding(machine::specs::Request::performs))]
pub fn print_value(hub: &mut Hub, g: u32, value: Value) -> Result<Performed, AllocError>
    ensures { IfOk result (λ p. performs (Asked.Print value) g hub.old ≡ performed_of p hub.new) }
{
    say_print(hub, g, value)?;
    Ok(done())
}

/// Makes a greenlet that starts.
#[tactic(auto, unfolding(machine::specs::Request::performs))]
pub fn spawn_now(
    hub: &mut Hub,
    g: u32,
    function: u32,
    arguments: Arguments,
) -> Result<Performed, AllocError>
    requires may_make { MayMake g hub.old }
    requires room { HasRoom room_of_move hub.old }
    ensures { IfOk result (λ p. performs (Asked.Spawn function arguments) g hub.old ≡ performed_of p hub.new) }
{
    Ok(spawn_greenlet(hub, g, function, arguments.into_values(), None)?)
}

/// Makes a greenlet that starts after so many milliseconds.
#[tactic(auto, unfolding(machine::specs::Request::performs))]
pub fn spawn_later(
    hub: &mut Hub,
    g: u32,
    time: u32,
    function: u32,
    arguments: Arguments,
) -> Result<Performed, AllocError>
    requires may_make { MayMake g hub.old }
    requires room { HasRoom room_of_move hub.old }
    ensures { IfOk result (λ p. performs (Asked.SpawnLater time function arguments) g hub.old ≡ performed_of p hub.new) }
{
    let from = hub.deadline_after(time);
    Ok(spawn_greenlet(hub, g, function, arguments.into_values(), Some(from))?)
}

/// Makes a greenlet that is not started.
#[tactic(auto, unfolding(machine::specs::Request::performs))]
pub fn make_new(
    hub: &mut Hub,
    g: u32,
    function: u32,
    arguments: Arguments,
) -> Result<Performed, AllocError>
    ensures { IfOk result (λ p. performs (Asked.New function arguments) g hub.old ≡ performed_of p hub.new) }
{
    Ok(make_greenlet(hub, false, 0, function, arguments.into_values())?)
}

/// Gives the greenlet of the handle a start, where it is New and has none. The answer is none, or a TypeError where the
/// value is no handle of a greenlet that is not raw.
#[tactic(auto, unfolding(machine::specs::Request::performs))]
pub fn start_handle(hub: &mut Hub, g: u32, value: Value) -> Result<Performed, AllocError>
    requires may_make { MayMake g hub.old }
    requires room { HasRoom room_of_move hub.old }
    ensures { IfOk result (λ p. performs (Asked.Start value) g hub.old ≡ performed_of p hub.new) }
{
    match plain_greenlet(hub, value) {
        None => Ok(raises(FaultKind::TypeError)),
        Some(target) => {
            start_greenlet(hub, target)?;
            Ok(done())
        }
    }
}

/// Lets the greenlet sleep for so many milliseconds.
#[tactic(auto, unfolding(machine::specs::Request::performs))]
pub fn sleep_for(alloc: Global, hub: &mut Hub, g: u32, time: u32) -> Result<Performed, AllocError>
    requires may_make { MayMake g hub.old }
    requires room { HasRoom room_of_move hub.old }
    ensures { IfOk result (λ p. performs (Asked.Sleep time) g hub.old ≡ performed_of p hub.new) }
{
    let until = hub.deadline_after(time);
    Ok(come_to_wait(alloc, hub, g, Waiting::Sleep(until), Wait::Block)?)
}

/// Waits for the end of a greenlet.
#[tactic(auto, unfolding(machine::specs::Request::performs))]
pub fn join_handle(
    alloc: Global,
    hub: &mut Hub,
    g: u32,
    value: Value,
    how: Wait,
) -> Result<Performed, AllocError>
    requires may_make { MayMake g hub.old }
    requires room { HasRoom room_of_move hub.old }
    ensures { IfOk result (λ p. performs (Asked.Join value how) g hub.old ≡ performed_of p hub.new) }
{
    match plain_greenlet(hub, value) {
        None => Ok(raises(FaultKind::TypeError)),
        Some(target) => Ok(come_to_wait(alloc, hub, g, Waiting::Join(target), how)?),
    }
}

/// Waits for what a greenlet or job ends with.
#[tactic(auto, unfolding(machine::specs::Request::performs))]
pub fn get_outcome(
    alloc: Global,
    hub: &mut Hub,
    g: u32,
    value: Value,
    how: Wait,
) -> Result<Performed, AllocError>
    requires may_make { MayMake g hub.old }
    requires room { HasRoom room_of_move hub.old }
    ensures { IfOk result (λ p. performs (Asked.Get value how) g hub.old ≡ performed_of p hub.new) }
{
    match whom_operand(hub, value) {
        None => Ok(raises(FaultKind::TypeError)),
        Some(whom) => Ok(come_to_wait(alloc, hub, g, Waiting::Get(whom), how)?),
    }
}

/// Kills a greenlet, and waits for its end.
#[tactic(auto, unfolding(machine::specs::Request::performs))]
pub fn kill_one(
    alloc: Global,
    hub: &mut Hub,
    g: u32,
    value: Value,
    fault: Option<Value>,
    how: Wait,
) -> Result<Performed, AllocError>
    requires may_make { MayMake g hub.old }
    requires room { HasRoom room_of_move hub.old }
    ensures { IfOk result (λ p. performs (Asked.Kill value fault how) g hub.old ≡ performed_of p hub.new) }
{
    let fault = fault_operand(fault);
    let Some(target) = plain_greenlet(hub, value) else {
        return Ok(raises(FaultKind::TypeError));
    };
    let Some(kind) = fault else {
        return Ok(raises(FaultKind::TypeError));
    };
    let mut targets = Items::new(alloc);
    targets.push(target)?;
    Ok(kill_greenlets(
        alloc,
        hub,
        g,
        Killing {
            kind,
            targets,
            awaited: Awaited::Kill(Whom::Greenlet(target)),
            how,
        },
    )?)
}

/// Kills the greenlets of a list, and waits for their ends.
#[tactic(auto, unfolding(machine::specs::Request::performs))]
pub fn kill_all(
    alloc: Global,
    hub: &mut Hub,
    g: u32,
    value: Value,
    fault: Option<Value>,
    how: Wait,
) -> Result<Performed, AllocError>
    requires may_make { MayMake g hub.old }
    requires room { HasRoom room_of_move hub.old }
    ensures { IfOk result (λ p. performs (Asked.KillAll value fault how) g hub.old ≡ performed_of p hub.new) }
{
    let fault = fault_operand(fault);
    let listed = plain_greenlet_list(alloc, hub, value)?;
    let Some(targets) = listed else {
        return Ok(raises(FaultKind::TypeError));
    };
    let Some(kind) = fault else {
        return Ok(raises(FaultKind::TypeError));
    };
    Ok(kill_greenlets(
        alloc,
        hub,
        g,
        Killing {
            kind,
            targets,
            awaited: Awaited::KillAll,
            how,
        },
    )?)
}

/// How many of so many greenlets are waited for.
fn need_of(count: Option<u64>, most: usize) -> u32
    requires short { most ≤ MOST_ELEMENTS }
    ensures { result ≡ min (unwrap_or count most) most }
{
    match count {
        None => most as u32,
        Some(count) => count.min(most as u64) as u32,
    }
}

/// Waits for the ends of so many of a list.
#[tactic(auto, unfolding(machine::specs::Request::performs))]
pub fn join_all(
    alloc: Global,
    hub: &mut Hub,
    g: u32,
    value: Value,
    count: Option<u64>,
    how: Wait,
) -> Result<Performed, AllocError>
    requires may_make { MayMake g hub.old }
    requires room { HasRoom room_of_move hub.old }
    ensures { IfOk result (λ p. performs (Asked.JoinAll value count how) g hub.old ≡ performed_of p hub.new) }
{
    let Some(targets) = plain_greenlet_list(alloc, hub, value)? else {
        return Ok(raises(FaultKind::TypeError));
    };
    let need = need_of(count, targets.len());
    Ok(come_to_wait(alloc, hub, g, Waiting::JoinAll(targets, need), how)?)
}

/// Links to the end of a greenlet.
#[tactic(auto, unfolding(machine::specs::Request::performs))]
pub fn link_handle(
    hub: &mut Hub,
    g: u32,
    value: Value,
    kind: LinkKind,
    function: u32,
) -> Result<Performed, AllocError>
    requires may_make { MayMake g hub.old }
    requires room { HasRoom room_of_move hub.old }
    ensures { IfOk result (λ p. performs (Asked.Link value kind function) g hub.old ≡ performed_of p hub.new) }
{
    match plain_greenlet(hub, value) {
        None => Ok(raises(FaultKind::TypeError)),
        Some(target) => Ok(link_to(hub, g, target, kind, function)?),
    }
}

/// Removes the link of a number.
#[tactic(auto, using(crate::proofs::Linking::unlinked, crate::proofs::Linking::not_unlinked), unfolding(machine::specs::Request::performs))]
pub fn unlink(hub: &mut Hub, g: u32, value: Value) -> Result<Performed, AllocError>
    requires { MayMake g hub.old }
    ensures { IfOk result (λ p. performs (Asked.Unlink value) g hub.old ≡ performed_of p hub.new) }
{
    let number = int_operand(value);
    let Some(number) = number else {
        return Ok(raises(FaultKind::TypeError));
    };
    drop_link(hub, number);
    Ok(done())
}
