//! Requests on groups, pools and native pools.
ghost use Rattle.std.specs.Prelude.{◌≡◌, unwrap_or, IfOk};
ghost use Rattle.std.specs.Option.{option_copied};
ghost use Rattle.machine.specs.Objects.{members_of, no_object};
ghost use Rattle.machine.specs.Request.{performs};
ghost use Rattle.machine.specs.declared.request.Request.{Request as Asked};
ghost use Rattle.machine_rooms.specs.Rooms.{HasRoom, room_of_move};
ghost use Rattle.hub_requests.specs.Making.{MayMake};
ghost use Rattle.hub_requests.specs.Naming.{IsObject};
ghost use Rattle.hub_requests.specs.Performing.{performed_of};

use crate::kills::{Killing, kill_greenlets};
use crate::members::{Mapping, map_elements};
use crate::operands::{fault_operand, int_operand};
use crate::performed::{Performed, raises};
use crate::waits::come_to_wait;
use gv_values::{FaultKind, JobKind, Value, job_of};
use hub_state::Hub;
use machine::arguments::Arguments;
use machine::items::Waiting;
use machine::state::Object;
use scenario_tree::{Items, Wait};
use std::alloc::{AllocError, Global};
use trace_text::Awaited;

/// Waits for a place in the group or pool, and makes a member.
#[tactic(auto, unfolding(machine::specs::Request::performs))]
pub fn spawn_member(
    alloc: Global,
    hub: &mut Hub,
    g: u32,
    o: u32,
    function: u32,
    arguments: Arguments,
) -> Result<Performed, AllocError>
    requires may_make { MayMake g hub.old }
    requires named { IsObject hub.old.scenario o }
    requires room { HasRoom room_of_move hub.old }
    ensures { IfOk result (λ p. performs (Asked.GroupSpawn o function arguments) g hub.old ≡ performed_of p hub.new) }
{
    Ok(come_to_wait(
        alloc,
        hub,
        g,
        Waiting::Place(o, function, arguments.into_values()),
        Wait::Block,
    )?)
}

/// Waits until the group or pool has no member.
#[tactic(auto, unfolding(machine::specs::Request::performs))]
pub fn join_crew(
    alloc: Global,
    hub: &mut Hub,
    g: u32,
    o: u32,
    how: Wait,
) -> Result<Performed, AllocError>
    requires may_make { MayMake g hub.old }
    requires named { IsObject hub.old.scenario o }
    requires room { HasRoom room_of_move hub.old }
    ensures { IfOk result (λ p. performs (Asked.GroupJoin o how) g hub.old ≡ performed_of p hub.new) }
{
    Ok(come_to_wait(alloc, hub, g, Waiting::Members(o), how)?)
}

/// The members in order of admission.
fn members_of(alloc: Global, object: Option<&Object>) -> Result<Items<u32>, AllocError>
    ensures { IfOk result (λ members. members ≡ members_of (unwrap_or (option_copied object.entry) no_object)) }
{
    match object {
        Some(Object::Crew(_, members)) => Ok(Items::from_slice(alloc, members.as_slice())?),
        _ => Ok(Items::new(alloc)),
    }
}

/// Kills the members of the group or pool, and waits for their ends.
#[tactic(auto, unfolding(machine::specs::Request::performs))]
pub fn kill_crew(
    alloc: Global,
    hub: &mut Hub,
    g: u32,
    o: u32,
    fault: Option<Value>,
    how: Wait,
) -> Result<Performed, AllocError>
    requires may_make { MayMake g hub.old }
    requires named { IsObject hub.old.scenario o }
    requires room { HasRoom room_of_move hub.old }
    ensures { IfOk result (λ p. performs (Asked.GroupKill o fault how) g hub.old ≡ performed_of p hub.new) }
{
    let Some(kind) = fault_operand(fault) else {
        return Ok(raises(FaultKind::TypeError));
    };
    let name = hub.name_of_object(o);
    let members = members_of(alloc, hub.object(o))?;
    Ok(kill_greenlets(
        alloc,
        hub,
        g,
        Killing {
            kind,
            targets: members,
            awaited: Awaited::GroupKill(name),
            how,
        },
    )?)
}

/// Makes a member for each element of a list.
#[tactic(auto, unfolding(machine::specs::Request::performs))]
pub fn map_list(
    alloc: Global,
    hub: &mut Hub,
    g: u32,
    o: u32,
    function: u32,
    value: Value,
) -> Result<Performed, AllocError>
    requires may_make { MayMake g hub.old }
    requires named { IsObject hub.old.scenario o }
    requires room { HasRoom room_of_move hub.old }
    ensures { IfOk result (λ p. performs (Asked.Map o function value) g hub.old ≡ performed_of p hub.new) }
{
    match value {
        Value::List(list) => Ok(map_elements(
            alloc,
            hub,
            g,
            Mapping {
                crew: o,
                function,
                made: Items::new(alloc),
            },
            list.scalars(),
        )?),
        _ => Ok(raises(FaultKind::TypeError)),
    }
}

/// A job that is asked for.
#[derive(Drop)]
pub struct JobAsked {
    /// What is done with the operand.
    pub kind: JobKind,
    /// The operand.
    pub operand: Value,
    /// How many milliseconds it takes.
    pub takes: u64,
}

/// Waits for a slot of the native pool, and posts a job.
#[tactic(auto, unfolding(machine::specs::Request::performs))]
pub fn spawn_job(
    alloc: Global,
    hub: &mut Hub,
    g: u32,
    o: u32,
    job: JobAsked,
) -> Result<Performed, AllocError>
    requires may_make { MayMake g hub.old }
    requires named { IsObject hub.old.scenario o }
    requires room { HasRoom room_of_move hub.old }
    ensures { IfOk result (λ p. performs (Asked.NativeSpawn o job.kind job.operand job.takes) g hub.old ≡ performed_of p hub.new) }
{
    match int_operand(job.operand) {
        None => Ok(raises(FaultKind::TypeError)),
        Some(z) => {
            Ok(come_to_wait(
                alloc,
                hub,
                g,
                Waiting::Slot(o, job_of(job.kind, z), job.takes),
                Wait::Block,
            )?)
        }
    }
}
