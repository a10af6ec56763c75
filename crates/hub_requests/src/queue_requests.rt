//! Requests on queues and channels.
ghost use Rattle.std.specs.Prelude.{◌≡◌, unwrap_or, IfOk};
ghost use Rattle.std.specs.Option.{option_copied};
ghost use Rattle.scenario_tree.specs.declared.tree.Wait.TheVariants as wait;
ghost use Rattle.machine.specs.Objects.{no_object, takes_value};
ghost use Rattle.machine.specs.Request.{performs};
ghost use Rattle.machine.specs.declared.request.Request.{Request as Asked};
ghost use Rattle.machine_rooms.specs.Rooms.{HasRoom, room_of_move};
ghost use Rattle.hub_requests.specs.Making.{MayMake};
ghost use Rattle.hub_requests.specs.Naming.{IsObject};
ghost use Rattle.hub_requests.specs.Performing.{performed_of};

use crate::object_requests::refused;
use crate::performed::{Performed, done, raises};
use crate::waits::{come_to_wait, offer};
use gv_values::{FaultKind, Value};
use hub_objects::Change;
use hub_state::Hub;
use machine::items::Waiting;
use machine::queued::Queued;
use machine::state::Object;
use scenario_tree::{QueueKind, Wait};
use std::alloc::{AllocError, Global};

/// A priority queue takes integers alone.
fn takes_value(object: Option<&Object>, value: &Value) -> bool
    ensures { result ≡ takes_value (unwrap_or (option_copied object.entry) no_object) value.now }
{
    match (object, value) {
        (Some(Object::Queue(QueueKind::Priority, _, _, _, _)), Value::Int(_)) => true,
        (Some(Object::Queue(QueueKind::Priority, _, _, _, _)), _) => false,
        _ => true,
    }
}

/// Waits for a place of the queue, and puts the value there.
#[tactic(auto, unfolding(machine::specs::Request::performs))]
pub fn put_item(
    alloc: Global,
    hub: &mut Hub,
    g: u32,
    o: u32,
    value: Value,
    how: Wait,
) -> Result<Performed, AllocError>
    requires may_make { MayMake g hub.old }
    requires named { IsObject hub.old.scenario o }
    requires room { HasRoom room_of_move hub.old }
    ensures { IfOk result (λ p. performs (Asked.QueuePut o value how) g hub.old ≡ performed_of p hub.new) }
{
    if !takes_value(hub.object(o), &value) {
        return Ok(raises(FaultKind::TypeError));
    }
    let queued = Queued::new(alloc, value)?;
    Ok(come_to_wait(alloc, hub, g, Waiting::Put(o, queued), how)?)
}

/// Waits for an item of the queue, and takes it.
#[tactic(auto, unfolding(machine::specs::Request::performs))]
pub fn get_item(
    alloc: Global,
    hub: &mut Hub,
    g: u32,
    o: u32,
    how: Wait,
) -> Result<Performed, AllocError>
    requires may_make { MayMake g hub.old }
    requires named { IsObject hub.old.scenario o }
    requires room { HasRoom room_of_move hub.old }
    ensures { IfOk result (λ p. performs (Asked.QueueGet o how) g hub.old ≡ performed_of p hub.new) }
{
    Ok(come_to_wait(alloc, hub, g, Waiting::Take(o), how)?)
}

/// Waits for an item of the queue, and reads it.
#[tactic(auto, unfolding(machine::specs::Request::performs))]
pub fn peek_item(
    alloc: Global,
    hub: &mut Hub,
    g: u32,
    o: u32,
    how: Wait,
) -> Result<Performed, AllocError>
    requires may_make { MayMake g hub.old }
    requires named { IsObject hub.old.scenario o }
    requires room { HasRoom room_of_move hub.old }
    ensures { IfOk result (λ p. performs (Asked.QueuePeek o how) g hub.old ≡ performed_of p hub.new) }
{
    Ok(come_to_wait(alloc, hub, g, Waiting::Peek(o), how)?)
}

/// Waits until no task of the queue is unfinished.
#[tactic(auto, unfolding(machine::specs::Request::performs))]
pub fn join_queue(
    alloc: Global,
    hub: &mut Hub,
    g: u32,
    o: u32,
    how: Wait,
) -> Result<Performed, AllocError>
    requires may_make { MayMake g hub.old }
    requires named { IsObject hub.old.scenario o }
    requires room { HasRoom room_of_move hub.old }
    ensures { IfOk result (λ p. performs (Asked.QueueJoin o how) g hub.old ≡ performed_of p hub.new) }
{
    Ok(come_to_wait(alloc, hub, g, Waiting::Tasks(o), how)?)
}

/// Ends a task of the queue.
#[tactic(auto, unfolding(machine::specs::Request::performs))]
pub fn end_task(hub: &mut Hub, g: u32, o: u32) -> Performed
    ensures { performs (Asked.QueueDone o) g hub.old ≡ performed_of result hub.new }
{
    refused(hub.finish(o))
}

/// Shuts the queue; at once its items go too.
#[tactic(auto, unfolding(machine::specs::Request::performs))]
pub fn shut_queue(hub: &mut Hub, g: u32, o: u32, immediate: bool) -> Performed
    ensures { performs (Asked.QueueShut o immediate) g hub.old ≡ performed_of result hub.new }
{
    hub.change(o, Change::Shut(immediate));
    done()
}

/// Offers the value on the channel, and waits until it is taken.
#[tactic(auto, unfolding(machine::specs::Request::performs))]
pub fn put_offer(hub: &mut Hub, g: u32, o: u32, value: Value) -> Result<Performed, AllocError>
    requires may_make { MayMake g hub.old }
    requires named { IsObject hub.old.scenario o }
    requires room { HasRoom room_of_move hub.old }
    ensures { IfOk result (λ p. performs (Asked.ChannelPut o value) g hub.old ≡ performed_of p hub.new) }
{
    offer(hub, g, o, value)?;
    Ok(Performed::Parks)
}

/// Waits for an offer on the channel, and takes it.
#[tactic(auto, unfolding(machine::specs::Request::performs))]
pub fn get_offer(alloc: Global, hub: &mut Hub, g: u32, o: u32) -> Result<Performed, AllocError>
    requires may_make { MayMake g hub.old }
    requires named { IsObject hub.old.scenario o }
    requires room { HasRoom room_of_move hub.old }
    ensures { IfOk result (λ p. performs (Asked.ChannelGet o) g hub.old ≡ performed_of p hub.new) }
{
    Ok(come_to_wait(alloc, hub, g, Waiting::TakeOffer(o), Wait::Block)?)
}
