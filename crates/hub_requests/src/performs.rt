//! The table of requests.
ghost use Rattle.std.specs.Prelude.{◌≡◌, true, IfOk};
ghost use Rattle.machine.specs.Request.{performs};
ghost use Rattle.machine_well_formed.specs.Texts.{fits_request};
ghost use Rattle.machine_rooms.specs.Rooms.{HasRoom, room_of_move};
ghost use Rattle.hub_requests.specs.Making.{MayMake};
ghost use Rattle.hub_requests.specs.Performing.{performed_of};

use crate::crew_requests::{JobAsked, join_crew, kill_crew, map_list, spawn_job, spawn_member};
use crate::greenlet_requests::{
    get_outcome, join_all, join_handle, kill_all, kill_one, link_handle, make_new, print_value,
    sleep_for, spawn_later, spawn_now, start_handle, unlink,
};
use crate::object_requests::{
    acquire, clear_event, fail_result, get_result, release, set_event, set_result, wait_for_event,
    wait_for_result,
};
use crate::performed::Performed;
use crate::queue_requests::{
    end_task, get_item, get_offer, join_queue, peek_item, put_item, put_offer, shut_queue,
};
use crate::raw_requests::{make_raw, set_parent, switch_to, throw_to};
use hub_state::Hub;
use machine::request::Request;
use std::alloc::{AllocError, Global};

/// Performs the request of the greenlet, which is under way. The body is long since each request has its arm.
///
/// # Errors
///
/// Memory is wanting; the hub is given up.
pub fn perform(
    alloc: Global,
    hub: &mut Hub,
    request: Request,
    g: u32,
) -> Result<Performed, AllocError>
    requires may_make { MayMake g hub.old }
    requires fits { fits_request hub.old.scenario request ≡ true }
    requires room { HasRoom room_of_move hub.old }
    ensures { IfOk result (λ p. performs request g hub.old ≡ performed_of p hub.new) }
{
    match request {
        Request::Print(value) => print_value(hub, g, value),
        Request::Spawn(function, arguments) => spawn_now(hub, g, function, arguments),
        Request::SpawnLater(time, function, arguments) => spawn_later(
            hub, g, time, function, arguments,
        ),
        Request::New(function, arguments) => make_new(hub, g, function, arguments),
        Request::Start(value) => start_handle(hub, g, value),
        Request::Sleep(time) => sleep_for(alloc, hub, g, time),
        Request::Join(value, how) => join_handle(alloc, hub, g, value, how),
        Request::Get(value, how) => get_outcome(alloc, hub, g, value, how),
        Request::Kill(value, fault, how) => kill_one(alloc, hub, g, value, fault, how),
        Request::KillAll(value, fault, how) => kill_all(alloc, hub, g, value, fault, how),
        Request::JoinAll(value, count, how) => join_all(alloc, hub, g, value, count, how),
        Request::Link(value, kind, function) => link_handle(hub, g, value, kind, function),
        Request::Unlink(value) => unlink(hub, g, value),
        Request::Set(o) => Ok(set_event(hub, g, o)),
        Request::Clear(o) => Ok(clear_event(hub, g, o)),
        Request::WaitEvent(o, how) => wait_for_event(alloc, hub, g, o, how),
        Request::ResultSet(o, value) => Ok(set_result(hub, g, o, value)),
        Request::ResultFail(o, value) => Ok(fail_result(hub, g, o, value)),
        Request::ResultGet(o, how) => get_result(alloc, hub, g, o, how),
        Request::ResultWait(o, how) => wait_for_result(alloc, hub, g, o, how),
        Request::Acquire(o, how) => acquire(alloc, hub, g, o, how),
        Request::Release(o) => Ok(release(hub, g, o)),
        Request::QueuePut(o, value, how) => put_item(alloc, hub, g, o, value, how),
        Request::QueueGet(o, how) => get_item(alloc, hub, g, o, how),
        Request::QueuePeek(o, how) => peek_item(alloc, hub, g, o, how),
        Request::QueueDone(o) => Ok(end_task(hub, g, o)),
        Request::QueueJoin(o, how) => join_queue(alloc, hub, g, o, how),
        Request::GroupSpawn(o, function, arguments) => spawn_member(
            alloc, hub, g, o, function, arguments,
        ),
        Request::GroupJoin(o, how) => join_crew(alloc, hub, g, o, how),
        Request::GroupKill(o, fault, how) => kill_crew(alloc, hub, g, o, fault, how),
        Request::Map(o, function, value) => map_list(alloc, hub, g, o, function, value),
        Request::NativeSpawn(o, kind, operand, takes) => {
            let job = JobAsked {
                kind,
                operand,
                takes,
            };
            spawn_job(alloc, hub, g, o, job)
        }
        Request::Raw(function, under) => make_raw(alloc, hub, g, function, under),
        Request::Switch(value, input) => switch_to(hub, g, value, input),
        Request::Throw(value, fault) => throw_to(hub, g, value, fault),
        Request::SetParent(value, other) => set_parent(hub, g, value, other),
        Request::ChannelPut(o, value) => put_offer(hub, g, o, value),
        Request::ChannelGet(o) => get_offer(alloc, hub, g, o),
        Request::QueueShut(o, immediate) => Ok(shut_queue(hub, g, o, immediate)),
    }
}
