//! What a wait gives whose condition holds. A unit, an item, an offer, a place or a slot is taken here.
ghost use Rattle.std.specs.Prelude.{◌≡◌, ◌+◌, ◌<◌, ◌^◌, IfOk, length, slice_get, unwrap_or};
ghost use Rattle.std.specs.Option.{option_copied};
ghost use Rattle.gv_values.specs.declared.value.Outcome.{Outcome as AnyOutcome};
ghost use Rattle.gv_values.specs.declared.value.Value.{Value as AnyValue};
ghost use Rattle.machine.specs.Holds.{earlier, is_take, outcome_of};
ghost use Rattle.machine.specs.Objects.{object_at, offer_of, with_object, with_offer_taken};
ghost use Rattle.machine.specs.Waits.{Performed as AnyPerformed, completes, nothing, peeks_item, posted, puts_item, takes_item, value_or_none};
ghost use Rattle.machine_rooms.specs.Rooms.{HasRoom};
ghost use Rattle.machine_rooms.specs.Steps.{wait_weight};
ghost use Rattle.hub_items.specs.Short.{IsShort};
ghost use Rattle.hub_objects.specs.Counted.{MayCount};
ghost use Rattle.hub_requests.specs.Making.{MayMake};
ghost use Rattle.hub_requests.specs.Naming.{IsNamed};
ghost use Rattle.hub_requests.specs.Performing.{performed_of};
ghost use Rattle.hub_requests.specs.Results.{result_of_option};

use crate::gathering::gather;
use crate::late::done_ones;
use crate::members::{Mapping, go_on_mapping, make_member};
use crate::performed::{Performed, done, raises, truth};
use gv_values::{FaultKind, Job, Outcome, Value, Whom};
use hub_objects::Change;
use hub_state::Hub;
use machine::items::Waiting;
use machine::queued::Queued;
use machine::state::Object;
use std::alloc::{AllocError, Global};

/// What was put into the result.
fn result_of(alloc: Global, object: Option<&Object>) -> Result<Outcome, AllocError>
    ensures { IfOk result (λ outcome. outcome ≡ result_of_option (option_copied object.entry)) }
{
    match object {
        Some(Object::Result(Some(outcome))) => Ok(outcome.copy(alloc)?),
        _ => Ok(Outcome::Value(Value::Nothing)),
    }
}

/// The value, and none for a fault.
fn value_or_none(outcome: Outcome) -> Outcome
    ensures { result ≡ value_or_none outcome }
{
    match outcome {
        Outcome::Value(value) => Outcome::Value(value),
        Outcome::Fault(_) => Outcome::Value(Value::Nothing),
    }
}

/// What the greenlet or job ended with.
fn ended_with(alloc: Global, hub: &Hub, whom: Whom) -> Result<Outcome, AllocError>
    ensures { IfOk result (λ outcome. outcome ≡ unwrap_or (outcome_of hub.now whom) nothing) }
{
    let ended = match whom {
        Whom::Greenlet(g) => hub.outcome_of_greenlet(g),
        Whom::Job(j) => hub.outcome_of_job(j),
    };
    match ended {
        Some(outcome) => Ok(outcome.copy(alloc)?),
        None => Ok(Outcome::Value(Value::Nothing)),
    }
}

/// Posts the job, whose handle is the answer.
fn post_job(hub: &mut Hub, g: u32, o: u32, job: Job, takes: u64) -> Result<Performed, AllocError>
    requires number { length hub.old.jobs + 1 < 2 ^ 32 }
    requires slot { MayCount 1 (slice_get hub.old.objects o) }
    ensures { IfOk result (λ p. AnyPerformed.Answers (AnyOutcome.Value (AnyValue.Job (length hub.old.jobs + 1))) (posted g o job takes hub.old) ≡ performed_of p hub.new) }
{
    let number = hub.post(g, o, job, takes)?;
    Ok(Performed::Answers(Outcome::Value(Value::Job(number))))
}

/// Puts the value into the queue; one that is shut refuses it.
fn put_item(hub: &mut Hub, o: u32, value: Queued) -> Performed
    requires { MayCount 1 (slice_get hub.old.objects o) }
    ensures { puts_item o value (object_at o hub.old) hub.old ≡ performed_of result hub.new }
{
    if hub.is_shut(o) {
        return raises(FaultKind::ShutDown);
    }
    hub.change(o, Change::Item(value));
    done()
}

/// Takes the item of the queue that is next, where the earlier getters leave one; else the queue is shut.
fn take_item(hub: &mut Hub, since: u64, o: u32) -> Performed
    ensures { takes_item o (earlier (is_take o) since hub.old.items) (object_at o hub.old) hub.old ≡ performed_of result hub.new }
{
    if !hub.has_item_left(o, since) {
        return raises(FaultKind::ShutDown);
    }
    Performed::Answers(Outcome::Value(hub.take_item(o)))
}

/// Reads the item of the queue that is next, where the earlier getters leave one; else the queue is shut.
fn peek_item(alloc: Global, hub: &mut Hub, since: u64, o: u32) -> Result<Performed, AllocError>
    ensures { IfOk result (λ p. peeks_item (earlier (is_take o) since hub.old.items) (object_at o hub.old) hub.old ≡ performed_of p hub.new) }
{
    if !hub.has_item_left(o, since) {
        return Ok(raises(FaultKind::ShutDown));
    }
    Ok(Performed::Answers(Outcome::Value(hub.item_of(alloc, o)?)))
}

/// Takes the oldest offer of the channel.
fn take_offer(hub: &mut Hub, o: u32) -> Performed
    ensures { AnyPerformed.Answers (AnyOutcome.Value (offer_of (object_at o hub.old))) (with_object o (with_offer_taken (object_at o hub.old)) hub.old) ≡ performed_of result hub.new }
{
    Performed::Answers(Outcome::Value(hub.take_offer(o)))
}

/// Completes the wait of the greenlet, which was begun with this since: what it waited for is taken.
///
/// # Errors
///
/// Memory is wanting; the hub is given up.
pub fn complete_wait(
    alloc: Global,
    hub: &mut Hub,
    g: u32,
    since: u64,
    waiting: Waiting,
) -> Result<Performed, AllocError>
    requires may_make { MayMake g hub.old }
    requires named { IsNamed hub.old.scenario waiting }
    requires short { IsShort waiting }
    requires room { HasRoom (2 + wait_weight waiting) hub.old }
    ensures { IfOk result (λ p. completes g since waiting hub.old ≡ performed_of p hub.new) }
{
    match waiting {
        Waiting::Sleep(_) => Ok(done()),
        Waiting::Join(_) => Ok(done()),
        Waiting::Get(whom) => Ok(Performed::Answers(ended_with(alloc, hub, whom)?)),
        Waiting::Kill(_) => Ok(done()),
        Waiting::JoinAll(greenlets, _) => {
            Ok(Performed::Answers(done_ones(alloc, hub, greenlets.as_slice())?))
        }
        Waiting::Event(_, _) => Ok(truth(true)),
        Waiting::ResultGet(o) => Ok(Performed::Answers(result_of(alloc, hub.object(o))?)),
        Waiting::ResultWait(o) => {
            Ok(Performed::Answers(value_or_none(result_of(alloc, hub.object(o))?)))
        }
        Waiting::Acquire(o) => {
            hub.change(o, Change::UnitTaken);
            Ok(truth(true))
        }
        Waiting::Lock(o) => {
            hub.change(o, Change::Owner(g));
            Ok(truth(true))
        }
        Waiting::Put(o, value) => Ok(put_item(hub, o, value)),
        Waiting::Take(o) => Ok(take_item(hub, since, o)),
        Waiting::Peek(o) => Ok(peek_item(alloc, hub, since, o)?),
        Waiting::Tasks(_) => Ok(truth(true)),
        Waiting::Place(o, function, arguments) => Ok(make_member(hub, g, o, function, arguments)?),
        Waiting::MapPlace(o, function, elements, made) => {
            let mapping = Mapping {
                crew: o,
                function,
                made: made.into_inner(),
            };
            Ok(go_on_mapping(alloc, hub, g, mapping, elements.into_inner())?)
        }
        Waiting::MapEnd(_, made) => Ok(Performed::Answers(gather(alloc, hub, made.as_slice())?)),
        Waiting::Members(_) => Ok(done()),
        Waiting::Slot(o, job, time) => Ok(post_job(hub, g, o, job, time)?),
        Waiting::Offered(_) => Ok(done()),
        Waiting::TakeOffer(o) => Ok(take_offer(hub, o)),
    }
}
