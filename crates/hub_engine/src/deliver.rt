//! The delivery of items.
ghost use Rattle.std.specs.Prelude.{◌≡◌, ◌+◌, ◌∷◌, [], true, Some, IsSome, IfOk};
ghost use Rattle.gv_values.specs.declared.value.Value.TheVariants as value;
ghost use Rattle.machine.specs.declared.items.Item.{Item as AnyItem};
ghost use Rattle.machine.specs.declared.items.Delivery.TheVariants as delivery;
ghost use Rattle.gv_values.specs.declared.link.LinkKind.{LinkKind as AnyLinkKind};
ghost use Rattle.machine.specs.Landing.{starts, lands};
ghost use Rattle.machine.specs.Greenlets.{greenlet};
ghost use Rattle.machine.specs.Deliveries.{called, calls, deliver, delivers, interrupts, arguments, late, waiting_of, without_wait};
ghost use Rattle.machine.specs.Run.{least_below};
ghost use Rattle.machine_trace_laws.specs.Reached.{state_of_next};
ghost use Rattle.machine_well_formed.specs.Texts.{fits_item, fits_link};
ghost use Rattle.machine_rooms.specs.Rooms.{HasRoom, room_of_delivery};
ghost use Rattle.machine_rooms.specs.Steps.{wait_weight};
ghost use Rattle.hub_items.specs.Short.{DeliversShort, IsShort};
ghost use Rattle.hub_objects.specs.Counted.{CountsFit};
ghost use Rattle.hub_requests.specs.Making.{MayMake};
ghost use Rattle.hub_requests.specs.Naming.{IsNamed};
ghost use Rattle.hub_engine.specs.Delivering.{IsDelivered, late_answer};
ghost use Rattle.hub_engine.specs.Ready.{AreDeclared, IsReady, IsReadyAt};
ghost use Rattle.hub_engine.specs.Settlings.{MaySettle, most_hops};
ghost use Rattle.hub_engine.specs.Stands.{next_at};
ghost use Rattle.hub_engine.specs.Within.{IsWithinSomehow};

use crate::life::{answer_greenlet, start_body};
use crate::moves::go_on_after;
use crate::stand::Stand;
use gv_values::{FaultKind, LinkKind, Outcome, Value};
use hub_items::Gone;
use hub_objects::Change;
use hub_requests::{complete_wait, late_outcome};
use hub_state::Hub;
use machine::items::{Delivery, Item, Waiting};
use scenario_tree::Items;
use std::alloc::{AllocError, Global};
use trace_text::{Line, LinkCall, Resumed, StopCause};

/// Throws the fault into the statement of the greenlet; what that offers on a channel is withdrawn.
#[tactic(auto, unfolding(machine::specs::Deliveries::interrupts))]
pub fn throw_into(
    alloc: Global,
    hub: &mut Hub,
    g: u32,
    kind: FaultKind,
) -> Result<Stand, AllocError>
    requires declared { AreDeclared hub.old }
    requires settles { MaySettle (most_hops + 2) hub.old }
    ensures { IfOk result (λ at. interrupts g kind hub.old ≡ next_at at hub.new) }
{
    hub.say(Line::Throw {
        greenlet: g,
        fault: kind,
    })?;
    hub.withdraw_offer(g);
    hub.drop_items(&Gone::WaitOf(g));
    hub.settle();
    Ok(answer_greenlet(alloc, hub, g, Outcome::Fault(kind))?)
}

/// Starts the greenlet with the arguments that it was made with.
#[tactic(auto, using(crate::proofs::Blind::starts_blind))]
fn start_greenlet(alloc: Global, hub: &mut Hub, g: u32) -> Result<Stand, AllocError>
    requires declared { AreDeclared hub.old }
    requires settles { MaySettle (most_hops + 2) hub.old }
    ensures { IfOk result (λ at. starts lands g (arguments (greenlet g hub.old).phase) hub.old ≡ next_at at hub.new) }
{
    let arguments = hub.take_arguments(alloc, g);
    Ok(start_body(alloc, hub, g, arguments)?)
}

/// Completes the wait of the greenlet, which was begun with this since.
#[inline(always)]
fn wake_greenlet(
    alloc: Global,
    hub: &mut Hub,
    since: u64,
    g: u32,
    waiting: Waiting,
) -> Result<Stand, AllocError>
    requires may_make { MayMake g (without_wait g hub.old) }
    requires named { IsNamed hub.old.scenario waiting }
    requires short { IsShort waiting }
    requires room { HasRoom (2 + wait_weight waiting) hub.old }
    requires after { AreDeclared (state_of_next (delivers since (delivery.Wake g waiting) hub.old)) }
    ensures { IfOk result (λ at. delivers since (delivery.Wake g waiting) hub.old ≡ next_at at hub.new) }
{
    hub.say(Line::Resume {
        greenlet: g,
        by: Resumed::Wake,
    })?;
    hub.drop_items(&Gone::WaitOf(g));
    let performed = complete_wait(alloc, hub, g, since, waiting)?;
    Ok(go_on_after(alloc, hub, g, performed)?)
}

/// What the greenlet's wait gives where its time is over, if it waits.
fn late_answer(alloc: Global, hub: &Hub, g: u32, n: u32) -> Result<Option<Outcome>, AllocError>
    ensures { IfOk result (λ outcome. outcome ≡ late_answer n hub.now (waiting_of g hub.now.items)) }
{
    match hub.waiting_of(g) {
        Some(waiting) => Ok(Some(late_outcome(alloc, hub, waiting, n)?)),
        None => Ok(None),
    }
}

/// Ends the wait of the greenlet at its deadline; `n` is the number of its Timeout.
#[tactic(auto, using(crate::proofs::Delivered::late_none, crate::proofs::Delivered::late_some))]
fn end_late(alloc: Global, hub: &mut Hub, g: u32, n: u32) -> Result<Stand, AllocError>
    requires declared { AreDeclared hub.old }
    requires settles { MaySettle (most_hops + 2) hub.old }
    ensures { IfOk result (λ at. late g n (waiting_of g hub.old.items) hub.old ≡ next_at at hub.new) }
{
    let Some(outcome) = late_answer(alloc, hub, g, n)? else {
        return Ok(Stand::Resting);
    };
    hub.say(Line::Resume {
        greenlet: g,
        by: Resumed::Late,
    })?;
    hub.drop_items(&Gone::WaitOf(g));
    hub.settle();
    Ok(answer_greenlet(alloc, hub, g, outcome)?)
}

/// The greenlet as the one argument of a link's function.
fn argument_of(alloc: Global, g: u32) -> Result<Items<Value>, AllocError>
    ensures { IfOk result (λ arguments. arguments ≡ value.Greenlet g ∷ []) }
{
    let mut arguments = Items::new(alloc);
    arguments.push(Value::Greenlet(g))?;
    Ok(arguments)
}

/// Runs the link's function as a new greenlet, at once.
#[tactic(auto, using(crate::proofs::Functions::declared_made, crate::proofs::Functions::declared_said, crate::proofs::Readily::is_function_there))]
fn call_function(
    alloc: Global,
    hub: &mut Hub,
    number: u32,
    g: u32,
    function: u32,
) -> Result<Stand, AllocError>
    requires declared { AreDeclared hub.old }
    requires fits { fits_link hub.old.scenario AnyLinkKind.Any function ≡ true }
    requires settles { MaySettle (most_hops + 2) hub.old }
    ensures { IfOk result (λ at. calls number g function hub.old ≡ next_at at hub.new) }
{
    if !hub.has_greenlet_left() {
        return Ok(Stand::Over(StopCause::NoGreenlets));
    }
    hub.say(Line::Link {
        number,
        greenlet: g,
        call: LinkCall::Greenlet(hub.greenlets_len()),
    })?;
    let held = argument_of(alloc, g)?;
    let given = argument_of(alloc, g)?;
    let made = hub.add_greenlet(false, 0, function, held)?;
    Ok(start_body(alloc, hub, made, given)?)
}

/// Calls a link: its mark is written, its event is set, or its function runs.
fn call_link(
    alloc: Global,
    hub: &mut Hub,
    number: u32,
    g: u32,
    kind: LinkKind,
    function: u32,
) -> Result<Stand, AllocError>
    requires declared { AreDeclared hub.old }
    requires fits { fits_link hub.old.scenario kind function ≡ true }
    requires settles { MaySettle (most_hops + 2) hub.old }
    requires counts { CountsFit 1 hub.old.objects }
    ensures { IfOk result (λ at. called number g kind function hub.old ≡ next_at at hub.new) }
{
    match kind {
        LinkKind::Mark(mark) => {
            hub.say(Line::Link {
                number,
                greenlet: g,
                call: LinkCall::Mark(mark),
            })?;
            hub.settle();
            Ok(Stand::Resting)
        }
        LinkKind::Set(o) => {
            let name = hub.name_of_object(o);
            hub.say(Line::Link {
                number,
                greenlet: g,
                call: LinkCall::Set(name),
            })?;
            hub.change(o, Change::Flag(true));
            hub.settle();
            Ok(Stand::Resting)
        }
        LinkKind::Any => Ok(call_function(alloc, hub, number, g, function)?),
        LinkKind::Value => Ok(call_function(alloc, hub, number, g, function)?),
        LinkKind::Fault => Ok(call_function(alloc, hub, number, g, function)?),
    }
}

/// Does what the item delivers, which is gone and was made with this since.
#[inline(always)]
#[tactic(auto, using(crate::proofs::Delivered::named_wait))]
fn deliver_content(
    alloc: Global,
    hub: &mut Hub,
    since: u64,
    delivery: Delivery,
) -> Result<Stand, AllocError>
    requires may_go_on { IsDelivered delivery hub.old }
    requires fits { fits_item hub.old.scenario delivery ≡ true }
    requires short { DeliversShort delivery }
    requires declared { AreDeclared hub.old }
    requires room { HasRoom (room_of_delivery delivery) hub.old }
    requires after { AreDeclared (state_of_next (delivers since delivery hub.old)) }
    ensures { IfOk result (λ at. delivers since delivery hub.old ≡ next_at at hub.new) }
{
    match delivery {
        Delivery::Start(g, _) => Ok(start_greenlet(alloc, hub, g)?),
        Delivery::Wake(g, waiting) => Ok(wake_greenlet(alloc, hub, since, g, waiting)?),
        Delivery::Late(g, _, n) => Ok(end_late(alloc, hub, g, n)?),
        Delivery::Timeout(g, n, _) => Ok(throw_into(alloc, hub, g, FaultKind::Timeout(n))?),
        Delivery::Kill(g, kind) => Ok(throw_into(alloc, hub, g, kind)?),
        Delivery::Link(number, g, kind, function) => {
            Ok(call_link(alloc, hub, number, g, kind, function)?)
        }
    }
}

/// Takes the item with the least number below the mark away, and delivers it.
#[inline(always)]
#[tactic(auto, using(crate::proofs::Delivered::delivered_as, crate::proofs::Readily::ready_delivered))]
pub fn deliver_item(alloc: Global, hub: &mut Hub, mark: u64) -> Result<Stand, AllocError>
    requires there { IsSome (least_below mark hub.old.items) }
    requires ready { IsReady hub.old }
    requires within { IsWithinSomehow hub.old }
    ensures delivered { IfOk result (λ next. (i : AnyItem) → least_below mark hub.old.items ≡ Some i → deliver i hub.old ≡ next_at next hub.new) }
    ensures ready { IfOk result (λ next. IsReadyAt (next_at next hub.new)) }
{
    let Item {
        since,
        delivery,
        ready: _,
    } = hub.take_below(mark);
    Ok(deliver_content(alloc, hub, since, delivery)?)
}
