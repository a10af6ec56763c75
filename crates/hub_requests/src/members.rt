//! Members of groups and pools, and maps.
ghost use Rattle.std.specs.Prelude.{◌≡◌, ◌<◌, ◌≤◌, ◌+◌, ◌∷◌, [], None, drop, OnOk, IfOk, length, slice_get};
ghost use Rattle.gv_values.specs.Value.{value_of_scalar};
ghost use Rattle.machine.specs.declared.items.Waiting.{Waiting as AnyWaiting};
ghost use Rattle.machine.specs.Waits.{made_member, map_ends, maps, map_goes_on, add_member, parked};
ghost use Rattle.hub_items.specs.Short.{IsShort};
ghost use Rattle.hub_objects.specs.Counted.{MayCount};
ghost use Rattle.hub_state.specs.Adding.{MayAdd};
ghost use Rattle.hub_requests.specs.Awaited.{awaited_of};
ghost use Rattle.hub_requests.specs.Making.{MayMake};
ghost use Rattle.hub_requests.specs.Naming.{IsObject};
ghost use Rattle.hub_requests.specs.Performing.{performed_of};
ghost use Rattle.machine.specs.declared.limits.TheConstants.{MOST_GREENLETS};
ghost use Rattle.gv_values.specs.declared.limits.TheConstants.{MOST_ELEMENTS};

use crate::gathering::gather;
use crate::parking::park;
use crate::performed::Performed;
use gv_values::{Outcome, Scalar, Value};
use hub_objects::Addition;
use hub_state::Hub;
use machine::items::{Delivery, Waiting};
use scenario_tree::{Boxed, Items};
use std::alloc::{AllocError, Global};
use trace_text::StopCause;

/// Makes a member of the group or pool, with its start; its number is the answer.
#[tactic(auto, using(crate::proofs::Soundly::start_free))]
fn add_member(
    hub: &mut Hub,
    g: u32,
    o: u32,
    function: u32,
    arguments: Items<Value>,
) -> Result<u32, AllocError>
    requires may_make { MayMake g hub.old }
    requires may_add { MayAdd 1 hub.old }
    requires count { MayCount 1 (slice_get hub.old.objects o) }
    requires room { length hub.old.greenlets < MOST_GREENLETS }
    ensures added { OnOk result (hub.new ≡ add_member o function arguments hub.old) }
    ensures number { IfOk result (λ n. n ≡ length hub.old.greenlets) }
{
    let made = hub.add_greenlet(false, 0, function, arguments)?;
    hub.add_item(Delivery::Start(made, None))?;
    hub.add_to(o, Addition::Member(made))?;
    Ok(made)
}

/// Makes a member, whose handle is the answer.
pub fn make_member(
    hub: &mut Hub,
    g: u32,
    o: u32,
    function: u32,
    arguments: Items<Value>,
) -> Result<Performed, AllocError>
    requires may_make { MayMake g hub.old }
    requires may_add { MayAdd 1 hub.old }
    requires count { MayCount 1 (slice_get hub.old.objects o) }
    ensures { IfOk result (λ p. made_member o function arguments hub.old ≡ performed_of p hub.new) }
{
    if !hub.has_greenlet_left() {
        return Ok(Performed::Stops(StopCause::NoGreenlets));
    }
    let made = add_member(hub, g, o, function, arguments)?;
    Ok(Performed::Answers(Outcome::Value(Value::Greenlet(made))))
}

/// Ends the map where all its members are Done, and else lets its greenlet wait for that.
fn end_map(
    alloc: Global,
    hub: &mut Hub,
    g: u32,
    o: u32,
    made: Items<u32>,
) -> Result<Performed, AllocError>
    requires may_make { MayMake g hub.old }
    requires named { IsObject hub.old.scenario o }
    requires may_add { MayAdd 1 hub.old }
    requires short { length made ≤ MOST_ELEMENTS }
    ensures { IfOk result (λ p. map_ends g o made hub.old ≡ performed_of p hub.new) }
{
    if hub.all_done(made.as_slice()) {
        return Ok(Performed::Answers(gather(alloc, hub, made.as_slice())?));
    }
    park(hub, g, Waiting::MapEnd(o, made))?;
    Ok(Performed::Parks)
}

/// The arguments of a member of a map.
fn argument_of(alloc: Global, element: Scalar) -> Result<Items<Value>, AllocError>
    ensures { IfOk result (λ arguments. arguments ≡ value_of_scalar element ∷ []) }
{
    let mut arguments = Items::new(alloc);
    arguments.push(Value::from(element))?;
    Ok(arguments)
}

/// The elements from this one on.
fn rest_of(alloc: Global, elements: &[Scalar], at: usize) -> Result<Items<Scalar>, AllocError>
    requires { at ≤ length elements.now }
    ensures rest { IfOk result (λ rest. rest ≡ drop at elements.now) }
    ensures few { IfOk result (λ rest. length rest + at ≡ length elements.now) }
{
    let rest = &elements[at..];
    Ok(Items::from_slice(alloc, rest)?)
}

/// A map that is under way.
#[derive(Drop)]
pub struct Mapping {
    /// The group or pool.
    pub crew: u32,
    /// The function that its members run.
    pub function: u32,
    /// The members that it has made, in order.
    pub made: Items<u32>,
}

/// The wait of the map for a place for the first of these elements.
fn wait_for_place(
    alloc: Global,
    mapping: Mapping,
    rest: Items<Scalar>,
) -> Result<Waiting, AllocError>
    ensures { IfOk result (λ waiting. waiting ≡ AnyWaiting.MapPlace mapping.crew mapping.function rest mapping.made) }
{
    let Mapping {
        crew,
        function,
        made,
    } = mapping;
    let rest = Boxed::new(alloc, rest)?;
    let made = Boxed::new(alloc, made)?;
    Ok(Waiting::MapPlace(crew, function, rest, made))
}

/// Lets the greenlet of the map wait for a place for the first of these elements.
fn park_mapping(
    alloc: Global,
    hub: &mut Hub,
    g: u32,
    mapping: Mapping,
    rest: Items<Scalar>,
) -> Result<(), AllocError>
    requires may_make { MayMake g hub.old }
    requires named { IsObject hub.old.scenario mapping.crew }
    requires may_add { MayAdd 1 hub.old }
    requires short { IsShort (AnyWaiting.MapPlace mapping.crew mapping.function rest mapping.made) }
    ensures { OnOk result (hub.new ≡ parked g (awaited_of (AnyWaiting.MapPlace mapping.crew mapping.function rest mapping.made) hub.old) (AnyWaiting.MapPlace mapping.crew mapping.function rest mapping.made) None hub.old) }
{
    let waiting = wait_for_place(alloc, mapping, rest)?;
    park(hub, g, waiting)?;
    Ok(())
}

/// Goes on with a map at these elements: a member for each, where there is a place for it.
pub fn map_elements(
    alloc: Global,
    hub: &mut Hub,
    g: u32,
    mapping: Mapping,
    elements: &[Scalar],
) -> Result<Performed, AllocError>
    requires may_make { MayMake g hub.old }
    requires named { IsObject hub.old.scenario mapping.crew }
    requires may_add { MayAdd (MOST_ELEMENTS + 1) hub.old }
    requires count { MayCount (MOST_ELEMENTS + 1) (slice_get hub.old.objects mapping.crew) }
    requires short { length elements.now + length mapping.made ≤ MOST_ELEMENTS }
    ensures { IfOk result (λ p. maps elements.now g mapping.crew mapping.function mapping.made hub.old ≡ performed_of p hub.new) }
{
    let Mapping {
        crew,
        function,
        made,
    } = mapping;
    let mut made = made;
    let mut at = 0;
    while at < elements.len() {
        let free = hub.has_place(crew);
        if !free {
            let rest = rest_of(alloc, elements, at)?;
            let mapping = Mapping {
                crew,
                function,
                made,
            };
            park_mapping(alloc, hub, g, mapping, rest)?;
            return Ok(Performed::Parks);
        }
        let left = hub.has_greenlet_left();
        if !left {
            return Ok(Performed::Stops(StopCause::NoGreenlets));
        }
        let arguments = argument_of(alloc, elements[at])?;
        let member = add_member(hub, g, crew, function, arguments)?;
        made.push(member)?;
        at += 1;
    }
    Ok(end_map(alloc, hub, g, crew, made)?)
}

/// The elements after the first.
fn after_first(elements: &[Scalar]) -> &[Scalar]
    requires { 0 < length elements.now }
    ensures rest { result.now ≡ drop 1 elements.now }
    ensures few { length result.now + 1 ≡ length elements.now }
{
    &elements[1..]
}

/// Goes on with a map whose first element has its place.
pub fn go_on_mapping(
    alloc: Global,
    hub: &mut Hub,
    g: u32,
    mapping: Mapping,
    elements: Items<Scalar>,
) -> Result<Performed, AllocError>
    requires may_make { MayMake g hub.old }
    requires named { IsObject hub.old.scenario mapping.crew }
    requires may_add { MayAdd (MOST_ELEMENTS + 2) hub.old }
    requires count { MayCount (MOST_ELEMENTS + 2) (slice_get hub.old.objects mapping.crew) }
    requires short { length elements + length mapping.made ≤ MOST_ELEMENTS }
    ensures { IfOk result (λ p. map_goes_on elements g mapping.crew mapping.function mapping.made hub.old ≡ performed_of p hub.new) }
{
    if elements.len() == 0 {
        return Ok(end_map(alloc, hub, g, mapping.crew, mapping.made)?);
    }
    if !hub.has_greenlet_left() {
        return Ok(Performed::Stops(StopCause::NoGreenlets));
    }
    let mut mapping = mapping;
    let arguments = argument_of(alloc, elements.as_slice()[0])?;
    let member = add_member(hub, g, mapping.crew, mapping.function, arguments)?;
    mapping.made.push(member)?;
    let rest = after_first(elements.as_slice());
    Ok(map_elements(alloc, hub, g, mapping, rest)?)
}
