//! Greenlets: how one starts, goes on and ends, and how an input lands at a raw one.
ghost use Rattle.std.specs.Prelude.{◌≡◌, ◌+◌, IfOk, OnOk};
ghost use Rattle.body_frames.specs.Destinations.{Arrives};
ghost use Rattle.body_frames.specs.Places.{Place};
ghost use Rattle.body_values.specs.Functions.{IsFunction};
ghost use Rattle.body_frames.specs.Standings.{reached_of};
ghost use Rattle.machine.specs.State.{State};
ghost use Rattle.machine.specs.declared.state.Frame.{Frame};
ghost use Rattle.machine.specs.Landing.{Landing, after_end, starts, resumes, answered, lands, lands_once};
ghost use Rattle.machine.specs.Ends.{outcome_of_leaving, leaving_of, stop_of};
ghost use Rattle.machine.specs.Greenlets.{frame_of, greenlet};
ghost use Rattle.machine.specs.Items.{drop_items, is_timeout_of};
ghost use Rattle.hub_engine.specs.declared.stand.Progress.TheVariants as progresses;
ghost use Rattle.hub_engine.specs.Progress.{ProgressesTo};
ghost use Rattle.hub_engine.specs.Ready.{AreDeclared};
ghost use Rattle.hub_engine.specs.Settlings.{MaySettle, most_hops};
ghost use Rattle.hub_engine.specs.Stands.{end_goes, goes_to, hopped, next_at};

use crate::stand::{Hop, Progress, Stand};
use body_frames::{Destination, Reached, answer_body, begin_body};
use gv_values::{Outcome, Value, kept_outcome};
use hub_requests::{Far, end_greenlet, how_far, say_end};
use hub_state::Hub;
use scenario_tree::Items;
use std::alloc::{AllocError, Global};
use trace_text::{Line, StopCause};

/// Why the run stops when main ends like this.
fn stop_of(outcome: Outcome) -> StopCause
    ensures { result ≡ stop_of outcome }
{
    match outcome {
        Outcome::Value(value) => StopCause::Value(value),
        Outcome::Fault(kind) => StopCause::Fault(kind),
    }
}

/// What a body without statements makes of an answer.
fn unheard(answer: Outcome) -> Outcome
    ensures { result ≡ outcome_of_leaving (leaving_of answer) }
{
    match answer {
        Outcome::Value(_) => Outcome::Value(Value::Nothing),
        Outcome::Fault(kind) => Outcome::Fault(kind),
    }
}

/// What comes of such an end of the greenlet: the outcome of a raw one goes up to its parent, and with main the run ends.
fn hop_of_end(alloc: Global, hub: &Hub, g: u32, outcome: &Outcome) -> Result<Hop, AllocError>
    ensures { IfOk result (λ hop. (up : Landing) (after : State) → end_goes up g outcome.now hub.now after ≡ hopped up hop after) }
{
    if hub.is_raw(g) {
        return Ok(Hop::Up(hub.parent_of(g), outcome.copy(alloc)?));
    }
    if g == 0 {
        return Ok(Hop::At(Stand::Over(stop_of(outcome.copy(alloc)?))));
    }
    Ok(Hop::At(Stand::Resting))
}

/// Ends the greenlet. All that takes memory comes before the end itself.
fn go_on_after_end(
    alloc: Global,
    hub: &mut Hub,
    g: u32,
    outcome: Outcome,
) -> Result<Hop, AllocError>
    requires { MaySettle 1 hub.old }
    ensures { IfOk result (λ hop. (up : Landing) → after_end up g outcome hub.old ≡ hopped up hop hub.new) }
{
    let outcome = kept_outcome(outcome);
    say_end(alloc, hub, g, &outcome)?;
    let hop = hop_of_end(alloc, hub, g, &outcome)?;
    end_greenlet(hub, g, outcome);
    Ok(hop)
}

/// Removes the timeouts of the blocks that the body left; mostly there are none.
fn drop_left(hub: &mut Hub, g: u32, left: Items<u32>)
    ensures { hub.new ≡ drop_items (is_timeout_of g left) hub.old }
{
    if left.as_slice().is_empty() {
        return;
    }
    hub.drop_timeouts(g, left);
}

/// Lets the greenlet go on to where its body came.
#[inline(always)]
pub fn place_greenlet(
    alloc: Global,
    hub: &mut Hub,
    g: u32,
    reached: Reached,
) -> Result<Hop, AllocError>
    requires { MaySettle 1 hub.old }
    ensures { IfOk result (λ hop. (up : Landing) → goes_to up g (reached_of reached) hub.old ≡ hopped up hop hub.new) }
{
    match reached {
        Reached::Move(left, body) => {
            drop_left(hub, g, left);
            Ok(Hop::At(Stand::Going(g, body)))
        }
        Reached::End(left, outcome) => {
            drop_left(hub, g, left);
            Ok(go_on_after_end(alloc, hub, g, outcome)?)
        }
    }
}

/// Begins the body of the greenlet with these arguments.
#[tactic(auto, using(crate::proofs::Bodies::start_goes))]
fn begin_greenlet(
    alloc: Global,
    hub: &mut Hub,
    g: u32,
    arguments: Items<Value>,
) -> Result<Hop, AllocError>
    requires declared { IsFunction hub.old.scenario (greenlet g hub.old).function }
    requires settles { MaySettle 1 hub.old }
    ensures { IfOk result (λ hop. (up : Landing) → starts up g arguments hub.old ≡ hopped up hop hub.new) }
{
    let function = hub.function_of(g);
    let name = hub.code().function_name(function);
    hub.say(Line::Start {
        greenlet: g,
        function: name,
    })?;
    let reached = begin_body(alloc, hub.code(), function, arguments)?;
    Ok(place_greenlet(alloc, hub, g, reached)?)
}

/// Gives the answer to the statement of the greenlet.
#[inline(always)]
#[tactic(auto, using(crate::proofs::Bodies::answer_goes, crate::proofs::Bodies::answer_unheard))]
fn resume_greenlet(alloc: Global, hub: &mut Hub, g: u32, answer: Outcome) -> Result<Hop, AllocError>
    requires { MaySettle 1 hub.old }
    ensures { IfOk result (λ hop. (up : Landing) → resumes up g (frame_of (greenlet g hub.old).phase) answer hub.old ≡ hopped up hop hub.new) }
{
    match hub.take_body(g) {
        Some(body) => {
            let reached = answer_body(alloc, body, answer)?;
            Ok(place_greenlet(alloc, hub, g, reached)?)
        }
        None => {
            let end = Reached::End(Items::new(alloc), unheard(answer));
            Ok(place_greenlet(alloc, hub, g, end)?)
        }
    }
}

/// Lets the input land at the greenlet, once.
#[tactic(auto, using(crate::proofs::Landing::lands_done, crate::proofs::Landing::lands_live, crate::proofs::Landing::lands_value, crate::proofs::Landing::lands_fault))]
fn land_once(alloc: Global, hub: &mut Hub, g: u32, input: Outcome) -> Result<Hop, AllocError>
    requires declared { IsFunction hub.old.scenario (greenlet g hub.old).function }
    requires settles { MaySettle 1 hub.old }
    ensures { IfOk result (λ hop. (up : Landing) → lands_once up g input hub.old ≡ hopped up hop hub.new) }
{
    match how_far(hub, g) {
        Far::Done => Ok(Hop::Up(hub.parent_of(g), kept_outcome(input))),
        Far::Live => {
            hub.say(Line::Into {
                greenlet: g,
                input: input.copy(alloc)?,
            })?;
            Ok(resume_greenlet(alloc, hub, g, input)?)
        }
        Far::New => match input {
            Outcome::Value(value) => {
                let mut arguments = Items::new(alloc);
                arguments.push(value)?;
                Ok(begin_greenlet(alloc, hub, g, arguments)?)
            }
            Outcome::Fault(kind) => Ok(go_on_after_end(alloc, hub, g, Outcome::Fault(kind))?),
        },
    }
}

/// Lets the input land at the greenlet, and go on to parents.
#[tactic(auto, using(crate::proofs::Landing::land_step, crate::proofs::Functions::declared_landed))]
pub fn land(alloc: Global, hub: &mut Hub, g: u32, input: Outcome) -> Result<Stand, AllocError>
    requires declared { AreDeclared hub.old }
    requires settles { MaySettle most_hops hub.old }
    ensures { IfOk result (λ at. lands g input hub.old ≡ next_at at hub.new) }
{
    let mut left = hub.greenlets_len();
    let mut at = g;
    let mut input = input;
    while left > 0 {
        left -= 1;
        match land_once(alloc, hub, at, input)? {
            Hop::At(stand) => return Ok(stand),
            Hop::Up(parent, outcome) => {
                at = parent;
                input = outcome;
            }
        }
    }
    Ok(Stand::Resting)
}

/// Lets what goes up land.
#[inline(always)]
pub fn hop_on(alloc: Global, hub: &mut Hub, hop: Hop) -> Result<Stand, AllocError>
    requires declared { AreDeclared hub.old }
    requires settles { MaySettle most_hops hub.old }
    ensures { IfOk result (λ at. hopped lands hop hub.old ≡ next_at at hub.new) }
{
    match hop {
        Hop::At(stand) => Ok(stand),
        Hop::Up(parent, outcome) => Ok(land(alloc, hub, parent, outcome)?),
    }
}

/// Lets the greenlet go on to where its body came, which stays where it is. If it has ended, where the hub stands then is
/// put into `left`.
pub fn arrive(
    alloc: Global,
    hub: &mut Hub,
    g: u32,
    to: Destination,
    left: &mut Progress,
) -> Result<(), AllocError>
    requires stays { left.old ≡ progresses.Stays }
    requires declared { AreDeclared hub.old }
    requires settles { MaySettle (most_hops + 1) hub.old }
    ensures { (place : Place) (body : Frame) → Arrives place to body → OnOk result (ProgressesTo (goes_to lands g place hub.old) left.new g body hub.new) }
{
    match to {
        Destination::Move(timeouts) => {
            drop_left(hub, g, timeouts);
            Ok(())
        }
        Destination::End(timeouts, outcome) => {
            let hop = place_greenlet(alloc, hub, g, Reached::End(timeouts, outcome))?;
            *left = Progress::At(hop_on(alloc, hub, hop)?);
            Ok(())
        }
    }
}

/// Starts the body of the greenlet with these arguments.
#[tactic(auto, using(crate::proofs::Functions::declared_started))]
pub fn start_body(
    alloc: Global,
    hub: &mut Hub,
    g: u32,
    arguments: Items<Value>,
) -> Result<Stand, AllocError>
    requires declared { AreDeclared hub.old }
    requires settles { MaySettle (most_hops + 1) hub.old }
    ensures { IfOk result (λ at. starts lands g arguments hub.old ≡ next_at at hub.new) }
{
    let hop = begin_greenlet(alloc, hub, g, arguments)?;
    Ok(hop_on(alloc, hub, hop)?)
}

/// Answers the statement of the greenlet.
#[inline(always)]
#[tactic(auto, using(crate::proofs::Functions::declared_resumed))]
pub fn answer_greenlet(
    alloc: Global,
    hub: &mut Hub,
    g: u32,
    answer: Outcome,
) -> Result<Stand, AllocError>
    requires declared { AreDeclared hub.old }
    requires settles { MaySettle (most_hops + 1) hub.old }
    ensures { IfOk result (λ at. answered g answer hub.old ≡ next_at at hub.new) }
{
    let hop = resume_greenlet(alloc, hub, g, answer)?;
    Ok(hop_on(alloc, hub, hop)?)
}
