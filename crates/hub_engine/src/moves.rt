//! One move of a greenlet whose body stays where it is: what the hub does by what came of it.
ghost use Rattle.std.specs.Prelude.{◌≡◌, ◌+◌, ◌<◌, ◌≤◌, ◌^◌, length, true, IsTrue, Some, OnOk, IfOk};
ghost use Rattle.body_frames.specs.Destinations.{Arrives, inside};
ghost use Rattle.body_entries.specs.Few.{HasFewToDo};
ghost use Rattle.body_frames.specs.Places.{Came, Entered, Place};
ghost use Rattle.machine.specs.declared.state.Frame.{Frame};
ghost use Rattle.machine.specs.declared.state.Phase.{Phase};
ghost use Rattle.machine.specs.Greenlets.{no_frame, with_phase};
ghost use Rattle.machine.specs.Landing.{answered};
ghost use Rattle.machine.specs.Settle.{settle};
ghost use Rattle.machine.specs.Request.{follows, performs};
ghost use Rattle.machine.specs.Moves.{timeout_item};
ghost use Rattle.machine.specs.Soundness.{Claim, is_unclaimed, phase_of};
ghost use Rattle.machine_trace_laws.specs.Reached.{state_of_next};
ghost use Rattle.machine_well_formed.specs.Texts.{fits_request};
ghost use Rattle.hub_state.specs.Adding.{MayAdd};
ghost use Rattle.hub_requests.specs.Performing.{performed_of};
ghost use Rattle.hub_engine.specs.declared.stand.Progress.TheVariants as progresses;
ghost use Rattle.hub_engine.specs.Asking.{leaves_greenlets};
ghost use Rattle.hub_engine.specs.Legs.{ComesBy, EndsBy};
ghost use Rattle.hub_engine.specs.Making.{MayMove};
ghost use Rattle.hub_engine.specs.Progress.{MayFinish, ProgressesTo, next_of};
ghost use Rattle.hub_engine.specs.Ready.{AreDeclared, IsReadyToMove};
ghost use Rattle.hub_engine.specs.Settlings.{HasMoveRoom, HasMovesRoom, MaySettle, most_hops};
ghost use Rattle.hub_engine.specs.Stands.{next_at};

use crate::life::{answer_greenlet, arrive, land};
use crate::stand::{Progress, Stand};
use body_frames::{Destination, Moved, Running};
use gv_values::Outcome;
use hub_requests::{Performed, perform};
use hub_state::{Hub, Seen, Stage};
use machine::items::Delivery;
use machine::request::Request;
use std::alloc::{AllocError, Global};

/// Whether the greenlet is under way.
fn is_under_way(hub: &Hub, g: u32) -> bool
    ensures { IsTrue result → phase_of g hub.now.greenlets ≡ Some (Phase.Live no_frame) }
{
    match hub.stage(g) {
        Some(Stage::UnderWay) => true,
        _ => false,
    }
}

/// Lets the greenlet be under way, as mostly it is already; then nothing is done.
#[tactic(auto, using(crate::proofs::Blind::under_way_still))]
pub fn go_under_way(hub: &mut Hub, g: u32)
    ensures { hub.new ≡ with_phase g (Phase.Live no_frame) hub.old }
{
    if is_under_way(hub, g) {
        return;
    }
    hub.set_stage(g, Stage::UnderWay);
}

/// Settles the hub, where there is anything to settle.
pub fn settle_hub(hub: &mut Hub)
    requires { hub.old.next_ready + length hub.old.items ≤ 2 ^ 63 }
    ensures { hub.new ≡ settle hub.old }
{
    if hub.is_at_rest() {
        return;
    }
    hub.settle();
}

/// Goes on after a request of the greenlet.
#[inline(always)]
pub fn go_on_after(
    alloc: Global,
    hub: &mut Hub,
    g: u32,
    performed: Performed,
) -> Result<Stand, AllocError>
    requires declared { AreDeclared hub.old }
    requires settles { MaySettle (most_hops + 2) hub.old }
    ensures { IfOk result (λ at. follows g (performed_of performed hub.old) ≡ next_at at hub.new) }
{
    match performed {
        Performed::Answers(outcome) => {
            settle_hub(hub);
            Ok(answer_greenlet(alloc, hub, g, outcome)?)
        }
        Performed::Parks => {
            settle_hub(hub);
            Ok(Stand::Resting)
        }
        Performed::Lands(target, input) => {
            settle_hub(hub);
            Ok(land(alloc, hub, target, input)?)
        }
        Performed::Stops(cause) => Ok(Stand::Over(cause)),
    }
}

/// Whether the request has nothing to do with greenlets: it reads none and changes none.
fn leaves_greenlets(request: &Request) -> bool
    ensures { result ≡ leaves_greenlets request.now }
{
    match request {
        Request::Print(_) => true,
        Request::Sleep(_) => true,
        Request::Set(_) => true,
        Request::Clear(_) => true,
        Request::WaitEvent(_, _) => true,
        Request::ResultSet(_, _) => true,
        Request::ResultFail(_, _) => true,
        Request::ResultGet(_, _) => true,
        Request::ResultWait(_, _) => true,
        Request::Acquire(_, _) => true,
        Request::Release(_) => true,
        Request::QueuePut(_, _, _) => true,
        Request::QueueGet(_, _) => true,
        Request::QueuePeek(_, _) => true,
        Request::QueueDone(_) => true,
        Request::QueueJoin(_, _) => true,
        Request::GroupJoin(_, _) => true,
        Request::NativeSpawn(_, _, _, _) => true,
        Request::ChannelPut(_, _) => true,
        Request::ChannelGet(_) => true,
        Request::QueueShut(_, _) => true,
        _ => false,
    }
}

/// Gives the body, which is under way and waits, the answer to what it asked, with the settling before it. What is left
/// of that is put into `left`.
pub fn answer_running(
    alloc: Global,
    hub: &mut Hub,
    g: u32,
    running: &mut Running,
    answer: Outcome,
    left: &mut Progress,
) -> Result<(), AllocError>
    requires stays { left.old ≡ progresses.Stays }
    requires few { HasFewToDo running.old.todo }
    requires declared { AreDeclared hub.old }
    requires under_way { phase_of g hub.old.greenlets ≡ Some (Phase.Live no_frame) }
    requires settles { MaySettle (most_hops + 2) hub.old }
    ensures { OnOk result (ProgressesTo (answered g answer (settle (with_phase g (Phase.Live running.old) hub.old))) left.new g running.new hub.new) }
{
    settle_hub(hub);
    let to = running.answer(alloc, answer)?;
    Ok(arrive(alloc, hub, g, to, left)?)
}

/// Performs what the body asks, where that has nothing to do with greenlets: mostly it is answered at once, and the
/// body stands beside the hub until it has to wait. What is left of that is put into `left`.
#[inline(always)]
fn serve_beside(
    alloc: Global,
    hub: &mut Hub,
    g: u32,
    request: Request,
    running: &mut Running,
    left: &mut Progress,
) -> Result<(), AllocError>
    requires stays { left.old ≡ progresses.Stays }
    requires few { HasFewToDo running.old.todo }
    requires may_move { MayMove g hub.old }
    requires fits { fits_request hub.old.scenario request ≡ true }
    requires leaves { leaves_greenlets request ≡ true }
    requires room { HasMoveRoom g hub.old }
    requires after { AreDeclared (state_of_next (follows g (performs request g (with_phase g (Phase.Live running.old) hub.old)))) }
    ensures { OnOk result (ProgressesTo (follows g (performs request g (with_phase g (Phase.Live running.old) hub.old))) left.new g running.new hub.new) }
{
    go_under_way(hub, g);
    let performed = perform(alloc, hub, request, g)?;
    match performed {
        Performed::Answers(outcome) => {
            Ok(answer_running(alloc, hub, g, running, outcome, left)?)
        }
        other => {
            *left = Progress::Waits(other);
            Ok(())
        }
    }
}

/// Makes the timeout item, where the block has a time.
fn add_timeout(hub: &mut Hub, g: u32, n: u32, after: Option<u32>) -> Result<(), AllocError>
    requires free { is_unclaimed (Some (Claim.TimeoutNumbered n)) hub.old.items ≡ true }
    requires may_add { MayAdd 1 hub.old }
    ensures { OnOk result (hub.new ≡ timeout_item g n after hub.old) }
{
    if let Some(time) = after {
        let deadline = hub.deadline_after(time);
        hub.add_item(Delivery::Timeout(g, n, deadline))?;
    }
    Ok(())
}

/// The body is inside the timeout block that it entered, and came there, whatever body the greenlet had before. What is
/// left of that is put into `left`.
#[tactic(auto, using(crate::proofs::Soundly::timeout_free))]
fn enter_block(
    alloc: Global,
    hub: &mut Hub,
    g: u32,
    after: Option<u32>,
    to: Destination,
    left: &mut Progress,
) -> Result<(), AllocError>
    requires stays { left.old ≡ progresses.Stays }
    requires may_move { MayMove g hub.old }
    requires declared { AreDeclared hub.old }
    requires room { HasMoveRoom g hub.old }
    ensures { (e : Entered) (body : Frame) → Arrives (inside (hub.old.timeouts + 1) e) to body →
        OnOk result (ComesBy g (Came.Enters after e) hub.old left.new body hub.new) }
{
    go_under_way(hub, g);
    let n = hub.count_timeout();
    add_timeout(hub, g, n, after)?;
    settle_hub(hub);
    Ok(arrive(alloc, hub, g, to, left)?)
}

/// The body goes on by itself and came there, whatever body the greenlet had before. What is left of that is put into
/// `left`.
pub fn come_to(
    alloc: Global,
    hub: &mut Hub,
    g: u32,
    to: Destination,
    left: &mut Progress,
) -> Result<(), AllocError>
    requires stays { left.old ≡ progresses.Stays }
    requires declared { AreDeclared hub.old }
    requires room { HasMoveRoom g hub.old }
    ensures { (place : Place) (body : Frame) → Arrives place to body → OnOk result (ComesBy g (Came.Comes place) hub.old left.new body hub.new) }
{
    go_under_way(hub, g);
    settle_hub(hub);
    Ok(arrive(alloc, hub, g, to, left)?)
}

/// Makes the next move of the body, whatever it is. What is left of that is put into `left`.
pub fn step_any(
    alloc: Global,
    hub: &mut Hub,
    g: u32,
    running: &mut Running,
    left: &mut Progress,
) -> Result<(), AllocError>
    requires stays { left.old ≡ progresses.Stays }
    requires ready { IsReadyToMove g (with_phase g (Phase.Live running.old) hub.old) }
    requires to_do { HasFewToDo running.old.todo }
    requires few { hub.old.moves + 1 < 2 ^ 64 }
    requires room { HasMovesRoom 1 g hub.old }
    ensures { OnOk result (EndsBy left.new g 0 running.old hub.old running.new hub.new) }
{
    let timeout = hub.timeouts() + 1;
    let moved = running.step(alloc, hub.code(), &Seen::new(hub, g), timeout)?;
    hub.count_moves(1);
    match moved {
        Moved::Comes(to) => Ok(come_to(alloc, hub, g, to, left)?),
        Moved::Asks(request) => {
            if !leaves_greenlets(&request) {
                *left = Progress::Asks(request);
                return Ok(());
            }
            Ok(serve_beside(alloc, hub, g, request, running, left)?)
        }
        Moved::Enters(after, to) => Ok(enter_block(alloc, hub, g, after, to, left)?),
    }
}

/// Finishes the step of the greenlet: a body that waits goes into the hub.
#[inline(always)]
#[tactic(auto, using(crate::proofs::Soundly::sound_parked, crate::proofs::Functions::declared_followed))]
pub fn finish(
    alloc: Global,
    hub: &mut Hub,
    g: u32,
    running: Running,
    progress: Progress,
) -> Result<Stand, AllocError>
    requires { MayFinish progress g running hub.old }
    ensures { IfOk result (λ at. next_of progress g running hub.old ≡ next_at at hub.new) }
{
    match progress {
        Progress::Stays => Ok(Stand::Going(g, running.into_moving())),
        Progress::At(stand) => Ok(stand),
        Progress::Waits(performed) => {
            hub.set_stage(g, Stage::Parked(running.into_parked()));
            Ok(go_on_after(alloc, hub, g, performed)?)
        }
        Progress::Asks(request) => {
            hub.set_stage(g, Stage::Parked(running.into_parked()));
            let performed = perform(alloc, hub, request, g)?;
            Ok(go_on_after(alloc, hub, g, performed)?)
        }
    }
}
