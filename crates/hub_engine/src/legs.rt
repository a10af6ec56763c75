//! The moves of a greenlet, made one leg after another where its body stands.
ghost use Rattle.std.specs.Prelude.{◌≡◌, ◌+◌, ◌<◌, ◌≤◌, ◌^◌, ℕ, [], None, IsTrue, OnOk, IfOk};
ghost use Rattle.gv_values.specs.declared.limits.TheConstants.{MOST_MOVES};
ghost use Rattle.body_frames.specs.Destinations.{IsMoving};
ghost use Rattle.body_entries.specs.Few.{HasFewToDo};
ghost use Rattle.body_frames.specs.Places.{Came, place_of};
ghost use Rattle.body_frames.specs.Quick.{request_of};
ghost use Rattle.machine.specs.declared.state.Frame.{Frame};
ghost use Rattle.machine.specs.declared.state.Leaving.{Leaving};
ghost use Rattle.machine.specs.declared.state.Phase.{Phase};
ghost use Rattle.machine.specs.Greenlets.{no_frame, with_phase};
ghost use Rattle.machine.specs.Request.{performs};
ghost use Rattle.machine.specs.Run.{silent};
ghost use Rattle.machine.specs.Settle.{settle};
ghost use Rattle.machine.specs.State.{State};
ghost use Rattle.machine.specs.Unwinding.{unwind};
ghost use Rattle.machine_rooms.specs.Rooms.{HasRoom, room_of_move};
ghost use Rattle.hub_objects.specs.Releases.{refused};
ghost use Rattle.hub_engine.specs.declared.stand.Progress.TheVariants as progresses;
ghost use Rattle.hub_engine.specs.Asking.{IsDeclaredAfter};
ghost use Rattle.hub_engine.specs.Legs.{ComesBy, EndsBy, GoesBy};
ghost use Rattle.hub_engine.specs.Making.{MayMove};
ghost use Rattle.hub_engine.specs.Onward.{IsAtRest};
ghost use Rattle.hub_engine.specs.Ready.{AreDeclared, IsReadyToMove};
ghost use Rattle.hub_engine.specs.Settlings.{HasMoveRoom, HasMovesRoom};
ghost use Rattle.hub_engine.specs.Within.{IsWithinToMove};

use crate::moves::{answer_running, come_to, go_under_way, settle_hub, step_any};
use crate::stand::{Progress, is_silent};
use body_frames::{Halt, Quick, Running};
use gv_values::{FaultKind, Outcome, Value};
use hub_requests::{do_at, say_print};
use hub_state::Hub;
use std::alloc::{AllocError, Global};

/// How many moves the greenlet may make before the hub has to settle, of so many: all, where there is nothing to settle
/// now.
fn moves_ahead(hub: &Hub, g: u32, most: u64) -> u64
    requires { 0 < most }
    ensures some { 0 < result }
    ensures few { result ≤ most }
    ensures rest { 1 < result → IsAtRest g hub.now }
{
    if hub.is_done(g) {
        return 1;
    }
    if hub.is_at_rest() {
        return most;
    }
    1
}

/// The settling after so many moves of the greenlet that stay in its body, which are counted.
#[inline(always)]
fn stay(hub: &mut Hub, g: u32, moves: u64)
    requires few { hub.old.moves + moves < 2 ^ 64 }
    requires room { HasMoveRoom g (record hub.old { moves = hub.old.moves + moves }) }
    ensures { hub.new ≡ settle (with_phase g (Phase.Live no_frame) (record hub.old { moves = hub.old.moves + moves })) }
{
    hub.count_moves(moves);
    go_under_way(hub, g);
    settle_hub(hub);
}

/// Performs what is answered at once: with none, or this fault refuses it.
#[inline(always)]
fn perform_quick(hub: &mut Hub, g: u32, quick: Quick) -> Result<Option<FaultKind>, AllocError>
    requires { HasRoom room_of_move hub.old }
    ensures { IfOk result (λ refusal. performs (request_of quick) g hub.old ≡ refused refusal hub.new) }
{
    match quick {
        Quick::PrintInteger(n) => {
            say_print(hub, g, Value::Int(n))?;
            Ok(None)
        }
        Quick::PrintTruth(b) => {
            say_print(hub, g, Value::Bool(b))?;
            Ok(None)
        }
        Quick::At(o, deed) => Ok(do_at(hub, g, o, deed)),
    }
}

/// Lets the body go on by itself. What is left of that is put into `left`.
fn go_on_into(
    alloc: Global,
    hub: &mut Hub,
    g: u32,
    running: &mut Running,
    left: &mut Progress,
) -> Result<(), AllocError>
    requires stays { left.old ≡ progresses.Stays }
    requires to_do { HasFewToDo running.old.todo }
    requires declared { AreDeclared hub.old }
    requires room { HasMoveRoom g hub.old }
    ensures { OnOk result (ComesBy g (Came.Comes (place_of (unwind running.old.todo [] Leaving.Normally running.old.locals))) hub.old left.new running.new hub.new) }
{
    let to = running.go_on(alloc)?;
    Ok(come_to(alloc, hub, g, to, left)?)
}

/// Performs what the last move asked, which is counted, is answered at once and has nothing to do with greenlets. If the
/// body does not stay, what is left of the move is put into `left`.
#[inline(always)]
fn serve_quick(
    alloc: Global,
    hub: &mut Hub,
    g: u32,
    running: &mut Running,
    quick: Quick,
    left: &mut Progress,
) -> Result<(), AllocError>
    requires stays { left.old ≡ progresses.Stays }
    requires to_do { HasFewToDo running.old.todo }
    requires unheard { running.old.gives ≡ None }
    requires room { HasMoveRoom g hub.old }
    requires may_move { MayMove g hub.old }
    requires after { IsDeclaredAfter g (Came.Asks (request_of quick) running.old) hub.old }
    ensures { (n : ℕ) (a : Frame) (s : State) → GoesBy g n a s hub.old (Came.Asks (request_of quick) running.old) →
        OnOk result (EndsBy left.new g n a s running.new hub.new) }
{
    go_under_way(hub, g);
    let refusal = perform_quick(hub, g, quick)?;
    match refusal {
        Some(kind) => Ok(answer_running(alloc, hub, g, running, Outcome::Fault(kind), left)?),
        None => {
            if running.is_at_move() {
                settle_hub(hub);
                return Ok(());
            }
            Ok(answer_running(alloc, hub, g, running, Outcome::Value(Value::Nothing), left)?)
        }
    }
}

/// Lets the body make moves where it stands, at most so many: how many it made before the last. If the body does not
/// stay, what is left of that is put into `left`.
#[inline(always)]
fn make_leg(
    alloc: Global,
    hub: &mut Hub,
    g: u32,
    running: &mut Running,
    most: u64,
    left: &mut Progress,
) -> Result<u64, AllocError>
    requires stays { left.old ≡ progresses.Stays }
    requires ready { IsReadyToMove g (with_phase g (Phase.Live running.old) hub.old) }
    requires moving { IsMoving running.old }
    requires some { 0 < most }
    requires few { hub.old.moves + most < 2 ^ 64 }
    requires room { HasMovesRoom most g hub.old }
    ensures few { IfOk result (λ before. before < most) }
    ensures ends { IfOk result (λ before. EndsBy left.new g before running.old hub.old running.new hub.new) }
{
    let ahead = moves_ahead(hub, g, most);
    let ran = running.run(hub.code(), ahead)?;
    match ran.halt {
        Halt::Ahead => {
            if ran.moves == 0 {
                step_any(alloc, hub, g, running, left)?;
                return Ok(0);
            }
            stay(hub, g, ran.moves);
            Ok(ran.moves - 1)
        }
        Halt::Leaves => {
            hub.count_moves(ran.moves + 1);
            go_on_into(alloc, hub, g, running, left)?;
            Ok(ran.moves)
        }
        Halt::Asks(quick) => {
            hub.count_moves(ran.moves + 1);
            serve_quick(alloc, hub, g, running, quick, left)?;
            Ok(ran.moves)
        }
    }
}

/// Whether the body stays where it is, more than one move is left, and there is nothing to give out.
#[inline(always)]
fn stays_on(hub: &Hub, progress: &Progress, left: u64) -> bool
    ensures stays { IsTrue result → progress.now ≡ progresses.Stays }
    ensures some { IsTrue result → 1 < left }
    ensures silent { IsTrue result → hub.now ≡ silent hub.now }
{
    if 1 < left {
        return match progress {
            Progress::Stays => is_silent(hub),
            _ => false,
        };
    }
    false
}

/// Lets the greenlet make its next moves where its body stands, at most so many, until it has to wait or there is
/// something to give out: how many it made before the last. If the body does not stay, what is left of that is put into
/// `left`.
pub fn step_greenlet(
    alloc: Global,
    hub: &mut Hub,
    g: u32,
    running: &mut Running,
    most: u64,
    left: &mut Progress,
) -> Result<u64, AllocError>
    requires stays { left.old ≡ progresses.Stays }
    requires ready { IsReadyToMove g (with_phase g (Phase.Live running.old) hub.old) }
    requires within { IsWithinToMove g (with_phase g (Phase.Live running.old) hub.old) }
    requires moving { IsMoving running.old }
    requires some { 0 < most }
    requires few { hub.old.moves + most ≤ MOST_MOVES }
    ensures few { IfOk result (λ before. before < most) }
    ensures ends { IfOk result (λ before. EndsBy left.new g before running.old hub.old running.new hub.new) }
{
    let mut made = 0;
    'moves: loop {
        let before = make_leg(alloc, hub, g, running, most - made, left)?;
        if !stays_on(hub, left, most - made - before) {
            return Ok(made + before);
        }
        made += before + 1;
    }
}
