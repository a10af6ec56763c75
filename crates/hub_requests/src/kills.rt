//! Kills.
ghost use Rattle.std.specs.Prelude.{◌≡◌, ◌+◌, ◌≤◌, ◌^◌, length, OnOk, IfOk};
ghost use Rattle.gv_values.specs.declared.value.Outcome.{Outcome as AnyOutcome};
ghost use Rattle.gv_values.specs.Ends.{kept};
ghost use Rattle.trace_text.specs.declared.line.Line.TheVariants as line;
ghost use Rattle.machine.specs.Ends.{ended};
ghost use Rattle.machine.specs.State.{say};
ghost use Rattle.machine.specs.Request.{kills, sends, sends_all};
ghost use Rattle.hub_requests.specs.Making.{MayMake};
ghost use Rattle.hub_requests.specs.Performing.{performed_of};
ghost use Rattle.machine_soundness.specs.Going.{AreNotRaw};
ghost use Rattle.machine_rooms.specs.Rooms.{HasRoom, room_of_move};
ghost use Rattle.hub_requests.specs.Sendings.{sent};

use crate::ends::{end_greenlet, say_end};
use crate::far::{Far, how_far};
use crate::performed::Performed;
use crate::waits::come_to_wait_as;
use gv_values::{FaultKind, Outcome, kept_outcome};
use hub_state::Hub;
use machine::items::{Delivery, Waiting};
use machine::limits::MOST_KILLS;
use scenario_tree::{Items, Wait};
use std::alloc::{AllocError, Global};
use trace_text::{Awaited, Line, StopCause};

/// Kills of one kind that a greenlet sends, and how it waits for the ends of those to whom they go.
#[derive(Drop)]
pub struct Killing {
    /// The fault that is thrown into each.
    pub kind: FaultKind,
    /// To whom they go, in this order.
    pub targets: Items<u32>,
    /// What the park line says is waited for.
    pub awaited: Awaited,
    /// How their ends are waited for.
    pub how: Wait,
}

/// Ends a greenlet that has not started, by the kill.
fn end_unrun(alloc: Global, hub: &mut Hub, kind: FaultKind, target: u32) -> Result<(), AllocError>
    requires { hub.old.next_ready + length hub.old.items ≤ 2 ^ 63 }
    ensures { OnOk result (hub.new ≡ ended target (kept (AnyOutcome.Fault kind)) (say (line.Throw target kind) hub.old)) }
{
    hub.say(Line::Throw {
        greenlet: target,
        fault: kind,
    })?;
    let outcome = kept_outcome(Outcome::Fault(kind));
    say_end(alloc, hub, target, &outcome)?;
    end_greenlet(hub, target, outcome);
    Ok(())
}

/// Sends a kill to the greenlet; false where one more may not stand.
#[tactic(auto, using(crate::proofs::Sent::sends_done, crate::proofs::Sent::sends_new, crate::proofs::Sent::sends_live, crate::proofs::Sent::sends_many, crate::proofs::Sent::kill_free))]
fn send_kill(alloc: Global, hub: &mut Hub, kind: FaultKind, target: u32) -> Result<bool, AllocError>
    requires { HasRoom room_of_move hub.old }
    ensures { IfOk result (λ b. sends kind target hub.old ≡ sent b hub.new) }
{
    match how_far(hub, target) {
        Far::Done => Ok(true),
        Far::New => {
            end_unrun(alloc, hub, kind, target)?;
            Ok(true)
        }
        Far::Live => {
            if hub.kills_standing() >= MOST_KILLS {
                return Ok(false);
            }
            hub.add_item(Delivery::Kill(target, kind))?;
            Ok(true)
        }
    }
}

/// Sends kills in order, as far as the limit allows; false where one was too many.
#[tactic(auto, using(crate::proofs::Sent::sent_first, crate::proofs::Sent::sent_not))]
fn send_kills(
    alloc: Global,
    hub: &mut Hub,
    kind: FaultKind,
    targets: &[u32],
) -> Result<bool, AllocError>
    requires { HasRoom room_of_move hub.old }
    ensures { IfOk result (λ b. sends_all kind targets.now hub.old ≡ sent b hub.new) }
{
    for target in targets {
        if !send_kill(alloc, hub, kind, *target)? {
            return Ok(false);
        }
    }
    Ok(true)
}

/// Sends the kills, and then waits for their ends.
#[tactic(auto, using(crate::proofs::Soundly::sound_sent))]
pub fn kill_greenlets(
    alloc: Global,
    hub: &mut Hub,
    g: u32,
    killing: Killing,
) -> Result<Performed, AllocError>
    requires may_make { MayMake g hub.old }
    requires plain { AreNotRaw hub.old.greenlets killing.targets }
    requires room { HasRoom room_of_move hub.old }
    ensures { IfOk result (λ p. kills g killing.awaited killing.kind killing.targets killing.how hub.old ≡ performed_of p hub.new) }
{
    let Killing {
        kind,
        targets,
        awaited,
        how,
    } = killing;
    let are_sent = send_kills(alloc, hub, kind, targets.as_slice())?;
    if !are_sent {
        return Ok(Performed::Stops(StopCause::NoKills));
    }
    Ok(come_to_wait_as(alloc, hub, g, awaited, Waiting::Kill(targets), how)?)
}
