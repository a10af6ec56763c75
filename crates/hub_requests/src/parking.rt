//! How a greenlet parks.
ghost use Rattle.std.specs.Prelude.{◌≡◌, ◌+◌, ◌<◌, ◌^◌, true, None, Some, IfSome, OnOk};
ghost use Rattle.machine.specs.Soundness.{Claim, is_unclaimed};
ghost use Rattle.machine.specs.Waits.{parked, until_of};
ghost use Rattle.hub_items.specs.Short.{IsShort};
ghost use Rattle.hub_state.specs.Adding.{MayAdd};
ghost use Rattle.hub_requests.specs.Awaited.{awaited_of, object_of};
ghost use Rattle.hub_requests.specs.Making.{MayMake};
ghost use Rattle.hub_requests.specs.Naming.{IsObject};
ghost use Rattle.hub_requests.specs.Parking.{with_late};

use crate::awaited::awaited_of;
use crate::late::draws;
use hub_state::Hub;
use machine::items::{Delivery, Waiting};
use std::alloc::AllocError;
use trace_text::{Awaited, Line};

/// The moment at which the wait ends by itself where it is a sleep, and else the deadline.
fn until_of(waiting: &Waiting, deadline: Option<u64>) -> Option<u64>
    ensures { result ≡ until_of waiting.now deadline }
{
    match waiting {
        Waiting::Sleep(until) => Some(*until),
        _ => deadline,
    }
}

/// Parks the greenlet without a deadline of its own.
pub fn park(hub: &mut Hub, g: u32, waiting: Waiting) -> Result<(), AllocError>
    requires may_make { MayMake g hub.old }
    requires named { IfSome (object_of waiting) (IsObject hub.old.scenario) }
    requires short { IsShort waiting }
    requires may_add { MayAdd 1 hub.old }
    ensures { OnOk result (hub.new ≡ parked g (awaited_of waiting hub.old) waiting None hub.old) }
{
    let awaited = awaited_of(hub, &waiting);
    park_as(hub, g, awaited, waiting)
}

/// As `park`, with a line that says this is waited for.
#[tactic(auto, using(crate::proofs::Soundly::wake_free))]
pub fn park_as(hub: &mut Hub, g: u32, awaited: Awaited, waiting: Waiting) -> Result<(), AllocError>
    requires may_make { MayMake g hub.old }
    requires short { IsShort waiting }
    requires may_add { MayAdd 1 hub.old }
    ensures { OnOk result (hub.new ≡ parked g awaited waiting None hub.old) }
{
    hub.say(Line::Park {
        greenlet: g,
        awaited,
        until: until_of(&waiting, None),
    })?;
    hub.add_item(Delivery::Wake(g, waiting))?;
    Ok(())
}

/// Makes the Late of the greenlet, whose wait draws a number or not.
fn add_late(hub: &mut Hub, g: u32, deadline: u64, numbered: bool) -> Result<(), AllocError>
    requires unclaimed { is_unclaimed (Some (Claim.LateOf g)) hub.old.items ≡ true }
    requires may_add { MayAdd 1 hub.old }
    requires drawn { hub.old.timeouts + 1 < 2 ^ 32 }
    ensures { OnOk result (hub.new ≡ with_late g deadline numbered hub.old) }
{
    if numbered {
        let n = hub.count_timeout();
        hub.add_item(Delivery::Late(g, deadline, n))
    } else {
        hub.add_item(Delivery::Late(g, deadline, 0))
    }
}

/// As `park_as`, until a deadline: right after its Wake stands its Late.
pub fn park_until(
    hub: &mut Hub,
    g: u32,
    awaited: Awaited,
    waiting: Waiting,
    deadline: u64,
) -> Result<(), AllocError>
    requires may_make { MayMake g hub.old }
    requires short { IsShort waiting }
    requires may_add { MayAdd 2 hub.old }
    requires drawn { hub.old.timeouts + 1 < 2 ^ 32 }
    ensures { OnOk result (hub.new ≡ parked g awaited waiting (Some deadline) hub.old) }
{
    hub.say(Line::Park {
        greenlet: g,
        awaited,
        until: Some(deadline),
    })?;
    let numbered = draws(&waiting);
    hub.add_item(Delivery::Wake(g, waiting))?;
    add_late(hub, g, deadline, numbered)
}
