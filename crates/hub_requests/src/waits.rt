//! How a greenlet comes to a wait: it completes at once, parks, or does not wait.
ghost use Rattle.std.specs.Prelude.{◌≡◌, OnOk, IfOk, IfSome};
ghost use Rattle.machine.specs.Waits.{comes, offered, waits};
ghost use Rattle.machine_rooms.specs.Rooms.{HasRoom, room_of_move};
ghost use Rattle.hub_items.specs.Short.{IsShort};
ghost use Rattle.hub_state.specs.Adding.{MayAdd};
ghost use Rattle.hub_requests.specs.Awaited.{awaited_of, object_of};
ghost use Rattle.hub_requests.specs.Making.{MayMake};
ghost use Rattle.hub_requests.specs.Naming.{IsNamed, IsObject};
ghost use Rattle.hub_requests.specs.Performing.{performed_of};

use crate::awaited::awaited_of;
use crate::completions::complete_wait;
use crate::late::{draw, late_outcome};
use crate::parking::{park, park_as, park_until};
use crate::performed::Performed;
use gv_values::Value;
use hub_objects::Addition;
use hub_state::Hub;
use machine::items::Waiting;
use scenario_tree::Wait;
use std::alloc::{AllocError, Global};
use trace_text::Awaited;

/// Parks the greenlet, or does not begin the wait.
fn park_or_pass(
    alloc: Global,
    hub: &mut Hub,
    g: u32,
    awaited: Awaited,
    waiting: Waiting,
    how: Wait,
) -> Result<Performed, AllocError>
    requires may_make { MayMake g hub.old }
    requires short { IsShort waiting }
    requires room { HasRoom room_of_move hub.old }
    ensures { IfOk result (λ p. waits g awaited waiting how hub.old ≡ performed_of p hub.new) }
{
    match how {
        Wait::Block => {
            park_as(hub, g, awaited, waiting)?;
            Ok(Performed::Parks)
        }
        Wait::Within(time) => {
            let deadline = hub.deadline_after(time);
            park_until(hub, g, awaited, waiting, deadline)?;
            Ok(Performed::Parks)
        }
        Wait::Now => {
            let n = draw(hub, &waiting);
            let outcome = late_outcome(alloc, hub, &waiting, n)?;
            Ok(Performed::Answers(outcome))
        }
    }
}

/// Lets a newcomer wait, unless its wait completes at once.
pub fn come_to_wait(
    alloc: Global,
    hub: &mut Hub,
    g: u32,
    waiting: Waiting,
    how: Wait,
) -> Result<Performed, AllocError>
    requires may_make { MayMake g hub.old }
    requires named { IfSome (object_of waiting) (IsObject hub.old.scenario) }
    requires short { IsShort waiting }
    requires room { HasRoom room_of_move hub.old }
    ensures { IfOk result (λ p. comes g (awaited_of waiting hub.old) waiting how hub.old ≡ performed_of p hub.new) }
{
    let awaited = awaited_of(hub, &waiting);
    Ok(come_to_wait_as(alloc, hub, g, awaited, waiting, how)?)
}

/// As `come_to_wait`, with a park line that says this is waited for.
pub fn come_to_wait_as(
    alloc: Global,
    hub: &mut Hub,
    g: u32,
    awaited: Awaited,
    waiting: Waiting,
    how: Wait,
) -> Result<Performed, AllocError>
    requires may_make { MayMake g hub.old }
    requires named { IsNamed hub.old.scenario waiting }
    requires short { IsShort waiting }
    requires room { HasRoom room_of_move hub.old }
    ensures { IfOk result (λ p. comes g awaited waiting how hub.old ≡ performed_of p hub.new) }
{
    if hub.newcomer_completes(g, &waiting) {
        let since = hub.next_since();
        Ok(complete_wait(alloc, hub, g, since, waiting)?)
    } else {
        Ok(park_or_pass(alloc, hub, g, awaited, waiting, how)?)
    }
}

/// Parks the greenlet with an offer of this value on the channel.
pub fn offer(hub: &mut Hub, g: u32, o: u32, value: Value) -> Result<(), AllocError>
    requires may_make { MayMake g hub.old }
    requires named { IsObject hub.old.scenario o }
    requires may_add { MayAdd 1 hub.old }
    ensures { OnOk result (hub.new ≡ offered g o value hub.old) }
{
    let since = hub.next_since();
    park(hub, g, Waiting::Offered(o))?;
    hub.add_to(o, Addition::Offer(value, since))
}
