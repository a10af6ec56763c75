//! New greenlets, and their starts.
ghost use Rattle.std.specs.Prelude.{◌≡◌, false, OnOk, IfOk};
ghost use Rattle.machine.specs.Request.{makes, start_of, starts_at};
ghost use Rattle.hub_state.specs.Adding.{MayAdd};
ghost use Rattle.hub_requests.specs.Making.{MayMake};
ghost use Rattle.hub_requests.specs.Performing.{performed_of};

use crate::far::{Far, how_far};
use crate::performed::Performed;
use gv_values::{Outcome, Value};
use hub_state::Hub;
use machine::items::Delivery;
use scenario_tree::Items;
use std::alloc::AllocError;
use trace_text::StopCause;

/// Makes a greenlet of the function, with a start item: at once, or from the deadline on.
#[tactic(auto, using(crate::proofs::Soundly::start_free))]
pub fn spawn_greenlet(
    hub: &mut Hub,
    g: u32,
    function: u32,
    arguments: Items<Value>,
    deadline: Option<u64>,
) -> Result<Performed, AllocError>
    requires may_make { MayMake g hub.old }
    requires may_add { MayAdd 1 hub.old }
    ensures { IfOk result (λ p. makes false 0 function arguments (starts_at deadline) hub.old ≡ performed_of p hub.new) }
{
    if !hub.has_greenlet_left() {
        return Ok(Performed::Stops(StopCause::NoGreenlets));
    }
    let made = hub.add_greenlet(false, 0, function, arguments)?;
    hub.add_item(Delivery::Start(made, deadline))?;
    Ok(Performed::Answers(Outcome::Value(Value::Greenlet(made))))
}

/// Makes a greenlet of the function, without a start item.
pub fn make_greenlet(
    hub: &mut Hub,
    raw: bool,
    parent: u32,
    function: u32,
    arguments: Items<Value>,
) -> Result<Performed, AllocError>
    ensures { IfOk result (λ p. makes raw parent function arguments (λ g s. s) hub.old ≡ performed_of p hub.new) }
{
    if !hub.has_greenlet_left() {
        return Ok(Performed::Stops(StopCause::NoGreenlets));
    }
    let made = hub.add_greenlet(raw, parent, function, arguments)?;
    Ok(Performed::Answers(Outcome::Value(Value::Greenlet(made))))
}

/// Gives the greenlet a start item, where it is New and has none.
#[tactic(auto, using(crate::proofs::Starting::start_made, crate::proofs::Starting::start_stands, crate::proofs::Starting::no_start_live, crate::proofs::Starting::no_start_done, crate::proofs::Soundly::start_missing))]
pub fn start_greenlet(hub: &mut Hub, target: u32) -> Result<(), AllocError>
    requires { MayAdd 1 hub.old }
    ensures { OnOk result (hub.new ≡ start_of target hub.old) }
{
    match how_far(hub, target) {
        Far::New => {
            if hub.has_start(target) {
                return Ok(());
            }
            hub.add_item(Delivery::Start(target, None))
        }
        Far::Live => Ok(()),
        Far::Done => Ok(()),
    }
}
