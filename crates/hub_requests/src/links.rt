//! Links.
ghost use Rattle.std.specs.Prelude.{◌≡◌, IfOk};
ghost use Rattle.gv_values.specs.declared.value.Whom.{Whom};
ghost use Rattle.machine.specs.Holds.{outcome_of};
ghost use Rattle.machine.specs.Items.{drop_items};
ghost use Rattle.machine.specs.Request.{is_link, link_stands, links};
ghost use Rattle.hub_state.specs.Adding.{MayAdd};
ghost use Rattle.hub_requests.specs.Making.{MayMake};
ghost use Rattle.hub_requests.specs.Performing.{performed_of};

use crate::performed::Performed;
use gv_values::{LinkKind, Outcome, Value, link_fits};
use hub_items::Gone;
use hub_state::Hub;
use machine::items::Delivery;
use machine::limits::MOST_LINKS;
use std::alloc::AllocError;
use trace_text::StopCause;

/// Whether a link of this kind stands at the greenlet, or is dropped since that has ended otherwise.
fn link_stands(hub: &Hub, g: u32, kind: LinkKind) -> bool
    ensures { result ≡ link_stands kind (outcome_of hub.now (Whom.Greenlet g)) }
{
    match hub.outcome_of_greenlet(g) {
        None => true,
        Some(outcome) => link_fits(kind, outcome),
    }
}

/// Links the function to the end of the target; the link's number is the answer.
#[tactic(auto, using(crate::proofs::Soundly::link_free, crate::proofs::Linking::linked, crate::proofs::Linking::too_many))]
pub fn link_to(
    hub: &mut Hub,
    g: u32,
    target: u32,
    kind: LinkKind,
    function: u32,
) -> Result<Performed, AllocError>
    requires may_make { MayMake g hub.old }
    requires may_add { MayAdd 1 hub.old }
    ensures { IfOk result (λ p. links target kind function hub.old ≡ performed_of p hub.new) }
{
    if hub.links() >= MOST_LINKS {
        return Ok(Performed::Stops(StopCause::NoLinks));
    }
    let number = hub.count_link();
    if link_stands(hub, target, kind) {
        hub.add_item(Delivery::Link(number, target, kind, function))?;
    }
    Ok(Performed::Answers(Outcome::Value(Value::Int(number as i64))))
}

/// Removes the link of this number.
pub fn drop_link(hub: &mut Hub, number: i64)
    ensures { hub.new ≡ drop_items (is_link number) hub.old }
{
    let gone = Gone::LinkNumbered(number);
    hub.drop_items(&gone);
    drop(gone);
}
