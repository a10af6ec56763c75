//! What a map gives: the results of its members.
ghost use Rattle.std.specs.Prelude.{◌≡◌, ◌<◌, ◌≤◌, ◌+◌, ◌∷◌, [], List as AnyList, length, map, OnOk, IfOk};
ghost use Rattle.gv_values.specs.declared.value.Outcome.{Outcome as AnyOutcome};
ghost use Rattle.machine.specs.Waits.{gathered, outcome_of_greenlet};
ghost use Rattle.hub_requests.specs.Gathering.{IsGathering};
ghost use Rattle.gv_values.specs.declared.limits.TheConstants.{MOST_ELEMENTS};

use crate::late::push_scalar;
use gv_values::{FaultKind, List, Outcome, Value};
use hub_state::Hub;
use std::alloc::{AllocError, Global};

/// What the greenlet ended with.
fn outcome_of_greenlet(alloc: Global, hub: &Hub, g: u32) -> Result<Outcome, AllocError>
    ensures { IfOk result (λ outcome. outcome ≡ outcome_of_greenlet hub.now g) }
{
    match hub.outcome_of_greenlet(g) {
        Some(outcome) => Ok(outcome.copy(alloc)?),
        None => Ok(Outcome::Value(Value::Nothing)),
    }
}

/// Takes one value more of a map's, where a list was among those before it or not.
#[tactic(auto, using(crate::proofs::Results::gathers_scalar, crate::proofs::Results::gathers_list, crate::proofs::Results::gathers_on))]
fn gather_one(values: &mut List, has_list: bool, value: Value) -> Result<bool, AllocError>
    requires room { length values.old < MOST_ELEMENTS }
    ensures few { OnOk result (length values.new ≤ length values.old + 1) }
    ensures gathered { IfOk result (λ b. (whole : AnyOutcome) (os : AnyList AnyOutcome) →
        IsGathering whole (AnyOutcome.Value value ∷ os) values.old has_list → IsGathering whole os values.new b) }
{
    match value.scalar() {
        Some(scalar) => {
            if has_list {
                return Ok(true);
            }
            push_scalar(values, scalar)?;
            Ok(false)
        }
        None => Ok(true),
    }
}

/// What a map gives: the first fault in order, TypeError where a value is a list, else the list of the values.
#[tactic(auto, using(crate::proofs::Results::gathers_first, crate::proofs::Results::gathers_next, crate::proofs::Results::gathers_fault, crate::proofs::Results::gathers_end, crate::proofs::Results::gathers_none))]
pub fn gather(alloc: Global, hub: &Hub, made: &[u32]) -> Result<Outcome, AllocError>
    requires short { length made.now ≤ MOST_ELEMENTS }
    ensures { IfOk result (λ outcome. outcome ≡ gathered (map (outcome_of_greenlet hub.now) made.now) []) }
{
    let mut values = List::new(alloc);
    let mut has_list = false;
    for g in made {
        match outcome_of_greenlet(alloc, hub, *g)? {
            Outcome::Fault(kind) => return Ok(Outcome::Fault(kind)),
            Outcome::Value(value) => has_list = gather_one(&mut values, has_list, value)?,
        }
    }
    if has_list {
        return Ok(Outcome::Fault(FaultKind::TypeError));
    }
    Ok(Outcome::Value(Value::List(values)))
}
