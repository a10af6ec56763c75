//! How a greenlet ends: its line is said first, and from there on the end takes no memory.
ghost use Rattle.std.specs.Prelude.{◌≡◌, ◌+◌, ◌≤◌, ◌^◌, ℕ, length, OnOk};
ghost use Rattle.gv_values.specs.declared.value.Outcome.{Outcome as AnyOutcome};
ghost use Rattle.hub_items.specs.declared.gone.Gone.{Gone as AnyGone};
ghost use Rattle.trace_text.specs.declared.line.Line.TheVariants as line;
ghost use Rattle.machine.specs.Ends.{ended};
ghost use Rattle.machine.specs.Items.{drop_items, goes_at_end};
ghost use Rattle.machine.specs.State.{State, say};

use gv_values::{Outcome, Value};
use hub_items::Gone;
use hub_state::{Hub, Stage};
use std::alloc::{AllocError, Global};
use trace_text::Line;

/// Says that the greenlet ends so.
///
/// # Errors
///
/// Memory is wanting; the hub is given up.
pub fn say_end(alloc: Global, hub: &mut Hub, g: u32, outcome: &Outcome) -> Result<(), AllocError>
    ensures { OnOk result (hub.new ≡ say (line.End g outcome.now) hub.old) }
{
    hub.say(Line::End {
        greenlet: g,
        outcome: outcome.copy(alloc)?,
    })
}

/// The outcome of the end at which these items go.
fn outcome_of(gone: Gone) -> Outcome
    ensures { (g : ℕ) (o : AnyOutcome) → gone ≡ AnyGone.AtEnd g o → result ≡ o }
{
    match gone {
        Gone::AtEnd(_g, outcome) => outcome,
        _other => Outcome::Value(Value::Nothing),
    }
}

/// Drops the items of the greenlet but its links, and the links that don't fit such an end. Hands the outcome back.
fn drop_at_end(hub: &mut Hub, g: u32, outcome: Outcome) -> Outcome
    ensures dropped { hub.new ≡ drop_items (goes_at_end g outcome) hub.old }
    ensures same { result ≡ outcome }
{
    let gone = Gone::AtEnd(g, outcome);
    hub.drop_items(&gone);
    outcome_of(gone)
}

/// Ends the greenlet so, where its line is said: it keeps the outcome, its items but its links go, links that don't fit
/// are dropped, and it leaves its group or pool.
pub fn end_greenlet(hub: &mut Hub, g: u32, outcome: Outcome)
    requires { hub.old.next_ready + length hub.old.items ≤ 2 ^ 63 }
    ensures { (before : State) → hub.old ≡ say (line.End g outcome) before → hub.new ≡ ended g outcome before }
{
    let outcome = drop_at_end(hub, g, outcome);
    hub.set_stage(g, Stage::Done(outcome));
    hub.leave_crews(g);
    hub.settle();
}
