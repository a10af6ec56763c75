ghost use Rattle.std.specs.Prelude.{◌≡◌};
ghost use Rattle.gv_values.specs.Ends.{kept, link_fits};

use crate::fault::FaultKind;
use crate::link::LinkKind;
use crate::value::{Outcome, Value};

/// What is kept of a greenlet's end (gevent API reference: `Greenlet.value`; greenlet documentation: `GreenletExit`):
/// the fault `GreenletExit` as a value, all else as it is.
pub fn kept_outcome(outcome: Outcome) -> Outcome
    ensures { result ≡ kept outcome }
{
    match outcome {
        Outcome::Fault(FaultKind::GreenletExit) => {
            Outcome::Value(Value::Fault(FaultKind::GreenletExit))
        }
        other => other,
    }
}

/// Whether a link of this kind is called after this end (gevent API reference: `Greenlet.link`, `link_value`,
/// `link_exception`).
pub fn link_fits(kind: LinkKind, outcome: &Outcome) -> bool
    ensures { result ≡ link_fits kind outcome.now }
{
    match (kind, outcome) {
        (LinkKind::Value, Outcome::Fault(_)) => false,
        (LinkKind::Fault, Outcome::Value(_)) => false,
        _ => true,
    }
}
