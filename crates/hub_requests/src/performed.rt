ghost use Rattle.std.specs.Prelude.{◌≡◌};
ghost use Rattle.hub_requests.specs.Performing.{nothing_answered, raised, truth_answered};

use gv_values::{FaultKind, Outcome, Value};
use trace_text::StopCause;

/// What comes of a request.
#[derive(Drop)]
pub enum Performed {
    /// It is answered.
    Answers(Outcome),
    /// Its greenlet parked.
    Parks,
    /// The input lands at another greenlet.
    Lands(u32, Outcome),
    /// The run stops.
    Stops(StopCause),
}

/// It is answered with none.
pub fn done() -> Performed
    ensures { result ≡ nothing_answered }
{
    Performed::Answers(Outcome::Value(Value::Nothing))
}

/// It is answered with a truth value.
pub fn truth(b: bool) -> Performed
    ensures { result ≡ truth_answered b }
{
    Performed::Answers(Outcome::Value(Value::Bool(b)))
}

/// It is answered with a fault.
pub fn raises(kind: FaultKind) -> Performed
    ensures { result ≡ raised kind }
{
    Performed::Answers(Outcome::Fault(kind))
}
