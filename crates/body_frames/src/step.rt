use gv_values::{FaultKind, Outcome, Value};
use machine::request::Request;

/// What a body goes on with.
#[derive(Drop)]
pub enum Input {
    /// It begins.
    Begin,
    /// Its request gave this value.
    Value(Value),
    /// Its request raised this fault.
    Fault(FaultKind),
}

/// What a step of a body comes to.
#[derive(Drop)]
pub enum Step {
    /// The body asks its hub, and waits for the answer: a value or a fault.
    Request(Request),
    /// The body enters a timeout block, with its time in milliseconds if it has one, and whether it is silent. It
    /// waits for the number of the block, an integer.
    EnterTimeout(Option<u32>, bool),
    /// The body left the timeout block of this number. It looks at no answer.
    LeaveTimeout(u32),
    /// The body ended, and is not resumed.
    Ended(Outcome),
    /// A move would begin, and none is left. The body makes it when it is resumed.
    MovesOut,
}
