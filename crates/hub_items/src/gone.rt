//! Which items go.
use gv_values::Outcome;
use scenario_tree::Items;

/// Items that are to go.
#[derive(Drop)]
pub enum Gone {
    /// The Wake and the Late of a greenlet.
    WaitOf(u32),
    /// The timeouts of a greenlet with these numbers.
    TimeoutsOf(u32, Items<u32>),
    /// What goes where a greenlet ends like this: its items but for the links that fit.
    AtEnd(u32, Outcome),
    /// The link of this number.
    LinkNumbered(i64),
}
