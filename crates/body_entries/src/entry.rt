use body_blocks::Handlers;
use body_names::FlatExpression;
use machine::state::Leaving;
use scenario_tree::Boxed;
use std::rc::Rc;

/// What is still to do in a body, one entry of its pile. What stands in the code is shared with it, or named by the
/// number of its block.
#[derive(Drop)]
pub enum Entry {
    /// The rest of the block, from this place on.
    Rest { block: usize, at: usize },
    /// The test of a while, and its body.
    Again(Rc<FlatExpression>, usize),
    /// The excepts and the finally of the try whose body is inside it.
    Guard(Rc<Handlers>),
    /// The finally of the try, where one of its excepts is inside it.
    Final(Option<usize>),
    /// How the try was left whose finally is inside it. It is boxed, so that every other entry takes less room.
    Afterwards(Boxed<Leaving>),
    /// The number of the timeout block inside it, and whether it is silent.
    Within(u32, bool),
}
