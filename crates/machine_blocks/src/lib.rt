//! That the block lines of a run are those that its hub says where it blocks: a law of the machine's definitions.
#![tactic(auto)]

ghost use Rattle.machine_blocks.specs.Laws.{BlocksAreTold};

/// The block lines of a run are those that are said at its blocked states, in order, and no other step says one.
pub fn blocks_are_told()
    ensures { BlocksAreTold }
{}
