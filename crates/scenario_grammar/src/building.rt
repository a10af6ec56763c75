use gv_values::{Class, Name};
use scenario_tree::{Block, Except, Expression, Items};

/// What opened a block, and what has come of it.
#[derive(Drop)]
pub enum Opening {
    /// Whether it is a body of raw greenlets, its name and its parameters.
    Function(bool, Name, Items<Name>),
    If(Expression),
    /// The condition, and the part before `else`.
    Else(Expression, Block),
    While(Expression),
    Try,
    /// The body, the excepts before, and the line, the class and the name of this one.
    Except(Block, Items<Except>, u32, Class, Option<Name>),
    /// The body and the excepts.
    Finally(Block, Items<Except>),
    /// The time in milliseconds, none where it never fires, and whether it is silent.
    Timeout(Option<u32>, bool),
}

/// A block whose end has not come, with its statements so far.
#[derive(Drop)]
pub struct OpenBlock {
    /// The number of the line that opened it.
    pub line: u32,
    pub opening: Opening,
    pub statements: Block,
}
