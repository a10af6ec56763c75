//! The syntax tree of scenarios: objects, functions, statements and expressions.
//!
//! Lists are `Items<T>` and operands `Boxed<T>`, both of the kit's `sqlite_items`: contracts see plain lists and
//! values, and trees are equal where they say the same.
#![tactic(auto)]

mod limits;
mod tree;

pub use limits::{MOST_DECLARED, MOST_FUNCTIONS, MOST_OBJECTS, MOST_PARAMETERS};
pub use sqlite_items::{Boxed, Items};
pub use tree::{
    Action, Binary, Block, Command, Declaration, Except, Expression, Function, Giving, LinkEnd,
    Object, Query, QueueKind, Scenario, Statement, Timed, Unary, Wait,
};
