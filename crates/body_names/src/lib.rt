//! Statements of one line with numbers in place of names.
//!
//! Each name of a scenario has a number, its place in the order in which the names were met (`Naming`). A local has a
//! place besides, where it mostly stands among the locals of its body; no clause rests on it.
#![tactic(auto)]

/// What `?` does, as a match: a function of many arms is proved in less time so.
macro_rules! got {
    ($call:expr) => {
        match $call {
            Ok(value) => value,
            Err(e) => return Err(e),
        }
    };
}

mod bindings;
mod command;
mod expression;
mod giving;
mod naming;
mod operands;

pub use bindings::enter_function;
pub use command::{FlatCommand, flat_command};
pub use expression::{FlatExpression, LocalSlot, flat_expression};
pub use giving::{FlatGiving, flat_giving};
pub use naming::Naming;
