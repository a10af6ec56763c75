//! What the words after the program's name ask for, read with `clap`.
#![tactic(auto)]

mod clap_command;
mod command;
mod laws;
mod numbers;
mod reading;
mod table;

pub use command::{
    GatewayKind, NamedCommand, PassOptions, ResultOrder, RunOptions, RunWorld, ServeAnswers,
    ServeOptions, TextCommand, TraceCheck,
};
pub use laws::commands_are_in_range;
pub use reading::command_of;
