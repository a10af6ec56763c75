use gv_values::{Class, Name};
use scenario_tree::{Command, Expression, Giving, Items, Object};

/// What one line says.
#[derive(Drop)]
pub enum Phrase {
    /// The number of the text's profile: 2 or 3.
    Profile(u8),
    Declaration(Name, Object),
    /// Whether it is a body of raw greenlets, its name and its parameters.
    Function(bool, Name, Items<Name>),
    Command(Command),
    /// The name stands before `<-`.
    Giving(Option<Name>, Giving),
    If(Expression),
    Else,
    While(Expression),
    Try,
    Except(Class, Option<Name>),
    Finally,
    /// The time in milliseconds, none where it never fires, and whether it is silent.
    Timeout(Option<u32>, bool),
    End,
}
