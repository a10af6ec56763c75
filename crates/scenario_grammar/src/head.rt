use gv_values::FaultKind;
use scenario_tree::{Binary, Query, Unary};

/// What a fixed word begins in the place of an expression.
#[derive(Clone, Copy)]
pub enum Head {
    Nothing,
    Bool(bool),
    Current,
    Fault(FaultKind),
    /// `Error` and its number.
    NumberedFault,
    Unary(Unary),
    Binary(Binary),
    And,
    Or,
    List,
    Query(Query),
    /// It begins no expression.
    Other,
}
