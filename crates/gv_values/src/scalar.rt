use crate::fault::FaultKind;

/// A value that is no list.
#[derive(Clone, Copy, Debug, PartialEq, Eq)]
pub enum Scalar {
    /// `none`.
    Nothing,
    Bool(bool),
    Int(i64),
    /// A fault that is held as a value.
    Fault(FaultKind),
    /// The handle of a greenlet, by its number.
    Greenlet(u32),
    /// The handle of a job, by its number.
    Job(u32),
}
