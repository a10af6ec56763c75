/// Which end of its greenlet a link fits, and what its call does (gevent API reference: `Greenlet.link`, `link_value`,
/// `link_exception`).
#[derive(Clone, Copy, Debug, PartialEq, Eq)]
pub enum LinkKind {
    /// Every end; its function runs as a new greenlet.
    Any,
    /// An end with a value.
    Value,
    /// An end by a fault.
    Fault,
    /// Every end; this mark is written.
    Mark(u32),
    /// Every end; the event of this number is set.
    Set(u32),
}
