ghost use Rattle.std.specs.Prelude.{◌≡◌};
ghost use Rattle.gv_values.specs.Fault.{catches};

/// What a greenlet can be ended or interrupted by (gevent API reference: exceptions of `gevent`,
/// `gevent.timeout` and `gevent.hub`; greenlet documentation: `GreenletExit`).
#[derive(Clone, Copy, Debug, PartialEq, Eq)]
pub enum FaultKind {
    /// What a kill raises; as the end of a greenlet it counts as a value.
    GreenletExit,
    /// A timeout, with its number.
    Timeout(u32),
    /// Nothing is left that could wake the main greenlet.
    LoopExit,
    /// Nothing was got from a queue in time.
    Empty,
    /// Nothing could be put into a queue in time.
    Full,
    /// The queue was shut.
    ShutDown,
    ValueError,
    RuntimeError,
    TypeError,
    OverflowError,
    ZeroDivisionError,
    /// A switch to a greenlet of another host.
    InvalidSwitch,
    /// A fault of the scenario's own, with its number.
    Error(i64),
}

/// What an `except` catches: everything, every ordinary fault, or one kind whatever its number.
#[derive(Clone, Copy, Debug, PartialEq, Eq)]
pub enum Class {
    Any,
    /// All but `GreenletExit` and `Timeout`, which derive from `BaseException` alone.
    Exception,
    GreenletExit,
    Timeout,
    LoopExit,
    Empty,
    Full,
    ShutDown,
    ValueError,
    RuntimeError,
    TypeError,
    OverflowError,
    ZeroDivisionError,
    InvalidSwitch,
    Error,
}

impl Class {
    /// Whether an `except` of this class catches the fault.
    pub fn catches(self, kind: FaultKind) -> bool
        ensures { result ≡ catches self kind }
    {
        match (self, kind) {
            (Class::Any, _)
            | (Class::GreenletExit, FaultKind::GreenletExit)
            | (Class::Timeout, FaultKind::Timeout(_))
            | (Class::LoopExit, FaultKind::LoopExit)
            | (Class::Empty, FaultKind::Empty)
            | (Class::Full, FaultKind::Full)
            | (Class::ShutDown, FaultKind::ShutDown)
            | (Class::ValueError, FaultKind::ValueError)
            | (Class::RuntimeError, FaultKind::RuntimeError)
            | (Class::TypeError, FaultKind::TypeError)
            | (Class::OverflowError, FaultKind::OverflowError)
            | (Class::ZeroDivisionError, FaultKind::ZeroDivisionError)
            | (Class::InvalidSwitch, FaultKind::InvalidSwitch)
            | (Class::Error, FaultKind::Error(_)) => true,
            (Class::Exception, kind) => {
                !matches!(kind, FaultKind::GreenletExit | FaultKind::Timeout(_))
            }
            _ => false,
        }
    }
}
