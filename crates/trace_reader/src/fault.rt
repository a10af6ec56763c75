use std::alloc::AllocError;
use thiserror::Error;

/// Why a line was not read.
#[derive(Clone, Copy, Debug, PartialEq, Eq, Error)]
pub enum LineFault {
    /// No line has this text.
    #[error("not a line of a trace")]
    NotALine,
    /// Memory ran out; whether a line has the text is open.
    #[error("out of memory")]
    Memory,
}

impl From<AllocError> for LineFault {
    ghost use Rattle.std.specs.Prelude.{◌≡◌};
    ghost use Rattle.trace_reader.specs.declared.fault.LineFault.TheVariants.{Memory};

    ghost from_gives = { λ _ e. e ≡ Memory };

    fn from(_: AllocError) -> LineFault {
        LineFault::Memory
    }
}
