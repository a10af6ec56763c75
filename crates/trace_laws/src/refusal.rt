use std::alloc::AllocError;
use thiserror::Error;

/// Why a trace is not the run.
#[derive(Clone, Copy, Debug, PartialEq, Eq)]
pub enum Cause {
    /// No line has this text, or its line feed is missing.
    NotALine,
    /// Another line than that of the run.
    OtherLine,
    /// The line of the run, but its answer is not legal.
    NotLegal,
    /// The trace ended, and the run goes on.
    TooShort,
    /// The run has stopped, and the trace goes on.
    PastEnd,
}

impl Cause {
    ghost use Rattle.std.specs.Prelude.{◌≡◌, string_bytes};
    ghost use Rattle.trace_laws.specs.Refusal.{cause_number, check_cause_text};

    /// Its number.
    pub fn number(self) -> u8
        ensures { result ≡ cause_number self }
    {
        match self {
            Cause::NotALine => 1,
            Cause::OtherLine => 2,
            Cause::NotLegal => 3,
            Cause::TooShort => 4,
            Cause::PastEnd => 5,
        }
    }

    /// What it says.
    pub fn text(self) -> &'static str
        ensures { result.now ≡ check_cause_text self }
    {
        match self {
            Cause::NotALine => "not a trace line",
            Cause::OtherLine => "not the line of the run",
            Cause::NotLegal => "answer not legal",
            Cause::TooShort => "trace too short",
            Cause::PastEnd => "trace goes on after its end",
        }
    }
}

/// Why a trace was not verified.
#[derive(Clone, Copy, Debug, PartialEq, Eq, Error)]
pub enum TraceRefusal {
    /// From this line on, counted from 1, the trace is not the run.
    #[error("line {line} is wrong")]
    Wrong { line: u64, cause: Cause },
    /// Memory ran out; whether the trace is the run is open.
    #[error("out of memory")]
    Memory,
}

impl From<AllocError> for TraceRefusal {
    ghost use Rattle.std.specs.Prelude.{◌≡◌};
    ghost use Rattle.trace_laws.specs.declared.refusal.TraceRefusal.TheVariants.{Memory};

    ghost from_gives = { λ _ e. e ≡ Memory };

    fn from(_: AllocError) -> TraceRefusal {
        TraceRefusal::Memory
    }
}
