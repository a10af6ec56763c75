use scenario_grammar::TextReason;
use std::alloc::AllocError;

/// Why the words of a line were not read.
#[derive(Clone, Copy, PartialEq, Eq)]
pub enum LineRefusal {
    /// Memory ran out; whether the line says something is open.
    Memory,
    /// The line says nothing, for this reason.
    Reason(TextReason),
}

impl From<AllocError> for LineRefusal {
    ghost use Rattle.std.specs.Prelude.{◌≡◌};
    ghost use Rattle.scenario_lines.specs.declared.refusal.LineRefusal.TheVariants.{Memory};

    ghost from_gives = { λ _ e. e ≡ Memory };

    fn from(_: AllocError) -> LineRefusal {
        LineRefusal::Memory
    }
}
