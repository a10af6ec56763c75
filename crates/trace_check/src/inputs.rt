//! The lines of an input, which are told where it is refused.
ghost use Rattle.std.specs.Prelude.{◌≡◌, ◌≤◌, count_by, length};
ghost use Rattle.scenario_grammar.specs.Layout.{is_end};
ghost use Rattle.scenario_grammar.specs.Place.{line_at};
ghost use Rattle.trace_check.specs.Inputs.{end_line};

/// The most bytes of an input.
pub const MOST_CHECKED: usize = 67108864;

/// How many line feeds the text has.
fn ends(text: &[u8]) -> u64
    ensures count { result ≡ count_by is_end text.now }
    ensures few { result ≤ length text.now }
{
    text.iter().filter(|byte| **byte == b'\n').count() as u64
}

/// The number of the line in which the byte at this place stands.
pub(crate) fn line_at(text: &[u8], place: usize) -> u64
    requires { place ≤ length text.now }
    ensures { result ≡ line_at place text.now }
{
    ends(&text[..place]) + 1
}

/// The number of the last line: that of the last byte, and 1 where there is none.
pub(crate) fn end_line(text: &[u8]) -> u64
    ensures { result ≡ end_line text.now }
{
    line_at(text, text.len().saturating_sub(1))
}
