//! The two parts of an input: the text of a scenario, and a trace.
ghost use Rattle.std.specs.Prelude.{◌≡◌, ◌≤◌, ◌+◌, length, option_map, take, IfSome};
ghost use Rattle.std.specs.Str.{bytes_eq};
ghost use Rattle.trace_laws.specs.Parts.{is_marked, last_mark, dividing_mark, parted};
ghost use Rattle.trace_laws.specs.Places.{parts_at};

use crate::reading::{after, line_end};

/// Where the first line of four equals signs stands, which may lack its line feed at the end of the input. What stands
/// before it is the one part, and what stands behind it the other.
pub fn mark_place(input: &[u8]) -> Option<usize>
    ensures parts { parted input.now ≡ option_map (parts_at input.now) result }
    ensures within { IfSome result (λ place. place + 4 ≤ length input.now) }
{
    let mut place: usize = 0;
    loop {
        let rest = after(input, place);
        if is_marked(rest) {
            return Some(place);
        }
        match line_end(rest) {
            None => return None,
            Some(end) => place += end + 1,
        }
    }
}

/// Whether the text begins with the line.
fn is_marked(text: &[u8]) -> bool
    ensures { result ≡ is_marked text.now }
{
    begins_with_mark(text) || is_last_mark(text)
}

/// Whether the text begins with the line and its line feed.
fn begins_with_mark(text: &[u8]) -> bool
    ensures { result ≡ bytes_eq (take 5 text.now) dividing_mark }
{
    matches!(text, [b'=', b'=', b'=', b'=', b'\n', ..])
}

/// Whether the text is the line without a line feed.
fn is_last_mark(text: &[u8]) -> bool
    ensures { result ≡ bytes_eq text.now last_mark }
{
    matches!(text, [b'=', b'=', b'=', b'='])
}
