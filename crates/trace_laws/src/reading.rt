//! Which answers the lines of a trace name.
ghost use Rattle.std.specs.Prelude.{◌≡◌, ◌==◌, ◌≤◌, drop, length, IfOk};
ghost use Rattle.std.specs.List.{position};
ghost use Rattle.trace_laws.specs.Reads.{IsFirst, IsLine, NamesAnswers, is_feed};

use gv_values::Answer;
use std::alloc::{AllocError, Global};
use trace_reader::{LineFault, read_line};
use trace_text::Line;

/// What a text begins with, and where the next line stands.
#[derive(Clone, Copy, Debug, PartialEq, Eq)]
pub enum FirstLine {
    /// No line.
    None,
    /// A turn line.
    Turn { answer: Answer, next: usize },
    /// Another line.
    Other { next: usize },
}

/// The line that the text begins with. `AllocError`: memory is wanting.
pub fn first_line(alloc: Global, text: &[u8]) -> Result<FirstLine, AllocError>
    ensures { IfOk result (IsFirst text.now) }
{
    let Some(end) = line_end(text) else {
        return Ok(FirstLine::None);
    };
    match read_line(alloc, &text[..end]) {
        Ok(line) => {
            let first = first_at(&line, end + 1);
            drop(line);
            Ok(first)
        }
        Err(LineFault::NotALine) => Ok(FirstLine::None),
        Err(LineFault::Memory) => Err(AllocError),
    }
}

/// The line, with the place of the next one.
fn first_at(line: &Line, next: usize) -> FirstLine
    ensures { IsLine line.now next result }
{
    match line {
        Line::Turn { number: _, answer } => FirstLine::Turn {
            answer: *answer,
            next,
        },
        _ => FirstLine::Other { next },
    }
}

/// Where the first line feed stands.
pub(crate) fn line_end(text: &[u8]) -> Option<usize>
    ensures { result ≡ position is_feed text.now }
{
    text.iter().position(|b| *b == b'\n')
}

/// The answers that the turn lines of the trace name, up to the first line that is none. `AllocError`: memory is
/// wanting.
pub fn named_answers(alloc: Global, trace: &[u8]) -> Result<Vec<Answer>, AllocError>
    ensures { IfOk result (λ answers. NamesAnswers trace.now answers.items) }
{
    let mut answers = Vec::new(alloc);
    let mut rest = trace;
    loop {
        match first_line(alloc, rest)? {
            FirstLine::None => return Ok(answers),
            FirstLine::Turn { answer, next } => {
                answers.push(answer)?;
                rest = after(rest, next);
            }
            FirstLine::Other { next } => rest = after(rest, next),
        }
    }
}

/// What stands from this place on.
pub(crate) fn after(text: &[u8], place: usize) -> &[u8]
    requires { place ≤ length text.now }
    ensures { result.now ≡ drop place text.now }
{
    &text[place..]
}
