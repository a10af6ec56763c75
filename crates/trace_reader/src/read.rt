#![tactic(auto)]

ghost use Rattle.std.specs.Prelude.{◌≡◌, IfOk};
ghost use Rattle.trace_text.specs.declared.line.Line.{Line as LineOf};
ghost use Rattle.trace_text.specs.Line.{line_text};
ghost use Rattle.trace_reader.specs.Ranges.{LineFits};
ghost use Rattle.trace_reader.specs.Read.{IsRead, IsRefused};

use crate::cursor::Cursor;
use crate::fault::LineFault;
use crate::laws::texts_tell_lines;
use crate::lines::read_front;
use std::alloc::Global;
use trace_text::{Line, write_line};

/// The line whose text the bytes are, without LF.
///
/// `NotALine` exactly where no line has this text; `Memory` where memory ran out.
pub fn read_line(alloc: Global, bytes: &[u8]) -> Result<Line, LineFault>
    ensures line { IfOk result (λ line. line_text line ≡ bytes.now) }
    ensures again { (line : LineOf) → LineFits line → line_text line ≡ bytes.now → IsRead line result }
    ensures refused { IsRefused bytes.now result }
    ensures fits { IfOk result LineFits }
{
    texts_tell_lines();
    let mut cursor = Cursor::new(bytes);
    let line = read_front(alloc, &mut cursor)?;
    let mut text = Vec::new(alloc);
    write_line(&line, &mut text)?;
    // What is read may stand for more texts than its own, as a number with a leading zero does.
    if text.as_slice() == bytes {
        Ok(line)
    } else {
        Err(LineFault::NotALine)
    }
}
