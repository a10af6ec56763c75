//! Lines of a word and a number, as those that tell the port and the number of connections.
ghost use Rattle.std.specs.Prelude.{◌≡◌, ◌≤◌, ◌++◌, IfOk, IsErrOf, OnErr, OnOk};
ghost use Rattle.gv_io.specs.Streams.{AppendsPrefix, Extends, appended};
ghost use Rattle.gv_values.specs.Counts.{HasRisen};
ghost use Rattle.serve_command.specs.Lines.{number_line};

use gv_io::Sink;
use gv_values::decimal_text;
use std::alloc::{AllocError, Global};
use thiserror::Error;

/// Why a line isn't out.
#[derive(Clone, Copy, Debug, Error)]
pub enum Unwritten {
    /// The sink failed.
    #[error("write fault")]
    Fault,
    #[error("out of memory")]
    Memory,
}

/// Appends the word, the number and LF. Where memory runs out, a part of them may be there.
pub fn push_number_line(word: &[u8], number: u64, text: &mut Vec<u8>) -> Result<(), AllocError>
    ensures { OnOk result (text.new.items ≡ text.old.items ++ number_line word.now number) }
{
    text.extend_from_slice(word)?;
    text.push(b' ')?;
    decimal_text(number, text)?;
    text.push(b'\n')?;
    Ok(())
}

/// The line of the word and the number.
fn number_line(alloc: Global, word: &[u8], number: u64) -> Result<Vec<u8>, AllocError>
    ensures { IfOk result (λ line. line.items ≡ number_line word.now number) }
{
    let mut line = Vec::new(alloc);
    push_number_line(word, number, &mut line)?;
    Ok(line)
}

/// Writes the line, and hands it on, so that a reader of out has it at once. Where memory runs out, out is as it was.
#[tactic(auto, using(gv_io::proofs::StreamLaws::writes, gv_io::proofs::StreamLaws::hands))]
pub fn write_line<K: Sink>(
    alloc: Global,
    word: &[u8],
    number: u64,
    out: &mut K,
) -> Result<(), Unwritten>
    ensures whole { OnOk result (K.written out.new ≡ appended (K.written out.old) (number_line word.now number)) }
    ensures cut { OnErr result (AppendsPrefix (K.written out.old) (K.written out.new) (number_line word.now number)) }
    ensures handed { OnOk result (K.handed out.new ≡ K.written out.new) }
    ensures never_taken_back { Extends (K.handed out.old) (K.handed out.new) }
    ensures unwritten { IsErrOf result Unwritten.Memory → out.new ≡ out.old }
    ensures failed { IsErrOf result Unwritten.Fault → HasRisen (K.faults out.old) (K.faults out.new) }
    ensures unfailed { OnOk result (K.faults out.new ≡ K.faults out.old) }
    ensures never_falls { K.faults out.old ≤ K.faults out.new }
{
    let Ok(line) = number_line(alloc, word, number) else {
        return Err(Unwritten::Memory);
    };
    let Ok(()) = out.write_all(line.as_slice()) else {
        return Err(Unwritten::Fault);
    };
    match out.flush() {
        Ok(()) => Ok(()),
        Err(_) => Err(Unwritten::Fault),
    }
}
