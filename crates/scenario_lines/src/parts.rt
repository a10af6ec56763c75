//! Parts of a line that are read one after another.
ghost use Rattle.scenario_lines.specs.Reads.{IsBoth};
ghost use Rattle.scenario_lines.specs.Parts.{Pushes};

use crate::refusal::LineRefusal;
use scenario_tree::Items;

/// Both parts, or why the second was refused. The first is dropped here then, and not in each reader that calls this.
pub(crate) fn both<A: Drop, B: Drop>(
    first: A,
    second: Result<B, LineRefusal>,
) -> Result<(A, B), LineRefusal>
    ensures { IsBoth first second result }
{
    match second {
        Ok(second) => Ok((first, second)),
        Err(refusal) => Err(refusal),
    }
}

/// Puts a part that was read behind those before it, or says why it was refused. A part that finds no room is dropped
/// here then, and not in each loop that calls this.
pub(crate) fn push_part<T: Drop>(
    parts: &mut Items<T>,
    part: Result<T, LineRefusal>,
) -> Result<(), LineRefusal>
    ensures { Pushes part parts.old result parts.new }
{
    match part {
        Ok(part) => Ok(parts.push(part)?),
        Err(refusal) => Err(refusal),
    }
}
