//! Lines of a trace read of their texts.
//!
//! What was read is written again and compared with the bytes, so that a number with a leading zero, or any other text
//! that stands for a line without being its text, is no line. Where memory for that is wanting the answer is `Memory`,
//! and whether a line has the text is then open.
#![tactic(auto)]

mod cursor;
mod fault;
mod fits;
mod laws;
mod lines;
mod parts;
mod read;
mod values;

pub use fault::LineFault;
pub use fits::line_fits;
pub use laws::texts_tell_lines;
pub use read::read_line;
