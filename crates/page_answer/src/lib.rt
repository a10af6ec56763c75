//! From the bytes that a page gives to the bytes that it is answered, around any program.
#![tactic(auto)]

ghost use Rattle.std.specs.Prelude.{◌≡◌, ◌≤◌, List, ℕ, [], length, take, map, string_bytes, IfOk};
ghost use Rattle.page_answer.specs.Page.{AreWords, Written, first_of, written_in};

mod page_sink;

pub use page_sink::PageSink;
use std::alloc::{AllocError, Global};

/// How many bytes of out and of err a call has written. It has the layout of C, since a page reads it.
#[repr(C)]
#[derive(Clone, Copy)]
pub struct Said {
    /// The bytes of out.
    pub out: usize,
    /// The bytes of err.
    pub err: usize,
}

/// How a call ended, and how much it has written.
#[derive(Clone, Copy)]
pub struct Answered {
    /// The status.
    pub status: u32,
    /// The bytes.
    pub said: Said,
}

/// Whoever does what words name.
pub trait Program {
    /// With this status these words and this text have this on out and on err.
    ghost says: { ℕ → List (List ℕ) → List ℕ → Written → Written → Type 0 };

    /// Does what the words name with this text as the input, and answers the status.
    fn run(
        &self,
        alloc: Global,
        words: &[String],
        text: Vec<u8>,
        out: &mut PageSink,
        err: &mut PageSink,
    ) -> u32
        requires empty { (out.old.bytes ≡ []) × (err.old.bytes ≡ []) }
        ensures { says result (map string_bytes words.now) text.items (written_in out.new) (written_in err.new) };
}

/// The words of the bytes, which LFs part; none where the bytes are no UTF-8.
fn words_in(alloc: Global, bytes: &[u8]) -> Result<Vec<String>, AllocError>
    ensures { IfOk result (λ all. AreWords bytes.now (map string_bytes all.items)) }
{
    let mut all = Vec::new(alloc);
    let Ok(text) = str::from_utf8(bytes) else {
        return Ok(all);
    };
    let mut left = text;
    while let Some((word, rest)) = left.split_once('\n') {
        all.push(String::from_str(alloc, word)?)?;
        left = rest;
    }
    all.push(String::from_str(alloc, left)?)?;
    Ok(all)
}

/// Copies the bytes to the front.
fn copy_to_front(bytes: &[u8], to: &mut [u8])
    requires { length bytes.now ≤ length to.old }
    ensures length { length to.new ≡ length to.old }
    ensures front { take (length bytes.now) to.new ≡ bytes.now }
{
    to[..bytes.len()].copy_from_slice(bytes);
}

/// Answers words, which LFs part, and a text with out and err of their room: the first bytes of `out` and of `err` are
/// then what the program says, and the result has how many these are. If memory runs out, what stands in the two may
/// have changed.
pub fn answer<P: Program>(
    alloc: Global,
    program: &P,
    words: &[u8],
    text: &[u8],
    out: &mut [u8],
    err: &mut [u8],
) -> Result<Answered, AllocError>
    ensures room { (length out.new ≡ length out.old) × (length err.new ≡ length err.old) }
    ensures fits { IfOk result (λ answered. (answered.said.out ≤ length out.new) × (answered.said.err ≤ length err.new)) }
    ensures said { IfOk result (λ answered. (all : List (List ℕ)) × AreWords words.now all × P.says answered.status all text.now (first_of answered.said.out out.new) (first_of answered.said.err err.new)) }
{
    let words = words_in(alloc, words)?;
    let text = Vec::from_slice(alloc, text)?;
    let mut to_out = PageSink::new(alloc, out.len())?;
    let mut to_err = PageSink::new(alloc, err.len())?;
    let status = program.run(alloc, words.as_slice(), text, &mut to_out, &mut to_err);
    // A program leaves the sinks their room, but no clause of `Sink` says so.
    if to_out.room() != out.len() || to_err.room() != err.len() {
        return Err(AllocError);
    }
    let said = Said {
        out: to_out.bytes().len(),
        err: to_err.bytes().len(),
    };
    copy_to_front(to_out.bytes(), out);
    copy_to_front(to_err.bytes(), err);
    Ok(Answered { status, said })
}
