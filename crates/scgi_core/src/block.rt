//! The names and values of a head (SCGI, section 3).
ghost use Rattle.std.specs.Prelude.{◌≡◌, ◌≤◌, ◌∷◌, IfOk, OnOk, filter, length as list_length};
ghost use Rattle.std.specs.List.{list_all, list_any};
ghost use Rattle.std.specs.Option.{option_copied};
ghost use Rattle.scgi_core.specs.Block.{are_apart, is_named, is_passed_on, told_length, name_is, pairs_in, read_byte, scgi_request_of, are_well, judged_pairs, judged_block};

use crate::limits::MOST_PAIRS;
use crate::request::ScgiRequest;
use http_messages::{Bytes, Environ, Headers, MOST_BODY, Refusal, Sequence, parse_length};
use std::alloc::{AllocError, Global};
use std::mem;

/// Reads pairs from bytes that come one after the other.
#[derive(Drop)]
pub struct PairReader {
    /// The pairs that are whole.
    pub pairs: Headers,
    /// The name of which the value is under way.
    pub name: Option<Bytes>,
    /// What came of the name or the value that is under way.
    pub text: Bytes,
}

impl PairReader {
    /// Takes the end of a name or a value.
    fn end_text(&mut self, alloc: Global) -> Result<(), AllocError>
        ensures { OnOk result (self.new ≡ read_byte self.old 0) }
    {
        let text = mem::replace(&mut self.text, Sequence::new(alloc));
        match mem::replace(&mut self.name, None) {
            None => self.name = Some(text),
            Some(name) => self.pairs.push((name, text))?,
        }
        Ok(())
    }

    /// Takes one more byte.
    fn read_byte(&mut self, alloc: Global, byte: u8) -> Result<(), AllocError>
        ensures { OnOk result (self.new ≡ read_byte self.old byte) }
    {
        if byte == 0 {
            return self.end_text(alloc);
        }
        self.text.push(byte)
    }
}

/// The pairs that these bytes are; `None` where they are none.
fn pairs_in(alloc: Global, block: &[u8]) -> Result<Option<Headers>, AllocError>
    ensures { IfOk result (λ pairs. pairs ≡ pairs_in block.now) }
{
    let mut reader = PairReader {
        pairs: Sequence::new(alloc),
        name: None,
        text: Sequence::new(alloc),
    };
    for byte in block {
        reader.read_byte(alloc, *byte)?;
    }
    let PairReader { pairs, name, text } = reader;
    if name.is_none() && text.is_empty() {
        return Ok(Some(pairs));
    }
    Ok(None)
}

/// Whether a pair has the name.
fn has_name(name: &[u8], pairs: &[(Bytes, Bytes)]) -> bool
    ensures { result ≡ list_any (name_is name.now) pairs.now }
{
    pairs.iter().any(|pair| pair.0.items() == name)
}

/// Whether no two pairs have the same name.
fn are_apart(pairs: &[(Bytes, Bytes)]) -> bool
    ensures { result ≡ are_apart pairs.now }
{
    for at in 0..pairs.len() {
        if has_name(pairs[at].0.items(), &pairs[at + 1..]) {
            return false;
        }
    }
    true
}

/// Whether each pair has a name.
fn are_named(pairs: &[(Bytes, Bytes)]) -> bool
    ensures { result ≡ list_all is_named pairs.now }
{
    pairs.iter().all(|pair| !pair.0.is_empty())
}

/// The length that the first pair tells: CONTENT_LENGTH comes first, with 1 to 19 digits.
fn told_length(pairs: &[(Bytes, Bytes)]) -> Option<u64>
    ensures { result ≡ told_length pairs.now }
{
    match pairs {
        [] => None,
        [first, ..] => {
            if first.0.items() != b"CONTENT_LENGTH".as_slice() {
                return None;
            }
            parse_length(first.1.items())
        }
    }
}

/// Whether the pairs are those of a request: at most `MOST_PAIRS`, each with a name of its own, SCGI with `1` and
/// REQUEST_METHOD among them.
fn are_well(environ: &Environ) -> bool
    ensures { result ≡ are_well environ.now }
{
    let pairs = environ.pairs();
    pairs.len() <= MOST_PAIRS
        && are_named(pairs)
        && are_apart(pairs)
        && environ.get(b"SCGI") == Some(b"1".as_slice())
        && environ.get(b"REQUEST_METHOD").is_some()
}

/// The pairs that an application is handed: all but SCGI.
fn passed_on(alloc: Global, pairs: &[(Bytes, Bytes)]) -> Result<Headers, AllocError>
    ensures { IfOk result (λ passed. passed ≡ filter is_passed_on pairs.now) }
{
    let mut passed = Sequence::new(alloc);
    for pair in pairs {
        if pair.0.items() != b"SCGI".as_slice() {
            let mut name = Sequence::new(alloc);
            name.extend_from_slice(pair.0.items())?;
            let mut value = Sequence::new(alloc);
            value.extend_from_slice(pair.1.items())?;
            passed.push((name, value))?;
        }
    }
    Ok(passed)
}

/// The request of these pairs, or why there is none.
fn scgi_request_of(
    alloc: Global,
    pairs: Headers,
) -> Result<Result<ScgiRequest, Refusal>, AllocError>
    ensures { IfOk result (λ found. found ≡ scgi_request_of pairs) }
{
    let environ = Environ::from_pairs(pairs);
    let Some(length) = told_length(environ.pairs()) else {
        return Ok(Err(Refusal::BadRequest));
    };
    if !are_well(&environ) {
        return Ok(Err(Refusal::BadRequest));
    }
    if length > MOST_BODY as u64 {
        return Ok(Err(Refusal::TooLarge));
    }
    let passed = passed_on(alloc, environ.pairs())?;
    Ok(Ok(ScgiRequest {
        is_head: environ.get(b"REQUEST_METHOD") == Some(b"HEAD".as_slice()),
        environ: Environ::from_pairs(passed),
        length: length as usize,
    }))
}

/// The request of the bytes of a head behind its length: `n` bytes of names and values, and the byte in the comma's
/// place.
#[tactic(auto, unfolding(crate::specs::Block::judged_block))]
pub fn judged_block(
    alloc: Global,
    n: usize,
    block: &[u8],
) -> Result<Result<ScgiRequest, Refusal>, AllocError>
    requires { n ≤ list_length block.now }
    ensures { IfOk result (λ found. found ≡ judged_block n block.now) }
{
    if &block[n..] != b",".as_slice() {
        return Ok(Err(Refusal::BadRequest));
    }
    match pairs_in(alloc, &block[..n])? {
        None => Ok(Err(Refusal::BadRequest)),
        Some(pairs) => scgi_request_of(alloc, pairs),
    }
}
