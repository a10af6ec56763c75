//! Scans for line ends.
ghost use Rattle.std.specs.Prelude.{◌≡◌, ◌==◌, ◌&&◌, ◌^◌, ◌<◌, ◌≤◌, ◌-◌, IfSome, length, take, true};
ghost use Rattle.std.specs.List.{position_or_len};
ghost use Rattle.std.specs.Str.{str_eq_ignore_ascii_case};
ghost use Rattle.http_messages.specs.Cuts.{empty_line, empty_line_end, is_lf, line_end};
ghost use Rattle.http_messages.specs.Scans.{Resumes, is_empty_so_far, place_after};

use memchr::memchr;

/// Where in a line a scan stands.
#[derive(Clone, Copy, Debug, PartialEq, Eq)]
pub enum LinePlace {
    /// Before its first byte.
    Start,
    /// Behind a CR that is its first byte.
    AfterReturn,
    /// Elsewhere: the line is not empty.
    Within,
}

/// Where a scan for an empty line stopped.
#[derive(Clone, Copy)]
pub struct Scanned {
    /// Where the first empty line ends, if one does.
    pub end: Option<usize>,
    /// The bytes that needn't be scanned again.
    pub scanned: usize,
    /// Where in a line the scan stands behind these.
    pub place: LinePlace,
}

/// The place behind one more byte.
fn place_after(place: LinePlace, byte: u8) -> LinePlace
    ensures { result ≡ place_after place byte }
{
    match (place, byte) {
        (_, b'\n') => LinePlace::Start,
        (LinePlace::Start, b'\r') => LinePlace::AfterReturn,
        _ => LinePlace::Within,
    }
}

/// Whether this byte ends an empty line here.
fn ends_empty_line(place: LinePlace, byte: u8) -> bool
    ensures { result ≡ (is_empty_so_far place && is_lf byte) }
{
    match place {
        LinePlace::Start | LinePlace::AfterReturn => byte == b'\n',
        LinePlace::Within => false,
    }
}

/// Where a scan at this place of a line has to look next: within a line at its LF, or at the end of the bytes.
fn next_looked_at(bytes: &[u8], at: usize, place: LinePlace) -> usize
    requires { at ≤ length bytes.now }
    ensures fits { result ≤ length bytes.now }
    ensures further { at ≤ result }
    ensures resumes { Resumes LinePlace.Start (take at bytes.now) place → Resumes LinePlace.Start (take result bytes.now) place }
{
    match place {
        LinePlace::Within => at + find_byte(&bytes[at..], b'\n'),
        LinePlace::Start | LinePlace::AfterReturn => at,
    }
}

/// Scans for the end of the first empty line, behind bytes that were scanned before.
pub fn scan_empty_line(bytes: &[u8], scanned: usize, place: LinePlace) -> Scanned
    requires fits { scanned ≤ length bytes.now }
    requires resumes { Resumes LinePlace.Start (take scanned bytes.now) place }
    ensures end { result.end ≡ empty_line_end true bytes.now }
    ensures within { IfSome result.end (λ n. (0 < n) × (n ≤ length bytes.now)) }
    ensures fits { result.scanned ≤ length bytes.now }
    ensures resumes { Resumes LinePlace.Start (take result.scanned bytes.now) result.place }
{
    let mut place = place;
    let mut at = scanned;
    'scan: while at < bytes.len() {
        if ends_empty_line(place, bytes[at]) {
            return Scanned {
                end: Some(at + 1),
                scanned: at,
                place,
            };
        }
        place = place_after(place, bytes[at]);
        at = next_looked_at(bytes, at + 1, place);
    }
    Scanned {
        end: None,
        scanned: at,
        place,
    }
}

/// Where the first line ends, which isn't within the bytes that were scanned before.
pub fn scan_line(bytes: &[u8], scanned: usize) -> Option<usize>
    requires fits { scanned ≤ length bytes.now }
    requires none { line_end (take scanned bytes.now) ≡ None }
    ensures end { result ≡ line_end bytes.now }
    ensures before { IfSome result (λ n. (0 < n) × (n ≤ length bytes.now) × (line_end (take (n - 1) bytes.now) ≡ None)) }
{
    for at in scanned..bytes.len() {
        if bytes[at] == b'\n' {
            return Some(at + 1);
        }
    }
    None
}

/// Whether two words are the same in any case of ASCII letters, as field names are (RFC 9110, section 5.1).
pub fn eq_any_case(word: &[u8], other: &[u8]) -> bool
    ensures { result ≡ str_eq_ignore_ascii_case word.now other.now }
{
    word.eq_ignore_ascii_case(other)
}

/// Where the byte first stands, or the length where it doesn't.
pub fn find_byte(bytes: &[u8], byte: u8) -> usize
    ensures position { result ≡ position_or_len (λ b. b == byte) bytes.now }
    ensures within { result ≤ length bytes.now }
    ensures fits { length bytes.now < 2 ^ 64 }
{
    match memchr(byte, bytes) {
        Some(at) => at,
        None => bytes.len(),
    }
}

/// The length of the empty line at the front; 0 where none stands there.
pub fn empty_line(bytes: &[u8]) -> usize
    ensures { result ≡ empty_line bytes.now }
{
    match bytes {
        [b'\n', ..] => 1,
        [b'\r', b'\n', ..] => 2,
        _ => 0,
    }
}
