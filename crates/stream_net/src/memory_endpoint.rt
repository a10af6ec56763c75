//! A connection in memory, which goes by its script.
ghost use Rattle.std.specs.Prelude.{◌≡◌, ◌≢◌, ◌↔◌, ℕ, ◌+◌, ◌<◌, ◌≤◌, ◌++◌, Some, List, length, take, drop, Bool, true, false, None, IfSome, IfNone};
ghost use Rattle.gv_values.specs.Counts.{HasRisen};
ghost use Rattle.gv_values.specs.OneMore.{one_more as count_after};
ghost use Rattle.stream_net.specs.Accounts.{read_after};
ghost use Rattle.stream_net.specs.MemoryEndpoints.{bytes_at, has_bytes, is_failing, is_past, is_readable, is_writable, scripted_meaning, next_byte, read_of, until_end};
ghost use Rattle.stream_net.specs.MemoryNets.{IsWithin};
ghost use Rattle.stream_net.specs.Net.{IsNew, closed_at, held_as};
ghost use Rattle.stream_net.specs.News.{arrives_next, has_news, has_piece, is_news, piece_after, told_of};
ghost use Rattle.stream_net.specs.Reads.{after_read};
ghost use Rattle.stream_net.specs.Rules.{EndsRead, EndsWrite, WasRead, WasWritten, found_by, waits_after, writes_after};
ghost use Rattle.stream_net.specs.Taken.{written_after};
ghost use Rattle.stream_net.specs.Waits.{woken_if};
ghost use Rattle.stream_net.specs.Writes.{after_write};

use crate::account::Account;
use crate::net::{ReadEnd, Ready, WriteEnd};
use crate::script::{ConnScript, Piece};
use gv_io::one_more;
use std::alloc::Global;

/// An accepted connection in memory, by its script.
#[derive(Drop)]
pub struct MemoryEndpoint {
    /// Its script.
    pub script: ConnScript,
    /// The piece that is read next.
    pub place: usize,
    /// How many bytes of it were read.
    pub offset: usize,
    /// What was written.
    pub written: Vec<u8>,
    /// How many reads and writes there were.
    pub calls: u64,
    /// How many writes there were that didn't fail.
    pub writes: usize,
    /// The arrivals by this moment were told or found.
    pub told: Option<u64>,
    /// Whether a write would block and that it takes bytes again wasn't told.
    pub waits: bool,
    /// What else is kept of it.
    pub account: Account,
}

/// Goes on to the piece of which bytes are left.
fn settled(pieces: &[Piece], place: usize, offset: usize) -> (usize, usize)
    ensures same { read_of pieces.now result.0 result.1 ≡ read_of pieces.now place offset }
    ensures some { result.0 < length pieces.now → result.1 < length (bytes_at pieces.now result.0) }
    ensures next { next_byte (drop result.0 pieces.now) result.1 ≡ next_byte (drop place pieces.now) offset }
{
    let mut left = offset;
    for at in place..pieces.len() {
        if left < pieces[at].bytes.len() {
            return (at, left);
        }
        left = 0;
    }
    (pieces.len().max(place), left)
}

/// The last moment whose bytes have come: none come behind the end.
fn last_moment(ends: Option<u64>, moment: u64) -> u64
    ensures { result ≡ until_end ends moment }
{
    match ends {
        Some(end) => end.min(moment),
        None => moment,
    }
}

/// Whether the end has come.
fn has_ended(ends: Option<u64>, moment: u64) -> bool
    ensures { result ≡ is_past ends moment }
{
    match ends {
        Some(end) => end <= moment,
        None => false,
    }
}

/// Whether what comes at `at` has come by this moment and wasn't told, where all that came by `told` was.
pub fn is_news(told: Option<u64>, moment: u64, at: u64) -> bool
    ensures { result ≡ is_news told moment at }
{
    let was_told = match told {
        Some(by) => at <= by,
        None => false,
    };
    at <= moment && !was_told
}

/// Whether a piece came by this moment and wasn't told.
fn has_piece(pieces: &[Piece], told: Option<u64>, moment: u64) -> bool
    ensures { result ≡ has_piece pieces.now told moment }
{
    for place in 0..pieces.len() {
        if is_news(told, moment, pieces[place].at) {
            return true;
        }
    }
    false
}

/// The moment of the first piece behind this one.
fn piece_after(pieces: &[Piece], moment: u64) -> Option<u64>
    ensures is { result ≡ piece_after pieces.now moment }
    ensures later { IfSome result (λ at. moment < at) }
{
    for place in 0..pieces.len() {
        if pieces[place].at > moment {
            return Some(pieces[place].at);
        }
    }
    None
}

impl MemoryEndpoint {
    /// A connection that is accepted at this moment.
    pub fn new(alloc: Global, script: ConnScript, moment: u64) -> MemoryEndpoint
        ensures new { IsNew (scripted_meaning result) moment }
        ensures script { result.script ≡ script }
        ensures calls { result.calls ≡ 0 }
        ensures writes { result.writes ≡ 0 }
        ensures untold { result.told ≡ None }
        ensures ready { result.waits ≡ false }
    {
        MemoryEndpoint {
            script,
            place: 0,
            offset: 0,
            written: Vec::new(alloc),
            calls: 0,
            writes: 0,
            told: None,
            waits: false,
            account: Account::new(moment),
        }
    }
}

/// Whether the next read or write is the one that fails; it is counted.
fn fails_now(endpoint: &mut MemoryEndpoint) -> bool
    ensures same { endpoint.new ≡ record endpoint.old { calls = count_after endpoint.old.calls } }
    ensures fails { result ≡ is_failing endpoint.old }
{
    let call = endpoint.calls;
    endpoint.calls = one_more(call);
    match endpoint.script.fails {
        Some(number) => number == call,
        None => false,
    }
}

/// Gives the next bytes that came by this moment.
fn give(endpoint: &mut MemoryEndpoint, moment: u64, buf: &mut [u8]) -> Option<usize>
    requires { 0 < length buf.old }
    ensures given { IfSome result (λ n. read_of endpoint.new.script.pieces endpoint.new.place endpoint.new.offset ≡ read_of endpoint.old.script.pieces endpoint.old.place endpoint.old.offset ++ take n buf.new) }
    ensures kept { IfNone result (read_of endpoint.new.script.pieces endpoint.new.place endpoint.new.offset ≡ read_of endpoint.old.script.pieces endpoint.old.place endpoint.old.offset) }
    ensures some { IfSome result (λ n. 0 < n) }
    ensures fits { IfSome result (λ n. n ≤ length buf.new) }
    ensures account { endpoint.new.account ≡ endpoint.old.account }
    ensures written { endpoint.new.written ≡ endpoint.old.written }
    ensures script { endpoint.new.script ≡ endpoint.old.script }
    ensures none { IfNone result (has_bytes endpoint.old moment ≡ false) }
    ensures has { IfSome result (λ _. has_bytes endpoint.old moment ≡ true) }
    ensures rest { endpoint.new ≡ record endpoint.old { place = endpoint.new.place; offset = endpoint.new.offset } }
{
    let by = last_moment(endpoint.script.ends, moment);
    let (place, offset) = settled(
        endpoint.script.pieces.items(),
        endpoint.place,
        endpoint.offset,
    );
    endpoint.place = place;
    endpoint.offset = offset;
    if place >= endpoint.script.pieces.items().len() {
        return None;
    }
    if endpoint.script.pieces.items()[place].at > by {
        return None;
    }
    let bytes = endpoint.script.pieces.items()[place].bytes.items();
    let count = (bytes.len() - offset).min(buf.len());
    buf[..count].copy_from_slice(&bytes[offset..offset + count]);
    endpoint.offset = offset + count;
    Some(count)
}

/// What a read finds: the next bytes, the end, or nothing yet.
#[tactic(auto, unfolding(gv_io::specs::Streams::appended))]
fn find(endpoint: &mut MemoryEndpoint, moment: u64, buf: &mut [u8]) -> ReadEnd
    requires { 0 < length buf.old }
    ensures read { Some (read_of endpoint.new.script.pieces endpoint.new.place endpoint.new.offset) ≡ read_after result buf.new (Some (read_of endpoint.old.script.pieces endpoint.old.place endpoint.old.offset)) }
    ensures some { (n : ℕ) → result ≡ ReadEnd.Got n → 0 < n }
    ensures fits { (n : ℕ) → result ≡ ReadEnd.Got n → n ≤ length buf.new }
    ensures faultless { result ≢ ReadEnd.Failed }
    ensures account { endpoint.new.account ≡ endpoint.old.account }
    ensures written { endpoint.new.written ≡ endpoint.old.written }
    ensures script { endpoint.new.script ≡ endpoint.old.script }
    ensures blocks { result ≡ ReadEnd.WouldBlock → is_readable endpoint.old moment ≡ false }
    ensures ends { EndsRead result false endpoint.old moment }
    ensures rest { endpoint.new ≡ record endpoint.old { place = endpoint.new.place; offset = endpoint.new.offset; told = found_by result moment endpoint.old.told } }
{
    if let Some(count) = give(endpoint, moment, buf) {
        return ReadEnd::Got(count);
    }
    endpoint.told = Some(moment);
    if has_ended(endpoint.script.ends, moment) {
        return ReadEnd::End;
    }
    ReadEnd::WouldBlock
}

/// Reads the next bytes.
pub fn read_endpoint(endpoint: &mut MemoryEndpoint, moment: u64, buf: &mut [u8]) -> ReadEnd
    requires { 0 < length buf.old }
    ensures after { scripted_meaning endpoint.new ≡ after_read result buf.new moment endpoint.new.account.faults (scripted_meaning endpoint.old) }
    ensures never_falls { endpoint.old.account.faults ≤ endpoint.new.account.faults }
    ensures failed { result ≡ ReadEnd.Failed → HasRisen endpoint.old.account.faults endpoint.new.account.faults }
    ensures unfailed { result ≢ ReadEnd.Failed → endpoint.new.account.faults ≡ endpoint.old.account.faults }
    ensures some { (n : ℕ) → result ≡ ReadEnd.Got n → 0 < n }
    ensures fits { (n : ℕ) → result ≡ ReadEnd.Got n → n ≤ length buf.new }
    ensures fails { (result ≡ ReadEnd.Failed) ↔ (is_failing endpoint.old ≡ true) }
    ensures blocks { result ≡ ReadEnd.WouldBlock → is_readable endpoint.old moment ≡ false }
    ensures ends { EndsRead result (is_failing endpoint.old) endpoint.old moment }
    ensures rest { WasRead result moment endpoint.old endpoint.new }
{
    if fails_now(endpoint) {
        endpoint.account.note_read(ReadEnd::Failed, moment);
        return ReadEnd::Failed;
    }
    let end = find(endpoint, moment, buf);
    endpoint.account.note_read(end, moment);
    end
}

/// Takes the front of the bytes that there is room for.
#[tactic(auto, unfolding(gv_io::specs::Streams::appended))]
fn put(endpoint: &mut MemoryEndpoint, bytes: &[u8]) -> WriteEnd
    requires { 0 < length bytes.now }
    ensures written { Some endpoint.new.written.items ≡ written_after result bytes.now (Some endpoint.old.written.items) }
    ensures some { (n : ℕ) → result ≡ WriteEnd.Took n → 0 < n }
    ensures fits { (n : ℕ) → result ≡ WriteEnd.Took n → n ≤ length bytes.now }
    ensures faultless { result ≢ WriteEnd.Failed }
    ensures account { endpoint.new.account ≡ endpoint.old.account }
    ensures read { read_of endpoint.new.script.pieces endpoint.new.place endpoint.new.offset ≡ read_of endpoint.old.script.pieces endpoint.old.place endpoint.old.offset }
    ensures blocks { result ≡ WriteEnd.WouldBlock → is_writable endpoint.old ≡ false }
    ensures ends { EndsWrite result false endpoint.old (length bytes.now) }
    ensures rest { endpoint.new ≡ record endpoint.old { writes = writes_after result endpoint.old.writes; waits = waits_after result endpoint.old.waits; written = endpoint.new.written } }
{
    let count = match endpoint.script.room.items().get(endpoint.writes) {
        Some(room) => bytes.len().min(*room as usize),
        None => bytes.len(),
    };
    if count == 0 {
        endpoint.writes = endpoint.writes.saturating_add(1);
        endpoint.waits = true;
        return WriteEnd::WouldBlock;
    }
    match endpoint.written.extend_from_slice(&bytes[..count]) {
        Ok(()) => {
            endpoint.writes = endpoint.writes.saturating_add(1);
            WriteEnd::Took(count)
        }
        Err(_) => WriteEnd::Memory,
    }
}

/// Writes the front of the bytes.
pub fn write_endpoint(endpoint: &mut MemoryEndpoint, moment: u64, bytes: &[u8]) -> WriteEnd
    requires { 0 < length bytes.now }
    ensures after { scripted_meaning endpoint.new ≡ after_write result bytes.now moment endpoint.new.account.faults (scripted_meaning endpoint.old) }
    ensures never_falls { endpoint.old.account.faults ≤ endpoint.new.account.faults }
    ensures failed { result ≡ WriteEnd.Failed → HasRisen endpoint.old.account.faults endpoint.new.account.faults }
    ensures unfailed { result ≢ WriteEnd.Failed → endpoint.new.account.faults ≡ endpoint.old.account.faults }
    ensures some { (n : ℕ) → result ≡ WriteEnd.Took n → 0 < n }
    ensures fits { (n : ℕ) → result ≡ WriteEnd.Took n → n ≤ length bytes.now }
    ensures fails { (result ≡ WriteEnd.Failed) ↔ (is_failing endpoint.old ≡ true) }
    ensures blocks { result ≡ WriteEnd.WouldBlock → is_writable endpoint.old ≡ false }
    ensures ends { EndsWrite result (is_failing endpoint.old) endpoint.old (length bytes.now) }
    ensures rest { WasWritten result endpoint.old endpoint.new }
{
    if fails_now(endpoint) {
        endpoint.account.note_write(WriteEnd::Failed, moment);
        return WriteEnd::Failed;
    }
    let end = put(endpoint, bytes);
    endpoint.account.note_write(end, moment);
    end
}

/// Notes that its arrivals were told.
pub fn tell_readable(endpoint: &mut MemoryEndpoint, moment: u64)
    ensures named { scripted_meaning endpoint.new ≡ woken_if endpoint.old.account.closed (scripted_meaning endpoint.old) }
    ensures told { endpoint.new ≡ record endpoint.old { told = Some moment; account = endpoint.new.account } }
{
    endpoint.told = Some(moment);
    endpoint.account.note_named();
}

/// Notes that it was told to take bytes again.
pub fn tell_writable(endpoint: &mut MemoryEndpoint)
    ensures named { scripted_meaning endpoint.new ≡ woken_if endpoint.old.account.closed (scripted_meaning endpoint.old) }
    ensures told { endpoint.new ≡ record endpoint.old { waits = false; account = endpoint.new.account } }
{
    endpoint.waits = false;
    endpoint.account.note_named();
}

/// Closes the connection at this moment: from then on it has nothing to tell.
pub fn close_endpoint(endpoint: &mut MemoryEndpoint, moment: u64)
    ensures closed { scripted_meaning endpoint.new ≡ closed_at moment (scripted_meaning endpoint.old) }
    ensures rest { endpoint.new ≡ record endpoint.old { account = endpoint.new.account } }
{
    endpoint.account.note_close(moment);
}

/// Holds it, or releases it.
pub fn hold_endpoint(endpoint: &mut MemoryEndpoint, held: bool)
    ensures held { scripted_meaning endpoint.new ≡ held_as held (scripted_meaning endpoint.old) }
    ensures rest { endpoint.new ≡ record endpoint.old { account = endpoint.new.account } }
{
    endpoint.account.note_hold(held);
}

/// Whether bytes or the end came by this moment and were neither told nor found.
fn has_news(endpoint: &MemoryEndpoint, moment: u64) -> bool
    ensures { result ≡ has_news endpoint.now moment }
{
    let by = last_moment(endpoint.script.ends, moment);
    if has_piece(endpoint.script.pieces.items(), endpoint.told, by) {
        return true;
    }
    match endpoint.script.ends {
        Some(end) => is_news(endpoint.told, moment, end),
        None => false,
    }
}

/// What the connection of this number has to tell.
pub fn told_of(endpoint: &MemoryEndpoint, conn: u32, moment: u64) -> Option<Ready>
    ensures told { result ≡ told_of endpoint.now conn moment }
    ensures within { (n : ℕ) → conn < n → IfSome result (λ ready. IsWithin ready n) }
    ensures untimed { IfSome result (λ ready. ready ≢ Ready.Elapsed) }
{
    if endpoint.account.closed {
        return None;
    }
    if endpoint.waits {
        return Some(Ready::Writable(conn));
    }
    if has_news(endpoint, moment) {
        return Some(Ready::Readable(conn));
    }
    None
}

/// The moment at which bytes or the end come to it next.
pub fn arrives_next(endpoint: &MemoryEndpoint, moment: u64) -> Option<u64>
    ensures is { result ≡ arrives_next moment endpoint.now }
    ensures later { IfSome result (λ at. moment < at) }
{
    if endpoint.account.closed {
        return None;
    }
    if has_ended(endpoint.script.ends, moment) {
        return None;
    }
    let piece = piece_after(endpoint.script.pieces.items(), moment);
    match (piece, endpoint.script.ends) {
        (None, end) => end,
        (Some(at), None) => Some(at),
        (Some(at), Some(end)) => Some(at.min(end)),
    }
}
