//! One request that was handed on over a stream, and the reply that comes.
ghost use Rattle.std.specs.Prelude.{◌≡◌, ◌+◌, ◌^◌, ◌<◌, ◌≤◌, ◌++◌, ℕ, List, Ok, None, Some, false, true, drop, if◌then◌else◌, length, IfOk, IfSome, OnOk};
ghost use Rattle.stream_net.specs.declared.net.Quiet.TheVariants.{ByRead, ByWrite};
ghost use Rattle.stream_dial.specs.Dials.{ClosesIn, IsOpen, ReadsIn, WritesIn};
ghost use Rattle.relay_core.specs.Replies.{IsReading, relayed};
ghost use Rattle.wsgi_relay.specs.Exchanging.{GoesOnIn, HasFed, HasShown, IsBegun, IsDecided, IsExchanging, IsHeard, IsSameExchange, IsSent, OfSlot};

use http_messages::{Bytes, Environ};
use relay_core::{Far, MOST_REPLY_BODY, MOST_REPLY_HEAD, ReplyReader, scgi_head};
use std::alloc::{AllocError, Global};
use stream_dial::Dial;
use stream_net::{ReadEnd, WriteEnd};
use wsgi_core::Reply;

/// A request that was handed on. Its body stands elsewhere.
#[derive(Drop)]
pub struct Exchange {
    /// The connection that waits for the reply.
    pub conn: u32,
    /// The message but for the body.
    pub head: Bytes,
    /// How many bytes of the message were sent.
    pub sent: usize,
    /// Whether a read or a write failed.
    pub failed: bool,
    /// Reads the reply.
    pub reader: ReplyReader,
    /// The moment at which its time is over.
    pub until: u64,
}

/// What a read came to.
#[derive(Clone, Copy)]
enum Heard {
    /// Bytes that don't decide the reply. There may be more.
    Bytes,
    /// Nothing is there yet.
    Nothing,
    /// The server has come so far.
    Over(Far),
}

impl Exchange {
    /// One of which nothing was sent yet. A message of which the length is no `usize` is refused as memory is.
    pub fn new(
        alloc: Global,
        conn: u32,
        environ: &Environ,
        body_length: usize,
        is_head: bool,
        until: u64,
    ) -> Result<Exchange, AllocError>
        ensures begun { IfOk result (λ x. IsBegun x environ.now body_length) }
        ensures conn { IfOk result (λ x. x.conn ≡ conn) }
        ensures is_head { IfOk result (λ x. x.reader.is_head ≡ is_head) }
        ensures until { IfOk result (λ x. x.until ≡ until) }
    {
        let head = scgi_head(alloc, environ, body_length)?;
        if head.len() > usize::MAX - body_length {
            return Err(AllocError);
        }
        Ok(Exchange {
            conn,
            head,
            sent: 0,
            failed: false,
            reader: ReplyReader::new(alloc, is_head),
            until,
        })
    }
}

/// What is left of a piece behind so many bytes.
fn left_of(piece: &[u8], sent: usize) -> &[u8]
    ensures { result.now ≡ drop sent piece.now }
{
    &piece[sent.min(piece.len())..]
}

/// Writes some of what is left of the message.
fn write_left<D: Dial>(dial: &mut D, slot: usize, exchange: &Exchange, body: &[u8]) -> WriteEnd
    requires opened { IsOpen (D.meaning dial.old) slot }
    requires left { exchange.now.sent < length exchange.now.head + length body.now }
    ensures opened { IsOpen (D.meaning dial.new) slot }
    ensures only { GoesOnIn (D.meaning dial.old) (D.meaning dial.new) slot }
    ensures writes { WritesIn (D.meaning dial.old) (D.meaning dial.new) slot result (drop exchange.now.sent (exchange.now.head ++ body.now)) }
    ensures fits { (n : ℕ) → result ≡ WriteEnd.Took n → exchange.now.sent + n ≤ length exchange.now.head + length body.now }
    ensures some { (n : ℕ) → result ≡ WriteEnd.Took n → 0 < n }
{
    let head = exchange.head.items();
    let first = left_of(head, exchange.sent);
    let second = left_of(body, exchange.sent.saturating_sub(head.len()));
    dial.write(slot, first, second)
}

/// Writes once. Answers whether more may be taken at once.
fn send_some<D: Dial>(
    dial: &mut D,
    slot: usize,
    exchange: &mut Exchange,
    body: &[u8],
) -> Result<bool, AllocError>
    requires opened { IsOpen (D.meaning dial.old) slot }
    requires left { exchange.old.sent < length exchange.old.head + length body.now }
    requires exchanging { OfSlot (D.meaning dial.old) slot (λ s. IsExchanging s exchange.old body.now) }
    ensures opened { IsOpen (D.meaning dial.new) slot }
    ensures only { GoesOnIn (D.meaning dial.old) (D.meaning dial.new) slot }
    ensures same { IsSameExchange exchange.old exchange.new }
    ensures exchanging { OfSlot (D.meaning dial.new) slot (λ s. IsExchanging s exchange.new body.now) }
    ensures more { result ≡ Ok true → exchange.old.sent < exchange.new.sent }
    ensures rests { result ≡ Ok false → exchange.new.failed ≡ false → OfSlot (D.meaning dial.new) slot (λ s. s.quiet ≡ ByWrite) }
{
    match write_left(dial, slot, exchange, body) {
        WriteEnd::Took(count) => {
            exchange.sent += count;
            Ok(true)
        }
        WriteEnd::WouldBlock => Ok(false),
        WriteEnd::Failed => {
            exchange.failed = true;
            Ok(false)
        }
        WriteEnd::Memory => Err(AllocError),
    }
}

/// Whether there is something left to be written, and no fault.
fn is_unsent(exchange: &Exchange, body: &[u8]) -> bool
    requires { length exchange.now.head + length body.now < 2 ^ 64 }
    ensures left { result ≡ true → exchange.now.sent < length exchange.now.head + length body.now }
    ensures none { result ≡ false → exchange.now.failed ≡ false → length exchange.now.head + length body.now ≤ exchange.now.sent }
{
    !exchange.failed && exchange.sent < exchange.head.len() + body.len()
}

/// Writes what is left of the message, until no byte is taken. After a write that failed none follows, but a reply may
/// stand there: an application may answer and close before it has read the body. After an `Err` memory ran out.
pub fn send<D: Dial>(
    dial: &mut D,
    slot: usize,
    exchange: &mut Exchange,
    body: &[u8],
) -> Result<(), AllocError>
    requires opened { IsOpen (D.meaning dial.old) slot }
    requires exchanging { OfSlot (D.meaning dial.old) slot (λ s. IsExchanging s exchange.old body.now) }
    ensures opened { IsOpen (D.meaning dial.new) slot }
    ensures only { GoesOnIn (D.meaning dial.old) (D.meaning dial.new) slot }
    ensures same { IsSameExchange exchange.old exchange.new }
    ensures exchanging { OfSlot (D.meaning dial.new) slot (λ s. IsExchanging s exchange.new body.now) }
    ensures rests { OnOk result (exchange.new.failed ≡ false → exchange.new.sent < length exchange.new.head + length body.now → OfSlot (D.meaning dial.new) slot (λ s. s.quiet ≡ ByWrite)) }
{
    while is_unsent(exchange, body) {
        if !send_some(dial, slot, exchange, body)? {
            return Ok(());
        }
    }
    Ok(())
}

/// How far a server has come whose stream ended: behind a fault, what came may be cut off.
fn far_at_end(failed: bool) -> Far
    ensures { result ≡ (if failed then Far.Broken else Far.Ended) }
{
    if failed { Far::Broken } else { Far::Ended }
}

/// Reads once.
fn read_some<D: Dial>(dial: &mut D, slot: usize, buffer: &mut [u8]) -> ReadEnd
    requires opened { IsOpen (D.meaning dial.old) slot }
    requires room { 0 < length buffer.old }
    ensures opened { IsOpen (D.meaning dial.new) slot }
    ensures only { GoesOnIn (D.meaning dial.old) (D.meaning dial.new) slot }
    ensures reads { ReadsIn (D.meaning dial.old) (D.meaning dial.new) slot result buffer.new }
    ensures some { (n : ℕ) → result ≡ ReadEnd.Got n → 0 < n }
    ensures fits { (n : ℕ) → result ≡ ReadEnd.Got n → n ≤ length buffer.new }
{
    dial.read(slot, buffer)
}

/// Reads once, and feeds what came.
fn receive_some<D: Dial>(
    dial: &mut D,
    slot: usize,
    exchange: &mut Exchange,
    buffer: &mut [u8],
) -> Result<Heard, AllocError>
    requires opened { IsOpen (D.meaning dial.old) slot }
    requires room { 0 < length buffer.old }
    requires heard { OfSlot (D.meaning dial.old) slot (λ s. IsHeard s exchange.old) }
    ensures opened { IsOpen (D.meaning dial.new) slot }
    ensures only { GoesOnIn (D.meaning dial.old) (D.meaning dial.new) slot }
    ensures same { IsSameExchange exchange.old exchange.new }
    ensures sent { (body : List ℕ) → OfSlot (D.meaning dial.old) slot (λ s. IsSent s exchange.old body) → OfSlot (D.meaning dial.new) slot (λ s. IsSent s exchange.new body) }
    ensures heard { OnOk result (OfSlot (D.meaning dial.new) slot (λ s. IsHeard s exchange.new)) }
    ensures more { result ≡ Ok Heard.Bytes → (n : ℕ) → HasFed exchange.old n → HasFed exchange.new (n + 1) }
    ensures over { (far : Far) → result ≡ Ok (Heard.Over far) → OfSlot (D.meaning dial.new) slot (λ s. HasShown far s exchange.new) }
    ensures waits { result ≡ Ok Heard.Nothing → OfSlot (D.meaning dial.new) slot (λ s. s.quiet ≡ ByRead) }
{
    match read_some(dial, slot, buffer) {
        ReadEnd::Got(count) => {
            exchange.reader.feed(&buffer[..count])?;
            if exchange.reader.is_decided() {
                return Ok(Heard::Over(Far::GoesOn));
            }
            Ok(Heard::Bytes)
        }
        ReadEnd::End => Ok(Heard::Over(far_at_end(exchange.failed))),
        ReadEnd::WouldBlock => Ok(Heard::Nothing),
        ReadEnd::Failed => {
            exchange.failed = true;
            Ok(Heard::Over(Far::Broken))
        }
    }
}

/// Reads until the reply is decided, the stream ends or fails, or nothing is there yet: `None`. After an `Err` memory ran
/// out, and what was read is lost.
fn receive<D: Dial>(
    dial: &mut D,
    slot: usize,
    exchange: &mut Exchange,
    buffer: &mut [u8],
) -> Result<Option<Far>, AllocError>
    requires opened { IsOpen (D.meaning dial.old) slot }
    requires room { 0 < length buffer.old }
    requires heard { OfSlot (D.meaning dial.old) slot (λ s. IsHeard s exchange.old) }
    ensures opened { IsOpen (D.meaning dial.new) slot }
    ensures only { GoesOnIn (D.meaning dial.old) (D.meaning dial.new) slot }
    ensures same { IsSameExchange exchange.old exchange.new }
    ensures sent { (body : List ℕ) → OfSlot (D.meaning dial.old) slot (λ s. IsSent s exchange.old body) → OfSlot (D.meaning dial.new) slot (λ s. IsSent s exchange.new body) }
    ensures heard { OnOk result (OfSlot (D.meaning dial.new) slot (λ s. IsHeard s exchange.new)) }
    ensures far { (far : Far) → result ≡ Ok (Some far) → OfSlot (D.meaning dial.new) slot (λ s. HasShown far s exchange.new) }
    ensures waits { result ≡ Ok None → OfSlot (D.meaning dial.new) slot (λ s. s.quiet ≡ ByRead) }
{
    for count in 0..MOST_REPLY_HEAD + MOST_REPLY_BODY + 1 {
        match receive_some(dial, slot, exchange, buffer)? {
            Heard::Bytes => {}
            Heard::Nothing => return Ok(None),
            Heard::Over(far) => return Ok(Some(far)),
        }
    }
    // So many bytes decide each reply: the loop is left by a return alone.
    unreachable!()
}

/// Writes what is left of the message, and reads what came of the reply. Answers how far the server has come: `GoesOn`
/// where the reply is decided, `None` where it isn't and more is to be waited for. After an `Err` memory ran out, and what
/// was read is lost.
pub fn advance<D: Dial>(
    dial: &mut D,
    slot: usize,
    exchange: &mut Exchange,
    body: &[u8],
    buffer: &mut [u8],
) -> Result<Option<Far>, AllocError>
    requires opened { IsOpen (D.meaning dial.old) slot }
    requires room { 0 < length buffer.old }
    requires exchanging { OfSlot (D.meaning dial.old) slot (λ s. IsExchanging s exchange.old body.now) }
    ensures opened { IsOpen (D.meaning dial.new) slot }
    ensures only { GoesOnIn (D.meaning dial.old) (D.meaning dial.new) slot }
    ensures same { IsSameExchange exchange.old exchange.new }
    ensures sent { OfSlot (D.meaning dial.new) slot (λ s. IsSent s exchange.new body.now) }
    ensures exchanging { OnOk result (OfSlot (D.meaning dial.new) slot (λ s. IsExchanging s exchange.new body.now)) }
    ensures far { (far : Far) → result ≡ Ok (Some far) → OfSlot (D.meaning dial.new) slot (λ s. HasShown far s exchange.new) }
    ensures waits { result ≡ Ok None → OfSlot (D.meaning dial.new) slot (λ s. s.quiet ≡ ByRead) }
{
    send(dial, slot, exchange, body)?;
    receive(dial, slot, exchange, buffer)
}

/// Closes the stream, and gives the reply of a server that has come so far; `GoesOn` only where that is decided. After an
/// `Err` memory ran out.
pub fn close_exchange<D: Dial>(
    dial: &mut D,
    slot: usize,
    exchange: Exchange,
    far: Far,
) -> Result<Reply, AllocError>
    requires opened { IsOpen (D.meaning dial.old) slot }
    requires heard { OfSlot (D.meaning dial.old) slot (λ s. IsHeard s exchange) }
    requires decided { far ≡ Far.GoesOn → IsDecided exchange }
    ensures closes { ClosesIn (D.meaning dial.old) (D.meaning dial.new) slot }
    ensures reply { IfOk result (λ reply. (fed : List ℕ) → IsReading fed exchange.reader → relayed exchange.reader.is_head far fed ≡ Some reply) }
{
    dial.close(slot);
    match exchange.reader.reply(far)? {
        Some(reply) => Ok(reply),
        // Each server that goes on no more has a reply, and the others have a decided one.
        None => unreachable!(),
    }
}
