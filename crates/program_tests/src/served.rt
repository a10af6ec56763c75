//! The command `serve` through the call, over a net, and what it leaves.
ghost use Rattle.std.specs.Prelude.{◌≡◌, ◌<◌, ◌^◌, length, false, IfOk};
ghost use Rattle.stream_net.specs.Net.{IsFresh};

use crate::calls::words_of;
use gv_io::{MemorySink, MemorySource};
use gv_top::gvr;
use gv_values::Answer;
use http_messages::Sequence;
use std::alloc::{AllocError, Global};
use std::sync::Wait;
use stream_dial::MemoryDial;
use stream_net::{Arrivals, ConnScript, Net, Piece, Rooms};
use world::{ListWorld, ScriptWorld, World};
use wsgi_core::ShippedApp;
use wsgi_relay::AppServer;

/// A call of `serve`, and what it leaves.
#[derive(Clone, Copy)]
pub(crate) struct Served<'a> {
    /// The words, which blanks part.
    pub(crate) words: &'a str,
    /// How many bytes out takes.
    pub(crate) room: usize,
    pub(crate) status: u8,
    pub(crate) out: &'a [u8],
    pub(crate) err: &'a [u8],
}

/// What a call is made with: its words, and the streams that it may dial.
#[derive(Drop)]
struct Call<'a> {
    words: &'a str,
    streams: Vec<ConnScript>,
}

/// What a call writes.
#[derive(Drop)]
struct Written {
    out: MemorySink,
    err: MemorySink,
}

/// Serves connections of the net as the words say, with an input that has nothing. The status.
fn serve_net<N: Net, W: World, H: Wait>(
    rt: &H,
    alloc: Global,
    call: Call,
    net: &mut N,
    native: &mut W,
    written: &mut Written,
) -> Result<u8, AllocError>
    requires fresh { IsFresh (N.meaning net.old) }
    requires rests { (W.meaning native.old).runs ≡ false }
{
    let words = words_of(alloc, call.words)?;
    let mut input = MemorySource::new(Vec::new(alloc), 1, Vec::new(alloc));
    let dial = MemoryDial::new(alloc, call.streams);
    let mut behind = AppServer { dial, patience: 0 };
    Ok(gvr(
        rt,
        alloc,
        words.as_slice(),
        &mut input,
        &mut written.out,
        &mut written.err,
        native,
        net,
        &mut behind,
        &ShippedApp,
    ))
}

/// Whether the call over this net and this world, which may dial these streams, leaves what it is to leave.
fn is_served_over<N: Net, W: World, H: Wait>(
    rt: &H,
    alloc: Global,
    served: &Served,
    net: &mut N,
    native: &mut W,
    streams: Vec<ConnScript>,
) -> Result<bool, AllocError>
    requires fresh { IsFresh (N.meaning net.old) }
    requires rests { (W.meaning native.old).runs ≡ false }
{
    let out = MemorySink::new(alloc, served.room)?;
    let err = MemorySink::new(alloc, 100)?;
    let mut written = Written { out, err };
    let call = Call {
        words: served.words,
        streams,
    };
    let status = serve_net(rt, alloc, call, net, native, &mut written);
    let is_written = written.out.bytes() == served.out && written.err.bytes() == served.err;
    Ok(status == Ok(served.status) && is_written)
}

/// Whether the call over this net leaves what it is to leave, where the native jobs are answered so.
pub(crate) fn is_served_by<N: Net, H: Wait>(
    rt: &H,
    alloc: Global,
    served: &Served,
    net: &mut N,
    answers: &[Answer],
) -> Result<bool, AllocError>
    requires { IsFresh (N.meaning net.old) }
{
    let answers = Vec::from_slice(alloc, answers)?;
    let mut native = ListWorld::new(alloc, answers);
    is_served_over(rt, alloc, served, net, &mut native, Vec::new(alloc))
}

/// Whether the call over this net leaves what it is to leave.
pub(crate) fn is_served<N: Net, H: Wait>(
    rt: &H,
    alloc: Global,
    served: &Served,
    net: &mut N,
) -> Result<bool, AllocError>
    requires { IsFresh (N.meaning net.old) }
{
    let mut native = ScriptWorld::new(alloc, 0);
    is_served_over(rt, alloc, served, net, &mut native, Vec::new(alloc))
}

/// Whether the call over this net, behind which an application server takes these streams, leaves what it is to leave.
pub(crate) fn is_passed<N: Net, H: Wait>(
    rt: &H,
    alloc: Global,
    served: &Served,
    net: &mut N,
    streams: Vec<ConnScript>,
) -> Result<bool, AllocError>
    requires { IsFresh (N.meaning net.old) }
{
    let mut native = ScriptWorld::new(alloc, 0);
    is_served_over(rt, alloc, served, net, &mut native, streams)
}

/// Appends these pieces, which arrive at 0.
fn push_pieces(alloc: Global, pieces: &mut Vec<Piece>, texts: &[&[u8]]) -> Result<(), AllocError> {
    for text in texts {
        let bytes = Sequence::from_vec(Vec::from_slice(alloc, text)?);
        pieces.push(Piece { at: 0, bytes })?;
    }
    Ok(())
}

/// A connection that arrives at 0, sends these pieces at once, takes so many bytes write by write and never ends.
pub(crate) fn sending(
    alloc: Global,
    texts: &[&[u8]],
    room: &[u32],
) -> Result<ConnScript, AllocError> {
    let room = Rooms::new(Vec::from_slice(alloc, room)?);
    let mut pieces = Vec::new(alloc);
    push_pieces(alloc, &mut pieces, texts)?;
    Ok(ConnScript {
        arrives: 0,
        pieces: Arrivals::new(pieces),
        ends: None,
        room,
        fails: None,
    })
}

/// The two connections, where memory was found for both.
pub(crate) fn two(
    alloc: Global,
    first: Result<ConnScript, AllocError>,
    second: Result<ConnScript, AllocError>,
) -> Result<Vec<ConnScript>, AllocError>
    ensures { IfOk result (λ scripts. length scripts.items < 2 ^ 32) }
{
    let first = first?;
    let second = second?;
    Ok(vec![in alloc; first, second]?)
}

/// Three connections, each of which sends one of these pieces.
pub(crate) fn three(
    alloc: Global,
    first: &[u8],
    second: &[u8],
    third: &[u8],
) -> Result<Vec<ConnScript>, AllocError>
    ensures { IfOk result (λ scripts. length scripts.items < 2 ^ 32) }
{
    let first = sending(alloc, &[first], &[])?;
    let second = sending(alloc, &[second], &[])?;
    let third = sending(alloc, &[third], &[])?;
    Ok(vec![in alloc; first, second, third]?)
}
