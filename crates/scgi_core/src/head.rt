//! A request, read from the front of the bytes that were kept.
ghost use Rattle.std.specs.Prelude.{◌≡◌, IfOk};
ghost use Rattle.http_messages.specs.Readings.{Finds};
ghost use Rattle.scgi_core.specs.Head.{scgi_request_at};
ghost use Rattle.scgi_core.specs.Readings.{FindsCall};

use crate::block::judged_block;
use crate::length::read_length;
use crate::request::{CallFound, LengthFound, ScgiRequest, ScgiStage};
use http_messages::{ByteQueue, Found, Refusal, Sequence};
use std::alloc::{AllocError, Global};

/// Reads a head: its length, so many bytes of names and values, and `,`.
fn read_head(alloc: Global, kept: &mut ByteQueue) -> Result<Found<ScgiRequest>, AllocError>
    ensures { IfOk result (λ found. Finds scgi_request_at found kept.old kept.new) }
{
    match read_length(kept.items()) {
        LengthFound::LengthWaits => Ok(Found::Waits),
        LengthFound::LengthRefused => Ok(Found::Refused(Refusal::BadRequest)),
        LengthFound::LengthWhole(n, at) => {
            if kept.len() - at <= n {
                return Ok(Found::Waits);
            }
            match judged_block(alloc, n, &kept.items()[at..at + n + 1])? {
                Err(reason) => Ok(Found::Refused(reason)),
                Ok(request) => {
                    kept.skip(at + n + 1);
                    Ok(Found::Whole(request))
                }
            }
        }
    }
}

/// Reads the body of a request.
fn read_body(
    alloc: Global,
    request: ScgiRequest,
    kept: &mut ByteQueue,
) -> Result<CallFound, AllocError>
    ensures { IfOk result (λ found. FindsCall (ScgiStage.InBody request) found kept.old kept.new) }
{
    if kept.len() < request.length {
        return Ok(CallFound::CallWaits(ScgiStage::InBody(request)));
    }
    let mut body = Sequence::new(alloc);
    body.extend_from_slice(&kept.items()[..request.length])?;
    kept.skip(request.length);
    Ok(CallFound::CallWhole(request, body))
}

/// Reads a request with its body from a stage on; what it takes stands no longer in `kept`.
pub fn read_call(
    alloc: Global,
    stage: ScgiStage,
    kept: &mut ByteQueue,
) -> Result<CallFound, AllocError>
    ensures { IfOk result (λ found. FindsCall stage found kept.old kept.new) }
{
    match stage {
        ScgiStage::InBody(request) => read_body(alloc, request, kept),
        ScgiStage::AtHead => match read_head(alloc, kept)? {
            Found::Waits => Ok(CallFound::CallWaits(ScgiStage::AtHead)),
            Found::Refused(reason) => Ok(CallFound::CallRefused(reason)),
            Found::Whole(request) => read_body(alloc, request, kept),
        },
    }
}
