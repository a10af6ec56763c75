ghost use Rattle.std.specs.Prelude.{◌≡◌, ◌+◌, ◌<◌, ◌≤◌, [], length, take, vec_len, IfOk, OnOk, OnErr, IsErrOf, IfSome};
ghost use Rattle.gv_io.specs.Streams.{prepended};
ghost use Rattle.gv_values.specs.Counts.{HasRisen};
ghost use Rattle.gv_io.specs.Limited.{TakesAtMost};
ghost use Rattle.gv_io.specs.declared.limits.TheConstants.{MOST_PIECE};

use crate::limits::MOST_PIECE;
use crate::source::Source;
use std::alloc::{AllocError, Global};
use thiserror::Error;

/// Why a read to a limit gave no bytes. Those that it had taken are lost.
#[derive(Clone, Copy, Debug, PartialEq, Eq, Error)]
pub enum ReadRefusal {
    /// A read failed.
    #[error("read fault")]
    Fault,
    #[error("out of memory")]
    Memory,
}

/// The bytes that are left, to their end, or the first `limit + 1` of them.
#[tactic(auto, using(crate::proofs::LimitLaws::limits))]
pub fn read_limited<S: Source>(
    alloc: Global,
    source: &mut S,
    limit: usize,
) -> Result<Vec<u8>, ReadRefusal>
    ensures first { IfOk result (λ v. IfSome (S.remaining source.old) (λ left. v.items ≡ take (limit + 1) left)) }
    ensures next { IfOk result (λ v. S.remaining source.old ≡ prepended v.items (S.remaining source.new)) }
    ensures limit { IfOk result (λ v. vec_len v ≤ limit + 1) }
    ensures end { IfOk result (λ v. vec_len v ≤ limit → IfSome (S.remaining source.new) (λ left. left ≡ [])) }
    ensures err { OnErr result (TakesAtMost (limit + 1) (S.remaining source.old) (S.remaining source.new)) }
    ensures fault { IsErrOf result ReadRefusal.Fault → HasRisen (S.faults source.old) (S.faults source.new) }
    ensures unfailed { OnOk result (S.faults source.new ≡ S.faults source.old) }
    ensures unfailed_memory { IsErrOf result ReadRefusal.Memory → S.faults source.new ≡ S.faults source.old }
    ensures never_falls { S.faults source.old ≤ S.faults source.new }
{
    let mut bytes = Vec::new(alloc);
    while bytes.len() <= limit {
        let most = (limit - bytes.len()).min(MOST_PIECE - 1) + 1;
        if read_piece(source, &mut bytes, most)? == 0 {
            return Ok(bytes);
        }
    }
    Ok(bytes)
}

/// Reads once behind the bytes that are there, and answers how many came.
#[tactic(auto, using(crate::proofs::LimitLaws::pieces))]
fn read_piece<S: Source>(
    source: &mut S,
    bytes: &mut Vec<u8>,
    most: usize,
) -> Result<usize, ReadRefusal>
    requires some { 0 < most }
    requires room { most ≤ MOST_PIECE }
    ensures next { OnOk result (prepended bytes.old.items (S.remaining source.old) ≡ prepended bytes.new.items (S.remaining source.new)) }
    ensures count { IfOk result (λ n. vec_len bytes.new ≡ vec_len bytes.old + n) }
    ensures most { IfOk result (λ n. n ≤ most) }
    ensures end { IfOk result (λ n. n ≡ 0 → IfSome (S.remaining source.new) (λ left. left ≡ [])) }
    ensures err { OnErr result (TakesAtMost most (S.remaining source.old) (S.remaining source.new)) }
    ensures fault { IsErrOf result ReadRefusal.Fault → HasRisen (S.faults source.old) (S.faults source.new) }
    ensures unfailed { OnOk result (S.faults source.new ≡ S.faults source.old) }
    ensures unfailed_memory { IsErrOf result ReadRefusal.Memory → S.faults source.new ≡ S.faults source.old }
    ensures never_falls { S.faults source.old ≤ S.faults source.new }
{
    let mut buffer = [0; MOST_PIECE];
    let Ok(count) = source.read(&mut buffer[..most]) else {
        return Err(ReadRefusal::Fault);
    };
    if bytes.extend_from_slice(&buffer[..count]).is_err() {
        return Err(ReadRefusal::Memory);
    }
    Ok(count)
}
