//! All that a source has, up to a limit.
ghost use Rattle.std.specs.Prelude.{◌≤◌, ◌<◌, ◌+◌, ◌^◌, IfOk, OnErr, IsErrOf, vec_len};
ghost use Rattle.std.specs.Io.KnownBytes.{IsAtEnd, Consumes};
ghost use Rattle.orc_io.specs.Counts.{Rose};
ghost use Rattle.orc_io.specs.Pieces.{GivesUpTo};

use crate::{Failed, Source};
use std::alloc::Global;

// How many bytes are asked of a source at once.
const PIECE_LEN: usize = 4096;

/// Why a source was not read to its end.
#[derive(Clone, Copy, Debug, PartialEq, Eq)]
pub enum WholeFault {
    /// A call of the source failed.
    Failed,
    /// Memory could not be had.
    Memory,
}

/// Reads a source to its end, or its first `limit + 1` bytes where it has more: it takes no byte after these, and
/// returns also where a source never ends. After a refusal the bytes read are gone from the source, and no others.
pub fn read_whole<S: Source>(
    alloc: Global,
    source: &mut S,
    limit: usize,
) -> Result<Vec<u8>, WholeFault>
    requires { limit < 2 ^ 60 }
    ensures whole { IfOk result (λ v. Consumes (S.source.left source.old) (S.source.left source.new) v.items) }
    ensures most { IfOk result (λ v. vec_len v ≤ limit + 1) }
    ensures end { IfOk result (λ v. vec_len v ≤ limit → IsAtEnd (S.source.left source.new)) }
    ensures begun { OnErr result (GivesUpTo (limit + 1) (S.source.left source.old) (S.source.left source.new)) }
    ensures later { S.source.faults source.old ≤ S.source.faults source.new }
    ensures failed { IsErrOf result WholeFault.Failed → Rose (S.source.faults source.old) (S.source.faults source.new) }
{
    let mut whole = Vec::new(alloc);
    let mut buf = [0u8; PIECE_LEN];
    while whole.len() <= limit {
        let wanted = (limit + 1 - whole.len()).min(PIECE_LEN);
        match source.read_some(&mut buf[..wanted]) {
            Err(Failed) => return Err(WholeFault::Failed),
            Ok(0) => return Ok(whole),
            Ok(count) => {
                if whole.extend_from_slice(&buf[..count]).is_err() {
                    return Err(WholeFault::Memory);
                }
            }
        }
    }
    Ok(whole)
}
