//! The header of a journal.
ghost use Rattle.std.specs.Prelude.{◌≡◌, ◌++◌, ◌<◌, ◌^◌, length, take, drop, MatchOption, MatchResult, IfOk, ◌∷◌, []};
ghost use Rattle.std.specs.Int.{w32, to_be_bytes, from_be_bytes};
ghost use Rattle.orc_journal.specs.Journals.{common, header};
ghost use Rattle.orc_journal.specs.inside.Fronts.{BeginsOtherwise};
ghost use Rattle.orc_journal.specs.inside.ReadFaults.{IsReadFault};

use crate::gate::CLOSED;
use crate::reading::ReadFault;
use orc_text::Memory;
use std::alloc::Global;

/// The first bytes of each journal.
pub(crate) const MAGIC: &[u8; 8] = b"ORCJRNL1";

/// The length of a header without its declarations: the first bytes, and the length of those.
pub(crate) const HEADER_LEN: u64 = 12;

// What stands after this prefix.
fn behind<'a>(bytes: &'a [u8], front: &[u8]) -> Option<&'a [u8]>
    ensures { MatchOption result (BeginsOtherwise bytes.now front.now) (λ rest. bytes.now ≡ front.now ++ rest.now) }
{
    bytes.strip_prefix(front)
}

// What stands after the length of these declarations and the declarations themselves.
fn behind_decls<'a>(bytes: &'a [u8], decls: &[u8]) -> Option<&'a [u8]>
    requires { length decls.now < 2 ^ 32 }
    ensures { MatchOption result (BeginsOtherwise bytes.now (to_be_bytes w32 (length decls.now) ++ decls.now))
        (λ rest. bytes.now ≡ to_be_bytes w32 (length decls.now) ++ (decls.now ++ rest.now)) }
{
    let rest = behind(bytes, &(decls.len() as u32).to_be_bytes())?;
    behind(rest, decls)
}

// The declarations whose length the bytes begin with, as far as they are there.
fn stored(bytes: &[u8]) -> &[u8]
    ensures { result.now ≡ take (from_be_bytes w32 (take 4 bytes.now)) (drop 4 bytes.now) }
{
    if bytes.len() < 4 {
        return &bytes[bytes.len()..];
    }
    let (front, rest) = bytes.split_at(4);
    let len = u32::from_be_bytes([front[0], front[1], front[2], front[3]]) as usize;
    if len < rest.len() { &rest[..len] } else { rest }
}

// The length of the longest prefix that two texts have in common.
fn common(xs: &[u8], ys: &[u8]) -> usize
    ensures { result ≡ common xs.now ys.now }
{
    let mut at = 0;
    while at < xs.len() && at < ys.len() && xs[at] == ys[at] {
        at += 1;
    }
    at
}

/// What stands after the header of a journal of these declarations.
pub(crate) fn behind_header<'a>(bytes: &'a [u8], decls: &[u8]) -> Result<&'a [u8], ReadFault>
    requires some { 0 < length bytes.now }
    requires short { length decls.now < 2 ^ 32 }
    ensures { MatchResult result (λ rest. bytes.now ≡ header decls.now ++ rest.now) (IsReadFault bytes.now decls.now) }
{
    let Some(rest) = behind(bytes, MAGIC) else {
        return Err(ReadFault::NotJournal);
    };
    match behind_decls(rest, decls) {
        Some(rest) => Ok(rest),
        None => Err(ReadFault::Foreign {
            at: common(stored(rest), decls) as u64,
        }),
    }
}

/// The header, and a closed gate after it.
pub(crate) fn header_block(alloc: Global, decls: &[u8]) -> Result<Vec<u8>, Memory>
    requires { length decls.now < 2 ^ 32 }
    ensures { IfOk result (λ block. block.items ≡ header decls.now ++ CLOSED ∷ []) }
{
    let mut block = Vec::new(alloc);
    block.extend_from_slice(MAGIC)?;
    block.extend_from_slice(&(decls.len() as u32).to_be_bytes())?;
    block.extend_from_slice(decls)?;
    block.push(CLOSED)?;
    Ok(block)
}
