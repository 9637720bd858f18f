//! What an append writes: an entry, and a closed gate after it.
ghost use Rattle.std.specs.Prelude.{◌≡◌, ◌⊎◌, ◌≤◌, ◌^◌, ◌++◌, ◌∷◌, [], length, not, is_some, IfSome, IfOk, IfErr};
ghost use Rattle.std.specs.Int.{w32, w64, to_be_bytes};
ghost use Rattle.orc_journal.specs.Entries.{IsEntry, entry_kind, payload, is_intent};
ghost use Rattle.orc_journal.specs.Appends.{block_bytes};

use crate::gate::CLOSED;
use crate::kind::{ABORT, DECIDE, INTENT, SETTLED};
use crate::writing::payload_of;
use crate::{AppendFault, Entry};
use orc_text::Memory;
use std::alloc::Global;

const SHORT_LEN: usize = 14;

// The byte that stands for the kind of an entry.
fn kind_of(entry: &Entry) -> u8
    ensures { result ≡ entry_kind entry.now }
{
    match entry {
        Entry::Intent { .. } => INTENT,
        Entry::Decide { .. } => DECIDE,
        Entry::Abort { .. } => ABORT,
        Entry::Settled { .. } => SETTLED,
    }
}

// The block of an entry of this kind that says only a number.
fn numbered(kind: u8, t: u64) -> [u8; SHORT_LEN]
    ensures { result ≡ kind ∷ (to_be_bytes w32 8 ++ (to_be_bytes w64 t ++ CLOSED ∷ [])) }
{
    let [a, b, c, d, e, f, g, h] = t.to_be_bytes();
    [kind, 0, 0, 0, 8, a, b, c, d, e, f, g, h, CLOSED]
}

/// The block of an entry that takes no memory, which is any but an intent.
pub(crate) fn short_block(entry: &Entry) -> Option<[u8; SHORT_LEN]>
    ensures block { IfSome result (λ block. block ≡ block_bytes entry.now) }
    ensures some { is_some result ≡ not (is_intent entry.now) }
{
    match entry {
        Entry::Intent { .. } => None,
        Entry::Decide { t } => Some(numbered(kind_of(entry), *t)),
        Entry::Abort { t } => Some(numbered(kind_of(entry), *t)),
        Entry::Settled { t } => Some(numbered(kind_of(entry), *t)),
    }
}

// A kind, the length of what is said, what is said, and a closed gate.
fn framed(alloc: Global, kind: u8, len: u32, said: &[u8]) -> Result<Vec<u8>, Memory>
    ensures { IfOk result (λ block. block.items ≡ kind ∷ (to_be_bytes w32 len ++ (said.now ++ CLOSED ∷ []))) }
{
    let mut block = Vec::with_capacity(alloc, said.len().saturating_add(6))?;
    block.push(kind)?;
    block.extend_from_slice(&len.to_be_bytes())?;
    block.extend_from_slice(said)?;
    block.push(CLOSED)?;
    Ok(block)
}

/// The block of any entry that is put after a journal of this length. What an entry says may be too
/// long for its own length, and then the journal is full.
pub(crate) fn long_block(alloc: Global, entry: &Entry, len: u64) -> Result<Vec<u8>, AppendFault>
    requires { IsEntry entry.now }
    ensures block { IfOk result (λ block. block.items ≡ block_bytes entry.now) }
    ensures refused { IfErr result (λ fault. (fault ≡ AppendFault.Memory)
        ⊎ ((fault ≡ AppendFault.Full len) × (2 ^ 32 ≤ length (payload entry.now)))) }
{
    let said = payload_of(alloc, entry)?;
    match u32::try_from(said.len()) {
        Ok(size) => Ok(framed(alloc, kind_of(entry), size, &said)?),
        Err(_) => Err(AppendFault::Full { len }),
    }
}
