//! What the bytes of a file hold as a journal.
ghost use Rattle.std.specs.Prelude.{◌≡◌, ◌<◌, ◌^◌, ◌∷◌, length, IfOk, IfErr, IsTrue, MatchOption};
ghost use Rattle.orc_journal.specs.Orders.{is_ordered};
ghost use Rattle.orc_journal.specs.Journals.{IsJournal, journal_length, is_ending};
ghost use Rattle.orc_journal.specs.inside.Stages.{AreStages};
ghost use Rattle.orc_journal.specs.inside.Fronts.{HasNoNext, HasNext};
ghost use Rattle.orc_journal.specs.inside.ReadFaults.{IsReadFault};

use crate::Entry;
use crate::decoding::entry_at;
use crate::gate::OPEN;
use crate::header::behind_header;
use crate::order::Stages;
use orc_text::Memory;
use std::alloc::Global;

/// The entries of a journal, its length up to and with its ending gate, which may lack where the file
/// ends in its place, and how many bytes stand after that gate.
#[derive(Drop)]
pub(crate) struct Contents {
    pub entries: Vec<Entry>,
    pub len: u64,
    pub after_end: u64,
}

/// Why bytes are no journal of the declarations.
#[derive(Clone, Copy)]
pub(crate) enum ReadFault {
    NotJournal,
    Foreign { at: u64 },
    Damaged { at: u64 },
    Memory,
}

impl From<Memory> for ReadFault {
    ghost use Rattle.orc_journal.specs.declared.reading.ReadFault.TheVariants as fault;
    ghost use Rattle.std.specs.Prelude.{◌≡◌};

    ghost from_gives = { λ _ e. e ≡ fault.Memory };

    fn from(_: Memory) -> ReadFault {
        ReadFault::Memory
    }
}

// What stands after an open gate.
fn behind_gate(bytes: &[u8]) -> Option<&[u8]>
    ensures { MatchOption result (IsTrue (is_ending bytes.now)) (λ rest. bytes.now ≡ OPEN ∷ rest.now) }
{
    match bytes {
        [OPEN, rest @ ..] => Some(rest),
        _ => None,
    }
}

// Reads the entry that the bytes begin with, where it may stand after those that were read
// before, and answers what follows it.
fn read_entry<'a>(
    alloc: Global,
    entries: &mut Vec<Entry>,
    stages: &mut Stages,
    bytes: &'a [u8],
) -> Result<Option<&'a [u8]>, Memory>
    ensures { AreStages stages.old entries.old.items → IfOk result (λ found.
        MatchOption found (HasNoNext entries.old.items bytes.now)
        (λ rest. HasNext entries.old.items bytes.now entries.new.items rest.now stages.new)) }
{
    match entry_at(alloc, bytes)? {
        Some((entry, rest)) => {
            if !stages.take(&entry)? {
                return Ok(None);
            }
            entries.push(entry)?;
            Ok(Some(rest))
        }
        None => Ok(None),
    }
}

/// The journal of these declarations that the bytes, one or more, hold.
pub(crate) fn read_journal(alloc: Global, bytes: &[u8], decls: &[u8]) -> Result<Contents, ReadFault>
    requires some { 0 < length bytes.now }
    requires short { length decls.now < 2 ^ 32 }
    ensures journal { IfOk result (λ contents. IsJournal bytes.now decls.now contents.entries.items) }
    ensures ordered { IfOk result (λ contents. IsTrue (is_ordered contents.entries.items)) }
    ensures len { IfOk result (λ contents. contents.len ≡ journal_length decls.now contents.entries.items) }
    ensures refused { IfErr result (IsReadFault bytes.now decls.now) }
{
    let mut rest = behind_header(bytes, decls)?;
    let mut entries = Vec::new(alloc);
    let mut stages = Stages::new(alloc);
    while let Some(behind) = behind_gate(rest) {
        match read_entry(alloc, &mut entries, &mut stages, behind)? {
            Some(after) => rest = after,
            None => {
                return Err(ReadFault::Damaged {
                    at: (bytes.len() - behind.len()) as u64,
                });
            }
        }
    }
    Ok(Contents {
        entries,
        len: (bytes.len() - rest.len()) as u64 + 1,
        after_end: (rest.len() as u64).saturating_sub(1),
    })
}
