//! The entries that stand before one of a file, as its gates lead there. They are counted for people, where a journal is
//! damaged: what the entries say isn't looked at, and no clause speaks of them.
use crate::gate::OPEN;
use crate::header::{HEADER_LEN, MAGIC};
use crate::kind::DECIDE;
use orc_disk::Disk;
use orc_io::Failed;

// How many bytes stand before a payload: an open gate, a kind, and four with the payload's length.
const HEAD_LEN: u64 = 6;

/// The entries before one of a journal.
#[derive(Clone, Copy)]
pub struct EntriesBefore {
    /// How many there are.
    pub entries: u64,
    /// How many of them commit a call.
    pub calls: u64,
}

impl EntriesBefore {
    // These and an entry of this kind.
    fn with_entry(self, kind: u8) -> EntriesBefore {
        let call = match kind {
            DECIDE => 1,
            _ => 0,
        };
        EntriesBefore {
            entries: self.entries.saturating_add(1),
            calls: self.calls.saturating_add(call),
        }
    }
}

// What an open gate lets in: the kind of its entry, and how many bytes its payload has.
#[derive(Clone, Copy)]
struct Head {
    kind: u8,
    payload: u64,
}

impl Head {
    // The place of the gate after the entry, where its own stands at this place.
    fn next_gate(self, gate: u64) -> u64 {
        gate.saturating_add(HEAD_LEN).saturating_add(self.payload)
    }
}

/// The entries before the one that begins at this byte of the journal on a disk, where the gates lead there.
pub fn entries_before<D: Disk>(disk: &mut D, at: u64) -> Result<Option<EntriesBefore>, Failed> {
    let Some(first) = first_gate(disk)? else {
        return Ok(None);
    };
    let mut gate = first;
    let mut before = EntriesBefore {
        entries: 0,
        calls: 0,
    };
    for _ in 0..at {
        let entry = gate.saturating_add(1);
        if entry >= at {
            return Ok((entry == at).then_some(before));
        }
        match head_at(disk, gate)? {
            Some(head) => {
                before = before.with_entry(head.kind);
                gate = head.next_gate(gate);
            }
            None => return Ok(None),
        }
    }
    Ok(None)
}

// The place of a journal's first gate, which stands after the declarations.
fn first_gate<D: Disk>(disk: &mut D) -> Result<Option<u64>, Failed> {
    let mut head = [0u8; HEADER_LEN as usize];
    let count = disk.read_at(0, &mut head)?;
    if count < head.len() || !head.as_slice().starts_with(MAGIC.as_slice()) {
        return Ok(None);
    }
    let declared = u64::from(u32::from_be_bytes([head[8], head[9], head[10], head[11]]));
    Ok(Some(HEADER_LEN.saturating_add(declared)))
}

// What the gate at this place lets in, where it is open.
fn head_at<D: Disk>(disk: &mut D, gate: u64) -> Result<Option<Head>, Failed> {
    let mut head = [0u8; HEAD_LEN as usize];
    let count = disk.read_at(gate, &mut head)?;
    if count == 0 || head[0] != OPEN {
        return Ok(None);
    }
    let payload = u64::from(u32::from_be_bytes([head[2], head[3], head[4], head[5]]));
    Ok(Some(Head {
        kind: head[1],
        payload,
    }))
}
