//! Entries that the hub appends.
ghost use Rattle.std.specs.Prelude.{◌≡◌, ◌⊎◌, ℕ, IsErrOf, IsTrue, OnOk};
ghost use Rattle.orc_journal.specs.Entries.{IsEntry, is_intent};
ghost use Rattle.orc_journal.specs.Opened.{IsReady};
ghost use Rattle.orc_hub.specs.Writes.{HasBroken, HasNoRoom, HasWritten};

use crate::hub::Hub;
use orc_call::Answer;
use orc_disk::Disk;
use orc_journal::{AppendFault, Entry};
use orc_text::Memory;
use std::alloc::Global;

/// Two answers that are one: the one that is due, or that memory ran out.
pub(crate) fn twice(alloc: Global, answer: Answer) -> (Answer, Answer)
    ensures same { result.1 ≡ result.0 }
    ensures due { (result.0 ≡ answer) ⊎ (result.0 ≡ Answer.Memory) }
{
    match answer.copy(alloc) {
        Ok(copy) => (copy, answer),
        Err(Memory) => (Answer::Memory, Answer::Memory),
    }
}

impl<D: Disk> Hub<D> {
    // Appends an entry. Where the disk fails, or there is no room, the hub is down. Only an Intent takes
    // memory, and where that runs out the hub is as it was.
    pub(crate) fn write(&mut self, alloc: Global, entry: &Entry) -> Result<(), AppendFault>
        requires ready { IsReady D.disk self.old.log.journal }
        requires entry { IsEntry entry.now }
        ensures written { OnOk result (HasWritten D.disk self.old entry.now self.new) }
        ensures rest { OnOk result (self.new ≡ record self.old { log = self.new.log }) }
        ensures memory { IsErrOf result AppendFault.Memory → IsTrue (is_intent entry.now) × (self.new ≡ self.old) }
        ensures failed { IsErrOf result AppendFault.DiskFault
            → HasBroken D.disk self.old entry.now self.old.askers self.new }
        ensures asks { self.new.askers ≡ self.old.askers }
        ensures full { (len : ℕ) → IsErrOf result (AppendFault.Full len) → HasNoRoom self.old entry.now len self.new }
    {
        match self.log.append(alloc, entry) {
            Ok(()) => Ok(()),
            Err(AppendFault::Memory) => Err(AppendFault::Memory),
            Err(AppendFault::DiskFault) => {
                self.down = true;
                Err(AppendFault::DiskFault)
            }
            Err(AppendFault::Full { len }) => {
                self.down = true;
                Err(AppendFault::Full { len })
            }
        }
    }
}
