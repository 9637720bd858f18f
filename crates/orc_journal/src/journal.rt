//! An open journal.
ghost use Rattle.std.specs.Prelude.{◌≡◌, ◌⊎◌, ◌<◌, ◌^◌, ◌+◌, ℕ, length, take, IfOk, IfErr, OnOk, IsErrOf, IsTrue};
ghost use Rattle.std.specs.List.{flat_map};
ghost use Rattle.orc_journal.specs.Entries.{IsEntry, is_intent};
ghost use Rattle.orc_journal.specs.Journals.{gated};
ghost use Rattle.orc_journal.specs.Opened.{IsReady};
ghost use Rattle.orc_journal.specs.Opening.{HasOpened, HasRefused};
ghost use Rattle.orc_journal.specs.Appends.{IsTooLong, LeavesBeforeOrAfter, HasAppended, HasFailed};
ghost use Rattle.orc_journal.specs.inside.Blocks.{WhereIsBlock};

use crate::block::{long_block, short_block};
use crate::header::HEADER_LEN;
use crate::opening::open;
use crate::put::put_gated;
use crate::reading::Contents;
use crate::{AppendFault, Entry, OpenFault};
use orc_disk::{Disk, StopDisk};
use orc_io::Failed;
use orc_text::total_count;
use std::alloc::Global;
use std::marker::Model;

/// A journal on a disk, opened for more entries.
#[derive(Drop)]
pub struct Journal<D: Disk> {
    disk: D,
    start: u64,
    len: u64,
    limit: u64,
    fresh: bool,
    spent: bool,
    after_end: u64,
}

impl<D: Disk> Model for Journal<D> {
    ghost use Rattle.orc_journal.specs.Opened.{OpenJournal};

    ghost Value = { OpenJournal D };

    ghost view = { λ journal. record {
      disk = journal.disk;
      start = journal.start;
      len = journal.len;
      limit = journal.limit;
      fresh = journal.fresh;
      spent = journal.spent;
    } };
}

impl<D: Disk> Journal<D> {
    /// Opens the journal of these declarations on a disk, with at most `limit` bytes, and answers it
    /// with its entries. Each refusal hands the disk back, and but for `DiskFault` as it was.
    ///
    /// A disk that gives no byte at its start is empty, and gets the header. Else the disk is synced
    /// and read; only where it ends in the place of the ending gate it gets a closed gate.
    /// `NotJournal` goes before `Foreign`, and `Foreign` before `Damaged`.
    pub fn attach(
        alloc: Global,
        mut disk: D,
        decls: &[u8],
        limit: u64,
    ) -> Result<(Journal<D>, Vec<Entry>), (OpenFault, D)>
        requires short { length decls.now < 2 ^ 32 }
        requires limit { limit < 2 ^ 32 }
        ensures opened { IfOk result (λ opened. HasOpened D.disk decls.now limit disk opened.0 opened.1.items) }
        ensures refused { IfErr result (λ refused. HasRefused D.disk decls.now limit disk refused.1 refused.0) }
    {
        match open(alloc, &mut disk, decls, limit) {
            Ok((contents, fresh)) => {
                let Contents {
                    entries,
                    len,
                    after_end,
                } = contents;
                let start = HEADER_LEN + decls.len() as u64;
                let journal = Journal {
                    disk,
                    start,
                    len,
                    limit,
                    fresh,
                    spent: false,
                    after_end,
                };
                Ok((journal, entries))
            }
            Err(fault) => Err((fault, disk)),
        }
    }

    /// Whether the disk was empty as the journal was opened and no append answered Ok since. One that
    /// failed may have put its entry all the same.
    pub fn fresh(&self) -> bool
        ensures { result ≡ self.now.fresh }
    {
        self.fresh
    }

    /// How many bytes stood after the ending gate as the journal was opened. They don't count, and the
    /// next entries are written over them. It is for people, and no clause speaks of it.
    pub fn after_end(&self) -> u64 {
        self.after_end
    }

    /// The offset in the file of the first byte of the entry at this index, that of its kind,
    /// after its gate. The entries are those of the journal, in order.
    pub fn offset(&self, entries: &[Entry], index: usize) -> u64
        requires within { index < length entries.now }
        requires whole { self.now.start + length (flat_map gated entries.now) + 1 ≡ self.now.len }
        ensures { result ≡ self.now.start + length (flat_map gated (take index entries.now)) + 1 }
    {
        self.len - total_count(&entries[index..])
    }

    /// Appends an entry: writes it and a closed gate after the present gate, syncs, opens the
    /// present gate, and syncs. After `DiskFault` the journal is spent. Only an `Intent` takes
    /// memory.
    pub fn append(&mut self, alloc: Global, entry: &Entry) -> Result<(), AppendFault>
        requires ready { IsReady D.disk self.old }
        requires entry { IsEntry entry.now }
        ensures appended { OnOk result (HasAppended D.disk self.old self.new entry.now) }
        ensures full { (len : ℕ) → IsErrOf result (AppendFault.Full len)
            → (len ≡ self.old.len) × IsTooLong self.old entry.now × (self.new ≡ self.old) }
        ensures too_long { IsTooLong self.old entry.now
            → IsErrOf result (AppendFault.Full self.old.len) ⊎ IsErrOf result AppendFault.Memory }
        ensures memory { IsErrOf result AppendFault.Memory → IsTrue (is_intent entry.now) × (self.new ≡ self.old) }
        ensures failed { IsErrOf result AppendFault.DiskFault → HasFailed D.disk self.old self.new entry.now }
        ensures leaves { LeavesBeforeOrAfter D.disk self.old self.new entry.now }
    {
        match short_block(entry) {
            Some(block) => self.put_block(&block),
            None => {
                let block = long_block(alloc, entry, self.len)?;
                self.put_block(&block)
            }
        }
    }

    // Appends the entry whose block this is.
    fn put_block(&mut self, block: &[u8]) -> Result<(), AppendFault>
        requires ready { IsReady D.disk self.old }
        ensures appended { OnOk result (WhereIsBlock block.now (HasAppended D.disk self.old self.new)) }
        ensures full { (len : ℕ) → IsErrOf result (AppendFault.Full len)
            → (len ≡ self.old.len) × (self.old.limit < self.old.len + length block.now) × (self.new ≡ self.old) }
        ensures too_long { self.old.limit < self.old.len + length block.now
            → IsErrOf result (AppendFault.Full self.old.len) }
        ensures memory { IsErrOf result AppendFault.Memory → ⊥ }
        ensures failed { IsErrOf result AppendFault.DiskFault
            → WhereIsBlock block.now (HasFailed D.disk self.old self.new) }
        ensures leaves { WhereIsBlock block.now (LeavesBeforeOrAfter D.disk self.old self.new) }
    {
        if self.len.saturating_add(block.len() as u64) > self.limit {
            return Err(AppendFault::Full { len: self.len });
        }
        match put_gated(&mut self.disk, self.len, block) {
            Ok(()) => {
                self.len += block.len() as u64;
                self.fresh = false;
                Ok(())
            }
            Err(Failed) => {
                self.spent = true;
                Err(AppendFault::DiskFault)
            }
        }
    }

    /// The disk.
    pub fn into_disk(self) -> D
        ensures { result ≡ self.disk }
    {
        self.disk
    }
}

impl<D: Disk> Journal<StopDisk<D>> {
    /// Arms a stop in the disk, as `StopDisk::arm` does: the given write or sync from now on stops
    /// it.
    pub fn arm(&mut self, op: u64, bytes: u64)
        ensures { self.new ≡ record self.old { disk = record self.old.disk { op = op; bytes = bytes } } }
    {
        self.disk.arm(op, bytes);
    }

    /// Whether the disk is stopped.
    pub fn stopped(&self) -> bool
        ensures { result ≡ self.now.disk.stopped }
    {
        self.disk.stopped()
    }
}
