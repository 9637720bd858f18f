//! A disk in memory, which reports everything and fails at chosen operations.
ghost use Rattle.std.specs.Prelude.{◌≡◌, ◌⊎◌, ◌+◌, ◌-◌, ◌<◌, ◌≤◌, ◌↔◌, [], length, IfOk, OnOk, OnErr, IsErr, IsTrue, Contains, min, take, drop, ◌++◌, true};
ghost use Rattle.std.specs.Io.{ReadsAtMost};
ghost use Rattle.orc_io.specs.Counts.{next_count};
ghost use Rattle.orc_disk.specs.Files.{written, ReadsFrom};
ghost use Rattle.orc_disk.specs.Crashes.{TearsAt, LeavesAsRead};
ghost use Rattle.orc_disk.specs.Rows.{read_piece};
ghost use Rattle.orc_disk.specs.Moments.{Elapses, Unchanged};
ghost use Rattle.orc_disk.specs.Course.{Counted, Performed, PerformedRead};
ghost use Rattle.orc_disk.specs.History.{content_of, synced_of, IsImage};
ghost use Rattle.orc_disk.specs.Memory.{disk_content, memory_disk, len_came, read_came, read_done, write_came, sync_came, op_failed, write_done, sync_done};
ghost use Rattle.orc_disk.specs.declared.history.TheConstants.{CHANGE_ROOM};

use crate::heard::Heard;
use crate::history::{CHANGE_ROOM, Kept};
use crate::{Disk, DiskOp};
use orc_io::Failed;
use orc_text::Memory;
use std::alloc::Global;
use std::io::Read;
use std::marker::Model;

/// A disk in memory. An operation fails exactly where a listed pair names its number among those of
/// its kind, counted from 1, or where it would use more than is left of the room. A write uses its
/// bytes and 64 of the room, a sync uses 64. After it is made only `image` takes memory.
#[derive(Drop)]
pub struct MemDisk {
    history: Kept,
    fails: Vec<(DiskOp, u64)>,
    lens: u64,
    reads: u64,
    writes: u64,
    syncs: u64,
    faults: u64,
    heard: Heard,
}

impl Model for MemDisk {
    ghost use Rattle.orc_disk.specs.Memory.{MemoryDisk};

    ghost Value = { MemoryDisk };

    ghost view = { λ disk. record {
      history = disk.history;
      fails = disk.fails.items;
      lens = disk.lens;
      reads = disk.reads;
      writes = disk.writes;
      syncs = disk.syncs;
      faults = disk.faults;
      heard = disk.heard.reads;
    } };
}

// Whether the list names this operation.
fn is_listed(fails: &[(DiskOp, u64)], op: DiskOp, number: u64) -> bool
    ensures { IsTrue result ↔ Contains fails.now (op, number) }
{
    fails.contains(&(op, number))
}

// Reads at an offset as many bytes as there are and fit.
fn read_from(file: &[u8], at: u64, buf: &mut [u8]) -> usize
    ensures count { result ≡ min (length buf.new) (length file.now - at) }
    ensures bytes { buf.new ≡ take result (drop at file.now) ++ drop result buf.old }
    ensures front { take result buf.new ≡ take result (drop at file.now) }
    ensures len { length buf.new ≡ length buf.old }
{
    let from = at.min(file.len() as u64) as usize;
    let mut rest = &file[from..];
    match rest.read(buf) {
        Ok(count) => count,
        Err(_) => unreachable!(),
    }
}

impl MemDisk {
    /// A disk that holds these bytes, all of them on the disk, with room for more.
    pub fn new(
        alloc: Global,
        bytes: Vec<u8>,
        room: u64,
        fails: Vec<(DiskOp, u64)>,
    ) -> Result<MemDisk, Memory>
        ensures { IfOk result (λ disk. disk ≡ record {
          history = record { start = bytes.items; changes = []; room = room };
          fails = fails.items;
          lens = 0;
          reads = 0;
          writes = 0;
          syncs = 0;
          faults = 0;
          heard = [];
        }) }
    {
        Ok(MemDisk {
            history: Kept::new(alloc, bytes, room)?,
            fails,
            lens: 0,
            reads: 0,
            writes: 0,
            syncs: 0,
            faults: 0,
            heard: Heard::new(),
        })
    }

    /// One file that a crash now may leave, by choice. With 0 no write since the last sync outlives
    /// it, and with 3 each does. With others parts of these writes do, or other bytes in their
    /// ranges, or more bytes after the end.
    pub fn image(&self, alloc: Global, choice: u64) -> Result<Vec<u8>, Memory>
        ensures image { IfOk result (λ image. memory_disk.may_leave self.now image.items) }
        ensures none { choice ≡ 0 → IfOk result
            (λ image. image.items ≡ synced_of self.now.history.start self.now.history.changes) }
        ensures all { choice ≡ 3 → IfOk result (λ image. image.items ≡ disk_content self.now) }
    {
        self.history.image(alloc, choice)
    }
}

impl MemDisk {
    // Counts a failed operation.
    fn fault(&mut self) -> Failed
        ensures state { self.new ≡ op_failed self.old }
        ensures count { Counted true self.old.faults self.new.faults }
    {
        self.faults = self.faults.saturating_add(1);
        Failed
    }
}

impl Disk for MemDisk {
    ghost use Rattle.orc_disk.specs.laws.History.{IsImage-content, WasImage-now, WasImage-only, WasImage-earlier};
    ghost use Rattle.orc_disk.specs.laws.Course.{Tallied-refl, Tallied-trans};
    ghost use Rattle.std.proofs.Common.{refl};

    ghost disk = { memory_disk };

    fn len(&mut self) -> Result<u64, Failed>
        ensures length { IfOk result (λ n. n ≡ length (disk_content self.old)) }
        ensures unchanged { Unchanged memory_disk self.old self.new }
        ensures performed { Performed memory_disk 0 result self.old self.new }

        ensures exact { IsErr result ↔ Contains self.old.fails (DiskOp.Len, next_count self.old.lens) }
        ensures ok { OnOk result (self.new ≡ len_came self.old) }
        ensures err { OnErr result (self.new ≡ op_failed (len_came self.old)) }
    {
        self.lens = self.lens.saturating_add(1);
        if is_listed(&self.fails, DiskOp::Len, self.lens) {
            return Err(self.fault());
        }
        Ok(self.history.content().len() as u64)
    }

    fn read_at(&mut self, at: u64, buf: &mut [u8]) -> Result<usize, Failed>
        ensures bound { ReadsAtMost result buf.new }
        ensures bytes { IfOk result (λ n. ReadsFrom at buf.new (disk_content self.old) n) }
        ensures unchanged { Unchanged memory_disk self.old self.new }
        ensures performed { PerformedRead memory_disk at buf.new result self.old self.new }

        ensures exact { IsErr result ↔ Contains self.old.fails (DiskOp.Read, next_count self.old.reads) }
        ensures buffer { IfOk result (λ n. buf.new ≡ take n (drop at (disk_content self.old)) ++ drop n buf.old) }
        ensures ok { IfOk result (λ n. self.new ≡ read_done (read_came self.old) (read_piece at buf.new n)) }
        ensures err { OnErr result (self.new ≡ op_failed (read_came self.old)) }
    {
        self.reads = self.reads.saturating_add(1);
        if is_listed(&self.fails, DiskOp::Read, self.reads) {
            return Err(self.fault());
        }
        let count = read_from(self.history.content(), at, buf);
        self.heard.note(at, buf, count);
        Ok(count)
    }

    fn write_at(&mut self, at: u64, bytes: &[u8]) -> Result<(), Failed>
        requires { at ≤ length (disk_content self.old) }
        ensures done { OnOk result (disk_content self.new ≡ written at bytes.now (disk_content self.old)) }
        ensures crash { TearsAt at (length bytes.now)
            (memory_disk.may_leave self.old) (memory_disk.may_leave self.new) }
        ensures time { Elapses memory_disk self.old self.new }
        ensures cut { OnErr result (disk_content self.new ≡ disk_content self.old) }
        ensures performed { Performed memory_disk 1 result self.old self.new }

        ensures exact { IsErr result
            ↔ (Contains self.old.fails (DiskOp.Write, next_count self.old.writes)
            ⊎ (self.old.history.room < length bytes.now + CHANGE_ROOM)) }
        ensures ok { OnOk result (self.new ≡ write_done (write_came self.old) at bytes.now) }
        ensures err { OnErr result (self.new ≡ op_failed (write_came self.old)) }
    {
        self.writes = self.writes.saturating_add(1);
        let listed = is_listed(&self.fails, DiskOp::Write, self.writes);
        if listed || self.history.room() < bytes.len() as u64 + CHANGE_ROOM {
            return Err(self.fault());
        }
        self.history.write(at as usize, bytes);
        Ok(())
    }

    fn sync(&mut self) -> Result<(), Failed>
        ensures durable { OnOk result (LeavesAsRead (memory_disk.content self.new) (memory_disk.may_leave self.new)) }
        ensures unchanged { Unchanged memory_disk self.old self.new }
        ensures cut { OnErr result (disk_content self.new ≡ disk_content self.old) }
        ensures performed { Performed memory_disk 1 result self.old self.new }

        ensures exact { IsErr result
            ↔ (Contains self.old.fails (DiskOp.Sync, next_count self.old.syncs)
            ⊎ (self.old.history.room < CHANGE_ROOM)) }
        ensures ok { OnOk result (self.new ≡ sync_done (sync_came self.old)) }
        ensures err { OnErr result (self.new ≡ op_failed (sync_came self.old)) }
    {
        self.syncs = self.syncs.saturating_add(1);
        let listed = is_listed(&self.fails, DiskOp::Sync, self.syncs);
        if listed || self.history.room() < CHANGE_ROOM {
            return Err(self.fault());
        }
        self.history.sync();
        Ok(())
    }

    fn faults(&self) -> u64 {
        self.faults
    }

    ghost reads_as_image = { λ d. IsImage-content d.history.start d.history.changes };

    ghost counts_now = { λ d t c le now. WasImage-now d.history.start d.history.changes t c now };

    ghost only_now = { λ d c was. WasImage-only d.history.start d.history.changes c was };

    ghost untold_has_no_image = { λ d t c was. refl };

    ghost earlier = { λ d t u c le was. WasImage-earlier d.history.start d.history.changes t u c le was };

    ghost stays = { λ d. Tallied-refl d.faults (d.writes + d.syncs) d.heard };

    ghost goes_on = { λ first second a b c p q. Tallied-trans first second _ _ _ _ _ _ _ _ _ p q };

    ghost counts = { λ _ _ _ led. led.faulted };

    ghost counts_ops = { λ _ _ _ led. led.asked };

    ghost tells_reads = { λ _ _ _ led. led.gave };
}
