//! A disk that stops another one inside a chosen write or sync.
ghost use Rattle.std.specs.Prelude.{◌≡◌, ◌⊎◌, ◌-◌, ◌<◌, ◌≤◌, ◌↔◌, Bool, true, false, min, length, take, IfOk, OnOk, OnErr, IfSome, IsTrue, IsErr, is_some};
ghost use Rattle.std.specs.Option.{ForSome, option_map};
ghost use Rattle.std.specs.Io.{ReadsAtMost};
ghost use Rattle.orc_disk.specs.Files.{written, ReadsFrom};
ghost use Rattle.orc_disk.specs.Rows.{row};
ghost use Rattle.orc_disk.specs.Crashes.{TearsAt, LeavesAsRead};
ghost use Rattle.orc_disk.specs.Moments.{Elapses, Unchanged};
ghost use Rattle.orc_disk.specs.Course.{Counted, Performed, PerformedRead};
ghost use Rattle.orc_disk.specs.Stops.{inside, asked, refused, stopped_at, Refuses, HandsOn, PassesOn, Reached, CutShort, CutSync};

use crate::Disk;
use orc_io::Failed;
use std::marker::Model;

/// Another disk that can be stopped: from the armed operation on until `disarm` each operation
/// fails. Its count of faults is that of the disk inside and its own, which rises with each such
/// operation.
#[derive(Drop)]
pub struct StopDisk<D: Disk> {
    inner: D,
    op: u64,
    bytes: u64,
    stopped: bool,
    stops: u64,
    ops: u64,
}

impl<D: Disk> Model for StopDisk<D> {
    ghost use Rattle.orc_disk.specs.Stops.{Stopping};

    ghost Value = { Stopping D };

    ghost view = { λ s. record {
      inner = s.inner;
      op = s.op;
      bytes = s.bytes;
      stopped = s.stopped;
      stops = s.stops;
      ops = s.ops;
    } };
}

impl<D: Disk> StopDisk<D> {
    /// A disk round another one, where no stop is armed.
    pub fn new(inner: D) -> StopDisk<D>
        ensures { result ≡ record { inner = inner; op = 0; bytes = 0; stopped = false; stops = 0; ops = 0 } }
    {
        StopDisk {
            inner,
            op: 0,
            bytes: 0,
            stopped: false,
            stops: 0,
            ops: 0,
        }
    }

    /// Arms a stop, in place of one that is armed. The given operation stops the disk, counted from
    /// 1 among the writes and syncs from now on; with 0 none does. Where that is a write, its first
    /// `bytes` bytes are put, or all where it has fewer. Where it is a sync, it is done exactly
    /// where `bytes` is at least 1.
    /// Where the disk inside fails that operation, its count of faults alone reports it.
    pub fn arm(&mut self, op: u64, bytes: u64)
        ensures { self.new ≡ record self.old { op = op; bytes = bytes } }
    {
        self.op = op;
        self.bytes = bytes;
    }

    /// No stop is armed, and operations reach the disk inside again.
    pub fn disarm(&mut self)
        ensures { self.new ≡ record self.old { op = 0; stopped = false } }
    {
        self.op = 0;
        self.stopped = false;
    }

    /// Whether the armed operation came and nothing disarmed since.
    pub fn stopped(&self) -> bool
        ensures { result ≡ self.now.stopped }
    {
        self.stopped
    }

    /// The disk inside.
    pub fn into_inner(self) -> D
        ensures { result ≡ self.inner }
    {
        self.inner
    }
}

impl<D: Disk> StopDisk<D> {
    // Fails an operation by itself.
    fn refuse(&mut self) -> Failed
        ensures state { self.new ≡ refused self.old }
        ensures count { Counted true self.old.stops self.new.stops }
        ensures still { self.new.stopped ≡ self.old.stopped }
    {
        self.stops = self.stops.saturating_add(1);
        Failed
    }

    // Counts a write or a sync that it is asked for.
    fn ask(&mut self)
        ensures { self.new ≡ asked self.old }
    {
        self.ops = self.ops.saturating_add(1);
    }

    // Counts down to the armed operation in a disk that runs, and says whether it is that one.
    fn comes(&mut self) -> bool
        requires { self.old.stopped ≡ false }
        ensures armed { IsTrue result ↔ (self.old.op ≡ 1) }
        ensures state { self.new ≡ record self.old { op = self.old.op - 1; stopped = result } }
    {
        let armed = self.op == 1;
        self.op = self.op.saturating_sub(1);
        self.stopped = armed;
        armed
    }

    // Puts what the armed write still puts, and doesn't say how that went.
    fn put_front(&mut self, at: u64, bytes: &[u8])
        requires { ForSome (D.disk.content self.old.inner) (λ file. at ≤ length file) }
        ensures state { self.new ≡ record self.old { inner = self.new.inner } }
        ensures still_tells { is_some (D.disk.content self.new.inner) ≡ is_some (D.disk.content self.old.inner) }
        ensures crash { TearsAt at (length bytes.now)
            (D.disk.may_leave self.old.inner) (D.disk.may_leave self.new.inner) }
        ensures time { Elapses D.disk self.old.inner self.new.inner }
        ensures none { self.old.bytes ≡ 0 → self.new ≡ self.old }
        ensures last { 0 < self.old.bytes → Reached D.disk
            (D.disk.content self.new.inner
            ≡ option_map (written at (take self.old.bytes bytes.now)) (D.disk.content self.old.inner))
            self.old.inner self.new.inner }
    {
        if self.bytes == 0 {
            return;
        }
        let count = (bytes.len() as u64).min(self.bytes) as usize;
        let _ = self.inner.write_at(at, &bytes[..count]);
    }

    // Does the armed sync where it is to be done, and doesn't say how that went.
    fn sync_last(&mut self)
        ensures state { self.new ≡ record self.old { inner = self.new.inner } }
        ensures unchanged { Unchanged D.disk self.old.inner self.new.inner }
        ensures none { self.old.bytes ≡ 0 → self.new ≡ self.old }
        ensures last { 0 < self.old.bytes → Reached D.disk
            (LeavesAsRead (D.disk.content self.new.inner) (D.disk.may_leave self.new.inner))
            self.old.inner self.new.inner }
    {
        if self.bytes > 0 {
            let _ = self.inner.sync();
        }
    }
}

impl<D: Disk> Disk for StopDisk<D> {
    ghost use Rattle.orc_disk.specs.laws.Stops.{Led-refl, Led-trans, Led-counts, Led-tells};

    ghost disk = { inside D.disk };

    fn len(&mut self) -> Result<u64, Failed>
        ensures length { IfOk result (λ n. IfSome (D.disk.content self.old.inner) (λ file. n ≡ length file)) }
        ensures unchanged { Unchanged (inside D.disk) self.old self.new }
        ensures performed { Performed (inside D.disk) 0 result self.old self.new }

        ensures refused { Refuses result self.old self.new }
        ensures passed { HandsOn D.disk result self.old self.new }
    {
        if self.stopped() {
            return Err(self.refuse());
        }
        self.inner.len()
    }

    fn read_at(&mut self, at: u64, buf: &mut [u8]) -> Result<usize, Failed>
        ensures bound { ReadsAtMost result buf.new }
        ensures bytes { IfOk result
            (λ n. IfSome (D.disk.content self.old.inner) (λ file. ReadsFrom at buf.new file n)) }
        ensures unchanged { Unchanged (inside D.disk) self.old self.new }
        ensures performed { PerformedRead (inside D.disk) at buf.new result self.old self.new }

        ensures refused { Refuses result self.old self.new }
        ensures passed { HandsOn D.disk result self.old self.new }
    {
        if self.stopped() {
            return Err(self.refuse());
        }
        self.inner.read_at(at, buf)
    }

    fn write_at(&mut self, at: u64, bytes: &[u8]) -> Result<(), Failed>
        requires { ForSome (D.disk.content self.old.inner) (λ file. at ≤ length file) }
        ensures done { OnOk result
            (D.disk.content self.new.inner ≡ option_map (written at bytes.now) (D.disk.content self.old.inner)) }
        ensures still_tells { is_some (D.disk.content self.new.inner) ≡ is_some (D.disk.content self.old.inner) }
        ensures crash { TearsAt at (length bytes.now)
            (D.disk.may_leave self.old.inner) (D.disk.may_leave self.new.inner) }
        ensures time { Elapses (inside D.disk) self.old self.new }
        // The armed write puts its first bytes where one is left, and else does not reach the disk inside.
        ensures cut { OnErr result (CutShort D.disk at bytes.now self.old self.new) }
        ensures performed { Performed (inside D.disk) 1 result self.old self.new }

        ensures refused { Refuses result (asked self.old) self.new }
        ensures passed { PassesOn D.disk result self.old self.new }
        ensures armed { self.old.stopped ≡ false → self.old.op ≡ 1
            → IsErr result × (self.new ≡ stopped_at self.old self.new.inner) }
    {
        self.ask();
        if self.stopped() {
            return Err(self.refuse());
        }
        if self.comes() {
            self.put_front(at, bytes);
            return Err(self.refuse());
        }
        self.inner.write_at(at, bytes)
    }

    fn sync(&mut self) -> Result<(), Failed>
        ensures durable { OnOk result (LeavesAsRead (D.disk.content self.new.inner) (D.disk.may_leave self.new.inner)) }
        ensures unchanged { Unchanged (inside D.disk) self.old self.new }
        // The armed sync is done where a byte is left, and else does not reach the disk inside. Where that disk fails
        // it, its count of faults rose, and what it holds and may leave is as it was (`unchanged`).
        ensures cut { OnErr result (CutSync D.disk self.old self.new) }
        ensures performed { Performed (inside D.disk) 1 result self.old self.new }

        ensures refused { Refuses result (asked self.old) self.new }
        ensures passed { PassesOn D.disk result self.old self.new }
        ensures armed { self.old.stopped ≡ false → self.old.op ≡ 1
            → IsErr result × (self.new ≡ stopped_at self.old self.new.inner) }
    {
        self.ask();
        if self.stopped() {
            return Err(self.refuse());
        }
        if self.comes() {
            self.sync_last();
            return Err(self.refuse());
        }
        self.inner.sync()
    }

    fn faults(&self) -> u64 {
        self.inner.faults().saturating_add(self.stops)
    }

    ghost reads_as_image = { λ s. D.reads_as_image s.inner };

    ghost counts_now = { λ s. D.counts_now s.inner };

    ghost only_now = { λ s. D.only_now s.inner };

    ghost untold_has_no_image = { λ s. D.untold_has_no_image s.inner };

    ghost earlier = { λ s. D.earlier s.inner };

    ghost stays = { Led-refl D.disk D.stays };

    ghost goes_on = { Led-trans D.disk D.goes_on };

    ghost counts = { Led-counts D.disk D.counts };

    ghost counts_ops = { λ _ _ _ led. led.ops };

    ghost tells_reads = { Led-tells D.disk D.tells_reads };
}
