//! What a disk promises: its content, its failures and its crash images.
ghost use Rattle.std.specs.Prelude.{◌≡◌, ◌≤◌, ◌+◌, ◌++◌, ℕ, List, length, IfOk, OnOk, OnErr, IfSome, true, false, is_some};
ghost use Rattle.std.specs.Option.{ForSome, option_map};
ghost use Rattle.std.specs.Io.{ReadsAtMost};
ghost use Rattle.orc_text.specs.Counts.{capped};
ghost use Rattle.orc_disk.specs.Files.{written, ReadsFrom};
ghost use Rattle.orc_disk.specs.Crashes.{TearsAt, LeavesAsRead};
ghost use Rattle.orc_disk.specs.Rows.{Course, joined, row};
ghost use Rattle.orc_disk.specs.Meanings.{DiskMeaning};
ghost use Rattle.orc_disk.specs.Moments.{Elapses, Unchanged};
ghost use Rattle.orc_disk.specs.Course.{Counted, Performed, PerformedRead};

use orc_io::Failed;

/// The kinds of operations of a disk.
#[derive(Clone, Copy, Debug, PartialEq, Eq)]
pub enum DiskOp {
    Len,
    Read,
    Write,
    Sync,
}

/// One file. It may report what it holds and what a crash may leave of it.
///
/// Between two syncs each written range and all past the length at the last sync may hold any bytes
/// after a crash, and bytes outside stay. After a sync that succeeds a crash leaves what a read
/// gives.
pub trait Disk: Drop {
    /// What the disk reports about itself: its content, the files that a crash may leave, how often it
    /// failed, what its reads gave, where its operations led, and what one that failed did.
    ghost disk: { DiskMeaning Self };

    /// The length in bytes.
    fn len(&mut self) -> Result<u64, Failed>
        ensures length { IfOk result (λ n. IfSome (disk.content self.old) (λ file. n ≡ length file)) }
        ensures unchanged { Unchanged disk self.old self.new }
        ensures performed { Performed disk 0 result self.old self.new };

    /// Reads at an offset as many bytes as there are and fit, and answers how many.
    fn read_at(&mut self, at: u64, buf: &mut [u8]) -> Result<usize, Failed>
        ensures bound { ReadsAtMost result buf.new }
        ensures bytes { IfOk result (λ n. IfSome (disk.content self.old) (λ file. ReadsFrom at buf.new file n)) }
        ensures unchanged { Unchanged disk self.old self.new }
        ensures performed { PerformedRead disk at buf.new result self.old self.new };

    /// Writes at an offset, over what is there and past the end. A write that fails may have put
    /// some of the bytes.
    fn write_at(&mut self, at: u64, bytes: &[u8]) -> Result<(), Failed>
        requires { ForSome (disk.content self.old) (λ file. at ≤ length file) }
        ensures done { OnOk result (disk.content self.new ≡ option_map (written at bytes.now) (disk.content self.old)) }
        ensures still_tells { is_some (disk.content self.new) ≡ is_some (disk.content self.old) }
        ensures crash { TearsAt at (length bytes.now) (disk.may_leave self.old) (disk.may_leave self.new) }
        ensures time { Elapses disk self.old self.new }
        ensures cut { OnErr result (disk.cut at bytes.now self.old self.new) }
        ensures performed { Performed disk 1 result self.old self.new };

    /// Makes what was written outlive crashes: from then on a crash leaves what a read gives.
    fn sync(&mut self) -> Result<(), Failed>
        ensures durable { OnOk result (LeavesAsRead (disk.content self.new) (disk.may_leave self.new)) }
        ensures unchanged { Unchanged disk self.old self.new }
        ensures cut { OnErr result (disk.cut_sync self.old self.new) }
        ensures performed { Performed disk 1 result self.old self.new };

    /// How often the disk failed. At its last value the count stays.
    fn faults(&self) -> u64
        ensures { result ≡ disk.faults self.now };

    /// A disk as it reads is one of its images.
    ghost reads_as_image: { (d : Self) → IfSome (disk.content d) (disk.may_leave d) };

    /// This moment is one of those since an earlier one.
    ghost counts_now: { (d : Self) (since : ℕ) (file : List ℕ)
        → since ≤ disk.moment d → disk.may_leave d file → disk.left_since d since file };

    /// Since this moment there is no other.
    ghost only_now: { (d : Self) (file : List ℕ) → disk.left_since d (disk.moment d) file → disk.may_leave d file };

    /// A disk that doesn't report what it holds has no image, at no moment.
    ghost untold_has_no_image: { (d : Self) (since : ℕ) (file : List ℕ)
        → disk.left_since d since file → is_some (disk.content d) ≡ true };

    /// The moments since an earlier moment are more.
    ghost earlier: { (d : Self) (early late : ℕ) (file : List ℕ)
        → early ≤ late → disk.left_since d late file → disk.left_since d early file };

    /// No operation leads to the same state.
    ghost stays: { (d : Self) → disk.leads (row 0 false) d d };

    /// A row of operations and then another is a row of operations.
    ghost goes_on: { (first second : Course) (a b c : Self)
        → disk.leads first a b → disk.leads second b c → disk.leads (joined first second) a c };

    /// The count of faults reports failed operations.
    ghost counts: { (course : Course) (a b : Self)
        → disk.leads course a b → Counted course.failed (disk.faults a) (disk.faults b) };

    /// The count of writes and syncs is that of the row more. At its last value it stays.
    ghost counts_ops: { (course : Course) (a b : Self)
        → disk.leads course a b → disk.ops b ≡ capped (disk.ops a + course.operations) };

    /// What its reads gave in a row of operations stands after what they gave before.
    ghost tells_reads: { (course : Course) (a b : Self)
        → disk.leads course a b → disk.heard b ≡ disk.heard a ++ course.gave };
}
