//! A write and its sync, and an entry after a gate.
ghost use Rattle.std.specs.Prelude.{◌≡◌, ◌<◌, ◌≤◌, [], ◌∷◌, ◌++◌, length, OnOk, OnErr, IfSome, is_some, false};
ghost use Rattle.std.specs.Option.{ForSome, option_map};
ghost use Rattle.orc_io.specs.Counts.{HasCause};
ghost use Rattle.orc_disk.specs.Files.{written};
ghost use Rattle.orc_disk.specs.Crashes.{LeavesAsRead};
ghost use Rattle.orc_disk.specs.Moments.{LeavesOnly};
ghost use Rattle.orc_disk.specs.Course.{FailsAmong};
ghost use Rattle.orc_disk.specs.Rows.{row};
ghost use Rattle.orc_journal.specs.Journals.{IsGated};
ghost use Rattle.orc_journal.specs.Appends.{block_bytes, with_entry, IsBeforeOrAfter};
ghost use Rattle.orc_journal.specs.declared.entry.Entry.{Entry};
ghost use Rattle.orc_journal.specs.inside.Blocks.{IsTornFrom, WherePuts, IsPutShort, IsAppendedShort};

use crate::gate::OPEN;
use orc_disk::Disk;
use orc_io::Failed;

/// Writes and syncs.
pub(crate) fn put_synced<D: Disk>(disk: &mut D, at: u64, bytes: &[u8]) -> Result<(), Failed>
    requires { ForSome (D.disk.content disk.old) (λ file. at ≤ length file) }
    ensures done { OnOk result (D.disk.content disk.new ≡ option_map (written at bytes.now) (D.disk.content disk.old)) }
    ensures durable { OnOk result (LeavesAsRead (D.disk.content disk.new) (D.disk.may_leave disk.new)) }
    ensures still_tells { is_some (D.disk.content disk.new) ≡ is_some (D.disk.content disk.old) }
    // A crash at any moment of the call leaves what one before it would have left, torn by the write, and so does a
    // fault.
    ensures any_moment { LeavesOnly D.disk disk.old disk.new
        (IsTornFrom (D.disk.may_leave disk.old) at (length bytes.now)) }
    ensures left { IfSome (D.disk.content disk.new) (IsTornFrom (D.disk.may_leave disk.old) at (length bytes.now)) }
    ensures course { OnOk result (D.disk.leads (row 2 false) disk.old disk.new) }
    ensures failed { OnErr result (FailsAmong D.disk 2 disk.old disk.new
        (IsPutShort D.disk at bytes.now disk.old disk.new)) }
    ensures cause { HasCause (D.disk.faults disk.old) (D.disk.faults disk.new) result }
{
    disk.write_at(at, bytes)?;
    disk.sync()
}

/// Puts an entry and a closed gate at this place, after the gate before it, and then opens that
/// gate.
pub(crate) fn put_gated<D: Disk>(disk: &mut D, at: u64, block: &[u8]) -> Result<(), Failed>
    requires behind { 0 < at }
    requires inside { ForSome (D.disk.content disk.old) (λ file. at ≤ length file) }
    requires durable { LeavesAsRead (D.disk.content disk.old) (D.disk.may_leave disk.old) }
    ensures done { WherePuts (D.disk.content disk.old) at block.now (λ decls entries entry.
        OnOk result (IfSome (D.disk.content disk.new) (λ file. IsGated file decls (entries ++ entry ∷ [])))) }
    ensures becomes { (entry : Entry) → block.now ≡ block_bytes entry
        → OnOk result (D.disk.content disk.new ≡ option_map (with_entry at entry) (D.disk.content disk.old)) }
    ensures durable { OnOk result (LeavesAsRead (D.disk.content disk.new) (D.disk.may_leave disk.new)) }
    ensures still_tells { is_some (D.disk.content disk.new) ≡ is_some (D.disk.content disk.old) }
    ensures any_moment { WherePuts (D.disk.content disk.old) at block.now (λ decls entries entry.
        LeavesOnly D.disk disk.old disk.new (IsBeforeOrAfter decls entries entry)) }
    ensures left { WherePuts (D.disk.content disk.old) at block.now (λ decls entries entry.
        IfSome (D.disk.content disk.new) (IsBeforeOrAfter decls entries entry)) }
    ensures course { OnOk result (D.disk.leads (row 4 false) disk.old disk.new) }
    ensures failed { OnErr result (FailsAmong D.disk 4 disk.old disk.new
        (IsAppendedShort D.disk at block.now disk.old disk.new)) }
    ensures cause { HasCause (D.disk.faults disk.old) (D.disk.faults disk.new) result }
{
    put_synced(disk, at, block)?;
    put_synced(disk, at - 1, &[OPEN])
}
