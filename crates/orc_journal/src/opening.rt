//! Opening a journal: what a disk holds is read, and the header or the ending gate is written where
//! it lacks.
ghost use Rattle.std.specs.Prelude.{◌≡◌, ◌<◌, ◌≤◌, ◌^◌, ◌+◌, ℕ, true, false, [], List, length, vec_len, IfOk, IfErr, OnOk, OnErr, IfSome, IsTrue};
ghost use Rattle.orc_io.specs.Counts.{HasCause};
ghost use Rattle.orc_disk.specs.Crashes.{LeavesAsRead};
ghost use Rattle.orc_disk.specs.Moments.{Unchanged};
ghost use Rattle.orc_journal.specs.Orders.{is_ordered};
ghost use Rattle.orc_journal.specs.Operations.{FailsBefore};
ghost use Rattle.orc_journal.specs.Journals.{header, journal_length, IsJournal};
ghost use Rattle.orc_journal.specs.Opening.{LeavesOpening, HasRefused};
ghost use Rattle.orc_journal.specs.inside.Fronts.{IsFront};
ghost use Rattle.orc_journal.specs.inside.ReadFaults.{IsDiskFault, IsFileFault};
ghost use Rattle.orc_journal.specs.inside.Steps.{EndsReading, FailsAfter, IsUntouched, HeardPiece, HeardAll, HasLoaded, HasGivenUp, IsStored, IsOpenedAs};
ghost use Rattle.orc_journal.specs.declared.entry.Entry.{Entry};

use crate::OpenFault;
use crate::gate::CLOSED;
use crate::header::{HEADER_LEN, header_block};
use crate::put::put_synced;
use crate::reading::{Contents, read_journal};
use orc_disk::Disk;
use orc_io::Failed;
use std::alloc::Global;

// How many bytes one read takes at most.
const PIECE_LEN: usize = 4096;

// Reads once more, after the bytes that were read, and answers whether there were more.
fn read_piece<D: Disk>(disk: &mut D, bytes: &mut Vec<u8>) -> Result<bool, OpenFault>
    ensures more { IfOk result (λ more. more ≡ true → vec_len bytes.old < vec_len bytes.new) }
    ensures front { IfOk result (λ more. IfSome (D.disk.content disk.old) (λ file.
        IsFront bytes.old.items file → IsFront bytes.new.items file)) }
    ensures end { IfOk result (λ more. IfSome (D.disk.content disk.old) (λ file.
        IsFront bytes.old.items file → more ≡ false → bytes.new.items ≡ file)) }
    ensures heard { IfOk result (HeardPiece D.disk disk.old disk.new bytes.old.items bytes.new.items) }
    ensures unchanged { Unchanged D.disk disk.old disk.new }
    ensures ends { IfErr result (EndsReading D.disk disk.old disk.new) }
    ensures refused { IfErr result (IsDiskFault D.disk disk.old disk.new) }
{
    let mut buf = [0u8; PIECE_LEN];
    let count = disk.read_at(bytes.len() as u64, &mut buf)?;
    if bytes.extend_from_slice(&buf[..count]).is_err() {
        return Err(OpenFault::Memory);
    }
    Ok(count > 0)
}

// All that the disk holds. A read that gives no byte ends it.
fn read_all<D: Disk>(alloc: Global, disk: &mut D) -> Result<Vec<u8>, OpenFault>
    ensures whole { IfOk result (λ bytes. IfSome (D.disk.content disk.old) (λ file. bytes.items ≡ file)) }
    ensures heard { IfOk result (λ bytes. HeardAll D.disk disk.old disk.new bytes.items) }
    ensures unchanged { Unchanged D.disk disk.old disk.new }
    ensures ends { IfErr result (EndsReading D.disk disk.old disk.new) }
    ensures refused { IfErr result (IsDiskFault D.disk disk.old disk.new) }
{
    let mut bytes = Vec::new(alloc);
    // The label names the loop in its proof.
    'pieces: while read_piece(disk, &mut bytes)? {}
    Ok(bytes)
}

// The bytes of a disk. One that gives a first byte is synced before it is read.
fn load<D: Disk>(alloc: Global, disk: &mut D) -> Result<Vec<u8>, OpenFault>
    ensures loaded { IfOk result (λ bytes. HasLoaded D.disk disk.old disk.new bytes.items) }
    ensures whole { IfOk result (λ bytes. IfSome (D.disk.content disk.old) (λ file. bytes.items ≡ file)) }
    ensures durable { IfOk result (λ bytes. 0 < vec_len bytes
        → LeavesAsRead (D.disk.content disk.new) (D.disk.may_leave disk.new)) }
    ensures memory { IfErr result (λ fault. fault ≡ OpenFault.Memory → HasGivenUp D.disk disk.old disk.new) }
    ensures unchanged { Unchanged D.disk disk.old disk.new }
    ensures failed { IfErr result (FailsAfter D.disk 2 2 disk.old disk.new) }
    ensures refused { IfErr result (IsDiskFault D.disk disk.old disk.new) }
{
    let mut first = [0u8; 1];
    if disk.read_at(0, &mut first)? == 0 {
        return Ok(Vec::new(alloc));
    }
    disk.sync()?;
    read_all(alloc, disk)
}

// Begins a journal on an empty disk.
fn begin<D: Disk>(
    alloc: Global,
    disk: &mut D,
    decls: &[u8],
    limit: u64,
) -> Result<Contents, OpenFault>
    requires short { length decls.now < 2 ^ 32 }
    requires empty { IfSome (D.disk.content disk.old) (λ file. file ≡ []) }
    ensures stored { IfOk result (λ begun.
        IsStored D.disk disk.old disk.new [] decls.now begun.entries.items begun.len) }
    ensures entries { IfOk result (λ begun. begun.entries.items ≡ []) }
    ensures room { OnOk result (length (header decls.now) + 1 ≤ limit) }
    ensures leaves { LeavesOpening D.disk decls.now disk.old disk.new }
    ensures failed { IfErr result (FailsAfter D.disk 2 0 disk.old disk.new) }
    ensures refused { IfErr result (IsFileFault D.disk disk.old disk.new [] decls.now limit) }
    ensures kept { IfErr result (IsUntouched D.disk disk.old disk.new) }
{
    let len = HEADER_LEN + decls.len() as u64 + 1;
    if len > limit {
        return Err(OpenFault::Full { len: 0 });
    }
    let block = header_block(alloc, decls)?;
    put_synced(disk, 0, &block)?;
    Ok(Contents {
        entries: Vec::new(alloc),
        len,
        after_end: 0,
    })
}

// Puts a closed gate where the file, a journal of this length, ends in the place of its ending gate.
fn close<D: Disk>(disk: &mut D, bytes: &[u8], len: u64) -> Result<(), Failed>
    requires whole { IfSome (D.disk.content disk.old) (λ file. bytes.now ≡ file) }
    requires durable { LeavesAsRead (D.disk.content disk.old) (D.disk.may_leave disk.old) }
    ensures stored { (decls : List ℕ) (entries : List Entry) → IsJournal bytes.now decls entries
        → len ≡ journal_length decls entries
        → OnOk result (IsStored D.disk disk.old disk.new bytes.now decls entries len) }
    ensures leaves { (decls : List ℕ) (entries : List Entry) → IsJournal bytes.now decls entries
        → len ≡ journal_length decls entries → LeavesOpening D.disk decls disk.old disk.new }
    ensures failed { OnErr result (FailsBefore D.disk 2 0 disk.old disk.new) }
    ensures cause { HasCause (D.disk.faults disk.old) (D.disk.faults disk.new) result }
{
    if len <= bytes.len() as u64 {
        return Ok(());
    }
    put_synced(disk, bytes.len() as u64, &[CLOSED])
}

// Opens the journal that a disk holds in these bytes, one or more.
fn found<D: Disk>(
    alloc: Global,
    disk: &mut D,
    bytes: &[u8],
    decls: &[u8],
) -> Result<Contents, OpenFault>
    requires some { 0 < length bytes.now }
    requires short { length decls.now < 2 ^ 32 }
    requires whole { IfSome (D.disk.content disk.old) (λ file. bytes.now ≡ file) }
    requires durable { LeavesAsRead (D.disk.content disk.old) (D.disk.may_leave disk.old) }
    ensures stored { IfOk result (λ found.
        IsStored D.disk disk.old disk.new bytes.now decls.now found.entries.items found.len) }
    ensures journal { IfOk result (λ found. IsJournal bytes.now decls.now found.entries.items) }
    ensures ordered { IfOk result (λ found. IsTrue (is_ordered found.entries.items)) }
    ensures leaves { LeavesOpening D.disk decls.now disk.old disk.new }
    ensures failed { IfErr result (FailsAfter D.disk 2 0 disk.old disk.new) }
    ensures refused { (limit : ℕ) → IfErr result (IsFileFault D.disk disk.old disk.new bytes.now decls.now limit) }
    ensures kept { IfErr result (IsUntouched D.disk disk.old disk.new) }
{
    let contents = read_journal(alloc, bytes, decls)?;
    close(disk, bytes, contents.len)?;
    Ok(contents)
}

/// Opens the journal of these declarations on a disk, and answers what it holds, and whether the
/// disk was empty.
pub(crate) fn open<D: Disk>(
    alloc: Global,
    disk: &mut D,
    decls: &[u8],
    limit: u64,
) -> Result<(Contents, bool), OpenFault>
    requires { length decls.now < 2 ^ 32 }
    ensures opened { IfOk result (λ opened.
        IsOpenedAs D.disk decls.now limit disk.old disk.new opened.0.entries.items opened.0.len opened.1) }
    ensures refused { IfErr result (HasRefused D.disk decls.now limit disk.old disk.new) }
{
    let bytes = load(alloc, disk)?;
    if bytes.is_empty() {
        return Ok((begin(alloc, disk, decls, limit)?, true));
    }
    Ok((found(alloc, disk, &bytes, decls)?, false))
}
