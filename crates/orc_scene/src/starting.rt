//! Opening a journal, and starting a hub over it.
ghost use Rattle.std.specs.Prelude.{◌≡◌, ◌<◌, ◌^◌, IfErr, IfOk, length};
ghost use Rattle.orc_decls.specs.Declarations.{AreDecls};
ghost use Rattle.orc_scene.specs.Openings.{IsStarted, IsUnstarted};
ghost use Rattle.orc_scene.specs.inside.Openings.{IsStartedAgain, IsUnstartedAgain};

use crate::stop::{WorldStop, stop_of_opening, stop_of_start};
use orc_decls::Decls;
use orc_disk::{Disk, StopDisk};
use orc_hub::Hub;
use orc_journal::{Entry, Journal};
use std::alloc::Global;

/// A hub over the journal on a disk, which is opened, or begun, where no stop is armed. A refusal hands the
/// disk back.
pub(crate) fn start<D: Disk>(
    alloc: Global,
    decls: Decls,
    disk: D,
    limit: u64,
) -> Result<Hub<StopDisk<D>>, (WorldStop, D)>
    requires decls { AreDecls decls }
    requires short { length decls.text < 2 ^ 32 }
    requires limit { limit < 2 ^ 32 }
    ensures started { IfOk result (IsStarted D.disk decls disk limit) }
    ensures refused { IfErr result (λ refused. IsUnstarted D.disk decls disk limit refused.0 refused.1) }
{
    match Journal::attach(alloc, StopDisk::new(disk), decls.text(), limit) {
        Ok((journal, entries)) => match Hub::start(alloc, decls, journal, entries) {
            Ok(hub) => Ok(hub),
            Err((fault, disk)) => Err((stop_of_start(fault), disk.into_inner())),
        },
        Err((fault, disk)) => Err((stop_of_opening(fault), disk.into_inner())),
    }
}

/// A hub over the journal on a disk, which is opened again, where no stop is armed. A refusal hands the disk
/// back. A disk that gives no byte is refused, since a journal stood there.
pub(crate) fn start_again<D: Disk>(
    alloc: Global,
    decls: Decls,
    disk: D,
    limit: u64,
) -> Result<Hub<StopDisk<D>>, (WorldStop, D)>
    requires decls { AreDecls decls }
    requires short { length decls.text < 2 ^ 32 }
    requires limit { limit < 2 ^ 32 }
    ensures started { IfOk result (IsStartedAgain D.disk decls disk limit) }
    ensures refused { IfErr result (λ refused. IsUnstartedAgain D.disk decls disk limit refused.0 refused.1) }
{
    match Journal::attach(alloc, StopDisk::new(disk), decls.text(), limit) {
        Ok((journal, entries)) => {
            if journal.fresh() {
                return Err((
                    WorldStop::Damaged { at: 0 },
                    let_go(decls, journal, entries),
                ));
            }
            match Hub::start(alloc, decls, journal, entries) {
                Ok(hub) => Ok(hub),
                Err((fault, disk)) => Err((stop_of_start(fault), disk.into_inner())),
            }
        }
        Err((fault, disk)) => Err((stop_of_opening(fault), disk.into_inner())),
    }
}

// The disk of a journal that is let go, with its declarations and what was read of it.
fn let_go<D: Disk>(_decls: Decls, journal: Journal<StopDisk<D>>, _entries: Vec<Entry>) -> D
    ensures { result ≡ journal.disk.inner }
{
    journal.into_disk().into_inner()
}
