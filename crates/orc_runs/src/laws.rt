//! What is claimed of the devices in every run. Each function does nothing: its contract is the law.
ghost use Rattle.orc_runs.specs.Laws.{DecidedIsKept, DevicesAreInStep, DevicesComeBack, PendingIsKnown, ReconciliationsAreAccepted};

use crate::claim::runs_have_the_headline;
use orc_disk::Disk;

/// What a device would come back to is due after as many first calls of the history as it has come to by Confirms and
/// Commits, and that number never falls.
pub fn devices_come_back<D: Disk>()
    ensures { DevicesComeBack D.disk }
{
    runs_have_the_headline::<D>();
}

/// The journal knows what is pending on a device.
pub fn pending_is_known<D: Disk>()
    ensures { PendingIsKnown D.disk }
{
    runs_have_the_headline::<D>();
}

/// A device that isn't stale, and on which nobody works, runs what is due, and nothing is pending there.
pub fn devices_are_in_step<D: Disk>()
    ensures { DevicesAreInStep D.disk }
{
    runs_have_the_headline::<D>();
}

/// No confirmed commit is cancelled that is decided, none is confirmed that isn't, and a reconciliation leaves none.
pub fn decided_is_kept<D: Disk>()
    ensures { DecidedIsKept D.disk }
{
    runs_have_the_headline::<D>();
}

/// No reconciliation is refused where each device accepts what is due after each first calls of the history, as they do
/// where it is empty, and as they still do at the end where they did at entry.
pub fn reconciliations_are_accepted<D: Disk>()
    ensures { ReconciliationsAreAccepted D.disk }
{
    runs_have_the_headline::<D>();
}
