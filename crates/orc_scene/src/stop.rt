//! Why a run ends before its script does.
ghost use Rattle.std.specs.Prelude.{◌≡◌};
ghost use Rattle.orc_scene.specs.RunEnds.{stop_of_opening, stop_of_start};

use orc_hub::StartFault;
use orc_journal::OpenFault;

/// Why a run ends before its script does. After it the scene is only taken apart.
#[derive(Clone, Copy)]
pub enum WorldStop {
    /// An operation of the disk failed.
    JournalFault,
    /// The journal of this length has no room for an entry.
    Full { len: u64 },
    /// Memory ran out.
    Memory,
    /// The disk holds the journal of other declarations, which differ first at this offset in them.
    Foreign { at: u64 },
    /// The disk isn't empty and holds no journal.
    NotJournal,
    /// At this offset of the journal no lawful entry stands where one should, or a Decide that makes the
    /// history illegal.
    Damaged { at: u64 },
}

/// How a run ends whose journal isn't opened.
pub(crate) fn stop_of_opening(fault: OpenFault) -> WorldStop
    ensures { result ≡ stop_of_opening fault }
{
    match fault {
        OpenFault::Foreign { at } => WorldStop::Foreign { at },
        OpenFault::NotJournal => WorldStop::NotJournal,
        OpenFault::DiskFault => WorldStop::JournalFault,
        OpenFault::Memory => WorldStop::Memory,
        OpenFault::Full { len } => WorldStop::Full { len },
        OpenFault::Damaged { at } => WorldStop::Damaged { at },
    }
}

/// How a run ends whose journal makes no hub.
pub(crate) fn stop_of_start(fault: StartFault) -> WorldStop
    ensures { result ≡ stop_of_start fault }
{
    match fault {
        StartFault::Damaged { at, .. } => WorldStop::Damaged { at },
        StartFault::Memory => WorldStop::Memory,
    }
}
