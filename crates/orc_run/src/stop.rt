//! How a run ends.
ghost use Rattle.std.specs.Prelude.{◌≡◌, Err};
ghost use Rattle.orc_run.specs.Statuses.{status_of, stop_status};
ghost use Rattle.orc_run.specs.inside.Scripts.{stop_of_world};

use crate::Notes;
use orc_decls::Rule;
use orc_disk::Disk;
use orc_world::WorldStop;
use thiserror::Error;

/// The command did all that it is to do.
#[derive(Clone, Copy)]
pub struct Done;

/// The end of a run: the disk that was handed in, the status, and what else is known of it, for people.
#[derive(Drop)]
pub struct Ended<D: Disk> {
    pub disk: D,
    pub status: Result<Done, Stop>,
    pub notes: Notes,
}

impl<D: Disk> Ended<D> {
    // The end of a run that ended before it was done.
    pub(crate) fn at(disk: D, stop: Stop, notes: Notes) -> Ended<D>
        ensures { result ≡ record { disk = disk; status = Err stop; notes = notes } }
    {
        Ended {
            disk,
            status: Err(stop),
            notes,
        }
    }
}

/// Why a run ended before it was done.
#[derive(Debug, Drop, Error)]
pub enum Stop {
    /// The bytes read are no bundle: the first line at fault, and the first rule that the line
    /// breaks.
    #[error("Bundle {line} {rule}")]
    Bundle { line: u64, rule: Rule },
    /// The words ask for no command.
    #[error("Usage")]
    Usage,
    /// A call of the source failed.
    #[error("ReadFault")]
    ReadFault,
    /// A call of the sink failed.
    #[error("WriteFault")]
    WriteFault,
    /// An operation of the disk of the journal failed.
    #[error("JournalFault")]
    JournalFault,
    /// Memory ran out.
    #[error("Memory")]
    Memory,
    /// The disk holds the journal of other declarations, which differ first at this offset in them.
    #[error("Foreign {at}")]
    Foreign { at: u64 },
    /// An entry would make the journal, which has this length, too long.
    #[error("Full {len}")]
    Full { len: u64 },
    /// The disk isn't empty and holds no journal.
    #[error("NotJournal")]
    NotJournal,
    /// At this offset of the journal no lawful entry stands where one should, or a Decide that makes
    /// the history illegal.
    #[error("Damaged {at}")]
    Damaged { at: u64 },
}

impl Stop {
    /// The status with which the program ends where the run ended so.
    pub fn status(&self) -> u8
        ensures { result ≡ stop_status self.now }
    {
        match self {
            Stop::Bundle { .. } => 1,
            Stop::Usage => 2,
            Stop::ReadFault => 3,
            Stop::WriteFault => 4,
            Stop::JournalFault => 5,
            Stop::Memory => 6,
            Stop::Foreign { .. } => 7,
            Stop::Full { .. } => 8,
            Stop::NotJournal => 9,
            Stop::Damaged { .. } => 10,
        }
    }
}

/// How the program ends where a world ended a run so.
pub(crate) fn stop_of_world(why: WorldStop) -> Stop
    ensures { result ≡ stop_of_world why }
{
    match why {
        WorldStop::JournalFault => Stop::JournalFault,
        WorldStop::Full { len } => Stop::Full { len },
        WorldStop::Memory => Stop::Memory,
        WorldStop::Foreign { at } => Stop::Foreign { at },
        WorldStop::NotJournal => Stop::NotJournal,
        WorldStop::Damaged { at } => Stop::Damaged { at },
    }
}

/// The status with which the program ends: 0 where all was done.
pub fn status(ended: &Result<Done, Stop>) -> u8
    ensures { result ≡ status_of ended.now }
{
    match ended {
        Ok(Done) => 0,
        Err(stop) => stop.status(),
    }
}
