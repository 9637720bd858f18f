//! Why a journal is not opened, or an entry not appended.
use crate::reading::ReadFault;
use orc_io::Failed;
use orc_text::Memory;

/// Why a journal was not opened.
#[derive(Clone, Copy)]
pub enum OpenFault {
    /// The file is a journal of other declarations, which differ first at this offset in them.
    Foreign { at: u64 },
    /// The file isn't empty and doesn't begin as journals do.
    NotJournal,
    /// An operation of the disk failed.
    DiskFault,
    /// Memory could not be had.
    Memory,
    /// The header would pass the limit; the journal has this length.
    Full { len: u64 },
    /// An open gate is followed at this offset of the file by no entry, or by one that may not
    /// follow those before it.
    Damaged { at: u64 },
}

/// Why an entry was not appended.
#[derive(Clone, Copy, PartialEq, Eq)]
pub enum AppendFault {
    /// An operation of the disk failed. The journal is spent.
    DiskFault,
    /// The entry would pass the limit; the journal has this length.
    Full { len: u64 },
    /// Memory could not be had.
    Memory,
}

impl From<Memory> for AppendFault {
    ghost use Rattle.orc_journal.specs.declared.fault.AppendFault.TheVariants as fault;
    ghost use Rattle.std.specs.Prelude.{◌≡◌};

    ghost from_gives = { λ _ e. e ≡ fault.Memory };

    fn from(_: Memory) -> AppendFault {
        AppendFault::Memory
    }
}

impl From<Failed> for OpenFault {
    ghost use Rattle.orc_journal.specs.declared.fault.OpenFault.TheVariants as fault;
    ghost use Rattle.std.specs.Prelude.{◌≡◌};

    ghost from_gives = { λ _ e. e ≡ fault.DiskFault };

    fn from(_: Failed) -> OpenFault {
        OpenFault::DiskFault
    }
}

impl From<Memory> for OpenFault {
    ghost use Rattle.orc_journal.specs.declared.fault.OpenFault.TheVariants as fault;
    ghost use Rattle.std.specs.Prelude.{◌≡◌};

    ghost from_gives = { λ _ e. e ≡ fault.Memory };

    fn from(_: Memory) -> OpenFault {
        OpenFault::Memory
    }
}

impl From<ReadFault> for OpenFault {
    ghost use Rattle.orc_journal.specs.Faults.{open_fault};
    ghost use Rattle.std.specs.Prelude.{◌≡◌};

    ghost from_gives = { λ fault e. e ≡ open_fault fault };

    fn from(fault: ReadFault) -> OpenFault {
        match fault {
            ReadFault::NotJournal => OpenFault::NotJournal,
            ReadFault::Foreign { at } => OpenFault::Foreign { at },
            ReadFault::Damaged { at } => OpenFault::Damaged { at },
            ReadFault::Memory => OpenFault::Memory,
        }
    }
}
