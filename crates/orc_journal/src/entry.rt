//! Entries of a journal.
ghost use Rattle.std.specs.Prelude.{◌≡◌};
ghost use Rattle.orc_journal.specs.Entries.{number_of};
ghost use Rattle.orc_journal.specs.Journals.{gated};

use orc_call::{Call, encoded_len};
use orc_text::{Counted, Row};

/// What the journal records of a transaction, which is given by its number.
#[derive(PartialEq, Eq)]
pub enum Entry {
    /// The transaction begins: its call, and the numbers of the devices that it changes, ascending.
    Intent {
        t: u64,
        call: Call,
        devices: Row<u32>,
    },
    /// The call is committed.
    Decide {
        t: u64,
    },
    /// The call is given up.
    Abort {
        t: u64,
    },
    /// Each device has done what was decided.
    Settled {
        t: u64,
    },
}

// Written out, so that a crate above lets an entry go by one call.
impl Drop for Entry {
    fn drop(self) {
        match self {
            Entry::Intent {
                t: _,
                call: _,
                devices: _,
            } => {}
            Entry::Decide { t: _ } => {}
            Entry::Abort { t: _ } => {}
            Entry::Settled { t: _ } => {}
        }
    }
}

impl Entry {
    /// The number of the transaction that the entry names.
    pub fn number(&self) -> u64
        ensures { result ≡ number_of self.now }
    {
        match self {
            Entry::Intent { t, .. } => *t,
            Entry::Decide { t } => *t,
            Entry::Abort { t } => *t,
            Entry::Settled { t } => *t,
        }
    }
}

// Counts an entry with the gate before it.
impl Counted for Entry {
    ghost spelling = { gated };

    fn count(&self) -> u64 {
        match self {
            Entry::Intent { call, devices, .. } => {
                let numbers = (devices.len() as u64).saturating_mul(2);
                encoded_len(call).saturating_add(16).saturating_add(numbers)
            }
            Entry::Decide { .. } => 14,
            Entry::Abort { .. } => 14,
            Entry::Settled { .. } => 14,
        }
    }
}
