//! The hub, and what one who looks at it sees.
ghost use Rattle.std.specs.Prelude.{◌≡◌};

use orc_call::{Answer, RecFault, Why};
use orc_decls::Decls;
use orc_disk::{Disk, StopDisk};
use orc_hub_parts::{Askers, Log, Numbers};
use orc_queue::Queue;
use orc_rules::{Duty, Transaction, Waiting};
use orc_state::State;
use orc_text::{Row, Text};

/// The hub, which decides what is committed: it owns the journal and the state that this gives, and knows which
/// calls wait, which are under way, what is done on each device, and who asked.
#[derive(Drop)]
pub struct Hub<D: Disk> {
    pub decls: Decls,
    pub log: Log<D>,
    pub state: State,
    pub numbers: Numbers,
    /// The calls that wait, in order.
    pub waiting: Queue<Waiting>,
    /// The calls under way, in the order of their Intents.
    pub active: Row<Transaction>,
    /// What is done on each device, and why it is stale, if it is.
    pub duties: Row<Duty>,
    pub stale: Row<Option<Why>>,
    /// Who asked, and what was answered.
    pub askers: Askers,
    /// Where a reconciliation is begun and unfinished, the failure that it met, if one.
    pub mends: Option<Option<RecFault>>,
    /// An append of this hub failed.
    pub down: bool,
}

/// What came of a submission.
#[derive(Drop)]
pub enum Submitted {
    /// The call is answered at once.
    Answered(Answer),
    /// The call waits, as the transaction of this number.
    Queued(u64),
}

/// What came of an admission.
#[derive(Drop)]
pub enum Admit {
    /// No call that waits fits.
    Nothing,
    /// The transaction of this number has its Intent.
    Admitted(u64),
    /// The call of this caller and number was not admitted, and got this answer.
    Answered {
        caller: Text,
        number: u64,
        answer: Answer,
    },
    /// The journal of this length has no room. The hub is down.
    Full {
        len: u64,
    },
}

/// What was decided or settled.
#[derive(Drop)]
pub enum Decided {
    /// Nothing is due.
    Nothing,
    /// The call of this caller and number was decided or given up, and got this answer.
    Answered {
        caller: Text,
        number: u64,
        answer: Answer,
    },
    /// The transaction of this number was settled.
    Settled(u64),
    /// The hub is down: it was, or the disk failed as a transaction was to be settled.
    Down,
    /// The journal of this length has no room. The hub is down.
    Full {
        len: u64,
    },
}

impl<D: Disk> Hub<D> {
    /// The state that the history gives.
    pub fn state(&self) -> &State
        ensures { result.now ≡ self.now.state }
    {
        &self.state
    }

    /// The declarations.
    pub fn decls(&self) -> &Decls
        ensures { result.now ≡ self.now.decls }
    {
        &self.decls
    }

    /// Whether an append of this hub failed.
    pub fn is_down(&self) -> bool
        ensures { result ≡ self.now.down }
    {
        self.down
    }

    /// The disk and the declarations.
    pub fn into_parts(self) -> (D, Decls)
        ensures disk { result.0 ≡ self.log.journal.disk }
        ensures decls { result.1 ≡ self.decls }
    {
        let Hub { decls, log, .. } = self;
        (log.journal.into_disk(), decls)
    }
}

impl<D: Disk> Hub<StopDisk<D>> {
    /// Arms a stop in the disk, as `StopDisk::arm` does: the given write or sync from now on stops it.
    pub fn arm(&mut self, op: u64, bytes: u64)
        ensures { self.new ≡ record self.old {
          log = record self.old.log {
            journal = record self.old.log.journal {
              disk = record self.old.log.journal.disk { op = op; bytes = bytes };
            };
          };
        } }
    {
        self.log.journal.arm(op, bytes);
    }

    /// Whether the disk is stopped.
    pub fn stopped(&self) -> bool
        ensures { result ≡ self.now.log.journal.disk.stopped }
    {
        self.log.journal.stopped()
    }
}
