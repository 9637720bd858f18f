//! A transaction on one device.
ghost use Rattle.std.specs.Prelude.{◌≡◌, IfOk, OnErr, IsTrue};
ghost use Rattle.orc_worker.specs.Workers.{new_worker, worker_order, worker_took, worker_report, worker_told, is_waiting, is_due};
ghost use Rattle.orc_worker.specs.declared.stage.Stage.TheVariants.{Editing};

use crate::outcomes::{fault_by, outcome_by, reported};
use crate::report::{Outcome, Report};
use crate::stage::{Stage, is_due, is_waiting, told_stage, work_stage_after};
use orc_device::{Op, Reply};
use orc_text::Memory;
use orc_tree::ChangeSet;
use std::alloc::Global;

/// How long a commit waits to be confirmed.
pub const CONFIRM_SECONDS: u32 = 120;

/// The work of a transaction on one device.
#[derive(Drop)]
pub struct Worker {
    /// The number of the transaction.
    pub t: u64,
    /// What it changes on the device.
    pub set: ChangeSet,
    pub stage: Stage,
    /// The last outcome, if there was one.
    pub outcome: Option<Outcome>,
}

impl Worker {
    /// A worker that has done nothing yet.
    pub fn new(t: u64, set: ChangeSet) -> Worker
        ensures { result ≡ new_worker t set }
    {
        Worker {
            t,
            set,
            stage: Stage::Opening,
            outcome: None,
        }
    }

    /// A copy of the operation due, or None exactly where the worker waits for the decision or has
    /// ended. The operation stays due until `took`. It takes memory only for an edit.
    pub fn next(&self, alloc: Global) -> Result<Option<Op>, Memory>
        ensures order { IfOk result (λ op. op ≡ worker_order self.now) }
        ensures memory { OnErr result (self.now.stage ≡ Editing) }
    {
        match self.stage {
            Stage::Opening | Stage::Reopening => Ok(Some(Op::OpenSession)),
            Stage::LockingRunning => Ok(Some(Op::LockRunning)),
            Stage::LockingCandidate => Ok(Some(Op::LockCandidate)),
            Stage::Editing => Ok(Some(Op::Edit(self.set.copy(alloc)?))),
            Stage::Validating => Ok(Some(Op::Validate)),
            Stage::Committing => Ok(Some(Op::CommitConfirmed(self.t, CONFIRM_SECONDS))),
            Stage::Confirming => Ok(Some(Op::Confirm(self.t))),
            Stage::Cancelling | Stage::Recancelling => Ok(Some(Op::Cancel(self.t))),
            Stage::UnlockingCandidate => Ok(Some(Op::UnlockCandidate)),
            Stage::UnlockingRunning => Ok(Some(Op::UnlockRunning)),
            Stage::Refusing | Stage::Closing => Ok(Some(Op::CloseSession)),
            Stage::Prepared | Stage::Lost | Stage::Over => Ok(None),
        }
    }

    /// Whether an operation is due.
    pub fn is_due(&self) -> bool
        ensures { result ≡ is_due self.now.stage }
    {
        is_due(self.stage)
    }

    /// Whether it waits for the decision.
    pub fn is_waiting(&self) -> bool
        ensures { result ≡ is_waiting self.now.stage }
    {
        is_waiting(self.stage)
    }

    /// Takes the reply to the operation due, with the link's count of faults. It reports where the
    /// reply brings an outcome, or is a fault or counts as one.
    pub fn took(&mut self, reply: Reply, faults: u64) -> Option<Report>
        requires { IsTrue (is_due self.old.stage) }
        ensures state { self.new ≡ worker_took self.old reply faults }
        ensures report { result ≡ worker_report self.old reply faults }
    {
        let outcome = outcome_by(self.stage, &reply, faults);
        let report = reported(outcome, self.outcome, fault_by(self.stage, &reply, faults));
        self.stage = work_stage_after(self.stage, &reply);
        self.outcome = outcome.or(self.outcome);
        report
    }

    /// Gives the worker the decision that it waits for.
    pub fn go(&mut self, commit: bool)
        requires { IsTrue (is_waiting self.old.stage) }
        ensures { self.new ≡ worker_told self.old commit }
    {
        self.stage = told_stage(self.stage, commit);
    }
}
