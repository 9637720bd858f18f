//! A reconciliation of one device.
ghost use Rattle.std.specs.Prelude.{◌≡◌, IfOk, OnErr, IsTrue};
ghost use Rattle.orc_device.specs.Operations.{is_ok, is_resolved};
ghost use Rattle.orc_tree.specs.Sameness.{equal_configs};
ghost use Rattle.orc_recover.specs.Menders.{new_mender, mender_order, mender_took, mender_end, is_editing, is_mending, is_any, behind_first, resolving_order, ends_unless, stepped, read_stage, read_end, step_end, resolved_one, differences};

use crate::ends::{Mend, ends_unless, read_end, step_end};
use crate::stage::{MendStage, is_mending, is_resolving, read_stage, stepped};
use orc_change::between;
use orc_device::{Op, Reply};
use orc_text::{Memory, Row};
use orc_tree::Tree;
use std::alloc::Global;
use std::marker::Model;
use std::mem;

/// The work of a reconciliation on one device.
#[derive(Drop)]
pub struct Mender {
    intents: Row<(u64, bool)>,
    // How many of them are resolved.
    done: usize,
    due: Tree,
    stage: MendStage,
}

impl Model for Mender {
    ghost use Rattle.std.specs.Prelude.{drop, length, ◌≤◌};
    ghost use Rattle.std.specs.Coded.{codes};
    ghost use Rattle.orc_path.specs.Codes.{config_code};
    ghost use Rattle.orc_recover.specs.Menders.{MenderState};

    ghost Value = { MenderState };

    ghost coded = { Prim.hlevel (codes, config_code) };

    ghost view = { λ mender. record {
      left = drop mender.done mender.intents;
      due = mender.due;
      stage = mender.stage;
    } };

    ghost invariant = { λ mender. mender.done ≤ length mender.intents };
}

impl Mender {
    /// A mender of a device with these unsettled transactions, each with whether it is decided, on
    /// which this configuration is due. It has done nothing yet.
    pub fn new(intents: Vec<(u64, bool)>, due: Tree) -> Mender
        ensures { result ≡ new_mender intents.items due }
    {
        Mender {
            intents: Row::from_vec(intents),
            done: 0,
            due,
            stage: MendStage::Opening,
        }
    }

    // Whether a transaction is left.
    fn is_any(&self) -> bool
        ensures { result ≡ is_any self.now.left }
    {
        self.done < self.intents.len()
    }

    // The operation for what is left.
    fn resolving(&self) -> Op
        ensures { result ≡ resolving_order self.now.left }
    {
        if self.done < self.intents.len() {
            let (t, decided) = self.intents.as_slice()[self.done];
            if decided {
                Op::Confirm(t)
            } else {
                Op::Cancel(t)
            }
        } else {
            Op::GetRunning
        }
    }

    /// A copy of the operation due, or None exactly where the mender has ended. The operation stays due
    /// until `took`. It takes memory only for an edit.
    pub fn next(&self, alloc: Global) -> Result<Option<Op>, Memory>
        ensures order { IfOk result (λ op. op ≡ mender_order differences self.now) }
        ensures memory { OnErr result (IsTrue (is_editing self.now.stage)) }
    {
        match &self.stage {
            MendStage::Opening => Ok(Some(Op::OpenSession)),
            MendStage::Resolving => Ok(Some(self.resolving())),
            MendStage::LockingRunning(_) => Ok(Some(Op::LockRunning)),
            MendStage::LockingCandidate(_) => Ok(Some(Op::LockCandidate)),
            MendStage::Editing(running) => Ok(Some(Op::Edit(between(alloc, running, &self.due)?))),
            MendStage::Validating => Ok(Some(Op::Validate)),
            MendStage::Committing => Ok(Some(Op::Commit)),
            MendStage::UnlockingCandidate => Ok(Some(Op::UnlockCandidate)),
            MendStage::UnlockingRunning => Ok(Some(Op::UnlockRunning)),
            MendStage::Closing => Ok(Some(Op::CloseSession)),
            MendStage::Over => Ok(None),
        }
    }

    /// Whether an operation is due: it hasn't ended.
    pub fn is_due(&self) -> bool
        ensures { result ≡ is_mending self.now.stage }
    {
        is_mending(&self.stage)
    }

    /// Takes the reply to the operation due, with the link's count of faults, and answers how the
    /// reconciliation of the device ended, if it did. It ends at the first reply that isn't wanted.
    pub fn took(&mut self, reply: Reply, faults: u64) -> Option<Mend>
        requires { IsTrue (is_mending self.old.stage) }
        ensures state { self.new ≡ mender_took equal_configs self.old reply }
        ensures end { result ≡ mender_end self.old reply faults }
    {
        if !is_resolving(&self.stage) {
            return self.took_step(&reply, faults);
        }
        if self.is_any() {
            return self.took_resolved(&reply, faults);
        }
        self.took_tree(reply, faults)
    }

    // Takes the reply to an operation by which nothing is resolved and no tree is read.
    fn took_step(&mut self, reply: &Reply, faults: u64) -> Option<Mend>
        ensures state { self.new ≡ record self.old { stage = stepped self.old.stage (is_ok reply.now) } }
        ensures end { result ≡ step_end self.old.stage reply.now faults }
    {
        let end = step_end(&self.stage, reply, faults);
        let stage = mem::replace(&mut self.stage, MendStage::Over);
        self.stage = stepped(stage, reply.is_ok());
        end
    }

    // Takes the reply to the confirm or cancel of the first transaction that is left.
    fn took_resolved(&mut self, reply: &Reply, faults: u64) -> Option<Mend>
        ensures state { self.new ≡ resolved_one self.old (behind_first self.old.left) (is_resolved reply.now) }
        ensures end { result ≡ ends_unless (is_resolved reply.now) reply.now faults }
    {
        let good = reply.is_resolved();
        self.resolve(good);
        ends_unless(good, reply, faults)
    }

    // The first transaction that is left is resolved, or the mender ends.
    fn resolve(&mut self, good: bool)
        ensures { self.new ≡ resolved_one self.old (behind_first self.old.left) good }
    {
        if good {
            self.skip();
        } else {
            self.stage = MendStage::Over;
        }
    }

    // The first transaction is left no more.
    fn skip(&mut self)
        ensures { self.new ≡ record self.old { left = behind_first self.old.left } }
    {
        if self.done < self.intents.len() {
            self.done += 1;
        }
    }

    // Takes the reply to the reading of running.
    fn took_tree(&mut self, reply: Reply, faults: u64) -> Option<Mend>
        ensures state { self.new ≡ record self.old { stage = read_stage equal_configs self.old.due reply } }
        ensures end { result ≡ read_end reply faults }
    {
        let end = read_end(&reply, faults);
        self.stage = read_stage(&self.due, reply);
        end
    }
}
