//! A node and its parts.
ghost use Rattle.std.specs.Prelude.{◌≡◌, IfOk, IfErr, false, true, None};
ghost use Rattle.orc_check.specs.Acceptance.{accepts};
ghost use Rattle.orc_device.specs.Nodes.{is_live, op_refusal};
ghost use Rattle.orc_node.specs.Kinds.{device_kind};
ghost use Rattle.orc_node.specs.Nodes.{AcceptingNode, new_node, IsRefusedBase, PerformsAs, CarriesOut};

use arrayvec::ArrayVec;
use orc_check::{Accept, accepts};
use orc_device::{Op, Reply};
use orc_tree::Tree;
use std::alloc::Global;
use std::marker::Model;

/// A commit that is pending.
#[derive(Drop)]
pub(crate) struct Pending {
    /// The tree before it, or None where that equals running.
    pub(crate) kept: Option<Tree>,
    /// Whether the tree before it is accepted, where that is known.
    pub(crate) verdict: Option<bool>,
    pub(crate) id: u64,
    pub(crate) left: u32,
    pub(crate) by: u32,
}

/// A device with a candidate configuration, two locks and confirmed commit (RFC 6241 sections 7.5,
/// 7.6, 8.3, 8.4 and 8.6).
#[derive(Drop)]
pub struct Node {
    pub(crate) alloc: Global,
    pub(crate) accept: Accept,
    pub(crate) running: Tree,
    // None where it equals running.
    pub(crate) candidate: Option<Tree>,
    // Whether running is accepted, where that is known.
    pub(crate) running_verdict: Option<bool>,
    // Whether candidate is accepted, where that is known.
    pub(crate) verdict: Option<bool>,
    pub(crate) running_lock: Option<u32>,
    pub(crate) candidate_lock: Option<u32>,
    pub(crate) pending: Option<Pending>,
    pub(crate) live: ArrayVec<u32, 8>,
    pub(crate) last: u32,
}

impl Model for Node {
    ghost use Rattle.std.specs.Prelude.{length, ◌≤◌};
    ghost use Rattle.orc_node.specs.Nodes.{AcceptingNode};
    ghost use Rattle.orc_check.specs.Acceptance.{accepts};
    ghost use Rattle.orc_node.specs.Held.{or_running, pending_of};
    ghost use Rattle.orc_node.specs.inside.Held.{IsKnown, IsKeptKnown};
    ghost use Rattle.orc_path.specs.Codes.{config_code};
    ghost use Rattle.std.specs.Coded.{codes};

    ghost Value = { AcceptingNode };

    ghost coded = { Prim.hlevel (codes, config_code) };

    ghost view = { λ node. record {
      state = record {
        running = node.running;
        candidate = or_running node.candidate node.running;
        running_lock = node.running_lock;
        candidate_lock = node.candidate_lock;
        pending = pending_of node.pending node.running;
        live = node.live.items;
        last = node.last;
      };
      accept = node.accept;
    } };

    ghost invariant = { λ node. (length node.live.items ≤ 8)
        × IsKnown node.verdict (accepts node.accept (or_running node.candidate node.running))
        × IsKnown node.running_verdict (accepts node.accept node.running)
        × IsKeptKnown node.accept node.running node.pending };
}

/// Why a node can't be had.
pub enum NodeFault {
    /// The device doesn't accept its base.
    NotAccepted,
    /// Memory ran out. A node takes none before its first edit, so this isn't answered.
    Memory,
}

impl Node {
    /// A node that runs this configuration, without a session. It takes no memory.
    pub fn new(alloc: Global, base: Tree, accept: Accept) -> Result<Node, NodeFault>
        ensures ok { IfOk result (λ node. node ≡ new_node base accept) }
        ensures accepted { IfOk result (λ node. accepts accept base ≡ true) }
        ensures err { IfErr result (λ fault. IsRefusedBase accept base fault) }
    {
        if !accepts(&accept, &base) {
            return Err(NodeFault::NotAccepted);
        }
        Ok(Node {
            alloc,
            accept,
            running: base,
            candidate: None,
            running_verdict: Some(true),
            verdict: Some(true),
            running_lock: None,
            candidate_lock: None,
            pending: None,
            live: ArrayVec::new(),
            last: 0,
        })
    }

    /// The running configuration.
    pub fn running(&self) -> &Tree
        ensures { result.now ≡ self.now.state.running }
    {
        &self.running
    }

    /// Whether a session lives.
    pub fn is_live(&self, session: u32) -> bool
        ensures { result ≡ is_live self.now.state session }
    {
        self.live.as_slice().iter().any(|other| session == *other)
    }

    // What an operation that isn't refused does and answers.
    fn carry_out(&mut self, session: u32, op: &Op) -> Reply
        requires { op_refusal (device_kind self.old.accept) self.old.state session op.now ≡ None }
        ensures { CarriesOut self.old session op.now self.new result }
    {
        match op {
            Op::OpenSession => {
                self.end_session(session);
                let _number = self.start_session();
                Reply::Ok
            }
            Op::LockRunning => {
                self.running_lock = Some(session);
                Reply::Ok
            }
            Op::LockCandidate => {
                self.candidate_lock = Some(session);
                Reply::Ok
            }
            Op::Edit(set) => match self.edit(set) {
                Ok(()) => Reply::Ok,
                Err(_) => Reply::Memory,
            },
            Op::Validate => Reply::Ok,
            Op::CommitConfirmed(id, seconds) => {
                self.hold(*id, *seconds, session);
                self.run_candidate();
                Reply::Ok
            }
            Op::Commit => {
                self.run_candidate();
                Reply::Ok
            }
            Op::Confirm(_) => {
                self.run_candidate();
                self.pending = None;
                Reply::Ok
            }
            Op::Cancel(_) => {
                self.revert();
                self.reset();
                Reply::Ok
            }
            Op::Discard => {
                self.reset();
                Reply::Ok
            }
            Op::UnlockCandidate => {
                self.candidate_lock = None;
                self.reset();
                Reply::Ok
            }
            Op::UnlockRunning => {
                self.running_lock = None;
                Reply::Ok
            }
            Op::CloseSession => {
                self.end_session(session);
                Reply::Ok
            }
            Op::GetRunning => match self.running.copy(self.alloc) {
                Ok(tree) => Reply::Tree(tree),
                Err(_) => Reply::Memory,
            },
        }
    }

    /// Performs an operation of a session. Memory runs out in an edit or a look at running alone,
    /// and then nothing is changed.
    pub fn perform_as(&mut self, session: u32, op: &Op) -> Reply
        ensures { PerformsAs self.old session op.now self.new result }
    {
        self.look_for(session, op);
        match self.op_refusal(session, op) {
            Some(tag) => Reply::Refused(tag),
            None => self.carry_out(session, op),
        }
    }
}
