//! A link to a node.
ghost use Rattle.std.specs.Prelude.{◌≡◌, ◌≤◌, ◌++◌, ◌∷◌, [], OnOk, OnErr};
ghost use Rattle.std.specs.Borrow.{sem};
ghost use Rattle.orc_node.specs.Lending.{LendsNode};
ghost use Rattle.orc_io.specs.Counts.{Rose, next_count};
ghost use Rattle.orc_device.specs.Operations.{IsLinkFault};
ghost use Rattle.orc_device.specs.Nodes.{session_begun, session_ended, next_session};
ghost use Rattle.orc_device.specs.Links.{is_stranded};
ghost use Rattle.orc_node.specs.Nodes.{with_state};
ghost use Rattle.orc_device.specs.declared.reply.Reply.TheVariants.{Fault};
ghost use Rattle.orc_node.specs.LinkStates.{LinkState, new_link, LinkPerforms};
ghost use Rattle.orc_node.specs.inside.Asked.{AsksNode, FailsAt, LosesReply, failed};

use crate::listing::take_listed;
use crate::node::Node;
use orc_device::{Device, Op, OpKind, Reply, When, kind_of_op};
use orc_text::Memory;
use std::alloc::Global;
use std::marker::Model;

/// A link to a node, with a session of its own. It fails at chosen operations, and where the node has
/// ended its session. A failed operation ends the session. The link keeps it then, so that each later
/// operation but the opening of a session fails too.
#[derive(Drop)]
pub struct Link {
    node: Node,
    // The session that it opened last, and 0 before the first: no session has that number.
    session: u32,
    faults: u64,
    listed: Vec<(OpKind, When)>,
}

impl Model for Link {
    ghost use Rattle.orc_node.specs.LinkStates.{LinkState};
    ghost use Rattle.orc_path.specs.Codes.{config_code};
    ghost use Rattle.std.specs.Coded.{codes};

    ghost Value = { LinkState };

    ghost coded = { Prim.hlevel (codes, config_code) };

    ghost view = { λ link. record {
      node = link.node;
      session = link.session;
      faults = link.faults;
      listed = link.listed.items;
    } };
}

impl Link {
    /// A link without a session, which lists no failure. It takes no memory.
    pub fn over(alloc: Global, node: Node) -> Link
        ensures { result ≡ new_link node }
    {
        Link {
            node,
            session: 0,
            faults: 0,
            listed: Vec::new(alloc),
        }
    }

    /// The next operation of this kind fails. Each listing serves one operation, in the order listed.
    /// Where memory runs out the link is as it was.
    pub fn fail_next(&mut self, op: OpKind, when: When) -> Result<(), Memory>
        ensures ok { OnOk result (self.new ≡ record self.old { listed = self.old.listed ++ (op, when) ∷ [] }) }
        ensures err { OnErr result (self.new ≡ self.old) }
    {
        self.listed.push((op, when))?;
        Ok(())
    }

    /// The node.
    pub fn node(&self) -> &Node
        ensures { result.now ≡ self.now.node }
    {
        &self.node
    }

    /// The node, to let time pass there, to restart it or to drop its sessions.
    pub fn node_mut(&mut self) -> &mut Node
        ensures* writes_back { sem 𝓛 (LendsNode self.entry result) }
        ensures value { result.now ≡ self.old.node }
    {
        &mut self.node
    }

    /// The node, without the link.
    pub fn into_node(self) -> Node
        ensures { result ≡ self.node }
    {
        self.node
    }

    // Whether the node has ended the session in which the operation is asked for.
    fn is_stranded(&self, op: &Op) -> bool
        ensures { result ≡ is_stranded self.now.node.state self.now.session op.now }
    {
        match op {
            Op::OpenSession => false,
            _ => !self.node.is_live(self.session) && self.session != 0,
        }
    }

    // A new session, after the end of the old one.
    fn open(&mut self)
        ensures { self.new ≡ record self.old {
          node = with_state self.old.node (session_begun (session_ended self.old.node.state self.old.session));
          session = next_session self.old.node.state.last;
        } }
    {
        self.node.end_session(self.session);
        self.session = self.node.start_session();
    }

    // Asks the node for the operation.
    fn ask(&mut self, op: &Op) -> Reply
        ensures asked { AsksNode self.old op.now self.new result }
        ensures faults { self.new.faults ≡ self.old.faults }
    {
        match op {
            Op::OpenSession => {
                self.open();
                Reply::Ok
            }
            _ => self.node.perform_as(self.session, op),
        }
    }

    // The link fails, which ends its session.
    fn fail(&mut self) -> Reply
        ensures state { self.new ≡ failed self.old }
        ensures later { self.old.faults ≤ self.new.faults }
        ensures reply { result ≡ Fault }
    {
        self.node.end_session(self.session);
        self.faults = self.faults.saturating_add(1);
        Reply::Fault
    }

    // Asks the node for the operation, and then the link fails.
    fn lose(&mut self, op: &Op) -> Reply
        ensures lost { LosesReply self.old op.now self.new result }
        ensures later { self.old.faults ≤ self.new.faults }
    {
        match self.ask(op) {
            Reply::Memory => Reply::Memory,
            Reply::Ok => self.fail(),
            Reply::Tree(_) => self.fail(),
            Reply::Refused(_) => self.fail(),
            Reply::Fault => self.fail(),
        }
    }
}

impl Link {
    // Fails, before the operation takes effect or after.
    fn fail_at(&mut self, when: When, op: &Op) -> Reply
        ensures fails { FailsAt when self.old op.now self.new result }
        ensures later { self.old.faults ≤ self.new.faults }
    {
        match when {
            When::Before => self.fail(),
            When::After => self.lose(op),
        }
    }
}

impl Device for Link {
    ghost faults = { λ link. link.faults };

    fn perform(&mut self, op: &Op) -> Reply
        ensures step { LinkPerforms self.old op.now self.new result }
        ensures later { self.old.faults ≤ self.new.faults }
        ensures cause { IsLinkFault result → Rose self.old.faults self.new.faults }
    {
        let when = take_listed(&mut self.listed, kind_of_op(op));
        if self.is_stranded(op) {
            self.faults = self.faults.saturating_add(1);
            return Reply::Fault;
        }
        match when {
            Some(when) => self.fail_at(when, op),
            None => self.ask(op),
        }
    }

    fn faults(&self) -> u64 {
        self.faults
    }
}
