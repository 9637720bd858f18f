//! The trees of a node, which are moved.
ghost use Rattle.std.specs.Prelude.{◌≡◌, OnOk, OnErr, IsTrue, None, Some};
ghost use Rattle.std.specs.List.{list_all};
ghost use Rattle.orc_tree.specs.Changes.{applied, change_fits};
ghost use Rattle.orc_check.specs.Acceptance.{accepts};
ghost use Rattle.orc_device.specs.Nodes.{kept_tree, reverted};
ghost use Rattle.orc_node.specs.Kinds.{set_stands};
ghost use Rattle.orc_node.specs.Nodes.{AcceptingNode, with_state};
ghost use Rattle.orc_node.specs.Held.{or_running};
ghost use Rattle.orc_node.specs.inside.Held.{IsKnown, with_kept};

use crate::judging::judged;
use crate::node::{Node, Pending};
use orc_text::Memory;
use orc_tree::{ChangeSet, Tree};
use std::mem;

// The commit that is pending, over the tree that ran, where it held that as a flag.
fn with_kept(pending: Option<Pending>, before: Tree) -> Option<Pending>
    ensures { result ≡ with_kept pending before }
{
    match pending {
        None => None,
        Some(commit) => {
            let Pending {
                kept,
                verdict,
                id,
                left,
                by,
            } = commit;
            Some(Pending {
                kept: Some(or_tree(kept, before)),
                verdict,
                id,
                left,
                by,
            })
        }
    }
}

// The tree held, or else this one.
fn or_tree(held: Option<Tree>, other: Tree) -> Tree
    ensures { result ≡ or_running held other }
{
    match held {
        Some(tree) => tree,
        None => other,
    }
}

impl Node {
    // The candidate configuration.
    pub(crate) fn candidate(&self) -> &Tree
        ensures { result.now ≡ self.now.state.candidate }
    {
        match &self.candidate {
            Some(tree) => tree,
            None => &self.running,
        }
    }

    // What is known of what the changes made of candidate. It is judged by what they changed, where
    // candidate is known to be accepted and there is memory for it.
    fn verdict_after(&self, set: &ChangeSet, tree: &Tree) -> Option<bool>
        requires { tree.now ≡ applied set.now.changes self.now.state.candidate }
        ensures { IsKnown result (accepts self.now.accept tree.now) }
    {
        match self.verdict {
            Some(accepted) => {
                if accepted {
                    judged(self.alloc, &self.accept, self.candidate(), tree, set)
                } else {
                    None
                }
            }
            None => None,
        }
    }

    /// Changes candidate. Where memory runs out the node is as it was.
    pub(crate) fn edit(&mut self, set: &ChangeSet) -> Result<(), Memory>
        requires fits { IsTrue (list_all change_fits set.now.changes) }
        ensures ok { OnOk result (self.new ≡ with_state self.old
            (record self.old.state { candidate = applied set.now.changes self.old.state.candidate })) }
        ensures err { OnErr result (self.new ≡ self.old) }
    {
        let mut tree = self.candidate().copy(self.alloc)?;
        tree.apply(set)?;
        self.verdict = self.verdict_after(set, &tree);
        self.candidate = Some(tree);
        Ok(())
    }

    /// A commit is pending under this id, for so many seconds, by this session. The tree before is
    /// that of the commit that was pending, or else running.
    pub(crate) fn hold(&mut self, id: u64, left: u32, by: u32)
        ensures { self.new ≡ with_state self.old (record self.old.state {
          pending
              = Some (record { kept = kept_tree self.old.state; id = id; left = left; by = by });
        }) }
    {
        match self.pending.take() {
            Some(commit) => {
                self.pending = Some(Pending {
                    kept: commit.kept,
                    verdict: commit.verdict,
                    id,
                    left,
                    by,
                });
            }
            None => {
                self.pending = Some(Pending {
                    kept: None,
                    verdict: self.running_verdict,
                    id,
                    left,
                    by,
                });
            }
        }
    }

    /// Running becomes candidate.
    pub(crate) fn run_candidate(&mut self)
        ensures { self.new ≡ with_state self.old
            (record self.old.state { running = self.old.state.candidate }) }
    {
        if let Some(tree) = self.candidate.take() {
            let before = mem::replace(&mut self.running, tree);
            self.running_verdict = self.verdict;
            let pending = self.pending.take();
            self.pending = with_kept(pending, before);
        }
    }

    /// Candidate becomes running.
    pub(crate) fn reset(&mut self)
        ensures { self.new ≡ with_state self.old
            (record self.old.state { candidate = self.old.state.running }) }
    {
        self.candidate = None;
        self.verdict = self.running_verdict;
    }

    /// Where a commit is pending the tree before it comes back.
    pub(crate) fn revert(&mut self)
        ensures { self.new ≡ with_state self.old (reverted self.old.state) }
    {
        if let Some(commit) = self.pending.take() {
            self.running_verdict = commit.verdict;
            self.candidate = None;
            self.verdict = commit.verdict;
            if let Some(tree) = commit.kept {
                self.running = tree;
            }
        }
    }
}
