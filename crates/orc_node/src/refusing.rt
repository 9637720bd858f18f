//! What an operation is refused for.
ghost use Rattle.std.specs.Prelude.{◌≡◌, None, not, nat_eq};
ghost use Rattle.std.specs.Option.{option_map};
ghost use Rattle.orc_device.specs.Nodes.{is_held_by_session, is_held_by_other, is_pending_by_other, is_pending_under, is_locked_by_other, denied, op_refusal, refuse};
ghost use Rattle.orc_tree.specs.Sameness.{equal_configs};
ghost use Rattle.orc_check.specs.Acceptance.{accepts};
ghost use Rattle.orc_node.specs.Kinds.{device_kind};
ghost use Rattle.orc_node.specs.inside.Held.{is_by_other, is_under};
ghost use Rattle.orc_device.specs.declared.op.Op.TheVariants.{Edit, Commit, CommitConfirmed, Confirm};

use crate::fitting::set_stands;
use crate::node::{Node, Pending};
use orc_call::Tag;
use orc_check::accepts;
use orc_device::Op;
use orc_tree::ChangeSet;

/// Whether the session holds the lock.
pub(crate) fn is_held_by_session(lock: Option<u32>, session: u32) -> bool
    ensures { result ≡ is_held_by_session lock session }
{
    match lock {
        Some(holder) => holder == session,
        None => false,
    }
}

fn is_held_by_other(lock: Option<u32>, session: u32) -> bool
    ensures { result ≡ is_held_by_other lock session }
{
    match lock {
        Some(holder) => holder != session,
        None => false,
    }
}

// Whether the commit is another session's.
fn is_by_other(pending: Option<&Pending>, session: u32) -> bool
    ensures { result ≡ is_by_other (option_map (λ commit. commit.now) pending.entry) session }
{
    match pending {
        Some(commit) => commit.by != session,
        None => false,
    }
}

// Whether the operation is refused where candidate isn't accepted.
fn asks_acceptance(op: &Op) -> bool {
    match op {
        Op::Validate | Op::CommitConfirmed(_, _) | Op::Commit | Op::Confirm(_) => true,
        _ => false,
    }
}

// Whether the commit has this persist id.
fn is_under(pending: Option<&Pending>, id: u64) -> bool
    ensures { result ≡ is_under (option_map (λ commit. commit.now) pending.entry) id }
{
    match pending {
        Some(commit) => commit.id == id,
        None => false,
    }
}

// The tag, where this is a cause for it.
fn refused(is_cause: bool, tag: Tag) -> Option<Tag>
    ensures { result ≡ refuse is_cause tag None }
{
    if is_cause { Some(tag) } else { None }
}

impl Node {
    fn is_pending_by_other(&self, session: u32) -> bool
        ensures { result ≡ is_pending_by_other self.now.state.pending session }
    {
        is_by_other(self.pending.as_ref(), session)
    }

    fn is_pending_under(&self, id: u64) -> bool
        ensures { result ≡ is_pending_under self.now.state.pending id }
    {
        is_under(self.pending.as_ref(), id)
    }

    fn is_locked_by_other(&self, session: u32) -> bool
        ensures { result ≡ is_locked_by_other self.now.state session }
    {
        is_held_by_other(self.running_lock, session)
            || is_held_by_other(self.candidate_lock, session)
    }

    // Whether candidate equals running.
    fn is_clean(&self) -> bool
        ensures { result ≡ equal_configs self.now.state.candidate self.now.state.running }
    {
        match &self.candidate {
            Some(tree) => tree.equals(&self.running),
            None => true,
        }
    }

    // Whether candidate is accepted, which may be known.
    fn is_accepted(&self) -> bool
        ensures { result ≡ accepts self.now.accept self.now.state.candidate }
    {
        match self.verdict {
            Some(verdict) => verdict,
            None => accepts(&self.accept, self.candidate()),
        }
    }

    // Looks whether candidate is accepted, where an operation of a live session asks it. So it is
    // looked at once, until it is changed.
    pub(crate) fn look_for(&mut self, session: u32, op: &Op)
        ensures { self.new ≡ self.old }
    {
        if asks_acceptance(op) && self.is_live(session) {
            let accepted = self.is_accepted();
            self.verdict = Some(accepted);
        }
    }

    // The first cause for which an edit is refused.
    fn edit_denied(&self, session: u32, set: &ChangeSet) -> Option<Tag>
        ensures { result ≡ denied (device_kind self.now.accept) self.now.state session (Edit set.now) }
    {
        if is_held_by_other(self.candidate_lock, session) {
            Some(Tag::InUse)
        } else if !set_stands(&self.accept.schema, set) {
            Some(Tag::InvalidValue)
        } else {
            None
        }
    }

    // The first cause for which a commit to be confirmed is refused.
    fn commit_confirmed_denied(&self, session: u32, id: u64, seconds: u32) -> Option<Tag>
        ensures { result ≡ denied (device_kind self.now.accept) self.now.state session (CommitConfirmed id seconds) }
    {
        if self.is_locked_by_other(session)
            || (self.pending.is_some() && !self.is_pending_under(id))
        {
            Some(Tag::InUse)
        } else if seconds == 0 {
            Some(Tag::InvalidValue)
        } else if !self.is_accepted() {
            Some(Tag::OperationFailed)
        } else {
            None
        }
    }

    // The first cause for which a confirm is refused.
    fn confirm_denied(&self, session: u32, id: u64) -> Option<Tag>
        ensures { result ≡ denied (device_kind self.now.accept) self.now.state session (Confirm id) }
    {
        if self.is_locked_by_other(session) {
            Some(Tag::InUse)
        } else if !self.is_pending_under(id) {
            Some(Tag::InvalidValue)
        } else if !self.is_accepted() {
            Some(Tag::OperationFailed)
        } else {
            None
        }
    }

    // The first cause for which a commit is refused.
    fn commit_denied(&self, session: u32) -> Option<Tag>
        ensures { result ≡ denied (device_kind self.now.accept) self.now.state session Commit }
    {
        if self.is_locked_by_other(session) || self.pending.is_some() {
            Some(Tag::InUse)
        } else {
            refused(!self.is_accepted(), Tag::OperationFailed)
        }
    }

    // The first cause for which an operation of a live session is refused.
    fn denied(&self, session: u32, op: &Op) -> Option<Tag>
        ensures { result ≡ denied (device_kind self.now.accept) self.now.state session op.now }
    {
        match op {
            Op::LockRunning => refused(
                self.running_lock.is_some() || self.is_pending_by_other(session),
                Tag::LockDenied,
            ),
            Op::LockCandidate => refused(
                self.candidate_lock.is_some() || !self.is_clean(),
                Tag::LockDenied,
            ),
            Op::Edit(set) => self.edit_denied(session, set),
            Op::Validate => refused(!self.is_accepted(), Tag::OperationFailed),
            Op::CommitConfirmed(id, seconds) => self.commit_confirmed_denied(
                session, *id, *seconds,
            ),
            Op::Commit => self.commit_denied(session),
            Op::Confirm(id) => self.confirm_denied(session, *id),
            Op::Cancel(id) => refused(!self.is_pending_under(*id), Tag::InvalidValue),
            Op::Discard => refused(is_held_by_other(self.candidate_lock, session), Tag::InUse),
            Op::UnlockCandidate => refused(
                !is_held_by_session(self.candidate_lock, session),
                Tag::OperationFailed,
            ),
            Op::UnlockRunning => refused(
                !is_held_by_session(self.running_lock, session),
                Tag::OperationFailed,
            ),
            Op::OpenSession | Op::CloseSession | Op::GetRunning => None,
        }
    }

    /// The first cause for which an operation of the session is refused.
    pub(crate) fn op_refusal(&self, session: u32, op: &Op) -> Option<Tag>
        ensures { result ≡ op_refusal (device_kind self.now.accept) self.now.state session op.now }
    {
        match op {
            Op::OpenSession => None,
            _ => {
                if self.is_live(session) {
                    self.denied(session, op)
                } else {
                    Some(Tag::NoSession)
                }
            }
        }
    }
}
