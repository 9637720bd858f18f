//! Operations of a session with a device.
ghost use Rattle.std.specs.Prelude.{◌≡◌, IfOk, OnErr};
ghost use Rattle.orc_device.specs.Operations.{IsEdit};

use orc_text::{Copied, Memory};
use orc_tree::ChangeSet;
use std::alloc::Global;

/// One operation of a session with a device, after RFC 6241. The number of a confirmed commit is that of
/// its transaction, and stands for its persist id.
#[derive(PartialEq, Eq, Drop)]
pub enum Op {
    /// A session begins; the one that asks ends first.
    OpenSession,
    /// `<lock>` of running (7.5).
    LockRunning,
    /// `<lock>` of candidate (7.5, 8.3.5.2).
    LockCandidate,
    /// `<edit-config>` of candidate (7.2).
    Edit(ChangeSet),
    /// `<validate>` of candidate (8.6.4.1).
    Validate,
    /// `<commit>` with `<confirmed>`, `<persist>` and `<confirm-timeout>` in seconds (8.4.5.1).
    CommitConfirmed(u64, u32),
    /// `<commit>` (8.3.4.1).
    Commit,
    /// `<commit>` with `<persist-id>`, which confirms the one that is pending (8.4.5.1).
    Confirm(u64),
    /// `<cancel-commit>` with `<persist-id>` (8.4.4.1).
    Cancel(u64),
    /// `<discard-changes>` (8.3.4.2): candidate becomes running.
    Discard,
    /// `<unlock>` of candidate (7.6).
    UnlockCandidate,
    /// `<unlock>` of running (7.6).
    UnlockRunning,
    /// `<close-session>` (7.8).
    CloseSession,
    /// `<get-config>` of running (7.1).
    GetRunning,
}

impl Op {
    /// An equal operation. It takes memory only for an edit.
    pub fn copy(&self, alloc: Global) -> Result<Op, Memory>
        ensures equal { IfOk result (λ op. op ≡ self.now) }
        ensures memory { OnErr result (IsEdit self.now) }
    {
        match self {
            Op::OpenSession => Ok(Op::OpenSession),
            Op::LockRunning => Ok(Op::LockRunning),
            Op::LockCandidate => Ok(Op::LockCandidate),
            Op::Edit(set) => Ok(Op::Edit(set.copy(alloc)?)),
            Op::Validate => Ok(Op::Validate),
            Op::CommitConfirmed(id, seconds) => Ok(Op::CommitConfirmed(*id, *seconds)),
            Op::Commit => Ok(Op::Commit),
            Op::Confirm(id) => Ok(Op::Confirm(*id)),
            Op::Cancel(id) => Ok(Op::Cancel(*id)),
            Op::Discard => Ok(Op::Discard),
            Op::UnlockCandidate => Ok(Op::UnlockCandidate),
            Op::UnlockRunning => Ok(Op::UnlockRunning),
            Op::CloseSession => Ok(Op::CloseSession),
            Op::GetRunning => Ok(Op::GetRunning),
        }
    }
}

impl Copied for Op {
    fn copied(&self, alloc: Global) -> Result<Op, Memory>
        ensures equal { IfOk result (λ op. op ≡ self.now) }
        ensures memory { OnErr result (IsEdit self.now) }
    {
        self.copy(alloc)
    }
}
