//! Kinds of operations, and when a listed one fails.
ghost use Rattle.std.specs.Prelude.{◌≡◌, Ok};
ghost use Rattle.orc_device.specs.Listings.{kind_of_op};

use crate::op::Op;
use orc_text::{Copied, Memory};
use std::alloc::Global;

/// The kinds of operations.
#[derive(Clone, Copy, PartialEq, Eq)]
pub enum OpKind {
    OpenSession,
    LockRunning,
    LockCandidate,
    Edit,
    Validate,
    CommitConfirmed,
    Commit,
    Confirm,
    Cancel,
    Discard,
    UnlockCandidate,
    UnlockRunning,
    CloseSession,
    GetRunning,
}

impl OpKind {
    /// An equal kind. It takes no memory.
    pub fn copy(&self, _alloc: Global) -> Result<OpKind, Memory>
        ensures { result ≡ Ok self.now }
    {
        Ok(*self)
    }
}

impl Copied for OpKind {
    fn copied(&self, alloc: Global) -> Result<OpKind, Memory>
        ensures { result ≡ Ok self.now }
    {
        self.copy(alloc)
    }
}

/// Whether an operation fails before it takes effect, or after.
#[derive(Clone, Copy, PartialEq, Eq)]
pub enum When {
    Before,
    After,
}

impl When {
    /// An equal value. It takes no memory.
    pub fn copy(&self, _alloc: Global) -> Result<When, Memory>
        ensures { result ≡ Ok self.now }
    {
        Ok(*self)
    }
}

impl Copied for When {
    fn copied(&self, alloc: Global) -> Result<When, Memory>
        ensures { result ≡ Ok self.now }
    {
        self.copy(alloc)
    }
}

/// The kind of an operation.
pub fn kind_of_op(op: &Op) -> OpKind
    ensures { result ≡ kind_of_op op.now }
{
    match op {
        Op::OpenSession => OpKind::OpenSession,
        Op::LockRunning => OpKind::LockRunning,
        Op::LockCandidate => OpKind::LockCandidate,
        Op::Edit(_) => OpKind::Edit,
        Op::Validate => OpKind::Validate,
        Op::CommitConfirmed(_, _) => OpKind::CommitConfirmed,
        Op::Commit => OpKind::Commit,
        Op::Confirm(_) => OpKind::Confirm,
        Op::Cancel(_) => OpKind::Cancel,
        Op::Discard => OpKind::Discard,
        Op::UnlockCandidate => OpKind::UnlockCandidate,
        Op::UnlockRunning => OpKind::UnlockRunning,
        Op::CloseSession => OpKind::CloseSession,
        Op::GetRunning => OpKind::GetRunning,
    }
}
