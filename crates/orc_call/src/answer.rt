//! Answers to calls and to reconciliations, and what they carry.
ghost use Rattle.std.specs.Prelude.{◌≡◌, Ok, IfOk, OnErr};
ghost use Rattle.orc_call.specs.Answers.{HoldsText};

use orc_path::{Path, Write};
use orc_text::{Copied, Memory, Text};
use std::alloc::Global;

/// The answer to a call. A device is given by its number in order of declaration, a rule by its
/// place in its list, counted from 1.
#[derive(PartialEq, Eq)]
pub enum Answer {
    /// The call is this entry of the history.
    Committed(u64),
    /// The first action at fault creates this service, which lives.
    Exists(Text),
    /// The first action at fault names this service, which does not live.
    Missing(Text),
    /// The data would break this rule at this path.
    Invalid(Path, u8),
    /// This service's template cannot be expanded, by this block and rule.
    Expand(Text, u32, u8),
    /// On this device another service has an unequal item at this path.
    Clash(u32, Path, Text),
    /// This entry of the history, after the call's snapshot, wrote what the call read.
    Conflict(u64, Write),
    /// This device's state is not known.
    OutOfSync(u32, Why),
    /// This device refused.
    Refused(u32, Tag),
    /// This device's link failed, and its count of faults rose to this number.
    LinkFault(u32, u64),
    /// This entry of the history has the caller and number, and other actions.
    Reused(u64),
    /// The controller is stopped.
    Down,
    /// The journal's disk failed.
    JournalFault,
    /// Memory could not be had.
    Memory,
    /// The caller has an open call of this number.
    Busy(u64),
}

// Written out, so that a crate above lets an answer go by one call, and not by one for each kind.
impl Drop for Answer {
    fn drop(self) {
        match self {
            Answer::Committed(_) => {}
            Answer::Exists(_) => {}
            Answer::Missing(_) => {}
            Answer::Invalid(_, _) => {}
            Answer::Expand(_, _, _) => {}
            Answer::Clash(_, _, _) => {}
            Answer::Conflict(_, _) => {}
            Answer::OutOfSync(_, _) => {}
            Answer::Refused(_, _) => {}
            Answer::LinkFault(_, _) => {}
            Answer::Reused(_) => {}
            Answer::Down => {}
            Answer::JournalFault => {}
            Answer::Memory => {}
            Answer::Busy(_) => {}
        }
    }
}

impl Answer {
    /// An equal value. It takes memory only for a text, a path or a write that the answer holds.
    pub fn copy(&self, alloc: Global) -> Result<Answer, Memory>
        ensures equal { IfOk result (λ answer. answer ≡ self.now) }
        ensures memory { OnErr result (HoldsText self.now) }
    {
        match self {
            Answer::Committed(entry) => Ok(Answer::Committed(*entry)),
            Answer::Exists(service) => Ok(Answer::Exists(service.copy(alloc)?)),
            Answer::Missing(service) => Ok(Answer::Missing(service.copy(alloc)?)),
            Answer::Invalid(path, rule) => Ok(Answer::Invalid(path.copy(alloc)?, *rule)),
            Answer::Expand(service, block, rule) => {
                Ok(Answer::Expand(service.copy(alloc)?, *block, *rule))
            }
            Answer::Clash(device, path, other) => {
                Ok(Answer::Clash(*device, path.copy(alloc)?, other.copy(alloc)?))
            }
            Answer::Conflict(entry, write) => Ok(Answer::Conflict(*entry, write.copy(alloc)?)),
            Answer::OutOfSync(device, why) => Ok(Answer::OutOfSync(*device, *why)),
            Answer::Refused(device, tag) => Ok(Answer::Refused(*device, *tag)),
            Answer::LinkFault(device, count) => Ok(Answer::LinkFault(*device, *count)),
            Answer::Reused(entry) => Ok(Answer::Reused(*entry)),
            Answer::Down => Ok(Answer::Down),
            Answer::JournalFault => Ok(Answer::JournalFault),
            Answer::Memory => Ok(Answer::Memory),
            Answer::Busy(number) => Ok(Answer::Busy(*number)),
        }
    }
}

impl Copied for Answer {
    fn copied(&self, alloc: Global) -> Result<Answer, Memory>
        ensures equal { IfOk result (λ answer. answer ≡ self.now) }
        ensures memory { OnErr result (HoldsText self.now) }
    {
        self.copy(alloc)
    }
}

/// Why a device's state is not known: the first cause since its last reconciliation.
#[derive(Clone, Copy, PartialEq, Eq)]
pub enum Why {
    /// Its link failed, and its count of faults rose to this number.
    Fault(u64),
    /// The confirmed commit of this transaction was no longer pending.
    Gone(u64),
    /// The controller recovered.
    Recovered,
}

impl Why {
    /// An equal value. It takes no memory.
    pub fn copy(&self, _alloc: Global) -> Result<Why, Memory>
        ensures { result ≡ Ok self.now }
    {
        Ok(*self)
    }
}

impl Copied for Why {
    fn copied(&self, alloc: Global) -> Result<Why, Memory>
        ensures { result ≡ Ok self.now }
    {
        self.copy(alloc)
    }
}

/// What a device answers to an operation that it refuses, after the error tags of RFC 6241
/// appendix A; `NoSession` has no counterpart there.
#[derive(Clone, Copy, PartialEq, Eq)]
pub enum Tag {
    LockDenied,
    InUse,
    InvalidValue,
    OperationFailed,
    NoSession,
}

impl Tag {
    /// An equal value. It takes no memory.
    pub fn copy(&self, _alloc: Global) -> Result<Tag, Memory>
        ensures { result ≡ Ok self.now }
    {
        Ok(*self)
    }
}

impl Copied for Tag {
    fn copied(&self, alloc: Global) -> Result<Tag, Memory>
        ensures { result ≡ Ok self.now }
    {
        self.copy(alloc)
    }
}

/// Why a reconciliation ended before its last device. A device is given by its number in order of
/// declaration.
#[derive(Clone, Copy, PartialEq, Eq)]
pub enum RecFault {
    /// This device's link failed, and its count of faults rose to this number.
    LinkFault { device: u32, number: u64 },
    /// The journal's disk failed.
    DiskFault,
    /// This device refused.
    Refused { device: u32, tag: Tag },
    /// Memory could not be had.
    Memory,
    /// The journal of this length has no room.
    Full { len: u64 },
}

impl RecFault {
    /// An equal value. It takes no memory.
    pub fn copy(&self, _alloc: Global) -> Result<RecFault, Memory>
        ensures { result ≡ Ok self.now }
    {
        Ok(*self)
    }
}

impl Copied for RecFault {
    fn copied(&self, alloc: Global) -> Result<RecFault, Memory>
        ensures { result ≡ Ok self.now }
    {
        self.copy(alloc)
    }
}
