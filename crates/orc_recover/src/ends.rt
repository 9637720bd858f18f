//! How replies end a mender.
ghost use Rattle.std.specs.Prelude.{◌≡◌};
ghost use Rattle.orc_device.specs.Operations.{is_ok};
ghost use Rattle.orc_recover.specs.Menders.{ends_unless, failed_by, read_end, step_end};
ghost use Rattle.orc_recover.specs.declared.stage.MendStage.TheVariants.{Closing};

use crate::stage::MendStage;
use orc_call::Tag;
use orc_device::Reply;

/// How the reconciliation of a device ended.
#[derive(Clone, Copy, PartialEq, Eq)]
pub enum Mend {
    Done,
    /// The link failed; its count of faults was this.
    LinkFault(u64),
    Refused(Tag),
    Memory,
}

// How a reply that isn't wanted ends it.
fn failed_by(reply: &Reply, faults: u64) -> Mend
    ensures { result ≡ failed_by reply.now faults }
{
    match reply {
        Reply::Ok | Reply::Tree(_) => Mend::Refused(Tag::OperationFailed),
        Reply::Refused(tag) => Mend::Refused(*tag),
        Reply::Fault => Mend::LinkFault(faults),
        Reply::Memory => Mend::Memory,
    }
}

/// How a reply ends it that isn't good.
pub(crate) fn ends_unless(good: bool, reply: &Reply, faults: u64) -> Option<Mend>
    ensures { result ≡ ends_unless good reply.now faults }
{
    if good {
        None
    } else {
        Some(failed_by(reply, faults))
    }
}

// How the reply to the end of the session does.
fn closed(reply: &Reply, faults: u64) -> Option<Mend>
    ensures { result ≡ step_end Closing reply.now faults }
{
    if reply.is_ok() {
        Some(Mend::Done)
    } else {
        Some(failed_by(reply, faults))
    }
}

// How a reply ends it where Ok is wanted.
fn unless_done(reply: &Reply, faults: u64) -> Option<Mend>
    ensures { result ≡ ends_unless (is_ok reply.now) reply.now faults }
{
    ends_unless(reply.is_ok(), reply, faults)
}

/// How a reply ends it by which nothing is resolved and no tree is read.
pub(crate) fn step_end(stage: &MendStage, reply: &Reply, faults: u64) -> Option<Mend>
    ensures { result ≡ step_end stage.now reply.now faults }
{
    match stage {
        MendStage::Closing => closed(reply, faults),
        MendStage::Over => None,
        MendStage::Opening => unless_done(reply, faults),
        MendStage::Resolving => unless_done(reply, faults),
        MendStage::LockingRunning(_) => unless_done(reply, faults),
        MendStage::LockingCandidate(_) => unless_done(reply, faults),
        MendStage::Editing(_) => unless_done(reply, faults),
        MendStage::Validating => unless_done(reply, faults),
        MendStage::Committing => unless_done(reply, faults),
        MendStage::UnlockingCandidate => unless_done(reply, faults),
        MendStage::UnlockingRunning => unless_done(reply, faults),
    }
}

/// How the reading of running ends the mender, if it does.
pub(crate) fn read_end(reply: &Reply, faults: u64) -> Option<Mend>
    ensures { result ≡ read_end reply.now faults }
{
    match reply {
        Reply::Tree(_) => None,
        Reply::Ok => Some(failed_by(reply, faults)),
        Reply::Refused(_) => Some(failed_by(reply, faults)),
        Reply::Fault => Some(failed_by(reply, faults)),
        Reply::Memory => Some(failed_by(reply, faults)),
    }
}
