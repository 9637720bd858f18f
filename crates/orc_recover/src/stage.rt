//! The stages of a mender.
ghost use Rattle.std.specs.Prelude.{◌≡◌};
ghost use Rattle.orc_tree.specs.Sameness.{equal_configs};
ghost use Rattle.orc_recover.specs.Menders.{goes_on, is_mending, is_resolving, read_stage, stepped};

use orc_device::Reply;
use orc_tree::Tree;

/// Where a mender stands: the operation that is due. The tree is the running one that it read.
#[derive(Drop)]
pub enum MendStage {
    Opening,
    /// A transaction that is left is confirmed or cancelled, or where none is, running is read.
    Resolving,
    LockingRunning(Tree),
    LockingCandidate(Tree),
    Editing(Tree),
    Validating,
    Committing,
    UnlockingCandidate,
    UnlockingRunning,
    Closing,
    /// It has ended.
    Over,
}

// This stage where the reply is good, and else the end.
fn goes_on(good: bool, next: MendStage) -> MendStage
    ensures { result ≡ goes_on good next }
{
    if good { next } else { MendStage::Over }
}

/// Whether transactions are confirmed or cancelled, or running is read.
pub(crate) fn is_resolving(stage: &MendStage) -> bool
    ensures { result ≡ is_resolving stage.now }
{
    match stage {
        MendStage::Resolving => true,
        MendStage::Opening => false,
        MendStage::LockingRunning(_) => false,
        MendStage::LockingCandidate(_) => false,
        MendStage::Editing(_) => false,
        MendStage::Validating => false,
        MendStage::Committing => false,
        MendStage::UnlockingCandidate => false,
        MendStage::UnlockingRunning => false,
        MendStage::Closing => false,
        MendStage::Over => false,
    }
}

/// Whether an operation is due.
pub(crate) fn is_mending(stage: &MendStage) -> bool
    ensures { result ≡ is_mending stage.now }
{
    match stage {
        MendStage::Over => false,
        MendStage::Opening => true,
        MendStage::Resolving => true,
        MendStage::LockingRunning(_) => true,
        MendStage::LockingCandidate(_) => true,
        MendStage::Editing(_) => true,
        MendStage::Validating => true,
        MendStage::Committing => true,
        MendStage::UnlockingCandidate => true,
        MendStage::UnlockingRunning => true,
        MendStage::Closing => true,
    }
}

/// The stage after the reading of running: where the tree that was read is the one due, there is nothing to change.
pub(crate) fn read_stage(due: &Tree, reply: Reply) -> MendStage
    ensures { result ≡ read_stage equal_configs due.now reply }
{
    match reply {
        Reply::Tree(running) => {
            if running.equals(due) {
                MendStage::Closing
            } else {
                MendStage::LockingRunning(running)
            }
        }
        Reply::Ok => MendStage::Over,
        Reply::Refused(_) => MendStage::Over,
        Reply::Fault => MendStage::Over,
        Reply::Memory => MendStage::Over,
    }
}

/// The stage after a reply at which no tree is read.
pub(crate) fn stepped(stage: MendStage, good: bool) -> MendStage
    ensures { result ≡ stepped stage good }
{
    match stage {
        MendStage::Opening => goes_on(good, MendStage::Resolving),
        MendStage::Resolving => goes_on(good, MendStage::Resolving),
        MendStage::LockingRunning(running) => goes_on(good, MendStage::LockingCandidate(running)),
        MendStage::LockingCandidate(running) => goes_on(good, MendStage::Editing(running)),
        MendStage::Editing(_) => goes_on(good, MendStage::Validating),
        MendStage::Validating => goes_on(good, MendStage::Committing),
        MendStage::Committing => goes_on(good, MendStage::UnlockingCandidate),
        MendStage::UnlockingCandidate => goes_on(good, MendStage::UnlockingRunning),
        MendStage::UnlockingRunning => goes_on(good, MendStage::Closing),
        MendStage::Closing => MendStage::Over,
        MendStage::Over => MendStage::Over,
    }
}
