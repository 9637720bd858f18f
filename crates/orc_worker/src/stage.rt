//! The stages of a worker.
ghost use Rattle.std.specs.Prelude.{◌≡◌, if◌then◌else◌};
ghost use Rattle.orc_worker.specs.Workers.{is_due, is_waiting, prepares, work_stage_after, told_stage};
ghost use Rattle.orc_worker.specs.declared.stage.Stage.TheVariants.{Over};

use orc_device::Reply;

/// Where a worker stands: the operation that is due, or what it waits for.
#[derive(Clone, Copy, PartialEq, Eq)]
pub enum Stage {
    Opening,
    LockingRunning,
    LockingCandidate,
    Editing,
    Validating,
    Committing,
    /// Refused or short, and the session isn't closed yet.
    Refusing,
    /// It waits for the decision.
    Prepared,
    /// The link failed in preparing. It waits for the decision.
    Lost,
    Confirming,
    Cancelling,
    /// It cancels what it lost: a new session, the cancel, the session's end.
    Reopening,
    Recancelling,
    UnlockingCandidate,
    UnlockingRunning,
    Closing,
    /// It has ended.
    Over,
}

// The stage after a reply in preparing, where this one comes after Ok.
fn prepares(next: Stage, reply: &Reply) -> Stage
    ensures { result ≡ prepares next reply.now }
{
    match reply {
        Reply::Ok => next,
        Reply::Fault => Stage::Lost,
        Reply::Tree(_) | Reply::Refused(_) | Reply::Memory => Stage::Refusing,
    }
}

// This stage where the reply is good, and else the end.
fn goes_on(good: bool, next: Stage) -> Stage
    ensures { result ≡ (if good then next else Over) }
{
    if good { next } else { Stage::Over }
}

/// The stage after a reply.
pub(crate) fn work_stage_after(stage: Stage, reply: &Reply) -> Stage
    ensures { result ≡ work_stage_after stage reply.now }
{
    match stage {
        Stage::Opening => prepares(Stage::LockingRunning, reply),
        Stage::LockingRunning => prepares(Stage::LockingCandidate, reply),
        Stage::LockingCandidate => prepares(Stage::Editing, reply),
        Stage::Editing => prepares(Stage::Validating, reply),
        Stage::Validating => prepares(Stage::Committing, reply),
        Stage::Committing => prepares(Stage::Prepared, reply),
        Stage::Confirming => goes_on(reply.is_resolved(), Stage::UnlockingCandidate),
        Stage::Cancelling => goes_on(reply.is_resolved(), Stage::UnlockingCandidate),
        Stage::Reopening => goes_on(reply.is_ok(), Stage::Recancelling),
        Stage::Recancelling => goes_on(reply.is_resolved(), Stage::Closing),
        Stage::UnlockingCandidate => Stage::UnlockingRunning,
        Stage::UnlockingRunning => Stage::Closing,
        Stage::Prepared => Stage::Prepared,
        Stage::Lost => Stage::Lost,
        Stage::Refusing | Stage::Closing | Stage::Over => Stage::Over,
    }
}

/// Whether an operation is due.
pub(crate) fn is_due(stage: Stage) -> bool
    ensures { result ≡ is_due stage }
{
    match stage {
        Stage::Prepared | Stage::Lost | Stage::Over => false,
        _ => true,
    }
}

/// Whether the worker waits for the decision.
pub(crate) fn is_waiting(stage: Stage) -> bool
    ensures { result ≡ is_waiting stage }
{
    match stage {
        Stage::Prepared | Stage::Lost => true,
        _ => false,
    }
}

/// The stage after the decision.
pub(crate) fn told_stage(stage: Stage, commit: bool) -> Stage
    ensures { result ≡ told_stage stage commit }
{
    match stage {
        Stage::Prepared => {
            if commit {
                Stage::Confirming
            } else {
                Stage::Cancelling
            }
        }
        Stage::Lost => {
            if commit {
                Stage::Over
            } else {
                Stage::Reopening
            }
        }
        other => other,
    }
}
