//! What replies bring.
ghost use Rattle.std.specs.Prelude.{◌≡◌};
ghost use Rattle.orc_worker.specs.Workers.{hindered, resolved_as, outcome_by, spoils, fault_by, reported};
ghost use Rattle.orc_worker.specs.declared.stage.Stage.TheVariants.{Reopening};

use crate::report::{Outcome, Report};
use crate::stage::Stage;
use orc_call::Tag;
use orc_device::{Reply, is_invalid_value};

// The outcome by a reply in preparing, where Ok brings this one.
fn hindered(next: Option<Outcome>, reply: &Reply, faults: u64) -> Option<Outcome>
    ensures { result ≡ hindered next reply.now faults }
{
    match reply {
        Reply::Ok => next,
        Reply::Tree(_) => Some(Outcome::Refused(Tag::OperationFailed)),
        Reply::Refused(tag) => Some(Outcome::Refused(*tag)),
        Reply::Fault => Some(Outcome::Lost(faults)),
        Reply::Memory => Some(Outcome::Short),
    }
}

// The outcome by a reply to a confirm or a cancel: by Ok, by invalid-value, and by any other reply.
fn resolved_as(good: Outcome, absent: Outcome, reply: &Reply, faults: u64) -> Outcome
    ensures { result ≡ resolved_as good absent reply.now faults }
{
    match reply {
        Reply::Ok => good,
        Reply::Refused(tag) => {
            if is_invalid_value(*tag) {
                absent
            } else {
                Outcome::Lost(faults)
            }
        }
        Reply::Tree(_) | Reply::Fault | Reply::Memory => Outcome::Lost(faults),
    }
}

// The outcome by a reply to the opening of a session in which something is to be cancelled.
fn reopened(reply: &Reply, faults: u64) -> Option<Outcome>
    ensures { result ≡ outcome_by Reopening reply.now faults }
{
    if reply.is_ok() {
        None
    } else {
        Some(Outcome::Lost(faults))
    }
}

/// The outcome that a reply brings, if it does.
pub(crate) fn outcome_by(stage: Stage, reply: &Reply, faults: u64) -> Option<Outcome>
    ensures { result ≡ outcome_by stage reply.now faults }
{
    match stage {
        Stage::Opening
        | Stage::LockingRunning
        | Stage::LockingCandidate
        | Stage::Editing
        | Stage::Validating => hindered(None, reply, faults),
        Stage::Committing => hindered(Some(Outcome::Prepared), reply, faults),
        Stage::Confirming => Some(resolved_as(Outcome::Confirmed, Outcome::Gone, reply, faults)),
        Stage::Cancelling | Stage::Recancelling => {
            Some(resolved_as(Outcome::Cancelled, Outcome::Cancelled, reply, faults))
        }
        Stage::Reopening => reopened(reply, faults),
        Stage::Refusing
        | Stage::Prepared
        | Stage::Lost
        | Stage::UnlockingCandidate
        | Stage::UnlockingRunning
        | Stage::Closing
        | Stage::Over => None,
    }
}

// Whether the reply is a fault of the link, or counts as one.
fn spoils(stage: Stage, reply: &Reply) -> bool
    ensures { result ≡ spoils stage reply.now }
{
    match stage {
        Stage::Confirming | Stage::Cancelling | Stage::Recancelling => !reply.is_resolved(),
        Stage::Reopening => !reply.is_ok(),
        _ => reply.is_fault(),
    }
}

/// The count of faults of such a reply.
pub(crate) fn fault_by(stage: Stage, reply: &Reply, faults: u64) -> Option<u64>
    ensures { result ≡ fault_by stage reply.now faults }
{
    if spoils(stage, reply) {
        Some(faults)
    } else {
        None
    }
}

/// What is reported of an outcome, the one before it, and a fault.
pub(crate) fn reported(
    brought: Option<Outcome>,
    before: Option<Outcome>,
    fault: Option<u64>,
) -> Option<Report>
    ensures { result ≡ reported brought before fault }
{
    match brought {
        Some(outcome) => Some(Report { outcome, fault }),
        None => match before {
            None => None,
            Some(outcome) => match fault {
                Some(_) => Some(Report { outcome, fault }),
                None => None,
            },
        },
    }
}
