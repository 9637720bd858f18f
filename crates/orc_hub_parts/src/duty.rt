//! What is done on one device: the operation due, its reply, and the decision.
ghost use Rattle.std.specs.Prelude.{◌≡◌, IfOk, IsTrue, OnErr};
ghost use Rattle.orc_rules.specs.Duties.{cause_by, duty_end, duty_order, duty_outcome, duty_told, duty_took, gone_cause, is_busy, is_over, is_over_for, stale_by, stale_ended};
ghost use Rattle.orc_hub_parts.specs.Due.{WantsEdit};

use orc_call::Why;
use orc_device::{Op, Reply};
use orc_recover::Mend;
use orc_rules::Duty;
use orc_text::Memory;
use orc_worker::{Outcome, Report, Stage};
use std::alloc::Global;

// Whether it has ended.
fn is_over(stage: Stage) -> bool
    ensures { result ≡ is_over stage }
{
    match stage {
        Stage::Over => true,
        _ => false,
    }
}

/// A copy of the operation due, if one is. It takes memory for an edit alone.
pub fn next_op(duty: &Duty, alloc: Global) -> Result<Option<Op>, Memory>
    ensures order { IfOk result (λ op. op ≡ duty_order duty.now) }
    ensures memory { OnErr result (WantsEdit duty.now) }
{
    match duty {
        Duty::Free => Ok(None),
        Duty::Works(worker) => worker.next(alloc),
        Duty::Mends(mender) => mender.next(alloc),
    }
}

// The cause of staleness that an outcome is.
fn gone_cause(t: u64, outcome: Outcome) -> Option<Why>
    ensures { result ≡ gone_cause t outcome }
{
    match outcome {
        Outcome::Gone => Some(Why::Gone(t)),
        _ => None,
    }
}

// Why a report makes its device stale, if it does.
fn cause_by(t: u64, report: Option<Report>) -> Option<Why>
    ensures { result ≡ cause_by t report }
{
    match report {
        None => None,
        Some(report) => match report.fault {
            Some(count) => Some(Why::Fault(count)),
            None => gone_cause(t, report.outcome),
        },
    }
}

// Whether a device is stale after the end of its reconciliation.
fn stale_ended(before: Option<Why>, end: Option<Mend>) -> Option<Why>
    ensures { result ≡ stale_ended before end }
{
    match end {
        Some(Mend::Done) => None,
        Some(Mend::LinkFault(count)) => before.or(Some(Why::Fault(count))),
        _ => before,
    }
}

/// Takes the reply to the operation due, with the link's count of faults, and returns why the device is
/// stale after it, if it is, and how its reconciliation ended, if it did.
pub fn take_reply(
    duty: &mut Duty,
    before: Option<Why>,
    reply: Reply,
    faults: u64,
) -> (Option<Why>, Option<Mend>)
    requires { IsTrue (is_busy duty.old) }
    ensures duty { duty.new ≡ duty_took duty.old reply faults }
    ensures stale { result.0 ≡ stale_by duty.old reply faults before }
    ensures end { result.1 ≡ duty_end duty.old reply faults }
{
    match duty {
        Duty::Free => (before, None),
        Duty::Works(worker) => {
            let t = worker.t;
            let report = worker.took(reply, faults);
            (before.or(cause_by(t, report)), None)
        }
        Duty::Mends(mender) => {
            let end = mender.took(reply, faults);
            (stale_ended(before, end), end)
        }
    }
}

/// Tells the decision on a transaction. A worker of it that waits goes on.
pub fn tell(duty: &mut Duty, t: u64, commit: bool)
    ensures { duty.new ≡ duty_told t commit duty.old }
{
    match duty {
        Duty::Free => {}
        Duty::Works(worker) => {
            if worker.t == t && worker.is_waiting() {
                worker.go(commit);
            }
        }
        Duty::Mends(_) => {}
    }
}

/// The last outcome that the work of a transaction had here.
pub fn outcome(duty: &Duty, t: u64) -> Option<Outcome>
    ensures { result ≡ duty_outcome t duty.now }
{
    match duty {
        Duty::Free => None,
        Duty::Works(worker) => { if worker.t == t { worker.outcome } else { None } }
        Duty::Mends(_) => None,
    }
}

/// Whether the work of a transaction has ended here.
pub fn is_over_for(duty: &Duty, t: u64) -> bool
    ensures { result ≡ is_over_for t duty.now }
{
    match duty {
        Duty::Free => false,
        Duty::Works(worker) => worker.t == t && is_over(worker.stage),
        Duty::Mends(_) => false,
    }
}

/// Whether an operation is due.
pub fn is_busy(duty: &Duty) -> bool
    ensures { result ≡ is_busy duty.now }
{
    match duty {
        Duty::Free => false,
        Duty::Works(worker) => worker.is_due(),
        Duty::Mends(mender) => mender.is_due(),
    }
}
