//! What is done on the devices, one by one and on all.
ghost use Rattle.std.specs.Prelude.{◌≡◌, ◌<◌, not, IsTrue, MatchOption, length, map, slice_get, slice_set, take};
ghost use Rattle.std.specs.List.{list_all};
ghost use Rattle.orc_rules.specs.Duties.{duty_end, duty_told, duty_took, is_busy, is_over_on, outcome_on, stale_by};
ghost use Rattle.orc_rules.specs.Hubs.{with_changed, duty_on, mend_fault};

use crate::duty::{is_busy, is_over_for, outcome, take_reply, tell};
use orc_call::{RecFault, Why};
use orc_device::Reply;
use orc_recover::Mend;
use orc_rules::Duty;
use orc_worker::Outcome;

/// Takes the reply to the operation due on a device. It returns how the reconciliation of the device ended
/// by it, if it did.
pub fn take_on(
    duties: &mut [Duty],
    stale: &mut [Option<Why>],
    device: u32,
    reply: Reply,
    faults: u64,
) -> Option<Mend>
    requires within { device < length duties.old }
    requires known { device < length stale.old }
    requires busy { IsTrue (is_busy (duty_on duties.old device)) }
    ensures duties { duties.new ≡ with_changed (λ duty. duty_took duty reply faults) device duties.old }
    ensures stale { stale.new ≡ with_changed (stale_by (duty_on duties.old device) reply faults) device stale.old }
    ensures end { result ≡ duty_end (duty_on duties.old device) reply faults }
{
    let before = stale[device as usize];
    let (cause, end) = take_reply(&mut duties[device as usize], before, reply, faults);
    stale[device as usize] = cause;
    end
}

/// The failure by which the reconciliation of a device ended, if it did by one.
pub fn mend_fault(device: u32, end: Option<Mend>) -> Option<RecFault>
    ensures { result ≡ mend_fault device end }
{
    match end {
        Some(Mend::LinkFault(number)) => Some(RecFault::LinkFault { device, number }),
        Some(Mend::Refused(tag)) => Some(RecFault::Refused { device, tag }),
        Some(Mend::Memory) => Some(RecFault::Memory),
        _ => None,
    }
}

/// Tells the decision on a transaction to all devices.
pub fn tell_all(duties: &mut [Duty], t: u64, commit: bool)
    ensures { duties.new ≡ map (duty_told t commit) duties.old }
{
    for device in 0..duties.len() {
        tell(&mut duties[device], t, commit);
    }
}

// Whether nothing is left to do on any of these devices.
fn none_busy(duties: &[Duty]) -> bool
    ensures { result ≡ list_all (λ duty. not (is_busy duty)) duties.now }
{
    duties.iter().all(|duty| !is_busy(duty))
}

/// Whether nothing is left to do on the devices before this one.
pub fn none_busy_before(duties: &[Duty], device: u32) -> bool
    requires { device < length duties.now }
    ensures { result ≡ list_all (λ duty. not (is_busy duty)) (take device duties.now) }
{
    none_busy(&duties[..device as usize])
}

/// The last outcome that the work of a transaction had on a device.
pub fn outcome_on(duties: &[Duty], t: u64, device: u32) -> Option<Outcome>
    ensures { result ≡ outcome_on duties.now t device }
{
    match duties.get(device as usize) {
        Some(duty) => outcome(duty, t),
        None => None,
    }
}

/// Whether the work of a transaction has ended on a device.
pub fn is_over_on(duties: &[Duty], t: u64, device: u32) -> bool
    ensures { result ≡ is_over_on duties.now t device }
{
    match duties.get(device as usize) {
        Some(duty) => is_over_for(duty, t),
        None => false,
    }
}
