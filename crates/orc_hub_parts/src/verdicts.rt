//! What the outcomes of preparing come to.
ghost use Rattle.std.specs.Prelude.{◌≡◌, Some, None, if◌then◌else◌};
ghost use Rattle.std.specs.List.{list_any};
ghost use Rattle.orc_rules.specs.Duties.{outcome_on};
ghost use Rattle.orc_rules.specs.Verdicts.{are_heard, first_answer, is_short, lost_answer, refused_by, verdict};

use crate::duties::outcome_on;
use orc_call::Answer;
use orc_rules::Duty;
use orc_worker::Outcome;

// Whether memory ran out.
fn is_short(outcome: Option<Outcome>) -> bool
    ensures { result ≡ is_short outcome }
{
    match outcome {
        Some(Outcome::Short) => true,
        _ => false,
    }
}

// The answer where a device refused.
fn refused_by(device: u32, outcome: Option<Outcome>) -> Option<Answer>
    ensures { result ≡ refused_by device outcome }
{
    match outcome {
        Some(Outcome::Refused(tag)) => Some(Answer::Refused(device, tag)),
        _ => None,
    }
}

// The answer where its link failed.
fn lost_answer(device: u32, outcome: Option<Outcome>) -> Option<Answer>
    ensures { result ≡ lost_answer device outcome }
{
    match outcome {
        Some(Outcome::Lost(count)) => Some(Answer::LinkFault(device, count)),
        _ => None,
    }
}

// Whether memory ran out on one of the devices.
fn any_short(duties: &[Duty], t: u64, devices: &[u32]) -> bool
    ensures { result ≡ list_any (λ device. is_short (outcome_on duties.now t device)) devices.now }
{
    devices
        .iter()
        .any(|device| is_short(outcome_on(duties, t, *device)))
}

// The first of the devices that refused.
fn first_refused(duties: &[Duty], t: u64, devices: &[u32]) -> Option<Answer>
    ensures { result ≡ first_answer refused_by duties.now t devices.now }
{
    for device in devices {
        let found = refused_by(*device, outcome_on(duties, t, *device));
        if found.is_some() {
            return found;
        }
    }
    None
}

// The first of the devices whose link failed.
fn first_lost(duties: &[Duty], t: u64, devices: &[u32]) -> Option<Answer>
    ensures { result ≡ first_answer lost_answer duties.now t devices.now }
{
    for device in devices {
        let found = lost_answer(*device, outcome_on(duties, t, *device));
        if found.is_some() {
            return found;
        }
    }
    None
}

/// Why a transaction on these devices is given up, if it is.
pub fn verdict(duties: &[Duty], t: u64, devices: &[u32]) -> Option<Answer>
    ensures { result ≡ verdict duties.now t devices.now }
{
    if any_short(duties, t, devices) {
        return Some(Answer::Memory);
    }
    let refused = first_refused(duties, t, devices);
    match refused {
        Some(answer) => Some(answer),
        None => first_lost(duties, t, devices),
    }
}

/// Whether each of the devices has its outcome.
pub fn are_heard(duties: &[Duty], t: u64, devices: &[u32]) -> bool
    ensures { result ≡ are_heard duties.now t devices.now }
{
    devices
        .iter()
        .all(|device| outcome_on(duties, t, *device).is_some())
}
