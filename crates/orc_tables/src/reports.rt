//! What workers and menders report, as texts.
use crate::items::tag_word;
use crate::shown::Shown;
use crate::undone::Undone;
use orc_recover::Mend;
use orc_worker::{Outcome, Report};

// Adds an outcome.
fn push_outcome(out: &mut Shown, outcome: Outcome) -> Result<(), Undone> {
    match outcome {
        Outcome::Prepared => out.add(&["Prepared"]),
        Outcome::Refused(tag) => out.add(&["Refused ", tag_word(tag)]),
        Outcome::Lost(faults) => out.number("Lost", faults),
        Outcome::Short => out.add(&["Short"]),
        Outcome::Confirmed => out.add(&["Confirmed"]),
        Outcome::Gone => out.add(&["Gone"]),
        Outcome::Cancelled => out.add(&["Cancelled"]),
    }
}

/// Adds what a worker reports.
pub(crate) fn push_report(out: &mut Shown, report: Option<Report>) -> Result<(), Undone> {
    let Some(report) = report else {
        return out.add(&["none"]);
    };
    push_outcome(out, report.outcome)?;
    match report.fault {
        Some(count) => out.number(" fault", count),
        None => Ok(()),
    }
}

/// Adds how a mender ended.
pub(crate) fn push_mend(out: &mut Shown, end: Option<Mend>) -> Result<(), Undone> {
    match end {
        None => out.add(&["none"]),
        Some(Mend::Done) => out.add(&["Done"]),
        Some(Mend::LinkFault(count)) => out.number("LinkFault", count),
        Some(Mend::Refused(tag)) => out.add(&["Refused ", tag_word(tag)]),
        Some(Mend::Memory) => out.add(&["Memory"]),
    }
}
