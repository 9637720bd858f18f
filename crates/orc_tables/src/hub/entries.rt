//! Failures of reconciliations, and entries, as texts.

use crate::items::tag_word;
use crate::shown::{Shown, name_of};
use crate::undone::Undone;
use orc_call::{Call, RecFault};
use orc_journal::Entry;
use orc_text::Text;

/// Adds the failure by which a reconciliation ended.
pub(crate) fn push_fault(out: &mut Shown, names: &[Text], fault: RecFault) -> Result<(), Undone> {
    match fault {
        RecFault::LinkFault { device, number } => {
            out.add(&["LinkFault "])?;
            out.number(name_of(names, device)?, number)
        }
        RecFault::Refused { device, tag } => {
            out.add(&["Refused ", name_of(names, device)?])?;
            out.add(&[" ", tag_word(tag)])
        }
        RecFault::Full { len } => out.number("Full", len),
        RecFault::DiskFault => out.add(&["DiskFault"]),
        RecFault::Memory => out.add(&["Memory"]),
    }
}

// Adds the Intent of a transaction.
fn push_intent(
    out: &mut Shown,
    names: &[Text],
    t: u64,
    call: &Call,
    devices: &[u32],
) -> Result<(), Undone> {
    out.number("Intent", t)?;
    out.add(&[" "])?;
    out.number(call.caller.as_str(), call.number)?;
    for device in devices {
        out.add(&[" ", name_of(names, *device)?])?;
    }
    Ok(())
}

// Adds an entry.
fn push_entry(out: &mut Shown, names: &[Text], entry: &Entry) -> Result<(), Undone> {
    match entry {
        Entry::Intent { t, call, devices } => {
            push_intent(out, names, *t, call, devices.as_slice())
        }
        Entry::Decide { t } => out.number("Decide", *t),
        Entry::Abort { t } => out.number("Abort", *t),
        Entry::Settled { t } => out.number("Settled", *t),
    }
}

/// Adds entries, or `none`.
pub(crate) fn push_entries(
    out: &mut Shown,
    names: &[Text],
    entries: &[Entry],
) -> Result<(), Undone> {
    if entries.is_empty() {
        out.add(&["none"])?;
    }
    for (place, entry) in entries.iter().enumerate() {
        if place > 0 {
            out.add(&[" | "])?;
        }
        push_entry(out, names, entry)?;
    }
    Ok(())
}
