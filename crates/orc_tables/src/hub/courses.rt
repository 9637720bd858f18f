//! Courses of operations on a device that all get `Ok`.

use crate::hub::kept::Kept;
use crate::hub::steps::{device_of, does};
use crate::line::first_word;
use crate::undone::Undone;
use std::alloc::Global;

// The operation of a text is due on a device, and gets `Ok`.
fn goes(alloc: Global, hub: &mut Kept, device: u32, text: &str) -> Result<bool, Undone> {
    does(alloc, hub, device, text, "Ok", 0)
}

// The operations of these texts are due on a device one by one, and get `Ok`.
fn go_all(alloc: Global, hub: &mut Kept, device: u32, texts: &[&str]) -> Result<bool, Undone> {
    let mut good = true;
    for text in texts {
        good = goes(alloc, hub, device, text)? && good;
    }
    Ok(good)
}

// An edit with these changes.
fn edit_of(alloc: Global, changes: &str) -> Result<String, Undone> {
    if changes.is_empty() {
        return Ok(String::from_str(alloc, "Edit")?);
    }
    Ok(format!(in alloc; "Edit {changes}")?)
}

/// A transaction is prepared on a device, as `D T CHANGES`.
pub(crate) fn prepares(alloc: Global, hub: &mut Kept, rest: &str) -> Result<bool, Undone> {
    let (name, later) = first_word(rest);
    let (t, changes) = first_word(later);
    let device = device_of(alloc, hub, name)?;
    let edit = edit_of(alloc, changes)?;
    let commit = format!(in alloc; "CommitConfirmed {t} 120")?;
    let texts = [
        "OpenSession",
        "LockRunning",
        "LockCandidate",
        edit.as_str(),
        "Validate",
        commit.as_str(),
    ];
    go_all(alloc, hub, device, &texts)
}

// What a prepared worker does after the decision.
fn ends_by(alloc: Global, hub: &mut Kept, rest: &str, word: &str) -> Result<bool, Undone> {
    let (name, t) = first_word(rest);
    let device = device_of(alloc, hub, name)?;
    let first = format!(in alloc; "{word} {t}")?;
    let texts = [
        first.as_str(),
        "UnlockCandidate",
        "UnlockRunning",
        "CloseSession",
    ];
    go_all(alloc, hub, device, &texts)
}

/// A transaction is confirmed on a device, as `D T`.
pub(crate) fn confirms(alloc: Global, hub: &mut Kept, rest: &str) -> Result<bool, Undone> {
    ends_by(alloc, hub, rest, "Confirm")
}

/// A prepared transaction is cancelled on a device, as `D T`.
pub(crate) fn cancels(alloc: Global, hub: &mut Kept, rest: &str) -> Result<bool, Undone> {
    ends_by(alloc, hub, rest, "Cancel")
}

// What a reconciliation does for a transaction, as `T commit` or `T abort`.
fn resolves(alloc: Global, hub: &mut Kept, device: u32, intent: &str) -> Result<bool, Undone> {
    let (t, word) = first_word(intent);
    let name = match word {
        "commit" => "Confirm",
        "abort" => "Cancel",
        _ => return Err(Undone),
    };
    let text = format!(in alloc; "{name} {t}")?;
    goes(alloc, hub, device, text.as_str())
}

// What a reconciliation does for these transactions, which may be `none`.
fn resolve_all(alloc: Global, hub: &mut Kept, device: u32, intents: &str) -> Result<bool, Undone> {
    if intents == "none" {
        return Ok(true);
    }
    let mut good = true;
    for intent in intents.split(", ") {
        good = resolves(alloc, hub, device, intent)? && good;
    }
    Ok(good)
}

/// A reconciliation finds a device as it is to be, as `D INTENTS > ITEMS`, or
/// `D INTENTS` where that is empty.
pub(crate) fn agrees(alloc: Global, hub: &mut Kept, rest: &str) -> Result<bool, Undone> {
    let (asked, items) = rest.split_once(" > ").unwrap_or((rest, ""));
    let (name, intents) = first_word(asked);
    let device = device_of(alloc, hub, name)?;
    let is_open = goes(alloc, hub, device, "OpenSession")?;
    let are_resolved = resolve_all(alloc, hub, device, intents)?;
    let reply = format!(in alloc; "Tree {items}")?;
    let is_as_due = does(alloc, hub, device, "GetRunning", reply.as_str(), 0)?;
    let is_closed = goes(alloc, hub, device, "CloseSession")?;
    Ok(is_open && are_resolved && is_as_due && is_closed)
}
