//! Calls, plans and refusals as lines.

use orc_call::{Answer, Call, Put};
use orc_datastore::Plan;
use orc_expr::{Read, Target};
use orc_path::{Write, push_item};
use orc_text::{Memory, Text};
use orc_tree::{Change, ChangeSet};
use std::alloc::Global;

// Adds a line of two words, set in.
fn push_line(out: &mut String, word: &str, rest: &str) -> Result<(), Memory> {
    out.push_str("  ")?;
    out.push_str(word)?;
    out.push_str(" ")?;
    out.push_str(rest)?;
    out.push_str("\n")?;
    Ok(())
}

/// Adds the caller and the number of a call.
pub(crate) fn push_call(alloc: Global, out: &mut String, call: &Call) -> Result<(), Memory> {
    out.push_str(call.caller.as_str())?;
    out.push_str(" ")?;
    out.push_str(call.number.to_string(alloc)?.as_str())?;
    out.push_str("\n")?;
    Ok(())
}

/// Adds the number of the entry that a call is.
pub(crate) fn push_number(alloc: Global, out: &mut String, number: u64) -> Result<(), Memory> {
    push_line(out, "Committed", number.to_string(alloc)?.as_str())
}

/// Adds why a call can't be planned or committed.
pub(crate) fn push_answer(alloc: Global, out: &mut String, answer: &Answer) -> Result<(), Memory> {
    match answer {
        Answer::Exists(id) => push_line(out, "Exists", id.as_str()),
        Answer::Missing(id) => push_line(out, "Missing", id.as_str()),
        Answer::Invalid(path, _) => push_line(out, "Invalid", path.text(alloc)?.as_str()),
        Answer::Expand(id, _, _) => push_line(out, "Expand", id.as_str()),
        Answer::Clash(_, path, _) => push_line(out, "Clash", path.text(alloc)?.as_str()),
        Answer::Conflict(number, write) => push_conflict(alloc, out, *number, write),
        Answer::Committed(number) => push_number(alloc, out, *number),
        Answer::Reused(number) => push_line(out, "Reused", number.to_string(alloc)?.as_str()),
        _ => push_line(out, "refused", ""),
    }
}

// Adds the entry that wrote what was read, and its write.
fn push_conflict(
    alloc: Global,
    out: &mut String,
    number: u64,
    write: &Write,
) -> Result<(), Memory> {
    out.push_str("  Conflict ")?;
    out.push_str(number.to_string(alloc)?.as_str())?;
    match write {
        Write::At(path) => {
            out.push_str(" ")?;
            out.push_str(path.text(alloc)?.as_str())?;
        }
        Write::Service(id) => {
            out.push_str(" service ")?;
            out.push_str(id.as_str())?;
        }
    }
    out.push_str("\n")?;
    Ok(())
}

/// Adds what a call changes on each device.
pub(crate) fn push_changes(
    alloc: Global,
    out: &mut String,
    names: &[Text],
    sets: &[(u32, ChangeSet)],
) -> Result<(), Memory> {
    for set in sets {
        let name = name_of(names, set.0);
        if set.1.changes.is_empty() {
            push_line(out, "changes nothing on", name)?;
        } else {
            push_line(out, "changes", name)?;
        }
        for change in set.1.changes.as_slice() {
            push_change(alloc, out, change)?;
        }
    }
    Ok(())
}

// Adds a change.
fn push_change(alloc: Global, out: &mut String, change: &Change) -> Result<(), Memory> {
    match change {
        Change::Put(path, item) => {
            out.push_str("    put ")?;
            push_item(out, alloc, path, item)?;
        }
        Change::Remove(path) => {
            out.push_str("    remove ")?;
            out.push_str(path.text(alloc)?.as_str())?;
        }
    }
    out.push_str("\n")?;
    Ok(())
}

// The name of the device of a number.
fn name_of(names: &[Text], device: u32) -> &str {
    match names.get(device as usize) {
        Some(name) => name.as_str(),
        None => "",
    }
}

/// Adds a plan: its front; the devices, services, reads and targets that the call holds; and the expansions.
pub(crate) fn push_plan(
    alloc: Global,
    out: &mut String,
    plan: &Plan,
    names: &[Text],
) -> Result<(), Memory> {
    push_line(out, "front", plan.front.to_string(alloc)?.as_str())?;
    for device in plan.held.devices.as_slice() {
        push_line(out, "device", name_of(names, *device))?;
    }
    for id in plan.held.services.as_slice() {
        push_line(out, "service", id.as_str())?;
    }
    for read in plan.held.reads.reads.as_slice() {
        push_read(alloc, out, read)?;
    }
    for target in plan.held.targets.as_slice() {
        push_target(alloc, out, target)?;
    }
    for it in plan.expansions.as_slice() {
        push_line(out, "expansion of", it.0.as_str())?;
        for part in it.1.parts.as_slice() {
            push_puts(alloc, out, name_of(names, part.0), part.1.as_slice())?;
        }
    }
    Ok(())
}

// Adds what is read.
fn push_read(alloc: Global, out: &mut String, read: &Read) -> Result<(), Memory> {
    match read {
        Read::Item(path) => push_line(out, "reads", path.text(alloc)?.as_str()),
        Read::Keys(path) => push_line(out, "reads the entries of", path.text(alloc)?.as_str()),
        Read::Service(id) => push_line(out, "reads whether there is", id.as_str()),
    }
}

// Adds where something may be written.
fn push_target(alloc: Global, out: &mut String, target: &Target) -> Result<(), Memory> {
    match target {
        Target::One(path) => push_line(out, "may write", path.text(alloc)?.as_str()),
        Target::Under(path) => push_line(out, "may write below", path.text(alloc)?.as_str()),
    }
}

// Adds the items of a device.
fn push_puts(alloc: Global, out: &mut String, name: &str, puts: &[Put]) -> Result<(), Memory> {
    for put in puts {
        out.push_str("    ")?;
        out.push_str(name)?;
        out.push_str(" ")?;
        push_item(out, alloc, &put.path, &put.item)?;
        out.push_str("\n")?;
    }
    Ok(())
}
