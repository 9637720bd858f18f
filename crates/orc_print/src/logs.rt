//! The operations of a device.
ghost use Rattle.std.specs.Prelude.{◌≡◌, IfOk};
ghost use Rattle.std.specs.List.{flat_map};
ghost use Rattle.orc_print.specs.inside.Adding.{Adds};
ghost use Rattle.orc_print.specs.Logs.{change_lines, log_text, mark_word, operation_words, performed_lines, persist_words, put_lines, removal_lines};

use crate::causes::tag_word;
use orc_device::{Logged, Mark, Op};
use orc_path::push_item;
use orc_text::{Memory, Text};
use orc_tree::Change;
use std::alloc::Global;

/// The group `log` of a device: its name, the operations that were performed there, each with what was
/// replied to it and, under an edit, its changes, and an end line.
pub fn log(alloc: Global, name: &Text, ops: &[Logged]) -> Result<Vec<u8>, Memory>
    ensures { IfOk result (λ bytes. bytes.items ≡ log_text name.now ops.now) }
{
    let mut out = String::from_str(alloc, "log ")?;
    out.push_str(name.as_str())?;
    out.push_str("\n")?;
    push_operations(&mut out, alloc, ops)?;
    out.push_str("end\n")?;
    Ok(out.into_bytes())
}

// The lines of operations.
fn push_operations(out: &mut String, alloc: Global, ops: &[Logged]) -> Result<(), Memory>
    ensures { Adds result out.old out.new (flat_map performed_lines ops.now) }
{
    for row in ops {
        push_performed(out, alloc, row)?;
    }
    Ok(())
}

// The lines of an operation that was performed.
fn push_performed(out: &mut String, alloc: Global, row: &Logged) -> Result<(), Memory>
    ensures { Adds result out.old out.new (performed_lines row.now) }
{
    push_operation(out, alloc, &row.op)?;
    out.push_str(" ")?;
    out.push_str(mark_word(row.mark))?;
    out.push_str("\n")?;
    push_changes(out, alloc, &row.op)
}

// An operation.
fn push_operation(out: &mut String, alloc: Global, op: &Op) -> Result<(), Memory>
    ensures { Adds result out.old out.new (operation_words op.now) }
{
    match op {
        Op::OpenSession => out.push_str("OpenSession")?,
        Op::LockRunning => out.push_str("LockRunning")?,
        Op::LockCandidate => out.push_str("LockCandidate")?,
        Op::Edit(_) => out.push_str("Edit")?,
        Op::Validate => out.push_str("Validate")?,
        Op::CommitConfirmed(t, seconds) => {
            out.push_str("CommitConfirmed ")?;
            push_persist(out, alloc, *t)?;
            out.push_str(" ")?;
            out.push_str(seconds.to_string(alloc)?.as_str())?;
        }
        Op::Commit => out.push_str("Commit")?,
        Op::Confirm(t) => {
            out.push_str("Confirm ")?;
            push_persist(out, alloc, *t)?;
        }
        Op::Cancel(t) => {
            out.push_str("Cancel ")?;
            push_persist(out, alloc, *t)?;
        }
        Op::Discard => out.push_str("Discard")?,
        Op::UnlockCandidate => out.push_str("UnlockCandidate")?,
        Op::UnlockRunning => out.push_str("UnlockRunning")?,
        Op::CloseSession => out.push_str("CloseSession")?,
        Op::GetRunning => out.push_str("GetRunning")?,
    }
    Ok(())
}

// The persist id of a transaction.
fn push_persist(out: &mut String, alloc: Global, t: u64) -> Result<(), Memory>
    ensures { Adds result out.old out.new (persist_words t) }
{
    out.push_str("orc-")?;
    out.push_str(t.to_string(alloc)?.as_str())?;
    Ok(())
}

// How an operation was replied to.
fn mark_word(mark: Mark) -> &'static str
    ensures { result.now ≡ mark_word mark }
{
    match mark {
        Mark::Ok => "Ok",
        Mark::Tree => "Tree",
        Mark::Refused(tag) => tag_word(tag),
        Mark::Fault => "Fault",
        Mark::Memory => "Memory",
    }
}

// The changes of an edit, those that remove before those that put.
fn push_changes(out: &mut String, alloc: Global, op: &Op) -> Result<(), Memory>
    ensures { Adds result out.old out.new (change_lines op.now) }
{
    match op {
        Op::Edit(set) => {
            push_removals(out, alloc, set.changes.as_slice())?;
            push_puts(out, alloc, set.changes.as_slice())
        }
        _ => Ok(()),
    }
}

// What an edit removes.
fn push_removals(out: &mut String, alloc: Global, changes: &[Change]) -> Result<(), Memory>
    ensures { Adds result out.old out.new (flat_map removal_lines changes.now) }
{
    for change in changes {
        push_removal(out, alloc, change)?;
    }
    Ok(())
}

// A change that removes.
fn push_removal(out: &mut String, alloc: Global, change: &Change) -> Result<(), Memory>
    ensures { Adds result out.old out.new (removal_lines change.now) }
{
    match change {
        Change::Put(_, _) => {}
        Change::Remove(path) => {
            out.push_str("  - ")?;
            out.push_str(path.text(alloc)?.as_str())?;
            out.push_str("\n")?;
        }
    }
    Ok(())
}

// What an edit puts.
fn push_puts(out: &mut String, alloc: Global, changes: &[Change]) -> Result<(), Memory>
    ensures { Adds result out.old out.new (flat_map put_lines changes.now) }
{
    for change in changes {
        push_put(out, alloc, change)?;
    }
    Ok(())
}

// A change that puts.
fn push_put(out: &mut String, alloc: Global, change: &Change) -> Result<(), Memory>
    ensures { Adds result out.old out.new (put_lines change.now) }
{
    match change {
        Change::Put(path, item) => {
            out.push_str("  + ")?;
            push_item(out, alloc, path, item)?;
            out.push_str("\n")?;
        }
        Change::Remove(_) => {}
    }
    Ok(())
}
