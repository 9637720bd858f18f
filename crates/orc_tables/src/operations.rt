//! Operations on devices, and replies, as texts.
use crate::items::{changes_of, tag_of, tag_word, tree_of};
use crate::line::first_word;
use crate::shown::Shown;
use crate::undone::Undone;
use orc_device::{Mark, Op, OpKind, Reply, When};
use orc_tree::{ChangeSet, Tree};
use std::alloc::Global;

/// The operation of a text: its name, with its persist id, seconds or changes.
pub(crate) fn op_of(alloc: Global, text: &str) -> Result<Op, Undone> {
    let (name, rest) = first_word(text);
    match name {
        "Edit" => Ok(Op::Edit(changes_of(alloc, rest)?)),
        "CommitConfirmed" => {
            let (id, seconds) = first_word(rest);
            Ok(Op::CommitConfirmed(id.parse()?, seconds.parse()?))
        }
        "Confirm" => Ok(Op::Confirm(rest.parse()?)),
        "Cancel" => Ok(Op::Cancel(rest.parse()?)),
        _ => plain_op(name),
    }
}

// The operation of a name alone.
fn plain_op(name: &str) -> Result<Op, Undone> {
    match name {
        "OpenSession" => Ok(Op::OpenSession),
        "LockRunning" => Ok(Op::LockRunning),
        "LockCandidate" => Ok(Op::LockCandidate),
        "Validate" => Ok(Op::Validate),
        "Commit" => Ok(Op::Commit),
        "Discard" => Ok(Op::Discard),
        "UnlockCandidate" => Ok(Op::UnlockCandidate),
        "UnlockRunning" => Ok(Op::UnlockRunning),
        "CloseSession" => Ok(Op::CloseSession),
        "GetRunning" => Ok(Op::GetRunning),
        _ => Err(Undone),
    }
}

/// The kind of operations of a name.
pub(crate) fn kind_of(name: &str) -> Result<OpKind, Undone> {
    match name {
        "OpenSession" => Ok(OpKind::OpenSession),
        "LockRunning" => Ok(OpKind::LockRunning),
        "LockCandidate" => Ok(OpKind::LockCandidate),
        "Edit" => Ok(OpKind::Edit),
        "Validate" => Ok(OpKind::Validate),
        "CommitConfirmed" => Ok(OpKind::CommitConfirmed),
        "Commit" => Ok(OpKind::Commit),
        _ => later_kind(name),
    }
}

// The kind of operations of one of the other names.
fn later_kind(name: &str) -> Result<OpKind, Undone> {
    match name {
        "Confirm" => Ok(OpKind::Confirm),
        "Cancel" => Ok(OpKind::Cancel),
        "Discard" => Ok(OpKind::Discard),
        "UnlockCandidate" => Ok(OpKind::UnlockCandidate),
        "UnlockRunning" => Ok(OpKind::UnlockRunning),
        "CloseSession" => Ok(OpKind::CloseSession),
        "GetRunning" => Ok(OpKind::GetRunning),
        _ => Err(Undone),
    }
}

/// Whether a listed operation fails before it takes effect, or after.
pub(crate) fn when_of(word: &str) -> Result<When, Undone> {
    match word {
        "before" => Ok(When::Before),
        "after" => Ok(When::After),
        _ => Err(Undone),
    }
}

/// The reply of a text: `Ok`, `Tree ITEMS`, a tag, `Fault` or `Memory`.
pub(crate) fn reply_of(alloc: Global, text: &str) -> Result<Reply, Undone> {
    let (name, rest) = first_word(text);
    match name {
        "Ok" => Ok(Reply::Ok),
        "Tree" => Ok(Reply::Tree(tree_of(alloc, rest)?)),
        "Fault" => Ok(Reply::Fault),
        "Memory" => Ok(Reply::Memory),
        _ => Ok(Reply::Refused(tag_of(name)?)),
    }
}

// What stands before an item or a change.
fn bar(first: bool) -> &'static str {
    if first { " " } else { " | " }
}

// Adds the items of a configuration.
fn push_tree(out: &mut Shown, tree: &Tree) -> Result<(), Undone> {
    let mut first = true;
    for row in tree.rows() {
        out.add(&[bar(first)])?;
        out.item(&row.0, &row.1)?;
        first = false;
    }
    Ok(())
}

// Adds changes.
fn push_set(out: &mut Shown, set: &ChangeSet) -> Result<(), Undone> {
    let mut first = true;
    for change in set.changes.as_slice() {
        out.add(&[bar(first)])?;
        out.change("+ ", "- ", change)?;
        first = false;
    }
    Ok(())
}

// The name of an operation that has nothing else.
fn op_word(op: &Op) -> &'static str {
    match op {
        Op::OpenSession => "OpenSession",
        Op::LockRunning => "LockRunning",
        Op::LockCandidate => "LockCandidate",
        Op::Validate => "Validate",
        Op::Commit => "Commit",
        Op::Discard => "Discard",
        Op::UnlockCandidate => "UnlockCandidate",
        Op::UnlockRunning => "UnlockRunning",
        Op::CloseSession => "CloseSession",
        Op::GetRunning => "GetRunning",
        _ => "",
    }
}

/// Adds an operation.
pub(crate) fn push_op(out: &mut Shown, op: &Op) -> Result<(), Undone> {
    match op {
        Op::Edit(set) => {
            out.add(&["Edit"])?;
            push_set(out, set)
        }
        Op::CommitConfirmed(id, seconds) => {
            out.number("CommitConfirmed", *id)?;
            out.number("", u64::from(*seconds))
        }
        Op::Confirm(id) => out.number("Confirm", *id),
        Op::Cancel(id) => out.number("Cancel", *id),
        _ => out.add(&[op_word(op)]),
    }
}

// Adds a reply.
fn push_reply(out: &mut Shown, reply: &Reply) -> Result<(), Undone> {
    match reply {
        Reply::Ok => out.add(&["Ok"]),
        Reply::Tree(tree) => {
            out.add(&["Tree"])?;
            push_tree(out, tree)
        }
        Reply::Refused(tag) => out.add(&[tag_word(*tag)]),
        Reply::Fault => out.add(&["Fault"]),
        Reply::Memory => out.add(&["Memory"]),
    }
}

/// The word of a reply without its tree.
pub(crate) fn mark_word(mark: Mark) -> &'static str {
    match mark {
        Mark::Ok => "Ok",
        Mark::Tree => "Tree",
        Mark::Refused(tag) => tag_word(tag),
        Mark::Fault => "Fault",
        Mark::Memory => "Memory",
    }
}

/// Whether the reply is that of a text.
pub(crate) fn is_reply(alloc: Global, reply: &Reply, text: &str) -> Result<bool, Undone> {
    let mut shown = Shown::new(alloc);
    push_reply(&mut shown, reply)?;
    Ok(shown.as_str() == text)
}

/// Whether the operation is that of a text, which is `none` where there is none.
pub(crate) fn is_op(alloc: Global, op: Option<&Op>, text: &str) -> Result<bool, Undone> {
    let mut shown = Shown::new(alloc);
    match op {
        Some(op) => push_op(&mut shown, op)?,
        None => shown.add(&["none"])?,
    }
    Ok(shown.as_str() == text)
}
