//! Change sets and paths of a store as lines of text.
use crate::shown::Shown;
use crate::undone::Undone;
use orc_path::Path;
use orc_refs::{Meta, Refs};
use orc_tree::{Change, ChangeSet};
use std::alloc::Global;

/// How many change sets there were, how many items the smallest and the largest put, and how many
/// removals all have.
#[derive(Clone, Copy)]
pub(crate) struct Tally {
    sets: u64,
    least: u64,
    most: u64,
    removals: u64,
}

impl Tally {
    /// No set.
    pub(crate) fn new() -> Tally {
        Tally {
            sets: 0,
            least: u64::MAX,
            most: 0,
            removals: 0,
        }
    }

    /// One set more.
    pub(crate) fn take(&mut self, set: &ChangeSet) {
        let mut puts: u64 = 0;
        for change in set.changes.as_slice() {
            match change {
                Change::Put(_, _) => puts = puts.saturating_add(1),
                Change::Remove(_) => self.removals = self.removals.saturating_add(1),
            }
        }
        self.sets = self.sets.saturating_add(1);
        if puts < self.least {
            self.least = puts;
        }
        if self.most < puts {
            self.most = puts;
        }
    }
}

/// Adds a tally.
pub(crate) fn push_tally(out: &mut Shown, name: &str, tally: Tally) -> Result<(), Undone> {
    let Tally {
        sets,
        least,
        most,
        removals,
    } = tally;
    let line = format!(in out.alloc;
        "{name}: {sets} sets, {least} to {most} puts each, {removals} removals\n"
    )?;
    out.add(&[line.as_str()])?;
    Ok(())
}

/// Adds a change set, a line for each change.
pub(crate) fn push_set(out: &mut Shown, name: &str, set: &ChangeSet) -> Result<(), Undone> {
    for change in set.changes.as_slice() {
        out.add(&[name])?;
        out.change(": put ", ": remove ", change)?;
        out.add(&["\n"])?;
    }
    Ok(())
}

/// Adds what stands at a path in a store's tree, and what is known of it.
pub(crate) fn push_state(
    out: &mut Shown,
    name: &str,
    refs: &Refs,
    path: &str,
) -> Result<(), Undone> {
    let path = Path::parse(out.alloc, path)?;
    out.add(&[name, ": "])?;
    match refs.tree().get(&path) {
        Some(item) => out.item(&path, item)?,
        None => out.add(&["nothing"])?,
    }
    match refs.meta(&path) {
        Some(meta) => push_meta(out, &path, meta)?,
        None => out.add(&["; no service writes it"])?,
    }
    out.add(&["\n"])?;
    Ok(())
}

fn push_meta(out: &mut Shown, path: &Path, meta: Meta<'_>) -> Result<(), Undone> {
    out.number("; count", meta.count)?;
    out.add(&[", back"])?;
    for id in meta.back {
        out.add(&[" ", id.as_str()])?;
    }
    out.add(&[", original "])?;
    match meta.original {
        Some(item) => out.item(path, item)?,
        None => out.add(&["none"])?,
    }
    Ok(())
}
