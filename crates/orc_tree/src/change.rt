//! Changes of a tree.
ghost use Rattle.std.specs.Prelude.{◌≡◌, ◌∷◌, [], IfOk, OnOk, OnErr, IsTrue};
ghost use Rattle.std.specs.List.{list_all};
ghost use Rattle.orc_path.specs.Configurations.{IsConfig};
ghost use Rattle.orc_tree.specs.Changes.{applied, drop_each, put_each, change_fits};

use crate::finger::Finger;
use crate::tree::Tree;
use orc_path::{Item, Path};
use orc_text::{Copied, Memory, Row};
use std::alloc::Global;

/// The item that a path gets, or that a path loses its item.
#[derive(Debug, PartialEq, Eq, Drop)]
pub enum Change {
    Put(Path, Item),
    Remove(Path),
}

impl Change {
    /// An equal change.
    pub fn copy(&self, alloc: Global) -> Result<Change, Memory>
        ensures { IfOk result (λ change. change ≡ self.now) }
    {
        match self {
            Change::Put(path, item) => Ok(Change::Put(path.copy(alloc)?, item.copy(alloc)?)),
            Change::Remove(path) => Ok(Change::Remove(path.copy(alloc)?)),
        }
    }
}

impl Copied for Change {
    fn copied(&self, alloc: Global) -> Result<Change, Memory> {
        self.copy(alloc)
    }
}

/// Changes of a tree. Whatever their order is, the removals are done first.
#[derive(Debug, PartialEq, Eq, Drop)]
pub struct ChangeSet {
    pub changes: Row<Change>,
}

impl ChangeSet {
    /// An equal set.
    pub fn copy(&self, alloc: Global) -> Result<ChangeSet, Memory>
        ensures { IfOk result (λ set. set ≡ self.now) }
    {
        Ok(ChangeSet {
            changes: self.changes.copy(alloc)?,
        })
    }
}

impl Copied for ChangeSet {
    fn copied(&self, alloc: Global) -> Result<ChangeSet, Memory> {
        self.copy(alloc)
    }
}

// Removes what a change removes.
fn drop_change(tree: &mut Tree, finger: &mut Finger, change: &Change) -> Result<(), Memory>
    ensures { OnOk result (tree.new ≡ drop_each (change.now ∷ []) tree.old) }
{
    match change {
        Change::Put(_, _) => Ok(()),
        Change::Remove(path) => tree.remove_near(finger, path),
    }
}

// Removes what the removals among the changes remove.
fn drop_each(tree: &mut Tree, changes: &[Change]) -> Result<(), Memory>
    ensures { OnOk result (tree.new ≡ drop_each changes.now tree.old) }
{
    let mut finger = Finger::new();
    for change in changes {
        drop_change(tree, &mut finger, change)?;
    }
    Ok(())
}

// Sets the item that a change puts.
fn put_change(
    alloc: Global,
    tree: &mut Tree,
    finger: &mut Finger,
    change: &Change,
) -> Result<(), Memory>
    requires fits { IsTrue (change_fits change.now) }
    ensures { OnOk result (tree.new ≡ put_each (change.now ∷ []) tree.old) }
{
    match change {
        Change::Put(path, item) => tree.set_near(finger, path.copy(alloc)?, item.copy(alloc)?),
        Change::Remove(_) => Ok(()),
    }
}

// Sets the items that the changes put.
fn put_each(alloc: Global, tree: &mut Tree, changes: &[Change]) -> Result<(), Memory>
    requires fits { IsTrue (list_all change_fits changes.now) }
    ensures { OnOk result (tree.new ≡ put_each changes.now tree.old) }
{
    let mut finger = Finger::new();
    for change in changes {
        put_change(alloc, tree, &mut finger, change)?;
    }
    Ok(())
}

// A copy of a tree with changes applied.
fn applied_to(alloc: Global, tree: &Tree, changes: &[Change]) -> Result<Tree, Memory>
    requires fits { IsTrue (list_all change_fits changes.now) }
    ensures applied { IfOk result (λ new. new ≡ applied changes.now tree.now) }
    ensures config { IsConfig tree.now }
    ensures new { IfOk result IsConfig }
{
    let mut new = tree.copy(alloc)?;
    drop_each(&mut new, changes)?;
    put_each(alloc, &mut new, changes)?;
    // What is read of a tree says that it is a configuration.
    let _chapters = new.chapters();
    Ok(new)
}

// Applies changes to a tree. Where memory runs out, it is as it was.
pub(crate) fn apply_to(alloc: Global, tree: &mut Tree, set: &ChangeSet) -> Result<(), Memory>
    requires fits { IsTrue (list_all change_fits set.now.changes) }
    ensures ok { OnOk result (tree.new ≡ applied set.now.changes tree.old) }
    ensures err { OnErr result (tree.new ≡ tree.old) }
    ensures config { IsConfig tree.new }
{
    let new = applied_to(alloc, tree, set.changes.as_slice())?;
    *tree = new;
    Ok(())
}
