//! The base with edits done.
ghost use Rattle.std.specs.Prelude.{◌≡◌, ◌∷◌, [], IfOk, OnOk, IsTrue};
ghost use Rattle.std.specs.List.{list_all};
ghost use Rattle.orc_path.specs.Configurations.{IsConfig};
ghost use Rattle.orc_change.specs.Differences.{difference};
ghost use Rattle.orc_refs.specs.Moves.{edit_fits, edited};

use crate::BaseEdit;
use orc_change::between;
use orc_text::{Memory, Row};
use orc_tree::{ChangeSet, Tree};
use std::alloc::Global;

// Does an edit.
fn do_edit(alloc: Global, tree: &mut Tree, edit: &BaseEdit) -> Result<(), Memory>
    requires fits { IsTrue (edit_fits edit.now) }
    ensures edited { OnOk result (tree.new ≡ edited (edit.now ∷ []) tree.old) }
    ensures config { OnOk result (IsConfig tree.new) }
{
    match edit {
        BaseEdit::Put(put) => tree.set(put.path.copy(alloc)?, put.item.copy(alloc)?),
        BaseEdit::Remove(path) => tree.remove(path),
    }
}

// A copy of the base with the edits done in order.
fn edited(alloc: Global, base: &Tree, edits: &[BaseEdit]) -> Result<Tree, Memory>
    requires fits { IsTrue (list_all edit_fits edits.now) }
    ensures edited { IfOk result (λ tree. tree ≡ edited edits.now base.now) }
    ensures config { IfOk result IsConfig }
{
    let mut tree = base.copy(alloc)?;
    for edit in edits {
        do_edit(alloc, &mut tree, edit)?;
    }
    Ok(tree)
}

// An edited base, and where it differs from the base.
#[derive(Drop)]
pub(crate) struct NewBase {
    pub(crate) tree: Tree,
    pub(crate) set: ChangeSet,
}

// Where an edited base differs from the base. Where there is no edit no row is looked at.
fn changed(alloc: Global, base: &Tree, tree: &Tree, edits: &[BaseEdit]) -> Result<ChangeSet, Memory>
    requires edited { tree.now ≡ edited edits.now base.now }
    ensures { IfOk result (λ set. set.changes ≡ difference base.now tree.now) }
{
    if edits.is_empty() {
        let changes = Row::new(alloc);
        return Ok(ChangeSet { changes });
    }
    between(alloc, base, tree)
}

// The base with the edits done in order, and where it differs from the base.
pub(crate) fn new_base(alloc: Global, base: &Tree, edits: &[BaseEdit]) -> Result<NewBase, Memory>
    requires fits { IsTrue (list_all edit_fits edits.now) }
    ensures edited { IfOk result (λ new. new.tree ≡ edited edits.now base.now) }
    ensures config { IfOk result (λ new. IsConfig new.tree) }
    ensures changes { IfOk result (λ new. new.set.changes ≡ difference base.now new.tree) }
{
    let tree = edited(alloc, base, edits)?;
    let set = changed(alloc, base, &tree, edits)?;
    Ok(NewBase { tree, set })
}
