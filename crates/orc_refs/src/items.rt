//! The items of a tree, as moves bring them.
ghost use Rattle.std.specs.Prelude.{◌≡◌, IfOk};
ghost use Rattle.orc_refs.specs.Moves.{AreWhole, items_of};

use orc_call::Put;
use orc_text::{Memory, Row};
use orc_tree::Tree;
use std::alloc::Global;

/// The items of a tree, in path order. It fails where memory can't be had.
pub fn items_of(alloc: Global, tree: &Tree) -> Result<Row<Put>, Memory>
    ensures items { IfOk result (λ items. items ≡ items_of tree.now) }
    ensures whole { IfOk result AreWhole }
{
    let mut items = Row::from_vec(Vec::with_capacity(alloc, tree.len() as usize)?);
    for row in tree.rows() {
        let path = row.0.copy(alloc)?;
        let item = row.1.copy(alloc)?;
        items.push(Put { path, item })?;
    }
    Ok(items)
}
