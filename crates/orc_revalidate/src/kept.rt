//! Whether a configuration has a row of another one.
ghost use Rattle.std.specs.Prelude.{◌≡◌};
ghost use Rattle.orc_revalidate.specs.inside.Looked.{has_row};

use orc_change::has_item;
use orc_path::{Item, Path};
use orc_tree::Tree;

/// Whether a tree has the row. It costs a search.
pub(crate) fn has_row(tree: &Tree, row: &(Path, Item)) -> bool
    ensures { result ≡ has_row tree.now row.now }
{
    has_item(tree.get(&row.0), &row.1)
}
