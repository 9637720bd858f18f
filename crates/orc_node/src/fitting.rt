//! Which changes of a configuration a device takes.
ghost use Rattle.std.specs.Prelude.{◌≡◌};
ghost use Rattle.std.specs.List.{list_all};
ghost use Rattle.orc_node.specs.Kinds.{change_stands, set_stands};

use orc_schema_nodes::Schema;
use orc_tree::{Change, ChangeSet};
use orc_typed::{has_place, is_typed};

// Whether a device of the schema takes the change.
fn change_stands(schema: &Schema, change: &Change) -> bool
    ensures { result ≡ change_stands schema.now change.now }
{
    match change {
        Change::Put(path, item) => is_typed(schema, path, item) && item.fits(path),
        Change::Remove(path) => has_place(schema, path),
    }
}

fn changes_stand(schema: &Schema, changes: &[Change]) -> bool
    ensures { result ≡ list_all (change_stands schema.now) changes.now }
{
    changes.iter().all(|change| change_stands(schema, change))
}

/// Whether a device of the schema takes the changes. It takes no memory.
pub(crate) fn set_stands(schema: &Schema, set: &ChangeSet) -> bool
    ensures { result ≡ set_stands schema.now set.now }
{
    changes_stand(schema, set.changes.as_slice())
}
