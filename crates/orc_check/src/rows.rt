//! What the rows of a configuration break.
ghost use Rattle.std.specs.Prelude.{◌≡◌, not, None};
ghost use Rattle.std.specs.List.{fold, flat_map};
ghost use Rattle.std.specs.FinMap.{entries};
ghost use Rattle.orc_check.specs.Validity.{is_of_kind, has_canonical_last_keys, row_breaches, lesser_breach};
ghost use Rattle.orc_check.specs.Found.{found_breach};

use crate::found::{Found, keep_at};
use crate::instances::Instance;
use crate::references::has_dangling;
use crate::rules::{KEY, KIND, LEAFREF};
use orc_path::{Item, Path, Step};
use orc_schema_nodes::Schema;
use orc_tree::Tree;
use orc_typed::{has_canonical_keys, is_canonical_value, is_in_schema};

/// Whether the item is one of the schema, and a leaf's text a canonical one of its type.
pub(crate) fn is_of_kind(schema: &Schema, row: &(Path, Item)) -> bool
    ensures { result ≡ is_of_kind schema.now row.now }
{
    is_in_schema(schema, &row.0, &row.1) && is_canonical_value(schema, &row.0, &row.1)
}

// Whether the keys of the last step are canonical texts of their types.
fn has_canonical_last_keys(schema: &Schema, steps: &[Step]) -> bool
    ensures { result ≡ has_canonical_last_keys schema.now steps.now }
{
    match steps.split_last() {
        Some(parts) => has_canonical_keys(schema, steps, parts.0),
        None => true,
    }
}

/// Whether those of a row's path are.
pub(crate) fn has_row_keys(schema: &Schema, row: &(Path, Item)) -> bool
    ensures { result ≡ has_canonical_last_keys schema.now row.now.0 }
{
    has_canonical_last_keys(schema, row.0.steps.as_slice())
}

// The least breach of a row.
fn least_of_row<'a>(
    schema: &Schema,
    tree: &Tree,
    index: &[Instance<'_>],
    row: &'a (Path, Item),
) -> Option<Found<'a>>
    ensures { found_breach result ≡ fold lesser_breach None (row_breaches schema.now tree.now row.now) }
{
    let kind = is_of_kind(schema, row);
    let keys = has_row_keys(schema, row);
    let dangling = has_dangling(schema, tree, index, row);
    let first = keep_at(None, !kind, &row.0, KIND);
    let second = keep_at(first, !keys, &row.0, KEY);
    keep_at(second, dangling, &row.0, LEAFREF)
}

/// The least breach of the rows: since they stand in path order, it is one of the first row that breaks
/// anything, and no later row is looked at.
pub(crate) fn least_of_rows<'a>(
    schema: &Schema,
    tree: &'a Tree,
    index: &[Instance<'_>],
) -> Option<Found<'a>>
    ensures { found_breach result
        ≡ fold lesser_breach None (flat_map (row_breaches schema.now tree.now) (entries tree.now)) }
{
    for row in tree.rows() {
        let best = least_of_row(schema, tree, index, row);
        if best.is_some() {
            return best;
        }
    }
    None
}
