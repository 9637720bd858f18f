//! Paths of lists and leaf-lists.
ghost use Rattle.std.specs.Prelude.{◌≡◌, option_map};
ghost use Rattle.orc_decls.specs.Calls.{has_entries, is_data_path, is_list_path};
ghost use Rattle.orc_lines.specs.Items.{names_list};
ghost use Rattle.orc_lines.specs.inside.Places.{keeps_place};

use crate::items::can_carry;
use orc_decls::{blank_item, is_kept};
use orc_path::Path;
use orc_schema_nodes::{Node, Schema};
use orc_typed::{are_canonical_steps, stand};
use std::alloc::Global;

// Whether the node has entries: it is a list or a leaf-list.
fn has_entries(node: Option<&Node>) -> bool
    ensures { result ≡ has_entries (option_map (λ node. node.now) node.entry) }
{
    matches!(node, Some(Node::List(_) | Node::LeafList(_)))
}

/// Whether the path is that of a list or a leaf-list, whatever its texts: the steps above it stand in
/// the schema with their keys, and its own has none. A plain schema has one at each path that doesn't
/// end in keys. It takes no memory.
pub fn names_list(schema: &Schema, path: &Path) -> bool
    ensures { result ≡ names_list schema.now path.now }
{
    let steps = path.steps.as_slice();
    if steps.is_empty() || path.ends_in_keys() {
        return false;
    }
    if schema.is_plain() {
        return true;
    }
    stand(schema, &steps[..steps.len() - 1]) && has_entries(schema.node(steps))
}

/// Whether it is one that can be stored: it keeps the limits, and its keys are in canonical form.
#[tactic(auto, using(crate::proofs::ListPaths::list_path_parts))]
pub(crate) fn is_list_path(schema: &Schema, path: &Path) -> bool
    ensures { result ≡ is_list_path schema.now path.now }
{
    let steps = path.steps.as_slice();
    if path.is_long() || !names_list(schema, path) {
        return false;
    }
    schema.is_plain() || are_canonical_steps(schema, steps)
}

// Whether the path can carry an item under the schema and its keys are in canonical form, and a line may
// name it.
fn keeps_place(alloc: Global, schema: &Schema, path: &Path) -> bool
    ensures { result ≡ keeps_place schema.now path.now }
{
    can_carry(schema, path, &blank_item(alloc, path))
        && ((schema.is_plain() || are_canonical_steps(schema, path.steps.as_slice()))
            && !is_kept(path))
}

/// Whether a line may name the path of the data, and it can carry an item there: it keeps the limits,
/// and its keys are in canonical form.
#[tactic(auto, using(crate::proofs::DataPaths::data_path_parts))]
pub(crate) fn is_data_path(alloc: Global, schema: &Schema, path: &Path) -> bool
    ensures { result ≡ is_data_path schema.now path.now }
{
    // Looked into, so that the proof knows that it is a path.
    let _steps = path.steps.len();
    !path.is_long() && keeps_place(alloc, schema, path)
}
