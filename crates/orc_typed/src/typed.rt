//! What may stand in a configuration under a schema.
ghost use Rattle.std.specs.Prelude.{◌≡◌, ◌++◌, ◌∷◌, [], Some, map, option_map};
ghost use Rattle.orc_schema_nodes.specs.Schemas.{path_names, kind_at_path};
ghost use Rattle.orc_typed.specs.Typed.{kind_of_names, kinds_at, is_canonical_text, are_canonical_keys, has_canonical_keys, are_canonical_steps, is_canonical_value, is_typed, has_place};

use crate::kinds::kind_below;
use crate::placed::{has_place_in_schema, is_in_schema};
use orc_path::{Item, Path, Step};
use orc_schema_nodes::{Node, Schema};
use orc_text::Text;
use orc_value::{Kind, is_canonical};

// Whether the text is of the kind, and canonical.
fn is_canonical_text(kind: Option<&Kind>, text: &Text) -> bool
    ensures { result ≡ is_canonical_text (option_map (λ known. known.now) kind.entry) text.now }
{
    match kind {
        Some(known) => is_canonical(known, text),
        None => false,
    }
}

// Whether each key of an entry of the list at these steps is.
fn are_list_keys(schema: &Schema, steps: &[Step], names: &[Text], keys: &[Text]) -> bool
    ensures { result ≡ are_canonical_keys
        (map (λ name. kind_of_names schema.now (path_names steps.now ++ name ∷ [])) names.now) keys.now }
{
    match keys {
        [] => true,
        [key, later @ ..] => match names {
            [] => false,
            [name, below @ ..] => {
                is_canonical_text(kind_below(schema, steps, name), key)
                    && are_list_keys(schema, steps, below, later)
            }
        },
    }
}

// Whether the one key of an entry of a leaf-list is.
fn is_value_key(kind: &Kind, keys: &[Text]) -> bool
    ensures { result ≡ are_canonical_keys (Some kind.now ∷ []) keys.now }
{
    match keys {
        [] => true,
        [key] => is_canonical(kind, key),
        _ => false,
    }
}

// Whether there is no key.
fn has_no_key(keys: &[Text]) -> bool
    ensures { result ≡ are_canonical_keys [] keys.now }
{
    keys.is_empty()
}

/// Whether each key of a step is the canonical text of a value of its leaf's type; `steps` are those
/// down to it and with it. It takes no memory.
pub fn has_canonical_keys(schema: &Schema, steps: &[Step], step: &Step) -> bool
    ensures { result ≡ has_canonical_keys schema.now (path_names steps.now) step.now }
{
    let keys = step.keys.as_slice();
    match schema.node(steps) {
        Some(Node::List(list)) => are_list_keys(schema, steps, list.keys.as_slice(), keys),
        Some(Node::LeafList(values)) => is_value_key(&values.kind, keys),
        Some(Node::Container) => has_no_key(keys),
        Some(Node::Leaf(_)) => has_no_key(keys),
        None => has_no_key(keys),
    }
}

/// Whether each key of the steps is. It takes no memory.
pub fn are_canonical_steps(schema: &Schema, steps: &[Step]) -> bool
    ensures { result ≡ are_canonical_steps schema.now [] steps.now }
{
    match steps.split_last() {
        Some((last, front)) => are_canonical_steps(schema, front)
            && has_canonical_keys(schema, steps, last),
        None => true,
    }
}

/// Whether an item at a path is an entry, or its text the canonical one of a value of the leaf's
/// type. It takes no memory.
pub fn is_canonical_value(schema: &Schema, path: &Path, item: &Item) -> bool
    ensures { result ≡ is_canonical_value (kind_at_path schema.now path.now) item.now }
{
    match item {
        Item::Entry => true,
        Item::Leaf(text) => is_canonical_text(schema.kind_of(path), text),
    }
}

/// Whether an item may stand at a path of a configuration under the schema: it is one of the schema,
/// and each key and the text are of their kinds and canonical. Under a plain schema everything may.
/// It takes no memory.
pub fn is_typed(schema: &Schema, path: &Path, item: &Item) -> bool
    ensures { result ≡ is_typed schema.now path.now item.now }
{
    if schema.is_plain() {
        return true;
    }
    is_in_schema(schema, path, item)
        && are_canonical_steps(schema, path.steps.as_slice())
        && is_canonical_value(schema, path, item)
}

/// Whether something may stand at a path of a configuration under the schema: an entry or a leaf,
/// whatever its text, where each key is of its kind and canonical. Under a plain schema something may
/// stand at each path. It takes no memory.
pub fn has_place(schema: &Schema, path: &Path) -> bool
    ensures { result ≡ has_place schema.now path.now }
{
    schema.is_plain()
        || (has_place_in_schema(schema, path) && are_canonical_steps(schema, path.steps.as_slice()))
}
