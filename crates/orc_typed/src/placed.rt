//! What stands in a schema.
ghost use Rattle.std.specs.Prelude.{◌≡◌, ◌||◌, ℕ, List, [], length, nat_eq};
ghost use Rattle.orc_schema_nodes.specs.Schemas.{SchemaTable, path_names};
ghost use Rattle.orc_typed.specs.Typed.{step_kinds, stands_at, stand, carries, is_carried, is_in_schema, has_place_in_schema};

use orc_path::{Item, Path, Step};
use orc_schema_nodes::{Node, Schema};
use orc_text::Text;

// Whether a step at this node has as many keys as the node's steps have.
fn has_its_keys(node: &Node, keys: &[Text]) -> bool
    ensures { (s : SchemaTable) → (names : List (List ℕ))
        → result ≡ nat_eq (length keys.now) (length (step_kinds s names node.now)) }
{
    match node {
        Node::List(list) => keys.len() == list.keys.len(),
        Node::LeafList(_) => keys.len() == 1,
        Node::Container | Node::Leaf(_) => keys.is_empty(),
    }
}

// Whether a step has a node in the schema, and as many keys as that node's steps have. `steps` are
// those down to it and with it.
fn stands_at(schema: &Schema, steps: &[Step], step: &Step) -> bool
    ensures { result ≡ stands_at schema.now (path_names steps.now) step.now }
{
    match schema.node(steps) {
        Some(node) => has_its_keys(node, step.keys.as_slice()),
        None => false,
    }
}

/// Whether each of the steps has a node in the schema, and as many keys as that node's steps have. It
/// takes no memory.
pub fn stand(schema: &Schema, steps: &[Step]) -> bool
    ensures { result ≡ stand schema.now [] steps.now }
{
    match steps.split_last() {
        Some((last, front)) => stand(schema, front) && stands_at(schema, steps, last),
        None => true,
    }
}

fn carries(node: &Node, item: &Item) -> bool
    ensures { result ≡ carries node.now item.now }
{
    match item {
        Item::Entry => matches!(node, Node::List(_) | Node::LeafList(_)),
        Item::Leaf(_) => match node {
            Node::Leaf(leaf) => leaf.key.is_none(),
            _ => false,
        },
    }
}

// Whether the node at the end of the steps carries the item.
fn is_carried(schema: &Schema, steps: &[Step], item: &Item) -> bool
    ensures { result ≡ is_carried schema.now steps.now item.now }
{
    if steps.is_empty() {
        return false;
    }
    match schema.node(steps) {
        Some(node) => carries(node, item),
        None => false,
    }
}

/// Whether an item at a path is one of the schema, whatever its texts: each step stands there with
/// as many keys as its node has, and the last one carries the item. A list and a leaf-list carry
/// entries, and a leaf that is no key carries a text. In a plain schema everything is. It takes no
/// memory.
pub fn is_in_schema(schema: &Schema, path: &Path, item: &Item) -> bool
    ensures { result ≡ is_in_schema schema.now path.now item.now }
{
    if schema.is_plain() {
        return true;
    }
    let steps = path.steps.as_slice();
    stand(schema, steps) && is_carried(schema, steps, item)
}

// Whether the node carries an entry or a text.
fn carries_some(node: &Node) -> bool
    ensures { result ≡ (carries node.now Item.Entry || carries node.now (Item.Leaf [])) }
{
    match node {
        Node::List(_) | Node::LeafList(_) => true,
        Node::Leaf(value) => value.key.is_none(),
        Node::Container => false,
    }
}

// Whether the node at the end of the steps does.
fn is_some_carried(schema: &Schema, steps: &[Step]) -> bool
    ensures { result
        ≡ (is_carried schema.now steps.now Item.Entry || is_carried schema.now steps.now (Item.Leaf [])) }
{
    if steps.is_empty() {
        return false;
    }
    match schema.node(steps) {
        Some(node) => carries_some(node),
        None => false,
    }
}

// Whether an entry or a text at a path is one of the schema.
pub(crate) fn has_place_in_schema(schema: &Schema, path: &Path) -> bool
    ensures { result ≡ has_place_in_schema schema.now path.now }
{
    if schema.is_plain() {
        return true;
    }
    let steps = path.steps.as_slice();
    if !stand(schema, steps) {
        return false;
    }
    is_some_carried(schema, steps)
}
