//! Whether a node is found again by its path.
use crate::shown::Shown;
use crate::undone::Undone;
use orc_path::{Path, Shape};
use orc_schema::{Node, Schema, SchemaLine};
use orc_text::{Memory, Row, Text};
use orc_value::Kind;
use std::alloc::Global;

// The path of names, without keys.
fn path_of(alloc: Global, names: &Row<Text>) -> Result<Path, Undone> {
    let mut text = Shown::new(alloc);
    for name in names.as_slice() {
        text.add(&["/", name.as_str()])?;
    }
    Ok(Path::parse(alloc, text.as_str())?)
}

// The shape of such a node.
fn shape_of(alloc: Global, node: &Node) -> Result<Shape, Memory> {
    match node {
        Node::Container => Ok(Shape::Container),
        Node::List(list) => Ok(Shape::List(list.keys.copy(alloc)?)),
        Node::LeafList(_) => Ok(Shape::LeafList),
        Node::Leaf(leaf) => match (leaf.key, &leaf.default) {
            (Some(place), _) => Ok(Shape::Key(place)),
            (None, Some(text)) => Ok(Shape::Leaf(Some(text.copy(alloc)?))),
            (None, None) => Ok(Shape::Leaf(None)),
        },
    }
}

// The kind of such a node.
fn kind_of(node: &Node) -> Option<&Kind> {
    match node {
        Node::Leaf(leaf) => Some(&leaf.kind),
        Node::LeafList(values) => Some(&values.kind),
        _ => None,
    }
}

/// Whether the schema has the line's node at its path: its shape below its parent, and its kind.
pub(crate) fn is_found(alloc: Global, schema: &Schema, line: &SchemaLine) -> Result<bool, Undone> {
    let path = path_of(alloc, &line.names)?;
    Ok(is_shaped(alloc, schema, &path, &line.node)? && schema.kind_of(&path) == kind_of(&line.node))
}

// Whether the schema has a node of this shape at a path.
fn is_shaped(alloc: Global, schema: &Schema, path: &Path, node: &Node) -> Result<bool, Undone> {
    let Some((last, above)) = path.steps.as_slice().split_last() else {
        return Ok(false);
    };
    let parent = path.first_steps(alloc, above.len())?;
    let shape = schema.shape(alloc, &parent, &last.node)?;
    Ok(shape == shape_of(alloc, node)?)
}
