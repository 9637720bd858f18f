//! What stands below a node under a name.
ghost use Rattle.std.specs.Prelude.{◌≡◌, IfOk};

use orc_text::{Copied, Memory, Row, Text};
use std::alloc::Global;

/// What a name stands for below a node of a schema: nothing, a container, a list with the names of
/// its keys, a leaf with its default, a leaf that is a key with its place among the keys from 0 on,
/// or a leaf-list.
#[derive(Debug, PartialEq, Eq, Drop)]
pub enum Shape {
    Absent,
    Container,
    List(Row<Text>),
    Leaf(Option<Text>),
    Key(u32),
    LeafList,
}

impl Shape {
    /// An equal shape.
    pub fn copy(&self, alloc: Global) -> Result<Shape, Memory>
        ensures { IfOk result (λ shape. shape ≡ self.now) }
    {
        match self {
            Shape::Absent => Ok(Shape::Absent),
            Shape::Container => Ok(Shape::Container),
            Shape::List(keys) => Ok(Shape::List(keys.copy(alloc)?)),
            Shape::Leaf(default) => Ok(Shape::Leaf(default.copied(alloc)?)),
            Shape::Key(place) => Ok(Shape::Key(*place)),
            Shape::LeafList => Ok(Shape::LeafList),
        }
    }
}

impl Copied for Shape {
    fn copied(&self, alloc: Global) -> Result<Shape, Memory> {
        self.copy(alloc)
    }
}
