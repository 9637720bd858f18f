//! A configuration with its schema, as expressions look at it.
ghost use Rattle.std.specs.Prelude.{◌≡◌, IfOk};

use orc_path::{DataView, Item, Name, Path, Shape};
use orc_schema_nodes::Schema;
use orc_text::Memory;
use orc_tree::Tree;
use std::alloc::Global;

/// A configuration and its schema.
#[derive(Drop)]
pub struct View<'a> {
    pub tree: &'a Tree,
    pub schema: &'a Schema,
}

impl<'a> DataView for View<'a> {
    ghost use Rattle.orc_schema_nodes.specs.Schemas.{shape_at};

    ghost viewed = { λ view. record { items = view.tree.now; shapes = shape_at view.schema.now } };

    fn item(&self, path: &Path) -> Option<&Item> {
        self.tree.get(path)
    }

    fn keys_under(&self, alloc: Global, list: &Path) -> Result<Vec<Path>, Memory> {
        self.tree.keys_under(alloc, list)
    }

    fn shape(&self, alloc: Global, parent: &Path, name: &Name) -> Result<Shape, Memory> {
        self.schema.shape(alloc, parent, name)
    }
}
