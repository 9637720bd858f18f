//! What an expression looks at.
ghost use Rattle.std.specs.Prelude.{◌≡◌, IfOk};
ghost use Rattle.std.specs.Option.{option_copied};
ghost use Rattle.std.specs.FinMap.{get};
ghost use Rattle.orc_path.specs.Views.{entries_of};

use crate::{Item, Name, Path, Shape};
use orc_text::Memory;
use std::alloc::Global;

/// A configuration with its schema, as an expression looks at them. What it reports about itself is
/// its items by path, and what the schema says of a name below a parent.
pub trait DataView {
    ghost use Rattle.orc_path.specs.Views.{Viewed};

    ghost viewed: { Self → Viewed };

    /// The item at a path, if there is one. It takes no memory.
    fn item(&self, path: &Path) -> Option<&Item>
        ensures { option_copied result ≡ get (viewed self.now).items path.now };

    /// The paths of a list's entries (or of a leaf-list's values), in path order.
    fn keys_under(&self, alloc: Global, list: &Path) -> Result<Vec<Path>, Memory>
        ensures { IfOk result (λ entries. entries.items ≡ entries_of (viewed self.now).items list.now) };

    /// What the schema says of a name below a parent.
    fn shape(&self, alloc: Global, parent: &Path, name: &Name) -> Result<Shape, Memory>
        ensures { IfOk result (λ shape. shape ≡ (viewed self.now).shapes parent.now name.now) };
}
