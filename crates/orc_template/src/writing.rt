//! What is written on one device.
ghost use Rattle.std.specs.Prelude.{◌≡◌, IsTrue};
ghost use Rattle.std.specs.Option.{option_copied};
ghost use Rattle.orc_path.specs.Items.{fits};
ghost use Rattle.orc_template.specs.Writing.{differs_from, write_at, Writes};

use crate::fault::{BAD_LEAF, Halt, SELF_CLASH};
use orc_expr::ReadSet;
use orc_path::{Item, Path};
use orc_tree::Tree;

/// The items written so far on a device, and all that was read so far.
#[derive(Drop)]
pub(crate) struct Writing {
    pub(crate) tree: Tree,
    pub(crate) reads: ReadSet,
}

// Whether an item stands there that differs.
fn differs_from(found: Option<&Item>, item: &Item) -> bool
    ensures { result ≡ differs_from (option_copied found.entry) item.now }
{
    match found {
        None => false,
        Some(Item::Entry) => match item {
            Item::Entry => false,
            Item::Leaf(_) => true,
        },
        Some(Item::Leaf(text)) => match item {
            Item::Entry => true,
            Item::Leaf(other) => text.as_str() != other.as_str(),
        },
    }
}

impl Writing {
    /// Writes an item, with the entries on its way.
    pub(crate) fn write(&mut self, path: Path, item: Item) -> Result<(), Halt>
        requires { IsTrue (fits path item) }
        ensures { Writes (write_at path item self.old) self.new result }
    {
        if path.is_long() {
            return Err(Halt::Rule(BAD_LEAF));
        }
        if differs_from(self.tree.get(&path), &item) {
            return Err(Halt::Rule(SELF_CLASH));
        }
        self.tree.set(path, item)?;
        Ok(())
    }
}
