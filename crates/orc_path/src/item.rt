//! What stands at a path, and what a call writes.
ghost use Rattle.std.specs.Prelude.{◌≡◌, IfOk};
ghost use Rattle.orc_path.specs.Items.{fits};

use crate::Path;
use orc_text::{Copied, Memory, Text};
use std::alloc::Global;

/// What a path of a configuration carries: an entry of a list (or a value of a leaf-list), or a
/// leaf with its canonical text.
#[derive(Debug, PartialEq, Eq, Drop)]
pub enum Item {
    Entry,
    Leaf(Text),
}

impl Item {
    /// Whether the item fits a path: an entry one that ends in keys, and a leaf one that doesn't.
    /// Nothing fits the root.
    pub fn fits(&self, path: &Path) -> bool
        ensures { result ≡ fits path.now self.now }
    {
        match self {
            Item::Entry => path.ends_in_keys(),
            Item::Leaf(_) => !path.steps.is_empty() && !path.ends_in_keys(),
        }
    }

    /// An equal item.
    pub fn copy(&self, alloc: Global) -> Result<Item, Memory>
        ensures { IfOk result (λ item. item ≡ self.now) }
    {
        match self {
            Item::Entry => Ok(Item::Entry),
            Item::Leaf(text) => Ok(Item::Leaf(text.copy(alloc)?)),
        }
    }
}

impl Copied for Item {
    fn copied(&self, alloc: Global) -> Result<Item, Memory> {
        self.copy(alloc)
    }
}

/// What a committed call writes: a data path whose item differs before and after it, or a service
/// that it names. Paths come before services.
#[derive(Debug, PartialEq, Eq, PartialOrd, Ord)]
pub enum Write {
    At(Path),
    Service(Text),
}

// Written out, so that a crate above lets a write go by one call.
impl Drop for Write {
    fn drop(self) {
        match self {
            Write::At(_) => {}
            Write::Service(_) => {}
        }
    }
}

impl Write {
    /// An equal write.
    pub fn copy(&self, alloc: Global) -> Result<Write, Memory>
        ensures { IfOk result (λ write. write ≡ self.now) }
    {
        match self {
            Write::At(path) => Ok(Write::At(path.copy(alloc)?)),
            Write::Service(id) => Ok(Write::Service(id.copy(alloc)?)),
        }
    }
}

impl Copied for Write {
    fn copied(&self, alloc: Global) -> Result<Write, Memory> {
        self.copy(alloc)
    }
}
