//! The names that a block has so far, in their order: however these are chosen, one is found in time that grows with the
//! logarithm of how many there are.
ghost use Rattle.std.specs.Prelude.{◌≡◌, [], OnOk};
ghost use Rattle.orc_statements.specs.inside.Seen.{is_seen, HasToo};

use orc_text::{Memory, Text};
use std::alloc::Global;
use std::collections::BTreeSet;
use std::marker::Model;

/// Names, each kept once.
#[derive(Drop)]
pub(crate) struct Seen {
    names: BTreeSet<Text>,
}

impl Model for Seen {
    ghost use Rattle.std.specs.Prelude.{List, ℕ};

    ghost Value = { List (List ℕ) };

    ghost view = { λ seen. seen.names.keys };
}

impl Seen {
    // No name.
    pub(crate) fn new(alloc: Global) -> Seen
        ensures { result ≡ [] }
    {
        Seen {
            names: BTreeSet::new(alloc),
        }
    }

    // Whether a name is among them.
    pub(crate) fn has(&self, name: &Text) -> bool
        ensures { result ≡ is_seen self.now name.now }
    {
        self.names.contains(name)
    }

    // Adds a name.
    pub(crate) fn add(&mut self, name: Text) -> Result<(), Memory>
        ensures { OnOk result (HasToo self.old name self.new) }
    {
        self.names.insert(name)?;
        Ok(())
    }
}
