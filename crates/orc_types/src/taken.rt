//! The values that an enumeration has so far.
ghost use Rattle.std.specs.Prelude.{◌≡◌, [], OnOk};
ghost use Rattle.orc_types.specs.inside.Running.{is_taken, HasToo};

use orc_text::Memory;
use std::alloc::Global;
use std::collections::BTreeSet;
use std::marker::Model;

/// Values, each kept once, in order: whatever they are, one is found in time that grows with the
/// logarithm of how many there are.
#[derive(Drop)]
pub(crate) struct Taken {
    values: BTreeSet<i32>,
}

impl Model for Taken {
    ghost use Rattle.std.specs.Prelude.{List, ℤ};

    ghost Value = { List ℤ };

    ghost view = { λ taken. taken.values.keys };
}

impl Taken {
    // No value.
    pub(crate) fn new(alloc: Global) -> Taken
        ensures { result ≡ [] }
    {
        Taken {
            values: BTreeSet::new(alloc),
        }
    }

    // Whether a value is among them.
    pub(crate) fn has(&self, value: i32) -> bool
        ensures { result ≡ is_taken self.now value }
    {
        self.values.contains(&value)
    }

    // Adds a value.
    pub(crate) fn add(&mut self, value: i32) -> Result<(), Memory>
        ensures { OnOk result (HasToo self.old value self.new) }
    {
        self.values.insert(value)?;
        Ok(())
    }
}
