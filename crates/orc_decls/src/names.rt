//! Names of devices and of callers, numbered in the order of their first mention. A bundle has at most 256 of
//! each, so that even names which are chosen to have one hash are found in little time.
ghost use Rattle.std.specs.Prelude.{◌≡◌, [], length, IfSome, OnErr, OnOk, ◌<◌};
ghost use Rattle.std.specs.List.{IsDistinct};
ghost use Rattle.orc_decls.specs.Devices.{is_same_text};
ghost use Rattle.orc_decls.specs.Names.{is_among, place_of, with_name};

use indexmap::IndexSet;
use orc_text::{Memory, Text};
use std::alloc::Global;
use std::marker::Model;

/// Names, of which no two are equal, numbered from 0 in the order in which they came.
pub struct Names {
    names: IndexSet<Text>,
}

// Written out, so that a crate above lets names go by one call.
impl Drop for Names {
    fn drop(self) {
        let Names { names: _ } = self;
    }
}

impl Model for Names {
    ghost use Rattle.std.specs.Prelude.{List, ℕ};

    ghost Value = { List (List ℕ) };

    ghost view = { λ names. names.names.keys };
}

impl Names {
    /// No name.
    pub fn new(alloc: Global) -> Names
        ensures { result ≡ [] }
    {
        Names {
            names: IndexSet::new(alloc),
        }
    }

    /// How many names there are.
    pub fn len(&self) -> usize
        ensures { result ≡ length self.now }
    {
        self.names.len()
    }

    /// The names, of which no two are equal.
    pub fn as_slice(&self) -> &[Text]
        ensures names { result.now ≡ self.now }
        ensures distinct { IsDistinct is_same_text self.now }
    {
        self.names.as_slice()
    }

    /// The number of a name.
    pub fn place(&self, name: &Text) -> Option<usize>
        ensures place { result ≡ place_of self.now name.now }
        ensures within { IfSome result (λ n. n < length self.now) }
    {
        self.names.get_index_of(name)
    }

    /// Whether a name is among them.
    pub fn has(&self, name: &Text) -> bool
        ensures { result ≡ is_among self.now name.now }
    {
        self.names.contains(name)
    }

    /// Adds a name after the others where it is new. Where memory runs out they stay as they were.
    pub fn add(&mut self, name: Text) -> Result<(), Memory>
        ensures ok { OnOk result (self.new ≡ with_name self.old name) }
        ensures err { OnErr result (self.new ≡ self.old) }
    {
        self.names.insert(name)?;
        Ok(())
    }
}
