//! Names of modules, of types of devices and of templates, of which a bundle may have any number. However
//! they are chosen, one is found in time that grows with the logarithm of how many there are.
ghost use Rattle.std.specs.Prelude.{◌≡◌, ◌++◌, ◌∷◌, [], false, is_some, length, IfOk, IfSome, OnOk, ◌<◌};
ghost use Rattle.orc_decls.specs.Names.{is_among, place_of, with_name};
ghost use Rattle.orc_lines.specs.Names.{repeats};
ghost use Rattle.orc_lines.specs.inside.Numbered.{HasPlaces};
ghost use Rattle.std.specs.List.{IsDistinct};
ghost use Rattle.orc_decls.specs.Devices.{is_same_text};

use orc_text::{Memory, Text};
use std::alloc::Global;
use std::collections::BTreeMap;
use std::marker::Model;

/// Names, of which no two are equal, numbered from 0 in the order in which they came.
/// Beside them stands the number of each, in the order of the names.
pub struct SortedNames {
    names: Vec<Text>,
    places: BTreeMap<Text, usize>,
}

// Written out, so that a crate above lets names go by one call.
impl Drop for SortedNames {
    fn drop(self) {
        let SortedNames {
            names: _,
            places: _,
        } = self;
    }
}

impl Model for SortedNames {
    ghost use Rattle.std.specs.Prelude.{List, ℕ};
    ghost use Rattle.orc_lines.specs.inside.Numbered.{HasPlaces};

    ghost Value = { List (List ℕ) };

    ghost view = { λ all. all.names.items };

    ghost invariant = { λ all. HasPlaces all.places all.names.items };
}

// Adds a name after the others, among which it isn't. If memory runs out, all is as it was.
fn put_behind(
    names: &mut Vec<Text>,
    places: &mut BTreeMap<Text, usize>,
    name: Text,
) -> Result<(), Memory>
    requires has { HasPlaces places.old names.old.items }
    requires new { is_among names.old.items name ≡ false }
    ensures has { HasPlaces places.new names.new.items }
    ensures ok { OnOk result (names.new.items ≡ names.old.items ++ name ∷ []) }
{
    let alloc = *names.allocator();
    let place = names.len();
    names.push(name.copy(alloc)?)?;
    match places.insert(name, place) {
        Ok(_) => Ok(()),
        Err(_) => {
            names.pop();
            Err(Memory)
        }
    }
}

impl SortedNames {
    /// No name.
    pub fn new(alloc: Global) -> SortedNames
        ensures { result ≡ [] }
    {
        SortedNames {
            names: Vec::new(alloc),
            places: BTreeMap::new(alloc),
        }
    }

    /// The number of a name.
    pub fn place(&self, name: &Text) -> Option<usize>
        ensures place { result ≡ place_of self.now name.now }
        ensures within { IfSome result (λ n. n < length self.now) }
    {
        self.places.get(name).copied()
    }

    /// Whether a name is among them.
    pub fn has(&self, name: &Text) -> bool
        ensures { result ≡ is_among self.now name.now }
    {
        self.place(name).is_some()
    }

    /// Adds a name after the others where it is new.
    pub fn add(&mut self, name: Text) -> Result<(), Memory>
        ensures { OnOk result (self.new ≡ with_name self.old name) }
    {
        if self.has(&name) {
            return Ok(());
        }
        put_behind(&mut self.names, &mut self.places, name)
    }
}

/// The first name that stands before already, where one stands twice.
pub fn repeated_name(alloc: Global, names: &[Text]) -> Result<Option<Text>, Memory>
    ensures { IfOk result (λ found. is_some found ≡ repeats names.now) }
{
    let mut before = SortedNames::new(alloc);
    for name in names {
        if before.has(name) {
            return Ok(Some(name.copy(alloc)?));
        }
        before.add(name.copy(alloc)?)?;
    }
    Ok(None)
}
