//! The declared devices.
ghost use Rattle.std.specs.Prelude.{◌≡◌, IfOk, Some, nat_lt, slice_get, if◌then◌else◌};
ghost use Rattle.std.specs.declared.option.Option.TheVariants.{None};
ghost use Rattle.std.specs.List.{list_any, list_all};
ghost use Rattle.std.specs.Option.{option_copied};
ghost use Rattle.orc_value.specs.Canon.{same_text};
ghost use Rattle.orc_template.specs.Devices.{all_differ, is_device_table, device_of, schema_of_device};

use orc_schema_nodes::Schema;
use orc_text::{Copied, Memory, Row, Text};
use std::alloc::Global;
use std::marker::Model;

/// The declared devices: their names, in the order of their numbers from 0 on, the schemas, and for
/// each device the place of its schema. The names differ, and each has a place.
pub struct Devices {
    pub names: Row<Text>,
    pub schemas: Row<Schema>,
    pub of: Row<u32>,
}

// Written out, so that a crate above lets devices go by one call.
impl Drop for Devices {
    fn drop(self) {
        let Devices {
            names: _,
            schemas: _,
            of: _,
        } = self;
    }
}

impl Model for Devices {
    ghost use Rattle.std.specs.Prelude.{IsTrue};
    ghost use Rattle.orc_template.specs.Devices.{DeviceTable, is_device_table};

    ghost Value = { DeviceTable };

    ghost view = { λ devices. record { names = devices.names; schemas = devices.schemas; of = devices.of } };

    ghost invariant = { λ devices.
        IsTrue (is_device_table (record { names = devices.names; schemas = devices.schemas; of = devices.of })) };

    ghost inverse = { λ table. record { names = table.names; schemas = table.schemas; of = table.of } };
}

// Whether a text is one of some.
fn is_among(text: &Text, texts: &[Text]) -> bool
    ensures { result ≡ list_any (same_text text.now) texts.now }
{
    texts.iter().any(|other| text.as_str() == other.as_str())
}

// Whether no name stands twice.
fn all_differ(names: &[Text]) -> bool
    ensures { result ≡ all_differ names.now }
{
    let mut rest = names;
    while let [name, later @ ..] = rest {
        if is_among(name, later) {
            return false;
        }
        rest = later;
    }
    true
}

// Whether each of the places is below the length.
fn are_below(places: &[u32], len: usize) -> bool
    ensures { result ≡ list_all (λ place. nat_lt place len) places.now }
{
    places.iter().all(|place| (*place as usize) < len)
}

impl Devices {
    /// The devices of these names, where the names differ and each has the place of a schema.
    pub fn of_parts(names: Row<Text>, schemas: Row<Schema>, of: Row<u32>) -> Option<Devices>
        ensures { result ≡ (if is_device_table (record { names = names; schemas = schemas; of = of })
            then Some (record { names = names; schemas = schemas; of = of }) else None) }
    {
        if !all_differ(names.as_slice()) {
            return None;
        }
        if of.len() != names.len() {
            return None;
        }
        if !are_below(of.as_slice(), schemas.len()) {
            return None;
        }
        Some(Devices { names, schemas, of })
    }

    /// Equal devices.
    pub fn copy(&self, alloc: Global) -> Result<Devices, Memory>
        ensures { IfOk result (λ devices. devices ≡ self.now) }
    {
        Ok(Devices {
            names: self.names.copy(alloc)?,
            schemas: self.schemas.copy(alloc)?,
            of: self.of.copy(alloc)?,
        })
    }

    /// The number of the device of this name.
    pub fn number(&self, name: &str) -> Option<usize>
        ensures { result ≡ device_of name.now self.now.names }
    {
        number_in(self.names.as_slice(), name)
    }

    /// The schema of a device.
    pub fn schema(&self, number: usize) -> Option<&Schema>
        ensures { option_copied result ≡ schema_of_device self.now number }
    {
        match place_at(self.of.as_slice(), number) {
            Some(place) => schema_in(self.schemas.as_slice(), *place as usize),
            None => None,
        }
    }
}

impl Copied for Devices {
    fn copied(&self, alloc: Global) -> Result<Devices, Memory> {
        self.copy(alloc)
    }
}

// The place at a number.
fn place_at(places: &[u32], number: usize) -> Option<&u32>
    ensures { option_copied result ≡ slice_get places.now number }
{
    places.get(number)
}

// The schema at a place.
fn schema_in(schemas: &[Schema], place: usize) -> Option<&Schema>
    ensures { option_copied result ≡ slice_get schemas.now place }
{
    schemas.get(place)
}

// The place of a name among names.
fn number_in(names: &[Text], name: &str) -> Option<usize>
    ensures { result ≡ device_of name.now names.now }
{
    let mut number = 0;
    for other in names {
        if other.as_str() == name {
            return Some(number);
        }
        number += 1;
    }
    None
}
