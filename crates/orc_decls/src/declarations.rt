//! What a bundle declares.
ghost use Rattle.std.specs.Prelude.{◌≡◌, ◌<◌, length, IfSome};
ghost use Rattle.std.specs.List.{IsDistinct};
ghost use Rattle.orc_decls.specs.Devices.{is_same_text, name_of};
ghost use Rattle.orc_decls.specs.Names.{place_of};

use crate::names::Names;
use orc_call::Put;
use orc_path::Path;
use orc_schema_nodes::Schema;
use orc_services::ServiceList;
use orc_template::Devices;
use orc_text::{Row, Text};
use std::marker::Model;

/// The most devices of a bundle.
pub const MOST_DEVICES: usize = 256;

/// A declared device: its name, the place of its schema among those declared, and, each in the order
/// of its lines, the items of its base, the lists that may have so many entries at most, and the
/// leaves that may not have a text.
pub struct Device {
    pub name: Text,
    pub schema: u32,
    pub base: Row<Put>,
    pub max: Row<(Path, u64)>,
    pub forbid: Row<(Path, Text)>,
}

// Written out, as that of `Decls`.
impl Drop for Device {
    fn drop(self) {
        let Device {
            name: _,
            schema: _,
            base: _,
            max: _,
            forbid: _,
        } = self;
    }
}

/// The declarations, all in the order of the bundle's lines.
pub struct Decls {
    text: Row<u8>,
    names: Names,
    devices: Row<Device>,
    // The devices as expansions take them, with the schemas of all.
    table: Devices,
    data_schema: Schema,
    data: Row<Put>,
    services: Row<ServiceList>,
}

// Written out, so that a crate above lets declarations go by one call, and doesn't prove at each exit
// that each field goes.
impl Drop for Decls {
    fn drop(self) {
        let Decls {
            text: _,
            names: _,
            devices: _,
            table: _,
            data_schema: _,
            data: _,
            services: _,
        } = self;
    }
}

impl Model for Decls {
    ghost use Rattle.orc_decls.specs.Decls.{Declarations};

    ghost Value = { Declarations };

    ghost view = { λ decls. record {
      text = decls.text;
      names = decls.names;
      schemas = decls.table.schemas;
      devices = decls.devices;
      data_schema = decls.data_schema;
      «data» = decls.data;
      services = decls.services;
      table = decls.table;
    } };
}

impl Decls {
    /// The declarations of these parts.
    pub fn of_parts(
        text: Row<u8>,
        names: Names,
        devices: Row<Device>,
        table: Devices,
        data_schema: Schema,
        data: Row<Put>,
        services: Row<ServiceList>,
    ) -> Decls
        ensures { result ≡ record {
          text = text;
          names = names;
          schemas = table.schemas;
          devices = devices;
          data_schema = data_schema;
          «data» = «data»;
          services = services;
          table = table;
        } }
    {
        Decls {
            text,
            names,
            devices,
            table,
            data_schema,
            data,
            services,
        }
    }

    /// Their text as the journal stores it: the bytes of the bundle before its line `script`.
    pub fn text(&self) -> &[u8]
        ensures { result.now ≡ self.now.text }
    {
        self.text.as_slice()
    }

    /// The names of the devices, of which no two are equal.
    pub fn names(&self) -> &[Text]
        ensures names { result.now ≡ self.now.names }
        ensures distinct { IsDistinct is_same_text self.now.names }
    {
        self.names.as_slice()
    }

    // The names of the devices, by which they are numbered.
    pub(crate) fn numbered(&self) -> &Names
        ensures { result.now ≡ self.now.names }
    {
        &self.names
    }

    /// The schemas of devices: first the plain one, and then one for each type of devices.
    pub fn schemas(&self) -> &[Schema]
        ensures { result.now ≡ self.now.schemas }
    {
        self.table.schemas.as_slice()
    }

    /// The devices.
    pub fn devices(&self) -> &[Device]
        ensures { result.now ≡ self.now.devices }
    {
        self.devices.as_slice()
    }

    /// The schema of the data.
    pub fn data_schema(&self) -> &Schema
        ensures { result.now ≡ self.now.data_schema }
    {
        &self.data_schema
    }

    /// The items of the `data` lines.
    pub fn data(&self) -> &[Put]
        ensures { result.now ≡ self.now.«data» }
    {
        self.data.as_slice()
    }

    /// The lists of the data whose entries are services, each with its template.
    pub fn services(&self) -> &[ServiceList]
        ensures { result.now ≡ self.now.services }
    {
        self.services.as_slice()
    }

    /// The devices as expansions take them.
    pub fn table(&self) -> &Devices
        ensures { result.now ≡ self.now.table }
    {
        &self.table
    }

    /// The number of the device of a name.
    pub fn number_of(&self, name: &Text) -> Option<usize>
        ensures place { result ≡ place_of self.now.names name.now }
        ensures within { IfSome result (λ n. n < length self.now.names) }
    {
        self.names.place(name)
    }
}

/// The name of the device of a number.
pub fn device_name(names: &[Text], device: u32) -> &Text
    requires { device < length names.now }
    ensures { result.now ≡ name_of names.now device }
{
    &names[device as usize]
}
