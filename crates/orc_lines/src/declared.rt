//! What was declared so far, against which the lines of declarations and of the script are read.
ghost use Rattle.std.specs.Prelude.{◌≡◌};
ghost use Rattle.orc_schema_nodes.specs.Schemas.{plain_table};
ghost use Rattle.orc_decls.specs.Calls.{schema_named};
ghost use Rattle.orc_decls.specs.Devices.{names_of};
ghost use Rattle.orc_lines.specs.Lawful.{decls_with};

use crate::names::SortedNames;
use orc_call::Put;
use orc_decls::{Decls, Device, Names, schema_named};
use orc_schema_nodes::Schema;
use orc_services::ServiceList;
use orc_template::Devices;
use orc_text::{Row, Text};
use orc_yang::Stmt;

/// Which lines may stand.
#[derive(Clone, Copy, PartialEq, Eq)]
pub enum Section {
    /// The header alone.
    Header,
    /// Declarations, or the line that ends them.
    Declarations,
    /// The script.
    Script,
}

/// What was declared so far.
pub struct Declared {
    pub section: Section,
    /// How many lines of a block are still to come.
    pub skip: u64,
    /// The names of the modules, and their statements.
    pub modules: SortedNames,
    pub statements: Row<Stmt>,
    /// The data schema is declared.
    pub has_data: bool,
    /// The types of devices.
    pub types: SortedNames,
    /// The plain schema, and after it that of each type.
    pub schemas: Row<Schema>,
    /// The names of the devices.
    pub names: Names,
    /// The devices with their bases and their rules.
    pub devices: Row<Device>,
    /// The schema of the data, and the items of its lines.
    pub data_schema: Schema,
    pub data: Row<Put>,
    /// The names of the templates, and the lists that have them.
    pub templates: SortedNames,
    pub services: Row<ServiceList>,
}

// Written out, so that a function that owns what was declared lets it go by one call at each exit.
impl Drop for Declared {
    fn drop(self) {
        let Declared {
            section: _,
            skip: _,
            modules: _,
            statements: _,
            has_data: _,
            types: _,
            schemas: _,
            names: _,
            devices: _,
            data_schema: _,
            data: _,
            templates: _,
            services: _,
        } = self;
    }
}

impl Declared {
    /// The declarations, with their text and the table of the devices.
    pub fn into_decls(self, text: Row<u8>, table: Devices) -> Decls
        ensures { result ≡ record (decls_with text self) { schemas = table.schemas; table = table } }
    {
        let Declared {
            section: _,
            skip: _,
            modules: _,
            statements: _,
            has_data: _,
            types: _,
            schemas: _,
            names,
            devices,
            data_schema,
            data,
            templates: _,
            services,
        } = self;
        Decls::of_parts(text, names, devices, table, data_schema, data, services)
    }

    /// The schema of the device of a name; the plain one where none is declared.
    pub fn schema_named<'a>(&'a self, name: &Text, plain: &'a Schema) -> &'a Schema
        requires named { self.now.names ≡ names_of self.now.devices }
        requires plain { plain.now ≡ plain_table }
        ensures { result.now ≡ schema_named self.now.schemas self.now.devices name.now }
    {
        schema_named(
            &self.names,
            self.schemas.as_slice(),
            self.devices.as_slice(),
            name,
            plain,
        )
    }
}
