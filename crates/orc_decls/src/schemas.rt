//! The schemas of devices.
ghost use Rattle.std.specs.Prelude.{◌≡◌, slice_get};
ghost use Rattle.std.specs.Option.{option_copied};
ghost use Rattle.orc_schema_nodes.specs.Schemas.{plain_table};
ghost use Rattle.orc_decls.specs.Calls.{schema_in, schema_named};
ghost use Rattle.orc_decls.specs.Devices.{names_of};

use crate::{Decls, Device, Names};
use orc_schema_nodes::Schema;
use orc_text::Text;

/// The schema of a place; the plain one where there is none.
pub fn schema_in<'a>(schemas: &'a [Schema], place: u32, plain: &'a Schema) -> &'a Schema
    requires { plain.now ≡ plain_table }
    ensures { result.now ≡ schema_in schemas.now place }
{
    match schemas.get(place as usize) {
        Some(schema) => schema,
        None => plain,
    }
}

// The device of a number.
fn device_at(devices: &[Device], n: usize) -> Option<&Device>
    ensures { option_copied result ≡ slice_get devices.now n }
{
    devices.get(n)
}

/// The schema of the device of a name, where the devices have these names; the plain one where none is
/// declared.
pub fn schema_named<'a>(
    names: &Names,
    schemas: &'a [Schema],
    devices: &'a [Device],
    name: &Text,
    plain: &'a Schema,
) -> &'a Schema
    requires named { names.now ≡ names_of devices.now }
    requires plain { plain.now ≡ plain_table }
    ensures { result.now ≡ schema_named schemas.now devices.now name.now }
{
    let Some(n) = names.place(name) else {
        return plain;
    };
    match device_at(devices, n) {
        Some(device) => schema_in(schemas, device.schema, plain),
        None => plain,
    }
}

impl Decls {
    /// The schema of the device of a name; the plain one where none is declared.
    pub fn schema_named<'a>(&'a self, name: &Text, plain: &'a Schema) -> &'a Schema
        requires named { self.now.names ≡ names_of self.now.devices }
        requires plain { plain.now ≡ plain_table }
        ensures { result.now ≡ schema_named self.now.schemas self.now.devices name.now }
    {
        schema_named(self.numbered(), self.schemas(), self.devices(), name, plain)
    }
}
