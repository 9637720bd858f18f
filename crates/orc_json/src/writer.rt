//! The JSON text of configurations.
ghost use Rattle.std.specs.Prelude.{IfOk, IsTrue};
ghost use Rattle.orc_json.specs.Readings.{IsReadAs};
ghost use Rattle.orc_json.specs.Written.{HasJson, IsJsonTextOf, has_short_paths};

use crate::object::object_of;
use crate::runs::longest;
use orc_schema_nodes::Schema;
use orc_text::Memory;
use orc_tree::Tree;
use serde_json::Value;
use std::alloc::Global;

/// The JSON text of a configuration under a schema (RFC 7951): compact, the members of an object in
/// the order of their bytes, the entries of a list in path order, and no container or list without
/// an item. Of a configuration with an item that isn't in the schema, or with a text that isn't
/// canonical, nothing is said.
pub fn write(alloc: Global, schema: &Schema, tree: &Tree) -> Result<Vec<u8>, Memory>
    ensures text { IfOk result (λ bytes. IsJsonTextOf schema.now tree.now bytes.items) }
    // It is read back.
    ensures back { IfOk result (λ bytes. HasJson schema.now tree.now → IsTrue (has_short_paths tree.now)
        → IsReadAs schema.now bytes.items tree.now) }
{
    let rows = tree.walk(alloc)?;
    let left = longest(rows.as_slice());
    let members = object_of(alloc, schema, left, &[], rows.as_slice())?;
    Ok(Value::Object(members).to_vec(alloc)?)
}
