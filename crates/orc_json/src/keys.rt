//! The keys of an entry.
ghost use Rattle.std.specs.Prelude.{◌≡◌, ◌++◌, ◌∷◌, [], IfOk, IfSome, IsTrue};
ghost use Rattle.std.specs.List.{list_all};
ghost use Rattle.serde_json.specs.Find.{get};
ghost use Rattle.serde_json.specs.View.{view};
ghost use Rattle.orc_path.specs.Alphabet.{is_key};
ghost use Rattle.orc_value.specs.Json.{canon_of_json};
ghost use Rattle.orc_schema_nodes.specs.Schemas.{path_names};
ghost use Rattle.orc_json.specs.Findings.{entry_key, key_texts, entry_keys};

use orc_path::Step;
use orc_schema_nodes::Schema;
use orc_text::{Memory, Row, Text};
use orc_value::{ValueFault, from_json};
use serde_json::Value;
use std::alloc::Global;

// The canonical text of a key, where the entry has a value of the key's type.
fn entry_key(
    alloc: Global,
    schema: &Schema,
    list: &[Step],
    entry: &Value,
    key: &Text,
) -> Result<Option<Text>, Memory>
    ensures value { IfOk result
        (λ text. text ≡ entry_key schema.now (path_names list.now) (view entry.now) key.now) }
    ensures key { IfOk result (λ text. IfSome text (λ key. IsTrue (is_key key))) }
{
    let Some(kind) = schema.kind_below(list, key.as_str()) else {
        return Ok(None);
    };
    let Some(value) = entry.get(key.as_str()) else {
        return Ok(None);
    };
    match from_json(alloc, kind, value) {
        Ok(text) => Ok(Some(text)),
        Err(ValueFault::BadValue { rule: _ }) => Ok(None),
        Err(ValueFault::Memory) => Err(Memory),
    }
}

// The keys of an entry, where it has each of them.
fn key_texts(
    alloc: Global,
    schema: &Schema,
    list: &[Step],
    entry: &Value,
    names: &[Text],
) -> Result<Option<Row<Text>>, Memory>
    ensures value { IfOk result
        (λ texts. texts ≡ key_texts schema.now (path_names list.now) (view entry.now) names.now) }
    ensures keys { IfOk result (λ texts. IfSome texts (λ keys. IsTrue (list_all is_key keys))) }
{
    let mut keys = Row::new(alloc);
    for name in names {
        match entry_key(alloc, schema, list, entry, name)? {
            Some(text) => keys.push(text)?,
            None => return Ok(None),
        }
    }
    Ok(Some(keys))
}

/// The keys of an entry of a list with keys of these names, of which there is one at least, where
/// it has each of them.
pub(crate) fn entry_keys(
    alloc: Global,
    schema: &Schema,
    list: &[Step],
    entry: &Value,
    names: &[Text],
) -> Result<Option<Row<Text>>, Memory>
    ensures value { IfOk result
        (λ keys. keys ≡ entry_keys schema.now (path_names list.now) (view entry.now) names.now) }
    ensures keys { IfOk result (λ texts. IfSome texts (λ keys. IsTrue (list_all is_key keys))) }
{
    if names.is_empty() {
        return Ok(None);
    }
    key_texts(alloc, schema, list, entry, names)
}
