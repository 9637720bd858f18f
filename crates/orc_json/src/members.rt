//! Objects, their members, and lists of objects.
ghost use Rattle.std.specs.Prelude.{◌≡◌, OnOk, IsTrue};
ghost use Rattle.serde_json.specs.View.{view, items_view, members_view};
ghost use Rattle.orc_path.specs.Steps.{is_name_behind};
ghost use Rattle.orc_json.specs.Findings.{object_at, members_at, member_at, node_of_name, list_at, entries_at, entry_at, is_key_name};
ghost use Rattle.orc_json.specs.Readings.{find_all};

use crate::fault::{KEY, KIND, MEMBER};
use crate::keys::entry_keys;
use crate::reading::Reading;
use crate::steps::{name_behind, path_below};
use crate::values::{read_leaf, read_leaf_list};
use orc_path::{Item, Name, Path};
use orc_schema_nodes::{Node, Schema};
use orc_text::{Memory, Row, Text};
use serde_json::{Map, Value};
use std::alloc::Global;

// Whether a text is one of the names.
fn is_key_name(names: &[Text], text: &str) -> bool
    ensures { result ≡ is_key_name names.now text.now }
{
    names.iter().any(|name| text == name.as_str())
}

/// The JSON object at a path, in which the members of an entry's keys have these names.
#[cycle(members)]
pub(crate) fn read_object(
    alloc: Global,
    schema: &Schema,
    keys: &[Text],
    at: &Path,
    value: &Value,
    reading: &mut Reading,
) -> Result<(), Memory>
    ensures { OnOk result
        (reading.new ≡ find_all (object_at schema.now keys.now at.now (view value.now)) reading.old) }
{
    match value {
        Value::Object(members) => read_members(alloc, schema, keys, at, members, reading),
        Value::Null | Value::Bool(_) | Value::Number(_) | Value::String(_) | Value::Array(_) => {
            reading.break_rule(at.copy(alloc)?, KIND);
            Ok(())
        }
    }
}

// The members of an object.
#[cycle(members)]
fn read_members(
    alloc: Global,
    schema: &Schema,
    keys: &[Text],
    at: &Path,
    members: &Map<String, Value>,
    reading: &mut Reading,
) -> Result<(), Memory>
    ensures { OnOk result
        (reading.new
        ≡ find_all (members_at schema.now keys.now at.now (members_view members.now.entries)) reading.old) }
{
    for (name, value) in members.iter() {
        read_member(alloc, schema, keys, at, name.as_str(), value, reading)?;
    }
    Ok(())
}

// A member of an object.
#[cycle(members)]
fn read_member(
    alloc: Global,
    schema: &Schema,
    keys: &[Text],
    at: &Path,
    name: &str,
    value: &Value,
    reading: &mut Reading,
) -> Result<(), Memory>
    ensures { OnOk result
        (reading.new ≡ find_all (member_at schema.now keys.now at.now name.now (view value.now)) reading.old) }
{
    if is_key_name(keys, name) {
        return Ok(());
    }
    match name_behind(alloc, at, name)? {
        Some(name) => read_node(alloc, schema, at, &name, value, reading),
        None => {
            reading.break_rule(at.copy(alloc)?, MEMBER);
            Ok(())
        }
    }
}

// What a name stands for in the schema.
#[cycle(members)]
fn read_node(
    alloc: Global,
    schema: &Schema,
    at: &Path,
    name: &Name,
    value: &Value,
    reading: &mut Reading,
) -> Result<(), Memory>
    requires { IsTrue (is_name_behind at.now name.now) }
    ensures { OnOk result
        (reading.new ≡ find_all (node_of_name schema.now at.now name.now (view value.now)) reading.old) }
{
    let path = path_below(alloc, at, name, Row::new(alloc))?;
    match schema.node_below(at.steps.as_slice(), name.as_str()) {
        Some(Node::Container) => read_object(alloc, schema, &[], &path, value, reading),
        Some(Node::List(list)) => read_list(
            alloc,
            schema,
            list.keys.as_slice(),
            at,
            name,
            value,
            reading,
        ),
        Some(Node::Leaf(leaf)) => read_leaf(alloc, leaf, path, value, reading),
        Some(Node::LeafList(values)) => read_leaf_list(
            alloc,
            &values.kind,
            at,
            name,
            value,
            reading,
        ),
        None => {
            reading.break_rule(path, MEMBER);
            Ok(())
        }
    }
}

// A list: an array of objects.
#[cycle(members)]
fn read_list(
    alloc: Global,
    schema: &Schema,
    keys: &[Text],
    at: &Path,
    name: &Name,
    value: &Value,
    reading: &mut Reading,
) -> Result<(), Memory>
    requires { IsTrue (is_name_behind at.now name.now) }
    ensures { OnOk result
        (reading.new ≡ find_all (list_at schema.now keys.now at.now name.now (view value.now)) reading.old) }
{
    match value {
        Value::Array(items) => read_entries(alloc, schema, keys, at, name, items, reading),
        Value::Null | Value::Bool(_) | Value::Number(_) | Value::String(_) | Value::Object(_) => {
            reading.break_rule(path_below(alloc, at, name, Row::new(alloc))?, KIND);
            Ok(())
        }
    }
}

// The entries of a list.
#[cycle(members)]
fn read_entries(
    alloc: Global,
    schema: &Schema,
    keys: &[Text],
    at: &Path,
    name: &Name,
    items: &Vec<Value>,
    reading: &mut Reading,
) -> Result<(), Memory>
    requires { IsTrue (is_name_behind at.now name.now) }
    ensures { OnOk result
        (reading.new
        ≡ find_all (entries_at schema.now keys.now at.now name.now (items_view items.now.items)) reading.old) }
{
    for item in items {
        read_list_entry(alloc, schema, keys, at, name, item, reading)?;
    }
    Ok(())
}

// An entry of a list.
#[cycle(members)]
fn read_list_entry(
    alloc: Global,
    schema: &Schema,
    keys: &[Text],
    at: &Path,
    name: &Name,
    value: &Value,
    reading: &mut Reading,
) -> Result<(), Memory>
    requires { IsTrue (is_name_behind at.now name.now) }
    ensures { OnOk result
        (reading.new ≡ find_all (entry_at schema.now keys.now at.now name.now (view value.now)) reading.old) }
{
    let list = path_below(alloc, at, name, Row::new(alloc))?;
    match value {
        Value::Object(members) => match entry_keys(
            alloc,
            schema,
            list.steps.as_slice(),
            value,
            keys,
        )? {
            Some(texts) => {
                let path = path_below(alloc, at, name, texts)?;
                reading.state(alloc, path.copy(alloc)?, Item::Entry)?;
                read_members(alloc, schema, keys, &path, members, reading)
            }
            None => {
                reading.break_rule(list, KEY);
                Ok(())
            }
        },
        Value::Null | Value::Bool(_) | Value::Number(_) | Value::String(_) | Value::Array(_) => {
            reading.break_rule(list, KIND);
            Ok(())
        }
    }
}
