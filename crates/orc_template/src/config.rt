//! The members of a block's `config`, by the schema of its device.
ghost use Rattle.std.specs.Prelude.{◌≡◌, ℕ, List, IsTrue};
ghost use Rattle.serde_json.specs.Find.{as_array};
ghost use Rattle.serde_json.specs.View.{view as json_view, items_view, members_view};
ghost use Rattle.orc_path.specs.Items.{fits};
ghost use Rattle.orc_path.specs.Steps.{is_name_behind};
ghost use Rattle.orc_path.specs.declared.item.Item.TheVariants.{Leaf};
ghost use Rattle.orc_json.specs.Findings.{is_key_name};
ghost use Rattle.orc_template.specs.Writing.{Writes, leaf_written, leaf_done, entry_value_done, values_done, leaf_list_done, object_done, members_done, list_done, entries_done, entry_done};
ghost use Rattle.orc_template.specs.inside.Machine.{scene};
ghost use Rattle.orc_template.specs.inside.Nodes.{node_of_name, member_at_name};

use crate::fault::{BAD_LEAF, Halt};
use crate::values::{key_texts, value_text};
use crate::writing::Writing;
use orc_json::{name_behind, one_key, path_below};
use orc_path::{DataView, Item, Name, Path};
use orc_schema_nodes::{LeafNode, Node, Schema};
use orc_text::{Row, Text};
use orc_value::Kind;
use serde_json::{Map, Value};
use std::alloc::Global;

// Whether a text is one of the names.
fn is_key_name(names: &[Text], text: &str) -> bool
    ensures { result ≡ is_key_name names.now text.now }
{
    names.iter().any(|name| text == name.as_str())
}

// The value of a leaf.
fn write_leaf<V: DataView>(
    alloc: Global,
    view: &V,
    here: &Path,
    kind: &Kind,
    path: Path,
    value: &Value,
    writing: &mut Writing,
) -> Result<(), Halt>
    requires { (text : List ℕ) → IsTrue (fits path (Leaf text)) }
    ensures { Writes (leaf_written (scene (V.viewed view.now) here.now) kind.now path (json_view value.now)
        writing.old) writing.new result }
{
    let text = value_text(alloc, view, here, kind, value, &mut writing.reads)?;
    writing.write(path, Item::Leaf(text))
}

// A leaf. One that is a key belongs to an entry of its list, and stands nowhere else.
fn do_leaf<V: DataView>(
    alloc: Global,
    view: &V,
    here: &Path,
    leaf: &LeafNode,
    path: Path,
    value: &Value,
    writing: &mut Writing,
) -> Result<(), Halt>
    requires { (text : List ℕ) → IsTrue (fits path (Leaf text)) }
    ensures { Writes (leaf_done (scene (V.viewed view.now) here.now) leaf.now path (json_view value.now) writing.old)
        writing.new result }
{
    if leaf.key.is_some() {
        return Err(Halt::Rule(BAD_LEAF));
    }
    write_leaf(alloc, view, here, &leaf.kind, path, value, writing)
}

// A value of a leaf-list.
fn do_entry_value<V: DataView>(
    alloc: Global,
    view: &V,
    here: &Path,
    kind: &Kind,
    at: &Path,
    name: &Name,
    value: &Value,
    writing: &mut Writing,
) -> Result<(), Halt>
    requires { IsTrue (is_name_behind at.now name.now) }
    ensures { Writes (entry_value_done (scene (V.viewed view.now) here.now) kind.now at.now name.now
        (json_view value.now) writing.old) writing.new result }
{
    let text = value_text(alloc, view, here, kind, value, &mut writing.reads)?;
    let path = path_below(alloc, at, name, one_key(alloc, text)?)?;
    writing.write(path, Item::Entry)
}

// The values of a leaf-list.
fn do_values<V: DataView>(
    alloc: Global,
    view: &V,
    here: &Path,
    kind: &Kind,
    at: &Path,
    name: &Name,
    items: &[Value],
    writing: &mut Writing,
) -> Result<(), Halt>
    requires { IsTrue (is_name_behind at.now name.now) }
    ensures { Writes (values_done (scene (V.viewed view.now) here.now) kind.now at.now name.now
        (items_view items.now) writing.old) writing.new result }
{
    for item in items {
        do_entry_value(alloc, view, here, kind, at, name, item, writing)?;
    }
    Ok(())
}

// A leaf-list: an array of values.
fn do_leaf_list<V: DataView>(
    alloc: Global,
    view: &V,
    here: &Path,
    kind: &Kind,
    at: &Path,
    name: &Name,
    value: &Value,
    writing: &mut Writing,
) -> Result<(), Halt>
    requires { IsTrue (is_name_behind at.now name.now) }
    ensures { Writes (leaf_list_done (scene (V.viewed view.now) here.now) kind.now at.now name.now
        (as_array (json_view value.now)) writing.old) writing.new result }
{
    match value.as_array() {
        Some(items) => do_values(alloc, view, here, kind, at, name, items.as_slice(), writing),
        None => Err(Halt::Rule(BAD_LEAF)),
    }
}

/// The JSON object at a path, in which the members of an entry's keys have these names.
#[cycle(config)]
pub(crate) fn do_object<V: DataView>(
    alloc: Global,
    view: &V,
    here: &Path,
    schema: &Schema,
    keys: &[Text],
    at: &Path,
    value: &Value,
    writing: &mut Writing,
) -> Result<(), Halt>
    ensures { Writes (object_done (scene (V.viewed view.now) here.now) schema.now keys.now at.now
        (json_view value.now) writing.old) writing.new result }
{
    match value {
        Value::Object(members) => do_members(alloc, view, here, schema, keys, at, members, writing),
        Value::Null | Value::Bool(_) | Value::Number(_) | Value::String(_) | Value::Array(_) => {
            Err(Halt::Rule(BAD_LEAF))
        }
    }
}

// The members of an object.
#[cycle(config)]
fn do_members<V: DataView>(
    alloc: Global,
    view: &V,
    here: &Path,
    schema: &Schema,
    keys: &[Text],
    at: &Path,
    members: &Map<String, Value>,
    writing: &mut Writing,
) -> Result<(), Halt>
    ensures { Writes (members_done (scene (V.viewed view.now) here.now) schema.now keys.now at.now
        (members_view members.now.entries) writing.old) writing.new result }
{
    for (name, value) in members.iter() {
        do_member(
            alloc,
            view,
            here,
            schema,
            keys,
            at,
            name.as_str(),
            value,
            writing,
        )?;
    }
    Ok(())
}

// A member of an object.
#[cycle(config)]
fn do_member<V: DataView>(
    alloc: Global,
    view: &V,
    here: &Path,
    schema: &Schema,
    keys: &[Text],
    at: &Path,
    name: &str,
    value: &Value,
    writing: &mut Writing,
) -> Result<(), Halt>
    ensures { Writes (member_at_name (scene (V.viewed view.now) here.now) schema.now keys.now at.now name.now
        (json_view value.now) writing.old) writing.new result }
{
    if is_key_name(keys, name) {
        return Ok(());
    }
    match name_behind(alloc, at, name)? {
        Some(name) => do_node(alloc, view, here, schema, at, &name, value, writing),
        None => Err(Halt::Rule(BAD_LEAF)),
    }
}

// What a name stands for in the schema.
#[cycle(config)]
fn do_node<V: DataView>(
    alloc: Global,
    view: &V,
    here: &Path,
    schema: &Schema,
    at: &Path,
    name: &Name,
    value: &Value,
    writing: &mut Writing,
) -> Result<(), Halt>
    requires { IsTrue (is_name_behind at.now name.now) }
    ensures { Writes (node_of_name (scene (V.viewed view.now) here.now) schema.now at.now name.now
        (json_view value.now) writing.old) writing.new result }
{
    let path = path_below(alloc, at, name, Row::new(alloc))?;
    match schema.node_below(at.steps.as_slice(), name.as_str()) {
        Some(Node::Container) => {
            do_object(alloc, view, here, schema, &[], &path, value, writing)
        }
        Some(Node::List(list)) => do_list(
            alloc,
            view,
            here,
            schema,
            list.keys.as_slice(),
            at,
            name,
            value,
            writing,
        ),
        Some(Node::Leaf(leaf)) => do_leaf(alloc, view, here, leaf, path, value, writing),
        Some(Node::LeafList(values)) => do_leaf_list(
            alloc,
            view,
            here,
            &values.kind,
            at,
            name,
            value,
            writing,
        ),
        None => Err(Halt::Rule(BAD_LEAF)),
    }
}

// A list: an array of objects.
#[cycle(config)]
fn do_list<V: DataView>(
    alloc: Global,
    view: &V,
    here: &Path,
    schema: &Schema,
    keys: &[Text],
    at: &Path,
    name: &Name,
    value: &Value,
    writing: &mut Writing,
) -> Result<(), Halt>
    requires { IsTrue (is_name_behind at.now name.now) }
    ensures { Writes (list_done (scene (V.viewed view.now) here.now) schema.now keys.now at.now name.now
        (json_view value.now) writing.old) writing.new result }
{
    match value {
        Value::Array(items) => {
            do_entries(alloc, view, here, schema, keys, at, name, items, writing)
        }
        Value::Null | Value::Bool(_) | Value::Number(_) | Value::String(_) | Value::Object(_) => {
            Err(Halt::Rule(BAD_LEAF))
        }
    }
}

// The entries of a list.
#[cycle(config)]
fn do_entries<V: DataView>(
    alloc: Global,
    view: &V,
    here: &Path,
    schema: &Schema,
    keys: &[Text],
    at: &Path,
    name: &Name,
    items: &Vec<Value>,
    writing: &mut Writing,
) -> Result<(), Halt>
    requires { IsTrue (is_name_behind at.now name.now) }
    ensures { Writes (entries_done (scene (V.viewed view.now) here.now) schema.now keys.now at.now name.now
        (items_view items.now.items) writing.old) writing.new result }
{
    for item in items {
        do_entry(alloc, view, here, schema, keys, at, name, item, writing)?;
    }
    Ok(())
}

// An entry of a list: its keys first, then the entry, then its other members.
#[cycle(config)]
fn do_entry<V: DataView>(
    alloc: Global,
    view: &V,
    here: &Path,
    schema: &Schema,
    keys: &[Text],
    at: &Path,
    name: &Name,
    value: &Value,
    writing: &mut Writing,
) -> Result<(), Halt>
    requires { IsTrue (is_name_behind at.now name.now) }
    ensures { Writes (entry_done (scene (V.viewed view.now) here.now) schema.now keys.now at.now name.now
        (json_view value.now) writing.old) writing.new result }
{
    match value {
        Value::Object(members) => {
            let list = path_below(alloc, at, name, Row::new(alloc))?;
            let texts = key_texts(
                alloc,
                view,
                here,
                schema,
                list.steps.as_slice(),
                value,
                keys,
                &mut writing.reads,
            )?;
            let entry = path_below(alloc, at, name, texts)?;
            writing.write(entry.copy(alloc)?, Item::Entry)?;
            do_members(alloc, view, here, schema, keys, &entry, members, writing)
        }
        Value::Null | Value::Bool(_) | Value::Number(_) | Value::String(_) | Value::Array(_) => {
            Err(Halt::Rule(BAD_LEAF))
        }
    }
}
