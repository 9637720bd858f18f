//! The JSON of texts: of leaves, of the values of a leaf-list, and of an entry's keys.
ghost use Rattle.std.specs.Prelude.{◌≡◌, ◌++◌, ◌∷◌, [], ℕ, List, Ok, IfOk, OnOk, IsTrue, false, length};
ghost use Rattle.std.specs.Option.{option_map_or};
ghost use Rattle.serde_json.specs.Data.{Items, put};
ghost use Rattle.serde_json.specs.View.{view, items_view, members_view};
ghost use Rattle.orc_path.specs.Steps.{PathStep};
ghost use Rattle.orc_path.specs.declared.item.Item.TheVariants.{Leaf};
ghost use Rattle.orc_value.specs.Canon.{canon_of, is_canonical};
ghost use Rattle.orc_value.specs.Json.{json_of};
ghost use Rattle.orc_schema_nodes.specs.Schemas.{path_names};
ghost use Rattle.orc_json.specs.Findings.{below, key_kind};
ghost use Rattle.orc_json.specs.Written.{AreValues, are_keys, with_key_member, with_key_members};

use orc_path::{Item, Path, Step};
use orc_schema_nodes::Schema;
use orc_text::{Memory, Text};
use orc_value::{Kind, is_canonical, to_json};
use serde_json::{Map, Value};
use std::alloc::Global;

// The JSON of a text of this kind. One that isn't canonical has none.
fn text_value(alloc: Global, kind: &Kind, text: &Text) -> Result<Value, Memory>
    ensures { IfOk result (λ value. IsTrue (is_canonical kind.now text.now) → view value ≡ json_of kind.now text.now) }
{
    if is_canonical(kind, text) {
        to_json(alloc, kind, text)
    } else {
        Ok(Value::Null)
    }
}

/// The value of a leaf, of its row.
pub(crate) fn leaf_value(alloc: Global, kind: &Kind, rows: &[(Path, Item)]) -> Result<Value, Memory>
    ensures { IfOk result (λ value. (path : List PathStep) (text : List ℕ) → rows.now ≡ (path, Leaf text) ∷ []
        → IsTrue (is_canonical kind.now text) → view value ≡ json_of kind.now text) }
{
    match rows.split_first() {
        Some((row, _)) => match &row.1 {
            Item::Leaf(text) => text_value(alloc, kind, text),
            Item::Entry => Ok(Value::Null),
        },
        None => Ok(Value::Null),
    }
}

// The JSON of the key of a row after so many steps.
fn key_value(alloc: Global, depth: usize, kind: &Kind, path: &Path) -> Result<Value, Memory>
    ensures { IfOk result (λ value. (at : List PathStep) (name text : List ℕ) → length at ≡ depth
        → path.now ≡ below at name (text ∷ []) → IsTrue (is_canonical kind.now text)
        → view value ≡ json_of kind.now text) }
{
    let steps = path.steps.as_slice();
    match steps.get(depth) {
        Some(step) => match step.keys.as_slice() {
            [text, ..] => text_value(alloc, kind, text),
            [] => Ok(Value::Null),
        },
        None => Ok(Value::Null),
    }
}

/// The values of a leaf-list, of its rows.
pub(crate) fn values_of(
    alloc: Global,
    depth: usize,
    kind: &Kind,
    rows: &[(Path, Item)],
) -> Result<Vec<Value>, Memory>
    ensures { IfOk result (λ values. (at : List PathStep) (name : List ℕ) (ds : Items) → length at ≡ depth
        → AreValues kind.now at name rows.now ds → items_view values.items ≡ ds) }
{
    let mut values = Vec::new(alloc);
    for row in rows {
        values.push(key_value(alloc, depth, kind, &row.0)?)?;
    }
    Ok(values)
}

/// Puts a member into an object.
pub(crate) fn put_member(
    alloc: Global,
    members: &mut Map<String, Value>,
    name: &str,
    value: Value,
) -> Result<(), Memory>
    ensures { OnOk result
        (members_view members.new.entries ≡ put name.now (view value) (members_view members.old.entries)) }
{
    drop(members.insert(String::from_str(alloc, name)?, value)?);
    Ok(())
}

// Puts a key of the list at these steps among the members of an entry.
fn put_key(
    alloc: Global,
    schema: &Schema,
    list: &[Step],
    name: &Text,
    text: &Text,
    members: &mut Map<String, Value>,
) -> Result<(), Memory>
    ensures { OnOk result
        (IsTrue (option_map_or (λ kind. is_canonical kind text.now)
        (key_kind schema.now (path_names list.now) name.now) false)
        → members_view members.new.entries
        ≡ with_key_member (key_kind schema.now (path_names list.now) name.now) name.now text.now
        (members_view members.old.entries)) }
{
    match schema.kind_below(list, name.as_str()) {
        Some(kind) => put_member(
            alloc,
            members,
            name.as_str(),
            text_value(alloc, kind, text)?,
        ),
        None => Ok(()),
    }
}

/// Puts the keys of an entry of the list at these steps among the entry's members.
pub(crate) fn put_keys(
    alloc: Global,
    schema: &Schema,
    list: &[Step],
    names: &[Text],
    texts: &[Text],
    members: &mut Map<String, Value>,
) -> Result<(), Memory>
    ensures { OnOk result
        (IsTrue (are_keys schema.now (path_names list.now) names.now texts.now)
        → members_view members.new.entries
        ≡ with_key_members schema.now (path_names list.now) names.now texts.now (members_view members.old.entries)) }
{
    for (place, name) in names.iter().enumerate() {
        if let Some(text) = texts.get(place) {
            put_key(alloc, schema, list, name, text, members)?;
        }
    }
    Ok(())
}
