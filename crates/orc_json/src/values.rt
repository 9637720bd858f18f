//! Leaves, leaf-lists and keys.
ghost use Rattle.std.specs.Prelude.{◌≡◌, ℕ, List, OnOk, IsTrue};
ghost use Rattle.serde_json.specs.Find.{as_array};
ghost use Rattle.serde_json.specs.View.{view, items_view};
ghost use Rattle.orc_path.specs.Items.{fits};
ghost use Rattle.orc_path.specs.declared.item.Item.TheVariants.{Leaf};
ghost use Rattle.orc_path.specs.Steps.{is_name_behind};
ghost use Rattle.orc_value.specs.Json.{canon_of_json};
ghost use Rattle.orc_json.specs.Findings.{value_rule, leaf_value, entry_value, values, leaf_list, leaf_found};
ghost use Rattle.orc_json.specs.Readings.{find_all};

use crate::fault::{KIND, MEMBER, VALUE};
use crate::reading::Reading;
use crate::steps::{one_key, path_below};
use orc_path::{Item, Name, Path};
use orc_schema_nodes::LeafNode;
use orc_text::{Memory, Row};
use orc_value::{KIND as OTHER_KIND, Kind, ValueFault, from_json};
use serde_json::Value;
use std::alloc::Global;

// The rule that a JSON value breaks which breaks this one of `orc_value`.
fn value_rule(rule: u8) -> u8
    ensures { result ≡ value_rule rule }
{
    if rule == OTHER_KIND { KIND } else { VALUE }
}

// The value of a leaf.
fn read_leaf_value(
    alloc: Global,
    kind: &Kind,
    path: Path,
    value: &Value,
    reading: &mut Reading,
) -> Result<(), Memory>
    requires { (text : List ℕ) → IsTrue (fits path (Leaf text)) }
    ensures { OnOk result
        (reading.new ≡ find_all (leaf_value path (canon_of_json kind.now (view value.now))) reading.old) }
{
    match from_json(alloc, kind, value) {
        Ok(text) => reading.state(alloc, path, Item::Leaf(text)),
        Err(ValueFault::BadValue { rule }) => {
            reading.break_rule(path, value_rule(rule));
            Ok(())
        }
        Err(ValueFault::Memory) => Err(Memory),
    }
}

/// A leaf. One that is a key belongs to an entry of its list, and stands nowhere else.
pub(crate) fn read_leaf(
    alloc: Global,
    leaf: &LeafNode,
    path: Path,
    value: &Value,
    reading: &mut Reading,
) -> Result<(), Memory>
    requires { (text : List ℕ) → IsTrue (fits path (Leaf text)) }
    ensures { OnOk result (reading.new ≡ find_all (leaf_found leaf.now path (view value.now)) reading.old) }
{
    if leaf.key.is_some() {
        reading.break_rule(path, MEMBER);
        return Ok(());
    }
    read_leaf_value(alloc, &leaf.kind, path, value, reading)
}

// A value of a leaf-list.
fn read_entry_value(
    alloc: Global,
    kind: &Kind,
    at: &Path,
    name: &Name,
    value: &Value,
    reading: &mut Reading,
) -> Result<(), Memory>
    requires { IsTrue (is_name_behind at.now name.now) }
    ensures { OnOk result
        (reading.new ≡ find_all (entry_value at.now name.now (canon_of_json kind.now (view value.now))) reading.old) }
{
    match from_json(alloc, kind, value) {
        Ok(text) => {
            let path = path_below(alloc, at, name, one_key(alloc, text)?)?;
            reading.state(alloc, path, Item::Entry)
        }
        Err(ValueFault::BadValue { rule }) => {
            reading.break_rule(
                path_below(alloc, at, name, Row::new(alloc))?,
                value_rule(rule),
            );
            Ok(())
        }
        Err(ValueFault::Memory) => Err(Memory),
    }
}

// The values of a leaf-list.
fn read_values(
    alloc: Global,
    kind: &Kind,
    at: &Path,
    name: &Name,
    items: &[Value],
    reading: &mut Reading,
) -> Result<(), Memory>
    requires { IsTrue (is_name_behind at.now name.now) }
    ensures { OnOk result
        (reading.new ≡ find_all (values kind.now at.now name.now (items_view items.now)) reading.old) }
{
    for item in items {
        read_entry_value(alloc, kind, at, name, item, reading)?;
    }
    Ok(())
}

/// A leaf-list.
pub(crate) fn read_leaf_list(
    alloc: Global,
    kind: &Kind,
    at: &Path,
    name: &Name,
    value: &Value,
    reading: &mut Reading,
) -> Result<(), Memory>
    requires { IsTrue (is_name_behind at.now name.now) }
    ensures { OnOk result
        (reading.new ≡ find_all (leaf_list kind.now at.now name.now (as_array (view value.now))) reading.old) }
{
    match value.as_array() {
        Some(items) => read_values(alloc, kind, at, name, items.as_slice(), reading),
        None => {
            reading.break_rule(path_below(alloc, at, name, Row::new(alloc))?, KIND);
            Ok(())
        }
    }
}
