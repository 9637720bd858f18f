//! The JSON of the items below a path: where the rows have a JSON value, this is it.
ghost use Rattle.std.specs.Prelude.{◌≡◌, Some, IfOk, OnOk};
ghost use Rattle.serde_json.specs.View.{view, items_view, members_view};
ghost use Rattle.orc_json.specs.inside.Fronts.{MakesMembers, PutsNode, MakesNode, MakesEntries, MakesEntry};

use crate::runs::{first_steps, name_front, step_at, step_front};
use crate::texts::{leaf_value, put_keys, put_member, values_of};
use orc_path::{Item, Path, Step};
use orc_schema_nodes::{Node, Schema};
use orc_text::{Memory, Text};
use serde_json::{Map, Value};
use std::alloc::Global;

/// The object of the rows that go on below these steps, with no more than `left` steps there.
#[cycle(objects)]
pub(crate) fn object_of(
    alloc: Global,
    schema: &Schema,
    left: usize,
    at: &[Step],
    rows: &[(Path, Item)],
) -> Result<Map<String, Value>, Memory>
    ensures { IfOk result (λ made. MakesMembers schema.now left at.now rows.now (members_view made.entries)) }
{
    let mut members = Map::new(alloc);
    if left == 0 {
        return Ok(members);
    }
    let mut rest = rows;
    while !rest.is_empty() {
        let (front, behind) = rest.split_at(name_front(rest, at.len()));
        put_node(alloc, schema, left - 1, at, front, &mut members)?;
        rest = behind;
    }
    Ok(members)
}

// Puts the member of a node below these steps, of its rows.
#[cycle(objects)]
fn put_node(
    alloc: Global,
    schema: &Schema,
    left: usize,
    at: &[Step],
    rows: &[(Path, Item)],
    members: &mut Map<String, Value>,
) -> Result<(), Memory>
    ensures { OnOk result (PutsNode schema.now left at.now rows.now
        (members_view members.old.entries) (members_view members.new.entries)) }
{
    let Some((row, _)) = rows.split_first() else {
        return Ok(());
    };
    let Some(step) = step_at(&row.0, at.len()) else {
        return Ok(());
    };
    let name = step.node.as_str();
    let Some(node) = schema.node_below(at, name) else {
        return Ok(());
    };
    let value = node_value(alloc, schema, left, at, node, rows)?;
    put_member(alloc, members, name, value)?;
    Ok(())
}

// The value of a node below these steps, of its rows.
#[cycle(objects)]
fn node_value(
    alloc: Global,
    schema: &Schema,
    left: usize,
    at: &[Step],
    node: &Node,
    rows: &[(Path, Item)],
) -> Result<Value, Memory>
    ensures { IfOk result (λ made. MakesNode schema.now left at.now (Some node.now) rows.now (view made)) }
{
    match node {
        Node::Container => {
            let steps = first_steps(rows, at.len() + 1);
            Ok(Value::Object(object_of(alloc, schema, left, steps, rows)?))
        }
        Node::List(list) => Ok(Value::Array(entries_of(
            alloc,
            schema,
            left,
            at,
            list.keys.as_slice(),
            rows,
        )?)),
        Node::Leaf(leaf) => leaf_value(alloc, &leaf.kind, rows),
        Node::LeafList(values) => Ok(Value::Array(values_of(alloc, at.len(), &values.kind, rows)?)),
    }
}

// The entries of a list below these steps whose keys have these names, of their rows.
#[cycle(objects)]
fn entries_of(
    alloc: Global,
    schema: &Schema,
    left: usize,
    at: &[Step],
    names: &[Text],
    rows: &[(Path, Item)],
) -> Result<Vec<Value>, Memory>
    ensures { IfOk result (λ made. MakesEntries schema.now left at.now names.now rows.now (items_view made.items)) }
{
    let mut entries = Vec::new(alloc);
    let mut rest = rows;
    while !rest.is_empty() {
        let (front, behind) = rest.split_at(step_front(rest, at.len()));
        entries.push(entry_value(alloc, schema, left, at, names, front)?)?;
        rest = behind;
    }
    Ok(entries)
}

// An entry of a list, of its rows.
#[cycle(objects)]
fn entry_value(
    alloc: Global,
    schema: &Schema,
    left: usize,
    at: &[Step],
    names: &[Text],
    rows: &[(Path, Item)],
) -> Result<Value, Memory>
    ensures { IfOk result (λ made. MakesEntry schema.now left at.now names.now rows.now (view made)) }
{
    let Some((_, inside)) = rows.split_first() else {
        return Ok(Value::Null);
    };
    let steps = first_steps(rows, at.len() + 1);
    let Some((step, _)) = steps.split_last() else {
        return Ok(Value::Null);
    };
    let mut members = object_of(alloc, schema, left, steps, inside)?;
    put_keys(
        alloc,
        schema,
        steps,
        names,
        step.keys.as_slice(),
        &mut members,
    )?;
    Ok(Value::Object(members))
}
