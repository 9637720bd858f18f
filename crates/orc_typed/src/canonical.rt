//! The canonical form of a path's keys and of an item's text.
ghost use Rattle.std.specs.Prelude.{◌≡◌, ◌++◌, ◌∷◌, [], Some, IfOk, map, option_map};
ghost use Rattle.orc_schema_nodes.specs.Schemas.{path_names};
ghost use Rattle.orc_typed.specs.Typed.{kind_of_names, kinds_at, canonical_text, canonical_keys, canonical_step, canonical_steps, canonical_path, canonical_value, canonical_item};

use crate::kinds::kind_below;
use orc_path::{Item, Path, Step};
use orc_schema_nodes::{Node, Schema};
use orc_text::{Memory, Row, Text};
use orc_value::{Kind, ValueFault, canon};
use std::alloc::Global;

// The canonical text of a kind, where the text is of that kind.
fn canonical_text(alloc: Global, kind: Option<&Kind>, text: &Text) -> Result<Option<Text>, Memory>
    ensures { IfOk result (λ found. found ≡ canonical_text (option_map (λ known. known.now) kind.entry) text.now) }
{
    let Some(known) = kind else {
        return Ok(None);
    };
    match canon(alloc, known, text.as_str()) {
        Ok(canonical) => Ok(Some(canonical)),
        Err(ValueFault::BadValue { .. }) => Ok(None),
        Err(ValueFault::Memory) => Err(Memory),
    }
}

// Further keys of an entry of the list at these steps, after those that are done.
fn with_keys(
    alloc: Global,
    schema: &Schema,
    steps: &[Step],
    names: &[Text],
    keys: &[Text],
    mut done: Row<Text>,
) -> Result<Option<Row<Text>>, Memory>
    ensures { IfOk result (λ found. found ≡ option_map (λ later. done ++ later)
        (canonical_keys
        (map (λ name. kind_of_names schema.now (path_names steps.now ++ name ∷ [])) names.now) keys.now)) }
{
    let Some((key, later)) = keys.split_first() else {
        return Ok(Some(done));
    };
    let Some((name, below)) = names.split_first() else {
        return Ok(None);
    };
    match canonical_text(alloc, kind_below(schema, steps, name), key)? {
        Some(text) => {
            done.push(text)?;
            with_keys(alloc, schema, steps, below, later, done)
        }
        None => Ok(None),
    }
}

// The one key of an entry of a leaf-list.
fn value_key(alloc: Global, kind: &Kind, keys: &[Text]) -> Result<Option<Row<Text>>, Memory>
    ensures { IfOk result (λ found. found ≡ canonical_keys (Some kind.now ∷ []) keys.now) }
{
    match keys {
        [] => Ok(Some(Row::new(alloc))),
        [key] => match canonical_text(alloc, Some(kind), key)? {
            Some(text) => Ok(Some(Row::from_vec(vec![in alloc; text]?))),
            None => Ok(None),
        },
        _ => Ok(None),
    }
}

// No key, where there is none.
fn no_keys(alloc: Global, keys: &[Text]) -> Option<Row<Text>>
    ensures { result ≡ canonical_keys [] keys.now }
{
    if keys.is_empty() {
        Some(Row::new(alloc))
    } else {
        None
    }
}

// The keys of the last of these steps.
fn canonical_keys(
    alloc: Global,
    schema: &Schema,
    steps: &[Step],
    keys: &[Text],
) -> Result<Option<Row<Text>>, Memory>
    ensures { IfOk result (λ found. found
        ≡ canonical_keys (kinds_at schema.now (path_names steps.now)) keys.now) }
{
    match schema.node(steps) {
        Some(Node::List(list)) => with_keys(
            alloc,
            schema,
            steps,
            list.keys.as_slice(),
            keys,
            Row::new(alloc),
        ),
        Some(Node::LeafList(values)) => value_key(alloc, &values.kind, keys),
        Some(Node::Container) => Ok(no_keys(alloc, keys)),
        Some(Node::Leaf(_)) => Ok(no_keys(alloc, keys)),
        None => Ok(no_keys(alloc, keys)),
    }
}

// A step with its keys in canonical form. `steps` are those down to it and with it.
fn canonical_step(
    alloc: Global,
    schema: &Schema,
    steps: &[Step],
    step: &Step,
) -> Result<Option<Step>, Memory>
    ensures { IfOk result (λ found. found ≡ canonical_step schema.now (path_names steps.now) step.now) }
{
    match canonical_keys(alloc, schema, steps, step.keys.as_slice())? {
        Some(keys) => Ok(Some(Step {
            node: step.node.copy(alloc)?,
            keys,
        })),
        None => Ok(None),
    }
}

// Steps with their keys in canonical form.
fn canonical_steps(
    alloc: Global,
    schema: &Schema,
    steps: &[Step],
) -> Result<Option<Row<Step>>, Memory>
    ensures { IfOk result (λ found. found ≡ canonical_steps schema.now [] steps.now) }
{
    let Some((last, front)) = steps.split_last() else {
        return Ok(Some(Row::new(alloc)));
    };
    match canonical_steps(alloc, schema, front)? {
        Some(mut done) => match canonical_step(alloc, schema, steps, last)? {
            Some(step) => {
                done.push(step)?;
                Ok(Some(done))
            }
            None => Ok(None),
        },
        None => Ok(None),
    }
}

/// The path with each key in the canonical text of its kind, or None where one isn't of its kind. In
/// a plain schema it is an equal path.
pub fn canonical_path(alloc: Global, schema: &Schema, path: &Path) -> Result<Option<Path>, Memory>
    ensures { IfOk result (λ found. found ≡ canonical_path schema.now path.now) }
{
    if schema.is_plain() {
        return Ok(Some(path.copy(alloc)?));
    }
    match canonical_steps(alloc, schema, path.steps.as_slice())? {
        Some(steps) => Ok(Some(Path { steps })),
        None => Ok(None),
    }
}

/// The item with its text in the canonical form of the kind at the path, or None where it isn't of
/// that kind. In a plain schema it is an equal item.
pub fn canonical_item(
    alloc: Global,
    schema: &Schema,
    path: &Path,
    item: &Item,
) -> Result<Option<Item>, Memory>
    ensures { IfOk result (λ found. found ≡ canonical_item schema.now path.now item.now) }
{
    if schema.is_plain() {
        return Ok(Some(item.copy(alloc)?));
    }
    match item {
        Item::Entry => Ok(Some(Item::Entry)),
        Item::Leaf(text) => match canonical_text(alloc, schema.kind_of(path), text)? {
            Some(canonical) => Ok(Some(Item::Leaf(canonical))),
            None => Ok(None),
        },
    }
}
