//! Nodes below places, and what they give and read.
ghost use Rattle.std.specs.Prelude.{◌≡◌, ◌++◌, ◌∷◌, [], map, slice_get, option_copied, IfOk, OnOk};
ghost use Rattle.std.specs.List.{flat_map, filter};
ghost use Rattle.orc_path.specs.Views.{entries_of};
ghost use Rattle.orc_expr.specs.Looks.{node_under, nodes_under, leaf_texts, text_or, keys_at_end, key_at, is_present};
ghost use Rattle.orc_expr.specs.inside.Lists.{read_as};

use crate::Read;
use crate::alphabet::{are_keys, is_name_behind};
use orc_path::{DataView, Item, Name, Path, Step};
use orc_text::{Memory, Row, Text};
use std::alloc::Global;
use std::collections::LinkedList;

// Adds the node of this name and these keys below a place, if such a name and such keys can stand
// there.
fn push_node(
    alloc: Global,
    nodes: &mut Row<Path>,
    name: &Name,
    keys: &[Text],
    place: &Path,
) -> Result<(), Memory>
    ensures { OnOk result (nodes.new ≡ nodes.old ++ node_under name.now keys.now place.now) }
{
    if !is_name_behind(place, name) {
        return Ok(());
    }
    if !are_keys(keys) {
        return Ok(());
    }
    let step = Step {
        node: name.copy(alloc)?,
        keys: Row::of_copies(alloc, keys)?,
    };
    nodes.push(place.child(alloc, step)?)
}

/// The nodes of this name and these keys below places.
pub(crate) fn nodes_under(
    alloc: Global,
    name: &Name,
    keys: &[Text],
    places: &[Path],
) -> Result<Row<Path>, Memory>
    ensures { IfOk result (λ nodes. nodes ≡ nodes_under name.now keys.now places.now) }
{
    let mut nodes = Row::new(alloc);
    for place in places {
        push_node(alloc, &mut nodes, name, keys, place)?;
    }
    Ok(nodes)
}

/// What is read at a node: its item, or the entries of the list that it is.
#[derive(Clone, Copy)]
pub(crate) enum ReadKind {
    Item,
    Keys,
}

fn read_at(alloc: Global, kind: ReadKind, node: &Path) -> Result<Read, Memory>
    ensures { IfOk result (λ read. read ≡ read_as kind node.now) }
{
    match kind {
        ReadKind::Item => Ok(Read::Item(node.copy(alloc)?)),
        ReadKind::Keys => Ok(Read::Keys(node.copy(alloc)?)),
    }
}

/// Adds what is read at nodes.
pub(crate) fn push_reads(
    alloc: Global,
    reads: &mut LinkedList<Read>,
    kind: ReadKind,
    nodes: &[Path],
) -> Result<(), Memory>
    ensures { OnOk result (reads.new ≡ reads.old ++ map (read_as kind) nodes.now) }
{
    for node in nodes {
        reads.push_back(read_at(alloc, kind, node)?)?;
    }
    Ok(())
}

/// The entries of lists.
pub(crate) fn entries_in<V: DataView>(
    alloc: Global,
    view: &V,
    lists: &[Path],
) -> Result<Row<Path>, Memory>
    ensures { IfOk result (λ entries. entries ≡ flat_map (entries_of (V.viewed view.now).items) lists.now) }
{
    let mut entries = Vec::new(alloc);
    for list in lists {
        let mut more = view.keys_under(alloc, list)?;
        entries.append(&mut more)?;
    }
    Ok(Row::from_vec(entries))
}

/// Adds the text at a leaf: its own, else its default.
pub(crate) fn push_text<V: DataView>(
    alloc: Global,
    texts: &mut Row<Text>,
    view: &V,
    default: &Option<Text>,
    leaf: &Path,
) -> Result<(), Memory>
    ensures { OnOk result
        (texts.new ≡ texts.old ++ leaf_texts (V.viewed view.now).items default.now leaf.now) }
{
    match view.item(leaf) {
        Some(Item::Leaf(text)) => texts.push(text.copy(alloc)?),
        _ => match default {
            Some(text) => texts.push(text.copy(alloc)?),
            None => Ok(()),
        },
    }
}

/// The texts at leaves.
pub(crate) fn texts_in<V: DataView>(
    alloc: Global,
    view: &V,
    default: &Option<Text>,
    leaves: &[Path],
) -> Result<Row<Text>, Memory>
    ensures { IfOk result
        (λ texts. texts ≡ flat_map (leaf_texts (V.viewed view.now).items default.now) leaves.now) }
{
    let mut texts = Row::new(alloc);
    for leaf in leaves {
        push_text(alloc, &mut texts, view, default, leaf)?;
    }
    Ok(texts)
}

/// Adds a node where it is present.
pub(crate) fn push_present<V: DataView>(
    alloc: Global,
    found: &mut Row<Path>,
    view: &V,
    node: &Path,
) -> Result<(), Memory>
    ensures { OnOk result
        (found.new ≡ found.old ++ filter (is_present (V.viewed view.now).items) (node.now ∷ [])) }
{
    match view.item(node) {
        Some(_item) => found.push(node.copy(alloc)?),
        None => Ok(()),
    }
}

/// Those among the nodes that are present.
pub(crate) fn present_in<V: DataView>(
    alloc: Global,
    view: &V,
    nodes: &[Path],
) -> Result<Row<Path>, Memory>
    ensures { IfOk result (λ found. found ≡ filter (is_present (V.viewed view.now).items) nodes.now) }
{
    let mut found = Row::new(alloc);
    for node in nodes {
        push_present(alloc, &mut found, view, node)?;
    }
    Ok(found)
}

/// Adds the keys of the last step.
pub(crate) fn push_last_keys(
    alloc: Global,
    texts: &mut Row<Text>,
    path: &Path,
) -> Result<(), Memory>
    ensures { OnOk result (texts.new ≡ texts.old ++ keys_at_end path.now) }
{
    match path.steps.as_slice().last() {
        Some(step) => push_texts(alloc, texts, step.keys.as_slice()),
        None => Ok(()),
    }
}

// Adds copies of texts.
fn push_texts(alloc: Global, texts: &mut Row<Text>, more: &[Text]) -> Result<(), Memory>
    ensures { OnOk result (texts.new ≡ texts.old ++ more.now) }
{
    for text in more {
        texts.push(text.copy(alloc)?)?;
    }
    Ok(())
}

/// The values of a leaf-list: the keys of their paths.
pub(crate) fn values_in(alloc: Global, entries: &[Path]) -> Result<Row<Text>, Memory>
    ensures { IfOk result (λ values. values ≡ flat_map keys_at_end entries.now) }
{
    let mut values = Row::new(alloc);
    for entry in entries {
        push_last_keys(alloc, &mut values, entry)?;
    }
    Ok(values)
}

// The key of a step at a place.
fn key_of(step: &Step, place: u32) -> Option<&Text>
    ensures { option_copied result ≡ slice_get step.now.keys place }
{
    step.keys.as_slice().get(place as usize)
}

/// Adds the key of an entry at a place among its keys.
pub(crate) fn push_key(
    alloc: Global,
    texts: &mut Row<Text>,
    place: u32,
    entry: &Path,
) -> Result<(), Memory>
    ensures { OnOk result (texts.new ≡ texts.old ++ key_at place entry.now) }
{
    match entry.steps.as_slice().last() {
        Some(step) => match key_of(step, place) {
            Some(key) => texts.push(key.copy(alloc)?),
            None => Ok(()),
        },
        None => Ok(()),
    }
}

/// The keys of entries at a place among their keys.
pub(crate) fn keys_in(alloc: Global, place: u32, entries: &[Path]) -> Result<Row<Text>, Memory>
    ensures { IfOk result (λ keys. keys ≡ flat_map (key_at place) entries.now) }
{
    let mut keys = Row::new(alloc);
    for entry in entries {
        push_key(alloc, &mut keys, place, entry)?;
    }
    Ok(keys)
}
