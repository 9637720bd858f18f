//! Where an expression leads, and what it gives there.
ghost use Rattle.std.specs.Prelude.{◌≡◌, ◌++◌, ◌∷◌, [], map, Some, IfOk};
ghost use Rattle.std.specs.List.{flat_map, filter};
ghost use Rattle.orc_expr.specs.Looks.{looked, give_on, look_on, nowhere, nodes_under, nodes_look, entries_look, list_look, leads_by, leads, texts_by, nodes_by, front_of, leaf_texts, key_at, keys_at_end, is_present, context_shape, context_texts, context_nodes, texts_at, nodes_at};
ghost use Rattle.orc_expr.specs.inside.Lists.{read_as, read_look, leaf_look, present_look, read_here};

use crate::Read;
use crate::choosing::{asks_each_key, selected};
use crate::looked::{Looked, unread};
use crate::nodes::{
    ReadKind, entries_in, keys_in, nodes_under, present_in, push_key, push_last_keys, push_present,
    push_reads, push_text, texts_in, values_in,
};
use crate::step::{LastStep, Reached};
use orc_path::{DataView, Name, Path, Shape};
use orc_text::{Memory, Row, Text};
use std::alloc::Global;
use std::collections::LinkedList;

// Nothing is found there, and nothing read.
fn nowhere<T: Drop>(alloc: Global, before: Looked<Path>) -> Looked<T>
    ensures { result ≡ nowhere before }
{
    let Looked { found, reads } = before;
    Looked {
        found: match found {
            Some(_places) => Some(Row::new(alloc)),
            None => None,
        },
        reads,
    }
}

// The nodes of a name below what was found.
fn nodes_below(alloc: Global, name: &Name, before: Looked<Path>) -> Result<Looked<Path>, Memory>
    ensures { IfOk result (λ look. look ≡ give_on before (nodes_under name.now [])) }
{
    let Looked { found, reads } = before;
    match found {
        Some(places) => Ok(Looked {
            found: Some(nodes_under(alloc, name, &[], places.as_slice())?),
            reads,
        }),
        None => Ok(Looked { found: None, reads }),
    }
}

// The nodes of a step, below where the steps before it lead.
fn nodes_look(alloc: Global, step: LastStep) -> Result<Looked<Path>, Memory>
    ensures { IfOk result (λ look. look ≡ nodes_look step) }
{
    let (before, name, _asked) = step.into_parts();
    nodes_below(alloc, &name, before)
}

// The nodes of a name below what was found, and that their items or entries are read.
fn read_below(
    alloc: Global,
    name: &Name,
    before: Looked<Path>,
    kind: ReadKind,
) -> Result<Looked<Path>, Memory>
    ensures { IfOk result (λ look. look ≡ look_on before (nodes_under name.now [])
        (λ places. map (read_as kind) (nodes_under name.now [] places))) }
{
    let Looked { found, mut reads } = before;
    match found {
        Some(places) => {
            let nodes = nodes_under(alloc, name, &[], places.as_slice())?;
            push_reads(alloc, &mut reads, kind, nodes.as_slice())?;
            Ok(Looked {
                found: Some(nodes),
                reads,
            })
        }
        None => Ok(Looked { found: None, reads }),
    }
}

// The nodes of a step, and that their items or entries are read.
fn read_look(alloc: Global, step: LastStep, kind: ReadKind) -> Result<Looked<Path>, Memory>
    ensures { IfOk result (λ look. look ≡ read_look step kind) }
{
    let (before, name, _asked) = step.into_parts();
    read_below(alloc, &name, before, kind)
}

// All entries of the list, or all values of the leaf-list.
fn entries_look<V: DataView>(
    alloc: Global,
    view: &V,
    step: LastStep,
) -> Result<Looked<Path>, Memory>
    ensures { IfOk result (λ look. look ≡ entries_look (V.viewed view.now).items step) }
{
    let Looked { found, reads } = read_look(alloc, step, ReadKind::Keys)?;
    match found {
        Some(lists) => Ok(Looked {
            found: Some(entries_in(alloc, view, lists.as_slice())?),
            reads,
        }),
        None => Ok(Looked { found: None, reads }),
    }
}

// The entries of a list: all without a predicate, and else one, whose keys the predicates give.
fn list_look<V: DataView>(
    alloc: Global,
    view: &V,
    step: LastStep,
    keys: &[Text],
) -> Result<Looked<Path>, Memory>
    ensures { IfOk result (λ look. look ≡ list_look (V.viewed view.now).items step keys.now) }
{
    if step.asked.is_empty() {
        return entries_look(alloc, view, step);
    }
    let (before, name, asked) = step.into_parts();
    if !asks_each_key(keys, asked.as_slice()) {
        return Ok(nowhere(alloc, before));
    }
    selected(alloc, view, before, &name, asked)
}

// Where a step leads that has further steps after it.
fn leads_by<V: DataView>(
    alloc: Global,
    view: &V,
    step: LastStep,
    shape: &Shape,
) -> Result<Looked<Path>, Memory>
    ensures { IfOk result (λ look. look ≡ leads_by (V.viewed view.now).items step shape.now) }
{
    match shape {
        Shape::Container if step.asked.is_empty() => nodes_look(alloc, step),
        Shape::List(keys) => list_look(alloc, view, step, keys.as_slice()),
        _ => Ok(nowhere(alloc, step.into_before())),
    }
}

/// Where an expression leads that has further steps after it.
pub(crate) fn leads<V: DataView>(
    alloc: Global,
    view: &V,
    here: &Path,
    followed: Reached,
) -> Result<Looked<Path>, Memory>
    ensures { IfOk result (λ look. look ≡ leads (V.viewed view.now) here.now followed) }
{
    match followed {
        Reached::Context => one(alloc, here.copy(alloc)?),
        Reached::Given(_) => Ok(unread(alloc, Row::new(alloc))),
        Reached::Last(step) => {
            let shape = view.shape(alloc, &step.parent, &step.name)?;
            leads_by(alloc, view, step, &shape)
        }
    }
}

// One thing was found, and nothing was read.
fn one<T: Drop>(alloc: Global, found: T) -> Result<Looked<T>, Memory>
    ensures { IfOk result (λ look. look ≡ looked (found ∷ [])) }
{
    let mut row = Row::new(alloc);
    row.push(found)?;
    Ok(unread(alloc, row))
}

// The texts of leaves.
fn leaf_look<V: DataView>(
    alloc: Global,
    view: &V,
    step: LastStep,
    default: &Option<Text>,
) -> Result<Looked<Text>, Memory>
    ensures { IfOk result (λ look. look ≡ leaf_look (V.viewed view.now).items step default.now) }
{
    let Looked { found, reads } = read_look(alloc, step, ReadKind::Item)?;
    match found {
        Some(leaves) => Ok(Looked {
            found: Some(texts_in(alloc, view, default, leaves.as_slice())?),
            reads,
        }),
        None => Ok(Looked { found: None, reads }),
    }
}

// The keys of entries at a place among their keys.
fn key_look(alloc: Global, before: Looked<Path>, place: u32) -> Result<Looked<Text>, Memory>
    ensures { IfOk result (λ look. look ≡ give_on before (flat_map (key_at place))) }
{
    let Looked { found, reads } = before;
    match found {
        Some(entries) => Ok(Looked {
            found: Some(keys_in(alloc, place, entries.as_slice())?),
            reads,
        }),
        None => Ok(Looked { found: None, reads }),
    }
}

// The values of leaf-lists.
fn values_look<V: DataView>(alloc: Global, view: &V, step: LastStep) -> Result<Looked<Text>, Memory>
    ensures { IfOk result
        (λ look. look ≡ give_on (entries_look (V.viewed view.now).items step) (flat_map keys_at_end)) }
{
    let Looked { found, reads } = entries_look(alloc, view, step)?;
    match found {
        Some(entries) => Ok(Looked {
            found: Some(values_in(alloc, entries.as_slice())?),
            reads,
        }),
        None => Ok(Looked { found: None, reads }),
    }
}

// The texts of a last step.
fn texts_by<V: DataView>(
    alloc: Global,
    view: &V,
    step: LastStep,
    shape: &Shape,
) -> Result<Looked<Text>, Memory>
    ensures { IfOk result (λ look. look ≡ texts_by (V.viewed view.now).items step shape.now) }
{
    match shape {
        Shape::List(keys) => Ok(nowhere(alloc, list_look(alloc, view, step, keys.as_slice())?)),
        Shape::Leaf(default) if step.asked.is_empty() => leaf_look(alloc, view, step, default),
        Shape::Key(place) if step.asked.is_empty() => key_look(alloc, step.into_before(), *place),
        Shape::LeafList if step.asked.is_empty() => values_look(alloc, view, step),
        _ => Ok(nowhere(alloc, step.into_before())),
    }
}

// The leaves that are present.
fn present_look<V: DataView>(
    alloc: Global,
    view: &V,
    step: LastStep,
) -> Result<Looked<Path>, Memory>
    ensures { IfOk result (λ look. look ≡ present_look (V.viewed view.now).items step) }
{
    let Looked { found, reads } = read_look(alloc, step, ReadKind::Item)?;
    match found {
        Some(leaves) => Ok(Looked {
            found: Some(present_in(alloc, view, leaves.as_slice())?),
            reads,
        }),
        None => Ok(Looked { found: None, reads }),
    }
}

// The nodes of a last step.
fn nodes_by<V: DataView>(
    alloc: Global,
    view: &V,
    step: LastStep,
    shape: &Shape,
) -> Result<Looked<Path>, Memory>
    ensures { IfOk result (λ look. look ≡ nodes_by (V.viewed view.now).items step shape.now) }
{
    match shape {
        Shape::List(keys) => list_look(alloc, view, step, keys.as_slice()),
        Shape::Leaf(_) if step.asked.is_empty() => present_look(alloc, view, step),
        Shape::Key(_) if step.asked.is_empty() => nodes_look(alloc, step),
        Shape::LeafList if step.asked.is_empty() => entries_look(alloc, view, step),
        _ => Ok(nowhere(alloc, step.into_before())),
    }
}

// What the schema says of the context itself.
fn context_shape<V: DataView>(alloc: Global, view: &V, here: &Path) -> Result<Shape, Memory>
    ensures { IfOk result (λ shape. shape ≡ context_shape (V.viewed view.now) here.now) }
{
    match here.steps.as_slice().last() {
        Some(last) => {
            let front = here.first_steps(alloc, here.steps.len() - 1)?;
            view.shape(alloc, &front, &last.node)
        }
        None => Ok(Shape::Absent),
    }
}

// That the item of the context is read, and what was found.
fn read_here<T: Drop>(alloc: Global, here: &Path, found: Row<T>) -> Result<Looked<T>, Memory>
    ensures { IfOk result (λ look. look ≡ read_here here.now found) }
{
    let mut reads = LinkedList::new(alloc);
    reads.push_back(Read::Item(here.copy(alloc)?))?;
    Ok(Looked {
        found: Some(found),
        reads,
    })
}

// The text of the context, a leaf.
fn leaf_here<V: DataView>(
    alloc: Global,
    view: &V,
    here: &Path,
    default: &Option<Text>,
) -> Result<Looked<Text>, Memory>
    ensures { IfOk result
        (λ look. look ≡ read_here here.now (leaf_texts (V.viewed view.now).items default.now here.now)) }
{
    let mut texts = Row::new(alloc);
    push_text(alloc, &mut texts, view, default, here)?;
    read_here(alloc, here, texts)
}

// The key of the entry that the context, a key leaf, stands in.
fn key_here(alloc: Global, here: &Path, place: u32) -> Result<Looked<Text>, Memory>
    ensures { IfOk result (λ look. look ≡ looked (key_at place (front_of here.now))) }
{
    let mut texts = Row::new(alloc);
    if !here.steps.is_empty() {
        let front = here.first_steps(alloc, here.steps.len() - 1)?;
        push_key(alloc, &mut texts, place, &front)?;
    }
    Ok(unread(alloc, texts))
}

// The value of the context, one of a leaf-list.
fn value_here(alloc: Global, here: &Path) -> Result<Looked<Text>, Memory>
    ensures { IfOk result (λ look. look ≡ looked (keys_at_end here.now)) }
{
    let mut texts = Row::new(alloc);
    push_last_keys(alloc, &mut texts, here)?;
    Ok(unread(alloc, texts))
}

// The texts of the context.
fn context_texts<V: DataView>(
    alloc: Global,
    view: &V,
    here: &Path,
    shape: &Shape,
) -> Result<Looked<Text>, Memory>
    ensures { IfOk result (λ look. look ≡ context_texts (V.viewed view.now).items here.now shape.now) }
{
    match shape {
        Shape::Leaf(default) => leaf_here(alloc, view, here, default),
        Shape::Key(place) => key_here(alloc, here, *place),
        Shape::LeafList => value_here(alloc, here),
        _ => Ok(unread(alloc, Row::new(alloc))),
    }
}

// The context, a leaf, where it is present.
fn present_here<V: DataView>(alloc: Global, view: &V, here: &Path) -> Result<Looked<Path>, Memory>
    ensures { IfOk result
        (λ look. look ≡ read_here here.now (filter (is_present (V.viewed view.now).items) (here.now ∷ []))) }
{
    let mut found = Row::new(alloc);
    push_present(alloc, &mut found, view, here)?;
    read_here(alloc, here, found)
}

// The context, where it is a node.
fn context_nodes<V: DataView>(
    alloc: Global,
    view: &V,
    here: &Path,
    shape: &Shape,
) -> Result<Looked<Path>, Memory>
    ensures { IfOk result (λ look. look ≡ context_nodes (V.viewed view.now).items here.now shape.now) }
{
    match shape {
        Shape::Leaf(_) => present_here(alloc, view, here),
        Shape::List(_) => one(alloc, here.copy(alloc)?),
        Shape::Key(_) => one(alloc, here.copy(alloc)?),
        Shape::LeafList => one(alloc, here.copy(alloc)?),
        _ => Ok(unread(alloc, Row::new(alloc))),
    }
}

/// The texts of what was reached.
pub(crate) fn texts_at<V: DataView>(
    alloc: Global,
    view: &V,
    here: &Path,
    followed: Reached,
) -> Result<Looked<Text>, Memory>
    ensures { IfOk result (λ look. look ≡ texts_at (V.viewed view.now) here.now followed) }
{
    match followed {
        Reached::Context => {
            let shape = context_shape(alloc, view, here)?;
            context_texts(alloc, view, here, &shape)
        }
        Reached::Given(text) => one(alloc, text),
        Reached::Last(step) => {
            let shape = view.shape(alloc, &step.parent, &step.name)?;
            texts_by(alloc, view, step, &shape)
        }
    }
}

/// The nodes of what was reached.
pub(crate) fn nodes_at<V: DataView>(
    alloc: Global,
    view: &V,
    here: &Path,
    followed: Reached,
) -> Result<Looked<Path>, Memory>
    ensures { IfOk result (λ look. look ≡ nodes_at (V.viewed view.now) here.now followed) }
{
    match followed {
        Reached::Context => {
            let shape = context_shape(alloc, view, here)?;
            context_nodes(alloc, view, here, &shape)
        }
        Reached::Given(_) => Ok(unread(alloc, Row::new(alloc))),
        Reached::Last(step) => {
            let shape = view.shape(alloc, &step.parent, &step.name)?;
            nodes_by(alloc, view, step, &shape)
        }
    }
}
