//! Where the instances of leafrefs' targets stand, by their texts: listed once, and searched by halves. It
//! is for speed alone, so no contract speaks of it: where a search leads is looked at in the tree before it
//! counts.
ghost use Rattle.std.specs.Prelude.{◌≡◌, ◌≤◌, length};

use crate::lookup::is_absent;
use crate::reach::{behind, reached};
use crate::references::{first_steps, last_keys};
use crate::sought::{first_sought, names_of, sought};
use orc_path::{Item, Path, Step};
use orc_schema_nodes::{Node, Schema, Target};
use orc_text::{Memory, Text};
use orc_tree::Tree;
use std::alloc::Global;
use std::cmp::Ordering;

/// A text at names: a value of the row at the steps, or the default that is missing below this place.
#[derive(Drop)]
pub(crate) struct Instance<'a> {
    names: &'a [Text],
    text: &'a Text,
    steps: &'a [Step],
}

// Texts, and then names.
fn order_values(own: &Instance<'_>, text: &Text, names: &[Text]) -> Ordering {
    match own.text.as_str().cmp(text.as_str()) {
        Ordering::Less => Ordering::Less,
        Ordering::Greater => Ordering::Greater,
        Ordering::Equal => own.names.cmp(names),
    }
}

// The order of instances: by texts, by names, and by paths.
fn order_instances(own: &Instance<'_>, other: &Instance<'_>) -> Ordering {
    match order_values(own, other.text, other.names) {
        Ordering::Less => Ordering::Less,
        Ordering::Greater => Ordering::Greater,
        Ordering::Equal => own.steps.cmp(other.steps),
    }
}

// A value of the row, where its names are those of a target.
fn push_value<'a>(
    all: &mut Vec<Instance<'a>>,
    targets: &[&'a Target],
    steps: &'a [Step],
    behind: &[Text],
    text: &'a Text,
) -> Result<(), Memory> {
    if let Some(names) = names_of(targets, steps, behind) {
        all.push(Instance { names, text, steps })?;
    }
    Ok(())
}

// The keys of an entry of a list.
fn push_keys<'a>(
    all: &mut Vec<Instance<'a>>,
    targets: &[&'a Target],
    steps: &'a [Step],
    keys: &[Text],
    texts: &'a [Text],
) -> Result<(), Memory> {
    match keys {
        [] => Ok(()),
        [_, later @ ..] => match texts {
            [] => Ok(()),
            [text, more @ ..] => {
                push_value(all, targets, steps, &keys[..1], text)?;
                push_keys(all, targets, steps, later, more)
            }
        },
    }
}

// The value of an entry of a leaf-list.
fn push_texts<'a>(
    all: &mut Vec<Instance<'a>>,
    targets: &[&'a Target],
    steps: &'a [Step],
    texts: &'a [Text],
) -> Result<(), Memory> {
    for text in texts {
        push_value(all, targets, steps, &[], text)?;
    }
    Ok(())
}

// The default of the leaf of these names, where it is no key.
fn default_of<'a>(schema: &'a Schema, names: &[Text]) -> Option<&'a Text> {
    match schema.node_of_names(names) {
        Some(Node::Leaf(leaf)) => match leaf.key {
            Some(_) => None,
            None => leaf.default.as_ref(),
        },
        _ => None,
    }
}

// Whether the leaf of these names is missing below the place.
fn is_missing(schema: &Schema, tree: &Tree, steps: &[Step], names: &[Text]) -> bool {
    match reached(schema, steps, names) {
        Some(later) => is_absent(tree, steps, later),
        None => false,
    }
}

// The default of a target that is missing below the place.
fn push_default<'a>(
    all: &mut Vec<Instance<'a>>,
    schema: &'a Schema,
    tree: &Tree,
    names: &'a [Text],
    steps: &'a [Step],
) -> Result<(), Memory> {
    if let Some(text) = default_of(schema, names) {
        if is_missing(schema, tree, steps, names) {
            all.push(Instance { names, text, steps })?;
        }
    }
    Ok(())
}

// The defaults of the targets below the place; these stand together.
fn push_defaults<'a>(
    all: &mut Vec<Instance<'a>>,
    schema: &'a Schema,
    tree: &Tree,
    targets: &[&'a Target],
    steps: &'a [Step],
) -> Result<(), Memory> {
    let at = first_sought(targets, steps, &[]);
    for target in &targets[at..] {
        let names = target.names.as_slice();
        if behind(steps, names).is_none() {
            return Ok(());
        }
        push_default(all, schema, tree, names, steps)?;
    }
    Ok(())
}

// What an entry holds, and what is missing below it.
fn push_entry<'a>(
    all: &mut Vec<Instance<'a>>,
    schema: &'a Schema,
    tree: &Tree,
    targets: &[&'a Target],
    steps: &'a [Step],
) -> Result<(), Memory> {
    match schema.node(steps) {
        Some(Node::List(list)) => {
            push_keys(all, targets, steps, list.keys.as_slice(), last_keys(steps))?;
            push_defaults(all, schema, tree, targets, steps)
        }
        Some(Node::LeafList(_)) => push_texts(all, targets, steps, last_keys(steps)),
        Some(Node::Container) => Ok(()),
        Some(Node::Leaf(_)) => Ok(()),
        None => Ok(()),
    }
}

// What a row holds: an entry with what is missing below it, or the value of a leaf.
fn push_row<'a>(
    all: &mut Vec<Instance<'a>>,
    schema: &'a Schema,
    tree: &Tree,
    targets: &[&'a Target],
    row: &'a (Path, Item),
) -> Result<(), Memory> {
    let steps = row.0.steps.as_slice();
    match &row.1 {
        Item::Entry => push_entry(all, schema, tree, targets, steps),
        Item::Leaf(text) => push_value(all, targets, steps, &[], text),
    }
}

/// The instances of the targets that no search among the rows finds, in their order. Each row is looked
/// at once, and none where there is no such target.
pub(crate) fn instances<'a>(
    alloc: Global,
    schema: &'a Schema,
    tree: &'a Tree,
) -> Result<Vec<Instance<'a>>, Memory> {
    let targets = sought(alloc, schema)?;
    let mut all = Vec::new(alloc);
    if targets.is_empty() {
        return Ok(all);
    }
    for row in tree.rows() {
        push_row(&mut all, schema, tree, targets.as_slice(), row)?;
    }
    all.sort_by(|own, other| order_instances(own, other))?;
    Ok(all)
}

// Whether an instance stands before those of the target that have the text and stand under the
// same entries as the path.
fn is_before(own: &Instance<'_>, target: &Target, text: &Text, path: &[Step]) -> bool {
    match order_values(own, text, target.names.as_slice()) {
        Ordering::Less => true,
        Ordering::Greater => false,
        Ordering::Equal => {
            let shared = target.shared as usize;
            first_steps(own.steps, shared)
                .cmp(first_steps(path, shared))
                .is_lt()
        }
    }
}

// The place of the first of these, or else where it would stand, found by halving.
fn first_instance(index: &[Instance<'_>], target: &Target, text: &Text, path: &[Step]) -> usize {
    let mut low = 0;
    let mut high = index.len();
    while low < high {
        let middle = low + (high - low) / 2;
        if is_before(&index[middle], target, text, path) {
            low = middle + 1;
        } else {
            high = middle;
        }
    }
    low
}

/// Where an instance of the target with the text stands, under the same entries as the path, if there is
/// one: the path of its row, or the place below which it is missing.
pub(crate) fn place_of<'a>(
    index: &[Instance<'a>],
    target: &Target,
    text: &Text,
    path: &[Step],
) -> Option<&'a [Step]> {
    match index.get(first_instance(index, target, text, path)) {
        Some(found) => Some(found.steps),
        None => None,
    }
}
