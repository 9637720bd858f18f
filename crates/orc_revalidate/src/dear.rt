//! Whether a look at what a change can break may cost more than one at the whole configuration. Both
//! answer the same, so no clause says when: it is a matter of cost alone.

use crate::inside::rows_inside;
use orc_expr::Target;
use orc_path::{Item, Path, Step};
use orc_schema_nodes::{Node, Schema};
use orc_text::{Memory, Text};
use orc_tree::Tree;
use std::alloc::Global;

// The most rows inside the targets: the entries of a list with a bound are counted for each of its own.
const MOST_ROWS: usize = 2_048;

// The most looks at lines of the schema, one at each for a row.
const MOST_LOOKS: usize = 4_194_304;

// Whether the keys are this one alone.
fn is_one(keys: &[Text], key: &Text) -> bool {
    match keys {
        [own, more @ ..] => own.as_str() == key.as_str() && more.is_empty(),
        [] => false,
    }
}

// Whether so many of the names are those of a container.
fn is_container(schema: &Schema, names: &[Text], count: usize) -> bool {
    match names.split_at_checked(count) {
        Some((front, _)) => match schema.node_of_names(front) {
            Some(Node::Container) => true,
            _ => false,
        },
        None => false,
    }
}

// Whether containers alone stand above a list of these names and below the entries that are shared.
fn goes_through_containers(schema: &Schema, names: &[Text], shared: u64) -> bool {
    for count in 1..names.len() {
        if shared < count as u64 && !is_container(schema, names, count) {
            return false;
        }
    }
    true
}

// Whether an instance of a leafref's target is found by a search for an entry: the target is the one key
// of a list.
fn is_searched(schema: &Schema, target: &orc_schema_nodes::Target) -> bool {
    let Some((key, list)) = target.names.as_slice().split_last() else {
        return false;
    };
    match schema.node_of_names(list) {
        Some(Node::List(node)) => {
            is_one(node.keys.as_slice(), key)
                && goes_through_containers(schema, list, target.shared)
        }
        _ => false,
    }
}

// Whether the node is a leafref whose instances are found by no search.
fn is_unsearched(schema: &Schema, node: Option<&Node>) -> bool {
    let target = match node {
        Some(Node::Leaf(leaf)) => leaf.target.as_ref(),
        Some(Node::LeafList(values)) => values.target.as_ref(),
        _ => None,
    };
    match target {
        Some(target) => !is_searched(schema, target),
        None => false,
    }
}

// Whether one of the keys of the list at these steps is.
fn has_unsearched_key(schema: &Schema, steps: &[Step], keys: &[Text]) -> bool {
    for key in keys {
        if is_unsearched(schema, schema.node_below(steps, key.as_str())) {
            return true;
        }
    }
    false
}

// Whether a row has such a leafref.
fn leads_far(schema: &Schema, row: &(Path, Item)) -> bool {
    let steps = row.0.steps.as_slice();
    let node = schema.node(steps);
    match node {
        Some(Node::List(list)) => has_unsearched_key(schema, steps, list.keys.as_slice()),
        _ => is_unsearched(schema, node),
    }
}

// Whether one of some rows has.
fn lead_far(schema: &Schema, rows: &[&(Path, Item)]) -> bool {
    for row in rows {
        if leads_far(schema, *row) {
            return true;
        }
    }
    false
}

/// Whether so much came or went, or a leafref came whose instance is found by no search, that a look at
/// the whole configuration may cost less.
pub(crate) fn is_dear(
    alloc: Global,
    schema: &Schema,
    old: &Tree,
    new: &Tree,
    targets: &[Target],
) -> Result<bool, Memory> {
    let mut count: usize = 0;
    for target in targets {
        let came = rows_inside(alloc, new, target)?;
        let went = rows_inside(alloc, old, target)?;
        if lead_far(schema, came.as_slice()) {
            return Ok(true);
        }
        count = count.saturating_add(came.len()).saturating_add(went.len());
    }
    Ok(count > MOST_ROWS || count.saturating_mul(schema.lines().len()) > MOST_LOOKS)
}
