//! The targets of leafrefs whose instances no search among the rows finds, in the order of their names.
//! It is for speed alone, so no contract speaks of it.
ghost use Rattle.std.specs.Prelude.{◌≡◌, ◌≤◌, length};

use crate::keys::{own_key, single};
use crate::references::target_in;
use orc_path::Step;
use orc_schema_nodes::{Schema, SchemaLine, Target};
use orc_text::{Memory, Text};
use std::alloc::Global;
use std::cmp::Ordering;

// Whether the instances of a target are neither named by their text nor stand alone below the entries
// that the leafref shares.
fn is_sought(schema: &Schema, target: &Target) -> bool {
    own_key(schema, target).is_none() && single(schema, target).is_none()
}

// The target of a line, where it is such a one.
fn sought_in<'a>(schema: &Schema, line: &'a SchemaLine) -> Option<&'a Target> {
    match target_in(&line.node) {
        Some(target) => {
            if is_sought(schema, target) {
                Some(target)
            } else {
                None
            }
        }
        None => None,
    }
}

// Such targets of all lines, in the order of their names.
fn in_order<'a>(alloc: Global, schema: &'a Schema) -> Result<Vec<&'a Target>, Memory> {
    let mut all = Vec::new(alloc);
    for line in schema.lines() {
        if let Some(target) = sought_in(schema, line) {
            all.push(target)?;
        }
    }
    all.sort_by(|a, b| Ord::cmp(&a.names, &b.names))?;
    Ok(all)
}

// Whether the last of the targets has the names of this one.
fn ends_in(targets: &[&Target], target: &Target) -> bool {
    match targets.last() {
        Some(last) => last.names == target.names,
        None => false,
    }
}

/// A target for each of the names of such ones, in the order of these.
pub(crate) fn sought<'a>(alloc: Global, schema: &'a Schema) -> Result<Vec<&'a Target>, Memory> {
    let all = in_order(alloc, schema)?;
    let mut each = Vec::new(alloc);
    for target in all.as_slice() {
        if !ends_in(each.as_slice(), *target) {
            each.push(*target)?;
        }
    }
    Ok(each)
}

// The order of names, and of those of steps with others after them.
fn order_names(names: &[Text], steps: &[Step], behind: &[Text]) -> Ordering {
    match steps {
        [] => names.cmp(behind),
        [step, below @ ..] => match names {
            [] => Ordering::Less,
            [name, later @ ..] => match name.as_str().cmp(step.node.as_str()) {
                Ordering::Less => Ordering::Less,
                Ordering::Greater => Ordering::Greater,
                Ordering::Equal => order_names(later, below, behind),
            },
        },
    }
}

/// The place of the first target whose names aren't less than those of the steps with others after
/// them, found by halving.
pub(crate) fn first_sought(targets: &[&Target], steps: &[Step], behind: &[Text]) -> usize
    ensures { result ≤ length targets.now }
{
    let mut low = 0;
    let mut high = targets.len();
    while low < high {
        let middle = low + (high - low) / 2;
        if order_names(targets[middle].names.as_slice(), steps, behind).is_lt() {
            low = middle + 1;
        } else {
            high = middle;
        }
    }
    low
}

/// The names of a target that are those of the steps with others after them.
pub(crate) fn names_of<'a>(
    targets: &[&'a Target],
    steps: &[Step],
    behind: &[Text],
) -> Option<&'a [Text]> {
    match targets.get(first_sought(targets, steps, behind)) {
        Some(target) => {
            let names = target.names.as_slice();
            if order_names(names, steps, behind) == Ordering::Equal {
                Some(names)
            } else {
                None
            }
        }
        None => None,
    }
}
