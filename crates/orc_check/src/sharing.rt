//! The search for a value of a leafref's target among the rows that begin with the steps that both share.
//! These stand together.
ghost use Rattle.std.specs.Prelude.{◌≡◌, take, IsTrue};
ghost use Rattle.std.specs.List.{list_any};
ghost use Rattle.std.specs.FinMap.{entries, is_sorted};
ghost use Rattle.orc_path.specs.Order.{path_cmp, is_prefix};
ghost use Rattle.orc_check.specs.Validity.{row_has};
ghost use Rattle.orc_check.specs.inside.Runs.{all_rows};
ghost use Rattle.orc_check.specs.inside.Sharing.{begins_past};

use crate::order::same_step;
use crate::references::{first_steps, row_has};
use crate::runs::{Runs, runs_from};
use crate::spot::Spot;
use orc_path::{Item, Path, Step};
use orc_schema_nodes::{Schema, Target};
use orc_text::Text;
use orc_tree::Tree;
use std::cmp::Ordering;

/// Whether a path begins with the steps.
pub(crate) fn begins_with(steps: &[Step], path: &[Step]) -> bool
    ensures { result ≡ is_prefix steps.now path.now }
{
    match steps {
        [] => true,
        [step, later @ ..] => match path {
            [] => false,
            [own, below @ ..] => same_step(step, own) && begins_with(later, below),
        },
    }
}

fn order_paths(steps: &[Step], path: &[Step]) -> Ordering
    ensures { result ≡ path_cmp steps.now path.now }
{
    steps.cmp(path)
}

/// Whether the first of the rows stands after all that begin with the steps.
pub(crate) fn begins_past(rows: &[(Path, Item)], steps: &[Step]) -> bool
    ensures { result ≡ begins_past steps.now rows.now }
{
    match rows.first() {
        Some(row) => {
            let path = row.0.steps.as_slice();
            order_paths(steps, path).is_lt() && !begins_with(steps, path)
        }
        None => false,
    }
}

// Whether one of the rows has the text.
fn has_row_on(
    schema: &Schema,
    target: &Target,
    text: &Text,
    path: &[Step],
    rows: &[(Path, Item)],
) -> bool
    ensures { result ≡ list_any (row_has schema.now target.now text.now path.now) rows.now }
{
    for row in rows {
        if row_has(schema, target, text, path, row) {
            return true;
        }
    }
    false
}

// Whether one of the rows of runs has.
fn has_row_among(
    schema: &Schema,
    target: &Target,
    text: &Text,
    path: &[Step],
    steps: &[Step],
    runs: Runs<'_>,
) -> bool
    requires sorted { IsTrue (is_sorted path_cmp (all_rows runs)) }
    requires shared { steps.now ≡ take target.now.shared path.now }
    ensures { result ≡ list_any (row_has schema.now target.now text.now path.now) (all_rows runs.entry) }
{
    for rows in runs {
        if begins_past(rows, steps) {
            return false;
        }
        if has_row_on(schema, target, text, path, rows) {
            return true;
        }
    }
    false
}

/// Whether a row of the tree has the text as a value of the target, under the same entries as the path.
/// It looks at the rows that begin with the steps of these entries.
pub(crate) fn has_row<'a>(
    schema: &Schema,
    tree: &Tree,
    target: &Target,
    text: &Text,
    path: &'a [Step],
) -> bool
    ensures { result ≡ list_any (row_has schema.now target.now text.now path.now) (entries tree.now) }
{
    let steps = first_steps(path, target.shared as usize);
    let spot = Spot {
        steps,
        names: &[],
        entry: None,
    };
    has_row_among(schema, target, text, path, steps, runs_from(tree, &spot))
}
