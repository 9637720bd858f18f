//! The rows at and below a path. These stand together.
ghost use Rattle.std.specs.Prelude.{◌≡◌, ◌++◌, IfOk, OnOk, IsTrue, map, option_map};
ghost use Rattle.std.specs.Option.{option_copied};
ghost use Rattle.std.specs.List.{filter};
ghost use Rattle.std.specs.FinMap.{entries, get, is_sorted};
ghost use Rattle.orc_path.specs.Order.{path_cmp, is_prefix};
ghost use Rattle.orc_check.specs.inside.Runs.{all_rows};

use crate::lookup::row_at;
use crate::runs::{Runs, runs_from};
use crate::sharing::{begins_past, begins_with};
use crate::spot::Spot;
use orc_path::{Item, Path, Step};
use orc_text::Memory;
use orc_tree::Tree;
use std::alloc::Global;

// Adds those of some rows that begin with the steps.
fn push_under<'a>(
    found: &mut Vec<&'a (Path, Item)>,
    rows: &'a [(Path, Item)],
    steps: &[Step],
) -> Result<(), Memory>
    ensures { OnOk result (map (λ row. row.now) found.new.items
        ≡ map (λ row. row.now) found.old.items ++ filter (λ row. is_prefix steps.now row.0) rows.now) }
{
    for row in rows {
        if begins_with(steps, row.0.steps.as_slice()) {
            found.push(row)?;
        }
    }
    Ok(())
}

// Those of the rows of runs.
fn under_among<'a>(
    alloc: Global,
    runs: Runs<'a>,
    steps: &[Step],
) -> Result<Vec<&'a (Path, Item)>, Memory>
    requires sorted { IsTrue (is_sorted path_cmp (all_rows runs)) }
    ensures { IfOk result (λ found. map (λ row. row.now) found.items
        ≡ filter (λ row. is_prefix steps.now row.0) (all_rows runs.entry)) }
{
    let mut found = Vec::new(alloc);
    for rows in runs {
        if begins_past(rows, steps) {
            return Ok(found);
        }
        push_under(&mut found, rows, steps)?;
    }
    Ok(found)
}

/// The rows of a tree whose paths begin with the steps, in path order. It searches for the first one, and
/// looks at these and the page in which they end.
pub fn rows_under<'a>(
    alloc: Global,
    tree: &'a Tree,
    steps: &[Step],
) -> Result<Vec<&'a (Path, Item)>, Memory>
    ensures { IfOk result (λ found. map (λ row. row.now) found.items
        ≡ filter (λ row. is_prefix steps.now row.0) (entries tree.now)) }
{
    let spot = Spot {
        steps,
        names: &[],
        entry: None,
    };
    under_among(alloc, runs_from(tree, &spot), steps)
}

/// The row of a tree at these steps, if there is one. It takes no memory.
pub fn row_of_steps<'a>(tree: &'a Tree, steps: &[Step]) -> Option<&'a (Path, Item)>
    ensures { option_copied result ≡ option_map (λ item. (steps.now, item)) (get tree.now steps.now) }
{
    let spot = Spot {
        steps,
        names: &[],
        entry: None,
    };
    row_at(tree, &spot)
}
