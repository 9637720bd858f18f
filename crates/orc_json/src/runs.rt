//! How many rows at the start go on with the same name, or with the same step.
ghost use Rattle.std.specs.Prelude.{◌≡◌, ◌≤◌, ◌<◌, ◌+◌, option_copied, length, take, slice_get};
ghost use Rattle.orc_json.specs.inside.Fronts.{same_name, same_step, front, longest, first_path};

use orc_path::{Item, Path, Step};

/// The step of a path after so many others.
pub(crate) fn step_at(path: &Path, depth: usize) -> Option<&Step>
    ensures { option_copied result ≡ slice_get path.now depth }
{
    let steps = path.steps.as_slice();
    steps.get(depth)
}

// Whether two rows have one name after so many steps.
fn has_same_name(row: &(Path, Item), other: &(Path, Item), depth: usize) -> bool
    ensures { result ≡ same_name depth row.now other.now }
{
    match step_at(&row.0, depth) {
        Some(step) => match step_at(&other.0, depth) {
            Some(same) => step.node == same.node,
            None => false,
        },
        None => false,
    }
}

// Whether two rows have one step, with its keys, after so many others.
fn has_same_step(row: &(Path, Item), other: &(Path, Item), depth: usize) -> bool
    ensures { result ≡ same_step depth row.now other.now }
{
    match step_at(&row.0, depth) {
        Some(step) => match step_at(&other.0, depth) {
            Some(same) => *step == *same,
            None => false,
        },
        None => false,
    }
}

/// How many rows from the first on have its name after so many steps.
pub(crate) fn name_front(rows: &[(Path, Item)], depth: usize) -> usize
    ensures value { result ≡ front (same_name depth) rows.now }
    ensures within { result ≤ length rows.now }
    ensures some { 0 < length rows.now → 0 < result }
{
    let Some((first, behind)) = rows.split_first() else {
        return 0;
    };
    let mut count = 0;
    for row in behind {
        if !has_same_name(first, row, depth) {
            return count + 1;
        }
        count += 1;
    }
    count + 1
}

/// How many rows from the first on have its step after so many others.
pub(crate) fn step_front(rows: &[(Path, Item)], depth: usize) -> usize
    ensures value { result ≡ front (same_step depth) rows.now }
    ensures within { result ≤ length rows.now }
    ensures some { 0 < length rows.now → 0 < result }
{
    let Some((first, behind)) = rows.split_first() else {
        return 0;
    };
    let mut count = 0;
    for row in behind {
        if !has_same_step(first, row, depth) {
            return count + 1;
        }
        count += 1;
    }
    count + 1
}

/// The steps of the longest path.
pub(crate) fn longest(rows: &[(Path, Item)]) -> usize
    ensures { result ≡ longest rows.now }
{
    let mut most = 0;
    for row in rows {
        let steps = row.0.steps.len();
        if steps > most {
            most = steps;
        }
    }
    most
}

/// The first steps of the first path.
pub(crate) fn first_steps(rows: &[(Path, Item)], count: usize) -> &[Step]
    ensures { result.now ≡ take count (first_path rows.now) }
{
    let Some((first, _)) = rows.split_first() else {
        return &[];
    };
    let steps = first.0.steps.as_slice();
    if count <= steps.len() {
        &steps[..count]
    } else {
        steps
    }
}
