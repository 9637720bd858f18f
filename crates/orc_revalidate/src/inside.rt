//! The rows of a configuration inside a target.
ghost use Rattle.std.specs.Prelude.{◌≡◌, ◌≤◌, ◌++◌, ◌∷◌, [], IfOk, OnOk, length, map};
ghost use Rattle.orc_revalidate.specs.inside.Inside.{row_of, front_rows, rows_inside};

use orc_check::{row_of_steps, rows_under};
use orc_expr::Target;
use orc_path::{Item, Path, Step};
use orc_text::Memory;
use orc_tree::Tree;
use std::alloc::Global;

// Adds a row.
fn push_found<'a>(found: &mut Vec<&'a (Path, Item)>, row: &'a (Path, Item)) -> Result<(), Memory>
    ensures { OnOk result (map (λ row. row.now) found.new.items
        ≡ map (λ row. row.now) found.old.items ++ row.now ∷ []) }
{
    found.push(row)?;
    Ok(())
}

// Adds the row at these steps, where there is one.
fn push_row<'a>(
    found: &mut Vec<&'a (Path, Item)>,
    tree: &'a Tree,
    steps: &[Step],
) -> Result<(), Memory>
    ensures { OnOk result (map (λ row. row.now) found.new.items
        ≡ map (λ row. row.now) found.old.items ++ row_of tree.now steps.now) }
{
    match row_of_steps(tree, steps) {
        Some(row) => push_found(found, row),
        None => Ok(()),
    }
}

// Adds the rows of the path's first steps, so many and fewer.
fn push_fronts<'a>(
    found: &mut Vec<&'a (Path, Item)>,
    tree: &'a Tree,
    path: &[Step],
    number: usize,
) -> Result<(), Memory>
    requires { number ≤ length path.now }
    ensures { OnOk result (map (λ row. row.now) found.new.items
        ≡ map (λ row. row.now) found.old.items ++ front_rows tree.now path.now number) }
{
    push_row(found, tree, &path[..number])?;
    if number == 0 {
        return Ok(());
    }
    push_fronts(found, tree, path, number - 1)
}

// The rows of all first steps of a path.
fn rows_on<'a>(
    alloc: Global,
    tree: &'a Tree,
    path: &[Step],
) -> Result<Vec<&'a (Path, Item)>, Memory>
    ensures { IfOk result (λ found. map (λ row. row.now) found.items
        ≡ front_rows tree.now path.now (length path.now)) }
{
    let mut found = Vec::new(alloc);
    push_fronts(&mut found, tree, path, path.len())?;
    Ok(found)
}

/// The rows of a tree inside a target: those at a path and on its way, or at and below it. It costs a
/// search, or one for each step of the path.
pub(crate) fn rows_inside<'a>(
    alloc: Global,
    tree: &'a Tree,
    target: &Target,
) -> Result<Vec<&'a (Path, Item)>, Memory>
    ensures { IfOk result (λ found. map (λ row. row.now) found.items ≡ rows_inside tree.now target.now) }
{
    match target {
        Target::One(path) => rows_on(alloc, tree, path.steps.as_slice()),
        Target::Under(path) => rows_under(alloc, tree, path.steps.as_slice()),
    }
}
