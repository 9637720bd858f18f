//! The paths at which a configuration that was changed inside targets differs from what it was.
ghost use Rattle.std.specs.Prelude.{◌≡◌, ◌++◌, IfOk, OnOk, map};
ghost use Rattle.std.specs.List.{flat_map};
ghost use Rattle.orc_revalidate.specs.Changes.{ArePathsChanged, DiffersInside};
ghost use Rattle.orc_revalidate.specs.inside.Changed.{changed_in, changed_paths, gone, lacking};

use crate::inside::rows_inside;
use crate::kept::has_row;
use orc_expr::Target;
use orc_path::{Item, Path};
use orc_text::{Memory, Row};
use orc_tree::Tree;
use std::alloc::Global;

// Adds the path of a row that a tree hasn't.
fn push_lacking(
    alloc: Global,
    paths: &mut Row<Path>,
    tree: &Tree,
    row: &(Path, Item),
) -> Result<(), Memory>
    ensures { OnOk result (paths.new ≡ paths.old ++ lacking tree.now row.now) }
{
    if !has_row(tree, row) {
        paths.push(row.0.copy(alloc)?)?;
    }
    Ok(())
}

// Adds the paths of those rows that a tree hasn't.
fn push_each_lacking(
    alloc: Global,
    paths: &mut Row<Path>,
    tree: &Tree,
    rows: &[&(Path, Item)],
) -> Result<(), Memory>
    ensures { OnOk result (paths.new
        ≡ paths.old ++ flat_map (lacking tree.now) (map (λ row. row.now) rows.now)) }
{
    for row in rows {
        push_lacking(alloc, paths, tree, row)?;
    }
    Ok(())
}

// Adds the path of a row at which nothing stands in a tree.
fn push_gone(
    alloc: Global,
    paths: &mut Row<Path>,
    tree: &Tree,
    row: &(Path, Item),
) -> Result<(), Memory>
    ensures { OnOk result (paths.new ≡ paths.old ++ gone tree.now row.now) }
{
    match tree.get(&row.0) {
        Some(_) => Ok(()),
        None => {
            paths.push(row.0.copy(alloc)?)?;
            Ok(())
        }
    }
}

// Adds the paths of those rows at which nothing stands in a tree.
fn push_each_gone(
    alloc: Global,
    paths: &mut Row<Path>,
    tree: &Tree,
    rows: &[&(Path, Item)],
) -> Result<(), Memory>
    ensures { OnOk result (paths.new
        ≡ paths.old ++ flat_map (gone tree.now) (map (λ row. row.now) rows.now)) }
{
    for row in rows {
        push_gone(alloc, paths, tree, row)?;
    }
    Ok(())
}

// Adds the paths inside a target at which two configurations differ.
fn push_target(
    alloc: Global,
    paths: &mut Row<Path>,
    old: &Tree,
    new: &Tree,
    target: &Target,
) -> Result<(), Memory>
    ensures { OnOk result (paths.new ≡ paths.old ++ changed_in old.now new.now target.now) }
{
    let came = rows_inside(alloc, new, target)?;
    push_each_lacking(alloc, paths, old, came.as_slice())?;
    let went = rows_inside(alloc, old, target)?;
    push_each_gone(alloc, paths, new, went.as_slice())
}

/// The paths at which a configuration differs from what it was, where each of them lies inside one of
/// these targets: a path that lies inside two of them is reported twice. It costs a search for each
/// target and one for each row inside them, and looks at no other row.
pub fn changed_paths(
    alloc: Global,
    old: &Tree,
    new: &Tree,
    targets: &[Target],
) -> Result<Row<Path>, Memory>
    requires changed { DiffersInside targets.now old.now new.now }
    ensures { IfOk result (ArePathsChanged old.now new.now) }
{
    let mut paths = Row::new(alloc);
    for target in targets {
        push_target(alloc, &mut paths, old, new, target)?;
    }
    Ok(paths)
}
