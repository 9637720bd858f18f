//! The paths that moves and edits of the base touch, each with what moves bring there.
ghost use Rattle.std.specs.Prelude.{◌≡◌, ◌+◌, ◌≤◌, ◌++◌, ◌||◌, List, OnOk, IfOk, IfSome, IsNone, IsTrue, is_some, length, vec_len};
ghost use Rattle.std.specs.FinMap.{find, is_sorted};
ghost use Rattle.orc_path.specs.Steps.{PathStep};
ghost use Rattle.orc_path.specs.Order.{path_cmp};
ghost use Rattle.orc_tree.specs.Rows.{IsPlaceOf, IsRowOf};
ghost use Rattle.orc_refs.specs.Moves.{BringWhole, count_moved};
ghost use Rattle.orc_refs.specs.inside.Marks.{AreRowsOf, InPathOrder, IsEntered, NoneBehind, brings_at, brought_in, by_path, given, read, read_one, shown};
ghost use Rattle.orc_refs.specs.inside.Settling.{changes_touch, moves_touch};

use crate::Move;
use crate::mark::{Brought, Mark, all_marks, in_order};
use orc_path::Path;
use orc_text::Memory;
use orc_tree::Change;
use std::alloc::Global;

// The paths of all items that the moves take or bring and of these changes, each once, in path
// order, with what the moves bring there. It sorts them, and copies none.
pub(crate) fn touched<'a>(
    alloc: Global,
    moves: &'a [Move],
    changes: &'a [Change],
) -> Result<Vec<(&'a Path, Vec<Brought<'a>>)>, Memory>
    requires whole { BringWhole moves.now }
    ensures sorted { IfOk result (λ rows. IsTrue (is_sorted path_cmp (by_path rows.items))) }
    ensures paths { IfOk result (λ rows. (p : List PathStep)
        → is_some (find path_cmp p (by_path rows.items)) ≡ (changes_touch changes.now p || moves_touch moves.now p)) }
    ensures brings { IfOk result (λ rows. (p : List PathStep)
        → brought_in (by_path rows.items) p ≡ brings_at moves.now p) }
    ensures len { IfOk result (λ rows. vec_len rows ≤ count_moved moves.now + length changes.now) }
{
    let marks = all_marks(alloc, changes, moves)?;
    let sorted = in_order(marks)?;
    let rows = rows_of(alloc, sorted.as_slice())?;
    Ok(rows)
}

// A row for each path that has marks.
fn rows_of<'a>(
    alloc: Global,
    marks: &[Mark<'a>],
) -> Result<Vec<(&'a Path, Vec<Brought<'a>>)>, Memory>
    requires { InPathOrder marks.now }
    ensures rows { IfOk result (λ rows. AreRowsOf (read marks.now) (by_path rows.items)) }
    ensures len { IfOk result (λ rows. vec_len rows ≤ length marks.now) }
{
    let mut rows = Vec::with_capacity(alloc, marks.len())?;
    for mark in marks {
        enter(alloc, &mut rows, mark)?;
    }
    Ok(rows)
}

// Enters a mark in the row of its path, which is then the last, or as a row of its own.
fn enter<'a>(
    alloc: Global,
    rows: &mut Vec<(&'a Path, Vec<Brought<'a>>)>,
    mark: &Mark<'a>,
) -> Result<(), Memory>
    requires sorted { IsTrue (is_sorted path_cmp (by_path rows.old.items)) }
    requires behind { NoneBehind mark.now.path.now (by_path rows.old.items) }
    ensures rows { OnOk result (IsEntered (read_one mark.now) (by_path rows.old.items) (by_path rows.new.items)) }
    ensures len { vec_len rows.new ≤ vec_len rows.old + 1 }
{
    match last_of(rows.as_slice(), mark.path) {
        Some(at) => {
            give(&mut rows[at].1, mark)?;
            Ok(())
        }
        None => {
            let row = row_of(alloc, mark)?;
            rows.push(row)?;
            Ok(())
        }
    }
}

// Where the last row stands, if it is that of the path.
fn last_of(rows: &[(&Path, Vec<Brought<'_>>)], path: &Path) -> Option<usize>
    requires sorted { IsTrue (is_sorted path_cmp (by_path rows.now)) }
    requires behind { NoneBehind path.now (by_path rows.now) }
    ensures found { IfSome result (IsRowOf path.now (by_path rows.now)) }
    ensures absent { IsNone result → IsPlaceOf path.now (by_path rows.now) (length rows.now) }
{
    let count = rows.len();
    if count == 0 {
        return None;
    }
    let at = count - 1;
    if path.cmp(rows[at].0).is_eq() {
        return Some(at);
    }
    None
}

// The row of one mark.
fn row_of<'a>(alloc: Global, mark: &Mark<'a>) -> Result<(&'a Path, Vec<Brought<'a>>), Memory>
    ensures path { IfOk result (λ row. row.0.now ≡ mark.now.path.now) }
    ensures list { IfOk result (λ row. shown row.1.items ≡ given mark.now.brought) }
{
    let mut list = Vec::new(alloc);
    give(&mut list, mark)?;
    Ok((mark.path, list))
}

// Adds what a mark brings.
fn give<'a>(list: &mut Vec<Brought<'a>>, mark: &Mark<'a>) -> Result<(), Memory>
    ensures { OnOk result (shown list.new.items ≡ shown list.old.items ++ given mark.now.brought) }
{
    match mark.brought {
        Some(brought) => {
            list.push(brought)?;
            Ok(())
        }
        None => Ok(()),
    }
}
