//! Shelves, on which a few rows of back pointers stand.
ghost use Rattle.std.specs.Prelude.{◌≡◌, ◌<◌, ◌≤◌, ◌++◌, [], IfOk, IfErr, OnOk, IsTrue, length, take, drop, vec_len};
ghost use Rattle.std.specs.FinMap.{from_sorted, is_sorted};
ghost use Rattle.orc_path.specs.Order.{path_cmp};
ghost use Rattle.orc_tree.specs.Rows.{IsRowOf, IsPlaceOf};
ghost use Rattle.orc_refs.specs.Stores.{ids_in};
ghost use Rattle.orc_refs.specs.inside.Shelves.{AreOrdered, AreSome, back_rows, rows_on, set_row, shelf_rows};

use crate::part::{Part, share};
use orc_path::Path;
use orc_text::{Memory, Row, Text};
use orc_tree::order;
use std::alloc::Global;
use std::cmp::Ordering;
use std::sync::Arc;

// Of more rows two shelves are made. A change costs a counter for each row of a shelf.
const SHELF_ROWS: usize = 16;

// The ids of the services that write a path.
#[derive(Drop)]
pub(crate) struct Back {
    pub(crate) path: Path,
    pub(crate) ids: Row<Text>,
}

// Rows in path order, one at least.
#[derive(Drop)]
pub(crate) struct Shelf {
    pub(crate) rows: Vec<Arc<Back>>,
}

impl Part for Shelf {
    ghost use Rattle.std.specs.Prelude.{◌≡◌, ◌≤◌, List, ℕ, length};
    ghost use Rattle.orc_path.specs.Steps.{PathStep};
    ghost use Rattle.orc_refs.specs.inside.Shelves.{back_rows};

    ghost rows = { λ shelf. back_rows shelf.rows.items };

    ghost IsPart = { λ shelf. 1 ≤ length (back_rows shelf.rows.items) };

    fn starts_behind(&self, path: &Path) -> bool {
        match self.rows.first() {
            Some(row) => order(path.steps.as_slice(), &row.path).is_lt(),
            None => false,
        }
    }
}

// Where the row of a path stands among rows, or else where it would. It halves the rows with each
// comparison, which `order` makes cheaper than `Path::cmp`, where the names of steps are equal.
fn place_of(rows: &[Arc<Back>], path: &Path) -> Result<usize, usize>
    requires { AreOrdered (back_rows rows.now) }
    ensures found { IfOk result (IsRowOf path.now (back_rows rows.now)) }
    ensures absent { IfErr result (IsPlaceOf path.now (back_rows rows.now)) }
{
    let mut low = 0;
    let mut high = rows.len();
    while low < high {
        let middle = low + (high - low) / 2;
        match order(path.steps.as_slice(), &rows[middle].path) {
            Ordering::Less => high = middle,
            Ordering::Equal => return Ok(middle),
            Ordering::Greater => low = middle + 1,
        }
    }
    Err(low)
}

// The back pointers of a path among rows.
pub(crate) fn ids_among<'a>(rows: &'a [Arc<Back>], path: &Path) -> &'a [Text]
    requires { AreOrdered (back_rows rows.now) }
    ensures { result.now ≡ ids_in (from_sorted (back_rows rows.now)) path.now }
{
    match place_of(rows, path) {
        Ok(at) => rows[at].ids.as_slice(),
        Err(_) => &[],
    }
}

// The rows of a shelf: its own where nobody else holds it, else others of the same values.
pub(crate) fn rows_taken(alloc: Global, shelf: Arc<Shelf>) -> Result<Vec<Arc<Back>>, Memory>
    ensures { IfOk result (λ rows. back_rows rows.items ≡ shelf_rows shelf) }
{
    match Arc::try_unwrap(shelf) {
        Ok(shelf) => Ok(shelf.rows),
        Err(shelf) => share(alloc, shelf.rows.as_slice()),
    }
}

// The rows with one in the place of that of its path; one without ids takes the row away.
pub(crate) fn with_row(
    alloc: Global,
    mut rows: Vec<Arc<Back>>,
    path: Path,
    ids: Row<Text>,
) -> Result<Vec<Arc<Back>>, Memory>
    requires { AreOrdered (back_rows rows.items) }
    ensures { IfOk result (λ new. back_rows new.items ≡ set_row path ids (back_rows rows.items)) }
{
    if ids.is_empty() {
        return Ok(without_row(rows, &path));
    }
    match place_of(rows.as_slice(), &path) {
        Ok(at) => {
            rows[at] = Arc::new(alloc, Back { path, ids })?;
            Ok(rows)
        }
        Err(at) => {
            rows.insert(at, Arc::new(alloc, Back { path, ids })?)?;
            Ok(rows)
        }
    }
}

// The rows without that of a path.
fn without_row(mut rows: Vec<Arc<Back>>, path: &Path) -> Vec<Arc<Back>>
    requires { AreOrdered (back_rows rows.items) }
    ensures { back_rows result.items ≡ set_row path.now [] (back_rows rows.items) }
{
    match place_of(rows.as_slice(), path) {
        Ok(at) => {
            rows.remove(at);
            rows
        }
        Err(_) => rows,
    }
}

// Inserts a shelf with these rows.
fn insert_shelf(
    alloc: Global,
    shelves: &mut Vec<Arc<Shelf>>,
    at: usize,
    rows: Vec<Arc<Back>>,
) -> Result<(), Memory>
    requires within { at ≤ vec_len shelves.old }
    requires row { 0 < vec_len rows }
    requires full { AreSome shelves.old.items }
    ensures rows { OnOk result
        (rows_on shelves.new.items
        ≡ rows_on (take at shelves.old.items) ++ (back_rows rows.items ++ rows_on (drop at shelves.old.items))) }
    ensures full { OnOk result (AreSome shelves.new.items) }
    ensures front { OnOk result (take at shelves.new.items ≡ take at shelves.old.items) }
    ensures len { vec_len shelves.old ≤ vec_len shelves.new }
{
    shelves.insert(at, Arc::new(alloc, Shelf { rows })?)?;
    Ok(())
}

// Inserts these rows, on two shelves where they are too many for one.
pub(crate) fn insert_rows(
    alloc: Global,
    shelves: &mut Vec<Arc<Shelf>>,
    at: usize,
    rows: Vec<Arc<Back>>,
) -> Result<(), Memory>
    requires within { at ≤ vec_len shelves.old }
    requires full { AreSome shelves.old.items }
    ensures rows { OnOk result
        (rows_on shelves.new.items
        ≡ rows_on (take at shelves.old.items) ++ (back_rows rows.items ++ rows_on (drop at shelves.old.items))) }
    ensures full { OnOk result (AreSome shelves.new.items) }
{
    if rows.is_empty() {
        return Ok(());
    }
    let mut front = rows;
    if front.len() <= SHELF_ROWS {
        return insert_shelf(alloc, shelves, at, front);
    }
    let behind = front.split_off(SHELF_ROWS / 2)?;
    insert_shelf(alloc, shelves, at, behind)?;
    insert_shelf(alloc, shelves, at, front)
}
