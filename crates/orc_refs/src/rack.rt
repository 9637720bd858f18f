//! Racks, in which a few shelves stand.
ghost use Rattle.std.specs.Prelude.{◌≡◌, ◌<◌, ◌≤◌, ◌++◌, IfOk, OnOk, take, drop, vec_len};
ghost use Rattle.std.specs.FinMap.{from_sorted};
ghost use Rattle.orc_refs.specs.Stores.{ids_in};
ghost use Rattle.orc_refs.specs.inside.Shelves.{AreFull, AreOrdered, AreSome, IsFull, rack_rows, rows_in, rows_on, set_row};

use crate::part::{Part, part_for, share};
use crate::shelf::{Shelf, ids_among, insert_rows, rows_taken, with_row};
use orc_path::Path;
use orc_text::{Memory, Row, Text};
use std::alloc::Global;
use std::sync::Arc;

// Of more shelves two racks are made. A change costs a counter for each shelf of a rack, and one for
// each rack.
const RACK_SHELVES: usize = 64;

// Shelves, one at least, the rows of each before those of the next.
#[derive(Drop)]
pub(crate) struct Rack {
    pub(crate) shelves: Vec<Arc<Shelf>>,
}

impl Part for Rack {
    ghost use Rattle.std.specs.Prelude.{◌≡◌, List, ℕ};
    ghost use Rattle.orc_path.specs.Steps.{PathStep};
    ghost use Rattle.orc_refs.specs.inside.Shelves.{HaveRows, rows_on};

    ghost rows = { λ rack. rows_on rack.shelves.items };

    ghost IsPart = { λ rack. HaveRows rack.shelves.items };

    fn starts_behind(&self, path: &Path) -> bool {
        match self.shelves.first() {
            Some(shelf) => shelf.starts_behind(path),
            None => false,
        }
    }
}

// The back pointers of a path on shelves.
pub(crate) fn ids_on<'a>(shelves: &'a [Arc<Shelf>], path: &Path) -> &'a [Text]
    requires sorted { AreOrdered (rows_on shelves.now) }
    requires full { AreSome shelves.now }
    ensures { result.now ≡ ids_in (from_sorted (rows_on shelves.now)) path.now }
{
    if shelves.is_empty() {
        return &[];
    }
    ids_among(shelves[part_for(shelves, path)].rows.as_slice(), path)
}

// The shelves of a rack: its own where nobody else holds it, else others of the same rows.
pub(crate) fn shelves_taken(alloc: Global, rack: Arc<Rack>) -> Result<Vec<Arc<Shelf>>, Memory>
    requires { IsFull rack }
    ensures rows { IfOk result (λ shelves. rows_on shelves.items ≡ rack_rows rack) }
    ensures full { IfOk result (λ shelves. AreSome shelves.items) }
{
    match Arc::try_unwrap(rack) {
        Ok(rack) => Ok(rack.shelves),
        Err(rack) => share(alloc, rack.shelves.as_slice()),
    }
}

// Puts a row in the place of that of its path; one without ids takes the row away.
pub(crate) fn put_on(
    alloc: Global,
    shelves: &mut Vec<Arc<Shelf>>,
    path: Path,
    ids: Row<Text>,
) -> Result<(), Memory>
    requires sorted { AreOrdered (rows_on shelves.old.items) }
    requires full { AreSome shelves.old.items }
    ensures rows { OnOk result (rows_on shelves.new.items ≡ set_row path ids (rows_on shelves.old.items)) }
    ensures full { OnOk result (AreSome shelves.new.items) }
{
    if shelves.is_empty() {
        let rows = with_row(alloc, Vec::new(alloc), path, ids)?;
        return insert_rows(alloc, shelves, 0, rows);
    }
    let at = part_for(shelves.as_slice(), &path);
    let own = rows_taken(alloc, shelves.remove(at))?;
    let rows = with_row(alloc, own, path, ids)?;
    insert_rows(alloc, shelves, at, rows)
}

// Inserts a rack with these shelves.
fn insert_rack(
    alloc: Global,
    racks: &mut Vec<Arc<Rack>>,
    at: usize,
    shelves: Vec<Arc<Shelf>>,
) -> Result<(), Memory>
    requires within { at ≤ vec_len racks.old }
    requires shelf { 0 < vec_len shelves }
    requires some { AreSome shelves.items }
    requires full { AreFull racks.old.items }
    ensures rows { OnOk result
        (rows_in racks.new.items
        ≡ rows_in (take at racks.old.items) ++ (rows_on shelves.items ++ rows_in (drop at racks.old.items))) }
    ensures full { OnOk result (AreFull racks.new.items) }
    ensures front { OnOk result (take at racks.new.items ≡ take at racks.old.items) }
    ensures len { vec_len racks.old ≤ vec_len racks.new }
{
    racks.insert(at, Arc::new(alloc, Rack { shelves })?)?;
    Ok(())
}

// Inserts these shelves, in two racks where they are too many for one.
pub(crate) fn insert_shelves(
    alloc: Global,
    racks: &mut Vec<Arc<Rack>>,
    at: usize,
    shelves: Vec<Arc<Shelf>>,
) -> Result<(), Memory>
    requires within { at ≤ vec_len racks.old }
    requires some { AreSome shelves.items }
    requires full { AreFull racks.old.items }
    ensures rows { OnOk result
        (rows_in racks.new.items
        ≡ rows_in (take at racks.old.items) ++ (rows_on shelves.items ++ rows_in (drop at racks.old.items))) }
    ensures full { OnOk result (AreFull racks.new.items) }
{
    if shelves.is_empty() {
        return Ok(());
    }
    let mut front = shelves;
    if front.len() <= RACK_SHELVES {
        return insert_rack(alloc, racks, at, front);
    }
    let behind = front.split_off(RACK_SHELVES / 2)?;
    insert_rack(alloc, racks, at, behind)?;
    insert_rack(alloc, racks, at, front)
}
