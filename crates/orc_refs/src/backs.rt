//! The back pointers of a store: for each path that services write, their ids.
//!
//! Rows in path order stand on shelves, and these in racks, which copies of a store share. A change
//! copies the list of racks, and of what it touches the rack and the shelf, and of all of them the
//! counters alone; what nobody else holds is changed in place.
ghost use Rattle.std.specs.Prelude.{◌≡◌, ◌+◌, ◌≤◌, [], IfOk, OnOk, IsTrue, vec_len};
ghost use Rattle.std.specs.FinMap.{from_sorted, is_sorted};
ghost use Rattle.orc_path.specs.Order.{path_cmp};
ghost use Rattle.orc_refs.specs.Stores.{ids_in};
ghost use Rattle.orc_refs.specs.inside.Plans.{with_rows};
ghost use Rattle.orc_refs.specs.inside.Shelves.{AreFull, AreOrdered, rows_in, set_row};

use crate::part::{part_for, share};
use crate::rack::{Rack, ids_on, insert_shelves, put_on, shelves_taken};
use orc_io::Steps;
use orc_path::Path;
use orc_text::{Memory, Row, Text};
use std::alloc::Global;
use std::marker::Model;
use std::sync::Arc;
use std::sync::ledger::Ledger;

// The racks of a store, held by one owner that its copies share.
#[derive(Drop)]
pub(crate) struct RackList {
    pub(crate) racks: Vec<Arc<Rack>>,
}

// The back pointers of a store. Contracts see the list of the rows, each a path with its ids.
#[derive(Drop)]
pub(crate) struct Backs {
    list: Arc<RackList>,
}

impl Model for Backs {
    ghost use Rattle.std.specs.Prelude.{List, ℕ};
    ghost use Rattle.std.specs.Coded.{coded×, coded_ℕ, coded_list};
    ghost use Rattle.orc_path.specs.Codes.{path_code};
    ghost use Rattle.orc_path.specs.Steps.{PathStep};
    ghost use Rattle.orc_refs.specs.inside.Shelves.{AreRacked, list_racks, rows_in};

    ghost Value = { List (List PathStep × List (List ℕ)) };

    ghost coded = { coded_list (coded× path_code (coded_list (coded_list coded_ℕ))) };

    ghost view = { λ backs. rows_in (list_racks backs.list) };

    ghost invariant = { λ backs. AreRacked (list_racks backs.list) };
}

impl Backs {
    // No row.
    pub(crate) fn new(alloc: Global) -> Result<Backs, Memory>
        ensures { IfOk result (λ backs. backs ≡ []) }
    {
        let racks = Vec::new(alloc);
        Ok(Backs {
            list: Arc::new(alloc, RackList { racks })?,
        })
    }

    // A copy, which has equal rows. It costs a counter.
    pub(crate) fn copy(&self) -> Result<Backs, Memory>
        ensures { IfOk result (λ backs. backs ≡ self.now) }
    {
        Ok(Backs {
            list: Arc::try_clone(&self.list)?,
        })
    }

    // The back pointers of a path. It takes no memory, and costs a search.
    pub(crate) fn ids_of(&self, path: &Path) -> &[Text]
        ensures { result.now ≡ ids_in (from_sorted self.now) path.now }
    {
        ids_in_racks(self.list.racks.as_slice(), path)
    }

    // These rows with others in the place of those of their paths; one without ids takes the row
    // away. It visits each of these paths once.
    pub(crate) fn with_rows<L: Ledger>(
        &self,
        alloc: Global,
        rows: Vec<(Path, Row<Text>)>,
        steps: &mut Steps<L>,
    ) -> Result<Backs, Memory>
        ensures put { IfOk result (λ backs. from_sorted backs ≡ with_rows rows.items (from_sorted self.now)) }
        ensures sorted { IfOk result (λ backs. IsTrue (is_sorted path_cmp backs)) }
        ensures steps { steps.new ≤ steps.old + vec_len rows }
    {
        let mut racks = share(alloc, self.list.racks.as_slice())?;
        put_rows(alloc, &mut racks, rows, steps)?;
        Ok(Backs {
            list: Arc::new(alloc, RackList { racks })?,
        })
    }
}

// The back pointers of a path in racks.
fn ids_in_racks<'a>(racks: &'a [Arc<Rack>], path: &Path) -> &'a [Text]
    requires sorted { AreOrdered (rows_in racks.now) }
    requires full { AreFull racks.now }
    ensures { result.now ≡ ids_in (from_sorted (rows_in racks.now)) path.now }
{
    if racks.is_empty() {
        return &[];
    }
    ids_on(racks[part_for(racks, path)].shelves.as_slice(), path)
}

// Puts a row in the place of that of its path; one without ids takes the row away.
fn put_row(
    alloc: Global,
    racks: &mut Vec<Arc<Rack>>,
    path: Path,
    ids: Row<Text>,
) -> Result<(), Memory>
    requires sorted { AreOrdered (rows_in racks.old.items) }
    requires full { AreFull racks.old.items }
    ensures rows { OnOk result (rows_in racks.new.items ≡ set_row path ids (rows_in racks.old.items)) }
    ensures full { OnOk result (AreFull racks.new.items) }
{
    if racks.is_empty() {
        let mut shelves = Vec::new(alloc);
        put_on(alloc, &mut shelves, path, ids)?;
        return insert_shelves(alloc, racks, 0, shelves);
    }
    let at = part_for(racks.as_slice(), &path);
    let mut shelves = shelves_taken(alloc, racks.remove(at))?;
    put_on(alloc, &mut shelves, path, ids)?;
    insert_shelves(alloc, racks, at, shelves)
}

// Puts rows in the place of those of their paths. It visits each of these paths once.
fn put_rows<L: Ledger>(
    alloc: Global,
    racks: &mut Vec<Arc<Rack>>,
    rows: Vec<(Path, Row<Text>)>,
    steps: &mut Steps<L>,
) -> Result<(), Memory>
    requires sorted { AreOrdered (rows_in racks.old.items) }
    requires full { AreFull racks.old.items }
    ensures put { OnOk result
        (from_sorted (rows_in racks.new.items) ≡ with_rows rows.items (from_sorted (rows_in racks.old.items))) }
    ensures sorted { OnOk result (AreOrdered (rows_in racks.new.items)) }
    ensures full { OnOk result (AreFull racks.new.items) }
    ensures steps { steps.new ≤ steps.old + vec_len rows }
{
    for (path, ids) in rows {
        steps.tick();
        put_row(alloc, racks, path, ids)?;
    }
    Ok(())
}
