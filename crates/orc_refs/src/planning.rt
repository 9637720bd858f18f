//! Moves and edits of the base planned and put in place. All that can be refused is refused before
//! anything is changed.
ghost use Rattle.std.specs.Prelude.{◌≡◌, ◌+◌, ◌*◌, ◌<◌, ◌≤◌, ◌++◌, All, List, IsErr, IfErr, IfOk, OnOk, IsTrue, length};
ghost use Rattle.std.specs.List.{list_all};
ghost use Rattle.std.specs.FinMap.{from_sorted, is_sorted};
ghost use Rattle.orc_path.specs.Order.{path_cmp};
ghost use Rattle.orc_path.specs.Steps.{PathStep, is_path};
ghost use Rattle.orc_path.specs.Configurations.{IsConfig};
ghost use Rattle.orc_tree.specs.Changes.{applied, change_fits};
ghost use Rattle.orc_change.specs.Differences.{difference};
ghost use Rattle.orc_refs.specs.Stores.{store_of, written_by};
ghost use Rattle.orc_refs.specs.Moves.{BringWhole, IsMoved, LeadsTo, StartAt, are_distinct, count_moved, edit_fits, edited, writes_after};
ghost use Rattle.orc_refs.specs.Clashes.{IsCause};
ghost use Rattle.orc_refs.specs.inside.Kept.{AreKept};
ghost use Rattle.orc_refs.specs.inside.Marks.{brings_at, brought_in, by_path, paths_in};
ghost use Rattle.orc_refs.specs.inside.Plans.{AreCovered, HasCause, IsPlannedWith, PutsAtPath, all_agree, changes_due, rows_due};

use crate::backs::Backs;
use crate::base::{NewBase, new_base};
use crate::mark::Brought;
use crate::plan::{Held, Plan, plan_of};
use crate::touched::touched;
use crate::{BaseEdit, Move, RefsFault};
use orc_io::Steps;
use orc_path::Path;
use orc_text::{Memory, Row, Text};
use orc_tree::{Change, ChangeSet, Tree};
use std::alloc::Global;
use std::sync::ledger::{Blank, Ledger};

// What is due on a store: the changes of its tree and, where they are made too, the back pointers
// of the paths that are touched.
#[derive(Drop)]
pub(crate) struct Due {
    pub(crate) set: ChangeSet,
    pub(crate) rows: Row<(Path, Row<Text>)>,
}

// What is due on a store, with the base that the store is to have.
#[derive(Drop)]
pub(crate) struct Outlook {
    pub(crate) due: Due,
    pub(crate) base: Tree,
}

// What is due at these paths. It visits each of them once.
fn due_at<L: Ledger>(
    alloc: Global,
    store: &Held<'_>,
    moves: &[Move],
    touched: &[(&Path, Vec<Brought<'_>>)],
    with_pointers: bool,
    steps: &mut Steps<L>,
) -> Result<Due, RefsFault>
    requires backs { IsTrue (is_sorted path_cmp store.now.backs.now) }
    requires covered { AreCovered (from_sorted store.now.backs.now) store.now.tree.now }
    requires paths { IsTrue (is_sorted path_cmp (by_path touched.now)) }
    requires whole { BringWhole moves.now }
    requires brings { (p : List PathStep) → brought_in (by_path touched.now) p ≡ brings_at moves.now p }
    ensures changes { IfOk result
        (λ due. due.set.changes ≡ changes_due (from_sorted store.now.backs.now) store.now.tree.now
        store.now.base.now moves.now (paths_in touched.now)) }
    ensures rows { IfOk result
        (λ due. IsTrue with_pointers
        → due.rows ≡ rows_due (from_sorted store.now.backs.now) moves.now (paths_in touched.now)) }
    ensures agree { IfOk result
        (λ due. IsTrue (all_agree (from_sorted store.now.backs.now) store.now.tree.now store.now.base.now
        moves.now (paths_in touched.now))) }
    ensures clash { IfErr result (HasCause (from_sorted store.now.backs.now) store.now.tree.now store.now.base.now
        moves.now (paths_in touched.now)) }
    ensures steps { steps.new ≤ steps.old + length touched.now }
{
    // A `match` and no `?`, so that the proof has the fault by its name.
    let plan = match plan_of(alloc, moves, store, touched, with_pointers, steps) {
        Ok(plan) => plan,
        Err(fault) => return Err(fault),
    };
    let Plan {
        rows,
        removals,
        puts,
    } = plan;
    let set = joined(removals, puts)?;
    Ok(Due { set, rows })
}

// What is due once the base is an edited one. It visits each touched path once.
fn due_on<L: Ledger>(
    alloc: Global,
    backs: &Backs,
    tree: &Tree,
    base: &Tree,
    edited: &Tree,
    changes: &[Change],
    moves: &[Move],
    with_pointers: bool,
    steps: &mut Steps<L>,
) -> Result<Due, RefsFault>
    requires kept { AreKept base.now tree.now backs.now }
    requires start { StartAt (store_of base.now tree.now backs.now) moves.now }
    requires distinct { IsTrue (are_distinct moves.now) }
    requires whole { BringWhole moves.now }
    requires config { IsConfig edited.now }
    requires changes { changes.now ≡ difference base.now edited.now }
    ensures planned { IfOk result
        (λ due. IsPlannedWith with_pointers (store_of base.now tree.now backs.now) edited.now moves.now
        due.set.changes due.rows) }
    ensures len { IfOk result
        (λ due. IsTrue with_pointers
        → length due.rows ≤ count_moved moves.now + length (difference base.now edited.now)) }
    ensures clash { IfErr result
        (IsCause (writes_after moves.now (written_by (store_of base.now tree.now backs.now))) moves.now) }
    ensures steps { steps.new ≤ steps.old + (count_moved moves.now + length (difference base.now edited.now)) }
{
    let paths = touched(alloc, moves, changes)?;
    let store = Held {
        backs,
        tree,
        base: edited,
    };
    match due_at(alloc, &store, moves, paths.as_slice(), with_pointers, steps) {
        Ok(due) => Ok(due),
        Err(fault) => Err(fault),
    }
}

// Removals, and after them what is put.
fn joined(mut removals: Row<Change>, puts: Row<Change>) -> Result<ChangeSet, Memory>
    ensures { IfOk result (λ set. set.changes ≡ removals ++ puts) }
{
    for change in puts.into_vec() {
        removals.push(change)?;
    }
    Ok(ChangeSet { changes: removals })
}

// A copy of a tree with changes applied.
fn applied_to(alloc: Global, set: &ChangeSet, tree: &Tree) -> Result<Tree, Memory>
    requires fits { IsTrue (list_all change_fits set.now.changes) }
    ensures applied { IfOk result (λ new. new ≡ applied set.now.changes tree.now) }
    ensures config { IfOk result (λ new. IsConfig new) }
{
    let mut new = tree.copy(alloc)?;
    new.apply(set)?;
    Ok(new)
}

// What is due where moves and edits are done on a store.
fn look_ahead<L: Ledger>(
    alloc: Global,
    backs: &Backs,
    tree: &Tree,
    base: &Tree,
    moves: &[Move],
    edits: &[BaseEdit],
    with_pointers: bool,
    steps: &mut Steps<L>,
) -> Result<Outlook, RefsFault>
    requires kept { AreKept base.now tree.now backs.now }
    requires start { StartAt (store_of base.now tree.now backs.now) moves.now }
    requires distinct { IsTrue (are_distinct moves.now) }
    requires whole { BringWhole moves.now }
    requires fits { IsTrue (list_all edit_fits edits.now) }
    ensures planned { IfOk result
        (λ outlook. IsPlannedWith with_pointers (store_of base.now tree.now backs.now) outlook.base moves.now
        outlook.due.set.changes outlook.due.rows) }
    ensures base { IfOk result (λ outlook. outlook.base ≡ edited edits.now base.now) }
    ensures len { IfOk result
        (λ outlook. IsTrue with_pointers
        → length outlook.due.rows
        ≤ count_moved moves.now + length (difference base.now (edited edits.now base.now))) }
    ensures clash { IfErr result
        (IsCause (writes_after moves.now (written_by (store_of base.now tree.now backs.now))) moves.now) }
    ensures steps { steps.new
        ≤ steps.old + (count_moved moves.now + length (difference base.now (edited edits.now base.now))) }
{
    let new = new_base(alloc, base, edits)?;
    let changes = new.set.changes.as_slice();
    let due = match due_on(
        alloc,
        backs,
        tree,
        base,
        &new.tree,
        changes,
        moves,
        with_pointers,
        steps,
    ) {
        Ok(due) => due,
        Err(fault) => return Err(fault),
    };
    let NewBase {
        tree: edited_base,
        set: _,
    } = new;
    Ok(Outlook {
        due,
        base: edited_base,
    })
}

// Does moves and edits on the parts of a store, and gives the changes of the tree. It visits each
// path that is touched twice. After a refusal the parts are as they were.
pub(crate) fn apply_moves<L: Ledger>(
    alloc: Global,
    backs: &mut Backs,
    tree: &mut Tree,
    base: &mut Tree,
    moves: &[Move],
    edits: &[BaseEdit],
    steps: &mut Steps<L>,
) -> Result<ChangeSet, RefsFault>
    requires kept { AreKept base.old tree.old backs.old }
    requires start { StartAt (store_of base.old tree.old backs.old) moves.now }
    requires distinct { IsTrue (are_distinct moves.now) }
    requires whole { BringWhole moves.now }
    requires fits { IsTrue (list_all edit_fits edits.now) }
    ensures kept { AreKept base.new tree.new backs.new }
    ensures moved { OnOk result
        (IsMoved (store_of base.old tree.old backs.old) moves.now edits.now
        (store_of base.new tree.new backs.new)) }
    ensures leads { IfOk result (λ set. applied set.changes tree.old ≡ tree.new) }
    ensures exact { IfOk result (λ set. set.changes ≡ difference tree.old tree.new) }
    ensures clash { IfErr result
        (IsCause (writes_after moves.now (written_by (store_of base.old tree.old backs.old))) moves.now) }
    ensures same { IsErr result
        → store_of base.new tree.new backs.new ≡ store_of base.old tree.old backs.old }
    ensures steps { steps.new
        ≤ steps.old + 2 * (count_moved moves.now + length (difference base.old (edited edits.now base.old))) }
{
    let outlook = match look_ahead(alloc, &*backs, &*tree, &*base, moves, edits, true, steps) {
        Ok(outlook) => outlook,
        Err(fault) => return Err(fault),
    };
    let Outlook {
        due,
        base: new_base,
    } = outlook;
    let Due { set, rows } = due;
    let new_tree = applied_to(alloc, &set, &*tree)?;
    let new_backs = backs.with_rows(alloc, rows.into_vec(), steps)?;
    *backs = new_backs;
    *base = new_base;
    *tree = new_tree;
    Ok(set)
}

// Looked into, so that the proof knows that it is a path.
fn is_one(path: &Path)
    ensures { IsTrue (is_path path.now) }
{
    let _ = path.steps.len();
}

// Each item that is put is put at a path. It is called for the proof alone.
fn put_at_paths(changes: &[Change])
    ensures { All PutsAtPath changes.now }
{
    for change in changes {
        match change {
            Change::Put(path, _) => is_one(path),
            Change::Remove(_) => {}
        }
    }
}

// The changes alone.
fn set_of(outlook: Outlook) -> ChangeSet
    ensures { result.changes ≡ outlook.due.set.changes }
{
    let Outlook { due, base: _ } = outlook;
    let Due { set, rows: _ } = due;
    set
}

// The changes of the tree that moves and edits would make, where nothing is counted and no back pointer
// is made.
pub(crate) fn preview_moves<L: Ledger>(
    alloc: Global,
    backs: &Backs,
    tree: &Tree,
    base: &Tree,
    moves: &[Move],
    edits: &[BaseEdit],
    blank: Blank,
) -> Result<ChangeSet, RefsFault>
    requires name { blank.name ≡ L.name }
    requires parts { blank.parts ≡ L.parts }
    requires some { 0 < blank.parts }
    requires kept { AreKept base.now tree.now backs.now }
    requires start { StartAt (store_of base.now tree.now backs.now) moves.now }
    requires distinct { IsTrue (are_distinct moves.now) }
    requires whole { BringWhole moves.now }
    requires fits { IsTrue (list_all edit_fits edits.now) }
    ensures leads { IfOk result
        (λ set. LeadsTo (store_of base.now tree.now backs.now) moves.now edits.now set.changes) }
    ensures clash { IfErr result
        (IsCause (writes_after moves.now (written_by (store_of base.now tree.now backs.now))) moves.now) }
{
    let mut steps = Steps::<L>::new(blank);
    match look_ahead(alloc, backs, tree, base, moves, edits, false, &mut steps) {
        Ok(outlook) => {
            put_at_paths(outlook.due.set.changes.as_slice());
            Ok(set_of(outlook))
        }
        Err(fault) => Err(fault),
    }
}
