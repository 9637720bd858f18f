//! What moves come to at the paths that they touch.
ghost use Rattle.std.specs.Prelude.{◌≡◌, ◌≢◌, ◌+◌, ◌≤◌, ◌++◌, ◌∷◌, [], List, OnOk, IfOk, IfErr, IsSome, Ok, true, IsTrue, length};
ghost use Rattle.std.specs.Option.{option_copied};
ghost use Rattle.std.specs.FinMap.{from_sorted, get, is_sorted};
ghost use Rattle.orc_path.specs.Order.{path_cmp};
ghost use Rattle.orc_path.specs.Steps.{PathStep};
ghost use Rattle.orc_refs.specs.Stores.{ids_in};
ghost use Rattle.orc_refs.specs.Moves.{BringWhole};
ghost use Rattle.orc_refs.specs.inside.Settling.{all_bring, ids_after, item_after};
ghost use Rattle.orc_refs.specs.inside.Marks.{brings_at, brought_in, by_path, paths_in, shown};
ghost use Rattle.orc_refs.specs.inside.Plans.{AreCovered, HasCause, all_agree, come, gone, puts_due, removals_due, rows_due};

use crate::backs::Backs;
use crate::mark::Brought;
use crate::rival::rival;
use crate::settle::{all_are, any_stays, first_of, ids_after};
use crate::{Move, RefsFault};
use orc_change::has_item;
use orc_io::Steps;
use orc_path::{Item, Path};
use orc_text::{Memory, Row, Text};
use orc_tree::{Change, Finger, Tree};
use std::alloc::Global;
use std::sync::ledger::Ledger;

// The changes of the tree at the paths that moves touch, and the back pointers there where these are
// wanted.
#[derive(Drop)]
pub(crate) struct Plan {
    pub(crate) rows: Row<(Path, Row<Text>)>,
    pub(crate) removals: Row<Change>,
    pub(crate) puts: Row<Change>,
}

// What stands at a path: the ids of the services that write it, and the tree's item. The base is the
// edited one, and is searched only for a path that no service is to write.
#[derive(Clone, Copy)]
pub(crate) struct Place<'a> {
    pub(crate) ids: &'a [Text],
    pub(crate) here: Option<&'a Item>,
    pub(crate) base: &'a Tree,
}

// A store as moves find it, with the base once it is edited.
#[derive(Clone, Copy)]
pub(crate) struct Held<'a> {
    pub(crate) backs: &'a Backs,
    pub(crate) tree: &'a Tree,
    pub(crate) base: &'a Tree,
}

impl Plan {
    // Nothing yet, with room for what so many paths come to, and for their back pointers where they are
    // wanted.
    fn new(alloc: Global, count: usize, with_pointers: bool) -> Result<Plan, Memory>
        ensures rows { IfOk result (λ plan. plan.rows ≡ []) }
        ensures removals { IfOk result (λ plan. plan.removals ≡ []) }
        ensures puts { IfOk result (λ plan. plan.puts ≡ []) }
    {
        let pointer_count = if with_pointers { count } else { 0 };
        Ok(Plan {
            rows: Row::from_vec(Vec::with_capacity(alloc, pointer_count)?),
            removals: Row::from_vec(Vec::with_capacity(alloc, count)?),
            puts: Row::from_vec(Vec::with_capacity(alloc, count)?),
        })
    }

    // Settles the item of one path where all that write it agree, and else answers false. The finger is
    // where the last search in the base ended.
    fn settle(
        &mut self,
        alloc: Global,
        moves: &[Move],
        path: &Path,
        brought: &[Brought<'_>],
        found: &Place<'_>,
        finger: &mut Finger,
    ) -> Result<bool, Memory>
        requires { shown brought.now ≡ brings_at moves.now path.now }
        ensures agree { IfOk result (λ agree. agree
            ≡ all_bring moves.now path.now
            (item_after moves.now path.now found.now.ids.now (option_copied found.now.here)
            (get found.now.base.now path.now))) }
        ensures rows { self.new.rows ≡ self.old.rows }
        ensures removals { result ≡ Ok true
            → self.new.removals ≡ self.old.removals ++ gone (option_copied found.now.here)
            (item_after moves.now path.now found.now.ids.now (option_copied found.now.here)
            (get found.now.base.now path.now))
            path.now }
        ensures puts { result ≡ Ok true
            → self.new.puts ≡ self.old.puts ++ come (option_copied found.now.here)
            (item_after moves.now path.now found.now.ids.now (option_copied found.now.here)
            (get found.now.base.now path.now))
            path.now }
    {
        let after = item_after(moves, path, brought, found, finger);
        if !all_are(brought, after) {
            return Ok(false);
        }
        self.change(alloc, path, found.here, after)?;
        Ok(true)
    }

    // Adds the back pointers of a path, where these are wanted. The ids are those before the moves.
    fn add_pointers(
        &mut self,
        alloc: Global,
        moves: &[Move],
        path: &Path,
        brought: &[Brought<'_>],
        ids: &[Text],
        with_pointers: bool,
    ) -> Result<(), Memory>
        requires { shown brought.now ≡ brings_at moves.now path.now }
        ensures rows { OnOk result (IsTrue with_pointers
            → self.new.rows ≡ self.old.rows ++ (path.now, ids_after moves.now path.now ids.now) ∷ []) }
        ensures removals { self.new.removals ≡ self.old.removals }
        ensures puts { self.new.puts ≡ self.old.puts }
    {
        if !with_pointers {
            return Ok(());
        }
        let after = ids_after(alloc, moves, brought, ids)?;
        self.rows.push((path.copy(alloc)?, Row::from_vec(after)))?;
        Ok(())
    }

    // Adds the change of a path, if there is one.
    fn change(
        &mut self,
        alloc: Global,
        path: &Path,
        here: Option<&Item>,
        after: Option<&Item>,
    ) -> Result<(), Memory>
        ensures rows { self.new.rows ≡ self.old.rows }
        ensures removals { OnOk result (self.new.removals
            ≡ self.old.removals ++ gone (option_copied here.entry) (option_copied after.entry) path.now) }
        ensures puts { OnOk result (self.new.puts
            ≡ self.old.puts ++ come (option_copied here.entry) (option_copied after.entry) path.now) }
    {
        match after {
            Some(item) => {
                if !has_item(here, item) {
                    self.puts
                        .push(Change::Put(path.copy(alloc)?, item.copy(alloc)?))?;
                }
            }
            None => {
                if here.is_some() {
                    self.removals.push(Change::Remove(path.copy(alloc)?))?;
                }
            }
        }
        Ok(())
    }
}

// The item that stands at a path once the moves are done. The finger is where the last search in the
// base ended.
fn item_after<'a>(
    moves: &[Move],
    path: &Path,
    brought: &[Brought<'a>],
    found: &Place<'a>,
    finger: &mut Finger,
) -> Option<&'a Item>
    requires { shown brought.now ≡ brings_at moves.now path.now }
    ensures { option_copied result
        ≡ item_after moves.now path.now found.now.ids.now (option_copied found.now.here)
        (get found.now.base.now path.now) }
{
    if any_stays(moves, found.ids) {
        return found.here;
    }
    match first_of(brought) {
        Some(item) => Some(item),
        None => found.base.get_near(finger, path),
    }
}

// What stands at a path. The finger is where the last search in the tree ended.
fn place_at<'a>(store: &Held<'a>, path: &Path, finger: &mut Finger) -> Place<'a>
    requires { AreCovered (from_sorted store.now.backs.now) store.now.tree.now }
    ensures ids { result.ids.now ≡ ids_in (from_sorted store.now.backs.now) path.now }
    ensures here { option_copied result.here ≡ get store.now.tree.now path.now }
    ensures base { result.base.now ≡ store.now.base.now }
{
    let here = store.tree.get_near(finger, path);
    Place {
        ids: ids_at(store.backs, path, here),
        here,
        base: store.base,
    }
}

// The ids of the services that write a path, where this item stands in the tree. They are searched
// only where there is one.
fn ids_at<'a>(backs: &'a Backs, path: &Path, here: Option<&Item>) -> &'a [Text]
    requires { ids_in (from_sorted backs.now) path.now ≢ [] → IsSome here }
    ensures { result.now ≡ ids_in (from_sorted backs.now) path.now }
{
    match here {
        Some(_) => backs.ids_of(path),
        None => &[],
    }
}

// What the moves come to at the paths that they touch, where each path has what they bring there, with
// the back pointers there where these are wanted. It visits each of these paths once.
pub(crate) fn plan_of<L: Ledger>(
    alloc: Global,
    moves: &[Move],
    store: &Held<'_>,
    touched: &[(&Path, Vec<Brought<'_>>)],
    with_pointers: bool,
    steps: &mut Steps<L>,
) -> Result<Plan, RefsFault>
    requires backs { IsTrue (is_sorted path_cmp store.now.backs.now) }
    requires covered { AreCovered (from_sorted store.now.backs.now) store.now.tree.now }
    requires paths { IsTrue (is_sorted path_cmp (by_path touched.now)) }
    requires whole { BringWhole moves.now }
    requires brings { (p : List PathStep) → brought_in (by_path touched.now) p ≡ brings_at moves.now p }
    ensures clash { IfErr result (HasCause (from_sorted store.now.backs.now) store.now.tree.now store.now.base.now
        moves.now (paths_in touched.now)) }
    ensures rows { IfOk result
        (λ plan. IsTrue with_pointers
        → plan.rows ≡ rows_due (from_sorted store.now.backs.now) moves.now (paths_in touched.now)) }
    ensures removals { IfOk result
        (λ plan. plan.removals ≡ removals_due (from_sorted store.now.backs.now) store.now.tree.now store.now.base.now
        moves.now (paths_in touched.now)) }
    ensures puts { IfOk result
        (λ plan. plan.puts ≡ puts_due (from_sorted store.now.backs.now) store.now.tree.now store.now.base.now
        moves.now (paths_in touched.now)) }
    ensures agree { IfOk result
        (λ plan. IsTrue (all_agree (from_sorted store.now.backs.now) store.now.tree.now store.now.base.now
        moves.now (paths_in touched.now))) }
    ensures steps { steps.new ≤ steps.old + length touched.now }
{
    let mut plan = Plan::new(alloc, touched.len(), with_pointers)?;
    // The paths come in path order, so that most of them stand beside the one before.
    let mut tree_finger = Finger::new();
    let mut base_finger = Finger::new();
    for row in touched {
        steps.tick();
        let path = row.0;
        let found = place_at(store, path, &mut tree_finger);
        if !plan.settle(
            alloc,
            moves,
            path,
            row.1.as_slice(),
            &found,
            &mut base_finger,
        )? {
            let path = path.copy(alloc)?;
            let other = rival(alloc, moves, &path, &found)?;
            return Err(RefsFault::Clash { path, other });
        }
        plan.add_pointers(
            alloc,
            moves,
            path,
            row.1.as_slice(),
            found.ids,
            with_pointers,
        )?;
    }
    Ok(plan)
}
