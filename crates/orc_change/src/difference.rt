//! The difference of two trees.
ghost use Rattle.std.specs.Prelude.{◌≡◌, ◌++◌, ◌↔◌, [], IfOk, OnOk, IsTrue};
ghost use Rattle.std.specs.List.{list_all};
ghost use Rattle.std.specs.Option.{option_copied};
ghost use Rattle.orc_tree.specs.Changes.{applied, change_fits};
ghost use Rattle.orc_tree.specs.Pages.{rows_of, chapters_rows};
ghost use Rattle.orc_change.specs.Differences.{difference, has_item, removals, new_puts};
ghost use Rattle.orc_change.specs.inside.Held.{AreHeld};

use crate::likely::{Place, likely_place};
use orc_path::{Item, Path};
use orc_text::{Memory, Row};
use orc_tree::{Change, ChangeSet, Chapter, Finger, Page, Tree};
use std::alloc::Global;
use std::sync::Arc;

/// The changes from one tree to another: exactly the paths that differ. Applied to `from` they give
/// `to`, and there are none exactly where the two are equal. A page that both trees have costs a
/// comparison of its rows, which takes no memory; each row of another page costs a search.
pub fn between(alloc: Global, from: &Tree, to: &Tree) -> Result<ChangeSet, Memory>
    ensures exact { IfOk result (λ set. set.changes ≡ difference from.now to.now) }
    ensures leads { IfOk result (λ set. applied set.changes from.now ≡ to.now) }
    ensures equal { IfOk result (λ set. (set.changes ≡ []) ↔ (from.now ≡ to.now)) }
    ensures fits { IfOk result (λ set. IsTrue (list_all change_fits set.changes)) }
{
    let mut changes = Row::new(alloc);
    push_removals(alloc, &mut changes, from.chapters(), to)?;
    push_puts(alloc, &mut changes, to.chapters(), from)?;
    Ok(ChangeSet { changes })
}

/// The changes that take a set back: applied after it to a copy of `before` they give `before`. It
/// costs a copy of the tree with the set applied, and what `between` costs of the two.
pub fn reverse(alloc: Global, set: &ChangeSet, before: &Tree) -> Result<ChangeSet, Memory>
    requires fits { IsTrue (list_all change_fits set.now.changes) }
    ensures back { IfOk result (λ back. applied back.changes (applied set.now.changes before.now) ≡ before.now) }
    ensures exact { IfOk result
        (λ back. back.changes ≡ difference (applied set.now.changes before.now) before.now) }
    ensures fits { IfOk result (λ back. IsTrue (list_all change_fits back.changes)) }
{
    let mut after = before.copy(alloc)?;
    after.apply(set)?;
    between(alloc, &after, before)
}

// Adds a removal of each path of these chapters at which a tree has no item.
fn push_removals(
    alloc: Global,
    changes: &mut Row<Change>,
    chapters: &[Arc<Chapter>],
    to: &Tree,
) -> Result<(), Memory>
    ensures { OnOk result (changes.new ≡ changes.old ++ removals (chapters_rows chapters.now) to.now) }
{
    let mut at = Place::first();
    for chapter in chapters {
        at = push_removals_of(alloc, changes, chapter.pages.as_slice(), to, at)?;
    }
    Ok(())
}

// Adds a removal of each path of the pages of one chapter at which a tree has no item. The first page
// is likely to stand in the tree at a place. It gives the place of the page after them.
fn push_removals_of(
    alloc: Global,
    changes: &mut Row<Change>,
    pages: &[Arc<Page>],
    to: &Tree,
    first: Place,
) -> Result<Place, Memory>
    ensures { OnOk result (changes.new ≡ changes.old ++ removals (rows_of pages.now) to.now) }
{
    let mut at = first;
    for page in pages {
        let rows = page.rows.as_slice();
        at = likely_place(to.chapters(), rows, at);
        push_absent(alloc, changes, rows, to, at)?;
        at = at.next();
    }
    Ok(at)
}

// Adds a put of each item of these chapters that a tree hasn't at its path.
fn push_puts(
    alloc: Global,
    changes: &mut Row<Change>,
    chapters: &[Arc<Chapter>],
    from: &Tree,
) -> Result<(), Memory>
    ensures { OnOk result (changes.new ≡ changes.old ++ new_puts (chapters_rows chapters.now) from.now) }
{
    let mut at = Place::first();
    for chapter in chapters {
        at = push_puts_of(alloc, changes, chapter.pages.as_slice(), from, at)?;
    }
    Ok(())
}

// Adds a put of each item of the pages of one chapter that a tree hasn't at its path. The first page
// is likely to stand in the tree at a place. It gives the place of the page after them.
fn push_puts_of(
    alloc: Global,
    changes: &mut Row<Change>,
    pages: &[Arc<Page>],
    from: &Tree,
    first: Place,
) -> Result<Place, Memory>
    ensures { OnOk result (changes.new ≡ changes.old ++ new_puts (rows_of pages.now) from.now) }
{
    let mut at = first;
    for page in pages {
        let rows = page.rows.as_slice();
        at = likely_place(from.chapters(), rows, at);
        push_new(alloc, changes, rows, from, at)?;
        at = at.next();
    }
    Ok(at)
}

// Whether a tree's page at this place has these rows. It takes no memory.
fn has_page(tree: &Tree, rows: &[(Path, Item)], at: Place) -> bool
    ensures { IsTrue result → AreHeld tree.now rows.now }
{
    let chapters = tree.chapters();
    if at.chapter >= chapters.len() {
        return false;
    }
    let pages = chapters[at.chapter].pages.as_slice();
    if at.page >= pages.len() {
        return false;
    }
    same_rows(pages[at.page].rows.as_slice(), rows)
}

// Whether the rows are the same.
fn same_rows(left: &[(Path, Item)], right: &[(Path, Item)]) -> bool
    ensures { IsTrue result → left.now ≡ right.now }
{
    left == right
}

// Adds a removal of each row's path at which the tree has no item. The tree's page at the place is
// looked at first.
fn push_absent(
    alloc: Global,
    changes: &mut Row<Change>,
    rows: &[(Path, Item)],
    to: &Tree,
    at: Place,
) -> Result<(), Memory>
    ensures { OnOk result (changes.new ≡ changes.old ++ removals rows.now to.now) }
{
    if has_page(to, rows, at) {
        return Ok(());
    }
    push_each_absent(alloc, changes, rows, to)
}

// Adds a removal of each row's path at which the tree has no item, with a search for each row. Each
// search begins where the one before ended.
fn push_each_absent(
    alloc: Global,
    changes: &mut Row<Change>,
    rows: &[(Path, Item)],
    to: &Tree,
) -> Result<(), Memory>
    ensures { OnOk result (changes.new ≡ changes.old ++ removals rows.now to.now) }
{
    let mut finger = Finger::new();
    for row in rows {
        if to.get_near(&mut finger, &row.0).is_none() {
            changes.push(Change::Remove(row.0.copy(alloc)?))?;
        }
    }
    Ok(())
}

// Adds a put of each row whose item the tree hasn't at its path. The tree's page at the place is
// looked at first.
fn push_new(
    alloc: Global,
    changes: &mut Row<Change>,
    rows: &[(Path, Item)],
    from: &Tree,
    at: Place,
) -> Result<(), Memory>
    ensures { OnOk result (changes.new ≡ changes.old ++ new_puts rows.now from.now) }
{
    if has_page(from, rows, at) {
        return Ok(());
    }
    push_each_new(alloc, changes, rows, from)
}

// Adds a put of each row whose item the tree hasn't at its path, with a search for each row. Each search
// begins where the one before ended.
fn push_each_new(
    alloc: Global,
    changes: &mut Row<Change>,
    rows: &[(Path, Item)],
    from: &Tree,
) -> Result<(), Memory>
    ensures { OnOk result (changes.new ≡ changes.old ++ new_puts rows.now from.now) }
{
    let mut finger = Finger::new();
    for row in rows {
        if !has_item(from.get_near(&mut finger, &row.0), &row.1) {
            changes.push(Change::Put(row.0.copy(alloc)?, row.1.copy(alloc)?))?;
        }
    }
    Ok(())
}

/// Whether what was found at a path is this item.
pub fn has_item(found: Option<&Item>, item: &Item) -> bool
    ensures { result ≡ has_item (option_copied found.entry) item.now }
{
    match found {
        None => false,
        Some(found) => *found == *item,
    }
}
