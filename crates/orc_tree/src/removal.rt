//! The removal of a path, with all below it where it ends in keys, from pages.
ghost use Rattle.std.specs.Prelude.{◌≡◌, ◌≤◌, ◌<◌, ◌+◌, ◌++◌, drop, length, vec_len, IfOk, OnOk, OnErr, IsTrue};
ghost use Rattle.orc_path.specs.Configurations.{is_removed_with};
ghost use Rattle.orc_tree.specs.Pages.{page_rows, rows_of, AreSized};
ghost use Rattle.orc_tree.specs.inside.Places.{AreInOrder, IsPageFor};
ghost use Rattle.orc_tree.specs.inside.Removal.{kept_of, all_kept, starts_taken};

use crate::insertion::replace;
use crate::page::{Page, copy_rows, own, push_copies};
use orc_path::{Item, Path};
use orc_text::{Memory, Row};
use std::alloc::Global;
use std::mem;
use std::sync::Arc;

// How many rows two neighbouring pages have at most that become one after a removal.
const JOINED_ROWS: usize = 4;

// Whether removing a path takes another one.
fn takes(path: &Path, other: &Path) -> bool
    ensures { result ≡ is_removed_with path.now other.now }
{
    if path.ends_in_keys() {
        path.is_prefix_of(other)
    } else {
        path.cmp(other).is_eq()
    }
}

// Takes the path and what is below it out of rows.
fn drop_rows(rows: &mut Vec<(Path, Item)>, path: &Path)
    ensures { rows.new.items ≡ kept_of path.now rows.old.items }
{
    rows.retain(|row| !takes(path, &row.0));
}

// How many rows stay where the path is removed.
fn count_kept(rows: &[(Path, Item)], path: &Path) -> usize
    ensures { result ≡ length (kept_of path.now rows.now) }
{
    let mut kept = 0;
    for row in rows {
        if !takes(path, &row.0) {
            kept += 1;
        }
    }
    kept
}

// Adds copies of the rows that stay where the path is removed.
fn push_kept(
    alloc: Global,
    out: &mut Vec<(Path, Item)>,
    rows: &[(Path, Item)],
    path: &Path,
) -> Result<(), Memory>
    ensures { OnOk result (out.new.items ≡ out.old.items ++ kept_of path.now rows.now) }
{
    for row in rows {
        if !takes(path, &row.0) {
            out.push((row.0.copy(alloc)?, row.1.copy(alloc)?))?;
        }
    }
    Ok(())
}

// Copies of the rows that stay in pages where the path is removed.
fn copy_kept(alloc: Global, pages: &[Arc<Page>], path: &Path) -> Result<Vec<(Path, Item)>, Memory>
    ensures { IfOk result (λ kept. kept.items ≡ kept_of path.now (rows_of pages.now)) }
{
    let mut kept = Vec::new(alloc);
    for page in pages {
        push_kept(alloc, &mut kept, page.rows.as_slice(), path)?;
    }
    Ok(kept)
}

// Takes the path and what is below it out of a page. Where memory runs out, its rows are as they
// were.
fn drop_within(page: &mut Arc<Page>, alloc: Global, path: &Path) -> Result<(), Memory>
    ensures ok { OnOk result (page_rows page.new ≡ kept_of path.now (page_rows page.old)) }
    ensures err { OnErr result (page_rows page.new ≡ page_rows page.old) }
{
    own(alloc, page)?;
    match Arc::get_mut(page) {
        Some(page) => {
            let mut rows = mem::replace(&mut page.rows, Row::new(alloc)).into_vec();
            drop_rows(&mut rows, path);
            page.rows = Row::from_vec(rows);
            Ok(())
        }
        // No page has another holder after `own`.
        None => Err(Memory),
    }
}

// Whether removing the path takes the first of some rows.
pub(crate) fn starts_taken(rows: &[(Path, Item)], path: &Path) -> bool
    ensures { result ≡ starts_taken path.now rows.now }
{
    match rows.first() {
        Some(row) => takes(path, &row.0),
        None => false,
    }
}

// The first page after a path's own whose rows all stay where the path is removed.
fn end_of(pages: &[Arc<Page>], at: usize, path: &Path) -> usize
    requires page { IsPageFor path.now pages.now at }
    requires sorted { AreInOrder pages.now }
    requires sized { AreSized pages.now }
    ensures behind { at < result }
    ensures within { result ≤ length pages.now }
    ensures kept { IsTrue (all_kept path.now (rows_of (drop result pages.now))) }
{
    for end in at + 1..pages.len() {
        if !starts_taken(pages[end].rows.as_slice(), path) {
            return end;
        }
    }
    pages.len()
}

// Takes the path and what is below it out of its page, where all of it stands there.
fn remove_at(pages: &mut Vec<Arc<Page>>, at: usize, path: &Path) -> Result<(), Memory>
    requires page { IsPageFor path.now pages.old.items at }
    requires sized { AreSized pages.old.items }
    requires kept { IsTrue (all_kept path.now (rows_of (drop (at + 1) pages.old.items))) }
    ensures ok { OnOk result (rows_of pages.new.items ≡ kept_of path.now (rows_of pages.old.items)) }
    ensures err { OnErr result (rows_of pages.new.items ≡ rows_of pages.old.items) }
    ensures sized { AreSized pages.new.items }
{
    let rows = pages[at].rows.as_slice();
    let kept = count_kept(rows, path);
    if kept == rows.len() {
        return Ok(());
    }
    if kept == 0 {
        pages.remove(at);
        return Ok(());
    }
    let alloc = *pages.allocator();
    drop_within(&mut pages[at], alloc, path)
}

// Takes the path and what is below it out of the pages from its own one up to the first one whose
// rows all stay. Where memory runs out, the rows are as they were.
fn remove_among(
    pages: &mut Vec<Arc<Page>>,
    at: usize,
    end: usize,
    path: &Path,
) -> Result<(), Memory>
    requires page { IsPageFor path.now pages.old.items at }
    requires sized { AreSized pages.old.items }
    requires order { at < end }
    requires within { end ≤ vec_len pages.old }
    requires kept { IsTrue (all_kept path.now (rows_of (drop end pages.old.items))) }
    ensures ok { OnOk result (rows_of pages.new.items ≡ kept_of path.now (rows_of pages.old.items)) }
    ensures err { OnErr result (rows_of pages.new.items ≡ rows_of pages.old.items) }
    ensures sized { AreSized pages.new.items }
{
    if end == at + 1 {
        return remove_at(pages, at, path);
    }
    let rows = copy_kept(*pages.allocator(), &pages[at..end], path)?;
    replace(pages, at, end, rows)
}

// Lays a page and the next one out as one page, where they have few rows. Where memory runs out, they
// stay two.
fn join_next(pages: &mut Vec<Arc<Page>>, at: usize) -> Result<(), Memory>
    requires { AreSized pages.old.items }
    ensures rows { rows_of pages.new.items ≡ rows_of pages.old.items }
    ensures sized { AreSized pages.new.items }
{
    if at >= pages.len() || at + 1 >= pages.len() {
        return Ok(());
    }
    if pages[at].rows.len() + pages[at + 1].rows.len() > JOINED_ROWS {
        return Ok(());
    }
    let alloc = *pages.allocator();
    let mut rows = copy_rows(alloc, pages[at].rows.as_slice())?;
    push_copies(alloc, &mut rows, pages[at + 1].rows.as_slice())?;
    replace(pages, at, at + 2, rows)
}

// Joins a page with its neighbours, where they have few rows together. Where memory is wanted the
// pages stay as they are: they have the same rows.
fn join_around(pages: &mut Vec<Arc<Page>>, at: usize)
    requires { AreSized pages.old.items }
    ensures rows { rows_of pages.new.items ≡ rows_of pages.old.items }
    ensures sized { AreSized pages.new.items }
{
    let _ = join_next(pages, at);
    if at > 0 {
        let _ = join_next(pages, at - 1);
    }
}

// Takes the path and what is below it out of the pages, of which this one is the path's, and joins
// what is left where it is little. Where memory runs out, the rows are as they were.
pub(crate) fn remove(pages: &mut Vec<Arc<Page>>, at: usize, path: &Path) -> Result<(), Memory>
    requires page { IsPageFor path.now pages.old.items at }
    requires sorted { AreInOrder pages.old.items }
    requires sized { AreSized pages.old.items }
    ensures ok { OnOk result (rows_of pages.new.items ≡ kept_of path.now (rows_of pages.old.items)) }
    ensures err { OnErr result (rows_of pages.new.items ≡ rows_of pages.old.items) }
    ensures sized { AreSized pages.new.items }
{
    let end = end_of(pages.as_slice(), at, path);
    remove_among(pages, at, end, path)?;
    join_around(pages, at);
    Ok(())
}
