//! An item with the missing entries on its way put into pages. The page that is touched is copied
//! where it has other holders.
ghost use Rattle.std.specs.Prelude.{◌≡◌, ◌≤◌, ◌<◌, ◌+◌, ◌++◌, [], length, vec_len, IfOk, OnOk, OnErr, IsTrue};
ghost use Rattle.std.specs.List.{HoldsAt};
ghost use Rattle.std.specs.FinMap.{is_sorted};
ghost use Rattle.orc_path.specs.Order.{path_cmp};
ghost use Rattle.orc_tree.specs.Pages.{page_rows, rows_of, AreSized};
ghost use Rattle.orc_tree.specs.inside.Places.{AreInOrder, IsPageFor};
ghost use Rattle.orc_tree.specs.inside.Puts.{AreGaps, put_with, rows_with};

use crate::lookup::page_for;
use crate::page::{PAGE_ROWS, Page, copy_rows, own};
use crate::sorted::{enter_rows, put_row};
use orc_path::{Item, Path, Step};
use orc_text::{Memory, Row};
use std::alloc::Global;
use std::mem;
use std::sync::Arc;

// How many rows a page gets where more than `PAGE_ROWS` are laid out.
const LAID_ROWS: usize = 6;

// New pages with these rows.
fn pages_of(alloc: Global, rows: Vec<(Path, Item)>) -> Result<Vec<Arc<Page>>, Memory>
    ensures rows { IfOk result (λ pages. rows_of pages.items ≡ rows.items) }
    ensures sized { IfOk result (λ pages. AreSized pages.items) }
{
    let mut pages = Vec::new(alloc);
    let mut rest = rows;
    while rest.len() > PAGE_ROWS {
        let behind = rest.split_off(LAID_ROWS)?;
        let rows = Row::from_vec(rest);
        pages.push(Arc::new(alloc, Page { rows })?)?;
        rest = behind;
    }
    if !rest.is_empty() {
        let rows = Row::from_vec(rest);
        pages.push(Arc::new(alloc, Page { rows })?)?;
    }
    Ok(pages)
}

// Lays rows out in the place of some pages. Where memory runs out, the pages are as they were.
pub(crate) fn replace(
    pages: &mut Vec<Arc<Page>>,
    from: usize,
    to: usize,
    rows: Vec<(Path, Item)>,
) -> Result<(), Memory>
    requires order { from ≤ to }
    requires within { to ≤ vec_len pages.old }
    requires sized { AreSized pages.old.items }
    ensures ok { OnOk result (rows_of pages.new.items ≡ rows_with pages.old.items from to rows.items) }
    ensures err { OnErr result (pages.new.items ≡ pages.old.items) }
    ensures sized { AreSized pages.new.items }
{
    let new = pages_of(*pages.allocator(), rows)?;
    pages.splice(from..to, new)?;
    Ok(())
}

// Puts entries and an item into rows, for which room is made.
fn put_among(
    rows: &mut Vec<(Path, Item)>,
    missing: Vec<Path>,
    path: Path,
    item: Item,
) -> Result<(), Memory>
    requires sorted { IsTrue (is_sorted path_cmp rows.old.items) }
    ensures ok { OnOk result (rows.new.items ≡ put_with missing.items path item rows.old.items) }
    ensures err { OnErr result (rows.new.items ≡ rows.old.items) }
    ensures len { vec_len rows.new ≤ vec_len rows.old + vec_len missing + 1 }
{
    rows.reserve(missing.len() + 1)?;
    enter_rows(rows, missing);
    put_row(rows, path, item);
    Ok(())
}

// New pages with entries and an item.
pub(crate) fn pages_with(
    alloc: Global,
    missing: Vec<Path>,
    path: Path,
    item: Item,
) -> Result<Vec<Arc<Page>>, Memory>
    ensures rows { IfOk result (λ pages. rows_of pages.items ≡ put_with missing.items path item []) }
    ensures sized { IfOk result (λ pages. AreSized pages.items) }
{
    let mut rows = Vec::new(alloc);
    put_among(&mut rows, missing, path, item)?;
    pages_of(alloc, rows)
}

// Puts entries and an item into a page. Where memory runs out, its rows are as they were.
fn put_within(
    page: &mut Arc<Page>,
    alloc: Global,
    missing: Vec<Path>,
    path: Path,
    item: Item,
) -> Result<(), Memory>
    requires sorted { IsTrue (is_sorted path_cmp (page_rows page.old)) }
    ensures ok { OnOk result (page_rows page.new ≡ put_with missing.items path item (page_rows page.old)) }
    ensures err { OnErr result (page_rows page.new ≡ page_rows page.old) }
    ensures len { length (page_rows page.new) ≤ length (page_rows page.old) + vec_len missing + 1 }
{
    own(alloc, page)?;
    match Arc::get_mut(page) {
        Some(page) => {
            let mut rows = mem::replace(&mut page.rows, Row::new(alloc)).into_vec();
            let put = put_among(&mut rows, missing, path, item);
            page.rows = Row::from_vec(rows);
            put
        }
        // No page has another holder after `own`.
        None => Err(Memory),
    }
}

// Lays rows out in the place of some pages, with entries and an item put into them. Where memory runs
// out, the pages are as they were.
fn put_apart(
    pages: &mut Vec<Arc<Page>>,
    from: usize,
    to: usize,
    mut rows: Vec<(Path, Item)>,
    missing: Vec<Path>,
    path: Path,
    item: Item,
) -> Result<(), Memory>
    requires order { from ≤ to }
    requires within { to ≤ vec_len pages.old }
    requires sorted { IsTrue (is_sorted path_cmp rows.items) }
    requires sized { AreSized pages.old.items }
    ensures ok { OnOk result
        (rows_of pages.new.items ≡ rows_with pages.old.items from to (put_with missing.items path item rows.items)) }
    ensures err { OnErr result (pages.new.items ≡ pages.old.items) }
    ensures sized { AreSized pages.new.items }
{
    put_among(&mut rows, missing, path, item)?;
    replace(pages, from, to, rows)
}

// Puts entries and an item into the page in which the path belongs. It changes the page where
// there is room, and else lays its rows out anew. Where memory runs out, the rows are as they were.
fn put_at(
    pages: &mut Vec<Arc<Page>>,
    at: usize,
    missing: Vec<Path>,
    path: Path,
    item: Item,
) -> Result<(), Memory>
    requires page { IsPageFor path pages.old.items at }
    requires sorted { AreInOrder pages.old.items }
    requires sized { AreSized pages.old.items }
    requires gaps { AreGaps path (rows_of pages.old.items) missing.items }
    ensures ok { OnOk result (rows_of pages.new.items ≡ put_with missing.items path item (rows_of pages.old.items)) }
    ensures err { OnErr result (rows_of pages.new.items ≡ rows_of pages.old.items) }
    ensures sized { AreSized pages.new.items }
{
    let alloc = *pages.allocator();
    if pages[at].rows.len() + missing.len() < PAGE_ROWS {
        return put_within(&mut pages[at], alloc, missing, path, item);
    }
    let rows = copy_rows(alloc, pages[at].rows.as_slice())?;
    put_apart(pages, at, at + 1, rows, missing, path, item)
}

// Moves the rows of a page after the first `LAID_ROWS` to another page, which has none. Where memory
// runs out, the rows are as they were.
fn move_behind(page: &mut Page, behind: &mut Page, alloc: Global) -> Result<(), Memory>
    requires { LAID_ROWS ≤ length page.old.rows }
    ensures ok { OnOk result (page.new.rows ++ behind.new.rows ≡ page.old.rows) }
    ensures err { OnErr result (page.new.rows ≡ page.old.rows) }
    ensures len { OnOk result (length page.new.rows ≡ LAID_ROWS) }
{
    let mut rows = mem::replace(&mut page.rows, Row::new(alloc)).into_vec();
    let moved = rows.split_off(LAID_ROWS);
    page.rows = Row::from_vec(rows);
    behind.rows = Row::from_vec(moved?);
    Ok(())
}

// Moves the rows after the first `LAID_ROWS` of a page that other owners may share, which is copied
// where they do, to another page, which has none.
fn part(page: &mut Arc<Page>, behind: &mut Arc<Page>, alloc: Global) -> Result<(), Memory>
    requires { LAID_ROWS ≤ length (page_rows page.old) }
    ensures ok { OnOk result (page_rows page.new ++ page_rows behind.new ≡ page_rows page.old) }
    ensures err { OnErr result (page_rows page.new ≡ page_rows page.old) }
    ensures len { OnOk result (length (page_rows page.new) ≡ LAID_ROWS) }
{
    own(alloc, page)?;
    match Arc::get_mut(page) {
        Some(page) => match Arc::get_mut(behind) {
            Some(behind) => move_behind(page, behind, alloc),
            None => Err(Memory),
        },
        None => Err(Memory),
    }
}

// Splits a full page in two. Where memory runs out, the rows are as they were.
fn split(pages: &mut Vec<Arc<Page>>, at: usize) -> Result<(), Memory>
    requires within { at < length pages.old.items }
    requires full { HoldsAt (λ page. length (page_rows page) ≡ PAGE_ROWS) pages.old.items at }
    requires sized { AreSized pages.old.items }
    ensures rows { rows_of pages.new.items ≡ rows_of pages.old.items }
    ensures sized { AreSized pages.new.items }
    ensures len { vec_len pages.old ≤ vec_len pages.new }
{
    let alloc = *pages.allocator();
    pages.reserve(1)?;
    let rows = Row::new(alloc);
    let mut behind = Arc::new(alloc, Page { rows })?;
    part(&mut pages[at], &mut behind, alloc)?;
    match pages.insert(at + 1, behind) {
        Ok(()) => Ok(()),
        Err(_) => unreachable!(),
    }
}

// The page in which the row of the path of these steps stands, or else would, once this one, which it
// was, is split where it was full. Where memory runs out, the rows are as they were.
fn page_with_room(pages: &mut Vec<Arc<Page>>, at: usize, steps: &[Step]) -> Result<usize, Memory>
    requires page { IsPageFor steps.now pages.old.items at }
    requires sorted { AreInOrder pages.old.items }
    requires sized { AreSized pages.old.items }
    ensures page { IfOk result (IsPageFor steps.now pages.new.items) }
    ensures rows { rows_of pages.new.items ≡ rows_of pages.old.items }
    ensures sized { AreSized pages.new.items }
{
    if pages[at].rows.len() < PAGE_ROWS {
        return Ok(at);
    }
    split(pages, at)?;
    Ok(page_for(pages.as_slice(), steps))
}

// Puts entries and an item into the pages, of which this one is the path's. Where memory runs out, the
// rows are as they were.
pub(crate) fn put(
    pages: &mut Vec<Arc<Page>>,
    at: usize,
    missing: Vec<Path>,
    path: Path,
    item: Item,
) -> Result<(), Memory>
    requires page { IsPageFor path pages.old.items at }
    requires sorted { AreInOrder pages.old.items }
    requires sized { AreSized pages.old.items }
    requires gaps { AreGaps path (rows_of pages.old.items) missing.items }
    ensures ok { OnOk result (rows_of pages.new.items ≡ put_with missing.items path item (rows_of pages.old.items)) }
    ensures err { OnErr result (rows_of pages.new.items ≡ rows_of pages.old.items) }
    ensures sized { AreSized pages.new.items }
{
    let at = page_with_room(pages, at, path.steps.as_slice())?;
    put_at(pages, at, missing, path, item)
}
