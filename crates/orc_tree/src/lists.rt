//! The entries of one list among rows in path order. These rows and those below them stand
//! together.
ghost use Rattle.std.specs.Prelude.{◌≡◌, ◌<◌, ◌∷◌, ◌++◌, [], length, IfOk, IsTrue};
ghost use Rattle.std.specs.FinMap.{is_sorted};
ghost use Rattle.orc_path.specs.Order.{path_cmp};
ghost use Rattle.orc_tree.specs.Pages.{rows_of, AreSized, chapters_rows};
ghost use Rattle.orc_tree.specs.inside.Places.{AreInOrder, AreChaptersInOrder, AreLaid, IsRestFor};
ghost use Rattle.orc_tree.specs.inside.Lists.{is_under, is_past, entries_of};

use crate::chapter::Chapter;
use crate::lookup::{chapter_for, page_for};
use crate::page::Page;
use crate::walk::Rows;
use orc_path::{Path, Step};
use orc_text::Memory;
use std::alloc::Global;
use std::sync::Arc;

// Whether a path goes on from these steps by one of the last one's name.
fn is_under(front: &[Step], last: &Step, path: &[Step]) -> bool
    ensures { result ≡ is_under front.now last.now.node path.now }
{
    if path.len() <= front.len() {
        return false;
    }
    let step = &path[front.len()];
    path.starts_with(front) && step.node == last.node
}

// Whether a path stands after the list of these steps and after all that is below it.
fn is_past(front: &[Step], last: &Step, list: &Path, path: &Path) -> bool
    ensures { result ≡ is_past front.now last.now.node list.now path.now }
{
    if !list.cmp(path).is_lt() {
        return false;
    }
    !is_under(front, last, path.steps.as_slice())
}

// Copies of the entries of the list of these steps among the rows to come.
fn entries_among(
    alloc: Global,
    rows: Rows<'_>,
    front: &[Step],
    last: &Step,
    list: &Path,
) -> Result<Vec<Path>, Memory>
    requires sorted { IsTrue (is_sorted path_cmp rows) }
    requires parts { list.now ≡ front.now ++ last.now ∷ [] }
    ensures { IfOk result (λ found. found.items ≡ entries_of list.now rows.entry) }
{
    let mut found = Vec::new(alloc);
    for row in rows {
        if is_past(front, last, list, &row.0) {
            return Ok(found);
        }
        if row.0.is_entry_of(list) {
            found.push(row.0.copy(alloc)?)?;
        }
    }
    Ok(found)
}

// The rows of chapters from the page on in which the row of the path of these steps stands, or else
// would.
fn rows_from<'a>(chapters: &'a [Arc<Chapter>], steps: &[Step]) -> Rows<'a>
    requires sorted { AreChaptersInOrder chapters.now }
    requires laid { AreLaid chapters.now }
    requires some { 0 < length chapters.now }
    ensures { IsRestFor steps.now (chapters_rows chapters.now) result }
{
    let at = chapter_for(chapters, steps);
    let pages = chapters[at].pages.as_slice();
    Rows::behind(pages_from(pages, steps), &chapters[at + 1..])
}

// The pages from the one on in which the row of the path of these steps stands, or else would.
fn pages_from<'a>(pages: &'a [Arc<Page>], steps: &[Step]) -> &'a [Arc<Page>]
    requires sorted { AreInOrder pages.now }
    requires sized { AreSized pages.now }
    ensures { IsRestFor steps.now (rows_of pages.now) (rows_of result.now) }
{
    if pages.is_empty() {
        return pages;
    }
    &pages[page_for(pages, steps)..]
}

// Copies of the entries of a list, in path order.
pub(crate) fn list_entries(
    alloc: Global,
    chapters: &[Arc<Chapter>],
    list: &Path,
) -> Result<Vec<Path>, Memory>
    requires sorted { AreChaptersInOrder chapters.now }
    requires laid { AreLaid chapters.now }
    ensures { IfOk result (λ found. found.items ≡ entries_of list.now (chapters_rows chapters.now)) }
{
    let steps = list.steps.as_slice();
    let (last, front) = match steps.split_last() {
        Some(parts) => parts,
        None => return Ok(Vec::new(alloc)),
    };
    if last.keys.len() > 0 {
        return Ok(Vec::new(alloc));
    }
    if chapters.is_empty() {
        return Ok(Vec::new(alloc));
    }
    entries_among(alloc, rows_from(chapters, steps), front, last, list)
}
