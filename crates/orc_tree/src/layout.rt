//! Pages laid out in chapters. A chapter of too many pages is split, and chapters of few are joined.
ghost use Rattle.std.specs.Prelude.{◌≡◌, ◌≤◌, ◌<◌, ◌++◌, vec_len, IfOk, OnOk, OnErr};
ghost use Rattle.orc_tree.specs.Pages.{rows_of, AreSized, chapters_rows};
ghost use Rattle.orc_tree.specs.inside.Places.{AreLaid};
ghost use Rattle.orc_tree.specs.inside.Puts.{chapters_with};

use crate::chapter::Chapter;
use crate::page::{Page, push_shared};
use orc_text::{Memory, Row};
use std::alloc::Global;
use std::sync::Arc;

// The fewest pages that a chapter gets where more are laid out than one has.
const LAID_PAGES: usize = 48;

// How many pages two neighbouring chapters have at most that become one after a removal.
const JOINED_PAGES: usize = 16;

// Adds a chapter of these pages at the end, where there are any. Where memory runs out, the chapters
// are as they were.
pub(crate) fn push_chapter(
    chapters: &mut Vec<Arc<Chapter>>,
    alloc: Global,
    pages: Vec<Arc<Page>>,
) -> Result<(), Memory>
    requires sized { AreSized pages.items }
    requires laid { AreLaid chapters.old.items }
    ensures ok { OnOk result
        (chapters_rows chapters.new.items ≡ chapters_rows chapters.old.items ++ rows_of pages.items) }
    ensures err { OnErr result (chapters.new.items ≡ chapters.old.items) }
    ensures laid { AreLaid chapters.new.items }
{
    if pages.is_empty() {
        return Ok(());
    }
    let pages = Row::from_vec(pages);
    chapters.push(Arc::new(alloc, Chapter { pages })?)?;
    Ok(())
}

// How many pages a chapter gets where more are laid out than one has, in a tree of so many chapters:
// half as many, so that changes in two places have about as many counters of chapters to copy as of
// pages, and `LAID_PAGES` at least.
fn laid_pages(chapters: usize) -> usize
    ensures { 1 ≤ result }
{
    let half = chapters / 2;
    if half > LAID_PAGES { half } else { LAID_PAGES }
}

// New chapters with these pages, each of the number that is given, and the last of up to a third more.
fn chapters_of(
    alloc: Global,
    pages: Vec<Arc<Page>>,
    laid: usize,
) -> Result<Vec<Arc<Chapter>>, Memory>
    requires some { 1 ≤ laid }
    requires sized { AreSized pages.items }
    ensures rows { IfOk result (λ chapters. chapters_rows chapters.items ≡ rows_of pages.items) }
    ensures laid { IfOk result (λ chapters. AreLaid chapters.items) }
{
    let mut chapters = Vec::new(alloc);
    let mut rest = pages;
    while rest.len() - rest.len() / 4 > laid {
        let behind = rest.split_off(laid)?;
        push_chapter(&mut chapters, alloc, rest)?;
        rest = behind;
    }
    push_chapter(&mut chapters, alloc, rest)?;
    Ok(chapters)
}

// Lays pages out in the place of some chapters. Where memory runs out, the chapters are as they were.
pub(crate) fn replace_chapters(
    chapters: &mut Vec<Arc<Chapter>>,
    from: usize,
    to: usize,
    pages: Vec<Arc<Page>>,
) -> Result<(), Memory>
    requires order { from ≤ to }
    requires within { to ≤ vec_len chapters.old }
    requires sized { AreSized pages.items }
    requires laid { AreLaid chapters.old.items }
    ensures ok { OnOk result
        (chapters_rows chapters.new.items ≡ chapters_with chapters.old.items from to (rows_of pages.items)) }
    ensures err { OnErr result (chapters.new.items ≡ chapters.old.items) }
    ensures laid { AreLaid chapters.new.items }
{
    let laid = laid_pages(chapters.len());
    let new = chapters_of(*chapters.allocator(), pages, laid)?;
    chapters.splice(from..to, new)?;
    Ok(())
}

// One list of the pages of chapters. It costs a counter for each.
pub(crate) fn share_run(alloc: Global, chapters: &[Arc<Chapter>]) -> Result<Vec<Arc<Page>>, Memory>
    requires { AreLaid chapters.now }
    ensures rows { IfOk result (λ shared. rows_of shared.items ≡ chapters_rows chapters.now) }
    ensures sized { IfOk result (λ shared. AreSized shared.items) }
{
    let mut shared = Vec::new(alloc);
    for chapter in chapters {
        push_shared(&mut shared, chapter.pages.as_slice())?;
    }
    Ok(shared)
}

// Lays the pages of some chapters out anew. Where memory runs out, the chapters are as they were.
fn lay_anew(chapters: &mut Vec<Arc<Chapter>>, from: usize, to: usize) -> Result<(), Memory>
    requires order { from ≤ to }
    requires within { to ≤ vec_len chapters.old }
    requires laid { AreLaid chapters.old.items }
    ensures rows { chapters_rows chapters.new.items ≡ chapters_rows chapters.old.items }
    ensures laid { AreLaid chapters.new.items }
{
    let pages = share_run(*chapters.allocator(), &chapters[from..to])?;
    replace_chapters(chapters, from, to, pages)
}

// Splits a chapter of more pages than `laid_pages` and a third of these. Where memory is wanted it
// stays as it is: it has the same rows.
pub(crate) fn split_long(chapters: &mut Vec<Arc<Chapter>>, at: usize)
    requires laid { AreLaid chapters.old.items }
    ensures rows { chapters_rows chapters.new.items ≡ chapters_rows chapters.old.items }
    ensures laid { AreLaid chapters.new.items }
{
    if at >= chapters.len() {
        return;
    }
    let count = chapters[at].pages.len();
    if count - count / 4 > laid_pages(chapters.len()) {
        let _ = lay_anew(chapters, at, at + 1);
    }
}

// Lays a chapter and the next one out as one, where they have few pages. Where memory is wanted
// they stay two.
fn join_next_chapter(chapters: &mut Vec<Arc<Chapter>>, at: usize)
    requires laid { AreLaid chapters.old.items }
    ensures rows { chapters_rows chapters.new.items ≡ chapters_rows chapters.old.items }
    ensures laid { AreLaid chapters.new.items }
{
    if at >= chapters.len() || at + 1 >= chapters.len() {
        return;
    }
    let count = chapters[at].pages.len();
    if count.saturating_add(chapters[at + 1].pages.len()) <= JOINED_PAGES {
        let _ = lay_anew(chapters, at, at + 2);
    }
}

// Joins a chapter with its neighbours, where they have few pages together.
pub(crate) fn join_chapters(chapters: &mut Vec<Arc<Chapter>>, at: usize)
    requires laid { AreLaid chapters.old.items }
    ensures rows { chapters_rows chapters.new.items ≡ chapters_rows chapters.old.items }
    ensures laid { AreLaid chapters.new.items }
{
    join_next_chapter(chapters, at);
    if at > 0 {
        join_next_chapter(chapters, at - 1);
    }
}
