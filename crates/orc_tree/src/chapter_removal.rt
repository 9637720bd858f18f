//! The removal of a path, with all below it where it ends in keys, from chapters.
ghost use Rattle.std.specs.Prelude.{◌≡◌, ◌≤◌, ◌<◌, ◌+◌, ◌==◌, drop, length, vec_len, IfOk, OnOk, OnErr, IsTrue};
ghost use Rattle.orc_tree.specs.Pages.{chapter_pages, rows_of, AreSized, chapter_rows, chapters_rows};
ghost use Rattle.orc_tree.specs.inside.Places.{AreInOrder, AreChaptersInOrder, AreLaid, IsPageFor, IsChapterFor, IsPlaceFor};
ghost use Rattle.orc_tree.specs.inside.Removal.{kept_of, all_kept, starts_taken};

use crate::chapter::{Chapter, own_chapter};
use crate::finger::{Finger, place_near};
use crate::layout::{join_chapters, replace_chapters, share_run};
use crate::lookup::page_for;
use crate::page::Page;
use crate::removal::{remove, starts_taken};
use orc_path::Path;
use orc_text::{Memory, Row};
use std::alloc::Global;
use std::mem;
use std::sync::Arc;

// Takes the path and what is below it out of a chapter, of whose pages this one is the path's, and
// says whether no page is left. Where memory runs out, its rows are as they were.
fn remove_within(
    chapter: &mut Chapter,
    alloc: Global,
    page: usize,
    path: &Path,
) -> Result<bool, Memory>
    requires page { IsPageFor path.now chapter.old.pages page }
    requires sorted { AreInOrder chapter.old.pages }
    requires sized { AreSized chapter.old.pages }
    ensures ok { OnOk result (rows_of chapter.new.pages ≡ kept_of path.now (rows_of chapter.old.pages)) }
    ensures err { OnErr result (rows_of chapter.new.pages ≡ rows_of chapter.old.pages) }
    ensures sized { AreSized chapter.new.pages }
    ensures left { IfOk result (λ none. none ≡ (length chapter.new.pages == 0)) }
{
    let mut pages = mem::replace(&mut chapter.pages, Row::new(alloc)).into_vec();
    let done = remove(&mut pages, page, path);
    chapter.pages = Row::from_vec(pages);
    done?;
    Ok(chapter.pages.is_empty())
}

// Takes the path and what is below it out of a chapter that other owners may share, which is copied
// where they do, and says whether no page is left.
fn remove_from(
    chapter: &mut Arc<Chapter>,
    alloc: Global,
    page: usize,
    path: &Path,
) -> Result<bool, Memory>
    requires page { IsPageFor path.now (chapter_pages chapter.old) page }
    requires sorted { AreInOrder (chapter_pages chapter.old) }
    requires sized { AreSized (chapter_pages chapter.old) }
    ensures ok { OnOk result (chapter_rows chapter.new ≡ kept_of path.now (chapter_rows chapter.old)) }
    ensures err { OnErr result (chapter_rows chapter.new ≡ chapter_rows chapter.old) }
    ensures sized { AreSized (chapter_pages chapter.new) }
    ensures left { IfOk result (λ none. none ≡ (length (chapter_pages chapter.new) == 0)) }
{
    own_chapter(alloc, chapter)?;
    match Arc::get_mut(chapter) {
        Some(chapter) => remove_within(chapter, alloc, page, path),
        // No chapter has another holder after `own_chapter`.
        None => Err(Memory),
    }
}

// Whether removing the path takes the first row of pages.
fn first_taken(pages: &[Arc<Page>], path: &Path) -> bool
    requires { AreSized pages.now }
    ensures { result ≡ starts_taken path.now (rows_of pages.now) }
{
    match pages.first() {
        Some(page) => starts_taken(page.rows.as_slice(), path),
        None => false,
    }
}

// The first chapter after a path's own whose rows all stay where the path is removed.
fn end_of_run(chapters: &[Arc<Chapter>], at: usize, path: &Path) -> usize
    requires place { IsChapterFor path.now chapters.now at }
    requires sorted { AreChaptersInOrder chapters.now }
    requires laid { AreLaid chapters.now }
    ensures behind { at < result }
    ensures within { result ≤ length chapters.now }
    ensures kept { IsTrue (all_kept path.now (chapters_rows (drop result chapters.now))) }
{
    for end in at + 1..chapters.len() {
        if !first_taken(chapters[end].pages.as_slice(), path) {
            return end;
        }
    }
    chapters.len()
}

// Takes the path and what is below it out of its chapter, where all of it stands there. A chapter
// of which nothing is left goes.
fn remove_at_chapter(
    chapters: &mut Vec<Arc<Chapter>>,
    at: usize,
    page: usize,
    path: &Path,
) -> Result<(), Memory>
    requires place { IsPlaceFor path.now chapters.old.items at page }
    requires sorted { AreChaptersInOrder chapters.old.items }
    requires laid { AreLaid chapters.old.items }
    requires kept { IsTrue (all_kept path.now (chapters_rows (drop (at + 1) chapters.old.items))) }
    ensures ok { OnOk result (chapters_rows chapters.new.items ≡ kept_of path.now (chapters_rows chapters.old.items)) }
    ensures err { OnErr result (chapters_rows chapters.new.items ≡ chapters_rows chapters.old.items) }
    ensures laid { AreLaid chapters.new.items }
{
    let alloc = *chapters.allocator();
    let none = remove_from(&mut chapters[at], alloc, page, path)?;
    if none {
        chapters.remove(at);
        return Ok(());
    }
    Ok(())
}

// Takes the path and what is below it out of the chapters from its own one up to the first one
// whose rows all stay. Where memory runs out, the rows are as they were.
fn remove_run(
    chapters: &mut Vec<Arc<Chapter>>,
    at: usize,
    end: usize,
    page: usize,
    path: &Path,
) -> Result<(), Memory>
    requires place { IsPlaceFor path.now chapters.old.items at page }
    requires sorted { AreChaptersInOrder chapters.old.items }
    requires laid { AreLaid chapters.old.items }
    requires order { at < end }
    requires within { end ≤ vec_len chapters.old }
    requires kept { IsTrue (all_kept path.now (chapters_rows (drop end chapters.old.items))) }
    ensures ok { OnOk result (chapters_rows chapters.new.items ≡ kept_of path.now (chapters_rows chapters.old.items)) }
    ensures err { OnErr result (chapters_rows chapters.new.items ≡ chapters_rows chapters.old.items) }
    ensures laid { AreLaid chapters.new.items }
{
    if end == at + 1 {
        return remove_at_chapter(chapters, at, page, path);
    }
    let mut pages = share_run(*chapters.allocator(), &chapters[at..end])?;
    // The same page, which a search shows with less to prove.
    let page = page_for(pages.as_slice(), path.steps.as_slice());
    remove(&mut pages, page, path)?;
    replace_chapters(chapters, at, end, pages)
}

// Takes the path and what is below it out of the chapters, and joins what is left where it is
// little. The finger is left near where the path was, or as it was where there is no chapter. Where
// memory runs out, the rows are as they were.
pub(crate) fn remove_in_chapters(
    chapters: &mut Vec<Arc<Chapter>>,
    finger: &mut Finger,
    path: &Path,
) -> Result<(), Memory>
    requires sorted { AreChaptersInOrder chapters.old.items }
    requires laid { AreLaid chapters.old.items }
    ensures ok { OnOk result (chapters_rows chapters.new.items ≡ kept_of path.now (chapters_rows chapters.old.items)) }
    ensures err { OnErr result (chapters_rows chapters.new.items ≡ chapters_rows chapters.old.items) }
    ensures laid { AreLaid chapters.new.items }
{
    if chapters.is_empty() {
        return Ok(());
    }
    let place = place_near(chapters.as_slice(), *finger, path.steps.as_slice());
    *finger = place;
    let end = end_of_run(chapters.as_slice(), place.chapter, path);
    remove_run(chapters, place.chapter, end, place.page, path)?;
    join_chapters(chapters, place.chapter);
    Ok(())
}
