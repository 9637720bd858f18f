//! An item with the missing entries on its way put into chapters. The chapter that is touched is
//! copied where it has other holders, and so is the page.
ghost use Rattle.std.specs.Prelude.{◌≡◌, [], OnOk, OnErr};
ghost use Rattle.orc_tree.specs.Pages.{chapter_pages, AreSized, chapter_rows, chapters_rows};
ghost use Rattle.orc_tree.specs.inside.Places.{AreInOrder, AreChaptersInOrder, AreLaid, IsPageFor, IsPlaceFor};
ghost use Rattle.orc_tree.specs.inside.Puts.{AreGaps, put_with};

use crate::chapter::{Chapter, own_chapter};
use crate::finger::{Finger, place_near};
use crate::insertion::{pages_with, put};
use crate::layout::{push_chapter, split_long};
use orc_path::{Item, Path};
use orc_text::{Memory, Row};
use std::alloc::Global;
use std::mem;
use std::sync::Arc;

// Puts entries and an item into a chapter, of whose pages this one is the path's. Where memory runs
// out, its rows are as they were.
fn put_into(
    chapter: &mut Arc<Chapter>,
    alloc: Global,
    page: usize,
    missing: Vec<Path>,
    path: Path,
    item: Item,
) -> Result<(), Memory>
    requires page { IsPageFor path (chapter_pages chapter.old) page }
    requires sorted { AreInOrder (chapter_pages chapter.old) }
    requires sized { AreSized (chapter_pages chapter.old) }
    requires gaps { AreGaps path (chapter_rows chapter.old) missing.items }
    ensures ok { OnOk result (chapter_rows chapter.new ≡ put_with missing.items path item (chapter_rows chapter.old)) }
    ensures err { OnErr result (chapter_rows chapter.new ≡ chapter_rows chapter.old) }
    ensures sized { AreSized (chapter_pages chapter.new) }
{
    own_chapter(alloc, chapter)?;
    match Arc::get_mut(chapter) {
        Some(chapter) => {
            let mut pages = mem::replace(&mut chapter.pages, Row::new(alloc)).into_vec();
            let done = put(&mut pages, page, missing, path, item);
            chapter.pages = Row::from_vec(pages);
            done
        }
        // No chapter has another holder after `own_chapter`.
        None => Err(Memory),
    }
}

// Puts entries and an item into the page of the chapter in which the path belongs. Where memory runs
// out, the rows are as they were.
fn put_at(
    chapters: &mut Vec<Arc<Chapter>>,
    at: usize,
    page: usize,
    missing: Vec<Path>,
    path: Path,
    item: Item,
) -> Result<(), Memory>
    requires place { IsPlaceFor path chapters.old.items at page }
    requires sorted { AreChaptersInOrder chapters.old.items }
    requires laid { AreLaid chapters.old.items }
    requires gaps { AreGaps path (chapters_rows chapters.old.items) missing.items }
    ensures ok { OnOk result
        (chapters_rows chapters.new.items ≡ put_with missing.items path item (chapters_rows chapters.old.items)) }
    ensures err { OnErr result (chapters_rows chapters.new.items ≡ chapters_rows chapters.old.items) }
    ensures laid { AreLaid chapters.new.items }
{
    let alloc = *chapters.allocator();
    put_into(&mut chapters[at], alloc, page, missing, path, item)
}

// Makes the first chapter, of entries and an item, where there is none. Where memory runs out, there
// is none.
fn put_first(
    chapters: &mut Vec<Arc<Chapter>>,
    missing: Vec<Path>,
    path: Path,
    item: Item,
) -> Result<(), Memory>
    requires none { chapters.old.items ≡ [] }
    requires laid { AreLaid chapters.old.items }
    requires gaps { AreGaps path (chapters_rows chapters.old.items) missing.items }
    ensures ok { OnOk result
        (chapters_rows chapters.new.items ≡ put_with missing.items path item (chapters_rows chapters.old.items)) }
    ensures err { OnErr result (chapters.new.items ≡ chapters.old.items) }
    ensures laid { AreLaid chapters.new.items }
{
    let alloc = *chapters.allocator();
    let pages = pages_with(alloc, missing, path, item)?;
    push_chapter(chapters, alloc, pages)
}

// Puts entries and an item into the chapters. The finger is left near the path, or as it was
// where there was no chapter. Where memory runs out, the rows are as they were.
pub(crate) fn put_in_chapters(
    chapters: &mut Vec<Arc<Chapter>>,
    finger: &mut Finger,
    missing: Vec<Path>,
    path: Path,
    item: Item,
) -> Result<(), Memory>
    requires sorted { AreChaptersInOrder chapters.old.items }
    requires laid { AreLaid chapters.old.items }
    requires gaps { AreGaps path (chapters_rows chapters.old.items) missing.items }
    ensures ok { OnOk result
        (chapters_rows chapters.new.items ≡ put_with missing.items path item (chapters_rows chapters.old.items)) }
    ensures err { OnErr result (chapters_rows chapters.new.items ≡ chapters_rows chapters.old.items) }
    ensures laid { AreLaid chapters.new.items }
{
    if chapters.is_empty() {
        return put_first(chapters, missing, path, item);
    }
    let place = place_near(chapters.as_slice(), *finger, path.steps.as_slice());
    *finger = place;
    put_at(chapters, place.chapter, place.page, missing, path, item)?;
    split_long(chapters, place.chapter);
    Ok(())
}
