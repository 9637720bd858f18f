//! Chapters: runs of pages in path order that trees share.
ghost use Rattle.std.specs.Prelude.{◌≡◌, IfOk, map};
ghost use Rattle.orc_tree.specs.Pages.{page_rows, chapter_pages, AreSized, chapter_rows, chapters_rows};
ghost use Rattle.orc_tree.specs.inside.Places.{AreLaid};

use crate::page::{Page, share_pages};
use orc_text::{Memory, Row};
use std::alloc::Global;
use std::sync::Arc;

/// A run of the pages of a tree, at least one.
#[derive(Debug, Drop)]
pub struct Chapter {
    pub pages: Row<Arc<Page>>,
}

// The chapters of a tree, held by one owner that its copies share.
#[derive(Debug, Drop)]
pub(crate) struct ChapterList {
    pub(crate) chapters: Vec<Arc<Chapter>>,
}

// Makes a chapter that has other holders a copy of its own, so that it may be changed. It costs a
// counter for each of its pages. Where memory runs out, it is as it was.
pub(crate) fn own_chapter(alloc: Global, chapter: &mut Arc<Chapter>) -> Result<(), Memory>
    requires { AreSized (chapter_pages chapter.old) }
    ensures rows { chapter_rows chapter.new ≡ chapter_rows chapter.old }
    ensures each { map page_rows (chapter_pages chapter.new) ≡ map page_rows (chapter_pages chapter.old) }
    ensures sized { AreSized (chapter_pages chapter.new) }
{
    if Arc::strong_count(chapter) != 1 {
        let pages = Row::from_vec(share_pages(alloc, chapter.pages.as_slice())?);
        *chapter = Arc::new(alloc, Chapter { pages })?;
    }
    Ok(())
}

// Another list of the same chapters. It costs a counter for each.
pub(crate) fn share_chapters(
    alloc: Global,
    chapters: &[Arc<Chapter>],
) -> Result<Vec<Arc<Chapter>>, Memory>
    requires { AreLaid chapters.now }
    ensures rows { IfOk result (λ shared. chapters_rows shared.items ≡ chapters_rows chapters.now) }
    ensures laid { IfOk result (λ shared. AreLaid shared.items) }
{
    let mut shared = Vec::new(alloc);
    shared.reserve(chapters.len())?;
    for chapter in chapters {
        shared.push(Arc::try_clone(chapter)?)?;
    }
    Ok(shared)
}
