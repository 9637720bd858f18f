//! The item at a path, and where a search for one ended, so that the next one may begin there.
ghost use Rattle.std.specs.Prelude.{◌≡◌, ◌<◌, length, get_or, IsTrue};
ghost use Rattle.std.specs.Option.{option_copied};
ghost use Rattle.std.specs.FinMap.{find};
ghost use Rattle.std.specs.declared.alloc.Global.{Global};
ghost use Rattle.std.specs.declared.sync.Arc.{Arc};
ghost use Rattle.orc_path.specs.Order.{path_cmp};
ghost use Rattle.orc_tree.specs.Pages.{rows_of, chapter_pages, chapters_rows};
ghost use Rattle.orc_tree.specs.declared.chapter.Chapter.{Chapter};
ghost use Rattle.orc_tree.specs.inside.Places.{AreBehind, AreInOrder, AreChaptersInOrder, AreLaid, IsPageFor, IsPlaceFor, starts_behind};

use crate::chapter::Chapter;
use crate::lookup::{chapter_for, first_behind, item_in, page_for, starts_behind};
use crate::page::Page;
use orc_path::{Item, Step};
use std::sync::Arc;

/// Where a search in a tree ended: the next one is likely to end there too. With a finger of another
/// tree, or of one that changed since, a search answers what it would without, and may spare nothing.
#[derive(Clone, Copy, Debug)]
pub struct Finger {
    pub(crate) chapter: usize,
    pub(crate) page: usize,
}

impl Finger {
    /// Nowhere yet.
    pub fn new() -> Finger {
        Finger {
            chapter: usize::MAX,
            page: 0,
        }
    }
}

// Where the row of the path of these steps stands, or else would. It costs a search.
fn place_for(chapters: &[Arc<Chapter>], steps: &[Step]) -> Finger
    requires sorted { AreChaptersInOrder chapters.now }
    requires laid { AreLaid chapters.now }
    requires some { 0 < length chapters.now }
    ensures { IsPlaceFor steps.now chapters.now result.chapter result.page }
{
    let chapter = chapter_for(chapters, steps);
    let page = page_for(chapters[chapter].pages.as_slice(), steps);
    Finger { chapter, page }
}

// Whether what stands after the finger's page, which is among these pages of its chapter, comes after
// the path of these steps too.
fn are_behind(
    chapters: &[Arc<Chapter>],
    finger: Finger,
    pages: &[Arc<Page>],
    steps: &[Step],
) -> bool
    requires sorted { AreChaptersInOrder chapters.now }
    requires laid { AreLaid chapters.now }
    requires chapter { finger.chapter < length chapters.now }
    requires page { finger.page < length pages.now }
    requires pages { (default : Arc Chapter Global)
        → chapter_pages (get_or chapters.now finger.chapter default) ≡ pages.now }
    ensures { IsTrue result → AreBehind steps.now chapters.now finger.chapter pages.now finger.page }
{
    if finger.page + 1 < pages.len() {
        return starts_behind(pages[finger.page + 1].rows.as_slice(), steps);
    }
    if finger.chapter + 1 < chapters.len() {
        return first_behind(chapters[finger.chapter + 1].pages.as_slice(), steps);
    }
    true
}

// Whether two comparisons show that the row of the path of these steps stands where the finger is, or
// else would.
fn is_place_for(chapters: &[Arc<Chapter>], finger: Finger, steps: &[Step]) -> bool
    requires sorted { AreChaptersInOrder chapters.now }
    requires laid { AreLaid chapters.now }
    ensures { IsTrue result → IsPlaceFor steps.now chapters.now finger.chapter finger.page }
{
    if finger.chapter >= chapters.len() {
        return false;
    }
    let pages = chapters[finger.chapter].pages.as_slice();
    if finger.page >= pages.len() {
        return false;
    }
    if starts_behind(pages[finger.page].rows.as_slice(), steps) {
        return false;
    }
    are_behind(chapters, finger, pages, steps)
}

// Where the row of the path of these steps stands, or else would. The finger's page is tried first.
pub(crate) fn place_near(chapters: &[Arc<Chapter>], finger: Finger, steps: &[Step]) -> Finger
    requires sorted { AreChaptersInOrder chapters.now }
    requires laid { AreLaid chapters.now }
    requires some { 0 < length chapters.now }
    ensures { IsPlaceFor steps.now chapters.now result.chapter result.page }
{
    if is_place_for(chapters, finger, steps) {
        return finger;
    }
    place_for(chapters, steps)
}

// The item at the path of these steps, if there is one, where its row stands in this page, or else would.
fn item_on<'a>(pages: &'a [Arc<Page>], page: usize, steps: &[Step]) -> Option<&'a Item>
    requires sorted { AreInOrder pages.now }
    requires page { IsPageFor steps.now pages.now page }
    ensures { option_copied result ≡ find path_cmp steps.now (rows_of pages.now) }
{
    item_in(pages[page].rows.as_slice(), steps)
}

// The item at the path of these steps, if there is one, where its row stands in this place, or else
// would.
fn item_at<'a>(chapters: &'a [Arc<Chapter>], place: Finger, steps: &[Step]) -> Option<&'a Item>
    requires sorted { AreChaptersInOrder chapters.now }
    requires place { IsPlaceFor steps.now chapters.now place.chapter place.page }
    ensures { option_copied result ≡ find path_cmp steps.now (chapters_rows chapters.now) }
{
    item_on(chapters[place.chapter].pages.as_slice(), place.page, steps)
}

// The item at the path of these steps among chapters, if there is one. The finger's page is tried
// first, and the finger is left where the search ends. It takes no memory.
pub(crate) fn find_near<'a>(
    chapters: &'a [Arc<Chapter>],
    finger: &mut Finger,
    steps: &[Step],
) -> Option<&'a Item>
    requires sorted { AreChaptersInOrder chapters.now }
    requires laid { AreLaid chapters.now }
    ensures { option_copied result ≡ find path_cmp steps.now (chapters_rows chapters.now) }
{
    if chapters.is_empty() {
        return None;
    }
    *finger = place_near(chapters, *finger, steps);
    item_at(chapters, *finger, steps)
}
