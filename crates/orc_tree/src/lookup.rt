//! The search for a path among chapters, and among the pages of one.
ghost use Rattle.std.specs.Prelude.{◌≡◌, ◌<◌, length, IsTrue};
ghost use Rattle.std.specs.Option.{option_copied};
ghost use Rattle.std.specs.FinMap.{find, is_sorted};
ghost use Rattle.orc_path.specs.Order.{path_cmp};
ghost use Rattle.orc_tree.specs.Pages.{rows_of, AreSized};
ghost use Rattle.orc_tree.specs.inside.Places.{AreInOrder, AreChaptersInOrder, AreLaid, IsPageFor, IsChapterFor, starts_behind};

use crate::chapter::Chapter;
use crate::page::Page;
use crate::sorted::{order, search};
use orc_path::{Item, Path, Step};
use std::sync::Arc;

// Whether the first of some rows comes after the path of these steps.
pub(crate) fn starts_behind(rows: &[(Path, Item)], steps: &[Step]) -> bool
    ensures { result ≡ starts_behind steps.now rows.now }
{
    match rows.first() {
        Some(row) => order(steps, &row.0).is_lt(),
        None => false,
    }
}

// The page in which the row of the path of these steps stands, or else would. It halves the pages
// with each comparison.
pub(crate) fn page_for(pages: &[Arc<Page>], steps: &[Step]) -> usize
    requires sorted { AreInOrder pages.now }
    requires sized { AreSized pages.now }
    requires some { 0 < length pages.now }
    ensures { IsPageFor steps.now pages.now result }
{
    let mut low = 0;
    let mut high = pages.len();
    while low + 1 < high {
        let middle = low + (high - low) / 2;
        if starts_behind(pages[middle].rows.as_slice(), steps) {
            high = middle;
        } else {
            low = middle;
        }
    }
    low
}

// The item at the path of these steps among rows, if there is one.
pub(crate) fn item_in<'a>(rows: &'a [(Path, Item)], steps: &[Step]) -> Option<&'a Item>
    requires { IsTrue (is_sorted path_cmp rows.now) }
    ensures { option_copied result ≡ find path_cmp steps.now rows.now }
{
    match search(rows, steps) {
        Ok(at) => Some(&rows[at].1),
        Err(_) => None,
    }
}

// Whether the first row of pages comes after the path of these steps.
pub(crate) fn first_behind(pages: &[Arc<Page>], steps: &[Step]) -> bool
    requires { AreSized pages.now }
    ensures { result ≡ starts_behind steps.now (rows_of pages.now) }
{
    match pages.first() {
        Some(page) => starts_behind(page.rows.as_slice(), steps),
        None => false,
    }
}

// The chapter in which the row of the path of these steps stands, or else would. It halves the
// chapters with each comparison.
pub(crate) fn chapter_for(chapters: &[Arc<Chapter>], steps: &[Step]) -> usize
    requires sorted { AreChaptersInOrder chapters.now }
    requires laid { AreLaid chapters.now }
    requires some { 0 < length chapters.now }
    ensures { IsChapterFor steps.now chapters.now result }
{
    let mut low = 0;
    let mut high = chapters.len();
    while low + 1 < high {
        let middle = low + (high - low) / 2;
        if first_behind(chapters[middle].pages.as_slice(), steps) {
            high = middle;
        } else {
            low = middle;
        }
    }
    low
}
