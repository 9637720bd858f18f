//! Where a page of one tree is to be looked for among those of another one. It serves speed alone.

use orc_path::{Item, Path};
use orc_tree::{Chapter, Page};
use std::sync::Arc;

// Where a page of a tree stands: the place of its chapter, and its own in the chapter.
#[derive(Clone, Copy)]
pub(crate) struct Place {
    pub(crate) chapter: usize,
    pub(crate) page: usize,
}

impl Place {
    // The place of the first page.
    pub(crate) fn first() -> Place {
        Place {
            chapter: 0,
            page: 0,
        }
    }

    // The next place in the chapter.
    pub(crate) fn next(self) -> Place {
        Place {
            chapter: self.chapter,
            page: self.page.saturating_add(1),
        }
    }

    // The place of the first page of the next chapter.
    fn next_chapter(self) -> Place {
        Place {
            chapter: self.chapter.saturating_add(1),
            page: 0,
        }
    }
}

// Whether the first of some rows comes after a path.
fn starts_behind(rows: &[(Path, Item)], path: &Path) -> bool {
    match rows.first() {
        Some(row) => path.cmp(&row.0).is_lt(),
        None => false,
    }
}

// Whether the first row of pages comes after a path.
fn first_behind(pages: &[Arc<Page>], path: &Path) -> bool {
    match pages.first() {
        Some(page) => starts_behind(page.rows.as_slice(), path),
        None => false,
    }
}

// Whether a page at this place begins with the path.
fn starts_with(chapters: &[Arc<Chapter>], at: Place, path: &Path) -> bool {
    if at.chapter >= chapters.len() {
        return false;
    }
    let pages = chapters[at.chapter].pages.as_slice();
    if at.page >= pages.len() {
        return false;
    }
    match pages[at.page].rows.as_slice().first() {
        Some(row) => path.cmp(&row.0).is_eq(),
        None => false,
    }
}

// The last chapter that doesn't begin after a path. It halves the chapters with each comparison.
fn find_chapter(chapters: &[Arc<Chapter>], path: &Path) -> usize {
    let mut low = 0;
    let mut high = chapters.len();
    while low + 1 < high {
        let middle = low + (high - low) / 2;
        if first_behind(chapters[middle].pages.as_slice(), path) {
            high = middle;
        } else {
            low = middle;
        }
    }
    low
}

// The last page that doesn't begin after a path. It halves the pages with each comparison.
fn find_page(pages: &[Arc<Page>], path: &Path) -> usize {
    let mut low = 0;
    let mut high = pages.len();
    while low + 1 < high {
        let middle = low + (high - low) / 2;
        if starts_behind(pages[middle].rows.as_slice(), path) {
            high = middle;
        } else {
            low = middle;
        }
    }
    low
}

// Where a page that begins with the path stands, if one does. The first place is tried first, and
// then the chapter after it.
fn find_place(chapters: &[Arc<Chapter>], at: Place, path: &Path) -> Place {
    if starts_with(chapters, at, path) {
        return at;
    }
    if starts_with(chapters, at.next_chapter(), path) {
        return at.next_chapter();
    }
    let chapter = find_chapter(chapters, path);
    if chapter >= chapters.len() {
        return at;
    }
    let page = find_page(chapters[chapter].pages.as_slice(), path);
    Place { chapter, page }
}

// The place at which a page with these rows stands, if one does. The place `at` is tried first.
pub(crate) fn likely_place(chapters: &[Arc<Chapter>], rows: &[(Path, Item)], at: Place) -> Place {
    match rows.first() {
        Some(row) => find_place(chapters, at, &row.0),
        None => at,
    }
}
