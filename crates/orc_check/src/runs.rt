//! A tree's rows from a path's place on, in the runs in which they stand.
ghost use Rattle.std.specs.Prelude.{◌≡◌, ◌<◌, length, drop, IsTrue};
ghost use Rattle.std.specs.FinMap.{entries, is_sorted};
ghost use Rattle.std.specs.FinMap.Entries.{below_all};
ghost use Rattle.orc_path.specs.Order.{path_cmp};
ghost use Rattle.orc_tree.specs.Pages.{rows_of, AreSized, chapters_rows};
ghost use Rattle.orc_tree.specs.inside.Places.{AreInOrder, AreChaptersInOrder, AreLaid, IsPageFor, IsChapterFor, IsRestFor, starts_behind};
ghost use Rattle.orc_check.specs.inside.Lent.{spot_path};
ghost use Rattle.orc_check.specs.inside.Runs.{all_rows};

use crate::spot::{Spot, order_row};
use orc_path::{Item, Path};
use orc_tree::{Chapter, Page, Tree};
use std::iter::Iterator;
use std::marker::Model;
use std::sync::Arc;

/// Rows in path order in runs, each run the rows of a page: the pages of a chapter that are left, and
/// after them other chapters.
#[derive(Drop)]
pub(crate) struct Runs<'a> {
    pages: &'a [Arc<Page>],
    chapters: &'a [Arc<Chapter>],
}

impl<'a> Model for Runs<'a> {
    ghost use Rattle.std.specs.Prelude.{List, map, ◌++◌};
    ghost use Rattle.orc_path.specs.Steps.{PathStep};
    ghost use Rattle.orc_path.specs.declared.item.Item.{Item};
    ghost use Rattle.orc_tree.specs.Pages.{page_rows, pages_of};

    ghost Value = { List (List (List PathStep × Item)) };

    ghost view = { λ runs. map page_rows (runs.pages.now ++ pages_of runs.chapters.now) };
}

impl<'a> Iterator for Runs<'a> {
    ghost use Rattle.std.specs.Iterator.{YieldsFirstRef, item_count};

    type Item = &'a [(Path, Item)];

    ghost next_gives = { YieldsFirstRef (λ runs. runs) };

    ghost remaining = { item_count (λ runs. runs) };

    fn next(&mut self) -> Option<&'a [(Path, Item)]> {
        while self.pages.is_empty() {
            let (chapter, chapters) = self.chapters.split_first()?;
            self.pages = chapter.pages.as_slice();
            self.chapters = chapters;
        }
        let (page, pages) = self.pages.split_first()?;
        self.pages = pages;
        Some(page.rows.as_slice())
    }
}

// Whether the first of some rows comes after the path.
fn starts_behind(rows: &[(Path, Item)], spot: &Spot<'_>) -> bool
    ensures { result ≡ starts_behind (spot_path spot.now) rows.now }
{
    match rows.first() {
        Some(row) => order_row(spot, row).is_lt(),
        None => false,
    }
}

// The page in which the row of the path stands, or else would. It halves the pages with each
// comparison.
fn page_for(pages: &[Arc<Page>], spot: &Spot<'_>) -> usize
    requires sorted { AreInOrder pages.now }
    requires sized { AreSized pages.now }
    requires some { 0 < length pages.now }
    ensures { IsPageFor (spot_path spot.now) pages.now result }
{
    let mut low = 0;
    let mut high = pages.len();
    while low + 1 < high {
        let middle = low + (high - low) / 2;
        if starts_behind(pages[middle].rows.as_slice(), spot) {
            high = middle;
        } else {
            low = middle;
        }
    }
    low
}

// Whether the first row of pages comes after the path.
fn first_behind(pages: &[Arc<Page>], spot: &Spot<'_>) -> bool
    requires { AreSized pages.now }
    ensures { result ≡ starts_behind (spot_path spot.now) (rows_of pages.now) }
{
    match pages.first() {
        Some(page) => starts_behind(page.rows.as_slice(), spot),
        None => false,
    }
}

// The chapter in which the row of the path stands, or else would. It halves the chapters with each
// comparison.
fn chapter_for(chapters: &[Arc<Chapter>], spot: &Spot<'_>) -> usize
    requires sorted { AreChaptersInOrder chapters.now }
    requires laid { AreLaid chapters.now }
    requires some { 0 < length chapters.now }
    ensures { IsChapterFor (spot_path spot.now) chapters.now result }
{
    let mut low = 0;
    let mut high = chapters.len();
    while low + 1 < high {
        let middle = low + (high - low) / 2;
        if first_behind(chapters[middle].pages.as_slice(), spot) {
            high = middle;
        } else {
            low = middle;
        }
    }
    low
}

// The rows of chapters from the page on in which the row of the path stands, or else would.
fn runs_among<'a>(chapters: &'a [Arc<Chapter>], spot: &Spot<'_>) -> Runs<'a>
    requires sorted { AreChaptersInOrder chapters.now }
    requires laid { AreLaid chapters.now }
    ensures rest { IsRestFor (spot_path spot.now) (chapters_rows chapters.now) (all_rows result) }
    ensures behind { IsTrue (below_all path_cmp (spot_path spot.now) (all_rows (drop 1 result))) }
{
    if chapters.is_empty() {
        return Runs {
            pages: &[],
            chapters: &[],
        };
    }
    let at = chapter_for(chapters, spot);
    let pages = chapters[at].pages.as_slice();
    Runs {
        pages: &pages[page_for(pages, spot)..],
        chapters: &chapters[at + 1..],
    }
}

/// The rows of a tree from the page on in which the row of the path stands, or else would. It takes no
/// memory, and costs two searches.
pub(crate) fn runs_from<'a>(tree: &'a Tree, spot: &Spot<'_>) -> Runs<'a>
    ensures rest { IsRestFor (spot_path spot.now) (entries tree.now) (all_rows result) }
    ensures behind { IsTrue (below_all path_cmp (spot_path spot.now) (all_rows (drop 1 result))) }
    ensures sorted { IsTrue (is_sorted path_cmp (all_rows result)) }
{
    runs_among(tree.chapters(), spot)
}
