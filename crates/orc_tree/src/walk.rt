//! The pages and the rows of chapters, one after another, by reference.
ghost use Rattle.std.specs.Prelude.{◌≡◌, ◌↔◌, ◌++◌, length, IsTrue};
ghost use Rattle.orc_text.specs.Counts.{capped};
ghost use Rattle.orc_tree.specs.Pages.{rows_of, pages_of, chapters_rows};

use crate::chapter::Chapter;
use crate::page::Page;
use orc_path::{Item, Path};
use std::iter::Iterator;
use std::marker::Model;
use std::sync::Arc;

// The pages of a tree that are still to come.
#[derive(Drop)]
pub(crate) struct Pages<'a> {
    pages: &'a [Arc<Page>],
    chapters: &'a [Arc<Chapter>],
}

impl<'a> Model for Pages<'a> {
    ghost use Rattle.std.specs.Prelude.{List, ◌++◌};
    ghost use Rattle.std.specs.declared.alloc.Global.{Global};
    ghost use Rattle.std.specs.declared.sync.Arc.{Arc};
    ghost use Rattle.orc_tree.specs.declared.page.Page.{Page};
    ghost use Rattle.orc_tree.specs.Pages.{pages_of};

    ghost Value = { List (Arc Page Global) };

    ghost view = { λ walk. walk.pages.now ++ pages_of walk.chapters.now };
}

impl<'a> Pages<'a> {
    // These pages, and those of the chapters.
    fn new(pages: &'a [Arc<Page>], chapters: &'a [Arc<Chapter>]) -> Pages<'a>
        ensures { result ≡ pages.now ++ pages_of chapters.now }
    {
        Pages { pages, chapters }
    }
}

impl<'a> Iterator for Pages<'a> {
    ghost use Rattle.std.specs.Iterator.{YieldsFirstRef, item_count};

    type Item = &'a Arc<Page>;

    ghost next_gives = { YieldsFirstRef (λ pages. pages) };

    ghost remaining = { item_count (λ pages. pages) };

    fn next(&mut self) -> Option<&'a Arc<Page>> {
        while self.pages.is_empty() {
            let (chapter, chapters) = self.chapters.split_first()?;
            self.pages = chapter.pages.as_slice();
            self.chapters = chapters;
        }
        let (page, pages) = self.pages.split_first()?;
        self.pages = pages;
        Some(page)
    }
}

/// The rows of a tree that are still to come, in path order.
#[derive(Drop)]
pub struct Rows<'a> {
    page: &'a [(Path, Item)],
    pages: Pages<'a>,
}

impl<'a> Model for Rows<'a> {
    ghost use Rattle.std.specs.Prelude.{List, ◌++◌};
    ghost use Rattle.orc_path.specs.Steps.{PathStep};
    ghost use Rattle.orc_path.specs.declared.item.Item.{Item};
    ghost use Rattle.orc_tree.specs.Pages.{rows_of};

    ghost Value = { List (List PathStep × Item) };

    ghost view = { λ rows. rows.page.now ++ rows_of rows.pages };
}

impl<'a> Rows<'a> {
    // The rows of these chapters.
    pub(crate) fn new(chapters: &'a [Arc<Chapter>]) -> Rows<'a>
        ensures { result ≡ chapters_rows chapters.now }
    {
        Rows::behind(&[], chapters)
    }

    // The rows of these pages, and those of the chapters.
    pub(crate) fn behind(pages: &'a [Arc<Page>], chapters: &'a [Arc<Chapter>]) -> Rows<'a>
        ensures { result ≡ rows_of pages.now ++ chapters_rows chapters.now }
    {
        Rows {
            page: &[],
            pages: Pages::new(pages, chapters),
        }
    }
}

impl<'a> Iterator for Rows<'a> {
    ghost use Rattle.std.specs.Iterator.{YieldsFirstRef, item_count};

    type Item = &'a (Path, Item);

    ghost next_gives = { YieldsFirstRef (λ rows. rows) };

    ghost remaining = { item_count (λ rows. rows) };

    fn next(&mut self) -> Option<&'a (Path, Item)> {
        while self.page.is_empty() {
            let page = self.pages.next()?;
            self.page = page.rows.as_slice();
        }
        let (row, page) = self.page.split_first()?;
        self.page = page;
        Some(row)
    }
}

// How many rows pages have, or the largest 64-bit number where they have more.
fn count_rows(pages: &[Arc<Page>]) -> u64
    ensures { result ≡ capped (length (rows_of pages.now)) }
{
    let mut count: u64 = 0;
    for page in pages {
        count = count.saturating_add(page.rows.len() as u64);
    }
    count
}

// How many rows chapters have, or the largest 64-bit number where they have more.
pub(crate) fn count_all(chapters: &[Arc<Chapter>]) -> u64
    ensures { result ≡ capped (length (chapters_rows chapters.now)) }
{
    let mut count: u64 = 0;
    for chapter in chapters {
        count = count.saturating_add(count_rows(chapter.pages.as_slice()));
    }
    count
}

// Whether two rows have one path and one item.
fn same_row(left: &(Path, Item), right: &(Path, Item)) -> bool
    ensures { IsTrue result ↔ (left.now ≡ right.now) }
{
    left == right
}

// Whether the rows of both lists of chapters are the same.
pub(crate) fn same_rows(left: &[Arc<Chapter>], right: &[Arc<Chapter>]) -> bool
    ensures { IsTrue result ↔ (chapters_rows left.now ≡ chapters_rows right.now) }
{
    let mut rest = Rows::new(right);
    for row in Rows::new(left) {
        match rest.next() {
            Some(other) => {
                if !same_row(row, other) {
                    return false;
                }
            }
            None => return false,
        }
    }
    rest.next().is_none()
}
