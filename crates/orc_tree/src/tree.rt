//! The tree and its operations.
ghost use Rattle.std.specs.Prelude.{◌≡◌, IfOk, OnOk, OnErr, IsTrue, ◌↔◌, length};
ghost use Rattle.std.specs.Option.{option_copied};
ghost use Rattle.std.specs.FinMap.{empty, get, keys, entries};
ghost use Rattle.std.specs.List.{filter, list_all};
ghost use Rattle.orc_text.specs.Counts.{capped};
ghost use Rattle.orc_path.specs.Items.{fits};
ghost use Rattle.orc_path.specs.Configurations.{IsConfig, put_item, drop_item, overlay, is_entry_of};
ghost use Rattle.orc_tree.specs.Changes.{applied, change_fits};
ghost use Rattle.orc_tree.specs.Pages.{rows_of, pages_of, AreSized, AreFilled};
ghost use Rattle.orc_tree.specs.Sameness.{equal_configs};

use crate::change::{ChangeSet, apply_to};
use crate::chapter::{Chapter, ChapterList, share_chapters};
use crate::finger::{Finger, find_near};
use crate::listed::{chapters_in, new_list, put_shared, remove_shared, share_list};
use crate::lists::list_entries;
use crate::overlay::lay_chapters;
use crate::walk::{Rows, count_all, same_rows};
use crate::ways::missing_ways;
use orc_path::{Item, Path};
use orc_text::{Copied, Memory};
use std::alloc::Global;
use std::marker::Model;
use std::sync::Arc;

/// A configuration: a finite map from paths to items in which every entry on the way to a path is
/// present. Its rows stand in pages, and these in chapters, both of which copies of the tree share
/// until one of them changes.
#[derive(Debug)]
pub struct Tree {
    alloc: Global,
    list: Option<Arc<ChapterList>>,
}

// Written out, so that a crate above lets a tree go by one call, and proves nothing of chapters and
// pages.
impl Drop for Tree {
    fn drop(self) {
        let Tree { alloc: _, list: _ } = self;
    }
}

impl Model for Tree {
    ghost use Rattle.orc_path.specs.Codes.{config_code};
    ghost use Rattle.orc_path.specs.Configurations.{Config};
    ghost use Rattle.orc_tree.specs.Pages.{listed, chapters_map};
    ghost use Rattle.orc_tree.specs.inside.Places.{AreChapters};

    ghost Value = { Config };

    ghost coded = { config_code };

    ghost view = { λ tree. chapters_map (listed tree.list) };

    ghost invariant = { λ tree. AreChapters (listed tree.list) };
}

impl Tree {
    /// The tree without any item, which takes no memory.
    pub fn new(alloc: Global) -> Tree
        ensures { result ≡ empty }
    {
        Tree { alloc, list: None }
    }

    /// The item at a path, if there is one. It takes no memory and costs a search.
    pub fn get(&self, path: &Path) -> Option<&Item>
        ensures item { option_copied result ≡ get self.now path.now }
        ensures config { IsConfig self.now }
    {
        self.get_near(&mut Finger::new(), path)
    }

    /// The item at a path, if there is one. It takes no memory. It costs a few comparisons where the last
    /// search with this finger ended in the page where this path stands or would, and else a search.
    pub fn get_near(&self, finger: &mut Finger, path: &Path) -> Option<&Item>
        ensures item { option_copied result ≡ get self.now path.now }
        ensures config { IsConfig self.now }
    {
        find_near(chapters_in(&self.list), finger, path.steps.as_slice())
    }

    /// Sets the item at a path, and adds the entries on its way that are missing. It costs a search
    /// for each entry on the way and an edit of one page. Where copies hold the list of chapters,
    /// the chapter or the page, these are copied first. Where memory runs out, the tree is as it was.
    pub fn set(&mut self, path: Path, item: Item) -> Result<(), Memory>
        requires fits { IsTrue (fits path item) }
        ensures ok { OnOk result (self.new ≡ put_item self.old path item) }
        ensures err { OnErr result (self.new ≡ self.old) }
        ensures config { IsConfig self.new }
    {
        self.set_near(&mut Finger::new(), path, item)
    }

    /// Does what `set` does, and costs less where the last search with this finger ended beside the path,
    /// as where paths come in order. The finger is left near the path, or as it was where the tree was
    /// empty.
    pub fn set_near(&mut self, finger: &mut Finger, path: Path, item: Item) -> Result<(), Memory>
        requires fits { IsTrue (fits path item) }
        ensures ok { OnOk result (self.new ≡ put_item self.old path item) }
        ensures err { OnErr result (self.new ≡ self.old) }
        ensures config { IsConfig self.new }
    {
        let missing = missing_ways(self.alloc, chapters_in(&self.list), finger, &path)?;
        put_shared(&mut self.list, self.alloc, finger, missing, path, item)
    }

    /// Removes a path that ends in keys with all below it, or else that one leaf. It costs a search
    /// and an edit of the pages that it touches. Where memory runs out, the tree is as it was.
    pub fn remove(&mut self, path: &Path) -> Result<(), Memory>
        ensures ok { OnOk result (self.new ≡ drop_item self.old path.now) }
        ensures err { OnErr result (self.new ≡ self.old) }
        ensures config { IsConfig self.new }
    {
        self.remove_near(&mut Finger::new(), path)
    }

    // `remove`, where the finger is likely to be at the path. It is left near where the path
    // was, or as it was where the tree is empty.
    pub(crate) fn remove_near(&mut self, finger: &mut Finger, path: &Path) -> Result<(), Memory>
        ensures ok { OnOk result (self.new ≡ drop_item self.old path.now) }
        ensures err { OnErr result (self.new ≡ self.old) }
        ensures config { IsConfig self.new }
    {
        remove_shared(&mut self.list, self.alloc, finger, path)
    }

    /// Sets each item of another tree, so that this one is overlaid with it. It costs a list of the
    /// chapters, and for each of the other tree's items a copy, a search and an edit of one page.
    /// Where memory runs out, the tree is as it was.
    pub fn overlay_with(&mut self, top: &Tree) -> Result<(), Memory>
        ensures ok { OnOk result (self.new ≡ overlay top.now self.old) }
        ensures err { OnErr result (self.new ≡ self.old) }
        ensures config { IsConfig self.new }
    {
        let mut chapters = share_chapters(self.alloc, chapters_in(&self.list))?;
        lay_chapters(&mut chapters, chapters_in(&top.list))?;
        self.list = new_list(self.alloc, chapters)?;
        Ok(())
    }

    /// Applies changes: first the removals among them, and then what they put, each item with the
    /// entries on its way that are missing. It costs a list of the chapters, and for each change what
    /// `remove` or `set` costs. Where memory runs out, the tree is as it was.
    pub fn apply(&mut self, set: &ChangeSet) -> Result<(), Memory>
        requires fits { IsTrue (list_all change_fits set.now.changes) }
        ensures ok { OnOk result (self.new ≡ applied set.now.changes self.old) }
        ensures err { OnErr result (self.new ≡ self.old) }
        ensures config { IsConfig self.new }
    {
        apply_to(self.allocator(), self, set)
    }

    // Where the tree's memory is from.
    fn allocator(&self) -> Global {
        self.alloc
    }

    /// Copies of the entries of a list, in path order: the present paths that end in keys and whose
    /// other steps and last name are the list's. A path that ends in keys is no list. It costs a
    /// search, and a look at each row that stands at or below an entry of the list.
    pub fn keys_under(&self, alloc: Global, list: &Path) -> Result<Vec<Path>, Memory>
        ensures keys { IfOk result (λ paths. paths.items ≡ filter (is_entry_of list.now) (keys self.now)) }
        ensures config { IsConfig self.now }
    {
        list_entries(alloc, chapters_in(&self.list), list)
    }

    /// How many items there are, or the largest 64-bit number where there are more. It takes no
    /// memory, and looks at each page once.
    pub fn len(&self) -> u64
        ensures { result ≡ capped (length (entries self.now)) }
    {
        count_all(chapters_in(&self.list))
    }

    /// Whether there is no item.
    pub fn is_empty(&self) -> bool
        ensures { IsTrue result ↔ (self.now ≡ empty) }
    {
        chapters_in(&self.list).is_empty()
    }

    /// The chapters: the rows of their pages, one after another, are the paths with their items, in
    /// path order. It takes no memory.
    pub fn chapters(&self) -> &[Arc<Chapter>]
        ensures rows { rows_of (pages_of result.now) ≡ entries self.now }
        ensures sized { AreSized (pages_of result.now) }
        ensures filled { AreFilled result.now }
        ensures config { IsConfig self.now }
    {
        chapters_in(&self.list)
    }

    /// The paths with their items, in path order, lent one after another. It takes no memory.
    pub fn rows(&self) -> Rows<'_>
        ensures rows { result ≡ entries self.now }
        ensures config { IsConfig self.now }
    {
        Rows::new(chapters_in(&self.list))
    }

    /// Copies of the paths with their items, in path order.
    pub fn walk(&self, alloc: Global) -> Result<Vec<(Path, Item)>, Memory>
        ensures entries { IfOk result (λ rows. rows.items ≡ entries self.now) }
        ensures config { IsConfig self.now }
    {
        let mut rows = Vec::new(alloc);
        for row in self.rows() {
            rows.push((row.0.copy(alloc)?, row.1.copy(alloc)?))?;
        }
        Ok(rows)
    }

    /// An equal tree, which holds the same list of chapters. It costs a counter. The first change of
    /// one of the two copies the list, the first in a chapter the chapter, and the first in a page
    /// the page: a counter for each chapter, one for each page of the chapter, and the page's rows.
    pub fn copy(&self, alloc: Global) -> Result<Tree, Memory>
        ensures equal { IfOk result (λ tree. tree ≡ self.now) }
        ensures config { IsConfig self.now }
    {
        let list = share_list(&self.list)?;
        Ok(Tree { alloc, list })
    }

    /// Whether both trees have the same items at the same paths.
    pub fn equals(&self, other: &Tree) -> bool
        ensures equal { IsTrue result ↔ (self.now ≡ other.now) }
        ensures test { result ≡ equal_configs self.now other.now }
    {
        same_rows(chapters_in(&self.list), chapters_in(&other.list))
    }
}

impl Copied for Tree {
    fn copied(&self, alloc: Global) -> Result<Tree, Memory> {
        self.copy(alloc)
    }
}
