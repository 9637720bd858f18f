//! Trees: lines that are done on a tree, from top to bottom.
//!
//! - `new`: it is one without items
//! - `set ITEM`, `remove PATH`: as `PATH = VALUE` or `PATH`
//! - `fill N ORDER`, `drain N ORDER`: sets or removes N leaves, as `fills` says
//! - `copy`: the other tree is a copy of this one
//! - `swap`: the two change places
//! - `overlay`: it is overlaid with the other
//! - `get ITEM`, `none PATH`: this item stands at its path, or none does
//! - `keys LIST`, `keys LIST -> PATH, PATH`: these are the entries of a list
//! - `rows ITEM, ITEM`, `walk ITEM, ITEM`: these are all items, lent or copied
//! - `len N`, `pages N`, `chapters N`: it has so many items, pages or chapters
//! - `copies N`: so many copies of its items are made, each anew
//! - `equal`, `unequal`: it has the items of the other, or not

mod fills;

use crate::items::{put_of, set};
use crate::line::first_word;
use crate::shown::Shown;
use crate::table::Table;
use crate::trees::fills::{Order, leaf_path};
use crate::undone::Undone;
use orc_call::Put;
use orc_path::{Item, Path};
use orc_text::Text;
use orc_tree::Tree;
use std::alloc::Global;
use std::mem::swap;

/// The tree, and another one.
#[derive(Drop)]
pub(crate) struct Trees {
    alloc: Global,
    tree: Tree,
    other: Tree,
}

impl Table for Trees {
    fn take(&mut self, line: &str) -> Result<bool, Undone> {
        let (word, rest) = first_word(line);
        match word {
            "set" => set(&mut self.tree, put_of(self.alloc, rest)?),
            "remove" => self.remove(rest),
            "fill" => self.fill(rest),
            "drain" => self.drain(rest),
            _ => self.change(word, rest),
        }
    }
}

impl Trees {
    /// Two trees without items.
    pub(crate) fn new(alloc: Global) -> Trees {
        Trees {
            alloc,
            tree: Tree::new(alloc),
            other: Tree::new(alloc),
        }
    }

    // Does a line on both trees, or else looks at what one says.
    fn change(&mut self, word: &str, rest: &str) -> Result<bool, Undone> {
        match word {
            "new" => self.tree = Tree::new(self.alloc),
            "copy" => self.other = shared_copy(self.alloc, &self.tree)?,
            "swap" => swap(&mut self.tree, &mut self.other),
            "overlay" => self.tree.overlay_with(&self.other)?,
            _ => return self.says(word, rest),
        }
        Ok(true)
    }

    // Removes a path.
    fn remove(&mut self, rest: &str) -> Result<bool, Undone> {
        let path = Path::parse(self.alloc, rest)?;
        self.tree.remove(&path)?;
        Ok(true)
    }

    // Sets so many leaves, and says whether all fit.
    fn fill(&mut self, rest: &str) -> Result<bool, Undone> {
        let (count, order) = Order::of_line(rest)?;
        for place in 0..count {
            if !self.fill_one(order.at(place, count))? {
                return Ok(false);
            }
        }
        Ok(true)
    }

    // Sets the leaf with a number.
    fn fill_one(&mut self, number: usize) -> Result<bool, Undone> {
        let path = leaf_path(self.alloc, number)?;
        let item = Item::Leaf(Text::from_str(self.alloc, "x")?);
        set(&mut self.tree, Put { path, item })
    }

    // Removes so many leaves.
    fn drain(&mut self, rest: &str) -> Result<bool, Undone> {
        let (count, order) = Order::of_line(rest)?;
        for place in 0..count {
            self.drain_one(order.at(place, count))?;
        }
        Ok(true)
    }

    // Removes the leaf with a number.
    fn drain_one(&mut self, number: usize) -> Result<(), Undone> {
        let path = leaf_path(self.alloc, number)?;
        self.tree.remove(&path)?;
        Ok(())
    }

    // Whether it is so, as a line says of items.
    fn says(&self, word: &str, rest: &str) -> Result<bool, Undone> {
        match word {
            "get" => self.has(rest),
            "none" => self.has_none(rest),
            "keys" => self.has_keys(rest),
            "rows" => self.has_rows(rest),
            "walk" => self.is_walked(rest),
            "equal" => Ok(self.tree.equals(&self.other)),
            "unequal" => Ok(!self.tree.equals(&self.other)),
            _ => self.counts(word, rest.parse()?),
        }
    }

    // Whether there are so many, as a line says.
    fn counts(&self, word: &str, count: u64) -> Result<bool, Undone> {
        match word {
            "len" => Ok(self.tree.len() == count),
            "pages" => Ok(count_pages(&self.tree) == count),
            "chapters" => Ok(self.tree.chapters().len() as u64 == count),
            "copies" => Ok(self.tree.walk(self.alloc)?.len() as u64 == count),
            _ => Err(Undone),
        }
    }

    // Whether this item stands at its path.
    fn has(&self, rest: &str) -> Result<bool, Undone> {
        let put = put_of(self.alloc, rest)?;
        match self.tree.get(&put.path) {
            Some(item) => Ok(*item == put.item),
            None => Ok(false),
        }
    }

    // Whether nothing stands at the path.
    fn has_none(&self, rest: &str) -> Result<bool, Undone> {
        let path = Path::parse(self.alloc, rest)?;
        Ok(self.tree.get(&path).is_none())
    }

    // Whether a list has these entries.
    fn has_keys(&self, rest: &str) -> Result<bool, Undone> {
        let (list, paths) = rest.split_once(" -> ").unwrap_or((rest, ""));
        let list = Path::parse(self.alloc, list)?;
        Ok(self.keys(&list)?.as_str() == paths)
    }

    // The entries of a list.
    fn keys(&self, list: &Path) -> Result<Shown, Undone> {
        let mut shown = Shown::new(self.alloc);
        for path in &self.tree.keys_under(self.alloc, list)? {
            push_row(&mut shown, path, &Item::Entry)?;
        }
        Ok(shown)
    }

    // Whether these are all items, lent in path order.
    fn has_rows(&self, rest: &str) -> Result<bool, Undone> {
        let mut shown = Shown::new(self.alloc);
        for row in self.tree.rows() {
            push_row(&mut shown, &row.0, &row.1)?;
        }
        Ok(shown.as_str() == rest && self.tree.is_empty() == rest.is_empty())
    }

    // Whether these are all items, copied in path order.
    fn is_walked(&self, rest: &str) -> Result<bool, Undone> {
        let mut shown = Shown::new(self.alloc);
        for row in &self.tree.walk(self.alloc)? {
            push_row(&mut shown, &row.0, &row.1)?;
        }
        Ok(shown.as_str() == rest)
    }
}

// Adds an item after the others.
fn push_row(shown: &mut Shown, path: &Path, item: &Item) -> Result<(), Undone> {
    if !shown.as_str().is_empty() {
        shown.add(&[", "])?;
    }
    shown.item(path, item)
}

// How many pages a tree has.
fn count_pages(tree: &Tree) -> u64 {
    let mut count: u64 = 0;
    for chapter in tree.chapters() {
        count = count.saturating_add(chapter.pages.len() as u64);
    }
    count
}

// A copy of a value that other threads may have and share.
fn shared_copy(alloc: Global, tree: &Tree) -> Result<Tree, Undone> {
    crosses_threads(tree);
    Ok(tree.copy(alloc)?)
}

// What may go to other threads and be shared among them.
fn crosses_threads<T: Send + Sync>(_value: &T) {}
