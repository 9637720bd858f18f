//! Texts that tables write.
use crate::undone::Undone;
use orc_path::{Item, Path, push_item};
use orc_text::Text;
use orc_tree::Change;
use std::alloc::Global;

/// A text that is written, and where it takes memory.
#[derive(Drop)]
pub(crate) struct Shown {
    pub(crate) alloc: Global,
    pub(crate) text: String,
}

impl Shown {
    /// The empty text.
    pub(crate) fn new(alloc: Global) -> Shown {
        Shown {
            alloc,
            text: String::new(alloc),
        }
    }

    /// What was written.
    pub(crate) fn as_str(&self) -> &str {
        self.text.as_str()
    }

    /// Adds texts, one after the other.
    pub(crate) fn add(&mut self, texts: &[&str]) -> Result<(), Undone> {
        for text in texts {
            self.text.push_str(text)?;
        }
        Ok(())
    }

    /// Adds a text, and a number after a space.
    pub(crate) fn number(&mut self, text: &str, number: u64) -> Result<(), Undone> {
        let number = number.to_string(self.alloc)?;
        self.add(&[text, " ", number.as_str()])
    }

    /// Adds an item.
    pub(crate) fn item(&mut self, path: &Path, item: &Item) -> Result<(), Undone> {
        push_item(&mut self.text, self.alloc, path, item)?;
        Ok(())
    }

    /// Adds a change: a word, and the item that is put or the path that is removed.
    pub(crate) fn change(
        &mut self,
        put: &str,
        remove: &str,
        change: &Change,
    ) -> Result<(), Undone> {
        match change {
            Change::Put(path, item) => {
                self.text.push_str(put)?;
                self.item(path, item)
            }
            Change::Remove(path) => {
                self.text.push_str(remove)?;
                self.item(path, &Item::Entry)
            }
        }
    }

    /// Adds the ranges of numbers, each after a space.
    pub(crate) fn ranges(&mut self, ranges: &[(i128, i128)]) -> Result<(), Undone> {
        for range in ranges {
            let text = format!(in self.alloc; " {}..{}", range.0, range.1)?;
            self.text.push_str(text.as_str())?;
        }
        Ok(())
    }

    /// Adds the ranges of lengths, each after a space.
    pub(crate) fn lengths(&mut self, ranges: &[(u64, u64)]) -> Result<(), Undone> {
        for range in ranges {
            let text = format!(in self.alloc; " {}..{}", range.0, range.1)?;
            self.text.push_str(text.as_str())?;
        }
        Ok(())
    }
}

/// The name of the device of a number.
pub(crate) fn name_of(names: &[Text], device: u32) -> Result<&str, Undone> {
    match names.get(device as usize) {
        Some(name) => Ok(name.as_str()),
        None => Err(Undone),
    }
}
