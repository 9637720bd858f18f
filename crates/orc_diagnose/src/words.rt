//! What is said, put together word by word.
use crate::quoted::push_quoted;
use orc_text::{Memory, Text};
use std::alloc::Global;

/// What is said so far.
#[derive(Drop)]
pub(crate) struct Words {
    pub(crate) alloc: Global,
    text: String,
}

impl Words {
    /// Nothing is said.
    pub(crate) fn new(alloc: Global) -> Words {
        Words {
            alloc,
            text: String::new(alloc),
        }
    }

    /// Adds words as they stand.
    pub(crate) fn say(&mut self, words: &str) -> Result<(), Memory> {
        self.text.push_str(words)?;
        Ok(())
    }

    /// Adds a text as it is shown: its first 100 characters, each that isn't seen by its number.
    pub(crate) fn show(&mut self, text: &str) -> Result<(), Memory> {
        push_quoted(&mut self.text, self.alloc, text)
    }

    /// Adds a text as it is shown, between marks.
    pub(crate) fn quote(&mut self, text: &str) -> Result<(), Memory> {
        self.say("`")?;
        self.show(text)?;
        self.say("`")
    }

    /// Adds a number.
    pub(crate) fn count(&mut self, number: u64) -> Result<(), Memory> {
        let digits = number.to_string(self.alloc)?;
        self.say(digits.as_str())
    }

    /// All that is said.
    pub(crate) fn into_text(self) -> Text {
        let Words { alloc: _, text } = self;
        Text::from_string(text)
    }
}
