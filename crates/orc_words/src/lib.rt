//! The command words: what the program is asked to do, and the file that holds its journal.
//!
//! The words are those after the program's name. `clap` reads them, by an interface that the
//! definitions state as a value of `clap`'s own specification.
#![tactic(auto)]

mod interface;
mod journal;
mod laws;
mod naming;
mod reading;
mod words;

pub use journal::journal_word;
pub use laws::{taken_words_have_command, written_words_are_taken};
pub use reading::{command_of, usage_text};
pub use words::{Command, MOST_CALLS_MADE, MOST_DEVICES_MADE, WordsFault};
