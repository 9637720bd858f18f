//! Texts and rows: a `String` and a `Vec` as values of their contents.
//!
//! The crates above keep their texts and lists in these two types, also inside structs and enums
//! of their own, so that contracts compare such values by what they contain. `Memory` is the one
//! answer of a call that could not get memory.
#![tactic(auto)]

mod character;
mod copied;
mod counted;
mod memory;
mod row;
mod text;

pub use character::{is_noncharacter, is_plain_character, is_plain_text};
pub use copied::Copied;
pub use counted::{Counted, total_count};
pub use memory::Memory;
pub use row::Row;
pub use text::{SHORT_TEXT, Text};
