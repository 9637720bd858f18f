//! A YANG statement.

use orc_text::{Row, Text};

// The most blocks in one another.
pub(crate) const MAX_DEPTH: usize = 32;

/// A statement (RFC 7950 section 6.3): a keyword, which has a prefix and a colon before it where it
/// belongs to an extension, an argument where there is one, and the statements of its block, none
/// where it ends in `;`. `at` is the place of the keyword, in bytes from the beginning.
#[derive(Debug, Drop)]
pub struct Stmt {
    pub keyword: Text,
    pub argument: Option<Text>,
    pub subs: Row<Stmt>,
    pub at: u64,
}
