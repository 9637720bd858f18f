//! How much a look at statements is, in statements.

use orc_types::{argument, is_idle};
use orc_yang::Stmt;

// So many statements that are asked for a keyword alone are as much as one that is read.
const PART: usize = 4;

// So many bytes of a text are as much as a statement that is read.
const BYTES: usize = 16;

// So many bytes of a text are kept as one text.
const KEPT: usize = 64;

// Names are that long at most.
const NAME: usize = 64;

/// How much a text is.
pub fn text_looks(text: &str) -> usize {
    text.len() / BYTES
}

/// How much it is to keep a text: one, and one more for each 64 bytes.
pub fn text_weight(text: &str) -> usize {
    text.len() / KEPT + 1
}

// How much the argument of a statement is, where it is read.
fn argument_looks(stmt: &Stmt) -> usize {
    if is_idle(stmt.keyword.as_str()) {
        return 0;
    }
    text_looks(argument(stmt))
}

// How much the argument of a statement is, where it is longer than an identifier may be.
fn name_looks(stmt: &Stmt) -> usize {
    if argument(stmt).len() <= NAME {
        return 0;
    }
    argument_looks(stmt)
}

/// How much it is to go through a block, and to ask each of its statements for its name and whether it
/// has `config false`.
pub fn looked_at(block: &[Stmt]) -> usize {
    let mut asked: usize = 0;
    let mut texts: usize = 0;
    for stmt in block {
        asked = asked.saturating_add(stmt.subs.len());
        texts = texts.saturating_add(name_looks(stmt));
    }
    block
        .len()
        .saturating_add(asked / PART)
        .saturating_add(texts)
}

/// How much it is to go through the block of a statement, as `looked_at` counts.
pub fn looks_below(stmt: &Stmt) -> usize {
    looked_at(stmt.subs.as_slice())
}

// How much the statements of a block are, with their arguments and how many stand below each.
fn read_looks(block: &[Stmt]) -> usize {
    let mut looked: usize = 0;
    for stmt in block {
        looked = looked
            .saturating_add(1)
            .saturating_add(stmt.subs.len())
            .saturating_add(argument_looks(stmt));
    }
    looked
}

/// How much it is to make a type of a `type` statement: what stands below it, and the texts there.
pub fn type_looks(stmt: &Stmt) -> usize {
    let block = stmt.subs.as_slice();
    let mut looked = read_looks(block);
    for sub in block {
        looked = looked.saturating_add(read_looks(sub.subs.as_slice()));
    }
    looked
}
