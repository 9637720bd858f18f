//! Where a statement stands in a module.
use crate::words::Words;
use orc_text::Memory;
use orc_yang::Stmt;

/// Whether a statement has this argument.
pub(crate) fn has_argument(statement: &Stmt, text: &str) -> bool {
    match &statement.argument {
        Some(argument) => argument.as_str() == text,
        None => false,
    }
}

/// The statement of this keyword and argument right below another one.
pub(crate) fn sub_with<'a>(statement: &'a Stmt, keyword: &str, argument: &str) -> Option<&'a Stmt> {
    for sub in statement.subs.as_slice() {
        if sub.keyword.as_str() == keyword && has_argument(sub, argument) {
            return Some(sub);
        }
    }
    None
}

/// The statement that stands there, of this one and those below.
pub(crate) fn statement_at(statement: &Stmt, at: u64) -> &Stmt {
    if statement.at == at {
        return statement;
    }
    let mut left = begun(statement, at);
    for sub in statement.subs.as_slice() {
        if left == 1 {
            return statement_at(sub, at);
        }
        left = left.saturating_sub(1);
    }
    statement
}

/// Adds the statements that lead from this one to the one that stands there.
pub(crate) fn say_way(words: &mut Words, statement: &Stmt, at: u64) -> Result<(), Memory> {
    words.show(statement.keyword.as_str())?;
    if let Some(argument) = &statement.argument {
        words.say(" ")?;
        words.show(argument.as_str())?;
    }
    if statement.at == at {
        return Ok(());
    }
    let mut left = begun(statement, at);
    for sub in statement.subs.as_slice() {
        if left == 1 {
            words.say(", ")?;
            return say_way(words, sub, at);
        }
        left = left.saturating_sub(1);
    }
    Ok(())
}

// How many of the statements of a block begin there or before.
fn begun(statement: &Stmt, at: u64) -> u64 {
    let mut count: u64 = 0;
    for sub in statement.subs.as_slice() {
        if sub.at <= at {
            count = count.saturating_add(1);
        }
    }
    count
}
