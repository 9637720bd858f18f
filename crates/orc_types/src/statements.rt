//! The parts of a statement, and the statements without effect.
ghost use Rattle.std.specs.Prelude.{◌≡◌, IfOk, not, option_map};
ghost use Rattle.std.specs.List.{find};
ghost use Rattle.orc_types.specs.Statements.{keyword, subs, argument, is_a, has, first_of, has_prefix, is_idle, none_below};
ghost use Rattle.orc_types.specs.inside.Meeting.{Meets};
ghost use Rattle.orc_yang.specs.declared.statement.Stmt.TheViews.{out-Stmt};

use crate::TypeFault;
use orc_text::{Memory, Text};
use orc_yang::Stmt;
use std::alloc::Global;

/// The argument; a statement without one has the empty text.
pub fn argument(stmt: &Stmt) -> &str
    ensures { result.now ≡ argument stmt.now }
{
    match &stmt.argument {
        Some(text) => text.as_str(),
        None => "",
    }
}

// A copy of the argument.
pub(crate) fn argument_text(alloc: Global, stmt: &Stmt) -> Result<Text, Memory>
    ensures { IfOk result (λ text. text ≡ argument stmt.now) }
{
    Text::from_str(alloc, argument(stmt))
}

/// Whether the statement has this keyword.
pub fn is_a(word: &str, stmt: &Stmt) -> bool
    ensures { result ≡ is_a word.now stmt.now }
{
    stmt.keyword.as_str() == word
}

/// Whether one of the statements has this keyword.
pub fn has(word: &str, stmts: &[Stmt]) -> bool
    ensures { result ≡ has word.now stmts.now }
{
    stmts.iter().any(|stmt| is_a(word, stmt))
}

/// The first statement with this keyword.
pub fn first_of<'a>(word: &str, stmts: &'a [Stmt]) -> Option<&'a Stmt>
    ensures { option_map (λ stmt. stmt.now) result ≡ first_of word.now stmts.now }
{
    stmts.iter().find(|stmt| is_a(word, *stmt))
}

// Whether a keyword has a prefix.
fn has_prefix(word: &str) -> bool
    ensures { result ≡ has_prefix word.now }
{
    word.as_bytes().iter().any(|byte| *byte == b':')
}

/// Whether a statement with this keyword has no effect, wherever it stands.
pub fn is_idle(word: &str) -> bool
    ensures { result ≡ is_idle word.now }
{
    has_prefix(word)
        || word == "description"
        || word == "reference"
        || word == "status"
        || word == "units"
        || word == "error-message"
        || word == "organization"
        || word == "contact"
        || word == "revision"
        || word == "revision-date"
}

// The first statement with an effect.
fn first_with_effect(stmts: &[Stmt]) -> Option<&Stmt>
    ensures { option_map (λ stmt. stmt.now) result ≡ find (λ stmt. not (is_idle (keyword stmt))) stmts.now }
{
    stmts.iter().find(|stmt| !is_idle(stmt.keyword.as_str()))
}

// What is at fault below a statement that has none with an effect.
pub(crate) fn none_below(alloc: Global, stmt: &Stmt) -> Result<(), TypeFault>
    ensures { Meets (none_below stmt.now) result }
{
    match first_with_effect(stmt.subs.as_slice()) {
        Some(sub) => Err(TypeFault::Unsupported {
            keyword: sub.keyword.copy(alloc)?,
        }),
        None => Ok(()),
    }
}
