//! How many statements of modules may lead on to others.
ghost use Rattle.std.specs.Prelude.{◌≡◌, ◌+◌, List, IfOk, if◌then◌else◌};
ghost use Rattle.std.specs.List.{list_any, sum_by};
ghost use Rattle.orc_types.specs.Statements.{keyword, subs};
ghost use Rattle.orc_modules.specs.Statements.{word, is_data, may_lead, leaders};

use crate::looks::Looks;
use crate::word::{Word, word_of};
use orc_text::Memory;
use orc_types::is_a;
use orc_yang::Stmt;

// Whether this is the word of a data definition.
fn is_data(word: Word) -> bool
    ensures { result ≡ is_data word }
{
    matches!(
        word,
        Word::Container | Word::List | Word::Leaf | Word::LeafList | Word::Uses
    )
}

// Whether the statement is one.
fn is_definition(stmt: &Stmt) -> bool
    ensures { result ≡ is_data (word stmt.now) }
{
    is_data(word_of(stmt.keyword.as_str()))
}

// Whether one of the statements is.
fn any_data(block: &[Stmt]) -> bool
    ensures { result ≡ list_any (λ t. is_data (word t)) block.now }
{
    block.iter().any(|stmt| is_definition(stmt))
}

// Whether a statement may lead on to others.
fn may_lead(stmt: &Stmt) -> bool
    ensures { result ≡ may_lead (keyword stmt.now) (subs stmt.now) }
{
    is_a("typedef", stmt) || any_data(stmt.subs.as_slice())
}

// One for such a statement.
fn own_count(stmt: &Stmt) -> usize
    ensures { result ≡ if may_lead (keyword stmt.now) (subs stmt.now) then 1 else 0 }
{
    if may_lead(stmt) { 1 } else { 0 }
}

/// The sum, where it is a number of this size.
pub(crate) fn added(one: usize, other: usize) -> Result<usize, Memory>
    ensures { IfOk result (λ sum. sum ≡ one + other) }
{
    match one.checked_add(other) {
        Some(sum) => Ok(sum),
        None => Err(Memory),
    }
}

// How many such statements this one is and has in it, with the look at each counted.
fn leaders(looks: &Looks, stmt: &Stmt) -> Result<usize, Memory>
    ensures { IfOk result (λ count. count ≡ leaders stmt.now) }
{
    looks.visit(1)?;
    let mut below: usize = 0;
    for sub in stmt.subs.as_slice() {
        below = added(below, leaders(looks, sub)?)?;
    }
    added(below, own_count(stmt))
}

/// How many of them modules have.
pub(crate) fn all_leaders(looks: &Looks, modules: &[Stmt]) -> Result<usize, Memory>
    ensures { IfOk result (λ count. count ≡ sum_by leaders modules.now) }
{
    let mut count: usize = 0;
    for stmt in modules {
        count = added(count, leaders(looks, stmt)?)?;
    }
    Ok(count)
}
