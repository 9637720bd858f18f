//! What a statement says, and which statements are read.
ghost use Rattle.std.specs.Prelude.{◌≡◌, ◌≢◌, option_map};
ghost use Rattle.orc_modules.specs.declared.word.Word.TheVariants.{TypeName as type_name};
ghost use Rattle.orc_modules.specs.Statements.{has_argument, defines, argument_below, sub_text, is_state, holds_data, reads, is_read};

use crate::word::{Word, word_of};
use orc_types::{argument, first_of, is_a};
use orc_yang::Stmt;

/// Whether the statement has an argument.
pub fn has_argument(stmt: &Stmt) -> bool
    ensures { result ≡ has_argument stmt.now }
{
    stmt.argument.is_some()
}

/// Whether the statement has this keyword and this argument.
pub fn defines(keyword: &str, name: &str, stmt: &Stmt) -> bool
    ensures { result ≡ defines keyword.now name.now stmt.now }
{
    is_a(keyword, stmt) && argument(stmt) == name
}

/// The argument of the first statement below one with this keyword.
pub fn argument_below<'a>(keyword: &str, stmt: &'a Stmt) -> Option<&'a str>
    ensures { option_map (λ text. text.now) result ≡ argument_below keyword.now stmt.now }
{
    match first_of(keyword, stmt.subs.as_slice()) {
        Some(sub) => Some(argument(sub)),
        None => None,
    }
}

/// That argument, or the empty text.
pub fn sub_text<'a>(keyword: &str, stmt: &'a Stmt) -> &'a str
    ensures { result.now ≡ sub_text keyword.now stmt.now }
{
    match argument_below(keyword, stmt) {
        Some(text) => text,
        None => "",
    }
}

/// Whether the statement has `config false`.
pub fn is_state(stmt: &Stmt) -> bool
    ensures { result ≡ is_state stmt.now }
{
    stmt.subs
        .as_slice()
        .iter()
        .any(|sub| defines("config", "false", sub))
}

/// Whether data definitions may stand in such a statement.
pub fn holds_data(word: Word) -> bool
    ensures { result ≡ holds_data word }
{
    matches!(
        word,
        Word::Module | Word::Grouping | Word::Container | Word::List
    )
}

// Whether a statement is read where a data definition may stand or may not.
fn is_read_in(parent: Word, stmt: &Stmt) -> bool
    ensures { parent ≢ type_name → result ≡ is_read parent stmt.now }
{
    match word_of(stmt.keyword.as_str()) {
        Word::Idle => false,
        Word::Dropped => !holds_data(parent),
        Word::Container | Word::List | Word::Leaf | Word::LeafList => {
            !(holds_data(parent) && is_state(stmt))
        },
        _ => true,
    }
}

/// Whether the statement is read in one of this word.
pub fn is_read(parent: Word, stmt: &Stmt) -> bool
    ensures { result ≡ is_read parent stmt.now }
{
    match parent {
        Word::TypeName => false,
        _ => is_read_in(parent, stmt),
    }
}
