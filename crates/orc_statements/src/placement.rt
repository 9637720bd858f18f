//! Which statements may stand in which.
ghost use Rattle.std.specs.Prelude.{◌≡◌, option_map};
ghost use Rattle.orc_statements.specs.Placement.{is_definition, in_module, in_import, in_typedef, in_container, in_list, in_leaf, in_leaf_list, stands_in, is_module, stands_below};

use orc_modules::{Word, word_of};
use orc_yang::Stmt;

fn is_definition(word: Word) -> bool
    ensures { result ≡ is_definition word }
{
    match word {
        Word::Typedef
        | Word::Grouping
        | Word::Container
        | Word::List
        | Word::Leaf
        | Word::LeafList
        | Word::Uses => true,
        _ => false,
    }
}

fn in_module(word: Word) -> bool
    ensures { result ≡ in_module word }
{
    match word {
        Word::YangVersion | Word::Namespace | Word::Prefix | Word::Import => true,
        _ => is_definition(word),
    }
}

fn in_import(word: Word) -> bool
    ensures { result ≡ in_import word }
{
    match word {
        Word::Prefix => true,
        _ => false,
    }
}

fn in_typedef(word: Word) -> bool
    ensures { result ≡ in_typedef word }
{
    match word {
        Word::TypeName | Word::Default => true,
        _ => false,
    }
}

fn in_container(word: Word) -> bool
    ensures { result ≡ in_container word }
{
    match word {
        Word::Config => true,
        _ => is_definition(word),
    }
}

fn in_list(word: Word) -> bool
    ensures { result ≡ in_list word }
{
    match word {
        Word::Key | Word::MinElements | Word::MaxElements | Word::OrderedBy => true,
        _ => in_container(word),
    }
}

fn in_leaf(word: Word) -> bool
    ensures { result ≡ in_leaf word }
{
    match word {
        Word::TypeName | Word::Default | Word::Mandatory | Word::Config => true,
        _ => false,
    }
}

fn in_leaf_list(word: Word) -> bool
    ensures { result ≡ in_leaf_list word }
{
    match word {
        Word::TypeName | Word::MinElements | Word::MaxElements | Word::Config | Word::OrderedBy =>
            true,
        _ => false,
    }
}

// Whether a statement of the second word may stand in one of the first.
fn stands_in(parent: Word, word: Word) -> bool
    ensures { result ≡ stands_in parent word }
{
    match parent {
        Word::Module => in_module(word),
        Word::Import => in_import(word),
        Word::Typedef => in_typedef(word),
        Word::Grouping => is_definition(word),
        Word::Container => in_container(word),
        Word::List => in_list(word),
        Word::Leaf => in_leaf(word),
        Word::LeafList => in_leaf_list(word),
        _ => false,
    }
}

fn is_module(word: Word) -> bool
    ensures { result ≡ is_module word }
{
    match word {
        Word::Module => true,
        _ => false,
    }
}

// Whether a statement may stand at the top, or in the one around it.
pub(crate) fn stands_below(parent: Option<&Stmt>, word: Word) -> bool
    ensures { result ≡ stands_below (option_map (λ s. s.now) parent.entry) word }
{
    match parent {
        None => is_module(word),
        Some(stmt) => stands_in(word_of(stmt.keyword.as_str()), word),
    }
}
