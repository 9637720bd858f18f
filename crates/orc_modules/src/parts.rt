//! What a statement is to its block, and which grouping a `uses` names.
ghost use Rattle.std.specs.Prelude.{◌≡◌, option_map};
ghost use Rattle.orc_modules.specs.Children.{if_config, block_part, grouping};
ghost use Rattle.orc_modules.specs.Stack.{stack, found};

use crate::place::Modules;
use crate::scope::{Above, Found, meaning};
use crate::statements::is_state;
use crate::word::{Word, word_of};
use orc_types::argument;
use orc_yang::Stmt;

/// What a statement is to its block: a data node, a `uses`, or nothing that defines a node.
#[derive(Clone, Copy, Debug, PartialEq, Eq)]
pub enum Part {
    Node,
    Uses,
    Nothing,
}

/// What a statement is to its block.
pub fn block_part(stmt: &Stmt) -> Part
    ensures { result ≡ block_part stmt.now }
{
    match word_of(stmt.keyword.as_str()) {
        Word::Container | Word::List | Word::Leaf | Word::LeafList => {
            if is_state(stmt) {
                Part::Nothing
            } else {
                Part::Node
            }
        },
        Word::Uses => Part::Uses,
        _ => Part::Nothing,
    }
}

/// The grouping that a `uses` names.
pub fn grouping<'a, 'm>(
    modules: &Modules<'a>,
    above: &'a Above<'a, 'm>,
    stmt: &Stmt,
) -> Option<Found<'a, 'm>>
    ensures { option_map found result ≡ grouping modules.now.all.now (stack above.now) stmt.now }
{
    meaning(modules, "grouping", argument(stmt), above)
}
