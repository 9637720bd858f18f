//! Whether a configuration is valid under a schema.
ghost use Rattle.std.specs.Prelude.{◌≡◌, is_some};
ghost use Rattle.orc_check.specs.Validity.{least_breach, breaches, broken_of};
ghost use Rattle.orc_check.specs.Answers.{AnswersBreach};
ghost use Rattle.orc_check.specs.Found.{found_breach};

use crate::fault::CheckFault;
use crate::found::{Found, path_of};
use crate::instances::{Instance, instances};
use crate::places::least_of_places;
use crate::rows::least_of_rows;
use orc_schema_nodes::Schema;
use orc_tree::Tree;
use std::alloc::Global;

// The least breach, under a schema that isn't plain.
fn least_of<'a>(schema: &'a Schema, tree: &'a Tree, index: &[Instance<'_>]) -> Option<Found<'a>>
    ensures { found_breach result ≡ least_breach (breaches schema.now tree.now) }
{
    let best = least_of_rows(schema, tree, index);
    least_of_places(schema, tree, best)
}

// The least breach.
fn first_breach<'a>(schema: &'a Schema, tree: &'a Tree, index: &[Instance<'_>]) -> Option<Found<'a>>
    ensures { found_breach result ≡ broken_of schema.now tree.now }
{
    if schema.is_plain() {
        return None;
    }
    least_of(schema, tree, index)
}

/// Ok exactly where the configuration is valid under the schema, and else its least breach: the least
/// path in path order, and the first rule that is broken there. Under a plain schema each one is
/// valid. It takes memory for a list of the instances to which leafrefs may lead, so that each leafref
/// costs a search or two, and for the path that it reports.
pub fn valid(alloc: Global, schema: &Schema, tree: &Tree) -> Result<(), CheckFault>
    ensures { AnswersBreach (broken_of schema.now tree.now) result }
{
    let index = instances(alloc, schema, tree)?;
    match first_breach(schema, tree, index.as_slice()) {
        None => Ok(()),
        Some(found) => Err(CheckFault::Broken {
            path: path_of(alloc, &found)?,
            rule: found.rule,
        }),
    }
}

/// Whether the configuration breaks any rule of the schema. It takes no memory, so a leafref whose target
/// no search finds looks at each row that begins with the entries that both share.
pub fn broken(schema: &Schema, tree: &Tree) -> bool
    ensures { result ≡ is_some (broken_of schema.now tree.now) }
{
    first_breach(schema, tree, &[]).is_some()
}
