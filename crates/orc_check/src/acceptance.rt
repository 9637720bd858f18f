//! Which configurations a device accepts.
ghost use Rattle.std.specs.Prelude.{◌≡◌, not, IfOk};
ghost use Rattle.std.specs.List.{list_all};
ghost use Rattle.std.specs.Option.{option_copied};
ghost use Rattle.orc_check.specs.Acceptance.{keeps_max, has_text, keeps_forbid, accepts};

use crate::counting::has_more;
use crate::fault::CheckFault;
use crate::validity::{broken, valid};
use orc_path::{Item, Path};
use orc_schema_nodes::Schema;
use orc_text::{Memory, Row, Text};
use orc_tree::Tree;
use std::alloc::Global;

/// What a device accepts: configurations that are valid under its schema, where none of the lists of
/// `max` has more entries than its number, and no leaf of `forbid` has its text.
pub struct Accept {
    pub schema: Schema,
    /// The path of a list or a leaf-list, with no keys in its last step. Any other path has no
    /// entries.
    pub max: Row<(Path, u64)>,
    pub forbid: Row<(Path, Text)>,
}

// Written out, so that a crate above lets it go by one call.
impl Drop for Accept {
    fn drop(self) {
        let Accept {
            schema: _,
            max: _,
            forbid: _,
        } = self;
    }
}

// Whether the list has at most so many entries.
fn keeps_max(tree: &Tree, rule: &(Path, u64)) -> bool
    ensures { result ≡ keeps_max tree.now rule.now }
{
    !has_more(tree, rule.0.steps.as_slice(), &[], rule.1)
}

// Whether each of the lists has.
fn keep_max(tree: &Tree, rules: &[(Path, u64)]) -> bool
    ensures { result ≡ list_all (keeps_max tree.now) rules.now }
{
    rules.iter().all(|rule| keeps_max(tree, rule))
}

// Whether the item is a leaf of this text.
fn has_text(item: Option<&Item>, text: &Text) -> bool
    ensures { result ≡ has_text text.now (option_copied item.entry) }
{
    match item {
        Some(Item::Leaf(own)) => own.as_str() == text.as_str(),
        Some(Item::Entry) => false,
        None => false,
    }
}

// Whether the leaf doesn't have the text.
fn keeps_forbid(tree: &Tree, rule: &(Path, Text)) -> bool
    ensures { result ≡ keeps_forbid tree.now rule.now }
{
    !has_text(tree.get(&rule.0), &rule.1)
}

// Whether none of the leaves does.
fn keep_forbid(tree: &Tree, rules: &[(Path, Text)]) -> bool
    ensures { result ≡ list_all (keeps_forbid tree.now) rules.now }
{
    rules.iter().all(|rule| keeps_forbid(tree, rule))
}

/// Whether a device of this schema and these rules accepts the configuration. It takes memory as `valid`
/// does, and costs as much.
pub fn accepts_under(
    alloc: Global,
    schema: &Schema,
    max: &[(Path, u64)],
    forbid: &[(Path, Text)],
    tree: &Tree,
) -> Result<bool, Memory>
    ensures { IfOk result (λ answer. answer
        ≡ accepts (record { schema = schema.now; max = max.now; forbid = forbid.now }) tree.now) }
{
    match valid(alloc, schema, tree) {
        Ok(()) => Ok(keep_max(tree, max) && keep_forbid(tree, forbid)),
        Err(CheckFault::Broken { .. }) => Ok(false),
        Err(CheckFault::Memory) => Err(Memory),
    }
}

/// Whether a device accepts the configuration. It takes no memory, and costs as `broken` does.
pub fn accepts(accept: &Accept, tree: &Tree) -> bool
    ensures { result ≡ accepts accept.now tree.now }
{
    !broken(&accept.schema, tree)
        && keep_max(tree, accept.max.as_slice())
        && keep_forbid(tree, accept.forbid.as_slice())
}
