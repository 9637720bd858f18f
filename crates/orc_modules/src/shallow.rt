//! Groupings of a module's own block that are known to bring nothing.
ghost use Rattle.std.specs.Prelude.{◌≡◌, ◌+◌, ℕ, List, cond, codes, Some, IfOk, OnOk};
ghost use Rattle.std.specs.List.{find, list_all};
ghost use Rattle.orc_types.specs.Statements.{subs};
ghost use Rattle.orc_value.specs.Canon.{same_text};
ghost use Rattle.orc_modules.specs.Children.{block_part};
ghost use Rattle.orc_modules.specs.Statements.{defines, sub_text};
ghost use Rattle.orc_modules.specs.inside.Blocks.{by_name};
ghost use Rattle.orc_modules.specs.inside.Shallow.{depth_by, AreShallow, is_at_most, is_from_block, is_shallow_use, is_shallow_part};

use crate::firsts::{is_named, named, names_of};
use crate::order::order_of;
use crate::parts::{Part, block_part};
use crate::scope::{is_near, plain_name};
use crate::statements::sub_text;
use orc_text::Memory;
use orc_types::argument;
use orc_yang::Stmt;
use std::alloc::Global;
use std::collections::BTreeMap;

// Through how many groupings the one of this name is known to bring nothing.
pub(crate) fn depth_of(depths: &BTreeMap<&str, usize>, name: &str) -> Option<usize>
    ensures { result ≡ depth_by depths.now name.now }
{
    depths.get(name).copied()
}

// Whether that is known, and so many at most.
fn is_at_most(depth: usize, depths: &BTreeMap<&str, usize>, name: &str) -> bool
    ensures { result ≡ is_at_most depth (depth_by depths.now name.now) }
{
    match depth_of(depths, name) {
        Some(known) => known <= depth,
        None => false,
    }
}

// Whether a name has no other module's prefix, and is none of a grouping's own groupings.
fn is_from_block(prefix: &str, own: &BTreeMap<&str, &Stmt>, text: &str) -> bool
    ensures { result ≡ is_from_block prefix.now (by_name own.now) text.now }
{
    is_near(prefix, text) && !is_named(own, plain_name(text))
}

// Whether a `uses` of a grouping, which has groupings of its own, names one of the module of
// this prefix that is known to bring nothing.
fn is_shallow_use(
    prefix: &str,
    own: &BTreeMap<&str, &Stmt>,
    depths: &BTreeMap<&str, usize>,
    depth: usize,
    stmt: &Stmt,
) -> bool
    ensures { result ≡ is_shallow_use prefix.now (by_name own.now) (depth_by depths.now) depth stmt.now }
{
    is_from_block(prefix, own, argument(stmt))
        && is_at_most(depth, depths, plain_name(argument(stmt)))
}

// Whether one statement of the grouping is known to bring nothing.
fn is_shallow_part(
    prefix: &str,
    own: &BTreeMap<&str, &Stmt>,
    depths: &BTreeMap<&str, usize>,
    depth: usize,
    stmt: &Stmt,
) -> bool
    ensures { result
        ≡ is_shallow_part prefix.now (by_name own.now) (depth_by depths.now) depth stmt.now (block_part stmt.now) }
{
    match block_part(stmt) {
        Part::Node => false,
        Part::Uses => is_shallow_use(prefix, own, depths, depth, stmt),
        Part::Nothing => true,
    }
}

// Whether each statement of the grouping is.
fn are_shallow(
    prefix: &str,
    own: &BTreeMap<&str, &Stmt>,
    depths: &BTreeMap<&str, usize>,
    depth: usize,
    block: &[Stmt],
) -> bool
    ensures { result ≡ list_all
        (λ s. is_shallow_part prefix.now (by_name own.now) (depth_by depths.now) depth s (block_part s)) block.now }
{
    block
        .iter()
        .all(|stmt| is_shallow_part(prefix, own, depths, depth, stmt))
}

// The greatest depth of those that a grouping uses.
fn deepest(depths: &BTreeMap<&str, usize>, block: &[Stmt]) -> usize {
    let mut depth = 0;
    for stmt in block {
        match block_part(stmt) {
            Part::Uses => {
                if let Some(known) = depth_of(depths, plain_name(argument(stmt))) {
                    if known > depth {
                        depth = known;
                    }
                }
            },
            Part::Node => {},
            Part::Nothing => {},
        }
    }
    depth
}

// Puts a depth one greater than this one under a name.
fn put_depth<'m>(
    name: &'m str,
    depth: usize,
    depths: &mut BTreeMap<&'m str, usize>,
) -> Result<(), Memory>
    ensures { OnOk result ((q : List ℕ) → depth_by depths.new q
        ≡ cond (same_text name.now q) (Some (depth + 1)) (depth_by depths.old q)) }
{
    let Some(next) = depth.checked_add(1) else {
        return Err(Memory);
    };
    depths.insert(name, next)?;
    Ok(())
}

// Adds the depth of a grouping of a block, where it is known now to bring nothing.
fn add_depth<'m>(
    alloc: Global,
    prefix: &str,
    here: &'m Stmt,
    name: &'m str,
    grouping: &'m Stmt,
    depths: &mut BTreeMap<&'m str, usize>,
) -> Result<(), Memory>
    requires prefix { prefix.now ≡ sub_text (codes "prefix") here.now }
    requires named { find (defines (codes "grouping") name.now) (subs here.now) ≡ Some grouping.now }
    requires known { AreShallow here.now (depth_by depths.old) }
    ensures { OnOk result (AreShallow here.now (depth_by depths.new)) }
{
    // Looked at, so that the module counts as used: only the contract and its proof speak of it.
    let _ = here;
    let block = grouping.subs.as_slice();
    let own = names_of(alloc, "grouping", block)?;
    let depth = deepest(depths, block);
    if are_shallow(prefix, &own, depths, depth, block) {
        return put_depth(name, depth, depths);
    }
    Ok(())
}

/// The depths of the groupings of a module's own block that bring nothing, through groupings of the
/// block alone. Each is looked at once.
pub(crate) fn depths_of<'m>(
    alloc: Global,
    here: &'m Stmt,
    groupings: &BTreeMap<&'m str, &'m Stmt>,
) -> Result<BTreeMap<&'m str, usize>, Memory>
    requires { (q : List ℕ) → by_name groupings.now q ≡ find (defines (codes "grouping") q) (subs here.now) }
    ensures { IfOk result (λ depths. AreShallow here.now (depth_by depths)) }
{
    let prefix = sub_text("prefix", here);
    let order = order_of(alloc, prefix, here)?;
    let mut depths = BTreeMap::new(alloc);
    for name in order.as_slice() {
        if let Some(grouping) = named(groupings, *name) {
            add_depth(alloc, prefix, here, *name, grouping, &mut depths)?;
        }
    }
    Ok(depths)
}
