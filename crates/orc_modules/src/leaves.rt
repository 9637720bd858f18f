//! The leaves of a block, those of its groupings among them.
ghost use Rattle.std.specs.Prelude.{◌≡◌, List, ◌∷◌, IfOk, None, option_map};
ghost use Rattle.std.specs.Option.{option_map_or};
ghost use Rattle.orc_types.specs.Statements.{subs};
ghost use Rattle.orc_modules.specs.Bases.{type_found};
ghost use Rattle.orc_modules.specs.Children.{grouping, leaf_named};
ghost use Rattle.orc_modules.specs.Stack.{stack, found, modules_of};
ghost use Rattle.orc_modules.specs.inside.Leaves.{leaf_brought, leaf_of_grouping, leaf_in_block};

use crate::bare::bringer;
use crate::base::typed_in;
use crate::deep::is_deeper;
use crate::looked::looked_at;
use crate::meant::Typed;
use crate::parts::{Part, block_part, grouping};
use crate::place::Modules;
use crate::scope::{Above, Found, Site};
use crate::statements::defines;
use orc_text::Memory;
use orc_yang::Stmt;
use std::alloc::Global;

// The grouping that a `uses` names, where it may bring nodes.
fn bringer_of_leaf<'a, 'm>(
    alloc: Global,
    depth: usize,
    modules: &Modules<'a>,
    above: &'a Above<'a, 'm>,
    name: &str,
    stmt: &Stmt,
) -> Result<Option<Found<'a, 'm>>, Memory>
    ensures { IfOk result (λ o.
        option_map_or (λ g. leaf_brought depth (modules_of modules.now) (g.here ∷ g.above) name.now (subs g.here))
        (grouping modules.now.all.now (stack above.now) stmt.now) None
        ≡ option_map_or (λ g. leaf_brought depth (modules_of modules.now) (g.here ∷ g.above) name.now (subs g.here))
        (option_map found o) None) }
{
    // Looked at, so that the name counts as used: only the contract and its proof speak of it.
    let _ = name;
    bringer(alloc, depth, modules, above, stmt)
}

// The type of the leaf of this name that a block has, through groupings fewer than `depth` deep. It goes no further
// down than a look at how deep they are has gone.
fn leaf_brought<'a, 'm>(
    alloc: Global,
    depth: usize,
    modules: &Modules<'a>,
    at: &Site<'a, 'm>,
    name: &str,
    block: &'a [Stmt],
) -> Result<Option<Option<Typed>>, Memory>
    ensures { IfOk result (λ typed.
        typed ≡ leaf_brought depth (modules_of modules.now) (stack at.now.above.now) name.now block.now) }
{
    if depth == 0 {
        return Ok(None);
    }
    modules.looks.visit(looked_at(block))?;
    for stmt in block {
        match block_part(stmt) {
            Part::Node => {
                if defines("leaf", name, stmt) {
                    return Ok(Some(typed_in(alloc, &*modules, &*at, stmt)?));
                }
            },
            Part::Uses => {
                match bringer_of_leaf(alloc, depth - 1, &*modules, at.above, name, stmt)? {
                    Some(found) => {
                        let here = found.here;
                        let inside = Site {
                            above: &Above::Under(here, &found.above),
                        };
                        match leaf_brought(
                            alloc,
                            depth - 1,
                            &*modules,
                            &inside,
                            name,
                            here.subs.as_slice(),
                        )? {
                            Some(typed) => return Ok(Some(typed)),
                            None => {},
                        }
                    },
                    None => {},
                }
            },
            Part::Nothing => {},
        }
    }
    Ok(None)
}

// The type of the leaf of this name that a grouping brings, none where it leads to itself.
fn leaf_of_grouping<'a, 'm>(
    alloc: Global,
    modules: &Modules<'a>,
    name: &str,
    bringer: &'a Found<'a, 'm>,
) -> Result<Option<Option<Typed>>, Memory>
    ensures { IfOk result (λ typed.
        typed ≡ leaf_of_grouping (modules_of modules.now) name.now (found bringer.now)) }
{
    let here = bringer.here;
    let inside = Site {
        above: &Above::Under(here, &bringer.above),
    };
    if is_deeper(alloc, modules.most, &*modules, &inside, here)? {
        return Ok(None);
    }
    leaf_brought(
        alloc,
        modules.most,
        &*modules,
        &inside,
        name,
        here.subs.as_slice(),
    )
}

// The type of the leaf of this name that a block has.
fn leaf_in_block<'a, 'm>(
    alloc: Global,
    modules: &Modules<'a>,
    at: &Site<'a, 'm>,
    name: &str,
    block: &'a [Stmt],
) -> Result<Option<Option<Typed>>, Memory>
    ensures { IfOk result (λ typed.
        typed ≡ leaf_in_block (modules_of modules.now) (stack at.now.above.now) name.now block.now) }
{
    modules.looks.visit(looked_at(block))?;
    for stmt in block {
        match block_part(stmt) {
            Part::Node => {
                if defines("leaf", name, stmt) {
                    return Ok(Some(typed_in(alloc, &*modules, &*at, stmt)?));
                }
            },
            Part::Uses => {
                modules.looks.visit(1)?;
                if let Some(found) = grouping(&*modules, at.above, stmt) {
                    match leaf_of_grouping(alloc, &*modules, name, &found)? {
                        Some(typed) => return Ok(Some(typed)),
                        None => {},
                    }
                }
            },
            Part::Nothing => {},
        }
    }
    Ok(None)
}

/// The type of the leaf of this name that a block has, where it has one.
pub fn leaf_type<'a, 'm>(
    alloc: Global,
    modules: &Modules<'a>,
    above: &'a Above<'a, 'm>,
    block: &'a [Stmt],
    name: &str,
) -> Result<Option<Option<Typed>>, Memory>
    ensures { IfOk result (λ typed. typed ≡ option_map (type_found (modules_of modules.now))
        (leaf_named modules.now.most modules.now.all.now (stack above.now) block.now name.now)) }
{
    leaf_in_block(alloc, &*modules, &Site { above }, name, block)
}
