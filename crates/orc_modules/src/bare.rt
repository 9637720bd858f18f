//! Groupings that bring no data node, through whatever groupings they use.
ghost use Rattle.std.specs.Prelude.{◌≡◌, ◌∷◌, List, IfOk, OnOk, IfSome, Some, true, false, option_map, codes};
ghost use Rattle.std.specs.List.{list_any};
ghost use Rattle.orc_types.specs.Statements.{argument};
ghost use Rattle.orc_modules.specs.Bare.{may_bring, Brings};
ghost use Rattle.orc_modules.specs.Children.{grouping};
ghost use Rattle.orc_modules.specs.Scopes.{plain_name};
ghost use Rattle.orc_modules.specs.Stack.{stack, found};
ghost use Rattle.orc_modules.specs.inside.Beside.{beside, beside_brings};
ghost use Rattle.orc_modules.specs.inside.Known.{AreBare, is_known};

use crate::block::Block;
use crate::looked::looks_below;
use crate::looks::Looks;
use crate::loops::is_top;
use crate::parts::{Part, block_part, grouping};
use crate::place::Modules;
use crate::scope::{Above, Found, definition, is_local, plain_name};
use orc_text::Memory;
use orc_types::{argument, has};
use orc_yang::Stmt;
use std::alloc::Global;

// So many groupings of one block are kept in mind.
const MAX_KNOWN: usize = 10_000;

// A grouping of the innermost block that brings nothing, through groupings fewer than `depth` deep.
#[derive(Clone, Copy)]
struct Known<'a> {
    name: &'a str,
    depth: usize,
}

// The grouping of this name in the innermost block.
fn beside<'a, 'm>(looks: &Looks, above: &'a Above<'a, 'm>, name: &str) -> Option<&'a Stmt>
    ensures { option_map (λ s. s.now) result ≡ beside (stack above.now) name.now }
{
    match above {
        Above::Top => None,
        Above::Module(stmt) => definition(looks, "grouping", name, stmt.subs.as_slice()),
        Above::Under(stmt, _) => definition(looks, "grouping", name, stmt.subs.as_slice()),
        Above::Indexed(block, _) => block.definition("grouping", name),
    }
}

// The grouping that a `uses` in the block of another names, where it is one of the block that the other stands in.
fn neighbour<'a, 'm>(
    looks: &Looks,
    above: &'a Above<'a, 'm>,
    here: &Stmt,
    stmt: &Stmt,
) -> Option<&'a Stmt>
    ensures beside { IfSome result (λ next.
        beside (stack above.now) (plain_name (argument stmt.now)) ≡ Some next.now) }
    ensures means { IfSome result (λ next. (modules : List Stmt)
        → grouping modules (here.now ∷ stack above.now) stmt.now
        ≡ Some (record { above = stack above.now; here = next.now })) }
{
    if !is_local(looks, argument(stmt), above) {
        return None;
    }
    let name = plain_name(argument(stmt));
    if definition(looks, "grouping", name, here.subs.as_slice()).is_some() {
        return None;
    }
    beside(looks, above, name)
}

// Whether it is known of the grouping of this name.
fn is_known(depth: usize, name: &str, known: &[Known<'_>]) -> bool
    ensures { result ≡ list_any (is_known depth name.now) known.now }
{
    known.iter().any(|k| k.depth <= depth && k.name == name)
}

// Whether it is clear that a grouping brings nothing, through groupings fewer than `depth` deep. Each that brings
// nothing is looked at once.
#[cycle(bare)]
fn is_bare<'a, 'm>(
    alloc: Global,
    depth: usize,
    modules: &Modules<'a>,
    above: &'a Above<'a, 'm>,
    here: &'a Stmt,
    known: &mut Vec<Known<'a>>,
) -> Result<bool, Memory>
    requires { AreBare modules.now.all.now (stack above.now) known.old.items }
    ensures bare { IfOk result (λ bare. bare ≡ true
        → may_bring depth modules.now.all.now (here.now ∷ stack above.now) here.now ≡ false) }
    ensures known { OnOk result (AreBare modules.now.all.now (stack above.now) known.new.items) }
{
    if depth == 0 {
        return Ok(false);
    }
    modules.go_down(depth)?;
    modules.looks.visit(looks_below(here))?;
    if known.len() >= MAX_KNOWN {
        return Ok(false);
    }
    for sub in here.subs.as_slice() {
        modules.looks.visit(1)?;
        match block_part(sub) {
            Part::Node => return Ok(false),
            Part::Uses => {
                let Some(next) = neighbour(modules.looks, above, here, sub) else {
                    return Ok(false);
                };
                match is_bare_named(
                    alloc,
                    depth - 1,
                    &*modules,
                    above,
                    plain_name(argument(sub)),
                    next,
                    known,
                )? {
                    true => {},
                    false => return Ok(false),
                }
            },
            Part::Nothing => {},
        }
    }
    Ok(true)
}

// Whether it is clear that the grouping of this name in the innermost block brings nothing.
#[cycle(bare)]
fn is_bare_named<'a, 'm>(
    alloc: Global,
    depth: usize,
    modules: &Modules<'a>,
    above: &'a Above<'a, 'm>,
    name: &'a str,
    here: &'a Stmt,
    known: &mut Vec<Known<'a>>,
) -> Result<bool, Memory>
    requires named { beside (stack above.now) name.now ≡ Some here.now }
    requires known { AreBare modules.now.all.now (stack above.now) known.old.items }
    ensures bare { IfOk result (λ bare. bare ≡ true
        → may_bring depth modules.now.all.now (here.now ∷ stack above.now) here.now ≡ false) }
    ensures known { OnOk result (AreBare modules.now.all.now (stack above.now) known.new.items) }
{
    modules.looks.pass(known.len());
    if is_known(depth, name, known.as_slice()) {
        return Ok(true);
    }
    match is_bare(alloc, depth, &*modules, above, here, known)? {
        true => {
            known.push(Known { name, depth })?;
            Ok(true)
        },
        false => Ok(false),
    }
}

// Whether the block around is a module's own and keeps what is known of its groupings.
fn is_indexed(above: &Above<'_, '_>) -> bool {
    match above {
        Above::Top => false,
        Above::Module(_) => false,
        Above::Under(_, _) => false,
        Above::Indexed(_, outer) => is_top(*outer),
    }
}

// Through how many groupings at most the one of this name in a module's own block is known to bring nothing.
fn depth_in_module(block: &Block<'_>, outer: &Above<'_, '_>, name: &str) -> Option<usize>
    ensures { IfSome result (λ d. (modules : List Stmt)
        → beside_brings d modules (block.now ∷ stack outer.now) name.now ≡ false) }
{
    if is_top(outer) {
        return block.depth(name);
    }
    None
}

// Through how many groupings at most the one of this name in the innermost block is known to bring nothing.
fn depth_beside(above: &Above<'_, '_>, name: &str) -> Option<usize>
    ensures { IfSome result (λ d. (modules : List Stmt)
        → beside_brings d modules (stack above.now) name.now ≡ false) }
{
    match above {
        Above::Top => None,
        Above::Module(_) => None,
        Above::Under(_, _) => None,
        Above::Indexed(block, outer) => depth_in_module(block, *outer, name),
    }
}

// Whether that is known, and so many are fewer than `depth`, or as many.
fn is_shallow(depth: usize, above: &Above<'_, '_>, name: &str) -> bool
    ensures { result ≡ true → (modules : List Stmt)
        → beside_brings depth modules (stack above.now) name.now ≡ false }
{
    match depth_beside(above, name) {
        Some(known) => {
            if known <= depth {
                return true;
            }
            false
        },
        None => false,
    }
}

/// Whether it is clear that the grouping which a `uses` names brings no data node, through groupings
/// fewer than `depth` deep: these all stand in one block, none has a definition of a name that is
/// used, and each is looked at once; or it is known of the block.
pub fn brings_nothing<'a, 'm>(
    alloc: Global,
    depth: usize,
    modules: &Modules<'a>,
    stmt: &Stmt,
    bringer: &'a Found<'a, 'm>,
) -> Result<bool, Memory>
    ensures { IfOk result (λ bare. bare ≡ true → (around : List Stmt)
        → grouping modules.now.all.now around stmt.now ≡ Some (found bringer.now)
        → may_bring depth modules.now.all.now (bringer.now.here.now ∷ stack bringer.now.above)
        bringer.now.here.now ≡ false) }
{
    modules.looks.visit(1)?;
    if is_indexed(&bringer.above) {
        return Ok(is_shallow(depth, &bringer.above, plain_name(argument(stmt))));
    }
    let mut known = Vec::new(alloc);
    is_bare(
        alloc,
        depth,
        &*modules,
        &bringer.above,
        bringer.here,
        &mut known,
    )
}

/// The grouping that a `uses` names, where it isn't clear that it brings no data node, through
/// groupings fewer than `depth` deep.
pub fn bringer<'a, 'm>(
    alloc: Global,
    depth: usize,
    modules: &Modules<'a>,
    above: &'a Above<'a, 'm>,
    stmt: &Stmt,
) -> Result<Option<Found<'a, 'm>>, Memory>
    ensures { IfOk result (λ o. Brings depth modules.now.all.now (stack above.now) stmt.now (option_map found o)) }
{
    modules.looks.visit(1)?;
    match grouping(&*modules, above, stmt) {
        Some(found) => match brings_nothing(alloc, depth, &*modules, stmt, &found)? {
            true => Ok(None),
            false => Ok(Some(found)),
        },
        None => Ok(None),
    }
}
