//! Typedefs and groupings that lead back to themselves.
ghost use Rattle.std.specs.Prelude.{◌≡◌, List, [], ◌∷◌, ◌||◌, true, false, IfOk, codes, option_map};
ghost use Rattle.std.specs.Option.{option_map_or};
ghost use Rattle.orc_types.specs.Statements.{is_a};
ghost use Rattle.orc_modules.specs.Children.{grouping};
ghost use Rattle.orc_modules.specs.Loops.{is_same_statement, are_same, is_same, defined_around, typedef, type_leads, block_leads, uses_leads, is_type_loop, is_uses_loop};
ghost use Rattle.orc_modules.specs.Stack.{stack, found, modules_of};

use crate::base::typedef;
use crate::deep::leads_past;
use crate::looked::looks_below;
use crate::parts::{Part, block_part, grouping};
use crate::place::Modules;
use crate::scope::{Above, Found, Site};
use orc_text::Memory;
use orc_types::{argument, built_in, first_of, is_a};
use orc_yang::Stmt;
use std::alloc::Global;

// Whether they are one and the same statement.
fn is_same_statement(one: &Stmt, other: &Stmt) -> bool
    ensures { result ≡ is_same_statement one.now other.now }
{
    one.at == other.at
        && one.keyword.as_str() == other.keyword.as_str()
        && argument(one) == argument(other)
}

// Whether nothing is around.
pub(crate) fn is_top(above: &Above<'_, '_>) -> bool
    ensures same { result ≡ are_same [] (stack above.now) }
    ensures top { result ≡ true → stack above.now ≡ [] }
{
    match above {
        Above::Top => true,
        Above::Module(_) => false,
        Above::Under(_, _) => false,
        Above::Indexed(_, _) => false,
    }
}

// Whether the others are this statement alone.
fn is_alone(stmt: &Stmt, other: &Above<'_, '_>) -> bool
    ensures { result ≡ are_same (stmt.now ∷ []) (stack other.now) }
{
    match other {
        Above::Top => false,
        Above::Module(next) => is_same_statement(stmt, *next) && is_top(&Above::Top),
        Above::Under(next, outer) => is_same_statement(stmt, *next) && is_top(*outer),
        Above::Indexed(block, outer) => is_same_statement(stmt, block.here()) && is_top(*outer),
    }
}

// Whether the statements around are the same.
#[cycle(same)]
fn are_same(one: &Above<'_, '_>, other: &Above<'_, '_>) -> bool
    ensures { result ≡ are_same (stack one.now) (stack other.now) }
{
    match one {
        Above::Top => is_top(other),
        Above::Module(stmt) => is_alone(*stmt, other),
        Above::Under(stmt, outer) => are_same_under(*stmt, *outer, other),
        Above::Indexed(block, outer) => are_same_under(block.here(), *outer, other),
    }
}

// Whether a statement and those around it are the same as the others.
#[cycle(same)]
fn are_same_under(stmt: &Stmt, outer: &Above<'_, '_>, other: &Above<'_, '_>) -> bool
    ensures { result ≡ are_same (stmt.now ∷ stack outer.now) (stack other.now) }
{
    match other {
        Above::Top => false,
        Above::Module(next) => is_same_statement(stmt, *next) && are_same(outer, &Above::Top),
        Above::Under(next, further) => is_same_statement(stmt, *next) && are_same(outer, *further),
        Above::Indexed(block, further) => {
            is_same_statement(stmt, block.here()) && are_same(outer, *further)
        },
    }
}

// Whether they are one and the same definition.
fn is_same(one: &Found<'_, '_>, other: &Found<'_, '_>) -> bool
    ensures { result ≡ is_same (found one.now) (found other.now) }
{
    is_same_statement(one.here, other.here) && are_same(&one.above, &other.above)
}

// Whether the statement is a typedef or a grouping.
fn is_definition(stmt: &Stmt) -> bool
    ensures { result ≡ (is_a (codes "typedef") stmt.now || is_a (codes "grouping") stmt.now) }
{
    is_a("typedef", stmt) || is_a("grouping", stmt)
}

// The innermost definition around, where it has this keyword.
fn defined_around<'a, 'm>(keyword: &str, above: &'a Above<'a, 'm>) -> Option<Found<'a, 'm>>
    ensures { option_map found result ≡ defined_around keyword.now (stack above.now) }
{
    match above {
        Above::Top => None,
        Above::Module(stmt) => {
            if is_a(keyword, *stmt) {
                return Some(Found {
                    above: Above::Top,
                    here: *stmt,
                });
            }
            None
        },
        Above::Under(stmt, outer) => {
            if is_a(keyword, *stmt) {
                return Some(Found {
                    above: **outer,
                    here: *stmt,
                });
            }
            if is_definition(*stmt) {
                return None;
            }
            defined_around(keyword, *outer)
        },
        Above::Indexed(block, outer) => {
            if is_a(keyword, block.here()) {
                return Some(Found {
                    above: **outer,
                    here: block.here(),
                });
            }
            if is_definition(block.here()) {
                return None;
            }
            defined_around(keyword, *outer)
        },
    }
}

// The typedef that a `type` names.
fn typedef_of<'a, 'm>(
    alloc: Global,
    modules: &Modules<'a>,
    above: &'a Above<'a, 'm>,
    stmt: &Stmt,
) -> Result<Option<Found<'a, 'm>>, Memory>
    ensures { IfOk result (λ o. option_map found o ≡ typedef modules.now.all.now (stack above.now) stmt.now) }
{
    match built_in(alloc, argument(stmt))? {
        Some(_) => Ok(None),
        None => Ok(typedef(modules, above, stmt)),
    }
}

// Whether the name of a `type` leads to this typedef, through `depth` typedefs at most.
fn type_leads<'a, 'm>(
    alloc: Global,
    depth: usize,
    modules: &Modules<'a>,
    at: &Site<'a, 'm>,
    stmt: &Stmt,
    goal: &Found<'_, '_>,
) -> Result<bool, Memory>
    ensures { IfOk result (λ leads. leads
        ≡ type_leads depth modules.now.all.now (found goal.now) (stack at.now.above.now) stmt.now) }
{
    if depth == 0 {
        return Ok(false);
    }
    modules.go_down(depth)?;
    modules.looks.visit(1)?;
    match typedef_of(alloc, &*modules, at.above, stmt)? {
        None => Ok(false),
        Some(next) => {
            if is_same(&next, goal) {
                return Ok(true);
            }
            modules.looks.pass(next.here.subs.len());
            match first_of("type", next.here.subs.as_slice()) {
                None => Ok(false),
                Some(inner) => {
                    let around = Site {
                        above: &Above::Under(next.here, &next.above),
                    };
                    type_leads(alloc, depth - 1, &*modules, &around, inner, goal)
                },
            }
        },
    }
}

// Whether the block of a statement leads to this grouping, through `depth` nodes and groupings at most.
fn block_leads<'a, 'm>(
    alloc: Global,
    depth: usize,
    modules: &Modules<'a>,
    at: &Site<'a, 'm>,
    stmt: &'a Stmt,
    goal: &Found<'_, '_>,
) -> Result<bool, Memory>
    ensures { IfOk result (λ leads. leads
        ≡ block_leads depth modules.now.all.now (found goal.now) (stack at.now.above.now) stmt.now) }
{
    if depth == 0 {
        return Ok(false);
    }
    modules.go_down(depth)?;
    modules.looks.visit(looks_below(stmt))?;
    for sub in stmt.subs.as_slice() {
        match block_part(sub) {
            Part::Node => {
                let inside = Site {
                    above: &Above::Under(sub, at.above),
                };
                match block_leads(alloc, depth - 1, &*modules, &inside, sub, goal)? {
                    true => return Ok(true),
                    false => {},
                }
            },
            Part::Uses => {
                modules.looks.visit(1)?;
                match grouping(&*modules, at.above, sub) {
                    Some(next) => {
                        if is_same(&next, goal) {
                            return Ok(true);
                        }
                        let inside = Site {
                            above: &Above::Under(next.here, &next.above),
                        };
                        match block_leads(alloc, depth - 1, &*modules, &inside, next.here, goal)? {
                            true => return Ok(true),
                            false => {},
                        }
                    },
                    None => {},
                }
            },
            Part::Nothing => {},
        }
    }
    Ok(false)
}

// Whether the name of a `uses` leads to this grouping.
fn uses_leads<'a, 'm>(
    alloc: Global,
    modules: &Modules<'a>,
    above: &'a Above<'a, 'm>,
    stmt: &Stmt,
    goal: &Found<'_, '_>,
) -> Result<bool, Memory>
    ensures { IfOk result (λ leads. leads
        ≡ uses_leads modules.now.most modules.now.all.now (found goal.now) (stack above.now) stmt.now) }
{
    match grouping(&*modules, above, stmt) {
        None => Ok(false),
        Some(next) => {
            if is_same(&next, goal) {
                return Ok(true);
            }
            let inside = Site {
                above: &Above::Under(next.here, &next.above),
            };
            block_leads(alloc, modules.most, &*modules, &inside, next.here, goal)
        },
    }
}

// Whether the name of a `uses` leads to the grouping that it stands in.
fn uses_lead_back<'a, 'm>(
    alloc: Global,
    modules: &Modules<'a>,
    above: &'a Above<'a, 'm>,
    stmt: &Stmt,
) -> Result<bool, Memory>
    ensures { IfOk result (λ leads. leads ≡ option_map_or
        (λ e. uses_leads modules.now.most modules.now.all.now e (stack above.now) stmt.now)
        (defined_around (codes "grouping") (stack above.now)) false) }
{
    match defined_around("grouping", above) {
        Some(goal) => uses_leads(alloc, &*modules, above, stmt, &goal),
        None => Ok(false),
    }
}

/// Whether the name of a `type` leads to the very typedef that it stands in.
pub fn is_type_loop<'a, 'm>(
    alloc: Global,
    modules: &Modules<'a>,
    above: &'a Above<'a, 'm>,
    stmt: &Stmt,
) -> Result<bool, Memory>
    ensures { IfOk result (λ found. found ≡ is_type_loop (modules_of modules.now) (stack above.now) stmt.now) }
{
    match defined_around("typedef", above) {
        Some(goal) => type_leads(alloc, modules.most, &*modules, &Site { above }, stmt, &goal),
        None => Ok(false),
    }
}

/// Whether the name of a `uses` leads on without end, and to the very grouping that it stands in.
pub fn is_uses_loop<'a, 'm>(
    alloc: Global,
    modules: &Modules<'a>,
    above: &'a Above<'a, 'm>,
    stmt: &Stmt,
) -> Result<bool, Memory>
    ensures { IfOk result (λ found. found ≡ is_uses_loop (modules_of modules.now) (stack above.now) stmt.now) }
{
    match leads_past(alloc, &*modules, above, stmt)? {
        true => uses_lead_back(alloc, modules, above, stmt),
        false => Ok(false),
    }
}
