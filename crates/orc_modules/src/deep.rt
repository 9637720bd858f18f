//! How deep nodes and groupings stand in one another.
ghost use Rattle.std.specs.Prelude.{◌≡◌, List, IfOk};
ghost use Rattle.orc_modules.specs.Children.{is_deeper, leads_past};
ghost use Rattle.orc_modules.specs.Stack.{stack};

use crate::bare::bringer;
use crate::looked::looks_below;
use crate::parts::{Part, block_part, grouping};
use crate::place::Modules;
use crate::scope::{Above, Site};
use orc_text::Memory;
use orc_yang::Stmt;
use std::alloc::Global;

// Whether nodes and groupings below a statement stand in one another `depth` deep or more.
pub(crate) fn is_deeper<'a, 'm>(
    alloc: Global,
    depth: usize,
    modules: &Modules<'a>,
    at: &Site<'a, 'm>,
    stmt: &'a Stmt,
) -> Result<bool, Memory>
    ensures { IfOk result (λ deep. deep ≡ is_deeper depth modules.now.all.now (stack at.now.above.now) stmt.now) }
{
    if depth == 0 {
        return Ok(true);
    }
    modules.go_down(depth)?;
    modules.looks.visit(looks_below(stmt))?;
    for sub in stmt.subs.as_slice() {
        match block_part(sub) {
            Part::Node => {
                let inside = Site {
                    above: &Above::Under(sub, at.above),
                };
                match is_deeper(alloc, depth - 1, &*modules, &inside, sub)? {
                    true => return Ok(true),
                    false => {},
                }
            },
            Part::Uses => {
                match bringer(alloc, depth - 1, &*modules, at.above, sub)? {
                    Some(found) => {
                        let inside = Site {
                            above: &Above::Under(found.here, &found.above),
                        };
                        match is_deeper(alloc, depth - 1, &*modules, &inside, found.here)? {
                            true => return Ok(true),
                            false => {},
                        }
                    },
                    None => {},
                }
            },
            Part::Nothing => {},
        }
    }
    Ok(false)
}

/// Whether a `uses` is taken to lead to itself: what it brings stands in one another as deep as that.
pub fn leads_past<'a, 'm>(
    alloc: Global,
    modules: &Modules<'a>,
    above: &'a Above<'a, 'm>,
    stmt: &Stmt,
) -> Result<bool, Memory>
    ensures { IfOk result (λ past.
        past ≡ leads_past modules.now.most modules.now.all.now (stack above.now) stmt.now) }
{
    match grouping(&*modules, above, stmt) {
        None => Ok(false),
        Some(found) => {
            let inside = Site {
                above: &Above::Under(found.here, &found.above),
            };
            is_deeper(alloc, modules.most, &*modules, &inside, found.here)
        },
    }
}

/// Whether nodes and groupings below a statement are taken to lead to themselves.
pub fn is_too_deep<'a, 'm>(
    alloc: Global,
    modules: &Modules<'a>,
    above: &'a Above<'a, 'm>,
    stmt: &'a Stmt,
) -> Result<bool, Memory>
    ensures { IfOk result (λ deep. deep ≡ is_deeper modules.now.most modules.now.all.now (stack above.now) stmt.now) }
{
    is_deeper(alloc, modules.most, &*modules, &Site { above }, stmt)
}
