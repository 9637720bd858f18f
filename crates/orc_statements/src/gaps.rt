//! Groupings that are missing.
ghost use Rattle.std.specs.Prelude.{◌≡◌, List, IfOk};
ghost use Rattle.orc_modules.specs.Stack.{stack};
ghost use Rattle.orc_statements.specs.Gaps.{is_incomplete};

use orc_modules::{Above, Modules, Part, block_part, brings_nothing, grouping, looks_below};
use orc_text::Memory;
use orc_yang::Stmt;
use std::alloc::Global;

// Where the statements of a block stand.
#[derive(Clone, Copy)]
struct Inside<'a, 'm> {
    above: &'a Above<'a, 'm>,
}

// Whether a `uses` of the block leads to no grouping, or on more than `depth` times.
fn is_incomplete_at<'a, 'm>(
    alloc: Global,
    depth: usize,
    modules: &Modules<'a>,
    at: &Inside<'a, 'm>,
    stmt: &'a Stmt,
) -> Result<bool, Memory>
    ensures { IfOk result (λ found. found
        ≡ is_incomplete depth modules.now.all.now (stack at.now.above.now) stmt.now) }
{
    if depth == 0 {
        return Ok(true);
    }
    modules.go_down(depth)?;
    modules.looks.visit(looks_below(stmt))?;
    for sub in stmt.subs.as_slice() {
        match block_part(sub) {
            Part::Uses => {
                modules.looks.visit(1)?;
                let Some(found) = grouping(&*modules, at.above, sub) else {
                    return Ok(true);
                };
                match brings_nothing(alloc, depth - 1, &*modules, sub, &found)? {
                    true => {},
                    false => {
                        let inside = Inside {
                            above: &Above::Under(found.here, &found.above),
                        };
                        match is_incomplete_at(alloc, depth - 1, &*modules, &inside, found.here)? {
                            true => return Ok(true),
                            false => {},
                        }
                    },
                }
            },
            Part::Node => {},
            Part::Nothing => {},
        }
    }
    Ok(false)
}

// Whether a `uses` of the block of a statement, or of its groupings, leads to no grouping, or to itself.
pub(crate) fn is_incomplete<'a, 'm>(
    alloc: Global,
    modules: &Modules<'a>,
    above: &'a Above<'a, 'm>,
    stmt: &'a Stmt,
) -> Result<bool, Memory>
    ensures { IfOk result (λ found. found
        ≡ is_incomplete modules.now.most modules.now.all.now (stack above.now) stmt.now) }
{
    is_incomplete_at(alloc, modules.most, &*modules, &Inside { above }, stmt)
}
