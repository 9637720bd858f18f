//! The names of the data nodes of a block.
ghost use Rattle.std.specs.Prelude.{◌≡◌, List, [], ◌∷◌, ◌++◌, IfOk, OnOk, option_map};
ghost use Rattle.std.specs.Option.{option_map_or};
ghost use Rattle.orc_types.specs.Statements.{subs};
ghost use Rattle.orc_modules.specs.Children.{grouping, brought, brought_by, children, child_names};
ghost use Rattle.orc_modules.specs.Stack.{stack, found};

use crate::bare::bringer;
use crate::deep::is_deeper;
use crate::looked::{looked_at, text_weight};
use crate::parts::{Part, block_part, grouping};
use crate::place::Modules;
use crate::scope::{Above, Found, Site};
use orc_text::{Memory, Row, Text};
use orc_types::argument;
use orc_yang::Stmt;
use std::alloc::Global;

// The grouping that a `uses` names, where it may bring nodes.
fn bringer_of_nodes<'a, 'm>(
    alloc: Global,
    depth: usize,
    modules: &Modules<'a>,
    above: &'a Above<'a, 'm>,
    stmt: &Stmt,
) -> Result<Option<Found<'a, 'm>>, Memory>
    ensures { IfOk result (λ o.
        option_map_or (λ g. brought depth modules.now.all.now (g.here ∷ g.above) (subs g.here))
        (grouping modules.now.all.now (stack above.now) stmt.now) []
        ≡ option_map_or (λ g. brought depth modules.now.all.now (g.here ∷ g.above) (subs g.here))
        (option_map found o) []) }
{
    bringer(alloc, depth, modules, above, stmt)
}

// Adds the names of the nodes of a block, through groupings fewer than `depth` deep. It goes no further down than a
// look at how deep they are has gone.
fn push_brought<'a, 'm>(
    alloc: Global,
    depth: usize,
    modules: &Modules<'a>,
    at: &Site<'a, 'm>,
    block: &'a [Stmt],
    out: &mut Row<Text>,
) -> Result<(), Memory>
    ensures { OnOk result (out.new
        ≡ out.old ++ child_names (brought depth modules.now.all.now (stack at.now.above.now) block.now)) }
{
    if depth == 0 {
        return Ok(());
    }
    modules.looks.visit(looked_at(block))?;
    for stmt in block {
        match block_part(stmt) {
            Part::Node => {
                modules.looks.keep(text_weight(argument(stmt)))?;
                out.push(Text::from_str(alloc, argument(stmt))?)?;
            },
            Part::Uses => {
                match bringer_of_nodes(alloc, depth - 1, &*modules, at.above, stmt)? {
                    Some(found) => {
                        let here = found.here;
                        let inside = Site {
                            above: &Above::Under(here, &found.above),
                        };
                        push_brought(
                            alloc,
                            depth - 1,
                            &*modules,
                            &inside,
                            here.subs.as_slice(),
                            out,
                        )?;
                    },
                    None => {},
                }
            },
            Part::Nothing => {},
        }
    }
    Ok(())
}

// Adds the names that a grouping brings, none where it leads to itself.
fn push_grouping<'a, 'm>(
    alloc: Global,
    modules: &Modules<'a>,
    bringer: &'a Found<'a, 'm>,
    out: &mut Row<Text>,
) -> Result<(), Memory>
    ensures { OnOk result (out.new
        ≡ out.old ++ child_names (brought_by modules.now.most modules.now.all.now (found bringer.now))) }
{
    let here = bringer.here;
    let inside = Site {
        above: &Above::Under(here, &bringer.above),
    };
    if is_deeper(alloc, modules.most, &*modules, &inside, here)? {
        return Ok(());
    }
    push_brought(
        alloc,
        modules.most,
        &*modules,
        &inside,
        here.subs.as_slice(),
        out,
    )
}

/// The names of the data nodes of a block, in the order of the text, through its `uses`; one that
/// leads to itself brings none.
pub fn child_names<'a, 'm>(
    alloc: Global,
    modules: &Modules<'a>,
    above: &'a Above<'a, 'm>,
    block: &'a [Stmt],
) -> Result<Row<Text>, Memory>
    ensures { IfOk result (λ names. names
        ≡ child_names (children modules.now.most modules.now.all.now (stack above.now) block.now)) }
{
    let mut out = Row::new(alloc);
    modules.looks.visit(looked_at(block))?;
    for stmt in block {
        match block_part(stmt) {
            Part::Node => out.push(Text::from_str(alloc, argument(stmt))?)?,
            Part::Uses => {
                modules.looks.visit(1)?;
                if let Some(found) = grouping(&*modules, above, stmt) {
                    push_grouping(alloc, &*modules, &found, &mut out)?;
                }
            },
            Part::Nothing => {},
        }
    }
    Ok(out)
}
