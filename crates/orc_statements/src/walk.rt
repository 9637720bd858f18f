//! The first fault of the statements, in the order of the text.
ghost use Rattle.std.specs.Prelude.{◌≡◌, List, [], ◌∷◌, ◌++◌, OnOk};
ghost use Rattle.orc_modules.specs.Children.{children, child_names};
ghost use Rattle.orc_modules.specs.Stack.{stack, place, modules_of};
ghost use Rattle.orc_modules.specs.Statements.{places_below, module_places};
ghost use Rattle.orc_statements.specs.Faults.{fault_here, first_some, module_fault};
ghost use Rattle.orc_statements.specs.Meeting.{Meets};
ghost use Rattle.orc_statements.specs.inside.Seen.{HasAllToo};

use crate::SchemaFault;
use crate::faults::fault_here;
use crate::seen::Seen;
use orc_modules::{Above, Block, Modules, Place, Word, child_names, is_read, word_of};
use orc_text::{Memory, Text};
use orc_yang::Stmt;
use std::alloc::Global;

// Adds copies of texts.
fn push_all(alloc: Global, more: &[Text], names: &mut Seen) -> Result<(), Memory>
    ensures { OnOk result (HasAllToo names.old more.now names.new) }
{
    for name in more {
        names.add(name.copy(alloc)?)?;
    }
    Ok(())
}

// Adds the names of the nodes that a statement gives to its block.
fn add_names<'a, 'm>(
    alloc: Global,
    modules: &Modules<'a>,
    above: &'a Above<'a, 'm>,
    stmt: &'a Stmt,
    names: &mut Seen,
) -> Result<(), Memory>
    ensures { OnOk result (HasAllToo names.old
        (child_names (children modules.now.most modules.now.all.now (stack above.now) (stmt.now ∷ []))) names.new) }
{
    let more = child_names(alloc, &*modules, above, std::slice::from_ref(stmt))?;
    push_all(alloc, more.as_slice(), names)
}

// The first fault below a statement, which stands first in the list.
fn first_fault_below<'a, 'm>(
    alloc: Global,
    modules: &Modules<'a>,
    stmt: &'a Stmt,
    above: &'a Above<'a, 'm>,
) -> Result<(), SchemaFault>
    ensures { Meets (first_some (fault_here (modules_of modules.now))
        (places_below stmt.now (stack above.now))) result }
{
    let parent = word_of(stmt.keyword.as_str());
    let block = stmt.subs.as_slice();
    let mut names = Seen::new(alloc);
    for (at, here) in block.iter().enumerate() {
        if is_read(parent, here) {
            let before = &block[..at];
            if let Err(fault) = fault_here(
                alloc,
                &*modules,
                &Place {
                    above,
                    before,
                    here,
                },
                &names,
            ) {
                return Err(fault);
            }
            if let Err(fault) = first_fault_below(
                alloc,
                &*modules,
                here,
                &Above::Under(here, above),
            ) {
                return Err(fault);
            }
        }
        add_names(alloc, &*modules, above, here, &mut names)?;
    }
    Ok(())
}

// The first fault below a module.
fn first_fault_in<'a>(
    alloc: Global,
    modules: &Modules<'a>,
    stmt: &'a Stmt,
) -> Result<(), SchemaFault>
    ensures { Meets (first_some (fault_here (modules_of modules.now)) (places_below stmt.now (stmt.now ∷ []))) result }
{
    let block = Block::of(alloc, stmt)?;
    first_fault_below(alloc, &*modules, stmt, &Above::Indexed(&block, &Above::Top))
}

/// The first fault of the modules' statements. After a fault `modules.looks` stands at the faulty
/// statement, which for one below a `type` is that `type`.
pub fn first_fault(alloc: Global, modules: &Modules<'_>) -> Result<(), SchemaFault>
    ensures { Meets (first_some (fault_here (modules_of modules.now)) (module_places [] modules.now.all.now)) result }
{
    let all = modules.all;
    let mut names = Seen::new(alloc);
    for (at, here) in all.iter().enumerate() {
        modules.looks.enter(at);
        let before = &all[..at];
        let place = Place {
            above: &Above::Top,
            before,
            here,
        };
        if let Err(fault) = fault_here(alloc, &*modules, &place, &names) {
            return Err(fault);
        }
        if let Err(fault) = first_fault_in(alloc, &*modules, here) {
            return Err(fault);
        }
        add_names(alloc, &*modules, &Above::Top, here, &mut names)?;
    }
    Ok(())
}
