//! The first fault of a `type` and below it.
ghost use Rattle.std.specs.Prelude.{◌≡◌, ◌||◌, [], Some, not, codes, option_map};
ghost use Rattle.std.specs.List.{find};
ghost use Rattle.orc_types.specs.Statements.{keyword, is_a, is_idle, none_below};
ghost use Rattle.orc_types.specs.Types.{restriction_fault, fault_at, type_fault};
ghost use Rattle.orc_types.specs.declared.types.Base.TheVariants.{Leafref};
ghost use Rattle.orc_modules.specs.Stack.{stack, place, modules_of};
ghost use Rattle.orc_statements.specs.declared.fault.SchemaFault.TheVariants.{Unsupported};
ghost use Rattle.orc_statements.specs.Faults.{of_type_fault, strange_prefix, leafref_fault_at, leafref_fault, below_enum, first_below_enum, unclear_at, unclear_fault, base_fault, named_fault, type_fault_here};
ghost use Rattle.orc_statements.specs.Meeting.{Meets};

use crate::SchemaFault;
use crate::fault::of_type;
use crate::reference::first_strange;
use orc_modules::{Above, Modules, Named, Place, Word, base_of, module_around, type_looks};
use orc_text::Memory;
use orc_types::{Base, TypeFault, argument, has, is_a, is_idle, is_leafref_path, type_of};
use orc_yang::Stmt;
use std::alloc::Global;

// The first fault of a `type` whose name stands for this base.
fn plain_fault(alloc: Global, base: &Base, stmt: &Stmt) -> Result<(), SchemaFault>
    ensures { Meets (option_map of_type_fault (type_fault base.now stmt.now)) result }
{
    match type_of(alloc, base, stmt) {
        Ok(_) => Ok(()),
        Err(fault) => Err(of_type(fault)),
    }
}

// A path with a prefix that no module has.
fn strange_prefix<'a, 'm>(
    alloc: Global,
    modules: &Modules<'_>,
    above: &'a Above<'a, 'm>,
    stmt: &Stmt,
) -> Result<(), SchemaFault>
    ensures { Meets (strange_prefix (modules_of modules.now) (stack above.now) stmt.now) result }
{
    if !is_a("path", stmt) {
        return Ok(());
    }
    if !is_leafref_path(argument(stmt)) {
        return Ok(());
    }
    match first_strange(alloc, modules, module_around(above), argument(stmt))? {
        Some(name) => Err(SchemaFault::Unknown { name }),
        None => Ok(()),
    }
}

// The first statement with an effect.
fn first_with_effect(stmts: &[Stmt]) -> Option<&Stmt>
    ensures { option_map (λ stmt. stmt.now) result
        ≡ find (λ stmt. not (is_idle (keyword stmt))) stmts.now }
{
    stmts.iter().find(|stmt| !is_idle(stmt.keyword.as_str()))
}

// What is at fault below a statement that has none with an effect.
fn none_below(alloc: Global, stmt: &Stmt) -> Result<(), SchemaFault>
    ensures { Meets (option_map of_type_fault (none_below stmt.now)) result }
{
    match first_with_effect(stmt.subs.as_slice()) {
        Some(sub) => Err(SchemaFault::Unsupported {
            keyword: sub.keyword.copy(alloc)?,
        }),
        None => Ok(()),
    }
}

// What is at fault at a `path`, after others of its block.
fn path_fault(alloc: Global, before: &[Stmt], stmt: &Stmt) -> Result<(), SchemaFault>
    ensures { Meets (option_map of_type_fault (restriction_fault Leafref before.now stmt.now)) result }
{
    if has(stmt.keyword.as_str(), before) {
        return Err(SchemaFault::Duplicate {
            name: stmt.keyword.copy(alloc)?,
        });
    }
    if !is_leafref_path(argument(stmt)) {
        return Err(SchemaFault::BadArgument {
            keyword: stmt.keyword.copy(alloc)?,
        });
    }
    none_below(alloc, stmt)
}

// What is at fault at a statement below a leafref's `type`, after others of its block.
fn below_leafref(alloc: Global, before: &[Stmt], stmt: &Stmt) -> Result<(), SchemaFault>
    ensures { Meets (option_map of_type_fault (fault_at Leafref before.now stmt.now)) result }
{
    if is_idle(stmt.keyword.as_str()) {
        Ok(())
    } else if is_a("path", stmt) {
        path_fault(alloc, before, stmt)
    } else {
        Err(SchemaFault::Unsupported {
            keyword: stmt.keyword.copy(alloc)?,
        })
    }
}

// What is at fault at a statement below a leafref's `type`; the prefixes of its path count too.
fn leafref_fault_at<'a, 'm>(
    alloc: Global,
    modules: &Modules<'_>,
    above: &'a Above<'a, 'm>,
    before: &[Stmt],
    stmt: &Stmt,
) -> Result<(), SchemaFault>
    ensures { Meets (leafref_fault_at (modules_of modules.now) (stack above.now) before.now stmt.now) result }
{
    match strange_prefix(alloc, modules, above, stmt) {
        Err(fault) => Err(fault),
        Ok(()) => below_leafref(alloc, before, stmt),
    }
}

// The first fault below a leafref's `type`.
fn leafref_fault<'a, 'm>(
    alloc: Global,
    modules: &Modules<'_>,
    above: &'a Above<'a, 'm>,
    stmts: &[Stmt],
) -> Result<(), SchemaFault>
    ensures { Meets (leafref_fault (modules_of modules.now) (stack above.now) [] stmts.now) result }
{
    for (at, stmt) in stmts.iter().enumerate() {
        if let Err(fault) = leafref_fault_at(alloc, modules, above, &stmts[..at], stmt) {
            return Err(fault);
        }
    }
    Ok(())
}

// The first fault of a leafref's `type`, and below it.
fn whole_leafref_fault<'a, 'm>(
    alloc: Global,
    modules: &Modules<'_>,
    above: &'a Above<'a, 'm>,
    stmt: &Stmt,
) -> Result<(), SchemaFault>
    ensures { Meets (base_fault (modules_of modules.now) (stack above.now) stmt.now Leafref) result }
{
    if !has("path", stmt.subs.as_slice()) {
        return Err(SchemaFault::BadArgument {
            keyword: stmt.keyword.copy(alloc)?,
        });
    }
    leafref_fault(alloc, modules, above, stmt.subs.as_slice())
}

// The first fault of any `type`, and below it.
fn base_fault<'a, 'm>(
    alloc: Global,
    modules: &Modules<'_>,
    above: &'a Above<'a, 'm>,
    stmt: &Stmt,
    base: &Base,
) -> Result<(), SchemaFault>
    ensures { Meets (base_fault (modules_of modules.now) (stack above.now) stmt.now base.now) result }
{
    match base {
        Base::Leafref => whole_leafref_fault(alloc, modules, above, stmt),
        _ => plain_fault(alloc, base, stmt),
    }
}

// A statement that may not stand where it stands.
fn unsupported_at(alloc: Global, stmt: &Stmt) -> Result<(), SchemaFault>
    ensures { Meets (Some (Unsupported (keyword stmt.now))) result }
{
    Err(SchemaFault::Unsupported {
        keyword: stmt.keyword.copy(alloc)?,
    })
}

// What is at fault at a statement below an `enum`, whatever its type is.
fn below_enum(alloc: Global, stmt: &Stmt) -> Result<(), SchemaFault>
    ensures { Meets (below_enum stmt.now) result }
{
    if is_idle(stmt.keyword.as_str()) {
        Ok(())
    } else if is_a("value", stmt) {
        none_below(alloc, stmt)
    } else {
        unsupported_at(alloc, stmt)
    }
}

// The first fault below an `enum`, whatever its type is.
fn first_below_enum(alloc: Global, stmts: &[Stmt]) -> Result<(), SchemaFault>
    ensures { Meets (first_below_enum stmts.now) result }
{
    for stmt in stmts {
        if let Err(fault) = below_enum(alloc, stmt) {
            return Err(fault);
        }
    }
    Ok(())
}

// Whether a statement is a `range` or a `length`.
fn is_range(stmt: &Stmt) -> bool
    ensures { result ≡ (is_a (codes "range") stmt.now || is_a (codes "length") stmt.now) }
{
    is_a("range", stmt) || is_a("length", stmt)
}

// What is at fault at a statement below a `type` whose typedef is at fault itself, or leads to one that is.
fn unclear_at(alloc: Global, stmt: &Stmt) -> Result<(), SchemaFault>
    ensures { Meets (unclear_at stmt.now) result }
{
    if is_idle(stmt.keyword.as_str()) {
        Ok(())
    } else if is_range(stmt) {
        none_below(alloc, stmt)
    } else if is_a("enum", stmt) {
        first_below_enum(alloc, stmt.subs.as_slice())
    } else {
        unsupported_at(alloc, stmt)
    }
}

// The first fault below a `type` whose typedef is at fault itself.
fn unclear_fault(alloc: Global, stmts: &[Stmt]) -> Result<(), SchemaFault>
    ensures { Meets (unclear_fault stmts.now) result }
{
    for stmt in stmts {
        if let Err(fault) = unclear_at(alloc, stmt) {
            return Err(fault);
        }
    }
    Ok(())
}

// The first fault of a `type` by what its name stands for.
fn named_fault<'a, 'm>(
    alloc: Global,
    modules: &Modules<'_>,
    above: &'a Above<'a, 'm>,
    stmt: &Stmt,
    named: &Named,
) -> Result<(), SchemaFault>
    ensures { Meets (named_fault (modules_of modules.now) (stack above.now) stmt.now named.now) result }
{
    match named {
        Named::Means(meant) => base_fault(alloc, modules, above, stmt, &meant.base),
        Named::Endless => unclear_fault(alloc, stmt.subs.as_slice()),
        Named::Unclear => unclear_fault(alloc, stmt.subs.as_slice()),
    }
}

// The first fault of a `type` and below it, its own name left out.
pub(crate) fn type_fault_here(
    alloc: Global,
    modules: &Modules<'_>,
    here: &Place<'_, '_>,
    word: Word,
) -> Result<(), SchemaFault>
    ensures { Meets (type_fault_here (modules_of modules.now) (place here.now) word) result }
{
    match word {
        Word::TypeName => {
            let named = base_of(alloc, &*modules, here.above, here.here)?;
            modules
                .looks
                .visit(type_looks(here.here).saturating_add(named.weight()))?;
            named_fault(alloc, modules, here.above, here.here, &named)
        },
        _ => Ok(()),
    }
}
