//! Names that nothing has.
ghost use Rattle.std.specs.Prelude.{◌≡◌, List, [], ◌∷◌, IfOk, option_map, is_some};
ghost use Rattle.std.specs.List.{find};
ghost use Rattle.orc_types.specs.Statements.{keyword, argument};
ghost use Rattle.orc_modules.specs.Stack.{stack, place, modules_of};
ghost use Rattle.orc_statements.specs.Cuts.{words};
ghost use Rattle.orc_types.specs.BuiltIn.{built_in};
ghost use Rattle.orc_statements.specs.declared.fault.SchemaFault.TheVariants.{Unknown};
ghost use Rattle.orc_statements.specs.Names.{fault_if, is_unknown_grouping, is_unknown_type, leaf_around, is_unknown_key, is_complete, unknown_key, unknown};
ghost use Rattle.orc_statements.specs.Arguments.{typed};
ghost use Rattle.orc_statements.specs.Meeting.{Meets};

use crate::SchemaFault;
use crate::cuts::words;
use crate::gaps::is_incomplete;
use orc_modules::{Above, Modules, Place, Typed, Word, grouping, leaf_type, meaning};
use orc_path::is_identifier;
use orc_text::{Memory, Text};
use orc_types::{argument, built_in, is_reference};
use orc_yang::Stmt;
use std::alloc::Global;

// A copy of a statement's argument.
pub(crate) fn argument_text(alloc: Global, stmt: &Stmt) -> Result<Text, Memory>
    ensures { IfOk result (λ text. text ≡ argument stmt.now) }
{
    Text::from_str(alloc, argument(stmt))
}

// Whether a `uses` names no grouping.
fn is_unknown_grouping(modules: &Modules<'_>, here: &Place<'_, '_>) -> bool
    ensures { result ≡ is_unknown_grouping (modules_of modules.now) (place here.now) }
{
    is_reference(argument(here.here)) && grouping(&*modules, here.above, here.here).is_none()
}

// Whether this is the name of a built-in type.
pub(crate) fn is_built_in(alloc: Global, name: &str) -> Result<bool, Memory>
    ensures { IfOk result (λ found. found ≡ is_some (built_in name.now)) }
{
    Ok(built_in(alloc, name)?.is_some())
}

// Whether a `type` names neither a built-in type nor a typedef.
fn is_unknown_type(
    alloc: Global,
    modules: &Modules<'_>,
    here: &Place<'_, '_>,
) -> Result<bool, Memory>
    ensures { IfOk result (λ unknown. unknown ≡ is_unknown_type (modules_of modules.now) (place here.now)) }
{
    let name = argument(here.here);
    if !is_reference(name) {
        return Ok(false);
    }
    if is_built_in(alloc, name)? {
        return Ok(false);
    }
    Ok(meaning(modules, "typedef", name, here.above).is_none())
}

// The type of the leaf of this name that the statement around has.
pub(crate) fn leaf_around(
    alloc: Global,
    modules: &Modules<'_>,
    above: &Above<'_, '_>,
    name: &str,
) -> Result<Option<Option<Typed>>, Memory>
    ensures { IfOk result (λ found. found ≡ option_map (λ c. typed (modules_of modules.now) c.above c.here)
        (leaf_around (modules_of modules.now) (stack above.now) name.now)) }
{
    match above {
        Above::Top => Ok(None),
        Above::Module(stmt) | Above::Under(stmt, _) => {
            leaf_type(alloc, &*modules, above, stmt.subs.as_slice(), name)
        },
        Above::Indexed(block, _) => leaf_type(
            alloc,
            &*modules,
            above,
            block.here().subs.as_slice(),
            name,
        ),
    }
}

// Whether a name of a key is that of no leaf of the list around.
fn is_unknown_key(
    alloc: Global,
    modules: &Modules<'_>,
    above: &Above<'_, '_>,
    name: &str,
) -> Result<bool, Memory>
    ensures { IfOk result (λ unknown. unknown ≡ is_unknown_key (modules_of modules.now) (stack above.now) name.now) }
{
    if !is_identifier(name) {
        return Ok(false);
    }
    Ok(leaf_around(alloc, modules, above, name)?.is_none())
}

// Whether each `uses` of the statement around leads to its groupings.
fn is_complete(alloc: Global, modules: &Modules<'_>, above: &Above<'_, '_>) -> Result<bool, Memory>
    ensures { IfOk result (λ complete. complete ≡ is_complete (modules_of modules.now) (stack above.now)) }
{
    match above {
        Above::Top => Ok(true),
        Above::Module(stmt) | Above::Under(stmt, _) => {
            Ok(!is_incomplete(alloc, &*modules, above, *stmt)?)
        },
        Above::Indexed(block, _) => Ok(!is_incomplete(alloc, &*modules, above, block.here())?),
    }
}

// The first of the keys that names no leaf.
fn first_unknown_key<'a>(
    alloc: Global,
    modules: &Modules<'_>,
    above: &Above<'_, '_>,
    names: &'a [Text],
) -> Result<Option<&'a Text>, Memory>
    ensures { IfOk result (λ found. option_map (λ name. name.now) found
        ≡ find (is_unknown_key (modules_of modules.now) (stack above.now)) names.now) }
{
    for name in names {
        if is_unknown_key(alloc, modules, above, name.as_str())? {
            return Ok(Some(name));
        }
    }
    Ok(None)
}

// A key that names no leaf of the list around.
fn unknown_key(
    alloc: Global,
    modules: &Modules<'_>,
    here: &Place<'_, '_>,
) -> Result<(), SchemaFault>
    ensures { Meets (option_map Unknown (unknown_key (modules_of modules.now) (place here.now))) result }
{
    if !is_complete(alloc, modules, here.above)? {
        return Ok(());
    }
    let names = words(alloc, argument(here.here))?;
    match first_unknown_key(alloc, modules, here.above, names.as_slice())? {
        Some(name) => Err(SchemaFault::Unknown {
            name: name.copy(alloc)?,
        }),
        None => Ok(()),
    }
}

// Ok, or that nothing has the name that is the statement's argument.
fn unknown_if(alloc: Global, faulty: bool, stmt: &Stmt) -> Result<(), SchemaFault>
    ensures { Meets (fault_if faulty (Unknown (argument stmt.now))) result }
{
    if faulty {
        return Err(SchemaFault::Unknown {
            name: argument_text(alloc, stmt)?,
        });
    }
    Ok(())
}

// A name that nothing has.
pub(crate) fn unknown(
    alloc: Global,
    modules: &Modules<'_>,
    here: &Place<'_, '_>,
    word: Word,
) -> Result<(), SchemaFault>
    ensures { Meets (unknown (modules_of modules.now) (place here.now) word) result }
{
    match word {
        Word::Uses => unknown_if(alloc, is_unknown_grouping(modules, here), here.here),
        Word::TypeName => unknown_if(alloc, is_unknown_type(alloc, modules, here)?, here.here),
        Word::Key => unknown_key(alloc, modules, here),
        _ => Ok(()),
    }
}
