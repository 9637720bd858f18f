//! Names that are there already.
ghost use Rattle.std.specs.Prelude.{◌≡◌, List, [], ◌∷◌, IfOk, option_map, is_some, codes};
ghost use Rattle.std.specs.List.{find, list_any};
ghost use Rattle.orc_types.specs.Statements.{keyword, argument};
ghost use Rattle.orc_modules.specs.Scopes.{in_scope, imports_as};
ghost use Rattle.orc_modules.specs.Stack.{stack, place, modules_of};
ghost use Rattle.orc_modules.specs.Statements.{defines, sub_text};
ghost use Rattle.orc_statements.specs.Cuts.{words};
ghost use Rattle.orc_statements.specs.Names.{fault_if, contains_text, outer, stands_once, repeated, is_defined, is_type_name_taken, is_own_prefix, is_prefix_taken, duplicate_prefix, names_before, repeated_node, repeated_among, duplicate_key, duplicate};
ghost use Rattle.orc_statements.specs.declared.fault.SchemaFault.TheVariants.{Duplicate};
ghost use Rattle.orc_statements.specs.Meeting.{Meets};
ghost use Rattle.orc_statements.specs.inside.Seen.{is_seen, HasSame};

use crate::SchemaFault;
use crate::cuts::words;
use crate::names::is_built_in;
use crate::seen::Seen;
use orc_modules::{
    Above, Looks, Modules, Place, Word, child_names, defines, imports_as, in_scope, is_own,
    module_around, sub_text,
};
use orc_text::{Memory, Row, Text};
use orc_types::{argument, has, is_left_out};
use orc_yang::Stmt;
use std::alloc::Global;

// Whether a block has one of this statement at most.
fn stands_once(word: Word) -> bool
    ensures { result ≡ stands_once word }
{
    match word {
        Word::YangVersion
        | Word::Namespace
        | Word::Prefix
        | Word::TypeName
        | Word::Default
        | Word::Mandatory
        | Word::Config
        | Word::Key
        | Word::MinElements
        | Word::MaxElements
        | Word::OrderedBy => true,
        _ => false,
    }
}

// A second statement of its keyword.
fn repeated(alloc: Global, here: &Place<'_, '_>) -> Result<(), SchemaFault>
    ensures { Meets (repeated (place here.now)) result }
{
    if has(here.here.keyword.as_str(), here.before) {
        return Err(SchemaFault::Duplicate {
            name: here.here.keyword.copy(alloc)?,
        });
    }
    Ok(())
}

// Whether a block has a definition of this keyword and name.
fn any_defines(keyword: &str, name: &str, block: &[Stmt]) -> bool
    ensures { result ≡ list_any (defines keyword.now name.now) block.now }
{
    block.iter().any(|stmt| defines(keyword, name, stmt))
}

// Whether the name is defined in a block further out.
fn is_defined_outside(looks: &Looks, keyword: &str, name: &str, above: &Above<'_, '_>) -> bool
    ensures { result ≡ is_some (in_scope keyword.now name.now (outer (stack above.now))) }
{
    match above {
        Above::Top => false,
        Above::Module(_) => false,
        Above::Under(_, further) => in_scope(looks, keyword, name, *further).is_some(),
        Above::Indexed(_, further) => in_scope(looks, keyword, name, *further).is_some(),
    }
}

// Whether a definition of this keyword and name is there already.
fn is_defined(looks: &Looks, here: &Place<'_, '_>) -> bool
    ensures { result ≡ is_defined (place here.now) }
{
    let keyword = here.here.keyword.as_str();
    let name = argument(here.here);
    any_defines(keyword, name, here.before) || is_defined_outside(looks, keyword, name, here.above)
}

// Whether the name of a typedef is taken.
fn is_type_name_taken(alloc: Global, looks: &Looks, here: &Place<'_, '_>) -> Result<bool, Memory>
    ensures { IfOk result (λ taken. taken ≡ is_type_name_taken (place here.now)) }
{
    if is_defined(looks, here) {
        return Ok(true);
    }
    let name = argument(here.here);
    if is_built_in(alloc, name)? {
        return Ok(true);
    }
    Ok(is_left_out(name))
}

// Whether a prefix is the module's own.
fn is_own_prefix(here: &Place<'_, '_>, prefix: &str) -> bool
    ensures { result ≡ is_own_prefix (place here.now) prefix.now }
{
    match module_around(here.above) {
        Some(module) => is_own(prefix, module),
        None => false,
    }
}

// Whether a statement imports a module under this prefix.
fn any_imports_as(prefix: &str, block: &[Stmt]) -> bool
    ensures { result ≡ list_any (imports_as prefix.now) block.now }
{
    block.iter().any(|stmt| imports_as(prefix, stmt))
}

// Whether the prefix of an import is taken.
fn is_prefix_taken(here: &Place<'_, '_>, prefix: &str) -> bool
    ensures { result ≡ is_prefix_taken (place here.now) prefix.now }
{
    is_own_prefix(here, prefix) || any_imports_as(prefix, here.before)
}

// The first of the names that was seen.
fn first_seen<'a>(seen: &Seen, names: &'a [Text]) -> Option<&'a Text>
    ensures { option_map (λ name. name.now) result ≡ find (is_seen seen.now) names.now }
{
    names.iter().find(|name| seen.has(*name))
}

// Ok, or that one of the names was seen.
fn none_seen(alloc: Global, seen: &Seen, names: &[Text]) -> Result<(), SchemaFault>
    ensures { Meets (option_map Duplicate (find (is_seen seen.now) names.now)) result }
{
    match first_seen(seen, names) {
        Some(name) => Err(SchemaFault::Duplicate {
            name: name.copy(alloc)?,
        }),
        None => Ok(()),
    }
}

// A name that a statement gives to its block, and that the block has before it.
fn repeated_node(
    alloc: Global,
    modules: &Modules<'_>,
    here: &Place<'_, '_>,
    earlier: &Seen,
) -> Result<(), SchemaFault>
    requires { HasSame earlier.now (names_before (modules_of modules.now) (place here.now)) }
    ensures { Meets (option_map Duplicate (repeated_node (modules_of modules.now) (place here.now))) result }
{
    let names = child_names(
        alloc,
        &*modules,
        here.above,
        std::slice::from_ref(here.here),
    )?;
    none_seen(alloc, earlier, names.as_slice())
}

// The first of the names that stands among those before it.
fn repeated_among<'a>(alloc: Global, names: &'a [Text]) -> Result<Option<&'a Text>, Memory>
    ensures { IfOk result (λ found. option_map (λ name. name.now) found ≡ repeated_among [] names.now) }
{
    let mut earlier = Seen::new(alloc);
    for name in names {
        if earlier.has(name) {
            return Ok(Some(name));
        }
        earlier.add(name.copy(alloc)?)?;
    }
    Ok(None)
}

// A second `key`, or a key that is named twice.
fn duplicate_key(alloc: Global, here: &Place<'_, '_>) -> Result<(), SchemaFault>
    ensures { Meets (duplicate_key (place here.now)) result }
{
    if let Err(fault) = repeated(alloc, here) {
        return Err(fault);
    }
    let names = words(alloc, argument(here.here))?;
    match repeated_among(alloc, names.as_slice())? {
        Some(name) => Err(SchemaFault::Duplicate {
            name: name.copy(alloc)?,
        }),
        None => Ok(()),
    }
}

// Ok, or that a name is there already.
fn duplicate_if(alloc: Global, faulty: bool, name: &str) -> Result<(), SchemaFault>
    ensures { Meets (fault_if faulty (Duplicate name.now)) result }
{
    if faulty {
        return Err(SchemaFault::Duplicate {
            name: Text::from_str(alloc, name)?,
        });
    }
    Ok(())
}

// The prefix of an import that is taken.
fn duplicate_import(alloc: Global, here: &Place<'_, '_>) -> Result<(), SchemaFault>
    ensures { Meets (duplicate_prefix (place here.now)) result }
{
    let prefix = sub_text("prefix", here.here);
    let taken = has("prefix", here.here.subs.as_slice()) && is_prefix_taken(here, prefix);
    duplicate_if(alloc, taken, prefix)
}

// A name that is there already, in a block that has these names before the statement.
pub(crate) fn duplicate(
    alloc: Global,
    modules: &Modules<'_>,
    here: &Place<'_, '_>,
    word: Word,
    earlier: &Seen,
) -> Result<(), SchemaFault>
    requires { HasSame earlier.now (names_before (modules_of modules.now) (place here.now)) }
    ensures { Meets (duplicate (modules_of modules.now) (place here.now) word) result }
{
    let name = argument(here.here);
    match word {
        Word::Module => duplicate_if(alloc, any_defines("module", name, here.before), name),
        Word::Import => duplicate_import(alloc, here),
        Word::Typedef => duplicate_if(alloc, is_type_name_taken(alloc, modules.looks, here)?, name),
        Word::Grouping => duplicate_if(alloc, is_defined(modules.looks, here), name),
        Word::Container | Word::List | Word::Leaf | Word::LeafList | Word::Uses => {
            repeated_node(alloc, modules, here, earlier)
        },
        Word::Key => duplicate_key(alloc, here),
        _ => {
            if stands_once(word) {
                repeated(alloc, here)
            } else {
                Ok(())
            }
        },
    }
}
