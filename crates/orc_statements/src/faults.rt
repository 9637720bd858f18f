//! The fault at one statement.
ghost use Rattle.std.specs.Prelude.{◌≡◌, IfOk, option_map};
ghost use Rattle.std.specs.Option.{option_or};
ghost use Rattle.orc_modules.specs.Stack.{stack, place, modules_of};
ghost use Rattle.orc_statements.specs.declared.fault.SchemaFault.TheVariants.{Loop};
ghost use Rattle.orc_types.specs.Statements.{argument};
ghost use Rattle.orc_statements.specs.Names.{fault_if, unknown, duplicate, names_before};
ghost use Rattle.orc_statements.specs.Arguments.{bad_argument};
ghost use Rattle.orc_statements.specs.Faults.{innermost, is_leafref, is_leafref_type, has_no_default, unsupported, no_key, loops, own_fault_here, fault_here};
ghost use Rattle.orc_statements.specs.Meeting.{Meets};
ghost use Rattle.orc_statements.specs.inside.Seen.{HasSame};

use crate::SchemaFault;
use crate::arguments::bad_argument;
use crate::duplicates::duplicate;
use crate::names::{argument_text, unknown};
use crate::placement::stands_below;
use crate::seen::Seen;
use crate::type_faults::type_fault_here;
use crate::typing::typed_around;
use orc_modules::{Above, Modules, Place, Typed, Word, is_type_loop, is_uses_loop, word_of};
use orc_text::Memory;
use orc_types::{LeafType, has, is_a};
use orc_yang::Stmt;
use std::alloc::Global;

// The innermost of the statements around.
fn innermost<'a, 'm>(above: &'a Above<'a, 'm>) -> Option<&'a Stmt>
    ensures { option_map (λ s. s.now) result ≡ innermost (stack above.now) }
{
    match above {
        Above::Top => None,
        Above::Module(stmt) => Some(*stmt),
        Above::Under(stmt, _) => Some(*stmt),
        Above::Indexed(block, _) => Some(block.here()),
    }
}

fn is_leafref_type(of_type: &LeafType) -> bool
    ensures { result ≡ is_leafref_type of_type.now }
{
    match of_type {
        LeafType::Leafref(_) => true,
        _ => false,
    }
}

fn is_leafref(typed: &Option<Typed>) -> bool
    ensures { result ≡ is_leafref typed.now }
{
    match typed {
        Some(known) => is_leafref_type(&known.of_type),
        None => false,
    }
}

// Whether the statement is the default of a leafref.
fn has_no_default(
    alloc: Global,
    modules: &Modules<'_>,
    here: &Place<'_, '_>,
    word: Word,
) -> Result<bool, Memory>
    ensures { IfOk result (λ faulty. faulty ≡ has_no_default (modules_of modules.now) (place here.now) word) }
{
    match word {
        Word::Default => Ok(is_leafref(&typed_around(alloc, modules, here.above)?)),
        _ => Ok(false),
    }
}

// A statement that may not stand where it stands.
fn unsupported(
    alloc: Global,
    modules: &Modules<'_>,
    here: &Place<'_, '_>,
    word: Word,
) -> Result<(), SchemaFault>
    ensures { Meets (unsupported (modules_of modules.now) (place here.now) word) result }
{
    if !stands_below(innermost(here.above), word) {
        return Err(SchemaFault::Unsupported {
            keyword: here.here.keyword.copy(alloc)?,
        });
    }
    match has_no_default(alloc, modules, here, word)? {
        true => Err(SchemaFault::Unsupported {
            keyword: here.here.keyword.copy(alloc)?,
        }),
        false => Ok(()),
    }
}

// A list without a key.
fn no_key(alloc: Global, here: &Place<'_, '_>, word: Word) -> Result<(), SchemaFault>
    ensures { Meets (no_key (place here.now) word) result }
{
    match word {
        Word::List => {
            if has("key", here.here.subs.as_slice()) {
                Ok(())
            } else {
                Err(SchemaFault::NoKey {
                    list: argument_text(alloc, here.here)?,
                })
            }
        },
        _ => Ok(()),
    }
}

// Ok, or that the statement's name leads back to where it stands.
fn loop_if(alloc: Global, faulty: bool, stmt: &Stmt) -> Result<(), SchemaFault>
    ensures { Meets (fault_if faulty (Loop (argument stmt.now))) result }
{
    if faulty {
        return Err(SchemaFault::Loop {
            name: argument_text(alloc, stmt)?,
        });
    }
    Ok(())
}

// A typedef or a grouping that leads back to itself.
fn loops(
    alloc: Global,
    modules: &Modules<'_>,
    here: &Place<'_, '_>,
    word: Word,
) -> Result<(), SchemaFault>
    ensures { Meets (loops (modules_of modules.now) (place here.now) word) result }
{
    match word {
        Word::Uses => {
            let faulty = is_uses_loop(alloc, &*modules, here.above, here.here)?;
            loop_if(alloc, faulty, here.here)
        },
        Word::TypeName => {
            let faulty = is_type_loop(alloc, &*modules, here.above, here.here)?;
            loop_if(alloc, faulty, here.here)
        },
        _ => Ok(()),
    }
}

// The fault at a statement past those of its place, its names and its argument.
fn last_fault(
    alloc: Global,
    modules: &Modules<'_>,
    here: &Place<'_, '_>,
    word: Word,
) -> Result<(), SchemaFault>
    ensures { Meets (option_or (bad_argument (modules_of modules.now) (place here.now) word)
        (option_or (no_key (place here.now) word) (loops (modules_of modules.now) (place here.now) word))) result }
{
    match bad_argument(alloc, modules, here, word) {
        Err(fault) => Err(fault),
        Ok(()) => match no_key(alloc, here, word) {
            Err(fault) => Err(fault),
            Ok(()) => loops(alloc, modules, here, word),
        },
    }
}

// The fault at a statement: the lowest number.
fn own_fault_here(
    alloc: Global,
    modules: &Modules<'_>,
    here: &Place<'_, '_>,
    word: Word,
    earlier: &Seen,
) -> Result<(), SchemaFault>
    requires { HasSame earlier.now (names_before (modules_of modules.now) (place here.now)) }
    ensures { Meets (own_fault_here (modules_of modules.now) (place here.now) word) result }
{
    match unsupported(alloc, modules, here, word) {
        Err(fault) => Err(fault),
        Ok(()) => match unknown(alloc, modules, here, word) {
            Err(fault) => Err(fault),
            Ok(()) => match duplicate(alloc, modules, here, word, earlier) {
                Err(fault) => Err(fault),
                Ok(()) => last_fault(alloc, modules, here, word),
            },
        },
    }
}

// How many statements are looked at for the prefixes of a block's imports.
fn imports_looked_at(block: &[Stmt]) -> usize {
    let mut looked = block.len();
    for stmt in block {
        if is_a("import", stmt) {
            looked = looked.saturating_add(stmt.subs.len());
        }
    }
    looked
}

// How many are looked at for the prefix of the module around.
fn own_looked_at<'a, 'm>(above: &'a Above<'a, 'm>) -> usize {
    match innermost(above) {
        Some(stmt) => stmt.subs.len(),
        None => 0,
    }
}

// How many statements are looked at for the name, or the prefix, that one gives.
fn looked_back(here: &Place<'_, '_>, word: Word) -> usize {
    match word {
        Word::Module | Word::Typedef | Word::Grouping => here.before.len(),
        Word::Import => imports_looked_at(here.before).saturating_add(own_looked_at(here.above)),
        _ => 0,
    }
}

// The fault at a statement, and below it where it is a `type`. The block has these names before it.
pub(crate) fn fault_here(
    alloc: Global,
    modules: &Modules<'_>,
    here: &Place<'_, '_>,
    earlier: &Seen,
) -> Result<(), SchemaFault>
    requires { HasSame earlier.now (names_before (modules_of modules.now) (place here.now)) }
    ensures { Meets (fault_here (modules_of modules.now) (place here.now)) result }
{
    let word = word_of(here.here.keyword.as_str());
    modules.looks.stand_at(here.here.at);
    modules.looks.visit(1)?;
    modules.looks.pass(looked_back(here, word));
    match own_fault_here(alloc, modules, here, word, earlier) {
        Err(fault) => Err(fault),
        Ok(()) => type_fault_here(alloc, modules, here, word),
    }
}
