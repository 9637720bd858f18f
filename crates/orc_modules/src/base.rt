//! What the name of a type stands for where it stands.
ghost use Rattle.std.specs.Prelude.{◌≡◌, List, IfOk, ◌∷◌, Some, None, codes, is_some, option_map, if◌then◌else◌};
ghost use Rattle.orc_types.specs.Defaults.{default_of};
ghost use Rattle.orc_types.specs.Statements.{argument};
ghost use Rattle.orc_types.specs.Types.{type_of};
ghost use Rattle.orc_modules.specs.Bases.{home_of, made_by, typed_by, takes_type, renamed, named_typedef, built_in_named, base_of, type_at, type_in};
ghost use Rattle.orc_modules.specs.Scopes.{meaning};
ghost use Rattle.orc_modules.specs.Stack.{stack, found};
ghost use Rattle.orc_modules.specs.Statements.{argument_below};

use crate::looked::{looks_below, type_looks};
use crate::meant::{Meant, Named, Typed};
use crate::place::Modules;
use crate::scope::{Above, Found, Site, meaning, module_around};
use crate::statements::argument_below;
use orc_text::{Memory, Text};
use orc_types::{Base, LeafType, TypeFault, argument, built_in, default_of, first_of, type_of};
use orc_value::Kind;
use orc_yang::Stmt;
use std::alloc::Global;

// The name of the module around.
fn home_of<'a, 'm>(alloc: Global, above: &'a Above<'a, 'm>) -> Result<Text, Memory>
    ensures { IfOk result (λ home. home ≡ home_of (stack above.now)) }
{
    match module_around(above) {
        Some(module) => Text::from_str(alloc, argument(module)),
        None => Ok(Text::new(alloc)),
    }
}

// A built-in type.
fn built_in_named<'a, 'm>(
    alloc: Global,
    above: &'a Above<'a, 'm>,
    base: Base,
) -> Result<Named, Memory>
    ensures { IfOk result (λ named. named ≡ built_in_named (stack above.now) base) }
{
    Ok(Named::Means(Meant {
        base,
        default: None,
        home: home_of(alloc, above)?,
    }))
}

// What a `type` statement makes of what its name stands for.
fn made_by(alloc: Global, meant: Meant, stmt: &Stmt) -> Result<Option<Typed>, Memory>
    ensures { IfOk result (λ typed. typed ≡ made_by meant (type_of meant.base stmt.now)) }
{
    let Meant {
        base,
        default,
        home,
    } = meant;
    match type_of(alloc, &base, stmt) {
        Ok(of_type) => Ok(Some(Typed {
            of_type,
            default,
            home,
        })),
        Err(TypeFault::Memory) => Err(Memory),
        Err(_) => Ok(None),
    }
}

// What a `type` statement makes of what its name may stand for.
fn typed_by(alloc: Global, named: Named, stmt: &Stmt) -> Result<Option<Typed>, Memory>
    ensures { IfOk result (λ typed. typed ≡ typed_by stmt.now named) }
{
    match named {
        Named::Means(meant) => made_by(alloc, meant, stmt),
        Named::Endless | Named::Unclear => Ok(None),
    }
}

// Whether a text is a default of this kind.
fn is_default(alloc: Global, kind: &Kind, text: &str) -> Result<bool, Memory>
    ensures { IfOk result (λ fits. fits ≡ is_some (default_of kind.now text.now)) }
{
    Ok(default_of(alloc, kind, text)?.is_some())
}

/// Whether a text is a default of the type; a leafref takes any, since its target decides.
pub fn takes_type(alloc: Global, of_type: &LeafType, text: &str) -> Result<bool, Memory>
    ensures { IfOk result (λ takes. takes ≡ takes_type of_type.now text.now) }
{
    match of_type.kind(alloc)? {
        Some(kind) => is_default(alloc, &kind, text),
        None => Ok(true),
    }
}

// The default of a typedef of this type with one of its own, where the type takes it.
fn own_default(alloc: Global, of_type: &LeafType, text: &str) -> Result<Option<Text>, Memory>
    ensures { IfOk result (λ own. own ≡ if takes_type of_type.now text.now then Some text.now else None) }
{
    match takes_type(alloc, of_type, text)? {
        true => Ok(Some(Text::from_str(alloc, text)?)),
        false => Ok(None),
    }
}

// What the name of a typedef with this default stands for.
fn renamed(alloc: Global, default: Option<&str>, typed: Typed) -> Result<Named, Memory>
    ensures { IfOk result (λ named. named ≡ renamed (option_map (λ text. text.now) default.entry) typed) }
{
    let Typed {
        of_type,
        default: earlier,
        home,
    } = typed;
    let default = match default {
        Some(text) => own_default(alloc, &of_type, text)?,
        None => earlier,
    };
    Ok(Named::Means(Meant {
        base: Base::Known(of_type),
        default,
        home,
    }))
}

// What the name of a typedef stands for, by its `type` and what the name there stands for.
fn named_typedef(
    alloc: Global,
    default: Option<&str>,
    stmt: &Stmt,
    named: Named,
) -> Result<Named, Memory>
    ensures { IfOk result (λ made. made
        ≡ named_typedef (option_map (λ text. text.now) default.entry) stmt.now named) }
{
    match named {
        Named::Endless => Ok(Named::Endless),
        Named::Unclear => Ok(Named::Unclear),
        Named::Means(meant) => match made_by(alloc, meant, stmt)? {
            Some(typed) => renamed(alloc, default, typed),
            None => Ok(Named::Unclear),
        },
    }
}

// The typedef that a `type` statement names.
pub(crate) fn typedef<'a, 'm>(
    modules: &Modules<'a>,
    above: &'a Above<'a, 'm>,
    stmt: &Stmt,
) -> Option<Found<'a, 'm>>
    ensures { option_map found result
        ≡ meaning modules.now.all.now (codes "typedef") (argument stmt.now) (stack above.now) }
{
    meaning(modules, "typedef", argument(stmt), above)
}

// What the argument of a `type` statement stands for, through fewer typedefs than `depth`.
fn base_at<'a, 'm>(
    alloc: Global,
    depth: usize,
    modules: &Modules<'a>,
    at: &Site<'a, 'm>,
    stmt: &Stmt,
) -> Result<Named, Memory>
    ensures { IfOk result (λ named. named ≡ base_of depth modules.now.all.now (stack at.now.above.now) stmt.now) }
{
    if depth == 0 {
        return Ok(Named::Endless);
    }
    modules.go_down(depth)?;
    modules.looks.visit(1)?;
    if let Some(base) = built_in(alloc, argument(stmt))? {
        return built_in_named(alloc, at.above, base);
    }
    if let Some(found) = typedef(&*modules, at.above, stmt) {
        modules
            .looks
            .pass(looks_below(found.here).saturating_mul(4));
        if let Some(inner) = first_of("type", found.here.subs.as_slice()) {
            let around = Site {
                above: &Above::Under(found.here, &found.above),
            };
            let named = base_at(alloc, depth - 1, &*modules, &around, inner)?;
            modules
                .looks
                .visit(type_looks(inner).saturating_add(named.weight()))?;
            return named_typedef(alloc, argument_below("default", found.here), inner, named);
        }
    }
    Ok(Named::Unclear)
}

// What a whole `type` statement makes of it.
fn typed_at<'a, 'm>(
    alloc: Global,
    modules: &Modules<'a>,
    at: &Site<'a, 'm>,
    stmt: &Stmt,
) -> Result<Option<Typed>, Memory>
    ensures { IfOk result (λ typed.
        typed ≡ type_at modules.now.most modules.now.all.now (stack at.now.above.now) stmt.now) }
{
    let named = base_at(alloc, modules.most, &*modules, at, stmt)?;
    modules
        .looks
        .visit(type_looks(stmt).saturating_add(named.weight()))?;
    typed_by(alloc, named, stmt)
}

// The type by the `type` below a statement.
pub(crate) fn typed_in<'a, 'm>(
    alloc: Global,
    modules: &Modules<'a>,
    at: &Site<'a, 'm>,
    stmt: &'a Stmt,
) -> Result<Option<Typed>, Memory>
    ensures { IfOk result (λ typed.
        typed ≡ type_in modules.now.most modules.now.all.now (stack at.now.above.now) stmt.now) }
{
    modules.looks.pass(stmt.subs.len());
    match first_of("type", stmt.subs.as_slice()) {
        Some(inner) => {
            let inside = Site {
                above: &Above::Under(stmt, at.above),
            };
            typed_at(alloc, &*modules, &inside, inner)
        },
        None => Ok(None),
    }
}

/// What the argument of a `type` statement stands for where it stands: a built-in type, or the
/// typedef that the name means.
pub fn base_of<'a, 'm>(
    alloc: Global,
    modules: &Modules<'a>,
    above: &'a Above<'a, 'm>,
    stmt: &Stmt,
) -> Result<Named, Memory>
    ensures { IfOk result (λ named.
        named ≡ base_of modules.now.most modules.now.all.now (stack above.now) stmt.now) }
{
    base_at(alloc, modules.most, &*modules, &Site { above }, stmt)
}

/// The type of a leaf, a leaf-list or a typedef, by the `type` below it.
pub fn type_in<'a, 'm>(
    alloc: Global,
    modules: &Modules<'a>,
    above: &'a Above<'a, 'm>,
    stmt: &'a Stmt,
) -> Result<Option<Typed>, Memory>
    ensures { IfOk result (λ typed.
        typed ≡ type_in modules.now.most modules.now.all.now (stack above.now) stmt.now) }
{
    typed_in(alloc, &*modules, &Site { above }, stmt)
}
