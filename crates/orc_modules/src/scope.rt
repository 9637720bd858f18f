//! What a name means where it stands.
ghost use Rattle.std.specs.Prelude.{◌≡◌, List, [], false, IfOk, IfSome, option_map, is_some};
ghost use Rattle.std.specs.List.{find, position, before_first, after_first};
ghost use Rattle.std.specs.Option.{option_map_or};
ghost use Rattle.orc_types.specs.Paths.{is_colon};
ghost use Rattle.orc_types.specs.Statements.{subs};
ghost use Rattle.orc_modules.specs.Scopes.{in_block_of, in_scope, outermost, module_around, is_own, imports_as, module_called, imported, owner_of, behind_prefix, meaning, prefix_of, plain_name};
ghost use Rattle.orc_modules.specs.Stack.{stack, found};
ghost use Rattle.orc_modules.specs.Statements.{defines};
ghost use Rattle.orc_modules.specs.inside.Beside.{is_near, is_local};

use crate::block::Block;
use crate::looks::Looks;
use crate::place::Modules;
use crate::statements::{defines, sub_text};
use orc_text::Memory;
use orc_types::{argument, is_a};
use orc_yang::Stmt;

/// The statements around a place, the innermost first.
#[derive(Clone, Copy)]
pub enum Above<'a, 'm> {
    /// None: the place is that of a module.
    Top,
    /// A module alone.
    Module(&'a Stmt),
    /// A statement, and those around it.
    Under(&'a Stmt, &'a Above<'a, 'm>),
    /// A statement with the definitions of its block by their names, and those around it.
    Indexed(&'a Block<'m>, &'a Above<'a, 'm>),
}

/// A definition, with the statements around it.
#[derive(Clone, Copy)]
pub struct Found<'a, 'm> {
    pub above: Above<'a, 'm>,
    pub here: &'a Stmt,
}

// Where the statements of a block stand. (An `Above` that is lent on lives as long as what it stands in; within this it
// may be lent again.)
#[derive(Clone, Copy)]
pub(crate) struct Site<'a, 'm> {
    pub(crate) above: &'a Above<'a, 'm>,
}

// The texts before the first colon and after it.
fn split_name(text: &str) -> Option<(&str, &str)>
    ensures some { is_some result ≡ is_some (position is_colon text.now) }
    ensures first { IfSome result (λ parts. (parts.0.now ≡ before_first is_colon text.now)
        × (parts.1.now ≡ after_first is_colon text.now)) }
{
    text.split_once(':')
}

/// The prefix of a name, where it has one.
pub fn prefix_of(text: &str) -> Option<&str>
    ensures { option_map (λ prefix. prefix.now) result ≡ prefix_of text.now }
{
    match split_name(text) {
        Some((prefix, _)) => Some(prefix),
        None => None,
    }
}

/// The name after its prefix.
pub fn plain_name(text: &str) -> &str
    ensures { result.now ≡ plain_name text.now }
{
    match split_name(text) {
        Some((_, name)) => name,
        None => text,
    }
}

/// Whether a name has no prefix, or this one.
pub(crate) fn is_near(prefix: &str, text: &str) -> bool
    ensures { result ≡ is_near prefix.now text.now }
{
    match prefix_of(text) {
        Some(own) => prefix == own,
        None => true,
    }
}

// The first statement of a block with this keyword and this argument.
pub(crate) fn first_defined<'a>(keyword: &str, name: &str, block: &'a [Stmt]) -> Option<&'a Stmt>
    ensures { option_map (λ s. s.now) result ≡ find (defines keyword.now name.now) block.now }
{
    block.iter().find(|stmt| defines(keyword, name, *stmt))
}

// Whether a statement has this keyword and this argument, with the look at it counted.
fn is_defined(looks: &Looks, keyword: &str, name: &str, stmt: &Stmt) -> bool
    ensures { result ≡ defines keyword.now name.now stmt.now }
{
    looks.pass(1);
    defines(keyword, name, stmt)
}

// The first statement of a block with this keyword and this argument; each that is looked at is counted.
pub(crate) fn definition<'a>(
    looks: &Looks,
    keyword: &str,
    name: &str,
    block: &'a [Stmt],
) -> Option<&'a Stmt>
    ensures { option_map (λ s. s.now) result ≡ find (defines keyword.now name.now) block.now }
{
    block
        .iter()
        .find(|stmt| is_defined(looks, keyword, name, *stmt))
}

/// The module of this name.
pub fn module_called<'a>(modules: &'a [Stmt], name: &str) -> Option<&'a Stmt>
    ensures { option_map (λ s. s.now) result ≡ module_called modules.now name.now }
{
    first_defined("module", name, modules)
}

/// Whether a prefix is the module's own.
pub fn is_own(prefix: &str, around: &Stmt) -> bool
    ensures { result ≡ is_own prefix.now around.now }
{
    sub_text("prefix", around) == prefix
}

/// Whether a statement imports a module under this prefix.
pub fn imports_as(prefix: &str, stmt: &Stmt) -> bool
    ensures { result ≡ imports_as prefix.now stmt.now }
{
    is_a("import", stmt) && sub_text("prefix", stmt) == prefix
}

// The import of a module under this prefix.
fn import<'a>(prefix: &str, around: &'a Stmt) -> Option<&'a Stmt>
    ensures { option_map (λ s. s.now) result ≡ find (imports_as prefix.now) (subs around.now) }
{
    around
        .subs
        .as_slice()
        .iter()
        .find(|sub| imports_as(prefix, *sub))
}

// The module that an import brings under this prefix.
fn imported<'a>(modules: &'a [Stmt], prefix: &str, around: &Stmt) -> Option<&'a Stmt>
    ensures { option_map (λ s. s.now) result ≡ imported modules.now prefix.now around.now }
{
    match import(prefix, around) {
        Some(stmt) => module_called(modules, argument(stmt)),
        None => None,
    }
}

/// The name of the module that a prefix stands for in a module.
pub fn owner_of<'a>(modules: &'a [Stmt], prefix: &str, around: &'a Stmt) -> Option<&'a str>
    ensures { option_map (λ name. name.now) result ≡ owner_of modules.now prefix.now around.now }
{
    if is_own(prefix, around) {
        return Some(argument(around));
    }
    match imported(modules, prefix, around) {
        Some(other) => Some(argument(other)),
        None => None,
    }
}

// The outermost statement around.
fn outermost<'a, 'm>(above: &'a Above<'a, 'm>, stmt: &'a Stmt) -> &'a Stmt
    ensures { result.now ≡ outermost stmt.now (stack above.now) }
{
    match above {
        Above::Top => stmt,
        Above::Module(next) => *next,
        Above::Under(next, outer) => outermost(*outer, *next),
        Above::Indexed(next, outer) => outermost(*outer, next.here()),
    }
}

/// The module around.
pub fn module_around<'a, 'm>(above: &'a Above<'a, 'm>) -> Option<&'a Stmt>
    ensures { option_map (λ s. s.now) result ≡ module_around (stack above.now) }
{
    match above {
        Above::Top => None,
        Above::Module(stmt) => Some(*stmt),
        Above::Under(stmt, outer) => Some(outermost(*outer, *stmt)),
        Above::Indexed(block, outer) => Some(outermost(*outer, block.here())),
    }
}

// A module's own definition of a name.
fn in_module<'a, 'm>(
    looks: &Looks,
    keyword: &str,
    name: &str,
    stmt: &'a Stmt,
) -> Option<Found<'a, 'm>>
    ensures { option_map found result ≡ in_block_of keyword.now name.now stmt.now [] }
{
    match definition(looks, keyword, name, stmt.subs.as_slice()) {
        Some(here) => Some(Found {
            above: Above::Module(stmt),
            here,
        }),
        None => None,
    }
}

/// The nearest definition of a name without a prefix.
pub fn in_scope<'a, 'm>(
    looks: &Looks,
    keyword: &str,
    name: &str,
    above: &'a Above<'a, 'm>,
) -> Option<Found<'a, 'm>>
    ensures { option_map found result ≡ in_scope keyword.now name.now (stack above.now) }
{
    match above {
        Above::Top => None,
        Above::Module(stmt) => in_module(looks, keyword, name, *stmt),
        Above::Under(stmt, outer) => match definition(looks, keyword, name, stmt.subs.as_slice()) {
            Some(here) => Some(Found {
                above: *above,
                here,
            }),
            None => in_scope(looks, keyword, name, *outer),
        },
        Above::Indexed(block, outer) => match block.definition(keyword, name) {
            Some(here) => Some(Found {
                above: *above,
                here,
            }),
            None => in_scope(looks, keyword, name, *outer),
        },
    }
}

// Whether a prefix is that of the module around, with what is looked at counted.
fn is_own_around<'a, 'm>(looks: &Looks, prefix: &str, above: &'a Above<'a, 'm>) -> bool
    ensures { result ≡ option_map_or (is_own prefix.now) (module_around (stack above.now)) false }
{
    match module_around(above) {
        Some(around) => {
            looks.pass(own_looked_at(around.subs.as_slice()));
            is_own(prefix, around)
        },
        None => false,
    }
}

/// Whether a name has no prefix, or that of the module around.
pub(crate) fn is_local<'a, 'm>(looks: &Looks, text: &str, above: &'a Above<'a, 'm>) -> bool
    ensures { result ≡ is_local (stack above.now) text.now }
{
    match prefix_of(text) {
        Some(prefix) => is_own_around(looks, prefix, above),
        None => true,
    }
}

// How many statements of a module are looked at for the prefix of its own.
fn own_looked_at(block: &[Stmt]) -> usize {
    let before = block.iter().position(|stmt| is_a("prefix", stmt));
    before.unwrap_or(block.len()).saturating_add(1)
}

// How many statements are looked at for the module that is imported under a prefix: those up to the import, those below
// each import on the way, and all modules.
fn imports_looked_at(modules: &[Stmt], prefix: &str, block: &[Stmt]) -> usize {
    let mut looked = modules.len();
    for stmt in block {
        looked = looked.saturating_add(1);
        if is_a("import", stmt) {
            looked = looked.saturating_add(stmt.subs.len());
        }
        if imports_as(prefix, stmt) {
            return looked;
        }
    }
    looked
}

// The definition of a name in the module of a prefix.
fn behind_prefix<'a, 'm>(
    modules: &Modules<'a>,
    keyword: &str,
    prefix: &str,
    name: &str,
    above: &'a Above<'a, 'm>,
    around: &'a Stmt,
) -> Option<Found<'a, 'm>>
    ensures { option_map found result
        ≡ behind_prefix modules.now.all.now keyword.now prefix.now name.now (stack above.now) around.now }
{
    let block = around.subs.as_slice();
    modules.looks.pass(own_looked_at(block));
    if is_own(prefix, around) {
        return in_scope(modules.looks, keyword, name, above);
    }
    modules
        .looks
        .pass(imports_looked_at(modules.all, prefix, block));
    match imported(modules.all, prefix, around) {
        Some(other) => in_module(modules.looks, keyword, name, other),
        None => None,
    }
}

// How many statements are looked at for what a prefix stands for in a module.
fn prefixes_looked_at(modules: &[Stmt], prefix: &str, block: &[Stmt]) -> usize {
    own_looked_at(block).saturating_add(imports_looked_at(modules, prefix, block))
}

/// The name of the module that a prefix stands for in a module, with what is looked at counted.
pub fn owner_in<'a>(
    modules: &Modules<'a>,
    prefix: &str,
    around: &'a Stmt,
) -> Result<Option<&'a str>, Memory>
    ensures { IfOk result (λ owner. option_map (λ name. name.now) owner
        ≡ owner_of modules.now.all.now prefix.now around.now) }
{
    let looked = prefixes_looked_at(modules.all, prefix, around.subs.as_slice());
    modules.looks.visit(looked / 4)?;
    Ok(owner_of(modules.all, prefix, around))
}

/// What a name means: without a prefix, or with the module's own, it is looked for scope by scope
/// outwards, else in the module of its prefix.
pub fn meaning<'a, 'm>(
    modules: &Modules<'a>,
    keyword: &str,
    text: &str,
    above: &'a Above<'a, 'm>,
) -> Option<Found<'a, 'm>>
    ensures { option_map found result ≡ meaning modules.now.all.now keyword.now text.now (stack above.now) }
{
    match split_name(text) {
        Some((prefix, name)) => match module_around(above) {
            Some(around) => behind_prefix(modules, keyword, prefix, name, above, around),
            None => None,
        },
        None => in_scope(modules.looks, keyword, text, above),
    }
}
