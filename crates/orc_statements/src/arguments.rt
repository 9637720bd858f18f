//! Arguments that are not of their statement's form, and statements that lack one they need.
ghost use Rattle.std.specs.Prelude.{◌≡◌, ◌&&◌, ◌∷◌, IfOk, is_some, codes, not};
ghost use Rattle.std.specs.List.{list_any, list_all};
ghost use Rattle.orc_path.specs.Alphabet.{is_identifier};
ghost use Rattle.orc_types.specs.Statements.{argument, subs, has};
ghost use Rattle.orc_modules.specs.declared.word.Word.TheVariants.{Key, Leaf, Default};
ghost use Rattle.orc_modules.specs.Bases.{takes_type};
ghost use Rattle.orc_modules.specs.Stack.{stack, place, modules_of};
ghost use Rattle.orc_statements.specs.declared.fault.SchemaFault.TheVariants.{BadArgument};
ghost use Rattle.orc_statements.specs.Cuts.{words};
ghost use Rattle.orc_statements.specs.Names.{contains_text, fault_if, leaf_around};
ghost use Rattle.orc_statements.specs.Arguments.{typed, is_flag, is_version, is_mandatory, keys_of, is_key_of, is_key_leaf, takes, is_default_well, fits_inherited, inherits_well, is_empty_type, is_empty_typed, is_empty_leaf, has_empty_key, are_identifiers, has_white_ends, is_module_well, is_typed_well, argument_has_form, is_well, bad_argument};
ghost use Rattle.orc_statements.specs.Meeting.{Meets};

use crate::SchemaFault;
use crate::counts::{count_of, is_greatest};
use crate::cuts::{Mark, has_word, is_mark, words};
use crate::names::leaf_around;
use crate::typing::typed;
use orc_modules::{
    Above, Looks, Modules, Place, Typed, Word, has_argument, sub_text, takes_type, text_looks,
};
use orc_path::is_identifier;
use orc_text::{Memory, Row, Text};
use orc_types::{LeafType, argument, has, is_a, is_reference};
use orc_yang::Stmt;
use std::alloc::Global;

fn is_flag(text: &str) -> bool
    ensures { result ≡ is_flag text.now }
{
    text == "true" || text == "false"
}

fn is_version(text: &str) -> bool
    ensures { result ≡ is_version text.now }
{
    text == "1" || text == "1.1"
}

/// Whether a leaf is mandatory.
pub fn is_mandatory(stmt: &Stmt) -> bool
    ensures { result ≡ is_mandatory stmt.now }
{
    sub_text("mandatory", stmt) == "true"
}

/// The keys of a list.
pub fn keys_of(alloc: Global, stmt: &Stmt) -> Result<Row<Text>, Memory>
    ensures { IfOk result (λ keys. keys ≡ keys_of stmt.now) }
{
    words(alloc, sub_text("key", stmt))
}

// Whether a list names this leaf as a key, with what it looks at counted.
fn has_key(looks: &Looks, list: &Stmt, name: &str) -> Result<bool, Memory>
    ensures { IfOk result (λ key. key ≡ contains_text (keys_of list.now) name.now) }
{
    let text = sub_text("key", list);
    looks.pass(list.subs.len());
    looks.visit(text_looks(text).saturating_add(1))?;
    Ok(has_word(text, name))
}

// Whether the statement around is a list that names this leaf as a key.
fn is_key_of(looks: &Looks, above: &Above<'_, '_>, name: &str) -> Result<bool, Memory>
    ensures { IfOk result (λ key. key ≡ is_key_of (stack above.now) name.now) }
{
    match above {
        Above::Top => Ok(false),
        Above::Module(stmt) | Above::Under(stmt, _) => has_key(looks, *stmt, name),
        Above::Indexed(block, _) => has_key(looks, block.here(), name),
    }
}

// Whether a statement is a leaf that the list around names as a key.
fn is_key_leaf(looks: &Looks, above: &Above<'_, '_>, stmt: &Stmt) -> Result<bool, Memory>
    ensures { IfOk result (λ key. key ≡ is_key_leaf (stack above.now) stmt.now) }
{
    if !is_a("leaf", stmt) {
        return Ok(false);
    }
    is_key_of(looks, above, argument(stmt))
}

// Whether a text is a value of a type that may be at fault itself.
fn takes(alloc: Global, typed: &Option<Typed>, text: &str) -> Result<bool, Memory>
    ensures { IfOk result (λ fits. fits ≡ takes typed.now text.now) }
{
    match typed {
        Some(known) => takes_type(alloc, &known.of_type, text),
        None => Ok(true),
    }
}

// Whether a `default` may stand in the leaf or the typedef around and is a value of its type.
fn fits_type(
    alloc: Global,
    modules: &Modules<'_>,
    above: &Above<'_, '_>,
    stmt: &Stmt,
    default: &Stmt,
) -> Result<bool, Memory>
    ensures { IfOk result (λ fits. fits ≡ (not (is_mandatory stmt.now)
        && takes (typed (modules_of modules.now) (stack above.now) stmt.now) (argument default.now))) }
{
    if is_mandatory(stmt) {
        return Ok(false);
    }
    let known = typed(alloc, modules, above, stmt)?;
    takes(alloc, &known, argument(default))
}

// Whether a `default` fits the leaf or the typedef around, below the others. The keys of the list are looked at where
// it doesn't alone.
#[tactic(auto, using(crate::proofs::Either::right_holds, crate::proofs::Either::right_fails))]
fn fits_below(
    alloc: Global,
    modules: &Modules<'_>,
    above: &Above<'_, '_>,
    stmt: &Stmt,
    default: &Stmt,
) -> Result<bool, Memory>
    ensures { IfOk result (λ fits. fits
        ≡ is_default_well (modules_of modules.now) (stmt.now ∷ stack above.now) default.now) }
{
    if fits_type(alloc, modules, above, stmt, default)? {
        return Ok(true);
    }
    is_key_leaf(modules.looks, above, stmt)
}

// Whether a `default` fits what stands around it.
fn is_default_well(
    alloc: Global,
    modules: &Modules<'_>,
    above: &Above<'_, '_>,
    default: &Stmt,
) -> Result<bool, Memory>
    ensures { IfOk result (λ fits. fits ≡ is_default_well (modules_of modules.now) (stack above.now) default.now) }
{
    match above {
        Above::Top => Ok(true),
        Above::Module(stmt) => fits_below(alloc, modules, &Above::Top, *stmt, default),
        Above::Under(stmt, outer) => fits_below(alloc, modules, *outer, *stmt, default),
        Above::Indexed(block, outer) => fits_below(alloc, modules, *outer, block.here(), default),
    }
}

// How many names a type has: a text is looked for in a set of them, which is made anew.
fn count_of_names(of_type: &LeafType) -> usize {
    match of_type {
        LeafType::Enum(names) => names.len(),
        _ => 0,
    }
}

// Whether a typedefs' default is a value of the type, with what it goes through counted.
fn takes_default(
    alloc: Global,
    looks: &Looks,
    of_type: &LeafType,
    text: &str,
) -> Result<bool, Memory>
    ensures { IfOk result (λ fits. fits ≡ takes_type of_type.now text.now) }
{
    looks.visit(text_looks(text).saturating_add(count_of_names(of_type)))?;
    takes_type(alloc, of_type, text)
}

// Whether the default of the typedefs is a value of the type.
fn fits_inherited(alloc: Global, looks: &Looks, typed: &Option<Typed>) -> Result<bool, Memory>
    ensures { IfOk result (λ fits. fits ≡ fits_inherited typed.now) }
{
    match typed {
        Some(known) => match &known.default {
            Some(text) => takes_default(alloc, looks, &known.of_type, text.as_str()),
            None => Ok(true),
        },
        None => Ok(true),
    }
}

// Whether the default of a leaf's typedefs fits it where it counts. The keys of the list are looked at where it doesn't
// alone.
#[tactic(auto, using(crate::proofs::Either::right_holds, crate::proofs::Either::right_fails))]
fn inherits_well(alloc: Global, modules: &Modules<'_>, here: &Place<'_, '_>) -> Result<bool, Memory>
    ensures { IfOk result (λ fits. fits ≡ inherits_well (modules_of modules.now) (place here.now)) }
{
    if has("default", here.here.subs.as_slice()) {
        return Ok(true);
    }
    if is_mandatory(here.here) {
        return Ok(true);
    }
    let known = typed(alloc, modules, here.above, here.here)?;
    if fits_inherited(alloc, modules.looks, &known)? {
        return Ok(true);
    }
    is_key_of(modules.looks, here.above, argument(here.here))
}

fn is_empty_type(of_type: &LeafType) -> bool
    ensures { result ≡ is_empty_type of_type.now }
{
    match of_type {
        LeafType::Empty => true,
        _ => false,
    }
}

fn is_empty_typed(typed: &Option<Typed>) -> bool
    ensures { result ≡ is_empty_typed typed.now }
{
    match typed {
        Some(known) => is_empty_type(&known.of_type),
        None => false,
    }
}

// Whether the leaf of a key has the type empty.
fn is_empty_key(
    alloc: Global,
    modules: &Modules<'_>,
    above: &Above<'_, '_>,
    name: &str,
) -> Result<bool, Memory>
    ensures { IfOk result (λ empty. empty ≡ is_empty_leaf (modules_of modules.now)
        (leaf_around (modules_of modules.now) (stack above.now) name.now)) }
{
    match leaf_around(alloc, modules, above, name)? {
        Some(known) => Ok(is_empty_typed(&known)),
        None => Ok(false),
    }
}

// Whether one of the keys has the type empty.
fn any_empty_key(
    alloc: Global,
    modules: &Modules<'_>,
    above: &Above<'_, '_>,
    names: &[Text],
) -> Result<bool, Memory>
    ensures { IfOk result (λ empty. empty ≡ list_any (λ name. is_empty_leaf (modules_of modules.now)
        (leaf_around (modules_of modules.now) (stack above.now) name)) names.now) }
{
    for name in names {
        if is_empty_key(alloc, modules, above, name.as_str())? {
            return Ok(true);
        }
    }
    Ok(false)
}

fn all_identifiers(names: &[Text]) -> bool
    ensures { result ≡ list_all is_identifier names.now }
{
    names.iter().all(|name| is_identifier(name.as_str()))
}

fn are_identifiers(names: &[Text]) -> bool
    ensures { result ≡ are_identifiers names.now }
{
    names.len() > 0 && all_identifiers(names)
}

// Whether a text begins or ends with white space.
fn has_white_ends(text: &str) -> bool
    ensures { result ≡ has_white_ends text.now }
{
    match text.as_bytes() {
        [] => false,
        [first, ..] => is_mark(Mark::White, *first)
            || is_mark(Mark::White, text.as_bytes()[text.len() - 1]),
    }
}

// Whether the keys of a list are well.
fn is_key_well(alloc: Global, modules: &Modules<'_>, here: &Place<'_, '_>) -> Result<bool, Memory>
    ensures { IfOk result (λ well. well ≡ is_well (modules_of modules.now) (place here.now) Key) }
{
    let names = words(alloc, argument(here.here))?;
    if !are_identifiers(names.as_slice()) {
        return Ok(false);
    }
    if has_white_ends(argument(here.here)) {
        return Ok(false);
    }
    Ok(!any_empty_key(alloc, modules, here.above, names.as_slice())?)
}

fn is_module_well(stmt: &Stmt) -> bool
    ensures { result ≡ is_module_well stmt.now }
{
    is_identifier(argument(stmt)) && has_both("namespace", "prefix", stmt)
}

// Whether a statement has both of these.
fn has_both(first: &str, second: &str, stmt: &Stmt) -> bool
    ensures { result ≡ (has first.now (subs stmt.now) && has second.now (subs stmt.now)) }
{
    has(first, stmt.subs.as_slice()) && has(second, stmt.subs.as_slice())
}

fn is_typed_well(stmt: &Stmt) -> bool
    ensures { result ≡ is_typed_well stmt.now }
{
    is_identifier(argument(stmt)) && has("type", stmt.subs.as_slice())
}

fn is_import_well(stmt: &Stmt) -> bool
    ensures { result ≡ (is_identifier (argument stmt.now) && has (codes "prefix") (subs stmt.now)) }
{
    is_identifier(argument(stmt)) && has("prefix", stmt.subs.as_slice())
}

fn is_leaf_well(alloc: Global, modules: &Modules<'_>, here: &Place<'_, '_>) -> Result<bool, Memory>
    ensures { IfOk result (λ well. well ≡ is_well (modules_of modules.now) (place here.now) Leaf) }
{
    if !is_typed_well(here.here) {
        return Ok(false);
    }
    inherits_well(alloc, modules, here)
}

fn is_default_well_here(
    alloc: Global,
    modules: &Modules<'_>,
    here: &Place<'_, '_>,
) -> Result<bool, Memory>
    ensures { IfOk result (λ well. well ≡ is_well (modules_of modules.now) (place here.now) Default) }
{
    if !has_argument(here.here) {
        return Ok(false);
    }
    is_default_well(alloc, modules, here.above, here.here)
}

// Whether the argument of a statement that looks at no other one has its form.
fn has_form(stmt: &Stmt, word: Word) -> bool
    ensures { result ≡ argument_has_form stmt.now word }
{
    let text = argument(stmt);
    match word {
        Word::YangVersion => is_version(text),
        Word::Namespace => has_argument(stmt),
        Word::Prefix | Word::Grouping | Word::Container | Word::List => is_identifier(text),
        Word::Uses | Word::TypeName => is_reference(text),
        Word::Mandatory | Word::Config => is_flag(text),
        Word::MinElements => count_of(text).is_some(),
        Word::MaxElements => is_greatest(text),
        Word::OrderedBy => text == "system",
        _ => true,
    }
}

// Whether a statement has what it needs.
fn is_well(
    alloc: Global,
    modules: &Modules<'_>,
    here: &Place<'_, '_>,
    word: Word,
) -> Result<bool, Memory>
    ensures { IfOk result (λ well. well ≡ is_well (modules_of modules.now) (place here.now) word) }
{
    match word {
        Word::Module => Ok(is_module_well(here.here)),
        Word::Import => Ok(is_import_well(here.here)),
        Word::Typedef | Word::LeafList => Ok(is_typed_well(here.here)),
        Word::Leaf => is_leaf_well(alloc, modules, here),
        Word::Default => is_default_well_here(alloc, modules, here),
        Word::Key => is_key_well(alloc, modules, here),
        _ => Ok(has_form(here.here, word)),
    }
}

// A statement that has not what it needs.
pub(crate) fn bad_argument(
    alloc: Global,
    modules: &Modules<'_>,
    here: &Place<'_, '_>,
    word: Word,
) -> Result<(), SchemaFault>
    ensures { Meets (bad_argument (modules_of modules.now) (place here.now) word) result }
{
    match is_well(alloc, modules, here, word)? {
        true => Ok(()),
        false => Err(SchemaFault::BadArgument {
            keyword: here.here.keyword.copy(alloc)?,
        }),
    }
}
