//! The lines that name modules, and the schemas of devices.
ghost use Rattle.std.specs.Prelude.{◌≡◌, ◌++◌, IfOk, OnOk, Some, false, option_and_then, option_to_list, slice_get, suc};
ghost use Rattle.std.specs.List.{list_all, list_any};
ghost use Rattle.std.specs.Option.{option_copied};
ghost use Rattle.orc_schema_nodes.specs.Schemas.{plain_table};
ghost use Rattle.orc_schema_nodes.specs.Sound.{IsSound};
ghost use Rattle.orc_path.specs.Alphabet.{is_identifier};
ghost use Rattle.orc_path.specs.Limits.{is_long_name};
ghost use Rattle.orc_decls.specs.Calls.{schema_in, schema_named};
ghost use Rattle.orc_decls.specs.Devices.{names_of};
ghost use Rattle.orc_lines.specs.Names.{is_among, place_of, with_name};
ghost use Rattle.orc_declarations.specs.Declarations.{after_datamodel, after_devicetype, is_declared, module_named, modules_named, schema_place, schema_words, type_words};
ghost use Rattle.orc_declarations.specs.Schemas.{schema_or_rule};
ghost use Rattle.orc_lines.specs.Answers.{ReadsLine, Takes};
ghost use Rattle.orc_lines.specs.Lawful.{AreDeclared};

use crate::schemas::schema_of;
use crate::statements::{copy, orc_module};
use orc_decls::{Device, Rule};
use orc_lines::{
    Declared, Detail, LineFault, SortedNames, breaks, breaks_by, name_excess, repeated_name,
    words_of,
};
use orc_path::{is_identifier, is_long_name};
use orc_schema::{Looks, Schema};
use orc_text::{Memory, Row, Text};
use orc_yang::Stmt;
use std::alloc::Global;

// Whether all words are names.
fn are_identifiers(words: &[Text]) -> bool
    ensures { result ≡ list_all is_identifier words.now }
{
    let mut rest = words;
    while let [word, more @ ..] = rest {
        if !is_identifier(word.as_str()) {
            return false;
        }
        rest = more;
    }
    true
}

// Whether one of them is longer than it may be.
fn has_long_name(words: &[Text]) -> bool
    ensures { result ≡ list_any is_long_name words.now }
{
    words.iter().any(|word| is_long_name(word.as_str()))
}

// The names, and this one after them where it is new: the modules of the schema of the data are those
// that the line `datamodel` names and `orc`.
fn with_name(alloc: Global, names: &Row<Text>, name: &str) -> Result<Row<Text>, Memory>
    ensures { IfOk result (λ more. more ≡ with_name names.now name.now) }
{
    let name = Text::from_str(alloc, name)?;
    let mut more = names.copy(alloc)?;
    if !is_among(names.as_slice(), &name) {
        more.push(name)?;
    }
    Ok(more)
}

// Whether a name is among names.
fn is_among(names: &[Text], name: &Text) -> bool
    ensures { result ≡ is_among names.now name.now }
{
    names.iter().any(|other| *name == *other)
}

// Of the names, the first that is longer than it may be.
fn names_excess(alloc: Global, words: &[Text]) -> Result<Detail, Memory> {
    for word in words {
        if is_long_name(word.as_str()) {
            return name_excess(alloc, word.as_str());
        }
    }
    Ok(Detail::Plain)
}

// The statement of a module that is declared.
fn statement_named<'a>(declared: &'a Declared, name: &Text) -> Option<&'a Stmt>
    ensures { option_copied result
        ≡ option_and_then (slice_get declared.now.statements) (place_of declared.now.modules name.now) }
{
    match declared.modules.place(name) {
        Some(n) => declared.statements.as_slice().get(n),
        None => None,
    }
}

// Whether a module is declared or built in.
fn is_declared(declared: &Declared, name: &Text) -> bool
    ensures { result ≡ is_declared declared.now name.now }
{
    name.as_str() == "orc" || statement_named(declared, name).is_some()
}

// Whether all of them are.
fn are_declared(declared: &Declared, names: &[Text]) -> bool
    ensures { result ≡ list_all (is_declared declared.now) names.now }
{
    names.iter().all(|name| is_declared(declared, name))
}

// Adds the statement of a module that is declared or built in.
fn push_module(
    alloc: Global,
    declared: &Declared,
    name: &Text,
    looks: &Looks,
    modules: &mut Vec<Stmt>,
) -> Result<(), Memory>
    ensures { OnOk result (modules.new.items
        ≡ modules.old.items ++ option_to_list (module_named declared.now name.now)) }
{
    if name.as_str() == "orc" {
        modules.push(orc_module(alloc)?)?;
        return Ok(());
    }
    if let Some(statement) = statement_named(declared, name) {
        modules.push(copy(alloc, statement, looks)?)?;
    }
    Ok(())
}

// The statements of the modules of these names that are declared or built in, within what may still be
// looked at.
fn modules_named(
    alloc: Global,
    declared: &Declared,
    names: &[Text],
    looks: &Looks,
) -> Result<Row<Stmt>, Memory>
    ensures { IfOk result (λ modules. modules ≡ modules_named declared.now names.now) }
{
    let mut modules = Vec::new(alloc);
    for name in names {
        push_module(alloc, declared, name, looks, &mut modules)?;
    }
    Ok(Row::from_vec(modules))
}

// Of each of these names that is of a module which is declared or built in its place among those that are declared.
fn places_of(
    alloc: Global,
    declared: &Declared,
    names: &[Text],
) -> Result<Row<Option<u64>>, Memory> {
    let mut places = Row::new(alloc);
    for name in names {
        match declared.modules.place(name) {
            Some(place) => places.push(Some(place as u64))?,
            None => places.push(None)?,
        }
    }
    Ok(places)
}

// The schema of the modules of these names, each of which is declared or built in.
fn named_schema(
    alloc: Global,
    declared: &Declared,
    names: &[Text],
    looks: &Looks,
) -> Result<Schema, LineFault>
    ensures reads { ReadsLine (schema_or_rule (modules_named declared.now names.now)) result }
    ensures sound { IfOk result IsSound }
{
    let modules = modules_named(alloc, declared, names, looks)?;
    let places = places_of(alloc, declared, names)?;
    schema_of(alloc, modules, places, looks)
}

// The schema of the modules of these names. All the words are names, and one of them may be taken.
fn schema_words(
    alloc: Global,
    declared: &Declared,
    words: &[Text],
    names: &[Text],
    is_double: bool,
    looks: &Looks,
) -> Result<Schema, LineFault>
    ensures reads { ReadsLine (schema_words declared.now words.now names.now is_double) result }
    ensures new { OnOk result (is_double ≡ false) }
    ensures sound { IfOk result IsSound }
{
    if !are_identifiers(words) {
        return breaks(Rule::Line);
    }
    if has_long_name(words) {
        return breaks_by(Rule::Size, names_excess(alloc, words)?);
    }
    if !are_declared(declared, names) {
        return breaks(Rule::Unknown);
    }
    if is_double {
        return breaks(Rule::Duplicate);
    }
    match repeated_name(alloc, names)? {
        Some(name) => breaks_by(Rule::Schema, Detail::Repeated(name)),
        None => named_schema(alloc, declared, names, looks),
    }
}

/// `datamodel M M ..`.
#[tactic(auto, unfolding(crate::specs::Declarations::after_datamodel), using(crate::proofs::ServiceLists::none_apart))]
pub(crate) fn take_datamodel(
    alloc: Global,
    declared: &mut Declared,
    rest: &str,
    looks: &Looks,
) -> Result<(), LineFault>
    ensures takes { Takes (after_datamodel declared.old rest.now) declared.new result }
    ensures lawful { AreDeclared declared.old → OnOk result (AreDeclared declared.new) }
{
    let words = words_of(alloc, rest)?;
    let names = with_name(alloc, &words, "orc")?;
    let is_double = declared.has_data;
    declared.data_schema = schema_words(
        alloc,
        declared,
        words.as_slice(),
        names.as_slice(),
        is_double,
        looks,
    )?;
    declared.has_data = true;
    declared.data = Row::new(alloc);
    declared.templates = SortedNames::new(alloc);
    declared.services = Row::new(alloc);
    Ok(())
}

// `T M M ..`, cut into these words.
fn take_type(
    alloc: Global,
    declared: &mut Declared,
    words: &[Text],
    looks: &Looks,
) -> Result<(), LineFault>
    ensures takes { Takes (type_words declared.old words.now) declared.new result }
    ensures lawful { AreDeclared declared.old → OnOk result (AreDeclared declared.new) }
{
    let [name, names @ ..] = words else {
        return breaks(Rule::Line);
    };
    if names.is_empty() {
        return breaks(Rule::Line);
    }
    let is_double = declared.types.has(name);
    let schema = schema_words(alloc, declared, words, names, is_double, looks)?;
    declared.types.add(name.copy(alloc)?)?;
    declared.schemas.push(schema)?;
    Ok(())
}

/// `devicetype T M M ..`.
#[tactic(auto, unfolding(crate::specs::Declarations::after_devicetype))]
pub(crate) fn take_devicetype(
    alloc: Global,
    declared: &mut Declared,
    rest: &str,
    looks: &Looks,
) -> Result<(), LineFault>
    ensures takes { Takes (after_devicetype declared.old rest.now) declared.new result }
    ensures lawful { AreDeclared declared.old → OnOk result (AreDeclared declared.new) }
{
    let words = words_of(alloc, rest)?;
    take_type(alloc, declared, words.as_slice(), looks)
}

/// The place of the schema of devices of a kind.
pub(crate) fn schema_place(
    alloc: Global,
    declared: &Declared,
    kind: &str,
) -> Result<Option<u32>, Memory>
    ensures { IfOk result (λ place. place ≡ schema_place declared.now kind.now) }
{
    if kind == "plain" {
        return Ok(Some(0));
    }
    let kind = Text::from_str(alloc, kind)?;
    match declared.types.place(&kind) {
        Some(n) => place_behind(n),
        None => Ok(None),
    }
}

// The place of a type's schema, after the plain one. So many types as have none run out of memory.
fn place_behind(n: usize) -> Result<Option<u32>, Memory>
    ensures { IfOk result (λ place. place ≡ Some (suc n)) }
{
    match u32::try_from(n) {
        Ok(n) if n < u32::MAX => Ok(Some(n + 1)),
        _ => Err(Memory),
    }
}
