//! What is at fault in modules that make no schema.
use crate::imports::missing_module;
use crate::lines::lines_from;
use crate::places::line_of_byte;
use crate::profile::left_out_in;
use crate::schema_words::{
    is_below, leafref_words, left_out_name, name_in, statement_words, unknown_name,
};
use crate::statements::{say_way, statement_at};
use crate::words::Words;
use orc_lines::{BuildPlace, WrongSchema};
use orc_schema::{SchemaFault, node_names};
use orc_text::{Memory, Text};
use orc_yang::Stmt;

/// Adds that a line names this module twice. So something is said.
pub(crate) fn say_repeated(words: &mut Words, name: &Text) -> Result<bool, Memory> {
    words.say("The module ")?;
    words.quote(name.as_str())?;
    words.say(" stands twice in the line.")?;
    Ok(true)
}

/// Adds what is at fault in modules of a bundle of these bytes that make no schema, and answers whether anything is
/// said.
pub(crate) fn say_schema(
    words: &mut Words,
    bytes: &[u8],
    wrong: &WrongSchema,
) -> Result<bool, Memory> {
    let Some(name) = name_in(&wrong.fault) else {
        return Err(Memory);
    };
    let place = &wrong.place;
    if let Some(number) = place.node {
        return say_leafref(words, place, number, &wrong.fault, name);
    }
    match item_at(place.modules.as_slice(), place.module) {
        Some(module) => {
            say_statement(words, bytes, place, module, &wrong.fault, name)?;
            Ok(true)
        }
        None => Ok(false),
    }
}

// The item of a place.
fn item_at<T>(items: &[T], place: u64) -> Option<&T> {
    match usize::try_from(place) {
        Ok(place) => items.get(place),
        Err(_) => None,
    }
}

// Adds what is at fault in the leafref that is the node of this number, and answers whether there is one.
fn say_leafref(
    words: &mut Words,
    place: &BuildPlace,
    number: u64,
    fault: &SchemaFault,
    name: &Text,
) -> Result<bool, Memory> {
    let Ok(number) = usize::try_from(number) else {
        return Ok(false);
    };
    let Some(names) = node_names(words.alloc, place.modules.as_slice(), number)? else {
        return Ok(false);
    };
    words.quote(name.as_str())?;
    words.say(" ")?;
    words.say(leafref_words(fault))?;
    words.say(" The leafref is at ")?;
    for name in names.as_slice() {
        words.say("/")?;
        words.show(name.as_str())?;
    }
    words.say(".")?;
    Ok(true)
}

// Adds what is at fault at the statement of a module at which the build stood, which one it is, and what else the
// profile leaves out of the module.
fn say_statement(
    words: &mut Words,
    bytes: &[u8],
    place: &BuildPlace,
    module: &Stmt,
    fault: &SchemaFault,
    name: &Text,
) -> Result<(), Memory> {
    let statement = statement_at(module, place.at);
    words.quote(name.as_str())?;
    words.say(" ")?;
    match missing_in(
        place.modules.as_slice(),
        module,
        unknown_name(fault, statement),
    ) {
        Some(missing) => say_missing(words, missing)?,
        None => words.say(statement_words(fault, statement))?,
    }
    match is_below(fault, statement) {
        true => words.say(" It stands below the statement")?,
        false => words.say(" The statement is")?,
    }
    if let Some(line) = line_of(bytes, place) {
        words.say(" in line ")?;
        words.count(line)?;
    }
    words.say(": ")?;
    say_way(words, module, place.at)?;
    words.say(".")?;
    match left_out_name(fault, statement) {
        Some(name) => say_others(words, module, name),
        None => Ok(()),
    }
}

// The module that isn't named in the line, where a name that is known nowhere is of one.
fn missing_in<'a>(modules: &[Stmt], module: &'a Stmt, unknown: Option<&Text>) -> Option<&'a Text> {
    match unknown {
        Some(name) => missing_module(modules, module, name),
        None => None,
    }
}

// Adds that a name is of a module that the line doesn't name.
fn say_missing(words: &mut Words, missing: &Text) -> Result<(), Memory> {
    words.say("is of the imported module ")?;
    words.quote(missing.as_str())?;
    words.say(", and the line doesn't name that one: name ")?;
    words.quote(missing.as_str())?;
    words.say(" on this line too.")
}

// The line of a bundle of these bytes in which the statement begins at which the build stood; none in the built-in
// module.
fn line_of(bytes: &[u8], place: &BuildPlace) -> Option<u64> {
    match item_at(place.places.as_slice(), place.module) {
        Some(Some(declared)) => {
            let line = *item_at(place.lines.as_slice(), *declared)?;
            let first = line.saturating_add(1);
            Some(line_of_byte(lines_from(bytes, first), first, place.at))
        }
        _ => None,
    }
}

// Adds the names of what else the profile leaves out of a module, where there are any.
fn say_others(words: &mut Words, module: &Stmt, name: &Text) -> Result<(), Memory> {
    let names = left_out_in(words.alloc, module, name)?;
    let mut before = " This profile also leaves out, in this module, ";
    for name in names.iter() {
        words.say(before)?;
        words.quote(name.as_str())?;
        before = ", ";
    }
    match names.is_empty() {
        true => Ok(()),
        false => words.say("."),
    }
}
