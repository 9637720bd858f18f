//! The paths of leafrefs, and the modules of the prefixes in them.
ghost use Rattle.std.specs.Prelude.{◌≡◌, ◌≤◌, IfOk, length, map, not, option_map};
ghost use Rattle.std.specs.List.{find, position};
ghost use Rattle.orc_types.specs.Paths.{is_up};
ghost use Rattle.orc_statements.specs.declared.cuts.Mark.TheVariants.{Slash};
ghost use Rattle.orc_statements.specs.Cuts.{parts};
ghost use Rattle.orc_statements.specs.References.{owner_in, is_strange, count_ups, is_absolute, reference_names, step_of, reference_of};

use crate::cuts::{Mark, cut, parts};
use orc_modules::{Modules, owner_in, text_looks, text_weight};
use orc_text::{Memory, Row, Text};
use orc_yang::Stmt;
use std::alloc::Global;

/// A leafref's path: its text, whether it is absolute, how many times it goes up, and its names.
#[derive(Drop)]
pub struct Reference {
    pub text: Text,
    pub absolute: bool,
    pub ups: u64,
    pub names: Row<StepName>,
}

/// A name in a leafref's path. Its owner is the module of its prefix; without one it is of the
/// module of the node.
#[derive(Drop)]
pub struct StepName {
    pub owner: Option<Text>,
    pub name: Text,
}

// The name of the module that a prefix stands for in a module.
fn owner_around<'a>(
    modules: &Modules<'a>,
    around: Option<&'a Stmt>,
    prefix: &str,
) -> Result<Option<&'a str>, Memory>
    ensures { IfOk result (λ owner. option_map (λ name. name.now) owner
        ≡ owner_in modules.now.all.now (option_map (λ m. m.now) around.entry) prefix.now) }
{
    match around {
        Some(stmt) => owner_in(modules, prefix, stmt),
        None => Ok(None),
    }
}

// Whether no module has the prefix of a name.
fn is_strange(modules: &Modules<'_>, around: Option<&Stmt>, name: &str) -> Result<bool, Memory>
    ensures { IfOk result (λ strange. strange
        ≡ is_strange modules.now.all.now (option_map (λ m. m.now) around.entry) name.now) }
{
    match cut(Mark::Colon, name) {
        Some((prefix, _)) => Ok(owner_around(modules, around, prefix)?.is_none()),
        None => Ok(false),
    }
}

// Whether a part of a path is another one than `..`.
fn is_other(part: &Text) -> bool
    ensures { result ≡ not (is_up part.now) }
{
    part.as_str() != ".."
}

// The place of the first part of a path that is another one than `..`.
fn first_other(parts: &[Text]) -> Option<usize>
    ensures { result ≡ position (λ part. not (is_up part)) parts.now }
{
    parts.iter().position(|part| is_other(part))
}

// How many `..` a path begins with.
fn count_ups(parts: &[Text]) -> usize
    ensures count { result ≡ count_ups parts.now }
    ensures within { result ≤ length parts.now }
{
    match first_other(parts) {
        Some(place) => place,
        None => parts.len(),
    }
}

fn is_absolute(parts: &[Text]) -> bool
    ensures { result ≡ is_absolute parts.now }
{
    match parts {
        [] => false,
        [first, ..] => first.as_str().is_empty(),
    }
}

// The names of a path, after what it begins with.
fn reference_names(parts: &[Text]) -> &[Text]
    ensures { result.now ≡ reference_names parts.now }
{
    match parts {
        [] => parts,
        [first, names @ ..] => {
            if first.as_str().is_empty() {
                names
            } else {
                &parts[count_ups(parts)..]
            }
        },
    }
}

// The first of the names whose prefix no module has.
fn strange_among<'a>(
    modules: &Modules<'_>,
    around: Option<&Stmt>,
    names: &'a [Text],
) -> Result<Option<&'a Text>, Memory>
    ensures { IfOk result (λ found. option_map (λ name. name.now) found
        ≡ find (is_strange modules.now.all.now (option_map (λ m. m.now) around.entry)) names.now) }
{
    for name in names {
        if is_strange(modules, around, name.as_str())? {
            return Ok(Some(name));
        }
    }
    Ok(None)
}

// The first name of a path whose prefix no module has.
pub(crate) fn first_strange(
    alloc: Global,
    modules: &Modules<'_>,
    around: Option<&Stmt>,
    text: &str,
) -> Result<Option<Text>, Memory>
    ensures { IfOk result (λ found. found
        ≡ find (is_strange modules.now.all.now (option_map (λ m. m.now) around.entry))
        (reference_names (parts Slash text.now))) }
{
    modules.looks.visit(text_looks(text).saturating_add(1))?;
    let all = parts(alloc, Mark::Slash, text)?;
    match strange_among(modules, around, reference_names(all.as_slice()))? {
        Some(name) => Ok(Some(name.copy(alloc)?)),
        None => Ok(None),
    }
}

// A name in a path, with the module of its prefix.
fn step_of(
    alloc: Global,
    modules: &Modules<'_>,
    around: Option<&Stmt>,
    name: &str,
) -> Result<StepName, Memory>
    ensures { IfOk result (λ step. step
        ≡ step_of modules.now.all.now (option_map (λ m. m.now) around.entry) name.now) }
{
    match cut(Mark::Colon, name) {
        Some((prefix, plain)) => Ok(StepName {
            owner: match owner_around(modules, around, prefix)? {
                Some(owner) => Some(Text::from_str(alloc, owner)?),
                None => None,
            },
            name: Text::from_str(alloc, plain)?,
        }),
        None => Ok(StepName {
            owner: None,
            name: Text::from_str(alloc, name)?,
        }),
    }
}

// The names of a path.
fn steps_of(
    alloc: Global,
    modules: &Modules<'_>,
    around: Option<&Stmt>,
    names: &[Text],
) -> Result<Row<StepName>, Memory>
    ensures { IfOk result (λ steps. steps
        ≡ map (step_of modules.now.all.now (option_map (λ m. m.now) around.entry)) names.now) }
{
    let mut steps = Row::new(alloc);
    for name in names {
        steps.push(step_of(alloc, modules, around, name.as_str())?)?;
    }
    Ok(steps)
}

/// A leafref's path, whose text stands in the module. What it goes through and keeps is counted.
pub fn reference_of(
    alloc: Global,
    modules: &Modules<'_>,
    around: Option<&Stmt>,
    text: &str,
) -> Result<Reference, Memory>
    ensures { IfOk result (λ reference. reference
        ≡ reference_of modules.now.all.now (option_map (λ m. m.now) around.entry) text.now) }
{
    modules.looks.visit(text_looks(text).saturating_add(1))?;
    modules.looks.keep(text_weight(text))?;
    let all = parts(alloc, Mark::Slash, text)?;
    Ok(Reference {
        text: Text::from_str(alloc, text)?,
        absolute: is_absolute(all.as_slice()),
        ups: count_ups(all.as_slice()) as u64,
        names: steps_of(alloc, modules, around, reference_names(all.as_slice()))?,
    })
}
