//! A breach that was found, and the lesser of two. It takes no memory but to be handed out.
ghost use Rattle.std.specs.Prelude.{◌≡◌, ◌++◌, ◌∷◌, [], IfOk, IsTrue};
ghost use Rattle.std.specs.List.{fold};
ghost use Rattle.std.specs.Ordering.{is_lt};
ghost use Rattle.orc_path.specs.Steps.{is_name_behind};
ghost use Rattle.orc_check.specs.Validity.{breach_cmp, breach_if, lesser_breach, plain_steps};
ghost use Rattle.orc_check.specs.Found.{place_path, breach_of, found_breach};

use crate::order::order;
use orc_path::{Name, Path, Step, is_identifier};
use orc_text::{Memory, Row, Text};
use std::alloc::Global;
use std::cmp::Ordering;

/// A rule that is broken below a place (none is the root), at the names after its path.
#[derive(Drop)]
pub(crate) struct Found<'a> {
    pub(crate) place: Option<&'a Path>,
    pub(crate) names: &'a [Text],
    pub(crate) rule: u8,
}

/// The steps of a place.
pub(crate) fn place_steps<'a>(place: Option<&'a Path>) -> &'a [Step]
    ensures { result.now ≡ place_path place.entry }
{
    match place {
        Some(path) => path.steps.as_slice(),
        None => &[],
    }
}

// Whether the first breach comes before the second one.
fn is_before(found: &Found<'_>, other: &Found<'_>) -> bool
    ensures { result ≡ is_lt (breach_cmp (breach_of found.now) (breach_of other.now)) }
{
    let steps = place_steps(found.place);
    let others = place_steps(other.place);
    match order(steps, found.names, others, other.names) {
        Ordering::Less => true,
        Ordering::Greater => false,
        Ordering::Equal => found.rule < other.rule,
    }
}

// The lesser of the breaches, or the first where none is less.
fn lesser<'a>(best: Option<Found<'a>>, found: Found<'a>) -> Option<Found<'a>>
    ensures { found_breach result ≡ lesser_breach (found_breach best.entry) (breach_of found.entry) }
{
    match best {
        None => Some(found),
        Some(known) => {
            if is_before(&found, &known) {
                Some(found)
            } else {
                Some(known)
            }
        }
    }
}

/// The lesser of the best breach so far and of this one, where it is one.
pub(crate) fn keep_if<'a>(
    best: Option<Found<'a>>,
    broken: bool,
    place: Option<&'a Path>,
    names: &'a [Text],
    rule: u8,
) -> Option<Found<'a>>
    ensures { found_breach result ≡ fold lesser_breach (found_breach best.entry)
        (breach_if broken (place_path place.entry ++ plain_steps names.now) rule) }
{
    if broken {
        lesser(best, Found { place, names, rule })
    } else {
        best
    }
}

/// The lesser of the best breach so far and of this one at a path, where it is one.
pub(crate) fn keep_at<'a>(
    best: Option<Found<'a>>,
    broken: bool,
    path: &'a Path,
    rule: u8,
) -> Option<Found<'a>>
    ensures { found_breach result ≡ fold lesser_breach (found_breach best.entry) (breach_if broken path.now rule) }
{
    keep_if(best, broken, Some(path), &[], rule)
}

// The name of this text; a schema has no other.
fn name_of(alloc: Global, text: &Text) -> Result<Name, Memory>
    ensures { IfOk result (λ name. name ≡ text.now) }
{
    match Name::new(alloc, text.as_str()) {
        Ok(name) => Ok(name),
        Err(_) => Err(Memory),
    }
}

// Whether the name may stand after the path: with its module at the top, and without it below.
fn fits_behind(path: &Path, name: &Name) -> bool
    ensures { IsTrue result → IsTrue (is_name_behind path.now name.now) }
{
    match path.steps.as_slice() {
        [] => !is_identifier(name.as_str()),
        [..] => is_identifier(name.as_str()),
    }
}

// The path with one step more, without keys.
fn with_step(alloc: Global, path: &Path, name: &Text) -> Result<Path, Memory>
    ensures { IfOk result (λ longer. longer ≡ path.now ++ plain_steps (name.now ∷ [])) }
{
    let node = name_of(alloc, name)?;
    if !fits_behind(path, &node) {
        return Err(Memory);
    }
    path.child(
        alloc,
        Step {
            node,
            keys: Row::new(alloc),
        },
    )
}

// The path with further steps without keys.
fn with_steps(alloc: Global, path: Path, names: &[Text]) -> Result<Path, Memory>
    ensures { IfOk result (λ longer. longer ≡ path ++ plain_steps names.now) }
{
    match names {
        [] => Ok(path),
        [name, later @ ..] => with_steps(alloc, with_step(alloc, &path, name)?, later),
    }
}

// The path of a place.
fn place_path(alloc: Global, place: Option<&Path>) -> Result<Path, Memory>
    ensures { IfOk result (λ path. path ≡ place_path place.entry) }
{
    match place {
        Some(path) => path.copy(alloc),
        None => Ok(Path {
            steps: Row::new(alloc),
        }),
    }
}

/// The path of a breach.
pub(crate) fn path_of(alloc: Global, found: &Found<'_>) -> Result<Path, Memory>
    ensures { IfOk result (λ path. path ≡ place_path found.now.place ++ plain_steps found.now.names.now) }
{
    with_steps(alloc, place_path(alloc, found.place)?, found.names)
}
