//! The canonical text of a value, and its JSON. A type is named by a `type` statement, or as
//! `N places`, a decimal type of so many fraction digits.
ghost use Rattle.std.specs.Prelude.{◌≡◌, Ok};
ghost use Rattle.orc_value.specs.Canon.{canon_of};

use crate::line::text_of;
use crate::shown::Shown;
use crate::undone::Undone;
use crate::yang::restrictions::kind_of;
use orc_text::{Copied, Text};
use orc_value::{Kind, ValueFault, canon, from_json, is_canonical, to_json};
use serde_json::Value;
use std::alloc::Global;

// A type and a text.
#[derive(Drop)]
struct Typed {
    kind: Kind,
    text: Text,
}

// The type that is named first, and the text after it.
fn typed_of(alloc: Global, given: &str) -> Result<Typed, Undone> {
    let (name, text) = given.split_once('|').unwrap_or((given, ""));
    let text = text_of(alloc, text)?;
    let kind = copy_of(alloc, &named(alloc, name)?)?;
    Ok(Typed { kind, text })
}

// A copy of a type, which must be equal.
fn copy_of(alloc: Global, kind: &Kind) -> Result<Kind, Undone> {
    let copy = kind.copied(alloc)?;
    match copy == *kind {
        true => Ok(copy),
        false => Err(Undone),
    }
}

// The type of this name.
fn named(alloc: Global, name: &str) -> Result<Kind, Undone> {
    match name.strip_suffix(" places") {
        Some(digits) => Ok(Kind::Decimal(digits.parse()?)),
        None => kind_of(alloc, name),
    }
}

// Adds what a call answered.
fn push_answer(out: &mut Shown, answer: &Result<Text, ValueFault>) -> Result<(), Undone> {
    match answer {
        Ok(text) => out.add(&[text.as_str()]),
        Err(ValueFault::BadValue { rule }) => out.number("rule", u64::from(*rule)),
        Err(ValueFault::Memory) => Err(Undone),
    }
}

/// Adds what `canon` answers, where `is_canonical` says whether that is the text that was given.
pub(crate) fn push_canon(out: &mut Shown, given: &str) -> Result<(), Undone> {
    let Typed { kind, text } = &typed_of(out.alloc, given)?;
    let answer = canon(out.alloc, kind, text.as_str());
    if is_canonical(kind, text) != is_own(&answer, text) {
        return Err(Undone);
    }
    push_answer(out, &answer)
}

// Whether a text is its own canonical one.
fn is_own(answer: &Result<Text, ValueFault>, text: &Text) -> bool {
    match answer {
        Ok(canonical) => *canonical == *text,
        Err(_) => false,
    }
}

/// Adds what `from_json` answers.
pub(crate) fn push_read(out: &mut Shown, given: &str) -> Result<(), Undone> {
    let Typed { kind, text } = &typed_of(out.alloc, given)?;
    match Value::from_str(out.alloc, text.as_str()) {
        Ok(value) => push_answer(out, &from_json(out.alloc, kind, &value)),
        Err(_) => Err(Undone),
    }
}

/// Adds what `to_json` gives for a canonical text.
pub(crate) fn push_written(out: &mut Shown, given: &str) -> Result<(), Undone> {
    let Typed { kind, text } = &typed_of(out.alloc, given)?;
    if !is_canonical(kind, text) {
        return Err(Undone);
    }
    push_json(out, kind, text)
}

// Adds the JSON of a canonical text.
fn push_json(out: &mut Shown, kind: &Kind, text: &Text) -> Result<(), Undone>
    requires { canon_of kind.now text.now ≡ Ok text.now }
{
    let value = to_json(out.alloc, kind, text)?;
    out.add(&[value.to_string(out.alloc)?.as_str()])
}
