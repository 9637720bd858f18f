//! The canonical text of a value.
ghost use Rattle.std.specs.Prelude.{◌≡◌, ◌↔◌, IsTrue, IfOk, Ok, List, ℕ};
ghost use Rattle.orc_value.specs.Canon.{canon_of, is_canonical, string_rule, bool_rule, enum_rule, empty_rule, kept, Answers, SameValue};

use crate::characters::character_count;
use crate::decimals::{decimal, is_decimal_text, written_decimal};
use crate::fault::{ENUM, LENGTH, LEXICAL};
use crate::integers::{integer, is_integer_text, written_integer};
use crate::{IntKind, Kind, Lengths, Names, ValueFault};
use orc_text::{Text, is_plain_text};
use std::alloc::Global;

/// The canonical text of the value that a text denotes: RFC 7950 section 9.
pub fn canon(alloc: Global, kind: &Kind, text: &str) -> Result<Text, ValueFault>
    ensures answer { Answers (canon_of kind.now text.now) result }
    // A canonical text is its own canonical text.
    ensures again { IfOk result (λ canonical. canon_of kind.now canonical ≡ Ok canonical) }
    // Just the texts that denote the same value have this canonical text.
    ensures same { IfOk result (λ canonical. (other : List ℕ)
        → (canon_of kind.now other ≡ Ok canonical) ↔ SameValue kind.now other text.now) }
{
    match kind {
        Kind::Int(kind) => canon_integer(alloc, kind, text),
        Kind::Decimal(places) => canon_decimal(alloc, *places, text),
        Kind::Str(lengths) => keep(alloc, string_rule(lengths, text), text),
        Kind::Bool => keep(alloc, bool_rule(text), text),
        Kind::Enum(names) => keep(alloc, enum_rule(names, text), text),
        Kind::Empty => keep(alloc, empty_rule(text), text),
    }
}

/// Whether a text is its own canonical text. It takes no memory.
pub fn is_canonical(kind: &Kind, text: &Text) -> bool
    ensures exact { IsTrue result ↔ (canon_of kind.now text.now ≡ Ok text.now) }
    ensures value { result ≡ is_canonical kind.now text.now }
{
    is_own_text(kind, text.as_str())
}

// Whether a text is its own canonical text.
fn is_own_text(kind: &Kind, text: &str) -> bool
    ensures { IsTrue result ↔ (canon_of kind.now text.now ≡ Ok text.now) }
{
    match kind {
        Kind::Int(kind) => is_own_integer(kind, text),
        Kind::Decimal(places) => is_own_decimal(*places, text),
        Kind::Str(lengths) => string_rule(lengths, text).is_none(),
        Kind::Bool => bool_rule(text).is_none(),
        Kind::Enum(names) => enum_rule(names, text).is_none(),
        Kind::Empty => empty_rule(text).is_none(),
    }
}

// Whether a text is the canonical text of an integer.
fn is_own_integer(kind: &IntKind, text: &str) -> bool
    ensures { IsTrue result ↔ (canon_of (Kind.Int kind.now) text.now ≡ Ok text.now) }
{
    match integer(kind, text) {
        Ok(number) => is_integer_text(text.as_bytes(), number),
        Err(_) => false,
    }
}

// Whether a text is the canonical text of a decimal number.
fn is_own_decimal(places: u8, text: &str) -> bool
    ensures { IsTrue result ↔ (canon_of (Kind.Decimal places) text.now ≡ Ok text.now) }
{
    match decimal(places, text) {
        Ok(value) => is_decimal_text(text.as_bytes(), places, value),
        Err(_) => false,
    }
}

fn canon_integer(alloc: Global, kind: &IntKind, text: &str) -> Result<Text, ValueFault>
    ensures { Answers (canon_of (Kind.Int kind.now) text.now) result }
{
    match integer(kind, text) {
        Ok(number) => Ok(written_integer(alloc, number)?),
        Err(rule) => Err(ValueFault::BadValue { rule }),
    }
}

fn canon_decimal(alloc: Global, places: u8, text: &str) -> Result<Text, ValueFault>
    ensures { Answers (canon_of (Kind.Decimal places) text.now) result }
{
    match decimal(places, text) {
        Ok(value) => Ok(written_decimal(alloc, places, value)?),
        Err(rule) => Err(ValueFault::BadValue { rule }),
    }
}

// The text itself, or the rule that it breaks.
fn keep(alloc: Global, rule: Option<u8>, text: &str) -> Result<Text, ValueFault>
    ensures { Answers (kept rule text.now) result }
{
    match rule {
        None => Ok(Text::from_str(alloc, text)?),
        Some(rule) => Err(ValueFault::BadValue { rule }),
    }
}

// The rule that a text breaks as a string.
fn string_rule(lengths: &Lengths, text: &str) -> Option<u8>
    ensures { result ≡ string_rule lengths.now text.now }
{
    if !is_plain_text(text) {
        return Some(LEXICAL);
    }
    if lengths.has(character_count(text) as u64) {
        None
    } else {
        Some(LENGTH)
    }
}

// The rule that a text breaks as a boolean.
fn bool_rule(text: &str) -> Option<u8>
    ensures { result ≡ bool_rule text.now }
{
    if text == "true" || text == "false" {
        None
    } else {
        Some(LEXICAL)
    }
}

// The rule that a text breaks as one of the names.
fn enum_rule(names: &Names, text: &str) -> Option<u8>
    ensures { result ≡ enum_rule names.now text.now }
{
    if !is_plain_text(text) {
        return Some(LEXICAL);
    }
    if names.has(text) { None } else { Some(ENUM) }
}

// The rule that a text breaks as the empty one.
fn empty_rule(text: &str) -> Option<u8>
    ensures { result ≡ empty_rule text.now }
{
    if text.is_empty() { None } else { Some(LEXICAL) }
}
