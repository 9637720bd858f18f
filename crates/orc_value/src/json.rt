//! The JSON of one value.
ghost use Rattle.std.specs.Prelude.{◌≡◌, IfOk, is_ok, Ok, pos, unwrap_or, option_and_then};
ghost use Rattle.serde_json.specs.Data.{string, array, item, no_items, null};
ghost use Rattle.serde_json.specs.Find.{as_str, as_bool, as_number, as_array, as_integer, of_integer};
ghost use Rattle.serde_json.specs.View.{view, number_view};
ghost use Rattle.orc_value.specs.Integers.{int_value};
ghost use Rattle.orc_value.specs.Canon.{canon_of, Answers};
ghost use Rattle.orc_value.specs.Json.{json_of, canon_of_string, canon_of_integer, canon_of_boolean, canon_of_items, canon_of_json};

use crate::canonical::canon;
use crate::fault::{KIND, RANGE};
use crate::integers::{has_integer, integer, written_integer};
use crate::{IntKind, Kind, ValueFault};
use orc_text::{Memory, Text};
use serde_json::{Number, Value};
use std::alloc::Global;

/// The JSON of a canonical text: RFC 7951 section 6. An integer whose type isn't quoted is a
/// number, a boolean is `true` or `false`, the empty value is `[null]`, and the others are strings.
pub fn to_json(alloc: Global, kind: &Kind, text: &Text) -> Result<Value, Memory>
    requires { canon_of kind.now text.now ≡ Ok text.now }
    ensures json { IfOk result (λ value. view value ≡ json_of kind.now text.now) }
    // It is read back as the text.
    ensures back { IfOk result (λ value. canon_of_json kind.now (view value) ≡ Ok text.now) }
{
    match kind {
        Kind::Int(int) => if int.quoted {
            to_string(alloc, text)
        } else {
            Ok(Value::Number(to_number(int, text)))
        },
        Kind::Bool => Ok(Value::Bool(text.as_str() == "true")),
        Kind::Empty => null_item(alloc),
        Kind::Decimal(_) | Kind::Str(_) | Kind::Enum(_) => to_string(alloc, text),
    }
}

/// The canonical text of the value that JSON has. Rule 5 is the fault of a JSON value of another
/// kind than the type's: a number where a string is due, and the other way round.
pub fn from_json(alloc: Global, kind: &Kind, value: &Value) -> Result<Text, ValueFault>
    ensures answer { Answers (canon_of_json kind.now (view value.now)) result }
    ensures canonical { IfOk result (λ canonical. canon_of kind.now canonical ≡ Ok canonical) }
{
    match kind {
        Kind::Int(int) => if int.quoted {
            canon_string(alloc, kind, value)
        } else {
            canon_integer(alloc, int, value)
        },
        Kind::Bool => canon_boolean(alloc, value),
        Kind::Empty => canon_empty(alloc, value),
        Kind::Decimal(_) | Kind::Str(_) | Kind::Enum(_) => canon_string(alloc, kind, value),
    }
}

// The string of a text.
fn to_string(alloc: Global, text: &Text) -> Result<Value, Memory>
    ensures { IfOk result (λ value. view value ≡ string text.now) }
{
    Ok(Value::String(String::from_str(alloc, text.as_str())?))
}

// The number that a canonical text denotes.
fn to_number(kind: &IntKind, text: &Text) -> Number
    requires { canon_of (Kind.Int kind.now) text.now ≡ Ok text.now }
    ensures { number_view result ≡ of_integer (unwrap_or (int_value text.now) (pos 0)) }
{
    match integer(kind, text.as_str()) {
        Ok(number) => match Number::from_i128(number) {
            Some(number) => number,
            None => unreachable!(),
        },
        Err(_) => unreachable!(),
    }
}

// `[null]`.
fn null_item(alloc: Global) -> Result<Value, Memory>
    ensures { IfOk result (λ value. view value ≡ array (item null no_items)) }
{
    let mut items = Vec::new(alloc);
    items.push(Value::Null)?;
    Ok(Value::Array(items))
}

// The canonical text of a value that JSON has in a string.
fn canon_string(alloc: Global, kind: &Kind, value: &Value) -> Result<Text, ValueFault>
    ensures answer { Answers (canon_of_string kind.now (as_str (view value.now))) result }
    ensures canonical { IfOk result (λ canonical. canon_of kind.now canonical ≡ Ok canonical) }
{
    match value.as_str() {
        Some(text) => canon(alloc, kind, text),
        None => Err(ValueFault::BadValue { rule: KIND }),
    }
}

// The whole number that JSON has.
fn whole_number(value: &Value) -> Option<i128>
    ensures { result ≡ option_and_then as_integer (as_number (view value.now)) }
{
    value.as_number()?.as_i128()
}

// The canonical text of an integer that JSON has as a number.
fn canon_integer(alloc: Global, kind: &IntKind, value: &Value) -> Result<Text, ValueFault>
    ensures answer { Answers
        (canon_of_integer kind.now (option_and_then as_integer (as_number (view value.now)))) result }
    ensures canonical { IfOk result
        (λ canonical. canon_of (Kind.Int kind.now) canonical ≡ Ok canonical) }
{
    match whole_number(value) {
        Some(number) => if has_integer(kind, number) {
            Ok(written_integer(alloc, number)?)
        } else {
            Err(ValueFault::BadValue { rule: RANGE })
        },
        None => Err(ValueFault::BadValue { rule: KIND }),
    }
}

// The canonical text of a boolean that JSON has as such.
fn canon_boolean(alloc: Global, value: &Value) -> Result<Text, ValueFault>
    ensures answer { Answers (canon_of_boolean (as_bool (view value.now))) result }
    ensures canonical { IfOk result (λ canonical. canon_of Kind.Bool canonical ≡ Ok canonical) }
{
    match value.as_bool() {
        Some(true) => Ok(Text::from_str(alloc, "true")?),
        Some(false) => Ok(Text::from_str(alloc, "false")?),
        None => Err(ValueFault::BadValue { rule: KIND }),
    }
}

// The empty text, where JSON has `[null]`.
fn canon_empty(alloc: Global, value: &Value) -> Result<Text, ValueFault>
    ensures answer { Answers (canon_of_items (as_array (view value.now))) result }
    ensures canonical { IfOk result (λ canonical. canon_of Kind.Empty canonical ≡ Ok canonical) }
{
    if is_null_item(value) {
        Ok(Text::new(alloc))
    } else {
        Err(ValueFault::BadValue { rule: KIND })
    }
}

// Whether JSON has `[null]`.
fn is_null_item(value: &Value) -> bool
    ensures { result ≡ is_ok (canon_of_items (as_array (view value.now))) }
{
    let Some(items) = value.as_array() else {
        return false;
    };
    let items = items.as_slice();
    if items.len() != 1 {
        return false;
    }
    items[0].is_null()
}
