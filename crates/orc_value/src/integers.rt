//! Integers.
ghost use Rattle.std.specs.Prelude.{◌≡◌, ◌++◌, ◌↔◌, IsTrue, IfOk, OnOk, if◌then◌else◌};
ghost use Rattle.std.specs.Str.Parse.{without_leading_sign};
ghost use Rattle.orc_value.specs.Numerals.{admitted, is_numeral};
ghost use Rattle.orc_value.specs.declared.fault.TheConstants.{LEXICAL, RANGE};
ghost use Rattle.orc_value.specs.Integers.{int_value, has_integer, is_64_bit, int_text};

use crate::IntKind;
use crate::fault::{LEXICAL, RANGE};
use crate::numerals::{is_decimal_of, is_numeral, push_decimal, without_sign};
use crate::signs::{after_sign, magnitude, push_sign};
use orc_text::{Memory, Text};
use std::alloc::Global;

// Whether the type has the number.
pub(crate) fn has_integer(kind: &IntKind, number: i128) -> bool
    ensures { result ≡ has_integer kind.now number }
{
    i64::MIN as i128 <= number && number <= u64::MAX as i128 && kind.ranges.has(number)
}

// The rule that a text breaks which std reads as no number of 128 bits.
fn no_integer(text: &[u8]) -> u8
    ensures { result ≡ (if is_numeral (without_leading_sign text.now) then RANGE else LEXICAL) }
{
    if is_numeral(without_sign(text)) {
        RANGE
    } else {
        LEXICAL
    }
}

// The number that a text denotes, or the rule that it breaks.
pub(crate) fn integer(kind: &IntKind, text: &str) -> Result<i128, u8>
    ensures { result ≡ admitted (has_integer kind.now) (int_value text.now) }
{
    match text.parse::<i128>() {
        Ok(number) => {
            if has_integer(kind, number) {
                Ok(number)
            } else {
                Err(RANGE)
            }
        }
        Err(_) => Err(no_integer(text.as_bytes())),
    }
}

// The canonical text of a number.
pub(crate) fn written_integer(alloc: Global, number: i128) -> Result<Text, Memory>
    requires { IsTrue (is_64_bit number) }
    ensures { IfOk result (λ text. text ≡ int_text number) }
{
    let mut text = Text::new(alloc);
    push_integer(&mut text, number)?;
    Ok(text)
}

// Writes the canonical text of a number.
fn push_integer(text: &mut Text, number: i128) -> Result<(), Memory>
    requires { IsTrue (is_64_bit number) }
    ensures { OnOk result (text.new ≡ text.old ++ int_text number) }
{
    push_sign(text, number)?;
    push_decimal(text, magnitude(number))
}

// Whether the text is the canonical text of a number.
pub(crate) fn is_integer_text(text: &[u8], number: i128) -> bool
    requires { IsTrue (is_64_bit number) }
    ensures { IsTrue result ↔ (text.now ≡ int_text number) }
{
    match after_sign(text, number) {
        Some(digits) => is_decimal_of(digits, magnitude(number)),
        None => false,
    }
}
