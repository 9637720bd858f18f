//! Decimal numbers.
ghost use Rattle.std.specs.Prelude.{◌≡◌, drop, ◌<◌, ◌≤◌, ◌^◌, ◌++◌, ◌↔◌, IsTrue, IfOk, OnOk, SomeIff, IfSome, is_some, ◌&&◌, ◌||◌, not, length, take, Some};
ghost use Rattle.std.specs.List.{position, before_first, after_first};
ghost use Rattle.std.specs.Str.Parse.{starts_with_minus};
ghost use Rattle.orc_value.specs.Numerals.{admitted, all_digits, is_numeral, signed};
ghost use Rattle.orc_value.specs.Decimals.{is_point, decimal_value, is_decimal_value, decimal_text, places_text, fraction_digits, fraction_text};
ghost use Rattle.orc_value.specs.inside.Scaled.{are_zeros, units};

use crate::fault::{LEXICAL, RANGE};
use crate::numerals::{is_decimal_of, is_numeral, push_decimal, push_digit, read_on, without_sign};
use crate::signs::{after_sign, magnitude, push_sign};
use orc_text::{Memory, Text};
use std::alloc::Global;

// The place of the first point.
fn place_of_point(text: &[u8]) -> Option<usize>
    ensures { result ≡ position is_point text.now }
{
    text.iter().position(|byte| *byte == b'.')
}

// The parts before the first point and after it.
fn split_at_point(text: &[u8]) -> Option<(&[u8], &[u8])>
    ensures point { is_some result ≡ is_some (position is_point text.now) }
    ensures parts { IfSome result (λ parts. (parts.0.now ≡ before_first is_point text.now)
        × (parts.1.now ≡ after_first is_point text.now)) }
{
    match place_of_point(text) {
        Some(place) => Some((&text[..place], &text[place + 1..])),
        None => None,
    }
}

// The digits before the point and after it, where the text is digits with a point among them or
// without one.
fn decimal_parts(text: &[u8]) -> Option<(&[u8], &[u8])>
    ensures parts { IfSome result (λ parts. (parts.0.now ≡ before_first is_point text.now)
        × (parts.1.now ≡ after_first is_point text.now)) }
    ensures form { is_some result ≡ (is_numeral (before_first is_point text.now)
        && (is_numeral (after_first is_point text.now) || not (is_some (position is_point text.now)))) }
{
    let (whole, fraction) = match split_at_point(text) {
        Some((whole, fraction)) => {
            if !is_numeral(fraction) {
                return None;
            }
            (whole, fraction)
        },
        None => (text, &text[text.len()..]),
    };
    if is_numeral(whole) {
        Some((whole, fraction))
    } else {
        None
    }
}

// Ten to the power of `exponent`.
fn power_of_ten(exponent: u8) -> u64
    requires { exponent ≤ 18 }
    ensures value { result ≡ 10 ^ exponent }
    ensures positive { 0 < result }
{
    10u64.pow(u32::from(exponent))
}

// The digits up to this many places, and those after them.
fn split_at_place(places: u8, fraction: &[u8]) -> (&[u8], &[u8])
    ensures near { result.0.now ≡ take places fraction.now }
    ensures far { result.1.now ≡ drop places fraction.now }
{
    fraction.split_at(fraction.len().min(usize::from(places)))
}

// Whether all digits are 0.
fn are_zeros(digits: &[u8]) -> bool
    ensures { result ≡ are_zeros digits.now }
{
    digits.iter().all(|digit| *digit == b'0')
}

// The number of the digits round the point, times ten to the power of `places`, where it has 64
// bits.
fn scaled(places: u8, whole: &[u8], fraction: &[u8]) -> Option<u64>
    requires small { places ≤ 18 }
    requires short { length fraction.now ≤ places }
    requires whole { IsTrue (all_digits whole.now) }
    requires fraction { IsTrue (all_digits fraction.now) }
    ensures { SomeIff result (units places whole.now fraction.now < 2 ^ 64)
        (units places whole.now fraction.now) }
{
    let number = read_on(read_on(0, whole)?, fraction)?;
    number.checked_mul(power_of_ten(places - fraction.len() as u8))
}

// Whether a `-` stands first.
fn is_negative(text: &[u8]) -> bool
    ensures { result ≡ starts_with_minus text.now }
{
    matches!(text, [b'-', ..])
}

// The number of this magnitude.
fn with_sign(negative: bool, number: u64) -> i128
    ensures { result ≡ signed negative number }
{
    if negative {
        -i128::from(number)
    } else {
        i128::from(number)
    }
}

// The value, or the rule that it breaks.
fn in_range(value: i128) -> Result<i128, u8>
    ensures { result ≡ admitted is_decimal_value (Some value) }
{
    if i64::MIN as i128 <= value && value <= i64::MAX as i128 {
        Ok(value)
    } else {
        Err(RANGE)
    }
}

// The value that a text denotes at this many fraction digits, or the rule that it breaks.
pub(crate) fn decimal(places: u8, text: &str) -> Result<i128, u8>
    ensures { result ≡ admitted is_decimal_value (decimal_value places text.now) }
{
    let text = text.as_bytes();
    if places < 1 || 18 < places {
        return Err(LEXICAL);
    }
    let Some((whole, fraction)) = decimal_parts(without_sign(text)) else {
        return Err(LEXICAL);
    };
    let (near, far) = split_at_place(places, fraction);
    if !are_zeros(far) {
        return Err(LEXICAL);
    }
    match scaled(places, whole, near) {
        Some(number) => in_range(with_sign(is_negative(text), number)),
        None => Err(RANGE),
    }
}

// Writes the digits of `rest` over ten to the power of `places`, up to the last that isn't 0.
fn push_fraction(text: &mut Text, places: u8, rest: u64) -> Result<(), Memory>
    requires small { places ≤ 18 }
    requires below_one { rest < 10 ^ places }
    ensures { OnOk result (text.new ≡ text.old ++ fraction_digits places rest) }
{
    if rest == 0 {
        return Ok(());
    }
    let unit = power_of_ten(places - 1);
    push_digit(text, rest / unit)?;
    push_fraction(text, places - 1, rest % unit)
}

// Whether the text is those digits.
fn is_fraction(text: &[u8], places: u8, rest: u64) -> bool
    requires small { places ≤ 18 }
    requires below_one { rest < 10 ^ places }
    ensures { IsTrue result ↔ (text.now ≡ fraction_digits places rest) }
{
    if rest == 0 {
        return text.is_empty();
    }
    let unit = power_of_ten(places - 1);
    match text {
        [first, more @ ..] => *first == b'0' + (rest / unit) as u8
            && is_fraction(more, places - 1, rest % unit),
        [] => false,
    }
}

// The canonical text of a value.
pub(crate) fn written_decimal(alloc: Global, places: u8, value: i128) -> Result<Text, Memory>
    requires small { places ≤ 18 }
    requires fits { IsTrue (is_decimal_value value) }
    ensures { IfOk result (λ text. text ≡ decimal_text places value) }
{
    let mut text = Text::new(alloc);
    push_sign(&mut text, value)?;
    push_places(&mut text, places, magnitude(value))?;
    Ok(text)
}

// Writes a number over ten to the power of `places`.
fn push_places(text: &mut Text, places: u8, number: u64) -> Result<(), Memory>
    requires { places ≤ 18 }
    ensures { OnOk result (text.new ≡ text.old ++ places_text places number) }
{
    let unit = power_of_ten(places);
    push_decimal(text, number / unit)?;
    text.push('.')?;
    let rest = number % unit;
    if rest == 0 {
        push_digit(text, 0)
    } else {
        push_fraction(text, places, rest)
    }
}

// Whether the text is the canonical text of a value.
pub(crate) fn is_decimal_text(text: &[u8], places: u8, value: i128) -> bool
    requires small { places ≤ 18 }
    requires fits { IsTrue (is_decimal_value value) }
    ensures { IsTrue result ↔ (text.now ≡ decimal_text places value) }
{
    match after_sign(text, value) {
        Some(unsigned) => is_places(unsigned, places, magnitude(value)),
        None => false,
    }
}

// Whether the text is a number over ten to the power of `places`.
fn is_places(text: &[u8], places: u8, number: u64) -> bool
    requires { places ≤ 18 }
    ensures { IsTrue result ↔ (text.now ≡ places_text places number) }
{
    let unit = power_of_ten(places);
    match split_at_point(text) {
        Some((whole, fraction)) => {
            is_decimal_of(whole, number / unit) && is_fraction_text(fraction, places, number % unit)
        },
        None => false,
    }
}

// Whether the text is the digits of `rest` over ten to the power of `places`, one at least.
fn is_fraction_text(text: &[u8], places: u8, rest: u64) -> bool
    requires small { places ≤ 18 }
    requires below_one { rest < 10 ^ places }
    ensures { IsTrue result ↔ (text.now ≡ fraction_text places rest) }
{
    if rest == 0 {
        matches!(text, [b'0'])
    } else {
        is_fraction(text, places, rest)
    }
}
