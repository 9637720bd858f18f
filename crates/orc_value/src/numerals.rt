//! Digits of numbers: reading them and writing them.
ghost use Rattle.std.specs.Prelude.{◌≡◌, ◌<◌, ◌^◌, [], ◌∷◌, ◌++◌, ◌+◌, ◌-◌, ◌*◌, ◌↔◌, IsTrue, OnOk, SomeIff};
ghost use Rattle.std.specs.Char.{is_ascii_digit};
ghost use Rattle.std.specs.Str.Parse.{without_leading_sign, digits_value_after};
ghost use Rattle.std.specs.Fmt.{decimal};
ghost use Rattle.orc_value.specs.Numerals.{is_numeral, all_digits};

use orc_text::{Memory, Text};

// What stands after a leading sign.
pub(crate) fn without_sign(text: &[u8]) -> &[u8]
    ensures { result.now ≡ without_leading_sign text.now }
{
    match text {
        [b'-' | b'+', unsigned @ ..] => unsigned,
        _ => text,
    }
}

// Whether there are digits and nothing else.
fn all_digits(text: &[u8]) -> bool
    ensures { result ≡ all_digits text.now }
{
    text.iter().all(|byte| byte.is_ascii_digit())
}

// Whether there is one digit or more, and nothing else.
pub(crate) fn is_numeral(text: &[u8]) -> bool
    ensures { result ≡ is_numeral text.now }
{
    !text.is_empty() && all_digits(text)
}

// The number with a further digit, where it has 64 bits.
fn with_digit(number: u64, digit: u8) -> Option<u64>
    requires { IsTrue (is_ascii_digit digit) }
    ensures { SomeIff result (number * 10 + (digit - 48) < 2 ^ 64) (number * 10 + (digit - 48)) }
{
    number.checked_mul(10)?.checked_add(u64::from(digit - b'0'))
}

// The number that the digits write after those of `start`, where it has 64 bits.
pub(crate) fn read_on(start: u64, digits: &[u8]) -> Option<u64>
    requires { IsTrue (all_digits digits.now) }
    ensures { SomeIff result (digits_value_after 10 start digits.now < 2 ^ 64)
        (digits_value_after 10 start digits.now) }
{
    let mut number = start;
    for digit in digits {
        number = with_digit(number, *digit)?;
    }
    Some(number)
}

// Writes one decimal digit.
pub(crate) fn push_digit(text: &mut Text, digit: u64) -> Result<(), Memory>
    requires { digit < 10 }
    ensures { OnOk result (text.new ≡ text.old ++ (48 + digit) ∷ []) }
{
    text.push(char::from(b'0' + digit as u8))
}

// Writes the decimal digits of a number.
pub(crate) fn push_decimal(text: &mut Text, number: u64) -> Result<(), Memory>
    ensures { OnOk result (text.new ≡ text.old ++ decimal number) }
{
    if number < 10 {
        return push_digit(text, number);
    }
    push_decimal(text, number / 10)?;
    push_digit(text, number % 10)
}

// Whether the text is the decimal digits of a number.
pub(crate) fn is_decimal_of(text: &[u8], number: u64) -> bool
    ensures { IsTrue result ↔ (text.now ≡ decimal number) }
{
    let [front @ .., last] = text else {
        return false;
    };
    if *last != b'0' + (number % 10) as u8 {
        return false;
    }
    if number < 10 {
        front.is_empty()
    } else {
        is_decimal_of(front, number / 10)
    }
}
