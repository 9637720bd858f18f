//! Signs of numbers.
ghost use Rattle.std.specs.Prelude.{◌≡◌, ◌≢◌, ◌<◌, ◌^◌, ◌++◌, ℕ, List, OnOk, MatchOption, unsigned_abs};
ghost use Rattle.orc_value.specs.Numerals.{sign_text};

use orc_text::{Memory, Text};

// The number without its sign.
pub(crate) fn magnitude(number: i128) -> u64
    requires { unsigned_abs number < 2 ^ 64 }
    ensures { result ≡ unsigned_abs number }
{
    number.unsigned_abs() as u64
}

// Writes `-` where the number is below 0.
pub(crate) fn push_sign(text: &mut Text, number: i128) -> Result<(), Memory>
    ensures { OnOk result (text.new ≡ text.old ++ sign_text number) }
{
    if number < 0 { text.push('-') } else { Ok(()) }
}

// What stands after that sign.
pub(crate) fn after_sign(text: &[u8], number: i128) -> Option<&[u8]>
    ensures { MatchOption result ((rest : List ℕ) → text.now ≢ sign_text number ++ rest)
        (λ rest. text.now ≡ sign_text number ++ rest.now) }
{
    if number >= 0 {
        return Some(text);
    }
    match text {
        [b'-', rest @ ..] => Some(rest),
        _ => None,
    }
}
