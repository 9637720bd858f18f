//! Numbers in the arguments of restrictions.
ghost use Rattle.std.specs.Prelude.{◌≡◌};
ghost use Rattle.std.specs.Str.Parse.{without_leading_sign};
ghost use Rattle.orc_value.specs.Integers.{is_64_bit};
ghost use Rattle.orc_value.specs.Numerals.{all_digits, is_numeral};
ghost use Rattle.orc_types.specs.Numbers.{is_count, is_whole, written_number, fraction_digits_of, int32_of};

// Whether there are digits and nothing else.
fn all_digits(text: &[u8]) -> bool
    ensures { result ≡ all_digits text.now }
{
    text.iter().all(|byte| byte.is_ascii_digit())
}

// Whether there is one digit or more, and nothing else.
fn is_numeral(text: &[u8]) -> bool
    ensures { result ≡ is_numeral text.now }
{
    !text.is_empty() && all_digits(text)
}

/// Whether the text is a non-negative-integer-value: decimal digits without a leading zero, which `0`
/// alone may be (RFC 7950 section 14). It takes no memory.
pub fn is_count(text: &[u8]) -> bool
    ensures { result ≡ is_count text.now }
{
    is_numeral(text) && (text.len() == 1 || !matches!(text, [b'0', ..]))
}

// Whether there are such digits, alone or after `-` or `+`.
pub(crate) fn is_signed_count(text: &[u8]) -> bool
    ensures { result ≡ is_count (without_leading_sign text.now) }
{
    match text {
        [b'-' | b'+', digits @ ..] => is_count(digits),
        _ => is_count(text),
    }
}

// Whether there are such digits, alone or after `-`.
fn is_whole(text: &[u8]) -> bool
    ensures { result ≡ is_whole text.now }
{
    match text {
        [b'-', digits @ ..] => is_count(digits),
        _ => is_count(text),
    }
}

// Whether the number has 64 bits.
fn is_64_bit(number: i128) -> bool
    ensures { result ≡ is_64_bit number }
{
    i64::MIN as i128 <= number && number <= u64::MAX as i128
}

// The number that the text writes.
pub(crate) fn written_number(text: &str) -> Option<i128>
    ensures { result ≡ written_number text.now }
{
    if !is_whole(text.as_bytes()) {
        return None;
    }
    match text.parse::<i128>() {
        Ok(number) if is_64_bit(number) => Some(number),
        Ok(_) => None,
        Err(_) => None,
    }
}

// The number of fraction digits that the argument of `fraction-digits` writes, 1 to 18.
pub(crate) fn fraction_digits_of(text: &str) -> Option<u8>
    ensures { result ≡ fraction_digits_of text.now }
{
    match written_number(text) {
        Some(number) if 1 <= number && number <= 18 => Some(number as u8),
        _ => None,
    }
}

// The number that the argument of an enum's `value` writes.
pub(crate) fn int32_of(text: &str) -> Option<i32>
    ensures { result ≡ int32_of text.now }
{
    match written_number(text) {
        Some(number) if i32::MIN as i128 <= number && number <= i32::MAX as i128 => {
            Some(number as i32)
        },
        _ => None,
    }
}
