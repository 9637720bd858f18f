//! Numbers of entries.
ghost use Rattle.std.specs.Prelude.{◌≡◌};
ghost use Rattle.orc_statements.specs.Arguments.{count_of, is_unbounded, is_greatest};

use orc_types::is_count;

/// The number of entries that the text writes, with 64 bits.
pub fn count_of(text: &str) -> Option<u64>
    ensures { result ≡ count_of text.now }
{
    if !is_count(text.as_bytes()) {
        return None;
    }
    match text.parse::<i128>() {
        Ok(number) if 0 <= number && number <= u64::MAX as i128 => Some(number as u64),
        Ok(_) => None,
        Err(_) => None,
    }
}

// Whether the text is an argument of `max-elements`.
pub(crate) fn is_greatest(text: &str) -> bool
    ensures { result ≡ is_greatest text.now }
{
    if text == "unbounded" {
        return true;
    }
    match count_of(text) {
        Some(number) => 0 < number,
        None => false,
    }
}
