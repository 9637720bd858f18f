//! What names, keys and values are made of.
ghost use Rattle.std.specs.Prelude.{◌≡◌};
ghost use Rattle.std.specs.List.{list_all};
ghost use Rattle.orc_path.specs.Alphabet.{is_name_start, is_name_byte, is_identifier, is_key, is_value};

use orc_text::is_plain_text;

/// A letter or `_`.
pub(crate) fn is_name_start(byte: u8) -> bool
    ensures { result ≡ is_name_start byte }
{
    byte.is_ascii_alphabetic() || byte == b'_'
}

/// A letter, a digit, `-`, `.` or `_`.
pub(crate) fn is_name_byte(byte: u8) -> bool
    ensures { result ≡ is_name_byte byte }
{
    is_name_start(byte) || byte.is_ascii_digit() || byte == b'-' || byte == b'.'
}

// Whether each byte is a letter, a digit, `-`, `.` or `_`.
fn are_name_bytes(bytes: &[u8]) -> bool
    ensures { result ≡ list_all is_name_byte bytes.now }
{
    bytes.iter().all(|byte| is_name_byte(*byte))
}

/// Whether the text is an identifier (RFC 7950 section 6.2, with ASCII letters).
pub fn is_identifier(text: &str) -> bool
    ensures { result ≡ is_identifier text.now }
{
    match text.as_bytes() {
        [] => false,
        [first, rest @ ..] => is_name_start(*first) && are_name_bytes(rest),
    }
}

/// Whether the text may be a key of a step.
pub fn is_key(text: &str) -> bool
    ensures { result ≡ is_key text.now }
{
    is_plain_text(text)
}

/// Whether the text may be the value of a leaf.
pub fn is_value(text: &str) -> bool
    ensures { result ≡ is_value text.now }
{
    is_plain_text(text)
}
