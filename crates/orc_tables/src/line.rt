//! The parts of a line.
ghost use Rattle.std.specs.Prelude.{◌≡◌, ◌==◌, IfOk};
ghost use Rattle.std.specs.List.{before_first, after_first};
ghost use Rattle.percent_encoding.specs.Percent.{percent_decode};

use crate::undone::Undone;
use orc_text::{Memory, Text};
use std::alloc::Global;

/// The first word, and what stands after the space, which is the empty text where there is none.
pub(crate) fn first_word(line: &str) -> (&str, &str)
    ensures first { result.0.now ≡ before_first (λ byte. byte == 32) line.now }
    ensures rest { result.1.now ≡ after_first (λ byte. byte == 32) line.now }
{
    line.split_once(' ').unwrap_or((line, ""))
}

/// The parts before ` > ` and after it.
pub(crate) fn parted(line: &str) -> Result<(&str, &str), Undone> {
    line.split_once(" > ").ok_or(Undone)
}

/// The bytes of a text in which `%` and two hexadecimal digits stand for a byte (RFC 3986, 2.1).
pub(crate) fn bytes_of(alloc: Global, text: &str) -> Result<Vec<u8>, Memory>
    ensures { IfOk result (λ bytes. bytes.items ≡ percent_decode text.now) }
{
    let mut bytes = Vec::new(alloc);
    percent_encoding::percent_decode(text.as_bytes()).append_to(&mut bytes)?;
    Ok(bytes)
}

/// The text of such bytes.
pub(crate) fn text_of(alloc: Global, text: &str) -> Result<Text, Undone> {
    match String::from_utf8(bytes_of(alloc, text)?) {
        Ok(string) => Ok(Text::from_string(string)),
        Err(_) => Err(Undone),
    }
}

/// The bytes that are spelled in hexadecimal, two digits each, with spaces between.
pub(crate) fn hex_of(alloc: Global, text: &str) -> Result<Vec<u8>, Undone> {
    let mut bytes = Vec::new(alloc);
    for digits in text.split_whitespace() {
        bytes.push(u8::from_str_radix(digits, 16)?)?;
    }
    Ok(bytes)
}
