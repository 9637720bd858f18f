//! The text of a value, with escapes.
ghost use Rattle.std.specs.Prelude.{◌≡◌, ◌<◌, ◌++◌, true, IfOk, IsErr, IsSome, is_some, OnOk, OnErr, encode_utf8};
ghost use Rattle.std.specs.String.{string_bytes};
ghost use Rattle.std.specs.List.{flat_map};
ghost use Rattle.orc_path.specs.Texts.{value_escape, value_text, AddsFront};
ghost use Rattle.orc_path.specs.Values.{value_of};
ghost use Rattle.orc_path.specs.inside.ValueReading.{value_unescape, is_never_raw, MayCome, Took};

use orc_text::{Memory, Text, is_plain_character};
use std::alloc::{AllocError, Global};

fn push_escaped(out: &mut String, byte: u8) -> Result<(), AllocError>
    requires { byte < 128 }
    ensures ok { OnOk result (string_bytes out.new ≡ string_bytes out.old ++ value_escape byte) }
    ensures err { OnErr result (string_bytes out.new ≡ string_bytes out.old) }
{
    match byte {
        b'\\' => out.push_str("\\\\"),
        b'\t' => out.push_str("\\t"),
        b'\n' => out.push_str("\\n"),
        b'\r' => out.push_str("\\r"),
        _ => out.push(char::from(byte)),
    }
}

// Adds a character of a value.
#[tactic(auto, using(crate::proofs::Written::value_escaped_low, crate::proofs::Written::value_escaped_high))]
fn push_character(out: &mut String, character: char) -> Result<(), AllocError>
    ensures ok { OnOk result
        (string_bytes out.new ≡ string_bytes out.old ++ flat_map value_escape (encode_utf8 character)) }
    ensures err { OnErr result (string_bytes out.new ≡ string_bytes out.old) }
{
    if character.is_ascii() {
        push_escaped(out, u32::from(character) as u8)
    } else {
        out.push(character)
    }
}

/// Adds the text of a value: backslash, tab, line feed and carriage return are escaped. If memory
/// runs out, a prefix of it may stand there.
pub fn push_value(out: &mut String, value: &str) -> Result<(), Memory>
    ensures ok { OnOk result (string_bytes out.new ≡ string_bytes out.old ++ value_text value.now) }
    ensures err { OnErr result (AddsFront (value_text value.now) (string_bytes out.old) (string_bytes out.new)) }
{
    for character in value.chars() {
        push_character(out, character)?;
    }
    Ok(())
}

// The character that this one means after a backslash.
fn unescaped(character: char) -> Option<char>
    ensures { result ≡ value_unescape character }
{
    match character {
        '\\' => Some('\\'),
        't' => Some('\t'),
        'n' => Some('\n'),
        'r' => Some('\r'),
        _ => None,
    }
}

/// What was read of a value: its text, and whether a backslash stands before the next character.
#[derive(Drop)]
struct ValueReader {
    value: Text,
    is_escaped: bool,
}

// Tab, line feed and carriage return stand by their escapes alone.
fn is_never_raw(character: char) -> bool
    ensures { result ≡ is_never_raw character }
{
    character == '\t' || character == '\n' || character == '\r'
}

impl ValueReader {
    // Takes the character after a backslash, where it may come there.
    fn take_escaped(&mut self, character: char) -> Result<bool, Memory>
        requires { self.old.is_escaped ≡ true }
        ensures { Took self.old character self.new result }
    {
        match unescaped(character) {
            Some(plain) => {
                self.value.push(plain)?;
                self.is_escaped = false;
                Ok(true)
            }
            None => Ok(false),
        }
    }

    // Takes a character, where one may stand here.
    fn take(&mut self, character: char) -> Result<bool, Memory>
        ensures { Took self.old character self.new result }
    {
        if self.is_escaped {
            return self.take_escaped(character);
        }
        if character == '\\' {
            self.is_escaped = true;
            return Ok(true);
        }
        if is_never_raw(character) {
            return Ok(false);
        }
        self.value.push(character)?;
        Ok(true)
    }
}

// Whether a backslash stands before what follows a character, where that character may come here.
fn next_escaped(is_escaped: bool, character: char) -> Option<bool>
    ensures { MayCome is_escaped character result }
{
    if is_escaped {
        return match unescaped(character) {
            Some(_plain) => Some(false),
            None => None,
        };
    }
    if character == '\\' {
        return Some(true);
    }
    if is_never_raw(character) {
        return None;
    }
    Some(false)
}

// Whether the text is that of a value: each character may stand in one, each backslash begins an
// escape, and none stands raw that may not.
fn is_value_text(text: &str) -> bool
    ensures { result ≡ is_some (value_of text.now) }
{
    let mut is_escaped = false;
    for character in text.chars() {
        if !is_plain_character(character) {
            return false;
        }
        match next_escaped(is_escaped, character) {
            Some(next) => is_escaped = next,
            None => return false,
        }
    }
    !is_escaped
}

/// The value of a text, where it is the text of one. Memory is wanted for such a text alone.
pub fn read_value(alloc: Global, text: &str) -> Result<Option<Text>, Memory>
    ensures value { IfOk result (λ found. found ≡ value_of text.now) }
    ensures memory { IsErr result → IsSome (value_of text.now) }
{
    if !is_value_text(text) {
        return Ok(None);
    }
    let mut reader = ValueReader {
        value: Text::new(alloc),
        is_escaped: false,
    };
    for character in text.chars() {
        if !reader.take(character)? {
            return Ok(None);
        }
    }
    if reader.is_escaped {
        return Ok(None);
    }
    Ok(Some(reader.value))
}
