//! The characters of texts, and those that stand for nothing in any text.
ghost use Rattle.std.specs.Prelude.{◌≡◌};
ghost use Rattle.std.specs.List.{list_all};
ghost use Rattle.std.specs.Str.{chars};
ghost use Rattle.orc_text.specs.Characters.{is_noncharacter, is_plain_character, is_plain_text};

/// Whether the character is a noncharacter of Unicode: U+FDD0 to U+FDEF, and the last two of each
/// plane.
pub fn is_noncharacter(character: char) -> bool
    ensures { result ≡ is_noncharacter character }
{
    let code = u32::from(character);
    (0xFDD0 <= code && code <= 0xFDEF) || 0xFFFE <= code % 0x1_0000
}

/// Tab, line feed, carriage return, or a character from the space on that is no noncharacter of
/// Unicode.
pub fn is_plain_character(character: char) -> bool
    ensures { result ≡ is_plain_character character }
{
    match character {
        '\t' | '\n' | '\r' => true,
        _ => character >= ' ' && !is_noncharacter(character),
    }
}

// Whether all characters are plain.
fn are_plain(text: &str) -> bool
    ensures { result ≡ list_all is_plain_character (chars text.now) }
{
    text.chars().all(|character| is_plain_character(character))
}

/// Whether each character is a tab, a line feed, a carriage return, or one from the space on that is
/// no noncharacter of Unicode.
pub fn is_plain_text(text: &str) -> bool
    ensures { result ≡ is_plain_text text.now }
{
    are_plain(text)
}
