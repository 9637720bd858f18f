//! The words of a line.
ghost use Rattle.std.specs.Prelude.{◌≡◌, ◌∷◌, [], IfOk, MatchOption, None, Some, true, false};
ghost use Rattle.std.specs.Str.{is_utf8};
ghost use Rattle.orc_lines.specs.Words.{cut_at, first_word, is_padded, number_in, words_of};
ghost use Rattle.orc_lines.specs.inside.Words.{CutsWord};

use orc_text::{Memory, Row, Text};
use std::alloc::Global;
use std::str;

/// The text before the first space and the text after it.
pub fn cut(text: &str) -> Option<(&str, &str)>
    ensures { MatchOption result (cut_at 32 text.now ≡ None)
        (λ parts. cut_at 32 text.now ≡ Some (parts.0.now, parts.1.now)) }
{
    text.split_once(' ')
}

/// The text before the first colon and the text after it.
pub fn cut_prefix(text: &str) -> Option<(&str, &str)>
    ensures { MatchOption result (cut_at 58 text.now ≡ None)
        (λ parts. cut_at 58 text.now ≡ Some (parts.0.now, parts.1.now)) }
{
    text.split_once(':')
}

/// The first word of a text.
pub fn first_word(text: &str) -> &str
    ensures { result.now ≡ first_word text.now }
{
    match cut(text) {
        Some((first, _)) => first,
        None => text,
    }
}

// The first word and the text after it, where there are more.
fn cut_word(text: &str) -> Option<(&str, &str)>
    ensures { MatchOption result (words_of text.now ≡ text.now ∷ [])
        (λ parts. CutsWord text.now parts.0.now parts.1.now) }
{
    text.split_once(' ')
}

/// The words of a text.
pub fn words_of(alloc: Global, text: &str) -> Result<Row<Text>, Memory>
    ensures { IfOk result (λ all. all ≡ words_of text.now) }
{
    let mut all = Row::new(alloc);
    let mut rest = text;
    while let Some((word, more)) = cut_word(rest) {
        all.push(Text::from_str(alloc, word)?)?;
        rest = more;
    }
    all.push(Text::from_str(alloc, rest)?)?;
    Ok(all)
}

// Whether the word begins with a sign or a needless zero.
fn is_padded(digits: &[u8]) -> bool
    ensures { result ≡ is_padded digits.now }
{
    match digits {
        [] => false,
        [first, rest @ ..] => *first == b'+' || *first == b'0' && !rest.is_empty(),
    }
}

/// A number in decimal without leading zeros.
pub fn number_of(word: &str) -> Option<u64>
    ensures { result ≡ number_in word.now }
{
    if is_padded(word.as_bytes()) {
        return None;
    }
    match word.parse() {
        Ok(number) => Some(number),
        Err(_) => None,
    }
}

/// The text of these bytes, where they are UTF-8.
pub fn read_text(bytes: &[u8]) -> Option<&str>
    ensures { MatchOption result (is_utf8 bytes.now ≡ false)
        (λ text. (is_utf8 bytes.now ≡ true) × (text.now ≡ bytes.now)) }
{
    match str::from_utf8(bytes) {
        Ok(text) => Some(text),
        Err(_) => None,
    }
}
