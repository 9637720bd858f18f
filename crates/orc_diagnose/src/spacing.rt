//! What is said of blanks that no line has: at its begin, at its end, and two in a row.
use crate::words::Words;
use orc_decls::Rule;
use orc_text::Memory;

/// Adds what is said of the blanks of a line of this text, where blanks may be what breaks the rule, and answers
/// whether anything is said. What in particular is at fault may be said already.
pub(crate) fn say_spacing(
    words: &mut Words,
    text: &[u8],
    rule: Rule,
    is_said: bool,
) -> Result<bool, Memory> {
    match rule {
        Rule::Header | Rule::Line | Rule::Path | Rule::Value => {}
        _ => return Ok(false),
    }
    let Some(said) = blank_words(text) else {
        return Ok(false);
    };
    if is_said {
        words.say(" ")?;
    }
    words.say(said)?;
    Ok(true)
}

// What is said of the blanks of a line.
fn blank_words(text: &[u8]) -> Option<&'static str> {
    if !text.is_empty() && text.iter().all(|byte| is_blank(*byte)) {
        return Some("The line has blanks alone: only a line without any is skipped.");
    }
    match text {
        [b' ', ..] => Some("The line begins with a space, and none is indented."),
        [b'\t', ..] => Some("The line begins with a tab, and none is indented."),
        [.., b' '] => Some("The line ends with a space, and none stands after the last word."),
        [.., b'\t'] => Some("The line ends with a tab, and none stands after the last word."),
        [.., b'\r'] => Some(
            "The line ends with a carriage return, and no line feed stands after it.",
        ),
        _ => inner_words(text),
    }
}

// What is said of the blanks between the words of a line, as far as a value or a JSON text.
fn inner_words(text: &[u8]) -> Option<&'static str> {
    let mut before: u8 = 0;
    for byte in text {
        match (before, *byte) {
            (_, b'=' | b'{') => return None,
            (b' ', b' ') => return Some("Two spaces stand in a row, and one separates words."),
            (_, b'\t') => return Some("A tab stands between words, and a space separates them."),
            _ => before = *byte,
        }
    }
    None
}

// Whether a byte is a space, a tab or a carriage return.
fn is_blank(byte: u8) -> bool {
    byte == b' ' || byte == b'\t' || byte == b'\r'
}
