//! A text that begins as it has to, and doesn't go on so.
use crate::quoted::text_of;
use crate::words::Words;
use orc_text::Memory;

/// The text before a place.
pub(crate) fn front_of(text: &str, at: usize) -> &str {
    let bytes = text.as_bytes();
    text_of(bytes.get(..at).unwrap_or(bytes))
}

// The text after a place.
fn rest_of(text: &str, at: usize) -> &str {
    text_of(text.as_bytes().get(at..).unwrap_or(&[]))
}

/// The text between two places.
pub(crate) fn text_between(text: &str, begun: usize, end: usize) -> &str {
    rest_of(front_of(text, end), begun)
}

/// Adds how far a text is one of this kind, such as a path: as far as this place, where it ends or goes on as none
/// does.
pub(crate) fn say_cut(words: &mut Words, kind: &str, text: &str, at: usize) -> Result<(), Memory> {
    let (front, rest) = (front_of(text, at), rest_of(text, at));
    if front.is_empty() {
        words.quote(rest)?;
        words.say(" doesn't begin ")?;
        words.say(kind)?;
        return words.say(".");
    }
    words.quote(front)?;
    words.say(" begins ")?;
    words.say(kind)?;
    if rest.is_empty() {
        return words.say(" and ends too early: a name, or `]`, is missing.");
    }
    words.say(", and ")?;
    words.quote(rest)?;
    words.say(" can't follow.")
}
