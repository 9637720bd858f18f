//! The line at fault: what stands there, and what may stand there.
use crate::forms::say_form;
use crate::rules::rule_words;
use crate::words::Words;
use orc_decls::Rule;
use orc_lines::{Keyword, ends_later, first_line, first_word, keyword_of, line_text};
use orc_text::Memory;

// The bytes that are looked at to show a line: those of one character more than is shown, of four bytes each.
const LOOKED_AT: usize = 404;

/// The bytes from the line of this number on.
pub(crate) fn lines_from(bytes: &[u8], line: u64) -> &[u8] {
    let mut rest = bytes;
    for _ in 1..line {
        if rest.is_empty() {
            return rest;
        }
        let (_, later) = first_line(rest);
        rest = later;
    }
    rest
}

/// The text of the first of these lines, and the empty one where there is none.
pub(crate) fn front_text(rest: &[u8]) -> &[u8] {
    if rest.is_empty() {
        return rest;
    }
    let (first, _) = first_line(rest);
    line_text(first)
}

/// Adds what stands in the first of these lines, which has this number, and what its rule allows there. What in
/// particular is at fault may be said already.
pub(crate) fn say_line(
    words: &mut Words,
    rest: &[u8],
    line: u64,
    rule: Rule,
    is_said: bool,
) -> Result<(), Memory> {
    if rest.is_empty() {
        words.say("There is no line ")?;
        words.count(line)?;
        words.say(". ")?;
        return words.say(rule_words(rule, Keyword::Other));
    }
    let text = String::from_utf8_lossy(words.alloc, looked_at(front_text(rest)))?;
    words.say("Line ")?;
    words.count(line)?;
    words.say(" is \"")?;
    words.show(text.as_str())?;
    words.say("\". ")?;
    say_allowed(
        words,
        rest,
        rule,
        keyword_of(first_word(text.as_str().trim())),
        is_said,
    )
}

// What is looked at to show a line.
fn looked_at(text: &[u8]) -> &[u8] {
    if text.len() < LOOKED_AT {
        return text;
    }
    &text[..LOOKED_AT]
}

// Adds what a rule allows in the first of these lines, which has this first word.
fn say_allowed(
    words: &mut Words,
    rest: &[u8],
    rule: Rule,
    word: Keyword,
    is_said: bool,
) -> Result<(), Memory> {
    match (rule, word) {
        (Rule::Line, Keyword::Call) if !is_said && !ends_below(rest) => {
            words.say("A call ends with a line `end`, and none stands below.")
        }
        (Rule::Line, _) => say_form(words, word, is_said),
        _ => words.say(rule_words(rule, word)),
    }
}

// Whether a line `end` stands below the first of these lines.
fn ends_below(rest: &[u8]) -> bool {
    if rest.is_empty() {
        return false;
    }
    let (_, later) = first_line(rest);
    ends_later(later)
}
