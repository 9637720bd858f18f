//! What is said of members that stand twice in the JSON texts of a bundle.
use crate::twice::repeated_members;
use crate::words::Words;
use orc_lines::{
    Keyword, block_of, cut, first_line, keyword_of, line_text, number_of, read_text, seen,
};
use orc_text::{Memory, Row, Text};
use std::alloc::Global;

/// What is said of each member that stands twice in an object of a template or of a body, a sentence each, in a bundle
/// that isn't at fault. The last of equal ones counts.
pub fn repeated_findings(alloc: Global, bytes: &[u8]) -> Result<Row<Text>, Memory> {
    let mut found = Row::new(alloc);
    let mut rest = seen(bytes);
    let mut number: u64 = 0;
    let mut skip: u64 = 0;
    for _ in 0..bytes.len() {
        if rest.is_empty() {
            return Ok(found);
        }
        let (line, later) = first_line(rest);
        rest = later;
        number = number.saturating_add(1);
        if skip > 0 {
            skip -= 1;
        } else {
            skip = add_line(&mut found, alloc, number, line_text(line), later)?;
        }
    }
    Ok(found)
}

// Adds what is said of a line of this number, and answers how many lines below belong to it.
fn add_line(
    found: &mut Row<Text>,
    alloc: Global,
    number: u64,
    line: &[u8],
    later: &[u8],
) -> Result<u64, Memory> {
    let Some(text) = read_text(line) else {
        return Ok(0);
    };
    let Some((word, words)) = cut(text) else {
        return Ok(0);
    };
    match keyword_of(word) {
        Keyword::Yang => Ok(number_of(words).unwrap_or(0)),
        Keyword::Template => {
            let count = count_after(words).unwrap_or(0);
            if let Some(text) = block_of(alloc, later, count)? {
                add_all(found, alloc, number, text.as_slice())?;
            }
            Ok(count)
        }
        Keyword::Create | Keyword::Modify => {
            if let Some((_, json)) = cut(words) {
                add_all(found, alloc, number, json.as_bytes())?;
            }
            Ok(0)
        }
        _ => Ok(0),
    }
}

// The number after two words.
fn count_after(words: &str) -> Option<u64> {
    let (_, rest) = cut(words)?;
    let (_, count) = cut(rest)?;
    number_of(count)
}

// Adds what is said of each member that stands twice in a JSON text of a line of this number.
fn add_all(found: &mut Row<Text>, alloc: Global, number: u64, text: &[u8]) -> Result<(), Memory> {
    let names = repeated_members(alloc, text)?;
    for name in names.as_slice() {
        let mut words = Words::new(alloc);
        say_member(&mut words, number, name.as_str())?;
        found.push(words.into_text())?;
    }
    Ok(())
}

// Adds that a member stands twice in the JSON text of a line of this number.
fn say_member(words: &mut Words, number: u64, name: &str) -> Result<(), Memory> {
    words.say("Line ")?;
    words.count(number)?;
    words.say(": the member ")?;
    words.quote(name)?;
    words.say(" stands twice in an object of the JSON text; the last one counts.")
}
