//! What is said of a text that is no JSON, and of a member whose name isn't one of a schema.
use crate::words::Words;
use orc_path::is_identifier;
use orc_text::Memory;
use serde_json::{Error, Value};

/// Adds where a text stops being JSON, in a bundle's line of this number, or in the line that has the whole text. What
/// is at fault stands there or right before it.
pub(crate) fn say_syntax(words: &mut Words, line: Option<u64>, text: &[u8]) -> Result<(), Memory> {
    match Value::from_slice(words.alloc, text) {
        Ok(_) => Ok(()),
        Err(error) => say_error(words, line, &error),
    }
}

// Adds where a text has its fault.
fn say_error(words: &mut Words, line: Option<u64>, error: &Error) -> Result<(), Memory> {
    if error.is_memory() {
        return Err(Memory);
    }
    if error.is_eof() {
        words.say(" it ends too early, so that a `}`, a `]` or a `\"` is missing")?;
        return match line {
            Some(_) => words.say("."),
            None => words.say(": a body is one line."),
        };
    }
    if let Some(line) = line {
        words.say(" in line ")?;
        words.count(line.saturating_add(error.line() as u64))?;
    }
    words.say(" at byte ")?;
    words.count(error.column() as u64)?;
    words.say(", or right before it, stands what can't stand there.")
}

/// The name of the one member of a JSON text whose name is no identifier, where there is one.
pub(crate) fn strange_member(value: &Value) -> Option<&str> {
    match count_strange(value) {
        1 => first_strange(value),
        _ => None,
    }
}

// How many members of a JSON value have a name that is no identifier.
fn count_strange(value: &Value) -> u64 {
    let mut count: u64 = 0;
    match value {
        Value::Object(members) => {
            for (name, member) in members.iter() {
                if !is_identifier(name.as_str()) {
                    count = count.saturating_add(1);
                }
                count = count.saturating_add(count_strange(member));
            }
        }
        Value::Array(items) => {
            for item in items {
                count = count.saturating_add(count_strange(item));
            }
        }
        Value::Null | Value::Bool(_) | Value::Number(_) | Value::String(_) => {}
    }
    count
}

// The first of their names.
fn first_strange(value: &Value) -> Option<&str> {
    match value {
        Value::Object(members) => {
            for (name, member) in members.iter() {
                if !is_identifier(name.as_str()) {
                    return Some(name.as_str());
                }
                if let Some(found) = first_strange(member) {
                    return Some(found);
                }
            }
            None
        }
        Value::Array(items) => {
            for item in items {
                if let Some(found) = first_strange(item) {
                    return Some(found);
                }
            }
            None
        }
        Value::Null | Value::Bool(_) | Value::Number(_) | Value::String(_) => None,
    }
}
