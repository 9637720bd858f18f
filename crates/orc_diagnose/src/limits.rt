//! What is said of what passes a limit.
use crate::words::Words;
use orc_decls::{MOST_DEVICES, MOST_WRITES};
use orc_lines::{Excess, LARGEST_BUNDLE, LONGEST_LINE};
use orc_path::{
    Item, NAME_LEN, PATH_LEN, PATH_STEPS, Path, STEP_KEYS, Step, VALUE_LEN, is_long_name,
    is_long_value,
};
use orc_script::{LONGEST_TICK, MOST_CALLERS, MOST_STEPS};
use orc_text::Memory;

// What is said of a path or a value that isn't shown as it is written.
const STORED: &str = " It is shown in its canonical form, in which it is stored.";

/// Adds what in the line of this number is too long, large or many, how much it has, and the limit. So something is
/// said.
pub(crate) fn say_excess(words: &mut Words, line: u64, excess: &Excess) -> Result<bool, Memory> {
    match excess {
        Excess::Line => say_most(
            words,
            "The line",
            LONGEST_LINE,
            "bytes, which is the limit.",
        )?,
        Excess::Bundle => say_most(
            words,
            "The bundle",
            LARGEST_BUNDLE,
            "bytes, which is the limit: the first one too many is in this line.",
        )?,
        Excess::Devices(count) => say_above(words, *count, "devices", MOST_DEVICES)?,
        Excess::Callers(count) => say_above(words, *count, "callers", MOST_CALLERS)?,
        Excess::Steps(count) => say_above(words, *count, "steps", MOST_STEPS)?,
        Excess::Seconds(_) => {
            let said = format!(in words.alloc; "A `tick` has 1 to {LONGEST_TICK} seconds.")?;
            words.say(said.as_str())?;
        }
        _ => say_long(words, line, excess)?,
    }
    Ok(true)
}

// Adds that a line, or a bundle, has more bytes than it may.
fn say_most(words: &mut Words, what: &str, limit: usize, said: &str) -> Result<(), Memory> {
    let said = format!(in words.alloc; "{what} has more than {limit} {said}")?;
    words.say(said.as_str())
}

// Adds that so many of these stand above a line, which has one more.
fn say_above(words: &mut Words, count: u64, what: &str, limit: usize) -> Result<(), Memory> {
    let said = format!(in words.alloc;
        "There are {count} {what} above this line already: the limit is {limit}."
    )?;
    words.say(said.as_str())
}

// Adds what is too long in a line of this number: a name, a path, a value, or a body.
fn say_long(words: &mut Words, line: u64, excess: &Excess) -> Result<(), Memory> {
    match excess {
        Excess::Name(name) => say_name(words, name.as_str()),
        Excess::Identifier { name, below } => {
            say_name(words, name.as_str())?;
            words.say(" Its statement begins in line ")?;
            words.count(line.saturating_add(1).saturating_add(*below))?;
            words.say(".")
        }
        Excess::Path(path) => say_path(words, path),
        Excess::StoredPath(path) => {
            say_path(words, path)?;
            words.say(STORED)
        }
        Excess::Value(value) => say_text(words, "The value", value.as_str()),
        Excess::StoredValue(value) => {
            say_text(words, "The value", value.as_str())?;
            words.say(STORED)
        }
        Excess::BodyItem(put) => say_put(words, &put.path, &put.item),
        Excess::BodyItems(count) => {
            let count = *count;
            let said = format!(in words.alloc;
                "The body has {count} items: the limit is {MOST_WRITES}."
            )?;
            words.say(said.as_str())
        }
        _ => Ok(()),
    }
}

// Adds what is too long in an item of a body: its path, or else its value.
fn say_put(words: &mut Words, path: &Path, item: &Item) -> Result<(), Memory> {
    match item {
        Item::Leaf(value) if !path.is_long() => {
            say_text(words, "The value", value.as_str())?;
            words.say(" It stands at ")?;
            words.quote(path.text(words.alloc)?.as_str())?;
            words.say(".")
        }
        _ => say_path(words, path),
    }
}

// Adds what is too long or many in a path: its steps, one of them, or its text.
fn say_path(words: &mut Words, path: &Path) -> Result<(), Memory> {
    let steps = path.steps.as_slice();
    if steps.len() > PATH_STEPS {
        return say_past(
            words,
            "The path",
            path.text(words.alloc)?.as_str(),
            steps.len() as u64,
            "steps",
            PATH_STEPS,
        );
    }
    for step in steps {
        if say_step(words, step)? {
            return Ok(());
        }
    }
    say_past(
        words,
        "The path",
        path.text(words.alloc)?.as_str(),
        path.text_len(),
        "bytes",
        PATH_LEN,
    )
}

// Adds what is too long or many in a step: a part of its name, its keys or one of them; and answers whether anything
// is.
fn say_step(words: &mut Words, step: &Step) -> Result<bool, Memory> {
    for part in step.node.as_str().split(':') {
        if is_long_name(part) {
            say_name(words, part)?;
            return Ok(true);
        }
    }
    if step.keys.len() > STEP_KEYS {
        let count = step.keys.len() as u64;
        say_past(
            words,
            "The step",
            step.node.as_str(),
            count,
            "keys",
            STEP_KEYS,
        )?;
        return Ok(true);
    }
    for key in step.keys.as_slice() {
        if is_long_value(key.as_str()) {
            say_text(words, "The key", key.as_str())?;
            return Ok(true);
        }
    }
    Ok(false)
}

// Adds that a name is too long.
fn say_name(words: &mut Words, name: &str) -> Result<(), Memory> {
    say_past(
        words,
        "The name",
        name,
        name.len() as u64,
        "bytes",
        NAME_LEN,
    )
}

// Adds that a value or a key is too long.
fn say_text(words: &mut Words, what: &str, text: &str) -> Result<(), Memory> {
    say_past(
        words,
        what,
        text,
        text.len() as u64,
        "bytes before it is escaped",
        VALUE_LEN,
    )
}

// Adds that a text has so many of a unit, such as bytes, and more than the limit.
fn say_past(
    words: &mut Words,
    what: &str,
    text: &str,
    count: u64,
    unit: &str,
    limit: usize,
) -> Result<(), Memory> {
    words.say(what)?;
    words.say(" ")?;
    words.quote(text)?;
    let said = format!(in words.alloc; " has {count} {unit}: the limit is {limit}.")?;
    words.say(said.as_str())
}
