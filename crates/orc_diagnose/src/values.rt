//! What is at fault in the keys of a path, and in the value after it.
use crate::cuts::say_cut;
use crate::kinds::say_no_value_of;
use crate::paths::say_names;
use crate::words::Words;
use orc_lines::WrongItem;
use orc_path::{Item, Step};
use orc_schema_nodes::{Node, Schema};
use orc_text::{Memory, Text};
use orc_value::{Kind, ValueFault, canon};

/// Adds where a text isn't that of a value. So something is said.
pub(crate) fn say_no_value(words: &mut Words, text: &str) -> Result<bool, Memory> {
    say_cut(words, "a value", text, bad_place(text))?;
    Ok(true)
}

// Where in a text, in bytes, stands what no value has there: a control character, a noncharacter, or a
// backslash that begins none of the four pairs.
fn bad_place(text: &str) -> usize {
    let mut at: usize = 0;
    let mut escape: Option<usize> = None;
    for character in text.chars() {
        match escape {
            Some(begun) => {
                if !is_escaped(character) {
                    return begun;
                }
                escape = None;
            }
            None => {
                if !may_stand(u32::from(character)) {
                    return at;
                }
                if character == '\\' {
                    escape = Some(at);
                }
            }
        }
        at = at.saturating_add(character.len_utf8());
    }
    escape.unwrap_or(at)
}

// Whether a character stands after a backslash.
fn is_escaped(character: char) -> bool {
    character == '\\' || character == 't' || character == 'n' || character == 'r'
}

// Whether a character is neither a control character below U+0020 nor a noncharacter.
fn may_stand(character: u32) -> bool {
    character >= 32 && !(64976 <= character && character <= 65007) && character % 65536 < 65534
}

/// Adds which key of a path, or else which value after it, is none of its type, and what the type has. Answers whether
/// anything is said.
pub(crate) fn say_item(words: &mut Words, wrong: &WrongItem) -> Result<bool, Memory> {
    let steps = wrong.path.steps.as_slice();
    for (at, step) in steps.iter().enumerate() {
        let front = steps.get(..at.saturating_add(1)).unwrap_or(steps);
        if say_keys(words, &wrong.schema, front, step.keys.as_slice())? {
            return Ok(true);
        }
    }
    match &wrong.item {
        Some(Item::Leaf(value)) => {
            say_unless(words, steps, None, wrong.schema.kind_of(&wrong.path), value)
        }
        _ => Ok(false),
    }
}

// Adds which of the keys of the last of these steps is none of its type, and answers whether one is.
fn say_keys(
    words: &mut Words,
    schema: &Schema,
    steps: &[Step],
    keys: &[Text],
) -> Result<bool, Memory> {
    match schema.node(steps) {
        Some(Node::List(list)) => {
            for (name, key) in list.keys.as_slice().iter().zip(keys) {
                let kind = schema.kind_below(steps, name.as_str());
                if say_unless(words, steps, Some(name), kind, key)? {
                    return Ok(true);
                }
            }
            Ok(false)
        }
        Some(Node::LeafList(values)) => match keys {
            [value, ..] => say_unless(words, steps, None, Some(&values.kind), value),
            [] => Ok(false),
        },
        _ => Ok(false),
    }
}

// Adds that a text at these steps, or at the leaf of a name below them, is none of this kind, unless it is one.
fn say_unless(
    words: &mut Words,
    steps: &[Step],
    name: Option<&Text>,
    kind: Option<&Kind>,
    text: &Text,
) -> Result<bool, Memory> {
    let Some(kind) = kind else {
        return Ok(false);
    };
    match canon(words.alloc, kind, text.as_str()) {
        Ok(_) => return Ok(false),
        Err(ValueFault::BadValue { .. }) => {}
        Err(ValueFault::Memory) => return Err(Memory),
    }
    words.say("At ")?;
    say_names(words, steps)?;
    if let Some(name) = name {
        words.say("/")?;
        words.show(name.as_str())?;
    }
    words.say(": ")?;
    words.quote(text.as_str())?;
    words.say(" ")?;
    say_no_value_of(words, kind)?;
    Ok(true)
}
