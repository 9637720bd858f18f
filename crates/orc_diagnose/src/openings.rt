//! What the opening data or the base of a device breaks.
use crate::words::Words;
use orc_check::{KEY, KIND, LEAFREF, MANDATORY, MAX_ELEMENTS, MIN_ELEMENTS};
use orc_lines::{Breach, WrongOpening};
use orc_path::Path;
use orc_text::Memory;

/// Adds whose configuration breaks a rule at the opening, with the path and the rule. So something is said.
pub(crate) fn say_opening(words: &mut Words, wrong: &WrongOpening) -> Result<bool, Memory> {
    match &wrong.device {
        Some(name) => {
            words.say("The base of ")?;
            words.show(name.as_str())?;
        }
        None => words.say("The data")?,
    }
    match &wrong.breach {
        Breach::Schema { path, rule } => {
            say_at(words, path)?;
            words.say(rule_words(*rule))?;
        }
        Breach::Max(list, most) => {
            say_at(words, list)?;
            words.say(" there are more entries than the ")?;
            words.count(*most)?;
            words.say(" that `max` allows.")?;
        }
        Breach::Forbid(leaf, text) => {
            say_at(words, leaf)?;
            words.say(" stands ")?;
            words.quote(text.as_str())?;
            words.say(", which `forbid` excludes.")?;
        }
    }
    Ok(true)
}

// Adds at which path it is.
fn say_at(words: &mut Words, path: &Path) -> Result<(), Memory> {
    words.say(": at ")?;
    words.show(path.text(words.alloc)?.as_str())
}

// What is said of a rule that is broken at a path.
fn rule_words(rule: u8) -> &'static str {
    match rule {
        KIND => " the item isn't one of the schema, or its text isn't one of its type (`kind`).",
        KEY => " a key isn't one of its type (`key`).",
        MANDATORY => " a leaf is missing (`mandatory`).",
        MIN_ELEMENTS => " there are too few entries (`min-elements`).",
        MAX_ELEMENTS => " there are too many entries (`max-elements`).",
        LEAFREF => " the value is that of nothing to which its type leads (`leafref`).",
        _ => " a rule is broken.",
    }
}
