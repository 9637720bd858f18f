//! What is at fault in a block of a template.
use crate::expressions::{Spot, say_condition, say_expression, say_strings};
use crate::words::Words;
use orc_expr::Expr;
use orc_path::Path;
use orc_template::View;
use orc_text::Memory;
use serde_json::Value;

/// Adds what is at fault in the block of this number of a template's JSON, and answers whether that was found.
pub(crate) fn say_block(
    words: &mut Words,
    view: &View<'_>,
    list: &Path,
    template: &Value,
    number: u32,
) -> Result<bool, Memory> {
    let mut left = number;
    match template.get("blocks") {
        Some(blocks) => say_among(words, view, list, blocks, &mut left),
        None => Ok(false),
    }
}

// Adds what is at fault in the block that is so many further on in an array of blocks, or among those inside a block,
// which are done at this node, and answers whether that was found.
fn say_among(
    words: &mut Words,
    view: &View<'_>,
    node: &Path,
    value: &Value,
    left: &mut u32,
) -> Result<bool, Memory> {
    match value {
        Value::Array(blocks) => {
            for block in blocks {
                *left = left.saturating_sub(1);
                if *left == 0 {
                    return say_in(words, view, node, block);
                }
                let is_found = say_among(words, view, node, block, left)?;
                if is_found || *left == 0 {
                    return Ok(is_found);
                }
            }
            Ok(false)
        }
        Value::Object(members) => {
            let Some(inner) = node_of(view, node, value, words)? else {
                return Ok(false);
            };
            for (name, blocks) in members.iter() {
                if name.as_str() == "blocks" {
                    return say_among(words, view, &inner, blocks, left);
                }
            }
            Ok(false)
        }
        Value::Null | Value::Bool(_) | Value::Number(_) | Value::String(_) => Ok(false),
    }
}

// Adds what is at fault in this block, and answers whether that was found.
fn say_in(words: &mut Words, view: &View<'_>, node: &Path, block: &Value) -> Result<bool, Memory> {
    if say_members(words, block)? {
        return Ok(true);
    }
    if let Some(text) = text_in(block, "for") {
        let spot = Spot::of(view, node, "`for`");
        if say_expression(words, &spot, text)? {
            return Ok(true);
        }
    }
    match node_of(view, node, block, words)? {
        Some(inner) => say_at(words, view, &inner, block),
        None => Ok(false),
    }
}

// Adds what is at fault in what a block says at its node, and answers whether that was found.
fn say_at(words: &mut Words, view: &View<'_>, node: &Path, block: &Value) -> Result<bool, Memory> {
    if let Some(text) = text_in(block, "when") {
        let spot = Spot::of(view, node, "`when`");
        if say_condition(words, &spot, text)? {
            return Ok(true);
        }
    }
    if let Some(value) = block.get("device") {
        let spot = Spot::of(view, node, "`device`");
        if say_strings(words, &spot, value)? {
            return Ok(true);
        }
    }
    let Some(value) = block.get("config") else {
        return Ok(false);
    };
    let spot = Spot::of(view, node, "`config`");
    say_strings(words, &spot, value)
}

// The node at which a block is done, where there is one.
fn node_of(
    view: &View<'_>,
    node: &Path,
    block: &Value,
    words: &Words,
) -> Result<Option<Path>, Memory> {
    match text_in(block, "for") {
        Some(text) => match Expr::parse(words.alloc, text) {
            Ok(expr) => expr.resolve(words.alloc, view, node),
            Err(_) => Ok(None),
        },
        None => Ok(Some(node.copy(words.alloc)?)),
    }
}

// Adds which member of a block is none, or of another kind than it may be, or lacks the one that comes with it; and
// answers whether one is so.
fn say_members(words: &mut Words, block: &Value) -> Result<bool, Memory> {
    let Some(members) = block.as_object() else {
        words.say("it is no object.")?;
        return Ok(true);
    };
    for (name, value) in members.iter() {
        if let Some(said) = member_words(name.as_str(), value) {
            words.quote(name.as_str())?;
            words.say(said)?;
            return Ok(true);
        }
    }
    match (block.get("device").is_some(), block.get("config").is_some()) {
        (true, false) => words.say("`device` stands there without `config`.")?,
        (false, true) => words.say("`config` stands there without `device`.")?,
        _ => return Ok(false),
    }
    Ok(true)
}

// What is said of a member that may not stand in a block so.
fn member_words(name: &str, value: &Value) -> Option<&'static str> {
    let (is_so, said) = match name {
        "for" | "when" | "device" => (value.is_string(), " is to be a string."),
        "config" => (value.is_object(), " is to be an object."),
        "blocks" => (value.is_array(), " is to be an array."),
        _ => (
            false,
            " is none of a block's members `for`, `when`, `device`, `config` and `blocks`.",
        ),
    };
    match is_so {
        true => None,
        false => Some(said),
    }
}

// The text of a member, where a block has it.
fn text_in<'a>(block: &'a Value, name: &str) -> Option<&'a str> {
    match block.get(name) {
        Some(value) => value.as_str(),
        None => None,
    }
}
