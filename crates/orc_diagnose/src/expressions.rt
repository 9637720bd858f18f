//! What is at fault in the expressions of a template.
use crate::cuts::{front_of, say_cut, text_between};
use crate::words::Words;
use orc_expr::{Cond, Expr, ExprFault};
use orc_path::Path;
use orc_template::View;
use orc_text::Memory;
use serde_json::Value;

// The longest expression, in bytes, of which it is looked for how far it leads.
const LOOKED_THROUGH: usize = 1_000;

/// Where an expression stands: in this member of a block, which is done at a node.
#[derive(Clone, Copy)]
pub(crate) struct Spot<'a, 'n, 'v> {
    view: &'a View<'v>,
    node: &'n Path,
    member: &'static str,
}

impl<'a, 'n, 'v> Spot<'a, 'n, 'v> {
    /// This one.
    pub(crate) fn of(view: &'a View<'v>, node: &'n Path, member: &'static str) -> Spot<'a, 'n, 'v> {
        Spot { view, node, member }
    }
}

// Where a string is read: in what is written, after an opening brace there, in an expression, or after a closing brace
// of what is written.
#[derive(Clone, Copy)]
enum Stage {
    Written,
    Opened,
    Inside,
    Closed,
}

/// Adds what is at fault in the text of an expression, and answers whether anything is.
pub(crate) fn say_expression(
    words: &mut Words,
    spot: &Spot<'_, '_, '_>,
    text: &str,
) -> Result<bool, Memory> {
    match Expr::parse(words.alloc, text) {
        Ok(expr) => say_unless_leads(words, spot, text, &expr),
        Err(ExprFault::Bad { at }) => say_bad(words, spot, "an expression", text, at),
        Err(ExprFault::Memory) => Err(Memory),
    }
}

/// Adds what is at fault in the text of a condition, and answers whether anything is.
pub(crate) fn say_condition(
    words: &mut Words,
    spot: &Spot<'_, '_, '_>,
    text: &str,
) -> Result<bool, Memory> {
    match Cond::parse(words.alloc, text) {
        Ok(cond) => say_unless_leads(words, spot, text, &cond.expr),
        Err(ExprFault::Bad { at }) => say_bad(words, spot, "a condition", text, at),
        Err(ExprFault::Memory) => Err(Memory),
    }
}

/// Adds what is at fault in the first string of a JSON value that is at fault, and answers whether any is.
pub(crate) fn say_strings(
    words: &mut Words,
    spot: &Spot<'_, '_, '_>,
    value: &Value,
) -> Result<bool, Memory> {
    match value {
        Value::String(text) => say_string(words, spot, text.as_str()),
        Value::Array(items) => {
            for item in items {
                if say_strings(words, spot, item)? {
                    return Ok(true);
                }
            }
            Ok(false)
        }
        Value::Object(members) => {
            for (_name, inner) in members.iter() {
                if say_strings(words, spot, inner)? {
                    return Ok(true);
                }
            }
            Ok(false)
        }
        Value::Null | Value::Bool(_) | Value::Number(_) => Ok(false),
    }
}

// Adds what is at fault in a string with expressions in braces, and answers whether anything is.
fn say_string(words: &mut Words, spot: &Spot<'_, '_, '_>, text: &str) -> Result<bool, Memory> {
    let mut stage = Stage::Written;
    let mut begun: usize = 0;
    for (at, byte) in text.as_bytes().iter().enumerate() {
        match (stage, *byte) {
            (Stage::Opened | Stage::Inside, b'}') => {
                if say_expression(words, spot, text_between(text, begun, at))? {
                    return Ok(true);
                }
            }
            (Stage::Written, b'{') => begun = at.saturating_add(1),
            _ => {}
        }
        let Some(next) = stage_after(stage, *byte) else {
            return say_alone(words, spot, text);
        };
        stage = next;
    }
    match stage {
        Stage::Written => Ok(false),
        _ => say_alone(words, spot, text),
    }
}

// Where a string is read after a byte, which may not stand everywhere.
fn stage_after(stage: Stage, byte: u8) -> Option<Stage> {
    match (stage, byte) {
        (Stage::Written, b'{') => Some(Stage::Opened),
        (Stage::Written, b'}') => Some(Stage::Closed),
        (Stage::Opened, b'{') => Some(Stage::Written),
        (Stage::Opened | Stage::Inside, b'}') => Some(Stage::Written),
        (Stage::Opened | Stage::Inside, _) => Some(Stage::Inside),
        (Stage::Closed, b'}') => Some(Stage::Written),
        (Stage::Closed, _) => None,
        (Stage::Written, _) => Some(Stage::Written),
    }
}

// Adds that a brace of a string is alone.
fn say_alone(words: &mut Words, spot: &Spot<'_, '_, '_>, text: &str) -> Result<bool, Memory> {
    say_place(words, spot)?;
    words.say("the string ")?;
    words.quote(text)?;
    words.say(" has a brace that is left alone: `{{` and `}}` stand for one.")?;
    Ok(true)
}

// Adds how far a text is one of this kind.
fn say_bad(
    words: &mut Words,
    spot: &Spot<'_, '_, '_>,
    kind: &str,
    text: &str,
    at: u64,
) -> Result<bool, Memory> {
    say_place(words, spot)?;
    if text.is_empty() {
        words.say(kind)?;
        words.say(" is missing.")?;
    } else {
        let at = usize::try_from(at).unwrap_or(text.len());
        say_cut(words, kind, text, at)?;
    }
    Ok(true)
}

// Adds how far an expression of this text leads, where it leads to no node, and answers whether it does.
fn say_unless_leads(
    words: &mut Words,
    spot: &Spot<'_, '_, '_>,
    text: &str,
    expr: &Expr,
) -> Result<bool, Memory> {
    if expr.resolve(words.alloc, spot.view, spot.node)?.is_some() {
        return Ok(false);
    }
    say_place(words, spot)?;
    words.quote(text)?;
    words.say(" leads to no node of the schema of the data")?;
    let far = leads_to(words, spot, text)?;
    if far > 0 {
        words.say("; ")?;
        words.quote(front_of(text, far))?;
        words.say(" does")?;
    }
    words.say(".")?;
    Ok(true)
}

// The length of the longest prefix of an expression's text, up to a `/`, that leads to a node; 0 where none does.
fn leads_to(words: &Words, spot: &Spot<'_, '_, '_>, text: &str) -> Result<usize, Memory> {
    let mut far: usize = 0;
    if text.len() > LOOKED_THROUGH {
        return Ok(far);
    }
    for (at, byte) in text.as_bytes().iter().enumerate() {
        if *byte == b'/' && leads(words, spot, front_of(text, at))? {
            far = at;
        }
    }
    Ok(far)
}

// Whether a text is that of an expression which leads to a node.
fn leads(words: &Words, spot: &Spot<'_, '_, '_>, text: &str) -> Result<bool, Memory> {
    match Expr::parse(words.alloc, text) {
        Ok(expr) => Ok(expr.resolve(words.alloc, spot.view, spot.node)?.is_some()),
        Err(ExprFault::Bad { at: _ }) => Ok(false),
        Err(ExprFault::Memory) => Err(Memory),
    }
}

// Adds in which member it stands.
fn say_place(words: &mut Words, spot: &Spot<'_, '_, '_>) -> Result<(), Memory> {
    words.say("in ")?;
    words.say(spot.member)?;
    words.say(", ")
}
