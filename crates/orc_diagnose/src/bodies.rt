//! What is at fault in the body of a service.
use crate::json::{say_syntax, strange_member};
use crate::kinds::{json_of, say_names, say_no_value_of};
use crate::words::Words;
use orc_json::{DUPLICATE, JsonFault, KEY, KIND, MEMBER, VALUE};
use orc_lines::WrongBody;
use orc_path::Path;
use orc_schema_nodes::{Node, Schema};
use orc_text::Memory;
use serde_json::Value;

// What is said of members whose name is none.
const WITHOUT_MODULE: &str = " Members of the body stand without their module.";

/// Adds what is at fault in the JSON text of a service, and answers whether anything is said.
pub(crate) fn say_body(words: &mut Words, wrong: &WrongBody) -> Result<bool, Memory> {
    let json = wrong.text.as_str().as_bytes();
    match &wrong.fault {
        Some(JsonFault::Syntax) => {
            words.say("It is no JSON:")?;
            say_syntax(words, None, json)?;
        }
        Some(JsonFault::Bad { path, rule }) => {
            words.say("At ")?;
            words.show(path.text(words.alloc)?.as_str())?;
            words.say(": ")?;
            say_rule(words, wrong, path, *rule)?;
        }
        Some(JsonFault::Memory) => return Err(Memory),
        None => return Ok(false),
    }
    Ok(true)
}

// Adds which rule the JSON breaks that stands at a path.
fn say_rule(words: &mut Words, wrong: &WrongBody, path: &Path, rule: u8) -> Result<(), Memory> {
    let node = wrong.schema.node(path.steps.as_slice());
    match rule {
        MEMBER => say_member(words, wrong, path, node),
        KIND => {
            words.say("the JSON there is to be ")?;
            say_kind(words, node, path.ends_in_keys())?;
            words.say(".")
        }
        VALUE => say_value(words, node),
        KEY => say_keys(words, node),
        DUPLICATE => words.say("an entry of these keys, or this value, stands there already."),
        _ => words.say("a rule is broken."),
    }
}

// Adds what the JSON at a node isn't.
fn say_value(words: &mut Words, node: Option<&Node>) -> Result<(), Memory> {
    words.say("the JSON there ")?;
    match node {
        Some(Node::Leaf(leaf)) => say_no_value_of(words, &leaf.kind),
        Some(Node::LeafList(values)) => say_no_value_of(words, &values.kind),
        _ => words.say("is no value of its type."),
    }
}

// Adds which member the schema lacks at a path, or that the one of the path is a key.
fn say_member(
    words: &mut Words,
    wrong: &WrongBody,
    path: &Path,
    node: Option<&Node>,
) -> Result<(), Memory> {
    match node {
        // The path is that of the object around, since none has the member's name.
        Some(Node::Container | Node::List(_)) => {
            words.say("the schema has no ")?;
            say_strange(words, wrong.text.as_str())?;
            words.say(" there.")?;
            words.say(WITHOUT_MODULE)
        }
        Some(_) => words.say("it is a key of the service, which the path has: leave it out."),
        None => {
            words.say("the schema has no such member there.")?;
            words.say(WITHOUT_MODULE)
        }
    }
}

// Adds the one member of a JSON text whose name is none, where there is one.
fn say_strange(words: &mut Words, text: &str) -> Result<(), Memory> {
    let value = match Value::from_slice(words.alloc, text.as_bytes()) {
        Ok(value) => value,
        Err(error) => match error.is_memory() {
            true => return Err(Memory),
            false => Value::Null,
        },
    };
    match strange_member(&value) {
        Some(name) => {
            words.say("member ")?;
            words.quote(name)
        }
        None => words.say("such member"),
    }
}

// Adds which JSON a node has, or an entry of it.
fn say_kind(words: &mut Words, node: Option<&Node>, is_entry: bool) -> Result<(), Memory> {
    match node {
        Some(Node::List(_)) if !is_entry => words.say("an array of objects"),
        Some(Node::LeafList(values)) => {
            words.say("an array, each of its items ")?;
            words.say(json_of(&values.kind))
        }
        Some(Node::Leaf(leaf)) => words.say(json_of(&leaf.kind)),
        _ => words.say("an object"),
    }
}

// Adds that an entry of a list lacks a key, or has one that is none.
fn say_keys(words: &mut Words, node: Option<&Node>) -> Result<(), Memory> {
    words.say("an entry lacks a key")?;
    if let Some(Node::List(list)) = node {
        words.say(" (")?;
        say_names(words, list.keys.as_slice())?;
        words.say(")")?;
    }
    words.say(", or has one that is no value of its type.")
}
