//! What is at fault in the text of a template.
use crate::json::say_syntax;
use crate::members::say_block;
use crate::words::Words;
use orc_lines::WrongTemplate;
use orc_template::{TemplateFault, View};
use orc_text::Memory;
use orc_tree::Tree;
use serde_json::Value;

/// Adds what is at fault in the text below a line `template T LISTPATH N` of this number. So something is said.
pub(crate) fn say_template(
    words: &mut Words,
    line: u64,
    wrong: &WrongTemplate,
) -> Result<bool, Memory> {
    match &wrong.fault {
        TemplateFault::NotJson => {
            words.say("The text of these lines is no JSON:")?;
            say_syntax(words, Some(line), without_end(wrong.text.as_slice()))?;
        }
        TemplateFault::BadMember { block: 0 } => words.say(
            "The template is no object whose one member is `blocks`, an array of objects.",
        )?,
        TemplateFault::BadMember { block } => say_numbered(
            words,
            wrong,
            *block,
            "it has a member that no block has, or one of another kind than it may have, or `device` or `config` \
             without the other.",
        )?,
        TemplateFault::BadExpr { block } => say_numbered(
            words,
            wrong,
            *block,
            "it has an expression that is none or leads to no node of the schema of the data, or a string with a brace \
             that is left alone.",
        )?,
        TemplateFault::Memory => return Err(Memory),
    }
    Ok(true)
}

// A text without the line feed at its end.
fn without_end(text: &[u8]) -> &[u8] {
    match text {
        [front @ .., b'\n'] => front,
        _ => text,
    }
}

// Adds what is at fault in a block, in these words where that isn't found, and how blocks are counted.
fn say_numbered(
    words: &mut Words,
    wrong: &WrongTemplate,
    block: u32,
    otherwise: &str,
) -> Result<(), Memory> {
    words.say("Block ")?;
    words.count(u64::from(block))?;
    words.say(": ")?;
    if !say_found(words, wrong, block)? {
        words.say(otherwise)?;
    }
    words.say(
        " Blocks count from 1 on, in the order of the text, an outer one before those inside.",
    )
}

// Adds what is at fault in the block of this number, and answers whether that was found.
fn say_found(words: &mut Words, wrong: &WrongTemplate, block: u32) -> Result<bool, Memory> {
    let tree = Tree::new(words.alloc);
    let view = View {
        tree: &tree,
        schema: &wrong.schema,
    };
    match Value::from_slice(words.alloc, wrong.text.as_slice()) {
        Ok(template) => say_block(words, &view, &wrong.list, &template, block),
        Err(error) => match error.is_memory() {
            true => Err(Memory),
            false => Ok(false),
        },
    }
}
