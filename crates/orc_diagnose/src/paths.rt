//! What is at fault in the path of a line.
use crate::cuts::{front_of, say_cut};
use crate::words::Words;
use orc_lines::{Bar, PathForm, WrongPath};
use orc_path::{Path, PathFault, Step};
use orc_schema_nodes::{Node, Schema};
use orc_text::{Memory, Row};

/// Adds how far a text is a path, and what can't follow. So something is said.
pub(crate) fn say_no_path(words: &mut Words, text: &str) -> Result<bool, Memory> {
    match Path::parse(words.alloc, text) {
        Ok(_) => Ok(false),
        Err(PathFault::BadPath { at }) => {
            say_text(words, text, usize::try_from(at).unwrap_or(text.len()))?;
            Ok(true)
        }
        Err(PathFault::Memory) => Err(Memory),
    }
}

// Adds that a text is a path as far as there, and none.
fn say_text(words: &mut Words, text: &str, at: usize) -> Result<(), Memory> {
    if at == 0 {
        return words.say("A path begins with `/`, the name of a module and `:`.");
    }
    say_cut(words, "a path", text, at)?;
    if front_of(text, at).ends_with('\\') {
        words.say(
            " In a key a backslash is \\\\, a closing bracket \\], a space \\s, a tab \\t, a line feed \\n and a \
             carriage return \\r.",
        )?;
    }
    Ok(())
}

/// Adds why a line may not have its path: the first step that the schema doesn't have so, or that the line needs
/// another. Answers whether anything is said.
pub(crate) fn say_path(words: &mut Words, wrong: &WrongPath) -> Result<bool, Memory> {
    let path = &wrong.path;
    let steps = path.steps.as_slice();
    if steps.is_empty() {
        words.say("The root carries nothing.")?;
        return Ok(true);
    }
    if say_barred(words, steps, &wrong.bar)? {
        return Ok(true);
    }
    if path.ends_in_keys() && wants_list(wrong.form) {
        say_names(words, steps)?;
        words.say(" is to be a list: its last step has no keys.")?;
        return Ok(true);
    }
    if wrong.schema.is_plain() {
        return say_plain(words, path, wrong.form);
    }
    say_under(words, &wrong.schema, path, wrong.form)
}

// Whether a line of this form needs the path of a list.
fn wants_list(form: PathForm) -> bool {
    form == PathForm::List || form == PathForm::Template
}

// Adds why no line of a form may name a path of the data.
fn say_barred(words: &mut Words, steps: &[Step], bar: &Bar) -> Result<bool, Memory> {
    match bar {
        Bar::Free => return Ok(false),
        Bar::Kept => {
            say_names(words, steps)?;
            words.say(" is kept by the orchestrator: there is an entry for each device.")?;
        }
        Bar::Served(_) => {
            say_names(words, steps)?;
            words.say(
                " is at, below or above a list that has a template: its entries are services, for `create`, ",
            )?;
            words.say("`modify` and `delete`.")?;
        }
        Bar::Unlisted(lists) => {
            say_names(words, steps)?;
            words.say(" is no path of an entry of a list that has a template.")?;
            say_lists(words, lists)?;
        }
        Bar::Used(path) => {
            say_names(words, steps)?;
            words.say(" has an item of the opening data, at ")?;
            words.show(path.text(words.alloc)?.as_str())?;
            words.say(
                ": the entries of a list that has a template are services, which calls create.",
            )?;
        }
    }
    Ok(true)
}

// Adds which lists have a template.
fn say_lists(words: &mut Words, lists: &Row<Path>) -> Result<(), Memory> {
    if lists.as_slice().is_empty() {
        return words.say(" No list has one.");
    }
    let mut before = " Lists with one: ";
    for list in lists.as_slice() {
        words.say(before)?;
        words.show(list.text(words.alloc)?.as_str())?;
        before = ", ";
    }
    words.say(".")
}

// Adds what is said of a path of a plain device that isn't of the form.
fn say_plain(words: &mut Words, path: &Path, form: PathForm) -> Result<bool, Memory> {
    let said = match (form, path.ends_in_keys()) {
        (PathForm::Entry, false) => {
            " ends without keys, so that it is a leaf: ` = ` and a value stand after it."
        }
        (PathForm::Leaf, true) => " ends in keys, so that it is an entry: nothing stands after it.",
        _ => return Ok(false),
    };
    say_names(words, path.steps.as_slice())?;
    words.say(said)?;
    Ok(true)
}

// Adds what is at fault in a path under a schema: the first step that isn't so in it, or what stands at its end.
fn say_under(
    words: &mut Words,
    schema: &Schema,
    path: &Path,
    form: PathForm,
) -> Result<bool, Memory> {
    let steps = path.steps.as_slice();
    for (at, step) in steps.iter().enumerate() {
        let is_last = at.saturating_add(1) == steps.len();
        if say_step(words, schema, &steps[..at], step, is_last, form)? {
            return Ok(true);
        }
    }
    match schema.node(steps) {
        Some(node) => say_end(words, path, node, form),
        None => Ok(false),
    }
}

// Adds what is at fault in a step after those of a way.
fn say_step(
    words: &mut Words,
    schema: &Schema,
    way: &[Step],
    step: &Step,
    is_last: bool,
    form: PathForm,
) -> Result<bool, Memory> {
    let Some(node) = schema.node_below(way, step.node.as_str()) else {
        say_last(words, way, step)?;
        words.say(" isn't in the schema.")?;
        return Ok(true);
    };
    let count = step.keys.len();
    if count != key_count(node) && !(count == 0 && may_lack_keys(form, is_last)) {
        say_keys(words, way, step, node)?;
        return Ok(true);
    }
    if form == PathForm::Template && !is_last && is_list(node) {
        say_last(words, way, step)?;
        words.say(" is a list: that of a template is reached through containers alone.")?;
        return Ok(true);
    }
    Ok(false)
}

// Whether the step of a list may lack its keys.
fn may_lack_keys(form: PathForm, is_last: bool) -> bool {
    match form {
        PathForm::List | PathForm::Node => is_last,
        PathForm::Template => true,
        _ => false,
    }
}

// How many keys a step of a node has.
fn key_count(node: &Node) -> usize {
    match node {
        Node::List(list) => list.keys.len(),
        Node::LeafList(_) => 1,
        Node::Container | Node::Leaf(_) => 0,
    }
}

// Whether a node is a list.
fn is_list(node: &Node) -> bool {
    match node {
        Node::List(_) => true,
        _ => false,
    }
}

// Adds how many keys a step has, and which its node has.
fn say_keys(words: &mut Words, way: &[Step], step: &Step, node: &Node) -> Result<(), Memory> {
    words.say("Texts in brackets after ")?;
    say_last(words, way, step)?;
    words.say(": ")?;
    words.count(step.keys.len() as u64)?;
    words.say(". It is ")?;
    match node {
        Node::List(list) => {
            words.say("a list with the keys")?;
            for key in list.keys.as_slice() {
                words.say(" ")?;
                words.show(key.as_str())?;
            }
        }
        Node::LeafList(_) => words.say("a leaf-list, of which one value stands there")?,
        Node::Container => words.say("a container, which has none")?,
        Node::Leaf(_) => words.say("a leaf, which has none")?,
    }
    words.say(".")
}

// Adds why the node at the end of a path isn't what the line needs.
fn say_end(words: &mut Words, path: &Path, node: &Node, form: PathForm) -> Result<bool, Memory> {
    let steps = path.steps.as_slice();
    if let Some(said) = end_words(node, form) {
        say_names(words, steps)?;
        words.say(said)?;
        return Ok(true);
    }
    match (steps, form) {
        ([_, .., key], PathForm::Entry | PathForm::Leaf | PathForm::Item) if is_key(node) => {
            words.quote(key.node.as_str())?;
            words.say(" is a key: the entry ")?;
            words.show(entry_of(path.text(words.alloc)?.as_str()))?;
            words.say(" has it already.")?;
            Ok(true)
        }
        _ => Ok(false),
    }
}

// The text of an entry, out of that of a path to a leaf right below it.
fn entry_of(text: &str) -> &str {
    match text.rsplit_once('/') {
        Some((entry, _)) => entry,
        None => text,
    }
}

// Whether a node is a leaf that is a key.
fn is_key(node: &Node) -> bool {
    match node {
        Node::Leaf(leaf) => leaf.key.is_some(),
        _ => false,
    }
}

// What is said of a node where the line needs another; nothing of a key.
fn end_words(node: &Node, form: PathForm) -> Option<&'static str> {
    match (form, node) {
        (PathForm::Service | PathForm::Node, _) => None,
        (PathForm::List, Node::List(_) | Node::LeafList(_)) => None,
        (PathForm::Template, Node::List(_)) => None,
        (PathForm::List | PathForm::Template, _) => Some(" is no list."),
        (_, Node::Container) => {
            Some(" is a container, which carries nothing: name a leaf or an entry below it.")
        }
        (PathForm::Entry, Node::Leaf(leaf)) if leaf.key.is_none() => {
            Some(" is a leaf: ` = ` and a value stand after it.")
        }
        (PathForm::Leaf, Node::List(_)) => {
            Some(" is a list: nothing stands after the path of an entry.")
        }
        (PathForm::Leaf, Node::LeafList(_)) => {
            Some(" is a leaf-list: its value stands in brackets, and nothing after the path.")
        }
        _ => None,
    }
}

// Adds the names of these steps and of the one after them.
fn say_last(words: &mut Words, way: &[Step], step: &Step) -> Result<(), Memory> {
    say_names(words, way)?;
    words.say("/")?;
    words.show(step.node.as_str())
}

/// Adds the names of these steps.
pub(crate) fn say_names(words: &mut Words, steps: &[Step]) -> Result<(), Memory> {
    for step in steps {
        words.say("/")?;
        words.show(step.node.as_str())?;
    }
    Ok(())
}
