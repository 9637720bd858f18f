//! What lines hold: items, configurations, changes, and the tags of refusals.
use crate::undone::Undone;
use orc_call::{Put, Tag};
use orc_path::{Item, Path, read_value};
use orc_text::Row;
use orc_tree::{Change, ChangeSet, Tree};
use std::alloc::Global;

/// The item of `PATH = VALUE`, a leaf, or of `PATH`, an entry. The value may be left out.
pub(crate) fn put_of(alloc: Global, text: &str) -> Result<Put, Undone> {
    match text.split_once(" =") {
        Some((path, value)) => leaf_of(alloc, path, value.strip_prefix(' ').unwrap_or(value)),
        None => Ok(Put {
            path: Path::parse(alloc, text)?,
            item: Item::Entry,
        }),
    }
}

/// A leaf: its path, and its value as a text with escapes.
pub(crate) fn leaf_of(alloc: Global, path: &str, value: &str) -> Result<Put, Undone> {
    match read_value(alloc, value)? {
        Some(text) => Ok(Put {
            path: Path::parse(alloc, path)?,
            item: Item::Leaf(text),
        }),
        None => Err(Undone),
    }
}

/// Sets an item and the entries on its way, where it fits its path; says whether it does.
pub(crate) fn set(tree: &mut Tree, put: Put) -> Result<bool, Undone> {
    let Put { path, item } = put;
    if !item.fits(&path) {
        return Ok(false);
    }
    tree.set(path, item)?;
    Ok(true)
}

/// The configuration of the items of a text, parted by ` | `, and the entries on their way.
pub(crate) fn tree_of(alloc: Global, items: &str) -> Result<Tree, Undone> {
    let mut tree = Tree::new(alloc);
    if items.is_empty() {
        return Ok(tree);
    }
    for item in items.split(" | ") {
        if !set(&mut tree, put_of(alloc, item)?)? {
            return Err(Undone);
        }
    }
    Ok(tree)
}

// The change of a text: `+ ITEM` or `- PATH`.
fn change_of(alloc: Global, text: &str) -> Result<Change, Undone> {
    match text.split_once(' ') {
        Some(("+", item)) => {
            let Put { path, item } = put_of(alloc, item)?;
            Ok(Change::Put(path, item))
        }
        Some(("-", path)) => Ok(Change::Remove(Path::parse(alloc, path)?)),
        _ => Err(Undone),
    }
}

/// The changes of a text, parted by ` | `.
pub(crate) fn changes_of(alloc: Global, text: &str) -> Result<ChangeSet, Undone> {
    let mut changes = Row::new(alloc);
    if text.is_empty() {
        return Ok(ChangeSet { changes });
    }
    for change in text.split(" | ") {
        changes.push(change_of(alloc, change)?)?;
    }
    Ok(ChangeSet { changes })
}

/// The tag of a word.
pub(crate) fn tag_of(word: &str) -> Result<Tag, Undone> {
    match word {
        "lock-denied" => Ok(Tag::LockDenied),
        "in-use" => Ok(Tag::InUse),
        "invalid-value" => Ok(Tag::InvalidValue),
        "operation-failed" => Ok(Tag::OperationFailed),
        "no-session" => Ok(Tag::NoSession),
        _ => Err(Undone),
    }
}

/// The word of a tag.
pub(crate) fn tag_word(tag: Tag) -> &'static str {
    match tag {
        Tag::LockDenied => "lock-denied",
        Tag::InUse => "in-use",
        Tag::InvalidValue => "invalid-value",
        Tag::OperationFailed => "operation-failed",
        Tag::NoSession => "no-session",
    }
}
