//! The actions that the lines of a table make.
use crate::items::put_of;
use crate::line::first_word;
use crate::undone::Undone;
use orc_call::{Action, DevicePut, Put};
use orc_path::Path;
use orc_text::{Row, Text};
use std::alloc::Global;

/// The action of a word and what stands after it.
pub(crate) fn action_of(alloc: Global, word: &str, rest: &str) -> Result<Action, Undone> {
    match word {
        "create" => create(alloc, rest),
        "modify" => modify(alloc, rest),
        "redeploy" => Ok(Action::Redeploy(Text::from_str(alloc, rest)?)),
        "delete" => Ok(Action::Delete(Text::from_str(alloc, rest)?)),
        "literal" => literal(alloc, rest),
        _ => item_action_of(alloc, word, rest),
    }
}

// The action of a word, where it is one with a single item or path.
fn item_action_of(alloc: Global, word: &str, rest: &str) -> Result<Action, Undone> {
    match word {
        "set" => Ok(Action::Set(put_of(alloc, rest)?)),
        "unset" => Ok(Action::Unset(Path::parse(alloc, rest)?)),
        "base" => Ok(Action::BasePut(device_put_of(alloc, rest)?)),
        "unbase" => base_remove(alloc, rest),
        _ => Err(Undone),
    }
}

// Creating a service, as `SERVICE | ITEM | ITEM`.
fn create(alloc: Global, rest: &str) -> Result<Action, Undone> {
    let (service, items) = named(rest);
    let service = Text::from_str(alloc, service)?;
    Ok(Action::Create(service, body_of(alloc, items)?))
}

// Modifying a service, likewise.
fn modify(alloc: Global, rest: &str) -> Result<Action, Undone> {
    let (service, items) = named(rest);
    let service = Text::from_str(alloc, service)?;
    Ok(Action::Modify(service, body_of(alloc, items)?))
}

// A literal service, as `NAME | DEVICE ITEM`.
fn literal(alloc: Global, rest: &str) -> Result<Action, Undone> {
    let (name, items) = named(rest);
    let name = Text::from_str(alloc, name)?;
    Ok(Action::Literal(name, writes_of(alloc, items)?))
}

// Removing a path of a device's base, as `DEVICE PATH`.
fn base_remove(alloc: Global, rest: &str) -> Result<Action, Undone> {
    let (device, path) = first_word(rest);
    let device = Text::from_str(alloc, device)?;
    Ok(Action::BaseRemove(device, Path::parse(alloc, path)?))
}

// The item of a device, as `DEVICE PATH`.
fn device_put_of(alloc: Global, text: &str) -> Result<DevicePut, Undone> {
    let (device, item) = first_word(text);
    let Put { path, item } = put_of(alloc, item)?;
    Ok(DevicePut {
        device: Text::from_str(alloc, device)?,
        path,
        item,
    })
}

// The name before the first bar, and the items after it.
fn named(text: &str) -> (&str, &str) {
    text.split_once(" | ").unwrap_or((text, ""))
}

// The items between the bars.
fn body_of(alloc: Global, items: &str) -> Result<Row<Put>, Undone> {
    let mut body = Row::new(alloc);
    if items.is_empty() {
        return Ok(body);
    }
    for item in items.split(" | ") {
        body.push(put_of(alloc, item)?)?;
    }
    Ok(body)
}

// The items of devices between the bars.
fn writes_of(alloc: Global, items: &str) -> Result<Row<DevicePut>, Undone> {
    let mut writes = Row::new(alloc);
    if items.is_empty() {
        return Ok(writes);
    }
    for item in items.split(" | ") {
        writes.push(device_put_of(alloc, item)?)?;
    }
    Ok(writes)
}
