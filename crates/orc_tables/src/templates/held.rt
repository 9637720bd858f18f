//! What a call holds, in words.

use crate::templates::bench::path_in;
use crate::undone::Undone;
use orc_expr::{Read, ReadSet, Target};
use orc_queue::Held;
use orc_text::{Row, Text};
use std::alloc::Global;

/// What a call holds: a word for each part, which is a device by its number, a service, an item or
/// the entries of a list that are read, or an item or all at and below a path that may be written.
pub(crate) fn held_of(alloc: Global, words: &str) -> Result<Held, Undone> {
    let mut held = Held {
        devices: Row::new(alloc),
        services: Row::new(alloc),
        reads: ReadSet::new(alloc),
        targets: Row::new(alloc),
    };
    for word in words.split(' ') {
        hold(alloc, &mut held, word)?;
    }
    Ok(held)
}

// Adds what a word says.
fn hold(alloc: Global, held: &mut Held, word: &str) -> Result<(), Undone> {
    let Some((kind, text)) = word.split_once('=') else {
        return Ok(());
    };
    match kind {
        "device" => held.devices.push(if text == "0" { 0 } else { 1 })?,
        "service" => held.services.push(Text::from_str(alloc, text)?)?,
        "item" => held.reads.push(Read::Item(path_in(alloc, text)?))?,
        "keys" => held.reads.push(Read::Keys(path_in(alloc, text)?))?,
        "one" => held.targets.push(Target::One(path_in(alloc, text)?))?,
        "under" => held.targets.push(Target::Under(path_in(alloc, text)?))?,
        _ => {}
    }
    Ok(())
}
