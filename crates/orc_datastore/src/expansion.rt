//! What a literal service writes.
ghost use Rattle.std.specs.Prelude.{◌≡◌, ◌++◌, ◌<◌, ◌^◌, ◌==◌, IfOk, IsTrue, OnOk, length};
ghost use Rattle.std.specs.FinMap.{entries};
ghost use Rattle.std.specs.List.{position};
ghost use Rattle.orc_path.specs.Items.{fits};
ghost use Rattle.orc_services.specs.Fitting.{fits_writes};
ghost use Rattle.orc_template.specs.Expansions.{device_part, device_parts};
ghost use Rattle.orc_datastore.specs.Services.{spread};
ghost use Rattle.orc_datastore.specs.States.{expansion};
ghost use Rattle.orc_datastore.specs.inside.Written.{AddsItem, TakesWrite};

use crate::service::written_on;
use orc_call::{DevicePut, Put};
use orc_decls::Decls;
use orc_path::{Item, Path};
use orc_refs::items_of;
use orc_text::{Memory, Row};
use orc_tree::Tree;
use std::alloc::Global;

/// What a literal service of these writes writes on each device on which it writes, with the device's number:
/// the items and the entries on their way. Where two writes name one path the later one counts.
#[tactic(auto, using(crate::proofs::Spreading::one_taken))]
pub(crate) fn written_by(
    alloc: Global,
    decls: &Decls,
    writes: &[DevicePut],
) -> Result<Row<(u32, Tree)>, Memory>
    requires fits { IsTrue (fits_writes writes.now) }
    requires few { length decls.now.names < 2 ^ 32 }
    ensures { IfOk result (λ written.
        spread written 0 (length decls.now.names) ≡ expansion decls.now.names writes.now) }
{
    let mut written = Vec::new(alloc);
    for write in writes {
        push_write(alloc, &mut written, decls, write)?;
    }
    Ok(Row::from_vec(written))
}

/// The items on each of so many devices on which one stands, by these numbered configurations.
pub(crate) fn gathered(
    alloc: Global,
    devices: usize,
    written: &[(u32, Tree)],
) -> Result<Row<(u32, Row<Put>)>, Memory>
    requires { devices < 2 ^ 32 }
    ensures { IfOk result (λ parts. parts ≡ device_parts 0 (spread written.now 0 devices)) }
{
    let mut parts = Row::new(alloc);
    for device in 0..devices as u32 {
        if let Some(tree) = written_on(written, device) {
            push_part(alloc, &mut parts, device, tree)?;
        }
    }
    Ok(parts)
}

// Adds the items on a device, where one stands there.
fn push_part(
    alloc: Global,
    parts: &mut Row<(u32, Row<Put>)>,
    device: u32,
    tree: &Tree,
) -> Result<(), Memory>
    ensures { OnOk result (parts.new ≡ parts.old ++ device_part device (entries tree.now)) }
{
    let items = items_of(alloc, tree)?;
    if items.is_empty() {
        return Ok(());
    }
    parts.push((device, items))
}

// Adds what a write writes, where its device is declared.
fn push_write(
    alloc: Global,
    written: &mut Vec<(u32, Tree)>,
    decls: &Decls,
    write: &DevicePut,
) -> Result<(), Memory>
    requires fits { IsTrue (fits write.now.path write.now.item) }
    requires few { length decls.now.names < 2 ^ 32 }
    ensures { OnOk result (TakesWrite decls.now.names write.now written.old.items written.new.items) }
{
    let _names = decls.names();
    match decls.number_of(&write.device) {
        Some(device) => {
            let path = write.path.copy(alloc)?;
            let item = write.item.copy(alloc)?;
            put_on(alloc, written, device as u32, path, item)
        }
        None => Ok(()),
    }
}

// Sets an item in the configuration of a number, and makes it first where there is none.
fn put_on(
    alloc: Global,
    written: &mut Vec<(u32, Tree)>,
    device: u32,
    path: Path,
    item: Item,
) -> Result<(), Memory>
    requires { IsTrue (fits path item) }
    ensures { OnOk result (AddsItem device path item written.old.items written.new.items) }
{
    match place_on(written.as_slice(), device) {
        Some(place) => {
            written[place].1.set(path, item)?;
            Ok(())
        }
        None => {
            let mut tree = Tree::new(alloc);
            tree.set(path, item)?;
            written.push((device, tree))?;
            Ok(())
        }
    }
}

// The place of the configuration of a number.
fn place_on(written: &[(u32, Tree)], device: u32) -> Option<usize>
    ensures { result ≡ position (λ one. one.0 == device) written.now }
{
    written.iter().position(|one| one.0 == device)
}
