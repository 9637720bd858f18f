//! Marks of devices by their numbers: those that actions edit, and those on which a service is known to have an
//! item. A name is looked up once, however many devices there are.
ghost use Rattle.std.specs.Prelude.{◌≡◌, ℕ, ◌==◌, ◌<◌, ◌&&◌, ◌^◌, false, IfOk, IsTrue, OnOk, length};
ghost use Rattle.std.specs.List.{filter, range_with_len};
ghost use Rattle.orc_path.specs.Alphabet.{is_key};
ghost use Rattle.orc_decls.specs.Devices.{is_same_text, name_of};
ghost use Rattle.orc_datastore.specs.Touched.{is_written_by};
ghost use Rattle.orc_datastore.specs.inside.Marks.{AddsMarks, MarksRow, is_marked};
ghost use Rattle.orc_datastore.specs.inside.Sights.{knows_device};
ghost use Rattle.orc_datastore.specs.inside.Touching.{is_edited_by, is_on};

use crate::Service;
use crate::known::{device_rows, knows_device, row_number};
use orc_call::{Action, DevicePut};
use orc_decls::Decls;
use orc_path::Path;
use orc_text::{Memory, Row, Text};
use orc_tree::Tree;
use std::alloc::Global;

/// No mark on any of so many devices.
pub(crate) fn no_marks(alloc: Global, devices: usize) -> Result<Vec<bool>, Memory>
    ensures len { IfOk result (λ marks. length marks.items ≡ devices) }
    ensures none { IfOk result (λ marks. (device : ℕ) → is_marked marks.items device ≡ false) }
{
    let mut marks = Vec::new(alloc);
    for _device in 0..devices {
        marks.push(false)?;
    }
    Ok(marks)
}

/// The numbers of the marked devices, ascending.
pub(crate) fn marked(alloc: Global, marks: &[bool]) -> Result<Row<u32>, Memory>
    requires { length marks.now < 2 ^ 32 }
    ensures { IfOk result (λ devices.
        devices ≡ filter (is_marked marks.now) (range_with_len 0 (length marks.now))) }
{
    let mut devices = Row::new(alloc);
    for device in 0..marks.len() as u32 {
        if is_marked(marks, device) {
            devices.push(device)?;
        }
    }
    Ok(devices)
}

/// Whether the device of a number is marked.
pub(crate) fn is_marked(marks: &[bool], device: u32) -> bool
    ensures { result ≡ is_marked marks.now device }
{
    match marks.get(device as usize) {
        Some(mark) => *mark,
        None => false,
    }
}

// Marks the device of a number.
#[tactic(auto, using(crate::proofs::Marking::one_mark))]
fn mark(marks: &mut Vec<bool>, device: usize)
    requires { device < length marks.old.items }
    ensures { AddsMarks (λ d. device == d) marks.old.items marks.new.items }
{
    marks[device] = true;
}

// Marks the device of a name, where one is declared.
fn mark_named(marks: &mut Vec<bool>, decls: &Decls, name: &Text)
    requires { length marks.old.items ≡ length decls.now.names }
    ensures { AddsMarks (λ d. is_same_text name.now (name_of decls.now.names d)) marks.old.items marks.new.items }
{
    let _names = decls.names();
    match decls.number_of(name) {
        Some(device) => mark(marks, device),
        None => {}
    }
}

// Marks the devices that writes write on.
#[tactic(auto, using(crate::proofs::Marking::marked_start, crate::proofs::Marking::marked_turn, crate::proofs::Marking::marked_end))]
fn mark_written(marks: &mut Vec<bool>, decls: &Decls, writes: &[DevicePut])
    requires { length marks.old.items ≡ length decls.now.names }
    ensures { AddsMarks (λ d. is_written_by writes.now (name_of decls.now.names d))
        marks.old.items marks.new.items }
{
    for write in writes {
        mark_named(marks, decls, &write.device);
    }
}

/// Marks the devices on which an action makes a service that writes there, and that whose base it edits.
pub(crate) fn mark_edited(marks: &mut Vec<bool>, decls: &Decls, action: &Action)
    requires { length marks.old.items ≡ length decls.now.names }
    ensures { AddsMarks (λ d. is_edited_by (name_of decls.now.names d) action.now)
        marks.old.items marks.new.items }
{
    match action {
        Action::Literal(_, writes) => mark_written(marks, decls, writes.as_slice()),
        Action::BasePut(put) => mark_named(marks, decls, &put.device),
        Action::BaseRemove(device, _) => mark_named(marks, decls, device),
        _ => {}
    }
}

/// Marks the devices on which a service has an item.
#[tactic(auto, using(crate::proofs::Marking::marks_if, crate::proofs::Marking::marks_unless, crate::proofs::Marking::to_start, crate::proofs::Marking::to_turn, crate::proofs::Marking::to_end))]
pub(crate) fn mark_service(marks: &mut Vec<bool>, service: &Service)
    requires { length marks.old.items < 2 ^ 32 }
    ensures { AddsMarks (λ d. is_on d service.now) marks.old.items marks.new.items }
{
    for device in 0..marks.len() as u32 {
        if service.is_on(device) {
            mark(marks, device as usize);
        }
    }
}

// Marks the device of a number where the living service of a name is known to have an item on it.
#[tactic(auto, using(crate::proofs::Marking::marks_if, crate::proofs::Marking::marks_unless, crate::proofs::Marking::marks_yet))]
fn mark_known_on(
    marks: &mut Vec<bool>,
    alloc: Global,
    known: &Tree,
    id: &Text,
    device: u32,
) -> Result<(), Memory>
    requires key { IsTrue (is_key id.now) }
    requires device { device < length marks.old.items }
    ensures { OnOk result (AddsMarks (λ d. device == d && knows_device known.now id.now device)
        marks.old.items marks.new.items) }
{
    if is_marked(marks.as_slice(), device) {
        return Ok(());
    }
    if knows_device(alloc, known, id, device)? {
        mark(marks, device as usize);
    }
    Ok(())
}

// Marks the device of an entry below that of the service of a name.
#[tactic(auto, using(crate::proofs::Marking::row_marks, crate::proofs::Marking::row_unmarked))]
fn mark_row(
    marks: &mut Vec<bool>,
    alloc: Global,
    known: &Tree,
    id: &Text,
    row: &Path,
) -> Result<(), Memory>
    requires { IsTrue (is_key id.now) }
    ensures { OnOk result (MarksRow known.now id.now row.now marks.old.items marks.new.items) }
{
    match row_number(row) {
        Some(device) => {
            if (device as usize) < marks.len() {
                mark_known_on(marks, alloc, known, id, device)
            } else {
                Ok(())
            }
        }
        None => Ok(()),
    }
}

/// Marks the devices on which the living service of a name is known to have an item. It looks at the entries of
/// these alone.
#[tactic(auto, using(crate::proofs::Marking::rows_start, crate::proofs::Marking::rows_turn, crate::proofs::Marking::rows_end))]
pub(crate) fn mark_known(
    marks: &mut Vec<bool>,
    alloc: Global,
    known: &Tree,
    id: &Text,
) -> Result<(), Memory>
    requires key { IsTrue (is_key id.now) }
    requires few { length marks.old.items < 2 ^ 32 }
    ensures { OnOk result (AddsMarks (λ d. knows_device known.now id.now d) marks.old.items marks.new.items) }
{
    let rows = device_rows(alloc, known, id)?;
    for row in rows.as_slice() {
        mark_row(marks, alloc, known, id, row)?;
    }
    Ok(())
}
