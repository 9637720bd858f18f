//! What lives, and on which devices: an entry for each living service, and one below it for each device
//! on which the service has an item.
ghost use Rattle.std.specs.Prelude.{◌≡◌, ◌∷◌, [], ℕ, List, Some, true, ◌^◌, ◌<◌, All, IfOk, IsTrue, OnOk, length};
ghost use Rattle.std.specs.Fmt.{decimal};
ghost use Rattle.std.specs.List.{fold, list_any};
ghost use Rattle.std.specs.Ordering.{eq_by_cmp};
ghost use Rattle.orc_path.specs.Order.{path_cmp};
ghost use Rattle.orc_path.specs.Alphabet.{is_key};
ghost use Rattle.orc_datastore.specs.Snapshots.{device_row, device_step, service_entry, service_step};
ghost use Rattle.orc_datastore.specs.inside.Sights.{device_list, enter_living, enter_parts, known_behind, knows_device, knows_service, leave_living};

use crate::Service;
use orc_decls::{path_of_step, step_of};
use orc_path::{Item, Name, Path, Step};
use orc_text::{Memory, Row, Text};
use orc_tree::Tree;
use std::alloc::Global;

// The step of the service of a name.
fn service_step(alloc: Global, id: &Text) -> Result<Step, Memory>
    requires { IsTrue (is_key id.now) }
    ensures { IfOk result (λ step. step ≡ service_step id.now) }
{
    step_of(alloc, "orc:service", id.copy(alloc)?)
}

// A number in decimal digits.
fn number_text(alloc: Global, number: u32) -> Result<Text, Memory>
    ensures text { IfOk result (λ text. text ≡ decimal number) }
    ensures key { IfOk result (λ text. IsTrue (is_key text)) }
{
    Ok(Text::from_string(format!(in alloc; "{number}")?))
}

// The step of the device of a number.
fn device_step(alloc: Global, device: u32) -> Result<Step, Memory>
    ensures { IfOk result (λ step. step ≡ device_step device) }
{
    let text = number_text(alloc, device)?;
    step_of(alloc, "device", text)
}

// The entry of the service of a name.
fn service_entry(alloc: Global, id: &Text) -> Result<Path, Memory>
    requires { IsTrue (is_key id.now) }
    ensures { IfOk result (λ path. path ≡ service_entry id.now) }
{
    let step = service_step(alloc, id)?;
    path_of_step(alloc, step)
}

// The entry of the device of a number below that of the service of a name.
fn device_row(alloc: Global, id: &Text, device: u32) -> Result<Path, Memory>
    requires { IsTrue (is_key id.now) }
    ensures { IfOk result (λ path. path ≡ device_row id.now device) }
{
    let mut steps = Row::new(alloc);
    steps.push(service_step(alloc, id)?)?;
    steps.push(device_step(alloc, device)?)?;
    Ok(Path { steps })
}

/// Whether a service of this name lives.
pub(crate) fn knows_service(alloc: Global, known: &Tree, id: &Text) -> Result<bool, Memory>
    requires { IsTrue (is_key id.now) }
    ensures { IfOk result (λ there. there ≡ knows_service known.now id.now) }
{
    let path = service_entry(alloc, id)?;
    Ok(known.get(&path).is_some())
}

// The list of the devices below the entry of the service of a name.
fn device_list(alloc: Global, id: &Text) -> Result<Path, Memory>
    requires { IsTrue (is_key id.now) }
    ensures { IfOk result (λ path. path ≡ device_list id.now) }
{
    let Ok(node) = Name::new(alloc, "device") else {
        return Err(Memory);
    };
    let mut steps = Row::new(alloc);
    steps.push(service_step(alloc, id)?)?;
    let keys = Row::new(alloc);
    steps.push(Step { node, keys })?;
    Ok(Path { steps })
}

/// The entries of devices below that of the service of a name.
pub(crate) fn device_rows(alloc: Global, known: &Tree, id: &Text) -> Result<Vec<Path>, Memory>
    requires { IsTrue (is_key id.now) }
    ensures { IfOk result (λ rows. (device : ℕ) → knows_device known.now id.now device ≡ true
        → list_any (eq_by_cmp path_cmp (device_row id.now device)) rows.items ≡ true) }
{
    let list = device_list(alloc, id)?;
    known.keys_under(alloc, &list)
}

/// The number in the entry of a device.
pub(crate) fn row_number(row: &Path) -> Option<u32>
    ensures { (id : List ℕ) (device : ℕ) → device < 2 ^ 32 → row.now ≡ device_row id device → result ≡ Some device }
{
    match row.steps.as_slice() {
        [_, step] => key_number(step.keys.as_slice()),
        _ => None,
    }
}

// The number that one key is in decimal digits.
fn key_number(keys: &[Text]) -> Option<u32>
    ensures { (device : ℕ) → device < 2 ^ 32 → keys.now ≡ decimal device ∷ [] → result ≡ Some device }
{
    match keys {
        [key] => match key.as_str().parse::<u32>() {
            Ok(number) => Some(number),
            Err(_) => None,
        },
        _ => None,
    }
}

/// Whether the living service of this name has an item on the device.
pub(crate) fn knows_device(
    alloc: Global,
    known: &Tree,
    id: &Text,
    device: u32,
) -> Result<bool, Memory>
    requires { IsTrue (is_key id.now) }
    ensures { IfOk result (λ there. there ≡ knows_device known.now id.now device) }
{
    let path = device_row(alloc, id, device)?;
    Ok(known.get(&path).is_some())
}

// Enters each device on which a service has an item.
fn enter_parts(known: &mut Tree, alloc: Global, service: &Service) -> Result<(), Memory>
    requires key { IsTrue (is_key service.now.id) }
    requires few { length service.now.parts < 2 ^ 32 }
    ensures { OnOk result (known.new ≡ enter_parts service.now.id 0 service.now.parts known.old) }
{
    for device in 0..service.devices() as u32 {
        if service.is_on(device) {
            known.set(device_row(alloc, service.id(), device)?, Item::Entry)?;
        }
    }
    Ok(())
}

// Enters a service, and the devices on which it has an item.
fn enter(known: &mut Tree, alloc: Global, service: &Service) -> Result<(), Memory>
    requires key { IsTrue (is_key service.now.id) }
    requires few { length service.now.parts < 2 ^ 32 }
    ensures { OnOk result (known.new ≡ enter_living known.old service.now) }
{
    known.set(service_entry(alloc, service.id())?, Item::Entry)?;
    enter_parts(known, alloc, service)
}

// Removes the entries of the services of these names.
fn leave_all(known: &mut Tree, alloc: Global, ids: &[Text]) -> Result<(), Memory>
    requires { All (λ id. IsTrue (is_key id)) ids.now }
    ensures { OnOk result (known.new ≡ fold leave_living known.old ids.now) }
{
    for id in ids {
        known.remove(&service_entry(alloc, id)?)?;
    }
    Ok(())
}

// Enters services, and the devices on which each has an item.
fn enter_all(known: &mut Tree, alloc: Global, services: &[Service]) -> Result<(), Memory>
    requires keys { All (λ service. IsTrue (is_key service.id)) services.now }
    requires few { All (λ service. length service.parts < 2 ^ 32) services.now }
    ensures { OnOk result (known.new ≡ fold enter_living known.old services.now) }
{
    for service in services {
        enter(known, alloc, service)?;
    }
    Ok(())
}

/// What is known where the services of these names are gone and others have come, on a copy, which
/// shares all that stays.
pub(crate) fn known_behind(
    alloc: Global,
    known: &Tree,
    ids: &[Text],
    services: &[Service],
) -> Result<Tree, Memory>
    requires ids { All (λ id. IsTrue (is_key id)) ids.now }
    requires keys { All (λ service. IsTrue (is_key service.id)) services.now }
    requires few { All (λ service. length service.parts < 2 ^ 32) services.now }
    ensures { IfOk result (λ tree. tree ≡ known_behind known.now ids.now services.now) }
{
    let mut tree = known.copy(alloc)?;
    leave_all(&mut tree, alloc, ids)?;
    enter_all(&mut tree, alloc, services)?;
    Ok(tree)
}
