//! Which calls a call block can give.
ghost use Rattle.std.specs.Prelude.{◌≡◌, ◌&&◌, [], false, not, nat_le, length, option_map, IfOk};
ghost use Rattle.orc_decls.specs.declared.lawful.TheConstants.{MOST_WRITES};
ghost use Rattle.std.specs.Option.{option_copied, option_map_or};
ghost use Rattle.std.specs.List.{list_all};
ghost use Rattle.orc_typed.specs.Typed.{are_canonical_steps, is_typed};
ghost use Rattle.orc_decls.specs.Calls.{is_service_among, service_of, services_once};
ghost use Rattle.orc_decls.specs.Devices.{is_same_text};
ghost use Rattle.orc_decls.specs.inside.Known.{is_known};
ghost use Rattle.orc_decls.specs.Calls.{blank_item, device_named, has_body, is_action, is_base_path, is_call, is_data_item, is_data_path, is_item_at, is_kept, is_lawful_item, is_lawful_name, is_path_under, is_put, is_served, is_service, is_write, schema_in};

use crate::served::{has_body, is_served, is_service};
use crate::{Decls, Device};
use orc_call::{Action, Call, DevicePut, MOST_ACTIONS, Put};
use orc_path::{Item, Path, is_identifier, is_long_name, is_long_value, is_value};
use orc_schema_nodes::Schema;
use orc_text::{Memory, Text};
use orc_typed::{are_canonical_steps, is_in_schema, is_typed};
use std::alloc::Global;

/// The most writes of a literal service.
pub const MOST_WRITES: usize = 16_777_216;

/// Whether a call block under these declarations can give the call. It takes memory only for the path
/// of a service.
pub fn is_call(alloc: Global, decls: &Decls, call: &Call) -> Result<bool, Memory>
    ensures { IfOk result (λ lawful. lawful ≡ is_call decls.now call.now) }
{
    // Read, so that its range is known to the proof.
    let _number = call.number;
    if !is_lawful_name(call.caller.as_str()) {
        return Ok(false);
    }
    let count = call.actions.len();
    if count < 1 || count > MOST_ACTIONS {
        return Ok(false);
    }
    if !are_actions(alloc, decls, call.actions.as_slice())? {
        return Ok(false);
    }
    Ok(services_once(call.actions.as_slice()))
}

// Whether a call block can give each of the actions.
fn are_actions(alloc: Global, decls: &Decls, actions: &[Action]) -> Result<bool, Memory>
    ensures { IfOk result (λ lawful. lawful ≡ list_all (is_action decls.now) actions.now) }
{
    let mut rest = actions;
    while let [action, later @ ..] = rest {
        if !is_action(alloc, decls, action)? {
            return Ok(false);
        }
        rest = later;
    }
    Ok(true)
}

// Whether the actions name each service at most once.
fn services_once(actions: &[Action]) -> bool
    ensures { result ≡ services_once actions.now }
{
    match actions {
        [] => true,
        [action, later @ ..] => !names_again(action, later) && services_once(later),
    }
}

// Whether later actions name the service that the action names.
fn names_again(action: &Action, later: &[Action]) -> bool
    ensures { result ≡ option_map_or (is_service_among later.now) (service_of action.now) false }
{
    match service_of(action) {
        Some(id) => is_service_among(later, id),
        None => false,
    }
}

/// Whether one of the actions of a call names the service of this id.
pub fn is_service_among(actions: &[Action], id: &Text) -> bool
    ensures { result ≡ is_service_among actions.now id.now }
{
    actions.iter().any(|action| names(action, id))
}

// The service that an action of a call names.
pub fn service_of(action: &Action) -> Option<&Text>
    ensures { option_copied result ≡ service_of action.now }
{
    match action {
        Action::Create(id, _) | Action::Modify(id, _) | Action::Literal(id, _) => Some(id),
        Action::Redeploy(id) | Action::Delete(id) => Some(id),
        _ => None,
    }
}

// Whether the action names the service of this id.
fn names(action: &Action, id: &Text) -> bool
    ensures { result ≡ option_map_or (λ own. is_same_text id.now own) (service_of action.now) false }
{
    match service_of(action) {
        Some(own) => *id == *own,
        None => false,
    }
}

// Whether a call block can give the action.
fn is_action(alloc: Global, decls: &Decls, action: &Action) -> Result<bool, Memory>
    ensures { IfOk result (λ lawful. lawful ≡ is_action decls.now action.now) }
{
    match action {
        Action::Create(id, body) | Action::Modify(id, body) => {
            is_bodied(alloc, decls, id, body.as_slice())
        }
        Action::Redeploy(id) => is_service(alloc, decls, id),
        Action::Literal(id, writes) => Ok(is_literal(decls, id, writes.as_slice())),
        Action::Delete(id) => {
            if is_lawful_name(id.as_str()) {
                return Ok(true);
            }
            is_service(alloc, decls, id)
        }
        Action::Set(put) => Ok(is_settable(decls, put)),
        Action::Unset(path) => Ok(is_removable(alloc, decls, path)),
        Action::BasePut(write) => Ok(is_write(decls, write)),
        Action::BaseRemove(device, path) => Ok(is_base_path(alloc, decls, device, path)),
    }
}

// Whether a call block can give the service and its body.
fn is_bodied(alloc: Global, decls: &Decls, id: &Text, body: &[Put]) -> Result<bool, Memory>
    ensures { IfOk result (λ is. is ≡ (is_service decls.now id.now && has_body decls.now id.now body.now)) }
{
    if !is_service(alloc, decls, id)? {
        return Ok(false);
    }
    has_body(alloc, decls, id, body)
}

// Whether a call block can give a literal service.
fn is_literal(decls: &Decls, id: &Text, writes: &[DevicePut]) -> bool
    ensures { result ≡ (is_lawful_name id.now && nat_le (length writes.now) MOST_WRITES
        && list_all (is_write decls.now) writes.now) }
{
    is_lawful_name(id.as_str()) && writes.len() <= MOST_WRITES && are_writes(decls, writes)
}

// Whether a line may set the item of the data.
fn is_settable(decls: &Decls, put: &Put) -> bool
    ensures { result ≡ (is_data_item decls.now.data_schema put.now
        && not (is_served decls.now.services put.now.path)) }
{
    is_data_item(decls.data_schema(), put) && !is_served(decls.services(), &put.path)
}

// Whether a line may remove the path of the data.
fn is_removable(alloc: Global, decls: &Decls, path: &Path) -> bool
    ensures { result ≡ (is_data_path decls.now.data_schema path.now
        && not (is_served decls.now.services path.now)) }
{
    is_data_path(alloc, decls.data_schema(), path) && !is_served(decls.services(), path)
}

// Whether the schema has the item at its path.
pub(crate) fn is_put(schema: &Schema, put: &Put) -> bool
    ensures { result ≡ is_put schema.now put.now }
{
    is_item_at(&put.path, &put.item) && is_typed(schema, &put.path, &put.item)
}

// Whether a line may name the item of the data.
fn is_data_item(schema: &Schema, put: &Put) -> bool
    ensures { result ≡ is_data_item schema.now put.now }
{
    is_put(schema, put) && !is_kept(&put.path)
}

/// Whether a line may name the path of the data, and it can carry an item there.
pub fn is_data_path(alloc: Global, schema: &Schema, path: &Path) -> bool
    ensures { result ≡ is_data_path schema.now path.now }
{
    is_path_under(alloc, schema, path) && !is_kept(path)
}

/// Whether the path is at, under or above the list of the devices, which no line may name.
pub fn is_kept(path: &Path) -> bool
    ensures { result ≡ is_kept path.now }
{
    match path.steps.as_slice() {
        [] => true,
        [first, ..] => first.node.as_str() == "orc:device",
    }
}

// Whether a call block can give the writes.
fn are_writes(decls: &Decls, writes: &[DevicePut]) -> bool
    ensures { result ≡ list_all (is_write decls.now) writes.now }
{
    writes.iter().all(|write| is_write(decls, write))
}

// Whether a write is on a declared device, and its item may stand there under the device's schema.
fn is_write(decls: &Decls, write: &DevicePut) -> bool
    ensures { result ≡ is_write decls.now write.now }
{
    match device_named(decls.devices(), &write.device) {
        Some(device) => {
            is_item_at(&write.path, &write.item)
                && is_typed_in(decls.schemas(), device.schema, write)
        }
        None => false,
    }
}

// Whether the path of a declared device can carry an item of its base.
fn is_base_path(alloc: Global, decls: &Decls, device: &Text, path: &Path) -> bool
    ensures { result ≡ is_base_path decls.now device.now path.now }
{
    let item = blank_item(alloc, path);
    match device_named(decls.devices(), device) {
        Some(device) => {
            is_item_at(path, &item) && is_known_in(decls.schemas(), device.schema, path, &item)
        }
        None => false,
    }
}

// Whether the schema of a place has the item at the path, whose keys are in canonical form.
fn is_known_in(schemas: &[Schema], place: u32, path: &Path, item: &Item) -> bool
    ensures { result ≡ is_known (schema_in schemas.now place) path.now item.now }
{
    match schemas.get(place as usize) {
        Some(schema) => is_known(schema, path, item),
        None => true,
    }
}

// The first declared device of this name.
fn device_named<'a>(devices: &'a [Device], name: &Text) -> Option<&'a Device>
    ensures { option_map (λ device. device.now) result ≡ device_named devices.now name.now }
{
    devices.iter().find(|device| *name == device.name)
}

// Whether the schema of a place has the item of a write, in its canonical form.
fn is_typed_in(schemas: &[Schema], place: u32, write: &DevicePut) -> bool
    ensures { result ≡ is_typed (schema_in schemas.now place) write.now.path write.now.item }
{
    match schemas.get(place as usize) {
        Some(schema) => is_typed(schema, &write.path, &write.item),
        None => true,
    }
}

// Whether the path can carry an item that the schema has at it, and its keys are in canonical form.
fn is_path_under(alloc: Global, schema: &Schema, path: &Path) -> bool
    ensures { result ≡ is_path_under schema.now path.now }
{
    let item = blank_item(alloc, path);
    is_item_at(path, &item) && is_known(schema, path, &item)
}

// Whether the schema has the item at the path, whose keys are in canonical form.
fn is_known(schema: &Schema, path: &Path, item: &Item) -> bool
    ensures { result ≡ is_known schema.now path.now item.now }
{
    is_in_schema(schema, path, item)
        && (schema.is_plain() || are_canonical_steps(schema, path.steps.as_slice()))
}

/// The item that the path can carry, but for a leaf's text: an entry where its last step has keys, and
/// else a leaf with an empty text, which takes no memory.
pub fn blank_item(alloc: Global, path: &Path) -> Item
    ensures { result ≡ blank_item path.now }
{
    if path.ends_in_keys() {
        return Item::Entry;
    }
    Item::Leaf(Text::new(alloc))
}

/// Whether an item may stand at a path of a bundle.
pub fn is_item_at(path: &Path, item: &Item) -> bool
    ensures { result ≡ is_item_at path.now item.now }
{
    // Looked into, so that the proof knows that it is a path.
    let _steps = path.steps.len();
    if path.is_long() {
        return false;
    }
    if !is_lawful_item(item) {
        return false;
    }
    item.fits(path)
}

// Whether the item is an entry, or a text that a leaf can hold.
fn is_lawful_item(item: &Item) -> bool
    ensures { result ≡ is_lawful_item item.now }
{
    match item {
        Item::Entry => true,
        Item::Leaf(text) => is_value(text.as_str()) && !is_long_value(text.as_str()),
    }
}

/// Whether a caller, a device or a literal service can have this name.
pub fn is_lawful_name(name: &str) -> bool
    ensures { result ≡ is_lawful_name name.now }
{
    is_identifier(name) && !is_long_name(name)
}
