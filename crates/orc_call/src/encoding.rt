//! Encoding a call.
ghost use Rattle.std.specs.Prelude.{◌≡◌, ◌++◌, ℕ, List, [], length, IfOk, All};
ghost use Rattle.std.specs.List.{flat_map};
ghost use Rattle.orc_path.specs.Texts.{path_text};
ghost use Rattle.orc_call.specs.Fields.{IsText, IsItem, AreLawful, spelled, text_bytes, item_bytes};
ghost use Rattle.orc_call.specs.Encoding.{IsCall, call_bytes, body_fields, literal_fields, action_kind, content_fields, action_fields};
ghost use Rattle.orc_call.specs.Puts.{put_bytes, device_put_bytes};
ghost use Rattle.orc_call.specs.inside.Writing.{Adds, IsPutFit, IsDevicePutFit};

use crate::{Action, Call, DevicePut, Put};
use orc_path::{Item, Path};
use orc_text::{Memory, Text};
use std::alloc::Global;

fn push_text(out: &mut Vec<u8>, text: &Text) -> Result<(), Memory>
    requires { IsText text.now }
    ensures { Adds result out.old.items out.new.items (text_bytes text.now) }
{
    let bytes = text.as_str().as_bytes();
    out.extend_from_slice(&(bytes.len() as u32).to_be_bytes())?;
    out.extend_from_slice(bytes)?;
    Ok(())
}

fn push_path(alloc: Global, out: &mut Vec<u8>, path: &Path) -> Result<(), Memory>
    requires { IsText (path_text path.now) }
    ensures { Adds result out.old.items out.new.items (text_bytes (path_text path.now)) }
{
    let text = path.text(alloc)?;
    push_text(out, &text)
}

fn push_item(out: &mut Vec<u8>, item: &Item) -> Result<(), Memory>
    requires { IsItem item.now }
    ensures { Adds result out.old.items out.new.items (item_bytes item.now) }
{
    match item {
        Item::Entry => {
            out.push(0)?;
            Ok(())
        }
        Item::Leaf(text) => {
            out.push(1)?;
            push_text(out, text)
        }
    }
}

fn push_put(alloc: Global, out: &mut Vec<u8>, put: &Put) -> Result<(), Memory>
    requires { IsPutFit put.now }
    ensures { Adds result out.old.items out.new.items (put_bytes put.now) }
{
    push_path(alloc, out, &put.path)?;
    push_item(out, &put.item)
}

fn push_puts(alloc: Global, out: &mut Vec<u8>, puts: &[Put]) -> Result<(), Memory>
    requires { All IsPutFit puts.now }
    ensures { Adds result out.old.items out.new.items (flat_map put_bytes puts.now) }
{
    for put in puts {
        push_put(alloc, out, put)?;
    }
    Ok(())
}

fn push_device_put(alloc: Global, out: &mut Vec<u8>, put: &DevicePut) -> Result<(), Memory>
    requires { IsDevicePutFit put.now }
    ensures { Adds result out.old.items out.new.items (device_put_bytes put.now) }
{
    push_text(out, &put.device)?;
    push_path(alloc, out, &put.path)?;
    push_item(out, &put.item)
}

fn push_device_puts(alloc: Global, out: &mut Vec<u8>, puts: &[DevicePut]) -> Result<(), Memory>
    requires { All IsDevicePutFit puts.now }
    ensures { Adds result out.old.items out.new.items (flat_map device_put_bytes puts.now) }
{
    for put in puts {
        push_device_put(alloc, out, put)?;
    }
    Ok(())
}

fn push_body(alloc: Global, out: &mut Vec<u8>, service: &Text, puts: &[Put]) -> Result<(), Memory>
    requires { AreLawful (body_fields service.now puts.now) }
    ensures { Adds result out.old.items out.new.items (spelled (body_fields service.now puts.now)) }
{
    push_text(out, service)?;
    out.extend_from_slice(&(puts.len() as u32).to_be_bytes())?;
    push_puts(alloc, out, puts)
}

fn push_literal(
    alloc: Global,
    out: &mut Vec<u8>,
    name: &Text,
    writes: &[DevicePut],
) -> Result<(), Memory>
    requires { AreLawful (literal_fields name.now writes.now) }
    ensures { Adds result out.old.items out.new.items (spelled (literal_fields name.now writes.now)) }
{
    push_text(out, name)?;
    out.extend_from_slice(&(writes.len() as u32).to_be_bytes())?;
    push_device_puts(alloc, out, writes)
}

fn push_content(alloc: Global, out: &mut Vec<u8>, action: &Action) -> Result<(), Memory>
    requires { AreLawful (content_fields action.now) }
    ensures { Adds result out.old.items out.new.items (spelled (content_fields action.now)) }
{
    match action {
        Action::Create(service, body) => push_body(alloc, out, service, body.as_slice()),
        Action::Modify(service, body) => push_body(alloc, out, service, body.as_slice()),
        Action::Redeploy(service) => push_text(out, service),
        Action::Delete(service) => push_text(out, service),
        Action::Set(put) => push_put(alloc, out, put),
        Action::Unset(path) => push_path(alloc, out, path),
        Action::BasePut(put) => push_device_put(alloc, out, put),
        Action::BaseRemove(device, path) => {
            push_text(out, device)?;
            push_path(alloc, out, path)
        }
        Action::Literal(name, writes) => push_literal(alloc, out, name, writes.as_slice()),
    }
}

// The byte that stands for the action's kind.
fn action_kind(action: &Action) -> u8
    ensures { result ≡ action_kind action.now }
{
    match action {
        Action::Create(_, _) => 1,
        Action::Modify(_, _) => 2,
        Action::Redeploy(_) => 3,
        Action::Delete(_) => 4,
        Action::Set(_) => 5,
        Action::Unset(_) => 6,
        Action::BasePut(_) => 7,
        Action::BaseRemove(_, _) => 8,
        Action::Literal(_, _) => 9,
    }
}

fn push_action(alloc: Global, out: &mut Vec<u8>, action: &Action) -> Result<(), Memory>
    requires { AreLawful (action_fields action.now) }
    ensures { Adds result out.old.items out.new.items (spelled (action_fields action.now)) }
{
    out.push(action_kind(action))?;
    push_content(alloc, out, action)
}

fn push_actions(alloc: Global, out: &mut Vec<u8>, actions: &[Action]) -> Result<(), Memory>
    requires { AreLawful (flat_map action_fields actions.now) }
    ensures { Adds result out.old.items out.new.items (spelled (flat_map action_fields actions.now)) }
{
    for action in actions {
        push_action(alloc, out, action)?;
    }
    Ok(())
}

fn push_call(alloc: Global, out: &mut Vec<u8>, call: &Call) -> Result<(), Memory>
    requires { IsCall call.now }
    ensures { Adds result out.old.items out.new.items (call_bytes call.now) }
{
    push_text(out, &call.caller)?;
    out.extend_from_slice(&call.number.to_be_bytes())?;
    out.extend_from_slice(&(call.actions.len() as u16).to_be_bytes())?;
    push_actions(alloc, out, call.actions.as_slice())
}

/// The encoding of the call, whose fields are lawful: each text's and list's length fits its
/// field, there are 1 to 64 actions, the items of each `Create` and `Modify` stand in path order,
/// each path once, and each item fits its path. `is_encodable` is the test.
pub fn encode(alloc: Global, call: &Call) -> Result<Vec<u8>, Memory>
    requires { IsCall call.now }
    ensures spells { IfOk result (λ bytes. bytes.items ≡ call_bytes call.now) }
    // It begins the encoding of no other call.
    ensures alone { (other : Call) (rest : List ℕ) → IsCall other → call_bytes other ≡ call_bytes call.now ++ rest
        → (other ≡ call.now) × (rest ≡ []) }
{
    let mut out = Vec::new(alloc);
    push_call(alloc, &mut out, call)?;
    Ok(out)
}
