//! Histories.
ghost use Rattle.std.specs.Prelude.{◌≡◌, ◌++◌, [], codes, IfOk};
ghost use Rattle.std.specs.List.{flat_map};
ghost use Rattle.orc_print.specs.inside.Adding.{Adds};
ghost use Rattle.orc_print.specs.Printed.{history_call, history_lines, history_text};
ghost use Rattle.orc_decls.specs.Texts.{action_lines, body_line, write_line};

use orc_call::{Action, Call, DevicePut, Put};
use orc_path::push_item;
use orc_text::{Memory, Text};
use std::alloc::Global;

/// The group `history`: how many calls it has, each call with its number in it and its actions, and
/// an end line.
pub fn history(alloc: Global, calls: &[Call]) -> Result<Vec<u8>, Memory>
    ensures { IfOk result (λ bytes. bytes.items ≡ history_text calls.now) }
{
    let mut out = String::from_str(alloc, "history ")?;
    out.push_str(calls.len().to_string(alloc)?.as_str())?;
    out.push_str("\n")?;
    push_calls(&mut out, alloc, calls)?;
    out.push_str("end\n")?;
    Ok(out.into_bytes())
}

// The calls of a history.
fn push_calls(out: &mut String, alloc: Global, history: &[Call]) -> Result<(), Memory>
    ensures { Adds result out.old out.new (history_lines 1 history.now) }
{
    for (index, call) in history.iter().enumerate() {
        push_call(out, alloc, index as u64 + 1, call)?;
    }
    Ok(())
}

// A call of a history, with its number in it.
fn push_call(out: &mut String, alloc: Global, entry: u64, call: &Call) -> Result<(), Memory>
    ensures { Adds result out.old out.new (history_call entry call.now) }
{
    out.push_str(entry.to_string(alloc)?.as_str())?;
    out.push_str(" ")?;
    out.push_str(call.caller.as_str())?;
    out.push_str(" ")?;
    out.push_str(call.number.to_string(alloc)?.as_str())?;
    out.push_str("\n")?;
    push_actions(out, alloc, call.actions.as_slice())
}

// The actions of a call.
fn push_actions(out: &mut String, alloc: Global, actions: &[Action]) -> Result<(), Memory>
    ensures { Adds result out.old out.new (flat_map (action_lines (codes "  ")) actions.now) }
{
    for action in actions {
        push_action(out, alloc, action)?;
    }
    Ok(())
}

// An action.
fn push_action(out: &mut String, alloc: Global, action: &Action) -> Result<(), Memory>
    ensures { Adds result out.old out.new (action_lines (codes "  ") action.now) }
{
    match action {
        Action::Create(id, body) => {
            push_named(out, "create ", id)?;
            push_body(out, alloc, body.as_slice())?;
        }
        Action::Modify(id, body) => {
            push_named(out, "modify ", id)?;
            push_body(out, alloc, body.as_slice())?;
        }
        Action::Redeploy(id) => push_named(out, "redeploy ", id)?,
        Action::Literal(id, writes) => {
            push_named(out, "literal ", id)?;
            push_writes(out, alloc, writes.as_slice())?;
        }
        Action::Delete(id) => push_named(out, "delete ", id)?,
        Action::Set(put) => {
            out.push_str("set ")?;
            push_item(out, alloc, &put.path, &put.item)?;
            out.push_str("\n")?;
        }
        Action::Unset(path) => {
            out.push_str("unset ")?;
            out.push_str(path.text(alloc)?.as_str())?;
            out.push_str("\n")?;
        }
        Action::BasePut(write) => {
            out.push_str("base ")?;
            push_write(out, alloc, write)?;
        }
        Action::BaseRemove(device, path) => {
            out.push_str("unbase ")?;
            out.push_str(device.as_str())?;
            out.push_str(" ")?;
            out.push_str(path.text(alloc)?.as_str())?;
            out.push_str("\n")?;
        }
    }
    Ok(())
}

// The line of an action that has only its word and the service's id in it.
fn push_named(out: &mut String, word: &str, id: &Text) -> Result<(), Memory>
    ensures { Adds result out.old out.new (word.now ++ id.now ++ codes "\n") }
{
    out.push_str(word)?;
    out.push_str(id.as_str())?;
    out.push_str("\n")?;
    Ok(())
}

// The items of a service's body, each on an indented line.
fn push_body(out: &mut String, alloc: Global, body: &[Put]) -> Result<(), Memory>
    ensures { Adds result out.old out.new (flat_map (body_line (codes "  ")) body.now) }
{
    for put in body {
        out.push_str("  ")?;
        push_item(out, alloc, &put.path, &put.item)?;
        out.push_str("\n")?;
    }
    Ok(())
}

// The writes of a literal service, each on an indented line.
fn push_writes(out: &mut String, alloc: Global, writes: &[DevicePut]) -> Result<(), Memory>
    ensures { Adds result out.old out.new (flat_map (write_line (codes "  ")) writes.now) }
{
    for write in writes {
        out.push_str("  ")?;
        push_write(out, alloc, write)?;
    }
    Ok(())
}

// A write: the device's name, the item and where it stands.
fn push_write(out: &mut String, alloc: Global, write: &DevicePut) -> Result<(), Memory>
    ensures { Adds result out.old out.new (write_line [] write.now) }
{
    out.push_str(write.device.as_str())?;
    out.push_str(" ")?;
    push_item(out, alloc, &write.path, &write.item)?;
    out.push_str("\n")?;
    Ok(())
}
