//! Reading actions from the start of the bytes.
ghost use Rattle.std.specs.Prelude.{◌≤◌};
ghost use Rattle.orc_call.specs.Encoding.{action_fields};
ghost use Rattle.orc_call.specs.inside.Reading.{ReadsFront, any, many, content};

use crate::Action;
use crate::fields::{Stuck, kind_at, path_at, text_at};
use crate::parts::{body_at, device_path_at, device_put_at, literal_at, put_at};
use orc_text::Row;
use std::alloc::Global;

// What stands after the byte of an action's kind.
fn content_at(alloc: Global, kind: u8, bytes: &[u8]) -> Result<(Action, &[u8]), Stuck>
    requires least { 1 ≤ kind }
    requires greatest { kind ≤ 9 }
    ensures { ReadsFront (content kind) bytes.now result }
{
    match kind {
        1 => {
            let ((service, body), rest) = body_at(alloc, bytes)?;
            Ok((Action::Create(service, body), rest))
        }
        2 => {
            let ((service, body), rest) = body_at(alloc, bytes)?;
            Ok((Action::Modify(service, body), rest))
        }
        3 => {
            let (service, rest) = text_at(alloc, bytes)?;
            Ok((Action::Redeploy(service), rest))
        }
        4 => {
            let (service, rest) = text_at(alloc, bytes)?;
            Ok((Action::Delete(service), rest))
        }
        5 => {
            let (put, rest) = put_at(alloc, None, bytes)?;
            Ok((Action::Set(put), rest))
        }
        6 => {
            let (path, rest) = path_at(alloc, None, bytes)?;
            Ok((Action::Unset(path), rest))
        }
        7 => {
            let (put, rest) = device_put_at(alloc, bytes)?;
            Ok((Action::BasePut(put), rest))
        }
        8 => {
            let ((device, path), rest) = device_path_at(alloc, bytes)?;
            Ok((Action::BaseRemove(device, path), rest))
        }
        9 => {
            let ((name, writes), rest) = literal_at(alloc, bytes)?;
            Ok((Action::Literal(name, writes), rest))
        }
        _ => unreachable!(),
    }
}

// An action.
fn action_at(alloc: Global, bytes: &[u8]) -> Result<(Action, &[u8]), Stuck>
    ensures { ReadsFront (any action_fields) bytes.now result }
{
    let (kind, rest) = kind_at(bytes)?;
    let (action, rest) = content_at(alloc, kind, rest)?;
    Ok((action, rest))
}

/// So many actions.
pub(crate) fn actions_at(
    alloc: Global,
    count: u16,
    bytes: &[u8],
) -> Result<(Row<Action>, &[u8]), Stuck>
    ensures { ReadsFront (many action_fields count) bytes.now result }
{
    let mut actions = Row::new(alloc);
    let mut rest = bytes;
    for _ in 0..count {
        let (action, after) = action_at(alloc, rest)?;
        actions.push(action)?;
        rest = after;
    }
    Ok((actions, rest))
}
