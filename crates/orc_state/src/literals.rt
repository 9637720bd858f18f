//! What a call comes to by the expansions of its plan.
ghost use Rattle.std.specs.Prelude.{◌≡◌, ◌++◌, ◌∷◌, [], IfOk, OnOk, drop, map, unwrap_or};
ghost use Rattle.std.specs.List.{flat_map};
ghost use Rattle.orc_plans.specs.Plans.{first_writes, part_writes, with_expansions};
ghost use Rattle.orc_decls.specs.Devices.{name_of};
ghost use Rattle.orc_state.specs.inside.Making.{left_by, made_by};

use orc_call::{Action, DevicePut, Put};
use orc_services::any_templated;
use orc_template::Expansion;
use orc_text::{Memory, Row, Text};
use std::alloc::Global;

// The name of the device of a number; that of no device is empty.
fn name_of(alloc: Global, names: &[Text], device: u32) -> Result<Text, Memory>
    ensures { IfOk result (λ name. name ≡ name_of names.now device) }
{
    match names.get(device as usize) {
        Some(name) => name.copy(alloc),
        None => Text::from_str(alloc, ""),
    }
}

// Adds what a part of an expansion writes on its device.
fn push_part(
    alloc: Global,
    writes: &mut Row<DevicePut>,
    names: &[Text],
    part: &(u32, Row<Put>),
) -> Result<(), Memory>
    ensures { OnOk result (writes.new ≡ writes.old ++ part_writes names.now part.now) }
{
    for put in part.1.as_slice() {
        writes.push(DevicePut {
            device: name_of(alloc, names, part.0)?,
            path: put.path.copy(alloc)?,
            item: put.item.copy(alloc)?,
        })?;
    }
    Ok(())
}

// What the first of some expansions writes.
fn first_writes(
    alloc: Global,
    names: &[Text],
    expansions: &[(Text, Expansion)],
) -> Result<Row<DevicePut>, Memory>
    ensures { IfOk result (λ writes. writes ≡ first_writes names.now expansions.now) }
{
    let mut writes = Row::new(alloc);
    match expansions {
        [one, ..] => {
            for part in one.1.parts.as_slice() {
                push_part(alloc, &mut writes, names, part)?;
            }
        }
        [] => {}
    }
    Ok(writes)
}

// The expansions after the first one.
fn later(expansions: &[(Text, Expansion)]) -> &[(Text, Expansion)]
    ensures { result.now ≡ drop 1 expansions.now }
{
    match expansions {
        [_, rest @ ..] => rest,
        [] => expansions,
    }
}

// Adds an action, by the expansions that are left, and returns those after it.
fn push_made<'a>(
    alloc: Global,
    made: &mut Row<Action>,
    names: &[Text],
    action: &Action,
    left: &'a [(Text, Expansion)],
) -> Result<&'a [(Text, Expansion)], Memory>
    ensures made { OnOk result (made.new ≡ made.old ++ made_by names.now action.now left.now ∷ []) }
    ensures left { IfOk result (λ rest. rest.now ≡ left_by action.now left.now) }
{
    match action {
        Action::Create(id, _) | Action::Modify(id, _) | Action::Redeploy(id) => {
            made.push(Action::Literal(id.copy(alloc)?, first_writes(alloc, names, left)?))?;
            Ok(later(left))
        }
        other => {
            made.push(other.copy(alloc)?)?;
            Ok(left)
        }
    }
}

// Actions with the expansions of a plan: each one that creates, modifies or redeploys a service is that
// of a literal one with what the next expansion writes.
fn with_expansions(
    alloc: Global,
    names: &[Text],
    actions: &[Action],
    expansions: &[(Text, Expansion)],
) -> Result<Row<Action>, Memory>
    ensures { IfOk result (λ made. made ≡ with_expansions names.now actions.now expansions.now) }
{
    let mut made = Row::new(alloc);
    let mut left = expansions;
    for action in actions {
        left = push_made(alloc, &mut made, names, action, left)?;
    }
    Ok(made)
}

/// What actions come to with the expansions of a plan, where one of them creates, modifies or redeploys a
/// service; else none, since they come to themselves.
pub(crate) fn made_of(
    alloc: Global,
    names: &[Text],
    actions: &[Action],
    expansions: &[(Text, Expansion)],
) -> Result<Option<Row<Action>>, Memory>
    ensures { IfOk result
        (λ made. unwrap_or made actions.now ≡ with_expansions names.now actions.now expansions.now) }
{
    if !any_templated(actions) {
        return Ok(None);
    }
    Ok(Some(with_expansions(alloc, names, actions, expansions)?))
}

/// What a call comes to: the actions that were made of its own ones, else these.
pub(crate) fn made_or_own<'a>(made: &'a Option<Row<Action>>, own: &'a [Action]) -> &'a [Action]
    ensures { result.now ≡ unwrap_or made.now own.now }
{
    match made {
        Some(made) => made.as_slice(),
        None => own,
    }
}
