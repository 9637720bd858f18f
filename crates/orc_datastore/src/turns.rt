//! What a call does to the services that it names, and what that asks of the store of one device.
ghost use Rattle.std.specs.Prelude.{◌≡◌, ◌++◌, ◌<◌, ◌^◌, length, map, IfOk, IsTrue, OnOk};
ghost use Rattle.std.specs.List.{flat_map};
ghost use Rattle.orc_refs.specs.Moves.{AreWhole, BringWhole, items_of};
ghost use Rattle.orc_datastore.specs.States.{part};
ghost use Rattle.orc_services.specs.Fitting.{fits_action, FitActions};
ghost use Rattle.orc_datastore.specs.inside.Turns.{comers, edits_of, held_by, move_of, turn_id, turns_of};

use crate::Service;
use crate::expansion::written_by;
use crate::living::Living;
use orc_call::{Action, Put};
use orc_decls::Decls;
use orc_refs::{BaseEdit, Move, items_of};
use orc_text::{Memory, Row, Text};
use std::alloc::Global;

/// What an expanded call does to a service that it names.
#[derive(Drop)]
pub(crate) enum Turn {
    /// The call makes this service.
    Comes(Service),
    /// The call deletes the service of this name.
    Goes(Text),
}

// Adds what an action does to the service that it names, if it names one.
fn push_turn(
    alloc: Global,
    turns: &mut Vec<Turn>,
    decls: &Decls,
    action: &Action,
) -> Result<(), Memory>
    requires fit { IsTrue (fits_action action.now) }
    requires few { length decls.now.names < 2 ^ 32 }
    ensures { OnOk result (turns.new.items ≡ turns.old.items ++ turns_of decls.now.names action.now) }
{
    match action {
        Action::Literal(id, writes) => {
            let written = written_by(alloc, decls, writes.as_slice())?;
            let service = Service::new(id.copy(alloc)?, decls.names().len(), written);
            turns.push(Turn::Comes(service))?;
            Ok(())
        }
        Action::Delete(id) => {
            turns.push(Turn::Goes(id.copy(alloc)?))?;
            Ok(())
        }
        // The others name no service, or have been expanded.
        _ => Ok(()),
    }
}

/// What actions do to the services that they name, in order.
pub(crate) fn turns(alloc: Global, decls: &Decls, actions: &[Action]) -> Result<Vec<Turn>, Memory>
    requires fit { FitActions actions.now }
    requires few { length decls.now.names < 2 ^ 32 }
    ensures { IfOk result (λ turns. turns.items ≡ flat_map (turns_of decls.now.names) actions.now) }
{
    let mut turns = Vec::new(alloc);
    for action in actions {
        push_turn(alloc, &mut turns, decls, action)?;
    }
    Ok(turns)
}

// Adds the service that comes, if one does.
fn push_comer(services: &mut Vec<Service>, turn: Turn) -> Result<(), Memory>
    ensures { OnOk result (services.new.items ≡ services.old.items ++ comers turn) }
{
    match turn {
        Turn::Comes(service) => {
            services.push(service)?;
            Ok(())
        }
        Turn::Goes(_) => Ok(()),
    }
}

/// The services that come.
pub(crate) fn comers(alloc: Global, turns: Vec<Turn>) -> Result<Vec<Service>, Memory>
    ensures { IfOk result (λ services. services.items ≡ flat_map comers turns.items) }
{
    let mut services = Vec::new(alloc);
    for turn in turns {
        push_comer(&mut services, turn)?;
    }
    Ok(services)
}

/// The names of the services that come or go.
pub(crate) fn turn_ids(alloc: Global, turns: &[Turn]) -> Result<Vec<Text>, Memory>
    ensures { IfOk result (λ ids. ids.items ≡ map turn_id turns.now) }
{
    let mut ids = Vec::new(alloc);
    for turn in turns {
        ids.push(turn_id(turn).copy(alloc)?)?;
    }
    Ok(ids)
}

// The name of the service that comes or goes.
fn turn_id(turn: &Turn) -> &Text
    ensures { result.now ≡ turn_id turn.now }
{
    match turn {
        Turn::Comes(service) => service.id(),
        Turn::Goes(id) => id,
    }
}

// The items that a service writes on a device.
fn items_on(alloc: Global, service: &Service, device: u32) -> Result<Row<Put>, Memory>
    ensures items { IfOk result (λ items. items ≡ items_of (part service.now device)) }
    ensures whole { IfOk result AreWhole }
{
    match service.part(device) {
        Some(tree) => items_of(alloc, tree),
        None => Ok(Row::new(alloc)),
    }
}

// What the living service of a name holds on a device.
fn held_by(alloc: Global, live: &Living, id: &Text, device: u32) -> Result<Row<Put>, Memory>
    ensures { IfOk result (λ items. items ≡ held_by live.now device id.now) }
{
    match live.find(id) {
        Some(service) => items_on(alloc, service, device),
        None => Ok(Row::new(alloc)),
    }
}

// Adds the move of a service on a device.
fn push_move(
    alloc: Global,
    moves: &mut Vec<Move>,
    live: &Living,
    turn: &Turn,
    device: u32,
) -> Result<(), Memory>
    requires { BringWhole moves.old.items }
    ensures moves { OnOk result (moves.new.items ≡ moves.old.items ++ move_of live.now device turn.now) }
    ensures whole { OnOk result (BringWhole moves.new.items) }
{
    match turn {
        Turn::Comes(service) => {
            let old = held_by(alloc, live, service.id(), device)?;
            let new = items_on(alloc, service, device)?;
            moves.push(Move {
                service: service.id().copy(alloc)?,
                old,
                new,
            })?;
            Ok(())
        }
        Turn::Goes(id) => match live.find(id) {
            Some(service) => {
                let old = items_on(alloc, service, device)?;
                moves.push(Move {
                    service: id.copy(alloc)?,
                    old,
                    new: Row::new(alloc),
                })?;
                Ok(())
            }
            None => Ok(()),
        },
    }
}

/// The moves of services on a device, in the order of the actions that name them.
pub(crate) fn moves_on(
    alloc: Global,
    live: &Living,
    turns: &[Turn],
    device: u32,
) -> Result<Vec<Move>, Memory>
    ensures moves { IfOk result (λ moves. moves.items ≡ flat_map (move_of live.now device) turns.now) }
    ensures whole { IfOk result (λ moves. BringWhole moves.items) }
{
    let mut moves = Vec::new(alloc);
    for turn in turns {
        push_move(alloc, &mut moves, live, turn, device)?;
    }
    Ok(moves)
}

// Adds the edit of the base of the device of this name that an action is, if it is one.
fn push_edit(
    alloc: Global,
    edits: &mut Vec<BaseEdit>,
    name: &Text,
    action: &Action,
) -> Result<(), Memory>
    ensures { OnOk result (edits.new.items ≡ edits.old.items ++ edits_of name.now action.now) }
{
    match action {
        Action::BasePut(write) => {
            if write.device == *name {
                edits.push(BaseEdit::Put(Put {
                    path: write.path.copy(alloc)?,
                    item: write.item.copy(alloc)?,
                }))?;
            }
            Ok(())
        }
        Action::BaseRemove(device, path) => {
            if *device == *name {
                edits.push(BaseEdit::Remove(path.copy(alloc)?))?;
            }
            Ok(())
        }
        _ => Ok(()),
    }
}

/// The edits of the base of the device of this name.
pub(crate) fn edits_on(
    alloc: Global,
    name: &Text,
    actions: &[Action],
) -> Result<Vec<BaseEdit>, Memory>
    ensures { IfOk result (λ edits. edits.items ≡ flat_map (edits_of name.now) actions.now) }
{
    let mut edits = Vec::new(alloc);
    for action in actions {
        push_edit(alloc, &mut edits, name, action)?;
    }
    Ok(edits)
}
