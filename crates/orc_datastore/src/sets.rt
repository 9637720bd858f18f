//! What expanded actions would change on the devices that they touch. Nothing is changed.
ghost use Rattle.std.specs.Prelude.{◌≡◌, ◌<◌, ◌^◌, IfOk, IsTrue, length};
ghost use Rattle.std.specs.List.{flat_map, list_all};
ghost use Rattle.orc_refs.specs.Moves.{BringWhole, StartAt, are_distinct, edit_fits};
ghost use Rattle.orc_services.specs.Fitting.{FitActions};
ghost use Rattle.orc_datastore.specs.Actions.{name_each_once};
ghost use Rattle.orc_datastore.specs.Sets.{AreSets};
ghost use Rattle.orc_datastore.specs.States.{IsComplete};
ghost use Rattle.orc_datastore.specs.inside.Previews.{IsSetAt, Shows};
ghost use Rattle.orc_datastore.specs.inside.Turns.{turns_of};

use crate::Datastore;
use crate::marks::is_marked;
use crate::touched::touched_marks;
use crate::turns::{Turn, edits_on, moves_on, turns};
use orc_call::{Action, Answer};
use orc_decls::{Decls, device_name};
use orc_refs::{BaseEdit, Move, Refs, RefsFault, store_is_overlay};
use orc_text::{Memory, Row};
use orc_tree::ChangeSet;
use std::alloc::Global;

// What moves and edits would change in a store's tree, or the clash for which they make nothing of it.
fn shown(
    alloc: Global,
    store: &Refs,
    moves: &[Move],
    edits: &[BaseEdit],
    device: u32,
) -> Result<Result<ChangeSet, Answer>, Memory>
    requires start { StartAt store.now moves.now }
    requires distinct { IsTrue (are_distinct moves.now) }
    requires whole { BringWhole moves.now }
    requires fits { IsTrue (list_all edit_fits edits.now) }
    ensures { IfOk result (Shows store.now moves.now edits.now device) }
{
    match store.preview(alloc, moves, edits) {
        Ok(set) => Ok(Ok(set)),
        Err(RefsFault::Clash { path, other }) => Ok(Err(Answer::Clash(device, path, other))),
        Err(RefsFault::Memory) => Err(Memory),
    }
}

// What actions would change in the tree of a device, or the clash that they would meet there.
fn set_at(
    alloc: Global,
    decls: &Decls,
    state: &Datastore,
    actions: &[Action],
    turns: &[Turn],
    device: u32,
) -> Result<Result<ChangeSet, Answer>, Memory>
    requires device { device < length decls.now.names }
    requires turns { turns.now ≡ flat_map (turns_of decls.now.names) actions.now }
    requires fit { FitActions actions.now }
    requires once { IsTrue (name_each_once actions.now) }
    requires bases { length state.now.bases ≡ length decls.now.names }
    ensures { IfOk result (IsSetAt decls.now.names actions.now state.now device) }
{
    store_is_overlay();
    state.live.names_differ();
    let moves = moves_on(alloc, &state.live, turns, device)?;
    let edits = edits_on(alloc, device_name(decls.names(), device), actions)?;
    let store = &state.stores.as_slice()[device as usize];
    shown(alloc, store, moves.as_slice(), edits.as_slice(), device)
}

/// What expanded actions would change on each device that they touch, an empty set where nothing
/// changes; or the clash for which they aren't done.
pub(crate) fn sets_among(
    alloc: Global,
    decls: &Decls,
    state: &Datastore,
    actions: &[Action],
) -> Result<Result<Row<(u32, ChangeSet)>, Answer>, Memory>
    requires few { length decls.now.names < 2 ^ 32 }
    requires fit { FitActions actions.now }
    requires once { IsTrue (name_each_once actions.now) }
    requires complete { IsComplete state.now }
    requires bases { length state.now.bases ≡ length decls.now.names }
    ensures { IfOk result (AreSets decls.now.names actions.now state.now) }
{
    state.live.names_differ();
    let turns = turns(alloc, decls, actions)?;
    let marks = touched_marks(alloc, decls, state, actions)?;
    let mut sets = Row::new(alloc);
    for device in 0..decls.names().len() as u32 {
        if is_marked(marks.as_slice(), device) {
            match set_at(alloc, decls, state, actions, turns.as_slice(), device)? {
                Ok(set) => sets.push((device, set))?,
                Err(answer) => return Ok(Err(answer)),
            }
        }
    }
    Ok(Ok(sets))
}
