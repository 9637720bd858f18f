//! The stores of the devices after a call: where it touches a device, what its moves and edits make
//! of a copy of that device's store, which then takes the store's place.
ghost use Rattle.std.specs.Prelude.{◌≡◌, ℕ, ◌<◌, ◌≤◌, ◌^◌, ◌==◌, false, IfErr, IfOk, IsTrue, OnOk, length};
ghost use Rattle.std.specs.List.{flat_map, list_all, list_any};
ghost use Rattle.orc_refs.specs.Clashes.{IsCause};
ghost use Rattle.orc_refs.specs.Moves.{BringWhole, IsMoved, StartAt, are_distinct, edit_fits, writes_after};
ghost use Rattle.orc_refs.specs.Stores.{written_by};
ghost use Rattle.orc_decls.specs.Devices.{name_of};
ghost use Rattle.orc_services.specs.Fitting.{FitActions};
ghost use Rattle.orc_datastore.specs.inside.Turns.{turns_of};
ghost use Rattle.orc_datastore.specs.inside.Keeping.{AreBehind, AreKept, ComesTo, IsChangeOf, IsOpenTo, IsStoreBehind, IsStoreFor, StaysOn, placed};

use crate::living::Living;
use crate::turns::{Turn, edits_on, moves_on};
use orc_call::{Action, Answer};
use orc_decls::{Decls, device_name};
use orc_io::Steps;
use orc_refs::{BaseEdit, Move, Refs, RefsFault};
use orc_text::{Memory, Row};
use orc_tree::ChangeSet;
use std::alloc::Global;
use std::marker::Brand;
use std::sync::ledger::{Blank, Ledger};

// Moves services and edits the base of a store, where nothing is counted.
fn apply_uncounted<L: Ledger>(
    alloc: Global,
    store: &mut Refs,
    moves: &[Move],
    edits: &[BaseEdit],
    blank: Blank,
) -> Result<ChangeSet, RefsFault>
    requires name { blank.name ≡ L.name }
    requires parts { blank.parts ≡ L.parts }
    requires some { 0 < blank.parts }
    requires start { StartAt store.old moves.now }
    requires distinct { IsTrue (are_distinct moves.now) }
    requires whole { BringWhole moves.now }
    requires fits { IsTrue (list_all edit_fits edits.now) }
    ensures moved { OnOk result (IsMoved store.old moves.now edits.now store.new) }
    ensures clash { IfErr result (IsCause (writes_after moves.now (written_by store.old)) moves.now) }
{
    let mut steps = Steps::<L>::new(blank);
    store.apply(alloc, moves, edits, &mut steps)
}

// What moves and edits make of a copy of a store, or the clash for which they make nothing of it.
fn moved(
    alloc: Global,
    store: &Refs,
    moves: &[Move],
    edits: &[BaseEdit],
    device: u32,
) -> Result<Result<Refs, Answer>, Memory>
    requires start { StartAt store.now moves.now }
    requires distinct { IsTrue (are_distinct moves.now) }
    requires whole { BringWhole moves.now }
    requires fits { IsTrue (list_all edit_fits edits.now) }
    ensures { IfOk result (ComesTo store.now moves.now edits.now device) }
{
    let mut store = store.copy(alloc)?;
    match apply_uncounted::<Brand>(alloc, &mut store, moves, edits, Blank::new(1)) {
        Ok(_) => Ok(Ok(store)),
        Err(RefsFault::Clash { path, other }) => Ok(Err(Answer::Clash(device, path, other))),
        Err(RefsFault::Memory) => Err(Memory),
    }
}

// The store of a device after actions, or the clash that they meet there.
fn store_behind(
    alloc: Global,
    decls: &Decls,
    live: &Living,
    actions: &[Action],
    turns: &[Turn],
    store: &Refs,
    device: u32,
) -> Result<Result<Refs, Answer>, Memory>
    requires device { device < length decls.now.names }
    requires turns { turns.now ≡ flat_map (turns_of decls.now.names) actions.now }
    requires fit { FitActions actions.now }
    requires call { IsOpenTo live.now actions.now }
    requires store { IsStoreFor live.now device store.now }
    ensures { IfOk result (IsStoreBehind decls.now.names live.now actions.now device store.now) }
{
    let moves = moves_on(alloc, live, turns, device)?;
    let edits = edits_on(alloc, device_name(decls.names(), device), actions)?;
    moved(alloc, store, moves.as_slice(), edits.as_slice(), device)
}

// The store of a device after actions where they touch it, or the clash that they meet there; none of
// another device, whose store stays and is not looked at.
fn change_of(
    alloc: Global,
    decls: &Decls,
    live: &Living,
    actions: &[Action],
    turns: &[Turn],
    touched: &[u32],
    store: &Refs,
    device: u32,
) -> Result<Result<Option<Refs>, Answer>, Memory>
    requires device { device < length decls.now.names }
    requires turns { turns.now ≡ flat_map (turns_of decls.now.names) actions.now }
    requires fit { FitActions actions.now }
    requires call { IsOpenTo live.now actions.now }
    requires stays { list_any (λ d. d == device) touched.now ≡ false
        → StaysOn decls.now.names live.now actions.now device }
    requires store { IsStoreFor live.now device store.now }
    ensures { IfOk result (IsChangeOf decls.now.names live.now actions.now device store.now) }
{
    if !touched.contains(&device) {
        return Ok(Ok(None));
    }
    match store_behind(alloc, decls, live, actions, turns, store, device)? {
        Ok(store) => Ok(Ok(Some(store))),
        Err(answer) => Ok(Err(answer)),
    }
}

/// The stores after actions of the devices that are touched, by the numbers of the devices; or the
/// clash on the least device that has one.
pub(crate) fn stores_behind(
    alloc: Global,
    decls: &Decls,
    live: &Living,
    actions: &[Action],
    turns: &[Turn],
    touched: &[u32],
    stores: &[Refs],
) -> Result<Result<Row<Option<Refs>>, Answer>, Memory>
    requires few { length decls.now.names < 2 ^ 32 }
    requires count { length stores.now ≡ length decls.now.names }
    requires turns { turns.now ≡ flat_map (turns_of decls.now.names) actions.now }
    requires fit { FitActions actions.now }
    requires call { IsOpenTo live.now actions.now }
    requires stays { (device : ℕ) → device < length decls.now.names
        → list_any (λ d. d == device) touched.now ≡ false → StaysOn decls.now.names live.now actions.now device }
    requires kept { AreKept stores.now live.now }
    ensures { IfOk result (AreBehind decls.now.names live.now actions.now stores.now) }
{
    let mut changes = Row::new(alloc);
    for (device, store) in stores.iter().enumerate() {
        let device = device as u32;
        match change_of(alloc, decls, live, actions, turns, touched, store, device)? {
            Ok(change) => changes.push(change)?,
            Err(answer) => return Ok(Err(answer)),
        }
    }
    Ok(Ok(changes))
}

/// Puts changed stores in the places of the old ones.
pub(crate) fn place(mut stores: Vec<Refs>, changes: Vec<Option<Refs>>) -> Vec<Refs>
    requires { length changes.items ≤ length stores.items }
    ensures { result.items ≡ placed stores.items changes.items }
{
    for (device, change) in changes.into_iter().enumerate() {
        if let Some(store) = change {
            stores[device] = store;
        }
    }
    stores
}
