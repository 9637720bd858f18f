//! Configurations of few leaves, their items, and stores in which services write them.
ghost use Rattle.std.specs.Prelude.{◌≡◌, ◌+◌, ◌*◌, ◌≤◌, [], ◌∷◌, IfOk, OnOk, length};
ghost use Rattle.orc_refs.specs.Moves.{AreWhole};
ghost use Rattle.orc_tables.specs.Holdings.{Writes};

use crate::items::{leaf_of, set};
use crate::undone::Undone;
use orc_call::Put;
use orc_io::Steps;
use orc_refs::{Move, Refs, items_of};
use orc_text::{Memory, Row, Text};
use orc_tree::{ChangeSet, Tree};
use std::alloc::Global;
use std::sync::ledger::Ledger;

/// Sets the leaf at a path, with the entries on its way.
pub(crate) fn set_leaf(
    alloc: Global,
    tree: &mut Tree,
    path: &str,
    value: &str,
) -> Result<(), Undone> {
    match set(tree, leaf_of(alloc, path, value)?)? {
        true => Ok(()),
        false => Err(Undone),
    }
}

// The configuration of one leaf and the entries on its way.
pub(crate) fn tree_with(alloc: Global, path: &str, value: &str) -> Result<Tree, Undone> {
    let mut tree = Tree::new(alloc);
    set_leaf(alloc, &mut tree, path, value)?;
    Ok(tree)
}

// The items of the configuration of one leaf and the entries on its way.
pub(crate) fn holding_with(alloc: Global, path: &str, value: &str) -> Result<Row<Put>, Undone>
    ensures { IfOk result AreWhole }
{
    let tree = tree_with(alloc, path, value)?;
    Ok(items_of(alloc, &tree)?)
}

// The move of a service from the items that it holds to the next ones.
fn one_move(
    alloc: Global,
    service: &Text,
    held: Row<Put>,
    next: &Row<Put>,
) -> Result<Row<Move>, Memory>
    ensures { IfOk result (λ moves. moves ≡ record { service = service.now; old = held; new = next.now } ∷ []) }
{
    let service = service.copy(alloc)?;
    let new = next.copy(alloc)?;
    let mut moves = Row::new(alloc);
    moves.push(Move {
        service,
        old: held,
        new,
    })?;
    Ok(moves)
}

// The store of a device on which no service writes, and so not this one.
pub(crate) fn unwritten(alloc: Global, base: Tree, service: &Text) -> Result<Refs, Memory>
    ensures { IfOk result (λ refs. Writes refs service.now []) }
{
    let _ = service;
    let refs = Refs::new(alloc, base)?;
    Ok(refs)
}

// Moves a service from the items that it holds to the next ones, and gives what changes.
pub(crate) fn bring<L: Ledger>(
    alloc: Global,
    refs: &mut Refs,
    service: &Text,
    held: Row<Put>,
    next: &Row<Put>,
    steps: &mut Steps<L>,
) -> Result<ChangeSet, Undone>
    requires holds { Writes refs.old service.now held }
    requires whole { AreWhole next.now }
    ensures holds { OnOk result (Writes refs.new service.now next.now) }
    ensures steps { steps.new ≤ steps.old + 2 * (length held + length next.now) }
{
    let moves = one_move(alloc, service, held, next)?;
    match refs.apply(alloc, moves.as_slice(), &[], steps) {
        Ok(set) => Ok(set),
        Err(_) => Err(Undone),
    }
}

// Moves a service that holds nothing to the next items, and gives what changes.
pub(crate) fn bring_first<L: Ledger>(
    alloc: Global,
    refs: &mut Refs,
    service: &Text,
    next: &Row<Put>,
    steps: &mut Steps<L>,
) -> Result<ChangeSet, Undone>
    requires nothing { Writes refs.old service.now [] }
    requires whole { AreWhole next.now }
    ensures holds { OnOk result (Writes refs.new service.now next.now) }
    ensures steps { steps.new ≤ steps.old + 2 * length next.now }
{
    bring(alloc, refs, service, Row::new(alloc), next, steps)
}
