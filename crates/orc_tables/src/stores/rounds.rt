//! A service that goes from entry to entry of a list, and round again.
ghost use Rattle.std.specs.Prelude.{◌≡◌, ◌+◌, ◌*◌, ◌≤◌, ◌<◌, [], IfOk, length};
ghost use Rattle.orc_refs.specs.Moves.{AreWhole};
ghost use Rattle.orc_tables.specs.Holdings.{Writes};

use crate::shown::Shown;
use crate::stores::items::{bring, bring_first, holding_with, set_leaf, unwritten};
use crate::stores::shown::{Tally, push_state, push_tally};
use crate::undone::Undone;
use orc_call::Put;
use orc_io::Steps;
use orc_refs::Refs;
use orc_text::{Row, Text};
use orc_tree::Tree;
use std::alloc::Global;
use std::marker::Brand;
use std::sync::ledger::{Blank, Ledger};

// How many entries the list has.
const ENTRIES: u64 = 25_000;

// How many moves the service makes.
const MOVES: u64 = 50_000;

// The change sets of the first move and of the later ones.
#[derive(Clone, Copy)]
struct Rounds {
    first: Tally,
    later: Tally,
}

// A list of entries with a leaf each.
fn long_list(alloc: Global) -> Result<Tree, Undone> {
    let mut base = Tree::new(alloc);
    for key in 0..ENTRIES {
        let path = format!(in alloc; "/g:p[{key}]/v")?;
        set_leaf(alloc, &mut base, path.as_str(), "0")?;
    }
    Ok(base)
}

// The entry of a move, and its leaf with the number of the move.
fn next_of(alloc: Global, number: u64) -> Result<Row<Put>, Undone>
    ensures whole { IfOk result AreWhole }
    ensures two { IfOk result (λ next. length next ≡ 2) }
{
    let path = format!(in alloc; "/g:p[{}]/v", number % ENTRIES)?;
    let value = format!(in alloc; "{number}")?;
    let next = holding_with(alloc, path.as_str(), value.as_str())?;
    if next.len() == 2 {
        Ok(next)
    } else {
        Err(Undone)
    }
}

// Makes all moves of a service that writes nothing, with 399,996 steps at most: two for each of the
// two items that a move brings, and two for each of the two that a later move takes.
fn go_round<L: Ledger>(
    alloc: Global,
    refs: &mut Refs,
    service: &Text,
    steps: &mut Steps<L>,
) -> Result<Rounds, Undone>
    requires nothing { Writes refs.old service.now [] }
    ensures steps { steps.new ≤ steps.old + 399996 }
{
    let mut first = Tally::new();
    let mut later = Tally::new();
    let mut held = next_of(alloc, 1)?;
    let set = bring_first(alloc, refs, service, &held, steps)?;
    first.take(&set);
    for done in 1..MOVES {
        let next = next_of(alloc, done + 1)?;
        let set = bring(alloc, refs, service, held, &next, steps)?;
        later.take(&set);
        held = next;
    }
    Ok(Rounds { first, later })
}

// Makes all moves of a service that writes nothing, with the steps counted from 0.
fn go_counted<L: Ledger>(
    alloc: Global,
    refs: &mut Refs,
    service: &Text,
    blank: Blank,
) -> Result<Rounds, Undone>
    requires nothing { Writes refs.old service.now [] }
    requires name { blank.name ≡ L.name }
    requires parts { blank.parts ≡ L.parts }
    requires some { 0 < blank.parts }
{
    let mut steps = Steps::<L>::new(blank);
    go_round(alloc, refs, service, &mut steps)
}

/// Adds the change sets of the moves, and what stands at the last two entries to which the service
/// came.
pub(crate) fn push_rounds(out: &mut Shown) -> Result<(), Undone> {
    let base = long_list(out.alloc)?;
    out.number("list:", base.len())?;
    out.add(&[" items\n"])?;
    let service = Text::from_str(out.alloc, "s")?;
    let mut refs = unwritten(out.alloc, base, &service)?;
    let rounds = go_counted::<Brand>(out.alloc, &mut refs, &service, Blank::new(1))?;
    push_tally(out, "list, first move", rounds.first)?;
    push_tally(out, "list, later moves", rounds.later)?;
    push_state(out, "list", &refs, "/g:p[0]/v")?;
    push_state(out, "list", &refs, "/g:p[24999]/v")
}
