//! What moves make of one path.
ghost use Rattle.std.specs.Prelude.{◌≡◌, IfOk, IsTrue, OnOk, not};
ghost use Rattle.std.specs.List.{list_any};
ghost use Rattle.std.specs.Option.{option_copied};
ghost use Rattle.std.specs.FinMap.{is_sorted};
ghost use Rattle.orc_path.specs.Order.{path_cmp};
ghost use Rattle.orc_refs.specs.Moves.{BringWhole, is_moved, put_at, rows_in};
ghost use Rattle.orc_refs.specs.inside.Marks.{all_are, entered, first_of, shown};
ghost use Rattle.orc_refs.specs.inside.Settling.{enter_id, first_brought, staying};

use crate::Move;
use crate::mark::Brought;
use orc_call::Put;
use orc_change::has_item;
use orc_path::{Item, Path};
use orc_text::{Memory, Text};
use std::alloc::Global;
use std::cmp::Ordering;

// Those of the ids that no move names, and the ids of the services to which items are brought.
pub(crate) fn ids_after(
    alloc: Global,
    moves: &[Move],
    brought: &[Brought<'_>],
    ids: &[Text],
) -> Result<Vec<Text>, Memory>
    ensures { IfOk result (λ after. after.items ≡ entered (shown brought.now) (staying moves.now ids.now)) }
{
    let mut after = staying(alloc, moves, ids)?;
    for b in brought {
        enter_id(alloc, &mut after, b.service)?;
    }
    Ok(after)
}

// Copies of those ids that no move names.
fn staying(alloc: Global, moves: &[Move], ids: &[Text]) -> Result<Vec<Text>, Memory>
    ensures { IfOk result (λ stay. stay.items ≡ staying moves.now ids.now) }
{
    let mut stay = Vec::new(alloc);
    for id in ids {
        if !is_moved(moves, id) {
            stay.push(id.copy(alloc)?)?;
        }
    }
    Ok(stay)
}

// Whether some of the ids is named by no move.
pub(crate) fn any_stays(moves: &[Move], ids: &[Text]) -> bool
    ensures { result ≡ list_any (λ id. not (is_moved moves.now id)) ids.now }
{
    ids.iter().any(|id| !is_moved(moves, id))
}

// Whether some move names the service.
pub(crate) fn is_moved(moves: &[Move], id: &Text) -> bool
    ensures { result ≡ is_moved moves.now id.now }
{
    moves.iter().any(|m| m.service == *id)
}

// Enters an id in its place.
fn enter_id(alloc: Global, ids: &mut Vec<Text>, id: &Text) -> Result<(), Memory>
    ensures { OnOk result (ids.new.items ≡ enter_id id.now ids.old.items) }
{
    for at in 0..ids.len() {
        match id.cmp(&ids[at]) {
            Ordering::Less => {
                ids.insert(at, id.copy(alloc)?)?;
                return Ok(());
            }
            Ordering::Equal => return Ok(()),
            Ordering::Greater => {}
        }
    }
    ids.push(id.copy(alloc)?)?;
    Ok(())
}

// The item that a list of items in path order puts at a path. It halves the items with each
// comparison.
pub(crate) fn put_at<'a>(puts: &'a [Put], path: &Path) -> Option<&'a Item>
    requires sorted { IsTrue (is_sorted path_cmp (rows_in puts.now)) }
    ensures { option_copied result ≡ put_at puts.now path.now }
{
    let mut low = 0;
    let mut high = puts.len();
    while low < high {
        let middle = low + (high - low) / 2;
        let put = &puts[middle];
        match path.cmp(&put.path) {
            Ordering::Less => high = middle,
            Ordering::Equal => return Some(&put.item),
            Ordering::Greater => low = middle + 1,
        }
    }
    None
}

// The item that the first move to bring one to a path brings.
pub(crate) fn first_brought<'a>(moves: &'a [Move], path: &Path) -> Option<&'a Item>
    requires whole { BringWhole moves.now }
    ensures { option_copied result ≡ first_brought moves.now path.now }
{
    for m in moves {
        match put_at(m.new.as_slice(), path) {
            Some(item) => return Some(item),
            None => {}
        }
    }
    None
}

// The first item that is brought.
pub(crate) fn first_of<'a>(brought: &[Brought<'a>]) -> Option<&'a Item>
    ensures { option_copied result ≡ first_of (shown brought.now) }
{
    match brought {
        [first, ..] => Some(first.item),
        [] => None,
    }
}

// Whether each item that is brought is this one.
pub(crate) fn all_are(brought: &[Brought<'_>], item: Option<&Item>) -> bool
    ensures { result ≡ all_are (shown brought.now) (option_copied item.entry) }
{
    for b in brought {
        if !has_item(item, b.item) {
            return false;
        }
    }
    true
}
