//! Which service another one clashes with.
ghost use Rattle.std.specs.Prelude.{◌≡◌, IfOk, Some};
ghost use Rattle.std.specs.Option.{option_copied};
ghost use Rattle.orc_refs.specs.Moves.{BringWhole};
ghost use Rattle.orc_refs.specs.inside.Rivals.{first_id, least_brought, least_staying, lesser, lesser_rival, rival_of};
ghost use Rattle.orc_refs.specs.inside.Settling.{staying};

use crate::Move;
use crate::plan::Place;
use crate::settle::{first_brought, is_moved, put_at};
use orc_change::has_item;
use orc_path::{Item, Path};
use orc_text::{Memory, Text};
use std::alloc::Global;

// Of the services that write another item at a path than the first move that brings one there, the
// least id. There is one where the services that write the path don't agree.
pub(crate) fn rival(
    alloc: Global,
    moves: &[Move],
    path: &Path,
    found: &Place<'_>,
) -> Result<Text, Memory>
    requires whole { BringWhole moves.now }
    ensures { IfOk result
        (λ other. rival_of moves.now path.now found.now.ids.now (option_copied found.now.here) ≡ Some other) }
{
    match least_rival(moves, path, found) {
        Some(id) => id.copy(alloc),
        None => Err(Memory),
    }
}

// Of the services that write another item at a path than the first move that brings one there, the
// least id, where there is one.
fn least_rival<'a>(moves: &'a [Move], path: &Path, found: &Place<'a>) -> Option<&'a Text>
    requires whole { BringWhole moves.now }
    ensures { option_copied result
        ≡ rival_of moves.now path.now found.now.ids.now (option_copied found.now.here) }
{
    match first_brought(moves, path) {
        Some(item) => {
            let least = least_staying(moves, found.ids, found.here, item);
            least_brought(moves, path, item, least)
        }
        None => None,
    }
}

// The least of an id so far and the ids of the moves that bring another item to a path.
fn least_brought<'a>(
    moves: &'a [Move],
    path: &Path,
    item: &Item,
    first: Option<&'a Text>,
) -> Option<&'a Text>
    requires whole { BringWhole moves.now }
    ensures { option_copied result ≡ least_brought moves.now path.now item.now (option_copied first.entry) }
{
    let mut least = first;
    for m in moves {
        least = lesser_rival(put_at(m.new.as_slice(), path), item, least, &m.service);
    }
    least
}

// The least id so far, and the lesser of it and another one where that brings another item.
fn lesser_rival<'a>(
    brought: Option<&Item>,
    item: &Item,
    least: Option<&'a Text>,
    id: &'a Text,
) -> Option<&'a Text>
    ensures { option_copied result
        ≡ lesser_rival (option_copied brought.entry) item.now (option_copied least.entry) id.now }
{
    match brought {
        Some(other) => {
            if has_item(Some(item), other) {
                least
            } else {
                Some(lesser(least, id))
            }
        }
        None => least,
    }
}

// The lesser of the least id so far and another one.
fn lesser<'a>(least: Option<&'a Text>, id: &'a Text) -> &'a Text
    ensures { lesser (option_copied least.entry) id.now ≡ Some result.now }
{
    match least {
        Some(other) => { if id.cmp(other).is_lt() { id } else { other } }
        None => id,
    }
}

// The least of the ids that stay, where another item stands there.
fn least_staying<'a>(
    moves: &[Move],
    ids: &'a [Text],
    here: Option<&Item>,
    item: &Item,
) -> Option<&'a Text>
    ensures { option_copied result
        ≡ least_staying moves.now ids.now (option_copied here.entry) item.now }
{
    if has_item(here, item) {
        return None;
    }
    first_staying(moves, ids)
}

// The first of the ids that no move names.
fn first_staying<'a>(moves: &[Move], ids: &'a [Text]) -> Option<&'a Text>
    ensures { option_copied result ≡ first_id (staying moves.now ids.now) }
{
    for id in ids {
        if !is_moved(moves, id) {
            return Some(id);
        }
    }
    None
}
