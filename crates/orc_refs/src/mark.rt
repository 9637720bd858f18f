//! Marks of the paths that moves and edits of the base touch: one for each item that is taken,
//! brought or changed.
ghost use Rattle.std.specs.Prelude.{◌≡◌, ◌++◌, IfOk, OnOk, vec_len};
ghost use Rattle.orc_refs.specs.inside.Marks.{InPathOrder, KeepsOrder, all_marks, brought_marks, change_marks, move_marks, read, taken_marks};
ghost use Rattle.orc_refs.specs.inside.Settling.{changed_path};

use crate::Move;
use orc_call::Put;
use orc_path::{Item, Path};
use orc_text::{Memory, Text};
use orc_tree::Change;
use std::alloc::Global;

// An item that a move brings to a path, and the service that is to write it.
#[derive(Clone, Copy)]
pub(crate) struct Brought<'a> {
    pub(crate) service: &'a Text,
    pub(crate) item: &'a Item,
}

// A path that is touched, with what is brought there.
#[derive(Clone, Copy)]
pub(crate) struct Mark<'a> {
    pub(crate) path: &'a Path,
    pub(crate) brought: Option<Brought<'a>>,
}

// Marks the items that a move takes.
fn mark_taken<'a>(marks: &mut Vec<Mark<'a>>, puts: &'a [Put]) -> Result<(), Memory>
    ensures { OnOk result (read marks.new.items ≡ read marks.old.items ++ taken_marks puts.now) }
{
    marks.reserve(puts.len())?;
    for put in puts {
        marks.push(Mark {
            path: &put.path,
            brought: None,
        })?;
    }
    Ok(())
}

// Marks the items that a move brings for its service.
fn mark_brought<'a>(
    marks: &mut Vec<Mark<'a>>,
    service: &'a Text,
    puts: &'a [Put],
) -> Result<(), Memory>
    ensures { OnOk result (read marks.new.items ≡ read marks.old.items ++ brought_marks service.now puts.now) }
{
    marks.reserve(puts.len())?;
    for put in puts {
        let item = &put.item;
        marks.push(Mark {
            path: &put.path,
            brought: Some(Brought { service, item }),
        })?;
    }
    Ok(())
}

// The path of a change.
fn changed_path(change: &Change) -> &Path
    ensures { result.now ≡ changed_path change.now }
{
    match change {
        Change::Put(path, _) => path,
        Change::Remove(path) => path,
    }
}

// Marks the paths of changes.
fn mark_changed<'a>(marks: &mut Vec<Mark<'a>>, changes: &'a [Change]) -> Result<(), Memory>
    ensures { OnOk result (read marks.new.items ≡ read marks.old.items ++ change_marks changes.now) }
{
    marks.reserve(changes.len())?;
    for change in changes {
        marks.push(Mark {
            path: changed_path(change),
            brought: None,
        })?;
    }
    Ok(())
}

// Marks all that a move touches.
fn mark_move<'a>(marks: &mut Vec<Mark<'a>>, m: &'a Move) -> Result<(), Memory>
    ensures { OnOk result (read marks.new.items ≡ read marks.old.items ++ move_marks m.now) }
{
    mark_taken(marks, m.old.as_slice())?;
    mark_brought(marks, &m.service, m.new.as_slice())
}

// The marks of changes, and after them those of moves.
pub(crate) fn all_marks<'a>(
    alloc: Global,
    changes: &'a [Change],
    moves: &'a [Move],
) -> Result<Vec<Mark<'a>>, Memory>
    ensures { IfOk result (λ marks. read marks.items ≡ all_marks changes.now moves.now) }
{
    let mut marks = Vec::new(alloc);
    mark_changed(&mut marks, changes)?;
    for m in moves {
        mark_move(&mut marks, m)?;
    }
    Ok(marks)
}

// The marks in the order of their paths; those at one path stay in their order.
pub(crate) fn in_order<'a>(marks: Vec<Mark<'a>>) -> Result<Vec<Mark<'a>>, Memory>
    ensures sorted { IfOk result (λ sorted. InPathOrder sorted.items) }
    ensures order { IfOk result (λ sorted. KeepsOrder (read marks.entry.items) (read sorted.items)) }
    ensures len { IfOk result (λ sorted. vec_len sorted ≡ vec_len marks.entry) }
{
    let mut sorted = marks;
    sorted.sort_by(|one, other| one.path.cmp(other.path))?;
    Ok(sorted)
}
