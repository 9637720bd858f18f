//! The devices that a call touches.
ghost use Rattle.std.specs.Prelude.{◌≡◌, ◌<◌, ◌^◌, IfOk, IsTrue, OnOk, length};
ghost use Rattle.std.specs.List.{list_any};
ghost use Rattle.std.specs.Option.{option_copied, option_to_list};
ghost use Rattle.orc_datastore.specs.States.{IsComplete};
ghost use Rattle.orc_datastore.specs.Touched.{is_touched_among, touched_among};
ghost use Rattle.orc_decls.specs.Devices.{name_of};
ghost use Rattle.orc_datastore.specs.inside.Marks.{AddsMarks, AreTouched, marks_on};
ghost use Rattle.orc_datastore.specs.inside.Touching.{is_edited_by, is_on, taken_by};

use crate::living::Living;
use crate::marks::{mark_edited, mark_service, marked, no_marks};
use crate::{Datastore, Service};
use orc_call::Action;
use orc_decls::Decls;
use orc_text::{Memory, Row};
use std::alloc::Global;

/// The numbers of the devices that expanded actions touch.
pub(crate) fn touched_among(
    alloc: Global,
    decls: &Decls,
    state: &Datastore,
    actions: &[Action],
) -> Result<Row<u32>, Memory>
    requires few { length decls.now.names < 2 ^ 32 }
    ensures { IfOk result (λ devices. devices ≡ touched_among decls.now.names state.now actions.now) }
{
    let marks = touched_marks(alloc, decls, state, actions)?;
    marked(alloc, marks.as_slice())
}

/// A mark for each device that expanded actions touch.
pub(crate) fn touched_marks(
    alloc: Global,
    decls: &Decls,
    state: &Datastore,
    actions: &[Action],
) -> Result<Vec<bool>, Memory>
    requires few { length decls.now.names < 2 ^ 32 }
    ensures { IfOk result (λ marks. AreTouched decls.now.names state.now actions.now marks.items) }
{
    state.live.names_differ();
    let mut marks = no_marks(alloc, decls.names().len())?;
    mark_all(&mut marks, decls, &state.live, actions);
    Ok(marks)
}

// Marks the devices that expanded actions edit, and those on which a living service that they take away has an
// item.
#[tactic(auto, using(crate::proofs::Marking::marked_start, crate::proofs::Marking::marked_turn, crate::proofs::Marking::marked_end))]
fn mark_all(marks: &mut Vec<bool>, decls: &Decls, live: &Living, actions: &[Action])
    requires count { length marks.old.items ≡ length decls.now.names }
    requires few { length decls.now.names < 2 ^ 32 }
    ensures { AddsMarks (λ d. list_any (λ action. marks_on decls.now.names live.now action d) actions.now)
        marks.old.items marks.new.items }
{
    for action in actions {
        mark_action(marks, decls, live, action);
    }
}

// Marks the devices that an expanded action edits, and those on which the living service that it takes away has
// an item.
#[tactic(auto, using(crate::proofs::Marking::marks_both))]
fn mark_action(marks: &mut Vec<bool>, decls: &Decls, live: &Living, action: &Action)
    requires count { length marks.old.items ≡ length decls.now.names }
    requires few { length decls.now.names < 2 ^ 32 }
    ensures { AddsMarks (marks_on decls.now.names live.now action.now) marks.old.items marks.new.items }
{
    mark_edited(marks, decls, action);
    if let Some(service) = taken_by(live, action) {
        mark_service(marks, service);
    }
}

// The living service that an action takes away.
fn taken_by<'a>(live: &'a Living, action: &Action) -> Option<&'a Service>
    ensures { option_copied result ≡ taken_by live.now action.now }
{
    match action {
        Action::Literal(id, _) | Action::Delete(id) => live.find(id),
        _ => None,
    }
}
