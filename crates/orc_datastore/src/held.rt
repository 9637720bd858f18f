//! What a call holds while it is under way, as a snapshot knows it.
ghost use Rattle.std.specs.Prelude.{◌≡◌, ◌++◌, ◌<◌, ◌^◌, All, IfOk, IsTrue, OnOk, length, map};
ghost use Rattle.std.specs.List.{list_any};
ghost use Rattle.orc_expr.specs.declared.read.Read.TheVariants as read;
ghost use Rattle.orc_decls.specs.Devices.{name_of};
ghost use Rattle.orc_datastore.specs.Touched.{touches_device};
ghost use Rattle.orc_datastore.specs.inside.Marks.{AddsMarks};
ghost use Rattle.orc_datastore.specs.inside.Sights.{held_known, knows_device, service_key, touched_known};

use crate::marks::{mark_edited, mark_known, marked, no_marks};
use crate::targets::{services_named, targets};
use orc_call::Action;
use orc_decls::Decls;
use orc_expr::{Read, ReadSet};
use orc_queue::Held;
use orc_text::{Memory, Row, Text};
use orc_tree::Tree;
use std::alloc::Global;

// Marks the devices that an expanded action touches.
#[tactic(auto, using(crate::proofs::Marking::marks_both))]
fn mark_touched(
    marks: &mut Vec<bool>,
    alloc: Global,
    decls: &Decls,
    known: &Tree,
    action: &Action,
) -> Result<(), Memory>
    requires key { IsTrue (service_key action.now) }
    requires count { length marks.old.items ≡ length decls.now.names }
    requires few { length decls.now.names < 2 ^ 32 }
    ensures { OnOk result (AddsMarks
        (λ d. touches_device (name_of decls.now.names d) (knows_device known.now) d action.now)
        marks.old.items marks.new.items) }
{
    mark_edited(marks, decls, action);
    match action {
        Action::Literal(id, _) | Action::Delete(id) => mark_known(marks, alloc, known, id),
        _ => Ok(()),
    }
}

// Marks the devices that expanded actions touch.
#[tactic(auto, using(crate::proofs::Marking::marked_start, crate::proofs::Marking::marked_turn, crate::proofs::Marking::marked_end))]
fn mark_all(
    marks: &mut Vec<bool>,
    alloc: Global,
    decls: &Decls,
    known: &Tree,
    actions: &[Action],
) -> Result<(), Memory>
    requires keys { All (λ action. IsTrue (service_key action)) actions.now }
    requires count { length marks.old.items ≡ length decls.now.names }
    requires few { length decls.now.names < 2 ^ 32 }
    ensures { OnOk result (AddsMarks
        (λ d. list_any (touches_device (name_of decls.now.names d) (knows_device known.now) d) actions.now)
        marks.old.items marks.new.items) }
{
    for action in actions {
        mark_touched(marks, alloc, decls, known, action)?;
    }
    Ok(())
}

// The numbers of the devices that expanded actions touch, ascending.
fn touched_known(
    alloc: Global,
    decls: &Decls,
    known: &Tree,
    actions: &[Action],
) -> Result<Row<u32>, Memory>
    requires few { length decls.now.names < 2 ^ 32 }
    requires keys { All (λ action. IsTrue (service_key action)) actions.now }
    ensures { IfOk result (λ devices. devices ≡ touched_known decls.now.names known.now actions.now) }
{
    let mut marks = no_marks(alloc, decls.names().len())?;
    mark_all(&mut marks, alloc, decls, known, actions)?;
    marked(alloc, marks.as_slice())
}

// The reads that are handed in, and after them one of each of these services.
fn with_services(alloc: Global, reads: ReadSet, services: &[Text]) -> Result<ReadSet, Memory>
    ensures { IfOk result (λ all. all.reads ≡ reads.reads ++ map read.Service services.now) }
{
    let mut all = reads;
    for id in services {
        all.push(Read::Service(id.copy(alloc)?))?;
    }
    Ok(all)
}

/// What a call holds while it is under way, by its actions, by those made of them as they are expanded,
/// and by what the expansions read.
pub(crate) fn held(
    alloc: Global,
    decls: &Decls,
    known: &Tree,
    actions: &[Action],
    made: &[Action],
    reads: ReadSet,
) -> Result<Held, Memory>
    requires few { length decls.now.names < 2 ^ 32 }
    requires keys { All (λ action. IsTrue (service_key action)) made.now }
    ensures { IfOk result (λ held. held ≡ held_known decls.now known.now actions.now made.now reads.reads) }
{
    let devices = touched_known(alloc, decls, known, made)?;
    let services = services_named(alloc, actions)?;
    let reads = with_services(alloc, reads, services.as_slice())?;
    let targets = targets(alloc, actions)?;
    Ok(Held {
        devices,
        services,
        reads,
        targets,
    })
}
