//! What actions on templated services come to.
ghost use Rattle.std.specs.Prelude.{◌≡◌, ℕ, List, [], IfOk, IsTrue, OnErr, Result, Some};
ghost use Rattle.std.specs.List.{list_any};
ghost use Rattle.std.specs.Option.{option_map};
ghost use Rattle.orc_expr.specs.declared.read.Read.{Read};
ghost use Rattle.orc_template.specs.TheReaders.{the_readers};
ghost use Rattle.orc_template.specs.Expansions.{Expanding, Failed, expanded};
ghost use Rattle.orc_template.specs.Said.{template_json};
ghost use Rattle.orc_services.specs.Fitting.{fits_action, FitActions};
ghost use Rattle.orc_services.specs.Services.{expansion_at, expansion_of, instance_at, serving};
ghost use Rattle.orc_services.specs.Expanded.{as_literal, expanded_actions, expanded_action, ExpandsTo, is_templated};
ghost use Rattle.orc_services.specs.inside.Answering.{Expands};
ghost use Rattle.orc_schema_nodes.specs.Schemas.{shape_at};

use crate::list::{ServiceList, list_with, path_of_id};
use crate::writes::writes_of;
use orc_call::{Action, Answer};
use orc_expr::ReadSet;
use orc_path::Path;
use orc_template::{Devices, ExpandFault, Template, View, the_readers_read_back};
use orc_text::{Memory, Row, Text};
use orc_tree::Tree;
use std::alloc::Global;

/// What was written on each device, or the block at fault and the rule.
#[derive(Drop)]
pub(crate) enum Expanded {
    Written(Row<Tree>),
    Fault(u32, u8),
}

// The expansion of a template at an instance of its list.
fn expand(
    alloc: Global,
    template: &Template,
    view: &View<'_>,
    instance: &Path,
    devices: &Devices,
    reads: &mut ReadSet,
) -> Result<Expanded, Memory>
    ensures { IfOk result (Expands
        (expanded the_readers devices.now instance.now (template_json template.now)
        (record { items = view.now.tree.now; shapes = shape_at view.now.schema.now }))
        reads.old.reads reads.new.reads) }
{
    the_readers_read_back();
    match template.written(alloc, view, instance, devices, reads) {
        Ok(trees) => Ok(Expanded::Written(trees)),
        Err(ExpandFault::At { block, rule }) => Ok(Expanded::Fault(block, rule)),
        Err(ExpandFault::Memory) => Err(Memory),
    }
}

// A literal service with the items of an expansion, or the answer that it can't be expanded.
fn literal(
    alloc: Global,
    devices: &Devices,
    id: &Text,
    expanded: Expanded,
) -> Result<Result<Action, Answer>, Memory>
    ensures outcome { (due : Result Expanding Failed) (old new : List Read) → Expands due old new expanded
        → IfOk result (ExpandsTo (as_literal devices.now.names id.now (Some due)) old new) }
    ensures fit { IfOk result (λ outcome. IfOk outcome (λ action. IsTrue (fits_action action))) }
{
    match expanded {
        Expanded::Written(trees) => {
            let writes = writes_of(alloc, devices.names.as_slice(), trees.as_slice())?;
            Ok(Ok(Action::Literal(id.copy(alloc)?, writes)))
        }
        Expanded::Fault(block, rule) => Ok(Err(Answer::Expand(id.copy(alloc)?, block, rule))),
    }
}

// The service at a path as a literal one with its expansion's items, or the answer that it can't be expanded.
fn expand_at(
    alloc: Global,
    lists: &[ServiceList],
    devices: &Devices,
    view: &View<'_>,
    id: &Text,
    path: &Path,
    reads: &mut ReadSet,
) -> Result<Result<Action, Answer>, Memory>
    ensures outcome { IfOk result (ExpandsTo
        (as_literal devices.now.names id.now
        (option_map (expansion_at (serving lists.now devices.now view.now)) (instance_at lists.now path.now)))
        reads.old.reads reads.new.reads) }
    ensures fit { IfOk result (λ outcome. IfOk outcome (λ action. IsTrue (fits_action action))) }
{
    match list_with(lists, path) {
        Some(it) => {
            let expanded = expand(alloc, &it.template, view, path, devices, reads)?;
            literal(alloc, devices, id, expanded)
        }
        None => Ok(Ok(Action::Literal(id.copy(alloc)?, Row::new(alloc)))),
    }
}

// The service of an id as a literal one with its expansion's items, or the answer that it can't be expanded.
fn expand_service(
    alloc: Global,
    lists: &[ServiceList],
    devices: &Devices,
    view: &View<'_>,
    id: &Text,
    reads: &mut ReadSet,
) -> Result<Result<Action, Answer>, Memory>
    ensures outcome { IfOk result (ExpandsTo
        (as_literal devices.now.names id.now (expansion_of (serving lists.now devices.now view.now) id.now))
        reads.old.reads reads.new.reads) }
    ensures fit { IfOk result (λ outcome. IfOk outcome (λ action. IsTrue (fits_action action))) }
{
    match path_of_id(alloc, id)? {
        Some(path) => expand_at(alloc, lists, devices, view, id, &path, reads),
        None => Ok(Ok(Action::Literal(id.copy(alloc)?, Row::new(alloc)))),
    }
}

// Whether an action creates, modifies or redeploys a service: only such actions expand a template.
fn is_templated(action: &Action) -> bool
    ensures { result ≡ is_templated action.now }
{
    match action {
        Action::Create(_, _) | Action::Modify(_, _) | Action::Redeploy(_) => true,
        _ => false,
    }
}

/// Whether one of the actions creates, modifies or redeploys a service: only such actions expand a
/// template. Else all of them come to themselves.
pub fn any_templated(actions: &[Action]) -> bool
    ensures { result ≡ list_any is_templated actions.now }
{
    actions.iter().any(|action| is_templated(action))
}

// What an action comes to.
fn expand_action(
    alloc: Global,
    lists: &[ServiceList],
    devices: &Devices,
    view: &View<'_>,
    action: &Action,
    reads: &mut ReadSet,
) -> Result<Result<Action, Answer>, Memory>
    requires { IsTrue (fits_action action.now) }
    ensures outcome { IfOk result (ExpandsTo (expanded_action (serving lists.now devices.now view.now) action.now)
        reads.old.reads reads.new.reads) }
    ensures fit { IfOk result (λ outcome. IfOk outcome (λ action. IsTrue (fits_action action))) }
{
    match action {
        Action::Create(id, _) => expand_service(alloc, lists, devices, view, id, reads),
        Action::Modify(id, _) => expand_service(alloc, lists, devices, view, id, reads),
        Action::Redeploy(id) => expand_service(alloc, lists, devices, view, id, reads),
        _ => Ok(Ok(action.copy(alloc)?)),
    }
}

// What actions come to, in their order, or the answer that the first that can't be expanded gets.
fn expand_all(
    alloc: Global,
    lists: &[ServiceList],
    devices: &Devices,
    view: &View<'_>,
    actions: &[Action],
    reads: &mut ReadSet,
) -> Result<Result<Row<Action>, Answer>, Memory>
    requires { FitActions actions.now }
    ensures outcome { IfOk result (ExpandsTo (expanded_actions (serving lists.now devices.now view.now) actions.now)
        reads.old.reads reads.new.reads) }
    ensures fit { IfOk result (λ outcome. IfOk outcome FitActions) }
{
    let mut expanded = Row::new(alloc);
    for action in actions {
        match expand_action(alloc, lists, devices, view, action, reads)? {
            Ok(action) => expanded.push(action)?,
            Err(answer) => return Ok(Err(answer)),
        }
    }
    Ok(Ok(expanded))
}

/// What the actions of a call come to, once its data is done: each that creates, modifies or redeploys
/// a service is that of a literal one with the items of its expansion on the data. Or the answer is
/// the first that can't be expanded. What the expansions read is added, also where the answer is a
/// fault; where memory runs out nothing is added. It asks that each item that an action sets fits its
/// path.
pub fn expand_actions(
    alloc: Global,
    lists: &[ServiceList],
    devices: &Devices,
    view: &View<'_>,
    actions: &[Action],
    reads: &mut ReadSet,
) -> Result<Result<Row<Action>, Answer>, Memory>
    requires { FitActions actions.now }
    ensures outcome { IfOk result (ExpandsTo (expanded_actions (serving lists.now devices.now view.now) actions.now)
        reads.old.reads reads.new.reads) }
    ensures fit { IfOk result (λ outcome. IfOk outcome FitActions) }
    ensures memory { OnErr result (reads.new.reads ≡ reads.old.reads) }
{
    let mut read = ReadSet::new(alloc);
    let outcome = expand_all(alloc, lists, devices, view, actions, &mut read)?;
    reads.append(alloc, read)?;
    Ok(outcome)
}
