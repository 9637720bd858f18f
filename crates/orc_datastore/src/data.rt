//! The data: what it is at the opening, what actions make of it, and why they are refused before their
//! services are expanded.
ghost use Rattle.std.specs.Prelude.{◌≡◌, None, All, IfOk, OnOk, IsTrue};
ghost use Rattle.orc_check.specs.Validity.{broken_of};
ghost use Rattle.orc_path.specs.Reading.{path_of};
ghost use Rattle.orc_services.specs.Fitting.{fits_action, is_entry_id, FitActions};
ghost use Rattle.orc_decls.specs.Openings.{fits_puts, put_all};
ghost use Rattle.orc_datastore.specs.Actions.{data_after, data_step, enter_service, leave_service};
ghost use Rattle.orc_revalidate.specs.Changes.{DiffersInside};
ghost use Rattle.orc_datastore.specs.Next.{IsDataUnless, first_service_fault, invalid};
ghost use Rattle.orc_datastore.specs.Plans.{call_targets};
ghost use Rattle.std.specs.List.{list_any};
ghost use Rattle.orc_datastore.specs.inside.Behind.{begins_as_path, is_on_data};
ghost use Rattle.orc_datastore.specs.inside.Sights.{knows_service, service_key};

use crate::services::existence;
use crate::targets::targets;
use orc_call::{Action, Answer, Put};
use orc_check::CheckFault;
use orc_expr::Target;
use orc_path::{Item, Path};
use orc_revalidate::revalidate;
use orc_schema_nodes::Schema;
use orc_services::path_of_id;
use orc_text::{Memory, Text};
use orc_tree::Tree;
use std::alloc::Global;

// Sets items, one after another.
fn put_all(data: &mut Tree, alloc: Global, puts: &[Put]) -> Result<(), Memory>
    requires { IsTrue (fits_puts puts.now) }
    ensures { OnOk result («data».new ≡ put_all puts.now «data».old) }
{
    for put in puts {
        data.set(put.path.copy(alloc)?, put.item.copy(alloc)?)?;
    }
    Ok(())
}

// Adds the entry of the service of an id, and its body.
fn enter_service(data: &mut Tree, alloc: Global, id: &Text, body: &[Put]) -> Result<(), Memory>
    requires entry { IsTrue (is_entry_id id.now) }
    requires body { IsTrue (fits_puts body.now) }
    ensures { OnOk result («data».new ≡ enter_service (path_of id.now) body.now «data».old) }
{
    match path_of_id(alloc, id)? {
        Some(path) => {
            data.set(path, Item::Entry)?;
            put_all(data, alloc, body)
        }
        None => Ok(()),
    }
}

// Removes the entry of the service of an id, and all below it.
fn leave_service(data: &mut Tree, alloc: Global, id: &Text) -> Result<(), Memory>
    ensures { OnOk result («data».new ≡ leave_service (path_of id.now) «data».old) }
{
    match path_of_id(alloc, id)? {
        Some(path) => data.remove(&path),
        None => Ok(()),
    }
}

// Does an action on the data.
fn do_on_data(alloc: Global, data: &mut Tree, action: &Action) -> Result<(), Memory>
    requires { IsTrue (fits_action action.now) }
    ensures { OnOk result («data».new ≡ data_step «data».old action.now) }
{
    match action {
        Action::Create(id, body) => enter_service(data, alloc, id, body.as_slice()),
        Action::Modify(id, body) => {
            leave_service(data, alloc, id)?;
            enter_service(data, alloc, id, body.as_slice())
        }
        Action::Delete(id) => leave_service(data, alloc, id),
        Action::Set(put) => data.set(put.path.copy(alloc)?, put.item.copy(alloc)?),
        Action::Unset(path) => data.remove(path),
        // The others leave the data.
        _ => Ok(()),
    }
}

// Whether the text begins as that of a path.
fn begins_as_path(text: &str) -> bool
    ensures { result ≡ begins_as_path text.now }
{
    match text.as_bytes() {
        [first, ..] => *first == b'/',
        [] => false,
    }
}

// Whether an action may change the data.
fn is_on_data(action: &Action) -> bool
    ensures { result ≡ is_on_data action.now }
{
    match action {
        Action::Create(_, _) | Action::Modify(_, _) | Action::Set(_) | Action::Unset(_) => true,
        Action::Delete(id) => begins_as_path(id.as_str()),
        _ => false,
    }
}

// Whether one of the actions may change the data.
fn any_on_data(actions: &[Action]) -> bool
    ensures { result ≡ list_any is_on_data actions.now }
{
    actions.iter().any(|action| is_on_data(action))
}

/// The data after actions, done in their order.
pub(crate) fn data_after(alloc: Global, data: &Tree, actions: &[Action]) -> Result<Tree, Memory>
    requires { FitActions actions.now }
    ensures { IfOk result (λ tree. tree ≡ data_after actions.now «data».now) }
{
    let mut tree = data.copy(alloc)?;
    for action in actions {
        do_on_data(alloc, &mut tree, action)?;
    }
    Ok(tree)
}

/// The data after actions, or why they are refused before their services are expanded: the first
/// action that creates a service that lives or names one that doesn't, else what is broken in the data.
pub(crate) fn data_behind(
    alloc: Global,
    schema: &Schema,
    known: &Tree,
    old: &Tree,
    actions: &[Action],
) -> Result<Result<Tree, Answer>, Memory>
    requires fit { FitActions actions.now }
    requires keys { All (λ action. IsTrue (service_key action)) actions.now }
    requires valid { broken_of schema.now old.now ≡ None }
    requires changed { DiffersInside (call_targets actions.now) old.now (data_after actions.now old.now) }
    ensures { IfOk result (IsDataUnless (first_service_fault (knows_service known.now) actions.now) schema.now
        (data_after actions.now old.now)) }
{
    if let Some(found) = existence(alloc, known, actions)? {
        return Ok(Err(found));
    }
    let data = data_after(alloc, old, actions)?;
    match invalid_behind(alloc, schema, actions, old, &data)? {
        Some(found) => Ok(Err(found)),
        None => Ok(Ok(data)),
    }
}

// What is broken in the data after actions, if anything is. Literal services, redeploys and edits of
// bases leave the data, which was valid: after these alone it isn't looked at again. Else it is looked
// at where the actions may have changed it.
fn invalid_behind(
    alloc: Global,
    schema: &Schema,
    actions: &[Action],
    old: &Tree,
    data: &Tree,
) -> Result<Option<Answer>, Memory>
    requires valid { broken_of schema.now old.now ≡ None }
    requires behind { «data».now ≡ data_after actions.now old.now }
    requires changed { DiffersInside (call_targets actions.now) old.now «data».now }
    ensures { IfOk result (λ found. found ≡ invalid schema.now «data».now) }
{
    if !any_on_data(actions) {
        return Ok(None);
    }
    let targets = targets(alloc, actions)?;
    invalid(alloc, schema, old, data, targets.as_slice())
}

// What is broken in data that differ from valid ones inside these targets, if anything is.
fn invalid(
    alloc: Global,
    schema: &Schema,
    old: &Tree,
    data: &Tree,
    targets: &[Target],
) -> Result<Option<Answer>, Memory>
    requires valid { broken_of schema.now old.now ≡ None }
    requires changed { DiffersInside targets.now old.now «data».now }
    ensures { IfOk result (λ found. found ≡ invalid schema.now «data».now) }
{
    match revalidate(alloc, schema, old, data, targets) {
        Ok(()) => Ok(None),
        Err(CheckFault::Broken { path, rule }) => Ok(Some(Answer::Invalid(path, rule))),
        Err(CheckFault::Memory) => Err(Memory),
    }
}
