//! Which services a call names, and what it may write on any data.
ghost use Rattle.std.specs.Prelude.{◌≡◌, ◌++◌, IfOk, OnOk};
ghost use Rattle.std.specs.Option.{option_to_list};
ghost use Rattle.orc_path.specs.Reading.{path_of};
ghost use Rattle.orc_decls.specs.Calls.{service_of};
ghost use Rattle.orc_datastore.specs.Plans.{call_targets, entry_targets, leave_targets, services_named, targets_of};

use orc_call::Action;
use orc_decls::service_of;
use orc_expr::Target;
use orc_services::path_of_id;
use orc_text::{Memory, Row, Text};
use std::alloc::Global;

// Adds where the entry of the service of an id may be written, and all below it.
fn push_entry(targets: &mut Row<Target>, alloc: Global, id: &Text) -> Result<(), Memory>
    ensures { OnOk result (targets.new ≡ targets.old ++ entry_targets (path_of id.now)) }
{
    match path_of_id(alloc, id)? {
        Some(path) => {
            targets.push(Target::One(path.copy(alloc)?))?;
            targets.push(Target::Under(path))
        }
        None => Ok(()),
    }
}

// Adds where the entry of the service of an id may go, and all below it.
fn push_leave(targets: &mut Row<Target>, alloc: Global, id: &Text) -> Result<(), Memory>
    ensures { OnOk result (targets.new ≡ targets.old ++ leave_targets (path_of id.now)) }
{
    match path_of_id(alloc, id)? {
        Some(path) => targets.push(Target::Under(path)),
        None => Ok(()),
    }
}

// Adds what an action may write on any data.
fn push_targets(targets: &mut Row<Target>, alloc: Global, action: &Action) -> Result<(), Memory>
    ensures { OnOk result (targets.new ≡ targets.old ++ targets_of action.now) }
{
    match action {
        Action::Create(id, _) | Action::Modify(id, _) => push_entry(targets, alloc, id),
        Action::Delete(id) => push_leave(targets, alloc, id),
        Action::Set(put) => targets.push(Target::One(put.path.copy(alloc)?)),
        Action::Unset(path) => targets.push(Target::Under(path.copy(alloc)?)),
        // The others write no data.
        _ => Ok(()),
    }
}

/// What actions may write on any data.
pub(crate) fn targets(alloc: Global, actions: &[Action]) -> Result<Row<Target>, Memory>
    ensures { IfOk result (λ targets. targets ≡ call_targets actions.now) }
{
    let mut targets = Row::new(alloc);
    for action in actions {
        push_targets(&mut targets, alloc, action)?;
    }
    Ok(targets)
}

// Adds the service that an action names, if it names one.
fn push_service(ids: &mut Row<Text>, alloc: Global, action: &Action) -> Result<(), Memory>
    ensures { OnOk result (ids.new ≡ ids.old ++ option_to_list (service_of action.now)) }
{
    match service_of(action) {
        Some(id) => ids.push(id.copy(alloc)?),
        None => Ok(()),
    }
}

/// The services that actions name, in their order.
pub(crate) fn services_named(alloc: Global, actions: &[Action]) -> Result<Row<Text>, Memory>
    ensures { IfOk result (λ ids. ids ≡ services_named actions.now) }
{
    let mut ids = Row::new(alloc);
    for action in actions {
        push_service(&mut ids, alloc, action)?;
    }
    Ok(ids)
}
