//! What a call writes, at the cost of what it changed.
ghost use Rattle.std.specs.Prelude.{◌≡◌, ◌++◌, IfOk, IsTrue, OnOk, map};
ghost use Rattle.orc_path.specs.declared.item.Write.TheVariants as write;
ghost use Rattle.orc_datastore.specs.Actions.{data_after};
ghost use Rattle.orc_decls.specs.Calls.{is_call};
ghost use Rattle.orc_datastore.specs.Plans.{call_held};
ghost use Rattle.orc_state.specs.Writes.{AreWritesOf};

use orc_call::Call;
use orc_datastore::{Datastore, Plan};
use orc_decls::Decls;
use orc_path::{Path, Write};
use orc_revalidate::changed_paths;
use orc_text::{Memory, Row, Text};
use orc_tree::Tree;
use std::alloc::Global;

// The writes of paths.
fn writes_at(alloc: Global, paths: &[Path]) -> Result<Row<Write>, Memory>
    ensures { IfOk result (λ row. row ≡ map write.At paths.now) }
{
    let mut row = Row::new(alloc);
    for path in paths {
        row.push(Write::At(path.copy(alloc)?))?;
    }
    Ok(row)
}

// Adds the writes of services.
fn push_services(alloc: Global, row: &mut Row<Write>, services: &[Text]) -> Result<(), Memory>
    ensures { OnOk result (row.new ≡ row.old ++ map write.Service services.now) }
{
    for service in services {
        row.push(Write::Service(service.copy(alloc)?))?;
    }
    Ok(())
}

/// What a call writes: the paths at which the data after it differ, looked for inside the targets that its
/// plan holds alone, and the services that it names.
pub(crate) fn writes(
    alloc: Global,
    decls: &Decls,
    state: &Datastore,
    call: &Call,
    plan: &Plan,
    next: &Tree,
) -> Result<Row<Write>, Memory>
    requires call { IsTrue (is_call decls.now call.now) }
    requires held { call_held decls.now state.now call.now ≡ plan.now.held }
    requires behind { next.now ≡ data_after call.now.actions state.now.data }
    ensures { IfOk result (AreWritesOf state.now call.now) }
{
    let paths = changed_paths(alloc, state.data(), next, plan.held.targets.as_slice())?;
    let mut row = writes_at(alloc, paths.as_slice())?;
    push_services(alloc, &mut row, plan.held.services.as_slice())?;
    Ok(row)
}
