//! What the actions of a call come to.
ghost use Rattle.std.specs.Prelude.{◌≡◌, IfOk};
ghost use Rattle.orc_services.specs.Fitting.{FitActions};
ghost use Rattle.orc_services.specs.Expanded.{ExpandsTo, expanded_actions};
ghost use Rattle.orc_datastore.specs.Next.{serving_on};

use orc_call::{Action, Answer};
use orc_decls::Decls;
use orc_expr::ReadSet;
use orc_services::expand_actions;
use orc_template::View;
use orc_text::{Memory, Row};
use orc_tree::Tree;
use std::alloc::Global;

/// What actions come to, where these are the data after all of them; or the first that can't be
/// expanded. What the expansions read is added.
pub(crate) fn expanded_reading(
    alloc: Global,
    decls: &Decls,
    data: &Tree,
    actions: &[Action],
    reads: &mut ReadSet,
) -> Result<Result<Row<Action>, Answer>, Memory>
    requires { FitActions actions.now }
    ensures outcome { IfOk result (ExpandsTo (expanded_actions (serving_on decls.now «data».now) actions.now)
        reads.old.reads reads.new.reads) }
    ensures fit { IfOk result (λ found. IfOk found FitActions) }
{
    let view = View {
        tree: data,
        schema: decls.data_schema(),
    };
    expand_actions(
        alloc,
        decls.services(),
        decls.table(),
        &view,
        actions,
        reads,
    )
}
