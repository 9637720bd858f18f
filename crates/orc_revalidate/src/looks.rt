//! What is looked at after a change, and the least breach of it.
ghost use Rattle.std.specs.Prelude.{◌≡◌, IfOk, map};
ghost use Rattle.std.specs.List.{fold, flat_map};
ghost use Rattle.orc_check.specs.Validity.{lesser_breach, least_breach};
ghost use Rattle.orc_revalidate.specs.inside.Looked.{own_breaches, came_breaches, went_breaches, target_breaches, change_breaches};

use crate::fronts::keep_node;
use crate::inside::rows_inside;
use crate::kept::has_row;
use orc_check::{Best, is_place};
use orc_expr::Target;
use orc_path::{Item, Path};
use orc_schema_nodes::Schema;
use orc_text::Memory;
use orc_tree::Tree;
use std::alloc::Global;

// The lesser of the best and of what is missing, or too many, below a row that is a place.
fn keep_own<'a>(best: Best<'a>, schema: &'a Schema, tree: &Tree, row: &'a (Path, Item)) -> Best<'a>
    ensures { result ≡ fold lesser_breach best.entry (own_breaches schema.now tree.now row.now) }
{
    if is_place(schema, row) {
        best.keep_place(schema, tree, &row.0)
    } else {
        best
    }
}

// The lesser of the best and of what a row may break that the old tree hasn't.
fn keep_came<'a>(
    best: Best<'a>,
    schema: &'a Schema,
    old: &Tree,
    new: &'a Tree,
    row: &'a (Path, Item),
) -> Best<'a>
    ensures { result ≡ fold lesser_breach best.entry (came_breaches schema.now old.now new.now row.now) }
{
    if has_row(old, row) {
        return best;
    }
    let first = best.keep_row(schema, new, row);
    let second = keep_own(first, schema, new, row);
    keep_node(second, schema, new, row.0.steps.as_slice())
}

// The lesser of the best and of what may be broken where a row of the old tree went.
fn keep_went<'a>(best: Best<'a>, schema: &'a Schema, new: &'a Tree, row: &(Path, Item)) -> Best<'a>
    ensures { result ≡ fold lesser_breach best.entry (went_breaches schema.now new.now row.now) }
{
    if has_row(new, row) {
        best
    } else {
        keep_node(best, schema, new, row.0.steps.as_slice())
    }
}

// The first for each of some rows of the new tree.
fn keep_each_came<'a>(
    best: Best<'a>,
    schema: &'a Schema,
    old: &Tree,
    new: &'a Tree,
    rows: &[&'a (Path, Item)],
) -> Best<'a>
    ensures { result ≡ fold lesser_breach best.entry
        (flat_map (came_breaches schema.now old.now new.now) (map (λ row. row.now) rows.now)) }
{
    let mut kept = best;
    for row in rows {
        kept = keep_came(kept, schema, old, new, *row);
    }
    kept
}

// The second for each of some rows of the old tree.
fn keep_each_went<'a>(
    best: Best<'a>,
    schema: &'a Schema,
    new: &'a Tree,
    rows: &[&(Path, Item)],
) -> Best<'a>
    ensures { result ≡ fold lesser_breach best.entry
        (flat_map (went_breaches schema.now new.now) (map (λ row. row.now) rows.now)) }
{
    let mut kept = best;
    for row in rows {
        kept = keep_went(kept, schema, new, *row);
    }
    kept
}

// Both inside a target.
fn keep_target<'a>(
    alloc: Global,
    best: Best<'a>,
    schema: &'a Schema,
    old: &Tree,
    new: &'a Tree,
    target: &Target,
) -> Result<Best<'a>, Memory>
    ensures { IfOk result (λ kept. kept
        ≡ fold lesser_breach best.entry (target_breaches schema.now old.now new.now target.now)) }
{
    let came = rows_inside(alloc, new, target)?;
    let went = rows_inside(alloc, old, target)?;
    let first = keep_each_came(best, schema, old, new, came.as_slice());
    Ok(keep_each_went(first, schema, new, went.as_slice()))
}

/// The least breach of what is looked at after a change inside targets.
pub(crate) fn least_looked<'a>(
    alloc: Global,
    schema: &'a Schema,
    old: &Tree,
    new: &'a Tree,
    targets: &[Target],
) -> Result<Best<'a>, Memory>
    ensures { IfOk result (λ best. best
        ≡ least_breach (change_breaches schema.now old.now new.now targets.now)) }
{
    let mut kept = Best::none();
    for target in targets {
        kept = keep_target(alloc, kept, schema, old, new, target)?;
    }
    Ok(kept)
}
