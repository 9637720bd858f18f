//! Whether a change may take an instance from a leafref elsewhere.
ghost use Rattle.std.specs.Prelude.{◌≡◌, ◌&&◌, IfOk, is_some, is_none, map};
ghost use Rattle.std.specs.List.{list_any};
ghost use Rattle.std.specs.FinMap.{get};
ghost use Rattle.orc_path.specs.Steps.{ends_in_keys};
ghost use Rattle.orc_check.specs.Validity.{behind};
ghost use Rattle.orc_revalidate.specs.inside.Led.{is_cut_off, may_reach, leads_into, is_led_to, has_default_at, may_take, may_cover, target_takes, may_lose};

use crate::inside::rows_inside;
use crate::kept::has_row;
use orc_check::{first_steps, row_of_steps, target_in};
use orc_expr::Target;
use orc_path::{Item, Path, Step};
use orc_schema_nodes::{Node, Schema, SchemaLine};
use orc_text::{Memory, Text};
use orc_tree::Tree;
use std::alloc::Global;

// Whether names begin with those of steps.
fn begin_with(names: &[Text], steps: &[Step]) -> bool
    ensures { result ≡ is_some (behind steps.now names.now) }
{
    match steps {
        [] => true,
        [step, below @ ..] => match names {
            [] => false,
            [name, later @ ..] => {
                step.node.as_str() == name.as_str() && begin_with(later, below)
            }
        },
    }
}

// Whether the last of the steps has keys.
fn end_in_keys(steps: &[Step]) -> bool
    ensures { result ≡ ends_in_keys steps.now }
{
    match steps {
        [] => false,
        [step, later @ ..] => match later {
            [] => step.keys.len() > 0,
            [..] => end_in_keys(later),
        },
    }
}

// Whether nothing stands at the steps.
fn is_absent(tree: &Tree, steps: &[Step]) -> bool
    ensures { result ≡ is_none (get tree.now steps.now) }
{
    match row_of_steps(tree, steps) {
        Some(_row) => false,
        None => true,
    }
}

// Whether these steps are those of an entry that isn't there.
fn is_gone(tree: &Tree, steps: &[Step]) -> bool
    ensures { result ≡ (ends_in_keys steps.now && is_none (get tree.now steps.now)) }
{
    end_in_keys(steps) && is_absent(tree, steps)
}

// Whether one of the entries that so many of the path's first steps are, or fewer, isn't there.
fn is_cut_off(tree: &Tree, path: &[Step], number: usize) -> bool
    ensures { result ≡ is_cut_off tree.now path.now number }
{
    if number == 0 {
        return false;
    }
    is_gone(tree, first_steps(path, number)) || is_cut_off(tree, path, number - 1)
}

// Whether a leafref of this target may lead there from a row that is there.
fn may_reach(tree: &Tree, steps: &[Step], target: &orc_schema_nodes::Target) -> bool
    ensures { result ≡ may_reach tree.now steps.now target.now }
{
    begin_with(target.names.as_slice(), steps) && !is_cut_off(tree, steps, target.shared as usize)
}

// Whether the line is that of such a leafref.
fn leads_into(tree: &Tree, steps: &[Step], line: &SchemaLine) -> bool
    ensures { result ≡ leads_into tree.now steps.now line.now }
{
    match target_in(&line.node) {
        Some(target) => may_reach(tree, steps, target),
        None => false,
    }
}

// Whether one of the lines is.
fn lead_into(tree: &Tree, lines: &[SchemaLine], steps: &[Step]) -> bool
    ensures { result ≡ list_any (leads_into tree.now steps.now) lines.now }
{
    lines.iter().any(|line| leads_into(tree, steps, line))
}

// Whether a leafref of a row of the tree may lead there.
fn is_led_to(schema: &Schema, tree: &Tree, steps: &[Step]) -> bool
    ensures { result ≡ is_led_to schema.now tree.now steps.now }
{
    let lines = schema.lines();
    lead_into(tree, lines, steps)
}

// Whether the leaf at the steps has a default, and is no key.
fn has_default_at(schema: &Schema, steps: &[Step]) -> bool
    ensures { result ≡ has_default_at schema.now steps.now }
{
    match schema.node(steps) {
        Some(Node::Leaf(leaf)) => match leaf.key {
            Some(_) => false,
            None => leaf.default.is_some(),
        },
        Some(Node::Container) => false,
        Some(Node::List(_)) => false,
        Some(Node::LeafList(_)) => false,
        None => false,
    }
}

// Whether an instance may have gone with a row of the old tree.
fn may_take(schema: &Schema, new: &Tree, row: &(Path, Item)) -> bool
    ensures { result ≡ may_take schema.now new.now row.now }
{
    !has_row(new, row) && is_led_to(schema, new, row.0.steps.as_slice())
}

// Whether a default may no longer count beside a row of the new tree.
fn may_cover(schema: &Schema, old: &Tree, new: &Tree, row: &(Path, Item)) -> bool
    ensures { result ≡ may_cover schema.now old.now new.now row.now }
{
    if has_row(old, row) {
        return false;
    }
    let steps = row.0.steps.as_slice();
    has_default_at(schema, steps) && is_led_to(schema, new, steps)
}

// Whether the first is so of one of some rows.
fn any_takes(schema: &Schema, new: &Tree, rows: &[&(Path, Item)]) -> bool
    ensures { result ≡ list_any (may_take schema.now new.now) (map (λ row. row.now) rows.now) }
{
    for row in rows {
        if may_take(schema, new, *row) {
            return true;
        }
    }
    false
}

// Whether the second is.
fn any_covers(schema: &Schema, old: &Tree, new: &Tree, rows: &[&(Path, Item)]) -> bool
    ensures { result ≡ list_any (may_cover schema.now old.now new.now) (map (λ row. row.now) rows.now) }
{
    for row in rows {
        if may_cover(schema, old, new, *row) {
            return true;
        }
    }
    false
}

// Whether one of the two is so inside a target.
fn target_takes(
    alloc: Global,
    schema: &Schema,
    old: &Tree,
    new: &Tree,
    target: &Target,
) -> Result<bool, Memory>
    ensures { IfOk result (λ takes. takes ≡ target_takes schema.now old.now new.now target.now) }
{
    let went = rows_inside(alloc, old, target)?;
    let came = rows_inside(alloc, new, target)?;
    Ok(any_takes(schema, new, went.as_slice()) || any_covers(schema, old, new, came.as_slice()))
}

/// Whether an instance to which a leafref leads may have gone by a change inside targets: a row went, or
/// has another text, that is at or above a leafref's target, and the entries that both share are still
/// there; or a leaf came whose default counted. It looks at the lines of the schema for each such row, and
/// searches for these entries.
pub(crate) fn may_lose(
    alloc: Global,
    schema: &Schema,
    old: &Tree,
    new: &Tree,
    targets: &[Target],
) -> Result<bool, Memory>
    ensures { IfOk result (λ loses. loses ≡ may_lose schema.now old.now new.now targets.now) }
{
    for target in targets {
        let takes = target_takes(alloc, schema, old, new, target)?;
        if takes {
            return Ok(true);
        }
    }
    Ok(false)
}
