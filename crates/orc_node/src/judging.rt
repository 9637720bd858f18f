//! Whether a device accepts a configuration that was made from one that it accepts.
ghost use Rattle.std.specs.Prelude.{◌≡◌, IfOk, map, true};
ghost use Rattle.orc_check.specs.Acceptance.{accepts};
ghost use Rattle.orc_tree.specs.Changes.{applied};
ghost use Rattle.orc_revalidate.specs.Changes.{DiffersInside};
ghost use Rattle.orc_node.specs.inside.Changed.{target_of, keeps_rules, known_of};
ghost use Rattle.orc_node.specs.inside.Held.{IsKnown};

use orc_check::{Accept, CheckFault, accepts_under};
use orc_expr::Target;
use orc_revalidate::revalidate;
use orc_schema_nodes::Schema;
use orc_text::{Memory, Row};
use orc_tree::{Change, ChangeSet, Tree};
use std::alloc::Global;

// What the change may change.
fn target_of(alloc: Global, change: &Change) -> Result<Target, Memory>
    ensures { IfOk result (λ target. target ≡ target_of change.now) }
{
    match change {
        Change::Put(path, _) => Ok(Target::One(path.copy(alloc)?)),
        Change::Remove(path) => Ok(Target::Under(path.copy(alloc)?)),
    }
}

// What the changes may change.
fn targets_of(alloc: Global, changes: &[Change]) -> Result<Row<Target>, Memory>
    ensures { IfOk result (λ targets. targets ≡ map target_of changes.now) }
{
    let mut targets = Row::new(alloc);
    for change in changes {
        targets.push(target_of(alloc, change)?)?;
    }
    Ok(targets)
}

// Whether it keeps the device's rules beside its schema: what a device of the same rules without
// modules accepts.
fn keeps_rules(alloc: Global, accept: &Accept, tree: &Tree) -> Result<bool, Memory>
    ensures { IfOk result (λ answer. answer ≡ keeps_rules accept.now tree.now) }
{
    let plain = Schema::plain(alloc);
    accepts_under(
        alloc,
        &plain,
        accept.max.as_slice(),
        accept.forbid.as_slice(),
        tree,
    )
}

// What is known of a tree whose rules were looked at.
fn known_of(kept: Result<bool, Memory>) -> Option<bool>
    ensures { result ≡ known_of kept }
{
    match kept {
        Ok(answer) => Some(answer),
        Err(_) => None,
    }
}

// Whether the device accepts the tree, where it accepts the one before these targets were changed.
fn judged_inside(
    alloc: Global,
    accept: &Accept,
    old: &Tree,
    new: &Tree,
    targets: &[Target],
) -> Option<bool>
    requires accepted { accepts accept.now old.now ≡ true }
    requires changed { DiffersInside targets.now old.now new.now }
    ensures { IsKnown result (accepts accept.now new.now) }
{
    match revalidate(alloc, &accept.schema, old, new, targets) {
        Ok(()) => known_of(keeps_rules(alloc, accept, new)),
        Err(CheckFault::Broken { .. }) => Some(false),
        Err(CheckFault::Memory) => None,
    }
}

/// Whether the device accepts what these changes made of a tree that it accepts: it costs what the
/// changes touch, as `revalidate` does, and a look at the rules. None where memory runs out.
pub(crate) fn judged(
    alloc: Global,
    accept: &Accept,
    old: &Tree,
    new: &Tree,
    set: &ChangeSet,
) -> Option<bool>
    requires accepted { accepts accept.now old.now ≡ true }
    requires made { new.now ≡ applied set.now.changes old.now }
    ensures { IsKnown result (accepts accept.now new.now) }
{
    match targets_of(alloc, set.changes.as_slice()) {
        Ok(targets) => judged_inside(alloc, accept, old, new, targets.as_slice()),
        Err(_) => None,
    }
}
