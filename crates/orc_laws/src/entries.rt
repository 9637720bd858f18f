//! Laws of what the entries of a history write.
ghost use Rattle.orc_laws.specs.Entries.{EntryWritesAreHeld};

use orc_plans::{changes_are_held, planned_stands};

/// What an entry writes is held by the plan by which it was committed, also by one that was made before
/// other entries and still stands: each path lies inside a target of it, and each service is one of
/// those that it holds.
pub fn entry_writes_are_held()
    ensures { EntryWritesAreHeld }
{
    planned_stands();
    changes_are_held();
}
