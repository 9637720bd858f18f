//! What plans rest on while the history grows. Each function does nothing: its contract is the law.
ghost use Rattle.orc_state.specs.Laws.{ConflictIsOne, PassedCanCommit, PlanIsAtFront, PlanStaysAtFront, SnapshotStaysAtFront};

/// A snapshot at a front of the history is one at that front, whatever is committed.
pub fn snapshot_stays_at_front()
    ensures { SnapshotStaysAtFront }
{}

/// What is planned at a front of the history is a plan at that front.
pub fn plan_is_at_front()
    ensures { PlanIsAtFront }
{}

/// And it stays one, whatever is committed.
pub fn plan_stays_at_front()
    ensures { PlanStaysAtFront }
{}

/// Whether a check finds a conflict, and with which entry, is one: an entry that wrote what was read,
/// and none that did, exclude one another, and the first such entry is one.
pub fn conflict_is_one()
    ensures { ConflictIsOne }
{}

/// A new call that passes the check by a plan of a front of the history may be committed by that plan.
pub fn passed_can_commit()
    ensures { PassedCanCommit }
{}
