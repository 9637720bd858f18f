//! What looks rest on, as laws: functions that do nothing and say what holds.
ghost use Rattle.orc_expr.specs.Laws.{TextsAreFixedByReads, NodesAreFixedByReads, ConditionsAreFixedByReads, UntouchedIsShared};

/// Two views of equal shapes that share what an expression or a condition read give the same, with
/// the same faults, and read the same.
pub fn looks_are_fixed_by_reads()
    ensures texts { TextsAreFixedByReads }
    ensures nodes { NodesAreFixedByReads }
    ensures conditions { ConditionsAreFixedByReads }
{}

/// Where no path at which two configurations differ touches what was read, they share it. So what
/// expressions gave stands until a write touches what they read.
pub fn untouched_is_shared()
    ensures { UntouchedIsShared }
{}
