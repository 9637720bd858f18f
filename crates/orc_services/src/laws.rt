//! What services rest on, as laws: functions that do nothing and say what holds.
ghost use Rattle.orc_services.specs.Laws.{ExpandedIsFixedByReads, ExpandedStands};

use orc_expr::untouched_is_shared;
use orc_template::expansions_are_fixed_by_reads;

/// Two views of equal shapes that share what the expansions of a call read give the same, with the
/// same refusal, and read the same.
pub fn expanded_is_fixed_by_reads()
    ensures { ExpandedIsFixedByReads }
{
    expansions_are_fixed_by_reads();
}

/// So what the actions of a call come to stands until a write touches what was read.
pub fn expanded_stands()
    ensures { ExpandedStands }
{
    expanded_is_fixed_by_reads();
    untouched_is_shared();
}
