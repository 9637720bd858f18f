//! Wrong runs that are refused.
ghost use Rattle.orc_run_cases.specs.Refused.{AdmitsFresh, CommitsNext, CommitsSynced, CommitsWhenReady, FollowsDecisions, InEachNetwork, InEachRun, RecoversCome, RestartsCome, TicksCome};

use orc_change::difference_leads;
use orc_datastore::tree_is_configuration;
use orc_disk::Disk;
use orc_journal::keeps_order;
use orc_plans::{legal_stands, plan_stands, planned_stands, planned_tree_is_stable, unheld_stay};
use orc_tree::equal_configs_are_one;

/// A `tick`, a `restart` and a `recover` are never passed over.
pub fn lines_are_not_passed_over<D: Disk>()
    ensures ticks { InEachNetwork D.disk (λ here. TicksCome here) }
    ensures restarts { InEachNetwork D.disk (λ here. RestartsCome here) }
    ensures recovers { InEachNetwork D.disk (λ here. RecoversCome here) }
{}

/// A call is committed once each of its devices is ready, under the next number, and once its Decide is
/// synced; and it is admitted only where none of its devices is stale.
pub fn calls_are_decided_in_time<D: Disk>()
    ensures ready { InEachNetwork D.disk (λ here. CommitsWhenReady here) }
    ensures numbered { InEachNetwork D.disk (λ here. CommitsNext here) }
    ensures synced { InEachNetwork D.disk (λ here. CommitsSynced here) }
    ensures fresh { InEachNetwork D.disk (λ here. AdmitsFresh here) }
{}

/// In each run a call is committed only where each of its devices answered its confirmed commit well;
/// no Cancel goes out for what was decided, and no Confirm before its Decide is synced; a
/// device changes only where an unsettled Intent names it or a reconciliation is under way; a
/// reconciliation is well only where each device runs what is due; and no caller and number are entered
/// twice.
pub fn devices_follow_decisions<D: Disk>()
    ensures { InEachRun D.disk (λ here turn. FollowsDecisions here turn) }
{
    plan_stands();
    legal_stands();
    keeps_order();
    planned_stands();
    planned_tree_is_stable();
    unheld_stay();
    equal_configs_are_one();
    difference_leads();
    tree_is_configuration();
}
