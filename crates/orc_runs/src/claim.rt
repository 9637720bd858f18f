//! What is claimed of every run. Each function does nothing: its contract is the law.
ghost use Rattle.orc_runs.specs.Laws.{BundleRunsHaveTheHeadline, EachRunIsCarried, RunsHaveTheHeadline, StartsAreKept};

use orc_change::difference_leads;
use orc_datastore::{tree_is_configuration, tree_is_typed};
use orc_disk::Disk;
use orc_journal::{has_one_verdict, keeps_order};
use orc_node::changes_are_taken;
use orc_plans::{legal_stands, plan_stands, planned_stands, planned_tree_is_stable, unheld_stay};
use orc_rules::devices_are_as_declared;
use orc_tree::equal_configs_are_one;

/// Each run of each script has the headline, over any disk and any declarations.
pub fn runs_have_the_headline<D: Disk>()
    ensures { RunsHaveTheHeadline D.disk }
{
    plan_stands();
    legal_stands();
    keeps_order();
    has_one_verdict();
    planned_stands();
    planned_tree_is_stable();
    unheld_stay();
    equal_configs_are_one();
    difference_leads();
    tree_is_configuration();
    tree_is_typed();
    changes_are_taken();
}

/// Each run on the devices as a bundle declares them has the headline: nothing more is asked of these.
pub fn bundle_runs_have_the_headline<D: Disk>()
    ensures { BundleRunsHaveTheHeadline D.disk }
{
    runs_have_the_headline::<D>();
    devices_are_as_declared();
}

/// As a run begins everything holds that each event keeps, so that whoever runs a script can carry it along.
pub fn starts_are_kept<D: Disk>()
    ensures { StartsAreKept D.disk }
{
    plan_stands();
    legal_stands();
    keeps_order();
    planned_stands();
    planned_tree_is_stable();
    unheld_stay();
    equal_configs_are_one();
    difference_leads();
    tree_is_configuration();
}

/// What is kept of a world holds after each event and after what a line sets; and where nothing is left
/// for a round, and no reconciliation is unfinished, the hub is idle.
pub fn runs_are_carried<D: Disk>()
    ensures { EachRunIsCarried D.disk }
{
    plan_stands();
    legal_stands();
    keeps_order();
    planned_stands();
    planned_tree_is_stable();
    unheld_stay();
    equal_configs_are_one();
    difference_leads();
    tree_is_configuration();
    tree_is_typed();
    changes_are_taken();
}
