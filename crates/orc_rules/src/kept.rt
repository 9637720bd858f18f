//! What each event keeps. Each function does nothing: its contract is the law.
ghost use Rattle.orc_rules.specs.Laws.{AcceptedIsTyped, DevicesAreAsDeclared, DevicesAreKept, FrontsAreKept, HistoryIsKept, RepliesAreKept, TurnsAreBounded, TurnsLessen};

use orc_change::difference_leads;
use orc_check::valid_is_typed;
use orc_datastore::{tree_is_configuration, tree_is_typed};
use orc_disk::Disk;
use orc_journal::keeps_order;
use orc_node::changes_are_taken;
use orc_plans::{legal_stands, plan_stands, planned_stands, planned_tree_is_stable, unheld_stay};
use orc_tree::equal_configs_are_one;

/// The journal is one of a legal history after each event, in every image and as it is read.
pub fn history_is_kept<D: Disk>()
    ensures { HistoryIsKept D.disk }
{
    plan_stands();
    legal_stands();
    keeps_order();
}

/// What is kept of the devices, and of the work on them, is so after each event.
pub fn devices_are_kept<D: Disk>()
    ensures { DevicesAreKept D.disk }
{
    plan_stands();
    planned_stands();
    planned_tree_is_stable();
    unheld_stay();
    equal_configs_are_one();
    difference_leads();
    tree_is_configuration();
}

/// What is known of replies stays so after each event.
pub fn replies_are_kept<D: Disk>()
    ensures { RepliesAreKept D.disk }
{
    plan_stands();
    planned_stands();
    planned_tree_is_stable();
    unheld_stay();
    equal_configs_are_one();
    difference_leads();
    tree_is_configuration();
    tree_is_typed();
    changes_are_taken();
}

/// Where devices accept what is due after each prefix of the history, they do so after each event, and
/// refuse no reconciliation.
pub fn fronts_are_kept<D: Disk>()
    ensures { FrontsAreKept D.disk }
{
    plan_stands();
    planned_stands();
    planned_tree_is_stable();
    unheld_stay();
    equal_configs_are_one();
    difference_leads();
    tree_is_configuration();
    tree_is_typed();
    changes_are_taken();
}

/// Rounds end: each of their events leaves fewer turns, of which there are no more than the calls under
/// way and their devices allow.
pub fn rounds_end<D: Disk>()
    ensures lessen { TurnsLessen D.disk }
    ensures bounded { TurnsAreBounded D }
{}

/// Devices as they are declared are such as the other laws ask for.
pub fn devices_are_as_declared()
    ensures { DevicesAreAsDeclared }
{}

/// What a device accepts is typed by its declared schema.
pub fn accepted_is_typed()
    ensures { AcceptedIsTyped }
{
    valid_is_typed();
}
