//! That the calls keep the hub. Each function does nothing: its contract is the law.
ghost use Rattle.orc_hub.specs.Laws.{AbortKeeps, BeginKeeps, CommitKeeps, EachAdmissionKeeps, EachDecisionKeeps, EachMendingBegunKeeps, EachMendingEndedKeeps, EachReportKeeps, EachSubmissionKeeps, MendingBegunKeeps, MendingEndedKeeps, ReportKeeps, SettleKeeps, SubmitKeeps, TurnAwayKeeps};

use orc_disk::Disk;
use orc_journal::keeps_order;
use orc_plans::plan_stands;
use orc_state::plan_is_at_front;

/// A report keeps what is so of each hub.
pub fn report_keeps<D: Disk>()
    ensures { ReportKeeps D.disk }
{}

/// The commit of a transaction keeps the hub, where it is still up after that.
pub fn commit_keeps<D: Disk>()
    ensures { CommitKeeps D.disk }
{
    keeps_order();
    plan_stands();
}

/// Giving up a transaction keeps the hub, where it is still up after that.
pub fn abort_keeps<D: Disk>()
    ensures { AbortKeeps D.disk }
{
    keeps_order();
}

/// Settling a transaction keeps the hub, where it is still up after that.
pub fn settle_keeps<D: Disk>()
    ensures { SettleKeeps D.disk }
{
    keeps_order();
}

/// A submission that was planned on a snapshot keeps the hub.
pub fn submit_keeps<D: Disk>()
    ensures { SubmitKeeps D.disk }
{
    plan_is_at_front();
}

/// An admission that answers its call keeps the hub.
pub fn turn_away_keeps<D: Disk>()
    ensures { TurnAwayKeeps D.disk }
{}

/// An admission that appends its Intent keeps the hub, where it is still up after that.
pub fn begin_keeps<D: Disk>()
    ensures { BeginKeeps D.disk }
{
    keeps_order();
}

/// The beginning of a reconciliation keeps the hub.
pub fn mending_begun_keeps<D: Disk>()
    ensures { MendingBegunKeeps D.disk }
{}

/// The end of a reconciliation keeps the hub, where it is still up after that.
pub fn mending_ended_keeps<D: Disk>()
    ensures { MendingEndedKeeps D.disk }
{
    keeps_order();
}

// Each report keeps the hub.
pub(crate) fn each_report_keeps<D: Disk>()
    ensures { EachReportKeeps D.disk }
{
    report_keeps::<D>();
}

// Each decision keeps the hub.
pub(crate) fn each_decision_keeps<D: Disk>()
    ensures { EachDecisionKeeps D.disk }
{
    commit_keeps::<D>();
    abort_keeps::<D>();
    settle_keeps::<D>();
}

// Each submission keeps the hub.
pub(crate) fn each_submission_keeps<D: Disk>()
    ensures { EachSubmissionKeeps D.disk }
{
    submit_keeps::<D>();
}

// Each admission keeps the hub.
pub(crate) fn each_admission_keeps<D: Disk>()
    ensures { EachAdmissionKeeps D.disk }
{
    turn_away_keeps::<D>();
    begin_keeps::<D>();
}

// Each beginning of a reconciliation keeps the hub.
pub(crate) fn each_mending_begun_keeps<D: Disk>()
    ensures { EachMendingBegunKeeps D.disk }
{
    mending_begun_keeps::<D>();
}

// Each end of a reconciliation keeps the hub.
pub(crate) fn each_mending_ended_keeps<D: Disk>()
    ensures { EachMendingEndedKeeps D.disk }
{
    keeps_order();
    mending_ended_keeps::<D>();
}
