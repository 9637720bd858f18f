//! Each call of the hub as an event of the rules. Each function cites other laws at most: its contract is
//! the law.
ghost use Rattle.orc_hub_laws.specs.Turns.{AdmitIsEvent, ArmingArms, DecideIsEvent, LettingGoIsStop, MendingBegins, MendingEnds, NoAdmission, NoDecision, NothingOrdered, OpeningStaysDown, OrderIsPerformed, OrderIsUnsent, RefusalStaysDown, ReportIsEvent, SnapshotBegins, StartIsRecovery, SubmitIsEvent};
ghost use Rattle.orc_hub_laws.specs.Under.{InEach};

use orc_disk::{Disk, StopDisk};
use orc_hub::{
    abort_keeps, begin_keeps, commit_keeps, mending_begun_keeps, mending_ended_keeps, report_keeps,
    settle_keeps, submit_keeps, turn_away_keeps,
};
use orc_journal::keeps_order;

/// A snapshot of the hub's state is the beginning of a call.
pub fn snapshot_begins<D: Disk>()
    ensures { InEach D.disk SnapshotBegins }
{}

/// What `submit` does is the submission of a call.
pub fn submit_is_event<D: Disk>()
    ensures { InEach D.disk SubmitIsEvent }
{
    submit_keeps::<StopDisk<D>>();
}

/// What `admit` does is the admission of the first waiting call that fits.
pub fn admit_is_event<D: Disk>()
    ensures { InEach D.disk AdmitIsEvent }
{
    turn_away_keeps::<StopDisk<D>>();
    begin_keeps::<StopDisk<D>>();
}

/// An operation that `order` gives may be performed.
pub fn order_is_performed<D: Disk>()
    ensures { InEach D.disk OrderIsPerformed }
{}

/// An edit that `order` can't copy isn't sent.
pub fn order_is_unsent<D: Disk>()
    ensures { InEach D.disk OrderIsUnsent }
{}

/// What `report` does is that the hub hears of what was replied.
pub fn report_is_event<D: Disk>()
    ensures { InEach D.disk ReportIsEvent }
{
    report_keeps::<StopDisk<D>>();
}

/// What `decide` does is a decision, or a settling.
pub fn decide_is_event<D: Disk>()
    ensures { InEach D.disk DecideIsEvent }
{
    commit_keeps::<StopDisk<D>>();
    abort_keeps::<StopDisk<D>>();
    settle_keeps::<StopDisk<D>>();
}

/// To let the hub go is the stop of the controller.
pub fn letting_go_is_stop<D: Disk>()
    ensures { InEach D.disk LettingGoIsStop }
{}

/// What `begin_reconcile` does is the beginning of a reconciliation.
pub fn mending_begins<D: Disk>()
    ensures { InEach D.disk MendingBegins }
{
    keeps_order();
    mending_begun_keeps::<StopDisk<D>>();
}

/// What `finish_reconcile` does is the end of a reconciliation.
pub fn mending_ends<D: Disk>()
    ensures { InEach D.disk MendingEnds }
{
    keeps_order();
    mending_ended_keeps::<StopDisk<D>>();
}

/// A hub that starts over a journal that was opened anew is the recovery.
pub fn start_is_recovery<D: Disk>()
    ensures { InEach D.disk StartIsRecovery }
{}

/// A journal that was refused stays as it is.
pub fn refusal_stays_down<D: Disk>()
    ensures { InEach D.disk RefusalStaysDown }
{}

/// A journal that was opened stays as it is, where no hub starts over it.
pub fn opening_stays_down<D: Disk>()
    ensures { InEach D.disk OpeningStaysDown }
{}

/// A stop that is armed through the hub is armed in the world.
pub fn arming_arms<D: Disk>()
    ensures { InEach D.disk ArmingArms }
{}

/// Where no waiting call fits, none is admitted.
pub fn no_admission<D: Disk>()
    ensures { InEach D.disk NoAdmission }
{}

/// Where nothing is due in the journal, nothing is decided.
pub fn no_decision<D: Disk>()
    ensures { InEach D.disk NoDecision }
{}

/// Where no operation is due on a device, none is performed.
pub fn nothing_ordered<D: Disk>()
    ensures { InEach D.disk NothingOrdered }
{}
