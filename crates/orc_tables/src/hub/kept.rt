//! A hub over a journal in memory, of which what each of its calls keeps is so.
ghost use Rattle.std.specs.Prelude.{◌≡◌, ◌≤◌, ◌<◌, ◌^◌, false, IfOk, IsTrue, length, not, take, true};
ghost use Rattle.std.specs.List.{list_all};
ghost use Rattle.orc_datastore.specs.Legal.{state_of};
ghost use Rattle.orc_datastore.specs.Plans.{planned};
ghost use Rattle.orc_decls.specs.Calls.{is_call};
ghost use Rattle.orc_decls.specs.Declarations.{AreDecls};
ghost use Rattle.orc_rules.specs.Duties.{is_busy};
ghost use Rattle.orc_rules.specs.Hubs.{has_met_failure};
ghost use Rattle.orc_state.specs.States.{IsSnapshotAt};

use crate::undone::Undone;
use orc_call::{Answer, Call, RecFault};
use orc_datastore::{Plan, Snapshot};
use orc_decls::{Decls, is_call};
use orc_device::{Op, Reply};
use orc_disk::MemDisk;
use orc_hub::{Admit, Decided, Hub, Submitted};
use orc_journal::Journal;
use orc_rules::Duty;
use orc_state::snapshot_stays_at_front;
use orc_text::{Memory, Text};
use orc_tree::Tree;
use std::alloc::Global;
use std::marker::Model;

/// A hub, and a snapshot of its state for calls that come later. It is seen as whether the hub is down.
#[derive(Drop)]
pub(crate) struct Kept {
    hub: Hub<MemDisk>,
    begun: Option<Snapshot>,
}

impl Model for Kept {
    ghost use Rattle.orc_tables.specs.Kept.{IsKept};
    ghost use Rattle.std.specs.Prelude.{Bool};

    ghost Value = { Bool };

    ghost view = { λ kept. kept.hub.down };

    ghost invariant = { λ kept. IsKept kept.hub kept.begun };
}

// Whether an operation is due for what is done on a device.
fn is_busy(duty: &Duty) -> bool
    ensures { result ≡ is_busy duty.now }
{
    match duty {
        Duty::Free => false,
        Duty::Works(worker) => worker.is_due(),
        Duty::Mends(mender) => mender.is_due(),
    }
}

// Whether no operation is due for what is done on any device.
fn are_idle(duties: &[Duty]) -> bool
    ensures { result ≡ list_all (λ duty. not (is_busy duty)) duties.now }
{
    duties.iter().all(|duty| !is_busy(duty))
}

// Whether a reconciliation has met a failure.
fn has_met_failure(mends: Option<Option<RecFault>>) -> bool
    ensures { result ≡ has_met_failure mends }
{
    match mends {
        Some(Some(_)) => true,
        _ => false,
    }
}

// Whether a reconciliation may end: it has met a failure, or no operation is due any more.
fn may_finish(mends: Option<Option<RecFault>>, duties: &[Duty]) -> bool
    ensures { IsTrue result → has_met_failure mends ≡ false → list_all (λ duty. not (is_busy duty)) duties.now ≡ true }
{
    if has_met_failure(mends) {
        return true;
    }
    are_idle(duties)
}

// The front of a snapshot of the hub's history, and the plan of a call on it.
fn planned_on(
    alloc: Global,
    hub: &Hub<MemDisk>,
    snapshot: &Snapshot,
    call: &Call,
) -> Result<(u64, Result<Plan, Answer>), Memory>
    requires decls { AreDecls hub.now.decls }
    requires call { IsTrue (is_call hub.now.decls call.now) }
    requires at { IsSnapshotAt hub.now.decls hub.now.state.history snapshot.now }
    ensures front { IfOk result (λ found. found.0 ≤ length hub.now.state.history) }
    ensures plan { IfOk result (λ found. found.1
        ≡ planned hub.now.decls (state_of hub.now.decls (take found.0 hub.now.state.history)) found.0 call.now) }
{
    let plan = snapshot.plan(alloc, &hub.decls, call)?;
    Ok((snapshot.front(), plan))
}

impl Kept {
    /// A hub with these declarations over a disk, whose journal has at most so many bytes.
    pub(crate) fn start(
        alloc: Global,
        declared: &str,
        disk: MemDisk,
        limit: u32,
    ) -> Result<Kept, Undone> {
        match orc_bundle::read_scripted(alloc, declared.as_bytes()) {
            Ok(bundle) => Kept::over(alloc, bundle.decls, disk, limit),
            Err(_) => Err(Undone),
        }
    }

    // A hub with declarations that were read, over a disk, whose journal has at most so many bytes.
    fn over(alloc: Global, decls: Decls, disk: MemDisk, limit: u32) -> Result<Kept, Undone>
        requires decls { AreDecls decls }
        requires short { length decls.text < 2 ^ 32 }
    {
        match Journal::attach(alloc, disk, decls.text(), u64::from(limit)) {
            Ok((journal, entries)) => match Hub::start(alloc, decls, journal, entries) {
                Ok(hub) => Ok(Kept { hub, begun: None }),
                Err(_) => Err(Undone),
            },
            Err(_) => Err(Undone),
        }
    }

    /// The names of the devices.
    pub(crate) fn names(&self) -> &[Text] {
        self.hub.decls().names()
    }

    /// What is declared.
    pub(crate) fn decls(&self) -> &Decls {
        self.hub.decls()
    }

    /// Whether this is due on a device, if that is declared and the hub is up.
    pub(crate) fn is_tree_due(&self, device: u32, tree: &Tree) -> Result<bool, Undone> {
        if self.hub.down {
            return Err(Undone);
        }
        if device as usize >= self.hub.decls.names().len() {
            return Err(Undone);
        }
        Ok(self.hub.state.tree(device).equals(tree))
    }

    /// Whether nothing is under way.
    pub(crate) fn idle(&self) -> bool {
        self.hub.idle()
    }

    /// Whether an append failed.
    pub(crate) fn is_down(&self) -> bool
        ensures { result ≡ self.now }
    {
        self.hub.is_down()
    }

    /// The last answer to a caller and number.
    pub(crate) fn answer_of(&self, caller: &Text, number: u64) -> Option<&Answer> {
        self.hub.answer_of(caller, number)
    }

    /// The disk, and what is declared.
    pub(crate) fn into_parts(self) -> (MemDisk, Decls) {
        self.hub.into_parts()
    }

    /// Takes a snapshot of the state.
    pub(crate) fn begin(&mut self, alloc: Global) -> Result<(), Undone> {
        self.begun = Some(self.hub.begin(alloc)?);
        Ok(())
    }

    /// Plans a call on a snapshot that is taken now, or on the one that was taken, and submits it.
    pub(crate) fn submit(
        &mut self,
        alloc: Global,
        call: Call,
        is_late: bool,
    ) -> Result<Submitted, Undone> {
        snapshot_stays_at_front();
        if !is_call(alloc, &self.hub.decls, &call)? {
            return Err(Undone);
        }
        if self.hub.down {
            return Ok(self.hub.submit(alloc, call, 0, Err(Answer::Memory)));
        }
        if !is_late {
            let snapshot = self.hub.begin(alloc)?;
            let found = planned_on(alloc, &self.hub, &snapshot, &call)?;
            return Ok(self.hub.submit(alloc, call, found.0, found.1));
        }
        match &self.begun {
            Some(snapshot) => {
                let found = planned_on(alloc, &self.hub, snapshot, &call)?;
                Ok(self.hub.submit(alloc, call, found.0, found.1))
            }
            None => Err(Undone),
        }
    }

    /// Admits or answers the first waiting call that fits.
    pub(crate) fn admit(&mut self, alloc: Global) -> Result<Admit, Undone> {
        snapshot_stays_at_front();
        if self.hub.is_down() || self.hub.mends.is_some() {
            return Err(Undone);
        }
        Ok(self.hub.admit(alloc))
    }

    /// Decides or settles what is due.
    pub(crate) fn decide(&mut self, alloc: Global) -> Decided {
        snapshot_stays_at_front();
        self.hub.decide(alloc)
    }

    /// The operation that is due on a device, if it is declared.
    pub(crate) fn order(&self, alloc: Global, device: u32) -> Result<Option<Op>, Undone> {
        if device as usize >= self.hub.duties.len() {
            return Err(Undone);
        }
        Ok(self.hub.order(alloc, device)?)
    }

    /// The hub hears a reply from a device, where it waits for one.
    pub(crate) fn report(
        &mut self,
        alloc: Global,
        device: u32,
        reply: Reply,
        faults: u64,
    ) -> Result<(), Undone> {
        let place = device as usize;
        if place >= self.hub.stale.len() || place >= self.hub.duties.len() {
            return Err(Undone);
        }
        if !is_busy(&self.hub.duties.as_slice()[place]) {
            return Err(Undone);
        }
        self.hub.report(alloc, device, reply, faults);
        Ok(())
    }

    /// Begins a reconciliation, where nothing is under way.
    pub(crate) fn begin_reconcile(&mut self, alloc: Global) -> Result<Result<(), Memory>, Undone> {
        if self.hub.is_down() || !self.hub.idle() {
            return Err(Undone);
        }
        Ok(self.hub.begin_reconcile(alloc))
    }

    /// Ends it, where no operation is due any more.
    pub(crate) fn finish_reconcile(
        &mut self,
        alloc: Global,
    ) -> Result<Result<(), RecFault>, Undone> {
        if self.hub.is_down() || self.hub.mends.is_none() {
            return Err(Undone);
        }
        if !may_finish(self.hub.mends, self.hub.duties.as_slice()) {
            return Err(Undone);
        }
        Ok(self.hub.finish_reconcile(alloc))
    }
}
