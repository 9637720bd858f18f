//! Reconciliations: each device is brought to the tree that is due, and what isn't settled is settled.
ghost use Rattle.std.specs.Prelude.{◌≡◌, ◌<◌, false, true, not, IfOk, None, OnErr, OnOk, Some, is_some, length, map};
ghost use Rattle.std.specs.List.{list_all, range_with_len};
ghost use Rattle.orc_journal.specs.Opened.{IsReady};
ghost use Rattle.orc_rules.specs.Duties.{is_busy};
ghost use Rattle.orc_rules.specs.Events.{mender_freed};
ghost use Rattle.orc_rules.specs.Hubs.{has_met_failure};
ghost use Rattle.orc_rules.specs.Worlds.{IsIdle};
ghost use Rattle.orc_hub.specs.Hubs.{record_of};
ghost use Rattle.orc_hub.specs.Keeps.{IsSoundHub, KeepsHub};
ghost use Rattle.orc_hub.specs.Mends.{EndsMending, SettlesAll, SettlesOne, begun_on, begun_to_mend, mending_ended, names_device, resolved_on};

use crate::hub::Hub;
use crate::kept::{each_mending_begun_keeps, each_mending_ended_keeps};
use orc_call::RecFault;
use orc_disk::Disk;
use orc_hub_parts::Unsettled;
use orc_journal::{AppendFault, Entry};
use orc_recover::Mender;
use orc_rules::Duty;
use orc_text::{Memory, Row};
use std::alloc::Global;
use std::mem;

// Whether the Intent of a transaction names the device.
fn names_device(one: &Unsettled, device: u32) -> bool
    ensures { result ≡ names_device device one.now }
{
    one.devices.as_slice().iter().any(|other| *other == device)
}

// The unsettled transactions that name a device, each with whether it is decided.
fn resolved_on(
    alloc: Global,
    unsettled: &[Unsettled],
    device: u32,
) -> Result<Vec<(u64, bool)>, Memory>
    ensures { IfOk result (λ intents. intents.items ≡ resolved_on device unsettled.now) }
{
    let mut intents = Vec::new(alloc);
    for one in unsettled {
        if names_device(one, device) {
            intents.push((one.t, one.is_decided))?;
        }
    }
    Ok(intents)
}

// A mender that was unfinished lets the device go.
fn free(duty: &mut Duty)
    ensures { duty.new ≡ mender_freed duty.old }
{
    match duty {
        Duty::Mends(_) => {
            *duty = Duty::Free;
        }
        Duty::Free => {}
        Duty::Works(_) => {}
    }
}

// The menders let their devices go.
fn free_all(duties: &mut [Duty])
    ensures { duties.new ≡ map mender_freed duties.old }
{
    for duty in duties.iter_mut() {
        free(duty);
    }
}

impl<D: Disk> Hub<D> {
    /// Begins a reconciliation: on each device a mender has what isn't settled there and the tree that is
    /// due. If memory runs out, the hub is as it was. It asks that the hub is up and idle.
    pub fn begin_reconcile(&mut self, alloc: Global) -> Result<(), Memory>
        requires hub { IsSoundHub D.disk self.old }
        requires up { self.old.down ≡ false }
        requires idle { IsIdle (record_of self.old) }
        ensures ok { OnOk result (self.new ≡ begun_to_mend self.old) }
        ensures err { OnErr result (self.new ≡ self.old) }
        ensures kept { KeepsHub D.disk self.old self.new }
    {
        each_mending_begun_keeps::<D>();
        self.begin_mending(alloc)
    }

    // Begins it.
    fn begin_mending(&mut self, alloc: Global) -> Result<(), Memory>
        requires hub { IsSoundHub D.disk self.old }
        requires up { self.old.down ≡ false }
        ensures ok { OnOk result (self.new ≡ begun_to_mend self.old) }
        ensures err { OnErr result (self.new ≡ self.old) }
    {
        let duties = self.menders(alloc)?;
        self.duties = duties;
        self.mends = Some(None);
        Ok(())
    }

    // The menders of a reconciliation.
    fn menders(&self, alloc: Global) -> Result<Row<Duty>, Memory>
        requires hub { IsSoundHub D.disk self.now }
        requires up { self.now.down ≡ false }
        ensures { IfOk result (λ duties. duties
            ≡ map (begun_on self.now) (range_with_len 0 (length self.now.decls.names))) }
    {
        let mut duties = Row::new(alloc);
        for device in 0..self.decls.names().len() {
            duties.push(self.mender_on(alloc, device as u32)?)?;
        }
        Ok(duties)
    }

    // The mender of a device.
    fn mender_on(&self, alloc: Global, device: u32) -> Result<Duty, Memory>
        requires { device < length self.now.state.datastore.bases }
        ensures { IfOk result (λ duty. duty ≡ begun_on self.now device) }
    {
        let intents = resolved_on(alloc, self.log.unsettled.as_slice(), device)?;
        let due = self.state.tree(device).copy(alloc)?;
        Ok(Duty::Mends(Mender::new(intents, due)))
    }

    /// Ends a reconciliation, whatever it answers: by the first failure that it met, if one; else each
    /// transaction that isn't settled is. It takes no memory. It asks that a reconciliation was begun, and,
    /// where it met no failure, that no operation is due on any device.
    pub fn finish_reconcile(&mut self, alloc: Global) -> Result<(), RecFault>
        requires hub { IsSoundHub D.disk self.old }
        requires up { self.old.down ≡ false }
        requires begun { is_some self.old.mends ≡ true }
        requires done { has_met_failure self.old.mends ≡ false
            → list_all (λ duty. not (is_busy duty)) self.old.duties ≡ true }
        ensures ends { EndsMending D.disk self.old result self.new }
        ensures kept { KeepsHub D.disk self.old self.new }
    {
        each_mending_ended_keeps::<D>();
        self.finish_mending(alloc)
    }

    // Ends it.
    fn finish_mending(&mut self, alloc: Global) -> Result<(), RecFault>
        requires ready { IsReady D.disk self.old.log.journal }
        requires begun { is_some self.old.mends ≡ true }
        ensures { EndsMending D.disk self.old result self.new }
    {
        match self.mends {
            Some(Some(met)) => {
                self.end_mending(alloc);
                Err(met)
            }
            Some(None) => self.finish_all(alloc),
            None => unreachable!(),
        }
    }

    // Ends a reconciliation that met no failure.
    fn finish_all(&mut self, alloc: Global) -> Result<(), RecFault>
        requires ready { IsReady D.disk self.old.log.journal }
        requires well { self.old.mends ≡ Some None }
        ensures { EndsMending D.disk self.old result self.new }
    {
        match self.settle_all(alloc) {
            Ok(()) => {
                self.active = Row::new(alloc);
                self.end_mending(alloc);
                Ok(())
            }
            Err(fault) => {
                self.end_mending(alloc);
                Err(fault)
            }
        }
    }

    // The reconciliation is over.
    fn end_mending(&mut self, alloc: Global)
        ensures { self.new ≡ mending_ended self.old }
    {
        let mut duties = mem::replace(&mut self.duties, Row::new(alloc)).into_vec();
        free_all(duties.as_mut_slice());
        self.duties = Row::from_vec(duties);
        self.mends = None;
    }

    // Appends the Settled of each transaction that isn't settled, in the order of their numbers.
    fn settle_all(&mut self, alloc: Global) -> Result<(), RecFault>
        requires { IsReady D.disk self.old.log.journal }
        ensures { SettlesAll D.disk self.old result self.new }
    {
        while !self.log.unsettled.is_empty() {
            let t = self.log.unsettled.as_slice()[0].t;
            match self.settle_one(alloc, t) {
                Ok(()) => {}
                Err(fault) => return Err(fault),
            }
        }
        Ok(())
    }

    // Appends the Settled of a transaction.
    fn settle_one(&mut self, alloc: Global, t: u64) -> Result<(), RecFault>
        requires { IsReady D.disk self.old.log.journal }
        ensures { SettlesOne D.disk self.old t result self.new }
    {
        match self.write(alloc, &Entry::Settled { t }) {
            Ok(()) => Ok(()),
            Err(AppendFault::DiskFault) => Err(RecFault::DiskFault),
            Err(AppendFault::Full { len }) => Err(RecFault::Full { len }),
            Err(AppendFault::Memory) => unreachable!(),
        }
    }
}
