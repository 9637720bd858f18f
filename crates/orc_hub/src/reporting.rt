//! Reports of operations.
ghost use Rattle.std.specs.Prelude.{◌≡◌, ◌<◌, IsTrue, length};
ghost use Rattle.std.specs.Option.{option_map, option_or};
ghost use Rattle.orc_rules.specs.Duties.{duty_end};
ghost use Rattle.orc_rules.specs.Hubs.{duty_on, mend_fault, hub_reported};
ghost use Rattle.orc_hub.specs.Hubs.{record_of, with_record};
ghost use Rattle.orc_hub.specs.Orders.{is_awaited};
ghost use Rattle.orc_hub.specs.Keeps.{KeepsHub};

use crate::hub::Hub;
use crate::kept::each_report_keeps;
use orc_call::RecFault;
use orc_device::Reply;
use orc_disk::Disk;
use orc_hub_parts::{mend_fault, retire_all, take_on};
use orc_recover::Mend;
use orc_text::Row;
use std::alloc::Global;
use std::mem;

// What a reconciliation has met after the end of mending on a device.
fn met_by(
    mends: Option<Option<RecFault>>,
    device: u32,
    end: Option<Mend>,
) -> Option<Option<RecFault>>
    ensures { result ≡ option_map (λ met. option_or met (mend_fault device end)) mends }
{
    match mends {
        None => None,
        Some(met) => Some(met.or(mend_fault(device, end))),
    }
}

impl<D: Disk> Hub<D> {
    /// Takes the reply to the operation due on a device, with its link's count of faults. It takes no
    /// memory.
    pub fn report(&mut self, alloc: Global, device: u32, reply: Reply, faults: u64)
        requires awaited { IsTrue (is_awaited (record_of self.old) device) }
        requires within { device < length self.old.duties }
        requires known { device < length self.old.stale }
        ensures reports { self.new ≡ with_record self.old (hub_reported device reply faults (record_of self.old)) }
        ensures kept { KeepsHub D.disk self.old self.new }
    {
        each_report_keeps::<D>();
        self.take_report(alloc, device, reply, faults);
    }

    // Takes the reply.
    fn take_report(&mut self, alloc: Global, device: u32, reply: Reply, faults: u64)
        requires awaited { IsTrue (is_awaited (record_of self.old) device) }
        requires within { device < length self.old.duties }
        requires known { device < length self.old.stale }
        ensures { self.new ≡ with_record self.old (hub_reported device reply faults (record_of self.old)) }
    {
        let mut duties = mem::replace(&mut self.duties, Row::new(alloc)).into_vec();
        let mut stale = mem::replace(&mut self.stale, Row::new(alloc)).into_vec();
        let mut active = mem::replace(&mut self.active, Row::new(alloc)).into_vec();
        let end = take_on(
            duties.as_mut_slice(),
            stale.as_mut_slice(),
            device,
            reply,
            faults,
        );
        retire_all(alloc, active.as_mut_slice(), duties.as_slice());
        self.mends = met_by(self.mends, device, end);
        self.duties = Row::from_vec(duties);
        self.stale = Row::from_vec(stale);
        self.active = Row::from_vec(active);
    }
}
