//! The operation due on a device.
ghost use Rattle.std.specs.Prelude.{◌≡◌, ◌<◌, false, true, IfOk, None, OnErr, length, if◌then◌else◌};
ghost use Rattle.orc_rules.specs.Hubs.{due_on, has_come_to, has_met_failure};
ghost use Rattle.orc_hub.specs.Hubs.{record_of};
ghost use Rattle.orc_hub.specs.Orders.{IsEditDue};

use crate::hub::Hub;
use orc_call::RecFault;
use orc_device::Op;
use orc_disk::Disk;
use orc_hub_parts::{next_op, none_busy_before};
use orc_text::Memory;
use std::alloc::Global;

/// Whether a reconciliation has met a failure.
pub(crate) fn has_met_failure(mends: Option<Option<RecFault>>) -> bool
    ensures { result ≡ has_met_failure mends }
{
    match mends {
        Some(Some(_)) => true,
        _ => false,
    }
}

impl<D: Disk> Hub<D> {
    /// A copy of the operation due on a device, or None exactly where none is due: nothing is done there,
    /// what is done there waits for a decision or has ended, a reconciliation has met a failure or hasn't
    /// come to the device, or the hub is down. The operation stays due until its report. It takes memory for
    /// an edit alone. While a reconciliation is begun it looks at the devices before this one.
    pub fn order(&self, alloc: Global, device: u32) -> Result<Option<Op>, Memory>
        requires { device < length self.now.duties }
        ensures order { IfOk result (λ op. op ≡ (if self.now.down then None else due_on (record_of self.now) device)) }
        ensures memory { OnErr result ((self.now.down ≡ false) × IsEditDue (record_of self.now) device) }
    {
        if self.down || has_met_failure(self.mends) {
            return Ok(None);
        }
        if !self.has_come_to(device) {
            return Ok(None);
        }
        self.order_on(alloc, device)
    }

    // Whether a reconciliation, where one is begun, has come to a device.
    fn has_come_to(&self, device: u32) -> bool
        requires { device < length self.now.duties }
        ensures { result ≡ has_come_to (record_of self.now) device }
    {
        match self.mends {
            None => true,
            Some(_) => none_busy_before(self.duties.as_slice(), device),
        }
    }

    // The operation that is due on a device, where the hub is up, and a reconciliation, if one is begun, has
    // met no failure and has come to the device.
    fn order_on(&self, alloc: Global, device: u32) -> Result<Option<Op>, Memory>
        requires within { device < length self.now.duties }
        requires up { self.now.down ≡ false }
        requires well { has_met_failure self.now.mends ≡ false }
        requires come { has_come_to (record_of self.now) device ≡ true }
        ensures order { IfOk result (λ op. op ≡ due_on (record_of self.now) device) }
        ensures memory { OnErr result ((self.now.down ≡ false) × IsEditDue (record_of self.now) device) }
    {
        let duty = &self.duties.as_slice()[device as usize];
        next_op(duty, alloc)
    }
}
