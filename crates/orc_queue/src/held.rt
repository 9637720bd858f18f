//! What a planned call holds.
ghost use Rattle.std.specs.Prelude.{◌≡◌, ◌↔◌, IfOk, IsTrue};
ghost use Rattle.orc_queue.specs.Fitting.{FitTogether};

use crate::fitting::{cover_none, share_no_device, share_no_service};
use orc_expr::{ReadSet, Target};
use orc_text::{Copied, Memory, Row, Text};
use std::alloc::Global;

/// What a planned call holds: the numbers of its devices, the ids of the services that it names, what
/// it read, and what it may write on any data.
pub struct Held {
    pub devices: Row<u32>,
    pub services: Row<Text>,
    pub reads: ReadSet,
    pub targets: Row<Target>,
}

// Written out, so that a crate above lets go what a call holds by one call.
impl Drop for Held {
    fn drop(self) {
        let Held {
            devices: _,
            services: _,
            reads: _,
            targets: _,
        } = self;
    }
}

impl Held {
    /// Whether the two calls share no device and no service, and no target of either covers a read of
    /// the other. It takes no memory.
    pub fn fits(&self, other: &Held) -> bool
        ensures { IsTrue result ↔ FitTogether self.now other.now }
    {
        if !share_no_device(self.devices.as_slice(), other.devices.as_slice()) {
            return false;
        }
        if !share_no_service(self.services.as_slice(), other.services.as_slice()) {
            return false;
        }
        if !cover_none(self.targets.as_slice(), other.reads.reads.as_slice()) {
            return false;
        }
        cover_none(other.targets.as_slice(), self.reads.reads.as_slice())
    }

    /// An equal value.
    pub fn copy(&self, alloc: Global) -> Result<Held, Memory>
        ensures { IfOk result (λ held. held ≡ self.now) }
    {
        Ok(Held {
            devices: copied_devices(alloc, self.devices.as_slice())?,
            services: self.services.copy(alloc)?,
            reads: self.reads.copy(alloc)?,
            targets: self.targets.copy(alloc)?,
        })
    }
}

impl Copied for Held {
    fn copied(&self, alloc: Global) -> Result<Held, Memory> {
        self.copy(alloc)
    }
}

// Copies of the numbers of devices.
fn copied_devices(alloc: Global, devices: &[u32]) -> Result<Row<u32>, Memory>
    ensures { IfOk result (λ copies. copies ≡ devices.now) }
{
    let mut copies = Row::new(alloc);
    for device in devices {
        copies.push(*device)?;
    }
    Ok(copies)
}
