//! What a device promises.
ghost use Rattle.std.specs.Prelude.{◌≡◌, ◌≤◌, ℕ};
ghost use Rattle.orc_io.specs.Counts.{Rose};
ghost use Rattle.orc_device.specs.Operations.{IsLinkFault};

use crate::op::Op;
use crate::reply::Reply;

/// A device, over a link that may fail.
pub trait Device: Drop {
    /// How often its link failed.
    ghost faults: { Self → ℕ };

    /// Performs an operation. `Fault` comes only where the count of faults rose.
    fn perform(&mut self, op: &Op) -> Reply
        ensures later { faults self.old ≤ faults self.new }
        ensures cause { IsLinkFault result → Rose (faults self.old) (faults self.new) };

    /// How often the link failed. At its last value the count stays.
    fn faults(&self) -> u64
        ensures { result ≡ faults self.now };
}
