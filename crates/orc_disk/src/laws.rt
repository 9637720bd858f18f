//! A law of disks. The function does nothing: its contract is the law.
ghost use Rattle.orc_disk.specs.Moments.{OnlyNow};

use crate::disk::Disk;

/// What a crash since this moment may have left is just what a crash now may leave.
pub fn only_now<D: Disk>()
    ensures { OnlyNow D.disk }
{}
